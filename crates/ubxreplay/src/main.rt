// ubxreplay: reads a script that sets up receivers, makes them and calls them, and prints what they answer. The lines are read by crate
// `script`, the calls are replayed by crate `replay`, and the arguments are read by crate `options`; here are the order of the lines and the
// printing.
#![tactic(auto)]

mod answers;
mod help;
mod office;
mod reading;
mod said;
mod seen;
mod session;

use crate::office::Host;
use anyhow::anyhow;
use help::HELP;
use options::{Input, run};
use session::Session;
use std::alloc::Global;
use std::io;
use std::io::Write;
use std::process::ExitCode;

fn main(rt: HostRuntime) -> ExitCode {
    run(&rt, "ubxreplay", HELP, |input, out| {
        let heap = rt.alloc();
        let text = text_of(heap, input)?;
        answer_script(heap, out, text.as_str())
    })
}

// The whole input, as a text. A file that is none is named.
fn text_of(heap: Global, input: Input) -> anyhow::Result<String> {
    match input {
        Input::Standard(input) => Ok(io::read_to_string(heap, input)?),
        Input::File(path, file) => {
            io::read_to_string(heap, file).map_err(|fault| anyhow!("{path}: {fault}"))
        }
    }
}

// A transaction that the script leaves begun is abandoned, whether or not all lines were answered.
fn answer_script<W: Write>(heap: Global, out: &mut W, text: &str) -> anyhow::Result<()> {
    let mut host = Host::Idle;
    let answered = answer_lines(heap, out, &mut host, text);
    let _end = host.abandon();
    answered
}

fn answer_lines<W: Write>(
    heap: Global,
    out: &mut W,
    host: &mut Host,
    text: &str,
) -> anyhow::Result<()> {
    let mut session = Session::new(heap, out, host);
    for (index, line) in text.lines().enumerate() {
        session.take_line(index.saturating_add(1), line)?;
    }
    session.finish()
}

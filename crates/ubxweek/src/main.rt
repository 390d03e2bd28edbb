// ubxweek: a configuration's way from the office to the rock and back, told day by day with the bytes that pass. The office writes with crate
// `host` and reads with crate `reply`; the board is a receiver with a slot table for BBR and, under a saver, a journal for Flash.
//
// board.rt  the board on the rock, and the radio before it
// story.rt  what is told of each day
// weeks.rt  the four weeks
// text.rt   bytes, words and settings as text
#![tactic(auto)]

mod board;
mod help;
mod story;
mod text;
mod weeks;

use anyhow::bail;
use help::HELP;
use options::{Input, run};
use std::process::ExitCode;
use weeks::tell_weeks;

fn main(rt: HostRuntime) -> ExitCode {
    run(&rt, "ubxweek", HELP, |input, out| {
        if let Input::File(path, _) = input {
            bail!("no file is read: {path}; see --help");
        }
        tell_weeks(rt.alloc(), out)
    })
}

// A whole run of a program: what its arguments ask for is done, and a failure is told.
ghost use Rattle.std.specs.Prelude.{◌≡◌, ◌≢◌, ◌≤◌, is_ok, OnOk, Ok, if◌then◌else◌};
ghost use Rattle.options.specs.declared.arguments.Options.TheVariants.{Help};
ghost use Rattle.std.specs.Process.{exit_status};

use crate::arguments::{Options, read_options};
use crate::input::Input;
use anyhow::anyhow;
use std::io::{BufWriter, Stdout, Write};
use std::process::ExitCode;
use std::rt::HostRuntime;
use std::{env, fs};

// Prints the help, or has `work` print what it makes of the input. A failure is said once, by the program's name; a returned error would be
// printed by the runtime as well.
pub fn run<F: FnOnce(Input, &mut BufWriter<Stdout>) -> anyhow::Result<()>>(
    rt: &HostRuntime,
    name: &str,
    help: &str,
    work: F,
) -> ExitCode
    requires { F.IsAlwaysCallable work }
    ensures status { exit_status result ≤ 1 }
{
    told(rt, name, attempt(rt, help, work))
}

// The status that an outcome is told by; a failure is said as well.
fn told(rt: &HostRuntime, name: &str, outcome: anyhow::Result<()>) -> ExitCode
    ensures { exit_status result ≡ (if is_ok outcome then 0 else 1) }
{
    match outcome {
        Ok(()) => ExitCode::SUCCESS,
        Err(fault) => {
            let _ = eprintln!(rt; "{name}: {fault}");
            ExitCode::FAILURE
        }
    }
}

fn attempt<F: FnOnce(Input, &mut BufWriter<Stdout>) -> anyhow::Result<()>>(
    rt: &HostRuntime,
    help: &str,
    work: F,
) -> anyhow::Result<()>
    requires { F.IsAlwaysCallable work }
{
    let mut out = BufWriter::new(rt.alloc(), rt.stdout())?;
    print(rt, read_options(env::args(rt)?)?, help, work, &mut out)?;
    out.flush()?;
    Ok(())
}

// Prints what was asked for; where that is no help and nothing fails, the work was done, and it did not fail.
fn print<F: FnOnce(Input, &mut BufWriter<Stdout>) -> anyhow::Result<()>>(
    rt: &HostRuntime,
    asked: Options,
    help: &str,
    work: F,
    out: &mut BufWriter<Stdout>,
) -> anyhow::Result<()>
    requires { F.IsAlwaysCallable work }
    ensures { OnOk result (asked ≢ Help → (input : _) × (before : _) × (after : _) × F.post work input before (Ok tt) after) }
{
    match asked {
        Options::Help => Ok(out.write_all(help.as_bytes())?),
        Options::StandardInput => Ok(work(Input::Standard(rt.stdin()), out)?),
        Options::File(path) => {
            let file = fs::open(rt, path.as_str()).map_err(|fault| anyhow!("{path}: {fault}"))?;
            Ok(work(Input::File(path, file), out)?)
        }
    }
}

// ubxmon: lists the UBX frames in what came over a line. The work is done in crate `monitor`, the arguments and the input are read by crate
// `options`; here is the printing.
#![tactic(auto)]

mod help;
mod listing;

use help::HELP;
use listing::list;
use options::run;
use std::process::ExitCode;

fn main(rt: HostRuntime) -> ExitCode {
    run(
        &rt,
        "ubxmon",
        HELP,
        |mut input, out| list(rt.alloc(), &mut input, out),
    )
}

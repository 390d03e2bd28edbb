// ubxlist: lists what a receiver answers to the frames in what came over a line. The work is done in crate `receiver`, the arguments and the
// input are read by crate `options`; here is the printing.
#![tactic(auto)]

mod help;
mod listing;
mod row;

use help::HELP;
use listing::list;
use options::run;
use std::process::ExitCode;

fn main(rt: HostRuntime) -> ExitCode {
    run(&rt, "ubxlist", HELP, |mut input, out| list(&mut input, out))
}

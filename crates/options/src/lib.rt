// What the programs of this repository share.
//
// arguments.rt  what the arguments ask for
// input.rt      the input, and its reading in pieces
// program.rt    a whole run, and how its failure is told
#![tactic(auto)]

mod arguments;
mod input;
mod program;

pub use arguments::{Options, read_options};
pub use input::{Input, for_each_piece};
pub use program::run;

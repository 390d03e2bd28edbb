// The receiver for C: a static library with a few functions over numbers and slices. Behind them stands one receiver, with a slot table for BBR
// and a journal under a saver for Flash, whose words C gives at making.
//
// numbers.rt  what crosses to C: structs of numbers
// board.rt    a receiver, called with numbers
// parts.rt    a box taken apart: its pointer and its allocator
// handle.rt   what C has of a board
// calls.rt    the functions that C calls
#![tactic(auto)]

mod board;
mod calls;
mod handle;
mod numbers;
mod parts;

pub use board::{Board, MakeFault};
pub use calls::{
    ubx_answer, ubx_end, ubx_inspect, ubx_look, ubx_make, ubx_restart, ubx_take, ubx_words,
};
pub use handle::Handle;
pub use numbers::{
    UbxAnswered, UbxEntry, UbxInspected, UbxLooked, UbxNeed, UbxRestarted, UbxTaken,
};

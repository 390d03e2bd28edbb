// A line monitor: it is fed what comes over a line, piece by piece, and lists the frames that got through.
//
// row.rt          the lines of a listing
// state.rt        what a monitor has of a line
// state/calls.rt  feeding it, and asking for its counts
#![tactic(auto)]

mod row;
mod state;

pub use row::{Counts, Row};
pub use state::Monitor;
pub use state::calls::FeedFault;

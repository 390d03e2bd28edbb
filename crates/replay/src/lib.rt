// Replaying a list of calls: a receiver is made, carries them out one after the other, and what each was answered is logged. The law over runs
// stands on the log and the layers that are left.
//
// event.rt      what is logged of a call
// unlogged.rt   why a call has no event of its own
// replaying.rt  carrying out calls
// watch.rt      seeing the receiver between the calls
#![tactic(auto)]

mod event;
mod replaying;
mod unlogged;
mod watch;

pub use event::{Answering, Event};
pub use replaying::{Replayed, replay, replay_watched};
pub use watch::{Unwatched, Watch};

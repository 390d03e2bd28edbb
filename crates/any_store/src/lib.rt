// A store that is chosen at run time, for programs that learn only then which store there is.
//
// any.rt  the store, and its words where it is a journal
#![tactic(auto)]

mod any;

pub use any::AnyStore;

// Layers: what holds settings, and what they mean together. Whatever two stores stand beneath a receiver, it must be right; so a layer *is* the
// settings that it means, and each implementation shows that meaning once.
//
// setting.rt   a value under a key
// traits.rt    the traits of a readable layer and of a store
// fault.rt     why a store refuses a write
// absent.rt    a place that is not there
// saver.rt     over any store, puts below only what differs
// stack.rt     one layer over another
// asking.rt    code over any store
#![tactic(auto)]

mod absent;
mod asking;
mod fault;
mod saver;
mod setting;
mod stack;
mod traits;

pub use absent::Absent;
pub use asking::put_then_ask;
pub use fault::StoreFault;
pub use saver::Saver;
pub use setting::Setting;
pub use stack::{Stack, over_nothing, regrouped, under_nothing};
pub use traits::{Layer, Store};

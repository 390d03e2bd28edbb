// What is done to stores under a catalogue, for any store, layer and rule. Nothing here allocates.
//
// writing.rt    one write to a store: a value put, removed, or all cleared
// applying.rt   applying changes; what a lost battery leaves
// judging.rt    one value for each item, and what a rule finds in them
// trying.rt     what a rule would find in a table once changes are applied
// gathering.rt  what a layer holds, gathered into a slot table
// stacking.rt   stacking RAM
// straying.rt   the least key that a layer holds and no item has
// checking.rt   the check of the parts of a receiver
// meaning.rt    what a store of the code is to the reference, for contracts
#![tactic(auto)]

mod applying;
mod checking;
mod gathering;
mod judging;
mod meaning;
mod stacking;
mod straying;
mod trying;
mod writing;

pub use applying::{after_battery, apply_changes};
pub use checking::check;
pub use gathering::gathered;
pub use judging::fault_in;
pub use meaning::StoreMeaning;
pub use stacking::{Pile, Stacked, stack_ram};
pub use straying::{is_known, stray_key};
pub use trying::fault_after;

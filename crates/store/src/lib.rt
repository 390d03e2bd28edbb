// The layers that a receiver is built on: a table of slots, and the defaults of a catalogue.
//
// table.rt     a table of 128 slots
// defaults.rt  the defaults of a catalogue
#![tactic(auto)]

mod defaults;
mod table;

pub use defaults::Defaults;
pub use table::SlotTable;

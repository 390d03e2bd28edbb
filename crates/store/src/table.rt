// A table of 128 slots, each free or used for a setting. Putting and removing change one slot in its place.
ghost use Rattle.std.specs.Prelude.{◌≡◌, true, length};
ghost use Rattle.store.specs.Slots.{apart, sound};

use layer::Setting;

pub mod calls;

#[derive(Drop)]
pub struct SlotTable {
    // kept: a removal writes one slot and leaves each other setting in its own, where a vector would move one; and the two facts below are of all
    // settings, whatever holds them
    slots: [Option<Setting>; 128],
    ghost whole: { length slots ≡ 128 },
    // no two used slots have one key
    ghost distinct: { apart slots ≡ true },
    // each used slot's value may stand under its key
    ghost fit: { sound slots ≡ true },
}

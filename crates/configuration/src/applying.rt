// Applying changes to a store, and what is left of one when its battery was lost.
ghost use Rattle.std.specs.Prelude.{◌≡◌};
ghost use Rattle.catalogue.specs.Owned.{entries_of};
ghost use Rattle.reference.specs.Receiver.{written_one, written, after_battery};
ghost use Rattle.request.specs.Changes.{change_of, changes_by, slots_of};
ghost use Rattle.configuration.specs.Writes.{WroteOne, Wrote, WroteByBattery};

use crate::meaning::StoreMeaning;
use crate::writing::{clear_all, put_value, remove_value};
use catalogue::Catalogue;
use layer::{Layer, Store};
use reference::Battery;
use request::{Change, ItemChanges};

// One item's change, if it has one.
fn apply_one<S: Store>(store: &mut S, key: u32, change: Option<Change>)
    ensures after { ⟦<S as StoreMeaning>⟧.store store.new ≡ written_one (change_of change) key (⟦<S as StoreMeaning>⟧.store store.old) }
    ensures wrote { WroteOne ⟦<S as StoreMeaning>⟧.memory (change_of change) key store.old store.new }
{
    match change {
        None => {}
        Some(Change::Put(value)) => put_value(store, key, value),
        Some(Change::Remove) => remove_value(store, key),
    }
}

// Applies what becomes of each item, in ascending key order, each by one write. What the store refuses is passed over.
#[tactic(auto, using(crate::proofs::Written::by_end))]
pub fn apply_changes<S: Store>(catalogue: &Catalogue, changes: &ItemChanges, store: &mut S)
    ensures after { ⟦<S as StoreMeaning>⟧.store store.new ≡ written (entries_of catalogue.now) (changes_by (entries_of catalogue.now) (slots_of changes.now)) (⟦<S as StoreMeaning>⟧.store store.old) }
    ensures wrote { Wrote ⟦<S as StoreMeaning>⟧.memory (entries_of catalogue.now) (changes_by (entries_of catalogue.now) (slots_of changes.now)) store.old store.new }
{
    for (item, entry) in catalogue.entries().iter().enumerate() {
        apply_one(store, entry.key, changes.at(item));
    }
}

// A store that a battery keeps: cleared once where the battery was lost, else not written to. Clause `memory`: the memory that the contracts
// name is made of the store's own members.
pub fn after_battery<S: Store>(battery: Battery, store: &mut S)
    ensures after { ⟦<S as StoreMeaning>⟧.store store.new ≡ after_battery battery (⟦<S as StoreMeaning>⟧.store store.old) }
    ensures memory { ⟦<S as StoreMeaning>⟧.memory ≡ record { words = S.Store.memory; put = S.Store.memory_put; removed = S.Store.memory_removed; cleared = S.Store.memory_cleared } }
    ensures wrote { WroteByBattery ⟦<S as StoreMeaning>⟧.memory battery store.old store.new }
{
    match battery {
        Battery::Kept => {}
        Battery::Lost => clear_all(store),
    }
}

// What a rule would find in a table once changes are applied to it. The table stays as it is.
ghost use Rattle.std.specs.Prelude.{◌≡◌, [], MatchOption};
ghost use Rattle.catalogue.specs.Owned.{entries_of};
ghost use Rattle.reference.specs.Receiver.{written, configuration};
ghost use Rattle.request.specs.Changes.{changes_by, slots_of};
ghost use Rattle.configuration.specs.Trying.{Becomes, StepTo};

use crate::applying::apply_changes;
use crate::judging::fault_in;
use crate::meaning::StoreMeaning;
use arrayvec::ArrayVec;
use catalogue::Catalogue;
use item::fits_key;
use layer::Layer;
use request::{Change, ItemChanges};
use rule::{Configuration, Rule};
use store::SlotTable;

// What a value that is held under a key becomes; none where the change takes it away or would be refused.
fn value_after(key: u32, held: u64, change: Option<Change>) -> Option<u64>
    ensures { MatchOption result (Unit {0}) (λ v. Becomes key held change v) }
{
    match change {
        None => Some(held),
        Some(Change::Put(value)) => fits_key(key, value).then_some(value),
        Some(Change::Remove) => None,
    }
}

// What an item's value becomes, where the table holds one.
fn item_after(table: &SlotTable, key: u32, change: Option<Change>) -> Option<u64>
    ensures { MatchOption result (Unit {0}) (λ v. StepTo (⟦<SlotTable as StoreMeaning>⟧.store table.now) key change v) }
{
    value_after(key, table.value(key)?, change)
}

// The values that the table would give, behind none yet; None where they are not as plain as this, and have to be tried.
// kept: they are written where the caller keeps them, since an Option of them is a kilobyte that would be handed on at each step
fn values_after(
    catalogue: &Catalogue,
    changes: &ItemChanges,
    table: &SlotTable,
    values: &mut ArrayVec<u64, 128>,
) -> Option<()>
    requires { values.old.items ≡ [] }
    ensures { MatchOption result (Unit {0}) (λ _. values.new.items ≡ configuration (entries_of catalogue.now) (written (entries_of catalogue.now) (changes_by (entries_of catalogue.now) (slots_of changes.now)) (⟦<SlotTable as StoreMeaning>⟧.store table.now))) }
{
    for (item, entry) in catalogue.entries().iter().enumerate() {
        values.push(item_after(table, entry.key, changes.at(item))?);
    }
    Some(())
}

// The item at fault by trying: the changes are applied to a copy.
fn fault_by_trying<R: Rule>(
    catalogue: &Catalogue,
    changes: &ItemChanges,
    table: &SlotTable,
    rule: &R,
) -> Option<usize>
    ensures { result ≡ R.Rule.finding rule.now (entries_of catalogue.now) (configuration (entries_of catalogue.now) (written (entries_of catalogue.now) (changes_by (entries_of catalogue.now) (slots_of changes.now)) (⟦<SlotTable as StoreMeaning>⟧.store table.now))) }
{
    let mut tried = table.copied();
    apply_changes(catalogue, changes, &mut tried);
    fault_in(catalogue, &tried, rule)
}

// The item at fault once changes are applied to a table: none where the rule finds it fit.
// kept: two ways, since a table with a value under each key need not be copied to tell; it is what RAM is, but the type does not say so
pub fn fault_after<R: Rule>(
    catalogue: &Catalogue,
    changes: &ItemChanges,
    table: &SlotTable,
    rule: &R,
) -> Option<usize>
    ensures { result ≡ R.Rule.finding rule.now (entries_of catalogue.now) (configuration (entries_of catalogue.now) (written (entries_of catalogue.now) (changes_by (entries_of catalogue.now) (slots_of changes.now)) (⟦<SlotTable as StoreMeaning>⟧.store table.now))) }
{
    let mut values = ArrayVec::new();
    match values_after(catalogue, changes, table, &mut values) {
        Some(()) => rule.find(Configuration {
            entries: catalogue.entries(),
            values: values.as_slice(),
        }),
        None => fault_by_trying(catalogue, changes, table, rule),
    }
}

// One value for each item, and what a rule finds in them.
ghost use Rattle.std.specs.Prelude.{◌≡◌, map};
ghost use Rattle.catalogue.specs.Owned.{entries_of};
ghost use Rattle.reference.specs.Receiver.{configuration};
ghost use Rattle.configuration.specs.Meaning.{item_value};

use crate::meaning::StoreMeaning;
use arrayvec::ArrayVec;
use catalogue::{Catalogue, Entry};
use layer::{Layer, Store};
use rule::{Configuration, Rule};

// The value that the store holds for an item, else its default.
fn value_in<S: Store>(store: &S, entry: &Entry) -> u64
    ensures { result ≡ item_value (⟦<S as StoreMeaning>⟧.store store.now) entry.now }
{
    store.value(entry.key).unwrap_or(entry.default)
}

// The configuration that a store gives: a value for each item.
fn values_in<S: Store>(catalogue: &Catalogue, store: &S) -> ArrayVec<u64, 128>
    ensures { result.items ≡ map (item_value (⟦<S as StoreMeaning>⟧.store store.now)) (entries_of catalogue.now) }
{
    let mut values = ArrayVec::new();
    for entry in catalogue.entries() {
        values.push(value_in(store, entry));
    }
    values
}

// The item at fault in the configuration that a store gives: none where the rule finds it fit.
#[tactic(auto, using(crate::proofs::Rows::configuration_map))]
pub fn fault_in<S: Store, R: Rule>(catalogue: &Catalogue, store: &S, rule: &R) -> Option<usize>
    ensures { result ≡ R.Rule.finding rule.now (entries_of catalogue.now) (configuration (entries_of catalogue.now) (⟦<S as StoreMeaning>⟧.store store.now)) }
{
    let values = values_in(catalogue, store);
    rule.find(Configuration {
        entries: catalogue.entries(),
        values: values.as_slice(),
    })
}

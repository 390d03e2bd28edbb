// The defaults of a catalogue: a layer that holds for each item its default. Of a catalogue that the check refuses it holds nothing, so that it
// is lawful whatever it was made from. The catalogue is kept as such, for one who needs it as well.
ghost use Rattle.std.specs.Prelude.{◌≡◌};
ghost use Rattle.catalogue.specs.Owned.{entries_of, accepted_entries};
ghost use Rattle.store.specs.Catalogued.{defaults_of, catalogue_defaults};
ghost use Rattle.store.specs.CataloguedLemmas.{defaults_ascend, defaults_sound};

use catalogue::{Catalogue, Entry};
use layer::Layer;

#[derive(Drop)]
pub struct Defaults {
    pub catalogue: Catalogue,
}

impl Defaults {
    // The defaults of a catalogue; none where the check refuses it.
    pub fn new(catalogue: &[Entry]) -> Defaults
        ensures entries { entries_of result.catalogue ≡ accepted_entries catalogue.now }
        ensures settings { defaults_of (entries_of result.catalogue) ≡ catalogue_defaults catalogue.now }
    {
        Defaults {
            catalogue: Catalogue::new(catalogue),
        }
    }
}

impl Layer for Defaults {
    ghost settings = { λ d. defaults_of (entries_of d.catalogue) };

    ghost ascends = { λ d. defaults_ascend (entries_of d.catalogue) d.catalogue.checked };

    ghost sound = { λ d. defaults_sound (entries_of d.catalogue) d.catalogue.checked };

    fn value(&self, key: u32) -> Option<u64> {
        self.catalogue
            .entries()
            .iter()
            .find(|entry| entry.key == key)
            .map(|entry| entry.default)
    }

    // The keys of a checked catalogue ascend, so the first above the number is the least.
    fn next_key(&self, number: u32) -> Option<u32> {
        self.catalogue
            .entries()
            .iter()
            .find(|entry| entry.key > number)
            .map(|entry| entry.key)
    }
}

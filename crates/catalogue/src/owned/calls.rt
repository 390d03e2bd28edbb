// Copying a catalogue, lending its entries, and finding an item.
ghost use Rattle.std.specs.Prelude.{◌≡◌, ◌≤◌, true, length, is_ok, Ok, Err, MatchResult};
ghost use Rattle.catalogue.specs.Catalogues.{entries_checked, catalogue_checked, Listed, FirstWith};
ghost use Rattle.catalogue.specs.Owned.{entries_of, accepted_entries};

use super::Catalogue;
use crate::entries::{CatalogueFault, Entry, check_catalogue};
use arrayvec::ArrayVec;

impl Catalogue {
    // A copy of entries that were checked: the check lets through no more than there is room for.
    fn copied(entries: &[Entry]) -> Catalogue
        requires few { length entries.now ≤ 128 }
        requires checked { is_ok (entries_checked 0 0 entries.now) ≡ true }
        ensures { entries_of result ≡ entries.now }
    {
        let mut copy = ArrayVec::new();
        copy.try_extend_from_slice(entries).unwrap();
        Catalogue { entries: copy }
    }

    // A copy of the entries, or why the check refuses them.
    pub fn checked(entries: &[Entry]) -> Result<Catalogue, CatalogueFault>
        ensures { MatchResult result (λ c. (catalogue_checked entries.now ≡ Ok tt) × (entries_of c ≡ entries.now)) (λ f. catalogue_checked entries.now ≡ Err f) }
    {
        check_catalogue(entries)?;
        Ok(Catalogue::copied(entries))
    }

    // A copy of the entries; of none where the check refuses them.
    pub fn new(entries: &[Entry]) -> Catalogue
        ensures { entries_of result ≡ accepted_entries entries.now }
    {
        match check_catalogue(entries) {
            Ok(()) => Catalogue::copied(entries),
            Err(_) => Catalogue::copied(&[]),
        }
    }

    // The entries that were copied.
    pub fn entries(&self) -> &[Entry]
        ensures value { result.now ≡ entries_of self.now }
        ensures few { length result.now ≤ 128 }
        ensures listed { Listed 0 result.now }
    {
        self.entries.as_slice()
    }

    // The number of the item with this key. Keys ascend, so a binary search finds it.
    pub fn find(&self, key: u32) -> Option<usize>
        ensures { FirstWith key (entries_of self.now) result }
    {
        self.entries()
            .binary_search_by_key(&key, |entry| entry.key)
            .ok()
    }
}

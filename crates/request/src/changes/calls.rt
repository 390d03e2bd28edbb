// Making changes, setting one item's, and joining later ones to earlier ones.
ghost use Rattle.std.specs.Prelude.{◌≡◌, ◌≤◌, ℕ, List, length, replicate, slice_index_or, slice_set};
ghost use Rattle.catalogue.specs.declared.entries.Entry.{Entry};
ghost use Rattle.reference.specs.Requests.{and_later};
ghost use Rattle.request.specs.Changes.{changes_by, slots_of};

use super::{ItemChanges, Outcome};
use crate::change::Change;

impl ItemChanges {
    // No item changes.
    #[tactic(auto, using(crate::proofs::Slots::none_stay))]
    pub fn none() -> ItemChanges
        ensures { slots_of result ≡ replicate 128 None }
    {
        ItemChanges {
            outcomes: [Outcome::Stays; 128],
            values: [0; 128],
        }
    }

    // No item changes any more.
    #[tactic(auto, using(crate::proofs::Slots::none_stay))]
    pub fn forget(&mut self)
        ensures { slots_of self.new ≡ replicate 128 None }
    {
        self.outcomes = [Outcome::Stays; 128];
    }

    // What becomes of an item; nothing of one beyond the 128th.
    #[tactic(auto, using(crate::proofs::Slots::at_none, crate::proofs::Slots::at_put, crate::proofs::Slots::at_remove, crate::proofs::Slots::at_beyond))]
    pub fn at(&self, item: usize) -> Option<Change>
        ensures { result ≡ slice_index_or (slots_of self.now) item None }
    {
        if item >= 128 {
            return None;
        }
        match self.outcomes[item] {
            Outcome::Stays => None,
            Outcome::Put => Some(Change::Put(self.values[item])),
            Outcome::Remove => Some(Change::Remove),
        }
    }

    // One item changes so; an item beyond the 128th is passed over.
    #[tactic(auto, using(crate::proofs::Slots::set_none, crate::proofs::Slots::set_remove, crate::proofs::Slots::set_put, crate::proofs::Slots::set_beyond))]
    pub fn set(&mut self, item: usize, change: Option<Change>)
        ensures { slots_of self.new ≡ slice_set (slots_of self.old) item change }
    {
        if item >= 128 {
            return;
        }
        match change {
            None => self.outcomes[item] = Outcome::Stays,
            Some(Change::Put(value)) => {
                self.outcomes[item] = Outcome::Put;
                self.values[item] = value;
            }
            Some(Change::Remove) => self.outcomes[item] = Outcome::Remove,
        }
    }

    // Earlier changes under these, of the first so many items: where such an item does not change by these, it changes as it did earlier.
    pub fn put_under(&mut self, earlier: &ItemChanges, items: usize)
        ensures joined { (es : List Entry) → length es ≤ items → length es ≤ 128 → changes_by es (slots_of self.new) ≡ and_later (changes_by es (slots_of earlier.now)) (changes_by es (slots_of self.old)) }
        ensures others { (i : ℕ) → items ≤ i → slice_index_or (slots_of self.new) i None ≡ slice_index_or (slots_of self.old) i None }
    {
        for item in 0..items.min(128) {
            if self.at(item).is_none() {
                self.set(item, earlier.at(item));
            }
        }
    }
}

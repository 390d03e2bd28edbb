// The walk over the data of a set or delete: pairs of key and value, or keys and selectors, from byte 4 on and at most 64.
ghost use Rattle.std.specs.Prelude.{◌≡◌, ◌≤◌, ℕ, map, length, replicate, slice_index_or, IfErr};
ghost use Rattle.catalogue.specs.Catalogues.{key_at, named};
ghost use Rattle.catalogue.specs.Owned.{entries_of};
ghost use Rattle.item.specs.Selectors.{selector_of};
ghost use Rattle.reference.specs.Requests.{read_map, pair_read, deletion_read, keys_named, named_read, deleted, latest, ok_map, data_of};
ghost use Rattle.request.specs.Changes.{slots_of};
ghost use Rattle.request.specs.Reading.{pair_in, fault_at, entry_read, SameBehind, Taken, read_as};

use crate::change::Change;
use crate::changes::ItemChanges;
use crate::head::{HEAD, Request, VALSET};
use crate::key::key_at;
use catalogue::Catalogue;
use item::{Selector, read_value, size_of};
use reference::Refusal;

// The most entries of a request.
pub const MAX_ENTRIES: usize = 64;

// The bytes of a key or selector.
pub const KEY_BYTES: usize = 4;

// A pair, and how many bytes it takes.
#[derive(Clone, Copy)]
struct Pair {
    key: u32,
    value: u64,
    len: usize,
}

// Why an entry is refused: the payload's end cuts it, or it names no item.
#[derive(Clone, Copy)]
enum EntryFault {
    Cut,
    Unknown,
}

impl EntryFault {
    // The refusal of the entry at a place.
    fn at(self, place: usize) -> Refusal
        ensures { result ≡ fault_at place self }
    {
        match self {
            EntryFault::Cut => Refusal::CutEntry(place),
            EntryFault::Unknown => Refusal::UnknownKey(place),
        }
    }
}

// The pair at the front; none where it is cut. A key of size 0, 6 or 7 has no value's bytes behind it.
fn read_pair(bytes: &[u8]) -> Option<Pair>
    ensures { result ≡ pair_in bytes.now }
{
    let key = key_at(bytes)?;
    match size_of(key) {
        None => Some(Pair {
            key,
            value: 0,
            len: KEY_BYTES,
        }),
        Some(size) => {
            let value = read_value(size, &bytes[KEY_BYTES..])?;
            Some(Pair {
                key,
                value,
                len: KEY_BYTES + size.width(),
            })
        }
    }
}

impl ItemChanges {
    // Takes the pair at the front; answers how many bytes it takes.
    fn take_pair(&mut self, catalogue: &Catalogue, bytes: &[u8]) -> Result<usize, EntryFault>
        ensures { Taken (entries_of catalogue.now) (pair_read (entries_of catalogue.now) bytes.now) (length bytes.now) (slots_of self.old) (slots_of self.new) result }
    {
        let pair = read_pair(bytes).ok_or(EntryFault::Cut)?;
        let item = catalogue.find(pair.key).ok_or(EntryFault::Unknown)?;
        self.set(item, Some(Change::Put(pair.value)));
        Ok(pair.len)
    }

    // Removes each item that a key or selector names, and refuses one that names none; answers the bytes of a key or selector.
    fn remove_named(&mut self, catalogue: &Catalogue, number: u32) -> Result<usize, EntryFault>
        ensures taken { Taken (entries_of catalogue.now) (read_map (map deleted) (named_read (keys_named (selector_of number) (entries_of catalogue.now)))) 4 (slots_of self.old) (slots_of self.new) result }
        ensures places { Taken (entries_of catalogue.now) (read_map (map deleted) (named_read (map (key_at (entries_of catalogue.now)) (named (selector_of number) 0 (entries_of catalogue.now))))) 4 (slots_of self.old) (slots_of self.new) result }
    {
        let selector = Selector::from(number);
        // kept: a flag, since the walk that removes sees whether any is named; asked in front, the entries would be walked twice
        let mut named = false;
        for (item, entry) in catalogue.entries().iter().enumerate() {
            if selector.names(entry.key) {
                self.set(item, Some(Change::Remove));
                named = true;
            }
        }
        if named {
            Ok(KEY_BYTES)
        } else {
            Err(EntryFault::Unknown)
        }
    }

    // Takes the key or selector at the front; answers how many bytes it takes.
    #[tactic(auto, using(crate::proofs::Removals::removal_cut, crate::proofs::Removals::removal_taken, crate::proofs::Faults::faulted))]
    fn take_removal(&mut self, catalogue: &Catalogue, bytes: &[u8]) -> Result<usize, EntryFault>
        ensures { Taken (entries_of catalogue.now) (deletion_read (entries_of catalogue.now) bytes.now) (length bytes.now) (slots_of self.old) (slots_of self.new) result }
    {
        let number = key_at(bytes).ok_or(EntryFault::Cut)?;
        self.remove_named(catalogue, number)
    }

    // Takes the entry at the front of a request's data: of a set a pair, else a key or selector.
    // kept: the ID is asked at each entry; a function that is chosen once would be handed on and called through, and say no more
    fn take_entry(
        &mut self,
        catalogue: &Catalogue,
        id: u8,
        bytes: &[u8],
    ) -> Result<usize, EntryFault>
        ensures { Taken (entries_of catalogue.now) (entry_read (entries_of catalogue.now) id bytes.now) (length bytes.now) (slots_of self.old) (slots_of self.new) result }
    {
        if id == VALSET {
            self.take_pair(catalogue, bytes)
        } else {
            self.take_removal(catalogue, bytes)
        }
    }
}

impl Request<'_> {
    // Takes all entries, over changes that are none yet.
    #[tactic(auto, using(crate::proofs::Walks::data_start, crate::proofs::Walks::data_end, crate::proofs::Walks::data_many))]
    fn take_entries(&self, catalogue: &Catalogue, changes: &mut ItemChanges) -> Result<(), Refusal>
        requires { slots_of changes.old ≡ replicate 128 None }
        ensures value { read_as (entries_of catalogue.now) (slots_of changes.new) result ≡ ok_map latest (data_of (entries_of catalogue.now) self.now.id self.now.payload.now) }
        ensures behind { SameBehind (length (entries_of catalogue.now)) (slots_of changes.old) (slots_of changes.new) }
    {
        // kept: entries differ in length, so no chunks or iterator of the library yields them
        let mut place = HEAD;
        for _entry in 0..MAX_ENTRIES {
            if place >= self.payload.len() {
                return Ok(());
            }
            let taken = changes.take_entry(catalogue, self.id, &self.payload[place..]);
            place += taken.map_err(|fault| fault.at(place))?;
        }
        if place < self.payload.len() {
            return Err(Refusal::TooManyEntries(place));
        }
        Ok(())
    }

    // What the data of a set or delete make of each item: the last value of a key stands. Refused data change none; none behind the items changes.
    // kept: the changes are written where the caller keeps them; they are more than a kilobyte, and a Result of them would be copied at each step
    pub fn read_data(&self, catalogue: &Catalogue, changes: &mut ItemChanges) -> Result<(), Refusal>
        ensures value { read_as (entries_of catalogue.now) (slots_of changes.new) result ≡ ok_map latest (data_of (entries_of catalogue.now) self.now.id self.now.payload.now) }
        ensures behind { (i : ℕ) → length (entries_of catalogue.now) ≤ i → slice_index_or (slots_of changes.new) i None ≡ None }
        ensures refused { IfErr result (λ _. slots_of changes.new ≡ replicate 128 None) }
    {
        changes.forget();
        let taken = self.take_entries(catalogue, changes);
        if taken.is_err() {
            changes.forget();
        }
        taken
    }
}

// A table of slots as a layer and as a store.
ghost use Rattle.std.specs.Prelude.{◌≡◌, ◌<◌, true, false, [], length, None, Ok, Err, if◌then◌else◌, MatchOption, slice_index_or};
ghost use Rattle.layer.specs.declared.fault.StoreFault.TheVariants.{Full};
ghost use Rattle.layer.specs.Settings.{is_setting, without};
ghost use Rattle.layer.specs.Stores.{room, after_put};
ghost use Rattle.store.specs.Slots.{settings_of, used_in, Place, Found, Missing};
ghost use Rattle.store.specs.SlotsLemmas.{ascends_settings, value_sound, table_shows};

use super::SlotTable;
use item::{fits_key, is_well_formed};
use layer::{Layer, Setting, Store, StoreFault};

impl SlotTable {
    // An empty table.
    pub fn new() -> SlotTable
        ensures { settings_of result.slots ≡ [] }
    {
        SlotTable { slots: [None; 128] }
    }

    // Another table that holds the same, to try a change on.
    // kept: `clone` may find no memory, and this cannot; nor is a table `Copy`, so that no change is made to a copy unseen
    pub fn copied(&self) -> SlotTable
        ensures { settings_of result.slots ≡ settings_of self.now.slots }
    {
        SlotTable { slots: self.slots }
    }

    // How many settings it holds.
    pub fn count(&self) -> usize
        ensures { result ≡ length (settings_of self.now.slots) }
    {
        self.slots.iter().copied().flatten().count()
    }

    // The slot that is used for a key.
    fn place_of(&self, key: u32) -> Option<usize>
        ensures { MatchOption result (Missing key self.now.slots) (λ i. Found key self.now.slots i) }
    {
        self.slots
            .iter()
            .position(|slot| slot.is_some_and(|s| s.key == key))
    }

    // A slot that is not used.
    fn free_place(&self) -> Option<usize>
        ensures { MatchOption result (used_in self.now.slots ≡ 128) (λ i. (i < 128) × (slice_index_or self.now.slots i None ≡ None)) }
    {
        self.slots.iter().position(|slot| slot.is_none())
    }

    // The slot in which a value for a key goes.
    fn place_for(&self, key: u32) -> Option<usize>
        ensures { MatchOption result (room key (settings_of self.now.slots) ≡ false) (λ i. Place key self.now.slots i) }
    {
        self.place_of(key).or_else(|| self.free_place())
    }

    // Holds a value under a key, unless the key is new and each slot is used.
    fn hold(&mut self, key: u32, value: u64) -> Result<(), StoreFault>
        requires { is_setting key value ≡ true }
        ensures answer { result ≡ (if room key (settings_of self.old.slots) then Ok tt else Err Full) }
        ensures after { settings_of self.new.slots ≡ after_put result key value (settings_of self.old.slots) }
    {
        let place = self.place_for(key).ok_or(StoreFault::Full)?;
        self.slots[place] = Some(Setting { key, value });
        Ok(())
    }

    // Takes away what is held under a key.
    fn free(&mut self, key: u32)
        ensures { settings_of self.new.slots ≡ without key (settings_of self.old.slots) }
    {
        if let Some(place) = self.place_of(key) {
            self.slots[place] = None;
        }
    }
}

impl Layer for SlotTable {
    ghost settings = { λ s. settings_of s.slots };

    ghost ascends = { λ s. ascends_settings s.slots };

    ghost sound = { λ s k v. value_sound k v s.slots s.fit };

    fn value(&self, key: u32) -> Option<u64> {
        self.slots
            .iter()
            .copied()
            .flatten()
            .find(|s| s.key == key)
            .map(|s| s.value)
    }

    fn next_key(&self, number: u32) -> Option<u32> {
        self.slots
            .iter()
            .copied()
            .flatten()
            .map(|s| s.key)
            .filter(|key| *key > number)
            .min()
    }
}

impl Store for SlotTable {
    ghost usable = { λ _. true };

    ghost shows = { λ s. table_shows s.slots s.whole s.distinct };

    fn is_usable(&self) -> bool {
        true
    }

    fn put(&mut self, key: u32, value: u64) -> Result<(), StoreFault> {
        if !is_well_formed(key) {
            return Err(StoreFault::IllFormedKey);
        }
        if !fits_key(key, value) {
            return Err(StoreFault::Unfit);
        }
        self.hold(key, value)
    }

    fn remove(&mut self, key: u32) -> Result<(), StoreFault> {
        if !is_well_formed(key) {
            return Err(StoreFault::IllFormedKey);
        }
        self.free(key);
        Ok(())
    }

    fn clear(&mut self) -> Result<(), StoreFault> {
        self.slots = [None; 128];
        Ok(())
    }
}

// A store that is chosen at run time: a slot table, an absent place or a journal, bare or under a saver.
ghost use Rattle.std.specs.Prelude.{◌≡◌, true, Some};
ghost use Rattle.std.specs.Option.{option_map};
ghost use Rattle.layer.specs.Settings.{value_under};
ghost use Rattle.layer.specs.Stores.{put_answer, remove_answer, clear_answer, after_put, after_remove, after_clear};
ghost use Rattle.any_store.specs.Any.{any_settings, any_usable, any_kind, is_saved, any_words, any_words_put, any_words_removed, any_words_cleared};
ghost use Rattle.any_store.specs.declared.any.AnyStore.TheVariants.{Slots, Nowhere, Words, SavedSlots, SavedNowhere, SavedWords};
ghost use Rattle.store.specs.SlotsLemmas.{ascends_settings, value_sound, table_shows};
ghost use Rattle.journal.specs.JournalLemmas.{held_ascends, held_sound, held_shows};
ghost use Rattle.layer.specs.SettingsLemmas.{none_sound};
ghost use Rattle.layer.proofs.Stores.{nothing_shows};

use journal::Journal;
use layer::{Absent, Layer, Saver, Store, StoreFault};
use store::SlotTable;

// kept: a case for each type of store; an enum of two media in an enum of bare and saved would be taken apart twice at each call
#[derive(Drop)]
pub enum AnyStore {
    Slots(SlotTable),
    Nowhere(Absent),
    Words(Journal),
    SavedSlots(Saver<SlotTable>),
    SavedNowhere(Saver<Absent>),
    SavedWords(Saver<Journal>),
}

// One call at whichever of the six it is.
macro_rules! at_each {
    ($any:expr, $store:ident => $call:expr) => {
        match $any {
            AnyStore::Slots($store) => $call,
            AnyStore::Nowhere($store) => $call,
            AnyStore::Words($store) => $call,
            AnyStore::SavedSlots($store) => $call,
            AnyStore::SavedNowhere($store) => $call,
            AnyStore::SavedWords($store) => $call,
        }
    };
}

impl AnyStore {
    // The words of a journal, bare or under a saver; of no other store.
    pub fn words(&self) -> Option<&[u32]>
        ensures value { option_map (λ ws. ws.now) result ≡ any_words self.now }
        ensures memory { ⟦<Self as Store>⟧.memory self.now ≡ any_words self.now }
    {
        match self {
            AnyStore::Words(journal) => Some(journal.words()),
            AnyStore::SavedWords(saver) => Some(saver.store.words()),
            _ => None,
        }
    }
}

impl Layer for AnyStore {
    ghost settings = { any_settings };

    ghost ascends = { elim [
      | Slots t ↦ ascends_settings t.slots
      | Nowhere a ↦ tt
      | Words j ↦ held_ascends j
      | SavedSlots s ↦ ascends_settings s.store.slots
      | SavedNowhere s ↦ tt
      | SavedWords s ↦ held_ascends s.store
    ] };

    ghost sound = { elim [
      | Slots t ↦ λ k v. value_sound k v t.slots t.fit
      | Nowhere a ↦ λ k v. none_sound k v
      | Words j ↦ held_sound j
      | SavedSlots s ↦ λ k v. value_sound k v s.store.slots s.store.fit
      | SavedNowhere s ↦ λ k v. none_sound k v
      | SavedWords s ↦ held_sound s.store
    ] };

    fn value(&self, key: u32) -> Option<u64> {
        at_each!(self, store => store.value(key))
    }

    fn next_key(&self, number: u32) -> Option<u32> {
        at_each!(self, store => store.next_key(number))
    }
}

impl Store for AnyStore {
    ghost usable = { any_usable };

    ghost memory = { any_words };

    ghost memory_put = { any_words_put };

    ghost memory_removed = { any_words_removed };

    ghost memory_cleared = { any_words_cleared };

    ghost shows = { elim [
      | Slots t ↦ table_shows t.slots t.whole t.distinct
      | Nowhere a ↦ nothing_shows
      | Words j ↦ held_shows j
      | SavedSlots s ↦ table_shows s.store.slots s.store.whole s.store.distinct
      | SavedNowhere s ↦ nothing_shows
      | SavedWords s ↦ held_shows s.store
    ] };

    fn is_usable(&self) -> bool {
        at_each!(self, store => store.is_usable())
    }

    fn put(&mut self, key: u32, value: u64) -> Result<(), StoreFault>
        ensures answer { result ≡ put_answer (any_usable self.old) key value (any_settings self.old) }
        ensures after { any_settings self.new ≡ after_put result key value (any_settings self.old) }
        ensures mark { any_usable self.new ≡ any_usable self.old }
        ensures kind { any_kind self.new ≡ any_kind self.old }
        ensures words { any_words self.new ≡ any_words_put key value self.old }
        ensures memory { ⟦<Self as Store>⟧.memory_put key value self.old ≡ any_words_put key value self.old }
        ensures spared { is_saved self.old ≡ true → value_under key (any_settings self.old) ≡ Some value → self.new ≡ self.old }
    {
        at_each!(self, store => store.put(key, value))
    }

    fn remove(&mut self, key: u32) -> Result<(), StoreFault>
        ensures answer { result ≡ remove_answer (any_usable self.old) key }
        ensures after { any_settings self.new ≡ after_remove result key (any_settings self.old) }
        ensures mark { any_usable self.new ≡ any_usable self.old }
        ensures kind { any_kind self.new ≡ any_kind self.old }
        ensures words { any_words self.new ≡ any_words_removed key self.old }
        ensures memory { ⟦<Self as Store>⟧.memory_removed key self.old ≡ any_words_removed key self.old }
    {
        at_each!(self, store => store.remove(key))
    }

    fn clear(&mut self) -> Result<(), StoreFault>
        ensures answer { result ≡ clear_answer (any_usable self.old) }
        ensures after { any_settings self.new ≡ after_clear result (any_settings self.old) }
        ensures mark { any_usable self.new ≡ any_usable self.old }
        ensures kind { any_kind self.new ≡ any_kind self.old }
        ensures words { any_words self.new ≡ any_words_cleared self.old }
        ensures memory { ⟦<Self as Store>⟧.memory_cleared self.old ≡ any_words_cleared self.old }
    {
        at_each!(self, store => store.clear())
    }
}

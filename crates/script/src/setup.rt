// The set-up of a receiver: the parts of which it will be made, as the commands of a script bring them.
ghost use Rattle.std.specs.Prelude.{◌≡◌, [], ◌∷◌, ◌++◌, is_ok, if◌then◌else◌, true, false, Some, None, vec_items};
ghost use Rattle.layer.specs.Stores.{put_answer, remove_answer, clear_answer, after_put, after_remove, after_clear};
ghost use Rattle.any_store.specs.Any.{any_settings, any_usable, any_kind, any_words, any_words_put, any_words_removed, any_words_cleared};
ghost use Rattle.journal.specs.Inspecting.{held_in};
ghost use Rattle.std.specs.Borrow.{sem};
ghost use Rattle.script.specs.Lending.{LendsStore};
ghost use Rattle.script.specs.Setups.{kind_of, settings_in, words_of, store_at, other_place, Begun, SameParts};

use crate::command::{Choice, Medium, Place};
use any_store::AnyStore;
use catalogue::Entry;
use journal::Journal;
use layer::{Absent, Saver, Store, StoreFault};
use rule::Need;
use std::alloc::{AllocError, Global};
use store::SlotTable;

#[derive(Drop)]
pub struct Setup {
    pub entries: Vec<Entry>,
    pub needs: Vec<Need>,
    pub bbr: AnyStore,
    pub flash: AnyStore,
}

// Whether the store stands already that the choice asks for, but for what it holds; it is emptied then, and any other store stays as it was.
fn emptied(store: &mut AnyStore, choice: &Choice) -> bool
    ensures chosen { result ≡ true → (any_kind store.new ≡ kind_of choice.now) × (any_settings store.new ≡ settings_in choice.now) × (any_words store.new ≡ words_of choice.now) }
    ensures other { result ≡ false → store.new ≡ store.old }
{
    match (choice, store) {
        (Choice::Bare(Medium::Slots), AnyStore::Slots(table)) => {
            let _ = table.clear();
            true
        }
        (Choice::Saved(Medium::Slots), AnyStore::SavedSlots(saver)) => {
            let _ = saver.store.clear();
            true
        }
        (Choice::Bare(Medium::Absent), AnyStore::Nowhere(_)) => true,
        (Choice::Saved(Medium::Absent), AnyStore::SavedNowhere(_)) => true,
        _ => false,
    }
}

// Each store that is large is made in a function of its own, since the toolchain clears the locals of all arms where a function begins.
fn table() -> AnyStore
    ensures kind { any_kind result ≡ 0 }
    ensures settings { any_settings result ≡ [] }
    ensures words { any_words result ≡ None }
{
    AnyStore::Slots(SlotTable::new())
}

fn saved_table() -> AnyStore
    ensures kind { any_kind result ≡ 3 }
    ensures settings { any_settings result ≡ [] }
    ensures words { any_words result ≡ None }
{
    AnyStore::SavedSlots(Saver {
        store: SlotTable::new(),
    })
}

fn journal_on(words: Vec<u32>) -> AnyStore
    ensures kind { any_kind result ≡ 2 }
    ensures settings { any_settings result ≡ held_in (vec_items words) }
    ensures words { any_words result ≡ Some (vec_items words) }
{
    AnyStore::Words(Journal::open(words))
}

fn saved_journal_on(words: Vec<u32>) -> AnyStore
    ensures kind { any_kind result ≡ 5 }
    ensures settings { any_settings result ≡ held_in (vec_items words) }
    ensures words { any_words result ≡ Some (vec_items words) }
{
    AnyStore::SavedWords(Saver {
        store: Journal::open(words),
    })
}

// The store of a choice: an empty one, or a journal with what its words hold.
pub fn chosen(choice: Choice) -> AnyStore
    ensures kind { any_kind result ≡ kind_of choice }
    ensures settings { any_settings result ≡ settings_in choice }
    ensures words { any_words result ≡ words_of choice }
{
    match choice {
        Choice::Bare(Medium::Slots) => table(),
        Choice::Bare(Medium::Absent) => AnyStore::Nowhere(Absent),
        Choice::Bare(Medium::Words(words)) => journal_on(words),
        Choice::Saved(Medium::Slots) => saved_table(),
        Choice::Saved(Medium::Absent) => AnyStore::SavedNowhere(Saver { store: Absent }),
        Choice::Saved(Medium::Words(words)) => saved_journal_on(words),
    }
}

impl Setup {
    // What a script begins with: no entries and no needs, a table of slots for BBR, and no Flash.
    pub fn new(heap: Global) -> Setup
        ensures { Begun result }
    {
        Setup {
            entries: Vec::new(heap),
            needs: Vec::new(heap),
            bbr: chosen(Choice::Bare(Medium::Slots)),
            flash: chosen(Choice::Bare(Medium::Absent)),
        }
    }

    // Begins anew, where the set-up stands.
    pub fn begin_anew(&mut self, heap: Global)
        ensures { Begun self.new }
    {
        self.entries = Vec::new(heap);
        self.needs = Vec::new(heap);
        self.choose(Place::Bbr, Choice::Bare(Medium::Slots));
        self.choose(Place::Flash, Choice::Bare(Medium::Absent));
    }

    // kept: this and `add_need` are a push each, into two fields, and a generic one would have to be told which
    pub fn add_entry(&mut self, entry: Entry) -> Result<(), AllocError>
        ensures entries { self.new.entries.items ≡ (if is_ok result then self.old.entries.items ++ entry ∷ [] else self.old.entries.items) }
        ensures needs { self.new.needs ≡ self.old.needs }
        ensures stores { (self.new.bbr ≡ self.old.bbr) × (self.new.flash ≡ self.old.flash) }
    {
        self.entries.push(entry)?;
        Ok(())
    }

    pub fn add_need(&mut self, need: Need) -> Result<(), AllocError>
        ensures needs { self.new.needs.items ≡ (if is_ok result then self.old.needs.items ++ need ∷ [] else self.old.needs.items) }
        ensures entries { self.new.entries ≡ self.old.entries }
        ensures stores { (self.new.bbr ≡ self.old.bbr) × (self.new.flash ≡ self.old.flash) }
    {
        self.needs.push(need)?;
        Ok(())
    }

    // The store at the place.
    fn store_mut(&mut self, place: Place) -> &mut AnyStore
        ensures* lent { sem 𝓛 (LendsStore place self.entry result) }
        ensures value { result.now ≡ store_at place self.old }
    {
        match place {
            Place::Bbr => &mut self.bbr,
            Place::Flash => &mut self.flash,
        }
    }

    // The store of this choice stands at the place; the other place is left alone.
    pub fn choose(&mut self, place: Place, choice: Choice)
        ensures kind { any_kind (store_at place self.new) ≡ kind_of choice }
        ensures settings { any_settings (store_at place self.new) ≡ settings_in choice }
        ensures words { any_words (store_at place self.new) ≡ words_of choice }
        ensures other { store_at (other_place place) self.new ≡ store_at (other_place place) self.old }
        ensures parts { SameParts self.old self.new }
    {
        if emptied(self.store_mut(place), &choice) {
            return;
        }
        *self.store_mut(place) = chosen(choice);
    }

    pub fn put(&mut self, place: Place, key: u32, value: u64) -> Result<(), StoreFault>
        ensures answer { result ≡ put_answer (any_usable (store_at place self.old)) key value (any_settings (store_at place self.old)) }
        ensures after { any_settings (store_at place self.new) ≡ after_put result key value (any_settings (store_at place self.old)) }
        ensures words { any_words (store_at place self.new) ≡ any_words_put key value (store_at place self.old) }
        ensures kind { any_kind (store_at place self.new) ≡ any_kind (store_at place self.old) }
        ensures other { store_at (other_place place) self.new ≡ store_at (other_place place) self.old }
        ensures parts { SameParts self.old self.new }
    {
        self.store_mut(place).put(key, value)
    }

    pub fn remove(&mut self, place: Place, key: u32) -> Result<(), StoreFault>
        ensures answer { result ≡ remove_answer (any_usable (store_at place self.old)) key }
        ensures after { any_settings (store_at place self.new) ≡ after_remove result key (any_settings (store_at place self.old)) }
        ensures words { any_words (store_at place self.new) ≡ any_words_removed key (store_at place self.old) }
        ensures kind { any_kind (store_at place self.new) ≡ any_kind (store_at place self.old) }
        ensures other { store_at (other_place place) self.new ≡ store_at (other_place place) self.old }
        ensures parts { SameParts self.old self.new }
    {
        self.store_mut(place).remove(key)
    }

    pub fn clear(&mut self, place: Place) -> Result<(), StoreFault>
        ensures answer { result ≡ clear_answer (any_usable (store_at place self.old)) }
        ensures after { any_settings (store_at place self.new) ≡ after_clear result (any_settings (store_at place self.old)) }
        ensures words { any_words (store_at place self.new) ≡ any_words_cleared (store_at place self.old) }
        ensures kind { any_kind (store_at place self.new) ≡ any_kind (store_at place self.old) }
        ensures other { store_at (other_place place) self.new ≡ store_at (other_place place) self.old }
        ensures parts { SameParts self.old self.new }
    {
        self.store_mut(place).clear()
    }
}

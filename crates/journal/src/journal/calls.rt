// Opening a journal, and a journal as a layer and as a store.
ghost use Rattle.std.specs.Prelude.{◌≡◌, length, Some, None, Ok, OnOk};
ghost use Rattle.store.specs.Slots.{settings_of};
ghost use Rattle.std.specs.Result.{result_err};
ghost use Rattle.layer.specs.Stores.{put_answer, remove_answer, clear_answer, after_put, after_remove, after_clear};
ghost use Rattle.journal.specs.Words.{setting_words};
ghost use Rattle.journal.specs.Inspecting.{inspected, held_in, is_accepted};
ghost use Rattle.journal.specs.Writing.{used_in, FirstBlank, Least, words_put, words_removed, words_cleared};
ghost use Rattle.journal.specs.JournalLemmas.{held_ascends, held_sound, held_shows};

use super::Journal;
use crate::fault::JournalFault;
use crate::reading::inspect;
use crate::record::{Record, setting_record};
use crate::word::{BLANK, removal_word};
use crate::writing::{write_blanks, write_change};
use layer::{Layer, Store, StoreFault};
use store::SlotTable;

// The place of the first blank word.
fn first_blank(words: &[u32]) -> Option<usize>
    ensures { FirstBlank words.now result }
{
    words.iter().position(|word| *word == BLANK)
}

// How many words stand before the first blank.
#[tactic(auto, using(crate::proofs::Buffers::used_before))]
fn used_in(words: &[u32]) -> usize
    ensures { result ≡ used_in words.now }
{
    first_blank(words).unwrap_or(words.len())
}

impl Journal {
    // Opens a buffer of words. Words that inspection refuses make a journal that is not usable; in either case the words stay as they are.
    pub fn open(words: Vec<u32>) -> Journal
        ensures words { result.words.items ≡ words.items }
    {
        let used = used_in(words.as_slice());
        let (held, fault) = match inspect(words.as_slice()) {
            Ok(held) => (held, None),
            Err(fault) => (SlotTable::new(), Some(fault)),
        };
        Journal {
            words,
            fault,
            held,
            used,
        }
    }

    // What is wrong with the words, if the journal is not usable.
    pub fn fault(&self) -> Option<JournalFault>
        ensures { result ≡ result_err (inspected self.now.words.items) }
    {
        self.fault
    }

    // The words.
    pub fn words(&self) -> &[u32]
        ensures { result.now ≡ self.now.words.items }
    {
        self.words.as_slice()
    }

    // Gives the words back.
    pub fn into_words(self) -> Vec<u32>
        ensures { result.items ≡ self.words.items }
    {
        self.words
    }

    // The journal after its power was off: its words alone last, and are opened again. It holds what it held.
    pub fn power_cycled(self) -> Journal
        ensures words { result.words.items ≡ self.words.items }
        ensures settings { held_in result.words.items ≡ held_in self.words.items }
    {
        Journal::open(self.into_words())
    }

    // The first check of each write.
    fn check_usable(&self) -> Result<(), StoreFault>
        ensures answer { result ≡ clear_answer (is_accepted self.now.words.items) }
        ensures fault { OnOk result (self.now.fault ≡ None) }
        ensures accepted { OnOk result (inspected self.now.words.items ≡ Ok (settings_of self.now.held.slots)) }
    {
        if self.fault.is_some() {
            return Err(StoreFault::Unusable);
        }
        Ok(())
    }
}

impl Layer for Journal {
    ghost settings = { λ j. held_in j.words.items };

    ghost ascends = { λ j. held_ascends j };

    ghost sound = { λ j. held_sound j };

    fn value(&self, key: u32) -> Option<u64> {
        self.held.value(key)
    }

    fn next_key(&self, number: u32) -> Option<u32> {
        self.held.next_key(number)
    }
}

impl Store for Journal {
    ghost usable = { λ j. is_accepted j.words.items };

    ghost memory = { λ j. Some j.words.items };

    ghost memory_put = { λ k v j. Some (words_put k v j.words.items) };

    ghost memory_removed = { λ k j. Some (words_removed k j.words.items) };

    ghost memory_cleared = { λ j. Some (words_cleared j.words.items) };

    ghost shows = { λ j. held_shows j };

    #[tactic(auto, using(crate::specs::JournalLemmas::held_shows))]
    fn is_usable(&self) -> bool {
        self.fault.is_none()
    }

    // Appends the setting's record where it fits, exactly too; else rewrites the other settings, then the record.
    #[tactic(auto, using(crate::proofs::Changes::put_change))]
    fn put(&mut self, key: u32, value: u64) -> Result<(), StoreFault>
        ensures answer { result ≡ put_answer (is_accepted self.old.words.items) key value (held_in self.old.words.items) }
        ensures after { held_in self.new.words.items ≡ after_put result key value (held_in self.old.words.items) }
        ensures mark { is_accepted self.new.words.items ≡ is_accepted self.old.words.items }
        ensures words { self.new.words.items ≡ words_put key value self.old.words.items }
        ensures least { OnOk result (Least key (Some value) (length (setting_words key value)) self.old.words.items self.new.words.items) }
    {
        self.check_usable()?;
        self.held.put(key, value)?;
        let record = setting_record(key, value);
        let words = record.as_slice();
        let record = Record {
            key,
            words,
            lasting: words,
        };
        self.used = write_change(&mut self.words, self.used, &self.held, &record);
        Ok(())
    }

    // Appends a removal where a word is blank; else rewrites what is left. What is not held is not removed.
    #[tactic(auto, using(crate::proofs::Changes::remove_change))]
    fn remove(&mut self, key: u32) -> Result<(), StoreFault>
        ensures answer { result ≡ remove_answer (is_accepted self.old.words.items) key }
        ensures after { held_in self.new.words.items ≡ after_remove result key (held_in self.old.words.items) }
        ensures mark { is_accepted self.new.words.items ≡ is_accepted self.old.words.items }
        ensures words { self.new.words.items ≡ words_removed key self.old.words.items }
        ensures least { OnOk result (Least key None 1 self.old.words.items self.new.words.items) }
    {
        self.check_usable()?;
        let was_held = self.held.value(key).is_some();
        self.held.remove(key)?;
        if !was_held {
            return Ok(());
        }
        let words = [removal_word(key)];
        let record = Record {
            key,
            words: &words,
            lasting: &[],
        };
        self.used = write_change(&mut self.words, self.used, &self.held, &record);
        Ok(())
    }

    // Makes every word blank.
    fn clear(&mut self) -> Result<(), StoreFault>
        ensures answer { result ≡ clear_answer (is_accepted self.old.words.items) }
        ensures after { held_in self.new.words.items ≡ after_clear result (held_in self.old.words.items) }
        ensures mark { is_accepted self.new.words.items ≡ is_accepted self.old.words.items }
        ensures words { self.new.words.items ≡ words_cleared self.old.words.items }
    {
        self.check_usable()?;
        self.held.clear()?;
        write_blanks(&mut self.words);
        self.used = 0;
        Ok(())
    }
}

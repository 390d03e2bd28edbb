// Inspection: a buffer's words are read one after the other, and what its records leave is gathered.
ghost use Rattle.std.specs.Prelude.{◌≡◌, true, [], Ok, length};
ghost use Rattle.journal.specs.Words.{key_named, part_carried};
ghost use Rattle.journal.specs.Inspecting.{any_record, progress, begins, removes, blanks, ends_as, takes_part, after_word, after_words, at_end, inspected};
ghost use Rattle.journal.specs.Meaning.{begun_of, next_of, progress_of, read_to, reading_of, held_by};
ghost use Rattle.store.specs.Slots.{settings_of};
ghost use Rattle.item.specs.Keys.{well_formed};

use crate::fault::JournalFault;
use crate::word::{BLANK, Kind, MAX_WORDS, MIN_WORDS, key_named, part_carried};
use layer::{Store, StoreFault};
use store::SlotTable;

pub mod open;

use open::Open;

// What may stand next.
#[derive(Clone, Copy)]
pub(crate) enum Phase {
    // a record or a blank
    Between,
    // a part of the setting that has begun
    Within(Open),
    // blanks alone
    Blanks,
}

// What was read so far: the settings that are held, and what may stand next.
#[derive(Drop)]
pub(crate) struct Reading {
    held: SlotTable,
    phase: Phase,
}

impl Reading {
    // Nothing was read.
    fn new() -> Reading
        ensures { progress_of result ≡ progress [] any_record }
    {
        Reading {
            held: SlotTable::new(),
            phase: Phase::Between,
        }
    }

    // The first word of a setting.
    fn begin(&mut self, place: usize, word: u32) -> Result<(), JournalFault>
        ensures { read_to self.new result ≡ begins place (settings_of self.old.held.slots) (key_named word) }
    {
        let key = key_named(word).ok_or(JournalFault::Malformed(place))?;
        self.phase = Phase::Within(Open::new(place, key));
        Ok(())
    }

    // A removal; what is not held may be removed too.
    fn remove(&mut self, place: usize, word: u32) -> Result<(), JournalFault>
        ensures { read_to self.new result ≡ removes place (settings_of self.old.held.slots) (key_named word) }
    {
        let key = key_named(word).ok_or(JournalFault::Malformed(place))?;
        self.phase = Phase::Between;
        self.held.remove(key).unwrap();
        Ok(())
    }

    // A blank word.
    fn blank(&mut self, place: usize, word: u32) -> Result<(), JournalFault>
        ensures { read_to self.new result ≡ blanks place word (settings_of self.old.held.slots) }
    {
        if word != BLANK {
            return Err(JournalFault::Malformed(place));
        }
        self.phase = Phase::Blanks;
        Ok(())
    }

    // A setting whose last part has come; its first word stands at `head`.
    fn hold(&mut self, head: usize, key: u32, value: u64) -> Result<(), JournalFault>
        requires { well_formed key ≡ true }
        ensures { read_to self.new result ≡ ends_as (settings_of self.old.held.slots) head key value }
    {
        self.phase = Phase::Between;
        self.held.put(key, value).map_err(|fault| match fault {
            StoreFault::Full => JournalFault::TooMany(head),
            _ => JournalFault::Unfit(head),
        })
    }

    // A part of the setting that has begun; with its last part the setting is held.
    fn extend(&mut self, place: usize, word: u32, begun: Open) -> Result<(), JournalFault>
        ensures { read_to self.new result ≡ takes_part place (settings_of self.old.held.slots) (begun_of begun) (part_carried word) }
    {
        let part = part_carried(word).ok_or(JournalFault::Malformed(place))?;
        if begun.ends_next() {
            return self.hold(begun.head(), begun.key(), begun.value_with(part));
        }
        self.phase = Phase::Within(begun.with(part));
        Ok(())
    }

    // Reads the next word.
    fn read(&mut self, place: usize, word: u32) -> Result<(), JournalFault>
        ensures { read_to self.new result ≡ after_word place word (progress_of self.old) }
    {
        match (self.phase, Kind::of(word)) {
            (Phase::Between, Kind::Head) => self.begin(place, word),
            (Phase::Within(begun), Kind::Part) => self.extend(place, word, begun),
            (Phase::Between, Kind::Removal) => self.remove(place, word),
            (Phase::Between | Phase::Blanks, Kind::Blank) => self.blank(place, word),
            _ => Err(JournalFault::OutOfPlace(place)),
        }
    }

    // What is held at the end, which may not cut a setting.
    fn end(self, count: usize) -> Result<SlotTable, JournalFault>
        ensures { held_by result ≡ at_end count (settings_of self.held.slots) (next_of self.phase) }
    {
        match self.phase {
            Phase::Within(_) => Err(JournalFault::OutOfPlace(count)),
            _ => Ok(self.held),
        }
    }
}

// Reads the words of a buffer, whatever their number.
fn read_all(words: &[u32]) -> Result<Reading, JournalFault>
    ensures { reading_of result ≡ after_words 0 words.now (Ok (progress [] any_record)) }
{
    let mut reading = Reading::new();
    for (place, word) in words.iter().enumerate() {
        reading.read(place, *word)?;
    }
    Ok(reading)
}

// The settings that the records of a buffer leave, read in order; or its first wrong word.
pub fn inspect(words: &[u32]) -> Result<SlotTable, JournalFault>
    ensures { held_by result ≡ inspected words.now }
{
    if words.len() < MIN_WORDS || words.len() > MAX_WORDS {
        return Err(JournalFault::WordCount);
    }
    read_all(words)?.end(words.len())
}

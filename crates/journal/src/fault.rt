// Why a buffer of words is no journal: what is wrong, and at which word.
ghost use Rattle.std.specs.Prelude.{◌≡◌, Some};
ghost use Rattle.journal.specs.Faults.{fault_number, fault_word};
ghost use Rattle.journal.specs.Texts.{journal_fault_text};

use std::error::Error;
use std::fmt;

// kept: the words of faults are named by their cases and not by a field, as the faults of a catalogue are
#[derive(Clone, Copy, PartialEq, Eq, Debug)]
pub enum JournalFault {
    // fewer than 640 words, or more than 16,384
    WordCount,
    // a word whose kind cannot stand there; at the end, a setting that the end cuts
    OutOfPlace(usize),
    // bits that must be zero are not, the key is ill-formed, or a blank word is not all ones
    Malformed(usize),
    // a setting, by its first word, whose value does not fit its key's size
    Unfit(usize),
    // a setting, by its first word, that would be the 129th held
    TooMany(usize),
}

impl JournalFault {
    // The refusal's number.
    pub fn number(self) -> u8
        ensures { result ≡ fault_number self }
    {
        match self {
            JournalFault::WordCount => 22,
            JournalFault::OutOfPlace(_) => 23,
            JournalFault::Malformed(_) => 24,
            JournalFault::Unfit(_) => 25,
            JournalFault::TooMany(_) => 26,
        }
    }

    // The word's place.
    pub fn word(self) -> usize
        ensures { result ≡ fault_word self }
    {
        match self {
            JournalFault::WordCount => 0,
            JournalFault::OutOfPlace(word)
            | JournalFault::Malformed(word)
            | JournalFault::Unfit(word)
            | JournalFault::TooMany(word) => word,
        }
    }
}

impl fmt::Display for JournalFault {
    ghost output = { λ fault. Some (journal_fault_text fault) };

    fn fmt<W: fmt::Write>(&self, f: &mut fmt::Formatter<W>) -> fmt::Result {
        match self {
            JournalFault::WordCount => f.write_str("a journal has 640 to 16384 words"),
            JournalFault::OutOfPlace(word) => {
                write!(
                    f,
                    "word {word} cannot stand where it does, or the end cuts a setting"
                )
            }
            JournalFault::Malformed(word) => {
                write!(f, "word {word} has a wrong key or wrong bits")
            }
            JournalFault::Unfit(word) => {
                write!(
                    f,
                    "the value of the setting at word {word} does not fit its key's size"
                )
            }
            JournalFault::TooMany(word) => {
                write!(f, "128 settings are held before the one at word {word}")
            }
        }
    }
}

impl Error for JournalFault {}

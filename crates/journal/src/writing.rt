// Writing records over the words of a buffer.
ghost use Rattle.std.specs.Prelude.{◌≡◌, ◌+◌, ◌≤◌, true, [], ◌++◌, length, replicate};
ghost use Rattle.frame.specs.Written.{patched, in_front};
ghost use Rattle.layer.specs.Settings.{without};
ghost use Rattle.store.specs.Slots.{settings_of};
ghost use Rattle.journal.specs.Words.{blank};
ghost use Rattle.journal.specs.Inspecting.{is_accepted};
ghost use Rattle.journal.specs.Writing.{records_of, filled, recorded, Change, Written};

use crate::record::{Record, setting_record};
use crate::word::BLANK;
use layer::Layer;
use store::SlotTable;

// Writes a record over the words from a place on; answers the place behind it.
fn write_words(words: &mut [u32], place: usize, part: &[u32]) -> usize
    requires { place + length part.now ≤ length words.old }
    ensures place { result ≡ place + length part.now }
    ensures words { words.new ≡ patched place part.now words.old }
{
    let end = place + part.len();
    words[place..end].copy_from_slice(part);
    end
}

// Writes the settings of a table, but for one key's, at the start of the words, in ascending key order; answers how many words they take.
fn write_others(words: &mut [u32], held: &SlotTable, except: u32) -> usize
    requires { length (records_of (without except (settings_of held.now.slots))) ≤ length words.old }
    ensures count { result ≡ length (records_of (without except (settings_of held.now.slots))) }
    ensures words { words.new ≡ in_front (records_of (without except (settings_of held.now.slots))) words.old }
{
    let mut place = 0;
    let mut number = 0;
    while let Some(key) = held.next_key(number) {
        if key != except {
            let value = held.value(key).unwrap();
            place = write_words(words, place, setting_record(key, value).as_slice());
        }
        number = key;
    }
    place
}

// Writes the settings of a table anew, but for one key's, then what is to stand behind them, then blanks; answers how many words are used.
fn rewrite(words: &mut [u32], held: &SlotTable, change: &Record<'_>) -> usize
    requires { length (records_of (without change.now.key (settings_of held.now.slots))) + length change.now.lasting.now ≤ length words.old }
    ensures used { result ≡ length (records_of (without change.now.key (settings_of held.now.slots)) ++ change.now.lasting.now) }
    ensures words { words.new ≡ filled (length words.old) (records_of (without change.now.key (settings_of held.now.slots)) ++ change.now.lasting.now) }
{
    let place = write_others(words, held, change.key);
    let used = write_words(words, place, change.lasting);
    words[used..].fill(BLANK);
    used
}

// Writes a change, after which the table says what is held: behind the used words where it fits, exactly too; else all anew. Answers how many words
// are used.
#[tactic(auto, using(crate::proofs::Buffers::used_le))]
fn change_words(words: &mut [u32], used: usize, held: &SlotTable, change: &Record<'_>) -> usize
    requires { Change words.old used (settings_of held.now.slots) change.now.key change.now.words.now change.now.lasting.now }
    ensures words { words.new ≡ recorded change.now.words.now (without change.now.key (settings_of held.now.slots)) change.now.lasting.now words.old }
    ensures written { Written words.new (settings_of held.now.slots) result }
    ensures most { result ≤ used + length change.now.words.now }
{
    let room = words.len() - used;
    if change.words.len() <= room {
        write_words(words, used, change.words)
    } else {
        rewrite(words, held, change)
    }
}

// The same, in the words that a journal owns.
pub(crate) fn write_change(
    words: &mut Vec<u32>,
    used: usize,
    held: &SlotTable,
    change: &Record<'_>,
) -> usize
    requires { Change words.old.items used (settings_of held.now.slots) change.now.key change.now.words.now change.now.lasting.now }
    ensures words { words.new.items ≡ recorded change.now.words.now (without change.now.key (settings_of held.now.slots)) change.now.lasting.now words.old.items }
    ensures written { Written words.new.items (settings_of held.now.slots) result }
    ensures most { result ≤ used + length change.now.words.now }
{
    change_words(words.as_mut_slice(), used, held, change)
}

// Makes every word of an accepted buffer blank.
fn blank_words(words: &mut [u32])
    requires { is_accepted words.old ≡ true }
    ensures words { words.new ≡ replicate (length words.old) blank }
    ensures written { Written words.new [] 0 }
{
    words.fill(BLANK);
}

// The same, in the words that a journal owns.
pub(crate) fn write_blanks(words: &mut Vec<u32>)
    requires { is_accepted words.old.items ≡ true }
    ensures words { words.new.items ≡ replicate (length words.old.items) blank }
    ensures written { Written words.new.items [] 0 }
{
    blank_words(words.as_mut_slice());
}

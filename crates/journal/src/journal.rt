// A journal. Beside its words it keeps what they hold, so that no value is looked for in the words.
ghost use Rattle.std.specs.Prelude.{◌≡◌};
ghost use Rattle.store.specs.Slots.{settings_of};
ghost use Rattle.journal.specs.Inspecting.{inspected, held_in};
ghost use Rattle.journal.specs.Writing.{used_in, told_as};

use crate::fault::JournalFault;
use store::SlotTable;

pub mod calls;

#[derive(Drop)]
pub struct Journal {
    words: Vec<u32>,
    // what is wrong with the words, so that the journal is not usable
    fault: Option<JournalFault>,
    // what the words hold; nothing where they are refused
    held: SlotTable,
    // how many words stand before the first blank
    used: usize,
    ghost read: { told_as fault (settings_of held.slots) ≡ inspected words.items },
    ghost holds: { settings_of held.slots ≡ held_in words.items },
    ghost counted: { used ≡ used_in words.items },
}

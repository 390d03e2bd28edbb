// A board: a receiver that is made of numbers and answers in numbers.
ghost use Rattle.std.specs.Prelude.{◌≡◌, length, map, None, IfOk, MatchResult};
ghost use Rattle.frame.specs.Written.{in_front};
ghost use Rattle.reference.specs.Events.{take_piece, answer_into, look_at, restart_with, written_by};
ghost use Rattle.reference.specs.Parts.{parts_fault};
ghost use Rattle.reference.specs.Receiver.{made};
ghost use Rattle.embed.specs.declared.board.MakeFault.TheVariants.{NoMemory};
ghost use Rattle.embed.specs.Numbers.{entry_of, need_of, taken_in, answered_in, looked_in, restarted_in, battery_of, make_number};
ghost use Rattle.embed.specs.Made.{board_parts, words_store, IsRefused, CopiedTo, in_front_if_room};

use crate::numbers::{UbxAnswered, UbxEntry, UbxLooked, UbxNeed, UbxRestarted, UbxTaken};
use catalogue::Entry;
use configuration::check;
use journal::Journal;
use layer::Saver;
use receiver::{Meaning, Parts, Receiver};
use reference::{Battery, PartsFault};
use rule::{Both, Need, Needs, Ranges};
use std::alloc::{AllocError, Global};
use store::SlotTable;

pub type BoardReceiver = Receiver<SlotTable, Saver<Journal>, Both<Ranges, Needs>>;

#[derive(Drop)]
pub struct Board {
    receiver: BoardReceiver,
}

// Why no board is made.
#[derive(Clone, Copy, PartialEq, Eq, Debug)]
pub enum MakeFault {
    NoMemory,
    Refused(PartsFault),
}

impl From<AllocError> for MakeFault {
    ghost from_gives = { λ _ fault. fault ≡ NoMemory };

    fn from(_error: AllocError) -> MakeFault
        ensures { result ≡ NoMemory }
    {
        MakeFault::NoMemory
    }
}

impl MakeFault {
    // The refusal's number; 255 for want of memory.
    pub fn number(self) -> u8
        ensures { result ≡ make_number self }
    {
        match self {
            MakeFault::NoMemory => 255,
            MakeFault::Refused(fault) => fault.number(),
        }
    }
}

// The entries of a catalogue.
fn catalogue_of(heap: Global, entries: &[UbxEntry]) -> Result<Vec<Entry>, AllocError>
    ensures { IfOk result (λ v. v.items ≡ map entry_of entries.now) }
{
    entries.iter().map(|entry| entry.entry()).collect(heap)
}

fn needs_of(heap: Global, needs: &[UbxNeed]) -> Result<Vec<Need>, AllocError>
    ensures { IfOk result (λ v. v.items ≡ map need_of needs.now) }
{
    needs.iter().map(|need| need.need()).collect(heap)
}

// Copies words to the start of a buffer, if it has room for them; answers how many there are.
fn copy_to(words: &[u32], out: &mut [u32]) -> usize
    ensures count { result ≡ length words.now }
    ensures out { out.new ≡ in_front_if_room words.now out.old }
{
    if words.len() <= out.len() {
        out[..words.len()].copy_from_slice(words);
    }
    words.len()
}

impl Board {
    // A board of copies of these entries, needs and words, with an empty BBR. This alone allocates.
    pub fn make(
        heap: Global,
        entries: &[UbxEntry],
        needs: &[UbxNeed],
        words: &[u32],
    ) -> Result<Board, MakeFault>
        ensures { MatchResult result (λ b. (parts_fault (board_parts entries.now needs.now words.now) ≡ None) × (⟦<BoardReceiver as Meaning>⟧.state b.receiver ≡ made (board_parts entries.now needs.now words.now))) (λ f. IsRefused (board_parts entries.now needs.now words.now) f) }
    {
        let entries = catalogue_of(heap, entries)?;
        let needs = needs_of(heap, needs)?;
        let bbr = SlotTable::new();
        let flash = Saver {
            store: Journal::open(Vec::from_slice(heap, words)?),
        };
        let rule = Both {
            first: Ranges,
            second: Needs::new(needs.as_slice()),
        };
        check(entries.as_slice(), &bbr, &flash, &rule).map_err(|fault| MakeFault::Refused(fault))?;
        let parts = Parts { bbr, flash, rule };
        Ok(Board {
            receiver: Receiver::make(entries.as_slice(), parts),
        })
    }

    // Takes bytes from the front of a piece.
    pub fn take(&mut self, piece: &[u8]) -> UbxTaken
        ensures value { result ≡ taken_in (⟦<BoardReceiver as Meaning>⟧.step self.old.receiver (take_piece piece.now)).event }
        ensures after { ⟦<BoardReceiver as Meaning>⟧.state self.new.receiver ≡ (⟦<BoardReceiver as Meaning>⟧.step self.old.receiver (take_piece piece.now)).state }
    {
        match self.receiver.take(piece) {
            Ok(count) => UbxTaken { count, refused: 0 },
            Err(fault) => UbxTaken {
                count: 0,
                refused: fault.number(),
            },
        }
    }

    // Answers the first frame that is held, if it is whole.
    pub fn answer(&mut self, out: &mut [u8]) -> UbxAnswered
        ensures value { result ≡ answered_in (⟦<BoardReceiver as Meaning>⟧.step self.old.receiver (answer_into (length out.old))).event }
        ensures after { ⟦<BoardReceiver as Meaning>⟧.state self.new.receiver ≡ (⟦<BoardReceiver as Meaning>⟧.step self.old.receiver (answer_into (length out.old))).state }
        ensures buffer { out.new ≡ in_front (written_by (⟦<BoardReceiver as Meaning>⟧.step self.old.receiver (answer_into (length out.old))).event) out.old }
    {
        match self.receiver.answer(out) {
            Ok(answered) => UbxAnswered::of(answered),
            Err(fault) => UbxAnswered::refused(fault),
        }
    }

    // What a layer holds under the key of an item.
    pub fn look(&self, layer: u8, key: u32) -> UbxLooked
        ensures { result ≡ looked_in (⟦<BoardReceiver as Meaning>⟧.step self.now.receiver (look_at layer key)).event }
    {
        match self.receiver.look(layer, key) {
            Ok(value) => UbxLooked {
                value: value.unwrap_or(0),
                held: value.is_some(),
                refused: 0,
            },
            Err(fault) => UbxLooked {
                value: 0,
                held: false,
                refused: fault.number(),
            },
        }
    }

    // The power comes back, with BBR kept or lost.
    pub fn restart(&mut self, lost: bool) -> UbxRestarted
        ensures value { result ≡ restarted_in (⟦<BoardReceiver as Meaning>⟧.step self.old.receiver (restart_with (battery_of lost))).event }
        ensures after { ⟦<BoardReceiver as Meaning>⟧.state self.new.receiver ≡ (⟦<BoardReceiver as Meaning>⟧.step self.old.receiver (restart_with (battery_of lost))).state }
    {
        let battery = if lost { Battery::Lost } else { Battery::Kept };
        match self.receiver.restart(battery) {
            Ok(fault) => UbxRestarted {
                item: fault.unwrap_or(0),
                unfit: fault.is_some(),
                refused: 0,
            },
            Err(fault) => UbxRestarted {
                item: 0,
                unfit: false,
                refused: fault.number(),
            },
        }
    }

    // The words of Flash.
    pub fn words(&self) -> &[u32]
        ensures { words_store result.now ≡ (⟦<BoardReceiver as Meaning>⟧.state self.now.receiver).flash }
    {
        self.receiver.flash().store.words()
    }

    // Copies the words of Flash to the start of a buffer, if it has room for them; answers how many there are.
    #[tactic(auto, using(crate::proofs::Copies::copied_words))]
    pub fn copy_words(&self, out: &mut [u32]) -> usize
        ensures { CopiedTo (⟦<BoardReceiver as Meaning>⟧.state self.now.receiver).flash out.old out.new result }
    {
        copy_to(self.words(), out)
    }
}

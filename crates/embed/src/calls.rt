// The functions that C calls. Each is given a handle and the place of its pointer, and puts the pointer back there.
// kept: a handle is taken by value and its pointer put back, since a struct that owns memory is not read through a reference without a proof by
// hand for each field; and no pointer is an answer, which exports may not give
ghost use Rattle.std.specs.Prelude.{◌≡◌, ◌⊎◌, length};
ghost use Rattle.frame.specs.Written.{in_front};
ghost use Rattle.journal.specs.Inspecting.{inspected};
ghost use Rattle.reference.specs.Events.{take_piece, answer_into, look_at, restart_with, written_by};
ghost use Rattle.embed.specs.Numbers.{taken_in, answered_in, looked_in, restarted_in, battery_of, made_number, inspected_as};
ghost use Rattle.embed.specs.Made.{board_parts, CopiedTo};

use crate::board::{Board, BoardReceiver};
use crate::handle::Handle;
use crate::numbers::{
    UbxAnswered, UbxEntry, UbxInspected, UbxLooked, UbxNeed, UbxRestarted, UbxTaken,
};
use crate::parts::Parts;
use journal::inspect;
use receiver::Meaning;
use std::alloc::Global;

// What is answered where there is no memory for a receiver.
const NO_MEMORY: u8 = 255;

// The pointer of a boxed board, which is let go of: C has it now.
fn address(whole: Box<Board, Global>) -> *mut () {
    Parts::of(whole).address()
}

// Makes a receiver on the heap, and puts its pointer at `board`; answers 0, the number of the refusal of its parts, or 255 for want of memory.
// Where none is made the pointer stays as it is.
#[unsafe(no_mangle)]
pub extern "C" fn ubx_make(
    heap: Global,
    entries: &[UbxEntry],
    needs: &[UbxNeed],
    words: &[u32],
    board: &mut *mut (),
) -> u8
    ensures value { (result ≡ 255) ⊎ (result ≡ made_number (board_parts entries.now needs.now words.now)) }
    ensures place { (result ≡ 0) ⊎ (board.new ≡ board.old) }
{
    let made = match Board::make(heap, entries, needs, words) {
        Ok(made) => made,
        Err(fault) => return fault.number(),
    };
    match Box::new(heap, made) {
        Ok(made) => {
            *board = address(made);
            0
        }
        Err(_) => NO_MEMORY,
    }
}

// Takes bytes from the front of a piece until it ends or 780 are held.
#[unsafe(no_mangle)]
pub extern "C" fn ubx_take(handle: Handle, board: &mut *mut (), piece: &[u8]) -> UbxTaken
    ensures { result ≡ taken_in (⟦<BoardReceiver as Meaning>⟧.step handle.board.receiver (take_piece piece.now)).event }
{
    let mut whole = handle.into_box();
    let taken = whole.take(piece);
    *board = address(whole);
    taken
}

// Answers the first frame that is held, if it is whole: what it was, its verdict, and how many bytes stand at the start of the buffer.
#[unsafe(no_mangle)]
pub extern "C" fn ubx_answer(handle: Handle, board: &mut *mut (), out: &mut [u8]) -> UbxAnswered
    ensures value { result ≡ answered_in (⟦<BoardReceiver as Meaning>⟧.step handle.board.receiver (answer_into (length out.old))).event }
    ensures buffer { out.new ≡ in_front (written_by (⟦<BoardReceiver as Meaning>⟧.step handle.board.receiver (answer_into (length out.old))).event) out.old }
{
    let mut whole = handle.into_box();
    let answered = whole.answer(out);
    *board = address(whole);
    answered
}

// What a layer (0 RAM, 1 BBR, 2 Flash, 7 the defaults) holds under the key of an item.
#[unsafe(no_mangle)]
pub extern "C" fn ubx_look(handle: Handle, board: &mut *mut (), layer: u8, key: u32) -> UbxLooked
    ensures { result ≡ looked_in (⟦<BoardReceiver as Meaning>⟧.step handle.board.receiver (look_at layer key)).event }
{
    let whole = handle.into_box();
    let looked = whole.look(layer, key);
    *board = address(whole);
    looked
}

// Drops the held bytes and the transaction, clears BBR where the battery was lost, and stacks RAM anew.
#[unsafe(no_mangle)]
pub extern "C" fn ubx_restart(handle: Handle, board: &mut *mut (), lost: bool) -> UbxRestarted
    ensures { result ≡ restarted_in (⟦<BoardReceiver as Meaning>⟧.step handle.board.receiver (restart_with (battery_of lost))).event }
{
    let mut whole = handle.into_box();
    let restarted = whole.restart(lost);
    *board = address(whole);
    restarted
}

// Copies the words of Flash to the start of a buffer; answers how many words there are, and leaves a buffer that has no room for them as it was.
#[unsafe(no_mangle)]
pub extern "C" fn ubx_words(handle: Handle, board: &mut *mut (), out: &mut [u32]) -> usize
    ensures { CopiedTo (⟦<BoardReceiver as Meaning>⟧.state handle.board.receiver).flash out.old out.new result }
{
    let whole = handle.into_box();
    let count = whole.copy_words(out);
    *board = address(whole);
    count
}

// Whether words may be a journal: the number of their refusal, and the first wrong word. Of words that are refused a receiver is made with an
// unusable Flash.
#[unsafe(no_mangle)]
pub extern "C" fn ubx_inspect(words: &[u32]) -> UbxInspected
    ensures { result ≡ inspected_as (inspected words.now) }
{
    match inspect(words) {
        Ok(_) => UbxInspected {
            word: 0,
            refused: 0,
        },
        Err(fault) => UbxInspected {
            word: fault.word(),
            refused: fault.number(),
        },
    }
}

// Ends a receiver and frees its memory.
#[unsafe(no_mangle)]
pub extern "C" fn ubx_end(handle: Handle) {
    drop(handle.into_box());
}

// The first message of the input.
ghost use Rattle.std.specs.Prelude.{◌≡◌, Option};
ghost use Rattle.std.specs.Iterator.{YieldsFirst};
ghost use Rattle.layer.specs.declared.setting.Setting.{Setting};
ghost use Rattle.reply.specs.declared.pairs.Pairs.{Pairs};
ghost use Rattle.reply.specs.Messages.{read_message};
ghost use Rattle.reply.specs.Meaning.{FirstHeard, read_of, pairs_left};
ghost use Rattle.reply.specs.Back.{ReadsBack};

use crate::fault::ReadFault;
use crate::message::{Message, message_in};
use frame::{Frame, find};

// A message, the place of its first byte in the input, and the bytes behind it, in which to read on.
#[derive(Clone, Copy, Debug)]
pub struct Reading<'a> {
    pub place: usize,
    pub message: Message<'a>,
    pub rest: &'a [u8],
}

// A heard frame, its place in the input, and the bytes behind it.
#[derive(Clone, Copy)]
struct Heard<'a> {
    place: usize,
    frame: Frame<'a>,
    rest: &'a [u8],
}

// The first heard frame of the input.
fn first_heard(bytes: &[u8]) -> Option<Heard<'_>>
    ensures { FirstHeard bytes.now result }
{
    let found = find(bytes);
    let frame = found.frame?;
    Some(Heard {
        place: found.noise,
        frame,
        rest: found.rest,
    })
}

// What the first heard frame of the input says. Noise before it is skipped, and an undecided place ends the search. Clause `steps`: each step of a
// loop over its pairs gives the next one.
#[tactic(auto, using(crate::proofs::Back::reads_back))]
pub fn read(bytes: &[u8]) -> Result<Reading<'_>, ReadFault>
    ensures value { read_of result ≡ read_message bytes.now }
    ensures back { ReadsBack bytes.now (read_of result) }
    ensures steps { (before : Pairs) (pair : Option Setting) (after : Pairs) → ⟦<crate::pairs::Pairs<'static> as Iterator>⟧.next_gives before pair after → YieldsFirst pairs_left before pair after }
{
    let Some(heard) = first_heard(bytes) else {
        return Err(ReadFault::NothingWhole);
    };
    let message = message_in(heard.frame, heard.place)?;
    Ok(Reading {
        place: heard.place,
        message,
        rest: heard.rest,
    })
}

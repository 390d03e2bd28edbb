// What a frame says.
ghost use Rattle.std.specs.Prelude.{◌≡◌, ◌+◌, ◌<◌, ◌^◌, length};
ghost use Rattle.frame.specs.Frames.{size_of};
ghost use Rattle.frame.specs.Meaning.{message_of};
ghost use Rattle.reply.specs.Messages.{said, verdict_said, values_said};
ghost use Rattle.reply.specs.Meaning.{saying_of, said_of};

use crate::fault::ReadFault;
use crate::pairs::Pairs;
use frame::{Frame, HEADER};
use request::{CONFIGURATION_CLASS, HEAD, VALGET};

// The class of verdicts, and the IDs of an ACK and a NAK.
const VERDICT_CLASS: u8 = 0x05;

const ACK: u8 = 0x01;

const NAK: u8 = 0x00;

// The version of a reply to a get.
const REPLY_VERSION: u8 = 1;

// What a receiver says. What is of the input is lent.
#[derive(Clone, Copy, Debug)]
pub enum Message<'a> {
    // the frame with this class and ID is granted
    Ack {
        class: u8,
        id: u8,
    },
    // it is refused
    Nak {
        class: u8,
        id: u8,
    },
    // the reply to a get
    Values {
        layer: u8,
        position: u16,
        pairs: Pairs<'a>,
    },
    // any other frame
    Other(Frame<'a>),
}

// What a frame of the verdicts' class says.
#[tactic(auto, unfolding(crate::specs::Messages::verdict_said))]
fn verdict_in(frame: Frame<'_>) -> Message<'_>
    ensures { saying_of result ≡ verdict_said (message_of frame.entry) }
{
    let &[class, id] = frame.payload else {
        return Message::Other(frame);
    };
    match frame.id {
        ACK => Message::Ack { class, id },
        NAK => Message::Nak { class, id },
        _ => Message::Other(frame),
    }
}

// What a reply to a get says whose payload begins at a place of the input.
#[tactic(auto, unfolding(crate::specs::Messages::values_said), using(crate::proofs::Sayings::values_ok))]
fn values_in(frame: Frame<'_>, place: usize) -> Result<Message<'_>, ReadFault>
    requires { place + length frame.payload.now < 2 ^ 64 }
    ensures { said_of result ≡ values_said place (message_of frame.entry) }
{
    let [version, layer, low, high, pairs @ ..] = frame.payload else {
        return Ok(Message::Other(frame));
    };
    // kept: a constant inside a slice pattern tells the prover nothing of the byte
    if *version != REPLY_VERSION {
        return Ok(Message::Other(frame));
    }
    let pairs = Pairs::read(pairs, place + HEAD)?;
    Ok(Message::Values {
        layer: *layer,
        position: u16::from_le_bytes([*low, *high]),
        pairs,
    })
}

// What a frame says whose first byte stands at a place of the input.
#[tactic(auto, unfolding(crate::specs::Messages::said))]
pub(crate) fn message_in(frame: Frame<'_>, place: usize) -> Result<Message<'_>, ReadFault>
    requires { place + size_of (message_of frame) < 2 ^ 64 }
    ensures { said_of result ≡ said place (message_of frame.entry) }
{
    match (frame.class, frame.id) {
        (VERDICT_CLASS, _) => Ok(verdict_in(frame)),
        (CONFIGURATION_CLASS, VALGET) => values_in(frame, place + HEADER),
        _ => Ok(Message::Other(frame)),
    }
}

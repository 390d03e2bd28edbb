// Why a frame of the configuration class is refused, and the verdict that a frame gets.
ghost use Rattle.std.specs.Prelude.{◌≡◌, Some};
ghost use Rattle.reference.specs.Answers.{refusal_number, refusal_place, verdict_number};
ghost use Rattle.reference.specs.Texts.{refusal_text, verdict_text};

use std::error::Error;
use std::fmt;

// The checks of a frame, in the order in which they are tried. The last four carry the place of an entry in the payload, or an item.
#[derive(Clone, Copy, Debug, PartialEq, Eq)]
pub enum Refusal {
    // neither VALSET nor VALGET nor VALDEL
    OtherId,
    // fewer than 4 bytes
    ShortPayload,
    UnknownVersion,
    NoLayer,
    // a layer that there is not, or a Flash that is not usable
    WrongLayer,
    // an action 2 or 3 with no transaction open
    NoneOpen,
    // an action 2 or 3 for other layers than the transaction was opened for
    OtherLayers,
    // an action 2 without data
    NothingAdded,
    // a 65th entry
    TooManyEntries(usize),
    // a key or value that the payload's end cuts
    CutEntry(usize),
    UnknownKey(usize),
    // the rule finds the RAM that applying would leave unfit, and names this item
    Unfit(usize),
}

impl Refusal {
    // The refusal's number.
    pub fn number(self) -> u8
        ensures { result ≡ refusal_number self }
    {
        match self {
            Refusal::OtherId => 10,
            Refusal::ShortPayload => 11,
            Refusal::UnknownVersion => 12,
            Refusal::NoLayer => 13,
            Refusal::WrongLayer => 14,
            Refusal::NoneOpen => 15,
            Refusal::OtherLayers => 16,
            Refusal::NothingAdded => 17,
            Refusal::TooManyEntries(_) => 18,
            Refusal::CutEntry(_) => 19,
            Refusal::UnknownKey(_) => 20,
            Refusal::Unfit(_) => 21,
        }
    }

    // The place in the payload that is at fault; of an unfit configuration the item.
    pub fn place(self) -> usize
        ensures { result ≡ refusal_place self }
    {
        match self {
            Refusal::OtherId => 0,
            Refusal::ShortPayload => 0,
            Refusal::UnknownVersion => 0,
            Refusal::NoLayer => 1,
            Refusal::WrongLayer => 1,
            Refusal::NoneOpen => 2,
            Refusal::OtherLayers => 1,
            Refusal::NothingAdded => 2,
            Refusal::TooManyEntries(place) => place,
            Refusal::CutEntry(place) => place,
            Refusal::UnknownKey(place) => place,
            Refusal::Unfit(item) => item,
        }
    }
}

impl fmt::Display for Refusal {
    ghost output = { λ refusal. Some (refusal_text refusal) };

    fn fmt<W: fmt::Write>(&self, f: &mut fmt::Formatter<W>) -> fmt::Result {
        let place = self.place();
        match self {
            Refusal::OtherId => f.write_str("the ID is none of the three requests'"),
            Refusal::ShortPayload => f.write_str("the payload has fewer than 4 bytes"),
            Refusal::UnknownVersion => f.write_str("the version is unknown"),
            Refusal::NoLayer => f.write_str("no layer is chosen"),
            Refusal::WrongLayer => f.write_str("there is no such layer, or it is not usable"),
            Refusal::NoneOpen => f.write_str("no transaction is open"),
            Refusal::OtherLayers => f.write_str("the transaction was opened for other layers"),
            Refusal::NothingAdded => f.write_str("the frame adds nothing to the transaction"),
            Refusal::TooManyEntries(_) => write!(f, "a 65th entry at place {place}"),
            Refusal::CutEntry(_) => write!(f, "the entry at place {place} is cut"),
            Refusal::UnknownKey(_) => write!(f, "the key at place {place} is unknown"),
            Refusal::Unfit(_) => write!(f, "item {place} would be unfit"),
        }
    }
}

impl Error for Refusal {}

// What a told frame gets: nothing, where it is outside the configuration class, or an ACK or a NAK.
// kept: three outcomes that the law names; in an Option of a Result neither None nor Ok would say what it means
#[derive(Clone, Copy, Debug, PartialEq, Eq)]
pub enum Verdict {
    Outside,
    Ack,
    Nak(Refusal),
}

// As listings name it.
impl fmt::Display for Verdict {
    ghost output = { λ verdict. Some (verdict_text verdict) };

    fn fmt<W: fmt::Write>(&self, f: &mut fmt::Formatter<W>) -> fmt::Result {
        match self {
            Verdict::Outside => f.write_str("out"),
            Verdict::Ack => f.write_str("ack"),
            Verdict::Nak(_) => f.write_str("nak"),
        }
    }
}

impl Verdict {
    // The number of the refusal, 0 where there is none.
    // kept: public, and promises 0 where there is none; an Option would promise something else
    pub fn number(self) -> u8
        ensures { result ≡ verdict_number self }
    {
        match self {
            Verdict::Outside => 0,
            Verdict::Ack => 0,
            Verdict::Nak(refusal) => refusal.number(),
        }
    }
}

// What crosses to C: structs of numbers. In each, `refused` is the number of the refusal, 0 where the call was not refused.
ghost use Rattle.std.specs.Prelude.{◌≡◌};
ghost use Rattle.reference.specs.Answers.{call_fault_number, verdict_number};
ghost use Rattle.embed.specs.Numbers.{entry_of, need_of, answered_of, refused_answer, told_number, verdict_place};

use catalogue::{Entry, Kind};
use reference::{Answered, CallFault, Verdict};
use rule::Need;

// An item of the catalogue; `kind` is 0 for unsigned numbers, 1 for two's complement, 2 for bits.
#[repr(C)]
#[derive(Clone, Copy)]
pub struct UbxEntry {
    pub key: u32,
    pub kind: u8,
    pub default: u64,
    pub low: u64,
    pub high: u64,
}

// A value other than 0 in the first item needs one in the second.
#[repr(C)]
#[derive(Clone, Copy)]
pub struct UbxNeed {
    pub first: usize,
    pub second: usize,
}

#[repr(C)]
#[derive(Clone, Copy)]
pub struct UbxTaken {
    // how many bytes were taken
    pub count: usize,
    pub refused: u8,
}

#[repr(C)]
#[derive(Clone, Copy)]
pub struct UbxAnswered {
    // how many bytes of noise were dropped
    pub noise: usize,
    // how many bytes stand at the start of the buffer, to be sent
    pub length: usize,
    // of a NAK, the place in the payload that is at fault, or the item that is unfit
    pub place: usize,
    // 0 nothing whole, 1 outside the configuration class, 2 ACK, 3 NAK
    pub told: u8,
    pub class: u8,
    pub id: u8,
    // of a NAK, the number of the frame's refusal
    pub number: u8,
    pub refused: u8,
}

#[repr(C)]
#[derive(Clone, Copy)]
pub struct UbxLooked {
    pub value: u64,
    // whether the layer holds one
    pub held: bool,
    pub refused: u8,
}

#[repr(C)]
#[derive(Clone, Copy)]
pub struct UbxRestarted {
    // the item at fault where the stack was unfit
    pub item: usize,
    pub unfit: bool,
    pub refused: u8,
}

#[repr(C)]
#[derive(Clone, Copy)]
pub struct UbxInspected {
    // the place of the first wrong word
    pub word: usize,
    pub refused: u8,
}

impl UbxEntry {
    pub(crate) fn entry(self) -> Entry
        ensures { result ≡ entry_of self }
    {
        Entry {
            key: self.key,
            kind: Kind::from(self.kind),
            default: self.default,
            low: self.low,
            high: self.high,
        }
    }
}

impl UbxNeed {
    pub(crate) fn need(self) -> Need
        ensures { result ≡ need_of self }
    {
        Need {
            first: self.first,
            second: self.second,
        }
    }
}

// How a verdict is told.
fn told_number(verdict: Verdict) -> u8
    ensures { result ≡ told_number verdict }
{
    match verdict {
        Verdict::Outside => 1,
        Verdict::Ack => 2,
        Verdict::Nak(_) => 3,
    }
}

// The place or item of a NAK, else 0.
fn verdict_place(verdict: Verdict) -> usize
    ensures { result ≡ verdict_place verdict }
{
    match verdict {
        Verdict::Outside | Verdict::Ack => 0,
        Verdict::Nak(refusal) => refusal.place(),
    }
}

impl UbxAnswered {
    pub(crate) fn of(answered: Answered) -> UbxAnswered
        ensures { result ≡ answered_of answered }
    {
        match answered.told {
            None => UbxAnswered {
                noise: answered.noise,
                length: 0,
                place: 0,
                told: 0,
                class: 0,
                id: 0,
                number: 0,
                refused: 0,
            },
            Some(telling) => UbxAnswered {
                noise: answered.noise,
                length: telling.length,
                place: verdict_place(telling.verdict),
                told: told_number(telling.verdict),
                class: telling.class,
                id: telling.id,
                number: telling.verdict.number(),
                refused: 0,
            },
        }
    }

    pub(crate) fn refused(fault: CallFault) -> UbxAnswered
        ensures { result ≡ refused_answer (call_fault_number fault) }
    {
        UbxAnswered {
            noise: 0,
            length: 0,
            place: 0,
            told: 0,
            class: 0,
            id: 0,
            number: 0,
            refused: fault.number(),
        }
    }
}

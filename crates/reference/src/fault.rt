// Why a call is refused, and why the parts of a receiver are.
ghost use Rattle.std.specs.Prelude.{◌≡◌, Some};
ghost use Rattle.reference.specs.declared.fault.PartsFault.TheVariants.{Catalogue};
ghost use Rattle.reference.specs.Answers.{call_fault_number, parts_fault_number, parts_fault_entry, parts_fault_layer, parts_fault_key, parts_fault_item};
ghost use Rattle.reference.specs.Texts.{call_fault_text, parts_fault_text};

use catalogue::CatalogueFault;
use std::error::Error;
use std::fmt;

// A refused call changes nothing.
#[derive(Clone, Copy, Debug, PartialEq, Eq)]
pub enum CallFault {
    // the receiver was made of parts that the check refuses
    Shut = 8,
    // an answering needs room for 790 bytes
    BufferTooShort = 9,
    // a looking at a layer that there is not, or at a Flash that is not usable
    WrongLayer = 14,
    // a looking for a key that no item has
    UnknownKey = 20,
}

impl CallFault {
    // The refusal's number.
    pub fn number(self) -> u8
        ensures { result ≡ call_fault_number self }
    {
        self as u8
    }
}

impl fmt::Display for CallFault {
    ghost output = { λ fault. Some (call_fault_text fault) };

    fn fmt<W: fmt::Write>(&self, f: &mut fmt::Formatter<W>) -> fmt::Result {
        match self {
            CallFault::Shut => f.write_str("the receiver is shut: its parts were refused"),
            CallFault::BufferTooShort => f.write_str("the buffer has fewer than 790 bytes"),
            CallFault::WrongLayer => f.write_str("there is no such layer, or it is not usable"),
            CallFault::UnknownKey => f.write_str("no item has this key"),
        }
    }
}

impl Error for CallFault {}

// The checks of the parts, in the order in which they are tried.
#[derive(Clone, Copy, Debug, PartialEq, Eq)]
pub enum PartsFault {
    Catalogue(CatalogueFault),
    BbrUnusable,
    // the least key that BBR, or else Flash, holds and no item has
    StrayInBbr(u32),
    StrayInFlash(u32),
    // the rule finds the defaults unfit, and names this item
    DefaultsUnfit(usize),
}

impl PartsFault {
    // The refusal's number.
    pub fn number(self) -> u8
        ensures { result ≡ parts_fault_number self }
    {
        match self {
            PartsFault::Catalogue(fault) => fault.number(),
            PartsFault::BbrUnusable => 5,
            PartsFault::StrayInBbr(_) => 6,
            PartsFault::StrayInFlash(_) => 6,
            PartsFault::DefaultsUnfit(_) => 7,
        }
    }

    // The entry at fault, of a catalogue; 0 where there is none.
    // kept: `entry`, `layer`, `key` and `item` promise 0 where there is none, and an Option would promise something else
    pub fn entry(self) -> usize
        ensures { result ≡ parts_fault_entry self }
    {
        match self {
            PartsFault::Catalogue(fault) => fault.entry(),
            _ => 0,
        }
    }

    // The layer of a stray key: 1 is BBR, 2 is Flash; 0 where there is none.
    pub fn layer(self) -> u8
        ensures { result ≡ parts_fault_layer self }
    {
        match self {
            PartsFault::StrayInBbr(_) => 1,
            PartsFault::StrayInFlash(_) => 2,
            _ => 0,
        }
    }

    // The stray key; 0 where there is none.
    pub fn key(self) -> u32
        ensures { result ≡ parts_fault_key self }
    {
        match self {
            PartsFault::StrayInBbr(key) => key,
            PartsFault::StrayInFlash(key) => key,
            _ => 0,
        }
    }

    // The item of unfit defaults; 0 where there is none.
    pub fn item(self) -> usize
        ensures { result ≡ parts_fault_item self }
    {
        match self {
            PartsFault::DefaultsUnfit(item) => item,
            _ => 0,
        }
    }
}

impl From<CatalogueFault> for PartsFault {
    ghost from_gives = { λ cause fault. fault ≡ Catalogue cause };

    fn from(cause: CatalogueFault) -> PartsFault {
        PartsFault::Catalogue(cause)
    }
}

impl fmt::Display for PartsFault {
    ghost output = { λ fault. Some (parts_fault_text fault) };

    fn fmt<W: fmt::Write>(&self, f: &mut fmt::Formatter<W>) -> fmt::Result {
        match self {
            PartsFault::Catalogue(fault) => write!(f, "{fault}"),
            PartsFault::BbrUnusable => f.write_str("the battery memory is not usable"),
            PartsFault::StrayInBbr(key) => write!(
                f,
                "the battery memory holds the stray key {key:08x}"
            ),
            PartsFault::StrayInFlash(key) => write!(f, "Flash holds the stray key {key:08x}"),
            PartsFault::DefaultsUnfit(item) => write!(f, "the defaults are unfit at item {item}"),
        }
    }
}

impl Error for PartsFault {}

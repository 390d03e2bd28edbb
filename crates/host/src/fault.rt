// Why a request is not written.
ghost use Rattle.std.specs.Prelude.{◌≡◌, Some};
ghost use Rattle.host.specs.Refusals.{fault_number};
ghost use Rattle.host.specs.Texts.{host_fault_text};

use std::error::Error;
use std::fmt;

// In the order in which the checks are tried; an ill-formed key and an unfit value are both tried at one entry before the next.
#[derive(Clone, Copy, Debug, PartialEq, Eq)]
pub enum HostFault {
    // no layer, or one that the request cannot name
    WrongLayers,
    // adding to a transaction, without entries
    NothingToAdd,
    // over 64 entries
    TooManyEntries,
    // an entry that is neither a well-formed key nor, where one may stand, a selector
    IllFormedKey,
    // a value that does not fit its key's size
    UnfitValue,
    // the buffer is shorter than the frame
    BufferTooShort,
}

impl HostFault {
    // The refusal's number.
    pub fn number(self) -> u8
        ensures { result ≡ fault_number self }
    {
        match self {
            HostFault::WrongLayers => 31,
            HostFault::NothingToAdd => 32,
            HostFault::TooManyEntries => 33,
            HostFault::IllFormedKey => 34,
            HostFault::UnfitValue => 35,
            HostFault::BufferTooShort => 36,
        }
    }
}

impl fmt::Display for HostFault {
    ghost output = { λ fault. Some (host_fault_text fault) };

    fn fmt<W: fmt::Write>(&self, f: &mut fmt::Formatter<W>) -> fmt::Result {
        f.write_str(match self {
            HostFault::WrongLayers => "no layer is chosen, or one that the request cannot name",
            HostFault::NothingToAdd => "there is nothing to add",
            HostFault::TooManyEntries => "a request has at most 64 entries",
            HostFault::IllFormedKey => "an entry's key is ill-formed",
            HostFault::UnfitValue => "a value does not fit its key's size",
            HostFault::BufferTooShort => "the buffer is shorter than the frame",
        })
    }
}

impl Error for HostFault {}

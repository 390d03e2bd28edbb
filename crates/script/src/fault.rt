// What is wrong with a line of a script.
ghost use Rattle.std.specs.Prelude.{◌≡◌, Some};
ghost use Rattle.script.specs.declared.fault.LineFault.TheVariants.{NoMemory};
ghost use Rattle.script.specs.Texts.{line_fault_text};

use std::alloc::{AllocError, AllocFailed};
use std::error::Error;
use std::fmt;

#[derive(Clone, Copy, Debug)]
pub enum LineFault {
    UnknownCommand,
    // the words behind the command are not these
    Form(&'static str),
    NoKey,
    NoByte,
    NoWord,
    // no decimal number, or one above the most that is taken
    NoNumber(u64),
    // no decimal number
    NoCount,
    SetUpAfterMake,
    CallBeforeMake,
    NoMemory,
}

impl fmt::Display for LineFault {
    ghost output = { λ fault. Some (line_fault_text fault) };

    fn fmt<W: fmt::Write>(&self, f: &mut fmt::Formatter<W>) -> fmt::Result {
        match self {
            LineFault::UnknownCommand => f.write_str("there is no such command"),
            LineFault::Form(form) => write!(f, "expected: {form}"),
            LineFault::NoKey => f.write_str("a key is a hexadecimal number up to ffffffff"),
            LineFault::NoByte => f.write_str("a byte is a hexadecimal number up to ff"),
            LineFault::NoWord => f.write_str("a word is a hexadecimal number up to ffffffff"),
            LineFault::NoNumber(most) => write!(f, "expected a decimal number up to {most}"),
            LineFault::NoCount => f.write_str("expected a decimal number"),
            LineFault::SetUpAfterMake => {
                f.write_str("set-up ends with make; new begins another receiver")
            }
            LineFault::CallBeforeMake => f.write_str("there is no receiver before make"),
            LineFault::NoMemory => f.write_str("there is no memory left"),
        }
    }
}

impl Error for LineFault {}

impl From<AllocError> for LineFault {
    ghost from_gives = { λ error fault. fault ≡ NoMemory };

    fn from(_fault: AllocError) -> LineFault {
        LineFault::NoMemory
    }
}

impl<T: Drop> From<AllocFailed<T>> for LineFault {
    ghost from_gives = { λ failed fault. fault ≡ NoMemory };

    fn from(_fault: AllocFailed<T>) -> LineFault {
        LineFault::NoMemory
    }
}

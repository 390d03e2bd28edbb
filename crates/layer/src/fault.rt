// Why a store refuses a write.
ghost use Rattle.std.specs.Prelude.{◌≡◌, Some};
ghost use Rattle.layer.specs.Stores.{refusal_number};
ghost use Rattle.layer.specs.Texts.{store_fault_text};

use std::error::Error;
use std::fmt;

#[derive(Clone, Copy, PartialEq, Eq, Debug)]
pub enum StoreFault {
    // the store cannot be written at all
    Unusable = 27,
    IllFormedKey = 28,
    // the value does not fit the key's size
    Unfit = 29,
    // the key is new, and 128 settings are held
    Full = 30,
}

impl StoreFault {
    // The refusal's number.
    pub fn number(self) -> u8
        ensures { result ≡ refusal_number self }
    {
        self as u8
    }
}

impl fmt::Display for StoreFault {
    ghost output = { λ fault. Some (store_fault_text fault) };

    fn fmt<W: fmt::Write>(&self, f: &mut fmt::Formatter<W>) -> fmt::Result {
        match self {
            StoreFault::Unusable => f.write_str("the store is not usable"),
            StoreFault::IllFormedKey => f.write_str("the key is ill-formed"),
            StoreFault::Unfit => f.write_str("the value does not fit the key's size"),
            StoreFault::Full => f.write_str("128 settings are held already"),
        }
    }
}

impl Error for StoreFault {}

// Why no message is read.
ghost use Rattle.std.specs.Prelude.{◌≡◌, Some};
ghost use Rattle.reply.specs.Answers.{read_fault_number, read_fault_place};
ghost use Rattle.reply.specs.Texts.{read_fault_text};

use std::error::Error;
use std::fmt;

#[derive(Clone, Copy, PartialEq, Eq, Debug)]
pub enum ReadFault {
    // no whole frame is heard
    NothingWhole,
    // the key at this place of the input is ill-formed, or the payload ends inside the pair that begins there
    BadPair(usize),
}

impl ReadFault {
    // The refusal's number.
    pub fn number(self) -> u8
        ensures { result ≡ read_fault_number self }
    {
        match self {
            ReadFault::NothingWhole => 37,
            ReadFault::BadPair(_) => 38,
        }
    }

    // The place in the input; 0 where nothing is heard.
    pub fn place(self) -> usize
        ensures { result ≡ read_fault_place self }
    {
        match self {
            ReadFault::NothingWhole => 0,
            ReadFault::BadPair(place) => place,
        }
    }
}

impl fmt::Display for ReadFault {
    ghost output = { λ fault. Some (read_fault_text fault) };

    fn fmt<W: fmt::Write>(&self, f: &mut fmt::Formatter<W>) -> fmt::Result {
        match self {
            ReadFault::NothingWhole => f.write_str("no whole frame is heard"),
            ReadFault::BadPair(place) => {
                write!(
                    f,
                    "the pair at place {place} is cut or its key is ill-formed"
                )
            }
        }
    }
}

impl Error for ReadFault {}

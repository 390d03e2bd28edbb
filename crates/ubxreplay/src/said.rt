// Lines whose answers hang on no call of a receiver.
use crate::office::HostLine;
use crate::reading::ReadLine;
use journal::JournalFault;
use script::LineFault;
use std::fmt;

// A line that the format does not allow, by its number.
#[derive(Clone, Copy)]
pub struct ErrorLine {
    pub number: usize,
    pub fault: LineFault,
}

impl fmt::Display for ErrorLine {
    fn fmt<W: fmt::Write>(&self, f: &mut fmt::Formatter<W>) -> fmt::Result {
        let ErrorLine { number, fault } = *self;
        write!(f, "error line {number}: {fault}")
    }
}

#[derive(Drop)]
pub enum Said {
    Wrong(ErrorLine),
    // how many settings a buffer of words holds, or what is wrong with it
    Inspected(Result<usize, JournalFault>),
    // the bytes, of which the first message is told
    Read(Vec<u8>),
    Host(HostLine),
}

impl fmt::Display for Said {
    fn fmt<W: fmt::Write>(&self, f: &mut fmt::Formatter<W>) -> fmt::Result {
        match self {
            Said::Wrong(line) => write!(f, "{line}"),
            Said::Inspected(Ok(count)) => write!(f, "inspect ok {count}"),
            Said::Inspected(Err(fault)) => {
                let number = fault.number();
                let word = fault.word();
                write!(f, "inspect {number} {word}")
            }
            Said::Read(bytes) => {
                let line = ReadLine(bytes.as_slice());
                write!(f, "{line}")
            }
            Said::Host(line) => write!(f, "{line}"),
        }
    }
}

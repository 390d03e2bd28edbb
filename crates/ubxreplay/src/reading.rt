// The line that answers a read: what a receiver sent.
use frame::Frame;
use layer::Setting;
use reply::{Message, Pairs, ReadFault, Reading, read};
use std::fmt;

// The bytes, of which the first message is told.
#[derive(Clone, Copy)]
pub struct ReadLine<'a>(pub &'a [u8]);

impl<'a> fmt::Display for ReadLine<'a> {
    fn fmt<W: fmt::Write>(&self, f: &mut fmt::Formatter<W>) -> fmt::Result {
        match read(self.0) {
            Ok(reading) => show_reading(f, &reading),
            Err(fault) => show_fault(f, fault),
        }
    }
}

fn show_fault<W: fmt::Write>(f: &mut fmt::Formatter<W>, fault: ReadFault) -> fmt::Result {
    let number = fault.number();
    write!(f, "read refused {number}")?;
    match fault {
        ReadFault::NothingWhole => Ok(()),
        ReadFault::BadPair(place) => write!(f, " place {place}"),
    }
}

fn show_reading<W: fmt::Write>(f: &mut fmt::Formatter<W>, reading: &Reading<'_>) -> fmt::Result {
    let place = reading.place;
    match reading.message {
        Message::Ack { class, id } => write!(f, "read ack {class:02x} {id:02x} place {place}"),
        Message::Nak { class, id } => write!(f, "read nak {class:02x} {id:02x} place {place}"),
        Message::Values {
            layer,
            position,
            pairs,
        } => {
            write!(f, "read values {layer} {position} place {place}")?;
            show_pairs(f, pairs)
        }
        Message::Other(Frame { class, id, payload }) => {
            let count = payload.len();
            write!(f, "read other {class:02x} {id:02x} place {place} {count}")
        }
    }
}

fn show_pairs<W: fmt::Write>(f: &mut fmt::Formatter<W>, pairs: Pairs<'_>) -> fmt::Result {
    for Setting { key, value } in pairs {
        write!(f, " {key:08x} {value}")?;
    }
    Ok(())
}

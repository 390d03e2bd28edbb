// The host of a script: the transaction that is begun, if there is one, and what it writes.
use frame::MAX_FRAME;
use host::{
    Begun, DeleteTransaction, HostFault, SetTransaction, write_delete, write_get, write_set,
};
use layer::Setting;
use script::{Asked, HostCommand, LineFault};
use std::alloc::{AllocError, Global};
use std::{fmt, mem};

// What is answered to a command of the host end.
#[derive(Drop)]
pub enum HostLine {
    Written(Vec<u8>),
    Refused(HostFault),
    // a transaction is begun already
    Busy,
    NoneBegun,
}

impl fmt::Display for HostLine {
    fn fmt<W: fmt::Write>(&self, f: &mut fmt::Formatter<W>) -> fmt::Result {
        match self {
            HostLine::Written(bytes) => show_written(f, bytes.as_slice()),
            HostLine::Refused(fault) => {
                let number = fault.number();
                write!(f, "host refused {number}")
            }
            HostLine::Busy => f.write_str("host busy"),
            HostLine::NoneBegun => f.write_str("host none"),
        }
    }
}

fn show_written<W: fmt::Write>(f: &mut fmt::Formatter<W>, written: &[u8]) -> fmt::Result {
    let count = written.len();
    write!(f, "host {count}")?;
    for byte in written {
        write!(f, " {byte:02x}")?;
    }
    Ok(())
}

// A buffer of this size. No request is longer than the longest frame, so a larger one serves as well at that size.
fn buffer(heap: Global, room: usize) -> Result<Vec<u8>, AllocError> {
    vec![in heap; 0u8; room.min(MAX_FRAME)]
}

// What was written into a buffer, or why nothing was.
fn line_of(mut out: Vec<u8>, answer: Result<usize, HostFault>) -> HostLine {
    match answer {
        Ok(length) => {
            out.truncate(length);
            HostLine::Written(out)
        }
        Err(fault) => HostLine::Refused(fault),
    }
}

fn set(heap: Global, asked: &Asked<Setting>) -> Result<HostLine, LineFault> {
    let mut out = buffer(heap, asked.room)?;
    let answer = write_set(out.as_mut_slice(), asked.layers, asked.entries.as_slice());
    Ok(line_of(out, answer))
}

fn delete(heap: Global, asked: &Asked<u32>) -> Result<HostLine, LineFault> {
    let mut out = buffer(heap, asked.room)?;
    let answer = write_delete(out.as_mut_slice(), asked.layers, asked.entries.as_slice());
    Ok(line_of(out, answer))
}

fn get(
    heap: Global,
    room: usize,
    layer: u8,
    position: u16,
    numbers: &[u32],
) -> Result<HostLine, LineFault> {
    let mut out = buffer(heap, room)?;
    let answer = write_get(out.as_mut_slice(), layer, position, numbers);
    Ok(line_of(out, answer))
}

// The host's transaction, if one is begun. It may not be let go, so a host ends by `forget`, and nothing is assigned over it.
pub enum Host {
    Idle,
    Sets(SetTransaction),
    Deletes(DeleteTransaction),
}

impl Host {
    // Does what a command says.
    pub fn obey(&mut self, heap: Global, command: HostCommand) -> Result<HostLine, LineFault> {
        match command {
            HostCommand::Set(asked) => set(heap, &asked),
            HostCommand::Delete(asked) => delete(heap, &asked),
            HostCommand::Get {
                room,
                layer,
                position,
                numbers,
            } => get(heap, room, layer, position, numbers.as_slice()),
            HostCommand::BeginSets(asked) => self.begin_sets(heap, &asked),
            HostCommand::BeginDeletes(asked) => self.begin_deletes(heap, &asked),
            HostCommand::Add {
                room,
                settings,
                numbers,
            } => self.add(heap, room, settings, numbers),
            HostCommand::Apply => Ok(ended(heap, self.take().apply())?),
            HostCommand::Abandon => Ok(ended(heap, self.take().abandon())?),
        }
    }

    fn begin_sets(&mut self, heap: Global, asked: &Asked<Setting>) -> Result<HostLine, LineFault> {
        let Host::Idle = self else {
            return Ok(HostLine::Busy);
        };
        let mut out = buffer(heap, asked.room)?;
        match SetTransaction::begin(out.as_mut_slice(), asked.layers, asked.entries.as_slice()) {
            Err(fault) => Ok(HostLine::Refused(fault)),
            Ok(
                Begun {
                    length,
                    transaction,
                },
            ) => {
                self.hold(Host::Sets(transaction));
                Ok(line_of(out, Ok(length)))
            }
        }
    }

    fn begin_deletes(&mut self, heap: Global, asked: &Asked<u32>) -> Result<HostLine, LineFault> {
        let Host::Idle = self else {
            return Ok(HostLine::Busy);
        };
        let mut out = buffer(heap, asked.room)?;
        match DeleteTransaction::begin(out.as_mut_slice(), asked.layers, asked.entries.as_slice()) {
            Err(fault) => Ok(HostLine::Refused(fault)),
            Ok(
                Begun {
                    length,
                    transaction,
                },
            ) => {
                self.hold(Host::Deletes(transaction));
                Ok(line_of(out, Ok(length)))
            }
        }
    }

    // Adds to the transaction that is begun; its kind says whether the words are pairs or keys.
    fn add(
        &mut self,
        heap: Global,
        room: usize,
        settings: Result<Vec<Setting>, LineFault>,
        numbers: Result<Vec<u32>, LineFault>,
    ) -> Result<HostLine, LineFault> {
        let mut out = buffer(heap, room)?;
        let answer = match self {
            Host::Idle => return Ok(HostLine::NoneBegun),
            Host::Sets(transaction) => transaction.add(out.as_mut_slice(), settings?.as_slice()),
            Host::Deletes(transaction) => transaction.add(out.as_mut_slice(), numbers?.as_slice()),
        };
        Ok(line_of(out, answer))
    }

    // The transaction that is begun; none is after it.
    fn take(&mut self) -> Host {
        mem::replace(self, Host::Idle)
    }

    // A transaction stands in the place of the one before, which is abandoned.
    fn hold(&mut self, transaction: Host) {
        let _end = mem::replace(self, transaction).abandon();
    }

    // The transaction that is begun is abandoned, and nobody hears of it.
    pub fn forget(&mut self) {
        self.hold(Host::Idle);
    }

    // The frame that applies it, if one is begun.
    fn apply(self) -> Option<[u8; 12]> {
        match self {
            Host::Idle => None,
            Host::Sets(transaction) => Some(transaction.apply()),
            Host::Deletes(transaction) => Some(transaction.apply()),
        }
    }

    // The frame that abandons it, if one is begun.
    pub fn abandon(self) -> Option<[u8; 12]> {
        match self {
            Host::Idle => None,
            Host::Sets(transaction) => Some(transaction.abandon()),
            Host::Deletes(transaction) => Some(transaction.abandon()),
        }
    }
}

// The frame that ended a transaction, if one was begun.
fn ended(heap: Global, frame: Option<[u8; 12]>) -> Result<HostLine, AllocError> {
    match frame {
        None => Ok(HostLine::NoneBegun),
        Some(bytes) => Ok(HostLine::Written(Vec::from_slice(heap, &bytes)?)),
    }
}

// Feeding a monitor, and asking for its counts.
ghost use Rattle.std.specs.Prelude.{◌≡◌, ◌+◌, ◌^◌, ◌<◌, ◌≤◌, [], ◌++◌, map, length, IfOk, vec_len, Some};
ghost use Rattle.monitor.specs.Following.{counts_of, reached, row_at, Placed, line_length, Brings, passed, Fed, Follows};
ghost use Rattle.monitor.specs.declared.state.calls.FeedFault.TheVariants.{NoMemory};
ghost use Rattle.monitor.specs.Texts.{feed_fault_text};

use super::Monitor;
use crate::row::{Counts, Row};
use frame::{Heard, scan};
use std::alloc::{AllocError, Global};
use std::error::Error;
use std::fmt;

// Why a piece was not taken.
#[derive(Clone, Copy, PartialEq, Eq, Debug)]
pub enum FeedFault {
    // the line would have 2^64 bytes or more, so that places could no longer be told
    LineTooLong,
    NoMemory,
}

impl fmt::Display for FeedFault {
    ghost output = { λ fault. Some (feed_fault_text fault) };

    fn fmt<W: fmt::Write>(&self, f: &mut fmt::Formatter<W>) -> fmt::Result {
        match self {
            FeedFault::LineTooLong => f.write_str("the line has too many bytes to count"),
            FeedFault::NoMemory => f.write_str("no memory is left"),
        }
    }
}

impl Error for FeedFault {}

impl From<AllocError> for FeedFault {
    ghost from_gives = { λ _ fault. fault ≡ NoMemory };

    fn from(_error: AllocError) -> Self {
        Self::NoMemory
    }
}

// The row of a frame that was heard behind `place`.
fn row_of(place: u64, heard: &Heard<'_>) -> Row
    requires { place + heard.now.place < 2 ^ 64 }
    ensures { result ≡ row_at place heard.now }
{
    Row {
        place: place + heard.place as u64,
        class: heard.frame.class,
        id: heard.frame.id,
        len: heard.frame.payload.len(),
    }
}

fn rows(heap: Global, place: u64, frames: &[Heard<'_>]) -> Result<Vec<Row>, AllocError>
    requires { Placed place frames.now }
    ensures { IfOk result (λ v. v.items ≡ map (row_at place) frames.now) }
{
    frames
        .iter()
        .map(|heard| row_of(place, heard))
        .collect(heap)
}

// What one more piece brings: the rows of the frames that it completes, how many bytes are decided, how many of them are noise, and the bytes
// that are still undecided.
#[derive(Drop)]
struct Brought {
    rows: Vec<Row>,
    decided: u64,
    noise: u64,
    rest: Vec<u8>,
}

impl Monitor {
    // A monitor of a line on which nothing has come yet.
    pub fn new(heap: Global) -> Monitor
        ensures { result ≡ reached [] }
    {
        Monitor {
            held: Vec::new(heap),
            place: 0,
            frames: 0,
            noise: 0,
        }
    }

    // Takes the next piece of the line, of any length; answers the rows of the frames that are heard with it.
    pub fn feed(&mut self, heap: Global, piece: &[u8]) -> Result<Vec<Row>, FeedFault>
        ensures value { Fed self.old piece.now self.new result }
        ensures line { Follows self.old piece.now self.new result }
        ensures few_frames { self.new.frames ≤ self.new.place }
        ensures few_noise { self.new.noise ≤ self.new.place }
    {
        self.place
            .checked_add(self.held.len() as u64)
            .and_then(|end| end.checked_add(piece.len() as u64))
            .ok_or(FeedFault::LineTooLong)?;
        let brought = self.bring(heap, piece)?;
        Ok(self.pass(brought))
    }

    // What one more piece brings, with the undecided bytes before it.
    fn bring(&self, heap: Global, piece: &[u8]) -> Result<Brought, AllocError>
        requires { line_length self.now piece.now < 2 ^ 64 }
        ensures { IfOk result (λ b. Brings self.now.place (self.now.held ++ piece.now) b) }
    {
        let mut bytes = Vec::from_slice(heap, &self.held)?;
        bytes.extend_from_slice(piece)?;
        let listing = scan(heap, &bytes)?;
        let rows = rows(heap, self.place, &listing.frames)?;
        let rest = Vec::from_slice(heap, listing.rest)?;
        Ok(Brought {
            rows,
            decided: listing.rest_place as u64,
            noise: listing.noise as u64,
            rest,
        })
    }

    // The counts so far.
    pub fn counts(&self) -> Counts
        ensures value { result ≡ counts_of self.now }
        ensures few_frames { self.now.frames ≤ self.now.place }
        ensures few_noise { self.now.noise ≤ self.now.place }
    {
        Counts {
            frames: self.frames,
            noise: self.noise,
            held: self.held.len(),
        }
    }

    // Goes on to the undecided bytes that a piece left.
    fn pass(&mut self, brought: Brought) -> Vec<Row>
        requires fits { self.old.place + brought.decided < 2 ^ 64 }
        requires few_rows { vec_len brought.rows ≤ brought.decided }
        requires few_noise { brought.noise ≤ brought.decided }
        ensures rows { result ≡ brought.rows }
        ensures after { self.new ≡ passed self.old brought }
    {
        let Brought {
            rows,
            decided,
            noise,
            rest,
        } = brought;
        self.place += decided;
        self.frames += rows.len() as u64;
        self.noise += noise;
        self.held = rest;
        rows
    }
}

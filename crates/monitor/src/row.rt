// The lines of a listing: a row for each frame, and the counts at the end.
ghost use Rattle.std.specs.Prelude.{Some};
ghost use Rattle.monitor.specs.Texts.{row_text, counts_text};

use std::fmt;

// A heard frame by its place on the line, its class and ID, and the length of its payload.
#[derive(Clone, Copy, PartialEq, Eq, Debug)]
pub struct Row {
    pub place: u64,
    pub class: u8,
    pub id: u8,
    pub len: usize,
}

impl fmt::Display for Row {
    ghost output = { λ row. Some (row_text row) };

    fn fmt<W: fmt::Write>(&self, f: &mut fmt::Formatter<W>) -> fmt::Result {
        let Row {
            place,
            class,
            id,
            len,
        } = *self;
        write!(f, "{place} {class:02x} {id:02x} {len}")
    }
}

// How many frames were heard, how many bytes were noise, and how many at the end are still undecided.
#[derive(Clone, Copy, PartialEq, Eq, Debug)]
pub struct Counts {
    pub frames: u64,
    pub noise: u64,
    pub held: usize,
}

impl fmt::Display for Counts {
    ghost output = { λ counts. Some (counts_text counts) };

    fn fmt<W: fmt::Write>(&self, f: &mut fmt::Formatter<W>) -> fmt::Result {
        let Counts {
            frames,
            noise,
            held,
        } = *self;
        write!(f, "frames {frames} noise {noise} held {held}")
    }
}

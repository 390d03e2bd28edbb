// The listing of an input.
use monitor::{Monitor, Row};
use options::for_each_piece;
use std::alloc::Global;
use std::io;
use std::io::{Read, Write};

// Lists the frames of the whole input.
pub fn list<R: Read, W: Write>(heap: Global, input: &mut R, out: &mut W) -> anyhow::Result<()> {
    out.writeln("place class id length")?;
    let mut monitor = Monitor::new(heap);
    for_each_piece(input, |piece| {
        let rows = monitor.feed(heap, piece)?;
        Ok(print_rows(out, rows.as_slice())?)
    })?;
    out.writeln(monitor.counts())?;
    Ok(())
}

fn print_rows<W: Write>(out: &mut W, rows: &[Row]) -> io::Result<()> {
    for row in rows {
        out.writeln(*row)?;
    }
    Ok(())
}

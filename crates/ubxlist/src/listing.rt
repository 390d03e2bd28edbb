// The listing of an input: a receiver takes its pieces and answers.
use crate::row::Row;
use catalogue::bench_catalogue;
use layer::Absent;
use options::for_each_piece;
use receiver::{ANSWER_ROOM, Parts, Receiver};
use reference::{Answered, CallFault};
use rule::{Both, Needs, Ranges, bench_rule};
use std::io::{Read, Write};
use store::SlotTable;

type BenchReceiver = Receiver<SlotTable, Absent, Both<Ranges, Needs>>;

// A receiver with the bench catalogue and rule, an empty BBR and no Flash.
fn bench_receiver() -> BenchReceiver {
    let parts = Parts {
        bbr: SlotTable::new(),
        flash: Absent,
        rule: bench_rule(),
    };
    Receiver::make(&bench_catalogue(), parts)
}

// A listing under way: how far the input was gone through, as the place of the first byte that is held and the noise before it. What is written
// to the buffer is not listed.
#[derive(Drop)]
struct Listing<'a, W> {
    receiver: BenchReceiver,
    place: u64,
    noise: u64,
    buffer: [u8; ANSWER_ROOM],
    out: &'a mut W,
}

impl<'a, W: Write> Listing<'a, W> {
    // Answers the first frame that is held, and goes on to the byte behind it; its row, if one was told.
    fn answer_first(&mut self) -> Result<Option<Row>, CallFault> {
        let before = self.receiver.held_count();
        let Answered { noise, told } = self.receiver.answer(&mut self.buffer)?;
        let dropped = before.saturating_sub(self.receiver.held_count());
        let place = self.place.saturating_add(noise as u64);
        self.noise = self.noise.saturating_add(noise as u64);
        self.place = self.place.saturating_add(dropped as u64);
        Ok(told.map(|telling| Row { place, telling }))
    }

    // Takes a whole piece, as much at a time as the receiver has room for, and lists the frames that are whole in what is held.
    fn take_all(&mut self, piece: &[u8]) -> anyhow::Result<()> {
        let mut rest = piece;
        // kept: a `loop` would have to be shown to end, by what the receiver holds and takes; the bound says it in a line
        for _ in 0..u64::MAX {
            if let Some(row) = self.answer_first()? {
                row.write_to(self.out)?;
            } else if rest.is_empty() {
                break;
            } else {
                let count = self.receiver.take(rest)?.min(rest.len());
                rest = &rest[count..];
            }
        }
        Ok(())
    }

    // Takes the whole input, and ends with the counts.
    fn take_input<R: Read>(&mut self, input: &mut R) -> anyhow::Result<()> {
        for_each_piece(input, |piece| self.take_all(piece))?;
        let noise = self.noise;
        let held = self.receiver.held_count();
        write!(self.out, "noise {noise} held {held}\n")?;
        Ok(())
    }
}

// Lists the frames of the whole input.
pub fn list<R: Read, W: Write>(input: &mut R, out: &mut W) -> anyhow::Result<()> {
    out.writeln("place class id verdict number")?;
    let mut listing = Listing {
        receiver: bench_receiver(),
        place: 0,
        noise: 0,
        buffer: [0; ANSWER_ROOM],
        out,
    };
    listing.take_input(input)
}

// A line of the listing. It is put together by hand, since `write!` would take half of the time of a short frame.
use itoa::Buffer;
use reference::{Telling, Verdict};
use std::io::Write;

const DIGITS: [u8; 16] = *b"0123456789abcdef";

// A told frame, and the place of its first byte in the input.
#[derive(Clone, Copy)]
pub struct Row {
    pub place: u64,
    pub telling: Telling,
}

// The two digits of a byte.
fn hex(byte: u8) -> [u8; 2] {
    [DIGITS[(byte / 16) as usize], DIGITS[(byte % 16) as usize]]
}

impl Row {
    // Writes the row: place, class, ID, verdict, and the number of the refusal, 0 where there is none.
    pub fn write_to<W: Write>(&self, out: &mut W) -> anyhow::Result<()> {
        let [class_high, class_low] = hex(self.telling.class);
        let [id_high, id_low] = hex(self.telling.id);
        out.write_all(Buffer::new().format(self.place).as_bytes())?;
        out.write_all(&[b' ', class_high, class_low, b' ', id_high, id_low, b' '])?;
        match self.telling.verdict {
            Verdict::Outside => out.write_all(b"out 0\n")?,
            Verdict::Ack => out.write_all(b"ack 0\n")?,
            Verdict::Nak(refusal) => {
                out.write_all(b"nak ")?;
                out.write_all(Buffer::new().format(refusal.number()).as_bytes())?;
                out.write_all(b"\n")?;
            }
        }
        Ok(())
    }
}

// The first frame in the held bytes, as numbers: nothing of the bytes stays lent, so that the receiver can be changed before the frame is read.
ghost use Rattle.std.specs.Prelude.{◌≡◌, ◌+◌, ◌≤◌};

use frame::{HEADER, TRAILER, find_in};
use held::Held;
use reference::{Telling, Verdict};

// A frame where it is heard in the held bytes, which are at most 780: the noise before it, its class and ID, and how many bytes its payload has.
#[derive(Clone, Copy)]
pub(crate) struct HeldFrame {
    pub noise: usize,
    pub class: u8,
    pub id: u8,
    pub length: usize,
    ghost few: { noise + (8 + length) ≤ 780 },
}

impl HeldFrame {
    ghost use Rattle.held.specs.Meaning.{bytes_held};
    ghost use Rattle.receiver.specs.First.{FirstIs, end_of};

    // The first frame that is heard; else how much noise there is.
    pub(crate) fn first_in(held: &Held) -> Result<HeldFrame, usize>
        ensures { FirstIs (bytes_held held.now) result }
    {
        let found = find_in(held);
        let noise = found.noise;
        let frame = found.frame.ok_or(noise)?;
        Ok(HeldFrame {
            noise,
            class: frame.class,
            id: frame.id,
            length: frame.payload.len(),
        })
    }

    // The place behind it.
    pub(crate) fn end(self) -> usize
        ensures { result ≡ end_of self }
    {
        self.noise + (HEADER + self.length + TRAILER)
    }

    // How it is told.
    pub(crate) fn told(self, verdict: Verdict, length: usize) -> Telling
        ensures { result ≡ record { class = self.class; id = self.id; verdict = verdict; length = length } }
    {
        Telling {
            class: self.class,
            id: self.id,
            verdict,
            length,
        }
    }
}

// What an answering answers.
ghost use Rattle.std.specs.Prelude.{◌≡◌};
ghost use Rattle.reference.specs.Events.{answered_length};

use crate::refusal::Verdict;

// So much noise was dropped, and the frame behind it was told; none where no frame is whole.
#[derive(Clone, Copy, Debug, PartialEq, Eq)]
pub struct Answered {
    pub noise: usize,
    pub told: Option<Telling>,
}

// A frame that was told: its class and ID, its verdict, and how many bytes were written for it.
#[derive(Clone, Copy, Debug, PartialEq, Eq)]
pub struct Telling {
    pub class: u8,
    pub id: u8,
    pub verdict: Verdict,
    pub length: usize,
}

impl Answered {
    // How many bytes were written.
    pub fn length(self) -> usize
        ensures { result ≡ answered_length self }
    {
        self.told.map_or(0, |telling| telling.length)
    }
}

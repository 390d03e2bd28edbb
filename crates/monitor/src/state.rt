// What a monitor has of a line: the bytes at its end that are still undecided, the place of the first of them, and what it counted before.
use std::marker::Model;

pub mod calls;

#[derive(Drop)]
pub struct Monitor {
    held: Vec<u8>,
    place: u64,
    frames: u64,
    noise: u64,
}

// Callers see the progress along the line. What is counted lies before the place, so no count runs over before the place does.
impl Model for Monitor {
    ghost use Rattle.std.specs.Prelude.{◌≤◌};
    ghost use Rattle.monitor.specs.Following.{Progress};

    ghost Value = { Progress };

    ghost view = { λ m. record { place = m.place; held = m.held.items; frames = m.frames; noise = m.noise } };

    ghost invariant = { λ m. (m.frames ≤ m.place) × (m.noise ≤ m.place) };
}

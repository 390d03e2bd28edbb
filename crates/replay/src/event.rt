// What is logged of a call: its arguments together with what it answered.
ghost use Rattle.std.specs.Prelude.{◌≡◌, vec_len};
ghost use Rattle.reference.specs.Events.{answered_length};

use reference::{Answered, Battery, Call, CallFault};

// An answering, and the bytes that it wrote: as many as it says.
#[derive(Drop)]
pub struct Answering {
    pub answered: Answered,
    pub written: Vec<u8>,
    ghost whole: { vec_len written ≡ answered_length answered },
}

#[derive(Drop)]
pub enum Event<'a> {
    // of a piece, so many bytes were taken
    Took(&'a [u8], usize),
    Answered(Answering),
    // a layer was looked at for a key
    Looked(u8, u32, Option<u64>),
    // a restart, and the item at fault where the stack was unfit
    Restarted(Battery, Option<usize>),
    Refused(Call<'a>, CallFault),
}

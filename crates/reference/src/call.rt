// The four calls of a receiver.

// Whether the battery kept BBR over a restart.
#[derive(Clone, Copy, Debug, PartialEq, Eq)]
pub enum Battery {
    Kept,
    Lost,
}

// A call with its arguments.
#[derive(Clone, Copy, Debug, PartialEq, Eq)]
pub enum Call<'a> {
    // take bytes of a piece
    Take(&'a [u8]),
    // answer, with a buffer of so many bytes
    Answer(usize),
    // look at a layer, for a key
    // kept: the layer is any byte, since one that there is not is to be refused: an enum of the four would ask more of the caller, and one with a
    // case for every other byte would say no more than the byte
    Look(u8, u32),
    Restart(Battery),
}

// The format of a frame: b5 62, class, ID, the payload's length in two bytes (low byte first), the payload, two check bytes.
ghost use Rattle.std.specs.Prelude.{◌≡◌, ◌^◌, ◌<◌};
ghost use Rattle.frame.specs.Frames.{size_of};
ghost use Rattle.frame.specs.Meaning.{message_of};

// The two bytes that a frame begins with.
pub const PREAMBLE: [u8; 2] = [0xb5, 0x62];

// How many bytes stand before the payload (preamble, class, ID and length) and behind it (the check bytes).
pub const HEADER: usize = 6;

pub const TRAILER: usize = 2;

// The most payload bytes that a frame may have, and so the most bytes of a frame.
pub const MAX_PAYLOAD: usize = 772;

pub const MAX_FRAME: usize = HEADER + MAX_PAYLOAD + TRAILER;

// What an intact frame carries; the payload is a part of the bytes that it was heard in.
#[derive(Clone, Copy, PartialEq, Eq, Debug)]
pub struct Frame<'a> {
    pub class: u8,
    pub id: u8,
    pub payload: &'a [u8],
}

impl Frame<'_> {
    // How many bytes the whole frame has.
    pub(crate) fn size(&self) -> usize
        requires { size_of (message_of self.now) < 2 ^ 64 }
        ensures { result ≡ size_of (message_of self.now) }
    {
        HEADER + self.payload.len() + TRAILER
    }
}

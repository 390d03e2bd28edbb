// UBX frames: which frames a run of bytes holds, and how one is written.
//
// A frame is b5 62, a class byte, an ID byte, the payload's length in two bytes, the payload and two check bytes. On a line full of static the
// bytes before, between and behind frames are noise, and a frame may come in pieces. `start_of` says what stands at the first of some bytes,
// `find` goes to the first frame, `scan` lists all frames of some bytes, and `write_frame` writes one. docs/frames.md has the rules.
//
// format.rt   the constants of the format, and what a frame carries
// sums.rt     the check bytes
// scanner.rt  hearing: from bytes to frames
// summed.rt  the first frame in bytes whose sums are at hand
// writer.rt   from a message to the bytes of its frame
#![tactic(auto)]

mod format;
mod scanner;
mod summed;
mod sums;
mod writer;

pub use format::{Frame, HEADER, MAX_FRAME, MAX_PAYLOAD, PREAMBLE, TRAILER};
pub use scanner::{Found, Heard, Listing, Unheard, find, scan, start_of};
pub use summed::{Summed, find_in};
pub use sums::{CheckBytes, check_bytes};
pub use writer::{WriteFault, write_frame};

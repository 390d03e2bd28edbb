// Writing a frame into a caller's buffer.
ghost use Rattle.std.specs.Prelude.{◌≡◌, ◌+◌, ◌≤◌, ◌↔◌, length, take, is_ok, IfOk, if◌then◌else◌, Some};
ghost use Rattle.frame.specs.Frames.{max_payload, size_of, frame_bytes};
ghost use Rattle.frame.specs.Meaning.{message_of};
ghost use Rattle.frame.specs.Scanning.{HeardAs};
ghost use Rattle.frame.specs.Written.{patched, in_front, written};
ghost use Rattle.frame.specs.Texts.{write_fault_text};

use crate::format::{Frame, HEADER, MAX_FRAME, MAX_PAYLOAD, PREAMBLE, TRAILER};
use crate::sums::check_bytes;
use std::error::Error;
use std::fmt;

// Why a frame was not written.
#[derive(Clone, Copy, PartialEq, Eq, Debug)]
pub enum WriteFault {
    // over 772 payload bytes
    PayloadTooLong,
    BufferTooShort,
}

impl fmt::Display for WriteFault {
    ghost output = { λ fault. Some (write_fault_text fault) };

    fn fmt<W: fmt::Write>(&self, f: &mut fmt::Formatter<W>) -> fmt::Result {
        match self {
            WriteFault::PayloadTooLong => f.write_str("the payload has more than 772 bytes"),
            WriteFault::BufferTooShort => f.write_str("the buffer is shorter than the frame"),
        }
    }
}

impl Error for WriteFault {}

// Writes the frame into a buffer that is long enough.
fn put_frame(out: &mut [u8], frame: &Frame<'_>) -> usize
    requires few { length frame.now.payload.now ≤ max_payload }
    requires room { size_of (message_of frame.now) ≤ length out.old }
    ensures value { result ≡ size_of (message_of frame.now) }
    ensures out { out.new ≡ in_front (frame_bytes (message_of frame.now)) out.old }
    ensures heard { HeardAs (message_of frame.now) (take result out.new) }
{
    let Frame { class, id, payload } = *frame;
    let [low, high] = (payload.len() as u16).to_le_bytes();
    let end = HEADER + payload.len();
    let size = end + TRAILER;
    out[0..HEADER].copy_from_slice(&[PREAMBLE[0], PREAMBLE[1], class, id, low, high]);
    out[HEADER..end].copy_from_slice(payload);
    let sums = check_bytes(&out[2..end]);
    out[end..size].copy_from_slice(&[sums.a, sums.b]);
    size
}

// Writes the frame at the start of the buffer; answers how many bytes it has. A refusal leaves the buffer as it was. Into MAX_FRAME bytes goes
// every frame whose payload is not too long, and the longest fills them.
pub fn write_frame(out: &mut [u8], frame: &Frame<'_>) -> Result<usize, WriteFault>
    ensures value { result ≡ written (message_of frame.now) (length out.old) }
    ensures out { out.new ≡ (if is_ok result then in_front (frame_bytes (message_of frame.now)) out.old else out.old) }
    ensures heard { IfOk result (λ n. HeardAs (message_of frame.now) (take n out.new)) }
    ensures most { length frame.now.payload.now ≤ MAX_PAYLOAD ↔ size_of (message_of frame.now) ≤ MAX_FRAME }
{
    if frame.payload.len() > MAX_PAYLOAD {
        return Err(WriteFault::PayloadTooLong);
    }
    if out.len() < frame.size() {
        return Err(WriteFault::BufferTooShort);
    }
    Ok(put_frame(out, frame))
}

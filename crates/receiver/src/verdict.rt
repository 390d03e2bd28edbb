// Writing a verdict: the frame 05 01 (ACK) or 05 00 (NAK), whose payload is the class and ID that it answers.
ghost use Rattle.std.specs.Prelude.{◌≡◌, ◌≤◌, length};
ghost use Rattle.frame.specs.Frames.{frame_bytes};
ghost use Rattle.frame.specs.Written.{in_front};
ghost use Rattle.receiver.specs.Written.{verdict_on, sign_id};

use frame::{Frame, write_frame};
use request::CONFIGURATION_CLASS;

pub(crate) const VERDICT_CLASS: u8 = 0x05;

// Which verdict a frame of that class is; the number is the frame's ID.
#[derive(Clone, Copy)]
pub(crate) enum Sign {
    Nak = 0x00,
    Ack = 0x01,
}

// Writes a verdict on the configuration frame with this ID at the start of the buffer; answers how many bytes it has.
pub(crate) fn write_verdict(out: &mut [u8], sign: Sign, id: u8) -> usize
    requires { 10 ≤ length out.old }
    ensures size { result ≡ 10 }
    ensures out { out.new ≡ in_front (frame_bytes (verdict_on (sign_id sign) id)) out.old }
{
    let frame = Frame {
        class: VERDICT_CLASS,
        id: sign as u8,
        payload: &[CONFIGURATION_CLASS, id],
    };
    write_frame(out, &frame).unwrap()
}

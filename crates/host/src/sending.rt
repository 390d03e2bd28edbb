// A payload's frame, written at the start of a caller's buffer.
ghost use Rattle.std.specs.Prelude.{◌≡◌, ◌≤◌, length, take, is_ok, IfOk, if◌then◌else◌, None};
ghost use Rattle.frame.specs.Frames.{max_payload, frame_bytes};
ghost use Rattle.frame.specs.Scanning.{HeardAs};
ghost use Rattle.frame.specs.Written.{in_front};
ghost use Rattle.host.specs.Heard.{SetHeard, DeleteHeard, GetHeard};
ghost use Rattle.host.specs.Refusals.{set_fault, delete_fault, get_fault};
ghost use Rattle.host.specs.Requests.{request, set_request, delete_request, get_request, written};

use crate::fault::HostFault;
use crate::payload::{delete_payload, get_payload, set_payload};
use crate::stage::Stage;
use frame::{Frame, write_frame};
use layer::Setting;
use request::{CONFIGURATION_CLASS, VALDEL, VALGET, VALSET};

// Writes the frame of a payload; answers how many bytes it has.
pub(crate) fn send(out: &mut [u8], id: u8, payload: &[u8]) -> Result<usize, HostFault>
    requires { length payload.now ≤ max_payload }
    ensures answer { result ≡ written None (request id payload.now) (length out.old) }
    ensures out { out.new ≡ (if is_ok result then in_front (frame_bytes (request id payload.now)) out.old else out.old) }
    ensures heard { IfOk result (λ n. HeardAs (request id payload.now) (take n out.new)) }
{
    let frame = Frame {
        class: CONFIGURATION_CLASS,
        id,
        payload,
    };
    write_frame(out, &frame).map_err(|_| HostFault::BufferTooShort)
}

// Writes a set.
pub(crate) fn send_set(
    out: &mut [u8],
    stage: Stage,
    layers: u8,
    settings: &[Setting],
) -> Result<usize, HostFault>
    ensures answer { result ≡ written (set_fault layers settings.now) (set_request stage layers settings.now) (length out.old) }
    ensures out { out.new ≡ (if is_ok result then in_front (frame_bytes (set_request stage layers settings.now)) out.old else out.old) }
    ensures heard { IfOk result (λ n. SetHeard stage layers settings.now (take n out.new)) }
{
    let payload = set_payload(stage, layers, settings)?;
    send(out, VALSET, payload.as_slice())
}

// Writes a delete.
pub(crate) fn send_delete(
    out: &mut [u8],
    stage: Stage,
    layers: u8,
    numbers: &[u32],
) -> Result<usize, HostFault>
    ensures answer { result ≡ written (delete_fault layers numbers.now) (delete_request stage layers numbers.now) (length out.old) }
    ensures out { out.new ≡ (if is_ok result then in_front (frame_bytes (delete_request stage layers numbers.now)) out.old else out.old) }
    ensures heard { IfOk result (λ n. DeleteHeard stage layers numbers.now (take n out.new)) }
{
    let payload = delete_payload(stage, layers, numbers)?;
    send(out, VALDEL, payload.as_slice())
}

// Writes a get.
pub(crate) fn send_get(
    out: &mut [u8],
    layer: u8,
    position: u16,
    numbers: &[u32],
) -> Result<usize, HostFault>
    ensures answer { result ≡ written (get_fault layer numbers.now) (get_request layer position numbers.now) (length out.old) }
    ensures out { out.new ≡ (if is_ok result then in_front (frame_bytes (get_request layer position numbers.now)) out.old else out.old) }
    ensures heard { IfOk result (λ n. GetHeard layer position numbers.now (take n out.new)) }
{
    let payload = get_payload(layer, position, numbers)?;
    send(out, VALGET, payload.as_slice())
}

// Requests that stand alone: what they ask for is done at once.
ghost use Rattle.std.specs.Prelude.{◌≡◌, length, take, is_ok, IfOk, if◌then◌else◌};
ghost use Rattle.frame.specs.Frames.{frame_bytes};
ghost use Rattle.frame.specs.Written.{in_front};
ghost use Rattle.host.specs.Heard.{SetHeard, DeleteHeard, GetHeard};
ghost use Rattle.host.specs.Refusals.{set_fault, delete_fault, get_fault};
ghost use Rattle.host.specs.Requests.{set_request, delete_request, get_request, written};

use crate::fault::HostFault;
use crate::sending::{send_delete, send_get, send_set};
use crate::stage::Stage;
use layer::Setting;

// Writes a VALSET at the start of the buffer; answers how many bytes it has. The layers are bits: RAM 1, BBR 2, Flash 4. A refusal leaves the buffer
// as it was.
pub fn write_set(out: &mut [u8], layers: u8, settings: &[Setting]) -> Result<usize, HostFault>
    ensures answer { result ≡ written (set_fault layers settings.now) (set_request Stage.Alone layers settings.now) (length out.old) }
    ensures out { out.new ≡ (if is_ok result then in_front (frame_bytes (set_request Stage.Alone layers settings.now)) out.old else out.old) }
    ensures heard { IfOk result (λ n. SetHeard Stage.Alone layers settings.now (take n out.new)) }
{
    send_set(out, Stage::Alone, layers, settings)
}

// Writes a VALDEL, likewise; the layers are BBR 2 and Flash 4, and each number is a key or a selector.
pub fn write_delete(out: &mut [u8], layers: u8, numbers: &[u32]) -> Result<usize, HostFault>
    ensures answer { result ≡ written (delete_fault layers numbers.now) (delete_request Stage.Alone layers numbers.now) (length out.old) }
    ensures out { out.new ≡ (if is_ok result then in_front (frame_bytes (delete_request Stage.Alone layers numbers.now)) out.old else out.old) }
    ensures heard { IfOk result (λ n. DeleteHeard Stage.Alone layers numbers.now (take n out.new)) }
{
    send_delete(out, Stage::Alone, layers, numbers)
}

// Writes a VALGET, likewise: which layer (0 RAM, 1 BBR, 2 Flash, 7 the defaults), how many of its pairs the reply is to skip, and keys and selectors.
pub fn write_get(
    out: &mut [u8],
    layer: u8,
    position: u16,
    numbers: &[u32],
) -> Result<usize, HostFault>
    ensures answer { result ≡ written (get_fault layer numbers.now) (get_request layer position numbers.now) (length out.old) }
    ensures out { out.new ≡ (if is_ok result then in_front (frame_bytes (get_request layer position numbers.now)) out.old else out.old) }
    ensures heard { IfOk result (λ n. GetHeard layer position numbers.now (take n out.new)) }
{
    send_get(out, layer, position, numbers)
}

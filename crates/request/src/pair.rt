// A pair of key and value as it stands in a request and in a reply: four bytes of the key, and behind them as many of the value as its size has.
ghost use Rattle.std.specs.Prelude.{◌≡◌, ◌+◌, ◌≤◌, true, length, is_ok, Ok, Err, if◌then◌else◌};
ghost use Rattle.frame.specs.Written.{patched};
ghost use Rattle.item.specs.declared.value.ValueFault.TheVariants.{Unfit};
ghost use Rattle.item.specs.Keys.{width_of, fits, fits_key};
ghost use Rattle.item.specs.Values.{value_bytes};
ghost use Rattle.reference.specs.Receiver.{pair_bytes};

use item::{Size, ValueFault, size_of, write_value};
use layer::Setting;

// The most bytes of a pair.
pub const PAIR_ROOM: usize = 12;

// Writes a value that fits its size into a buffer that has room for it; answers the place behind it.
fn put_value(out: &mut [u8], place: usize, size: Size, value: u64) -> usize
    requires fits { fits size value ≡ true }
    requires room { place + width_of size ≤ length out.old }
    ensures out { out.new ≡ patched place (value_bytes size value) out.old }
    ensures next { result ≡ place + width_of size }
{
    write_value(out, place, size, value).unwrap()
}

// Writes a pair to the start of a buffer; answers how many bytes it has. A value that its key does not have is refused, and the buffer stays as it was.
#[tactic(auto, using(crate::proofs::PairBytes::width_few, crate::proofs::PairBytes::value_fits, crate::proofs::PairBytes::no_value, crate::proofs::PairBytes::length_pair))]
pub fn write_pair(out: &mut [u8; PAIR_ROOM], setting: Setting) -> Result<usize, ValueFault>
    ensures value { result ≡ (if fits_key setting.key setting.value then Ok (length (pair_bytes setting)) else Err Unfit) }
    ensures out { out.new ≡ (if is_ok result then patched 0 (pair_bytes setting) out.old else out.old) }
{
    let Setting { key, value } = setting;
    let Some(size) = size_of(key) else {
        return Err(ValueFault::Unfit);
    };
    if !size.fits(value) {
        return Err(ValueFault::Unfit);
    }
    let behind = put_value(out, 0, Size::Four, key as u64);
    Ok(put_value(out, behind, size, value))
}

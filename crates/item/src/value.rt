// Values in bytes, little-endian, each by its size.
ghost use Rattle.std.specs.Prelude.{◌≡◌, ◌+◌, ◌*◌, ◌%◌, ◌^◌, ◌<◌, ◌≤◌, true, length, drop, IfSome, is_ok, if◌then◌else◌, Some, OnOk};
ghost use Rattle.frame.specs.Written.{patched};
ghost use Rattle.item.specs.Keys.{width_of, limit_of, fits};
ghost use Rattle.item.specs.Values.{number as number_of, bytes_of, value_bytes, value_in, value_read, ReadAs, value_written};
ghost use Rattle.item.specs.Texts.{value_fault_text};

use crate::arrays::padded;
use crate::key::Size;
use std::error::Error;
use std::fmt;

// Why a value was not written.
#[derive(Clone, Copy, PartialEq, Eq, Debug)]
pub enum ValueFault {
    // the number is no value of the size
    Unfit,
    BufferTooShort,
}

impl fmt::Display for ValueFault {
    ghost output = { λ fault. Some (value_fault_text fault) };

    fn fmt<W: fmt::Write>(&self, f: &mut fmt::Formatter<W>) -> fmt::Result {
        match self {
            ValueFault::Unfit => f.write_str("the value does not fit its size"),
            ValueFault::BufferTooShort => f.write_str("the buffer ends before the value does"),
        }
    }
}

impl Error for ValueFault {}

// The number that up to eight bytes are.
fn number_of(bytes: &[u8]) -> u64
    requires { length bytes.now ≤ 8 }
    ensures value { result ≡ number_of bytes.now }
    ensures bound { result < 2 ^ (8 * length bytes.now) }
    ensures back { bytes_of (length bytes.now) result ≡ bytes.now }
{
    u64::from_le_bytes(padded(bytes, 0))
}

impl Size {
    // What counts of a number of as many bytes: of a bit's byte bit 0 alone.
    fn kept(self, number: u64) -> u64
        requires { number < 2 ^ (8 * width_of self) }
        ensures { result ≡ number % limit_of self }
    {
        match self {
            Size::Bit => number % 2,
            _ => number,
        }
    }
}

// The value in the first bytes, of which there are enough.
#[tactic(auto, using(crate::proofs::Values::read_as))]
fn value_in(size: Size, bytes: &[u8]) -> u64
    requires { width_of size ≤ length bytes.now }
    ensures value { result ≡ value_in size bytes.now }
    ensures read { ReadAs size bytes.now result }
{
    let number = number_of(&bytes[0..size.width()]);
    size.kept(number)
}

// The value in the first bytes; none where there are too few.
pub fn read_value(size: Size, bytes: &[u8]) -> Option<u64>
    ensures value { result ≡ value_read size bytes.now }
    ensures read { IfSome result (ReadAs size bytes.now) }
{
    if bytes.len() < size.width() {
        return None;
    }
    Some(value_in(size, bytes))
}

// Writes a value from a place of the buffer on; answers the place behind it. A refusal leaves the buffer as it was.
// kept: buffer and place stand side by side, since any place is answered for; of a place beyond its end no part of the buffer could be lent
#[tactic(auto, using(crate::proofs::Values::written_part, crate::proofs::Values::read_back))]
pub fn write_value(
    out: &mut [u8],
    place: usize,
    size: Size,
    value: u64,
) -> Result<usize, ValueFault>
    ensures value { result ≡ value_written size value place (length out.old) }
    ensures out { out.new ≡ (if is_ok result then patched place (value_bytes size value) out.old else out.old) }
    ensures back { OnOk result (value_read size (drop place out.new) ≡ Some value) }
{
    if !size.fits(value) {
        return Err(ValueFault::Unfit);
    }
    let width = size.width();
    if out.len() < width || out.len() - width < place {
        return Err(ValueFault::BufferTooShort);
    }
    out[place..place + width].copy_from_slice(&value.to_le_bytes()[0..width]);
    Ok(place + width)
}

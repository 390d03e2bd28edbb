// The checksum of a frame: two sums over the bytes from the class to the payload's end.
ghost use Rattle.std.specs.Prelude.{◌≡◌, length, IfOk, vec_len};
ghost use Rattle.frame.specs.Checksum.{with_byte, no_sums, check_bytes, running_sums, sums_between};

use std::alloc::{AllocError, Global};

// The two check bytes, or the sums on the way to them.
#[derive(Clone, Copy, PartialEq, Eq, Debug)]
pub struct CheckBytes {
    pub a: u8,
    pub b: u8,
}

impl CheckBytes {
    // The sums over no byte.
    pub fn new() -> CheckBytes
        ensures { result ≡ no_sums }
    {
        CheckBytes { a: 0, b: 0 }
    }

    // The sums over one byte more.
    pub fn with(self, byte: u8) -> CheckBytes
        ensures { result ≡ with_byte self byte }
    {
        let a = self.a.wrapping_add(byte);
        CheckBytes {
            a,
            b: self.b.wrapping_add(a),
        }
    }

    // The check bytes of `count` bytes, before which the sums are `self` and behind which they are `end`.
    pub fn up_to(self, end: CheckBytes, count: usize) -> CheckBytes
        ensures { result ≡ sums_between self end count }
    {
        let before = ((count % 256 * self.a as usize + self.b as usize) % 256) as u8;
        CheckBytes {
            a: end.a.wrapping_sub(self.a),
            b: end.b.wrapping_sub(before),
        }
    }
}

// The check bytes of a run of bytes.
pub fn check_bytes(bytes: &[u8]) -> CheckBytes
    ensures { result ≡ check_bytes bytes.now }
{
    bytes
        .iter()
        .fold(CheckBytes::new(), |sums, byte| sums.with(*byte))
}

// The sums behind each of the bytes. With them the check bytes of any part cost two look-ups.
pub(crate) fn running_sums(heap: Global, bytes: &[u8]) -> Result<Vec<CheckBytes>, AllocError>
    ensures { IfOk result (λ v. (v.items ≡ running_sums no_sums bytes.now) × (vec_len v ≡ length bytes.now)) }
{
    let mut running = Vec::with_capacity(heap, bytes.len())?;
    let mut so_far = CheckBytes::new();
    for byte in bytes {
        so_far = so_far.with(*byte);
        running.push(so_far)?;
    }
    Ok(running)
}

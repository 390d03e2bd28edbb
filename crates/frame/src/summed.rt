// Bytes whose running sums are at hand. The check bytes of any part of them cost two look-ups, so that each place of a search costs the same,
// however long the frame would be that seems to begin there.
ghost use Rattle.std.specs.Prelude.{◌≡◌, ◌≢◌, ℕ, ◌+◌, ◌<◌, ◌≤◌, List, length, take, drop, slice_index};
ghost use Rattle.frame.specs.Checksum.{check_bytes};
ghost use Rattle.frame.specs.Frames.{preamble₁, max_payload, standing};
ghost use Rattle.frame.specs.Scanning.{finding};
ghost use Rattle.frame.specs.Meaning.{standing_of, passed, finding_of};

use crate::format::{Frame, HEADER, PREAMBLE};
use crate::scanner::{Found, Unheard, closed, from, nothing_heard, payload_size};
use crate::sums::CheckBytes;

pub trait Summed {
    // the bytes
    ghost bytes: { Self → List ℕ };

    fn as_slice(&self) -> &[u8]
        ensures { result.now ≡ bytes self.now };

    // The check bytes of the frame at a place whose payload has so many bytes.
    fn check_bytes_at(&self, place: usize, count: usize) -> CheckBytes
        requires few { count ≤ max_payload }
        requires within { place + 6 + count < length (bytes self.now) }
        ensures { result ≡ check_bytes (take (4 + count) (drop 2 (drop place (bytes self.now)))) };
}

// What stands at a place.
#[tactic(auto, using(crate::proofs::Frames::by_start))]
fn start_in<S: Summed>(summed: &S, place: usize) -> Result<Frame<'_>, Unheard>
    requires { place ≤ length (S.Summed.bytes summed.now) }
    ensures value { standing_of result ≡ standing (drop place (S.Summed.bytes summed.now)) }
    ensures fits { passed result + place ≤ length (S.Summed.bytes summed.now) }
{
    let bytes = from(summed.as_slice(), place);
    let count = payload_size(bytes)?;
    if bytes.len() <= HEADER + count {
        return Err(Unheard::Undecided);
    }
    closed(bytes, count, summed.check_bytes_at(place, count))
}

// How many bytes there are before the first that may begin a frame.
fn passed_over(bytes: &[u8]) -> usize
    ensures within { result ≤ length bytes.now }
    ensures noise { (k : ℕ) → k < result → slice_index bytes.now k ≢ preamble₁ }
{
    bytes
        .iter()
        .position(|byte| *byte == PREAMBLE[0])
        .unwrap_or(bytes.len())
}

// Noise up to the first frame heard or undecided place, and that frame: what `find` finds, in a few steps for each byte of noise.
pub fn find_in<S: Summed>(summed: &S) -> Found<'_>
    ensures { finding_of result ≡ finding (S.Summed.bytes summed.now) }
{
    let bytes = summed.as_slice();
    let mut noise = 0;
    // kept: bytes that cannot begin a frame are passed over in one call, so the places go up by steps of different size
    'places: loop {
        noise += passed_over(from(bytes, noise));
        match start_in(summed, noise) {
            Err(Unheard::Noise) => noise += 1,
            Err(Unheard::Undecided) => return nothing_heard(bytes, noise),
            Ok(frame) => {
                return Found {
                    noise,
                    frame: Some(frame),
                    rest: from(bytes, noise + frame.size()),
                };
            }
        }
    }
}

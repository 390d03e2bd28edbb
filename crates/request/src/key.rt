// The key at a place of a payload: four bytes, the lowest first.
ghost use Rattle.std.specs.Prelude.{◌≡◌};
ghost use Rattle.request.specs.Keys.{key_in};

use item::{Size, read_value};

// The key or selector in the first four bytes; none where they are cut.
#[tactic(auto, using(crate::proofs::Keys::key_read_lem))]
pub fn key_at(bytes: &[u8]) -> Option<u32>
    ensures { result ≡ key_in bytes.now }
{
    let number = read_value(Size::Four, bytes)?;
    Some(number as u32)
}

// A page's payload while it is built: the bytes so far, how many pairs are still to be skipped, and how many may still be written.
ghost use Rattle.std.specs.Prelude.{◌≡◌, ◌+◌, ◌*◌, ◌≤◌};
ghost use Rattle.arrayvec.specs.ArrayVec.{array_vec_len};

use arrayvec::ArrayVec;
use frame::MAX_PAYLOAD;

pub mod calls;

#[derive(Drop)]
pub struct Draft {
    bytes: ArrayVec<u8, MAX_PAYLOAD>,
    skip: usize,
    left: usize,
    ghost room: { array_vec_len bytes + 12 * left ≤ 772 },
}

// Needs: items that need one another, at most 64 pairs of them.
use crate::need::Need;
use arrayvec::ArrayVec;

pub mod calls;

#[derive(Drop)]
pub struct Needs {
    pairs: ArrayVec<Need, 64>,
}

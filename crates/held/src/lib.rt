// The held bytes: what was taken from the line and not dropped yet, at most the bytes of the largest frame, and their sums, so that a search
// in them costs the same at each place.
//
// held.rt     the bytes and their sums
//   calls.rt  taking, lending, dropping, and the check bytes of a part
// sums.rt     summing up bytes that are taken
#![tactic(auto)]

mod held;
mod sums;

pub use held::Held;

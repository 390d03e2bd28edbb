// Items: the keys that name them, and how their values stand in bytes.
//
// key.rt        sizes and well-formed keys
// arrays.rt     lists in longer arrays
// selector.rt   numbers of the wire that name one item, a group's items or all
// value.rt      little-endian numbers, and values by their size
#![tactic(auto)]

mod arrays;
mod key;
mod selector;
mod value;

pub use arrays::padded;
pub use key::{Size, fits_key, is_well_formed, size_of};
pub use selector::Selector;
pub use value::{ValueFault, read_value, write_value};

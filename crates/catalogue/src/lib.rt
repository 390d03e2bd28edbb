// The catalogue: which items there are, the check of a catalogue, and which of its items a key or selector names.
//
// kind.rt     the kinds of values
// entries.rt  entries, their check, the finder and the walk over named items
// owned.rt    a copy of a checked catalogue
// bench.rt    the catalogue of the worked examples
#![tactic(auto)]

mod bench;
mod entries;
mod kind;
mod owned;

pub use bench::bench_catalogue;
pub use entries::{CatalogueFault, Entry, MAX_ITEMS, check_catalogue, find_item, next_named};
pub use kind::Kind;
pub use owned::Catalogue;

// Pages: the reply to a get, which lists what a layer holds under the keys that the request names.
//
// entry.rt   the keys and selectors of a get, one entry after the other
// pair.rt    a pair of key and value
// draft.rt   a page's payload while it is built
// answer.rt  the page's frame, written into a caller's buffer
#![tactic(auto)]

mod answer;
mod draft;
mod entry;
mod pair;

pub use answer::{PageFault, write_page};
pub use entry::check_keys;

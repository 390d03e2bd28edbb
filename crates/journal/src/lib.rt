// The journal: a store on a buffer of words, for a memory whose words are programmed one after the other, cut off at any moment and read again
// after years. Its reader is exact about damage, and its writer changes no word that it need not.
//
// word.rt      the kinds of words, and what each carries
// fault.rt     why a buffer of words is refused
// reading.rt   inspection: reading the records of a buffer in order; reading/open.rt a setting that waits for parts
// record.rt    records: what a change of one setting writes
// writing.rt   writing records over the words of a buffer
// journal.rt   a journal; journal/calls.rt opening it, and it as a layer and as a store
#![tactic(auto)]

mod fault;
mod journal;
mod reading;
mod record;
mod word;
mod writing;

pub use fault::JournalFault;
pub use journal::Journal;
pub use reading::inspect;
pub use word::{BLANK, MAX_WORDS, MIN_WORDS};

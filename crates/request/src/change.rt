// What becomes of an item that changes.

// kept: two outcomes have names here; in an Option<Option<u64>> neither None would say what it means
#[derive(Clone, Copy, Debug, PartialEq, Eq)]
pub enum Change {
    Put(u64),
    Remove,
}

// Requests: what stands in the payload of a configuration frame, as plain values.
//
// change.rt   what becomes of one item
// changes.rt  what becomes of each item
// action.rt   what a request does with its data
// key.rt      the key at a place of a payload
// pair.rt     a pair of key and value, written
// head.rt     a request, its head and the checks of it
// data.rt     the walk over the data of a set or delete
#![tactic(auto)]

mod action;
mod change;
mod changes;
mod data;
mod head;
mod key;
mod pair;

pub use action::Action;
pub use change::Change;
pub use changes::ItemChanges;
pub use data::{KEY_BYTES, MAX_ENTRIES};
pub use head::{
    CONFIGURATION_CLASS, HEAD, Request, VALDEL, VALGET, VALSET, byte_at, is_configuration, is_get,
    is_request, same_layers,
};
pub use key::key_at;
pub use pair::{PAIR_ROOM, write_pair};

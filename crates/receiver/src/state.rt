// A receiver. It owns all that it stands on: the stores, one over the other over the defaults of its catalogue, and the rule.
use crate::transaction::Transaction;
use configuration::Pile;
use held::Held;
use layer::Store;
use request::ItemChanges;
use rule::Rule;
use store::SlotTable;

pub mod calls;
pub mod carrying;
pub mod getting;
pub mod handling;
pub mod judging;
pub mod making;
pub mod meaning;
pub mod named;

// kept: contracts say `Kept`, since that the catalogue and the rule stay is a fact about two states, which no invariant of one can say
#[derive(Drop)]
pub struct Receiver<B: Store, F: Store, R: Rule> {
    // made of parts that the check refuses: taking, looking, restarting and answering are refused
    // kept: `held_count`, `into_parts` and the state that contracts name say of a shut receiver what they say of an open one; an Option around
    // what an open one has would be taken apart in each of them
    shut: bool,
    // what was taken and not dropped yet
    held: Held,
    // BBR over Flash over the defaults
    layers: Pile<B, F>,
    rule: R,
    ram: SlotTable,
    transaction: Option<Transaction>,
    // what the open transaction would change; where none is open it says nothing
    queue: ItemChanges,
}

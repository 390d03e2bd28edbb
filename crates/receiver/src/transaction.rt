// An open transaction, and what a granted frame is to do. What is to change stands beside both: it is more than a kilobyte.
use reference::Layers;

// The ID of the transaction's kind, and the layers that it was opened for.
#[derive(Clone, Copy)]
pub(crate) struct Transaction {
    pub id: u8,
    pub layers: Layers,
}

// What is to be done with the changes of a granted set or delete.
#[derive(Clone, Copy)]
pub(crate) enum Plan {
    // make them in these layers, and end the transaction
    Apply(Layers),
    // keep this transaction open, with them queued
    Queue(Transaction),
}

// What a granted frame comes to.
#[derive(Clone, Copy)]
pub(crate) enum Granted {
    Change(Plan),
    // a reply of so many bytes stands at the start of the buffer
    Reply(usize),
}

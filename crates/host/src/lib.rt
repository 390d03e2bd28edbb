// The host end: writing the requests of the configuration class.
//
// A host asks a receiver for changes (VALSET, VALDEL) and for what a layer holds (VALGET). Alone, a request is one frame. In a transaction several
// frames are queued by the receiver and applied together; who begins one has to apply or abandon it. docs/host.md has the rules.
//
// fault.rt         why a request is not written
// stage.rt         where in a transaction a frame stands, or that it stands alone
// payload.rt       the payloads of the requests
// sending.rt       a payload's frame, written into a caller's buffer
// alone.rt         requests that stand alone
// transaction.rt   begun transactions
#![tactic(auto)]

mod alone;
mod fault;
mod payload;
mod sending;
mod stage;
mod transaction;

pub use alone::{write_delete, write_get, write_set};
pub use fault::HostFault;
pub use transaction::calls::Begun;
pub use transaction::{DeleteTransaction, SetTransaction};

// The receiver: it hears frames in the bytes that it takes, judges configuration requests, answers them and keeps its settings in layers.
// Every call is answered as the reference receiver answers it, in every state. After making nothing allocates.
//
// state.rt        a receiver
//   meaning.rt    what a receiver is to the reference, for contracts
//   named.rt      the layers by their numbers
//   making.rt     making one of its parts, and taking it apart
//   calls.rt      taking, looking, restarting
//   handling.rt   answering
//   judging.rt    judging a frame; getting.rt judges a get
//   carrying.rt   carrying out what was judged
// first.rt        the first frame in the held bytes
// transaction.rt  an open transaction; what a judged frame is to do
// verdict.rt      writing an ACK or a NAK
#![tactic(auto)]

mod first;
mod state;
mod transaction;
mod verdict;

pub use state::Receiver;
pub use state::handling::ANSWER_ROOM;
pub use state::making::Parts;
pub use state::meaning::{Meaning, PartsMeaning};

// Reading what a receiver sends: the first message of the input, as an ACK, a NAK, values or another frame.
//
// fault.rt    why no message is read
// pair.rt     the pair at the front of some bytes
// pairs.rt    the pairs of a values message, one after the other
// message.rt  what a frame says
// reading.rt  the first message of the input, with its place and what stands behind it
#![tactic(auto)]

mod fault;
mod message;
mod pair;
mod pairs;
mod reading;

pub use fault::ReadFault;
pub use message::Message;
pub use pairs::Pairs;
pub use reading::{Reading, read};

// The reference receiver: what a receiver answers and leaves, as definitions; the law over runs, proved of them; and the types that calls and
// answers have. There is no device code here.
//
// call.rt      the four calls
// answered.rt  what an answering answers
// refusal.rt   why a frame is refused; verdicts
// fault.rt     why a call is refused, and why parts are
// layers.rt    the layers that a change is for
// theorems.rt  what is proved of the definitions
#![tactic(auto)]

mod answered;
mod call;
mod fault;
mod layers;
mod refusal;
mod theorems;

pub use answered::{Answered, Telling};
pub use call::{Battery, Call};
pub use fault::{CallFault, PartsFault};
pub use layers::Layers;
pub use refusal::{Refusal, Verdict};
pub use theorems::{
    answers_fit, bench_stands, law_follows, law_has_teeth, law_stands, naks_keep, noise_is_counted,
    refused_calls_keep,
};

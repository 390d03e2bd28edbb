// Rules: a configuration is judged whole. What fits only together is not refused piece by piece, and what does not fit is named by one item.
//
// configuration.rt   what a rule judges
// traits.rt          the trait of a rule
// ranges.rt          values within their items' bounds
// need.rt, needs.rt  items that need one another
// both.rt            two rules together
// asking.rt          code over any rule
// bench.rt           the rule of the worked examples
#![tactic(auto)]

mod asking;
mod bench;
mod both;
mod configuration;
mod need;
mod needs;
mod ranges;
mod traits;

pub use asking::is_fit;
pub use bench::bench_rule;
pub use both::{Both, regrouped};
pub use configuration::Configuration;
pub use need::Need;
pub use needs::Needs;
pub use ranges::Ranges;
pub use traits::Rule;

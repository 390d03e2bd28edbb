// Tests of the crates `frame` and `monitor` on worked bytes, in a crate of their own so that those two are proved only once.
#![tactic(auto)]

#[cfg(test)]
mod frames;
#[cfg(test)]
mod lines;

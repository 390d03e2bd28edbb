// Tests of the crate `rule` on the bench catalogue, in a crate of their own so that `rule` is proved only once.
#![tactic(auto)]

#[cfg(test)]
mod bench;

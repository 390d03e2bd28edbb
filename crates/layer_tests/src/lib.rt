// Tests of the crates `layer` and `store` at each implementation, in a crate of their own so that those two are proved only once.
#![tactic(auto)]

#[cfg(test)]
mod stores;

// Tests of the crate `reply` on worked bytes, in a crate of their own so that it is proved only once.
#![tactic(auto)]

#[cfg(test)]
mod messages;

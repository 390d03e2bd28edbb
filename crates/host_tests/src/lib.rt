// Tests of crate `host` on worked bytes, in a crate of their own so that it is proved only once.
#![tactic(auto)]

#[cfg(test)]
mod alone;
#[cfg(test)]
mod refusals;
#[cfg(test)]
mod transactions;

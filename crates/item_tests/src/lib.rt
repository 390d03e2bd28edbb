// Tests of the crates `item` and `catalogue` on worked keys, values and catalogues, in a crate of their own so that those two are proved only once.
#![tactic(auto)]

#[cfg(test)]
mod catalogues;
#[cfg(test)]
mod values;

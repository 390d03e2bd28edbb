// Tests of the crates `receiver` and `replay` on worked frames, in a crate of their own so that those two are proved only once.
#![tactic(auto)]

#[cfg(test)]
mod bench;
#[cfg(test)]
mod frames;
#[cfg(test)]
mod runs;
#[cfg(test)]
mod sizes;

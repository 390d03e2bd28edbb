// Tests of the crate `script`, in a crate of their own so that it is proved only once.
#![tactic(auto)]

#[cfg(test)]
mod faults;
#[cfg(test)]
mod lines;
#[cfg(test)]
mod numbers;

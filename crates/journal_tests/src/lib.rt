// Tests of the crate `journal` on worked words, in a crate of their own so that it is proved only once.
#![tactic(auto)]

#[cfg(test)]
mod opening;
#[cfg(test)]
mod words;
#[cfg(test)]
mod writing;

// What the programs share, run: an input is read to its end, and all of it is handed on.
#![tactic(auto)]

#[cfg(test)]
mod inputs;

// The arguments: a file, or standard input, or a call for help.
ghost use Rattle.std.specs.Prelude.{◌≡◌, drop, Some, None, MatchResult};
ghost use Rattle.std.specs.Vec.Iter.{into_iter_items};
ghost use Rattle.options.specs.Arguments.{asked};

use anyhow::{bail, ensure};
use std::env::Args;

#[derive(Drop)]
pub enum Options {
    Help,
    StandardInput,
    File(String),
}

// What the arguments behind the program's name ask for.
pub fn read_options(mut args: Args) -> anyhow::Result<Options>
    ensures { MatchResult result (λ o. asked (drop 1 (into_iter_items args)) ≡ Some o) (λ _. asked (drop 1 (into_iter_items args)) ≡ None) }
{
    let _ = args.next();
    let Some(first) = args.next() else {
        return Ok(Options::StandardInput);
    };
    ensure!(args.next().is_none(), "one file at most; see --help");
    if first.as_str() == "--help" {
        return Ok(Options::Help);
    }
    if first.as_str().starts_with('-') {
        bail!("no such option: {first}; see --help");
    }
    Ok(Options::File(first))
}

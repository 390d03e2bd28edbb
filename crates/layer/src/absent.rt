// A place that is not there: a store that is not usable and holds nothing.
ghost use Rattle.std.specs.Prelude.{false, []};
ghost use Rattle.std.proofs.Common.{rules};

use crate::fault::StoreFault;
use crate::traits::{Layer, Store};

#[derive(Clone, Copy, PartialEq, Eq, Debug)]
pub struct Absent;

impl Layer for Absent {
    ghost settings = { λ _. [] };

    ghost ascends = { Prim.search rules };

    ghost sound = { Prim.search rules };

    fn value(&self, _key: u32) -> Option<u64> {
        None
    }

    fn next_key(&self, _number: u32) -> Option<u32> {
        None
    }
}

impl Store for Absent {
    ghost usable = { λ _. false };

    ghost shows = { Prim.search rules };

    fn is_usable(&self) -> bool {
        false
    }

    fn put(&mut self, _key: u32, _value: u64) -> Result<(), StoreFault> {
        Err(StoreFault::Unusable)
    }

    fn remove(&mut self, _key: u32) -> Result<(), StoreFault> {
        Err(StoreFault::Unusable)
    }

    fn clear(&mut self) -> Result<(), StoreFault> {
        Err(StoreFault::Unusable)
    }
}

// A saver over any store: it means what the store means, and puts below only a value that differs from the one held there.
ghost use Rattle.std.specs.Prelude.{◌≡◌, cond, Some};
ghost use Rattle.layer.specs.Settings.{value_under};
ghost use Rattle.layer.specs.Stores.{put_answer, after_put, is_held};
ghost use Rattle.std.proofs.Common.{rules};

use crate::fault::StoreFault;
use crate::traits::{Layer, Store};

#[derive(Drop)]
pub struct Saver<S> {
    pub store: S,
}

impl<S: Store> Layer for Saver<S> {
    ghost settings = { λ s. S.Layer.settings s.store };

    ghost ascends = { Prim.search rules };

    ghost sound = { Prim.search rules };

    fn value(&self, key: u32) -> Option<u64> {
        self.store.value(key)
    }

    fn next_key(&self, number: u32) -> Option<u32> {
        self.store.next_key(number)
    }
}

impl<S: Store> Store for Saver<S> {
    ghost usable = { λ s. S.Store.usable s.store };

    ghost memory = { λ s. S.Store.memory s.store };

    ghost memory_put = { λ k v s. cond (is_held v (value_under k (S.Layer.settings s.store))) (S.Store.memory s.store) (S.Store.memory_put k v s.store) };

    ghost memory_removed = { λ k s. S.Store.memory_removed k s.store };

    ghost memory_cleared = { λ s. S.Store.memory_cleared s.store };

    ghost shows = { Prim.search rules };

    fn is_usable(&self) -> bool {
        self.store.is_usable()
    }

    // What is held already is not written again: the store below is left as it is.
    fn put(&mut self, key: u32, value: u64) -> Result<(), StoreFault>
        ensures answer { result ≡ put_answer (S.Store.usable self.old.store) key value (S.Layer.settings self.old.store) }
        ensures after { S.Layer.settings self.new.store ≡ after_put result key value (S.Layer.settings self.old.store) }
        ensures mark { S.Store.usable self.new.store ≡ S.Store.usable self.old.store }
        ensures memory { S.Store.memory self.new.store ≡ cond (is_held value (value_under key (S.Layer.settings self.old.store))) (S.Store.memory self.old.store) (S.Store.memory_put key value self.old.store) }
        ensures spared { value_under key (S.Layer.settings self.old.store) ≡ Some value → self.new.store ≡ self.old.store }
    {
        if self.store.value(key) == Some(value) {
            return Ok(());
        }
        self.store.put(key, value)
    }

    fn remove(&mut self, key: u32) -> Result<(), StoreFault> {
        self.store.remove(key)
    }

    fn clear(&mut self) -> Result<(), StoreFault> {
        self.store.clear()
    }
}

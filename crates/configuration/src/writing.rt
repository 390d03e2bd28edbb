// One write to a store: the mark and settings that it leaves, and the words of its memory after. A refusal leaves mark and settings, so the
// answer is not looked at.
ghost use Rattle.std.specs.Prelude.{◌≡◌};
ghost use Rattle.reference.specs.Stores.{put, removed, cleared};

use crate::meaning::StoreMeaning;
use layer::{Layer, Store};

#[tactic(auto, using(crate::proofs::Stores::put_is))]
pub(crate) fn put_value<S: Store>(store: &mut S, key: u32, value: u64)
    ensures after { ⟦<S as StoreMeaning>⟧.store store.new ≡ put (⟦<S as StoreMeaning>⟧.store store.old) key value }
    ensures memory { S.Store.memory store.new ≡ S.Store.memory_put key value store.old }
{
    let _ = store.put(key, value);
}

#[tactic(auto, using(crate::proofs::Stores::removed_is))]
pub(crate) fn remove_value<S: Store>(store: &mut S, key: u32)
    ensures after { ⟦<S as StoreMeaning>⟧.store store.new ≡ removed (⟦<S as StoreMeaning>⟧.store store.old) key }
    ensures memory { S.Store.memory store.new ≡ S.Store.memory_removed key store.old }
{
    let _ = store.remove(key);
}

#[tactic(auto, using(crate::proofs::Stores::cleared_is))]
pub(crate) fn clear_all<S: Store>(store: &mut S)
    ensures after { ⟦<S as StoreMeaning>⟧.store store.new ≡ cleared (⟦<S as StoreMeaning>⟧.store store.old) }
    ensures memory { S.Store.memory store.new ≡ S.Store.memory_cleared store.old }
{
    let _ = store.clear();
}

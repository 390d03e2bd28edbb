// Code over any store, proved once.
ghost use Rattle.std.specs.Prelude.{◌≡◌, Some};
ghost use Rattle.layer.specs.Stores.{put_answer, after_put, WasPut, AskedAs};

use crate::fault::StoreFault;
use crate::traits::{Layer, Store};

// Asks for a value that was put.
fn ask_again<L: Layer>(layer: &L, key: u32, value: u64) -> Option<u64>
    requires { WasPut key value (L.Layer.settings layer.now) }
    ensures { result ≡ Some value }
{
    layer.value(key)
}

// Puts a value and asks for it again: where it was granted, the store holds it.
pub fn put_then_ask<S: Store>(
    store: &mut S,
    key: u32,
    value: u64,
) -> Result<Option<u64>, StoreFault>
    ensures asked { AskedAs value (put_answer (S.Store.usable store.old) key value (S.Layer.settings store.old)) result }
    ensures after { S.Layer.settings store.new ≡ after_put (put_answer (S.Store.usable store.old) key value (S.Layer.settings store.old)) key value (S.Layer.settings store.old) }
    ensures mark { S.Store.usable store.new ≡ S.Store.usable store.old }
    ensures memory { S.Store.memory store.new ≡ S.Store.memory_put key value store.old }
{
    store.put(key, value)?;
    Ok(ask_again(store, key, value))
}

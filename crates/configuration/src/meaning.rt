// What a store of the code is to the reference. Contracts name it by this trait, which no code calls.
ghost use Rattle.reference.specs.Stores.{store_of};
ghost use Rattle.reference.specs.Stores.{Store as ReferenceStore};
ghost use Rattle.configuration.specs.Writes.{Memory};

use layer::{Layer, Store};

pub trait StoreMeaning {
    // its mark and its settings
    ghost store: { Self → ReferenceStore };

    // the words of its memory, and those that each write leaves there
    ghost memory: { Memory Self };
}

impl<S: Store> StoreMeaning for S {
    ghost store = { λ s. store_of S.Store.usable S.Layer.settings s };

    ghost memory = { record { words = S.Store.memory; put = S.Store.memory_put; removed = S.Store.memory_removed; cleared = S.Store.memory_cleared } };
}

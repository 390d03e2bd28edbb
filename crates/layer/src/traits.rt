// What a layer and a store mean: a layer is its settings, and a store is a layer that can be written, with a mark.
ghost use Rattle.std.specs.Prelude.{◌≡◌, ℕ, Bool, List, None, Option};
ghost use Rattle.layer.specs.declared.setting.Setting.{Setting};
ghost use Rattle.layer.specs.Settings.{value_under, key_above, Ascends, Sound};
ghost use Rattle.layer.specs.Stores.{put_answer, remove_answer, clear_answer, after_put, after_remove, after_clear, Shows};

use crate::fault::StoreFault;

// A readable layer. Asking changes nothing.
pub trait Layer {
    ghost settings: { Self → List Setting };

    // The value under a key.
    fn value(&self, key: u32) -> Option<u64>
        ensures { result ≡ value_under key (settings self.now) };

    // The least held key above a number.
    fn next_key(&self, number: u32) -> Option<u32>
        ensures { result ≡ key_above number (settings self.now) };

    ghost ascends: { (s : Self) → Ascends (settings s) };

    ghost sound: { (s : Self) → Sound (settings s) };
}

// A layer that can be written as well. Its mark, usable or not, never changes. A refusal changes nothing.
pub trait Store: Layer {
    ghost usable: { Self → Bool };

    // The words of the memory that it writes, and those that each call leaves there; none where it has no such memory.
    ghost memory: { Self → Option (List ℕ) } = { λ _. None };

    ghost memory_put: { ℕ → ℕ → Self → Option (List ℕ) } = { λ _ _ _. None };

    ghost memory_removed: { ℕ → Self → Option (List ℕ) } = { λ _ _. None };

    ghost memory_cleared: { Self → Option (List ℕ) } = { λ _. None };

    fn is_usable(&self) -> bool
        ensures value { result ≡ usable self.now }
        ensures shows { Shows result (Self.Layer.settings self.now) };

    // Sets one value.
    // kept: a key and a value and no `Setting`, as std's maps take them at `insert`
    fn put(&mut self, key: u32, value: u64) -> Result<(), StoreFault>
        ensures answer { result ≡ put_answer (usable self.old) key value (Self.Layer.settings self.old) }
        ensures after { Self.Layer.settings self.new ≡ after_put result key value (Self.Layer.settings self.old) }
        ensures mark { usable self.new ≡ usable self.old }
        ensures memory { memory self.new ≡ memory_put key value self.old };

    // Takes one value away, if it is held.
    fn remove(&mut self, key: u32) -> Result<(), StoreFault>
        ensures answer { result ≡ remove_answer (usable self.old) key }
        ensures after { Self.Layer.settings self.new ≡ after_remove result key (Self.Layer.settings self.old) }
        ensures mark { usable self.new ≡ usable self.old }
        ensures memory { memory self.new ≡ memory_removed key self.old };

    // Takes all values away.
    fn clear(&mut self) -> Result<(), StoreFault>
        ensures answer { result ≡ clear_answer (usable self.old) }
        ensures after { Self.Layer.settings self.new ≡ after_clear result (Self.Layer.settings self.old) }
        ensures mark { usable self.new ≡ usable self.old }
        ensures memory { memory self.new ≡ memory_cleared self.old };

    ghost shows: { (s : Self) → Shows (usable s) (Self.Layer.settings s) };
}

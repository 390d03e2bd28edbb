// A stack of two layers: the upper layer's value, else the lower's. It nests, and a store inside it is written through its field.
ghost use Rattle.std.specs.Prelude.{◌≡◌, []};
ghost use Rattle.layer.specs.Settings.{merged, lesser};
ghost use Rattle.layer.specs.SettingsLemmas.{ascends_merged, value_merged_cases};
ghost use Rattle.std.proofs.Common.{⊎_elim};

use crate::absent::Absent;
use crate::traits::Layer;

#[derive(Drop)]
pub struct Stack<U, L> {
    pub upper: U,
    pub lower: L,
}

// The lesser of two keys, where there are any.
fn lesser_of(a: Option<u32>, b: Option<u32>) -> Option<u32>
    ensures { result ≡ lesser a b }
{
    match (a, b) {
        (Some(k), Some(m)) => Some(k.min(m)),
        _ => a.or(b),
    }
}

impl<U: Layer, L: Layer> Layer for Stack<U, L> {
    ghost settings = { λ s. merged (U.Layer.settings s.upper) (L.Layer.settings s.lower) };

    ghost ascends = { λ s. ascends_merged (U.Layer.settings s.upper) (L.Layer.settings s.lower) (L.Layer.ascends s.lower) };

    ghost sound = { λ s k v e. ⊎_elim (U.Layer.sound s.upper k v) (L.Layer.sound s.lower k v) (value_merged_cases k v (U.Layer.settings s.upper) (L.Layer.settings s.lower) e) };

    fn value(&self, key: u32) -> Option<u64> {
        self.upper.value(key).or_else(|| self.lower.value(key))
    }

    fn next_key(&self, number: u32) -> Option<u32> {
        lesser_of(self.upper.next_key(number), self.lower.next_key(number))
    }
}

// Stacking is associative: the same layers, grouped the other way, hold the same.
#[tactic(auto, using(crate::specs::SettingsLemmas::merged_assoc))]
pub fn regrouped<A: Layer, B: Layer, C: Layer>(s: Stack<Stack<A, B>, C>) -> Stack<A, Stack<B, C>>
    ensures { merged (A.Layer.settings result.upper) (merged (B.Layer.settings result.lower.upper) (C.Layer.settings result.lower.lower)) ≡ merged (merged (A.Layer.settings s.upper.upper) (B.Layer.settings s.upper.lower)) (C.Layer.settings s.lower) }
{
    let Stack {
        upper: Stack { upper: a, lower: b },
        lower: c,
    } = s;
    Stack {
        upper: a,
        lower: Stack { upper: b, lower: c },
    }
}

// An empty layer is neutral below a layer and above it.
pub fn over_nothing<L: Layer>(layer: L) -> Stack<L, Absent>
    ensures { merged (L.Layer.settings result.upper) [] ≡ L.Layer.settings layer }
{
    Stack {
        upper: layer,
        lower: Absent,
    }
}

pub fn under_nothing<L: Layer>(layer: L) -> Stack<Absent, L>
    ensures { merged [] (L.Layer.settings result.lower) ≡ L.Layer.settings layer }
{
    Stack {
        upper: Absent,
        lower: layer,
    }
}

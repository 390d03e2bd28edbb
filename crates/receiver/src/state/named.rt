// The layers by their numbers: 0 RAM, 1 BBR, 2 Flash, 7 the defaults. This is the one place where a number chooses a layer.
ghost use Rattle.std.specs.Prelude.{◌≡◌};
ghost use Rattle.std.specs.Option.{option_map};
ghost use Rattle.store.specs.SlotsLemmas.{ascends_settings, value_sound};
ghost use Rattle.store.specs.CataloguedLemmas.{defaults_ascend, defaults_sound};
ghost use Rattle.catalogue.specs.Owned.{entries_of};
ghost use Rattle.reference.specs.Receiver.{layer_of};
ghost use Rattle.receiver.specs.State.{items_of};
ghost use Rattle.receiver.specs.Named.{named_settings};
ghost use Rattle.receiver.specs.declared.state.named.NamedLayer.TheVariants.{Ram, Bbr, Flash, Defaults};

use super::Receiver;
use super::meaning::Meaning;
use layer::{Layer, Stack, Store};
use rule::Rule;
use store::{Defaults, SlotTable};

// A layer, lent to be read.
#[derive(Clone, Copy)]
pub(crate) enum NamedLayer<'a, B: Store, F: Store> {
    Ram(&'a SlotTable),
    Bbr(&'a B),
    Flash(&'a F),
    Defaults(&'a Defaults),
}

// One call at whichever of the four it is.
macro_rules! at_each {
    ($named:expr, $layer:ident => $call:expr) => {
        match $named {
            NamedLayer::Ram($layer) => $call,
            NamedLayer::Bbr($layer) => $call,
            NamedLayer::Flash($layer) => $call,
            NamedLayer::Defaults($layer) => $call,
        }
    };
}

impl<'a, B: Store, F: Store> Layer for NamedLayer<'a, B, F> {
    ghost settings = { named_settings B.Layer.settings F.Layer.settings };

    ghost ascends = { elim [
      | Ram t ↦ ascends_settings t.now.slots
      | Bbr s ↦ B.Layer.ascends s.now
      | Flash s ↦ F.Layer.ascends s.now
      | Defaults d ↦ defaults_ascend (entries_of d.now.catalogue) d.now.catalogue.checked
    ] };

    ghost sound = { elim [
      | Ram t ↦ λ k v. value_sound k v t.now.slots t.now.fit
      | Bbr s ↦ B.Layer.sound s.now
      | Flash s ↦ F.Layer.sound s.now
      | Defaults d ↦ defaults_sound (entries_of d.now.catalogue) d.now.catalogue.checked
    ] };

    fn value(&self, key: u32) -> Option<u64> {
        at_each!(self, layer => layer.value(key))
    }

    fn next_key(&self, number: u32) -> Option<u32> {
        at_each!(self, layer => layer.next_key(number))
    }
}

impl<B: Store, F: Store, R: Rule> Receiver<B, F, R> {
    // The layer with this number; none where there is no such layer, or a Flash that is not usable.
    #[tactic(auto, using(crate::proofs::Layers::by_number))]
    pub(crate) fn layer(&self, number: u8) -> Option<NamedLayer<'_, B, F>>
        ensures { option_map (named_settings B.Layer.settings F.Layer.settings) result ≡ layer_of (items_of self.now) (⟦<Self as Meaning>⟧.state self.now) number }
    {
        match number {
            0 => Some(NamedLayer::Ram(&self.ram)),
            1 => Some(NamedLayer::Bbr(&self.layers.upper.upper)),
            2 => {
                let flash = &self.layers.upper.lower;
                flash.is_usable().then_some(NamedLayer::Flash(flash))
            }
            7 => Some(NamedLayer::Defaults(&self.layers.lower)),
            _ => None,
        }
    }
}

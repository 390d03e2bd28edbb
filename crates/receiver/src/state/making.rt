// Making a receiver of its parts, and taking it apart again.
ghost use Rattle.std.specs.Prelude.{◌≡◌, [], if◌then◌else◌, None};
ghost use Rattle.catalogue.specs.Owned.{entries_of};
ghost use Rattle.store.specs.Slots.{settings_of};
ghost use Rattle.reference.specs.Stores.{held};
ghost use Rattle.reference.specs.Parts.{parts_fault, stacked};
ghost use Rattle.reference.specs.Receiver.{made};
ghost use Rattle.reference.specs.Promise.{LawOf};
ghost use Rattle.receiver.specs.State.{items_of};

use super::Receiver;
use super::meaning::{Meaning, PartsMeaning};
use catalogue::Entry;
use configuration::{Pile, StoreMeaning, check, stack_ram};
use held::Held;
use layer::{Stack, Store};
use request::ItemChanges;
use rule::Rule;
use store::{Defaults, SlotTable};

// What a receiver is made of, but for the catalogue, which it copies.
pub struct Parts<B, F, R> {
    pub bbr: B,
    pub flash: F,
    pub rule: R,
}

// RAM as it is stacked, or empty in a shut receiver.
// kept: the condition is a parameter, since asked in `make` its clause on the state would have to be shown in both cases
fn first_ram<B: Store, F: Store, R: Rule>(shut: bool, layers: &Pile<B, F>, rule: &R) -> SlotTable
    ensures { settings_of result.slots ≡ (if shut then [] else stacked (entries_of layers.now.lower.catalogue) (R.Rule.finding rule.now) (held (⟦<B as StoreMeaning>⟧.store layers.now.upper.upper)) (held (⟦<F as StoreMeaning>⟧.store layers.now.upper.lower))) }
{
    if shut {
        SlotTable::new()
    } else {
        stack_ram(layers, rule).ram
    }
}

impl<B: Store, F: Store, R: Rule> Receiver<B, F, R> {
    // Copies the catalogue, takes over the stores and the rule, and stacks RAM. Parts that the check refuses make a shut receiver.
    pub fn make(entries: &[Entry], parts: Parts<B, F, R>) -> Receiver<B, F, R>
        ensures state { ⟦<Self as Meaning>⟧.state result ≡ made (⟦<Parts<B, F, R> as PartsMeaning>⟧.with parts entries.now) }
        ensures items { parts_fault (⟦<Parts<B, F, R> as PartsMeaning>⟧.with parts entries.now) ≡ None → items_of result ≡ entries.now }
        ensures rule { result.rule ≡ parts.rule }
        ensures stores { (result.layers.upper.upper ≡ parts.bbr) × (result.layers.upper.lower ≡ parts.flash) }
        ensures law { LawOf (⟦<Parts<B, F, R> as PartsMeaning>⟧.with parts entries.now) }
    {
        let shut = check(entries, &parts.bbr, &parts.flash, &parts.rule).is_err();
        let Parts { bbr, flash, rule } = parts;
        let layers = Stack {
            upper: Stack {
                upper: bbr,
                lower: flash,
            },
            lower: Defaults::new(entries),
        };
        let ram = first_ram(shut, &layers, &rule);
        Receiver {
            shut,
            held: Held::new(),
            layers,
            rule,
            ram,
            transaction: None,
            queue: ItemChanges::none(),
        }
    }

    // Gives back the stores, with what they hold now, and the rule.
    pub fn into_parts(self) -> Parts<B, F, R>
        ensures bbr { ⟦<B as StoreMeaning>⟧.store result.bbr ≡ (⟦<Self as Meaning>⟧.state self).bbr }
        ensures flash { ⟦<F as StoreMeaning>⟧.store result.flash ≡ (⟦<Self as Meaning>⟧.state self).flash }
        ensures rule { result.rule ≡ self.rule }
        ensures stores { (result.bbr ≡ self.layers.upper.upper) × (result.flash ≡ self.layers.upper.lower) }
    {
        let Receiver { layers, rule, .. } = self;
        let Stack {
            upper: Stack {
                upper: bbr,
                lower: flash,
            },
            ..
        } = layers;
        Parts { bbr, flash, rule }
    }
}

// Stacking RAM: BBR over Flash over the defaults, or the defaults alone where the rule finds that unfit.
ghost use Rattle.std.specs.Prelude.{◌≡◌};
ghost use Rattle.catalogue.specs.Owned.{entries_of};
ghost use Rattle.store.specs.Slots.{settings_of};
ghost use Rattle.reference.specs.Stores.{held};
ghost use Rattle.reference.specs.Parts.{settings_by, stack_value, default_of, if_fit, stack_fault, stacked};

use crate::gathering::gathered;
use crate::judging::fault_in;
use crate::meaning::StoreMeaning;
use layer::{Layer, Stack, Store};
use rule::Rule;
use store::{Defaults, SlotTable};

// What RAM is stacked from: BBR over Flash over the defaults.
pub type Pile<B, F> = Stack<Stack<B, F>, Defaults>;

// RAM as it was stacked, and the item at fault where it is the defaults alone.
#[derive(Drop)]
pub struct Stacked {
    pub ram: SlotTable,
    pub fault: Option<usize>,
}

fn gather_pile<B: Store, F: Store>(pile: &Pile<B, F>) -> SlotTable
    ensures { settings_of result.slots ≡ settings_by (stack_value (held (⟦<B as StoreMeaning>⟧.store pile.now.upper.upper)) (held (⟦<F as StoreMeaning>⟧.store pile.now.upper.lower))) (entries_of pile.now.lower.catalogue) }
{
    gathered(&pile.lower.catalogue, pile)
}

#[tactic(auto, using(crate::proofs::Piled::default_settings))]
fn gather_defaults(defaults: &Defaults) -> SlotTable
    ensures { settings_of result.slots ≡ settings_by default_of (entries_of defaults.now.catalogue) }
{
    gathered(&defaults.catalogue, defaults)
}

// The table where there is no fault, else the defaults alone.
fn unless_unfit(table: SlotTable, fault: Option<usize>, defaults: &Defaults) -> SlotTable
    ensures { settings_of result.slots ≡ if_fit fault (settings_of table.slots) (settings_by default_of (entries_of defaults.now.catalogue)) }
{
    match fault {
        None => table,
        Some(_) => gather_defaults(defaults),
    }
}

// RAM as it stands after making and after a restart.
#[tactic(auto, using(crate::proofs::Piled::fault_is, crate::proofs::Piled::stacked_is))]
pub fn stack_ram<B: Store, F: Store, R: Rule>(pile: &Pile<B, F>, rule: &R) -> Stacked
    ensures ram { settings_of result.ram.slots ≡ stacked (entries_of pile.now.lower.catalogue) (R.Rule.finding rule.now) (held (⟦<B as StoreMeaning>⟧.store pile.now.upper.upper)) (held (⟦<F as StoreMeaning>⟧.store pile.now.upper.lower)) }
    ensures fault { result.fault ≡ stack_fault (entries_of pile.now.lower.catalogue) (R.Rule.finding rule.now) (held (⟦<B as StoreMeaning>⟧.store pile.now.upper.upper)) (held (⟦<F as StoreMeaning>⟧.store pile.now.upper.lower)) }
{
    let table = gather_pile(pile);
    let fault = fault_in(&pile.lower.catalogue, &table, rule);
    let ram = unless_unfit(table, fault, &pile.lower);
    Stacked { ram, fault }
}

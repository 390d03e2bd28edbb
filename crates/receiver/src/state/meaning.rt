// What a receiver and its parts are to the reference. Contracts name it by these traits, which no code calls.
ghost use Rattle.reference.specs.Events.{Asking};
ghost use Rattle.std.specs.Prelude.{List};
ghost use Rattle.catalogue.specs.declared.entries.Entry.{Entry};
ghost use Rattle.reference.specs.Parts.{parts_of};
ghost use Rattle.reference.specs.Parts.{Parts as ReferenceParts};
ghost use Rattle.reference.specs.Receiver.{State, Stepped};
ghost use Rattle.reference.specs.Stores.{store_of};
ghost use Rattle.receiver.specs.State.{state_of, step_of};

use super::Receiver;
use super::making::Parts;
use layer::Store;
use rule::Rule;

pub trait Meaning {
    // its state
    ghost state: { Self → State };

    // what a call leaves, and its event
    ghost step: { Self → Asking → Stepped };
}

impl<B: Store, F: Store, R: Rule> Meaning for Receiver<B, F, R> {
    ghost state = { λ r. state_of B.Store.usable B.Layer.settings F.Store.usable F.Layer.settings r };

    ghost step = { λ r call. step_of B.Store.usable B.Layer.settings F.Store.usable F.Layer.settings R.Rule.finding r call };
}

pub trait PartsMeaning {
    // what the check reads: the parts, with the entries of a catalogue
    ghost with: { Self → List Entry → ReferenceParts };
}

impl<B: Store, F: Store, R: Rule> PartsMeaning for Parts<B, F, R> {
    ghost with = { λ p entries. parts_of entries (R.Rule.finding p.rule) (store_of B.Store.usable B.Layer.settings p.bbr) (store_of F.Store.usable F.Layer.settings p.flash) };
}

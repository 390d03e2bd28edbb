// Carrying out what a frame was judged to do, and telling it.
ghost use Rattle.std.specs.Prelude.{◌≡◌, ◌≤◌, [], length, Some};
ghost use Rattle.frame.specs.Frames.{frame_bytes};
ghost use Rattle.frame.specs.Written.{patched};
ghost use Rattle.catalogue.specs.Owned.{entries_of};
ghost use Rattle.request.specs.Changes.{changes_by, slots_of};
ghost use Rattle.reference.specs.Receiver.{with_transaction, written_if, apply, applied, of_kind};
ghost use Rattle.receiver.specs.State.{items_of, opened_of, Kept};
ghost use Rattle.receiver.specs.Written.{verdict_on};
ghost use Rattle.configuration.specs.Writes.{WroteIf};
ghost use Rattle.receiver.specs.Stores.{WrotePlan, WroteJudged};
ghost use Rattle.receiver.specs.Plans.{plan_of, grant_of, verdicted_of, after_plan, after_grant, after_verdict, grant_length, reply_length, verdict_id, told_by};

use super::Receiver;
use super::handling::ANSWER_ROOM;
use super::meaning::Meaning;
use crate::first::HeldFrame;
use crate::transaction::{Granted, Plan, Transaction};
use crate::verdict::{Sign, write_verdict};
use catalogue::Catalogue;
use configuration::{StoreMeaning, apply_changes};
use layer::Store;
use reference::{Layers, Refusal, Telling, Verdict};
use request::ItemChanges;
use rule::Rule;

// Changes a layer where it is chosen.
// kept: the condition is a parameter, since three `if`s in `apply` would each want the proof that a layer which is not chosen stays
fn apply_if<S: Store>(chosen: bool, catalogue: &Catalogue, changes: &ItemChanges, store: &mut S)
    ensures after { ⟦<S as StoreMeaning>⟧.store store.new ≡ written_if chosen (entries_of catalogue.now) (changes_by (entries_of catalogue.now) (slots_of changes.now)) (⟦<S as StoreMeaning>⟧.store store.old) }
    ensures wrote { WroteIf ⟦<S as StoreMeaning>⟧.memory chosen (entries_of catalogue.now) (changes_by (entries_of catalogue.now) (slots_of changes.now)) store.old store.new }
{
    if chosen {
        apply_changes(catalogue, changes, store);
    }
}

impl<B: Store, F: Store, R: Rule> Receiver<B, F, R> {
    // Changes the chosen layers, RAM first, then BBR, then Flash, and ends the transaction.
    #[tactic(auto, using(crate::proofs::Carried::applied_is))]
    fn apply(&mut self, layers: Layers, items: &ItemChanges)
        ensures after { ⟦<Self as Meaning>⟧.state self.new ≡ applied (items_of self.old) (⟦<Self as Meaning>⟧.state self.old) layers (changes_by (items_of self.old) (slots_of items.now)) }
        ensures kept { Kept self.old self.new }
        ensures stores { WrotePlan ⟦<B as StoreMeaning>⟧.memory ⟦<F as StoreMeaning>⟧.memory (items_of self.old) (apply layers (changes_by (items_of self.old) (slots_of items.now))) self.old.layers self.new.layers }
    {
        let catalogue = &self.layers.lower.catalogue;
        apply_if(layers.ram, catalogue, items, &mut self.ram);
        apply_if(layers.bbr, catalogue, items, &mut self.layers.upper.upper);
        apply_if(layers.flash, catalogue, items, &mut self.layers.upper.lower);
        self.transaction = None;
    }

    // Keeps a transaction open, with these changes queued.
    fn keep_open(&mut self, transaction: Transaction, items: &ItemChanges)
        ensures after { ⟦<Self as Meaning>⟧.state self.new ≡ with_transaction (⟦<Self as Meaning>⟧.state self.old) (Some (opened_of (items_of self.old) (slots_of items.now) transaction)) }
        ensures kept { Kept self.old self.new }
        ensures stores { self.new.layers ≡ self.old.layers }
    {
        self.queue = *items;
        self.transaction = Some(transaction);
    }

    // What a granted set or delete is to do.
    fn carry_out(&mut self, plan: Plan, items: &ItemChanges)
        ensures after { ⟦<Self as Meaning>⟧.state self.new ≡ after_plan (items_of self.old) (⟦<Self as Meaning>⟧.state self.old) (slots_of items.now) plan }
        ensures kept { Kept self.old self.new }
        ensures stores { WrotePlan ⟦<B as StoreMeaning>⟧.memory ⟦<F as StoreMeaning>⟧.memory (items_of self.old) (plan_of (items_of self.old) (slots_of items.now) plan) self.old.layers self.new.layers }
    {
        match plan {
            Plan::Apply(layers) => self.apply(layers, items),
            Plan::Queue(transaction) => self.keep_open(transaction, items),
        }
    }

    // A transaction of another kind ends before a frame with this ID is judged.
    pub(crate) fn cancel_other_kind(&mut self, id: u8)
        ensures after { ⟦<Self as Meaning>⟧.state self.new ≡ with_transaction (⟦<Self as Meaning>⟧.state self.old) (of_kind id (⟦<Self as Meaning>⟧.state self.old).transaction) }
        ensures kept { Kept self.old self.new }
        ensures stores { self.new.layers ≡ self.old.layers }
    {
        if let Some(transaction) = &self.transaction
            && transaction.id != id
        {
            self.transaction = None;
        }
    }

    // What a granted frame comes to; answers how many bytes of a reply stand in the buffer.
    fn grant(&mut self, granted: Granted, items: &ItemChanges) -> usize
        ensures value { result ≡ grant_length granted }
        ensures after { ⟦<Self as Meaning>⟧.state self.new ≡ after_grant (items_of self.old) (⟦<Self as Meaning>⟧.state self.old) (slots_of items.now) granted }
        ensures kept { Kept self.old self.new }
        ensures stores { WrotePlan ⟦<B as StoreMeaning>⟧.memory ⟦<F as StoreMeaning>⟧.memory (items_of self.old) (grant_of (items_of self.old) (slots_of items.now) [] granted) self.old.layers self.new.layers }
    {
        match granted {
            Granted::Change(plan) => {
                self.carry_out(plan, items);
                0
            }
            Granted::Reply(length) => length,
        }
    }

    // Carries out the judgement and writes its verdict. Every refusal cancels the transaction.
    #[tactic(auto, using(crate::proofs::Buffers::by_place))]
    pub(crate) fn conclude(
        &mut self,
        frame: HeldFrame,
        judged: Result<Granted, Refusal>,
        items: &ItemChanges,
        out: &mut [u8; ANSWER_ROOM],
    ) -> Telling
        requires few { reply_length judged ≤ 780 }
        ensures value { result ≡ told_by frame judged }
        ensures out { out.new ≡ patched (reply_length judged) (frame_bytes (verdict_on (verdict_id judged) frame.id)) out.old }
        ensures after { ⟦<Self as Meaning>⟧.state self.new ≡ after_verdict (items_of self.old) (⟦<Self as Meaning>⟧.state self.old) (slots_of items.now) judged }
        ensures kept { Kept self.old self.new }
        ensures stores { WroteJudged ⟦<B as StoreMeaning>⟧.memory ⟦<F as StoreMeaning>⟧.memory (items_of self.old) (verdicted_of (items_of self.old) (slots_of items.now) out.old judged) self.old.layers self.new.layers }
    {
        match judged {
            Ok(granted) => {
                let place = self.grant(granted, items);
                let length = place + write_verdict(&mut out[place..], Sign::Ack, frame.id);
                frame.told(Verdict::Ack, length)
            }
            Err(refusal) => {
                self.transaction = None;
                let length = write_verdict(out, Sign::Nak, frame.id);
                frame.told(Verdict::Nak(refusal), length)
            }
        }
    }
}

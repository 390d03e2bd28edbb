// Judging a frame of the configuration class. Nothing is changed here but the buffer, into which a reply is written; what is to be done
// comes back as a plan, with its changes beside it.
ghost use Rattle.std.specs.Prelude.{◌≡◌, ◌≤◌, length, if◌then◌else◌, nat_eq};
ghost use Rattle.request.specs.Changes.{changes_by, slots_of};
ghost use Rattle.request.specs.Actions.{action_number};
ghost use Rattle.request.specs.Reading.{read_as};
ghost use Rattle.request.specs.Head.{opened_layers};
ghost use Rattle.reference.specs.Requests.{valget, and_later};
ghost use Rattle.reference.specs.Receiver.{apply_fault, applying, queue_of, planned, judged_change, judged_get, judged};
ghost use Rattle.std.specs.Option.{option_map};
ghost use Rattle.receiver.specs.State.{opened_of, items_of};
ghost use Rattle.receiver.specs.Plans.{request_message, changes_for, judgement_of, Judged};

use super::Receiver;
use super::handling::ANSWER_ROOM;
use super::meaning::Meaning;
use crate::transaction::{Granted, Plan, Transaction};
use configuration::fault_after;
use layer::Store;
use reference::{Layers, Refusal};
use request::{Action, HEAD, ItemChanges, Request, is_get, is_request};
use rule::Rule;

impl<B: Store, F: Store, R: Rule> Receiver<B, F, R> {
    // The item at fault in the RAM that applying would leave.
    #[tactic(auto, using(crate::proofs::Planning::by_fault))]
    fn fault_of(&self, layers: Layers, items: &ItemChanges) -> Option<usize>
        ensures { result ≡ apply_fault (items_of self.now) (R.Rule.finding self.now.rule) (⟦<Self as Meaning>⟧.state self.now) layers (changes_by (items_of self.now) (slots_of items.now)) }
    {
        if layers.ram {
            fault_after(&self.layers.lower.catalogue, items, &self.ram, &self.rule)
        } else {
            None
        }
    }

    // Applying, where RAM would stay fit.
    fn plan_to_apply(&self, layers: Layers, items: &ItemChanges) -> Result<Plan, Refusal>
        ensures { judgement_of (items_of self.now) (slots_of items.now) result ≡ applying (apply_fault (items_of self.now) (R.Rule.finding self.now.rule) (⟦<Self as Meaning>⟧.state self.now) layers (changes_by (items_of self.now) (slots_of items.now))) layers (changes_by (items_of self.now) (slots_of items.now)) }
    {
        if let Some(item) = self.fault_of(layers, items) {
            return Err(Refusal::Unfit(item));
        }
        Ok(Plan::Apply(layers))
    }

    // Loads what is queued; nothing where no transaction is open.
    #[tactic(auto, using(crate::proofs::Planning::none_queued))]
    fn load_queue(&self, items: &mut ItemChanges)
        ensures { changes_by (items_of self.now) (slots_of items.new) ≡ queue_of (option_map (opened_of (items_of self.now) (slots_of self.now.queue)) self.now.transaction) }
    {
        match self.transaction {
            Some(_) => *items = self.queue,
            None => items.forget(),
        }
    }

    // Puts what is queued under changes.
    #[tactic(auto, using(crate::proofs::Planning::none_under, crate::proofs::Planning::queued_under))]
    fn put_queue_under(&self, items: &mut ItemChanges)
        ensures { changes_by (items_of self.now) (slots_of items.new) ≡ and_later (queue_of (option_map (opened_of (items_of self.now) (slots_of self.now.queue)) self.now.transaction)) (changes_by (items_of self.now) (slots_of items.old)) }
    {
        if self.transaction.is_some() {
            items.put_under(&self.queue, self.layers.lower.catalogue.entries().len());
        }
    }

    // The changes that an action is about: those of its frame, behind those queued where it adds. Closing does not read its own.
    fn changes_for(
        &self,
        request: &Request<'_>,
        action: Action,
        items: &mut ItemChanges,
    ) -> Result<(), Refusal>
        ensures { read_as (items_of self.now) (slots_of items.new) result ≡ changes_for (items_of self.now) (queue_of (option_map (opened_of (items_of self.now) (slots_of self.now.queue)) self.now.transaction)) (request_message request.now) action }
    {
        let catalogue = &self.layers.lower.catalogue;
        match action {
            Action::Apply | Action::Open => request.read_data(catalogue, items),
            Action::Add => {
                request.read_data(catalogue, items)?;
                self.put_queue_under(items);
                Ok(())
            }
            Action::Close => {
                self.load_queue(items);
                Ok(())
            }
        }
    }

    // What an action does with the changes that it is about: they are applied, or queued.
    fn plan(
        &self,
        request: &Request<'_>,
        layers: Layers,
        action: Action,
        items: &mut ItemChanges,
    ) -> Result<Plan, Refusal>
        ensures { judgement_of (items_of self.now) (slots_of items.new) result ≡ planned (items_of self.now) (R.Rule.finding self.now.rule) (⟦<Self as Meaning>⟧.state self.now) (request_message request.now) layers (action_number action) }
    {
        self.changes_for(request, action, items)?;
        match action {
            Action::Apply | Action::Close => self.plan_to_apply(layers, items),
            Action::Open | Action::Add => Ok(Plan::Queue(Transaction {
                id: request.id,
                layers,
            })),
        }
    }

    // A set or a delete.
    fn judge_change(&self, request: &Request<'_>, items: &mut ItemChanges) -> Result<Plan, Refusal>
        ensures { judgement_of (items_of self.now) (slots_of items.new) result ≡ judged_change (items_of self.now) (R.Rule.finding self.now.rule) (⟦<Self as Meaning>⟧.state self.now) (request_message request.now) }
    {
        let usable = self.layers.upper.lower.is_usable();
        request.check_head(usable, self.opened_layers())?;
        self.plan(request, request.layers(), request.action(), items)
    }

    // The layers that the open transaction was opened for.
    fn opened_layers(&self) -> Option<Layers>
        ensures { result ≡ opened_layers (option_map (opened_of (items_of self.now) (slots_of self.now.queue)) self.now.transaction) }
    {
        self.transaction.map(|transaction| transaction.layers)
    }

    // A set, a delete or a get whose payload has a head.
    fn judge_request(
        &self,
        request: &Request<'_>,
        items: &mut ItemChanges,
        out: &mut [u8; ANSWER_ROOM],
    ) -> Result<Granted, Refusal>
        requires long { 4 ≤ length request.now.payload.now }
        ensures { Judged (items_of self.now) (slots_of items.new) out.old out.new (if nat_eq request.now.id valget then judged_get (items_of self.now) (⟦<Self as Meaning>⟧.state self.now) (request_message request.now) else judged_change (items_of self.now) (R.Rule.finding self.now.rule) (⟦<Self as Meaning>⟧.state self.now) (request_message request.now)) result }
    {
        if is_get(request.id) {
            let length = self.judge_get(request.payload, out)?;
            Ok(Granted::Reply(length))
        } else {
            let plan = self.judge_change(request, items)?;
            Ok(Granted::Change(plan))
        }
    }

    // Any frame of the configuration class.
    pub(crate) fn judge(
        &self,
        request: &Request<'_>,
        items: &mut ItemChanges,
        out: &mut [u8; ANSWER_ROOM],
    ) -> Result<Granted, Refusal>
        ensures { Judged (items_of self.now) (slots_of items.new) out.old out.new (judged (items_of self.now) (R.Rule.finding self.now.rule) (⟦<Self as Meaning>⟧.state self.now) (request_message request.now)) result }
    {
        if !is_request(request.id) {
            return Err(Refusal::OtherId);
        }
        if request.payload.len() < HEAD {
            return Err(Refusal::ShortPayload);
        }
        self.judge_request(request, items, out)
    }
}

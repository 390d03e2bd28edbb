// Carrying out calls and logging them.
ghost use Rattle.std.specs.Prelude.{◌≡◌, [], map, IfOk};
ghost use Rattle.reference.specs.Events.{asking_of, answer_into};
ghost use Rattle.reference.specs.Receiver.{run_from};
ghost use Rattle.receiver.specs.State.{items_of, Kept};
ghost use Rattle.replay.specs.Logs.{event_of, run_of, LoggedAs, Replays, StandsOn};
ghost use Rattle.replay.specs.Seen.{SeesFrom, SeesRun};
ghost use Rattle.replay.specs.Wrote.{WroteOn, WroteFrom, WroteRun};

use crate::event::{Answering, Event};
use crate::unlogged::Unlogged;
use crate::watch::{Unwatched, Watch};
use catalogue::Entry;
use configuration::StoreMeaning;
use layer::Store;
use receiver::{ANSWER_ROOM, Meaning, Parts, PartsMeaning, Receiver};
use reference::Call;
use rule::Rule;
use std::alloc::{AllocError, Global};

// What a replay leaves: the log, an event for each call in their order, and the receiver.
#[derive(Drop)]
pub struct Replayed<'a, B: Store, F: Store, R: Rule> {
    pub log: Vec<Event<'a>>,
    pub receiver: Receiver<B, F, R>,
}

// A receiver that is called, and the heap on which its calls are logged.
#[derive(Drop)]
struct Replaying<B: Store, F: Store, R: Rule> {
    heap: Global,
    receiver: Receiver<B, F, R>,
}

impl<B: Store + Drop, F: Store + Drop, R: Rule + Drop> Replaying<B, F, R> {
    // An answering with room for so many bytes. No answer needs more than 790, so a larger buffer is not made.
    #[tactic(auto, using(crate::proofs::Runs::any_state, crate::proofs::Runs::any_told, crate::proofs::Runs::any_refused, crate::proofs::Wrote::answer_wrote))]
    fn answer<'a>(&mut self, room: usize) -> Result<Event<'a>, Unlogged>
        ensures after { ⟦<Receiver<B, F, R> as Meaning>⟧.state self.new.receiver ≡ (⟦<Receiver<B, F, R> as Meaning>⟧.step self.old.receiver (answer_into room)).state }
        ensures event { LoggedAs (answer_into room) result (⟦<Receiver<B, F, R> as Meaning>⟧.step self.old.receiver (answer_into room)).event }
        ensures kept { Kept self.old.receiver self.new.receiver }
        ensures stores { WroteOn ⟦<B as StoreMeaning>⟧.memory ⟦<F as StoreMeaning>⟧.memory (items_of self.old.receiver) (R.Rule.finding self.old.receiver.rule) (⟦<Receiver<B, F, R> as Meaning>⟧.state self.old.receiver) (⟦<Receiver<B, F, R> as Meaning>⟧.step self.old.receiver (answer_into room)).event self.old.receiver.layers self.new.receiver.layers }
    {
        let mut buffer = [0u8; ANSWER_ROOM];
        let out = &mut buffer[0..room.min(ANSWER_ROOM)];
        let answered = self.receiver.answer(out)?;
        let written = Vec::from_slice(self.heap, &out[0..answered.length()])?;
        Ok(Event::Answered(Answering { answered, written }))
    }

    // Carries out a call, and makes its event. A refusal is passed on, and has none yet.
    #[tactic(auto, using(crate::proofs::Runs::look_keeps, crate::proofs::Wrote::take_wrote, crate::proofs::Wrote::look_wrote, crate::proofs::Wrote::restart_wrote))]
    fn carry_out<'a>(&mut self, call: Call<'a>) -> Result<Event<'a>, Unlogged>
        ensures after { ⟦<Receiver<B, F, R> as Meaning>⟧.state self.new.receiver ≡ (⟦<Receiver<B, F, R> as Meaning>⟧.step self.old.receiver (asking_of call.entry)).state }
        ensures event { LoggedAs (asking_of call.entry) result (⟦<Receiver<B, F, R> as Meaning>⟧.step self.old.receiver (asking_of call.entry)).event }
        ensures kept { Kept self.old.receiver self.new.receiver }
        ensures stores { WroteOn ⟦<B as StoreMeaning>⟧.memory ⟦<F as StoreMeaning>⟧.memory (items_of self.old.receiver) (R.Rule.finding self.old.receiver.rule) (⟦<Receiver<B, F, R> as Meaning>⟧.state self.old.receiver) (⟦<Receiver<B, F, R> as Meaning>⟧.step self.old.receiver (asking_of call.entry)).event self.old.receiver.layers self.new.receiver.layers }
    {
        match call {
            Call::Take(piece) => Ok(Event::Took(piece, self.receiver.take(piece)?)),
            Call::Answer(room) => self.answer(room),
            Call::Look(layer, key) => {
                Ok(Event::Looked(layer, key, self.receiver.look(layer, key)?))
            }
            Call::Restart(battery) => {
                Ok(Event::Restarted(battery, self.receiver.restart(battery)?))
            }
        }
    }

    // Carries out a call, and makes its event, that of a refusal too.
    fn log_call<'a>(&mut self, call: Call<'a>) -> Result<Event<'a>, AllocError>
        ensures after { ⟦<Receiver<B, F, R> as Meaning>⟧.state self.new.receiver ≡ (⟦<Receiver<B, F, R> as Meaning>⟧.step self.old.receiver (asking_of call.entry)).state }
        ensures event { IfOk result (λ e. event_of e ≡ (⟦<Receiver<B, F, R> as Meaning>⟧.step self.old.receiver (asking_of call.entry)).event) }
        ensures kept { Kept self.old.receiver self.new.receiver }
        ensures stores { WroteOn ⟦<B as StoreMeaning>⟧.memory ⟦<F as StoreMeaning>⟧.memory (items_of self.old.receiver) (R.Rule.finding self.old.receiver.rule) (⟦<Receiver<B, F, R> as Meaning>⟧.state self.old.receiver) (⟦<Receiver<B, F, R> as Meaning>⟧.step self.old.receiver (asking_of call.entry)).event self.old.receiver.layers self.new.receiver.layers }
    {
        // kept: a match in place of `or_else`, after which nothing is known of a refusal's event: tried. A closure that captures a call, which has
        // references, brings no promise
        match self.carry_out(call) {
            Ok(event) => Ok(event),
            Err(Unlogged::Refused(fault)) => Ok(Event::Refused(call, fault)),
            Err(Unlogged::NoMemory(error)) => Err(error),
        }
    }

    // All calls, in their order.
    #[tactic(auto, using(crate::proofs::Runs::run_all))]
    fn log_all<'a, W: Watch<B, F, R>>(
        mut self,
        calls: &[Call<'a>],
        watch: &mut W,
    ) -> Result<Replayed<'a, B, F, R>, AllocError>
        ensures log { IfOk result (λ x. run_of x.log.items (⟦<Receiver<B, F, R> as Meaning>⟧.state x.receiver) ≡ run_from (items_of self.receiver) (R.Rule.finding self.receiver.rule) (record { state = ⟦<Receiver<B, F, R> as Meaning>⟧.state self.receiver; history = [] }) (map asking_of calls.now)) }
        ensures seen { IfOk result (λ _. SeesFrom W.Watch.saw (items_of self.receiver) (R.Rule.finding self.receiver.rule) (⟦<Receiver<B, F, R> as Meaning>⟧.state self.receiver) (map asking_of calls.now) watch.old watch.new) }
        ensures kept { IfOk result (λ x. Kept self.receiver x.receiver) }
        ensures stores { IfOk result (λ x. WroteFrom ⟦<B as StoreMeaning>⟧.memory ⟦<F as StoreMeaning>⟧.memory (items_of self.receiver) (R.Rule.finding self.receiver.rule) (⟦<Receiver<B, F, R> as Meaning>⟧.state self.receiver) (map asking_of calls.now) self.receiver.layers x.receiver.layers) }
    {
        let mut log = Vec::new(self.heap);
        watch.see(&self.receiver)?;
        for call in calls {
            log.push(self.log_call(*call)?)?;
            watch.see(&self.receiver)?;
        }
        Ok(Replayed {
            log,
            receiver: self.receiver,
        })
    }
}

// Makes a receiver of the parts, carries out the calls one after the other, and logs what each was answered. Want of memory for the log is an
// ordinary error.
pub fn replay<'a, B: Store + Drop, F: Store + Drop, R: Rule + Drop>(
    heap: Global,
    entries: &[Entry],
    parts: Parts<B, F, R>,
    calls: &[Call<'a>],
) -> Result<Replayed<'a, B, F, R>, AllocError>
    ensures log { IfOk result (λ x. Replays (⟦<Parts<B, F, R> as PartsMeaning>⟧.with parts entries.now) (map asking_of calls.now) x.log.items (⟦<Receiver<B, F, R> as Meaning>⟧.state x.receiver)) }
    ensures parts { IfOk result (λ x. StandsOn (⟦<Parts<B, F, R> as PartsMeaning>⟧.with parts entries.now) parts.rule x.receiver) }
    ensures stores { IfOk result (λ x. WroteRun ⟦<B as StoreMeaning>⟧.memory ⟦<F as StoreMeaning>⟧.memory (⟦<Parts<B, F, R> as PartsMeaning>⟧.with parts entries.now) (map asking_of calls.now) parts.bbr parts.flash x.receiver.layers) }
{
    replay_watched(heap, entries, parts, calls, &mut Unwatched)
}

// The same, watched: before the first call and after each the receiver is lent for reading.
pub fn replay_watched<'a, B: Store + Drop, F: Store + Drop, R: Rule + Drop, W: Watch<B, F, R>>(
    heap: Global,
    entries: &[Entry],
    parts: Parts<B, F, R>,
    calls: &[Call<'a>],
    watch: &mut W,
) -> Result<Replayed<'a, B, F, R>, AllocError>
    ensures log { IfOk result (λ x. Replays (⟦<Parts<B, F, R> as PartsMeaning>⟧.with parts entries.now) (map asking_of calls.now) x.log.items (⟦<Receiver<B, F, R> as Meaning>⟧.state x.receiver)) }
    ensures seen { IfOk result (λ _. SeesRun W.Watch.saw (⟦<Parts<B, F, R> as PartsMeaning>⟧.with parts entries.now) (map asking_of calls.now) watch.old watch.new) }
    ensures parts { IfOk result (λ x. StandsOn (⟦<Parts<B, F, R> as PartsMeaning>⟧.with parts entries.now) parts.rule x.receiver) }
    ensures stores { IfOk result (λ x. WroteRun ⟦<B as StoreMeaning>⟧.memory ⟦<F as StoreMeaning>⟧.memory (⟦<Parts<B, F, R> as PartsMeaning>⟧.with parts entries.now) (map asking_of calls.now) parts.bbr parts.flash x.receiver.layers) }
{
    let receiver = Receiver::make(entries, parts);
    Replaying { heap, receiver }.log_all(calls, watch)
}

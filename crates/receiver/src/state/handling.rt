// Answering: the first frame in the held bytes is judged, carried out and told.
ghost use Rattle.std.specs.Prelude.{◌≡◌, ◌≤◌, length, Some};
ghost use Rattle.frame.specs.Scanning.{finding};
ghost use Rattle.frame.specs.Written.{in_front};
ghost use Rattle.request.specs.Changes.{slots_of};
ghost use Rattle.held.specs.Meaning.{bytes_held};
ghost use Rattle.reference.specs.Requests.{configuration_class};
ghost use Rattle.reference.specs.Receiver.{judged};
ghost use Rattle.receiver.specs.Plans.{Judged};
ghost use Rattle.reference.specs.Events.{answer_into, written_by};
ghost use Rattle.receiver.specs.First.{message_in, end_of, FirstIs};
ghost use Rattle.receiver.specs.State.{items_of, Kept, answer_event};
ghost use Rattle.receiver.specs.Small.{RefusedLeaves, NakLeaves, AllOrNone};
ghost use Rattle.receiver.specs.Stores.{judgement_on, WroteFor, WroteAnswer};
ghost use Rattle.receiver.specs.Handled.{handled_here, Answering, answering_of, length_of};

use super::Receiver;
use super::meaning::Meaning;
use crate::first::HeldFrame;
use crate::transaction::Granted;
use configuration::StoreMeaning;
use frame::HEADER;
use layer::Store;
use reference::{Answered, CallFault, Refusal, Telling, Verdict};
use request::{ItemChanges, Request, is_configuration};
use rule::Rule;

// The least room for an answer: the largest reply, and the verdict behind it.
pub const ANSWER_ROOM: usize = 790;

impl<B: Store, F: Store, R: Rule> Receiver<B, F, R> {
    // Judges a request that is held.
    fn judge_held(
        &self,
        frame: HeldFrame,
        items: &mut ItemChanges,
        out: &mut [u8; ANSWER_ROOM],
    ) -> Result<Granted, Refusal>
        requires class { frame.class ≡ configuration_class }
        requires fits { end_of frame ≤ length (bytes_held self.now.held) }
        ensures { Judged (items_of self.now) (slots_of items.new) out.old out.new (judged (items_of self.now) (R.Rule.finding self.now.rule) (⟦<Self as Meaning>⟧.state self.now) (message_in (bytes_held self.now.held) frame)) result }
    {
        let start = frame.noise + HEADER;
        let request = Request {
            id: frame.id,
            payload: &self.held.as_slice()[start..start + frame.length],
        };
        self.judge(&request, items, out)
    }

    // Handles a frame that is held: one of the configuration class is judged and carried out. Then it is dropped.
    fn handle(&mut self, frame: HeldFrame, out: &mut [u8; ANSWER_ROOM]) -> Telling
        requires fits { end_of frame ≤ length (bytes_held self.old.held) }
        ensures handling { Answering (handled_here (items_of self.old) (R.Rule.finding self.old.rule) (⟦<Self as Meaning>⟧.state self.old) frame) (⟦<Self as Meaning>⟧.state self.new) out.old out.new (record { noise = frame.noise; told = Some result }) }
        ensures kept { Kept self.old self.new }
        ensures stores { WroteFor ⟦<B as StoreMeaning>⟧.memory ⟦<F as StoreMeaning>⟧.memory (items_of self.old) (judgement_on (items_of self.old) (R.Rule.finding self.old.rule) (⟦<Self as Meaning>⟧.state self.old) (Some (message_in (bytes_held self.old.held) frame))) self.old.layers self.new.layers }
    {
        if !is_configuration(frame.class) {
            self.held.skip(frame.end());
            return frame.told(Verdict::Outside, 0);
        }
        self.cancel_other_kind(frame.id);
        let mut items = ItemChanges::none();
        let judged = self.judge_held(frame, &mut items, out);
        let telling = self.conclude(frame, judged, &items, out);
        self.held.skip(frame.end());
        telling
    }

    // Drops noise up to the first frame heard or undecided place, and handles at most that frame.
    fn answer_first(&mut self, out: &mut [u8; ANSWER_ROOM]) -> Answered
        ensures answering { Answering (answering_of (items_of self.old) (R.Rule.finding self.old.rule) (⟦<Self as Meaning>⟧.state self.old)) (⟦<Self as Meaning>⟧.state self.new) out.old out.new result }
        ensures kept { Kept self.old self.new }
        ensures stores { WroteFor ⟦<B as StoreMeaning>⟧.memory ⟦<F as StoreMeaning>⟧.memory (items_of self.old) (judgement_on (items_of self.old) (R.Rule.finding self.old.rule) (⟦<Self as Meaning>⟧.state self.old) (finding (bytes_held self.old.held)).message) self.old.layers self.new.layers }
    {
        match self.first() {
            Ok(frame) => {
                let telling = self.handle(frame, out);
                Answered {
                    noise: frame.noise,
                    told: Some(telling),
                }
            }
            Err(noise) => {
                self.held.skip(noise);
                Answered { noise, told: None }
            }
        }
    }

    // The first frame in the held bytes; else how much noise there is.
    fn first(&self) -> Result<HeldFrame, usize>
        ensures { FirstIs (bytes_held self.now.held) result }
    {
        HeldFrame::first_in(&self.held)
    }

    // Answers the first frame that is held, if it is whole: what it was, its verdict, and how many bytes were written at the start of the buffer.
    pub fn answer(&mut self, out: &mut [u8]) -> Result<Answered, CallFault>
        ensures after { ⟦<Self as Meaning>⟧.state self.new ≡ (⟦<Self as Meaning>⟧.step self.old (answer_into (length out.old))).state }
        ensures event { answer_event (length out.old) out.new result ≡ (⟦<Self as Meaning>⟧.step self.old (answer_into (length out.old))).event }
        ensures count { length_of result ≡ length (written_by (⟦<Self as Meaning>⟧.step self.old (answer_into (length out.old))).event) }
        ensures buffer { out.new ≡ in_front (written_by (⟦<Self as Meaning>⟧.step self.old (answer_into (length out.old))).event) out.old }
        ensures refused { RefusedLeaves result (⟦<Self as Meaning>⟧.state self.old) (⟦<Self as Meaning>⟧.state self.new) out.old out.new }
        ensures nak { NakLeaves result (⟦<Self as Meaning>⟧.state self.old) (⟦<Self as Meaning>⟧.state self.new) out.new }
        ensures all { AllOrNone (items_of self.old) (⟦<Self as Meaning>⟧.state self.old) (⟦<Self as Meaning>⟧.state self.new) }
        ensures kept { Kept self.old self.new }
        ensures stores { WroteAnswer ⟦<B as StoreMeaning>⟧.memory ⟦<F as StoreMeaning>⟧.memory (items_of self.old) (judgement_on (items_of self.old) (R.Rule.finding self.old.rule) (⟦<Self as Meaning>⟧.state self.old) (finding (⟦<Self as Meaning>⟧.state self.old).held_bytes).message) result self.old.layers self.new.layers }
    {
        self.check_open()?;
        let room = out
            .first_chunk_mut::<ANSWER_ROOM>()
            .ok_or(CallFault::BufferTooShort)?;
        Ok(self.answer_first(room))
    }
}

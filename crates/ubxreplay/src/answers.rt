// The lines that answer the commands.
use catalogue::CatalogueFault;
use journal::BLANK;
use layer::StoreFault;
use reference::{Call, CallFault, PartsFault, Refusal, Telling, Verdict};
use replay::{Answering, Event};
use std::fmt;

// What a store answers to a write that the script names.
#[derive(Clone, Copy)]
pub struct WriteLine {
    pub name: &'static str,
    pub answer: Result<(), StoreFault>,
}

impl fmt::Display for WriteLine {
    fn fmt<W: fmt::Write>(&self, f: &mut fmt::Formatter<W>) -> fmt::Result {
        let WriteLine { name, answer } = *self;
        match answer {
            Ok(()) => write!(f, "{name} ok"),
            Err(fault) => {
                let number = fault.number();
                write!(f, "{name} {number}")
            }
        }
    }
}

// The words of a journal up to its last that is not blank; none where the store is no journal.
#[derive(Clone, Copy)]
pub struct WordsLine<'a>(pub Option<&'a [u32]>);

impl<'a> fmt::Display for WordsLine<'a> {
    fn fmt<W: fmt::Write>(&self, f: &mut fmt::Formatter<W>) -> fmt::Result {
        let WordsLine(Some(words)) = *self else {
            return f.write_str("words none");
        };
        let shown = written_part(words);
        let count = shown.len();
        write!(f, "words {count}")?;
        for word in shown {
            write!(f, " {word:08x}")?;
        }
        Ok(())
    }
}

// The words without the blanks at their end.
pub fn written_part(words: &[u32]) -> &[u32] {
    let blanks = words
        .iter()
        .rev()
        .take_while(|word| **word == BLANK)
        .count();
    &words[..words.len() - blanks]
}

// Whether the parts were accepted.
#[derive(Clone, Copy)]
pub struct MakeLine(pub Result<(), PartsFault>);

impl fmt::Display for MakeLine {
    fn fmt<W: fmt::Write>(&self, f: &mut fmt::Formatter<W>) -> fmt::Result {
        let MakeLine(Err(fault)) = *self else {
            return f.write_str("make 0");
        };
        let number = fault.number();
        write!(f, "make {number}")?;
        match fault {
            PartsFault::Catalogue(CatalogueFault::EntryCount) => Ok(()),
            PartsFault::Catalogue(fault) => {
                let entry = fault.entry();
                write!(f, " entry {entry}")
            }
            PartsFault::BbrUnusable => Ok(()),
            PartsFault::StrayInBbr(key) => write!(f, " layer 1 key {key:08x}"),
            PartsFault::StrayInFlash(key) => write!(f, " layer 2 key {key:08x}"),
            PartsFault::DefaultsUnfit(item) => write!(f, " item {item}"),
        }
    }
}

// What the log has of a call.
#[derive(Clone, Copy)]
pub struct EventLine<'a, 'b>(pub &'a Event<'b>);

impl<'a, 'b> fmt::Display for EventLine<'a, 'b> {
    fn fmt<W: fmt::Write>(&self, f: &mut fmt::Formatter<W>) -> fmt::Result {
        match self.0 {
            Event::Took(_, count) => write!(f, "take {count}"),
            Event::Answered(answering) => show_answering(f, answering),
            Event::Looked(_, _, Some(value)) => write!(f, "look {value}"),
            Event::Looked(_, _, None) => f.write_str("look none"),
            Event::Restarted(_, None) => f.write_str("restart fit"),
            Event::Restarted(_, Some(item)) => write!(f, "restart item {item}"),
            Event::Refused(call, fault) => show_refused(f, call, *fault),
        }
    }
}

fn show_refused<W: fmt::Write>(
    f: &mut fmt::Formatter<W>,
    call: &Call<'_>,
    fault: CallFault,
) -> fmt::Result {
    let name = match call {
        Call::Take(_) => "take",
        Call::Answer(_) => "answer",
        Call::Look(_, _) => "look",
        Call::Restart(_) => "restart",
    };
    let number = fault.number();
    write!(f, "{name} refused {number}")
}

fn show_answering<W: fmt::Write>(f: &mut fmt::Formatter<W>, answering: &Answering) -> fmt::Result {
    let noise = answering.answered.noise;
    write!(f, "answer noise {noise} ")?;
    match &answering.answered.told {
        None => f.write_str("nothing"),
        Some(telling) => show_telling(f, telling, answering.written.as_slice()),
    }
}

fn show_telling<W: fmt::Write>(
    f: &mut fmt::Formatter<W>,
    telling: &Telling,
    written: &[u8],
) -> fmt::Result {
    let Telling {
        class,
        id,
        verdict,
        length: _,
    } = *telling;
    write!(f, "{class:02x} {id:02x} {verdict}")?;
    match verdict {
        Verdict::Outside => Ok(()),
        Verdict::Ack => show_written(f, written),
        Verdict::Nak(refusal) => {
            let number = refusal.number();
            let place = refusal.place();
            // the rule names an item, every other refusal a place in the payload
            let what = match refusal {
                Refusal::Unfit(_) => "item",
                _ => "place",
            };
            write!(f, " {number} {what} {place}")?;
            show_written(f, written)
        }
    }
}

fn show_written<W: fmt::Write>(f: &mut fmt::Formatter<W>, written: &[u8]) -> fmt::Result {
    let count = written.len();
    write!(f, " wrote {count}")?;
    for byte in written {
        write!(f, " {byte:02x}")?;
    }
    Ok(())
}

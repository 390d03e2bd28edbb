// What a script has come to: the set-up of a receiver and, behind its make, the lines that are answered when all of them are read.
use crate::answers::{EventLine, MakeLine, WordsLine, WriteLine};
use crate::office::Host;
use crate::said::{ErrorLine, Said};
use crate::seen::{SeenWords, Wanted};
use anyhow::Context;
use configuration::check;
use journal::inspect;
use layer::StoreFault;
use receiver::Parts;
use reference::Call;
use replay::{Event, replay_watched};
use rule::{Both, Need, Needs, Ranges};
use script::{Command, HostCommand, LineFault, OwnCall, Part, Place, Setup, read_line};
use std::alloc::{AllocError, Global};
use std::io::Write;
use std::{io, mem};

// A line behind make that is answered when all calls were carried out.
#[derive(Drop)]
enum Step {
    Call(OwnCall),
    // the words of a journal as they stand then
    Words(Place),
    // what hangs on no call
    Said(Said),
}

#[derive(Drop)]
pub struct Session<'a, W> {
    heap: Global,
    out: &'a mut W,
    // lent, since a host may have a transaction that may not be let go
    host: &'a mut Host,
    setup: Setup,
    // none before make
    steps: Option<Vec<Step>>,
}

impl<'a, W: Write> Session<'a, W> {
    pub fn new(heap: Global, out: &'a mut W, host: &'a mut Host) -> Session<'a, W> {
        Session {
            heap,
            out,
            host,
            setup: Setup::new(heap),
            steps: None,
        }
    }

    // Takes one line, by its number. What stands before make is answered at once.
    pub fn take_line(&mut self, number: usize, line: &str) -> anyhow::Result<()> {
        match read_line(self.heap, line) {
            Ok(None) => Ok(()),
            Ok(Some(command)) => self.obey(number, command),
            Err(LineFault::NoMemory) => Err(LineFault::NoMemory.into()),
            Err(fault) => self.refuse(number, fault),
        }
    }

    fn obey(&mut self, number: usize, command: Command) -> anyhow::Result<()> {
        match (command, &mut self.steps) {
            (Command::New, _) => self.begin_anew(),
            (Command::SetUp(part), None) => self.set_up(part),
            (Command::Make, None) => self.make(),
            (Command::Call(call), Some(steps)) => Ok(steps.push(Step::Call(call))?),
            (Command::Words(place), Some(steps)) => Ok(steps.push(Step::Words(place))?),
            (Command::Words(place), None) => self.tell_words(place),
            (Command::Inspect(words), _) => {
                let held = inspect(words.as_slice()).map(|held| held.count());
                self.say(Said::Inspected(held))
            }
            (Command::Read(bytes), _) => self.say(Said::Read(bytes)),
            (Command::Host(command), _) => self.obey_host(number, command),
            (Command::Call(_), None) => self.refuse(number, LineFault::CallBeforeMake),
            (_, Some(_)) => self.refuse(number, LineFault::SetUpAfterMake),
        }
    }

    // Forgets the receiver, its set-up and the host's transaction.
    fn begin_anew(&mut self) -> anyhow::Result<()> {
        match self.steps {
            Some(_) => self.finish()?,
            None => self.setup.begin_anew(self.heap),
        }
        self.host.forget();
        Ok(())
    }

    // A host does what it is told at once.
    fn obey_host(&mut self, number: usize, command: HostCommand) -> anyhow::Result<()> {
        match self.host.obey(self.heap, command) {
            Ok(line) => self.say(Said::Host(line)),
            Err(LineFault::NoMemory) => Err(LineFault::NoMemory.into()),
            Err(fault) => self.refuse(number, fault),
        }
    }

    fn refuse(&mut self, number: usize, fault: LineFault) -> anyhow::Result<()> {
        self.say(Said::Wrong(ErrorLine { number, fault }))
    }

    // Says what hangs on no call: at once before make, and in its place among the calls behind it.
    fn say(&mut self, said: Said) -> anyhow::Result<()> {
        match &mut self.steps {
            Some(steps) => steps.push(Step::Said(said))?,
            None => self.out.writeln(said)?,
        }
        Ok(())
    }

    // Before make a store stands in the set-up.
    fn tell_words(&mut self, place: Place) -> anyhow::Result<()> {
        let Setup { bbr, flash, .. } = &self.setup;
        let store = match place {
            Place::Bbr => bbr,
            Place::Flash => flash,
        };
        self.out.writeln(WordsLine(store.words()))?;
        Ok(())
    }

    fn set_up(&mut self, part: Part) -> anyhow::Result<()> {
        match part {
            Part::Entry(entry) => self.setup.add_entry(entry)?,
            Part::Need(need) => self.setup.add_need(need)?,
            Part::Store(place, choice) => self.setup.choose(place, choice),
            Part::Put(place, key, value) => {
                let answer = self.setup.put(place, key, value);
                self.tell_write("put", answer)?;
            }
            Part::Remove(place, key) => {
                let answer = self.setup.remove(place, key);
                self.tell_write("remove", answer)?;
            }
            Part::Clear(place) => {
                let answer = self.setup.clear(place);
                self.tell_write("clear", answer)?;
            }
        }
        Ok(())
    }

    fn tell_write(&mut self, name: &'static str, answer: Result<(), StoreFault>) -> io::Result<()> {
        self.out.writeln(WriteLine { name, answer })
    }

    fn make(&mut self) -> anyhow::Result<()> {
        self.steps = Some(Vec::new(self.heap));
        let Setup {
            entries,
            needs,
            bbr,
            flash,
        } = &self.setup;
        let checked = check(entries.as_slice(), bbr, flash, &rule_of(needs.as_slice()));
        self.out.writeln(MakeLine(checked))?;
        Ok(())
    }

    // Replays the calls behind make, and answers their lines; another set-up begins. Where there is no make, there is nothing to answer.
    pub fn finish(&mut self) -> anyhow::Result<()> {
        let Some(steps) = self.steps.take() else {
            return Ok(());
        };
        let setup = mem::replace(&mut self.setup, Setup::new(self.heap));
        answer_steps(self.heap, self.out, setup, steps.as_slice())
    }
}

// The values lie in their bounds, and each item has what it needs.
fn rule_of(needs: &[Need]) -> Both<Ranges, Needs> {
    Both {
        first: Ranges,
        second: Needs::new(needs),
    }
}

fn answer_steps<W: Write>(
    heap: Global,
    out: &mut W,
    setup: Setup,
    steps: &[Step],
) -> anyhow::Result<()> {
    let calls = calls_of(heap, steps)?;
    let wanted = wanted_of(heap, steps)?;
    let mut seen = SeenWords::new(heap, wanted.as_slice());
    let entries = setup.entries;
    let parts = Parts {
        rule: rule_of(setup.needs.as_slice()),
        bbr: setup.bbr,
        flash: setup.flash,
    };
    let replayed = replay_watched(heap, entries.as_slice(), parts, calls.as_slice(), &mut seen)?;
    print_steps(out, steps, replayed.log.as_slice(), seen.words())
}

// The calls among the steps.
fn calls_of<'a>(heap: Global, steps: &'a [Step]) -> Result<Vec<Call<'a>>, AllocError> {
    steps
        .iter()
        .filter_map(|step| match step {
            Step::Call(call) => Some(Call::from(call)),
            _ => None,
        })
        .collect(heap)
}

// Which words are to be shown, and after how many calls.
fn wanted_of(heap: Global, steps: &[Step]) -> Result<Vec<Wanted>, AllocError> {
    let mut wanted = Vec::new(heap);
    let mut calls = 0usize;
    for step in steps {
        match step {
            Step::Call(_) => calls = calls.saturating_add(1),
            Step::Words(place) => wanted.push(Wanted {
                calls,
                place: *place,
            })?,
            _ => {}
        }
    }
    Ok(wanted)
}

// The log has one event for each call, and the words that were seen are in the order of their lines.
fn print_steps<W: Write>(
    out: &mut W,
    steps: &[Step],
    log: &[Event<'_>],
    seen: &[Option<Vec<u32>>],
) -> anyhow::Result<()> {
    let mut events = log.iter();
    let mut words = seen.iter();
    for step in steps {
        match step {
            Step::Said(said) => out.writeln(said)?,
            Step::Call(_) => {
                let event = events.next().context("the log ends before the calls do")?;
                out.writeln(EventLine(event))?;
            }
            Step::Words(_) => {
                let seen = words.next().context("not all words were seen")?;
                out.writeln(WordsLine(seen.as_ref().map(|words| words.as_slice())))?;
            }
        }
    }
    Ok(())
}

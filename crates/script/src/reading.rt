// A line of a script, read into a command.
ghost use Rattle.std.specs.Prelude.{◌≡◌};
ghost use Rattle.script.specs.declared.command.Medium.TheVariants.{Words as Journal};
ghost use Rattle.script.specs.Words.{IsMade, ReadsAlone, ReadsBytes, ReadsGiven};
ghost use Rattle.script.specs.Parts.{ReadsPlace, ReadsPart, ReadsEntry, ReadsNeed, ReadsStore, ReadsMedium, ReadsPut, ReadsRemove, ReadsClear, ReadsBuffer};
ghost use Rattle.script.specs.Lines.{ReadsTake, ReadsAnswer, ReadsLook, ReadsRestart, ReadsShown, ReadsCommand, ReadsLine, ReadsWords};

use crate::command::{Choice, Command, Medium, OwnCall, Part, Place};
use crate::fault::LineFault;
use crate::field::{count_in, key_in, layer_in, read_entry, read_need, value_in};
use crate::host::read_host;
use crate::number::{read_byte, read_word};
use journal::BLANK;
use reference::Battery;
use std::alloc::Global;

const ENTRY: &str = "entry KEY KIND DEFAULT LOW HIGH";

const NEED: &str = "need ITEM ITEM";

const STORE: &str = "bbr|flash [saver] slots|absent|journal COUNT [WORD...]";

const PUT: &str = "put bbr|flash KEY VALUE";

const REMOVE: &str = "remove bbr|flash KEY";

const CLEAR: &str = "clear bbr|flash";

const ANSWER: &str = "answer SIZE";

const LOOK: &str = "look LAYER KEY";

const RESTART: &str = "restart kept|lost";

const INSPECT: &str = "inspect COUNT [WORD...]";

const WORDS: &str = "words bbr|flash";

// The most words of a buffer; a journal has fewer.
const MOST_WORDS: usize = 1 << 20;

const ALONE: &str = "no word behind new or make";

// The command of a line; none where the line is blank or its first word begins with #.
pub fn read_line(heap: Global, line: &str) -> Result<Option<Command>, LineFault>
    ensures { ReadsLine line.now result }
{
    let words: Vec<&str> = line.split_whitespace().collect(heap)?;
    read_words(heap, words.as_slice())
}

fn read_words(heap: Global, words: &[&str]) -> Result<Option<Command>, LineFault>
    ensures { ReadsWords words.now result }
{
    let [name, rest @ ..] = words else {
        return Ok(None);
    };
    if name.starts_with('#') {
        return Ok(None);
    }
    read_command(heap, name, rest).map(Some)
}

fn read_command(heap: Global, name: &str, words: &[&str]) -> Result<Command, LineFault>
    ensures { ReadsCommand name.now words.now result }
{
    match name {
        "new" => alone(words, Command::New),
        "make" => alone(words, Command::Make),
        "take" => taking(heap, words).map(Command::Call),
        "answer" => answering(words).map(Command::Call),
        "look" => looking(words).map(Command::Call),
        "restart" => restarting(words).map(Command::Call),
        "inspect" => buffer_in(heap, words, INSPECT).map(Command::Inspect),
        "words" => showing(words).map(Command::Words),
        "read" => bytes_in(heap, words).map(Command::Read),
        "hostset" | "hostdel" | "hostget" | "hostbegin" | "hostadd" | "hostapply" | "hostabandon" =>
            read_host(heap, name, words).map(Command::Host),
        _ => read_part(heap, name, words).map(Command::SetUp),
    }
}

fn alone(words: &[&str], command: Command) -> Result<Command, LineFault>
    ensures { ReadsAlone ALONE.now command words.now result }
{
    match words {
        [] => Ok(command),
        _ => Err(LineFault::Form(ALONE)),
    }
}

fn read_part(heap: Global, name: &str, words: &[&str]) -> Result<Part, LineFault>
    ensures { ReadsPart name.now words.now result }
{
    match name {
        "entry" => entry_in(words),
        "need" => need_in(words),
        "bbr" => store_in(heap, Place::Bbr, words),
        "flash" => store_in(heap, Place::Flash, words),
        "put" => put_in(words),
        "remove" => remove_in(words),
        "clear" => clear_in(words),
        _ => Err(LineFault::UnknownCommand),
    }
}

fn entry_in(words: &[&str]) -> Result<Part, LineFault>
    ensures { ReadsEntry words.now result }
{
    let [key, kind, default, low, high] = words else {
        return Err(LineFault::Form(ENTRY));
    };
    Ok(Part::Entry(read_entry(key, kind, default, low, high)?))
}

fn need_in(words: &[&str]) -> Result<Part, LineFault>
    ensures { ReadsNeed words.now result }
{
    let [first, second] = words else {
        return Err(LineFault::Form(NEED));
    };
    Ok(Part::Need(read_need(first, second)?))
}

fn store_in(heap: Global, place: Place, words: &[&str]) -> Result<Part, LineFault>
    ensures { ReadsStore place words.now result }
{
    let choice = match words {
        ["saver", under @ ..] => Choice::Saved(medium_in(heap, under)?),
        _ => Choice::Bare(medium_in(heap, words)?),
    };
    Ok(Part::Store(place, choice))
}

fn medium_in(heap: Global, words: &[&str]) -> Result<Medium, LineFault>
    ensures { ReadsMedium words.now result }
{
    match words {
        ["slots"] => Ok(Medium::Slots),
        ["absent"] => Ok(Medium::Absent),
        ["journal", buffer @ ..] => journal_in(heap, buffer),
        _ => Err(LineFault::Form(STORE)),
    }
}

fn journal_in(heap: Global, words: &[&str]) -> Result<Medium, LineFault>
    ensures { IsMade Journal (ReadsBuffer STORE.now words.now) result }
{
    buffer_in(heap, words, STORE).map(Medium::Words)
}

fn put_in(words: &[&str]) -> Result<Part, LineFault>
    ensures { ReadsPut words.now result }
{
    let [place, key, value] = words else {
        return Err(LineFault::Form(PUT));
    };
    Ok(Part::Put(place_in(place, PUT)?, key_in(key)?, value_in(value)?))
}

fn remove_in(words: &[&str]) -> Result<Part, LineFault>
    ensures { ReadsRemove words.now result }
{
    let [place, key] = words else {
        return Err(LineFault::Form(REMOVE));
    };
    Ok(Part::Remove(place_in(place, REMOVE)?, key_in(key)?))
}

fn clear_in(words: &[&str]) -> Result<Part, LineFault>
    ensures { ReadsClear words.now result }
{
    let [place] = words else {
        return Err(LineFault::Form(CLEAR));
    };
    Ok(Part::Clear(place_in(place, CLEAR)?))
}

fn taking(heap: Global, words: &[&str]) -> Result<OwnCall, LineFault>
    ensures { ReadsTake words.now result }
{
    bytes_in(heap, words).map(OwnCall::Take)
}

fn answering(words: &[&str]) -> Result<OwnCall, LineFault>
    ensures { ReadsAnswer words.now result }
{
    let [size] = words else {
        return Err(LineFault::Form(ANSWER));
    };
    Ok(OwnCall::Answer(count_in(size)?))
}

fn looking(words: &[&str]) -> Result<OwnCall, LineFault>
    ensures { ReadsLook words.now result }
{
    let [layer, key] = words else {
        return Err(LineFault::Form(LOOK));
    };
    Ok(OwnCall::Look(layer_in(layer)?, key_in(key)?))
}

fn restarting(words: &[&str]) -> Result<OwnCall, LineFault>
    ensures { ReadsRestart words.now result }
{
    match words {
        ["kept"] => Ok(OwnCall::Restart(Battery::Kept)),
        ["lost"] => Ok(OwnCall::Restart(Battery::Lost)),
        _ => Err(LineFault::Form(RESTART)),
    }
}

fn showing(words: &[&str]) -> Result<Place, LineFault>
    ensures { ReadsShown words.now result }
{
    let [place] = words else {
        return Err(LineFault::Form(WORDS));
    };
    place_in(place, WORDS)
}

// A buffer of as many words as the first number says: those that are given, as far as there is room, and blanks behind them.
fn buffer_in(heap: Global, words: &[&str], form: &'static str) -> Result<Vec<u32>, LineFault>
    ensures { ReadsBuffer form.now words.now result }
{
    let [count, given @ ..] = words else {
        return Err(LineFault::Form(form));
    };
    let count = count_in(count)?;
    if count > MOST_WORDS {
        return Err(LineFault::NoNumber(MOST_WORDS as u64));
    }
    let mut buffer = words_in(heap, given)?;
    buffer.resize(count, BLANK)?;
    Ok(buffer)
}

// A word of a journal for each word of the line.
fn words_in(heap: Global, words: &[&str]) -> Result<Vec<u32>, LineFault>
    ensures { ReadsGiven words.now result }
{
    let mut read = Vec::new(heap);
    for word in words {
        read.push(read_word(word).ok_or(LineFault::NoWord)?)?;
    }
    Ok(read)
}

// A byte for each word.
fn bytes_in(heap: Global, words: &[&str]) -> Result<Vec<u8>, LineFault>
    ensures { ReadsBytes words.now result }
{
    let mut bytes = Vec::new(heap);
    for word in words {
        bytes.push(read_byte(word).ok_or(LineFault::NoByte)?)?;
    }
    Ok(bytes)
}

fn place_in(word: &str, form: &'static str) -> Result<Place, LineFault>
    ensures { ReadsPlace form.now word.now (λ p. Ok p) result }
{
    match word {
        "bbr" => Ok(Place::Bbr),
        "flash" => Ok(Place::Flash),
        _ => Err(LineFault::Form(form)),
    }
}

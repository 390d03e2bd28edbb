// The four weeks: a change that is applied, one that is unfit, one that is abandoned, and one that does not outlast a restart.
use crate::board::{PORT, RATE};
use crate::story::Story;
use frame::MAX_FRAME;
use host::{Begun, SetTransaction, write_set};
use layer::Setting;
use std::alloc::Global;
use std::io::Write;

// RAM and Flash.
const LAYERS: u8 = 5;

const RAM: u8 = 1;

const RAM_AND_BBR: u8 = 3;

// How a transaction ends.
#[derive(Clone, Copy, PartialEq, Eq)]
enum End {
    Apply,
    Abandon,
}

// The four weeks, each on a board of its own.
pub fn tell_weeks<W: Write>(heap: Global, out: &mut W) -> anyhow::Result<()> {
    tell_applied(heap, out)?;
    out.writeln("")?;
    tell_ended(
        heap,
        out,
        "The week in which the rate is unfit\n",
        11,
        End::Apply,
    )?;
    out.writeln("")?;
    tell_ended(
        heap,
        out,
        "The week in which the change is abandoned\n",
        5,
        End::Abandon,
    )?;
    out.writeln("")?;
    tell_half_kept(heap, out)
}

fn tell_applied<W: Write>(heap: Global, out: &mut W) -> anyhow::Result<()> {
    let mut story = Story::new(heap, out)?;
    story.say("The week in which the change is applied\n")?;
    tell_transaction(&mut story, 5, End::Apply)?;
    tell_filing(&mut story)
}

fn tell_ended<W: Write>(
    heap: Global,
    out: &mut W,
    title: &str,
    rate: u64,
    end: End,
) -> anyhow::Result<()> {
    let mut story = Story::new(heap, out)?;
    story.say(title)?;
    tell_transaction(&mut story, rate, end)
}

// RAM alone is judged when a frame is answered, so BBR can get a rate without the port that it needs.
fn tell_half_kept<W: Write>(heap: Global, out: &mut W) -> anyhow::Result<()> {
    let mut story = Story::new(heap, out)?;
    story.say("The week in which BBR gets one half of the change\n")?;
    story.say("Monday: the office sets the port in RAM alone")?;
    let port = Setting {
        key: PORT,
        value: 1,
    };
    tell_set(&mut story, RAM, port)?;
    story.say("Tuesday: the office sets a rate in RAM and BBR")?;
    let rate = Setting {
        key: RATE,
        value: 5,
    };
    tell_set(&mut story, RAM_AND_BBR, rate)?;
    tell_filing(&mut story)
}

// A set that is no transaction.
fn tell_set<W: Write>(
    story: &mut Story<'_, W>,
    layers: u8,
    setting: Setting,
) -> anyhow::Result<()> {
    let mut buffer = [0u8; MAX_FRAME];
    let length = write_set(&mut buffer, layers, &[setting])?;
    story.pass(buffer.get(..length).unwrap_or(&[]))?;
    story.tell_layers()
}

// Monday to Wednesday: the office begins a transaction, adds to it, and ends it.
fn tell_transaction<W: Write>(story: &mut Story<'_, W>, rate: u64, end: End) -> anyhow::Result<()> {
    let port = Setting {
        key: PORT,
        value: 1,
    };
    let mut buffer = [0u8; MAX_FRAME];
    let Begun {
        length,
        mut transaction,
    } = match SetTransaction::begin(&mut buffer, LAYERS, &[port]) {
        Ok(begun) => begun,
        Err(fault) => return Err(fault.into()),
    };
    // a begun transaction has to end, so what fails on the way is told behind its end
    let queued = tell_queueing(
        story,
        &mut transaction,
        buffer.get(..length).unwrap_or(&[]),
        rate,
    );
    let last = match end {
        End::Apply => transaction.apply(),
        End::Abandon => transaction.abandon(),
    };
    queued?;
    story.say(match end {
        End::Apply => "Wednesday: the office applies it, and the whole is judged",
        End::Abandon => "Wednesday: the office abandons it",
    })?;
    story.pass(&last)?;
    story.tell_layers()
}

fn tell_queueing<W: Write>(
    story: &mut Story<'_, W>,
    transaction: &mut SetTransaction,
    first: &[u8],
    rate: u64,
) -> anyhow::Result<()> {
    story.say("Monday: the office begins a change of RAM and Flash, and the port is to be on")?;
    story.pass(first)?;
    story.tell_layers()?;
    story.say("Tuesday: the office adds a rate, which needs the port")?;
    let added = Setting {
        key: RATE,
        value: rate,
    };
    let mut buffer = [0u8; MAX_FRAME];
    let length = transaction.add(&mut buffer, &[added])?;
    story.pass(buffer.get(..length).unwrap_or(&[]))?;
    story.tell_layers()
}

// Thursday to Saturday: the logger files what is in force, the supply dips, and what is filed is compared.
fn tell_filing<W: Write>(story: &mut Story<'_, W>) -> anyhow::Result<()> {
    story.say("Thursday: the logger reads the whole configuration that is in force, and files it")?;
    let filed = story.file_configuration()?;
    story.say("Friday: the supply dips, and the board restarts")?;
    story.restart()?;
    story.tell_layers()?;
    story.say("Saturday: what is filed is compared with what is in force")?;
    story.compare(filed.as_slice())
}

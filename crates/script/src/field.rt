// The words behind a command, read into what they stand for.
ghost use Rattle.std.specs.Prelude.{◌≡◌};
ghost use Rattle.script.specs.Fields.{key_read, kind_read, value_read, count_read, layer_read, position_read, entry_read, need_read};

use crate::fault::LineFault;
use crate::number::{read_count, read_kind, read_layer, read_position, read_value, read_word};
use catalogue::{Entry, Kind};
use rule::Need;

// kept: the six differ in what is read and in what is said where it is none; `ok_or` is all that they share
pub(crate) fn key_in(word: &str) -> Result<u32, LineFault>
    ensures { result ≡ key_read word.now }
{
    read_word(word).ok_or(LineFault::NoKey)
}

pub(crate) fn value_in(word: &str) -> Result<u64, LineFault>
    ensures { result ≡ value_read word.now }
{
    read_value(word).ok_or(LineFault::NoNumber(u64::MAX))
}

fn kind_in(word: &str) -> Result<u8, LineFault>
    ensures { result ≡ kind_read word.now }
{
    read_kind(word).ok_or(LineFault::NoNumber(u8::MAX as u64))
}

pub(crate) fn position_in(word: &str) -> Result<u16, LineFault>
    ensures { result ≡ position_read word.now }
{
    read_position(word).ok_or(LineFault::NoNumber(u16::MAX as u64))
}

// A number of an item or of bytes. All of them from some number on mean the same, so any is taken.
pub(crate) fn count_in(word: &str) -> Result<usize, LineFault>
    ensures { result ≡ count_read word.now }
{
    read_count(word).ok_or(LineFault::NoCount)
}

// No layer has a number above 7, so those above 255 stand for one another.
pub(crate) fn layer_in(word: &str) -> Result<u8, LineFault>
    ensures { result ≡ layer_read word.now }
{
    read_layer(word).ok_or(LineFault::NoCount)
}

// An entry of the catalogue.
pub fn read_entry(
    key: &str,
    kind: &str,
    default: &str,
    low: &str,
    high: &str,
) -> Result<Entry, LineFault>
    ensures { result ≡ entry_read key.now kind.now default.now low.now high.now }
{
    let key = key_in(key)?;
    // a number that names no kind is taken: the check of the catalogue refuses its entry
    let kind = Kind::from(kind_in(kind)?);
    let default = value_in(default)?;
    let low = value_in(low)?;
    let high = value_in(high)?;
    Ok(Entry {
        key,
        kind,
        default,
        low,
        high,
    })
}

// A pair of the rule of needs.
pub fn read_need(first: &str, second: &str) -> Result<Need, LineFault>
    ensures { result ≡ need_read first.now second.now }
{
    let first = count_in(first)?;
    let second = count_in(second)?;
    Ok(Need { first, second })
}

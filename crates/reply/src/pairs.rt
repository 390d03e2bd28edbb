// The pairs of a values message, one after the other.
ghost use Rattle.std.specs.Prelude.{◌≡◌, ◌+◌, ◌<◌, ◌^◌, true, length, is_ok};
ghost use Rattle.reply.specs.Pairs.{pairs_read};
ghost use Rattle.reply.specs.Splits.{IsSplit};

use crate::fault::ReadFault;
use crate::pair::first_pair;
use layer::Setting;

// The bytes of pairs; each of them is whole, and its key well-formed.
#[derive(Clone, Copy, Debug)]
pub struct Pairs<'a> {
    bytes: &'a [u8],
    ghost whole: { is_ok (pairs_read 0 bytes.now) ≡ true },
}

impl<'a> Pairs<'a> {
    ghost use Rattle.reply.specs.Meaning.{pairs_of};

    // The pairs of these bytes, of which the first stands at a place of the input.
    pub(crate) fn read(bytes: &'a [u8], place: usize) -> Result<Pairs<'a>, ReadFault>
        requires { place + length bytes.now < 2 ^ 64 }
        ensures { pairs_of result ≡ pairs_read place bytes.now }
    {
        let mut at = 0;
        while at < bytes.len() {
            let Some(front) = first_pair(&bytes[at..]) else {
                return Err(ReadFault::BadPair(place + at));
            };
            at += front.size;
        }
        Ok(Pairs { bytes })
    }
}

// The first pair and the bytes behind it, of bytes that hold pairs alone.
fn split_first(bytes: &[u8]) -> Option<(Setting, &[u8])>
    requires { is_ok (pairs_read 0 bytes.now) ≡ true }
    ensures { IsSplit bytes.now result }
{
    let front = first_pair(bytes)?;
    Some((front.pair, &bytes[front.size..]))
}

impl<'a> Iterator for Pairs<'a> {
    ghost use Rattle.std.specs.Iterator.{YieldsFirst, item_count};
    ghost use Rattle.reply.specs.Meaning.{pairs_left};

    type Item = Setting;

    ghost next_gives = { YieldsFirst pairs_left };

    ghost remaining = { item_count pairs_left };

    // The next pair; none behind the last.
    fn next(&mut self) -> Option<Setting> {
        let (pair, rest) = split_first(self.bytes)?;
        self.bytes = rest;
        Some(pair)
    }
}

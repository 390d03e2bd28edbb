// Records: what a change of one setting writes.
ghost use Rattle.std.specs.Prelude.{◌≡◌};
ghost use Rattle.journal.specs.Words.{setting_words};

use crate::word::{head_word, part_word, parts_under};
use arrayvec::ArrayVec;

// The record of a change to what is held under a key.
#[derive(Clone, Copy)]
pub(crate) struct Record<'a> {
    pub key: u32,
    pub words: &'a [u32],
    // what of it stands behind the other settings where these are written anew: all of a setting's, nothing of a removal's
    pub lasting: &'a [u32],
}

// The words of a setting: its first word, then its value's parts, the low part first.
#[tactic(auto, using(crate::proofs::Records::setting_parts))]
pub(crate) fn setting_record(key: u32, value: u64) -> ArrayVec<u32, 5>
    ensures { result.items ≡ setting_words key value }
{
    let mut record = ArrayVec::from([
        head_word(key),
        part_word(value),
        part_word(value / 0x1_0000),
        part_word(value / 0x1_0000_0000),
        part_word(value / 0x1_0000_0000_0000),
    ]);
    record.truncate(1 + parts_under(key));
    record
}

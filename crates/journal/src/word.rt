// The words of a journal. Bits 31..30 are a word's kind; the others are a key's fields, a part of a value, or all ones.
ghost use Rattle.std.specs.Prelude.{◌≡◌, ◌^◌, ◌<◌, true, IfSome};
ghost use Rattle.item.specs.Keys.{well_formed};
ghost use Rattle.journal.specs.Words.{kind_of, key_named, part_carried, parts_under, head_word, removal_word, part_word};

use item::{Size, is_well_formed, size_of};

// A word that was never programmed, or was cleared.
pub const BLANK: u32 = 0xffff_ffff;

// How few and how many words a journal may have. A setting takes at most 5, so the fewest hold 128 settings whatever their sizes.
pub const MIN_WORDS: usize = 640;

pub const MAX_WORDS: usize = 16_384;

#[derive(Clone, Copy, PartialEq, Eq, Debug)]
pub(crate) enum Kind {
    // begins a setting
    Head,
    // a part of its value
    Part,
    // takes a setting away
    Removal,
    Blank,
}

impl Kind {
    pub(crate) fn of(word: u32) -> Kind
        ensures { result ≡ kind_of word }
    {
        match word / 0x4000_0000 {
            0 => Kind::Head,
            1 => Kind::Part,
            2 => Kind::Removal,
            _ => Kind::Blank,
        }
    }
}

// The key that a setting's first word or a removal names: its size in bits 22..20, group in 19..12, item in 11..0. None where bits 29..23 are not
// zero or the key is ill-formed.
pub(crate) fn key_named(word: u32) -> Option<u32>
    ensures value { result ≡ key_named word }
    ensures formed { IfSome result (λ key. well_formed key ≡ true) }
{
    let size = word / 0x10_0000 % 8;
    let group = word / 0x1000 % 256;
    let item = word % 0x1000;
    let key = size * 0x1000_0000 + group * 0x1_0000 + item;
    (word / 0x80_0000 % 128 == 0 && is_well_formed(key)).then_some(key)
}

// The part of a value in bits 15..0. None where bits 29..16 are not zero.
pub(crate) fn part_carried(word: u32) -> Option<u32>
    ensures value { result ≡ part_carried word }
    ensures small { IfSome result (λ part. part < 2 ^ 16) }
{
    (word / 0x1_0000 % 0x4000 == 0).then_some(word % 0x1_0000)
}

// How many parts the values under a key have; none where its size is 0, 6 or 7.
pub(crate) fn parts_under(key: u32) -> usize
    ensures { result ≡ parts_under key }
{
    match size_of(key) {
        Some(Size::Bit | Size::One | Size::Two) => 1,
        Some(Size::Four) => 2,
        Some(Size::Eight) => 4,
        None => 0,
    }
}

// The first word of a setting under a key.
pub(crate) fn head_word(key: u32) -> u32
    ensures { result ≡ head_word key }
{
    let size = key / 0x1000_0000 % 8;
    let group = key / 0x1_0000 % 256;
    size * 0x10_0000 + group * 0x1000 + key % 0x1000
}

// The word that takes away what is held under a key.
pub(crate) fn removal_word(key: u32) -> u32
    ensures { result ≡ removal_word key }
{
    0x8000_0000 + head_word(key)
}

// The word of a part: 16 bits of a value.
pub(crate) fn part_word(value: u64) -> u32
    ensures { result ≡ part_word value }
{
    0x4000_0000 + (value % 0x1_0000) as u32
}

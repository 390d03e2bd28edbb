// Keys: a size in bits 30..28, a group in bits 23..16, an item in bits 11..0, and zeros elsewhere.
ghost use Rattle.std.specs.Prelude.{◌≡◌};
ghost use Rattle.item.specs.Keys.{size_of, width_of, fits, group_of, well_formed, fits_key};

// The size of a value: one bit, or 1, 2, 4 or 8 bytes; in a key 1 to 5.
#[derive(Clone, Copy, PartialEq, Eq, Debug)]
pub enum Size {
    Bit,
    One,
    Two,
    Four,
    Eight,
}

impl Size {
    // How many bytes a value of this size takes; a bit has a byte to itself.
    pub fn width(self) -> usize
        ensures { result ≡ width_of self }
    {
        match self {
            Size::Bit => 1,
            Size::One => 1,
            Size::Two => 2,
            Size::Four => 4,
            Size::Eight => 8,
        }
    }

    // Whether a number is a value of this size.
    pub fn fits(self, value: u64) -> bool
        ensures { result ≡ fits self value }
    {
        match self {
            Size::Bit => value < 2,
            Size::One => value < 0x100,
            Size::Two => value < 0x1_0000,
            Size::Four => value < 0x1_0000_0000,
            Size::Eight => true,
        }
    }
}

// The size of the values under a key, whatever its other bits; none where the size is 0, 6 or 7.
pub fn size_of(key: u32) -> Option<Size>
    ensures { result ≡ size_of key }
{
    match key / 0x1000_0000 % 8 {
        1 => Some(Size::Bit),
        2 => Some(Size::One),
        3 => Some(Size::Two),
        4 => Some(Size::Four),
        5 => Some(Size::Eight),
        _ => None,
    }
}

// The group of a key.
pub(crate) fn group_of(key: u32) -> u8
    ensures { result ≡ group_of key }
{
    (key / 0x1_0000 % 256) as u8
}

// Whether a number is a key: its size is one, its group is 01 to fe, its item is 001 to ffe, and its other bits are zero.
pub fn is_well_formed(key: u32) -> bool
    ensures { result ≡ well_formed key }
{
    let size = key / 0x1000_0000 % 8;
    let group = key / 0x1_0000 % 256;
    let item = key % 0x1000;
    (1..=5).contains(&size)
        && (1..=0xfe).contains(&group)
        && (1..=0xffe).contains(&item)
        && key == size * 0x1000_0000 + group * 0x1_0000 + item
}

// Whether a number is a value of the size that a key has.
pub fn fits_key(key: u32, value: u64) -> bool
    ensures { result ≡ fits_key key value }
{
    size_of(key).is_some_and(|size| size.fits(value))
}

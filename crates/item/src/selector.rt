// Numbers of the wire that name items: a key names one, a selector a group's items or all.
ghost use Rattle.std.specs.Prelude.{◌≡◌, true};
ghost use Rattle.item.specs.Keys.{well_formed};
ghost use Rattle.item.specs.Selectors.{selector_of, names};
ghost use Rattle.item.specs.declared.selector.Selector.TheVariants.{Key};

use crate::key::group_of;

// What a number of the wire names.
#[derive(Clone, Copy, PartialEq, Eq, Debug)]
pub enum Selector {
    // every item
    All,
    // the items of a group
    Group(u8),
    // the item with this key, if there is one
    Key(u32),
}

impl From<u32> for Selector {
    ghost from_gives = { λ number named. named ≡ selector_of number };

    // What a number names: all items if bits 27..16 are all ones; else a group's items if bits 15..0 are all ones and bits 27..24 are zero;
    // else the item whose key it is. Bits 31..28 of a selector are not read.
    fn from(number: u32) -> Selector
        ensures value { result ≡ selector_of number }
        ensures apart { well_formed number ≡ true → result ≡ Key number }
    {
        if number / 0x1_0000 % 0x1000 == 0xfff {
            return Selector::All;
        }
        if number % 0x1_0000 == 0xffff && number / 0x100_0000 % 16 == 0 {
            return Selector::Group(group_of(number));
        }
        Selector::Key(number)
    }
}

impl Selector {
    // Whether it names the item with this key.
    pub fn names(self, key: u32) -> bool
        ensures { result ≡ names self key }
    {
        match self {
            Selector::All => true,
            Selector::Group(group) => group == group_of(key),
            Selector::Key(named) => named == key,
        }
    }
}

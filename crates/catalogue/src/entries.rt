// The catalogue: which items there are, with their defaults and bounds. It is a lent slice of entries; an item's number is its entry's place.
ghost use Rattle.std.specs.Prelude.{◌≡◌, ◌<◌, length, IfSome, OnOk, Some};
ghost use Rattle.item.specs.Selectors.{selector_of};
ghost use Rattle.catalogue.specs.Catalogues.{signed_at_most, at_most, allows, kind_suits, read_fits, entry_checked, entries_checked, catalogue_checked, fault_number, fault_entry, OnlyOnce, Accepted, FirstWith, NextNamed, FirstNamed};
ghost use Rattle.catalogue.specs.Texts.{catalogue_fault_text};

use crate::kind::Kind;
use item::{Selector, Size, fits_key, is_well_formed, size_of};
use std::error::Error;
use std::fmt;

// The most entries of a catalogue.
pub const MAX_ITEMS: usize = 128;

// One item: its key, its kind, and its default, least and greatest value, as the unsigned numbers of their bytes.
#[derive(Clone, Copy, PartialEq, Eq, Default, Debug)]
pub struct Entry {
    pub key: u32,
    pub kind: Kind,
    pub default: u64,
    pub low: u64,
    pub high: u64,
}

// Why a catalogue is refused, with the place of the first entry at fault where there is one.
#[derive(Clone, Copy, PartialEq, Eq, Debug)]
pub enum CatalogueFault {
    // none, or more than 128
    EntryCount,
    IllFormedKey(usize),
    // a key that is not above the one before it
    OutOfOrder(usize),
    // a kind that there is not or that does not suit the size, a value that does not fit the size, or a default out of bounds
    Unsound(usize),
}

impl fmt::Display for CatalogueFault {
    ghost output = { λ fault. Some (catalogue_fault_text fault) };

    fn fmt<W: fmt::Write>(&self, f: &mut fmt::Formatter<W>) -> fmt::Result {
        let entry = self.entry();
        match self {
            CatalogueFault::EntryCount => f.write_str("a catalogue has 1 to 128 entries"),
            CatalogueFault::IllFormedKey(_) => write!(f, "entry {entry}: the key is ill-formed"),
            CatalogueFault::OutOfOrder(_) => write!(
                f,
                "entry {entry}: the key is not above the one before it"
            ),
            CatalogueFault::Unsound(_) => write!(
                f,
                "entry {entry}: the kind, a value or the default's bounds are wrong"
            ),
        }
    }
}

impl Error for CatalogueFault {}

impl CatalogueFault {
    // The refusal's number.
    pub fn number(self) -> u8
        ensures { result ≡ fault_number self }
    {
        match self {
            CatalogueFault::EntryCount => 1,
            CatalogueFault::IllFormedKey(_) => 2,
            CatalogueFault::OutOfOrder(_) => 3,
            CatalogueFault::Unsound(_) => 4,
        }
    }

    // The entry at fault; 0 where it is none in particular.
    // kept: public, and promises 0 where no entry is at fault; an Option would promise something else
    pub fn entry(self) -> usize
        ensures { result ≡ fault_entry self }
    {
        match self {
            CatalogueFault::EntryCount => 0,
            CatalogueFault::IllFormedKey(place) => place,
            CatalogueFault::OutOfOrder(place) => place,
            CatalogueFault::Unsound(place) => place,
        }
    }
}

// Whether a is at most b in two's complement of a size.
fn signed_at_most(size: Size, a: u64, b: u64) -> bool
    ensures { result ≡ signed_at_most size a b }
{
    let half = match size {
        Size::Bit => 1,
        Size::One => 0x80,
        Size::Two => 0x8000,
        Size::Four => 0x8000_0000,
        Size::Eight => 0x8000_0000_0000_0000u64,
    };
    if a >= half {
        b < half || a <= b
    } else {
        b < half && a <= b
    }
}

impl Entry {
    // Whether a is at most b in the order of the entry's kind.
    fn at_most(&self, a: u64, b: u64) -> bool
        ensures { result ≡ at_most self.now a b }
    {
        match self.kind {
            Kind::Signed => match size_of(self.key) {
                Some(size) => signed_at_most(size, a, b),
                None => a <= b,
            },
            _ => a <= b,
        }
    }

    // Whether a value is within the entry's bounds.
    pub fn allows(&self, value: u64) -> bool
        ensures { result ≡ allows self.now value }
    {
        matches!(self.kind, Kind::Bits)
            || (self.at_most(self.low, value) && self.at_most(value, self.high))
    }

    // Whether the kind suits the size.
    fn kind_suits(&self) -> bool
        ensures { result ≡ kind_suits self.now }
    {
        match self.kind {
            Kind::Unsigned | Kind::Bits => true,
            Kind::Signed => size_of(self.key) != Some(Size::Bit),
            Kind::Unknown(_) => false,
        }
    }

    // Whether all values that are read fit the size.
    fn read_fits(&self) -> bool
        ensures { result ≡ read_fits self.now }
    {
        fits_key(self.key, self.default)
            && (self.kind == Kind::Bits
                || (fits_key(self.key, self.low) && fits_key(self.key, self.high)))
    }

    // The check of the entry at its place, behind an entry with the key `below`: the first thing wrong with it.
    fn check(&self, place: usize, below: u32) -> Result<(), CatalogueFault>
        ensures { result ≡ entry_checked place below self.now }
    {
        if !is_well_formed(self.key) {
            return Err(CatalogueFault::IllFormedKey(place));
        }
        if self.key <= below {
            return Err(CatalogueFault::OutOfOrder(place));
        }
        if self.kind_suits() && self.read_fits() && self.allows(self.default) {
            return Ok(());
        }
        Err(CatalogueFault::Unsound(place))
    }
}

// The check of the entries, whatever their number.
fn check_entries(entries: &[Entry]) -> Result<(), CatalogueFault>
    ensures value { result ≡ entries_checked 0 0 entries.now }
    ensures listed { OnOk result (OnlyOnce entries.now) }
{
    let mut below = 0;
    for (place, entry) in entries.iter().enumerate() {
        entry.check(place, below)?;
        below = entry.key;
    }
    Ok(())
}

// The check of a catalogue: 1 to 128 entries in strictly ascending key order, each with a well-formed key, a kind that suits its size, values
// that fit and a default within its bounds.
pub fn check_catalogue(entries: &[Entry]) -> Result<(), CatalogueFault>
    ensures value { result ≡ catalogue_checked entries.now }
    ensures accepted { OnOk result (Accepted entries.now) }
{
    if entries.is_empty() || entries.len() > MAX_ITEMS {
        return Err(CatalogueFault::EntryCount);
    }
    check_entries(entries)
}

// The number of the item with this key: its first place in the catalogue.
pub fn find_item(entries: &[Entry], key: u32) -> Option<usize>
    ensures { FirstWith key entries.now result }
{
    entries.iter().position(|entry| entry.key == key)
}

// The first of these entries that a selector names.
fn first_named(entries: &[Entry], selector: Selector) -> Option<usize>
    ensures within { IfSome result (λ place. place < length entries.now) }
    ensures first { FirstNamed selector 0 entries.now result }
{
    entries.iter().position(|entry| selector.names(entry.key))
}

// The first item from a place on that a selector names.
fn seek_named(entries: &[Entry], selector: Selector, from: usize) -> Option<usize>
    ensures next { NextNamed selector from entries.now result }
    ensures first { FirstNamed selector from entries.now result }
{
    let passed = first_named(entries.get(from..)?, selector)?;
    Some(from + passed)
}

// The first item from a place on that a number of the wire names; with the place behind the one before, one after the other in ascending order.
pub fn next_named(entries: &[Entry], number: u32, from: usize) -> Option<usize>
    ensures next { NextNamed (selector_of number) from entries.now result }
    ensures first { FirstNamed (selector_of number) from entries.now result }
{
    seek_named(entries, Selector::from(number), from)
}

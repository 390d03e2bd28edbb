// The commands of a script, each with its arguments.
ghost use Rattle.std.specs.Prelude.{◌≡◌};
ghost use Rattle.reference.specs.Events.{asking_of};
ghost use Rattle.script.specs.Calls.{own_asking};

use crate::host::HostCommand;
use catalogue::Entry;
use reference::{Battery, Call};
use rule::Need;

// The two stores that a script sets up.
#[derive(Clone, Copy, PartialEq, Eq, Debug)]
pub enum Place {
    Bbr,
    Flash,
}

// An empty table of slots, nothing at all, or a journal on these words.
#[derive(Drop, PartialEq, Eq, Debug)]
pub enum Medium {
    Slots,
    Absent,
    Words(Vec<u32>),
}

// What stands at a place: a medium, bare or under a saver.
#[derive(Drop, PartialEq, Eq, Debug)]
pub enum Choice {
    Bare(Medium),
    Saved(Medium),
}

// Of what a receiver is to be made.
#[derive(Drop)]
pub enum Part {
    Entry(Entry),
    Need(Need),
    Store(Place, Choice),
    Put(Place, u32, u64),
    Remove(Place, u32),
    Clear(Place),
}

// A call of a receiver. It has the bytes of its piece.
// kept: a `Call` of the reference lends its bytes, and the definitions name it; a call of a script owns them until all lines are read. One type for
// both would carry a parameter for its bytes to every place that names a call
#[derive(Drop)]
pub enum OwnCall {
    Take(Vec<u8>),
    Answer(usize),
    Look(u8, u32),
    Restart(Battery),
}

// The call, with its bytes lent.
impl<'a> From<&'a OwnCall> for Call<'a> {
    ghost from_gives = { λ own call. asking_of call ≡ own_asking own.now };

    fn from(own: &'a OwnCall) -> Call<'a> {
        match own {
            OwnCall::Take(bytes) => Call::Take(bytes.as_slice()),
            OwnCall::Answer(size) => Call::Answer(*size),
            OwnCall::Look(layer, key) => Call::Look(*layer, *key),
            OwnCall::Restart(battery) => Call::Restart(*battery),
        }
    }
}

#[derive(Drop)]
pub enum Command {
    // forgets all, and set-up begins again
    New,
    SetUp(Part),
    Make,
    Call(OwnCall),
    // inspects a buffer of words; it may stand anywhere
    Inspect(Vec<u32>),
    // shows the words of the journal at a place; it may stand anywhere
    Words(Place),
    // what a receiver sent is to be read
    Read(Vec<u8>),
    Host(HostCommand),
}

// What becomes of each item: a slot for each item of a catalogue, at its place; an item that stays as it is has none in its slot. Whatever number of
// frames join a transaction, this is all that is kept of them.
ghost use Rattle.std.specs.Prelude.{◌≡◌, length};

pub mod calls;

// Whether an item changes, and how.
#[derive(Clone, Copy)]
enum Outcome {
    Stays,
    Put,
    Remove,
}

#[derive(Clone, Copy)]
pub struct ItemChanges {
    // kept: fixed memory, since a receiver has no heap once it is made; two arrays, since nine bytes for each item are cleared and copied in a third of
    // the time that an Option of a change takes, which has 24
    outcomes: [Outcome; 128],
    // the value that is put; of an item that has none here, any number
    values: [u64; 128],
    ghost outcomes_whole: { length outcomes ≡ 128 },
    ghost values_whole: { length values ≡ 128 },
}

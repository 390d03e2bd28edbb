// A setting that has begun and waits for parts of its value.
ghost use Rattle.std.specs.Prelude.{◌≡◌, ◌*◌, ◌^◌, ◌<◌, true};
ghost use Rattle.item.specs.Keys.{well_formed};
ghost use Rattle.journal.specs.Words.{parts_under};

pub mod calls;

#[derive(Clone, Copy)]
pub struct Open {
    // the place of its first word
    head: usize,
    key: u32,
    // the value of the parts that have come, and how many these are
    value: u64,
    parts: usize,
    ghost formed: { well_formed key ≡ true },
    ghost waiting: { parts < parts_under key },
    ghost small: { value < 2 ^ (16 * parts) },
}

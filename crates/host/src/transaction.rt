// A begun transaction of the host. It is a few plain numbers that move from call to call, and no value of its type may be let go: who has one must
// apply or abandon it, else the program is refused. Since no other call makes one, nothing can be added where none is begun.
ghost use Rattle.std.specs.Prelude.{◌≡◌, true};
ghost use Rattle.host.specs.Refusals.{set_names, delete_names};

pub mod calls;

// One of sets: pairs of key and value are added to it.
// kept: not `Drop`, so that it cannot be forgotten
pub struct SetTransaction {
    layers: u8,
    ghost named: { set_names layers ≡ true },
}

// One of deletes: keys and selectors are added to it.
// kept: not `Drop`, so that it cannot be forgotten
pub struct DeleteTransaction {
    layers: u8,
    ghost named: { delete_names layers ≡ true },
}

// Why a call has no event of its own: it was refused, or there was no memory for one.
ghost use Rattle.std.specs.Prelude.{◌≡◌};
ghost use Rattle.replay.specs.declared.unlogged.Unlogged.TheVariants.{Refused, NoMemory};

use reference::CallFault;
use std::alloc::AllocError;

#[derive(Drop)]
pub(crate) enum Unlogged {
    Refused(CallFault),
    NoMemory(AllocError),
}

impl From<CallFault> for Unlogged {
    ghost from_gives = { λ fault unlogged. unlogged ≡ Refused fault };

    fn from(fault: CallFault) -> Unlogged {
        Unlogged::Refused(fault)
    }
}

impl From<AllocError> for Unlogged {
    ghost from_gives = { λ error unlogged. unlogged ≡ NoMemory error };

    fn from(error: AllocError) -> Unlogged {
        Unlogged::NoMemory(error)
    }
}

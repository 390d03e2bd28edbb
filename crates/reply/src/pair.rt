// The pair at the front of some bytes.
ghost use Rattle.std.specs.Prelude.{◌≡◌};
ghost use Rattle.reply.specs.Meaning.{IsFront};

use item::{is_well_formed, read_value, size_of};
use layer::Setting;
use request::{KEY_BYTES, key_at};

// A pair, and how many bytes it has.
#[derive(Clone, Copy)]
pub(crate) struct Front {
    pub(crate) pair: Setting,
    pub(crate) size: usize,
}

// The pair at the front; none where its key is ill-formed or the bytes end inside it.
#[tactic(auto, using(crate::proofs::Fronts::no_key, crate::proofs::Fronts::ill_formed, crate::proofs::Fronts::cut))]
pub(crate) fn first_pair(bytes: &[u8]) -> Option<Front>
    ensures { IsFront bytes.now result }
{
    let key = key_at(bytes)?;
    if !is_well_formed(key) {
        return None;
    }
    let size = size_of(key)?;
    let value = read_value(size, &bytes[KEY_BYTES..])?;
    Some(Front {
        pair: Setting { key, value },
        size: KEY_BYTES + size.width(),
    })
}

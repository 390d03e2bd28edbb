// A catalogue of one's own: a copy of the entries that were checked, for a receiver that outlives the caller's slice.
ghost use Rattle.std.specs.Prelude.{◌≡◌, ◌≤◌, true, is_ok};
ghost use Rattle.arrayvec.specs.ArrayVec.{array_vec_len};
ghost use Rattle.catalogue.specs.Catalogues.{entries_checked};

use crate::entries::Entry;
use arrayvec::ArrayVec;

pub mod calls;

#[derive(Drop)]
pub struct Catalogue {
    entries: ArrayVec<Entry, 128>,
    ghost few: { array_vec_len entries ≤ 128 },
    ghost checked: { is_ok (entries_checked 0 0 entries.items) ≡ true },
}

// The keys and selectors of a get, one entry after the other.
ghost use Rattle.std.specs.Prelude.{◌≡◌, ◌<◌, ◌≤◌, length, drop};
ghost use Rattle.catalogue.specs.Owned.{entries_of};
ghost use Rattle.reference.specs.Requests.{ok_map, keys_of};
ghost use Rattle.page.specs.Walks.{nothing, EntryRead};

use catalogue::{Catalogue, next_named};
use reference::Refusal;
use request::{HEAD, KEY_BYTES, MAX_ENTRIES, key_at};

// The key or selector of an entry with so many others before it.
#[tactic(auto, using(crate::proofs::Walks::entry_many, crate::proofs::Walks::entry_cut, crate::proofs::Walks::entry_unknown))]
pub(crate) fn number_in(catalogue: &Catalogue, entry: &[u8], before: usize) -> Result<u32, Refusal>
    requires { before ≤ 64 }
    ensures { EntryRead (entries_of catalogue.now) before entry.now result }
{
    let place = HEAD + KEY_BYTES * before;
    if before == MAX_ENTRIES {
        return Err(Refusal::TooManyEntries(place));
    }
    let number = key_at(entry).ok_or(Refusal::CutEntry(place))?;
    next_named(catalogue.entries(), number, 0).ok_or(Refusal::UnknownKey(place))?;
    Ok(number)
}

// The bytes of a get's entries: all that stand behind its head.
fn entries_in(payload: &[u8]) -> &[u8]
    ensures { result.now ≡ drop 4 payload.now }
{
    &payload[HEAD.min(payload.len())..]
}

// The check of a get's keys and selectors: at most 64 from byte 4 on, each whole, each naming an item of the catalogue.
#[tactic(auto, using(crate::proofs::Walks::keys_start, crate::proofs::Walks::keys_end))]
pub fn check_keys(catalogue: &Catalogue, payload: &[u8]) -> Result<(), Refusal>
    ensures { result ≡ ok_map nothing (keys_of (entries_of catalogue.now) payload.now) }
{
    // kept: this walk and that of a page's draft are one `for` over the library's pieces each; a closure that adds what is named, or not, is no shorter
    for (before, entry) in entries_in(payload).chunks(KEY_BYTES).enumerate() {
        number_in(catalogue, entry, before)?;
    }
    Ok(())
}

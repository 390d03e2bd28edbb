// The check of the parts of a receiver.
ghost use Rattle.std.specs.Prelude.{◌≡◌};
ghost use Rattle.catalogue.specs.Owned.{entries_of};
ghost use Rattle.reference.specs.Parts.{parts_of, parts_checked, unless_faulty};
ghost use Rattle.configuration.specs.Checking.{fault_behind};

use crate::judging::fault_in;
use crate::meaning::StoreMeaning;
use crate::straying::stray_key;
use catalogue::{Catalogue, Entry};
use layer::{Absent, Layer, Store};
use reference::PartsFault;
use rule::Rule;

// The check behind that of the catalogue. A place which is not there gives the defaults.
#[tactic(auto, using(crate::proofs::Rows::defaults_configured))]
fn check_behind<B: Store, F: Store, R: Rule>(
    catalogue: &Catalogue,
    bbr: &B,
    flash: &F,
    rule: &R,
) -> Result<(), PartsFault>
    ensures { result ≡ unless_faulty (fault_behind (parts_of (entries_of catalogue.now) (R.Rule.finding rule.now) (⟦<B as StoreMeaning>⟧.store bbr.now) (⟦<F as StoreMeaning>⟧.store flash.now))) }
{
    if !bbr.is_usable() {
        return Err(PartsFault::BbrUnusable);
    }
    if let Some(key) = stray_key(catalogue, bbr) {
        return Err(PartsFault::StrayInBbr(key));
    }
    if let Some(key) = stray_key(catalogue, flash) {
        return Err(PartsFault::StrayInFlash(key));
    }
    if let Some(item) = fault_in(catalogue, &Absent, rule) {
        return Err(PartsFault::DefaultsUnfit(item));
    }
    Ok(())
}

// The check of the parts: the first fault, in the order of the refusals' numbers.
// kept: public, and lends each part where it stands: ubxreplay checks two stores that stay in its set-up, which no `Parts` could own
#[tactic(auto, using(crate::proofs::Refused::accepted), unfolding(reference::specs::Parts::parts_fault))]
pub fn check<B: Store, F: Store, R: Rule>(
    entries: &[Entry],
    bbr: &B,
    flash: &F,
    rule: &R,
) -> Result<(), PartsFault>
    ensures { result ≡ parts_checked (parts_of entries.now (R.Rule.finding rule.now) (⟦<B as StoreMeaning>⟧.store bbr.now) (⟦<F as StoreMeaning>⟧.store flash.now)) }
{
    check_behind(&Catalogue::checked(entries)?, bbr, flash, rule)
}

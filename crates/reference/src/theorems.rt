// What is proved of the reference receiver, as functions that do nothing and ensure it.
ghost use Rattle.reference.specs.Bench.{BenchCases};
ghost use Rattle.reference.specs.Noise.{NoiseCounted};
ghost use Rattle.reference.specs.Parts.{parts_of};
ghost use Rattle.reference.specs.Stores.{store_of};
ghost use Rattle.reference.specs.Promise.{LawOf, LawHolds, WritesFit, RefusedKeeps, NakKeeps};
ghost use Rattle.reference.specs.Teeth.{Teeth};

use catalogue::Entry;
use layer::Store;
use rule::Rule;

// The bench cases are answered as they should be.
#[tactic(auto, using(crate::proofs::Bench::bench_cases))]
pub fn bench_stands()
    ensures { BenchCases }
{}

// The law over runs holds: for all parts that the check accepts, after every list of calls.
pub fn law_stands()
    ensures { LawHolds }
{}

// Receivers that are wrong break the law.
#[tactic(auto, using(crate::proofs::Teeth::teeth))]
pub fn law_has_teeth()
    ensures { Teeth }
{}

// Every answer fits into a buffer of 790 bytes.
#[tactic(auto, using(crate::proofs::Verdicts::writes_fit))]
pub fn answers_fit()
    ensures { WritesFit }
{}

// When answered out, answering has counted as much noise as scanning finds in the bytes taken.
#[tactic(auto, using(crate::proofs::Runs::noise_counted))]
pub fn noise_is_counted()
    ensures { NoiseCounted }
{}

// A refused call leaves the state as it was.
#[tactic(auto, using(crate::proofs::Refusals::refused_keeps))]
pub fn refused_calls_keep()
    ensures { RefusedKeeps }
{}

// A frame that gets a NAK leaves the layers as they were and no transaction open, and nothing but the NAK is written.
pub fn naks_keep()
    ensures { NakKeeps }
{}

// Whatever catalogue, stores and rule a receiver is made of, the law holds of it.
// kept: each part is lent where it stands, as to `check` of crate configuration; a struct of references would be made for this call alone
pub fn law_follows<B: Store, F: Store, R: Rule>(catalogue: &[Entry], bbr: &B, flash: &F, rule: &R)
    ensures { LawOf (parts_of catalogue.now (R.Rule.finding rule.now) (store_of B.Store.usable B.Layer.settings bbr.now) (store_of F.Store.usable F.Layer.settings flash.now)) }
{}

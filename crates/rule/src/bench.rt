// The bench rule, on the bench catalogue: each value within its bounds, then item 0 needs item 1.
ghost use Rattle.std.specs.Prelude.{◌≡◌, [], ◌∷◌};

use crate::both::Both;
use crate::need::Need;
use crate::needs::Needs;
use crate::ranges::Ranges;

pub fn bench_rule() -> Both<Ranges, Needs>
    ensures { result.second.pairs.items ≡ record { first = 0; second = 1 } ∷ [] }
{
    Both {
        first: Ranges,
        second: Needs::new(&[Need {
            first: 0,
            second: 1,
        }]),
    }
}

// Beginning a setting, and adding parts to its value.
ghost use Rattle.std.specs.Prelude.{◌≡◌, ◌+◌, ◌*◌, ◌^◌, ◌<◌, ◌==◌, true, false};
ghost use Rattle.item.specs.Keys.{well_formed};
ghost use Rattle.journal.specs.Words.{parts_under};
ghost use Rattle.journal.specs.Inspecting.{with_part};
ghost use Rattle.journal.specs.Meaning.{begun_of};

use super::Open;
use crate::word::parts_under;

impl Open {
    // A setting whose first word stands at a place, before any of its parts.
    #[tactic(auto, using(crate::proofs::Words::parts_some))]
    pub(crate) fn new(head: usize, key: u32) -> Open
        requires { well_formed key ≡ true }
        ensures { begun_of result ≡ record { head = head; key = key; value = 0; parts = 0 } }
    {
        Open {
            head,
            key,
            value: 0,
            parts: 0,
        }
    }

    // The place of its first word.
    pub(crate) fn head(self) -> usize
        ensures { result ≡ self.head }
    {
        self.head
    }

    pub(crate) fn key(self) -> u32
        ensures value { result ≡ self.key }
        ensures formed { well_formed result ≡ true }
    {
        self.key
    }

    // Whether the next part is its last.
    pub(crate) fn ends_next(self) -> bool
        ensures { result ≡ (self.parts + 1 == parts_under self.key) }
    {
        self.parts + 1 == parts_under(self.key)
    }

    // Its value with one part more.
    pub(crate) fn value_with(self, part: u32) -> u64
        requires { part < 2 ^ 16 }
        ensures value { result ≡ (with_part (begun_of self) part).value }
        ensures small { result < 2 ^ (16 * (self.parts + 1)) }
    {
        self.value + (u64::from(part) << (16 * self.parts))
    }

    // The setting with one part more, which was not its last.
    pub(crate) fn with(self, part: u32) -> Open
        requires small { part < 2 ^ 16 }
        requires waiting { (self.parts + 1 == parts_under self.key) ≡ false }
        ensures { begun_of result ≡ with_part (begun_of self) part }
    {
        Open {
            head: self.head,
            key: self.key,
            value: self.value_with(part),
            parts: self.parts + 1,
        }
    }
}

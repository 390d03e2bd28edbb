// Making the rule of needs, and asking it.
ghost use Rattle.std.specs.Prelude.{◌≡◌, take, find};
ghost use Rattle.rule.specs.Rules.{is_broken, first_broken, Eases};
ghost use Rattle.rule.specs.RulesLemmas.{needs_places};

use super::Needs;
use crate::configuration::Configuration;
use crate::need::Need;
use crate::traits::Rule;
use arrayvec::ArrayVec;

impl Need {
    // Whether the first item has a value other than 0 and the second has not.
    fn is_broken(&self, configuration: Configuration<'_>) -> bool
        ensures { result ≡ is_broken configuration.entry.entries.now configuration.entry.values.now self.now }
    {
        let Configuration { entries, values } = configuration;
        let items = entries.len().min(values.len());
        self.first < items
            && self.second < items
            && values[self.first] != 0
            && values[self.second] == 0
    }
}

// The first broken pair.
fn broken_pair(pairs: &[Need], configuration: Configuration<'_>) -> Option<Need>
    ensures { result ≡ find (is_broken configuration.entry.entries.now configuration.entry.values.now) pairs.now }
{
    pairs
        .iter()
        .copied()
        .find(|pair| pair.is_broken(configuration))
}

impl Needs {
    // The rule of the first 64 pairs; those behind them are not read.
    pub fn new(pairs: &[Need]) -> Needs
        ensures { result.pairs.items ≡ take 64 pairs.now }
    {
        let read = &pairs[..pairs.len().min(64)];
        let mut pairs = ArrayVec::new();
        pairs.try_extend_from_slice(read).unwrap();
        Needs { pairs }
    }
}

impl Rule for Needs {
    ghost finding = { λ r. first_broken r.pairs.items };

    ghost places = { λ r. needs_places r.pairs.items };

    fn find(&self, configuration: Configuration<'_>) -> Option<usize>
        ensures found { result ≡ first_broken self.now.pairs.items configuration.entry.entries.now configuration.entry.values.now }
        ensures eases { Eases self.now.pairs.items configuration.entry.entries.now configuration.entry.values.now }
    {
        broken_pair(self.pairs.as_slice(), configuration).map(|pair| pair.first)
    }
}

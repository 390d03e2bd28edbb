// Ranges: each value within the bounds of its item.
ghost use Rattle.std.specs.Prelude.{◌≡◌, not, position, zip};
ghost use Rattle.catalogue.specs.Catalogues.{allows};
ghost use Rattle.rule.specs.Rules.{ranges, DefaultsFit};
ghost use Rattle.rule.specs.RulesLemmas.{ranges_places};

use crate::configuration::Configuration;
use crate::traits::Rule;

#[derive(Clone, Copy, PartialEq, Eq, Debug)]
pub struct Ranges;

// The lowest item outside its bounds.
fn first_outside(configuration: Configuration<'_>) -> Option<usize>
    ensures { result ≡ position (λ p. not (allows p.0 p.1)) (zip configuration.entry.entries.now configuration.entry.values.now) }
{
    configuration
        .entries
        .iter()
        .zip(configuration.values)
        .position(|(entry, value)| !entry.allows(*value))
}

impl Rule for Ranges {
    ghost finding = { λ _. ranges };

    ghost places = { λ r. ranges_places };

    fn find(&self, configuration: Configuration<'_>) -> Option<usize>
        ensures found { result ≡ ranges configuration.entry.entries.now configuration.entry.values.now }
        ensures defaults { DefaultsFit configuration.entry.entries.now configuration.entry.values.now }
    {
        first_outside(configuration)
    }
}

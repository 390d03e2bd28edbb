// Code over any rule, proved once.
ghost use Rattle.std.specs.Prelude.{◌≡◌};
ghost use Rattle.rule.specs.Rules.{is_fit};

use crate::configuration::Configuration;
use crate::traits::Rule;

// Whether a rule finds a configuration fit.
pub fn is_fit<R: Rule>(rule: &R, configuration: Configuration<'_>) -> bool
    ensures { result ≡ is_fit (R.Rule.finding rule.now configuration.entry.entries.now configuration.entry.values.now) }
{
    rule.find(configuration).is_none()
}

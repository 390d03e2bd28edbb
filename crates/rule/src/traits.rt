// What a rule means: the function that finds a configuration fit or names one item.
ghost use Rattle.std.specs.Prelude.{◌≡◌};
ghost use Rattle.rule.specs.Rules.{Finding, NamesPlaces};

use crate::configuration::Configuration;

// A rule is asked about one configuration. Asking changes nothing.
pub trait Rule {
    ghost finding: { Self → Finding };

    // None where the configuration is fit, else the item at fault.
    fn find(&self, configuration: Configuration<'_>) -> Option<usize>
        ensures found { result ≡ finding self.now configuration.entry.entries.now configuration.entry.values.now };

    ghost places: { (r : Self) → NamesPlaces (finding r) };
}

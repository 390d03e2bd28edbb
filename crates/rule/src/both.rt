// Two rules together: the first's finding first. It nests.
ghost use Rattle.std.specs.Prelude.{◌≡◌, ℕ, List};
ghost use Rattle.catalogue.specs.declared.entries.Entry.{Entry};
ghost use Rattle.rule.specs.Rules.{both_find};
ghost use Rattle.rule.specs.RulesLemmas.{both_places};

use crate::configuration::Configuration;
use crate::traits::Rule;

#[derive(Drop)]
pub struct Both<A, B> {
    pub first: A,
    pub second: B,
}

impl<A: Rule, B: Rule> Rule for Both<A, B> {
    ghost finding = { λ r. both_find (A.Rule.finding r.first) (B.Rule.finding r.second) };

    ghost places = { λ r. both_places (A.Rule.finding r.first) (B.Rule.finding r.second) (A.Rule.places r.first) (B.Rule.places r.second) };

    fn find(&self, configuration: Configuration<'_>) -> Option<usize> {
        // kept: a match in place of `or_else`, after which nothing is known of the second's answer: tried with the closure's clause read off its
        // body, and with one written out. A closure that passes a struct with references to a bound's method brings no promise
        match self.first.find(configuration) {
            Some(item) => Some(item),
            None => self.second.find(configuration),
        }
    }
}

// Joining rules is associative: grouped the other way, they find the same of every configuration.
pub fn regrouped<A: Rule, B: Rule, C: Rule>(rules: Both<Both<A, B>, C>) -> Both<A, Both<B, C>>
    ensures { (es : List Entry) (vs : List ℕ) → both_find (both_find (A.Rule.finding rules.first.first) (B.Rule.finding rules.first.second)) (C.Rule.finding rules.second) es vs ≡ both_find (A.Rule.finding result.first) (both_find (B.Rule.finding result.second.first) (C.Rule.finding result.second.second)) es vs }
{
    let Both {
        first: Both {
            first: a,
            second: b,
        },
        second: c,
    } = rules;
    Both {
        first: a,
        second: Both {
            first: b,
            second: c,
        },
    }
}

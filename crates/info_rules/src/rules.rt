//! Rule files as lists of rules.

use crate::rule::{Checker, Rule};
use std::marker::Model;

/// The position of a rule among the rules of its file. The first position is 0.
#[derive(Clone, Copy, Debug, PartialEq, Eq)]
pub struct RuleNo(pub usize);

/// The rules of a rule file, in the order of the text.
#[derive(Debug, Drop)]
pub struct Rules {
    pub(crate) rules: Vec<Rule>,
}

impl Model for Rules {
    ghost use Rattle.std.specs.Prelude.{List};
    ghost use Rattle.info_rules.specs.Rule.{PlainRule};

    ghost Value = { List PlainRule };

    ghost view = { λ rules. rules.rules.items };
}

ghost use Rattle.std.specs.Prelude.{◌≡◌};
ghost use Rattle.std.specs.List.{list_any};
ghost use Rattle.info_rules.specs.Rule.{is_unverified};

/// Returns whether at least one of the checkers passes Data without verifying their signatures.
fn has_unverified(checkers: &[Checker]) -> bool
    ensures { result ≡ list_any is_unverified checkers.now }
{
    checkers
        .iter()
        .any(|checker| matches!(checker, Checker::Unverified))
}

impl Rules {
    ghost use Rattle.std.specs.Prelude.{◌≡◌, ◌<◌, Some, length, option_map, slice_get};
    ghost use Rattle.info_rules.specs.Rule.{is_unverified_at};

    /// Returns the number of rules, at most 256 if the rules were read from a file.
    pub fn len(&self) -> usize
        ensures { result ≡ length self.now }
    {
        self.rules.len()
    }

    /// Returns the id of the rule at the position `rule`.
    pub fn id(&self, rule: RuleNo) -> &str
        requires { rule.0 < length self.now }
        ensures { option_map (λ plain. plain.id) (slice_get self.now rule.0) ≡ Some result.now }
    {
        self.rules[rule.0].id.as_str()
    }

    /// Returns whether the rule at the position `rule` allows Data without verifying their
    /// signatures. Returns false if there is no rule at this position.
    pub fn is_unverified(&self, rule: RuleNo) -> bool
        ensures { result ≡ is_unverified_at self.now rule.0 }
    {
        match self.rules.get(rule.0) {
            None => false,
            Some(rule) => has_unverified(&rule.checkers),
        }
    }
}

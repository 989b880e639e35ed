//! Decides whether a name meets a requirement, and whether a rule applies to a packet.

ghost use Rattle.std.specs.Prelude.{◌↔◌, IsTrue, Any};
ghost use Rattle.ndn_names.specs.View.{components};
ghost use Rattle.info_rules.specs.Related.{Related};
ghost use Rattle.info_rules.specs.First.{Passes, Applies};

use crate::rule::{Kind, NameTest, Relation, Rule};
use ndn_names::Name;

/// Returns whether `name` has the relation `relation` to `other`.
pub fn is_related(relation: Relation, name: Name<'_>, other: Name<'_>) -> bool
    ensures { IsTrue result ↔ Related relation (components name.entry) (components other.entry) }
{
    match relation {
        Relation::Equal => name.compare(other).is_eq(),
        Relation::IsPrefixOf => name.is_prefix_of(other),
        Relation::IsStrictPrefixOf => name.is_prefix_of(other) && name.len() < other.len(),
    }
}

/// Returns whether the name meets the requirement. Allocates no memory.
pub fn passes(test: &NameTest, name: Name<'_>) -> bool
    ensures { IsTrue result ↔ Passes test.now (components name.entry) }
{
    match test {
        NameTest::Related(relation, given) => is_related(*relation, given.view(), name),
        NameTest::Matching(pattern) => pattern.matches(name).is_some(),
    }
}

/// Returns whether the name passes at least one of the tests.
fn passes_any(tests: &[NameTest], name: Name<'_>) -> bool
    ensures { IsTrue result ↔ Any (λ test. Passes test (components name.entry)) tests.now }
{
    tests.iter().any(|test| passes(test, name))
}

/// Returns whether the rule applies to packets of this kind and name.
pub fn applies(rule: &Rule, kind: Kind, name: Name<'_>) -> bool
    ensures { IsTrue result ↔ Applies rule.now kind (components name.entry) }
{
    rule.kind == kind && (rule.filters.is_empty() || passes_any(&rule.filters, name))
}

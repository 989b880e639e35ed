//! The octets of rule files and key files.
ghost use Rattle.std.specs.Prelude.{MatchResult};
ghost use Rattle.node_core.specs.Files.{AreRules, IsFaultOfRules};

use info_rules::{InfoTree, Rules, RulesFault, RulesFaultKind};
use std::alloc::Global;
use std::str;

/// The octets of a rule file and of a key file. Keys are secrets.
#[derive(Clone, Copy)]
pub struct Files<'a> {
    pub rules: &'a [u8],
    pub keys: &'a [u8],
}

/// Reads the rules in the octets of a rule file. Octets that are not UTF-8 are reported as a Syntax
/// fault at line 0.
pub fn read_rules(alloc: Global, octets: &[u8]) -> Result<Rules, RulesFault>
    ensures { MatchResult result (AreRules octets.now) (IsFaultOfRules octets.now) }
{
    let Ok(text) = str::from_utf8(octets) else {
        return Err(RulesFault {
            line: 0,
            kind: RulesFaultKind::Syntax,
        });
    };
    let tree = InfoTree::read(alloc, text)?;
    Rules::read(alloc, &tree)
}

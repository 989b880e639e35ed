//! Tests of the number of rules in a text, and of the messages of faults and reasons. Which texts
//! are rule files, and which faults other texts have, is in
//! `crates/ndn_node/transcripts/rules.txt`.

use crate::rows::check_rows;
use info_rules::{InfoTree, Reason, RuleNo, Rules, RulesFault, RulesFaultKind};
use std::alloc::Global;
use test_support::typed;

/// Reads the rules of a text.
pub fn rules_of(alloc: Global, text: &str) -> Result<Rules, RulesFault> {
    let tree = InfoTree::read(alloc, text)?;
    Rules::read(alloc, &tree)
}

/// Returns the number of rules in a text. A symbol such as `␊` stands for a control character.
fn count_text(alloc: Global, text: &str) -> Option<String> {
    let text = typed(alloc, text)?;
    count_of(alloc, text.as_str())
}

/// Returns the number of rules in a text.
fn count_of(alloc: Global, text: &str) -> Option<String> {
    let rules = rules_of(alloc, text).ok()?;
    format!(in alloc; "{}", rules.len()).ok()
}

/// A trust anchor is no rule, even if it has a block with the key `rule`.
const COUNTS: &str = "
␊ -> 0
trust-anchor {␊ type file␊ file-name x.cert } -> 0
trust-anchor {␊ refresh 1h {␊ rule }␊ type dir } -> 0
trust-anchor {␊ type base64 }␊ trust-anchor {␊ type file } -> 0
rule {␊ id a␊ for data }␊ trust-anchor {␊ type file } -> 1
rule {␊ id a␊ for data }␊ rule {␊ id b␊ for data } -> 2
";

#[test]
fn numbers_of_rules(rt: HostRuntime) {
    check_rows(&rt, rt.alloc(), COUNTS, count_text);
}

const HYPER_RELATION: &str = r"
rule {
  id rooms
  for data
  checker {
    type customized
    key-locator {
      type name
      hyper-relation {
        k-regex ^<keys>(<>*)<KEY><>$
        k-expand \1
        h-relation is-prefix-of
        p-regex ^<lab>(<>*)$
        p-expand \1
      }
    }
  }
}
";

/// Returns whether the one rule of `HYPER_RELATION` is read. Also returns true if memory runs out.
fn is_read_unless_memory(alloc: Global) -> bool {
    match rules_of(alloc, HYPER_RELATION) {
        Ok(rules) => rules.len() == 1,
        Err(fault) => fault.kind == RulesFaultKind::Memory,
    }
}

/// If an allocation of memory fails, the fault is `Memory`.
#[test]
fn rules_with_refused_memory(rt: HostRuntime) {
    assert!(rt; is_read_unless_memory(rt.alloc()));
}

const TRANSIT: &str = r"
rule {
  id archive
  for data
  checker {
    type hierarchical
  }
}
rule {
  id transit
  for data
  checker {
    type unverified
  }
}
";

/// Returns whether of the rules of `TRANSIT` the second one alone is unverified.
fn is_transit_unverified(alloc: Global) -> bool {
    match rules_of(alloc, TRANSIT) {
        Ok(rules) => {
            !rules.is_unverified(RuleNo(0))
                && rules.is_unverified(RuleNo(1))
                && !rules.is_unverified(RuleNo(2))
        }
        Err(_) => false,
    }
}

/// A rule that does not verify signatures says so. There is no third rule.
#[test]
fn unverified_rules(rt: HostRuntime) {
    assert!(rt; is_transit_unverified(rt.alloc()));
}

/// Returns the `RulesFaultKind` with this name.
fn fault_of(name: &str) -> Option<RulesFaultKind> {
    Some(match name {
        "Syntax" => RulesFaultKind::Syntax,
        "TooDeep" => RulesFaultKind::TooDeep,
        "TooLarge" => RulesFaultKind::TooLarge,
        "UnknownKey" => RulesFaultKind::UnknownKey,
        "Missing" => RulesFaultKind::Missing,
        "BadValue" => RulesFaultKind::BadValue,
        "TwiceNamed" => RulesFaultKind::TwiceNamed,
        "Pattern" => RulesFaultKind::Pattern,
        "AnyAnchor" => RulesFaultKind::AnyAnchor,
        "Memory" => RulesFaultKind::Memory,
        _ => return None,
    })
}

/// Returns the message for a fault on line 8. `name` is the name of the fault's kind.
fn fault_text(alloc: Global, name: &str) -> Option<String> {
    let kind = fault_of(name)?;
    let fault = RulesFault { line: 8, kind };
    format!(in alloc; "{fault}").ok()
}

const FAULT_TEXTS: &str = "
Syntax -> line 8: Syntax: unexpected word or brace, or a quote or block that is not closed
TooDeep -> line 8: TooDeep: blocks nest more than 8 deep
TooLarge -> line 8: TooLarge: more than 65536 octets, 256 rules, or 16 filters or checkers in a rule
UnknownKey -> line 8: UnknownKey: this key is not known in this block
Missing -> line 8: Missing: this block lacks a key that it needs
BadValue -> line 8: BadValue: wrong or missing value or block, or a key that cannot stand with the others
TwiceNamed -> line 8: TwiceNamed: this key or id was given before
Pattern -> line 8: Pattern: not a valid pattern, or not a valid template for its pattern
AnyAnchor -> line 8: AnyAnchor: a trust anchor of type any would allow packets without a rule
Memory -> line 8: Memory: out of memory
";

#[test]
fn texts_of_faults(rt: HostRuntime) {
    check_rows(&rt, rt.alloc(), FAULT_TEXTS, fault_text);
}

/// Returns the message for the reason with this name.
fn reason_text(alloc: Global, name: &str) -> Option<String> {
    let reason = match name {
        "NotSigned" => Reason::NotSigned,
        "Shape" => Reason::Shape,
        "SigType" => Reason::SigType,
        "KeyLocator" => Reason::KeyLocator,
        "KeyUnknown" => Reason::KeyUnknown,
        "Tag" => Reason::Tag,
        "Replay" => Reason::Replay,
        _ => return None,
    };
    format!(in alloc; "{reason}").ok()
}

const REASON_TEXTS: &str = "
NotSigned -> NotSigned: the Interest has no signature; sign it, since each command must be signed
Shape -> Shape: no SignatureTime, or the digest is not last in the name; add a time, put the digest last
SigType -> SigType: no checker takes this type, or the named key is for another; use the rule's sig-type
KeyLocator -> KeyLocator: the rule does not accept this key; sign with another, or widen the key-locator
KeyUnknown -> KeyUnknown: the key file lacks this key; add its line
Tag -> Tag: the octets were changed, or the two sides have different keys; compare the keys
Replay -> Replay: not newer than an allowed command, or the clocks differ; sign it again now
";

/// Each reason of a denial has a message that says what was wrong and what to do.
#[test]
fn texts_of_reasons(rt: HostRuntime) {
    check_rows(&rt, rt.alloc(), REASON_TEXTS, reason_text);
}

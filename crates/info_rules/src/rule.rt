//! Rules, their filters and their checkers.

use name_patterns::{Pattern, Template};
use ndn_names::NameBuf;
use std::marker::Model;

/// The kind of packet that a rule applies to.
#[derive(Clone, Copy, Debug, PartialEq, Eq)]
pub enum Kind {
    Data,
    Interest,
}

/// The relation of a first name to a second name. In a name test, the first name is the given name,
/// and the second is the tested name. In a hyper-relation, the first name is expanded from the
/// key's name, and the second from the packet's name.
#[derive(Clone, Copy, Debug)]
pub enum Relation {
    Equal,
    /// The first name is a prefix of the second name, or equal to it.
    IsPrefixOf,
    /// The first name is a proper prefix of the second name.
    IsStrictPrefixOf,
}

/// A requirement on a name.
#[derive(Debug, Drop)]
pub enum NameTest {
    /// The given name has this relation to the tested name.
    Related(Relation, NameBuf),
    /// The pattern matches the tested name.
    Matching(Pattern),
}

/// A relation between a key's name and a packet's name. Each of the two names must match its
/// pattern, and a template expands the match to a new name. The name expanded from the key's name
/// must have the relation `relation` to the name expanded from the packet's name.
#[derive(Debug, Drop)]
pub struct HyperRelation {
    pub key_pattern: Pattern,
    pub key_template: Template,
    pub relation: Relation,
    pub packet_pattern: Pattern,
    pub packet_template: Template,
}

impl Model for HyperRelation {
    ghost use Rattle.info_rules.specs.Hyper.{PlainHyper, HasGroups};

    ghost Value = { PlainHyper };

    ghost view = { λ hyper. record {
      key_pattern = hyper.key_pattern;
      key_template = hyper.key_template;
      relation = hyper.relation;
      packet_pattern = hyper.packet_pattern;
      packet_template = hyper.packet_template;
    } };

    ghost invariant = { λ hyper. HasGroups
        (record {
          key_pattern = hyper.key_pattern;
          key_template = hyper.key_template;
          relation = hyper.relation;
          packet_pattern = hyper.packet_pattern;
          packet_template = hyper.packet_template;
        }) };
}

/// A requirement on the name of the key that signed a packet.
#[derive(Debug, Drop)]
pub enum LocatorTest {
    Name(NameTest),
    Hyper(HyperRelation),
    /// In the key's name, the longest prefix that is followed by the component `KEY` and one to
    /// three more components is also a prefix of the packet's name.
    Hierarchical,
}

/// An algorithm of signatures that are made with a key.
#[derive(Clone, Copy, Debug, PartialEq, Eq)]
pub enum Algorithm {
    /// HMAC with SHA-256, under a secret that both sides have.
    HmacSha256,
    /// ECDSA over P-256 with SHA-256. The verifier has the public key.
    EcdsaSha256,
}

/// A requirement on a signature.
#[derive(Debug, Drop)]
pub enum Checker {
    /// DigestSha256, with any KeyLocator or none.
    Sha256,
    /// A signature of this algorithm by a key of the key book. The key's name meets the requirement.
    Keyed(Algorithm, LocatorTest),
    /// A signature type for RSA, which is never accepted.
    Unsupported,
    /// Any signature of a Data, which is not verified. Never accepted for an Interest.
    Unverified,
}

/// A rule applies to packets of its kind. If the rule has filters, it applies only to packets whose
/// name passes a filter. The rule allows a packet whose signature passes one of its checkers.
#[derive(Debug, Drop)]
pub struct Rule {
    pub id: String,
    pub kind: Kind,
    pub filters: Vec<NameTest>,
    pub checkers: Vec<Checker>,
}

impl Model for Rule {
    ghost use Rattle.std.specs.Prelude.{string_bytes};
    ghost use Rattle.info_rules.specs.Rule.{PlainRule};

    ghost Value = { PlainRule };

    ghost view = { λ rule. record {
      id = string_bytes rule.id;
      kind = rule.kind;
      filters = rule.filters.items;
      checkers = rule.checkers.items;
    } };
}

//! Reads the values of keys from their texts.

ghost use Rattle.std.specs.Prelude.{◌≡◌, ◌&&◌, IfOk, List, ℕ, Option, nat_le};
ghost use Rattle.std.specs.List.{list_all};
ghost use Rattle.ndn_names.specs.UriReading.{name_in};
ghost use Rattle.name_patterns.specs.PatternReading.{pattern_in};
ghost use Rattle.info_rules.specs.Values.{ok_of};
ghost use Rattle.info_rules.specs.ValueWords.{kind_in, relation_in, checker_type_in, signature_type_in, is_id, is_anchor_type};

use crate::rule::{Kind, Relation};
use name_patterns::{Pattern, PatternFault};
use ndn_names::{NameBuf, NameFault};
use ndn_tlv::Memory;
use std::alloc::Global;

/// The greatest length of a rule's id, in octets.
const MAX_ID_LEN: usize = 100;

/// The type of a checker. For signatures by a key, the type tells which requirement the key's name
/// must meet.
#[derive(Clone, Copy)]
pub enum CheckerType {
    /// The requirement that the checker's `key-locator` block states.
    Customized,
    /// The requirement `LocatorTest::Hierarchical`.
    Hierarchical,
    /// No requirement: signatures are not verified.
    Unverified,
}

/// The signature type of a checker.
#[derive(Clone, Copy)]
pub enum SignatureType {
    HmacSha256,
    EcdsaSha256,
    Sha256,
    /// RSA, which is known but never accepted.
    RsaSha256,
}

/// A type of values that can be read from a text.
pub trait Value: Drop {
    ghost meant: { List ℕ → Option Self };

    /// Reads the value from the text, or returns `None` if the text is not a value of this type.
    /// Fails only if memory runs out.
    fn of_text(alloc: Global, text: &str) -> Result<Option<Self>, Memory>
        ensures { IfOk result (λ value. value ≡ meant text.now) };
}

impl Value for Kind {
    ghost meant = { kind_in };

    fn of_text(_alloc: Global, text: &str) -> Result<Option<Kind>, Memory> {
        Ok(match text {
            "data" => Some(Kind::Data),
            "interest" => Some(Kind::Interest),
            _ => None,
        })
    }
}

impl Value for Relation {
    ghost meant = { relation_in };

    fn of_text(_alloc: Global, text: &str) -> Result<Option<Relation>, Memory> {
        Ok(match text {
            "equal" => Some(Relation::Equal),
            "is-prefix-of" => Some(Relation::IsPrefixOf),
            "is-strict-prefix-of" => Some(Relation::IsStrictPrefixOf),
            _ => None,
        })
    }
}

impl Value for CheckerType {
    ghost meant = { checker_type_in };

    fn of_text(_alloc: Global, text: &str) -> Result<Option<CheckerType>, Memory> {
        Ok(match text {
            "customized" => Some(CheckerType::Customized),
            "hierarchical" => Some(CheckerType::Hierarchical),
            "unverified" => Some(CheckerType::Unverified),
            _ => None,
        })
    }
}

impl Value for SignatureType {
    ghost meant = { signature_type_in };

    fn of_text(_alloc: Global, text: &str) -> Result<Option<SignatureType>, Memory> {
        Ok(match text {
            "hmac-sha256" => Some(SignatureType::HmacSha256),
            "ecdsa-sha256" => Some(SignatureType::EcdsaSha256),
            "sha256" => Some(SignatureType::Sha256),
            "rsa-sha256" => Some(SignatureType::RsaSha256),
            _ => None,
        })
    }
}

impl Value for NameBuf {
    ghost meant = { λ text. ok_of (name_in text) };

    fn of_text(alloc: Global, text: &str) -> Result<Option<NameBuf>, Memory> {
        match NameBuf::from_uri(alloc, text) {
            Ok(name) => Ok(Some(name)),
            Err(NameFault::Memory) => Err(Memory),
            Err(_) => Ok(None),
        }
    }
}

impl Value for Pattern {
    ghost meant = { λ text. ok_of (pattern_in text) };

    fn of_text(alloc: Global, text: &str) -> Result<Option<Pattern>, Memory> {
        match Pattern::read(alloc, text) {
            Ok(pattern) => Ok(Some(pattern)),
            Err(PatternFault::Memory) => Err(Memory),
            Err(_) => Ok(None),
        }
    }
}

/// Returns whether no octet is an ASCII control character below the space.
fn is_printed(octets: &[u8]) -> bool
    ensures { result ≡ list_all (λ octet. nat_le 32 octet) octets.now }
{
    octets.iter().all(|octet| *octet >= b' ')
}

/// Returns whether the text may be the id of a rule: 1 to 100 octets, none of them an ASCII control
/// character below the space.
pub fn is_id(text: &str) -> bool
    ensures { result ≡ is_id text.now }
{
    !text.is_empty() && text.len() <= MAX_ID_LEN && is_printed(text.as_bytes())
}

/// Returns whether a trust anchor may have this type.
pub fn is_anchor_type(text: &str) -> bool
    ensures { result ≡ is_anchor_type text.now }
{
    matches!(text, "file" | "dir" | "base64")
}

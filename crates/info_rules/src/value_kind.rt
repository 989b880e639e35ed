//! The kinds of values that keys may have.

ghost use Rattle.std.specs.Prelude.{◌≡◌, IfOk, is_some};
ghost use Rattle.info_rules.specs.Values.{is_value};
ghost use Rattle.info_rules.specs.Shown.{value_kind_of};

use crate::rule::{Kind, Relation};
use crate::value_words::{CheckerType, SignatureType, Value, is_anchor_type, is_id};
use ndn_names::NameBuf;
use ndn_tlv::Memory;
use std::alloc::Global;

/// The kind of value that a key must have.
#[derive(Clone, Copy)]
pub enum ValueKind {
    /// The id of a rule.
    Id,
    /// The kind of packet that a rule is for.
    PacketKind,
    /// The word `name`.
    NameWord,
    /// The URI of a name.
    Uri,
    /// The relation of one name to another name.
    Relation,
    /// A pattern for names.
    Pattern,
    /// A template that uses the groups of a pattern.
    Template,
    /// The type of a checker.
    CheckerType,
    /// The signature type of a checker.
    SignatureType,
    /// The type of a trust anchor.
    AnchorType,
}

/// Returns whether the text is a valid value of type `V`.
fn stands_for<V: Value>(alloc: Global, text: &str) -> Result<bool, Memory>
    ensures { IfOk result (λ right. right ≡ is_some (V.meant text.now)) }
{
    Ok(V::of_text(alloc, text)?.is_some())
}

impl ValueKind {
    /// Returns whether the text is a valid value of this kind. Every text counts as a valid pattern
    /// or template here, and `any` as a valid type of a trust anchor, since the faults of these
    /// values are not `BadValue`.
    #[tactic(auto, unfolding(crate::specs::Values::is_value))]
    pub fn is_value(self, alloc: Global, text: &str) -> Result<bool, Memory>
        ensures { IfOk result (λ right. right ≡ is_value (value_kind_of self) text.now) }
    {
        match self {
            ValueKind::Id => Ok(is_id(text)),
            ValueKind::PacketKind => stands_for::<Kind>(alloc, text),
            ValueKind::NameWord => Ok(text == "name"),
            ValueKind::Uri => stands_for::<NameBuf>(alloc, text),
            ValueKind::Relation => stands_for::<Relation>(alloc, text),
            ValueKind::Pattern | ValueKind::Template => Ok(true),
            ValueKind::CheckerType => stands_for::<CheckerType>(alloc, text),
            ValueKind::SignatureType => stands_for::<SignatureType>(alloc, text),
            ValueKind::AnchorType => Ok(text == "any" || is_anchor_type(text)),
        }
    }
}

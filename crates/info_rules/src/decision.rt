//! The decisions of rules on packets.

ghost use Rattle.std.specs.Prelude.{◌≡◌, ◌⊎◌, ℕ, List, Any, true, MatchOption, MatchResult};
ghost use Rattle.key_files.specs.KeyFile.{NamedKey, AreApart};
ghost use Rattle.ndn_packets.specs.Packet.{PlainInterest, PlainData, PlainFrame, AnInterest, AData};
ghost use Rattle.info_rules.specs.Rule.{PlainRule, is_unverified_at};
ghost use Rattle.info_rules.specs.Decides.{IsGreater, IsPassed, IsGreatest, Allow, Deny, Expands, AnyExpands, Decides};
ghost use Rattle.ndn_names.specs.View.{components};
ghost use Rattle.info_rules.specs.Shown.{seen_of, signed_of};
ghost use Rattle.info_rules.specs.Decided.{IsDecided};
ghost use Rattle.info_rules.specs.Signer.{NamesItsSigner};

use crate::checks::{Checked, check};
use crate::matching::applies;
use crate::packet::{Packet, Signed};
use crate::rule::{Checker, Kind};
use crate::rules::{RuleNo, Rules};
use key_files::KeyBook;
use ndn_names::Name;
use ndn_tlv::Memory;
use std::alloc::Global;
use thiserror::Error;

/// Why a packet is denied. If the checkers of a rule have different reasons, the reason that comes
/// last in this list is reported. The error message of a reason states what was wrong, and what the
/// signer or the operator can do.
#[derive(Clone, Copy, Debug, PartialEq, Eq, Error)]
pub enum Reason {
    /// The Interest is not signed.
    #[error("NotSigned: the Interest has no signature; sign it, since each command must be signed")]
    NotSigned,
    /// The Interest's parameters digest is not the last component of its name, or its signature has
    /// no SignatureTime.
    #[error("Shape: no SignatureTime, or the digest is not last in the name; add a time, put the digest last")]
    Shape,
    /// No checker accepts the signature type of the packet, or the key that the KeyLocator names is for
    /// another type.
    #[error("SigType: no checker takes this type, or the named key is for another; use the rule's sig-type")]
    SigType,
    /// The KeyLocator does not have the name of a key that a checker accepts, or the rule has no
    /// checker.
    #[error("KeyLocator: the rule does not accept this key; sign with another, or widen the key-locator")]
    KeyLocator,
    /// The key that the KeyLocator names is not in the key book.
    #[error("KeyUnknown: the key file lacks this key; add its line")]
    KeyUnknown,
    /// The signature value is not right for the covered octets under the key.
    #[error("Tag: the octets were changed, or the two sides have different keys; compare the keys")]
    Tag,
    /// A signed Interest is not newer than one of the earlier allowed Interests of its signer, or
    /// its SignatureTime is too far from the present time. Only callers give this reason; the rules
    /// never do.
    #[error("Replay: not newer than an allowed command, or the clocks differ; sign it again now")]
    Replay,
}

/// The decision on a packet: that of the first rule that applies to the packet, or `NoRule`.
#[derive(Clone, Copy, Debug, PartialEq, Eq)]
pub enum Decision {
    Allowed(RuleNo),
    Denied(RuleNo, Reason),
    /// No rule applies.
    NoRule,
}

impl Reason {
    ghost use Rattle.std.specs.Prelude.{◌≡◌};
    ghost use Rattle.info_rules.specs.Names.{reason_name};
    ghost use Rattle.info_rules.specs.Decides.{reason_number};

    /// Returns the name of the reason, as it is printed.
    pub fn name(self) -> &'static str
        ensures { result.now ≡ reason_name self }
    {
        match self {
            Reason::NotSigned => "NotSigned",
            Reason::Shape => "Shape",
            Reason::SigType => "SigType",
            Reason::KeyLocator => "KeyLocator",
            Reason::KeyUnknown => "KeyUnknown",
            Reason::Tag => "Tag",
            Reason::Replay => "Replay",
        }
    }

    /// Returns the position of the reason in the list of reasons. The first position is 1.
    fn number(self) -> u8
        ensures { result ≡ reason_number self }
    {
        self as u8 + 1
    }
}

/// Returns the one of the reasons `earlier` and `reason` that has the greater `number`, or `reason`
/// if `earlier` is `None`.
fn greater(earlier: Option<Reason>, reason: Reason) -> Reason
    ensures { IsGreater earlier reason result }
{
    match earlier {
        Some(earlier) if reason.number() < earlier.number() => earlier,
        _ => reason,
    }
}

impl Rules {
    ghost use Rattle.std.specs.Prelude.{MatchOption, MatchResult};
    ghost use Rattle.ndn_names.specs.View.{components};
    ghost use Rattle.info_rules.specs.First.{NoneApplies, First};
    ghost use Rattle.info_rules.specs.Decides.{Decides, MayRefuse};
    ghost use Rattle.info_rules.specs.Shown.{frame_of};

    /// Returns the position of the first rule that applies to packets of this kind and name, or
    /// `None` if no rule applies. Allocates no memory.
    pub fn first_match(&self, kind: Kind, name: Name<'_>) -> Option<RuleNo>
        ensures { MatchOption result (NoneApplies self.now kind (components name.entry))
            (λ rule. First self.now kind (components name.entry) rule.0) }
    {
        for (number, rule) in self.rules.iter().enumerate() {
            if applies(rule, kind, name) {
                return Some(RuleNo(number));
            }
        }
        None
    }

    /// Decides whether to allow a packet. The first rule that applies decides. The checkers check
    /// the signature against the octets of the packet as received. If the name of an Interest ends
    /// with a parameters digest, the rules see the name without this digest.
    ///
    /// Memory is needed only if the first rule that applies has a checker whose hyper-relation
    /// expands both the key's name and the packet's name, each to at most 64 components. A packet
    /// does not pass a checker whose template expands to more than 64 components.
    pub fn decide(
        &self,
        alloc: Global,
        keys: &KeyBook,
        packet: Packet<'_>,
    ) -> Result<Decision, Memory>
        ensures { MatchResult result (Decides self.now keys.now (frame_of packet.entry))
            (λ _. MayRefuse self.now (frame_of packet.entry)) }
    {
        let name = packet.name();
        let Some(rule) = self.first_match(packet.kind(), name) else {
            return Ok(Decision::NoRule);
        };
        let reason = reason_against(alloc, keys, &self.rules[rule.0].checkers, packet, name)?;
        Ok(match reason {
            None => Decision::Allowed(rule),
            Some(reason) => Decision::Denied(rule, reason),
        })
    }
}

/// Returns the reason to deny the packet, or `None` if the packet passes a checker. `name` is the
/// packet's name as the rules see it.
fn reason_against(
    alloc: Global,
    keys: &KeyBook,
    checkers: &[Checker],
    packet: Packet<'_>,
    name: Name<'_>,
) -> Checked
    requires { components name ≡ (seen_of packet).name }
    ensures { MatchResult result
        (λ reason. MatchOption reason (Allow keys.now checkers.now (seen_of packet.entry))
        (Deny keys.now checkers.now (seen_of packet.entry)))
        (λ _. AnyExpands checkers.now (seen_of packet.entry)) }
{
    match packet.signed(name) {
        Ok(signed) => greatest(alloc, keys, checkers, &signed),
        Err(reason) => Ok(Some(reason)),
    }
}

/// Returns `None` if the packet passes a checker. Otherwise returns that one of the checkers'
/// reasons which is last in the list of reasons, or `KeyLocator` if there are no checkers.
fn greatest(alloc: Global, keys: &KeyBook, checkers: &[Checker], signed: &Signed<'_>) -> Checked
    ensures { MatchResult result
        (λ reason. MatchOption reason (IsPassed keys.now checkers.now (signed_of signed.now))
        (IsGreatest keys.now checkers.now (signed_of signed.now)))
        (λ _. Any (λ checker. Expands checker (signed_of signed.now)) checkers.now) }
{
    let mut against = None;
    for checker in checkers {
        let Some(reason) = check(alloc, keys, checker, signed)? else {
            return Ok(None);
        };
        against = Some(greater(against, reason));
    }
    Ok(Some(against.unwrap_or(Reason::KeyLocator)))
}

/// Law: any two decisions on one packet are equal, if no two keys of the key book have the same
/// name.
pub fn decisions_are_unique()
    ensures { (rules : List PlainRule) (keys : List NamedKey) (packet : PlainFrame) (a b : Decision)
        → AreApart keys
        → Decides rules keys packet a → Decides rules keys packet b → a ≡ b }
{}

/// Law: every Interest and every Data has a decision. If no two keys of the key book have the same
/// name, every Interest and every Data has exactly one decision, because decisions are unique.
pub fn no_packet_is_undecided()
    ensures { (rules : List PlainRule) (keys : List NamedKey) (packet : PlainFrame)
        → IsDecided packet
        → ¬ ((decision : Decision) → ¬ Decides rules keys packet decision) }
{}

/// Law: an allowed packet has a signature of type DigestSha256, which anybody can compute, or of
/// type HmacWithSha256 or SignatureSha256WithEcdsa. For these two, the KeyLocator has the name of a
/// key of the key book that is for this type.
/// An allowed Interest also has a SignatureTime. Only a Data may have another signature, and only
/// if the rule that allows it has an unverified checker.
pub fn allowed_packets_name_their_signer()
    ensures interest { (rules : List PlainRule) (keys : List NamedKey) (whole : List ℕ)
        (i : PlainInterest) (rule : RuleNo)
        → Decides rules keys (AnInterest whole i) (Decision.Allowed rule)
        → NamesItsSigner keys (AnInterest whole i) }
    ensures data { (rules : List PlainRule) (keys : List NamedKey) (whole : List ℕ)
        (d : PlainData) (rule : RuleNo)
        → Decides rules keys (AData whole d) (Decision.Allowed rule)
        → NamesItsSigner keys (AData whole d) ⊎ (is_unverified_at rules rule.0 ≡ true) }
{}

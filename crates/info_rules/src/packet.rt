//! Packets as the rules see them.

ghost use Rattle.std.specs.Prelude.{◌≡◌, ◌⊎◌, ◌↔◌, ℕ, List, Some, IsSome, MatchResult};
ghost use Rattle.ndn_names.specs.View.{components};
ghost use Rattle.ndn_packets.specs.Packet.{PlainSignature, PlainInterest, PlainData};
ghost use Rattle.ndn_packets.specs.View.{plain_interest, plain_data};
ghost use Rattle.ndn_packets.specs.Grammar.{IsInterest, IsData};
ghost use Rattle.ndn_packets.specs.Covered.{EndsInDigest};
ghost use Rattle.info_rules.specs.Seen.{without_digest, seen_interest, seen_data, IsSigned};
ghost use Rattle.info_rules.specs.Shown.{signed_of};
ghost use Rattle.info_rules.specs.Decides.{IsMisshaped, IsUnfit};

use crate::decision::Reason;
use crate::rule::Kind;
use ndn_names::Name;
use ndn_names::component_type::PARAMETERS_SHA256_DIGEST;
use ndn_packets::{Data, Interest, Parts, Signature};

/// An Interest or a Data, on which the rules make a decision.
#[derive(Clone, Copy, Debug)]
pub enum Packet<'a> {
    Interest(&'a Interest<'a>),
    Data(&'a Data<'a>),
}

/// A signed packet as the checkers see it: its kind, its name, its signature and the octets that
/// the signature covers.
#[derive(Clone, Copy)]
pub struct Signed<'a> {
    pub kind: Kind,
    pub name: Name<'a>,
    pub signature: Signature<'a>,
    pub parts: Parts<'a>,
}

impl<'a> Packet<'a> {
    ghost use Rattle.info_rules.specs.Shown.{seen_of};

    pub(crate) fn kind(self) -> Kind
        ensures { result ≡ (seen_of self.entry).kind }
    {
        match self {
            Packet::Interest(_) => Kind::Interest,
            Packet::Data(_) => Kind::Data,
        }
    }

    /// Returns the name that the rules see: the name of the packet. If the name of an Interest ends
    /// with a parameters digest, the rules see the name without this digest.
    pub(crate) fn name(self) -> Name<'a>
        ensures { components result ≡ (seen_of self.entry).name }
    {
        match self {
            Packet::Interest(interest) => match interest.parameters {
                // An Interest without parameters has no parameters digest.
                None => interest.name,
                Some(_) => without_digest(interest.name),
            },
            Packet::Data(packet) => packet.name,
        }
    }

    /// Returns the parts of the packet that the checkers see. If the checkers cannot examine the
    /// packet, returns the reason to deny the packet. `name` is the name that the rules see.
    pub(crate) fn signed(self, name: Name<'a>) -> Result<Signed<'a>, Reason>
        requires { components name ≡ (seen_of self).name }
        ensures { MatchResult result (λ signed. IsSigned (seen_of self.entry) (signed_of signed))
            (IsUnfit (seen_of self.entry)) }
    {
        match self {
            Packet::Interest(interest) => signed_interest(interest, name),
            Packet::Data(packet) => signed_data(packet, name),
        }
    }
}

/// Returns the name without its last component, if that component is a parameters digest.
fn without_digest(name: Name<'_>) -> Name<'_>
    ensures { components result ≡ without_digest (components name.entry) }
{
    let mut count = 0;
    let mut ends_in_digest = false;
    for component in name.iter() {
        count += 1;
        ends_in_digest = component.kind == PARAMETERS_SHA256_DIGEST;
    }
    if ends_in_digest {
        name.prefix(count - 1)
    } else {
        name
    }
}

fn signed_interest<'a>(interest: &'a Interest<'a>, name: Name<'a>) -> Result<Signed<'a>, Reason>
    requires { components name ≡ without_digest (components interest.now.name) }
    ensures { let seen = seen_interest interest.entry.now.whole.now
        (plain_interest interest.entry.now) in
        MatchResult result (λ signed. IsSigned seen (signed_of signed)) (IsUnfit seen) }
{
    let Some(signature) = interest.signature else {
        return Err(Reason::NotSigned);
    };
    if signature.time.is_none() {
        return Err(Reason::Shape);
    }
    let Some(parts) = interest.signed_parts() else {
        return Err(Reason::Shape);
    };
    Ok(Signed {
        kind: Kind::Interest,
        name,
        signature,
        parts,
    })
}

fn signed_data<'a>(packet: &'a Data<'a>, name: Name<'a>) -> Result<Signed<'a>, Reason>
    requires { components name ≡ components packet.now.name }
    ensures { let seen = seen_data packet.entry.now.whole.now (plain_data packet.entry.now) in
        MatchResult result (λ signed. IsSigned seen (signed_of signed)) (IsUnfit seen) }
{
    // Every Data that was read has covered octets.
    let parts = packet.signed_parts().ok_or(Reason::Shape)?;
    Ok(Signed {
        kind: Kind::Data,
        name,
        signature: packet.signature,
        parts,
    })
}

/// Law: checkers can examine every Data that was read. Checkers can examine a signed Interest that
/// was read if and only if the Interest has a SignatureTime and its parameters digest is the last
/// component of its name.
pub fn read_packets_have_a_shape()
    ensures data { (text : List ℕ) (d : PlainData) (reason : Reason) → IsData text d
        → ¬ IsUnfit (seen_data text d) reason }
    ensures interest { (text : List ℕ) (i : PlainInterest) (s : PlainSignature) → IsInterest text i
        → i.signature ≡ Some s
        → IsMisshaped (seen_interest text i) s
        ↔ ((¬ IsSome s.info.time) ⊎ (¬ EndsInDigest i.name)) }
{}

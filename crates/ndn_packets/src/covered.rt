//! The octets that a signature covers (NDN Packet Format 0.3, "Data Packet" and "Signed Interest").

ghost use Rattle.std.specs.Prelude.{◌≡◌, ◌≤◌, ◌-◌, ◌↔◌, [], List, ℕ, Some, length, take, option_map, IsSome, IfSome};
ghost use Rattle.ndn_packets.specs.Packet.{PlainSignature, PlainInterest, PlainData, PlainFrame, AnInterest, AData};
ghost use Rattle.ndn_packets.specs.Grammar.{IsInterest, IsData};
ghost use Rattle.ndn_packets.specs.Covered.{from_first, Covered, EndsInDigest, EndsBeforeValue, EndsAtSignature};

use crate::data::Data;
use crate::field_writer::DIGEST_COMPONENT_LEN;
use crate::interest::Interest;
use ndn_tlv::first_element;

/// The covered octets: `first` followed by `second`.
#[derive(Clone, Copy, Debug, PartialEq, Eq)]
pub struct Parts<'a> {
    pub first: &'a [u8],
    pub second: &'a [u8],
}

impl<'a> Data<'a> {
    ghost use Rattle.std.specs.Prelude.{IsSomeAnd};
    ghost use Rattle.ndn_packets.specs.Packet.{AData};
    ghost use Rattle.ndn_packets.specs.View.{plain_data};
    ghost use Rattle.ndn_packets.specs.Covered.{Covered};

    /// Returns the octets that the signature covers, as received: the octets from the Name up to,
    /// but not including, the SignatureValue. The first part has all covered octets of a Data, and
    /// the second part is empty. The result is never `None`.
    pub fn signed_parts(&self) -> Option<Parts<'a>>
        ensures { IsSomeAnd result (λ parts. Covered
            (AData self.now.whole.now (plain_data self.now)) parts.first.now parts.second.now) }
    {
        Some(Parts {
            first: self.covered,
            second: &[],
        })
    }
}

impl<'a> Interest<'a> {
    ghost use Rattle.std.specs.Prelude.{◌↔◌, IsSome};
    ghost use Rattle.ndn_names.specs.View.{components};
    ghost use Rattle.ndn_packets.specs.Packet.{AnInterest};
    ghost use Rattle.ndn_packets.specs.View.{plain_interest};
    ghost use Rattle.ndn_packets.specs.Covered.{AreParts, EndsInDigest};

    /// Returns the octets that the signature covers, as received. The first part is the name's
    /// components before the digest of parameters. The second part is the octets from the
    /// ApplicationParameters up to, but not including, the InterestSignatureValue. Returns `None`
    /// if the Interest is not signed, or if the digest of parameters is not the last component of
    /// the name.
    pub fn signed_parts(&self) -> Option<Parts<'a>>
        ensures exact { AreParts (AnInterest self.now.whole.now (plain_interest self.now)) result }
        ensures when { IsSome result
            ↔ (IsSome self.now.signature × EndsInDigest (components self.now.name)) }
    {
        let second = self.covered?;
        let name = self.name.as_octets();
        Some(Parts {
            first: &name[..name.len() - DIGEST_COMPONENT_LEN],
            second,
        })
    }
}

/// Returns the octets from the first element of type `kind` on, or `None` if there is no such
/// element. Also returns `None` if an element before the first element of type `kind` cannot be
/// read.
pub(crate) fn from_first(octets: &[u8], kind: u32) -> Option<&[u8]>
    ensures exact { option_map (λ from. from.now) result ≡ from_first kind octets.now }
    ensures within { IfSome result (λ from. length from.now ≤ length octets.now) }
{
    let mut rest = octets;
    while let Ok((element, after)) = first_element(rest) {
        if element.kind == kind {
            return Some(rest);
        }
        rest = after;
    }
    None
}

/// Returns `octets` without the last `end.len()` octets.
#[inline(always)]
pub(crate) fn octets_before<'a>(octets: &'a [u8], end: &[u8]) -> &'a [u8]
    requires { length end.now ≤ length octets.now }
    ensures { result.now ≡ take (length octets.entry.now - length end.now) octets.entry.now }
{
    &octets[..octets.len() - end.len()]
}

/// Law: every Data has covered octets. An Interest has covered octets exactly if the Interest is
/// signed and the last component of its name is the digest of parameters. The covered octets end
/// where the SignatureValue or the InterestSignatureValue begins. The covered octets of an Interest
/// are all components of its name before the digest of parameters, followed by a second part. The
/// second part begins with the first octet that the digest of parameters covers.
pub fn signed_packets_have_covered_octets()
    ensures data { (text : List ℕ) (d : PlainData) → IsData text d
        → (covered : List ℕ) × Covered (AData text d) covered [] }
    ensures interest { (text : List ℕ) (i : PlainInterest) → IsInterest text i
        → (((first second : List ℕ) × Covered (AnInterest text i) first second)
        ↔ (IsSome i.signature × EndsInDigest i.name)) }
    ensures data_ends { (text covered : List ℕ) (d : PlainData) → IsData text d
        → Covered (AData text d) covered [] → EndsBeforeValue d.signature.value text covered }
    ensures interest_ends { (text first second : List ℕ) (i : PlainInterest) (s : PlainSignature)
        → IsInterest text i → i.signature ≡ Some s → Covered (AnInterest text i) first second
        → EndsAtSignature i.name s.value text first second }
{}

/// Law: a packet determines the two parts that its signature covers.
pub fn covered_octets_have_one_reading()
    ensures { (packet : PlainFrame) (first second other_first other_second : List ℕ)
        → Covered packet first second → Covered packet other_first other_second
        → (first ≡ other_first) × (second ≡ other_second) }
{}

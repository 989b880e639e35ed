ghost use Rattle.std.specs.Prelude.{◌≡◌, ◌≤◌, ◌↔◌, ◌⊎◌, List, length, IsTrue, IfOk};
ghost use Rattle.std.specs.Ordering.{eq_by_cmp, is_lt};
ghost use Rattle.sha2.specs.Sha256.{sha256};
ghost use Rattle.ndn_tlv.specs.Element.{Field, IsElements};
ghost use Rattle.ndn_names.specs.Name.{IsPrefix};
ghost use Rattle.ndn_names.specs.Order.{name_cmp};
ghost use Rattle.ndn_names.specs.View.{components};
ghost use Rattle.ndn_packets.specs.Answers.{begins_with};
ghost use Rattle.ndn_packets.specs.FullName.{all_components, digest_in, is_near};

use crate::data::Data;
use crate::field_writer::{DIGEST_COMPONENT_LEN, DIGEST_LEN};
use ndn_names::Name;
use ndn_names::component_type::{IMPLICIT_SHA256_DIGEST, PARAMETERS_SHA256_DIGEST};
use ndn_tlv::{Memory, put_element};
use std::alloc::Global;
use std::cmp::Ordering;
use std::marker::Model;

/// The full name of a Data: its name and its implicit digest (NDN Packet Format 0.3, "Name",
/// "Implicit Digest Component").
#[derive(Drop)]
pub struct FullName {
    // The TLV-VALUE of the full name. A full name may have 65 components, which are too many for a
    // `Name`.
    octets: Vec<u8>,
}

impl Model for FullName {
    ghost use Rattle.ndn_packets.specs.FullName.{PlainFullName, full_name_code, shown, IsFullName};

    ghost Value = { PlainFullName };

    ghost coded = { full_name_code };

    ghost view = { λ f. shown f.octets.items };

    ghost invariant = { λ f. IsFullName f.octets.items };
}

impl FullName {
    /// Returns the full name of a Data. No other function of `FullName` computes the digest.
    pub fn new(alloc: Global, packet: &Data<'_>) -> Result<FullName, Memory>
        ensures { IfOk result (λ f. f ≡ record {
          name = components packet.now.name;
          digest = sha256 packet.now.whole.now;
        }) }
    {
        let mut octets = Vec::from_slice(alloc, packet.name.as_octets())?;
        put_element(
            &mut octets,
            u32::from(IMPLICIT_SHA256_DIGEST),
            &packet.digest(),
        )?;
        Ok(FullName { octets })
    }

    /// Returns the TLV-VALUE of the full name.
    pub fn as_octets(&self) -> &[u8]
        ensures { IsElements result.now (all_components self.now) }
    {
        &self.octets
    }

    /// Compares full names in canonical order.
    pub fn compare(&self, other: &FullName) -> Ordering
        ensures { result ≡ name_cmp (all_components self.now) (all_components other.now) }
    {
        self.octets.as_slice().cmp(other.octets.as_slice())
    }

    /// Returns whether the two full names are equal. The digests are compared before the whole full
    /// names, because the digests of different Data usually differ in their first octet.
    pub fn is_same(&self, other: &FullName) -> bool
        ensures { result ≡ eq_by_cmp name_cmp (all_components self.now) (all_components other.now) }
    {
        let mine = self.octets.as_slice();
        let its = other.octets.as_slice();
        digest_of(mine) == digest_of(its) && self.compare(other).is_eq()
    }

    /// Returns whether, in canonical order, the full name comes before the name whose TLV-VALUE is
    /// `octets`.
    pub fn is_below(&self, octets: &[u8]) -> bool
        ensures { (name : List Field) → IsElements octets.now name
            → result ≡ is_lt (name_cmp (all_components self.now) name) }
    {
        self.octets.as_slice().cmp(octets).is_lt()
    }

    /// Returns whether `octets` are the TLV-VALUE of the full name.
    pub fn is(&self, octets: &[u8]) -> bool
        ensures { (name : List Field) → IsElements octets.now name
            → IsTrue result ↔ (all_components self.now ≡ name) }
    {
        self.octets.as_slice() == octets
    }

    /// Returns whether the full name begins with `name`.
    pub fn is_under(&self, name: Name<'_>) -> bool
        ensures prefix { IsTrue result
            ↔ IsPrefix (components name.entry) (all_components self.now) }
        ensures exact { result ≡ begins_with (components name.entry) (all_components self.now) }
    {
        self.octets.as_slice().starts_with(name.as_octets())
    }

    /// Returns whether the full name is near `name`. The full name is near `name` if two conditions
    /// are met. First, the full name begins with `name`. Second, if `can_be_prefix` is false and
    /// the full name has components after `name`, the type of the first of these components is at
    /// most 1 (the type of an implicit digest). If a Data answers an Interest that has the name
    /// `name` and the CanBePrefix `can_be_prefix`, the full name of the Data is near `name`.
    pub fn is_near(&self, name: Name<'_>, can_be_prefix: bool) -> bool
        ensures { result ≡ is_near (components name.entry) can_be_prefix
            (all_components self.now) }
    {
        if !self.is_under(name) {
            return false;
        }
        if can_be_prefix {
            return true;
        }
        match self.as_octets().get(name.as_octets().len()) {
            Some(kind) => *kind < PARAMETERS_SHA256_DIGEST as u8,
            None => true,
        }
    }

    /// Returns whether `name` is the full name without its digest.
    pub fn is_of(&self, name: Name<'_>) -> bool
        ensures { IsTrue result ↔ (components name.entry ≡ self.now.name) }
    {
        let octets = self.octets.as_slice();
        name.as_octets() == &octets[..octets.len() - DIGEST_COMPONENT_LEN]
    }

    /// Returns whether `name` is the full name, or is the full name without its digest.
    pub fn is_named(&self, name: Name<'_>) -> bool
        ensures { IsTrue result ↔ ((components name.entry ≡ self.now.name)
            ⊎ (components name.entry ≡ all_components self.now)) }
    {
        name.as_octets() == self.octets.as_slice() || self.is_of(name)
    }
}

/// Returns the implicit digest at the end of the octets of a full name.
fn digest_of(octets: &[u8]) -> &[u8]
    requires { 34 ≤ length octets.now }
    ensures { result.now ≡ digest_in octets.now }
{
    &octets[octets.len() - DIGEST_LEN..]
}

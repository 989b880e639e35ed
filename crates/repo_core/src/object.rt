ghost use Rattle.std.specs.Prelude.{◌≡◌, ◌↔◌, ℕ, List, IfOk, IsTrue, false};
ghost use Rattle.std.specs.Ordering.{is_lt};
ghost use Rattle.ndn_tlv.specs.Element.{Field, IsElements};
ghost use Rattle.ndn_names.specs.Order.{name_cmp};
ghost use Rattle.ndn_names.specs.View.{components};
ghost use Rattle.ndn_packets.specs.Answers.{begins_with};
ghost use Rattle.repo_core.specs.Objects.{full_name_answers, object_of};
ghost use Rattle.ndn_packets.specs.FullName.{is_near};

use ndn_names::Name;
use ndn_packets::{Data, FullName};
use ndn_tlv::Memory;
use std::alloc::Global;
use std::marker::Model;

/// A stored Data. In contracts, an object is the pair of the full name and the octets of the Data.
/// At run time, an object is one pointer, so a list of objects can be shifted quickly.
#[derive(Drop)]
pub struct Object {
    stored: Box<Stored>,
}

/// The contents of a stored Data.
#[derive(Drop)]
struct Stored {
    full_name: FullName,
    octets: Vec<u8>,
}

impl Model for Object {
    ghost use Rattle.std.specs.Prelude.{◌≡◌, ℕ, List};
    ghost use Rattle.std.specs.Coded.{coded×, coded_list, coded_ℕ};
    ghost use Rattle.sha2.specs.Sha256.{sha256};
    ghost use Rattle.ndn_tlv.specs.Element.{Field};
    ghost use Rattle.ndn_names.specs.Key.{name_code};
    ghost use Rattle.ndn_packets.specs.FullName.{all_components};

    ghost Value = { List Field × List ℕ };

    ghost coded = { coded× name_code (coded_list coded_ℕ) };

    ghost view = { λ o. (all_components o.stored.value.full_name, o.stored.value.octets.items) };

    ghost invariant = { λ o. o.stored.value.full_name.digest ≡ sha256 o.stored.value.octets.items };
}

impl Object {
    /// Creates an object with a copy of the Data `packet`. The implicit digest is computed once, in
    /// this function.
    pub fn new(alloc: Global, packet: &Data<'_>) -> Result<Object, Memory>
        ensures { IfOk result (λ o. o ≡ object_of packet.now) }
    {
        let full_name = FullName::new(alloc, packet)?;
        let octets = Vec::from_slice(alloc, packet.whole)?;
        let stored = Box::new(alloc, Stored { full_name, octets })?;
        Ok(Object { stored })
    }

    /// Returns the octets of the Data.
    pub fn octets(&self) -> &[u8]
        ensures { result.now ≡ self.now.1 }
    {
        &self.stored.octets
    }

    /// Returns the TLV-VALUE of the full name.
    pub fn full_name(&self) -> &[u8]
        ensures { IsElements result.now self.now.0 }
    {
        self.stored.full_name.as_octets()
    }

    /// Returns whether the full name is less than the name with the TLV-VALUE `octets`, in
    /// canonical order.
    pub fn is_below(&self, octets: &[u8]) -> bool
        ensures { (name : List Field) → IsElements octets.now name
            → result ≡ is_lt (name_cmp self.now.0 name) }
    {
        self.stored.full_name.is_below(octets)
    }

    /// Returns whether the full name has the TLV-VALUE `octets`.
    pub fn is(&self, octets: &[u8]) -> bool
        ensures { (name : List Field) → IsElements octets.now name
            → IsTrue result ↔ (self.now.0 ≡ name) }
    {
        self.stored.full_name.is(octets)
    }

    /// Returns whether both objects have the same full name and the same octets.
    pub fn is_same(&self, other: &Object) -> bool
        ensures { IsTrue result → self.now ≡ other.now }
    {
        self.is(other.full_name()) && self.octets() == other.octets()
    }

    /// Returns whether this object is the Data `packet`.
    pub fn is_of(&self, packet: &Data<'_>) -> bool
        ensures { IsTrue result ↔ (self.now ≡ object_of packet.now) }
    {
        let stored = &*self.stored;
        stored.octets.as_slice() == packet.whole && stored.full_name.is_of(packet.name)
    }

    /// Returns whether `name` is a prefix of the full name.
    fn is_under(&self, name: Name<'_>) -> bool
        ensures { result ≡ begins_with (components name.entry) self.now.0 }
    {
        self.stored.full_name.is_under(name)
    }

    /// Returns whether `name` is the name or the full name of the Data.
    fn is_named(&self, name: Name<'_>) -> bool
        ensures { result ≡ full_name_answers (components name.entry) false self.now.0 }
    {
        self.stored.full_name.is_named(name)
    }

    /// Returns whether the Data answers an Interest with this name and this CanBePrefix flag.
    pub fn answers(&self, name: Name<'_>, can_be_prefix: bool) -> bool
        ensures { result ≡ full_name_answers (components name.entry) can_be_prefix self.now.0 }
    {
        if can_be_prefix {
            self.is_under(name)
        } else {
            self.is_named(name)
        }
    }

    /// Returns whether two conditions are true. First, the full name begins with `name`. Second,
    /// `can_be_prefix` is true, or the component of the full name after `name`, if there is one,
    /// has a type less than 2. Only objects for which `is_near` is true can answer an Interest with
    /// this name and this CanBePrefix flag.
    pub fn is_near(&self, name: Name<'_>, can_be_prefix: bool) -> bool
        ensures { result ≡ is_near (components name.entry) can_be_prefix self.now.0 }
    {
        self.stored.full_name.is_near(name, can_be_prefix)
    }
}

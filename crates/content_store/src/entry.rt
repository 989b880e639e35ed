ghost use Rattle.std.specs.Prelude.{◌≡◌, ◌↔◌, ◌⊎◌, IsTrue, IfOk};
ghost use Rattle.std.specs.Ordering.{is_lt};
ghost use Rattle.sha2.specs.Sha256.{sha256};
ghost use Rattle.ndn_names.specs.Name.{IsPrefix};
ghost use Rattle.ndn_names.specs.Order.{name_cmp};
ghost use Rattle.ndn_names.specs.View.{components};
ghost use Rattle.ndn_packets.specs.Answers.{full_name};
ghost use Rattle.ndn_packets.specs.FullName.{is_near};
ghost use Rattle.ndn_packets.specs.Key.{plain_key};
ghost use Rattle.content_store.specs.Store.{cached_at, full_name_of, IsFreshData, CanServe};
ghost use Rattle.content_store.specs.Blocks.{fresh_until};

use crate::full_name::{HEAD_LEN, compare_full_names, compare_heads, compare_with_name};
use ndn_names::component_type::PARAMETERS_SHA256_DIGEST;
use ndn_names::{Name, NameBuf};
use ndn_packets::{Data, Key};
use ndn_tlv::Memory;
use std::alloc::Global;
use std::cmp::Ordering;
use std::marker::Model;

/// A cached Data. The implicit digest of the Data is computed when a comparison needs it.
#[derive(Drop)]
pub struct Entry {
    // The first 32 octets of the encoded name, if the encoded name has at least 32 octets. These
    // octets decide most comparisons.
    head: Option<[u8; HEAD_LEN]>,
    name: NameBuf,
    octets: Vec<u8>,
    freshness: u64,
    arrival: u64,
}

impl Model for Entry {
    ghost use Rattle.content_store.specs.Store.{CachedData, cached_code};
    ghost use Rattle.std.specs.Prelude.{IfSome};
    ghost use Rattle.content_store.specs.Entry.{shown, IsHead};

    ghost Value = { CachedData };

    ghost coded = { cached_code };

    ghost view = { λ e. shown e.name e.octets.items e.freshness e.arrival };

    ghost invariant = { λ e. IfSome e.head (λ h. IsHead e.name h) };
}

impl Entry {
    /// Creates an entry with a copy of the Data `packet`, which arrived at the moment `arrival`.
    pub fn new(alloc: Global, packet: &Data<'_>, arrival: u64) -> Result<Entry, Memory>
        ensures { IfOk result (λ e. e ≡ cached_at packet.now arrival) }
    {
        let name = NameBuf::from_name(alloc, packet.name)?;
        let octets = Vec::from_slice(alloc, packet.whole)?;
        Ok(Entry {
            head: name.view().as_octets().first_chunk::<HEAD_LEN>().copied(),
            name,
            octets,
            freshness: packet.freshness,
            arrival,
        })
    }

    /// Sets the FreshnessPeriod to `freshness` and the moment of arrival to `arrival`.
    pub fn renew(&mut self, freshness: u64, arrival: u64)
        ensures { self.new ≡ record self.old { freshness = freshness; arrival = arrival } }
    {
        self.freshness = freshness;
        self.arrival = arrival;
    }

    /// Returns the octets of the Data.
    pub fn octets(&self) -> &[u8]
        ensures exact { result.now ≡ self.now.octets }
        ensures digest { self.now.digest ≡ sha256 result.now }
    {
        &self.octets
    }

    /// Returns the name of the Data.
    #[inline(always)]
    pub fn name(&self) -> Name<'_>
        ensures { components result ≡ self.now.name }
    {
        self.name.view()
    }

    /// Compares, in canonical order, the full name of this entry with `name`.
    #[inline(always)]
    fn compare(&self, name: Name<'_>) -> Ordering
        ensures { result ≡ name_cmp (full_name_of self.now) (components name.entry) }
    {
        match compare_heads(&self.head, name) {
            Ordering::Equal => compare_with_name(self.name.view(), &self.octets, name),
            order => order,
        }
    }

    /// Compares, in canonical order, the full name of this entry with the full name of a Data. The
    /// Data is given by its name and octets.
    #[inline(always)]
    pub fn compare_full(&self, name: Name<'_>, octets: &[u8]) -> Ordering
        ensures { result ≡ name_cmp (full_name_of self.now)
            (full_name (components name.entry) (sha256 octets.now)) }
    {
        match compare_heads(&self.head, name) {
            Ordering::Equal => { compare_full_names(self.name.view(), &self.octets, name, octets) }
            order => order,
        }
    }

    /// Returns whether the full name of this entry comes before `name`, in canonical order.
    #[inline(always)]
    pub fn is_below(&self, name: Name<'_>) -> bool
        ensures { result ≡ is_lt (name_cmp (full_name_of self.now) (components name.entry)) }
    {
        self.compare(name).is_lt()
    }

    /// Returns whether the full name of this entry begins with `name`.
    pub fn is_under(&self, name: Name<'_>) -> bool
        ensures { IsTrue result ↔ IsPrefix (components name.entry) (full_name_of self.now) }
    {
        name.is_prefix_of(self.name.view()) || self.compare(name).is_eq()
    }

    /// Returns whether `name` is the name or the full name of the Data.
    fn is_named(&self, name: Name<'_>) -> bool
        ensures { IsTrue result ↔ ((components name.entry ≡ self.now.name)
            ⊎ (components name.entry ≡ full_name_of self.now)) }
    {
        self.name.view().compare(name).is_eq() || self.compare(name).is_eq()
    }

    /// Returns whether the full name of this entry is near the key's name. A full name is near the
    /// key's name if it begins with the key's name and satisfies one more condition: the key has
    /// CanBePrefix, or the component after the key's name, if there is one, has a type number of at
    /// most 1. Only Data with a full name near the key's name can serve an Interest of this key.
    #[inline(always)]
    pub fn is_near(&self, key: Key<'_>) -> bool
        ensures { result
            ≡ is_near (components key.entry.name) key.entry.can_be_prefix (full_name_of self.now) }
    {
        if !self.is_under(key.name) {
            return false;
        }
        if key.can_be_prefix {
            return true;
        }
        match self.name.view().as_octets().get(key.name.as_octets().len()) {
            Some(kind) => *kind < PARAMETERS_SHA256_DIGEST as u8,
            None => true,
        }
    }

    /// Returns whether the Data can serve an Interest of this key: whether the Data answers the
    /// Interest and, if the key has MustBeFresh, is fresh at the moment `now`.
    pub fn can_serve(&self, key: Key<'_>, now: u64) -> bool
        ensures { IsTrue result ↔ CanServe (plain_key key.entry) now self.now }
    {
        let answers = self.is_named(key.name) || (key.can_be_prefix && self.is_under(key.name));
        answers && (!key.must_be_fresh || self.is_fresh(now))
    }

    /// Returns the moment until which the Data is fresh: its arrival plus its FreshnessPeriod, or
    /// 2^64 - 1 if the sum is greater.
    pub fn fresh_until(&self) -> u64
        ensures { result ≡ fresh_until self.now }
    {
        self.arrival.saturating_add(self.freshness)
    }

    /// Returns whether the Data is fresh at the moment `now`: whether `now` is before the moment
    /// that `fresh_until` returns.
    fn is_fresh(&self, now: u64) -> bool
        ensures { IsTrue result ↔ IsFreshData self.now now }
    {
        now < self.fresh_until()
    }
}

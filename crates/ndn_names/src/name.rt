ghost use Rattle.std.specs.Prelude.{◌≡◌, ◌↔◌, ◌<◌, ◌≤◌, ℕ, List, [], ◌++◌, ◌+◌, length, take, drop, Result, Ok, Err, MatchResult, IsTrue, IfOk, IfSome, IsOkAnd, IsErrOf, slice_get, slice_index};
ghost use Rattle.ndn_tlv.specs.Element.{Field};
ghost use Rattle.ndn_names.specs.Reading.{name_at};
ghost use Rattle.ndn_names.specs.Name.{IsNameValue, IsNameOctets, IsNameOctets-prop, components_of};

use crate::component::{Component, first_component};
use crate::components::Components;
use crate::fault::NameFault;
use crate::first_of_type::{FirstOfType, first_of_type};
use std::cmp::Ordering;

/// The greatest number of components of a name.
pub const MAX_COMPONENTS: usize = 64;

/// A name of at most 64 components, which borrows the TLV-VALUE of a Name element (NDN Packet
/// Format 0.3, "Name").
#[derive(Clone, Copy, Debug)]
pub struct Name<'a> {
    pub(crate) octets: &'a [u8],
    ghost spelled: { IsNameOctets octets.now } by { IsNameOctets-prop octets.now },
}

/// Returns the first fault if the octets are not the TLV-VALUE of a name.
fn check_components(octets: &[u8]) -> Result<(), NameFault>
    ensures { MatchResult result (λ _. (cs : List Field) × (name_at octets.now ≡ Ok cs))
        (λ fault. name_at octets.now ≡ Err fault) }
{
    let mut rest = octets;
    let mut count = 0;
    while !rest.is_empty() {
        if count == MAX_COMPONENTS {
            return Err(NameFault::TooManyComponents);
        }
        (_, rest) = first_component(rest)?;
        count += 1;
    }
    Ok(())
}

impl<'a> Name<'a> {
    ghost use Rattle.std.specs.Ordering.{MatchOrdering};
    ghost use Rattle.std.specs.Option.{option_map};
    ghost use Rattle.ndn_tlv.specs.Element.{element};
    ghost use Rattle.ndn_tlv.specs.Reading.{on_result};
    ghost use Rattle.ndn_names.specs.Name.{octets_of, IsPrefix};
    ghost use Rattle.ndn_names.specs.FirstOfType.{FindsFirst};
    ghost use Rattle.ndn_names.specs.Order.{Less, name_cmp};
    ghost use Rattle.ndn_names.specs.View.{components, field_of, components_left};

    /// Reads the TLV-VALUE of a Name element, from left to right.
    ///
    /// Returns the first fault if the octets are not the TLV-VALUE of a name: see `NameFault`.
    /// `Memory` is never returned.
    pub fn read(value: &'a [u8]) -> Result<Name<'a>, NameFault>
        // The octets are the TLV-VALUE of the returned name.
        ensures found { IfOk result (λ name. IsNameValue value.now (components name)) }
        // If the octets are the TLV-VALUE of a name, exactly this name is returned.
        ensures only { (cs : List Field) → IsNameValue value.now cs
            → IsOkAnd result (λ name. components name ≡ cs) }
        // A returned fault is the first fault from the left.
        ensures exact { on_result (λ name. Ok (components name)) Err result ≡ name_at value.now }
        ensures takes_no_memory { ¬ IsErrOf result NameFault.Memory }
    {
        check_components(value)?;
        Ok(Name { octets: value })
    }

    /// Reads a name as `read` does. Returns the name and its first component of type `kind`. The
    /// second result is `None` if no component has this type.
    #[inline(always)]
    pub fn read_finding(
        value: &'a [u8],
        kind: u16,
    ) -> Result<(Name<'a>, Option<FirstOfType<'a>>), NameFault>
        ensures exact { on_result (λ x. Ok (components x.0)) Err result ≡ name_at value.now }
        ensures first { IfOk result (λ x. FindsFirst kind (components x.0) x.1) }
    {
        let first = first_of_type(value, kind)?;
        Ok((Name { octets: value }, first))
    }

    /// Returns the TLV-VALUE of the name.
    pub fn as_octets(&self) -> &'a [u8]
        ensures { IsNameValue result.now (components self.now) }
    {
        self.octets
    }

    /// Returns the name that consists of the first `n` components.
    pub fn prefix(&self, n: usize) -> Name<'a>
        requires { n ≤ length (components self.now) }
        ensures { components result ≡ take n (components self.now) }
    {
        let mut after = self.iter();
        for _ in 0..n {
            after.next();
        }
        Name {
            octets: &self.octets[..self.octets.len() - after.rest.len()],
        }
    }

    /// Returns whether `other` begins with the components of this name. Each name is a prefix of
    /// itself.
    pub fn is_prefix_of(&self, other: Name<'_>) -> bool
        ensures { IsTrue result ↔ IsPrefix (components self.now) (components other.entry) }
    {
        other.as_octets().starts_with(self.as_octets())
    }

    /// Compares two names in canonical order (NDN Packet Format 0.3, "Name", "Canonical Order").
    pub fn compare(&self, other: Name<'_>) -> Ordering
        ensures exact { result ≡ name_cmp (components self.now) (components other.entry) }
        ensures order { MatchOrdering result (Less (components self.now) (components other.entry))
            (components self.now ≡ components other.entry)
            (Less (components other.entry) (components self.now)) }
    {
        self.as_octets().cmp(other.as_octets())
    }

    /// Returns an iterator over the components, from the first to the last.
    pub fn iter(&self) -> Components<'a>
        ensures { components_left result ≡ components self.now }
    {
        Components {
            rest: self.as_octets(),
        }
    }

    /// Returns the number of components, at most 64.
    pub fn len(&self) -> usize
        ensures exact { result ≡ length (components self.now) }
        ensures small { result ≤ 64 }
    {
        self.iter().count()
    }

    /// Returns whether the name has no components.
    pub fn is_empty(&self) -> bool
        ensures { IsTrue result ↔ (components self.now ≡ []) }
    {
        self.as_octets().is_empty()
    }

    /// Returns the component at index `i`, or `None` if the name has at most `i` components. The
    /// first component has index 0.
    pub fn component(&self, i: usize) -> Option<Component<'a>>
        ensures exact { option_map field_of result ≡ slice_get (components self.now) i }
        // In the name's octets, the components before index `i` come first, then the returned
        // component, then the components after it.
        ensures place { IfSome result (λ c. octets_of (components self.now)
            ≡ octets_of (take i (components self.now))
            ++ (element (field_of c) ++ octets_of (drop (i + 1) (components self.now)))) }
    {
        self.iter().nth(i)
    }
}

impl<'a> IntoIterator for Name<'a> {
    type Item = Component<'a>;

    type IntoIter = Components<'a>;

    ghost use Rattle.ndn_names.specs.View.{components, components_left};

    ghost into_iter_gives = { λ name it. components_left it ≡ components name };

    fn into_iter(self) -> Components<'a> {
        self.iter()
    }
}

impl<'a> IntoIterator for &Name<'a> {
    type Item = Component<'a>;

    type IntoIter = Components<'a>;

    ghost use Rattle.ndn_names.specs.View.{components, components_left};

    ghost into_iter_gives = { λ name it. components_left it ≡ components name.now };

    fn into_iter(self) -> Components<'a> {
        self.iter()
    }
}

/// Law: octets are the TLV-VALUE of at most one name. For the TLV-VALUE of a name, `name_at` and
/// `components_of` return this name.
pub fn names_have_one_reading()
    ensures one { (value : List ℕ) (a b : List Field) → IsNameValue value a → IsNameValue value b
        → a ≡ b }
    ensures exact { (value : List ℕ) (cs : List Field) → ((i : ℕ) → slice_index value i < 256)
        → ((name_at value ≡ Ok cs) ↔ IsNameValue value cs) }
    ensures shown { (value : List ℕ) (cs : List Field) → IsNameValue value cs
        → components_of value ≡ cs }
{}

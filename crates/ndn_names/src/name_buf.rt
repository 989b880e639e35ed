ghost use Rattle.std.specs.Prelude.{◌≡◌, ◌<◌, ◌⊎◌, List, [], ◌∷◌, ◌++◌, length, Ok, Err, IfOk, OnOk, OnErr, MatchResult};
ghost use Rattle.ndn_tlv.specs.Element.{Field};
ghost use Rattle.ndn_names.specs.Name.{IsNameValue, components_of};

use crate::component::component_kind;
use crate::fault::NameFault;
use crate::name::{MAX_COMPONENTS, Name};
use ndn_tlv::{Memory, put_element};
use std::alloc::Global;
use std::marker::Model;

/// A name of at most 64 components that owns its octets (NDN Packet Format 0.3, "Name").
#[derive(Debug, Drop)]
pub struct NameBuf {
    octets: Vec<u8>,
}

impl Model for NameBuf {
    ghost Value = { List Field };

    ghost view = { λ name. components_of name.octets.items };

    ghost invariant = { λ name. IsNameValue name.octets.items (components_of name.octets.items) };
}

impl NameBuf {
    ghost use Rattle.ndn_names.specs.Reading.{component_of, component_after, IsFaultOrMemory};
    ghost use Rattle.ndn_names.specs.View.{components};

    /// Returns the name without components.
    pub fn new(alloc: Global) -> NameBuf
        ensures { result ≡ [] }
    {
        NameBuf {
            octets: Vec::new(alloc),
        }
    }

    /// Returns the name with the TLV-VALUE `octets`.
    pub(crate) fn from_octets(octets: Vec<u8>) -> NameBuf
        requires { IsNameValue octets.items (components_of octets.items) }
        ensures { result ≡ components_of octets.items }
    {
        NameBuf { octets }
    }

    /// Copies a name.
    pub fn from_name(alloc: Global, name: Name<'_>) -> Result<NameBuf, Memory>
        ensures { IfOk result (λ copy. copy ≡ components name.entry) }
    {
        let octets = Vec::from_slice(alloc, name.as_octets())?;
        Ok(NameBuf { octets })
    }

    /// Copies this name.
    pub fn try_clone(&self, alloc: Global) -> Result<NameBuf, Memory>
        ensures { IfOk result (λ copy. copy ≡ self.now) }
    {
        NameBuf::from_name(alloc, self.view())
    }

    /// Appends a component with the type `kind` and the value `value`.
    ///
    /// If the component cannot be appended, the name does not change. In this case, the first fault
    /// that applies is returned, in this order: `TooManyComponents` if the name has 64 components,
    /// `BadComponent` for type 0, `BadDigestLength`, `Memory`.
    pub fn append(&mut self, kind: u16, value: &[u8]) -> Result<(), NameFault>
        ensures ok { OnOk result (self.new ≡ self.old ++ (kind, value.now) ∷ []) }
        ensures err { OnErr result (self.new ≡ self.old) }
        // The fault is the one that `component_after` returns, or `Memory` if `component_after`
        // returns no fault.
        ensures exact { let next = component_after (length self.old) (Ok (kind, value.now)) in
            MatchResult result (λ _. next ≡ Ok (kind, value.now))
            (IsFaultOrMemory next (kind, value.now)) }
    {
        if self.view().len() == MAX_COMPONENTS {
            return Err(NameFault::TooManyComponents);
        }
        component_kind(u32::from(kind), value)?;
        self.push(kind, value)?;
        Ok(())
    }

    /// Appends a component that has already been checked.
    fn push(&mut self, kind: u16, value: &[u8]) -> Result<(), Memory>
        requires room { length self.old < 64 }
        requires fits { component_of (kind, value.now) ≡ Ok (kind, value.now) }
        ensures ok { OnOk result (self.new ≡ self.old ++ (kind, value.now) ∷ []) }
        ensures err { OnErr result (self.new ≡ self.old) }
    {
        put_element(&mut self.octets, u32::from(kind), value)?;
        Ok(())
    }

    /// Borrows the name as a `Name`.
    pub fn view(&self) -> Name<'_>
        ensures { components result ≡ self.now }
    {
        Name {
            octets: &self.octets,
        }
    }
}

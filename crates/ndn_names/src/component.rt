ghost use Rattle.std.specs.Prelude.{◌≡◌, ◌<◌, ◌≢◌, ◌++◌, [], ◌∷◌, ℕ, List, Result, Ok, Err, length, IfOk, MatchResult};
ghost use Rattle.ndn_tlv.specs.declared.fault.TlvFault.{TlvFault};
ghost use Rattle.ndn_tlv.specs.Element.{Field, element};
ghost use Rattle.ndn_tlv.specs.Reading.{elements_of, on_result};
ghost use Rattle.ndn_names.specs.Reading.{component_of, component_at, IsFirst, IsNoFirst};

use crate::component_type::PARAMETERS_SHA256_DIGEST;
use crate::fault::NameFault;
use ndn_tlv::first_element;

/// The length of a digest, in octets.
pub(crate) const SHA256_LEN: usize = 32;

/// A name component that borrows its octets (NDN Packet Format 0.3, "Name").
#[derive(Clone, Copy, Debug)]
pub struct Component<'a> {
    /// The TLV-TYPE, for example 8 for a GenericNameComponent.
    pub kind: u16,
    /// The octets of the TLV-VALUE: 32 octets in a digest, which has type 1 or 2.
    pub value: &'a [u8],
}

/// Returns `kind` as a `u16`, if a component may have the type `kind` and the value `value`.
/// Otherwise returns the fault that `kind_by_len` returns.
#[inline(always)]
pub(crate) fn component_kind(kind: u32, value: &[u8]) -> Result<u16, NameFault>
    ensures { on_result (λ k. Ok (k, value.now)) Err result ≡ component_of (kind, value.now) }
{
    kind_by_len(kind, value.len())
}

/// Returns `kind` as a `u16`, if a component may have the type `kind` and a value of `len` octets.
/// Returns `BadComponent` for type 0 and for types above 65535. Returns `BadDigestLength` for a
/// digest if `len` is not 32.
pub(crate) fn kind_by_len(kind: u32, len: usize) -> Result<u16, NameFault>
    ensures { (value : List ℕ) → len ≡ length value
        → on_result (λ k. Ok (k, value)) Err result ≡ component_of (kind, value) }
{
    let Ok(kind) = u16::try_from(kind) else {
        return Err(NameFault::BadComponent);
    };
    if kind == 0 {
        return Err(NameFault::BadComponent);
    }
    if kind <= PARAMETERS_SHA256_DIGEST && len != SHA256_LEN {
        return Err(NameFault::BadDigestLength);
    }
    Ok(kind)
}

/// Returns the component at the front of the octets, and the octets after it. Returns
/// `BadComponent` if the octets do not begin with an element, or if the type of the first element
/// is not from 1 to 65535. Returns `BadDigestLength` for a digest whose value does not have 32
/// octets.
#[inline(always)]
pub(crate) fn first_component<'a>(octets: &'a [u8]) -> Result<(Component<'a>, &'a [u8]), NameFault>
    ensures shorter { IfOk result (λ x. length x.1.now < length octets.now) }
    ensures front { IfOk result (λ x. octets.now ≡ element (x.0.kind, x.0.value.now) ++ x.1.now) }
    ensures walk { MatchResult result
        (λ x. IsFirst octets.now (x.0.kind, x.0.value.now) x.1.now)
        (IsNoFirst octets.now) }
{
    let Ok((element, rest)) = first_element(octets) else {
        return Err(NameFault::BadComponent);
    };
    let kind = component_kind(element.kind, element.value)?;
    let value = element.value;
    Ok((Component { kind, value }, rest))
}

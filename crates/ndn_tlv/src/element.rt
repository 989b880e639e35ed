ghost use Rattle.std.specs.Prelude.{◌≡◌, ◌≢◌, ◌↔◌, ℕ, ◌+◌, ◌<◌, ◌≤◌, ◌++◌, List, [], ◌∷◌, length, take, map, slice_index, vec_len, IfOk, IfErr, OnOk, OnErr, IsOk, IsOkAnd, MatchResult, Ok, Err};
ghost use Rattle.std.specs.List.{flat_map, AllByRecursion};
ghost use Rattle.std.specs.Vec.{vec_capacity};
ghost use Rattle.ndn_tlv.specs.declared.fault.TlvFault.{TlvFault};
ghost use Rattle.ndn_tlv.specs.Element.{Field, IsField, IsElement, IsElements, element};
ghost use Rattle.ndn_tlv.specs.Reading.{type_at, element_at, elements_of, ElementFault, EndsInFault, on_result};

use crate::fault::TlvFault;
use crate::memory::Memory;
use crate::number::{leading_number, put_number};

/// An element that borrows its octets from a buffer (NDN Packet Format 0.3, "Type-Length-Value
/// (TLV) Encoding").
#[derive(Clone, Copy, Debug)]
pub struct Element<'a> {
    /// The TLV-TYPE, at least 1.
    pub kind: u32,
    /// The TLV-VALUE.
    pub value: &'a [u8],
    /// All octets of the element, including its type and length.
    pub whole: &'a [u8],
    ghost spelled: { IsElement whole.now kind value.now },
}

#[inline(always)]
fn leading_type(octets: &[u8]) -> Result<(u32, &[u8]), TlvFault>
    ensures { on_result (λ x. Ok (x.0, x.1.now)) Err result ≡ type_at octets.now }
{
    let (kind, rest) = leading_number(octets)?;
    if kind == 0 {
        return Err(TlvFault::TypeZero);
    }
    if kind > u64::from(u32::MAX) {
        return Err(TlvFault::TypeTooLarge);
    }
    Ok((kind as u32, rest))
}

/// Returns the type and the value of the first element, and the octets after the element. Returns
/// the first fault if the octets do not begin with an element.
#[tactic(auto, unfolding(crate::specs::Reading::element_at))]
#[inline(always)]
fn leading_field(octets: &[u8]) -> Result<(u32, &[u8], &[u8]), TlvFault>
    ensures { on_result (λ x. Ok ((x.0, x.1.now), x.2.now)) Err result ≡ element_at octets.now }
{
    let (kind, rest) = leading_type(octets)?;
    let (len, rest) = leading_number(rest)?;
    if len > rest.len() as u64 {
        return Err(TlvFault::Truncated);
    }
    let (value, rest) = rest.split_at(len as usize);
    Ok((kind, value, rest))
}

/// Reads the element at the front of the octets. Returns the element and the octets after it.
///
/// Returns the first fault from the left if the octets do not begin with an element: see
/// `TlvFault`.
#[inline(always)]
pub fn first_element<'a>(octets: &'a [u8]) -> Result<(Element<'a>, &'a [u8]), TlvFault>
    // The octets are the returned element followed by the returned remaining octets.
    ensures found { IfOk result (λ x. IsElement x.0.whole.now x.0.kind x.0.value.now
        × (octets.now ≡ x.0.whole.now ++ x.1.now) × (length x.1.now < length octets.now)) }
    // If the octets begin with an element, exactly this element is returned.
    ensures only { (kind : ℕ) (value rest : List ℕ) → IsField (kind, value)
        → octets.now ≡ element (kind, value) ++ rest
        → IsOkAnd result (λ x. (x.0.kind ≡ kind) × (x.0.value.now ≡ value) × (x.1.now ≡ rest)) }
    // A returned fault says why no element can be read at the front of the octets.
    ensures fault { IfErr result (ElementFault octets.now) }
    ensures exact { on_result (λ x. Ok ((x.0.kind, x.0.value.now), x.1.now)) Err result
        ≡ element_at octets.now }
    // If the octets are not empty, the returned element or fault is the first item that
    // `elements_of` returns for these octets.
    ensures walk { MatchResult result
        (λ x. elements_of octets.now ≡ Ok (x.0.kind, x.0.value.now) ∷ elements_of x.1.now)
        (λ e. octets.now ≢ [] → elements_of octets.now ≡ Err e ∷ []) }
{
    let (kind, value, rest) = leading_field(octets)?;
    let whole = &octets[..octets.len() - rest.len()];
    Ok((Element { kind, value, whole }, rest))
}

/// Appends an element. If memory runs out, the old octets of `out` are kept, but some octets may
/// have been appended after them.
#[inline(always)]
fn put_parts(out: &mut Vec<u8>, kind: u32, value: &[u8]) -> Result<(), Memory>
    ensures ok { OnOk result (out.new.items ≡ out.old.items ++ element (kind, value.now)) }
    ensures begins { take (vec_len out.old) out.new.items ≡ out.old.items }
    ensures room { vec_len out.old + length (element (kind, value.now)) ≤ vec_capacity out.old
        → IsOk result }
    ensures capacity { vec_capacity out.old ≤ vec_capacity out.new }
{
    put_number(out, u64::from(kind))?;
    put_number(out, value.len() as u64)?;
    out.extend_from_slice(value)?;
    Ok(())
}

/// Appends an element: its type and the length of its value, both in shortest form, and then its
/// value (NDN Packet Format 0.3, "Type-Length-Value (TLV) Encoding"). If memory runs out, nothing
/// is appended.
#[inline(always)]
pub fn put_element(out: &mut Vec<u8>, kind: u32, value: &[u8]) -> Result<(), Memory>
    requires { 1 ≤ kind }
    ensures ok { OnOk result (out.new.items ≡ out.old.items ++ element (kind, value.now)) }
    ensures err { OnErr result (out.new.items ≡ out.old.items) }
    ensures room { vec_len out.old + length (element (kind, value.now)) ≤ vec_capacity out.old
        → IsOk result }
    ensures capacity { vec_capacity out.old ≤ vec_capacity out.new }
    ensures spelled { IsElement (element (kind, value.now)) kind value.now }
{
    let len = out.len();
    let done = put_parts(out, kind, value);
    if done.is_err() {
        out.truncate(len);
    }
    done
}

/// Law: octets are the concatenation of at most one list of elements. If octets are the
/// concatenation of a list of elements, `elements_of` returns this list for these octets. If the
/// last item that `elements_of` returns is a fault, this fault says why no element can be read
/// after the preceding elements.
pub fn elements_have_one_reading()
    ensures one { (text : List ℕ) (xs ys : List Field) → IsElements text xs → IsElements text ys
        → xs ≡ ys }
    ensures exact { (text : List ℕ) (fields : List Field) → ((i : ℕ) → slice_index text i < 256)
        → ((elements_of text ≡ map (λ f. Ok f) fields) ↔ IsElements text fields) }
    ensures fault { (text : List ℕ) (fields : List Field) (fault : TlvFault)
        → ((i : ℕ) → slice_index text i < 256)
        → elements_of text ≡ map (λ f. Ok f) fields ++ Err fault ∷ []
        → EndsInFault text fields fault }
{}

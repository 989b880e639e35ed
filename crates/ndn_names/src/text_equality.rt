//! Comparing names by their URI texts, without allocation (NDN Packet Format 0.3, "NDN URI
//! Scheme").

ghost use Rattle.std.specs.Prelude.{◌≡◌, ◌↔◌, ◌∷◌, ℕ, List, length, take, Ok, IsTrue, MatchOption};
ghost use Rattle.ndn_tlv.specs.Element.{Field};
ghost use Rattle.ndn_tlv.specs.Number.{shortest_nni};
ghost use Rattle.ndn_names.specs.ReadsAs.{ReadsAs};
ghost use Rattle.ndn_names.specs.ComponentText.{IsTextOf, SaysFirst, IsNumberIn};
ghost use Rattle.ndn_names.specs.UriReading as read;

use crate::component_text::{ComponentText, ValueText, component_text, first_octet, octet_of};
use crate::name::MAX_COMPONENTS;
use crate::uri_reader::{first_piece, pieces_text};

/// Returns eight octets: the shortest NonNegativeInteger encoding of a number, followed by zeros.
#[tactic(auto, unfolding(ndn_tlv::specs::Number::shortest_nni))]
fn nni_octets(number: u64) -> [u8; 8]
    ensures { take (length (shortest_nni number)) result ≡ shortest_nni number }
{
    let mut octets = [0; 8];
    if number < 256 {
        octets[0] = number as u8;
    } else if number < 65_536 {
        octets[..2].copy_from_slice(&(number as u16).to_be_bytes());
    } else if number < 4_294_967_296 {
        octets[..4].copy_from_slice(&(number as u32).to_be_bytes());
    } else {
        octets.copy_from_slice(&number.to_be_bytes());
    }
    octets
}

/// Returns eight octets: if the value is a number, its shortest NonNegativeInteger encoding
/// followed by zeros, otherwise only zeros.
fn number_octets(value: ValueText<'_>) -> [u8; 8]
    ensures { IsNumberIn result value.entry }
{
    match value {
        ValueText::Number(number) => nni_octets(number),
        _ => [0; 8],
    }
}

/// Returns a text that is not a `Number` and that encodes octets beginning with the component's
/// value. If the value is a number, `number` has to begin with the octets of the value.
fn spelled_out<'a>(component: ComponentText<'a>, number: &'a [u8; 8]) -> ValueText<'a>
    requires { IsNumberIn number.now component.value }
    ensures { (c : Field) → IsTextOf c component.entry → SaysFirst result c.1 }
{
    match component.value {
        ValueText::Number(_) => ValueText::Plain(number),
        value => value,
    }
}

/// Returns the first octet that a text encodes, and the text of the octets after this octet.
/// Returns `None` if the text is empty, is a number, or begins with an invalid encoding of an
/// octet.
fn first_said(value: ValueText<'_>) -> Option<(u8, ValueText<'_>)>
    ensures { (octet : ℕ) (octets : List ℕ) → SaysFirst value.entry (octet ∷ octets)
        → MatchOption result ⊥ (λ x. (x.0 ≡ octet) × SaysFirst x.1 octets) }
{
    match value {
        ValueText::Plain(octets) => {
            let (octet, rest) = octets.split_first()?;
            Some((*octet, ValueText::Plain(rest)))
        }
        ValueText::Escaped(text) => {
            let (first, after) = text.split_first()?;
            let Ok((octet, rest)) = first_octet(*first, after) else {
                return None;
            };
            Some((octet, ValueText::Escaped(rest)))
        }
        ValueText::Hexadecimal(text) => {
            let (high, after) = text.split_first()?;
            let (low, rest) = after.split_first()?;
            let Ok(octet) = octet_of(*high, *low) else {
                return None;
            };
            Some((octet, ValueText::Hexadecimal(rest)))
        }
        ValueText::Number(_) => None,
    }
}

/// Returns whether two texts encode the same first `len` octets.
fn octets_are_equal(len: usize, a: ValueText<'_>, b: ValueText<'_>) -> bool
    ensures { (x y : List ℕ) → SaysFirst a.entry x → SaysFirst b.entry y → len ≡ length x
        → len ≡ length y → (IsTrue result ↔ (x ≡ y)) }
{
    let mut a_rest = a;
    let mut b_rest = b;
    let mut left = len;
    while left > 0 {
        let Some((x, a_after)) = first_said(a_rest) else {
            return false;
        };
        let Some((y, b_after)) = first_said(b_rest) else {
            return false;
        };
        if x != y {
            return false;
        }
        a_rest = a_after;
        b_rest = b_after;
        left -= 1;
    }
    true
}

/// Returns whether two components are equal.
fn components_are_equal(a: ComponentText<'_>, b: ComponentText<'_>) -> bool
    ensures { (x y : Field) → IsTextOf x a.entry → IsTextOf y b.entry
        → (IsTrue result ↔ (x ≡ y)) }
{
    if a.kind != b.kind {
        return false;
    }
    if a.len != b.len {
        return false;
    }
    let a_number = number_octets(a.value);
    let b_number = number_octets(b.value);
    octets_are_equal(a.len, spelled_out(a, &a_number), spelled_out(b, &b_number))
}

/// Returns whether two pieces of text read as the same component.
fn pieces_are_equal(a: &str, b: &str) -> bool
    ensures { IsTrue result ↔ ((c : Field) × (read.component_in a.now ≡ Ok c)
        × (read.component_in b.now ≡ Ok c)) }
{
    let Ok(a) = component_text(a) else {
        return false;
    };
    let Ok(b) = component_text(b) else {
        return false;
    };
    components_are_equal(a, b)
}

/// Returns whether two texts, each a sequence of pieces separated by slashes, read as the same
/// name.
fn paths_are_equal(a: &str, b: &str) -> bool
    ensures { IsTrue result ↔ ((cs : List Field)
        × (read.components_in 0 (read.pieces_of a.now) ≡ Ok cs)
        × (read.components_in 0 (read.pieces_of b.now) ≡ Ok cs)) }
{
    let mut a_rest = a;
    let mut b_rest = b;
    let mut count = 0;
    while !a_rest.is_empty() {
        if b_rest.is_empty() || count == MAX_COMPONENTS {
            return false;
        }
        let (a_piece, a_after) = first_piece(a_rest);
        let (b_piece, b_after) = first_piece(b_rest);
        if !pieces_are_equal(a_piece, b_piece) {
            return false;
        }
        a_rest = a_after;
        b_rest = b_after;
        count += 1;
    }
    b_rest.is_empty()
}

/// Returns whether two URI texts read as the same name, even if their spellings differ. Nothing is
/// allocated. If `a` or `b` does not read as a name, the result is false.
pub fn uris_are_equal(a: &str, b: &str) -> bool
    ensures { IsTrue result ↔ ((cs : List Field) × ReadsAs a.now cs × ReadsAs b.now cs) }
{
    let Ok(a) = pieces_text(a) else {
        return false;
    };
    let Ok(b) = pieces_text(b) else {
        return false;
    };
    paths_are_equal(a, b)
}

//! Finding elements of a given TLV-TYPE, for example in the parameters of commands and in replies.

ghost use Rattle.std.specs.Prelude.{◌≡◌, ◌≤◌, IfSome, length};
ghost use Rattle.std.specs.Option.{option_map};
ghost use Rattle.ndn_tlv.specs.Reading.{elements_of};
ghost use Rattle.ndn_tlv.specs.Fields.{first_of, single};

use crate::element::first_element;

/// Returns the element's value if the octets are exactly one element of type `kind`. Otherwise
/// returns `None`.
pub fn single_element(octets: &[u8], kind: u32) -> Option<&[u8]>
    ensures exact { option_map (λ v. v.now) result ≡ single kind (elements_of octets.now) }
    ensures short { IfSome result (λ v. length v.now ≤ length octets.now) }
{
    let Ok((element, rest)) = first_element(octets) else {
        return None;
    };
    if element.kind == kind && rest.is_empty() {
        return Some(element.value);
    }
    None
}

/// Reads elements from left to right, up to the first element that cannot be read. Returns the
/// value of the first element of type `kind` that is read, or `None` if no such element is read.
pub fn first_field(octets: &[u8], kind: u32) -> Option<&[u8]>
    ensures exact { option_map (λ v. v.now) result ≡ first_of kind (elements_of octets.now) }
    ensures short { IfSome result (λ v. length v.now ≤ length octets.now) }
{
    let mut rest = octets;
    while !rest.is_empty() {
        let Ok((element, after)) = first_element(rest) else {
            return None;
        };
        if element.kind == kind {
            return Some(element.value);
        }
        rest = after;
    }
    None
}

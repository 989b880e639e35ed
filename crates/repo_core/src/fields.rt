//! The fields of a command's parameters.

ghost use Rattle.std.specs.Prelude.{◌≡◌, ◌≤◌, IfSome, length};
ghost use Rattle.std.specs.Option.{option_map};
ghost use Rattle.std.specs.List.{list_all};
ghost use Rattle.ndn_tlv.specs.Fields.{first_of};
ghost use Rattle.ndn_tlv.specs.Reading.{elements_of};
ghost use Rattle.ndn_names.specs.Name.{octets_of};
ghost use Rattle.ndn_names.specs.View.{components};
ghost use Rattle.repo_core.specs.Reading.{can_be_read, flag_of, lifetime_of, name_in};

use crate::types::DEFAULT_LIFETIME;
use ndn_names::Name;
use ndn_packets::types::{CAN_BE_PREFIX, INTEREST_LIFETIME, NAME};
use ndn_tlv::{first_element, first_field, nni_of};

/// Returns whether the octets are a sequence of well-formed TLV elements.
pub fn are_elements(octets: &[u8]) -> bool
    ensures { result ≡ list_all can_be_read (elements_of octets.now) }
{
    let mut rest = octets;
    while !rest.is_empty() {
        let Ok((_, after)) = first_element(rest) else {
            return false;
        };
        rest = after;
    }
    true
}

/// Returns the name in the Name field, or `None` if the field is missing or the value of the field
/// is not a name.
pub fn name_field(octets: &[u8]) -> Option<Name<'_>>
    ensures exact { option_map components result ≡ name_in (elements_of octets.now) }
    ensures short { IfSome result (λ name.
        length (octets_of (components name)) ≤ length octets.now) }
{
    let value = first_field(octets, NAME)?;
    Name::read(value).ok()
}

/// Returns whether the CanBePrefix field is present. Returns `None` if the field is present and its
/// value is not empty.
pub fn flag_field(octets: &[u8]) -> Option<bool>
    ensures { result ≡ flag_of (first_of CAN_BE_PREFIX (elements_of octets.now)) }
{
    match first_field(octets, CAN_BE_PREFIX) {
        None => Some(false),
        Some([]) => Some(true),
        Some(_) => None,
    }
}

/// Returns the number in the InterestLifetime field, or `DEFAULT_LIFETIME` if the field is absent.
/// Returns `None` if the value of the field is not a NonNegativeInteger.
pub fn lifetime_field(octets: &[u8]) -> Option<u64>
    ensures { result ≡ lifetime_of (first_of INTEREST_LIFETIME (elements_of octets.now)) }
{
    match first_field(octets, INTEREST_LIFETIME) {
        None => Some(DEFAULT_LIFETIME),
        Some(value) => nni_of(value).ok(),
    }
}

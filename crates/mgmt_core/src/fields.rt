//! The fields of a command's parameters.

ghost use Rattle.std.specs.Prelude.{◌≡◌, is_some};
ghost use Rattle.std.specs.Option.{option_map};
ghost use Rattle.std.specs.List.{list_all};
ghost use Rattle.ndn_tlv.specs.Fields.{first_of};
ghost use Rattle.ndn_tlv.specs.Reading.{elements_of};
ghost use Rattle.ndn_names.specs.View.{components};
ghost use Rattle.mgmt_core.specs.Commands.{row_of, has, parameter_fields};
ghost use Rattle.mgmt_core.specs.Reading.{fits, number_in, name_in, strategy_in};

use crate::action::Action;
use ndn_names::Name;
use ndn_packets::command_types::{
    COST, COUNT, EXPIRATION_PERIOD, FACE_ID, FLAGS, ORIGIN, STRATEGY,
};
use ndn_packets::types::NAME;
use ndn_tlv::{first_element, first_field, nni_of, single_element};

/// Returns whether command parameters can have a field of type `kind`.
fn is_field(kind: u32) -> bool
    ensures { result ≡ has kind parameter_fields }
{
    match kind {
        NAME | FACE_ID | COST | STRATEGY | FLAGS | EXPIRATION_PERIOD | ORIGIN | COUNT => true,
        _ => false,
    }
}

/// Returns whether the octets are a sequence of well-formed TLV elements, and each command
/// parameter field among these elements is a field that the action takes. Elements that are not
/// command parameter fields are ignored.
pub fn are_fields(octets: &[u8], action: Action) -> bool
    ensures { result ≡ list_all (fits (row_of action)) (elements_of octets.now) }
{
    let mut rest = octets;
    while !rest.is_empty() {
        let Ok((element, after)) = first_element(rest) else {
            return false;
        };
        if is_field(element.kind) && !action.takes(element.kind) {
            return false;
        }
        rest = after;
    }
    true
}

/// Returns the number in the first field of type `kind`, or `Some(None)` if there is no such field.
/// Returns `None` if the value of the field is not a NonNegativeInteger.
pub fn number_field(octets: &[u8], kind: u32) -> Option<Option<u64>>
    ensures { result ≡ number_in kind (elements_of octets.now) }
{
    match first_field(octets, kind) {
        None => Some(None),
        Some(value) => match nni_of(value) {
            Ok(number) => Some(Some(number)),
            Err(_) => None,
        },
    }
}

/// Returns the name in the Name field, or `None` if the field is missing or the value of the field
/// is not a name.
pub fn name_field(octets: &[u8]) -> Option<Name<'_>>
    ensures { option_map components result ≡ name_in (elements_of octets.now) }
{
    let value = first_field(octets, NAME)?;
    Name::read(value).ok()
}

/// Returns the name in the Strategy field, or `Some(None)` if there is no Strategy field. Returns
/// `None` if the value of the field is not exactly one valid Name element.
pub fn strategy_field(octets: &[u8]) -> Option<Option<Name<'_>>>
    ensures { option_map (option_map components) result ≡ strategy_in (elements_of octets.now) }
{
    let Some(value) = first_field(octets, STRATEGY) else {
        return Some(None);
    };
    let name = single_element(value, NAME)?;
    match Name::read(name) {
        Ok(name) => Some(Some(name)),
        Err(_) => None,
    }
}

/// Returns whether all fields that the action needs are present.
pub fn has_needed(octets: &[u8], action: Action) -> bool
    ensures { result ≡ list_all (λ kind. is_some (first_of kind (elements_of octets.now)))
        (row_of action).needs }
{
    let has_name = first_field(octets, NAME).is_some();
    match action {
        Action::SetStrategy => has_name && first_field(octets, STRATEGY).is_some(),
        _ => has_name,
    }
}

ghost use Rattle.std.specs.Prelude.{◌≡◌, List, Ok, Err, MatchResult};
ghost use Rattle.ndn_tlv.specs.Element.{Field};
ghost use Rattle.ndn_names.specs.Reading.{name_at};
ghost use Rattle.ndn_names.specs.FirstOfType.{FindsFirst, Further};

use crate::component::first_component;
use crate::fault::NameFault;
use crate::name::MAX_COMPONENTS;

/// The first component of a given type in a name.
#[derive(Clone, Copy, Debug)]
pub struct FirstOfType<'a> {
    /// The TLV-VALUE of the component.
    pub value: &'a [u8],
    /// Whether the name has no other component of this type.
    pub is_only: bool,
    /// Whether the component is the last one of the name.
    pub is_last: bool,
}

/// Returns the first component of type `kind` in a name, or `None` if the name has no such
/// component. Returns a fault if the octets are not a name.
#[inline(always)]
pub(crate) fn first_of_type(octets: &[u8], kind: u16) -> Result<Option<FirstOfType<'_>>, NameFault>
    ensures { MatchResult result
        (λ first. (cs : List Field) × (name_at octets.now ≡ Ok cs) × FindsFirst kind cs first)
        (λ fault. name_at octets.now ≡ Err fault) }
{
    let mut rest = octets;
    let mut count = 0;
    let mut found = None;
    while !rest.is_empty() {
        if count == MAX_COMPONENTS {
            return Err(NameFault::TooManyComponents);
        }
        let (component, after) = first_component(rest)?;
        if component.kind == kind {
            found = Some(with_another(found, component.value, after.is_empty()));
        }
        rest = after;
        count += 1;
    }
    Ok(found)
}

/// Returns the result of a search for the first component of a type, after one more component of
/// this type has been read. `found` is the search result before this component. `value` is the
/// TLV-VALUE of this component. `is_last` tells whether this component is the last one of the name.
#[inline(always)]
fn with_another<'a>(
    found: Option<FirstOfType<'a>>,
    value: &'a [u8],
    is_last: bool,
) -> FirstOfType<'a>
    ensures { Further found.entry value.entry.now is_last result }
{
    match found {
        None => FirstOfType {
            value,
            is_only: true,
            is_last,
        },
        Some(first) => FirstOfType {
            is_only: false,
            ..first
        },
    }
}

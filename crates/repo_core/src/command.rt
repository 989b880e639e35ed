//! Reads command names: the repository's prefix, the verb, the parameters and the digest.

ghost use Rattle.std.specs.Prelude.{◌≡◌, ◌≤◌, IfSome, length};
ghost use Rattle.std.specs.Option.{option_map};
ghost use Rattle.ndn_tlv.specs.Reading.{elements_of};
ghost use Rattle.ndn_names.specs.Name.{octets_of};
ghost use Rattle.ndn_names.specs.View.{components};
ghost use Rattle.repo_core.specs.Reading.{command_of, plain, repo_command_at, value_after, verb_at};

use crate::fields::{are_elements, flag_field, lifetime_field, name_field};
use crate::verb::Verb;
use ndn_names::Name;
use ndn_names::component_type::{GENERIC, PARAMETERS_SHA256_DIGEST};
use ndn_packets::command_types::REPO_COMMAND_PARAMETER;
use ndn_tlv::single_element;

/// A well-formed command. It applies to the Data that answer an Interest with this `name` and
/// `can_be_prefix`. `lifetime` is in milliseconds: the lifetime of the want (the pending insert)
/// that an insert adds or renews.
#[derive(Clone, Copy)]
pub struct Asked<'a> {
    pub verb: Verb,
    pub name: Name<'a>,
    pub can_be_prefix: bool,
    pub lifetime: u64,
}

/// Returns the value of the component of `name` at index `start.len() + at`. Returns `None` if
/// `name` has no such component or the component does not have type `kind`.
fn value_after<'a>(start: Name<'_>, name: Name<'a>, kind: u16, at: usize) -> Option<&'a [u8]>
    requires { at ≤ 2 }
    ensures exact { option_map (λ v. v.now) result
        ≡ value_after (components start.entry) (components name.entry) kind at }
    ensures short { IfSome result (λ v. length v.now ≤ length (octets_of (components name.entry))) }
{
    match name.component(start.len() + at) {
        Some(component) if component.kind == kind => Some(component.value),
        _ => None,
    }
}

#[tactic(auto, unfolding(crate::specs::Reading::verb_at))]
/// Returns the verb of a name that begins with the prefix `start` and a verb, or `None` for every
/// other name.
pub fn verb_after(start: Name<'_>, name: Name<'_>) -> Option<Verb>
    ensures { result ≡ verb_at (components start.entry) (components name.entry) }
{
    if !start.is_prefix_of(name) {
        return None;
    }
    Verb::named(value_after(start, name, GENERIC, 0)?)
}

#[tactic(auto, unfolding(crate::specs::Reading::repo_command_at))]
/// Returns the command that the name encodes in a repository with the prefix `start`, or `None` if
/// the name does not encode a command.
pub fn command_in<'a>(start: Name<'_>, name: Name<'a>) -> Option<Asked<'a>>
    ensures exact { option_map plain result
        ≡ repo_command_at (components start.entry) (components name.entry) }
    ensures short { IfSome result (λ a. length (octets_of (components a.name))
        ≤ length (octets_of (components name.entry))) }
{
    let verb = verb_after(start, name)?;
    let value = value_after(start, name, GENERIC, 1)?;
    value_after(start, name, PARAMETERS_SHA256_DIGEST, 2)?;
    let fields = single_element(value, REPO_COMMAND_PARAMETER)?;
    if name.len() != start.len() + 3 {
        return None;
    }
    command_of(verb, fields)
}

#[tactic(auto, unfolding(crate::specs::Reading::command_of))]
/// Returns the command with this verb and these parameters, or `None` if the parameters are not
/// well formed.
fn command_of(verb: Verb, fields: &[u8]) -> Option<Asked<'_>>
    ensures exact { option_map plain result ≡ command_of verb (elements_of fields.now) }
    ensures short { IfSome result (λ a.
        length (octets_of (components a.name)) ≤ length fields.now) }
{
    if !are_elements(fields) {
        return None;
    }
    let name = name_field(fields)?;
    let can_be_prefix = flag_field(fields)?;
    let lifetime = lifetime_field(fields)?;
    Some(Asked {
        verb,
        name,
        can_be_prefix,
        lifetime,
    })
}

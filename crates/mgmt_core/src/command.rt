ghost use Rattle.std.specs.Prelude.{◌≡◌, Ok, Err, None, Some, unwrap_or};
ghost use Rattle.std.specs.Option.{option_map};
ghost use Rattle.ndn_tlv.specs.Reading.{elements_of, on_result};
ghost use Rattle.ndn_names.specs.View.{components, field_of};
ghost use Rattle.mgmt_core.specs.Reading.{asked, command_at, parameters_at, command_of, without_last as front_of, generic_at, action_at};

use crate::action::Action;
use crate::fields::{are_fields, has_needed, name_field, number_field, strategy_field};
use crate::types::{BAD_PARAMETERS, UNKNOWN_COMMAND};
use ndn_names::Name;
use ndn_names::component_type::{GENERIC, PARAMETERS_SHA256_DIGEST};
use ndn_packets::command_types::{
    CONTROL_PARAMETERS, COST, COUNT, EXPIRATION_PERIOD, FACE_ID, FLAGS, ORIGIN,
};
use ndn_tlv::single_element;

/// The default flags of a route: child-inherit, which lets longer names inherit the route.
const CHILD_INHERIT: u64 = 1;

/// A well-formed command (NFD Management, "Control Command").
#[derive(Clone, Copy, Debug)]
pub struct Command<'a> {
    /// The action of the command.
    pub action: Action,
    /// The name whose next hops, routes or strategy choice the command changes. `cs/erase` erases
    /// cached Data whose full names begin with this name.
    pub name: Name<'a>,
    /// The face of the next hop or route. 0 stands for the face that the command came from.
    pub face: u64,
    /// The origin of the route, or 0 if no origin is given.
    pub origin: u64,
    /// The cost of the next hop or route, or 0 if no cost is given.
    pub cost: u64,
    /// The flags of the route: 1 is child-inherit and 2 is capture. The value is 1 if no flags are
    /// given.
    pub flags: u64,
    /// The lifetime of the route in milliseconds. Without a lifetime, the route does not expire.
    pub expires: Option<u64>,
    /// The name of the strategy, if this name is given.
    pub strategy: Option<Name<'a>>,
    /// The greatest number of Data to erase, if this number is given.
    pub count: Option<u64>,
}

impl<'a> Command<'a> {
    #[tactic(auto, unfolding(crate::specs::Reading::command_before_digest))]
    /// Reads the name of a command, `/localhost/nfd/MODULE/VERB/PARAMETERS`. A
    /// ParametersSha256DigestComponent may follow.
    ///
    /// If `name` is not the name of a valid command, returns the first status that applies, in this
    /// order: 400 if the name has fewer than four components, not counting the digest; 501 if the
    /// command does not exist or the name does not begin with `/localhost/nfd`; 400 if the name
    /// does not have exactly five components, not counting the digest, or the parameters are not
    /// valid for the command.
    pub fn read(name: Name<'a>) -> Result<Command<'a>, u16>
        ensures { on_result (λ c. Ok (asked c)) Err result ≡ command_at (components name.entry) }
    {
        let name = without_last(name, PARAMETERS_SHA256_DIGEST);
        if name.len() < 4 {
            return Err(BAD_PARAMETERS);
        }
        let Some(action) = action_at(name) else {
            return Err(UNKNOWN_COMMAND);
        };
        if name.len() != 5 {
            return Err(BAD_PARAMETERS);
        }
        command_in(action, name).ok_or(BAD_PARAMETERS)
    }
}

/// Returns the name without its last component, if that component has type `kind`. Otherwise
/// returns the whole name.
pub(crate) fn without_last(name: Name<'_>, kind: u16) -> Name<'_>
    ensures { components result ≡ front_of kind (components name.entry) }
{
    let front = name.len().saturating_sub(1);
    match name.component(front) {
        Some(last) if last.kind == kind => name.prefix(front),
        _ => name,
    }
}

/// Returns the value of the component at index `at`. Returns `None` if there is no such component
/// or the component is not a GenericNameComponent.
fn generic_at(name: Name<'_>, at: usize) -> Option<&[u8]>
    ensures { option_map (λ v. v.now) result ≡ generic_at (components name.entry) at }
{
    match name.component(at) {
        Some(component) if component.kind == GENERIC => Some(component.value),
        _ => None,
    }
}

#[tactic(auto, unfolding(crate::specs::Reading::action_at))]
/// Returns the action of a name that begins with `/localhost/nfd/MODULE/VERB`, or `None` if there
/// is no such action.
fn action_at(name: Name<'_>) -> Option<Action>
    ensures { result ≡ action_at (components name.entry) }
{
    let localhost = generic_at(name, 0)?;
    let nfd = generic_at(name, 1)?;
    let module = generic_at(name, 2)?;
    let verb = generic_at(name, 3)?;
    if localhost == b"localhost".as_slice() && nfd == b"nfd".as_slice() {
        return Action::named(module, verb);
    }
    None
}

#[tactic(auto, unfolding(crate::specs::Reading::parameters_at))]
/// Returns the command with this action and the parameters in the fifth component of the name, or
/// `None` if this component does not contain valid parameters.
fn command_in<'a>(action: Action, name: Name<'a>) -> Option<Command<'a>>
    ensures { option_map asked result ≡ parameters_at action (components name.entry) }
{
    let component = generic_at(name, 4)?;
    let fields = single_element(component, CONTROL_PARAMETERS)?;
    command_of(action, fields)
}

#[tactic(auto, unfolding(crate::specs::Reading::command_of))]
/// Returns the command with these parameters, or `None` if the parameters are not valid for the
/// action.
fn command_of(action: Action, fields: &[u8]) -> Option<Command<'_>>
    ensures { option_map asked result ≡ command_of action (elements_of fields.now) }
{
    if !are_fields(fields, action) || !has_needed(fields, action) {
        return None;
    }
    let name = name_field(fields)?;
    let face = number_field(fields, FACE_ID)?;
    let origin = number_field(fields, ORIGIN)?;
    let cost = number_field(fields, COST)?;
    let flags = number_field(fields, FLAGS)?;
    let expires = number_field(fields, EXPIRATION_PERIOD)?;
    let strategy = strategy_field(fields)?;
    let count = number_field(fields, COUNT)?;
    if action == Action::UnsetStrategy && name.is_empty() {
        return None;
    }
    Some(Command {
        action,
        name,
        face: face.unwrap_or(0),
        origin: origin.unwrap_or(0),
        cost: cost.unwrap_or(0),
        flags: flags.unwrap_or(CHILD_INHERIT),
        expires,
        strategy,
        count,
    })
}

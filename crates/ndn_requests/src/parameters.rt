//! The parameters of a command, which follow the command's own name as one component (NFD
//! Management, "Control Command").

ghost use Rattle.std.specs.Prelude.{◌≡◌, ◌++◌, ◌≤◌, [], ◌∷◌, IfOk, OnOk, MatchResult, length};
ghost use Rattle.ndn_tlv.specs.Element.{element};
ghost use Rattle.ndn_names.specs.View.{components};
ghost use Rattle.ndn_tlv.specs.Writing.{octets, number, optional, flag};
ghost use Rattle.ndn_requests.specs.Parameters.{is_generic_at, is_of_node, name_field, strategy_value, fields_after_strategy, node_fields, repository_fields, parameters_element, command_name, IsNameRefusal};

use ndn_names::component_type::GENERIC;
use ndn_names::{Name, NameBuf, NameFault};
use ndn_packets::WriteFault;
use ndn_packets::command_types::{
    CONTROL_PARAMETERS, COST, COUNT, EXPIRATION_PERIOD, FACE_ID, FLAGS, ORIGIN,
    REPO_COMMAND_PARAMETER, STRATEGY,
};
use ndn_packets::types::{CAN_BE_PREFIX, INTEREST_LIFETIME, NAME};
use ndn_tlv::{Memory, put_element, put_flag, put_number_field};
use std::alloc::Global;

/// The parameters of a command for the node or for a repository. A command for a repository leaves
/// out the fields that only the node's commands have. A command for the node leaves out the fields
/// that only a repository's commands have.
#[derive(Drop)]
pub struct Parameters {
    /// The name that the command applies to.
    pub name: NameBuf,
    /// The face of a next hop or route. The number 0 means the face that the command comes from.
    pub face: Option<u64>,
    /// The origin of a route.
    pub origin: Option<u64>,
    /// The cost of a next hop or route.
    pub cost: Option<u64>,
    /// The flags of a route: the bit of value 1 is child-inherit, the bit of value 2 is capture.
    pub flags: Option<u64>,
    /// The ExpirationPeriod of a route, in milliseconds.
    pub expires: Option<u64>,
    /// The name of a strategy.
    pub strategy: Option<NameBuf>,
    /// The greatest number of Data to erase.
    pub count: Option<u64>,
    /// Whether to include Data with names that begin with `name` and are longer (CanBePrefix).
    pub can_be_prefix: bool,
    /// The InterestLifetime in milliseconds.
    pub lifetime: Option<u64>,
}

/// Returns the name of a command's Interest without the parameters digest: the command's own name,
/// followed by the parameters as one component.
///
/// Returns `TooLong` if the name has too many components for the parameters to follow. The only
/// other error is `Memory`.
pub fn command_name(
    alloc: Global,
    name: &NameBuf,
    parameters: &Parameters,
) -> Result<NameBuf, WriteFault>
    ensures { MatchResult result (λ whole. whole ≡ command_name name.now parameters.now)
        (IsNameRefusal name.now) }
{
    let element = match parameters_element(alloc, name, parameters) {
        Ok(element) => element,
        Err(Memory) => return Err(WriteFault::Memory),
    };
    let mut whole = match name.try_clone(alloc) {
        Ok(whole) => whole,
        Err(Memory) => return Err(WriteFault::Memory),
    };
    match whole.append(GENERIC, &element) {
        Ok(()) => Ok(whole),
        Err(NameFault::Memory) => Err(WriteFault::Memory),
        Err(_) => Err(WriteFault::TooLong),
    }
}

/// Returns the parameters of a command with this name, as an element.
fn parameters_element(
    alloc: Global,
    name: &NameBuf,
    parameters: &Parameters,
) -> Result<Vec<u8>, Memory>
    ensures { IfOk result (λ text. text.items ≡ parameters_element name.now parameters.now) }
{
    let mut fields = Vec::new(alloc);
    let mut text = Vec::new(alloc);
    if is_of_node(name.view()) {
        put_node_fields(alloc, &mut fields, parameters)?;
        put_element(&mut text, CONTROL_PARAMETERS, &fields)?;
    } else {
        put_repository_fields(&mut fields, parameters)?;
        put_element(&mut text, REPO_COMMAND_PARAMETER, &fields)?;
    }
    Ok(text)
}

/// Returns whether a command with this name is for the node itself, that is, whether the name is
/// under `/localhost/nfd`.
fn is_of_node(name: Name<'_>) -> bool
    ensures { result ≡ is_of_node (components name.entry) }
{
    is_generic_at(name, 0, b"localhost") && is_generic_at(name, 1, b"nfd")
}

/// Returns whether the component at index `at` is a GenericNameComponent with these octets.
fn is_generic_at(name: Name<'_>, at: usize, octets: &[u8]) -> bool
    ensures { result ≡ is_generic_at (components name.entry) at octets.now }
{
    match name.component(at) {
        Some(component) => component.kind == GENERIC && component.value == octets,
        None => false,
    }
}

/// Appends the fields of a command for the node.
fn put_node_fields(alloc: Global, out: &mut Vec<u8>, parameters: &Parameters) -> Result<(), Memory>
    ensures { OnOk result (out.new.items ≡ out.old.items ++ octets (node_fields parameters.now)) }
{
    put_name(out, &parameters.name)?;
    put_number_field(out, FACE_ID, parameters.face)?;
    put_number_field(out, COST, parameters.cost)?;
    put_strategy(alloc, out, &parameters.strategy)?;
    put_fields_after_strategy(out, parameters)
}

/// Appends the fields that follow the strategy in a command for the node.
fn put_fields_after_strategy(out: &mut Vec<u8>, parameters: &Parameters) -> Result<(), Memory>
    ensures { OnOk result (out.new.items
        ≡ out.old.items ++ octets (fields_after_strategy parameters.now)) }
{
    put_number_field(out, FLAGS, parameters.flags)?;
    put_number_field(out, EXPIRATION_PERIOD, parameters.expires)?;
    put_number_field(out, ORIGIN, parameters.origin)?;
    put_number_field(out, COUNT, parameters.count)
}

/// Appends the fields of a command for a repository.
fn put_repository_fields(out: &mut Vec<u8>, parameters: &Parameters) -> Result<(), Memory>
    ensures { OnOk result (out.new.items
        ≡ out.old.items ++ octets (repository_fields parameters.now)) }
{
    put_name(out, &parameters.name)?;
    put_flag(out, CAN_BE_PREFIX, parameters.can_be_prefix)?;
    put_number_field(out, INTEREST_LIFETIME, parameters.lifetime)
}

fn put_name(out: &mut Vec<u8>, name: &NameBuf) -> Result<(), Memory>
    ensures { OnOk result (out.new.items ≡ out.old.items ++ element (name_field name.now)) }
{
    put_element(out, NAME, name.view().as_octets())
}

/// Appends the Strategy field, if there is a strategy.
fn put_strategy(alloc: Global, out: &mut Vec<u8>, name: &Option<NameBuf>) -> Result<(), Memory>
    ensures { OnOk result (out.new.items
        ≡ out.old.items ++ octets (optional STRATEGY (strategy_value name.now))) }
{
    let Some(name) = name else {
        return Ok(());
    };
    let mut value = Vec::new(alloc);
    put_name(&mut value, name)?;
    put_element(out, STRATEGY, &value)
}

//! What a command asks for and what a reply answers, as lines of text.

ghost use Rattle.std.specs.Prelude.{◌≡◌, ◌++◌, OnOk, Some, codes};
ghost use Rattle.std.specs.Option.{option_map};
ghost use Rattle.std.specs.List.{list_all};
ghost use Rattle.ndn_tlv.specs.Reading.{elements_of};
ghost use Rattle.ndn_names.specs.View.{components};
ghost use Rattle.ndn_tlv.specs.Fields.{first_of};
ghost use Rattle.ndn_explain.specs.Show.{named_line, optional_line};
ghost use Rattle.ndn_explain.specs.Meaning.{bad_text, number_text, name_text, flags_word, flags_text, period_text, form_text, field_line, hop_lines, route_lines, wanted_lines, field_lines, parameters_of, parameters_in, command_lines, is_printable, status_text, status_line, body_lines, node_reply_lines, repository_reply_lines, reply_lines};

use crate::show::{put_flag, put_hex, put_name};
use ndn_names::component_type::{GENERIC, PARAMETERS_SHA256_DIGEST};
use ndn_names::{Name, NameBuf};
use ndn_packets::command_types::{
    CONTROL_PARAMETERS, CONTROL_RESPONSE, COST, COUNT, EXPIRATION_PERIOD, FACE_ID, FLAGS, ORIGIN,
    REPO_COMMAND_PARAMETER, REPO_COMMAND_RESPONSE, REPO_STATUS_CODE, STATUS_CODE, STATUS_TEXT,
    STRATEGY,
};
use ndn_packets::types::{CAN_BE_PREFIX, INTEREST_LIFETIME, NAME};
use ndn_tlv::{Memory, first_field, nni_of, single_element};
use std::alloc::Global;
use std::io::Write;

/// The form of a field's value.
#[derive(Clone, Copy, Debug, PartialEq, Eq)]
pub enum Form {
    /// A NonNegativeInteger.
    Number,
    /// The components of a name.
    Name,
    /// One Name element, as in the Strategy field.
    Strategy,
    /// A NonNegativeInteger whose bits are the flags of a route.
    Flags,
    /// A NonNegativeInteger of milliseconds.
    Period,
}

/// Appends the lines of a command with this name, or nothing if the name is not that of a command.
pub fn put_command(alloc: Global, text: &mut Vec<u8>, name: Name<'_>) -> Result<(), Memory>
    ensures { OnOk result (text.new.items
        ≡ text.old.items ++ command_lines (components name.entry)) }
{
    let Some(fields) = parameters_in(name) else {
        return Ok(());
    };
    put_name(
        alloc,
        text,
        "command",
        name.prefix(name.len().saturating_sub(2)),
    )?;
    put_fields(alloc, text, fields)
}

/// Returns the fields in the parameters of a command with this name, or `None` if the name is not
/// that of a command.
pub fn parameters_in<'a>(name: Name<'a>) -> Option<&'a [u8]>
    ensures { option_map (λ v. v.now) result ≡ parameters_in (components name.entry) }
{
    let digest = name.component(name.len().saturating_sub(1))?;
    if digest.kind != PARAMETERS_SHA256_DIGEST {
        return None;
    }
    let component = name.component(name.len().saturating_sub(2))?;
    if component.kind != GENERIC {
        return None;
    }
    parameters_of(component.value)
}

/// Returns the fields of the element in `value`, if `value` is a single ControlParameters or
/// RepoCommandParameter element.
fn parameters_of(value: &[u8]) -> Option<&[u8]>
    ensures { option_map (λ v. v.now) result ≡ parameters_of value.now }
{
    match single_element(value, CONTROL_PARAMETERS) {
        Some(fields) => Some(fields),
        None => single_element(value, REPO_COMMAND_PARAMETER),
    }
}

/// Appends the lines of a reply with this Content, or nothing if the Content is not a reply.
pub fn put_reply(alloc: Global, text: &mut Vec<u8>, content: &[u8]) -> Result<(), Memory>
    ensures { OnOk result (text.new.items ≡ text.old.items ++ reply_lines content.now) }
{
    if let Some(fields) = single_element(content, CONTROL_RESPONSE) {
        return put_node_reply(alloc, text, fields);
    }
    match single_element(content, REPO_COMMAND_RESPONSE) {
        Some(fields) => put_repository_reply(alloc, text, fields),
        None => Ok(()),
    }
}

fn put_node_reply(alloc: Global, text: &mut Vec<u8>, fields: &[u8]) -> Result<(), Memory>
    ensures { OnOk result (text.new.items
        ≡ text.old.items ++ node_reply_lines (elements_of fields.now)) }
{
    put_status(alloc, text, fields, STATUS_CODE)?;
    match first_field(fields, CONTROL_PARAMETERS) {
        Some(body) => put_fields(alloc, text, body),
        None => Ok(()),
    }
}

fn put_repository_reply(alloc: Global, text: &mut Vec<u8>, fields: &[u8]) -> Result<(), Memory>
    ensures { OnOk result (text.new.items
        ≡ text.old.items ++ repository_reply_lines (elements_of fields.now)) }
{
    put_status(alloc, text, fields, REPO_STATUS_CODE)?;
    put_fields(alloc, text, fields)
}

/// Appends the line of the status, if the status code is present. The status code is the field of
/// type `kind`.
fn put_status(alloc: Global, text: &mut Vec<u8>, fields: &[u8], kind: u32) -> Result<(), Memory>
    ensures { OnOk result (text.new.items
        ≡ text.old.items ++ status_line kind (elements_of fields.now)) }
{
    let Some(code) = first_field(fields, kind) else {
        return Ok(());
    };
    text.extend_from_slice(b"status ")?;
    put_number_text(alloc, text, code)?;
    text.push(b' ')?;
    put_status_text(alloc, text, first_field(fields, STATUS_TEXT))?;
    text.push(b'\n')?;
    Ok(())
}

/// Appends the StatusText, or a dash if there is no StatusText. A StatusText that is not printable
/// ASCII is appended in hexadecimal.
fn put_status_text(alloc: Global, text: &mut Vec<u8>, status: Option<&[u8]>) -> Result<(), Memory>
    ensures { OnOk result (text.new.items ≡ text.old.items
        ++ status_text (option_map (λ s. s.now) status.entry)) }
{
    match status {
        None => text.push(b'-')?,
        Some(octets) if is_one_line(octets) => text.extend_from_slice(octets)?,
        Some(octets) => put_hex(alloc, text, octets)?,
    }
    Ok(())
}

/// Returns whether all octets are printable ASCII.
pub fn is_one_line(octets: &[u8]) -> bool
    ensures { result ≡ list_all is_printable octets.now }
{
    octets.iter().all(|&octet| 32 <= octet && octet <= 126)
}

/// Appends a line for each of these fields that is present: name, face, cost, origin, flags,
/// expiration period, strategy, count, CanBePrefix and InterestLifetime.
fn put_fields(alloc: Global, text: &mut Vec<u8>, fields: &[u8]) -> Result<(), Memory>
    ensures { OnOk result (text.new.items
        ≡ text.old.items ++ field_lines (elements_of fields.now)) }
{
    put_field(alloc, text, "name", Form::Name, fields, NAME)?;
    put_hop(alloc, text, fields)?;
    put_route(alloc, text, fields)?;
    put_field(alloc, text, "strategy", Form::Strategy, fields, STRATEGY)?;
    put_field(alloc, text, "count", Form::Number, fields, COUNT)?;
    put_wanted(alloc, text, fields)
}

/// Appends the lines of the face and the cost, if these fields are present.
fn put_hop(alloc: Global, text: &mut Vec<u8>, fields: &[u8]) -> Result<(), Memory>
    ensures { OnOk result (text.new.items ≡ text.old.items ++ hop_lines (elements_of fields.now)) }
{
    put_field(alloc, text, "face", Form::Number, fields, FACE_ID)?;
    put_field(alloc, text, "cost", Form::Number, fields, COST)
}

/// Appends the lines of the origin, the flags and the expiration period, if these fields are
/// present. Only registered routes have these fields.
fn put_route(alloc: Global, text: &mut Vec<u8>, fields: &[u8]) -> Result<(), Memory>
    ensures { OnOk result (text.new.items
        ≡ text.old.items ++ route_lines (elements_of fields.now)) }
{
    put_field(alloc, text, "origin", Form::Number, fields, ORIGIN)?;
    put_field(alloc, text, "flags", Form::Flags, fields, FLAGS)?;
    put_field(
        alloc,
        text,
        "expires",
        Form::Period,
        fields,
        EXPIRATION_PERIOD,
    )
}

/// Appends the lines of CanBePrefix and InterestLifetime, if these fields are present. Only a
/// repository's commands have these fields.
fn put_wanted(alloc: Global, text: &mut Vec<u8>, fields: &[u8]) -> Result<(), Memory>
    ensures { OnOk result (text.new.items
        ≡ text.old.items ++ wanted_lines (elements_of fields.now)) }
{
    put_flag(
        text,
        "can-be-prefix",
        first_field(fields, CAN_BE_PREFIX).is_some(),
    )?;
    put_field(
        alloc,
        text,
        "lifetime",
        Form::Number,
        fields,
        INTEREST_LIFETIME,
    )
}

/// Appends the line of a field, if the field is present.
fn put_field(
    alloc: Global,
    text: &mut Vec<u8>,
    label: &str,
    form: Form,
    fields: &[u8],
    kind: u32,
) -> Result<(), Memory>
    ensures { OnOk result (text.new.items ≡ text.old.items
        ++ field_line label.now form kind (elements_of fields.now)) }
{
    let Some(value) = first_field(fields, kind) else {
        return Ok(());
    };
    text.extend_from_slice(label.as_bytes())?;
    text.push(b' ')?;
    put_form(alloc, text, form, value)?;
    text.push(b'\n')?;
    Ok(())
}

/// Reads `value` in the form `form`, and appends the text of the value. If `value` does not have
/// this form, appends the text for a malformed value.
pub fn put_form(alloc: Global, text: &mut Vec<u8>, form: Form, value: &[u8]) -> Result<(), Memory>
    ensures { OnOk result (text.new.items ≡ text.old.items ++ form_text form value.now) }
{
    match form {
        Form::Number => put_number_text(alloc, text, value),
        Form::Name => put_name_text(alloc, text, value),
        Form::Strategy => match single_element(value, NAME) {
            Some(name) => put_name_text(alloc, text, name),
            None => put_bad(alloc, text, value),
        },
        Form::Flags => put_flags_text(alloc, text, value),
        Form::Period => put_period_text(alloc, text, value),
    }
}

fn put_number_text(alloc: Global, text: &mut Vec<u8>, value: &[u8]) -> Result<(), Memory>
    ensures { OnOk result (text.new.items ≡ text.old.items ++ number_text value.now) }
{
    match nni_of(value) {
        Ok(number) => write!(text, "{number}").map_err(|_| Memory),
        Err(_) => put_bad(alloc, text, value),
    }
}

fn put_flags_text(alloc: Global, text: &mut Vec<u8>, value: &[u8]) -> Result<(), Memory>
    ensures { OnOk result (text.new.items ≡ text.old.items ++ flags_text value.now) }
{
    match nni_of(value) {
        Ok(flags) => Ok(text.extend_from_slice(flags_word(flags).as_bytes())?),
        Err(_) => put_bad(alloc, text, value),
    }
}

/// Returns the names of those flags of a route that are set, or `none` if no flag is set. The flags
/// are child-inherit and capture.
fn flags_word(flags: u64) -> &'static str
    ensures { result.now ≡ flags_word flags }
{
    let is_child_inherit = flags % 2 == 1;
    let is_capture = flags / 2 % 2 == 1;
    match (is_child_inherit, is_capture) {
        (false, false) => "none",
        (true, false) => "child-inherit",
        (false, true) => "capture",
        (true, true) => "child-inherit capture",
    }
}

fn put_period_text(alloc: Global, text: &mut Vec<u8>, value: &[u8]) -> Result<(), Memory>
    ensures { OnOk result (text.new.items ≡ text.old.items ++ period_text value.now) }
{
    match nni_of(value) {
        Ok(period) => write!(text, "in {period} ms").map_err(|_| Memory),
        Err(_) => put_bad(alloc, text, value),
    }
}

fn put_name_text(alloc: Global, text: &mut Vec<u8>, value: &[u8]) -> Result<(), Memory>
    ensures { OnOk result (text.new.items ≡ text.old.items ++ name_text value.now) }
{
    match Name::read(value) {
        Ok(name) => {
            let uri = NameBuf::from_name(alloc, name)?.to_uri(alloc)?;
            text.extend_from_slice(uri.as_bytes())?;
            Ok(())
        }
        Err(_) => put_bad(alloc, text, value),
    }
}

/// Appends the text for a malformed value: the word `bad`, and the value in hexadecimal.
fn put_bad(alloc: Global, text: &mut Vec<u8>, value: &[u8]) -> Result<(), Memory>
    ensures { OnOk result (text.new.items ≡ text.old.items ++ bad_text value.now) }
{
    text.extend_from_slice(b"bad ")?;
    put_hex(alloc, text, value)
}

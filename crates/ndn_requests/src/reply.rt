//! Answers to a request: which datagram is an answer, and what the outcome of the request is.

ghost use Rattle.std.specs.Prelude.{◌≡◌, ◌++◌, IfOk, OnOk, option_map};
ghost use Rattle.ndn_names.specs.View.{components, field_of};
ghost use Rattle.ndn_packets.specs.View.{plain_frame, plain_interest, plain_data};
ghost use Rattle.ndn_packets.specs.FrameReading.{frame_at};
ghost use Rattle.ndn_explain.specs.Reply.{written_content};
ghost use Rattle.ndn_requests.specs.Reply.{Outcome, code_in, is_insert, is_word, explained_lines, long_lines, written_lines, silence_of, is_local, done_if, node_outcome, repository_outcome, is_of_repository, content_outcome, reply_outcome, is_command, is_right, data_outcome, is_same, is_same_name, frame_outcome, written_outcome, IsFrameJudged, IsDatagramJudged, IsJudged, repository_number};

use crate::fault::{Failure, Silence};
use key_files::KeyBook;
use ndn_explain::{
    TagCheck, check_of, parameters_in, put_explanation, put_written, written_content,
};
use ndn_names::component_type::GENERIC;
use ndn_names::{Component, Name};
use ndn_packets::command_types::{
    CONTROL_RESPONSE, REPO_COMMAND_PARAMETER, REPO_COMMAND_RESPONSE, REPO_STATUS_CODE, STATUS_CODE,
};
use ndn_packets::{Data, Frame, Interest, read_frame};
use ndn_tlv::{Memory, first_field, nni_of, single_element};
use std::alloc::Global;

/// The outcome of a request.
pub type Outcome = Result<(), Failure>;

/// Returns the outcome of a request, given a received datagram, or `None` if the datagram does not
/// answer the request.
///
/// A Nack for the request's Interest is an answer. If the request is not a command, the request is
/// done when a Data answers the Interest. If the request is a command, a Data of any length is an
/// answer if the Data is exactly a reply that a node writes to this command. A Data with the
/// request's name is also an answer if its signature is right, by DigestSha256 or by a key of the
/// book. A command is done if the status is 200, or 100 for an insert to a repository.
pub fn judge(
    alloc: Global,
    request: &[u8],
    datagram: &[u8],
    book: &KeyBook,
) -> Result<Option<Outcome>, Memory>
    ensures { IfOk result (IsJudged request.now book.now datagram.now) }
{
    match read_frame(request) {
        Ok(Frame::Interest(asked)) => judge_datagram(alloc, &asked, datagram, book),
        _ => Ok(None),
    }
}

fn judge_datagram(
    alloc: Global,
    asked: &Interest<'_>,
    datagram: &[u8],
    book: &KeyBook,
) -> Result<Option<Outcome>, Memory>
    ensures { IfOk result (IsDatagramJudged (plain_interest asked.now) book.now datagram.now
        (frame_at datagram.now)) }
{
    match read_frame(datagram) {
        Ok(frame) => Ok(judge_frame(asked, &frame, book)),
        Err(_) => judge_written(alloc, asked.name, datagram),
    }
}

fn judge_frame(asked: &Interest<'_>, frame: &Frame<'_>, book: &KeyBook) -> Option<Outcome>
    ensures { IsFrameJudged (plain_interest asked.now) book.now (plain_frame frame.now) result }
{
    let check = check_of(frame, Some(book));
    frame_outcome(asked, frame, check)
}

/// Returns the outcome of a command whose reply is too long to be read. Returns `None` if the name
/// is not that of a command, or if the datagram is not exactly a reply that a node writes to this
/// command.
fn judge_written(alloc: Global, name: Name<'_>, datagram: &[u8]) -> Result<Option<Outcome>, Memory>
    ensures { IfOk result (λ outcome. outcome
        ≡ written_outcome (components name.entry)
        (written_content (components name.entry) datagram.now)) }
{
    match written_content(alloc, name, datagram)? {
        Some(content) if is_command(name) => Ok(Some(content_outcome(name, content))),
        _ => Ok(None),
    }
}

fn frame_outcome(
    asked: &Interest<'_>,
    frame: &Frame<'_>,
    check: Option<TagCheck>,
) -> Option<Outcome>
    ensures { result ≡ frame_outcome (plain_interest asked.now) (plain_frame frame.now) check }
{
    match frame {
        Frame::Data(packet) if packet.answers(asked.name, asked.can_be_prefix) => {
            data_outcome(asked, packet, check)
        }
        Frame::Nack { interest, .. } if is_same(asked, interest) => Some(Err(Failure::Nack)),
        _ => None,
    }
}

/// Returns the outcome of a request, given a Data that answers its Interest. If the request is a
/// command, returns `None` for a Data with another name or without a right signature.
fn data_outcome(asked: &Interest<'_>, packet: &Data<'_>, check: Option<TagCheck>) -> Option<Outcome>
    ensures { result ≡ data_outcome (plain_interest asked.now) (plain_data packet.now) check }
{
    if !is_command(asked.name) {
        return Some(Ok(()));
    }
    if is_same_name(asked.name, packet.name) && is_right(check) {
        return Some(reply_outcome(asked.name, packet.content));
    }
    None
}

fn is_same_name(a: Name<'_>, b: Name<'_>) -> bool
    ensures { result ≡ is_same_name (components a.entry) (components b.entry) }
{
    a.as_octets() == b.as_octets()
}

fn is_right(check: Option<TagCheck>) -> bool
    ensures { result ≡ is_right check }
{
    matches!(&check, Some(TagCheck::Right))
}

fn is_command(name: Name<'_>) -> bool
    ensures { result ≡ is_command (components name.entry) }
{
    parameters_in(name).is_some()
}

fn is_same(asked: &Interest<'_>, other: &Interest<'_>) -> bool
    ensures { result ≡ is_same (plain_interest asked.now) (plain_interest other.now) }
{
    is_same_name(asked.name, other.name) && asked.nonce == other.nonce
}

fn reply_outcome(name: Name<'_>, content: Option<&[u8]>) -> Outcome
    ensures { result ≡ reply_outcome (components name.entry)
        (option_map (λ c. c.now) content.entry) }
{
    match content {
        None => Err(Failure::NoStatus),
        Some(content) => content_outcome(name, content),
    }
}

/// Returns the outcome of a command with this name, given the Content of its reply.
fn content_outcome(name: Name<'_>, content: &[u8]) -> Outcome
    ensures { result ≡ content_outcome (components name.entry) content.now }
{
    if is_of_repository(name) {
        repository_outcome(
            name,
            code_in(content, REPO_COMMAND_RESPONSE, REPO_STATUS_CODE),
        )
    } else {
        node_outcome(code_in(content, CONTROL_RESPONSE, STATUS_CODE))
    }
}

/// Returns the outcome of a command on routes, strategies or the cache, given the status in its
/// reply.
fn node_outcome(code: Option<u64>) -> Outcome
    ensures { result ≡ node_outcome code }
{
    match code {
        None => Err(Failure::NoStatus),
        Some(code) => done_if(code == 200),
    }
}

/// Returns the outcome of a command with this name to a repository, given the status in the reply.
fn repository_outcome(name: Name<'_>, code: Option<u64>) -> Outcome
    ensures { result ≡ repository_outcome (components name.entry) code }
{
    match code {
        None => Err(Failure::NoStatus),
        Some(code) => done_if(code == 200 || (code == 100 && is_insert(name))),
    }
}

/// Returns whether a command with this name is for a repository, according to the type of its
/// parameters.
fn is_of_repository(name: Name<'_>) -> bool
    ensures { result ≡ is_of_repository (components name.entry) }
{
    match name.component(name.len().saturating_sub(2)) {
        None => false,
        Some(component) => single_element(component.value, REPO_COMMAND_PARAMETER).is_some(),
    }
}

fn done_if(is_done: bool) -> Outcome
    ensures { result ≡ done_if is_done }
{
    if is_done {
        Ok(())
    } else {
        Err(Failure::Refused)
    }
}

/// Returns the number in the field of the type `kind` of a repository's reply, or `None` if the
/// datagram is no Data, or has no such field.
pub fn repository_number(datagram: &[u8], kind: u32) -> Option<u64>
    ensures { result ≡ repository_number kind (frame_at datagram.now) }
{
    match read_frame(datagram) {
        Ok(Frame::Data(packet)) => {
            let content = packet.content.unwrap_or(&[]);
            code_in(content, REPO_COMMAND_RESPONSE, kind)
        }
        _ => None,
    }
}

/// Reads the Content as a single element of the type `response`. Returns the number in the
/// element's first field of the type `kind`, or `None` if there is no such element, field or
/// number.
fn code_in(content: &[u8], response: u32, kind: u32) -> Option<u64>
    ensures { result ≡ code_in response kind content.now }
{
    let value = first_field(single_element(content, response)?, kind)?;
    nni_of(value).ok()
}

/// Returns whether the verb of a command with this name is `insert`.
fn is_insert(name: Name<'_>) -> bool
    ensures { result ≡ is_insert (components name.entry) }
{
    is_word(name.component(name.len().saturating_sub(3)), "insert")
}

/// Returns whether the component is a GenericNameComponent with this text. Returns `false` if there
/// is no component.
fn is_word(component: Option<Component<'_>>, word: &str) -> bool
    ensures { result ≡ is_word word.now (option_map field_of component.entry) }
{
    match component {
        None => false,
        Some(component) => component.kind == GENERIC && component.value == word.as_bytes(),
    }
}

/// Appends the explanation of a datagram, if the datagram is a packet or is a reply of any length
/// to the request. The explanation has no line for a PIT token or for a signature check. Appends
/// nothing for any other datagram. If memory runs out, some of the lines may have been appended.
pub fn put_explained(
    alloc: Global,
    text: &mut Vec<u8>,
    request: &[u8],
    datagram: &[u8],
) -> Result<(), Memory>
    ensures { OnOk result (text.new.items ≡ text.old.items
        ++ explained_lines request.now datagram.now (frame_at datagram.now)) }
{
    match read_frame(datagram) {
        Ok(frame) => put_explanation(alloc, text, &frame, None),
        Err(_) => put_long(alloc, text, request, datagram),
    }
}

fn put_long(
    alloc: Global,
    text: &mut Vec<u8>,
    request: &[u8],
    datagram: &[u8],
) -> Result<(), Memory>
    ensures { OnOk result (text.new.items ≡ text.old.items
        ++ long_lines (frame_at request.now) datagram.now) }
{
    match read_frame(request) {
        Ok(Frame::Interest(asked)) => put_reply(alloc, text, asked.name, datagram),
        _ => Ok(()),
    }
}

fn put_reply(
    alloc: Global,
    text: &mut Vec<u8>,
    name: Name<'_>,
    datagram: &[u8],
) -> Result<(), Memory>
    ensures { OnOk result (text.new.items ≡ text.old.items
        ++ written_lines (components name.entry) datagram.now
        (written_content (components name.entry) datagram.now)) }
{
    match written_content(alloc, name, datagram)? {
        None => Ok(()),
        Some(content) => put_written(alloc, text, name, content, datagram),
    }
}

/// Returns why no answer came to a request. The request was sent from the port `from`. If `from` is
/// absent, the system chose the port. `is_closed` is true if no program listens on the request's
/// destination port.
pub fn silence_of(request: &[u8], from: Option<u16>, is_closed: bool) -> Silence
    ensures { result ≡ silence_of request.now from is_closed }
{
    if is_closed {
        return Silence::Closed;
    }
    if from.is_none() && is_local(request) {
        return Silence::Far;
    }
    Silence::Late
}

fn is_local(request: &[u8]) -> bool
    ensures { result ≡ is_local (frame_at request.now) }
{
    match read_frame(request) {
        Ok(Frame::Interest(asked)) => is_word(asked.name.component(0), "localhost"),
        _ => false,
    }
}

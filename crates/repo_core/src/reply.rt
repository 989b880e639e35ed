ghost use Rattle.std.specs.Prelude.{◌≡◌, ◌+◌, ◌≤◌, ◌++◌, length, vec_len, None, IsOk, OnOk, OnErr};
ghost use Rattle.std.specs.Option.{option_map};
ghost use Rattle.std.specs.Vec.{vec_capacity};
ghost use Rattle.repo_core.specs.Commands.{repo_text_of};
ghost use Rattle.repo_core.specs.Writing.{repo_response};
ghost use Rattle.ndn_tlv.specs.Writing.{Puts};

use crate::types::{BAD_PARAMETERS, FULL, NOT_FOUND, OK, PENDING};
use ndn_names::NameBuf;
use ndn_packets::command_types::{COUNT, REPO_COMMAND_RESPONSE, REPO_STATUS_CODE, STATUS_TEXT};
use ndn_tlv::{Memory, element_len, nni_element_len, put_element, put_nni_element, put_number};

/// An upper bound of the length, in octets, of a reply with the text that `repo_status_text`
/// returns for its status.
pub const MAX_REPLY_LEN: usize = 55;

/// An Interest that is sent to fetch wanted Data.
#[derive(Debug, Drop)]
pub struct Want {
    pub name: NameBuf,
    pub can_be_prefix: bool,
    /// The InterestLifetime in milliseconds.
    pub lifetime: u64,
}

/// The reply to a command.
#[derive(Debug, Drop)]
pub struct RepoReply {
    /// The status code: 100 pending, 200 OK, 400 bad parameters, 404 not found, or 503 repository
    /// full.
    pub status: u16,
    /// If the status is 200, the number of stored Data that match the command (for a delete, the
    /// number of removed Data). For every other status, 0.
    pub count: u64,
    /// The Interest to send, if the command is an insert and the status is 100.
    pub fetch: Option<Want>,
}

impl RepoReply {
    /// Returns a reply without an Interest to send.
    pub(crate) fn plain(status: u16, count: u64) -> RepoReply
        ensures { result ≡ record { status = status; count = count; fetch = None } }
    {
        RepoReply {
            status,
            count,
            fetch: None,
        }
    }
}

/// Returns the text of a status, or `None` if `Repo::command` returns no reply with this status.
pub fn repo_status_text(status: u16) -> Option<&'static str>
    ensures { option_map (λ text. text.now) result ≡ repo_text_of status }
{
    match status {
        PENDING => Some("pending"),
        OK => Some("OK"),
        BAD_PARAMETERS => Some("bad parameters"),
        NOT_FOUND => Some("not found"),
        FULL => Some("repository full"),
        _ => None,
    }
}

/// Appends a reply: the status code, the status text and `count`. If memory runs out, nothing is
/// appended.
pub fn put_repo_reply(out: &mut Vec<u8>, status: u16, text: &str, count: u64) -> Result<(), Memory>
    ensures ok { OnOk result
        (out.new.items ≡ out.old.items ++ repo_response status text.now count) }
    ensures err { OnErr result (out.new.items ≡ out.old.items) }
    // If the spare capacity of `out` is enough for the reply, memory does not run out.
    ensures room { vec_len out.old + length (repo_response status text.now count)
        ≤ vec_capacity out.old → IsOk result }
    ensures capacity { vec_capacity out.old ≤ vec_capacity out.new }
{
    let len = out.len();
    let done = put_parts(out, status, text.as_bytes(), count);
    if done.is_err() {
        out.truncate(len);
    }
    done
}

/// Appends a reply. If memory runs out, some octets of the reply may be appended.
fn put_parts(out: &mut Vec<u8>, status: u16, text: &[u8], count: u64) -> Result<(), Memory>
    ensures { Puts out.old out.new result (repo_response status text.now count) }
{
    let status = u64::from(status);
    let value_len = nni_element_len(REPO_STATUS_CODE, status)
        + element_len(STATUS_TEXT, text)
        + nni_element_len(COUNT, count);
    put_number(out, u64::from(REPO_COMMAND_RESPONSE))?;
    put_number(out, value_len as u64)?;
    put_nni_element(out, REPO_STATUS_CODE, status)?;
    put_element(out, STATUS_TEXT, text)?;
    put_nni_element(out, COUNT, count)
}

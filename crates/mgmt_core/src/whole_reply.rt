ghost use Rattle.std.specs.Prelude.{◌≡◌, ◌+◌, ◌≤◌, ◌++◌, length, take, vec_len, IsOk, OnOk, OnErr};
ghost use Rattle.std.specs.Option.{option_map};
ghost use Rattle.std.specs.Vec.{vec_capacity};
ghost use Rattle.mgmt_core.specs.Commands.{text_of};
ghost use Rattle.mgmt_core.specs.Writing.{response};

use crate::types::{
    BAD_PARAMETERS, FACE_NOT_OPEN, OK, PREFIX_TOO_LONG, TABLE_FULL, UNKNOWN_COMMAND,
    UNKNOWN_STRATEGY,
};
use ndn_packets::command_types::{CONTROL_RESPONSE, STATUS_CODE, STATUS_TEXT};
use ndn_tlv::{Memory, element_len, nni_element_len, put_element, put_nni_element, put_number};

/// Returns the text of a status that `Command::read` or `apply` may return, or `None` for any other
/// status.
pub fn status_text(status: u16) -> Option<&'static str>
    ensures { option_map (λ text. text.now) result ≡ text_of status }
{
    match status {
        OK => Some("OK"),
        BAD_PARAMETERS => Some("bad parameters"),
        UNKNOWN_STRATEGY => Some("unknown strategy"),
        FACE_NOT_OPEN => Some("face not open"),
        PREFIX_TOO_LONG => Some("prefix too long"),
        UNKNOWN_COMMAND => Some("unknown command"),
        TABLE_FULL => Some("table full"),
        _ => None,
    }
}

/// Appends a reply: the status code, the status text and the body (NFD Management, "Control
/// Command", ControlResponse). The body of a reply is a ControlParameters element or empty. If
/// memory runs out, nothing is appended.
pub fn put_response(out: &mut Vec<u8>, status: u16, text: &str, body: &[u8]) -> Result<(), Memory>
    ensures ok { OnOk result
        (out.new.items ≡ out.old.items ++ response status text.now body.now) }
    ensures err { OnErr result (out.new.items ≡ out.old.items) }
    // If the spare capacity of `out` is enough for the reply, memory does not run out.
    ensures room { vec_len out.old + length (response status text.now body.now)
        ≤ vec_capacity out.old → IsOk result }
    ensures capacity { vec_capacity out.old ≤ vec_capacity out.new }
{
    let len = out.len();
    let done = put_parts(out, status, text.as_bytes(), body);
    if done.is_err() {
        out.truncate(len);
    }
    done
}

/// Appends a reply. If memory runs out, some octets of the reply may be appended.
fn put_parts(out: &mut Vec<u8>, status: u16, text: &[u8], body: &[u8]) -> Result<(), Memory>
    ensures ok { OnOk result
        (out.new.items ≡ out.old.items ++ response status text.now body.now) }
    ensures begins { take (vec_len out.old) out.new.items ≡ out.old.items }
    ensures room { vec_len out.old + length (response status text.now body.now)
        ≤ vec_capacity out.old → IsOk result }
    ensures capacity { vec_capacity out.old ≤ vec_capacity out.new }
{
    let status = u64::from(status);
    let front_len = nni_element_len(STATUS_CODE, status) + element_len(STATUS_TEXT, text);
    let value_len = front_len.checked_add(body.len()).ok_or(Memory)?;
    put_number(out, u64::from(CONTROL_RESPONSE))?;
    put_number(out, value_len as u64)?;
    put_nni_element(out, STATUS_CODE, status)?;
    put_element(out, STATUS_TEXT, text)?;
    out.extend_from_slice(body)?;
    Ok(())
}

ghost use Rattle.std.specs.Prelude.{◌≡◌, ◌≤◌, ◌+◌, ◌++◌, [], List, ℕ, IfOk, IsOk, OnErr, OnOk, length, unwrap_or, vec_len};
ghost use Rattle.std.specs.Vec.{vec_capacity};
ghost use Rattle.ndn_names.specs.View.{components};
ghost use Rattle.ndn_packets.specs.Writing.{reply_text};
ghost use Rattle.mgmt_core.specs.Commands.{text_of};
ghost use Rattle.mgmt_core.specs.Writing.{response};
ghost use Rattle.forwarder.specs.Commands.{repository_content};

use crate::sends::LINK_EXTRA;
use mgmt_core::{put_response, status_text};
use ndn_names::Name;
use ndn_tlv::Memory;
use repo_core::{RepoReply, put_repo_reply, repo_status_text};

/// A reply is longer than its name and its Content together by at most this number of octets. Apart
/// from its name and its Content, a reply consists of headers and a signature.
const REPLY_EXTRA: usize = 77;

/// Returns a number of octets that is enough for a reply with this name and a token, if the reply's
/// Content has at most `content_len` octets. Fails with `Memory` if the number overflows.
pub(crate) fn reply_room(name: Name<'_>, content_len: usize) -> Result<usize, Memory>
    ensures { IfOk result (λ room. (content : List ℕ) → length content ≤ content_len
        → length (reply_text (components name.entry) content) + LINK_EXTRA ≤ room) }
{
    let Some(len) = name.as_octets().len().checked_add(content_len) else {
        return Err(Memory);
    };
    let Some(room) = len.checked_add(REPLY_EXTRA + LINK_EXTRA) else {
        return Err(Memory);
    };
    Ok(room)
}

/// Appends to `out` the Content of a reply: the status, the text of the status (empty if the status
/// has no text), and `body`. Appends nothing if memory runs out.
pub(crate) fn put_status(out: &mut Vec<u8>, status: u16, body: &[u8]) -> Result<(), Memory>
    ensures ok { OnOk result (out.new.items ≡ out.old.items
        ++ response status (unwrap_or (text_of status) []) body.now) }
    ensures err { OnErr result (out.new.items ≡ out.old.items) }
    // If the spare capacity is enough, memory does not run out.
    ensures room { vec_len out.old
        + length (response status (unwrap_or (text_of status) []) body.now)
        ≤ vec_capacity out.old → IsOk result }
{
    let text = status_text(status).unwrap_or("");
    put_response(out, status, text, body)
}

/// Appends to `out` the Content of the repository's reply. Appends nothing if memory runs out.
pub(crate) fn put_repo_status(out: &mut Vec<u8>, reply: &RepoReply) -> Result<(), Memory>
    ensures ok { OnOk result
        (out.new.items ≡ out.old.items ++ repository_content reply.now) }
    ensures err { OnErr result (out.new.items ≡ out.old.items) }
    // If the spare capacity is enough, memory does not run out.
    ensures room { vec_len out.old + length (repository_content reply.now) ≤ vec_capacity out.old
        → IsOk result }
{
    let text = repo_status_text(reply.status).unwrap_or("");
    put_repo_reply(out, reply.status, text, reply.count)
}

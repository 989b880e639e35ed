ghost use Rattle.std.specs.Prelude.{◌≡◌, ◌+◌, ◌≤◌, ◌++◌, IfOk, IsOk, OnErr, OnOk, length, string_bytes, vec_len};
ghost use Rattle.std.specs.Vec.{vec_capacity};
ghost use Rattle.forwarder.specs.Commands.{denial_text, id_of, refused_content};
ghost use Rattle.forwarder.specs.Policy.{Policy};
ghost use Rattle.forwarder.specs.Request.{request_named};

use crate::request::NamedRequest;
use info_rules::{Reason, RuleNo, Rules};
use mgmt_core::put_response;
use ndn_tlv::Memory;
use repo_core::put_repo_reply;
use std::alloc::Global;

/// The status in the reply to a command that is not allowed.
const NOT_AUTHORIZED: u16 = 403;

/// Returns the id of the rule at this index, or an empty string if no rule has this index.
pub fn id_of(rules: &Rules, rule: RuleNo) -> &str
    ensures { result.now ≡ id_of rules.now rule.0 }
{
    if rule.0 < rules.len() {
        rules.id(rule)
    } else {
        ""
    }
}

/// Returns the text of the reply to a command that is denied: the reason and the rule's id.
pub(crate) fn denial_text(
    alloc: Global,
    rules: &Rules,
    rule: RuleNo,
    reason: Reason,
) -> Result<String, Memory>
    ensures { IfOk result (λ text. (p : Policy) → p.rules ≡ rules.now
        → string_bytes text ≡ denial_text p rule.0 reason) }
{
    let mut text = String::new(alloc);
    text.push_str(reason.name())?;
    text.push_str(" by ")?;
    text.push_str(id_of(rules, rule))?;
    Ok(text)
}

/// Appends the Content of the reply to a command that is refused. The reply has status 403 and the
/// text `text`. Appends nothing if memory runs out, or if the request is not a command.
pub(crate) fn put_refusal(
    out: &mut Vec<u8>,
    request: NamedRequest,
    text: &str,
) -> Result<(), Memory>
    ensures ok { OnOk result
        (out.new.items ≡ out.old.items ++ refused_content (request_named request) text.now) }
    ensures err { OnErr result (out.new.items ≡ out.old.items) }
    // If the spare capacity is enough, memory does not run out.
    ensures room { vec_len out.old + length (refused_content (request_named request) text.now)
        ≤ vec_capacity out.old → IsOk result }
    ensures capacity { vec_capacity out.old ≤ vec_capacity out.new }
{
    match request {
        NamedRequest::ForTables => put_response(out, NOT_AUTHORIZED, text, &[]),
        NamedRequest::ForRepository => put_repo_reply(out, NOT_AUTHORIZED, text, 0),
        NamedRequest::ForList(_) | NamedRequest::ForData => Ok(()),
    }
}

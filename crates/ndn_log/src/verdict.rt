//! The texts for verdicts.

ghost use Rattle.std.specs.Prelude.{◌≡◌, ◌++◌, OnOk, codes, option_map};
ghost use Rattle.std.specs.Fmt.{decimal};
ghost use Rattle.ndn_packets.specs.View.{plain_frame};
ghost use Rattle.forwarder.specs.Verdict.{reason_of, verdict_of};
ghost use Rattle.ndn_log.specs.Verdict.{allowed_words, denial_words, drop_words, dropped_words, outcome_words, unverified_words, verdict_words};

use crate::packet::put_key;
use crate::words::{put_octets, put_word};
use forwarder::{DropReason, Verdict, id_of};
use info_rules::{Reason, RuleNo, Rules};
use ndn_packets::Frame;
use ndn_tlv::Memory;
use std::alloc::Global;
use std::io::Write;

/// Appends the verdict in `outcome`, or `out of memory` if `outcome` is an error. `frame` is the
/// frame that the event brings, if any. If memory runs out, some of the text may be appended.
pub fn put_outcome(
    text: &mut Vec<u8>,
    rules: &Rules,
    frame: &Option<Frame<'_>>,
    outcome: &Result<Verdict, Memory>,
) -> Result<(), Memory>
    ensures { OnOk result (text.new.items ≡ text.old.items ++ outcome_words rules.now
        (option_map plain_frame frame.now) outcome.now) }
{
    match outcome {
        Ok(verdict) => put_verdict(text, rules, frame, *verdict),
        Err(_) => put_word(text, "out of memory"),
    }
}

/// If the packet was dropped, appends a comma, the number of octets and at most the first 32
/// octets. Otherwise appends nothing. If memory runs out, some of the text may be appended.
pub fn put_dropped(
    alloc: Global,
    text: &mut Vec<u8>,
    octets: &[u8],
    outcome: &Result<Verdict, Memory>,
) -> Result<(), Memory>
    ensures { OnOk result (text.new.items ≡ text.old.items
        ++ dropped_words octets.now outcome.now) }
{
    match outcome {
        Ok(Verdict::Dropped(_)) => {
            put_word(text, ", ")?;
            put_octets(alloc, text, octets)
        }
        _ => Ok(()),
    }
}

fn put_verdict(
    text: &mut Vec<u8>,
    rules: &Rules,
    frame: &Option<Frame<'_>>,
    verdict: Verdict,
) -> Result<(), Memory>
    ensures { OnOk result (text.new.items ≡ text.old.items ++ verdict_words rules.now
        (option_map plain_frame frame.now) (verdict_of verdict)) }
{
    match verdict {
        Verdict::Passed => put_word(text, "passed"),
        Verdict::Allowed(rule, status) => put_allowed(text, rules, frame, rule, status),
        Verdict::DataAllowed { rule, .. } => {
            write!(
                text,
                "allowed by rule {}{}",
                id_of(rules, rule),
                unverified_words(rules, rule)
            )
            .map_err(|_| Memory)
        }
        Verdict::Denied(_, rule, reason) => {
            put_denial(text, rules, rule, reason)?;
            put_key(text, frame)
        }
        Verdict::NoRule(_) => {
            put_word(text, "denied, no rule applies")?;
            put_key(text, frame)
        }
        Verdict::Dropped(reason) => put_drop(text, reason),
    }
}

/// Appends the rule that allows a command, the name in the command's KeyLocator, if there is such a
/// name, and the status of the reply.
fn put_allowed(
    text: &mut Vec<u8>,
    rules: &Rules,
    frame: &Option<Frame<'_>>,
    rule: RuleNo,
    status: u16,
) -> Result<(), Memory>
    ensures { OnOk result (text.new.items ≡ text.old.items ++ allowed_words rules.now
        (option_map plain_frame frame.now) rule.0 status) }
{
    put_word(text, "allowed by rule ")?;
    put_word(text, id_of(rules, rule))?;
    put_key(text, frame)?;
    put_status(text, status)
}

fn put_status(text: &mut Vec<u8>, status: u16) -> Result<(), Memory>
    ensures { OnOk result (text.new.items ≡ text.old.items
        ++ (codes ", status " ++ decimal status)) }
{
    write!(text, ", status {status}").map_err(|_| Memory)
}

/// Returns the words after the rule that allows a Data: empty words, unless the rule does not
/// verify signatures.
fn unverified_words(rules: &Rules, rule: RuleNo) -> &'static str
    ensures { result.now ≡ unverified_words rules.now rule.0 }
{
    if rules.is_unverified(rule) {
        ", unverified"
    } else {
        ""
    }
}

fn put_denial(text: &mut Vec<u8>, rules: &Rules, rule: RuleNo, reason: Reason) -> Result<(), Memory>
    ensures { OnOk result (text.new.items ≡ text.old.items
        ++ denial_words rules.now rule.0 reason) }
{
    write!(
        text,
        "denied by rule {}, {}",
        id_of(rules, rule),
        reason.name()
    )
    .map_err(|_| Memory)
}

fn put_drop(text: &mut Vec<u8>, reason: DropReason) -> Result<(), Memory>
    ensures { OnOk result (text.new.items ≡ text.old.items ++ drop_words (reason_of reason)) }
{
    match reason {
        DropReason::NoFace => put_word(text, "dropped, NoFace"),
        DropReason::Malformed(fault) => {
            write!(text, "dropped, Malformed {}", fault.name()).map_err(|_| Memory)
        }
        DropReason::Idle => put_word(text, "dropped, Idle"),
        DropReason::HopLimit => put_word(text, "dropped, HopLimit"),
        DropReason::Scope => put_word(text, "dropped, Scope"),
        DropReason::Loop => put_word(text, "dropped, Loop"),
        DropReason::PitFull => put_word(text, "dropped, PitFull"),
        DropReason::NoPending => put_word(text, "dropped, NoPending"),
        DropReason::NoSegment => put_word(text, "dropped, NoSegment"),
        DropReason::BadFace => put_word(text, "dropped, BadFace"),
        DropReason::FaceOpen => put_word(text, "open already"),
        DropReason::FacesFull => put_word(text, "dropped, FacesFull"),
    }
}

ghost use Rattle.std.specs.Prelude.{◌≡◌, ◌<◌, ◌≤◌, ◌+◌, ◌*◌, ◌++◌, ◌∷◌, codes, length, slice_index, vec_len, IsOk, OnErr, OnOk};
ghost use Rattle.std.specs.Fmt.{decimal};
ghost use Rattle.std.specs.List.{flat_map};
ghost use Rattle.std.specs.Vec.{vec_capacity};
ghost use Rattle.hex.specs.Hex.{encode_lower, lower_digits};
ghost use Rattle.ndn_tlv.specs.Writing.{Puts};
ghost use Rattle.info_rules.specs.Names.{reason_name};
ghost use Rattle.forwarder.specs.Commands.{id_of};
ghost use Rattle.node_core.specs.Script.Writing.{drop_name, hex_word, kind_name as kind_name_of, lines_text, numbered_line, result_text, send_text, verdict_text};
ghost use Rattle.forwarder.specs.Verdict.{reason_of, verdict_of};

use forwarder::{DropReason, Outbox, Verdict, id_of};
use info_rules::{Kind, Reason, RuleNo, Rules};
use itoa::Buffer;
use ndn_tlv::Memory;

/// Appends the text of an answer: a line with the number of the event and the verdict on the event,
/// and one line for each packet in `outbox`. If `outcome` is an error, the line of the event has
/// `memory` in place of a verdict. A rule is printed as its id, or as nothing if `rules` has no
/// rule with the number in the verdict. If memory runs out for the text, nothing is appended.
pub fn put_answer(
    text: &mut Vec<u8>,
    number: u64,
    rules: &Rules,
    outcome: &Result<Verdict, Memory>,
    outbox: &Outbox,
) -> Result<(), Memory>
    ensures ok { OnOk result (text.new.items ≡ text.old.items
        ++ lines_text number (result_text rules.now outcome.now) outbox.now) }
    ensures err { OnErr result (text.new.items ≡ text.old.items) }
    // If `text` has spare capacity for all octets that are appended, memory does not run out.
    ensures room { vec_len text.old
        + length (lines_text number (result_text rules.now outcome.now) outbox.now)
        ≤ vec_capacity text.old → IsOk result }
    ensures capacity { vec_capacity text.old ≤ vec_capacity text.new }
{
    let len = text.len();
    let done = put_parts(text, number, rules, outcome, outbox);
    if done.is_err() {
        text.truncate(len);
    }
    done
}

/// Appends the line of an answered event, as `run_script` writes it: the number of the event and
/// the verdict on the event. A rule is printed as its id, or as nothing if `rules` has no rule with
/// the number in the verdict. If memory runs out, nothing is appended.
pub fn put_verdict(
    text: &mut Vec<u8>,
    number: u64,
    verdict: &Verdict,
    rules: &Rules,
) -> Result<(), Memory>
    ensures ok { OnOk result (text.new.items ≡ text.old.items
        ++ numbered_line number (verdict_text rules.now (verdict_of verdict.now))) }
    ensures err { OnErr result (text.new.items ≡ text.old.items) }
    // If `text` has spare capacity for all octets that are appended, memory does not run out.
    ensures room { vec_len text.old
        + length (numbered_line number (verdict_text rules.now (verdict_of verdict.now)))
        ≤ vec_capacity text.old → IsOk result }
    ensures capacity { vec_capacity text.old ≤ vec_capacity text.new }
{
    let len = text.len();
    let done = put_line(text, number, *verdict, rules);
    if done.is_err() {
        text.truncate(len);
    }
    done
}

/// Appends the line of an event for which memory ran out, as `run_script` writes it: the number of
/// the event and the word `memory`. If memory runs out for the line too, nothing is appended.
pub fn put_refused(text: &mut Vec<u8>, number: u64) -> Result<(), Memory>
    ensures ok { OnOk result
        (text.new.items ≡ text.old.items ++ numbered_line number (codes "memory")) }
    ensures err { OnErr result (text.new.items ≡ text.old.items) }
    // If `text` has spare capacity for all octets that are appended, memory does not run out.
    ensures room { vec_len text.old + length (numbered_line number (codes "memory"))
        ≤ vec_capacity text.old → IsOk result }
    ensures capacity { vec_capacity text.old ≤ vec_capacity text.new }
{
    let len = text.len();
    let done = put_refused_line(text, number);
    if done.is_err() {
        text.truncate(len);
    }
    done
}

/// Appends one line for each packet in `outbox`, in the form that `run_script` writes: `>`, the
/// face, and the octets in hexadecimal. A dash stands for no octets. If memory runs out, nothing is
/// appended.
pub fn put_sends(text: &mut Vec<u8>, outbox: &Outbox) -> Result<(), Memory>
    ensures ok { OnOk result (text.new.items ≡ text.old.items ++ flat_map send_text outbox.now) }
    ensures err { OnErr result (text.new.items ≡ text.old.items) }
    // If `text` has spare capacity for all octets that are appended, memory does not run out.
    ensures room { vec_len text.old + length (flat_map send_text outbox.now)
        ≤ vec_capacity text.old → IsOk result }
    ensures capacity { vec_capacity text.old ≤ vec_capacity text.new }
{
    let len = text.len();
    let done = put_send_lines(text, outbox);
    if done.is_err() {
        text.truncate(len);
    }
    done
}

/// Appends the text of an answer. If memory runs out, some octets of the text may have been
/// appended.
fn put_parts(
    text: &mut Vec<u8>,
    number: u64,
    rules: &Rules,
    outcome: &Result<Verdict, Memory>,
    outbox: &Outbox,
) -> Result<(), Memory>
    ensures { Puts text.old text.new result
        (lines_text number (result_text rules.now outcome.now) outbox.now) }
{
    put_outcome(text, number, rules, outcome)?;
    put_send_lines(text, outbox)
}

/// Appends the line of an event. If memory runs out, some octets of the line may have been
/// appended.
fn put_outcome(
    text: &mut Vec<u8>,
    number: u64,
    rules: &Rules,
    outcome: &Result<Verdict, Memory>,
) -> Result<(), Memory>
    ensures { Puts text.old text.new result
        (numbered_line number (result_text rules.now outcome.now)) }
{
    match outcome {
        Ok(verdict) => put_line(text, number, *verdict, rules),
        Err(_) => put_refused_line(text, number),
    }
}

/// Appends the line of an answered event. If memory runs out, some octets of the line may have been
/// appended.
fn put_line(text: &mut Vec<u8>, number: u64, verdict: Verdict, rules: &Rules) -> Result<(), Memory>
    ensures { Puts text.old text.new result
        (numbered_line number (verdict_text rules.now (verdict_of verdict))) }
{
    put_number(text, number)?;
    put_word(text, b" ")?;
    put_verdict_text(text, rules, verdict)?;
    put_word(text, b"\n")
}

/// Appends the line of an event for which memory ran out. If memory runs out for the line too, some
/// octets of the line may have been appended.
fn put_refused_line(text: &mut Vec<u8>, number: u64) -> Result<(), Memory>
    ensures { Puts text.old text.new result (numbered_line number (codes "memory")) }
{
    put_number(text, number)?;
    put_word(text, b" memory\n")
}

/// Appends one line for each packet in `outbox`. If memory runs out, some octets of the lines may
/// have been appended.
fn put_send_lines(text: &mut Vec<u8>, outbox: &Outbox) -> Result<(), Memory>
    ensures { Puts text.old text.new result (flat_map send_text outbox.now) }
{
    for i in 0..outbox.len() {
        if let Some((face, octets)) = outbox.sent(i) {
            put_send(text, face, octets)?;
        }
    }
    Ok(())
}

/// Appends the line of one packet that is sent. If memory runs out, some octets of the line may
/// have been appended.
fn put_send(text: &mut Vec<u8>, face: u64, octets: &[u8]) -> Result<(), Memory>
    ensures { Puts text.old text.new result (send_text (face, octets.now)) }
{
    put_word(text, b"> ")?;
    put_number(text, face)?;
    put_word(text, b" ")?;
    put_octets(text, octets)?;
    put_word(text, b"\n")
}

/// Appends octets in hexadecimal, or a dash for no octets. If memory runs out, nothing is appended.
fn put_octets(text: &mut Vec<u8>, octets: &[u8]) -> Result<(), Memory>
    ensures { Puts text.old text.new result (hex_word octets.now) }
{
    if octets.is_empty() {
        return put_word(text, b"-");
    }
    put_digits(text, octets)
}

/// Appends octets in hexadecimal. If memory runs out, nothing is appended.
fn put_digits(text: &mut Vec<u8>, octets: &[u8]) -> Result<(), Memory>
    ensures { Puts text.old text.new result (encode_lower octets.now) }
{
    let start = text.len();
    let len = octets.len().saturating_mul(2);
    text.resize(start.saturating_add(len), 0)?;
    fill_digits(&mut text[start..], octets);
    Ok(())
}

/// Fills `digits` with the two hexadecimal digits of each octet of `octets`.
fn fill_digits(digits: &mut [u8], octets: &[u8])
    requires { length digits.old ≡ 2 * length octets.now }
    ensures { digits.new ≡ encode_lower octets.now }
{
    for i in 0..octets.len() {
        digits[2 * i] = digit_of(octets[i] / 16);
        digits[2 * i + 1] = digit_of(octets[i] % 16);
    }
}

/// Returns the lower-case hexadecimal digit of a value below 16. The digit is computed without a
/// table.
#[inline(always)]
fn digit_of(value: u8) -> u8
    requires { value < 16 }
    ensures { result ≡ slice_index lower_digits value }
{
    if value < 10 {
        value + b'0'
    } else {
        value - 10 + b'a'
    }
}

/// Appends a number in decimal. If memory runs out, nothing is appended.
fn put_number(text: &mut Vec<u8>, number: u64) -> Result<(), Memory>
    ensures { Puts text.old text.new result (decimal number) }
{
    let mut buffer = Buffer::new();
    put_word(text, buffer.format(number).as_bytes())
}

/// Appends the text of the verdict on an event. If memory runs out, some octets of the text may
/// have been appended.
fn put_verdict_text(text: &mut Vec<u8>, rules: &Rules, verdict: Verdict) -> Result<(), Memory>
    ensures { Puts text.old text.new result (verdict_text rules.now (verdict_of verdict)) }
{
    match verdict {
        Verdict::Passed => put_word(text, b"passed"),
        Verdict::Allowed(rule, status) => put_allowed(text, rules, rule, status),
        Verdict::DataAllowed { rule, .. } => put_words(
            text,
            b"data ",
            id_of(rules, rule).as_bytes(),
        ),
        Verdict::Denied(kind, rule, reason) => put_denied(text, rules, kind, rule, reason),
        Verdict::NoRule(kind) => put_words(text, b"no-rule ", kind_name(kind)),
        Verdict::Dropped(reason) => put_dropped(text, reason),
    }
}

fn put_allowed(text: &mut Vec<u8>, rules: &Rules, rule: RuleNo, status: u16) -> Result<(), Memory>
    ensures { Puts text.old text.new result
        (codes "allowed " ++ (decimal status ++ (32 ∷ id_of rules.now rule.0))) }
{
    put_word(text, b"allowed ")?;
    put_number(text, status as u64)?;
    put_words(text, b" ", id_of(rules, rule).as_bytes())
}

fn put_denied(
    text: &mut Vec<u8>,
    rules: &Rules,
    kind: Kind,
    rule: RuleNo,
    reason: Reason,
) -> Result<(), Memory>
    ensures { Puts text.old text.new result (codes "denied " ++ (kind_name_of kind
        ++ (32 ∷ (reason_name reason ++ (32 ∷ id_of rules.now rule.0))))) }
{
    put_words(text, b"denied ", kind_name(kind))?;
    put_words(text, b" ", reason.name().as_bytes())?;
    put_words(text, b" ", id_of(rules, rule).as_bytes())
}

fn put_dropped(text: &mut Vec<u8>, reason: DropReason) -> Result<(), Memory>
    ensures { Puts text.old text.new result
        (codes "dropped " ++ drop_name (reason_of reason)) }
{
    match reason {
        DropReason::NoFace => put_word(text, b"dropped NoFace"),
        DropReason::Malformed(fault) => {
            put_words(text, b"dropped Malformed ", fault.name().as_bytes())
        }
        DropReason::Idle => put_word(text, b"dropped Idle"),
        DropReason::HopLimit => put_word(text, b"dropped HopLimit"),
        DropReason::Scope => put_word(text, b"dropped Scope"),
        DropReason::Loop => put_word(text, b"dropped Loop"),
        DropReason::PitFull => put_word(text, b"dropped PitFull"),
        DropReason::NoPending => put_word(text, b"dropped NoPending"),
        DropReason::NoSegment => put_word(text, b"dropped NoSegment"),
        DropReason::BadFace => put_word(text, b"dropped BadFace"),
        DropReason::FaceOpen => put_word(text, b"dropped FaceOpen"),
        DropReason::FacesFull => put_word(text, b"dropped FacesFull"),
    }
}

fn kind_name(kind: Kind) -> &'static [u8]
    ensures { result.now ≡ kind_name_of kind }
{
    match kind {
        Kind::Data => b"data",
        Kind::Interest => b"interest",
    }
}

/// Appends two words, one directly after the other. If memory runs out, some octets of the words
/// may have been appended.
fn put_words(text: &mut Vec<u8>, first: &[u8], second: &[u8]) -> Result<(), Memory>
    ensures { Puts text.old text.new result (first.now ++ second.now) }
{
    put_word(text, first)?;
    put_word(text, second)
}

/// Appends a word. If memory runs out, nothing is appended.
fn put_word(text: &mut Vec<u8>, word: &[u8]) -> Result<(), Memory>
    ensures { Puts text.old text.new result word.now }
{
    text.extend_from_slice(word)?;
    Ok(())
}

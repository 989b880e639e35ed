//! The explanation of a packet for debugging, as lines of text.

ghost use Rattle.std.specs.Prelude.{◌≡◌, ◌++◌, OnOk, Some, option_map, codes};
ghost use Rattle.std.specs.Fmt.{decimal};
ghost use Rattle.ndn_packets.specs.Packet.{plain_signature, plain_locator};
ghost use Rattle.ndn_packets.specs.View.{plain_frame, plain_framed, plain_data};
ghost use Rattle.ndn_explain.specs.Show.{named_line, optional_line};
ghost use Rattle.ndn_explain.specs.TagCheck.{MayBeChecked, check_words, check_lines};
ghost use Rattle.ndn_explain.specs.Explain.{reason_word, named_frame_lines, text_lines, locator_text, info_lines, unverified_lines, signer_lines, signature_of, content_lines, data_meaning, meaning, explanation, framed_explanation};

use crate::dataset::{Layout, put_entries};
use crate::meaning::{is_one_line, put_command, put_reply};
use crate::segment::put_segment;
use crate::show::{
    put_frame, put_interest, put_label, put_name, put_number, put_optional, put_value,
};
use crate::tag_check::{TagCheck, check_tag};
use key_files::{KeyBook, SHA256_WITH_ECDSA};
use ndn_packets::types::{CONGESTION, DUPLICATE, NO_ROUTE};
use ndn_packets::{DIGEST_SHA256, Data, Frame, Framed, HMAC_WITH_SHA256, Locator, Signature};
use ndn_tlv::Memory;
use std::alloc::Global;
use std::io::Write;

/// Checks the signature of a packet, if the packet is signed and keys are given. Otherwise returns
/// `None`.
pub fn check_of(frame: &Frame<'_>, keys: Option<&KeyBook>) -> Option<TagCheck>
    ensures { MayBeChecked (plain_frame frame.now) (option_map (λ b. b.now) keys.entry) result }
{
    match keys {
        None => None,
        Some(book) => check_tag(frame, book),
    }
}

/// Appends a line with the PIT token in hexadecimal, if the frame has a token (NDNLPv2, "PIT
/// Token"). Then appends the explanation of the frame. On `Memory`, some of the text may have been
/// appended.
pub fn put_framed_explanation(
    alloc: Global,
    text: &mut Vec<u8>,
    framed: &Framed<'_>,
    check: Option<TagCheck>,
) -> Result<(), Memory>
    ensures { OnOk result (text.new.items
        ≡ text.old.items ++ framed_explanation (plain_framed framed.now) check) }
{
    put_optional(alloc, text, "token", framed.token)?;
    put_explanation(alloc, text, &framed.frame, check)
}

/// Appends the lines that `ndn_tool show` prints. If a Nack's reason has a name, the name is added
/// after the number of the reason. Then appends the lines of the SignatureInfo and the line of the
/// signature check. At the end, appends the lines of what the packet carries: a segment, a command,
/// a reply, a dataset or a printable Content. On `Memory`, some of the lines may have been
/// appended.
pub fn put_explanation(
    alloc: Global,
    text: &mut Vec<u8>,
    frame: &Frame<'_>,
    check: Option<TagCheck>,
) -> Result<(), Memory>
    ensures { OnOk result (text.new.items
        ≡ text.old.items ++ explanation (plain_frame frame.now) check) }
{
    put_named_frame(alloc, text, frame)?;
    put_signer(alloc, text, check.is_some(), signature_of(frame))?;
    put_check(text, check)?;
    put_meaning(alloc, text, frame)
}

/// Appends the lines that `ndn_tool show` prints. If a Nack's reason has a name, the name is added
/// after the number of the reason.
fn put_named_frame(alloc: Global, text: &mut Vec<u8>, frame: &Frame<'_>) -> Result<(), Memory>
    ensures { OnOk result (text.new.items
        ≡ text.old.items ++ named_frame_lines (plain_frame frame.now)) }
{
    match frame {
        Frame::Nack { reason, interest } => {
            put_reason(text, *reason)?;
            put_interest(alloc, text, interest)
        }
        _ => put_frame(alloc, text, frame),
    }
}

fn put_reason(text: &mut Vec<u8>, reason: u64) -> Result<(), Memory>
    ensures { OnOk result (text.new.items ≡ text.old.items
        ++ named_line (codes "nack") (decimal reason ++ reason_word reason)) }
{
    writeln!(text, "nack {reason}{}", reason_word(reason)).map_err(|_| Memory)
}

/// Returns a space and the name of a Nack's reason, or an empty text for a reason without a name.
fn reason_word(reason: u64) -> &'static str
    ensures { result.now ≡ reason_word reason }
{
    match reason {
        CONGESTION => " Congestion",
        DUPLICATE => " Duplicate",
        NO_ROUTE => " NoRoute",
        _ => "",
    }
}

/// Appends the line with the result of the signature check, or nothing if `check` is `None`.
fn put_check(text: &mut Vec<u8>, check: Option<TagCheck>) -> Result<(), Memory>
    ensures { OnOk result (text.new.items ≡ text.old.items ++ check_lines check) }
{
    match check {
        None => Ok(()),
        Some(check) => put_label(text, check_words(check)),
    }
}

fn check_words(check: TagCheck) -> &'static str
    ensures { result.now ≡ check_words check }
{
    match check {
        TagCheck::Right => "tag right",
        TagCheck::Wrong => "tag wrong",
        TagCheck::UnknownKey => "key unknown",
        TagCheck::Unchecked => "tag not checked",
    }
}

/// Appends the lines of what the packet carries: a segment, a command, a reply, a dataset or a
/// text.
fn put_meaning(alloc: Global, text: &mut Vec<u8>, frame: &Frame<'_>) -> Result<(), Memory>
    ensures { OnOk result (text.new.items ≡ text.old.items ++ meaning (plain_frame frame.now)) }
{
    match frame {
        Frame::Interest(interest) => put_command(alloc, text, interest.name),
        Frame::Data(packet) => put_data_meaning(alloc, text, packet),
        Frame::Nack { interest, .. } => put_command(alloc, text, interest.name),
        Frame::Idle => Ok(()),
    }
}

fn put_data_meaning(alloc: Global, text: &mut Vec<u8>, packet: &Data<'_>) -> Result<(), Memory>
    ensures { OnOk result (text.new.items ≡ text.old.items
        ++ data_meaning packet.now.whole.now (plain_data packet.now)) }
{
    put_segment(text, packet.name, packet.whole)?;
    match packet.content {
        None => Ok(()),
        Some(content) => put_content(alloc, text, content),
    }
}

/// Appends the lines of a Content that is a reply, the entries of a dataset, or a text. Appends
/// nothing for any other Content.
pub fn put_content(alloc: Global, text: &mut Vec<u8>, content: &[u8]) -> Result<(), Memory>
    ensures { OnOk result (text.new.items
        ≡ text.old.items ++ content_lines (Some content.now)) }
{
    put_reply(alloc, text, content)?;
    put_entries(alloc, text, Layout::Lines, content)?;
    put_text(text, content)
}

/// Appends the line of a Content that is not empty and consists of printable ASCII. Appends nothing
/// for any other Content.
fn put_text(text: &mut Vec<u8>, content: &[u8]) -> Result<(), Memory>
    ensures { OnOk result (text.new.items ≡ text.old.items ++ text_lines content.now) }
{
    if content.is_empty() || !is_one_line(content) {
        return Ok(());
    }
    put_value(text, "text", content)
}

/// Appends the lines of the SignatureInfo of a signed packet, or nothing if `signature` is `None`.
/// `checked` means that signatures are checked.
fn put_signer(
    alloc: Global,
    text: &mut Vec<u8>,
    checked: bool,
    signature: Option<Signature<'_>>,
) -> Result<(), Memory>
    ensures { OnOk result (text.new.items ≡ text.old.items
        ++ signer_lines checked (option_map plain_signature signature.entry)) }
{
    match signature {
        None => Ok(()),
        Some(signature) => {
            put_info(alloc, text, &signature)?;
            put_unverified(text, checked, signature.kind)
        }
    }
}

/// Appends the line of a signature that is not verified. Appends nothing for a DigestSha256 or an
/// HMAC, and nothing for an ECDSA signature, if signatures are checked.
fn put_unverified(text: &mut Vec<u8>, checked: bool, kind: u64) -> Result<(), Memory>
    ensures { OnOk result (text.new.items ≡ text.old.items ++ unverified_lines checked kind) }
{
    match kind {
        DIGEST_SHA256 | HMAC_WITH_SHA256 => Ok(()),
        SHA256_WITH_ECDSA if checked => Ok(()),
        _ => writeln!(text, "signature: type {kind}, not verified").map_err(|_| Memory),
    }
}

fn signature_of<'a>(frame: &Frame<'a>) -> Option<Signature<'a>>
    ensures { option_map plain_signature result ≡ signature_of (plain_frame frame.now) }
{
    match frame {
        Frame::Interest(interest) => interest.signature,
        Frame::Data(data) => Some(data.signature),
        Frame::Nack { interest, .. } => interest.signature,
        Frame::Idle => None,
    }
}

/// Appends the lines of a SignatureInfo.
fn put_info(alloc: Global, text: &mut Vec<u8>, signature: &Signature<'_>) -> Result<(), Memory>
    ensures { OnOk result (text.new.items ≡ text.old.items
        ++ info_lines (plain_signature signature.now).info) }
{
    put_locator(alloc, text, signature.locator)?;
    put_optional_number(text, "time", signature.time)?;
    put_optional_number(text, "seq", signature.seq)
}

fn put_locator(alloc: Global, text: &mut Vec<u8>, locator: Locator<'_>) -> Result<(), Memory>
    ensures { OnOk result (text.new.items ≡ text.old.items
        ++ optional_line (codes "key-locator") (locator_text (plain_locator locator.entry))) }
{
    match locator {
        Locator::Missing => Ok(()),
        Locator::Name(name) => put_name(alloc, text, "key-locator", name),
        Locator::Digest => put_value(text, "key-locator", b"digest"),
        Locator::Other => put_value(text, "key-locator", b"other"),
    }
}

fn put_optional_number(text: &mut Vec<u8>, label: &str, number: Option<u64>) -> Result<(), Memory>
    ensures { OnOk result (text.new.items ≡ text.old.items
        ++ optional_line label.now (option_map decimal number)) }
{
    match number {
        None => Ok(()),
        Some(number) => put_number(text, label, number),
    }
}

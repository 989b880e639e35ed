//! The fields of a packet, as lines of text.
ghost use Rattle.std.specs.Prelude.{◌≡◌, ◌++◌, OnOk, IfOk, option_map, codes};
ghost use Rattle.std.specs.Fmt.{decimal};
ghost use Rattle.ndn_names.specs.View.{components};
ghost use Rattle.ndn_names.specs.Uri.{uri_of};
ghost use Rattle.ndn_packets.specs.Packet.{plain_signature};
ghost use Rattle.ndn_packets.specs.View.{plain_frame, plain_interest};
ghost use Rattle.ndn_explain.specs.Show.{line, hex_line, named_line, flag_line, optional_line, hex_or_dash, signature_line, flag_lines, number_lines, parameter_lines, interest_lines, data_lines, frame_lines};

use ndn_names::{Name, NameBuf};
use ndn_packets::{Frame, Interest, Signature};
use ndn_tlv::Memory;
use std::alloc::Global;
use std::io::Write;

/// Appends the lines of a frame's fields. On `Memory`, some of the lines may have been appended.
pub fn put_frame(alloc: Global, text: &mut Vec<u8>, frame: &Frame<'_>) -> Result<(), Memory>
    ensures { OnOk result (text.new.items ≡ text.old.items ++ frame_lines (plain_frame frame.now)) }
{
    match frame {
        Frame::Interest(interest) => put_interest(alloc, text, interest),
        Frame::Data(data) => put_data(
            alloc,
            text,
            data.name,
            data.freshness,
            data.content,
            data.signature,
        ),
        Frame::Nack { reason, interest } => {
            put_number(text, "nack", *reason)?;
            put_interest(alloc, text, interest)
        }
        Frame::Idle => put_label(text, "idle"),
    }
}

pub fn put_interest(
    alloc: Global,
    text: &mut Vec<u8>,
    interest: &Interest<'_>,
) -> Result<(), Memory>
    ensures { OnOk result (text.new.items ≡ text.old.items
        ++ interest_lines (plain_interest interest.now)) }
{
    put_name(alloc, text, "interest", interest.name)?;
    put_flags(text, interest)?;
    put_numbers(alloc, text, interest)?;
    put_parameters(alloc, text, interest)
}

fn put_flags(text: &mut Vec<u8>, interest: &Interest<'_>) -> Result<(), Memory>
    ensures { OnOk result (text.new.items ≡ text.old.items
        ++ flag_lines (plain_interest interest.now)) }
{
    put_flag(text, "can-be-prefix", interest.can_be_prefix)?;
    put_flag(text, "must-be-fresh", interest.must_be_fresh)
}

fn put_numbers(alloc: Global, text: &mut Vec<u8>, interest: &Interest<'_>) -> Result<(), Memory>
    ensures { OnOk result (text.new.items ≡ text.old.items
        ++ number_lines (plain_interest interest.now)) }
{
    put_octets(alloc, text, "nonce", &interest.nonce)?;
    put_number(text, "lifetime", interest.lifetime)?;
    put_hops(text, interest.hop_limit)
}

/// Appends the lines of an Interest's parameters and signature.
fn put_parameters(alloc: Global, text: &mut Vec<u8>, interest: &Interest<'_>) -> Result<(), Memory>
    ensures { OnOk result (text.new.items ≡ text.old.items
        ++ parameter_lines (plain_interest interest.now)) }
{
    put_optional(alloc, text, "parameters", interest.parameters)?;
    match interest.signature {
        None => Ok(()),
        Some(signature) => put_signature(alloc, text, signature),
    }
}

fn put_hops(text: &mut Vec<u8>, hops: Option<u8>) -> Result<(), Memory>
    ensures { OnOk result (text.new.items ≡ text.old.items
        ++ optional_line (codes "hop-limit") (option_map decimal hops)) }
{
    match hops {
        None => Ok(()),
        Some(hops) => put_number(text, "hop-limit", u64::from(hops)),
    }
}

/// Appends the lines of a Data with these fields.
pub fn put_data(
    alloc: Global,
    text: &mut Vec<u8>,
    name: Name<'_>,
    freshness: u64,
    content: Option<&[u8]>,
    signature: Signature<'_>,
) -> Result<(), Memory>
    ensures { OnOk result (text.new.items ≡ text.old.items ++ data_lines (record {
      name = components name.entry;
      freshness = freshness;
      content = option_map (λ c. c.now) content.entry;
      signature = plain_signature signature.entry;
    })) }
{
    put_name(alloc, text, "data", name)?;
    put_number(text, "freshness", freshness)?;
    put_optional(alloc, text, "content", content)?;
    put_signature(alloc, text, signature)
}

fn put_signature(alloc: Global, text: &mut Vec<u8>, signature: Signature<'_>) -> Result<(), Memory>
    ensures { OnOk result (text.new.items ≡ text.old.items
        ++ signature_line (plain_signature signature.entry)) }
{
    write!(text, "signature {} ", signature.kind).map_err(|_| Memory)?;
    put_hex(alloc, text, signature.value)?;
    text.push(b'\n')?;
    Ok(())
}

pub fn put_name(
    alloc: Global,
    text: &mut Vec<u8>,
    label: &str,
    name: Name<'_>,
) -> Result<(), Memory>
    ensures { OnOk result (text.new.items ≡ text.old.items
        ++ named_line label.now (uri_of (components name.entry))) }
{
    let uri = NameBuf::from_name(alloc, name)?.to_uri(alloc)?;
    put_value(text, label, uri.as_bytes())
}

pub fn put_number(text: &mut Vec<u8>, label: &str, number: u64) -> Result<(), Memory>
    ensures { OnOk result (text.new.items ≡ text.old.items
        ++ named_line label.now (decimal number)) }
{
    writeln!(text, "{label} {number}").map_err(|_| Memory)
}

pub fn put_flag(text: &mut Vec<u8>, label: &str, is_there: bool) -> Result<(), Memory>
    ensures { OnOk result (text.new.items ≡ text.old.items ++ flag_line label.now is_there) }
{
    if is_there {
        put_label(text, label)
    } else {
        Ok(())
    }
}

pub fn put_optional(
    alloc: Global,
    text: &mut Vec<u8>,
    label: &str,
    octets: Option<&[u8]>,
) -> Result<(), Memory>
    ensures { OnOk result (text.new.items ≡ text.old.items
        ++ optional_line label.now (option_map (λ o. hex_or_dash o.now) octets.entry)) }
{
    match octets {
        None => Ok(()),
        Some(octets) => put_octets(alloc, text, label, octets),
    }
}

fn put_octets(alloc: Global, text: &mut Vec<u8>, label: &str, octets: &[u8]) -> Result<(), Memory>
    ensures { OnOk result (text.new.items ≡ text.old.items
        ++ named_line label.now (hex_or_dash octets.now)) }
{
    text.extend_from_slice(label.as_bytes())?;
    text.push(b' ')?;
    put_hex(alloc, text, octets)?;
    text.push(b'\n')?;
    Ok(())
}

/// Appends octets in hexadecimal, or a dash if there are none.
pub fn put_hex(alloc: Global, text: &mut Vec<u8>, octets: &[u8]) -> Result<(), Memory>
    ensures { OnOk result (text.new.items ≡ text.old.items ++ hex_or_dash octets.now) }
{
    if octets.is_empty() {
        text.push(b'-')?;
    } else {
        let digits = hex::encode(alloc, octets)?;
        text.extend_from_slice(digits.as_bytes())?;
    }
    Ok(())
}

pub fn put_value(text: &mut Vec<u8>, label: &str, value: &[u8]) -> Result<(), Memory>
    ensures { OnOk result (text.new.items ≡ text.old.items ++ named_line label.now value.now) }
{
    text.extend_from_slice(label.as_bytes())?;
    text.push(b' ')?;
    text.extend_from_slice(value)?;
    text.push(b'\n')?;
    Ok(())
}

pub fn put_label(text: &mut Vec<u8>, label: &str) -> Result<(), Memory>
    ensures { OnOk result (text.new.items ≡ text.old.items ++ line label.now) }
{
    text.extend_from_slice(label.as_bytes())?;
    text.push(b'\n')?;
    Ok(())
}

/// Returns a line with the octets in hexadecimal.
pub fn hex_line(alloc: Global, octets: &[u8]) -> Result<Vec<u8>, Memory>
    ensures { IfOk result (λ text. text.items ≡ hex_line octets.now) }
{
    let mut text = hex::encode(alloc, octets)?;
    text.push('\n')?;
    Ok(text.into_bytes())
}

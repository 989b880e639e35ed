//! Explaining the lines of a text.

ghost use Rattle.std.specs.Prelude.{◌≡◌, ◌≢◌, ◌<◌, ◌⊎◌, ◌++◌, ◌∷◌, [], List, ℕ, Ok, OnOk, codes, option_map, length};
ghost use Rattle.key_files.specs.KeyFile.{lines_of};
ghost use Rattle.ndn_explain.specs.Input.{is_send, parts_of, repeated, IsExplainedPacket, IsExplainedPart, IsExplainedLine, IsExplainedInput};
ghost use Rattle.hex.specs.Hex.{decode_of};
ghost use Rattle.ndn_packets.specs.FaultName.{packet_name};
ghost use Rattle.ndn_explain.specs.Show.{named_line};

use crate::explain::{check_of, put_framed_explanation};
use crate::show::{put_label, put_value};
use hex::FromHexError;
use key_files::{KeyBook, first_line};
use ndn_packets::{PacketFault, read_lp};
use ndn_tlv::Memory;
use std::alloc::Global;

/// Explains the lines of a text one by one, and appends the result. A packet is replaced by its
/// explanation or, if the packet is malformed, by the reason. The text before the packet becomes a
/// separate line. A line without a packet stays as it is, and empty lines are omitted. A packet is
/// one or more octets in hexadecimal, either alone on a line or after the last space of a line that
/// begins with `>`. The signature of each packet is checked if there are keys. On `Memory`, some of
/// the lines may have been appended.
pub fn put_input(
    alloc: Global,
    text: &mut Vec<u8>,
    input: &str,
    keys: Option<&KeyBook>,
) -> Result<(), Memory>
    ensures { OnOk result ((said : List ℕ)
        × IsExplainedInput (option_map (λ b. b.now) keys.entry) input.now said
        × (text.new.items ≡ text.old.items ++ said)) }
{
    let mut rest = input;
    while !rest.is_empty() {
        let (line, after) = first_line(rest);
        put_line(alloc, text, line, keys)?;
        rest = after;
    }
    Ok(())
}

fn put_line(
    alloc: Global,
    text: &mut Vec<u8>,
    line: &str,
    keys: Option<&KeyBook>,
) -> Result<(), Memory>
    ensures { OnOk result ((said : List ℕ)
        × IsExplainedLine (option_map (λ b. b.now) keys.entry) line.now said
        × (text.new.items ≡ text.old.items ++ said)) }
{
    let (head, digits) = parts_of(line);
    put_digits(alloc, text, line, head, digits, keys)
}

/// Explains a line. `head` and `digits` are what `parts_of` returns for this line: the text before
/// the packet, and the packet's digits.
fn put_digits(
    alloc: Global,
    text: &mut Vec<u8>,
    line: &str,
    head: &str,
    digits: &str,
    keys: Option<&KeyBook>,
) -> Result<(), Memory>
    ensures { OnOk result ((said : List ℕ)
        × IsExplainedPart (option_map (λ b. b.now) keys.entry) line.now head.now
        (decode_of digits.now) said
        × (text.new.items ≡ text.old.items ++ said)) }
{
    match hex::decode(alloc, digits) {
        Ok(octets) => put_octets(alloc, text, line, head, &octets, keys),
        Err(FromHexError::OutOfMemory) => Err(Memory),
        Err(_) => put_repeated(text, line),
    }
}

/// Appends `head` as a line, and then the explanation of the packet in `octets`, or the line that
/// says why `octets` are not a packet. If there are no octets, appends `line` instead. An empty
/// `head` or `line` is left out.
fn put_octets(
    alloc: Global,
    text: &mut Vec<u8>,
    line: &str,
    head: &str,
    octets: &[u8],
    keys: Option<&KeyBook>,
) -> Result<(), Memory>
    ensures { OnOk result ((said : List ℕ)
        × IsExplainedPart (option_map (λ b. b.now) keys.entry) line.now head.now
        (Ok octets.now) said
        × (text.new.items ≡ text.old.items ++ said)) }
{
    if octets.is_empty() {
        return put_repeated(text, line);
    }
    put_repeated(text, head)?;
    put_packet(alloc, text, octets, keys)
}

/// Returns the text before the packet in a line, and the packet's digits, if the line has a packet.
/// For a line that begins with `>` and has a space, the two results are the texts before and after
/// the last space. For any other line, they are an empty text and the whole line.
fn parts_of(line: &str) -> (&str, &str)
    ensures { (result.0.now, result.1.now) ≡ parts_of line.now }
{
    if !is_send(line) {
        return ("", line);
    }
    match line.rsplit_once(' ') {
        Some(parts) => parts,
        None => ("", line),
    }
}

/// Returns whether the line begins with `>`, like the line of a sent packet in the answers of
/// `ndn_node` to a script.
fn is_send(line: &str) -> bool
    ensures { result ≡ is_send line.now }
{
    line.starts_with('>')
}

/// Appends the line unchanged, unless it is empty.
fn put_repeated(text: &mut Vec<u8>, line: &str) -> Result<(), Memory>
    ensures { OnOk result (text.new.items ≡ text.old.items ++ repeated line.now) }
{
    if line.is_empty() {
        Ok(())
    } else {
        put_label(text, line)
    }
}

/// Appends the explanation of the packet in `octets`, or the line that says why `octets` are not a
/// packet.
fn put_packet(
    alloc: Global,
    text: &mut Vec<u8>,
    octets: &[u8],
    keys: Option<&KeyBook>,
) -> Result<(), Memory>
    ensures { OnOk result ((said : List ℕ)
        × IsExplainedPacket (option_map (λ b. b.now) keys.entry) octets.now said
        × (text.new.items ≡ text.old.items ++ said)) }
{
    match read_lp(octets) {
        Ok(framed) => {
            put_framed_explanation(alloc, text, &framed, check_of(&framed.frame, keys))
        }
        Err(fault) => put_malformed(text, fault),
    }
}

/// Appends the line that says why octets are not a packet.
fn put_malformed(text: &mut Vec<u8>, fault: PacketFault) -> Result<(), Memory>
    ensures { OnOk result (text.new.items ≡ text.old.items
        ++ named_line (codes "malformed") (packet_name fault)) }
{
    put_value(text, "malformed", fault.name().as_bytes())
}

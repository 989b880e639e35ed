//! Standard input: one packet, or lines.

ghost use Rattle.std.specs.Prelude.{◌≡◌, ◌≤◌, IfOk, IfSome, MatchResult, string_len};
ghost use Rattle.std.specs.Io.BufRead.{take_through};
ghost use Rattle.ndn_jobs.specs.Value.{AreOctets, ReadsInMemory};
ghost use Rattle.ndn_client.specs.Input.{IsInput, IsInputFault, IsTextOf, IsUnreadInput, without_lf};

use crate::fault::Fault;
use hex::FromHexError;
use limited_reads::{read_line_within, read_within};
use ndn_jobs::{ToolFault, refusal};
use std::alloc::Global;
use std::io;
use std::io::{BufRead, Read};

/// The greatest length of standard input with one packet, in octets: 131,014 hexadecimal digits for
/// the 65,507 octets that a UDP datagram can carry, and an LF.
const MAX_PACKET_INPUT: u32 = 131_015;

/// The greatest length of a line of standard input, in octets, including its LF. In the answers of
/// `ndn_node` to a script, a line with a packet of the greatest length has at most 131,038 octets.
const MAX_INPUT_LINE: u32 = 131_072;

/// Reads the text of standard input for a job that reads one packet. An input of more than 131,015
/// octets is refused. The limit is the length of 65,507 octets in hexadecimal and an LF.
pub fn read_packet_input<R: Read + Drop>(alloc: Global, reader: R) -> Result<String, Fault>
    // This clause states the result if the octets of the reader are known.
    ensures { IfSome (R.remaining reader)
        (λ octets. MatchResult result (IsInput 131015 octets) (IsInputFault 131015 octets)) }
{
    match read_within(alloc, reader, MAX_PACKET_INPUT) {
        Ok(Some(octets)) => text_of(octets),
        Ok(None) => Err(Fault::Tool(refusal(
            "standard input",
            "one packet in hexadecimal, of at most 65507 octets",
        ))),
        Err(error) => Err(unread(&error)),
    }
}

/// Reads the next line of standard input, including its LF. At the end of the input, returns an
/// empty text. A line of more than 131,072 octets, including its LF, is refused.
pub fn read_input_line<R: BufRead>(alloc: Global, reader: &mut R) -> Result<String, Fault>
    ensures bound { IfOk result (λ line. string_len line ≤ 131072) }
    // This clause states the result if the octets of the reader are known.
    ensures known { IfSome (R.remaining reader.old)
        (λ octets. MatchResult result (IsInput 131072 (take_through 10 octets))
        (IsInputFault 131072 (take_through 10 octets))) }
{
    match read_line_within(alloc, reader, MAX_INPUT_LINE) {
        Ok(Some(line)) => text_of(line),
        Ok(None) => Err(Fault::Tool(refusal("standard input", "lines of at most 131072 octets"))),
        Err(error) => Err(unread(&error)),
    }
}

/// Returns the octets as text, or the fault `Input` if the octets are not UTF-8.
fn text_of(octets: Vec<u8>) -> Result<String, Fault>
    ensures { MatchResult result (IsTextOf octets.items) IsUnreadInput }
{
    String::from_utf8(octets).map_err(|_| Fault::Input)
}

/// Returns the fault for standard input that cannot be read: `Memory` if memory ran out, and
/// otherwise `Input`.
fn unread(error: &io::Error) -> Fault
    ensures { IsUnreadInput result }
{
    if error.kind() == io::ErrorKind::OutOfMemory {
        return Fault::Tool(ToolFault::Memory);
    }
    Fault::Input
}

/// Returns the packet that a text encodes in hexadecimal digits of either case, with or without an
/// LF at the end.
pub fn packet_in(alloc: Global, input: &[u8]) -> Result<Vec<u8>, ToolFault>
    ensures { ReadsInMemory (AreOctets (without_lf input.now)) result }
{
    match hex::decode(alloc, without_lf(input)) {
        Ok(octets) => Ok(octets),
        Err(FromHexError::OutOfMemory) => Err(ToolFault::Memory),
        Err(_) => Err(refusal("standard input", "one packet in hexadecimal")),
    }
}

/// Returns the text without its last octet if this octet is an LF, or else the whole text.
fn without_lf(text: &[u8]) -> &[u8]
    ensures { result.now ≡ without_lf text.now }
{
    let last = text.len().saturating_sub(1);
    match text.get(last) {
        Some(&octet) if octet == b'\n' => &text[..last],
        _ => text,
    }
}

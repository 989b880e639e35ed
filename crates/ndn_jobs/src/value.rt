//! The values that the texts of a command line spell. For a text that spells no value, the fault is
//! `BadValue` with the given `place`.
ghost use Rattle.std.specs.Prelude.{◌≡◌, ℕ, MatchOption};
ghost use Rattle.ndn_names.specs.ReadsAs.{ReadsAs};
ghost use Rattle.ndn_jobs.specs.Value.{IsNumber, IsHops, IsPeriod, IsPort, AreOctets, IsPacket, IsNonce, IsTokenText, IsUsage, Reads, ReadsInMemory};
ghost use Rattle.ndn_jobs.specs.Endpoint.{IsEndpoint};

use crate::fault::{ToolFault, Usage};
use crate::token::Token;
use hex::FromHexError;
use ndn_names::{NameBuf, NameFault};
use std::alloc::Global;
use std::net::{IpAddr, Ipv4Addr, SocketAddr};

/// Returns the name whose URI is this text.
pub fn parse_name(alloc: Global, place: &'static str, text: &str) -> Result<NameBuf, ToolFault>
    ensures { ReadsInMemory (ReadsAs text.now) result }
{
    parse_uri(alloc, place, text, "the URI of a name, such as /A/B")
}

/// Returns the name of the strategy whose URI is this text.
pub fn parse_strategy(alloc: Global, place: &'static str, text: &str) -> Result<NameBuf, ToolFault>
    ensures { ReadsInMemory (ReadsAs text.now) result }
{
    parse_uri(
        alloc,
        place,
        text,
        "best-route, multicast or the URI of a strategy",
    )
}

fn parse_uri(
    alloc: Global,
    place: &'static str,
    text: &str,
    wanted: &'static str,
) -> Result<NameBuf, ToolFault>
    ensures { ReadsInMemory (ReadsAs text.now) result }
{
    match NameBuf::from_uri(alloc, text) {
        Ok(name) => Ok(name),
        Err(fault) => match fault {
            NameFault::Memory => Err(ToolFault::Memory),
            _ => Err(bad_value(place, wanted)),
        },
    }
}

/// Returns the octets that a text spells in hexadecimal of either case. An empty text spells the
/// empty list of octets.
pub fn parse_octets(alloc: Global, place: &'static str, text: &str) -> Result<Vec<u8>, ToolFault>
    ensures { ReadsInMemory (AreOctets text.now) result }
{
    match hex::decode(alloc, text) {
        Ok(octets) => Ok(octets),
        Err(FromHexError::OutOfMemory) => Err(ToolFault::Memory),
        Err(_) => Err(bad_value(place, "two hexadecimal digits for each octet")),
    }
}

/// Returns the PIT token of 1 to 32 octets that a text spells in hexadecimal of either case.
pub fn parse_token(alloc: Global, place: &'static str, text: &str) -> Result<Token, ToolFault>
    ensures { ReadsInMemory (IsTokenText text.now) result }
{
    match hex::decode(alloc, text) {
        Ok(octets) => match Token::new(octets) {
            Some(token) => Ok(token),
            None => Err(bad_value(place, "1 to 32 octets in hexadecimal")),
        },
        Err(FromHexError::OutOfMemory) => Err(ToolFault::Memory),
        Err(_) => Err(bad_value(place, "1 to 32 octets in hexadecimal")),
    }
}

/// Returns the packet that a text spells in hexadecimal, or `None` if the text is a dash.
pub fn parse_packet(
    alloc: Global,
    place: &'static str,
    text: &str,
) -> Result<Option<Vec<u8>>, ToolFault>
    ensures { ReadsInMemory (IsPacket text.now) result }
{
    if text == "-" {
        return Ok(None);
    }
    Ok(Some(parse_octets(alloc, place, text)?))
}

/// Returns the 4 octets of the Nonce that a text spells in hexadecimal.
pub fn parse_nonce(place: &'static str, text: &str) -> Result<[u8; 4], ToolFault>
    ensures { Reads (IsNonce text.now) result }
{
    let mut nonce = [0; 4];
    match hex::decode_to_slice(text, &mut nonce) {
        Ok(()) => Ok(nonce),
        Err(_) => Err(bad_value(place, "8 hexadecimal digits, such as 01020304")),
    }
}

/// Returns the number below 2^64 that a text spells in decimal digits. Leading zeros are allowed.
pub fn parse_number(place: &'static str, text: &str) -> Result<u64, ToolFault>
    ensures { Reads (IsNumber text.now) result }
{
    match parse_digits(text) {
        Some(number) => Ok(number),
        None => Err(bad_value(place, "a decimal number below 2^64")),
    }
}

/// Returns the number of hops, from 0 to 255, that a text spells in decimal digits.
pub fn parse_hops(place: &'static str, text: &str) -> Result<u8, ToolFault>
    ensures { Reads (IsHops text.now) result }
{
    if let Some(number) = parse_digits(text)
        && let Ok(hops) = u8::try_from(number)
    {
        return Ok(hops);
    }
    Err(bad_value(place, "a decimal number from 0 to 255"))
}

/// Returns the number of milliseconds, from 1 to 2^32 - 1, that a text spells in decimal digits.
pub fn parse_period(place: &'static str, text: &str) -> Result<u32, ToolFault>
    ensures { Reads (IsPeriod text.now) result }
{
    if let Some(number) = parse_digits(text)
        && let Ok(period) = u32::try_from(number)
        && period > 0
    {
        return Ok(period);
    }
    Err(bad_value(
        place,
        "a decimal number of milliseconds from 1 to 4294967295",
    ))
}

/// Returns the port, from 1 to 65535, that a text spells in decimal digits.
pub fn parse_port(place: &'static str, text: &str) -> Result<u16, ToolFault>
    ensures { Reads (IsPort text.now) result }
{
    match port_of(text) {
        Some(port) => Ok(port),
        None => Err(bad_value(place, "a port, a decimal number from 1 to 65535")),
    }
}

/// Returns the address and the port that a text spells. A port alone stands for the address
/// 127.0.0.1 with this port.
pub fn parse_endpoint(place: &'static str, text: &str) -> Result<SocketAddr, ToolFault>
    ensures { Reads (IsEndpoint text.now) result }
{
    if let Some(port) = port_of(text) {
        return Ok(SocketAddr::new(IpAddr::V4(Ipv4Addr::LOCALHOST), port));
    }
    let Ok(endpoint) = text.parse::<SocketAddr>() else {
        return Err(bad_endpoint(place));
    };
    if endpoint.port() == 0 {
        return Err(bad_endpoint(place));
    }
    Ok(endpoint)
}

/// Returns the port, from 1 to 65535, that a text of one or more decimal digits spells. Returns
/// `None` if the text spells no such port.
fn port_of(text: &str) -> Option<u16>
    ensures { MatchOption result ((n : ℕ) → IsPort text.now n → ⊥) (IsPort text.now) }
{
    // The standard parser of numbers would accept a plus sign.
    if !text.starts_with('+')
        && let Ok(port) = text.parse::<u16>()
        && port > 0
    {
        return Some(port);
    }
    None
}

/// Returns the number below 2^64 that a text of one or more decimal digits spells. Returns `None`
/// if the text spells no such number.
fn parse_digits(text: &str) -> Option<u64>
    ensures { MatchOption result ((n : ℕ) → IsNumber text.now n → ⊥) (IsNumber text.now) }
{
    // The standard parser of numbers would accept a plus sign.
    if text.starts_with('+') {
        return None;
    }
    text.parse::<u64>().ok()
}

fn bad_value(place: &'static str, wanted: &'static str) -> ToolFault
    ensures { result ≡ ToolFault.Usage (Usage.BadValue place.entry wanted.entry) }
{
    ToolFault::Usage(Usage::BadValue { place, wanted })
}

fn bad_endpoint(place: &'static str) -> ToolFault
    ensures { IsUsage result }
{
    ToolFault::Usage(Usage::BadValue {
        place,
        wanted: "a decimal port from 1 to 65535, or an address and a port, such as 192.0.2.1:6363 or [2001:db8::1]:6363",
    })
}

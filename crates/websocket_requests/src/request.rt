//! The head of a request.
ghost use Rattle.std.specs.Prelude.{◌≡◌, ◌↔◌, ◌<◌, ◌++◌, ℕ, IfErr, List, length, map, IsTrue, string_bytes, Ok, true, false};
ghost use Rattle.std.specs.List.{list_any};
ghost use Rattle.std.specs.Str.{bytes_eq};
ghost use Rattle.websocket_requests.specs.Field.{is_listed};
ghost use Rattle.websocket_requests.specs.Reading.{after_field, at_end, checked, limited, read_fields, read_head};
ghost use Rattle.websocket_requests.specs.Head.{IsAllowed};

use crate::fault::RequestFault;
use crate::field::{is_named, is_origin_field, value_of};
use crate::line::cut_line;

/// The greatest size of the head of a request, in octets.
pub const MAX_HEAD: usize = 8192;

/// How far a request has come that has no fault.
#[derive(Clone, Copy, Debug, PartialEq, Eq)]
pub enum Progress {
    /// More octets of the head have to come.
    Begun,
    /// The head is whole, and its Origin is listed.
    Allowed,
}

/// Decides on all octets that have come on a connection, from its first one, before any octet is
/// sent on it. A request is allowed if its head is whole and has exactly one field Origin, whose
/// value is, octet for octet, one of `origins`.
///
/// Returns the first fault of the octets, line by line: then no request that begins with them is
/// allowed. The request line is not read, nor the values of other fields; but each is a line
/// without CR and LF, and each field has a name (RFC 9112 section 5, "Field Syntax").
pub fn check(octets: &[u8], origins: &[String]) -> Result<Progress, RequestFault>
    ensures exact { result ≡ checked (map string_bytes origins.now) octets.now }
    ensures allowed { (result ≡ Ok Progress.Allowed)
        ↔ IsAllowed (map string_bytes origins.now) octets.now }
    ensures begun { result ≡ Ok Progress.Begun → length octets.now < MAX_HEAD }
    // Whatever octets come next, they make no request that is allowed.
    ensures refuses { IfErr result (λ fault. (more : List ℕ)
        → ¬ (IsAllowed (map string_bytes origins.now) (octets.now ++ more))) }
{
    limited(octets.len(), read_head(octets, origins))
}

/// Refuses a head of more than 8,192 octets.
fn limited(size: usize, read: Result<Progress, RequestFault>) -> Result<Progress, RequestFault>
    ensures { result ≡ limited size read }
{
    match read {
        Ok(Progress::Allowed) if size > MAX_HEAD => Err(RequestFault::TooLong),
        Ok(Progress::Begun) if size >= MAX_HEAD => Err(RequestFault::TooLong),
        read => read,
    }
}

/// Reads the lines of a head.
#[tactic(auto, unfolding(crate::specs::Reading::read_head))]
fn read_head(octets: &[u8], origins: &[String]) -> Result<Progress, RequestFault>
    ensures { result ≡ read_head (map string_bytes origins.now) octets.now }
{
    match cut_line(octets)? {
        None => Ok(Progress::Begun),
        Some((request, _)) if request.is_empty() => Err(RequestFault::BadLine),
        Some((_, fields)) => read_fields(fields, origins),
    }
}

/// Reads the field lines of a head.
fn read_fields(octets: &[u8], origins: &[String]) -> Result<Progress, RequestFault>
    ensures { result ≡ read_fields (map string_bytes origins.now) (length octets.now) false
        octets.now }
{
    let mut has_origin = false;
    let mut rest = octets;
    for _ in 0..octets.len() {
        let Some((line, after)) = cut_line(rest)? else {
            return Ok(Progress::Begun);
        };
        if line.is_empty() {
            return at_end(has_origin, after);
        }
        has_origin = after_field(has_origin, line, origins)?;
        rest = after;
    }
    Ok(Progress::Begun)
}

/// Decides at the empty line that ends a head.
fn at_end(has_origin: bool, after: &[u8]) -> Result<Progress, RequestFault>
    ensures { result ≡ at_end has_origin after.now }
{
    if !after.is_empty() {
        Err(RequestFault::OctetsAfter)
    } else if has_origin {
        Ok(Progress::Allowed)
    } else {
        Err(RequestFault::NoOrigin)
    }
}

/// Reads a field line. Returns whether the head has a field Origin so far.
#[tactic(auto, unfolding(crate::specs::Reading::after_field))]
fn after_field(has_origin: bool, line: &[u8], origins: &[String]) -> Result<bool, RequestFault>
    ensures { result ≡ after_field (map string_bytes origins.now) has_origin line.now }
{
    if !is_named(line) {
        Err(RequestFault::BadLine)
    } else if !is_origin_field(line) {
        Ok(has_origin)
    } else if has_origin {
        Err(RequestFault::TwoOrigins)
    } else if is_listed(value_of(line), origins) {
        Ok(true)
    } else {
        Err(RequestFault::OtherOrigin)
    }
}

/// Returns whether the octets are one of the origins.
fn is_listed(value: &[u8], origins: &[String]) -> bool
    ensures { result ≡ is_listed (map string_bytes origins.now) value.now }
{
    has_equal(value, origins)
}

fn has_equal(value: &[u8], origins: &[String]) -> bool
    ensures { result ≡ list_any (λ origin. bytes_eq (string_bytes origin) value.now) origins.now }
{
    origins.iter().any(|origin| is_equal(value, origin))
}

fn is_equal(value: &[u8], origin: &String) -> bool
    ensures { result ≡ bytes_eq (string_bytes origin.now) value.now }
{
    origin.as_bytes() == value
}

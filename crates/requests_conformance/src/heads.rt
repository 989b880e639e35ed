//! What is decided on the heads of requests.

use std::alloc::Global;
use test_support::{first_misshown, typed};
use websocket_requests::{MAX_HEAD, Progress, RequestFault, check};

/// The origins that are listed.
const LISTED: [&str; 3] = [
    "http://a.example",
    "https://app.example:8443",
    "http://localhost",
];

/// Each row has the octets that have come, and what is decided on them. `|` stands for CR LF, `␉`
/// for a tab, and `␍` and `␊` for CR and LF alone.
const HEADS: &str = "
GET / HTTP/1.1|Origin: http://a.example|| -> allowed
GET /ndn HTTP/1.1|Host: node:9696|Upgrade: websocket|Origin: https://app.example:8443|X: 1|| -> allowed
# Names are read in upper and lower case, and spaces and tabs around the value are left out.
GET / HTTP/1.1|origin: http://a.example|| -> allowed
GET / HTTP/1.1|ORIGIN:http://localhost|| -> allowed
GET / HTTP/1.1|oRiGiN: ␉ http://a.example␉ ␉|| -> allowed
# A value is compared octet for octet.
GET / HTTP/1.1|Origin: http://b.example|| -> OtherOrigin
GET / HTTP/1.1|Origin: http://A.example|| -> OtherOrigin
GET / HTTP/1.1|Origin: http://a.example:80|| -> OtherOrigin
GET / HTTP/1.1|Origin: https://a.example|| -> OtherOrigin
GET / HTTP/1.1|Origin: http://a.example/|| -> OtherOrigin
GET / HTTP/1.1|Origin: http://a.exampl|| -> OtherOrigin
GET / HTTP/1.1|Origin: http://a.example.evil|| -> OtherOrigin
GET / HTTP/1.1|Origin: xhttp://a.example|| -> OtherOrigin
GET / HTTP/1.1|Origin: http://a.example http://localhost|| -> OtherOrigin
GET / HTTP/1.1|Origin: http://a.example, http://localhost|| -> OtherOrigin
GET / HTTP/1.1|Origin: null|| -> OtherOrigin
GET / HTTP/1.1|Origin: *|| -> OtherOrigin
GET / HTTP/1.1|Origin:|| -> OtherOrigin
GET / HTTP/1.1|Origin:  ␉ || -> OtherOrigin
# Exactly one Origin.
GET / HTTP/1.1|| -> NoOrigin
GET / HTTP/1.1|Host: http://a.example|| -> NoOrigin
GET / HTTP/1.1|X-Origin: http://a.example|| -> NoOrigin
GET / HTTP/1.1|Origins: http://a.example|| -> NoOrigin
GET / HTTP/1.1|Sec-WebSocket-Origin: http://a.example|| -> NoOrigin
GET /?Origin:http://a.example HTTP/1.1|Host: a|| -> NoOrigin
Origin: http://a.example|Host: a|| -> NoOrigin
GET / HTTP/1.1|Origin: http://a.example|Origin: http://a.example|| -> TwoOrigins
GET / HTTP/1.1|Origin: http://a.example|Host: a|origin: http://b.example|| -> TwoOrigins
GET / HTTP/1.1|Origin: http://a.example|Origin: http://b.example -> begun
GET / HTTP/1.1|Origin: http://b.example|Origin: http://a.example|| -> OtherOrigin
# The name of a field has no space, and a line is not continued in the next.
GET / HTTP/1.1|Origin : http://a.example|| -> BadLine
GET / HTTP/1.1| Origin: http://a.example|| -> BadLine
GET / HTTP/1.1|Origin: http://a.example| http://b.example|| -> BadLine
GET / HTTP/1.1|X: 1|␉Origin: http://a.example|| -> BadLine
GET / HTTP/1.1|Origin|| -> BadLine
GET / HTTP/1.1|: http://a.example|| -> BadLine
GET / HTTP/1.1|(Origin): http://a.example|| -> BadLine
# Lines end with CR LF, and have no other CR or LF.
GET / HTTP/1.1␊Origin: http://a.example␊␊ -> BadLine
GET / HTTP/1.1|Origin: http://a.example␊| -> BadLine
GET / HTTP/1.1|X: 1␊Origin: http://a.example|| -> BadLine
GET / HTTP/1.1|X: 1␍Origin: http://a.example|| -> BadLine
GET / HTTP/1.1|Origin: http://a.example␍|| -> BadLine
GET / HTTP/1.1|Origin: http://a.example|␍␍␊ -> BadLine
|GET / HTTP/1.1|Origin: http://a.example|| -> BadLine
| -> BadLine
# Octets after the head.
GET / HTTP/1.1|Origin: http://a.example||x -> OctetsAfter
GET / HTTP/1.1|Origin: http://a.example||| -> OctetsAfter
GET / HTTP/1.1|Host: a||Origin: http://a.example|| -> OctetsAfter
# The beginning of a head, and faults that are found before its end.
G -> begun
GET / HTTP/1.1␍ -> begun
GET / HTTP/1.1| -> begun
GET / HTTP/1.1|Origin: http://b.example -> begun
GET / HTTP/1.1|Origin: http://b.example␍ -> begun
GET / HTTP/1.1|Origin: http://b.example| -> OtherOrigin
GET / HTTP/1.1|Origin: http://a.example| -> begun
GET / HTTP/1.1|Origin: http://a.example|␍ -> begun
GET / HTTP/1.1|Bad| -> BadLine
GET / HTTP/1.1␍x -> BadLine
";

fn listed(alloc: Global) -> Option<Vec<String>> {
    let mut origins = Vec::new(alloc);
    for origin in LISTED {
        origins.push(String::from_str(alloc, origin).ok()?).ok()?;
    }
    Some(origins)
}

fn word_of(decided: Result<Progress, RequestFault>) -> &'static str {
    match decided {
        Ok(Progress::Begun) => "begun",
        Ok(Progress::Allowed) => "allowed",
        Err(RequestFault::TooLong) => "TooLong",
        Err(RequestFault::BadLine) => "BadLine",
        Err(RequestFault::OctetsAfter) => "OctetsAfter",
        Err(RequestFault::NoOrigin) => "NoOrigin",
        Err(RequestFault::TwoOrigins) => "TwoOrigins",
        Err(RequestFault::OtherOrigin) => "OtherOrigin",
    }
}

/// Returns the octets of a row.
fn octets_of(alloc: Global, row: &str) -> Option<String> {
    let row = typed(alloc, row)?;
    let mut text = String::new(alloc);
    for symbol in row.chars() {
        if symbol == '|' {
            text.push_str("\r\n").ok()?;
        } else {
            text.push(symbol).ok()?;
        }
    }
    Some(text)
}

fn shown(alloc: Global, row: &str) -> Option<String> {
    let octets = octets_of(alloc, row)?;
    let decided = check(octets.as_bytes(), listed(alloc)?.as_slice());
    String::from_str(alloc, word_of(decided)).ok()
}

#[test]
fn heads_of_requests(rt: HostRuntime) {
    let wrong = first_misshown(rt.alloc(), HEADS, shown);
    assert!(rt; wrong.is_none(), "{wrong:?}");
}

/// Returns the head that has an Origin and so many octets.
fn head_of(alloc: Global, size: usize) -> Option<String> {
    let mut text = octets_of(alloc, "GET / HTTP/1.1|Origin: http://localhost|X: ")?;
    for _ in text.len().saturating_add(4)..size {
        text.push('x').ok()?;
    }
    text.push_str("\r\n\r\n").ok()?;
    Some(text)
}

/// Returns what is decided on a head of so many octets, and on it without its last octet.
fn decided_at(alloc: Global, size: usize) -> Option<String> {
    let head = head_of(alloc, size)?;
    let origins = listed(alloc)?;
    let all = word_of(check(head.as_bytes(), origins.as_slice()));
    let part = head.as_bytes().get(..head.len().checked_sub(1)?)?;
    let word = word_of(check(part, origins.as_slice()));
    format!(in alloc; "{} {word} {all}", head.len()).ok()
}

#[test]
fn sizes_of_heads(rt: HostRuntime) {
    let alloc = rt.alloc();
    assert!(rt; MAX_HEAD == 8192);
    assert!(rt; decided_at(alloc, 8192).as_deref() == Some("8192 begun allowed"));
    assert!(rt; decided_at(alloc, 8193).as_deref() == Some("8193 TooLong TooLong"));
    assert!(rt; decided_at(alloc, 9000).as_deref() == Some("9000 TooLong TooLong"));
}

/// Returns whether each beginning of a head that is allowed is only begun.
fn are_begun(alloc: Global) -> Option<bool> {
    let head = head_of(alloc, 200)?;
    let origins = listed(alloc)?;
    for size in 0..head.len() {
        let decided = check(head.as_bytes().get(..size)?, origins.as_slice());
        if !matches!(decided, Ok(Progress::Begun)) {
            return Some(false);
        }
    }
    Some(true)
}

#[test]
fn beginnings_of_heads(rt: HostRuntime) {
    assert!(rt; are_begun(rt.alloc()) == Some(true));
}

#[test]
fn texts_of_faults(rt: HostRuntime) {
    let alloc = rt.alloc();
    let text = format!(in alloc; "{}, {}", RequestFault::NoOrigin, RequestFault::OtherOrigin).ok();
    let wanted = "the request has no Origin, the Origin of the request is not listed";
    assert!(rt; text.as_deref() == Some(wanted));
}

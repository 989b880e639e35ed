//! Link packets, the octets that signatures cover, keys of Interests, and writers. What is read as
//! a packet is in `crates/ndn_tool/transcripts/reading.txt`.
//!
//! In the rows, `0703080141` is the Name /A, `0a0401020304` is a Nonce, `16031b0100 1700` is a
//! SignatureInfo and an empty SignatureValue, and `050b..` is the Interest with that Name and
//! Nonce.

mod covered;
mod faults;
mod link;
mod reading;
mod writers;

use ndn_packets::*;
use ndn_tlv::put_element;
use std::alloc::Global;
use test_support::octets;

/// Returns octets, wrapped in nested elements. `input` has the types of the elements, then a bar,
/// and then the octets. The outermost type comes first. If `input` has no bar, the octets are not
/// wrapped.
fn packet(alloc: Global, input: &str) -> Option<Vec<u8>> {
    let (kinds, value) = input.split_once('|').unwrap_or(("", input));
    let mut octets = octets(alloc, value)?;
    enclose(alloc, &mut octets, kinds)?;
    Some(octets)
}

/// Wraps `octets` in nested elements. `kinds` lists the types of the elements, and the outermost
/// type comes first.
fn enclose(alloc: Global, octets: &mut Vec<u8>, kinds: &str) -> Option<()> {
    for kind in kinds.split_ascii_whitespace().rev() {
        *octets = element(alloc, kind, octets)?;
    }
    Some(())
}

fn element(alloc: Global, kind: &str, value: &[u8]) -> Option<Vec<u8>> {
    let kind = kind.parse().ok()?;
    if kind == 0 {
        return None;
    }
    let mut out = Vec::new(alloc);
    put_element(&mut out, kind, value).ok()?;
    Some(out)
}

/// Reads the octets as a frame. Returns "read" if they are a frame, and otherwise the name of the
/// fault.
fn outcome_of(octets: &[u8]) -> &'static str {
    match read_frame(octets) {
        Ok(_) => "read",
        Err(fault) => fault.name(),
    }
}

//! Keys of Interests. Which octets are read as packets is in
//! `crates/ndn_tool/transcripts/reading.txt`.

use ndn_packets::*;
use std::cmp::Ordering;

/// Returns the order of the keys of two Interests. A key consists of the name, CanBePrefix and
/// MustBeFresh.
fn order(one: &[u8], other: &[u8]) -> Option<Ordering> {
    match (read_frame(one), read_frame(other)) {
        (Ok(Frame::Interest(one)), Ok(Frame::Interest(other))) => {
            Some(one.key().compare(other.key()))
        }
        _ => None,
    }
}

/// Interests for `/A`: the Nonces 01020304 and 01020305, with CanBePrefix, with MustBeFresh, and
/// with both.
const A: &[u8] = b"\x05\x0b\x07\x03\x08\x01A\x0a\x04\x01\x02\x03\x04";

const OTHER_NONCE: &[u8] = b"\x05\x0b\x07\x03\x08\x01A\x0a\x04\x01\x02\x03\x05";

const PREFIX: &[u8] = b"\x05\x0d\x07\x03\x08\x01A\x21\x00\x0a\x04\x01\x02\x03\x04";

const FRESH: &[u8] = b"\x05\x0d\x07\x03\x08\x01A\x12\x00\x0a\x04\x01\x02\x03\x04";

const BOTH: &[u8] = b"\x05\x0f\x07\x03\x08\x01A\x21\x00\x12\x00\x0a\x04\x01\x02\x03\x04";

/// An Interest for `/B`.
const B: &[u8] = b"\x05\x0b\x07\x03\x08\x01B\x0a\x04\x01\x02\x03\x04";

#[test]
fn keys_of_interests(rt: HostRuntime) {
    assert!(rt; order(A, OTHER_NONCE) == Some(Ordering::Equal));
    assert!(rt; order(A, B) == Some(Ordering::Less));
    assert!(rt; order(B, PREFIX) == Some(Ordering::Greater));
    assert!(rt; order(A, FRESH) == Some(Ordering::Less));
    assert!(rt; order(PREFIX, FRESH) == Some(Ordering::Greater));
    assert!(rt; order(BOTH, PREFIX) == Some(Ordering::Greater));
}

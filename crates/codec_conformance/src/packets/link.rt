//! Writers of link packets, and the Interest in a Nack (NDNLPv2, "Packet Format", "Network Nack",
//! "PIT Token"). Which link packets are read is in `crates/ndn_tool/transcripts/reading.txt`.

ghost use Rattle.std.specs.Prelude.{IfSome};
ghost use Rattle.ndn_packets.specs.Link.{IsToken};

use ndn_packets::{Frame, NO_ROUTE, put_lp, read_frame, wrap};
use std::alloc::Global;

/// Returns whether `wanted` is a link packet with the PIT token a1b2, this reason of a Nack, if
/// there is one, and an Interest.
fn is_with_token(alloc: Global, reason: Option<u64>, wanted: &[u8]) -> bool {
    let interest = b"\x05\x0b\x07\x03\x08\x01\x41\x0a\x04\x01\x02\x03\x04";
    let mut out = Vec::new(alloc);
    put_lp(&mut out, Some(b"\xa1\xb2"), reason, interest).is_ok() && out.as_slice() == wanted
}

#[test]
fn written_tokens(rt: HostRuntime) {
    let nack =
        b"\x64\x1c\x62\x02\xa1\xb2\xfd\x03\x20\x05\xfd\x03\x21\x01\x96\x50\x0d\x05\x0b\x07\x03\x08\x01\x41\x0a\x04\x01\x02\x03\x04";
    assert!(rt; is_with_token(rt.alloc(), Some(150), nack));
    let bare =
        b"\x64\x13\x62\x02\xa1\xb2\x50\x0d\x05\x0b\x07\x03\x08\x01\x41\x0a\x04\x01\x02\x03\x04";
    assert!(rt; is_with_token(rt.alloc(), None, bare));
}

/// Calls `wrap` for an Interest that follows two other octets in an output. If `token` is `Some`,
/// `wrap` must put the Interest into a link packet that has this token. Otherwise `wrap` must leave
/// the Interest unchanged. Returns whether the output is `wanted` afterwards.
fn wraps(alloc: Global, token: Option<&[u8]>, wanted: &[u8]) -> bool
    requires { IfSome token (λ t. IsToken t.now) }
{
    let before = b"\xfe\xff\x05\x0b\x07\x03\x08\x01\x41\x0a\x04\x01\x02\x03\x04";
    let Ok(mut out) = before.to_vec(alloc) else {
        return false;
    };
    wrap(&mut out, 2, token).is_ok() && out.as_slice() == wanted
}

/// Wrapping an Interest in a link packet leaves the octets before the Interest unchanged. Without a
/// token, the Interest is not wrapped.
#[test]
fn octets_in_a_link_packet(rt: HostRuntime) {
    let bare = b"\xfe\xff\x05\x0b\x07\x03\x08\x01\x41\x0a\x04\x01\x02\x03\x04";
    assert!(rt; wraps(rt.alloc(), None, bare));
    let wrapped =
        b"\xfe\xff\x64\x13\x62\x02\xa1\xb2\x50\x0d\x05\x0b\x07\x03\x08\x01\x41\x0a\x04\x01\x02\x03\x04";
    assert!(rt; wraps(rt.alloc(), Some(b"\xa1\xb2"), wrapped));
}

/// Returns whether `octets` are a Nack with the reason NoRoute for the Interest in the octets
/// `wanted`.
fn is_no_route_for(octets: &[u8], wanted: &[u8]) -> bool {
    match read_frame(octets) {
        Ok(Frame::Nack { reason, interest }) => reason == NO_ROUTE && interest.whole == wanted,
        _ => false,
    }
}

/// The octets of the Interest in a Nack are those of the Fragment, without the link packet.
#[test]
fn octets_in_a_nack(rt: HostRuntime) {
    let interest = b"\x05\x0b\x07\x03\x08\x01\x41\x0a\x04\x01\x02\x03\x04";
    let nack =
        b"\x64\x18\xfd\x03\x20\x05\xfd\x03\x21\x01\x96\x50\x0d\x05\x0b\x07\x03\x08\x01\x41\x0a\x04\x01\x02\x03\x04";
    assert!(rt; is_no_route_for(nack, interest));
}

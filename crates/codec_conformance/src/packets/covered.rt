//! Tests of the octets that a signature covers, of changing a HopLimit in place, and of the
//! Interests that a Data answers.

use crate::packets::packet;
use crate::rows::check_rows;
use ndn_names::{Name, NameBuf};
use ndn_packets::*;
use std::alloc::Global;
use std::test::*;
use test_support::{digest_of, octets};

/// Returns the two parts that a packet's signature covers, or `none` if there are no such parts.
fn covered(alloc: Global, input: &str) -> Option<String> {
    let octets = packet(alloc, input)?;
    covered_in(alloc, &octets)
}

/// Returns the result of `covered` for the packet in these octets.
fn covered_in(alloc: Global, octets: &[u8]) -> Option<String> {
    let parts = match read_frame(octets).ok()? {
        Frame::Interest(interest) => interest.signed_parts(),
        Frame::Data(data) => data.signed_parts(),
        _ => return None,
    };
    match parts {
        None => String::from_str(alloc, "none").ok(),
        Some(parts) => both_in_hex(alloc, parts.first, parts.second),
    }
}

fn both_in_hex(alloc: Global, first: &[u8], second: &[u8]) -> Option<String> {
    let first = hex::encode(alloc, first).ok()?;
    let second = hex::encode(alloc, second).ok()?;
    format!(in alloc; "{first} + {second}").ok()
}

#[test]
fn covered_octets_of_data(rt: HostRuntime) {
    let rows = "
060f070308014115017816031b01001700 -> 070308014115017816031b0100 + 
# Ignored elements before the SignatureValue, which are covered, and after it.
6 | 0703080141 16031b0100 f00107 170109 f000 -> 070308014116031b0100f00107 + 
";
    check_rows(&rt, rt.alloc(), rows, covered);
}

#[test]
fn covered_octets_of_interests(rt: HostRuntime) {
    let rows = "
# Without the digest and the Nonce.
0598075008096c6f63616c686f737408036e66640803666962080b6164642d6e657874686f70080a680807030801416901020220b3efe71974da9dc26e88d0c074c8f0ff34ea85c38b109d9e9c6400b87694f2f20a040102030424002c1a1b01041c0f070d08036f707308034b45590801312804000f42402e20d113cf38056af9bbbec876471f4b51934978ef69345464b05cb762148eaa5dbb -> 08096c6f63616c686f737408036e66640803666962080b6164642d6e657874686f70080a68080703080141690102 + 24002c1a1b01041c0f070d08036f707308034b45590801312804000f4240
# Ignored elements among the fields of a signature, and after it.
5 | 0725 080141 0220c7a783b9f47d850862870cfbe47daf9b8e2d5718e3e834527aa4e154cc9c2b5d 0a0401020304 2400 f000 2e00 2c031b0100 2200 2e0107 2e0108 -> 080141 + 2400f0002e002c031b01002200
# No signature, one without its value, and one under a name that goes on after the digest.
050b07030801410a0401020304 -> none
5 | 0725 080141 0220c8955eebe3c124655eb09ba0d83fac6d2d5b167a9284b742161781298ec52206 0a0401020304 2400 f000 2e00 2c031b0100 -> none
5 | 0728 080141 0220c7a783b9f47d850862870cfbe47daf9b8e2d5718e3e834527aa4e154cc9c2b5d 080142 0a0401020304 2400 f000 2e00 2c031b0100 2200 2e0107 2e0108 -> none
# Two ApplicationParameters, of which the second is ignored.
# The digest was computed apart from this library.
0539072508014102202f4d9a6469a8dadbaea58c32361ad408f7db2db2477a58fc50c7d9de4d62cd210a040102030424002401ff2c031b01002e00 -> 080141 + 24002401ff2c031b0100
";
    check_rows(&rt, rt.alloc(), rows, covered);
}

fn hop_limit_of(octets: &[u8]) -> Option<u8> {
    match read_frame(octets).ok()? {
        Frame::Interest(interest) => interest.hop_limit,
        _ => None,
    }
}

/// Borrows the HopLimit in the octets and sets it to 6. Returns false if `hop_limit_mut` finds no
/// HopLimit.
fn lends(octets: &mut [u8]) -> bool {
    match hop_limit_mut(octets) {
        Some(lent) => {
            *lent = 6;
            true
        }
        None => false,
    }
}

/// If the HopLimit in the octets is now 6, returns the original HopLimit `limit` and the octets.
/// Otherwise returns `None`.
fn lent_shown(alloc: Global, limit: Option<u8>, octets: &[u8]) -> Option<String> {
    if hop_limit_of(octets) != Some(6) {
        return None;
    }
    let octets = hex::encode(alloc, octets).ok()?;
    format!(in alloc; "{limit:?}, then {octets}").ok()
}

/// If the octets are still those of the packet in the row `input`, returns the HopLimit `limit`.
/// Otherwise returns `None`.
fn kept_shown(alloc: Global, limit: Option<u8>, octets: &[u8], input: &str) -> Option<String> {
    if !is_packet(alloc, octets, input) {
        return None;
    }
    format!(in alloc; "{limit:?}").ok()
}

/// Returns whether `octets` are the packet in the row `input`.
fn is_packet(alloc: Global, octets: &[u8], input: &str) -> bool {
    packet(alloc, input).is_some_and(|packet| packet.as_slice() == octets)
}

/// Sets the HopLimit of an Interest to 6. Returns the original HopLimit, and the octets of the
/// changed Interest. If `hop_limit_mut` finds no HopLimit, returns the HopLimit that `read_frame`
/// finds, or the text `None` if `read_frame` finds no HopLimit either.
fn lent(alloc: Global, input: &str) -> Option<String> {
    let mut octets = packet(alloc, input)?;
    lent_or_kept(alloc, &mut octets, input)
}

/// Returns the result of `lent` for the row `input`. `octets` are the packet in this row.
fn lent_or_kept(alloc: Global, octets: &mut [u8], input: &str) -> Option<String> {
    let limit = hop_limit_of(octets);
    if lends(octets) {
        lent_shown(alloc, limit, octets)
    } else {
        kept_shown(alloc, limit, octets, input)
    }
}

#[test]
fn hop_limits_in_place(rt: HostRuntime) {
    let rows = "
5 | 0703080141 0a0401020304 0c0109 220107 -> Some(7), then 051107030801410a04010203040c0109220106
# Before ApplicationParameters: the digest is still right.
5 | 0725 080141 02208e084cff3a4d72f65dda2be439bb2fecc309ef8d099bcbe57813c3d84a3d4bda 0a0401020304 0c0109 220107 240178 220107 -> Some(7), then 0539072508014102208e084cff3a4d72f65dda2be439bb2fecc309ef8d099bcbe57813c3d84a3d4bda0a04010203040c0109220106240178220107
050b07030801410a0401020304 -> None
060f070308014115017816031b01001700 -> None
# That of an Interest in a link packet is not lent.
64125010050e07030801410a0401020304220107 -> Some(7)
# After ApplicationParameters it is ignored.
5 | 0728 080141 0220d3319fb28c4726685d3f5476d99641dd6f85b5ac5fc911863a1a84c49040f42f 080142 0a0401020304 2400 220107 -> None
";
    check_rows(&rt, rt.alloc(), rows, lent);
}

/// A Data with the Name /A, the Content "x", a SignatureInfo of SignatureType 0 and an empty
/// signature.
const DATA: &str = "060f0703080141150178 16031b0100 1700";

/// Shows whether `DATA` answers an Interest with this name, first without CanBePrefix and then with
/// CanBePrefix. Then shows whether `Data::answers_with`, called with the digest of `DATA`, returns
/// the same two results as `Data::answers`. Finally shows `digest` if `Data::asked_digest` finds an
/// implicit digest in the name, and `name` otherwise.
fn answers(alloc: Global, input: &str) -> Option<String> {
    let asked = NameBuf::from_uri(alloc, input).ok()?;
    let octets = octets(alloc, DATA)?;
    answers_in(alloc, &octets, asked.view())
}

/// Shows what `answers` shows, for the Data in these octets instead of for `DATA`.
fn answers_in(alloc: Global, octets: &[u8], asked: Name<'_>) -> Option<String> {
    match read_frame(octets).ok()? {
        Frame::Data(data) => answers_shown(alloc, data, asked),
        _ => None,
    }
}

fn answers_shown(alloc: Global, data: Data<'_>, asked: Name<'_>) -> Option<String> {
    let (exactly, as_prefix) = (data.answers(asked, false), data.answers(asked, true));
    let digest = data.digest();
    let same = data.answers_with(&digest, asked, false) == exactly
        && data.answers_with(&digest, asked, true) == as_prefix;
    let wanted = match data.asked_digest(asked) {
        Some(_) => "digest",
        None => "name",
    };
    format!(in alloc; "{exactly} {as_prefix} {same} {wanted}").ok()
}

/// Returns the implicit digest of a Data.
fn digest(alloc: Global, input: &str) -> Option<String> {
    let digest = digest_of(&octets(alloc, input)?)?;
    hex::encode(alloc, digest.as_slice()).ok()
}

/// The implicit digest of `DATA` equals the SHA-256 of `DATA` that another program computed.
#[test]
fn implicit_digest(rt: HostRuntime) {
    let rows = "
060f070308014115017816031b01001700 -> 561abdfddbd70e7224b440f9b482af5e1abb750a267ccfd77b4d23a0d1d41649
";
    check_rows(&rt, rt.alloc(), rows, digest);
}

#[test]
fn data_answers(rt: HostRuntime) {
    let rows = "
# The empty name, the name, another name, a longer name, the full name, another component.
/ -> false true true name
/A -> true true true name
/B -> false false true name
/A/A -> false false true name
/A/sha256digest=561abdfddbd70e7224b440f9b482af5e1abb750a267ccfd77b4d23a0d1d41649 -> true true true digest
/... -> false false true name
# Another digest, and the digest under another type.
/A/sha256digest=561abdfddbd70e7224b440f9b482af5e1abb750a267ccfd77b4d23a0d1d41648 -> false false true digest
/A/params-sha256=561abdfddbd70e7224b440f9b482af5e1abb750a267ccfd77b4d23a0d1d41649 -> false false true name
";
    check_rows(&rt, rt.alloc(), rows, answers);
}

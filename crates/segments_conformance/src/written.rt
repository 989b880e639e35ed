//! The octets of segments. The expected octets were written by hand and by a Python program from
//! the grammar of NDN Packet Format 0.3, and not by a cutter.

use crate::rows::check_rows;
use ndn_names::{Name, NameBuf};
use ndn_packets::Sign;
use ndn_segments::{CutFault, Cutter};
use std::alloc::Global;

/// Each row has a URI, a version, a FreshnessPeriod (`-` for none), the length of the file, the
/// length of a piece, the number of a segment, its piece in hexadecimal (`-` for no octets), and
/// the Data, or the fault.
///
/// In the first row, `0709080161360101320100` is the Name `/a/v=1/seg=0`, `14051a03320100` a
/// MetaInfo with the FinalBlockId `seg=0`, `1500` an empty Content, `16031b0100` the SignatureInfo
/// of DigestSha256, and `1720..` the SignatureValue.
const SEGMENTS: &str = "
# An empty file, a file of one octet, the first of two segments, and the last of two segments.
/a 1 - 0 8000 0 - -> 063b070908016136010132010014051a03320100150016031b010017206e5a1e106947fb6a8975ba6f866dc96eded21a25e03a2f3cd2aabf49df8b2be6
/a 1 - 1 8000 0 78 -> 063c070908016136010132010014051a0332010015017816031b01001720cc8b018cb3d531345cac07a920834db0a55844e655109d2403bc6900f7baa08f
/a 1 - 2 1 0 78 -> 063c070908016136010132010014051a0332010115017816031b01001720198483d91ed56bdb1152bd6e4d55969aa023226b26eb3b7464f3b2d02b0ef0bf
/a 256 1000 2 1 1 79 -> 0641070a080161360201003201011409190203e81a0332010115017916031b01001720c8fb4732eb86276bca6b506afa44421481f2884ec73885af032dde3c77c571d7
# A version of 8 octets, a segment number of 2 octets, and 300 segments.
/a 9223372036854775808 - 300 1 256 7a -> 06450711080161360880000000000000003202010014061a043202012b15017a16031b0100172010f8c024cb284c74d28033c90ff3c4e738f85b94cdd002cefb3e62e13871ab4e
# No piece has no octets.
/a 1 - 0 0 0 - -> EmptyPieces
# The file has no such piece: its number is too large, or it has another length.
/a 1 - 0 8000 1 - -> NoSuchPiece
/a 1 - 2 1 2 78 -> NoSuchPiece
/a 1 - 1 8000 0 - -> NoSuchPiece
/a 1 - 1 8000 0 7878 -> NoSuchPiece
/a 1 - 3 2 1 7878 -> NoSuchPiece
/a 1 - 18446744073709551615 2 18446744073709551615 78 -> NoSuchPiece
";

/// Returns the segment in hexadecimal, or the fault.
fn segment(alloc: Global, input: &str) -> Option<String> {
    let mut words = input.split_ascii_whitespace();
    let name = NameBuf::from_uri(alloc, words.next()?).ok()?;
    let version = words.next()?.parse().ok()?;
    let freshness = words.next()?.parse().ok();
    let len = words.next()?.parse().ok()?;
    let size = words.next()?.parse().ok()?;
    let number = words.next()?.parse().ok()?;
    let piece = hex::decode(alloc, words.next()?.trim_matches('-').as_bytes()).ok()?;
    match Cutter::new(name.view(), version, len, size, freshness, Sign::Digest) {
        Ok(cutter) => shown(alloc, cutter, number, &piece),
        Err(fault) => String::from_str(alloc, fault_name(fault)).ok(),
    }
}

fn shown(alloc: Global, cutter: Cutter<'_>, number: u64, piece: &[u8]) -> Option<String> {
    let mut out = Vec::new(alloc);
    match cutter.write(alloc, number, piece, &mut out) {
        Ok(()) => hex::encode(alloc, &out).ok(),
        Err(fault) => String::from_str(alloc, fault_name(fault)).ok(),
    }
}

fn fault_name(fault: CutFault) -> &'static str {
    match fault {
        CutFault::EmptyPieces => "EmptyPieces",
        CutFault::NoSuchPiece => "NoSuchPiece",
        CutFault::TooLong => "TooLong",
        CutFault::Memory => "Memory",
    }
}

#[test]
fn octets_of_segments(rt: HostRuntime) {
    check_rows(&rt, rt.alloc(), SEGMENTS, segment);
}

/// The segment of a file of one octet, signed with HMAC by the key `/k`, whose octets are 0 to 31.
const SIGNED: &str =
    "0643070908016136010132010014051a03320100150178160a1b01041c05070308016b1720a5751b3c0875b24f22b0e4eadc9b8446353aeadd178ebb9200b1ae78694786cd";

const KEY: &str = "000102030405060708090a0b0c0d0e0f101112131415161718191a1b1c1d1e1f";

fn is_signed(alloc: Global) -> bool {
    match signed(alloc) {
        Some(text) => text.as_str() == SIGNED,
        None => false,
    }
}

fn signed(alloc: Global) -> Option<String> {
    let name = NameBuf::from_uri(alloc, "/a").ok()?;
    let key_name = NameBuf::from_uri(alloc, "/k").ok()?;
    let key = hex::decode(alloc, KEY.as_bytes()).ok()?;
    signed_with(alloc, name.view(), key_name.view(), &key)
}

fn signed_with<'a>(
    alloc: Global,
    name: Name<'a>,
    key_name: Name<'a>,
    key: &'a [u8],
) -> Option<String> {
    let sign = Sign::Hmac {
        name: key_name,
        key,
    };
    let cutter = Cutter::new(name, 1, 1, 8000, None, sign).ok()?;
    shown(alloc, cutter, 0, b"x")
}

#[test]
fn segments_signed_with_hmac(rt: HostRuntime) {
    assert!(rt; is_signed(rt.alloc()));
}

/// Returns whether each segment of a file of `len` octets in pieces of `size` octets fits in a
/// packet. Returns `None` if `fits` and `write` say different things of the first segment with the
/// last number.
fn all_fit(alloc: Global, uri: &str, len: u64, size: usize) -> Option<bool> {
    let name = NameBuf::from_uri(alloc, uri).ok()?;
    let cutter = Cutter::new(name.view(), 1, len, size, None, Sign::Digest).ok()?;
    let fits = cutter.fits(alloc).ok()?;
    let piece = vec![in alloc; 120; cutter.piece_len(cutter.last())].ok()?;
    let mut out = Vec::new(alloc);
    match cutter.write(alloc, cutter.last(), &piece, &mut out) {
        Ok(()) => Some(fits),
        Err(CutFault::TooLong) if !fits => Some(false),
        Err(_) => None,
    }
}

/// A packet of 8,800 octets has 4 octets before the Name, 11 of the Name, 7 of the MetaInfo, 4
/// before the octets of the Content, 5 of the SignatureInfo and 34 of the SignatureValue. A number
/// of two octets takes one octet more in the Name and one more in the MetaInfo.
#[test]
fn the_longest_segment(rt: HostRuntime) {
    assert!(rt; all_fit(rt.alloc(), "/a", 8735, 8735) == Some(true));
    assert!(rt; all_fit(rt.alloc(), "/a", 8736, 8736) == Some(false));
    assert!(rt; all_fit(rt.alloc(), "/a", 256 * 8735, 8735) == Some(true));
    assert!(rt; all_fit(rt.alloc(), "/a", 257 * 8733, 8733) == Some(true));
    assert!(rt; all_fit(rt.alloc(), "/a", 257 * 8734, 8734) == Some(false));
}

/// Two components follow the name of a file, and a name has at most 64.
#[test]
fn the_longest_name(rt: HostRuntime) {
    let long =
        "/a/a/a/a/a/a/a/a/a/a/a/a/a/a/a/a/a/a/a/a/a/a/a/a/a/a/a/a/a/a/a/a/a/a/a/a/a/a/a/a/a/a/a/a/a/a/a/a/a/a/a/a/a/a/a/a/a/a/a/a/a/a/a";
    assert!(rt; all_fit(rt.alloc(), &long[2..], 1, 8000) == Some(true));
    assert!(rt; all_fit(rt.alloc(), long, 1, 8000) == Some(false));
}

//! How streams are cut into packets.

use crate::rows::check_rows;
use crate::words::{end_word, put_packet, put_word};
use ndn_streams::{Cutter, StreamFault};
use ndn_tlv::put_element;
use std::alloc::Global;
use test_support::octets;

/// Each row has the pieces of a stream, with a `/` between them. The text has, for each piece, the
/// packets that it completes, and then `.` if the stream is between two packets, `~` if a packet
/// has begun, or the fault. A packet of more than six octets is shown by its first four octets and
/// its size.
const STREAMS: &str = "
# Types and lengths of one octet.
0500 -> 0500 .
050101 / 060102 -> 050101 . 060102 .
0501016400060107 -> 050101 6400 060107 .
05 / 02 / 01 / 02 -> ~ ~ ~ 05020102 .
050201 / 0206 / 00 -> ~ 05020102 ~ 0600 .
# Lengths of three octets: the least, the greatest, and pieces that end in them.
05fc 00x252 -> 05fc0000..254 .
05fd00fd 00x253 6400 -> 05fd00fd..257 6400 .
05fd2324 00x8996 -> 05fd2324..9000 .
64fd / 00 / fd00 / 01x252 -> ~ ~ ~ 64fd00fd..257 .
05fd23 / 24 00x8996 06 -> ~ 05fd2324..9000 ~
# No octets change nothing.
05 /  / 00 -> ~ ~ 0500 .
# Types that are none of a packet's, at their first octet, also after packets.
00 -> type
07 / 00 -> type type
fd -> type
0500 0600 08 -> 0500 0600 type
# A type that is not in its shortest form.
fd000500 -> type
# A length that is not in its shortest form, at its last octet.
05fd0001 -> shortest
05fd / 00 / fc / 00x252 -> ~ ~ shortest shortest
06fd0000 -> shortest
# A length that is too long, at the first octet that shows it.
05fd2325 -> long
05fd / 24 -> ~ long
05fd23 / 25 / 0500 -> ~ long long
05fe -> long
05 / ff -> ~ long
05ff8000000000000000 -> long
# A length of five octets is refused at its first octet, whatever comes.
05fe00000001 -> long
# The packets before a fault are returned.
05006400 / 05fd0001 0500 -> 0500 6400 . shortest
";

/// Appends what a piece of a stream gives.
fn put_piece(alloc: Global, cutter: &mut Cutter, piece: &[u8], text: &mut String) -> Option<()> {
    let mut left = piece;
    for _ in 0..=piece.len() {
        match cutter.next(left) {
            Ok(Some((packet, rest))) => {
                put_packet(alloc, text, packet)?;
                left = rest;
            }
            Ok(None) => return put_word(text, end_word(None, cutter.is_between_packets())),
            Err(fault) => return put_word(text, end_word(Some(fault), false)),
        }
    }
    None
}

fn shown(alloc: Global, pieces: &str) -> Option<String> {
    let mut cutter = Cutter::new(alloc).ok()?;
    let mut text = String::new(alloc);
    for piece in pieces.split('/') {
        put_piece(alloc, &mut cutter, &octets(alloc, piece)?, &mut text)?;
    }
    Some(text)
}

/// Returns a stream of three packets, with lengths of one and of three octets.
fn three_packets(alloc: Global) -> Option<Vec<u8>> {
    let mut stream = Vec::new(alloc);
    put_element(&mut stream, 5, b"abc").ok()?;
    put_element(&mut stream, 6, &octets(alloc, "0708x200")?).ok()?;
    put_element(&mut stream, 100, &[]).ok()?;
    Some(stream)
}

/// What a stream gives whose packets are those of `three_packets`.
const THREE: &str = "0503616263 06fd0190..404 6400 .";

/// Returns whether the stream gives the three packets if it is cut at a place.
fn is_cut_at(alloc: Global, stream: &[u8], place: usize) -> Option<bool> {
    let (front, back) = stream.split_at_checked(place)?;
    let mut cutter = Cutter::new(alloc).ok()?;
    let mut before = String::new(alloc);
    put_piece(alloc, &mut cutter, front, &mut before)?;
    let mut text = String::from_str(alloc, before.strip_suffix(['.', '~'])?.trim_end()).ok()?;
    put_piece(alloc, &mut cutter, back, &mut text)?;
    Some(text.as_str() == THREE)
}

/// Returns whether the stream gives the three packets, whichever place it is cut at.
fn is_cut_anywhere(alloc: Global) -> Option<bool> {
    let stream = three_packets(alloc)?;
    for place in 0..=stream.len() {
        if !is_cut_at(alloc, &stream, place)? {
            return Some(false);
        }
    }
    Some(stream.len() == 411)
}

/// Appends the packets that one octet completes.
fn put_octet(alloc: Global, cutter: &mut Cutter, octet: u8, text: &mut String) -> Option<()> {
    if let Some((packet, rest)) = cutter.next(&[octet]).ok()? {
        put_packet(alloc, text, packet)?;
        if !rest.is_empty() {
            return None;
        }
    }
    Some(())
}

/// Returns whether the stream gives the three packets octet by octet, twice.
fn is_cut_everywhere(alloc: Global) -> Option<bool> {
    let stream = three_packets(alloc)?;
    let mut cutter = Cutter::new(alloc).ok()?;
    for _ in 0..2 {
        let mut text = String::new(alloc);
        for octet in stream.iter() {
            put_octet(alloc, &mut cutter, *octet, &mut text)?;
        }
        put_word(&mut text, end_word(None, cutter.is_between_packets()))?;
        if text.as_str() != THREE {
            return Some(false);
        }
    }
    Some(true)
}

#[test]
fn streams_in_pieces(rt: HostRuntime) {
    check_rows(&rt, rt.alloc(), STREAMS, shown);
}

#[test]
fn three_packets_cut_at_every_octet(rt: HostRuntime) {
    assert!(rt; is_cut_anywhere(rt.alloc()) == Some(true));
    assert!(rt; is_cut_everywhere(rt.alloc()) == Some(true));
}

/// Returns whether the fault has this text.
fn says(alloc: Global, fault: StreamFault, text: &str) -> bool {
    fault
        .to_string(alloc)
        .is_ok_and(|shown| shown.as_str() == text)
}

#[test]
fn texts_of_faults(rt: HostRuntime) {
    assert!(rt;
        says(
            rt.alloc(),
            StreamFault::UnknownType,
            "the stream has no Interest (05), Data (06) or LpPacket (64) where one must begin"
        )
    );
    assert!(rt;
        says(
            rt.alloc(),
            StreamFault::NotShortest,
            "the length of a packet is not in its shortest form, such as fd000b in place of 0b"
        )
    );
    assert!(rt;
        says(
            rt.alloc(),
            StreamFault::TooLong,
            "a packet has more than 9000 octets"
        )
    );
}

//! Files that are read from a reader, cut, and put together again in several orders.

use ndn_names::NameBuf;
use ndn_packets::{Frame, Sign, read_frame};
use ndn_segments::{Assembler, Cutter, Taken, version_name};
use std::alloc::Global;
use std::io;
use std::io::{Read, repeat};

/// Returns a file of `len` octets, in which no two pieces of 8,000 octets are equal.
fn file_of(alloc: Global, len: u32) -> Option<Vec<u8>> {
    let mut file = Vec::new(alloc);
    for i in 0..len {
        file.push(((i ^ (i / 251)) % 256) as u8).ok()?;
    }
    Some(file)
}

/// Cuts the octets of a reader into the segments of a file.
fn cut<R: Read>(alloc: Global, cutter: Cutter<'_>, reader: &mut R) -> Option<Vec<Vec<u8>>> {
    let mut packets = Vec::new(alloc);
    let mut piece = Vec::new(alloc);
    for number in 0..=cutter.last() {
        cutter.read_piece(reader, number, &mut piece).ok()?;
        let mut packet = Vec::new(alloc);
        cutter.write(alloc, number, &piece, &mut packet).ok()?;
        packets.push(packet).ok()?;
    }
    Some(packets)
}

/// Hands one packet to an assembler.
fn take(
    alloc: Global,
    assembler: &mut Assembler,
    packet: &[u8],
    out: &mut Vec<u8>,
) -> Option<Taken> {
    match read_frame(packet).ok()? {
        Frame::Data(data) => assembler.take(alloc, &data, out).ok(),
        _ => None,
    }
}

/// Returns what an assembler writes if the packet with the index `i * step % count` comes as the
/// i-th one. All packets come twice. Returns `None` if the assembler is not finished.
fn put_together(alloc: Global, packets: &[Vec<u8>], step: usize) -> Option<Vec<u8>> {
    let name = NameBuf::from_uri(alloc, "/a/file").ok()?;
    let stem = version_name(alloc, name.view(), 7).ok()?;
    let mut assembler = Assembler::new(alloc, stem, 8000, packets.len());
    let mut out = Vec::new(alloc);
    let count = packets.len().max(1);
    for i in 0..count.saturating_mul(2) {
        let packet = packets.get(i.saturating_mul(step) % count)?;
        take(alloc, &mut assembler, packet, &mut out)?;
    }
    if assembler.is_finished() {
        Some(out)
    } else {
        None
    }
}

/// Returns whether a file of `len` octets comes back in the order that `step` gives.
fn comes_back(alloc: Global, len: u32, step: usize) -> bool {
    came_back(alloc, len, step).unwrap_or(false)
}

fn came_back(alloc: Global, len: u32, step: usize) -> Option<bool> {
    let file = file_of(alloc, len)?;
    let name = NameBuf::from_uri(alloc, "/a/file").ok()?;
    let cutter = Cutter::new(name.view(), 7, u64::from(len), 8000, None, Sign::Digest).ok()?;
    let mut reader: &[u8] = &file;
    let packets = cut(alloc, cutter, &mut reader)?;
    let out = put_together(alloc, &packets, step)?;
    Some(out == file)
}

#[test]
fn short_files_come_back(rt: HostRuntime) {
    assert!(rt; comes_back(rt.alloc(), 0, 1));
    assert!(rt; comes_back(rt.alloc(), 1, 1));
    assert!(rt; comes_back(rt.alloc(), 8000, 1));
    assert!(rt; comes_back(rt.alloc(), 8001, 1));
}

/// 300,001 octets are 38 segments: in order, from the last to the first, and in two other orders.
#[test]
fn long_files_come_back(rt: HostRuntime) {
    assert!(rt; comes_back(rt.alloc(), 300_001, 1));
    assert!(rt; comes_back(rt.alloc(), 300_001, 37));
    assert!(rt; comes_back(rt.alloc(), 300_001, 7));
    assert!(rt; comes_back(rt.alloc(), 300_001, 15));
}

/// A step of 2 leaves out each second one of 38 segments.
#[test]
fn segments_are_missing(rt: HostRuntime) {
    assert!(rt; !comes_back(rt.alloc(), 300_001, 2));
}

/// Returns whether a file of 8,001 octets that ends after `len` octets is refused.
fn is_refused(alloc: Global, len: u32) -> bool {
    refused(alloc, len).unwrap_or(false)
}

fn refused(alloc: Global, len: u32) -> Option<bool> {
    let file = file_of(alloc, len)?;
    let name = NameBuf::from_uri(alloc, "/a/file").ok()?;
    let cutter = Cutter::new(name.view(), 7, 8001, 8000, None, Sign::Digest).ok()?;
    let mut reader: &[u8] = &file;
    Some(cut(alloc, cutter, &mut reader).is_none())
}

/// A file that became shorter is not cut. Of a longer file, the first octets are cut.
#[test]
fn files_that_change_while_they_are_read(rt: HostRuntime) {
    assert!(rt; is_refused(rt.alloc(), 8000));
    assert!(rt; is_refused(rt.alloc(), 0));
    assert!(rt; !is_refused(rt.alloc(), 8002));
}

/// A reader whose reads fail.
#[derive(Drop)]
struct Broken;

impl Read for Broken {
    fn read(&mut self, _buf: &mut [u8]) -> io::Result<usize> {
        Err(io::Error::from(io::ErrorKind::Other))
    }
}

/// A reader gives 8,003 octets and then fails. Returns whether the first piece is read, and the
/// error is reported for the second one.
fn fails_in_the_second_piece(alloc: Global) -> bool {
    first_piece_only(alloc).unwrap_or(false)
}

fn first_piece_only(alloc: Global) -> Option<bool> {
    let name = NameBuf::from_uri(alloc, "/a/file").ok()?;
    let cutter = Cutter::new(name.view(), 7, 16_000, 8000, None, Sign::Digest).ok()?;
    let mut reader = repeat(b'x').take(8003).chain(Broken);
    let mut piece = Vec::new(alloc);
    cutter.read_piece(&mut reader, 0, &mut piece).ok()?;
    Some(piece.len() == 8000 && cutter.read_piece(&mut reader, 1, &mut piece).is_err())
}

#[test]
fn a_reader_that_fails(rt: HostRuntime) {
    assert!(rt; fails_in_the_second_piece(rt.alloc()));
}

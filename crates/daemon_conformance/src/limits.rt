//! A test of a read that fails. The transcripts in `crates/ndn_tool/transcripts/files.txt` and
//! `crates/ndn_node/transcripts/files.txt` have input of the greatest length, and longer input.

use limited_reads::read_within;
use std::alloc::Global;
use std::io;
use std::io::{Read, repeat};

/// A reader whose reads fail.
#[derive(Drop)]
struct Broken;

impl Read for Broken {
    fn read(&mut self, _buf: &mut [u8]) -> io::Result<usize> {
        Err(io::Error::from(io::ErrorKind::Other))
    }
}

/// A reader gives three octets and then fails. Returns whether the read error is reported.
fn fails_in_the_middle(alloc: Global) -> bool {
    read_within(alloc, repeat(b'x').take(3).chain(Broken), 65_536).is_err()
}

#[test]
fn a_reader_that_fails(rt: HostRuntime) {
    assert!(rt; fails_in_the_middle(rt.alloc()));
}

//! A socket of which a part was read already.

use mio::net::TcpStream;
use std::io;
use std::io::{Read, Write};

/// A socket whose reads give first the octets that were read from it before, and then its own.
#[derive(Drop)]
pub struct HeadFirst {
    pub socket: TcpStream,
    /// The octets that were read before, and how many of them were given.
    pub head: Vec<u8>,
    pub given: usize,
}

impl Read for HeadFirst {
    fn read(&mut self, buf: &mut [u8]) -> io::Result<usize> {
        let rest = self.head.get(self.given..).unwrap_or_default();
        if rest.is_empty() {
            return self.socket.read(buf);
        }
        let count = rest.len().min(buf.len());
        buf[..count].copy_from_slice(&rest[..count]);
        self.given = self.given.saturating_add(count);
        Ok(count)
    }
}

impl Write for HeadFirst {
    fn write(&mut self, buf: &[u8]) -> io::Result<usize> {
        self.socket.write(buf)
    }

    fn flush(&mut self) -> io::Result<()> {
        self.socket.flush()
    }
}

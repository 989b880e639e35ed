//! The socket of a connection.
ghost use Rattle.std.specs.Prelude.{◌≡◌};
ghost use Rattle.std.specs.Io.{ReadsAtMost, WritesAtMost};

use crate::packet_socket::PacketSocket;
use mio::net::{TcpStream, UnixStream};
use std::io;
use std::io::{Read, Write};

/// The socket of a connection, whose reads and writes answer `WouldBlock` where they would wait.
#[derive(Drop)]
pub enum Wire {
    Tcp(TcpStream),
    Unix(UnixStream),
    /// Its opening handshake is done.
    WebSocket(PacketSocket),
}

impl Read for Wire {
    fn read(&mut self, buf: &mut [u8]) -> io::Result<usize> {
        match self {
            Wire::Tcp(stream) => stream.read(buf),
            Wire::Unix(stream) => stream.read(buf),
            Wire::WebSocket(socket) => socket.read(buf),
        }
    }
}

impl Write for Wire {
    fn write(&mut self, buf: &[u8]) -> io::Result<usize> {
        match self {
            Wire::Tcp(stream) => stream.write(buf),
            Wire::Unix(stream) => stream.write(buf),
            Wire::WebSocket(socket) => socket.write(buf),
        }
    }

    fn flush(&mut self) -> io::Result<()> {
        Ok(())
    }
}

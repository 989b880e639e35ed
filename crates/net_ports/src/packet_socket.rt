//! Packets over WebSocket: each is one binary message, as in NFD's channel for WebSocket.
ghost use Rattle.std.specs.Prelude.{◌≤◌, IfOk, length};

use crate::head_first::HeadFirst;
use ndn_streams::{MAX_FRAME, packet_size};
use std::alloc::Global;
use std::io;
use std::io::{ErrorKind, Read, Write};
use tungstenite::{
    Bytes, CloseCode, CloseFrame, Error, Message, NoMask, Utf8Bytes, WebSocket, WebSocketConfig,
};

/// How many octets of a socket for WebSocket are read at once.
const CHUNK: usize = 16_384;

/// How many octets may wait below the queue of a connection: one message, and a few pongs.
const WAITING: usize = 2 * MAX_FRAME;

/// Returns the limits of a connection over WebSocket (RFC 6455): 9,000 octets for a message, and
/// for a frame.
pub fn limits() -> WebSocketConfig {
    WebSocketConfig::default()
        .read_buffer_size(CHUNK)
        .write_buffer_size(0)
        .max_write_buffer_size(WAITING)
        .max_message_size(Some(MAX_FRAME))
        .max_frame_size(Some(MAX_FRAME))
}

/// A WebSocket as a socket of packets. A read gives the octets of one packet, which came as one
/// binary message. A write sends the first packet of its octets, as one binary message.
///
/// After a message that is not allowed, the other end is told why (RFC 6455 section 7.4.1), and
/// the read fails.
#[derive(Drop)]
pub struct PacketSocket {
    alloc: Global,
    socket: WebSocket<HeadFirst, NoMask>,
}

impl PacketSocket {
    pub fn new(alloc: Global, socket: WebSocket<HeadFirst, NoMask>) -> PacketSocket {
        PacketSocket { alloc, socket }
    }

    /// Tells the other end why the connection ends, if this is possible without waiting. Returns
    /// the error of the read.
    fn refuse(&mut self, code: CloseCode) -> io::Error {
        let reason = Utf8Bytes::new();
        let _told = self.socket.close(Some(CloseFrame { code, reason }));
        io::Error::from(ErrorKind::InvalidData)
    }

    /// Gives the packet that a message has.
    fn give(&mut self, octets: &Bytes, buf: &mut [u8]) -> io::Result<usize>
        ensures { IfOk result (λ count. count ≤ length buf.new) }
    {
        let octets = octets.as_slice();
        if packet_size(octets) != Ok(Some(octets.len())) || octets.len() > buf.len() {
            return Err(self.refuse(CloseCode::Invalid));
        }
        buf[..octets.len()].copy_from_slice(octets);
        Ok(octets.len())
    }
}

impl Read for PacketSocket {
    fn read(&mut self, buf: &mut [u8]) -> io::Result<usize> {
        // What waits below the queue leaves as soon as the socket takes it, also if no further
        // packet is sent. If the socket has failed, the read says so.
        let _flushed = self.socket.flush();
        match self.socket.read() {
            Ok(Message::Binary(octets)) => self.give(&octets, buf),
            Ok(Message::Text(_)) => Err(self.refuse(CloseCode::Unsupported)),
            // The answer to a ping or a close waits or has left. The next message follows.
            Ok(Message::Ping(_) | Message::Pong(_) | Message::Close(_)) => {
                Err(io::Error::from(ErrorKind::Interrupted))
            }
            Err(Error::ConnectionClosed) => Ok(0),
            Err(Error::Io(error)) => Err(error),
            Err(Error::Capacity(_)) => Err(self.refuse(CloseCode::Size)),
            Err(_) => Err(self.refuse(CloseCode::Protocol)),
        }
    }
}

impl Write for PacketSocket {
    fn write(&mut self, buf: &[u8]) -> io::Result<usize> {
        // What waits leaves first. So at most one packet waits below the queue.
        if let Err(error) = self.socket.flush() {
            return Err(io_error(error));
        }
        let packet = match packet_size(buf) {
            Ok(Some(size)) => buf.get(..size).unwrap_or_default(),
            _ => return Err(io::Error::from(ErrorKind::InvalidData)),
        };
        let Ok(message) = Message::binary(self.alloc, packet) else {
            return Err(io::Error::from(ErrorKind::OutOfMemory));
        };
        match self.socket.send(message).map_err(io_error) {
            // The message waits below the queue.
            Err(error) if error.kind() == ErrorKind::WouldBlock => Ok(packet.len()),
            Err(error) => Err(error),
            Ok(()) => Ok(packet.len()),
        }
    }

    fn flush(&mut self) -> io::Result<()> {
        self.socket.flush().map_err(io_error)
    }
}

fn io_error(error: Error) -> io::Error {
    match error {
        Error::Io(error) => error,
        _ => io::Error::from(ErrorKind::InvalidData),
    }
}

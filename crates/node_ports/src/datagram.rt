//! One datagram to a node on this machine, and the answer to it.
ghost use Rattle.std.specs.Prelude.{◌≤◌, length, IfOk};

use crate::ports::PortFault;
use std::net::{Ipv4Addr, Net, UdpSocket};
use std::time::Duration;

/// How long to wait for an answer, in seconds.
pub const ANSWER_SECONDS: u64 = 4;

/// Sends the octets in one datagram from a new socket to port `to` of 127.0.0.1. Returns the
/// socket, which receives only datagrams from port `to`.
pub fn send_one(rt: &impl Net, to: u16, octets: &[u8]) -> Result<UdpSocket, PortFault> {
    send_from(rt, 0, to, octets)
}

/// Sends the octets in one datagram from a new socket at port `from` to port `to` of 127.0.0.1.
/// Returns the socket, which receives only datagrams from port `to`. If `from` is 0, the system
/// chooses a port. Fails if the socket cannot be bound or connected, or does not accept all octets.
pub fn send_from(rt: &impl Net, from: u16, to: u16, octets: &[u8]) -> Result<UdpSocket, PortFault> {
    let Ok(socket) = UdpSocket::bind(rt, (Ipv4Addr::LOCALHOST, from)) else {
        return Err(PortFault::Failed);
    };
    let Ok(()) = socket.connect((Ipv4Addr::LOCALHOST, to)) else {
        return Err(PortFault::Failed);
    };
    match socket.send(octets) {
        Ok(sent) if sent == octets.len() => Ok(socket),
        _ => Err(PortFault::Failed),
    }
}

/// Receives one datagram into the start of the buffer, and returns the number of octets that were
/// stored. A datagram longer than the buffer is truncated. Fails if no datagram arrives within
/// `ANSWER_SECONDS` seconds, if this time limit cannot be set, or if the socket fails.
pub fn receive_one(socket: &UdpSocket, buffer: &mut [u8]) -> Result<usize, PortFault>
    ensures { IfOk result (λ len. len ≤ length buffer.new) }
{
    let wait = Duration::from_secs(ANSWER_SECONDS);
    let Ok(()) = socket.set_read_timeout(Some(wait)) else {
        return Err(PortFault::Failed);
    };
    socket.recv(buffer).map_err(|_| PortFault::Failed)
}

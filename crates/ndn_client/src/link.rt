//! A link to a node over UDP: the socket, the clock, and the datagram that came last.

use crate::fault::Fault;
use crate::running::{MAX_DATAGRAM, socket_of};
use ndn_requests::{Failure, Silence};
use std::alloc::Global;
use std::io;
use std::net::{Net, SocketAddr, UdpSocket};
use std::time::{Clock, Duration, Instant};

/// A link to a node.
#[derive(Drop)]
pub(crate) struct Link<'a, R> {
    rt: &'a R,
    socket: UdpSocket,
    start: Instant,
    buffer: Vec<u8>,
}

impl<'a, R: Clock + AllocGlobal + Net> Link<'a, R> {
    /// Returns a link from port `from` to `to`. If `from` is not given, the system chooses a port.
    pub fn open(rt: &'a R, from: Option<u16>, to: SocketAddr) -> Result<Link<'a, R>, Fault> {
        Ok(Link {
            rt,
            socket: socket_of(rt, from, to)?,
            start: Instant::now(rt).map_err(|_| Fault::Clock)?,
            buffer: vec![in rt.alloc(); 0; MAX_DATAGRAM]?,
        })
    }
}

impl<'a, R: Clock + AllocGlobal> Link<'a, R> {
    pub fn alloc(&self) -> Global {
        self.rt.alloc()
    }

    /// Returns the microseconds since the link was opened.
    pub fn moment(&self) -> Result<u64, Fault> {
        match self.start.elapsed(self.rt) {
            Ok(passed) => Ok(u64::try_from(passed.as_micros()).unwrap_or(u64::MAX)),
            Err(_) => Err(Fault::Clock),
        }
    }

    /// Sends a packet as a datagram. The fault may be that no program listened when an earlier
    /// packet was sent.
    pub fn send(&self, packet: &[u8]) -> Result<(), Fault> {
        match self.socket.send(packet) {
            Ok(sent) if sent == packet.len() => Ok(()),
            Err(error) if is_closed(&error) => Err(closed()),
            _ => Err(Fault::Send),
        }
    }

    /// Returns the length of the datagram that comes before the moment `deadline`, or `None` if none
    /// comes. The fault is that no program listens at the destination, or that the clock or the
    /// socket fails.
    pub fn receive(&mut self, deadline: u64) -> Result<Option<usize>, Fault> {
        let left = deadline.saturating_sub(self.moment()?);
        if left == 0 {
            return Ok(None);
        }
        let wait = Some(Duration::from_micros(left));
        self.socket.set_read_timeout(wait).map_err(|_| Fault::Send)?;
        match self.socket.recv(&mut self.buffer) {
            Ok(len) => Ok(Some(len)),
            Err(error) if is_closed(&error) => Err(closed()),
            Err(_) => Ok(None),
        }
    }

    /// Returns the datagram that came last, which has this length.
    pub fn datagram(&self, len: usize) -> &[u8] {
        &self.buffer[..len.min(self.buffer.len())]
    }
}

/// Returns whether an error says that no program listens at the destination.
fn is_closed(error: &io::Error) -> bool {
    error.kind() == io::ErrorKind::ConnectionRefused
}

fn closed() -> Fault {
    Fault::NotDone(Failure::Silent(Silence::Closed))
}

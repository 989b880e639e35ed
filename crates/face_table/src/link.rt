//! What a face leads to.
ghost use Rattle.std.specs.Prelude.{◌≡◌, ◌↔◌, ℕ, Bool, IsTrue, None, Some, false, true};
ghost use Rattle.std.specs.declared.net.socket_addr.SocketAddr.{SocketAddr};
ghost use Rattle.face_table.specs.declared.link.Link.{Link};
ghost use Rattle.face_table.specs.declared.link.Link.TheVariants.{Connection};
ghost use Rattle.face_table.specs.Link.{IsLoopback, heard_at, is_at, is_local, udp_endpoint};

use std::net::SocketAddr;

/// What a face leads to: a UDP endpoint or a connection.
#[derive(Clone, Copy)]
pub enum Link {
    /// The UDP endpoint with this address and port.
    Udp(SocketAddr),
    /// A connection over TCP, a Unix socket, or WebSocket.
    Connection {
        /// The number of the connection. No two connections of a node have the same number.
        number: u64,
        /// The address and port of the other end. A connection over a Unix socket has none.
        remote: Option<SocketAddr>,
        /// Whether the other end is on this machine. Then the face is Local, and stays open until
        /// the connection ends.
        is_local: bool,
    },
}

impl Link {
    /// Returns the connection with this number over TCP, whose other end is `remote`. It is Local
    /// exactly if `remote` has a loopback address: one of 127.0.0.0/8, or ::1.
    pub fn over_tcp(number: u64, remote: SocketAddr) -> Link
        ensures { (local : Bool) × (result ≡ Connection number (Some remote) local)
            × (IsTrue local ↔ IsLoopback remote) }
    {
        Link::Connection {
            number,
            remote: Some(remote),
            is_local: is_loopback(&remote),
        }
    }

    /// Returns the connection with this number over a Unix socket. It is Local.
    pub fn over_unix(number: u64) -> Link
        ensures { result ≡ Connection number None true }
    {
        Link::Connection {
            number,
            remote: None,
            is_local: true,
        }
    }

    /// Returns the connection with this number over WebSocket, whose other end is `remote`. It is
    /// Far wherever it comes from: the page of any site can make a browser connect to an address of
    /// its own machine.
    pub fn over_websocket(number: u64, remote: SocketAddr) -> Link
        ensures { result ≡ Connection number (Some remote) false }
    {
        Link::Connection {
            number,
            remote: Some(remote),
            is_local: false,
        }
    }

    /// Returns whether the face of this link is Local. The face of a UDP endpoint that is no peer
    /// is Far.
    pub fn is_local(&self) -> bool
        ensures { result ≡ is_local self.now }
    {
        match self {
            Link::Udp(_) => false,
            Link::Connection { is_local, .. } => *is_local,
        }
    }

    /// Returns the UDP endpoint, or `None` if this is a connection.
    pub fn udp_endpoint(&self) -> Option<SocketAddr>
        ensures { result ≡ udp_endpoint self.now }
    {
        match self {
            Link::Udp(endpoint) => Some(*endpoint),
            Link::Connection { .. } => None,
        }
    }

    /// Returns whether this is the link `link`: the same UDP endpoint, or the connection with the
    /// same number.
    pub fn is_at(&self, link: &Link) -> bool
        ensures { result ≡ is_at link.now self.now }
    {
        match (self, link) {
            (Link::Udp(known), Link::Udp(endpoint)) => known == endpoint,
            (Link::Connection { number: known, .. }, Link::Connection { number, .. }) => {
                known == number
            }
            _ => false,
        }
    }

    /// Returns the time that counts as the last time when something arrived, if something arrives
    /// at the time `now`. A Local link counts as never silent: the time is the greatest u64.
    pub fn heard_at(&self, now: u64) -> u64
        ensures { result ≡ heard_at self.now now }
    {
        if self.is_local() { u64::MAX } else { now }
    }
}

/// Returns whether the address is a loopback address, with which other machines cannot communicate.
fn is_loopback(endpoint: &SocketAddr) -> bool
    ensures { IsTrue result ↔ IsLoopback endpoint.now }
{
    endpoint.ip().is_loopback()
}

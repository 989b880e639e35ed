//! The endpoints of the peers, which are known from the start.
ghost use Rattle.std.specs.Prelude.{◌≡◌, ◌<◌, ◌≤◌, length, slice_get, position, IfSome};
ghost use Rattle.face_table.specs.Link.{is_endpoint};

use std::marker::Model;
use std::net::{Ipv4Addr, SocketAddr, SocketAddrV4};

/// The greatest number of faces of a node.
pub const MAX_FACES: usize = 64;

/// The endpoints of the peers, in the order of their faces. There are at most 64 peers, since a
/// node has at most 64 faces. The faces of peers never close.
#[derive(Drop)]
pub struct Peers {
    endpoints: [SocketAddr; MAX_FACES],
    len: usize,
}

impl Model for Peers {
    ghost use Rattle.std.specs.Prelude.{List, ◌≤◌, take};
    ghost use Rattle.std.specs.declared.net.socket_addr.SocketAddr.{SocketAddr};
    ghost use Rattle.face_table.specs.declared.peers.TheConstants.{MAX_FACES};

    ghost Value = { List SocketAddr };

    ghost view = { λ p. take p.len p.endpoints };

    ghost invariant = { λ p. p.len ≤ MAX_FACES };
}

impl Peers {
    /// Returns the peers with these endpoints. Precondition: there are at most 64 endpoints.
    pub fn new(endpoints: &[SocketAddr]) -> Peers
        requires { length endpoints.now ≤ MAX_FACES }
        ensures { result ≡ endpoints.now }
    {
        let mut known = [nowhere(); MAX_FACES];
        known[..endpoints.len()].copy_from_slice(endpoints);
        Peers {
            endpoints: known,
            len: endpoints.len(),
        }
    }

    /// Returns the number of endpoints.
    pub fn len(&self) -> usize
        ensures exact { result ≡ length self.now }
        ensures small { result ≤ MAX_FACES }
    {
        self.as_slice().len()
    }

    fn as_slice(&self) -> &[SocketAddr]
        ensures exact { result.now ≡ self.now }
        ensures small { length result.now ≤ MAX_FACES }
    {
        &self.endpoints[..self.len]
    }

    /// Returns the endpoint at index `i`, or `None` if there is no endpoint at this index.
    pub fn get(&self, i: usize) -> Option<SocketAddr>
        ensures { result ≡ slice_get self.now i }
    {
        self.as_slice().get(i).copied()
    }

    /// Returns the index of the first endpoint that equals `endpoint`, or `None` if no endpoint
    /// equals it.
    pub fn place_of(&self, endpoint: SocketAddr) -> Option<usize>
        ensures first { result ≡ position (is_endpoint endpoint) self.now }
        ensures small { IfSome result (λ place. place < MAX_FACES) }
    {
        self.as_slice().iter().position(|known| *known == endpoint)
    }
}

/// Returns a placeholder for an unused array element.
fn nowhere() -> SocketAddr {
    SocketAddr::V4(SocketAddrV4::new(Ipv4Addr::UNSPECIFIED, 0))
}

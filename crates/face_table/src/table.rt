//! The links that have faces.
ghost use Rattle.std.specs.Prelude.{◌≡◌, ◌↔◌, [], ◌+◌, ◌<◌, ◌≤◌, length, List, IfSome, IsTrue, None, Some};
ghost use Rattle.face_table.specs.Clients.{IsNoClient, MayHear};
ghost use Rattle.face_table.specs.declared.clients.Client.{Client};
ghost use Rattle.face_table.specs.Table.{HasPlace, IsNewcomer, Knows, Leaves, Meets, OpensNew, OpensNone, endpoint_at, idle_after, link_at, peer_at, peer_place, table_of, with_clients};

use crate::clients::{Client, Clients};
use crate::holdings::Holdings;
use crate::link::Link;
use crate::peers::{MAX_FACES, Peers};
use std::marker::Model;
use std::net::SocketAddr;

/// What to do with what arrives from a link.
#[derive(Clone, Copy)]
pub enum Met {
    /// The link has the face with this number, and what came arrives on this face.
    Face(u64),
    /// The link has no face. An arrival opens a face with this number for the link, and then what
    /// came arrives on this face. If no place is left, the link is not stored, and
    /// `FaceTable::link_of` has no link for the face. A node with 64 faces does not open such a
    /// face. A node with fewer, as while places are spare, would open it, so the caller drops what
    /// came, and opens no face.
    Opening(u64),
    /// The face with this number must close before what came is handled.
    Closing(u64),
}

/// The links that have faces: the peers, which have the faces 1, 2 and so on, and the clients. The
/// number of an opened face is never used for another face, unless it is the greatest u64.
///
/// In clauses, a table is a `TableState`.
#[derive(Drop)]
pub struct FaceTable {
    peers: Peers,
    clients: Clients,
    // The number of places, of the 64, that Far faces of clients leave to peers and to Local links.
    spare: usize,
    // The number of the next face to open.
    next: u64,
    // The face number of all links that are not stored because no place is left. At the start, and
    // whenever a face is opened for a new client, `refused` becomes `None`, and remains `None`
    // until such a link is met.
    refused: Option<u64>,
}

impl Model for FaceTable {
    ghost use Rattle.face_table.specs.Table.{TableState};

    ghost Value = { TableState };

    ghost view = { λ t. record {
      peers = t.peers;
      clients = t.clients;
      spare = t.spare;
      next = t.next;
      refused = t.refused;
    } };
}

impl FaceTable {
    /// Returns the table with these peers, at most 64, and without clients. No idle time is set,
    /// and no places are spare.
    pub fn new(peers: &[SocketAddr]) -> FaceTable
        requires { length peers.now ≤ MAX_FACES }
        ensures { result ≡ table_of peers.now }
    {
        FaceTable {
            peers: Peers::new(peers),
            clients: Clients::new(),
            spare: 0,
            next: peers.len() as u64 + 1,
            refused: None,
        }
    }

    /// Sets the idle time, in milliseconds, after which a client's face may close. From now on, the
    /// face of a client may also close to make room for a link without a face.
    pub fn close_after(&mut self, idle: u64)
        ensures { self.new ≡ idle_after idle self.old }
    {
        self.clients.close_after(idle);
    }

    /// Sets the number of places, of the 64, that Far faces of clients leave to peers and to Local
    /// links.
    pub fn leave_spare(&mut self, spare: usize)
        ensures { self.new ≡ record self.old { spare = spare } }
    {
        self.spare = spare;
    }

    /// Returns the peers.
    pub fn peers(&self) -> &Peers
        ensures { result.now ≡ self.now.peers }
    {
        &self.peers
    }

    /// Returns the link of a face, or `None` if nothing has this face.
    pub fn link_of(&self, face: u64) -> Option<Link>
        ensures { result ≡ link_at self.now face }
    {
        match self.peer_of(face) {
            Some(endpoint) => Some(Link::Udp(endpoint)),
            None => self.clients.link_of(face),
        }
    }

    /// Returns the UDP endpoint of a face, or `None` if no UDP endpoint has this face.
    pub fn endpoint_of(&self, face: u64) -> Option<SocketAddr>
        ensures { result ≡ endpoint_at self.now face }
    {
        self.link_of(face)?.udp_endpoint()
    }

    /// Returns the endpoint of a peer's face, or `None` if no peer has this face.
    fn peer_of(&self, face: u64) -> Option<SocketAddr>
        ensures { result ≡ peer_at self.now.peers face }
    {
        let place = usize::try_from(face).ok()?.checked_sub(1)?;
        self.peers.get(place)
    }

    /// Returns the index of the first peer with this link, or `None` if the link is no peer's.
    fn peer_place(&self, link: Link) -> Option<usize>
        ensures first { result ≡ peer_place link self.now }
        ensures small { IfSome result (λ place. place < MAX_FACES) }
    {
        self.peers.place_of(link.udp_endpoint()?)
    }

    /// Decides what to do with what arrives from `link` at the time `now`, in milliseconds since
    /// 1970. `holdings` is what the node has for its faces.
    pub fn meet<H: Holdings>(&mut self, link: Link, now: u64, holdings: &H) -> Met
        ensures { Meets self.old self.new link now (H.Answers holdings.now) result }
    {
        if let Some(place) = self.clients.idle_place(now) {
            let face = self.clients.face_at(place);
            // If the link is a client's that is not idle, something has arrived from it, although
            // this is handled only after the face `face` is closed.
            self.clients.hear_in_time(link, now);
            self.clients.remove(place);
            return Met::Closing(face);
        }
        if let Some(face) = self.hear(link, now) {
            return Met::Face(face);
        }
        if self.has_place(link) {
            return Met::Opening(self.open(link, now));
        }
        match self.clients.yielding_place(now, holdings) {
            Some(place) => {
                let face = self.clients.face_at(place);
                self.clients.remove(place);
                Met::Closing(face)
            }
            None => Met::Opening(self.refuse()),
        }
    }

    /// Returns whether a face may open for this link.
    fn has_place(&self, link: Link) -> bool
        ensures { IsTrue result ↔ HasPlace self.now link }
    {
        self.peers.len() + self.clients.len() < MAX_FACES
            && (link.is_local() || self.clients.far() < MAX_FACES.saturating_sub(self.spare))
    }

    /// Returns the face of the link, or `None` if the link has no face. If the link is a client's,
    /// notes that something arrived from it at the time `now`.
    fn hear(&mut self, link: Link, now: u64) -> Option<u64>
        ensures known { IfSome result (Knows self.old self.new link now) }
        ensures none { result ≡ None → IsNewcomer self.old link × (self.new ≡ self.old) }
    {
        match self.peer_place(link) {
            Some(place) => Some(place as u64 + 1),
            None => self.clients.hear(link, now),
        }
    }

    /// If the link is a client's, notes that something arrived from it at the time `now`.
    pub fn hear_client(&mut self, link: Link, now: u64)
        ensures { (rows : List Client) × MayHear self.old.clients.rows rows link now
            × (self.new ≡ with_clients self.old rows) }
    {
        let _face = self.clients.hear(link, now);
    }

    /// Removes the client with this link, whose connection has ended, and returns its face. Returns
    /// `None` if no client has this link.
    pub fn leave(&mut self, link: Link) -> Option<u64>
        ensures left { IfSome result (Leaves self.old self.new link) }
        ensures none { result ≡ None → IsNoClient self.old.clients.rows link
            × (self.new ≡ self.old) }
    {
        let place = self.clients.place_of(link)?;
        let face = self.clients.face_at(place);
        self.clients.remove(place);
        Some(face)
    }

    /// Stores a link without a face as a client with the next face number, and returns this number.
    /// Precondition: fewer than 64 links have faces.
    fn open(&mut self, link: Link, now: u64) -> u64
        requires { length self.old.peers + length self.old.clients.rows < MAX_FACES }
        ensures { OpensNew self.old self.new link now result }
    {
        let face = self.next;
        self.clients.push(Client {
            link,
            face,
            heard: link.heard_at(now),
        });
        self.next = face.saturating_add(1);
        self.refused = None;
        face
    }

    /// Returns the face number for a link that is not stored.
    fn refuse(&mut self) -> u64
        ensures { OpensNone self.old self.new result }
    {
        let face = self.refused.unwrap_or(self.next);
        self.refused = Some(face);
        self.next = face.saturating_add(1);
        face
    }
}

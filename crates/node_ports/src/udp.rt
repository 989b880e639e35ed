//! Ports over UDP.
ghost use Rattle.std.specs.Prelude.{◌≡◌, ◌<◌, ◌≤◌, ◌↔◌, ◌∷◌, [], ℕ, List, None, Some, true, false, length, take, IfOk, IfSome, IsTrue, OnOk, OnErr};
ghost use Rattle.std.specs.Option.{option_or};
ghost use Rattle.std.specs.declared.net.socket_addr.SocketAddr.{SocketAddr};
ghost use Rattle.node_ports.specs.Endpoints.{AreLocalhostAt, IsLocalhostAt};
ghost use Rattle.face_table.specs.Clients.{IsNoClient, MayHear};
ghost use Rattle.face_table.specs.Table.{Leaves, Meets, TableState, endpoint_at, link_at, with_clients};
ghost use Rattle.face_table.specs.declared.clients.Client.{Client};
ghost use Rattle.node_ports.specs.Holdings.{NodeAnswers};
ghost use Rattle.node_ports.specs.Ports.{Arrival, LiesWithin, arrived};
ghost use Rattle.node_ports.specs.Step.{Got, count_after, failures_in, one_more, step_of};
ghost use Rattle.node_ports.specs.Udp.{Brings, DropsStrangers, FailsReceiving, GivesWaiting, BringsAfterClosing, HasOpened, IsAccepted, Listens, OpensPeer, UdpGives, bound_to, closes_after, kept, waiting_at};

use crate::node_holdings::NodeHoldings;
use crate::ports::{Arrival, FRAME_ROOM, PortFault, Ports, put_front};
use crate::serving::Turn;
use face_table::{FaceTable, Holdings, Link, MAX_FACES, Met};
use forwarder::{Event, Node, Scope, Verdict};
use info_rules::Rules;
use node_core::WrittenEvent;
use std::marker::Model;
use std::net::{Ipv4Addr, Net, SocketAddr, SocketAddrV4, UdpSocket};
use std::time::Duration;

/// The limit on the time that `UdpPorts::next_soon` waits for a datagram, in milliseconds.
pub const SOON_MILLISECONDS: u64 = 1;

/// A clock.
pub trait Moments: Drop {
    // The time that `now` returned most recently.
    ghost last: { Self → ℕ };

    /// Returns the present time in milliseconds since 1970.
    fn now(&mut self) -> u64
        ensures { result ≡ last self.new };
}

/// Ports over one UDP socket, with a face for each known endpoint.
///
/// The peers' endpoints have the faces 1, 2 and so on. Each of these faces is opened in a turn of
/// its own before any datagram is received. An unknown endpoint that sends a datagram is stored as
/// a client, unless 64 endpoints are known. For a new client, the ports first return the opening of
/// a Far face with the next number, and then the client's first packet. A datagram from an endpoint
/// that is not stored gives two arrivals: the opening of a face and the packet. These two have a
/// face number that no open face has: 65 if no face has closed. A node with 64 faces does not open
/// this face. The number of an opened face is never used for another face, unless it is the
/// greatest u64. The arrivals never end.
///
/// After a call of `close_after`, the faces of idle clients close, and the face of a client may
/// close to make room for an unknown endpoint: at once if the node has nothing for it. A peer's
/// face never closes. After a call of `ignore_strangers`, only datagrams from peers are accepted.
#[derive(Drop)]
pub struct UdpPorts<M: Moments> {
    socket: UdpSocket,
    moments: M,
    known: FaceTable,
    // The number of peers' faces that are already opened.
    opened: usize,
    local: u64,
    // The datagram that waits for the next turn, or `None` if no datagram waits. The octets of the
    // waiting datagram are the first `len` octets of `octets`.
    waiting: Option<Waiting>,
    octets: [u8; FRAME_ROOM],
    len: usize,
    // Whether receiving ends after `SOON_MILLISECONDS`. If `is_brief` is false, receiving waits
    // until a datagram arrives.
    is_brief: bool,
    accepts_strangers: bool,
    strangers: u64,
    failures: u64,
}

/// The endpoint of the waiting datagram, and the face that the datagram is for, if the face is
/// decided.
#[derive(Clone, Copy)]
struct Waiting {
    endpoint: SocketAddr,
    face: Option<u64>,
}

impl<M: Moments> Model for UdpPorts<M> {
    ghost use Rattle.std.specs.Prelude.{◌≤◌, length, take};
    ghost use Rattle.std.specs.Option.{option_map};
    ghost use Rattle.node_ports.specs.Udp.{UdpState};
    ghost use Rattle.node_ports.specs.declared.ports.TheConstants.{FRAME_ROOM};

    ghost Value = { UdpState };

    ghost view = { λ u. record {
      known = u.known;
      opened = u.opened;
      local = u.local;
      waiting = option_map (λ waiting. record {
        endpoint = waiting.endpoint;
        face = waiting.face;
        octets = take u.len u.octets;
      }) u.waiting;
      told = M.last u.moments;
      accepts_strangers = u.accepts_strangers;
      strangers = u.strangers;
      failures = u.failures;
    } };

    ghost invariant = { λ u. (u.opened ≤ length u.known.peers) × (u.len ≤ FRAME_ROOM) };
}

impl<M: Moments> UdpPorts<M> {
    /// Binds port `listen` of 127.0.0.1. The peers are ports of 127.0.0.1. In all other respects,
    /// does the same as `bind_at`.
    pub fn bind(
        rt: &impl Net,
        listen: u16,
        peers: &[u16],
        local: u64,
        moments: M,
    ) -> Result<UdpPorts<M>, PortFault>
        requires few { length peers.now ≤ MAX_FACES }
        ensures { IfOk result (λ ports. (endpoints : List SocketAddr)
            × AreLocalhostAt peers.now endpoints
            × (ports ≡ bound_to endpoints local (M.last moments))) }
    {
        let mut endpoints = [localhost(0); MAX_FACES];
        let endpoints = &mut endpoints[..peers.len()];
        put_localhost(peers, endpoints);
        UdpPorts::bind_at(rt, localhost(listen), endpoints, local, moments)
    }

    /// Binds the endpoint `listen`. The peers' faces are opened in the first turns: the first
    /// `local` faces are Local, the others Far. One socket and no heap memory are used. There are
    /// at most 64 peers, and each peer must have the same address family as `listen`. If an
    /// endpoint is more than once in `peers`, only the first of its faces gets its datagrams. No
    /// face closes until `close_after` is called. Datagrams from endpoints that are not peers are
    /// accepted until `ignore_strangers` is called. A Local peer may send commands, so such a peer
    /// should have a loopback address. Fails if the endpoint `listen` cannot be bound.
    pub fn bind_at(
        rt: &impl Net,
        listen: SocketAddr,
        peers: &[SocketAddr],
        local: u64,
        moments: M,
    ) -> Result<UdpPorts<M>, PortFault>
        requires few { length peers.now ≤ MAX_FACES }
        ensures { IfOk result (λ ports. ports ≡ bound_to peers.now local (M.last moments)) }
    {
        let Ok(socket) = UdpSocket::bind(rt, listen) else {
            return Err(PortFault::Failed);
        };
        Ok(UdpPorts {
            socket,
            moments,
            known: FaceTable::new(peers),
            opened: 0,
            local,
            waiting: None,
            octets: [0; FRAME_ROOM],
            len: 0,
            is_brief: false,
            accepts_strangers: true,
            strangers: 0,
            failures: 0,
        })
    }

    /// From now on, a client's face closes if nothing has arrived on it for `idle` milliseconds. If
    /// a datagram arrives from an unknown endpoint while 64 endpoints are known, a client's face
    /// closes for which the node has nothing, or whose client has been silent for at least 10,000
    /// milliseconds: of these, that of the client that has been silent longest.
    ///
    /// A face closes only when a datagram has arrived from some endpoint. The face closes before
    /// that datagram is handled. At most one face closes in each turn. If the previous turn opened
    /// a face for a datagram, that datagram arrives on the new face before any face closes.
    pub fn close_after(&mut self, idle: u64)
        ensures { self.new ≡ closes_after idle self.old }
    {
        self.known.close_after(idle);
    }

    /// From now on, each datagram that is received from an endpoint that is not a peer is dropped
    /// and counted. A dropped datagram does not become an arrival. A datagram that was received
    /// before and still waits is not dropped.
    pub fn ignore_strangers(&mut self)
        ensures { self.new ≡ record self.old { accepts_strangers = false } }
    {
        self.accepts_strangers = false;
    }

    /// Returns the number of datagrams that were dropped because of `ignore_strangers`, at most the
    /// greatest u64.
    pub fn strangers(&self) -> u64
        ensures { result ≡ self.now.strangers }
    {
        self.strangers
    }

    /// Returns the endpoint whose face has the number `face`. If there is no such endpoint, returns
    /// the endpoint of the datagram that waits for the face `face`. Returns `None` if no datagram
    /// waits for this face either.
    pub fn endpoint_of(&self, face: u64) -> Option<SocketAddr>
        ensures { result ≡ option_or (endpoint_at self.now.known face)
            (waiting_at face self.now.waiting) }
    {
        match self.known.endpoint_of(face) {
            Some(endpoint) => Some(endpoint),
            None => self.waiting_at(face),
        }
    }

    /// Returns the endpoint of the waiting datagram, if the datagram waits for this face.
    fn waiting_at(&self, face: u64) -> Option<SocketAddr>
        ensures { result ≡ waiting_at face self.now.waiting }
    {
        let waiting = self.waiting?;
        if waiting.face == Some(face) {
            return Some(waiting.endpoint);
        }
        None
    }

    /// From now on, no call waits for a datagram, and no send waits for the socket: `next` fails,
    /// and `next_soon` returns `None`, if no datagram has come. Clients with Far faces leave
    /// `spare` places, of the 64, to peers and to Local links. For ports that wait for other
    /// sockets too. Returns false if the system refuses.
    pub fn share_with_connections(&mut self, spare: usize) -> bool
        ensures { self.new ≡ record self.old { known = record self.old.known { spare = spare } } }
    {
        self.known.leave_spare(spare);
        self.socket.set_nonblocking(true).is_ok()
    }

    /// Drops the datagram that waits, if one waits, and counts it among those of strangers.
    pub fn drop_waiting(&mut self)
        ensures { self.new ≡ record self.old {
          waiting = None;
          strangers = one_more self.old.strangers;
        } }
    {
        self.waiting = None;
        self.count_stranger();
    }

    /// Returns the socket, for a program that waits for several sockets.
    pub fn socket(&self) -> &UdpSocket {
        &self.socket
    }

    /// Returns whether an arrival is due for which no datagram must be received: a peer's face is
    /// to be opened, or a datagram waits.
    pub fn is_due(&self) -> bool
        ensures { result ≡ false → Listens self.now }
    {
        self.opened < self.known.peers().len() || self.waiting.is_some()
    }

    /// Decides what to do with what arrives from a link now, for ports that have further links.
    /// `holdings` is what the node has for its faces. Returns the present time and the decision.
    pub fn meet<H: Holdings>(&mut self, link: Link, holdings: &H) -> (u64, Met)
        ensures { (known : TableState)
            × Meets self.old.known known link result.0 (H.Answers holdings.now) result.1
            × (self.new ≡ record self.old { known = known; told = result.0 }) }
    {
        let now = self.now();
        (now, self.known.meet(link, now, holdings))
    }

    /// Notes that something arrived from a link now, if the link is a client's. Returns the present
    /// time.
    pub fn hear(&mut self, link: Link) -> u64
        ensures { (rows : List Client) × MayHear self.old.known.clients.rows rows link result
            × (self.new ≡ record self.old {
              known = with_clients self.old.known rows;
              told = result;
            }) }
    {
        let now = self.now();
        self.known.hear_client(link, now);
        now
    }

    /// Removes the client with this link, whose connection has ended, and returns its face. Returns
    /// `None` if no client has this link.
    pub fn leave(&mut self, link: Link) -> Option<u64>
        ensures left { IfSome result (λ face. (known : TableState)
            × Leaves self.old.known known link face
            × (self.new ≡ record self.old { known = known })) }
        ensures none { result ≡ None → IsNoClient self.old.known.clients.rows link
            × (self.new ≡ self.old) }
    {
        let face = self.known.leave(link)?;
        Some(face)
    }

    /// Returns the link of a face, or `None` if nothing has this face.
    pub fn link_of(&self, face: u64) -> Option<Link>
        ensures { result ≡ link_at self.now.known face }
    {
        self.known.link_of(face)
    }

    /// Returns whether datagrams from this endpoint are accepted.
    fn accepts(&self, endpoint: SocketAddr) -> bool
        ensures { IsTrue result ↔ IsAccepted self.now endpoint }
    {
        self.accepts_strangers || self.known.peers().place_of(endpoint).is_some()
    }

    /// Counts a dropped datagram from an endpoint that is not a peer.
    fn count_stranger(&mut self)
        ensures counted { self.new
            ≡ record self.old { strangers = one_more self.old.strangers } }
        ensures more { self.old.strangers ≤ self.new.strangers }
    {
        self.strangers = self.strangers.saturating_add(1);
    }

    /// Counts a failed call, also one of ports that stand on these.
    pub fn fail(&mut self) -> PortFault
        ensures { self.new ≡ record self.old { failures = one_more self.old.failures } }
    {
        self.failures = self.failures.saturating_add(1);
        PortFault::Failed
    }

    /// Returns the present time.
    pub fn now(&mut self) -> u64
        ensures { self.new ≡ record self.old { told = result } }
    {
        self.moments.now()
    }

    /// Returns the arrival of the waiting datagram on the face `face`. If the endpoint is a client,
    /// sets the time of its last datagram to the present time. Copies the datagram to the start of
    /// the buffer. Octets that do not fit are dropped.
    fn give_waiting(&mut self, endpoint: SocketAddr, face: u64, buffer: &mut [u8]) -> Arrival
        requires opened { HasOpened self.old }
        requires waiting { (octets : List ℕ) × (self.old.waiting
            ≡ Some (record { endpoint = endpoint; face = Some face; octets = octets })) }
        ensures fits { LiesWithin (length buffer.new) result }
        ensures gives { GivesWaiting self.old self.new buffer.new result }
    {
        let now = self.now();
        self.known.hear_client(Link::Udp(endpoint), now);
        let len = put_front(&self.octets[..self.len], buffer);
        self.waiting = None;
        Event::Packet {
            face,
            now,
            octets: len,
        }
    }

    /// Handles the datagram that waited while a face closed. Returns the next arrival: the datagram
    /// on its face, or the opening or closing of a face.
    fn go_on<H: Holdings>(
        &mut self,
        endpoint: SocketAddr,
        holdings: &H,
        buffer: &mut [u8],
    ) -> Arrival
        requires opened { HasOpened self.old }
        requires waiting { (octets : List ℕ) × (self.old.waiting
            ≡ Some (record { endpoint = endpoint; face = None; octets = octets })) }
        ensures fits { LiesWithin (length buffer.new) result }
        ensures gives { BringsAfterClosing (H.Answers holdings.now) self.old self.new
            buffer.new result }
    {
        let now = self.now();
        match self.known.meet(Link::Udp(endpoint), now, holdings) {
            Met::Face(face) => {
                let len = put_front(&self.octets[..self.len], buffer);
                self.waiting = None;
                Event::Packet {
                    face,
                    now,
                    octets: len,
                }
            }
            Met::Opening(face) => {
                self.waiting = Some(Waiting {
                    endpoint,
                    face: Some(face),
                });
                far_face(face, now)
            }
            Met::Closing(face) => Event::FaceDown { face, now },
        }
    }

    /// Stores a datagram from this endpoint for the next turn.
    fn keep(&mut self, endpoint: SocketAddr, face: Option<u64>, datagram: &[u8])
        ensures { self.new
            ≡ record self.old { waiting = Some (kept endpoint face datagram.now) } }
    {
        self.len = put_front(datagram, &mut self.octets);
        self.waiting = Some(Waiting { endpoint, face });
    }

    /// Returns the arrival that opens the face of the first peer whose face is not yet opened.
    fn open(&mut self) -> Arrival
        requires { self.old.opened < length self.old.known.peers }
        ensures { OpensPeer self.old self.new result }
    {
        let known = self.known.peers().len();
        self.opened += 1;
        let face = self.opened as u64;
        let scope = if face <= self.local {
            Scope::Local
        } else {
            Scope::Far
        };
        Event::FaceUp {
            face,
            scope,
            now: self.now(),
        }
    }

    /// Returns the arrival for a datagram from this endpoint. The datagram is the first `len`
    /// octets of the buffer. Precondition: all peers' faces are opened, and no other datagram
    /// waits.
    fn arrive<H: Holdings>(
        &mut self,
        endpoint: SocketAddr,
        len: usize,
        holdings: &H,
        buffer: &[u8],
    ) -> Arrival
        requires listens { Listens self.old }
        requires fits { len ≤ length buffer.now }
        ensures fits { LiesWithin (length buffer.now) result }
        ensures brings { Brings (H.Answers holdings.now) self.old self.new endpoint
            (take len buffer.now) buffer.now result }
    {
        let now = self.now();
        match self.known.meet(Link::Udp(endpoint), now, holdings) {
            Met::Face(face) => Event::Packet {
                face,
                now,
                octets: len,
            },
            Met::Opening(face) => {
                self.keep(endpoint, Some(face), &buffer[..len]);
                far_face(face, now)
            }
            Met::Closing(face) => {
                self.keep(endpoint, None, &buffer[..len]);
                Event::FaceDown { face, now }
            }
        }
    }

    /// Sets whether receiving ends after `SOON_MILLISECONDS`. Returns `false` if the system
    /// refuses.
    fn set_brief(&mut self, is_brief: bool) -> bool
        ensures { self.new ≡ self.old }
    {
        if self.is_brief == is_brief {
            return true;
        }
        let wait = if is_brief {
            Some(Duration::from_millis(SOON_MILLISECONDS))
        } else {
            None
        };
        if self.socket.set_read_timeout(wait).is_err() {
            return false;
        }
        self.is_brief = is_brief;
        true
    }

    /// Receives a datagram and returns the arrival that is due to it, or `None` if the socket gives
    /// no datagram or the socket's waiting time cannot be set. A datagram from an endpoint that is
    /// not accepted is dropped and counted. After a counted datagram, returns `None` if `is_brief`
    /// is true, and receives the next datagram if `is_brief` is false. Precondition: all peers'
    /// faces are opened, and no datagram waits for the next turn.
    fn receive<H: Holdings>(
        &mut self,
        holdings: &H,
        buffer: &mut [u8],
        is_brief: bool,
    ) -> Option<Arrival>
        requires { Listens self.old }
        ensures fits { IfSome result (LiesWithin (length buffer.new)) }
        ensures gives { IfSome result
            (UdpGives (H.Answers holdings.now) self.old self.new buffer.new) }
        ensures none { result ≡ None → DropsStrangers self.old self.new }
        ensures works { self.new.failures ≡ self.old.failures }
    {
        if !self.set_brief(is_brief) {
            return None;
        }
        for _ in 0..u64::MAX {
            let (len, from) = self.receive_one(buffer)?;
            if self.accepts(from) {
                return Some(self.arrive(from, len, holdings, buffer));
            }
            self.count_stranger();
            if is_brief {
                return None;
            }
        }
        None
    }

    /// Receives a datagram into the start of the buffer. A datagram longer than the buffer is
    /// truncated. Returns the number of octets that were stored and the endpoint of the datagram.
    /// Returns `None` if the socket gives no datagram.
    fn receive_one(&self, buffer: &mut [u8]) -> Option<(usize, SocketAddr)>
        ensures { IfSome result (λ received. received.0 ≤ length buffer.new) }
    {
        self.socket.recv_from(buffer).ok()
    }

    /// Returns the next arrival: the opening of a peer's face, or an arrival due to a datagram that
    /// waited or is received now. `holdings` is what the node has for its faces. If `is_brief` is
    /// true, waits as `next_soon` does, and otherwise as `next` does. Returns `None` if the socket
    /// gives no datagram, or the socket's waiting time cannot be set, or, if `is_brief` is true,
    /// after a datagram that was dropped.
    pub fn take<H: Holdings>(
        &mut self,
        holdings: &H,
        buffer: &mut [u8],
        is_brief: bool,
    ) -> Option<Arrival>
        ensures fits { IfSome result (LiesWithin (length buffer.new)) }
        ensures gives { IfSome result
            (UdpGives (H.Answers holdings.now) self.old self.new buffer.new) }
        ensures none { result ≡ None → Listens self.old × DropsStrangers self.old self.new }
        ensures works { self.new.failures ≡ self.old.failures }
    {
        if self.opened < self.known.peers().len() {
            return Some(self.open());
        }
        let Some(waiting) = self.waiting else {
            return self.receive(holdings, buffer, is_brief);
        };
        match waiting.face {
            Some(face) => Some(self.give_waiting(waiting.endpoint, face, buffer)),
            None => Some(self.go_on(waiting.endpoint, holdings, buffer)),
        }
    }
}

impl<M: Moments> Ports for UdpPorts<M> {
    ghost use Rattle.std.specs.Prelude.{false};
    ghost use Rattle.std.proofs.Common.{refl};
    ghost use Rattle.node_ports.specs.Laws.{counted_after};
    ghost use Rattle.node_ports.specs.Step.{count_after, failures_in};

    // Of the steps at a socket, only the number of failed calls is known.
    ghost does = { λ u steps v. v.failures ≡ count_after u.failures (failures_in steps) };

    ghost has_journal = { λ u. false };

    ghost failures = { λ u. u.failures };

    ghost rests = { λ u. refl };

    ghost goes_on = { λ u v w a b. counted_after u.failures v.failures w.failures a b };

    ghost counts = { λ u v steps h. h };

    ghost stays = { λ u v steps h. refl };

    fn next(&mut self, node: &Node, buffer: &mut [u8]) -> Result<Option<Arrival>, PortFault>
        ensures fits { IfOk result
            (λ arrival. IfSome arrival (LiesWithin (length buffer.new))) }
        ensures came { IfOk result (λ arrival. self.new.failures ≡ count_after self.old.failures
            (failures_in (step_of (length buffer.new) arrival buffer.new ∷ []))) }
        ensures gives { IfOk result (λ given. (arrival : Arrival) × (given ≡ Some arrival)
            × UdpGives (NodeAnswers node.now) self.old self.new buffer.new arrival) }
        ensures failed { OnErr result (FailsReceiving self.old self.new) }
    {
        match self.take(&NodeHoldings::of(node), buffer, false) {
            Some(arrival) => Ok(Some(arrival)),
            None => Err(self.fail()),
        }
    }

    fn next_soon(&mut self, node: &Node, buffer: &mut [u8]) -> Option<Arrival>
        ensures fits { IfSome result (LiesWithin (length buffer.new)) }
        ensures came { IfSome result (λ arrival. self.new.failures ≡ count_after self.old.failures
            (failures_in (Got (length buffer.new) (arrived arrival buffer.new) ∷ []))) }
        ensures gives { IfSome result
            (UdpGives (NodeAnswers node.now) self.old self.new buffer.new) }
        ensures rests { result ≡ None → self.new.failures ≡ self.old.failures }
        ensures none { result ≡ None → Listens self.old × DropsStrangers self.old self.new }
    {
        self.take(&NodeHoldings::of(node), buffer, true)
    }

    fn keeps_journal(&self) -> bool {
        false
    }

    // These ports have no journal.
    fn commit(&mut self, _event: &WrittenEvent<'_>, _verdict: &Verdict) -> Result<(), PortFault> {
        Ok(())
    }

    fn send(&mut self, face: u64, octets: &[u8]) -> Result<(), PortFault>
        ensures known { OnOk result
            ((endpoint : SocketAddr) × (endpoint_at self.old.known face ≡ Some endpoint)) }
        ensures works { OnOk result (self.new ≡ self.old) }
        ensures failed { OnErr result
            (self.new ≡ record self.old { failures = one_more self.old.failures }) }
    {
        let Some(endpoint) = self.known.endpoint_of(face) else {
            return Err(self.fail());
        };
        match self.socket.send_to(octets, endpoint) {
            Ok(sent) if sent == octets.len() => Ok(()),
            _ => Err(self.fail()),
        }
    }

    fn note(&mut self, _turn: &Turn, _octets: &[u8], _rules: &Rules) {}

    fn failures(&self) -> u64 {
        self.failures
    }
}

/// Returns the arrival that opens a Far face for an endpoint that is not a peer.
fn far_face(face: u64, now: u64) -> Arrival
    ensures { result ≡ Event.FaceUp face Scope.Far now }
{
    Event::FaceUp {
        face,
        scope: Scope::Far,
        now,
    }
}

/// Returns port `port` of 127.0.0.1.
fn localhost(port: u16) -> SocketAddr
    ensures { IsLocalhostAt port result }
{
    SocketAddr::V4(SocketAddrV4::new(Ipv4Addr::LOCALHOST, port))
}

/// Sets the endpoints to these ports of 127.0.0.1. Precondition: there are as many endpoints as
/// ports.
fn put_localhost(ports: &[u16], endpoints: &mut [SocketAddr])
    requires { length endpoints.old ≡ length ports.now }
    ensures { AreLocalhostAt ports.now endpoints.new }
{
    for place in 0..ports.len() {
        endpoints[place] = localhost(ports[place]);
    }
}

//! Ports over UDP, TCP, Unix sockets and WebSocket.
ghost use Rattle.std.specs.Prelude.{◌≡◌, ◌<◌, ◌≤◌, ◌∷◌, [], ℕ, List, None, Some, false, length, slice_get, IfOk, IfSome, OnOk, OnErr};
ghost use Rattle.net_ports.specs.Arrivals.{Admits, IsOf, scope_of};
ghost use Rattle.net_ports.specs.declared.faces.ConnectedFace.{ConnectedFace};
ghost use Rattle.node_ports.specs.Ports.{LiesWithin, arrived};
ghost use Rattle.node_ports.specs.Step.{Got, count_after, failures_in, one_more, step_of};

use crate::face_holdings::FaceHoldings;
use crate::faces::{ConnectedFace, check, may_go_on};
use crate::handshakes;
use crate::handshakes::{Handshake, add, end_late, next_done};
use crate::sockets::{BindFault, Listen, Sockets};
use crate::wire::Wire;
use face_table::{Link, Met};
use forwarder::{Event, Node, Scope, Verdict};
use info_rules::Rules;
use ndn_streams::{Connection, PacketStream};
use node_core::WrittenEvent;
use node_ports::{Arrival, Moments, PortFault, Ports, Turn, UdpPorts};
use std::alloc::Global;
use std::net::{Net, SocketAddr};
use std::rt::Files;
use std::time::Duration;

/// How many of the 64 places for faces are left to peers and to Local connections: UDP endpoints
/// that are no peers, and Far connections, never take these.
pub const CONNECTION_PLACES: usize = 8;

/// How many octets may wait to be written to a connection.
pub const QUEUE_OCTETS: usize = 65_536;

/// A connection closes if a packet that it has begun is not whole after this time, in milliseconds,
/// counted from the look that finds it so. So long at most it also stays open if the other end has
/// ended its sending and has not taken all that waits, if a write has failed, or if its opening
/// handshake for WebSocket is not done, which is counted from its beginning.
pub const PARTIAL_MILLISECONDS: u64 = 10_000;

/// How many sources are no connections with faces: the UDP socket, the three sockets for new
/// connections, and all opening handshakes.
const LISTENERS: usize = 5;

/// After so many arrivals, these ports ask the system which sockets have something, although not
/// all that is known to be there was given.
const ARRIVALS: u32 = 32;

/// How long these ports wait at most before they look at all sockets, in milliseconds.
const LOOK_MILLISECONDS: u64 = 1_000;

/// How long `next_soon` waits at most, in milliseconds.
const SOON_MILLISECONDS: u64 = 1;

/// Ports over one UDP socket, and over TCP, Unix sockets and WebSocket, on which other programs
/// connect.
///
/// The faces of UDP endpoints are those of `UdpPorts`. Each connection has a face of its own, which
/// opens when the connection is accepted, and closes when the other end ends the connection, when
/// the connection fails, or when its octets are no packets. The face of a connection over a Unix
/// socket, or over TCP from a loopback address, is Local. The face of another connection is Far,
/// and may close as that of a UDP endpoint, when it is idle or to make room: at once only if the
/// node has nothing for it, and nothing may be read from the connection, or waits to be written. A
/// connection for which no place is left is closed at once. A connection over WebSocket gets its
/// face once its opening handshake is done, and its request had a listed Origin.
#[derive(Drop)]
pub struct NetPorts<M: Moments> {
    alloc: Global,
    udp: UdpPorts<M>,
    sockets: Sockets,
    faces: Vec<ConnectedFace>,
    // The connections over WebSocket that have no face yet, the oldest first.
    handshakes: Vec<Handshake>,
    origins: Vec<String>,
    // The number of the next connection.
    number: u64,
    // A connection that waits for another face to close.
    arriving: Option<(Wire, Link)>,
    // The source that is asked next: 0 for the UDP socket, 1, 2 and 3 for new connections over TCP,
    // over the Unix socket and for WebSocket, 4 for all opening handshakes, and then the
    // connections in order.
    source: usize,
    // How many arrivals were given since the sockets were last waited for.
    given: u32,
    // The time when `look` did its work last, in milliseconds since 1970.
    looked: u64,
}

impl<M: Moments> NetPorts<M> {
    /// Returns ports over the socket of `udp`, and over the sockets of `listen`, which are opened
    /// now. A file that an earlier program left at the path of the Unix socket is removed.
    pub fn open<R: AllocGlobal + Files + Net>(
        rt: &R,
        mut udp: UdpPorts<M>,
        listen: Listen<'_>,
    ) -> Result<NetPorts<M>, BindFault> {
        let sockets = Sockets::open(rt, udp.socket(), listen)?;
        let Some(origins) = copied(rt.alloc(), listen.origins) else {
            return Err(BindFault::Memory);
        };
        if !udp.share_with_connections(CONNECTION_PLACES) {
            return Err(BindFault::Poll);
        }
        Ok(NetPorts {
            alloc: rt.alloc(),
            udp,
            sockets,
            faces: Vec::new(rt.alloc()),
            handshakes: Vec::new(rt.alloc()),
            origins,
            number: 0,
            arriving: None,
            source: 0,
            given: 0,
            looked: 0,
        })
    }

    /// Returns the address and port of the other end of a face, or `None` if it has none, as over a
    /// Unix socket, or if the face is not known.
    pub fn endpoint_of(&self, face: u64) -> Option<SocketAddr> {
        match self.udp.link_of(face) {
            Some(Link::Connection { remote, .. }) => remote,
            _ => self.udp.endpoint_of(face),
        }
    }

    /// Returns the number of datagrams that were dropped because their endpoints are not peers: with
    /// `UdpPorts::ignore_strangers` all of them, and else those for whose endpoints no place was
    /// left. At most the greatest u64.
    pub fn strangers(&self) -> u64 {
        self.udp.strangers()
    }

    /// Returns an arrival that is there, without waiting. Asks each source once, after the one that
    /// gave the last arrival.
    fn ready(&mut self, node: &Node, buffer: &mut [u8]) -> Option<Arrival>
        ensures fits { IfSome result (LiesWithin (length buffer.new)) }
        ensures works { self.new.udp.failures ≡ self.old.udp.failures }
    {
        if self.udp.is_due() {
            return self.take_datagram(node, buffer);
        }
        if let Some((wire, link)) = self.arriving.take()
            && let Some(arrival) = self.admit(node, wire, link)
        {
            return Some(arrival);
        }
        for _ in 0..self.faces.len() + LISTENERS {
            let source = self.source;
            self.source = if source >= self.faces.len() + LISTENERS - 1 {
                0
            } else {
                source + 1
            };
            if let Some(arrival) = self.ask(node, source, buffer) {
                return Some(arrival);
            }
        }
        None
    }

    /// Returns the next arrival of one source, if it has one.
    fn ask(&mut self, node: &Node, source: usize, buffer: &mut [u8]) -> Option<Arrival>
        ensures fits { IfSome result (LiesWithin (length buffer.new)) }
        ensures works { self.new.udp.failures ≡ self.old.udp.failures }
    {
        match source {
            0 => self.take_datagram(node, buffer),
            1 | 2 => self.accept(node, source == 1),
            3 => {
                self.greet();
                None
            }
            4 => self.welcome(node),
            _ => self.take_packet(source - LISTENERS, buffer),
        }
    }

    /// Returns the next arrival due to a datagram. If a face closes for it, the connection of this
    /// face ends. A datagram for whose endpoint no place is left is dropped, and counted among
    /// those of strangers.
    fn take_datagram(&mut self, node: &Node, buffer: &mut [u8]) -> Option<Arrival>
        ensures fits { IfSome result (LiesWithin (length buffer.new)) }
        ensures works { self.new.udp.failures ≡ self.old.udp.failures }
    {
        if !self.sockets.is_udp_ready && !self.udp.is_due() {
            return None;
        }
        let dropped = self.udp.strangers();
        let holdings = FaceHoldings::of(node, &self.faces);
        let arrival = self.udp.take(&holdings, buffer, true);
        match &arrival {
            Some(Event::FaceUp { face, .. }) if self.udp.link_of(*face).is_none() => {
                self.udp.drop_waiting();
                return None;
            }
            Some(Event::FaceDown { face, .. }) => self.end(*face),
            // A datagram that was dropped does not tell that no other waits.
            None => self.sockets.is_udp_ready = self.udp.strangers() != dropped,
            Some(_) => {}
        }
        arrival
    }

    /// Accepts a connection, if one waits. Returns the arrival that opens its face, or that closes
    /// another face before.
    fn accept(&mut self, node: &Node, is_tcp: bool) -> Option<Arrival>
        ensures fits { IfSome result (LiesWithin 0) }
        ensures works { self.new.udp.failures ≡ self.old.udp.failures }
    {
        let (wire, link) = if is_tcp {
            self.sockets.accept_tcp(self.number)?
        } else {
            self.sockets.accept_unix(self.number)?
        };
        self.number = self.number.saturating_add(1);
        self.admit(node, wire, link)
    }

    /// Accepts a connection for WebSocket, if one waits, and begins its opening handshake.
    fn greet(&mut self)
        ensures { self.new.udp.failures ≡ self.old.udp.failures }
    {
        let Some((socket, link)) = self.sockets.accept_websocket(self.number) else {
            return;
        };
        let number = self.number;
        self.number = self.number.saturating_add(1);
        let now = self.udp.now();
        if let Some(handshake) = Handshake::new(self.alloc, socket, number, link, now) {
            add(&mut self.handshakes, handshake);
        }
    }

    /// Goes on with the opening handshakes. Returns the arrival that opens the face of a connection
    /// whose handshake is done, or that closes another face before.
    fn welcome(&mut self, node: &Node) -> Option<Arrival>
        ensures fits { IfSome result (LiesWithin 0) }
        ensures works { self.new.udp.failures ≡ self.old.udp.failures }
    {
        let (wire, link) = next_done(&mut self.handshakes, self.alloc, &self.origins)?;
        self.admit(node, wire, link)
    }

    /// Gives a new connection a face. Returns the arrival that opens this face, or that closes
    /// another face before. Returns `None` if the connection is closed, since no place or no memory
    /// is left.
    fn admit(&mut self, node: &Node, wire: Wire, link: Link) -> Option<Arrival>
        ensures admits { IfSome result (Admits link) }
        ensures works { self.new.udp.failures ≡ self.old.udp.failures }
    {
        let holdings = FaceHoldings::of(node, &self.faces);
        let (now, met) = self.udp.meet(link, &holdings);
        match met {
            // A new connection has no face yet.
            Met::Face(_) => None,
            Met::Opening(face) => {
                // A link for which no place is left is not stored.
                let _stored = self.udp.link_of(face)?;
                if !self.start(wire, link, face) {
                    let _face = self.udp.leave(link);
                    return None;
                }
                Some(Event::FaceUp {
                    face,
                    scope: scope_of(&link),
                    now,
                })
            }
            Met::Closing(face) => {
                self.end(face);
                self.arriving = Some((wire, link));
                Some(Event::FaceDown { face, now })
            }
        }
    }

    /// Stores a connection with this face, and waits for it from now on. Returns false if memory
    /// runs out, or if the system cannot wait for the connection.
    fn start(&mut self, mut wire: Wire, link: Link, face: u64) -> bool
        ensures { self.new.udp ≡ self.old.udp }
    {
        let Link::Connection { number, .. } = link else {
            return false;
        };
        let Ok(stream) = PacketStream::new(self.alloc, QUEUE_OCTETS) else {
            return false;
        };
        self.sockets.watch(&mut wire, number).is_ok()
            && self
                .faces
                .push(ConnectedFace {
                    link,
                    number,
                    face,
                    connection: Connection::new(wire, stream),
                })
                .is_ok()
    }

    /// Removes the connection with this face, if there is one.
    fn end(&mut self, face: u64)
        ensures { self.new.udp ≡ self.old.udp }
    {
        if let Some(place) = self.place_of(face) {
            let _connection = self.faces.remove(place);
        }
    }

    /// Returns the index of the connection with this face.
    fn place_of(&self, face: u64) -> Option<usize>
        ensures { IfSome result (λ place. place < length self.now.faces.items) }
    {
        self.faces.iter().position(|held| held.face == face)
    }

    /// Returns the next arrival of the connection at this index, if it has one: a packet, or the
    /// closing of its face.
    fn take_packet(&mut self, place: usize, buffer: &mut [u8]) -> Option<Arrival>
        ensures gives { IfSome result (λ arrival. (held : ConnectedFace)
            × (slice_get self.old.faces.items place ≡ Some held)
            × IsOf held place self.old.faces.items self.new.faces.items buffer.new arrival) }
        ensures fits { IfSome result (LiesWithin (length buffer.new)) }
        ensures works { self.new.udp.failures ≡ self.old.udp.failures }
    {
        let held = self.faces.get_mut(place)?;
        if !held.connection.may_go_on() {
            return None;
        }
        let (link, face) = (held.link, held.face);
        if let Some(octets) = held.connection.next_packet(buffer) {
            let now = self.udp.hear(link);
            return Some(Event::Packet { face, now, octets });
        }
        if !held.connection.is_done() {
            return None;
        }
        let _connection = self.faces.remove(place);
        let _face = self.udp.leave(link);
        let now = self.udp.now();
        Some(Event::FaceDown { face, now })
    }

    /// Waits for at most so many milliseconds until some socket has something. Returns false if the
    /// system cannot wait.
    fn wait(&mut self, limit: u64) -> bool
        ensures { self.new.udp.failures ≡ self.old.udp.failures }
    {
        self.given = 0;
        let limit = if self.is_ready() { 0 } else { limit };
        let waited = self.sockets.wait(
            Duration::from_millis(limit),
            &mut self.faces,
            &mut self.handshakes,
        );
        self.look();
        waited.is_ok()
    }

    /// Returns an arrival that is there, without waiting.
    fn take(&mut self, node: &Node, buffer: &mut [u8]) -> Option<Arrival>
        ensures fits { IfSome result (LiesWithin (length buffer.new)) }
        ensures works { self.new.udp.failures ≡ self.old.udp.failures }
    {
        if self.given >= ARRIVALS {
            // If the system cannot tell, the sources that are known are asked.
            let _waited = self.wait(0);
        }
        let arrival = self.ready(node, buffer)?;
        self.given = self.given.saturating_add(1);
        Some(arrival)
    }

    /// Returns whether some source may have something.
    fn is_ready(&self) -> bool {
        self.sockets.is_ready() || may_go_on(&self.faces) || handshakes::may_go_on(&self.handshakes)
    }

    /// From time to time, counts all listening sockets as ready, and ends the connections that are
    /// in the middle of a packet or of a handshake for too long.
    fn look(&mut self)
        ensures { self.new.udp.failures ≡ self.old.udp.failures }
    {
        let now = self.udp.now();
        if self.looked <= now && now - self.looked < LOOK_MILLISECONDS {
            return;
        }
        self.looked = now;
        self.sockets.ask_all();
        check(&mut self.faces, now, PARTIAL_MILLISECONDS);
        end_late(&mut self.handshakes, now, PARTIAL_MILLISECONDS);
    }
}

impl<M: Moments> Ports for NetPorts<M> {
    ghost use Rattle.std.specs.Prelude.{false};
    ghost use Rattle.std.proofs.Common.{refl};
    ghost use Rattle.node_ports.specs.Laws.{counted_after};
    ghost use Rattle.node_ports.specs.Step.{count_after, failures_in};

    // Of the steps at sockets, only the number of failed calls is known.
    ghost does = { λ p steps q. q.udp.failures ≡ count_after p.udp.failures (failures_in steps) };

    ghost has_journal = { λ p. false };

    ghost failures = { λ p. p.udp.failures };

    ghost rests = { λ p. refl };

    ghost goes_on = { λ p q r a b. counted_after p.udp.failures q.udp.failures r.udp.failures a b };

    ghost counts = { λ p q steps h. h };

    ghost stays = { λ p q steps h. refl };

    fn next(&mut self, node: &Node, buffer: &mut [u8]) -> Result<Option<Arrival>, PortFault> {
        for _ in 0..u64::MAX {
            if let Some(arrival) = self.take(node, buffer) {
                return Ok(Some(arrival));
            }
            if !self.wait(LOOK_MILLISECONDS) {
                break;
            }
        }
        Err(self.udp.fail())
    }

    fn next_soon(&mut self, node: &Node, buffer: &mut [u8]) -> Option<Arrival> {
        if let Some(arrival) = self.take(node, buffer) {
            return Some(arrival);
        }
        if self.wait(SOON_MILLISECONDS) {
            self.ready(node, buffer)
        } else {
            None
        }
    }

    fn keeps_journal(&self) -> bool {
        false
    }

    // These ports have no journal.
    fn commit(&mut self, _event: &WrittenEvent<'_>, _verdict: &Verdict) -> Result<(), PortFault> {
        Ok(())
    }

    fn send(&mut self, face: u64, octets: &[u8]) -> Result<(), PortFault> {
        let Some(place) = self.place_of(face) else {
            return self.udp.send(face, octets);
        };
        if self.faces[place].connection.send(octets) {
            Ok(())
        } else {
            Err(self.udp.fail())
        }
    }

    fn note(&mut self, _turn: &Turn, _octets: &[u8], _rules: &Rules) {}

    fn failures(&self) -> u64 {
        self.udp.failures()
    }
}

/// Returns a copy of the texts, or `None` if memory runs out.
fn copied(alloc: Global, texts: &[String]) -> Option<Vec<String>> {
    let mut copies = Vec::new(alloc);
    for text in texts {
        copies.push(String::from_str(alloc, text).ok()?).ok()?;
    }
    Some(copies)
}

/// Returns the scope of the face of a link.
fn scope_of(link: &Link) -> Scope
    ensures { result ≡ scope_of link.now }
{
    if link.is_local() {
        Scope::Local
    } else {
        Scope::Far
    }
}

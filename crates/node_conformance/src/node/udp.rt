//! A node at a UDP port of this machine, and the sockets that exchange packets with the node.

use super::octets::octets_of;
use super::on_node;
use face_table::Holdings;
use ndn_packets::PacketFault;
use node_core::{DropReason, Event, Node, Outbox, Scope, Verdict};
use node_ports::{
    Arrival, FRAME_ROOM, Moments, Ports, Served, Turn, UdpPorts, receive_one, send_one, serve,
    serve_turn, serve_turn_soon,
};
use std::alloc::Global;
use std::cell::Cell;
use std::net::{Ipv4Addr, Net, UdpSocket};

/// A clock that always shows 1,000,000 milliseconds, the signature time of the command `ADD`.
#[derive(Drop)]
pub struct Still;

impl Moments for Still {
    ghost last = { λ _. 1000000 };

    fn now(&mut self) -> u64 {
        1_000_000
    }
}

/// A clock that advances by a millisecond each time it is read.
#[derive(Drop)]
pub struct Moving {
    pub last: u64,
}

impl Moments for Moving {
    ghost last = { λ clock. clock.last };

    fn now(&mut self) -> u64 {
        self.last = self.last.saturating_add(1);
        self.last
    }
}

/// A clock that a test sets.
#[derive(Drop)]
struct Handed<'a> {
    moment: &'a Cell<u64>,
    last: u64,
}

impl<'a> Moments for Handed<'a> {
    ghost last = { λ clock. clock.last };

    fn now(&mut self) -> u64 {
        self.last = self.moment.get();
        self.last
    }
}

/// Returns a socket that is bound to a port of 127.0.0.1.
pub fn bound_socket(rt: &impl Net) -> Option<UdpSocket> {
    UdpSocket::bind(rt, (Ipv4Addr::LOCALHOST, 0)).ok()
}

/// Returns the port of a socket.
pub fn port_of(socket: &UdpSocket) -> Option<u16> {
    Some(socket.local_addr().ok()?.port())
}

/// Returns a port of 127.0.0.1 to which no socket is bound.
pub fn free_port(rt: &impl Net) -> Option<u16> {
    port_of(&bound_socket(rt)?)
}

/// Returns ports without peers, with a clock that stands still.
fn still_ports(rt: &impl Net, listen: u16) -> Option<UdpPorts<Still>> {
    UdpPorts::bind(rt, listen, &[], 0, Still).ok()
}

/// Returns ports without peers, with a clock that moves.
pub fn moving_ports(rt: &impl Net, listen: u16) -> Option<UdpPorts<Moving>> {
    UdpPorts::bind(rt, listen, &[], 0, Moving { last: 0 }).ok()
}

/// Returns ports without peers, with a clock that shows the moment in the cell `moment`.
fn handed_ports<'a>(
    rt: &impl Net,
    listen: u16,
    moment: &'a Cell<u64>,
) -> Option<UdpPorts<Handed<'a>>> {
    UdpPorts::bind(rt, listen, &[], 0, Handed { moment, last: 0 }).ok()
}

/// Returns ports with one peer. The peer's face is Local if `local` is 1. The clock of the ports
/// shows the moment in the cell `moment`.
fn handed_ports_of<'a>(
    rt: &impl Net,
    listen: u16,
    peer: u16,
    local: u64,
    moment: &'a Cell<u64>,
) -> Option<UdpPorts<Handed<'a>>> {
    UdpPorts::bind(rt, listen, &[peer], local, Handed { moment, last: 0 }).ok()
}

/// Makes a socket that sends a packet to a port, and returns the socket. `word` stands for the
/// packet.
fn client_of(rt: &(impl AllocGlobal + Net), to: u16, word: &str) -> Option<UdpSocket> {
    let octets = octets_of(rt.alloc(), word);
    send_one(rt, to, octets.as_slice()).ok()
}

/// Sends a packet from a socket to a port, and returns whether the send succeeds. `word` stands for
/// the packet.
fn sends(alloc: Global, socket: &UdpSocket, port: u16, word: &str) -> bool {
    let octets = octets_of(alloc, word);
    socket
        .send_to(octets.as_slice(), (Ipv4Addr::LOCALHOST, port))
        .is_ok()
}

/// Returns whether the next packet at a socket is the packet for which `word` stands.
fn hears(alloc: Global, socket: &UdpSocket, word: &str) -> bool {
    let octets = octets_of(alloc, word);
    hears_octets(socket, octets.as_slice())
}

/// Returns whether an event comes in each of this many turns, no event is refused for lack of
/// memory, and each send succeeds.
fn passes<M: Moments>(alloc: Global, node: &mut Node, ports: &mut UdpPorts<M>, turns: u64) -> bool {
    serve(alloc, node, ports, turns)
        == Ok(Served {
            events: turns,
            refused: 0,
            failed_sends: 0,
            ended: false,
        })
}

/// Takes a turn, and returns whether the node has this verdict on the arrival and no send fails.
fn says(alloc: Global, node: &mut Node, ports: &mut UdpPorts<Still>, verdict: Verdict) -> bool {
    serve_turn(node, ports, &mut Outbox::new(alloc)) == Ok(Turn::Done { verdict, failed: 0 })
}

/// Returns whether a new client is answered within this many turns: its Interest without a route
/// comes back as a Nack.
fn answers_client<M: Moments>(
    rt: &(impl AllocGlobal + Net),
    node: &mut Node,
    ports: &mut UdpPorts<M>,
    listen: u16,
    turns: u64,
) -> Option<bool> {
    let client = client_of(rt, listen, "INTEREST")?;
    Some(passes(rt.alloc(), node, ports, turns) && hears(rt.alloc(), &client, "NO_ROUTE"))
}

/// Returns whether a node answers a client within two turns.
fn comes_back_from(rt: &(impl AllocGlobal + Net), node: &mut Node) -> Option<bool> {
    let listen = free_port(rt)?;
    answers_client(rt, node, &mut still_ports(rt, listen)?, listen, 2)
}

/// Returns whether an Interest without a route comes back as a Nack from a new node.
fn comes_back(rt: &(impl AllocGlobal + Net)) -> Option<bool> {
    on_node(rt.alloc(), &|_, node| comes_back_from(rt, node))
}

#[test]
fn udp_first_path(rt: HostRuntime) {
    assert!(rt; comes_back(&rt) == Some(true));
}

/// Returns whether a node answers the command of an operator, forwards the operator's Interest to a
/// producer, and sends the producer's Data back to the operator.
fn go_through(
    alloc: Global,
    node: &mut Node,
    ports: &mut UdpPorts<Still>,
    listen: u16,
    operator: &UdpSocket,
    producer: &UdpSocket,
) -> bool {
    passes(alloc, node, ports, 2)
        && sends(alloc, operator, listen, "ADD")
        && passes(alloc, node, ports, 1)
        && hears(alloc, operator, "ADDED")
        && sends(alloc, operator, listen, "INTEREST")
        && passes(alloc, node, ports, 1)
        && hears(alloc, producer, "INTEREST")
        && sends(alloc, producer, listen, "D_A")
        && passes(alloc, node, ports, 1)
        && hears(alloc, operator, "D_A")
}

/// Returns what `go_through` returns for a node with two peers: the operator, which is Local, and
/// the producer.
fn relays_between(
    rt: &(impl AllocGlobal + Net),
    node: &mut Node,
    operator: &UdpSocket,
    producer: &UdpSocket,
) -> Option<bool> {
    let first = port_of(operator)?;
    let second = port_of(producer)?;
    let listen = free_port(rt)?;
    let mut ports = UdpPorts::bind(rt, listen, &[first, second], 1, Still).ok()?;
    Some(go_through(rt.alloc(), node, &mut ports, listen, operator, producer))
}

/// Returns what `relays_between` returns for a node and two new sockets.
fn relays(rt: &(impl AllocGlobal + Net), node: &mut Node) -> Option<bool> {
    let operator = bound_socket(rt)?;
    let producer = bound_socket(rt)?;
    relays_between(rt, node, &operator, &producer)
}

/// Returns what `relays` returns for a new node.
fn is_relay(rt: &(impl AllocGlobal + Net)) -> Option<bool> {
    on_node(rt.alloc(), &|_, node| relays(rt, node))
}

#[test]
fn udp_route_and_back(rt: HostRuntime) {
    assert!(rt; is_relay(&rt) == Some(true));
}

/// Returns whether `serve_turn_soon` takes a turn.
fn takes_soon(alloc: Global, node: &mut Node, ports: &mut UdpPorts<Still>) -> bool {
    let mut outbox = Outbox::new(alloc);
    serve_turn_soon(node, ports, &mut [0; FRAME_ROOM], &mut outbox).is_some()
}

/// Returns whether `serve_turn_soon` takes exactly two turns. For a datagram of a new client, the
/// first turn opens a face, and the second turn answers the packet on that face.
fn are_taken_soon(alloc: Global, node: &mut Node, ports: &mut UdpPorts<Still>) -> bool {
    let opened = takes_soon(alloc, node, ports);
    let answered = takes_soon(alloc, node, ports);
    opened && answered && !takes_soon(alloc, node, ports)
}

/// Returns whether `serve_turn_soon` takes the turns for the datagram of a client, and the client
/// is answered. Afterwards `serve` must take the turns for the datagram of a second client.
fn serves_soon(
    rt: &(impl AllocGlobal + Net),
    node: &mut Node,
    ports: &mut UdpPorts<Still>,
    listen: u16,
    client: &UdpSocket,
) -> Option<bool> {
    let alloc = rt.alloc();
    let soon = are_taken_soon(alloc, node, ports);
    let _second = client_of(rt, listen, "AGAIN")?;
    Some(soon && hears(alloc, client, "NO_ROUTE") && passes(alloc, node, ports, 2))
}

/// Returns whether `serve_turn_soon` takes no turn before a client sends a datagram, and
/// `serves_soon` returns true afterwards.
fn waits_for_client(
    rt: &(impl AllocGlobal + Net),
    node: &mut Node,
    ports: &mut UdpPorts<Still>,
    listen: u16,
) -> Option<bool> {
    if takes_soon(rt.alloc(), node, ports) {
        return Some(false);
    }
    let client = client_of(rt, listen, "INTEREST")?;
    serves_soon(rt, node, ports, listen, &client)
}

/// Returns what `waits_for_client` returns for a node at new ports.
fn waits_at_new_ports(rt: &(impl AllocGlobal + Net), node: &mut Node) -> Option<bool> {
    let listen = free_port(rt)?;
    waits_for_client(rt, node, &mut still_ports(rt, listen)?, listen)
}

/// Returns whether, on a new node, `serve_turn_soon` takes turns only while a datagram waits, and
/// `serve` can take further turns afterwards.
fn waits_for_a_short_time(rt: &(impl AllocGlobal + Net)) -> Option<bool> {
    on_node(rt.alloc(), &|_, node| waits_at_new_ports(rt, node))
}

#[test]
fn udp_soon(rt: HostRuntime) {
    assert!(rt; waits_for_a_short_time(&rt) == Some(true));
}

/// Returns the port numbers 1 to 64.
fn sixty_four_ports(alloc: Global) -> Option<Vec<u16>> {
    let mut ports = Vec::new(alloc);
    for port in 1..65 {
        ports.push(port).ok()?;
    }
    Some(ports)
}

/// Returns `UdpPorts` with 64 peers, which are at the ports 1 to 64.
fn full_ports(rt: &(impl AllocGlobal + Net), listen: u16) -> Option<UdpPorts<Still>> {
    let peers = sixty_four_ports(rt.alloc())?;
    if peers.len() > 64 {
        return None;
    }
    UdpPorts::bind(rt, listen, peers.as_slice(), 0, Still).ok()
}

/// Returns whether a node opens 64 faces, opens no further face, and drops the packet that came.
fn drops_for_want_of_a_face(alloc: Global, node: &mut Node, ports: &mut UdpPorts<Still>) -> bool {
    passes(alloc, node, ports, 64)
        && says(alloc, node, ports, Verdict::Dropped(DropReason::FacesFull))
        && says(alloc, node, ports, Verdict::Dropped(DropReason::NoFace))
}

/// A node has a face for each of 64 peers. Returns whether the node opens no face for a client, and
/// drops the client's packet.
fn drops_the_next(rt: &(impl AllocGlobal + Net), node: &mut Node) -> Option<bool> {
    let listen = free_port(rt)?;
    let mut ports = full_ports(rt, listen)?;
    let _client = client_of(rt, listen, "INTEREST")?;
    Some(drops_for_want_of_a_face(rt.alloc(), node, &mut ports))
}

/// Returns what `drops_the_next` returns for a new node.
fn has_no_face_left(rt: &(impl AllocGlobal + Net)) -> Option<bool> {
    on_node(rt.alloc(), &|_, node| drops_the_next(rt, node))
}

#[test]
fn udp_faces_full(rt: HostRuntime) {
    assert!(rt; has_no_face_left(&rt) == Some(true));
}

/// Returns a new socket that has sent a datagram of 9,001 octets to a port.
fn client_of_9001(rt: &(impl AllocGlobal + Net), to: u16) -> Option<UdpSocket> {
    let octets = vec![in rt.alloc(); 5; 9_001].ok()?;
    send_one(rt, to, octets.as_slice()).ok()
}

/// Returns whether a face opens, and the packet on this face is dropped as too long.
fn drops_as_too_long(alloc: Global, node: &mut Node, ports: &mut UdpPorts<Still>) -> bool {
    let too_long = Verdict::Dropped(DropReason::Malformed(PacketFault::TooLong));
    passes(alloc, node, ports, 1) && says(alloc, node, ports, too_long)
}

/// Returns whether a node drops a datagram of 9,001 octets as too long.
fn drops_9001(rt: &(impl AllocGlobal + Net), node: &mut Node) -> Option<bool> {
    let listen = free_port(rt)?;
    let mut ports = still_ports(rt, listen)?;
    let _client = client_of_9001(rt, listen)?;
    Some(drops_as_too_long(rt.alloc(), node, &mut ports))
}

/// Returns whether a new node drops a datagram of 9,001 octets as too long.
fn is_too_long(rt: &(impl AllocGlobal + Net)) -> Option<bool> {
    on_node(rt.alloc(), &|_, node| drops_9001(rt, node))
}

#[test]
fn udp_too_long(rt: HostRuntime) {
    assert!(rt; is_too_long(&rt) == Some(true));
}

/// Tries to send to face 1 while no face is open. Returns whether the send fails and is counted as
/// a failure.
fn counts_failures(rt: &impl Net) -> Option<bool> {
    let listen = free_port(rt)?;
    let mut ports = still_ports(rt, listen)?;
    Some(ports.send(1, b"").is_err() && ports.failures() == 1)
}

#[test]
fn udp_failures(rt: HostRuntime) {
    assert!(rt; counts_failures(&rt) == Some(true));
}

/// Returns whether binding to a port fails if a socket is already bound to this port.
fn is_taken(rt: &impl Net) -> Option<bool> {
    let socket = bound_socket(rt)?;
    let port = port_of(&socket)?;
    Some(still_ports(rt, port).is_none())
}

#[test]
fn udp_port_taken(rt: HostRuntime) {
    assert!(rt; is_taken(&rt) == Some(true));
}

/// A node that has something for each face.
struct Everything;

impl Holdings for Everything {
    ghost use Rattle.std.specs.Prelude.{◌≡◌, true};

    ghost Answers = { λ node face told. told ≡ true };

    fn holds(&self, _face: u64) -> bool {
        true
    }
}

/// Returns the next arrival at ports of a node that has something for each face. If `is_brief` is
/// true, does not wait for it.
pub fn next_of<M: Moments>(ports: &mut UdpPorts<M>, is_brief: bool) -> Option<Arrival> {
    ports.take(&Everything, &mut [0; 100], is_brief)
}

/// Returns whether the next arrival opens this Far face at this moment.
pub fn brings_face<M: Moments>(ports: &mut UdpPorts<M>, opened: u64, at: u64) -> bool {
    matches!(
        next_of(ports, false),
        Some(Event::FaceUp { face, scope: Scope::Far, now }) if face == opened && now == at
    )
}

/// Returns whether the next arrival is a packet of this many octets, on this face at this moment.
pub fn brings_packet<M: Moments>(
    ports: &mut UdpPorts<M>,
    from: u64,
    at: u64,
    count: usize,
) -> bool {
    matches!(
        next_of(ports, false),
        Some(Event::Packet { face, now, octets }) if face == from && now == at && octets == count
    )
}

/// Returns whether the next two arrivals open this face and bring a packet on it. The face must
/// open at the moment `opened`. The packet must have `len` octets and come at the moment `came`.
pub fn opens<M: Moments>(
    ports: &mut UdpPorts<M>,
    face: u64,
    opened: u64,
    came: u64,
    len: usize,
) -> bool {
    brings_face(ports, face, opened) && brings_packet(ports, face, came, len)
}

/// Returns whether the first packets of two clients open a face each, and the first client keeps
/// its face. The two clients must receive what is sent to their faces.
fn open_for(ports: &mut UdpPorts<Moving>, first: &UdpSocket, second: &UdpSocket) -> Option<bool> {
    let opened = opens(ports, 1, 1, 2, 1) && opens(ports, 2, 3, 4, 2);
    first.send(b"333").ok()?;
    let kept = brings_packet(ports, 1, 5, 3);
    let sent = ports.send(2, b"to two").is_ok() && ports.send(1, b"to one").is_ok();
    Some(
        opened && kept && sent && hears_octets(first, b"to one") && hears_octets(second, b"to two"),
    )
}

/// Returns what `open_for` returns for ports and two new clients.
fn open_for_two(rt: &impl Net, ports: &mut UdpPorts<Moving>, listen: u16) -> Option<bool> {
    let first = send_one(rt, listen, b"1").ok()?;
    let second = send_one(rt, listen, b"22").ok()?;
    open_for(ports, &first, &second)
}

/// Returns what `open_for_two` returns for new ports.
fn open_themselves(rt: &impl Net) -> Option<bool> {
    let listen = free_port(rt)?;
    open_for_two(rt, &mut moving_ports(rt, listen)?, listen)
}

/// Returns whether these octets are the next datagram that a socket receives.
pub fn hears_octets(socket: &UdpSocket, octets: &[u8]) -> bool {
    let mut buffer = [0; 1000];
    match receive_one(socket, &mut buffer) {
        Ok(len) => buffer.get(..len) == Some(octets),
        Err(_) => false,
    }
}

#[test]
fn udp_ports_open_themselves(rt: HostRuntime) {
    assert!(rt; open_themselves(&rt) == Some(true));
}

/// Returns a new socket that has tried to send a datagram to this port of 127.0.0.2, and has then
/// sent a datagram to this port of 127.0.0.1.
fn client_of_two_addresses(rt: &impl Net, to: u16) -> Option<UdpSocket> {
    let client = bound_socket(rt)?;
    let elsewhere = Ipv4Addr::new(127, 0, 0, 2);
    let _sent = client.send_to(b"to another address", (elsewhere, to));
    client.send_to(b"here", (Ipv4Addr::LOCALHOST, to)).ok()?;
    Some(client)
}

/// Returns whether a datagram to another address of this machine is not received, while a datagram
/// to 127.0.0.1 is received.
fn hears_loopback_alone(rt: &impl Net) -> Option<bool> {
    let listen = free_port(rt)?;
    let mut ports = moving_ports(rt, listen)?;
    let _client = client_of_two_addresses(rt, listen)?;
    Some(opens(&mut ports, 1, 1, 2, 4))
}

#[test]
fn udp_hears_loopback_alone(rt: HostRuntime) {
    assert!(rt; hears_loopback_alone(&rt) == Some(true));
}

/// Returns whether the next arrival closes this face at this moment.
fn brings_end<M: Moments>(ports: &mut UdpPorts<M>, closed: u64, at: u64) -> bool {
    matches!(
        next_of(ports, false),
        Some(Event::FaceDown { face, now }) if face == closed && now == at
    )
}

/// When clients send their packets.
#[derive(Clone, Copy)]
struct Pace {
    /// The time between two clients, in milliseconds.
    between: u64,
    /// The number of clients whose faces open before any face closes.
    places: u64,
}

/// Lets 200 clients send a packet, one after the other, at this pace. Returns the number of clients
/// that are answered: within two turns while places are left, and within three after that. Each
/// client keeps its socket to the end, so that no two have the same port.
fn answered_at(
    rt: &(impl AllocGlobal + Net),
    node: &mut Node,
    ports: &mut UdpPorts<Handed<'_>>,
    listen: u16,
    moment: &Cell<u64>,
    pace: Pace,
) -> u64 {
    let mut answered = 0u64;
    let mut clients = Vec::new(rt.alloc());
    for number in 0..200u64 {
        moment.set(number.saturating_mul(pace.between));
        let turns = if number < pace.places { 2 } else { 3 };
        let Some(client) = client_of(rt, listen, "INTEREST") else {
            return answered;
        };
        if passes(rt.alloc(), node, ports, turns) && hears(rt.alloc(), &client, "NO_ROUTE") {
            answered = answered.saturating_add(1);
        }
        if clients.push(client).is_err() {
            return answered;
        }
    }
    answered
}

/// Returns what `answered_at` returns for a node at new ports that close a face after 600 seconds
/// of silence.
fn answered_by(
    rt: &(impl AllocGlobal + Net),
    node: &mut Node,
    moment: &Cell<u64>,
    pace: Pace,
) -> Option<u64> {
    let listen = free_port(rt)?;
    let mut ports = handed_ports(rt, listen, moment)?;
    ports.close_after(600_000);
    Some(answered_at(rt, node, &mut ports, listen, moment, pace))
}

/// Returns whether a node answers all 200 clients at this pace.
fn node_answers(
    rt: &(impl AllocGlobal + Net),
    node: &mut Node,
    moment: &Cell<u64>,
    pace: Pace,
) -> Option<bool> {
    Some(answered_by(rt, node, moment, pace)? == 200)
}

/// Returns what `node_answers` returns for a new node.
fn answers_clients(rt: &(impl AllocGlobal + Net), moment: &Cell<u64>, pace: Pace) -> Option<bool> {
    on_node(rt.alloc(), &|_, node| node_answers(rt, node, moment, pace))
}

/// Each of 200 clients gets a face, which closes after 600 seconds, before the face of the next
/// client opens.
#[test]
fn udp_many_clients(rt: HostRuntime) {
    let pace = Pace {
        between: 600_000,
        places: 1,
    };
    assert!(rt; answers_clients(&rt, &Cell::new(0), pace) == Some(true));
}

/// Each of 200 clients that ask in the same millisecond gets a face: since the others' Interests
/// are answered, the node has nothing for their faces, and one of them closes at once.
#[test]
fn udp_many_clients_at_once(rt: HostRuntime) {
    let pace = Pace {
        between: 0,
        places: 64,
    };
    assert!(rt; answers_clients(&rt, &Cell::new(0), pace) == Some(true));
}

/// Returns whether a silent peer keeps its face, while the face of a silent client closes.
fn keeps_peer_alone(
    ports: &mut UdpPorts<Handed<'_>>,
    moment: &Cell<u64>,
    listen: u16,
    producer: &UdpSocket,
    client: &UdpSocket,
) -> Option<bool> {
    let opened = brings_face(ports, 1, 0) && opens(ports, 2, 0, 0, 1);
    moment.set(86_400_000);
    producer.send_to(b"22", (Ipv4Addr::LOCALHOST, listen)).ok()?;
    let kept = brings_end(ports, 2, 86_400_000) && brings_packet(ports, 1, 86_400_000, 2);
    client.send(b"333").ok()?;
    Some(opened && kept && opens(ports, 3, 86_400_000, 86_400_000, 3))
}

/// Returns what `keeps_peer_alone` returns for new ports, this peer and a new client.
fn keeps_producer(rt: &impl Net, moment: &Cell<u64>, producer: &UdpSocket) -> Option<bool> {
    let peer = port_of(producer)?;
    let listen = free_port(rt)?;
    let mut ports = handed_ports_of(rt, listen, peer, 0, moment)?;
    ports.close_after(1_000);
    let client = send_one(rt, listen, b"1").ok()?;
    keeps_peer_alone(&mut ports, moment, listen, producer, &client)
}

/// Returns what `keeps_producer` returns for a new peer.
fn keeps_peer(rt: &impl Net, moment: &Cell<u64>) -> Option<bool> {
    keeps_producer(rt, moment, &bound_socket(rt)?)
}

/// A peer that is silent for a day keeps its face. The face of a silent client closes, and the next
/// face has another number.
#[test]
fn udp_silent_peer(rt: HostRuntime) {
    assert!(rt; keeps_peer(&rt, &Cell::new(0)) == Some(true));
}

/// Opens face 2 for `client`, which then sends a datagram before the idle time of face 2 ends.
/// Before the datagram is received, face 1 closes and the idle time of face 2 ends. Returns whether
/// the datagram is received on face 2.
fn hears_in_time(
    ports: &mut UdpPorts<Handed<'_>>,
    moment: &Cell<u64>,
    client: &UdpSocket,
) -> Option<bool> {
    let opened = opens(ports, 2, 1, 1, 2);
    moment.set(1_000);
    client.send(b"333").ok()?;
    let closed = brings_end(ports, 1, 1_000);
    moment.set(1_001);
    Some(opened && closed && brings_packet(ports, 2, 1_001, 3))
}

/// Returns whether face 1 opens for a silent client, and `hears_in_time` returns true for a second
/// client.
fn hears_beside(
    rt: &impl Net,
    ports: &mut UdpPorts<Handed<'_>>,
    moment: &Cell<u64>,
    listen: u16,
    silent: &UdpSocket,
) -> Option<bool> {
    if !opens(ports, 1, 0, 0, 1) || silent.local_addr().is_err() {
        return Some(false);
    }
    moment.set(1);
    let client = send_one(rt, listen, b"22").ok()?;
    hears_in_time(ports, moment, &client)
}

/// Returns what `hears_beside` returns for new ports that close a face after 1,000 milliseconds of
/// silence.
fn hears_what_waits(rt: &impl Net, moment: &Cell<u64>) -> Option<bool> {
    let listen = free_port(rt)?;
    let mut ports = handed_ports(rt, listen, moment)?;
    ports.close_after(1_000);
    let silent = send_one(rt, listen, b"1").ok()?;
    hears_beside(rt, &mut ports, moment, listen, &silent)
}

/// A datagram that comes in time keeps its face open while another face closes.
#[test]
fn udp_waits_while_a_face_closes(rt: HostRuntime) {
    assert!(rt; hears_what_waits(&rt, &Cell::new(0)) == Some(true));
}

/// Returns whether the next arrivals open the faces 1 to `faces`, in this order, at this moment.
fn open_all<M: Moments>(ports: &mut UdpPorts<M>, faces: u64, at: u64) -> bool {
    for face in 0..faces {
        if !brings_face(ports, face.saturating_add(1), at) {
            return false;
        }
    }
    true
}

/// 63 peers have faces, `client` gets the 64th face, and `newcomer` is one more client. Returns
/// whether a send to `newcomer` fails when `client` has been silent for 9,999 milliseconds. After
/// 10,000 milliseconds of silence, the face of `client` must close, and a send to `newcomer` must
/// succeed.
fn gives_way(
    ports: &mut UdpPorts<Handed<'_>>,
    moment: &Cell<u64>,
    client: &UdpSocket,
    newcomer: &UdpSocket,
) -> Option<bool> {
    client.send(b"1").ok()?;
    let full = open_all(ports, 63, 0) && opens(ports, 64, 0, 0, 1);
    moment.set(9_999);
    newcomer.send(b"22").ok()?;
    let refused = opens(ports, 65, 9_999, 9_999, 2) && ports.send(65, b"").is_err();
    moment.set(10_000);
    newcomer.send(b"333").ok()?;
    let closed = brings_end(ports, 64, 10_000) && opens(ports, 66, 10_000, 10_000, 3);
    Some(full && refused && closed && ports.send(66, b"").is_ok() && ports.send(64, b"").is_err())
}

/// Returns a socket that sends packets to the port `to`, and receives packets only from this port.
fn connected(rt: &impl Net, to: u16) -> Option<UdpSocket> {
    let socket = bound_socket(rt)?;
    socket.connect((Ipv4Addr::LOCALHOST, to)).ok()?;
    Some(socket)
}

/// Returns `UdpPorts` with 63 peers, which are at the ports 1 to 63. The clock shows the moment in
/// the cell `moment`.
fn almost_full_ports<'a>(
    rt: &(impl AllocGlobal + Net),
    listen: u16,
    moment: &'a Cell<u64>,
) -> Option<UdpPorts<Handed<'a>>> {
    let mut peers = sixty_four_ports(rt.alloc())?;
    let _last = peers.pop();
    if peers.len() > 64 {
        return None;
    }
    UdpPorts::bind(rt, listen, peers.as_slice(), 0, Handed { moment, last: 0 }).ok()
}

/// Returns what `gives_way` returns for two new sockets.
fn makes_room(
    rt: &impl Net,
    ports: &mut UdpPorts<Handed<'_>>,
    moment: &Cell<u64>,
    listen: u16,
) -> Option<bool> {
    let client = connected(rt, listen)?;
    let newcomer = connected(rt, listen)?;
    gives_way(ports, moment, &client, &newcomer)
}

/// Returns what `makes_room` returns for new ports with 63 peers.
fn is_room_made(rt: &(impl AllocGlobal + Net), moment: &Cell<u64>) -> Option<bool> {
    let listen = free_port(rt)?;
    let mut ports = almost_full_ports(rt, listen, moment)?;
    ports.close_after(600_000);
    makes_room(rt, &mut ports, moment, listen)
}

/// A face that was silent for 10 seconds closes to make room for the face of a 65th endpoint, but a
/// face that was silent for 9,999 milliseconds stays open.
#[test]
fn udp_gives_way(rt: HostRuntime) {
    assert!(rt; is_room_made(&rt, &Cell::new(0)) == Some(true));
}

/// Returns whether an Interest goes to a producer while the producer's face is open. Once this face
/// has closed, the same Interest must come back as a Nack.
fn goes_until_closed(
    alloc: Global,
    node: &mut Node,
    ports: &mut UdpPorts<Handed<'_>>,
    moment: &Cell<u64>,
    listen: u16,
    operator: &UdpSocket,
    producer: &UdpSocket,
) -> bool {
    let routed = sends(alloc, producer, listen, "D_A")
        && sends(alloc, operator, listen, "ADD")
        && sends(alloc, operator, listen, "INTEREST")
        && passes(alloc, node, ports, 5)
        && hears(alloc, operator, "ADDED")
        && hears(alloc, producer, "INTEREST");
    moment.set(1_600_000);
    routed
        && sends(alloc, operator, listen, "INTEREST")
        && passes(alloc, node, ports, 2)
        && hears(alloc, operator, "NO_ROUTE")
}

/// Returns what `goes_until_closed` returns for new ports with one peer, the operator.
fn loses_route_to(
    rt: &(impl AllocGlobal + Net),
    node: &mut Node,
    moment: &Cell<u64>,
    operator: &UdpSocket,
    producer: &UdpSocket,
) -> Option<bool> {
    let peer = port_of(operator)?;
    let listen = free_port(rt)?;
    let mut ports = handed_ports_of(rt, listen, peer, 1, moment)?;
    ports.close_after(600_000);
    let alloc = rt.alloc();
    Some(goes_until_closed(alloc, node, &mut ports, moment, listen, operator, producer))
}

/// Returns what `loses_route_to` returns for a node and two new sockets.
fn node_loses_route(
    rt: &(impl AllocGlobal + Net),
    node: &mut Node,
    moment: &Cell<u64>,
) -> Option<bool> {
    let operator = bound_socket(rt)?;
    let producer = bound_socket(rt)?;
    loses_route_to(rt, node, moment, &operator, &producer)
}

/// Returns whether a route is removed when its face closes.
fn loses_route(rt: &(impl AllocGlobal + Net), moment: &Cell<u64>) -> Option<bool> {
    on_node(rt.alloc(), &|_, node| node_loses_route(rt, node, moment))
}

#[test]
fn udp_route_of_a_closed_face(rt: HostRuntime) {
    assert!(rt; loses_route(&rt, &Cell::new(1_000_000)) == Some(true));
}

//! Tests that show which endpoints get a face, and from which endpoints datagrams are ignored. An
//! endpoint is an address and a port. A stranger is an endpoint that is not a peer.

use super::udp::{
    Moving, bound_socket, brings_face, brings_packet, free_port, hears_octets, moving_ports,
    next_of, opens, port_of,
};
use node_ports::{Ports, UdpPorts};
use std::net::{Ipv4Addr, Ipv6Addr, Net, SocketAddr, UdpSocket};

/// Returns the endpoint with this port at the address 127.0.0.1.
fn loopback(port: u16) -> SocketAddr {
    SocketAddr::from((Ipv4Addr::LOCALHOST, port))
}

/// Returns a socket that is bound to this port of 127.0.0.2, or to a free port if `port` is 0.
fn bound_elsewhere(rt: &impl Net, port: u16) -> Option<UdpSocket> {
    UdpSocket::bind(rt, (Ipv4Addr::new(127, 0, 0, 2), port)).ok()
}

/// Returns whether two sockets with the same port at different addresses get different faces.
fn parts_sockets(
    ports: &mut UdpPorts<Moving>,
    listen: u16,
    first: &UdpSocket,
    second: &UdpSocket,
) -> Option<bool> {
    first.send_to(b"1", loopback(listen)).ok()?;
    second.send_to(b"22", loopback(listen)).ok()?;
    let opened = opens(ports, 1, 1, 2, 1) && opens(ports, 2, 3, 4, 2);
    let sent = ports.send(2, b"to two").is_ok() && ports.send(1, b"to one").is_ok();
    let heard = hears_octets(first, b"to one") && hears_octets(second, b"to two");
    let named = ports.endpoint_of(1) == Some(loopback(port_of(first)?))
        && ports.endpoint_of(2) == Some(second.local_addr().ok()?);
    Some(opened && sent && heard && named && ports.endpoint_of(3).is_none())
}

/// Returns what `parts_sockets` returns for two new sockets.
fn parts_two(rt: &impl Net, ports: &mut UdpPorts<Moving>, listen: u16) -> Option<bool> {
    let first = bound_socket(rt)?;
    let second = bound_elsewhere(rt, port_of(&first)?)?;
    parts_sockets(ports, listen, &first, &second)
}

/// Returns what `parts_two` returns for new ports.
fn parts_addresses(rt: &impl Net) -> Option<bool> {
    let listen = free_port(rt)?;
    parts_two(rt, &mut moving_ports(rt, listen)?, listen)
}

#[test]
fn endpoint_is_address_and_port(rt: HostRuntime) {
    assert!(rt; parts_addresses(&rt) == Some(true));
}

/// Returns whether a peer has a face from the start, and receives what is sent to this face.
fn serves_peer(ports: &mut UdpPorts<Moving>, listen: SocketAddr, peer: &UdpSocket) -> Option<bool> {
    peer.send_to(b"333", listen).ok()?;
    let came = brings_face(ports, 1, 1) && brings_packet(ports, 1, 2, 3);
    Some(came && ports.send(1, b"back").is_ok() && hears_octets(peer, b"back"))
}

/// Returns what `serves_peer` returns for new ports with this peer.
fn knows(rt: &impl Net, peer: &UdpSocket) -> Option<bool> {
    let endpoint = peer.local_addr().ok()?;
    let listen = loopback(free_port(rt)?);
    let mut ports = UdpPorts::bind_at(rt, listen, &[endpoint], 0, Moving { last: 0 }).ok()?;
    serves_peer(&mut ports, listen, peer)
}

/// Returns what `knows` returns for a peer at 127.0.0.2.
fn knows_peer(rt: &impl Net) -> Option<bool> {
    knows(rt, &bound_elsewhere(rt, 0)?)
}

#[test]
fn endpoint_of_a_peer(rt: HostRuntime) {
    assert!(rt; knows_peer(&rt) == Some(true));
}

/// Returns an endpoint of ::1 to which no socket is bound.
fn free_endpoint(rt: &impl Net) -> Option<SocketAddr> {
    let free = UdpSocket::bind(rt, (Ipv6Addr::LOCALHOST, 0)).ok()?;
    free.local_addr().ok()
}

/// Returns whether a datagram of a client opens a face and arrives on this face. The client must
/// receive what is sent to the face.
fn serves_client(
    ports: &mut UdpPorts<Moving>,
    listen: SocketAddr,
    client: &UdpSocket,
) -> Option<bool> {
    client.send_to(b"4444", listen).ok()?;
    let opened = opens(ports, 1, 1, 2, 4);
    Some(opened && ports.send(1, b"six").is_ok() && hears_octets(client, b"six"))
}

/// Returns what `serves_client` returns for ports of ::1 and a client at ::1.
fn serves_version_six(rt: &impl Net, client: &UdpSocket) -> Option<bool> {
    let listen = free_endpoint(rt)?;
    let mut ports = UdpPorts::bind_at(rt, listen, &[], 0, Moving { last: 0 }).ok()?;
    serves_client(&mut ports, listen, client)
}

/// Returns what `serves_version_six` returns for a new client. If no socket can be bound to ::1,
/// tests nothing and returns true.
fn serves_where_there_is_one(rt: &impl Net) -> Option<bool> {
    match UdpSocket::bind(rt, (Ipv6Addr::LOCALHOST, 0)) {
        Ok(client) => serves_version_six(rt, &client),
        Err(_) => Some(true),
    }
}

#[test]
fn endpoint_of_version_six(rt: HostRuntime) {
    assert!(rt; serves_where_there_is_one(&rt) == Some(true));
}

/// Returns ports with one peer.
fn ports_of_peer(rt: &impl Net, listen: u16, peer: u16) -> Option<UdpPorts<Moving>> {
    UdpPorts::bind(rt, listen, &[peer], 0, Moving { last: 0 }).ok()
}

/// Returns whether datagrams from a stranger are dropped and counted, while datagrams from a peer
/// are handled.
fn ignores_stranger(
    ports: &mut UdpPorts<Moving>,
    listen: SocketAddr,
    known: &UdpSocket,
    stranger: &UdpSocket,
) -> Option<bool> {
    let opened = brings_face(ports, 1, 1);
    stranger.send_to(b"1", listen).ok()?;
    stranger.send_to(b"22", listen).ok()?;
    known.send_to(b"333", listen).ok()?;
    let heard = brings_packet(ports, 1, 2, 3) && ports.strangers() == 2;
    stranger.send_to(b"4444", listen).ok()?;
    let nothing = next_of(ports, true).is_none() && ports.strangers() == 3;
    known.send_to(b"55555", listen).ok()?;
    Some(opened && heard && nothing && brings_packet(ports, 1, 3, 5))
}

/// Returns what `ignores_stranger` returns for new ports with this peer.
fn ignores_all_but(rt: &impl Net, known: &UdpSocket, stranger: &UdpSocket) -> Option<bool> {
    let peer = port_of(known)?;
    let listen = free_port(rt)?;
    let mut ports = ports_of_peer(rt, listen, peer)?;
    ports.ignore_strangers();
    ignores_stranger(&mut ports, loopback(listen), known, stranger)
}

/// Returns what `ignores_all_but` returns for two new sockets.
fn ignores_strangers(rt: &impl Net) -> Option<bool> {
    let known = bound_socket(rt)?;
    let stranger = bound_socket(rt)?;
    ignores_all_but(rt, &known, &stranger)
}

#[test]
fn endpoint_of_a_stranger(rt: HostRuntime) {
    assert!(rt; ignores_strangers(&rt) == Some(true));
}

/// Returns whether a datagram from a stranger opens a face and arrives on it. The ports must not
/// ignore strangers.
fn accepts_stranger(
    ports: &mut UdpPorts<Moving>,
    listen: u16,
    stranger: &UdpSocket,
) -> Option<bool> {
    let opened = brings_face(ports, 1, 1);
    stranger.send_to(b"1", loopback(listen)).ok()?;
    Some(opened && opens(ports, 2, 2, 3, 1) && ports.strangers() == 0)
}

/// Returns what `accepts_stranger` returns for new ports with this peer.
fn accepts_beside(rt: &impl Net, known: &UdpSocket, stranger: &UdpSocket) -> Option<bool> {
    let peer = port_of(known)?;
    let listen = free_port(rt)?;
    accepts_stranger(&mut ports_of_peer(rt, listen, peer)?, listen, stranger)
}

/// Returns what `accepts_beside` returns for two new sockets.
fn accepts_strangers(rt: &impl Net) -> Option<bool> {
    let known = bound_socket(rt)?;
    let stranger = bound_socket(rt)?;
    accepts_beside(rt, &known, &stranger)
}

#[test]
fn endpoint_of_a_newcomer(rt: HostRuntime) {
    assert!(rt; accepts_strangers(&rt) == Some(true));
}

//! Reads the peers.

ghost use Rattle.std.specs.Prelude.{◌≡◌, ◌≢◌, ◌↔◌, ◌<◌, ◌≤◌, All, IfOk, IsTrue, count_by, length, map, string_bytes};
ghost use Rattle.std.specs.Net.Addr.{is_ipv4};
ghost use Rattle.std.specs.Net.Socket.{socket_ip};
ghost use Rattle.info_rules.specs.Shown.{key_of, keys_of};
ghost use Rattle.node_config.specs.Endpoint.{IsItself, IsLoopback, IsUnspecified};
ghost use Rattle.node_config.specs.Peers.{EndpointOf, IsNameOctet, IsPeerName, NameOf, PeerOf, PeersOf, PlaceOf, ScopeOf, UriOf};
ghost use Rattle.node_config.specs.Plain.{is_local, plain_peer};
ghost use Rattle.node_config.specs.Reading.{Meets, Needs};

use crate::block::{block_at, check_keys};
use crate::config::{Config, Peer, Scope};
use crate::fault::{ConfigFault, ConfigFaultKind};
use crate::value::value_or;
use crate::words::face_uri_of;
use info_rules::{Key, Keys};
use std::alloc::{AllocError, Global};
use std::net::SocketAddr;

/// The greatest number of peers.
const MAX_PEERS: usize = 64;

/// The greatest length of a peer's name, in octets.
const MAX_NAME: usize = 64;

/// Returns whether the address is a loopback address, with which other machines cannot communicate.
fn is_loopback(endpoint: &SocketAddr) -> bool
    ensures { IsTrue result ↔ IsLoopback endpoint.now }
{
    endpoint.ip().is_loopback()
}

/// Returns whether the address is unspecified: 0.0.0.0 or ::.
fn is_unspecified(endpoint: &SocketAddr) -> bool
    ensures { IsTrue result ↔ IsUnspecified endpoint.now }
{
    endpoint.ip().is_unspecified()
}

/// Returns whether the peer is the node itself, whose endpoint for UDP is `own`. If `own` has the
/// unspecified address, a peer with a loopback address and the same port is the node itself.
fn is_itself(own: &SocketAddr, peer: &SocketAddr) -> bool
    ensures { IsTrue result ↔ IsItself own.now peer.now }
{
    peer.port() == own.port()
        && (peer.ip() == own.ip() || (is_unspecified(own) && is_loopback(peer)))
}

/// Returns whether the octet may be in a peer's name.
fn is_name_octet(octet: u8) -> bool
    ensures { IsTrue result ↔ IsNameOctet octet }
{
    octet.is_ascii_alphanumeric() || matches!(octet, b'-' | b'_' | b'.')
}

/// Returns whether the text may be a peer's name.
fn is_peer_name(text: &str) -> bool
    ensures { IsTrue result ↔ IsPeerName text.now }
{
    !text.is_empty()
        && text.len() <= MAX_NAME
        && text.as_bytes().iter().all(|octet| is_name_octet(*octet))
}

/// Returns whether one more peer can follow the peers in `before`.
fn has_room(before: &[Peer]) -> bool
    ensures { IsTrue result ↔ (length (map plain_peer before.now) < 64) }
{
    before.len() < MAX_PEERS
}

/// Returns whether the peer has this name.
fn is_named(peer: &Peer, name: &str) -> bool
    ensures { IsTrue result ↔ (string_bytes peer.now.name ≡ name.now) }
{
    peer.name.as_str() == name
}

/// Returns whether no peer in `before` has this name.
fn is_new_name(before: &[Peer], name: &str) -> bool
    ensures { IsTrue result ↔ All (λ peer. string_bytes peer.name ≢ name.now) before.now }
{
    !before.iter().any(|peer| is_named(peer, name))
}

/// Returns whether the peer has this endpoint.
fn is_at(peer: &Peer, endpoint: &SocketAddr) -> bool
    ensures { IsTrue result ↔ (peer.now.endpoint ≡ endpoint.now) }
{
    peer.endpoint == *endpoint
}

/// Returns whether no peer in `before` has this endpoint.
fn is_new_endpoint(before: &[Peer], endpoint: &SocketAddr) -> bool
    ensures { IsTrue result ↔ All (λ peer. peer.endpoint ≢ endpoint.now) before.now }
{
    !before.iter().any(|peer| is_at(peer, endpoint))
}

/// Returns whether the peer is Local.
fn is_local_peer(peer: &Peer) -> bool
    ensures { IsTrue result ↔ (peer.now.scope ≡ Scope.Local) }
{
    matches!(peer.scope, Scope::Local)
}

/// Returns whether all peers in `before` are Local.
fn are_local(before: &[Peer]) -> bool
    ensures { IsTrue result ↔ All (λ peer. peer.scope ≡ Scope.Local) before.now }
{
    before.iter().all(|peer| is_local_peer(peer))
}

/// Returns whether the peer is not the node itself, whose endpoint for UDP is `own`.
fn is_other(own: &SocketAddr, peer: &SocketAddr) -> bool
    ensures { IsTrue result ↔ ¬ (IsItself own.now peer.now) }
{
    !is_itself(own, peer)
}

/// Returns whether the address is that of a machine.
fn is_specified(endpoint: &SocketAddr) -> bool
    ensures { IsTrue result ↔ ¬ (IsUnspecified endpoint.now) }
{
    !is_unspecified(endpoint)
}

/// Returns whether the two addresses are of one family.
fn are_of_one_family(own: &SocketAddr, endpoint: &SocketAddr) -> bool
    ensures { IsTrue result
        ↔ (is_ipv4 (socket_ip endpoint.now) ≡ is_ipv4 (socket_ip own.now)) }
{
    endpoint.is_ipv4() == own.is_ipv4()
}

/// Returns whether a peer with this endpoint can have the scope.
fn may_have(scope: Scope, endpoint: &SocketAddr) -> bool
    ensures { IsTrue result ↔ (scope ≡ Scope.Local → IsLoopback endpoint.now) }
{
    match scope {
        Scope::Local => is_loopback(endpoint),
        Scope::Far => true,
    }
}

/// Returns whether a peer with this scope can follow the peers in `before`.
fn may_follow(scope: Scope, before: &[Peer]) -> bool
    ensures { IsTrue result
        ↔ (scope ≡ Scope.Local → All (λ peer. peer.scope ≡ Scope.Local) before.now) }
{
    match scope {
        Scope::Local => are_local(before),
        Scope::Far => true,
    }
}

/// Returns the fault, unless `right` is true.
fn unless(right: bool, fault: ConfigFault) -> Result<(), ConfigFault>
    ensures { Needs (IsTrue right) fault result }
{
    if right { Ok(()) } else { Err(fault) }
}

/// Checks that a peer can follow the peers in `before`: the number of peers, and the peer's name.
fn check_name(before: &[Peer], name: &str, line: u32) -> Result<(), ConfigFault>
    ensures { NameOf (map plain_peer before.now) name.now line result }
{
    unless(has_room(before), ConfigFaultKind::TooManyPeers.at(line))?;
    unless(is_peer_name(name), ConfigFaultKind::BadPeerName.at(line))?;
    unless(
        is_new_name(before, name),
        ConfigFaultKind::NameTwice.at(line),
    )
}

/// Checks that a node with the endpoint `own` can have this peer after the peers in `before`.
fn check_endpoint(
    own: &SocketAddr,
    before: &[Peer],
    endpoint: &SocketAddr,
    line: u32,
) -> Result<(), ConfigFault>
    ensures { EndpointOf own.now (map plain_peer before.now) endpoint.now line result }
{
    unless(
        is_new_endpoint(before, endpoint),
        ConfigFaultKind::UriTwice.at(line),
    )?;
    unless(is_other(own, endpoint), ConfigFaultKind::OwnUri.at(line))?;
    unless(is_specified(endpoint), ConfigFaultKind::NoAddress.at(line))?;
    unless(
        are_of_one_family(own, endpoint),
        ConfigFaultKind::OtherFamily.at(line),
    )
}

/// Checks that a peer with this scope and this endpoint can follow the peers in `before`.
fn check_scope(
    before: &[Peer],
    endpoint: &SocketAddr,
    scope: Scope,
    line: u32,
) -> Result<(), ConfigFault>
    ensures { PlaceOf (map plain_peer before.now) endpoint.now scope line result }
{
    unless(
        may_have(scope, endpoint),
        ConfigFaultKind::NotLoopback.at(line),
    )?;
    unless(
        may_follow(scope, before),
        ConfigFaultKind::LocalAfterFar.at(line),
    )
}

/// Reads the FaceUri of a peer.
fn read_uri(key: Key<'_>) -> Result<SocketAddr, ConfigFault>
    ensures { UriOf (key_of key.entry) result }
{
    let Some(uri) = key.own.value.as_deref() else {
        return Err(ConfigFaultKind::BadShape.at(key.own.line));
    };
    match face_uri_of(uri) {
        Some(endpoint) => Ok(endpoint),
        None => Err(ConfigFaultKind::BadFaceUri.at(key.own.line)),
    }
}

/// Reads the scope of a peer from the keys of its block: Far if there is no key `scope`.
fn read_scope(keys: Keys<'_>) -> Result<Scope, ConfigFault>
    ensures { ScopeOf (keys_of keys.entry) result }
{
    check_keys(&["scope"], keys)?;
    value_or(keys, "scope", ConfigFaultKind::BadWord, Scope::Far)
}

/// Reads the endpoint and the scope of a peer that follows the peers in `before`.
fn read_peer(
    own: &SocketAddr,
    before: &[Peer],
    key: Key<'_>,
) -> Result<(SocketAddr, Scope), ConfigFault>
    ensures { PeerOf own.now (map plain_peer before.now) (key_of key.entry) result }
{
    let line = key.own.line;
    check_name(before, key.own.key.as_str(), line)?;
    let endpoint = read_uri(key)?;
    let scope = read_scope(key.keys(2))?;
    check_endpoint(own, before, &endpoint, line)?;
    check_scope(before, &endpoint, scope, line)?;
    Ok((endpoint, scope))
}

/// Reads the block `peers` of a node with the endpoint `own`. `file` has the keys of the file.
pub fn read_peers(alloc: Global, own: &SocketAddr, file: Keys<'_>) -> Result<Vec<Peer>, ConfigFault>
    ensures meets { Meets (PeersOf own.now (keys_of file.entry))
        (λ peers. map plain_peer peers.items) result }
    ensures few { IfOk result (λ peers. length peers.items ≤ 64) }
{
    let mut peers = Vec::new(alloc);
    let mut left = block_at(file, "peers")?;
    while let Some((key, others)) = left.split_first() {
        let (endpoint, scope) = read_peer(own, &peers, key)?;
        let name = String::from_str(alloc, key.own.key.as_str())?;
        peers.push(Peer {
            name,
            endpoint,
            scope,
        })?;
        left = others;
    }
    Ok(peers)
}

/// Returns the endpoints of the peers, in order.
fn endpoints_in(alloc: Global, peers: &[Peer]) -> Result<Vec<SocketAddr>, AllocError>
    ensures { IfOk result (λ found. found.items ≡ map (λ peer. peer.endpoint) peers.now) }
{
    peers.iter().map(|peer| peer.endpoint).collect(alloc)
}

/// Returns whether the scope is Local.
fn is_local_scope(scope: Scope) -> bool
    ensures { result ≡ is_local scope }
{
    match scope {
        Scope::Local => true,
        Scope::Far => false,
    }
}

/// Returns the number of Local peers.
fn local_in(peers: &[Peer]) -> usize
    ensures { result ≡ count_by (λ peer. is_local peer.scope) peers.now }
{
    peers
        .iter()
        .filter(|peer| is_local_scope(peer.scope))
        .count()
}

impl Config {
    ghost use Rattle.std.specs.Prelude.{◌≡◌, IfOk, count_by, map};
    ghost use Rattle.node_config.specs.Plain.{is_local, plain_config};

    /// Returns the endpoints of the peers, in order.
    #[tactic(auto, using(crate::proofs::PeerSteps::endpoints_shown))]
    pub fn endpoints(&self, alloc: Global) -> Result<Vec<SocketAddr>, AllocError>
        ensures { IfOk result
            (λ found. found.items ≡ map (λ peer. peer.endpoint) (plain_config self.now).peers) }
    {
        endpoints_in(alloc, &self.peers)
    }

    /// Returns the number of Local peers. They are the first peers.
    #[tactic(auto, using(crate::proofs::PeerSteps::local_shown))]
    pub fn count_local(&self) -> usize
        ensures { result ≡ count_by (λ peer. is_local peer.scope) (plain_config self.now).peers }
    {
        local_in(&self.peers)
    }
}

//! The options of a node that listens on a port.
ghost use Rattle.std.specs.Prelude.{◌≡◌, ◌⊎◌, ◌↔◌, ℕ, IfOk, IsTrue, MatchOption, codes, map, option_map, string_bytes};
ghost use Rattle.std.specs.List.{list_all};
ghost use Rattle.websocket_requests.specs.Origin.{is_origin};
ghost use Rattle.ndn_daemon.specs.Endpoint.{AreEndpoints, IsEndpoint, IsItself, IsLoopback, IsPort, IsUnspecified, MayBePeersOf};
ghost use Rattle.ndn_daemon.specs.Options.{Reads, ReadsInMemory, rows_in, value_at};
ghost use Rattle.ndn_daemon.specs.UdpOptions.{AreOrigins, Connects, Has, IsBadValue, IsFlag, IsLocal, IsLog, IsNumber, IsSeconds, IsUdpOptions, MayBeEndpoint, MayBePagesOf, all_addresses, flag_at, values_at};

use crate::fault::Fault;
use crate::options::{given_or, path_of, value};
use clap::ArgMatches;
use node_core::{MAX_FACES, RunFault};
use std::alloc::{AllocError, Global};
use std::net::{IpAddr, Ipv4Addr, SocketAddr};
use websocket_requests::is_origin;

/// How many origins a node can list.
const MAX_ORIGINS: usize = 16;

/// The events that are logged on standard error.
#[derive(Clone, Copy, Debug, PartialEq, Eq)]
pub enum LogLevel {
    /// No events.
    None,
    /// All events except plain events (`ndn_log::is_plain`).
    Events,
    /// Every event.
    All,
}

/// The options of a node on a port.
#[derive(Debug, Drop)]
pub struct UdpOptions {
    /// The address and the port that the node listens on.
    pub listen: SocketAddr,
    /// The number of turns that the node takes.
    pub turns: u64,
    /// The addresses and ports of the peers. There are at most 64 peers, and no two peers are
    /// equal. All peers have the address family of `listen`. No peer is the node itself, as
    /// `is_itself` decides, and no peer has the unspecified address.
    pub peers: Vec<SocketAddr>,
    /// The number of Local peers. It is at most the number of peers. The Local peers come first in
    /// `peers`, and they are on this machine.
    pub local: u64,
    /// The idle time in seconds, at least 1, after which a face that does not belong to a peer
    /// closes.
    pub idle: u32,
    /// Whether datagrams from endpoints that are not peers are accepted even if `listen` is not a
    /// loopback address.
    pub open: bool,
    /// The events that are logged.
    pub log: LogLevel,
    /// The path of the journal. Without a journal, the node stores nothing for the next start.
    pub journal: Option<String>,
    /// Whether the node prints no answers.
    pub quiet: bool,
    /// The address and the port on which the node listens for TCP connections, if it does.
    pub tcp: Option<SocketAddr>,
    /// The path of the Unix socket on which the node listens for connections, if it does.
    pub unix: Option<String>,
    /// The address and the port on which the node listens for WebSocket connections, if it does.
    pub websocket: Option<SocketAddr>,
    /// The origins of the web pages that may connect over WebSocket, as `is_origin` decides: from 1
    /// to 16 if the node listens for such connections, and else none.
    pub origins: Vec<String>,
}

impl UdpOptions {
    /// Returns what the node warns of when it starts, or `None`. A node that listens on all
    /// addresses (0.0.0.0 or ::) sends from an address that the system chooses.
    pub fn warning(&self) -> Option<&'static str>
        ensures { MatchOption result (¬ IsUnspecified self.now.listen)
            (λ text. IsUnspecified self.now.listen × (text.now ≡ all_addresses)) }
    {
        if is_unspecified(&self.listen) {
            Some(
                "the system chooses the address from which answers leave: with several addresses, listen on one",
            )
        } else {
            None
        }
    }

    /// Reads the options from the parsed command line.
    pub fn read(alloc: Global, found: &ArgMatches<'_>) -> Result<UdpOptions, Fault>
        ensures { ReadsInMemory (IsUdpOptions (rows_in found.now)) result }
    {
        let listen = required_endpoint(found)?;
        let turns = required_number(found)?;
        let peers = given_peers(alloc, found)?;
        check_peers(&listen, peers.as_slice())?;
        let local = local_of(given_or("0", value(found, "local")), peers.as_slice())?;
        let idle = seconds_of(given_or("600", value(found, "idle")))?;
        let log = log_of(value(found, "log"))?;
        let journal = path_of(alloc, value(found, "journal"))?;
        let tcp = given_endpoint("--tcp", value(found, "tcp"))?;
        let unix = path_of(alloc, value(found, "unix"))?;
        let websocket = given_endpoint("--websocket", value(found, "websocket"))?;
        let origins = given_origins(alloc, found)?;
        check_pages(&websocket, origins.as_slice())?;
        Ok(UdpOptions {
            listen,
            turns,
            peers,
            local,
            idle,
            open: flag(found, "open"),
            log,
            journal,
            quiet: flag(found, "quiet"),
            tcp,
            unix,
            websocket,
            origins,
        })
    }

    /// Returns whether the node listens for connections: over TCP, on a Unix socket, or for
    /// WebSocket.
    pub fn connects(&self) -> bool
        ensures { IsTrue result ↔ Connects self.now }
    {
        self.tcp.is_some() || self.unix.is_some() || self.websocket.is_some()
    }

    /// Returns whether datagrams from endpoints that are not peers are accepted. They are accepted
    /// if `--open` is given, or if the node listens on a loopback address, to which only this
    /// machine can send.
    pub fn accepts_strangers(&self) -> bool
        ensures { IsTrue result ↔ (IsTrue self.now.«open» ⊎ IsLoopback self.now.listen) }
    {
        self.open || is_loopback(&self.listen)
    }
}

fn required_endpoint(found: &ArgMatches<'_>) -> Result<SocketAddr, Fault>
    ensures { Reads (Has (value_at (rows_in found.now) (codes "listen")) IsEndpoint) result }
{
    match value(found, "listen") {
        Some(text) => endpoint_of("--listen", text),
        None => Err(bad_endpoint("--listen")),
    }
}

fn required_number(found: &ArgMatches<'_>) -> Result<u64, Fault>
    ensures { Reads (Has (value_at (rows_in found.now) (codes "turns")) IsNumber) result }
{
    match value(found, "turns") {
        Some(digits) => number_of("--turns", digits),
        None => Err(bad_number("--turns")),
    }
}

/// Returns whether a flag is present.
fn flag(found: &ArgMatches<'_>, id: &str) -> bool
    ensures { IsFlag (flag_at (rows_in found.now) id.now) result }
{
    found.get_flag(id)
}

/// Reads the address and the port that are given for an option, if it is present.
fn given_endpoint(place: &'static str, text: Option<&str>) -> Result<Option<SocketAddr>, Fault>
    ensures { Reads (MayBeEndpoint (option_map (λ text. text.now) text.entry)) result }
{
    match text {
        Some(text) => Ok(Some(endpoint_of(place, text)?)),
        None => Ok(None),
    }
}

fn given_peers(alloc: Global, found: &ArgMatches<'_>) -> Result<Vec<SocketAddr>, Fault>
    ensures { ReadsInMemory (λ peers. AreEndpoints (values_at (rows_in found.now) (codes "PEERS"))
        peers.items) result }
{
    match found.get_raw("PEERS") {
        Some(texts) => peers_of(alloc, texts),
        None => Ok(Vec::new(alloc)),
    }
}

/// Reads the addresses and ports of the peers, in order.
fn peers_of(alloc: Global, texts: &[&str]) -> Result<Vec<SocketAddr>, Fault>
    ensures { ReadsInMemory
        (λ peers. AreEndpoints (map (λ text. text.now) texts.now) peers.items) result }
{
    if texts.len() > MAX_FACES {
        return Err(Fault::BadValue {
            place: "PEERS",
            wanted: "at most 64 peers",
        });
    }
    let mut peers = Vec::new(alloc);
    for text in texts {
        let peer = endpoint_of("PEERS", text)?;
        if peers.as_slice().contains(&peer) {
            return Err(Fault::BadValue {
                place: "PEERS",
                wanted: "each peer once",
            });
        }
        let Ok(()) = peers.push(peer) else {
            return Err(Fault::Script(RunFault::Memory));
        };
    }
    Ok(peers)
}

fn given_origins(alloc: Global, found: &ArgMatches<'_>) -> Result<Vec<String>, Fault>
    ensures { ReadsInMemory (λ origins. AreOrigins (values_at (rows_in found.now) (codes "origin"))
        origins.items) result }
{
    match found.get_raw("origin") {
        Some(texts) => origins_of(alloc, texts),
        None => Ok(Vec::new(alloc)),
    }
}

/// Reads the origins, in order.
fn origins_of(alloc: Global, texts: &[&str]) -> Result<Vec<String>, Fault>
    ensures { ReadsInMemory
        (λ origins. AreOrigins (map (λ text. text.now) texts.now) origins.items) result }
{
    if texts.len() > MAX_ORIGINS || !are_origins(texts) {
        return Err(Fault::BadValue {
            place: "--origin",
            wanted: "at most 16 origins as browsers send them, such as https://example.org or http://localhost:8080, without a path and in lower case",
        });
    }
    Ok(copied(alloc, texts)?)
}

/// Returns whether each text has the form of an origin.
fn are_origins(texts: &[&str]) -> bool
    ensures { result ≡ list_all (λ text. is_origin text.now) texts.now }
{
    texts.iter().all(|text| is_origin(text))
}

/// Copies texts, in order.
fn copied(alloc: Global, texts: &[&str]) -> Result<Vec<String>, AllocError>
    ensures { IfOk result
        (λ copies. map string_bytes copies.items ≡ map (λ text. text.now) texts.now) }
{
    let mut copies = Vec::new(alloc);
    for text in texts {
        copies.push(String::from_str(alloc, text)?)?;
    }
    Ok(copies)
}

/// Checks that origins are given exactly if the node listens for WebSocket connections.
fn check_pages(websocket: &Option<SocketAddr>, origins: &[String]) -> Result<(), Fault>
    ensures { Reads (λ _. MayBePagesOf websocket.now origins.now) result }
{
    if websocket.is_some() && origins.is_empty() {
        return Err(Fault::BadValue {
            place: "--websocket",
            wanted: "also --origin, with the origin of each web page that may connect",
        });
    }
    if websocket.is_none() && !origins.is_empty() {
        return Err(Fault::BadValue {
            place: "--origin",
            wanted: "also --websocket, with the endpoint to which web pages connect",
        });
    }
    Ok(())
}

/// Checks that a node that listens on `listen` may have these peers.
fn check_peers(listen: &SocketAddr, peers: &[SocketAddr]) -> Result<(), Fault>
    ensures { Reads (λ _. MayBePeersOf listen.now peers.now) result }
{
    if peers.iter().any(|peer| is_itself(listen, peer)) {
        return Err(Fault::BadValue {
            place: "PEERS",
            wanted: "other peers than the node itself, which --listen names",
        });
    }
    if peers.iter().any(is_unspecified) {
        return Err(Fault::BadValue {
            place: "PEERS",
            wanted: "addresses of machines; 0.0.0.0 and :: are not addresses of a machine",
        });
    }
    let is_ipv4 = listen.is_ipv4();
    if !peers.iter().all(|peer| peer.is_ipv4() == is_ipv4) {
        return Err(Fault::BadValue {
            place: "PEERS",
            wanted: "addresses of the family of --listen, since an IPv4 socket cannot send to IPv6, nor an IPv6 socket to IPv4",
        });
    }
    Ok(())
}

/// Returns whether the peer is the node itself, which listens on `listen`. With such a peer, the
/// node would receive its own datagrams. If `listen` has the unspecified address, this function
/// recognizes only this address and the loopback addresses, and none of the machine's other
/// addresses.
fn is_itself(listen: &SocketAddr, peer: &SocketAddr) -> bool
    ensures { IsTrue result ↔ IsItself listen.now peer.now }
{
    peer.port() == listen.port()
        && (peer.ip() == listen.ip() || (is_unspecified(listen) && is_loopback(peer)))
}

/// Reads the number of Local peers. The Local peers come first in `peers`, and they must be on this
/// machine, since a Local peer may send commands under `/localhost`.
fn local_of(digits: &str, peers: &[SocketAddr]) -> Result<u64, Fault>
    ensures { Reads (IsLocal digits.now peers.now) result }
{
    let local = number_of("--local", digits)?;
    if local > peers.len() as u64 {
        return Err(Fault::BadValue {
            place: "--local",
            wanted: "a number that is at most the number of peers",
        });
    }
    if !peers[..local as usize].iter().all(is_loopback) {
        return Err(Fault::BadValue {
            place: "--local",
            wanted: "a number of first peers that are on this machine (127.0.0.0/8 or ::1), since Local peers may send commands",
        });
    }
    Ok(local)
}

/// Returns whether the address is a loopback address, with which other machines cannot communicate.
fn is_loopback(endpoint: &SocketAddr) -> bool
    ensures { IsTrue result ↔ IsLoopback endpoint.now }
{
    endpoint.ip().is_loopback()
}

/// Returns whether the address is unspecified: 0.0.0.0 or ::.
fn is_unspecified(endpoint: &SocketAddr) -> bool
    ensures { IsTrue result ↔ IsUnspecified endpoint.now }
{
    endpoint.ip().is_unspecified()
}

/// Reads a number of seconds from 1 to 2^32 - 1 in decimal digits. Leading zeros are allowed.
fn seconds_of(digits: &str) -> Result<u32, Fault>
    ensures { Reads (IsSeconds digits.now) result }
{
    if !digits.starts_with('+')
        && let Ok(seconds) = digits.parse::<u32>()
        && seconds > 0
    {
        return Ok(seconds);
    }
    Err(Fault::BadValue {
        place: "--idle",
        wanted: "a decimal number of seconds from 1 to 4294967295",
    })
}

/// Returns the log level for the value of `--log`. No events are logged if the option is absent.
fn log_of(level: Option<&str>) -> Result<LogLevel, Fault>
    ensures { Reads (IsLog (option_map (λ level. level.now) level.entry)) result }
{
    let Some(level) = level else {
        return Ok(LogLevel::None);
    };
    if level == "events" {
        Ok(LogLevel::Events)
    } else if level == "all" {
        Ok(LogLevel::All)
    } else {
        Err(Fault::BadValue {
            place: "--log",
            wanted: "all, events, or no value and then another option",
        })
    }
}

/// Reads an address and a port. A port alone stands for the address 127.0.0.1 with this port.
fn endpoint_of(place: &'static str, text: &str) -> Result<SocketAddr, Fault>
    ensures { Reads (IsEndpoint text.now) result }
{
    if let Some(port) = port_of(text) {
        return Ok(SocketAddr::new(IpAddr::V4(Ipv4Addr::LOCALHOST), port));
    }
    let Ok(endpoint) = text.parse::<SocketAddr>() else {
        return Err(bad_endpoint(place));
    };
    if endpoint.port() == 0 {
        return Err(bad_endpoint(place));
    }
    Ok(endpoint)
}

/// Reads a port from 1 to 65535 in decimal digits. Leading zeros are allowed. Returns `None` for
/// any other text.
fn port_of(digits: &str) -> Option<u16>
    ensures { MatchOption result ((n : ℕ) → IsPort digits.now n → ⊥) (IsPort digits.now) }
{
    // `parse` would accept a plus sign before the digits.
    if !digits.starts_with('+')
        && let Ok(port) = digits.parse::<u16>()
        && port > 0
    {
        return Some(port);
    }
    None
}

/// Reads a number below 2^64 in decimal digits. Leading zeros are allowed.
fn number_of(place: &'static str, digits: &str) -> Result<u64, Fault>
    ensures { Reads (IsNumber digits.now) result }
{
    if !digits.starts_with('+')
        && let Ok(number) = digits.parse::<u64>()
    {
        return Ok(number);
    }
    Err(bad_number(place))
}

fn bad_endpoint(place: &'static str) -> Fault
    ensures { IsBadValue result }
{
    Fault::BadValue {
        place,
        wanted: "a decimal port from 1 to 65535, or an address and a port, such as 192.0.2.1:6363 or [2001:db8::1]:6363",
    }
}

fn bad_number(place: &'static str) -> Fault
    ensures { IsBadValue result }
{
    Fault::BadValue {
        place,
        wanted: "a decimal number below 2^64",
    }
}

//! What a configuration file says.

use ndn_names::NameBuf;
use std::net::SocketAddr;

/// The configuration of a node.
#[derive(Debug, Drop)]
pub struct Config {
    pub listen: Listen,
    pub files: Files,
    /// The prefix of the repository.
    pub prefix: NameBuf,
    pub limits: Limits,
    pub log: Log,
    /// The peers, in the order of the file: at most 64. No two have the same name, and no two the
    /// same endpoint. The Local peers come first.
    pub peers: Vec<Peer>,
}

/// Where the node listens.
#[derive(Debug, Drop)]
pub struct Listen {
    /// The endpoint for UDP.
    pub udp: SocketAddr,
    /// The endpoint for connections over TCP, if the node listens for them.
    pub tcp: Option<SocketAddr>,
    /// The path of the Unix socket for connections, if the node listens for them.
    pub unix: Option<String>,
    /// Whether datagrams of strangers are accepted, whatever the endpoint for UDP is.
    pub strangers: bool,
}

/// The paths of the files that the node uses, as the configuration file spells them.
#[derive(Debug, Drop)]
pub struct Files {
    pub rules: Option<String>,
    pub keys: Option<String>,
    pub journal: Option<String>,
}

/// The limits of the node.
#[derive(Clone, Copy, Debug, PartialEq, Eq)]
pub struct Limits {
    /// The greatest number of cached Data, from 1 to 65,536.
    pub cache: u32,
    /// The seconds of silence, at least 1, after which the face of a stranger is idle.
    pub idle: u32,
    /// The number of turns that the node takes.
    pub turns: u64,
}

/// What the node reports.
#[derive(Clone, Copy, Debug, PartialEq, Eq)]
pub struct Log {
    pub level: LogLevel,
    /// Whether the node prints its answers on standard output.
    pub answers: bool,
}

/// The events that are logged on standard error.
#[derive(Clone, Copy, Debug, PartialEq, Eq)]
pub enum LogLevel {
    /// No events.
    None,
    /// All events except plain ones.
    Events,
    /// Every event.
    All,
}

/// Whether a face leads to a program on this machine.
#[derive(Clone, Copy, Debug, PartialEq, Eq)]
pub enum Scope {
    /// The peer is a program on this machine, and may send commands under `/localhost`.
    Local,
    /// The peer is on another machine, or counts as such.
    Far,
}

/// An endpoint that the node knows from the start.
#[derive(Debug, Drop)]
pub struct Peer {
    pub name: String,
    pub endpoint: SocketAddr,
    pub scope: Scope,
}

//! A node on the sockets of this machine.
ghost use Rattle.std.specs.Prelude.{◌≡◌, ◌≢◌, ◌≤◌, ◌⊎◌, ℕ, Err, List, None, Option, length, IfErr, IfSome, IsOk, MatchOption};
ghost use Rattle.forwarder.specs.Parts.{parts_fault};
ghost use Rattle.ndn_daemon.specs.Program.{FailsToRestore, RunsAfresh, RunsRestored};
ghost use Rattle.ndn_daemon.specs.UdpOptions.{ArePortsOf, Connects};
ghost use Rattle.ndn_daemon.specs.Start.{IsStartOf};
ghost use Rattle.ndn_daemon.specs.Turn.{EndsTurns, HasNoTurns, StopsAt};

use crate::command::VERSION;
use crate::disk_journal::DiskJournal;
use crate::fault::Fault;
use crate::logged_ports::HasEndpoints;
use crate::standard_error::StandardError;
use crate::turns::{run, run_restored};
use crate::udp_options::UdpOptions;
use crate::watched_ports::RuleSource;
use ndn_log::Start;
use net_ports::{BindFault, Listen, NetPorts};
use node_core::{MAX_FACES, Node, NodeFault, NodeParts, RunFault};
use node_ports::{Moments, Ports, UdpPorts};
use std::alloc::Global;
use std::fs::File;
use std::io;
use std::net::Net;
use std::rt::Files;

/// Runs a node on its port for the requested number of turns. The answers are written to standard
/// output unless the node is quiet. The log, if there is one, is written to standard error. If
/// `source` has new rules and keys when it is checked, they replace the node's rules and keys.
/// Invalid `parts` are reported before the port is bound. With a journal, the node starts with the
/// state that the journal restores.
///
/// What the node does in its turns is stated by the contracts of `run` and `run_restored`.
pub fn run_on_port<
    R: AllocGlobal + Eprint + Files<File = File> + Net + Print,
    M: Moments,
    S: RuleSource,
>(rt: &R, parts: NodeParts, mut moments: M, source: S, options: &UdpOptions) -> Result<(), Fault>
    requires { length options.now.peers.items ≤ MAX_FACES }
    ensures parts { MatchOption (parts_fault parts.repo parts.cache)
        (options.now.journal ≡ None → IfErr result (StopsAt options.now))
        (λ fault. result ≡ Err (Fault.Script (RunFault.Node fault))) }
    // If the parts are valid, and the options ask for 0 turns and name no journal, there are only
    // two possible faults: a socket cannot be bound or waited for, or memory runs out when the node
    // is created.
    ensures none { options.now.turns ≡ 0 → options.now.journal ≡ None
        → parts_fault parts.repo parts.cache ≡ None → IfErr result (HasNoTurns options.now) }
{
    let start = start_of(&parts, options, moments.now());
    let mut node = match Node::new(rt.alloc(), parts) {
        Ok(node) => node,
        Err(fault) => return Err(Fault::Script(RunFault::Node(fault))),
    };
    take_bound(rt, &mut node, moments, source, options, start)
}

/// Returns what the log tells of a start at this time.
fn start_of(parts: &NodeParts, options: &UdpOptions, moment: u64) -> Start
    ensures { IsStartOf parts.now options.now moment result }
{
    Start {
        moment,
        version: VERSION,
        endpoint: options.listen,
        peers: options.peers.len() as u64,
        rules: parts.rules.len() as u64,
        keys: parts.keys.len() as u64,
        cache: parts.cache as u64,
        replayed: None,
    }
}

/// Binds the ports that the options describe, and lets a node take the requested turns.
fn take_bound<
    R: AllocGlobal + Eprint + Files<File = File> + Net + Print,
    M: Moments,
    S: RuleSource,
>(
    rt: &R,
    node: &mut Node,
    moments: M,
    source: S,
    options: &UdpOptions,
    start: Start,
) -> Result<(), Fault>
    requires { length options.now.peers.items ≤ MAX_FACES }
    ensures fault { options.now.journal ≡ None → IfErr result (StopsAt options.now) }
    ensures none { options.now.turns ≡ 0 → options.now.journal ≡ None
        → IfErr result (HasNoTurns options.now) }
{
    let Some(ports) = bound_ports(rt, moments, options) else {
        return Err(Fault::Unbound {
            endpoint: options.listen,
        });
    };
    if !options.connects() {
        return take_as_begun(rt, node, ports, source, options, start);
    }
    let listen = Listen {
        tcp: options.tcp,
        unix: options.unix.as_deref(),
        websocket: options.websocket,
        origins: options.origins.as_slice(),
    };
    match NetPorts::open(rt, ports, listen) {
        Ok(ports) => take_as_begun(rt, node, ports, source, options, start),
        Err(fault) => Err(unbound(rt.alloc(), fault, options)),
    }
}

/// Returns the fault of a node that cannot listen for connections as the options ask.
fn unbound(alloc: Global, fault: BindFault, options: &UdpOptions) -> Fault
    requires { Connects options.now }
    ensures { HasNoTurns options.now result }
{
    match (fault, options.tcp, &options.unix, options.websocket) {
        (BindFault::Tcp, Some(endpoint), _, _) => Fault::UnboundTcp { endpoint },
        (BindFault::Unix, _, Some(path), _) => match String::from_str(alloc, path) {
            Ok(path) => Fault::UnboundUnix { path },
            Err(_) => Fault::Script(RunFault::Node(NodeFault::Memory)),
        },
        (BindFault::WebSocket, _, _, Some(endpoint)) => Fault::UnboundWebSocket { endpoint },
        (BindFault::Memory, ..) => Fault::Script(RunFault::Node(NodeFault::Memory)),
        _ => Fault::Unreceived,
    }
}

/// Lets a node take the requested turns, with a journal if the options name one. What the writer,
/// the log and the journal hold is not stated here.
fn take_as_begun<
    R: AllocGlobal + Eprint + Files<File = File> + Print,
    P: Ports + HasEndpoints + Drop,
    S: RuleSource,
>(
    rt: &R,
    node: &mut Node,
    ports: P,
    source: S,
    options: &UdpOptions,
    start: Start,
) -> Result<(), Fault>
    ensures ran { options.now.journal ≡ None → (after : P) × (left : S)
        × (held holds : Option (List ℕ)) × RunsAfresh P.does S.renews (P.has_journal ports)
        options.now.quiet options.now.turns ports after source left node.old node.new held holds
        result }
    ensures restored { options.now.journal ≢ None → (after : P) × (left : S)
        × (unread text held holds : Option (List ℕ))
        × ((RunsRestored P.does S.renews S.present options.now.quiet options.now.turns
        (length options.now.peers.items) options.now.local ports after source left unread text
        node.old node.new held holds result)
        ⊎ (FailsToRestore S.renews ports after source left unread text node.old node.new held
        holds result)) }
    ensures fault { options.now.journal ≡ None → IfErr result EndsTurns }
    ensures none { options.now.turns ≡ 0 → options.now.journal ≡ None → IsOk result }
{
    let (alloc, log, writer) = (rt.alloc(), StandardError::new(rt), &mut io::writer(rt));
    match &options.journal {
        Some(path) => {
            let journal = DiskJournal::open(rt, path)?;
            let (ran, _journal) = run_restored(
                alloc, node, journal, ports, source, log, writer, options, start,
            );
            ran.done
        }
        None => run(alloc, node, ports, source, log, writer, options, start).done,
    }
}

/// Binds the ports that the options describe. Returns `None` if the address and port
/// `options.listen` cannot be bound.
fn bound_ports<M: Moments>(rt: &impl Net, moments: M, options: &UdpOptions) -> Option<UdpPorts<M>>
    requires { length options.now.peers.items ≤ MAX_FACES }
    ensures { IfSome result (ArePortsOf options.now (M.last moments)) }
{
    let peers = options.peers.as_slice();
    let bound = UdpPorts::bind_at(rt, options.listen, peers, options.local, moments);
    let mut ports = bound.ok()?;
    ports.close_after(options.idle as u64 * 1000);
    if !options.accepts_strangers() {
        ports.ignore_strangers();
    }
    Some(ports)
}

//! Tests of the turns of a node at ports in memory: what is printed, what is journalled, and what
//! the ports did.
ghost use Rattle.std.specs.Prelude.{None};

use crate::restarts::MemoryJournal;
use crate::watched::{Once, no_rules};
use key_files::KeyBook;
use ndn_daemon::{LogLevel, LogSink, UdpOptions, run, run_restored};
use ndn_log::Start;
use ndn_names::NameBuf;
use node_core::{Event, Node, NodeParts, Scope, read_rules};
use node_ports::MemoryPorts;
use std::alloc::Global;
use std::net::{Ipv4Addr, SocketAddr, SocketAddrV4};

/// A place where the lines of a log are kept.
#[derive(Drop)]
struct Lines {
    octets: Vec<u8>,
}

impl LogSink for Lines {
    ghost given = { λ _. None };

    fn take(&mut self, lines: &[u8]) {
        let _kept = self.octets.extend_from_slice(lines);
    }
}

/// Returns a node without rules and keys, whose repository has the prefix `/repo`.
pub fn node(alloc: Global) -> Option<Node> {
    let parts = NodeParts {
        rules: read_rules(alloc, b"").ok()?,
        keys: KeyBook::read_octets(alloc, b"").ok()?,
        repo: NameBuf::from_uri(alloc, "/repo").ok()?,
        cache: 1,
    };
    Node::new(alloc, parts).ok()
}

/// Returns options for this number of turns, with one Local peer.
fn options(alloc: Global, turns: u64, log: LogLevel) -> Option<UdpOptions> {
    let here = SocketAddr::V4(SocketAddrV4::new(Ipv4Addr::LOCALHOST, 1));
    let mut peers = Vec::new(alloc);
    peers.push(here).ok()?;
    Some(UdpOptions {
        listen: here,
        turns,
        peers,
        local: 1,
        idle: 600,
        open: false,
        log,
        journal: None,
        quiet: false,
        tcp: None,
        unix: None,
        websocket: None,
        origins: Vec::new(alloc),
    })
}

/// Returns a start at a time, with numbers that tell the parts of its line apart.
fn start(moment: u64) -> Start {
    Start {
        moment,
        version: "0.1.0",
        endpoint: SocketAddr::V4(SocketAddrV4::new(Ipv4Addr::LOCALHOST, 1)),
        peers: 1,
        rules: 2,
        keys: 0,
        cache: 64,
        replayed: None,
    }
}

/// Returns ports at which a face opens, and then an Interest without a route comes.
fn ports(alloc: Global) -> Option<MemoryPorts> {
    let mut arrivals = Vec::new(alloc);
    let up = Event::FaceUp {
        face: 1,
        scope: Scope::Local,
        now: 1000,
    };
    arrivals.push(up).ok()?;
    let interest = Event::Packet {
        face: 1,
        now: 1000,
        octets: Vec::from_slice(
            alloc,
            b"\x05\x0b\x07\x03\x08\x01\x41\x0a\x04\x01\x02\x03\x04",
        )
        .ok()?,
    };
    arrivals.push(interest).ok()?;
    Some(MemoryPorts::new(alloc, arrivals))
}

/// The answers to the arrivals of `ports`.
const ANSWERS: &[u8] = b"1 passed
2 passed
> 1 6418fd032005fd03210196500d050b07030801410a0401020304
";

/// Returns whether a node without a journal prints the answers, logs its start and two events, and
/// hands back the ports that did all steps.
fn runs_afresh(alloc: Global) -> Option<bool> {
    let mut text = Vec::new(alloc);
    let source = Once { renewal: None };
    let log = Lines {
        octets: Vec::new(alloc),
    };
    let ran = run(
        alloc,
        &mut node(alloc)?,
        ports(alloc)?,
        source,
        log,
        &mut text,
        &options(alloc, 5, LogLevel::All)?,
        start(999),
    );
    Some(
        ran.done.is_ok()
            && text.as_slice() == ANSWERS
            && ran.ports.places() == [2].as_slice()
            && ran.log.octets.as_slice() == LINES.as_bytes(),
    )
}

/// The log of `runs_afresh`.
const LINES: &str =
    "1970-01-01T00:00:00.999Z started, version 0.1.0, listens on 127.0.0.1:1: 1 peer, 2 rules, 0 keys, cache of 64 Data
1970-01-01T00:00:01.000Z face 1 opens, local: passed
1970-01-01T00:00:01.000Z face 1 Interest /A: passed
";

#[test]
fn turns_without_a_journal(rt: HostRuntime) {
    assert!(rt; runs_afresh(rt.alloc()) == Some(true));
}

/// Returns whether a node whose journal has the text `before` has a journal with the text `after`
/// when its turns at `ports` have ended, and a log with the text `lines`.
fn journals(
    alloc: Global,
    before: &str,
    after: &str,
    level: LogLevel,
    lines: &str,
) -> Option<bool> {
    let mut octets = Vec::from_slice(alloc, before.as_bytes()).ok()?;
    let journal = MemoryJournal {
        octets: &mut octets,
    };
    let source = Once {
        renewal: Some(no_rules(alloc)?),
    };
    let log = Lines {
        octets: Vec::new(alloc),
    };
    let mut text = Vec::new(alloc);
    let (ran, journal) = run_restored(
        alloc,
        &mut node(alloc)?,
        journal,
        ports(alloc)?,
        source,
        log,
        &mut text,
        &options(alloc, 9, level)?,
        start(2000),
    );
    Some(
        ran.done.is_ok()
            && journal.octets.as_slice() == after.as_bytes()
            && ran.log.octets.as_slice() == lines.as_bytes(),
    )
}

/// The log of a first start with a journal. The new rules, which have the time 0 in the journal,
/// have the time of the start.
const FIRST_LINES: &str =
    "1970-01-01T00:00:02.000Z started, version 0.1.0, listens on 127.0.0.1:1: 1 peer, 2 rules, 0 keys, cache of 64 Data, replayed 0 journal lines
1970-01-01T00:00:02.000Z rules replaced: passed
";

/// The log of a restart. The face of the peer is open already, and that of a stranger closes.
const RESTART_LINES: &str =
    "1970-01-01T00:00:02.000Z started, version 0.1.0, listens on 127.0.0.1:1: 1 peer, 2 rules, 0 keys, cache of 64 Data, replayed 3 journal lines
1970-01-01T00:00:02.000Z face 2 closes: passed
1970-01-01T00:00:02.000Z face 1 opens, local: open already
1970-01-01T00:00:02.000Z face 1 Interest /A: passed
";

/// A new journal begins with the present rules. In a restart, rules that are the last of the
/// journal are not written again, a face that is no peer's closes, and a cut line is taken off. No
/// line of a log is older than the start, and none says that the face of a peer is refused.
#[test]
fn turns_with_a_journal(rt: HostRuntime) {
    let first = "rules 0 - -\nup 1 local 1000\n";
    assert!(rt; journals(rt.alloc(), "", first, LogLevel::Events, FIRST_LINES) == Some(true));
    let before = "rules 0 - -\nup 2 far 1000\nup 3";
    let after = "rules 0 - -\nup 2 far 1000\ndown 2 1000\nup 1 local 1000\n";
    let cut =
        "1970-01-01T00:00:02.000Z journal: the last line was cut short and is taken off: 4 octets\n";
    assert!(rt; journals(rt.alloc(), before, after, LogLevel::None, cut) == Some(true));
    let before = "rules 0 - -\nup 1 local 5\nup 2 far 9\n";
    let after = "rules 0 - -\nup 1 local 5\nup 2 far 9\ndown 2 9\n";
    assert!(rt; journals(rt.alloc(), before, after, LogLevel::All, RESTART_LINES) == Some(true));
}

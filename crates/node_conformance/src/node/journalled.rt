//! Tests of a node that keeps a journal, and of a node that continues from a journal.
ghost use Rattle.std.specs.Prelude.{None};

use super::ports::ports_of;
use super::{on_node, spelled};
use journal::{FileFault, JournalFile, Replayed, replay};
use node_core::{Node, Outbox};
use node_ports::{JournalledPorts, MemoryPorts, Ports, ServeFault, serve};
use std::alloc::Global;

/// Faces open, a route is added, and a Data is inserted into the repository, asked for and deleted.
const FROM_INSERT_TO_DELETE: &str = "up 1 local 1000000
up 2 far 1000000
in 1 1000000 ADD_FIRST
in 1 1000000 INSERT
in 2 1000000 D_A
in 1 1000000 INSERT_AGAIN
in 1 1000000 INTEREST
in 1 1000000 DELETE
in 1 1000000 CHECK
";

/// A file in memory that accepts `left` more lines. A call of `append` for a further line writes
/// only half of the line's octets, and fails.
#[derive(Drop)]
pub struct MemoryFile {
    pub octets: Vec<u8>,
    pub left: u64,
}

impl JournalFile for MemoryFile {
    ghost synced = { λ _. None };

    fn append(&mut self, octets: &[u8]) -> Result<(), FileFault> {
        let count = if self.left == 0 {
            octets.len() / 2
        } else {
            octets.len()
        };
        if self.octets.extend_from_slice(&octets[..count]).is_err() || self.left == 0 {
            return Err(FileFault::Failed);
        }
        self.left -= 1;
        Ok(())
    }
}

/// Serves a node with the events of a script and a journal file that accepts `lines` lines.
/// Returns the ports if serving ends as `fault` says, and otherwise `None`. If `fault` is `None`,
/// serving must end without a fault.
fn served(
    alloc: Global,
    node: &mut Node,
    script: &str,
    lines: u64,
    fault: Option<ServeFault>,
) -> Option<JournalledPorts<MemoryPorts, MemoryFile>> {
    let file = MemoryFile {
        octets: Vec::new(alloc),
        left: lines,
    };
    let mut ports = JournalledPorts::new(alloc, ports_of(alloc, script)?, file);
    let end = serve(alloc, node, &mut ports, 1000);
    if end.err() == fault {
        Some(ports)
    } else {
        None
    }
}

/// Plays the events of a script on a node. Returns whether the node's journal then consists of
/// `lines`. In `lines`, words may stand for packets.
fn keeps_journal(alloc: Global, node: &mut Node, script: &str, lines: &str) -> Option<bool> {
    let wanted = spelled(alloc, lines)?;
    let ports = served(alloc, node, script, 1000, None)?;
    Some(ports.file().octets.as_slice() == wanted.as_bytes())
}

/// Returns whether a new node's journal of the script consists of these lines.
fn has_journal(alloc: Global, script: &str, lines: &str) -> Option<bool> {
    on_node(
        alloc,
        &|alloc, node| keeps_journal(alloc, node, script, lines),
    )
}

/// The journal of `FROM_INSERT_TO_DELETE`. The journal has a line for each event
/// except the Interest that is not a command.
const JOURNAL_OF_A_LIFE: &str = "up 1 local 1000000
up 2 far 1000000
in 1 1000000 ADD_FIRST
in 1 1000000 INSERT
in 2 1000000 D_A
in 1 1000000 INSERT_AGAIN
in 1 1000000 DELETE
in 1 1000000 CHECK";

#[test]
fn journal_of_a_life(rt: HostRuntime) {
    let same = has_journal(rt.alloc(), FROM_INSERT_TO_DELETE, JOURNAL_OF_A_LIFE);
    assert!(rt; same == Some(true));
}

/// In this script, only the first event and the last event are journalled. Each of these two
/// events opens a face. The last event has an earlier time than all other events. Between the first
/// and the last event come the opening of an open face, the closing of a face that is not open, a
/// denied command, a Data that the repository does not want, and a tick.
const MOSTLY_DENIED: &str = "up 1 local 1000000
up 1 far 1000001
down 2 1000002
in 1 1000000 WRONG_TAG
in 1 1000000 D_A
tick 1000005
up 3 far 900000
";

#[test]
fn journal_of_what_is_denied(rt: HostRuntime) {
    let lines = "up 1 local 1000000\nup 3 far 1000005";
    assert!(rt; has_journal(rt.alloc(), MOSTLY_DENIED, lines) == Some(true));
}

/// Returns whether the ports have sent one packet, and their journal has three whole lines.
fn has_three_lines(ports: &JournalledPorts<MemoryPorts, MemoryFile>) -> bool {
    let lines = ports.file().octets.iter().filter(|o| **o == b'\n').count();
    ports.ports().sent().len() == 1 && lines == 3
}

/// Returns whether a node stops when the journal's file refuses the fourth line. The node must send
/// nothing for the event of the fourth line.
fn fails_at_the_insert(alloc: Global, node: &mut Node) -> Option<bool> {
    let fault = Some(ServeFault::Journal { after: 3 });
    Some(has_three_lines(&served(alloc, node, FROM_INSERT_TO_DELETE, 3, fault)?))
}

#[test]
fn a_journal_that_fails(rt: HostRuntime) {
    assert!(rt; on_node(rt.alloc(), &fails_at_the_insert) == Some(true));
}

/// Replays a journal on a node, and returns the result of the replay.
fn replayed(alloc: Global, node: &mut Node, journal: &str) -> Option<Replayed> {
    let journal = spelled(alloc, journal)?;
    replay(alloc, node, &mut journal.as_bytes()).ok()
}

/// The journal of a node that has stored a Data.
const JOURNAL_OF_A_STORE: &str = "up 1 local 1000000
up 2 far 1000000
in 1 1000000 ADD_FIRST
in 1 1000000 INSERT
in 2 1000000 D_A";

/// What comes after a restart. The node receives an Interest for the stored Data, and two commands
/// that were carried out before the restart.
const AFTER_A_RESTART: &str = "in 1 1000000 INTEREST
in 1 1000000 INSERT
in 1 1000000 ADD_FIRST
";

/// Returns whether the first packet of an outbox is the stored Data, on face 1.
fn starts_with_data(alloc: Global, sent: &Outbox) -> Option<bool> {
    let data = spelled(alloc, "> 1 D_A")?;
    let mut text = Vec::new(alloc);
    let is_put = node_core::put_sends(&mut text, sent).is_ok();
    Some(is_put && text.as_slice().starts_with(data.as_bytes()))
}

/// Returns the number of packets that a node sends after a restart, and whether the first of these
/// packets is the stored Data.
fn sent_after(alloc: Global, node: &mut Node) -> Option<(usize, bool)> {
    let mut ports = ports_of(alloc, AFTER_A_RESTART)?;
    serve(alloc, node, &mut ports, 1000).ok()?;
    Some((ports.sent().len(), starts_with_data(alloc, ports.sent())?))
}

/// Returns the number of replayed events, the number of packets that the node sends after the
/// restart, and whether the first of these packets is the stored Data.
fn replayed_and_sent(alloc: Global, node: &mut Node) -> Option<(u64, usize, bool)> {
    let done = replayed(alloc, node, JOURNAL_OF_A_STORE)?;
    let (sent, is_first) = sent_after(alloc, node)?;
    Some((done.events, sent, is_first))
}

/// Returns whether `replayed_and_sent` returns these values for a node.
fn replays_and_sends(alloc: Global, node: &mut Node, wanted: &(u64, usize, bool)) -> Option<bool> {
    Some(replayed_and_sent(alloc, node)? == *wanted)
}

/// Returns whether `replayed_and_sent` returns these values for a new node.
fn sends_after_a_restart(alloc: Global, wanted: &(u64, usize, bool)) -> Option<bool> {
    on_node(alloc, &|alloc, node| replays_and_sends(alloc, node, wanted))
}

/// After a node has replayed five events, it answers an Interest with the Data that was stored
/// before the restart. The node also answers two old commands.
#[test]
fn after_a_restart(rt: HostRuntime) {
    assert!(rt; sends_after_a_restart(rt.alloc(), &(5, 3, true)) == Some(true));
}

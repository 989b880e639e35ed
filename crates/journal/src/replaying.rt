ghost use Rattle.std.specs.Prelude.{◌≡◌, IfErr, IfNone, IfOk, IfSome, OnOk};
ghost use Rattle.std.specs.Io.{StopsAt};
ghost use Rattle.std.specs.Io.BufRead.{DropsThrough, take_through};
ghost use Rattle.std.specs.Io.KnownBytes.{Consumes};
ghost use Rattle.node_core.specs.Script.{ended};
ghost use Rattle.node_core.specs.Script.Line.{Lacks};
ghost use Rattle.journal.specs.Replay.{IsReadFault, PlaysLine, Replays, RestoresRuns, StopsLine, StopsReplay};

use forwarder::{Node, Outbox, lend};
use node_core::{Line, line_of};
use std::alloc::Global;
use std::io::{BufRead, ErrorKind, Read};
use thiserror::Error;

/// The result of a replay.
#[derive(Clone, Copy, Debug, PartialEq, Eq)]
pub struct Replayed {
    /// The number of events in the whole lines.
    pub events: u64,
    /// The number of octets in the whole lines, including their LFs.
    pub whole: u64,
    /// The number of octets after the last LF. These octets are not a whole line.
    pub cut: u64,
}

/// Why a journal was not replayed to its end. The node has handled the events of all lines before
/// the fault.
#[derive(Clone, Copy, Debug, PartialEq, Eq, Error)]
pub enum ReplayFault {
    /// The line with this number, counted from 1, is not a line of a script.
    #[error("line {0} of the journal is a bad line")]
    BadLine(u64),
    /// The reader failed, or the journal has 4,294,967,295 or more whole lines.
    #[error("the journal cannot be read")]
    Read,
    /// Memory ran out for a line or for the step of its event.
    #[error("out of memory")]
    Memory,
}

/// Lets the node `node` handle the events in the whole lines of a journal, in order. The octets
/// after the last LF, which a crash may leave, are counted but not replayed.
///
/// Each line is read completely before it is parsed, and takes at least as much memory as it has
/// octets.
pub fn replay<R: BufRead>(
    alloc: Global,
    node: &mut Node,
    reader: &mut R,
) -> Result<Replayed, ReplayFault>
    ensures done { IfOk result
        (Replays node.old node.new (R.remaining reader.old) (R.remaining reader.new)) }
    ensures restores { IfOk result (λ done. IfSome (R.remaining reader.old)
        (λ left. RestoresRuns node.old node.new left done)) }
    ensures stopped { IfErr result
        (StopsReplay node.old node.new (R.remaining reader.old) (R.remaining reader.new)) }
{
    let mut outbox = Outbox::new(alloc);
    let mut octets = Vec::new(alloc);
    let mut replayed = Replayed {
        events: 0,
        whole: 0,
        cut: 0,
    };
    for before in 0..u32::MAX {
        read_line(reader, &mut octets)?;
        let Some(line) = whole_line(&octets) else {
            replayed.cut = octets.len() as u64;
            return Ok(replayed);
        };
        if play_line(alloc, node, line, u64::from(before) + 1, &mut outbox)? {
            replayed.events += 1;
        }
        replayed.whole += octets.len() as u64;
    }
    Err(ReplayFault::Read)
}

/// Replaces the content of `octets` by the next line with its LF, or by all remaining octets if no
/// LF follows.
pub(crate) fn read_line<R: BufRead>(reader: &mut R, octets: &mut Vec<u8>) -> Result<(), ReplayFault>
    ensures read { Consumes (R.remaining reader.old) (R.remaining reader.new) octets.new.items }
    ensures stops { StopsAt octets.new.items 10 }
    ensures known { OnOk result (IfSome (R.remaining reader.old)
        (λ xs. octets.new.items ≡ take_through 10 xs)) }
    ensures rest { OnOk result (DropsThrough (R.remaining reader.old) (R.remaining reader.new) 10) }
    ensures fault { IfErr result IsReadFault }
{
    octets.clear();
    match reader.read_until(b'\n', octets) {
        Ok(_) => Ok(()),
        Err(error) if error.kind() == ErrorKind::OutOfMemory => Err(ReplayFault::Memory),
        Err(_) => Err(ReplayFault::Read),
    }
}

/// Returns the line `octets` without its LF, or `None` if `octets` has no LF.
pub(crate) fn whole_line(octets: &[u8]) -> Option<&[u8]>
    requires { StopsAt octets.now 10 }
    ensures found { IfSome result (λ line. (octets.now ≡ ended line.now) × Lacks 10 line.now) }
    ensures none { IfNone result (Lacks 10 octets.now) }
{
    let (last, line) = octets.split_last()?;
    if *last == b'\n' { Some(line) } else { None }
}

/// If a line spells an event, lets a node handle the event. Returns whether the line spells an
/// event. `number` is the number of the line in the journal.
#[tactic(auto, using(crate::proofs::Replays::plays_step, crate::proofs::Replays::plays_skipped))]
fn play_line(
    alloc: Global,
    node: &mut Node,
    line: &[u8],
    number: u64,
    outbox: &mut Outbox,
) -> Result<bool, ReplayFault>
    requires { Lacks 10 line.now }
    ensures played { IfOk result (PlaysLine line.now node.old node.new) }
    ensures stopped { IfErr result (StopsLine line.now number node.old node.new) }
{
    let event = match line_of(alloc, line) {
        Ok(Line::Event(event)) => event,
        Ok(Line::Skipped) => return Ok(false),
        Ok(Line::Bad) => return Err(ReplayFault::BadLine(number)),
        Err(_) => return Err(ReplayFault::Memory),
    };
    outbox.clear();
    let mut held = Vec::new(alloc);
    match node.step(lend(event, &mut held), outbox) {
        Ok(_) => Ok(true),
        Err(_) => Err(ReplayFault::Memory),
    }
}

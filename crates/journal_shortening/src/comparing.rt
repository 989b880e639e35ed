ghost use Rattle.std.specs.Prelude.{IfOk, IsTrue, OnOk};
ghost use Rattle.journal_shortening.specs.Comparing.{HaveSameLastRules, HaveSameTables, IsReplayed};

use crate::fault::ShortenFault;
use forwarder::Node;
use journal::{last_rules, replay};
use std::alloc::Global;

/// Replays the whole lines of the journal `old` on node `a`, and the whole lines of the journal
/// `new` on node `b`. Returns whether `a` and `b` have the same tables after these two replays. On
/// failure, a part of the two journals may have been replayed.
///
/// The tables are everything in a node's policy except the rules, the keys and the version of the
/// lists of routes and strategies.
pub fn restores_same_tables(
    alloc: Global,
    a: &mut Node,
    b: &mut Node,
    old: &[u8],
    new: &[u8],
) -> Result<bool, ShortenFault>
    ensures { IfOk result (λ same. IsTrue same
        → HaveSameTables old.now a.old a.new new.now b.old b.new) }
{
    play_all(alloc, a, old)?;
    play_all(alloc, b, new)?;
    match a.has_same_tables(b) {
        Ok(same) => Ok(same),
        Err(_) => Err(ShortenFault::Memory),
    }
}

/// Lets a node handle the events in the whole lines of a journal.
fn play_all(alloc: Global, node: &mut Node, journal: &[u8]) -> Result<(), ShortenFault>
    ensures { OnOk result (IsReplayed journal.now node.old node.new) }
{
    let mut reader = journal;
    match replay(alloc, node, &mut reader) {
        Ok(_) => Ok(()),
        Err(fault) => Err(ShortenFault::from(fault)),
    }
}

/// Compares the last whole line of new rules in the journal `old` with the last whole line of new
/// rules in the journal `new`. Returns `true` if these two lines have the same text (the rules and
/// keys) after the time, or if neither journal has a whole line of new rules. The fault is
/// `TooLong` or `Memory`.
pub fn have_same_last_rules(alloc: Global, old: &[u8], new: &[u8]) -> Result<bool, ShortenFault>
    ensures { IfOk result (λ same. IsTrue same → HaveSameLastRules old.now new.now) }
{
    let (mut old, mut new) = (old, new);
    let last = last_rules(alloc, &mut old)?;
    match (last, last_rules(alloc, &mut new)?) {
        (Some(last), Some(other)) => Ok(last.as_slice() == other.as_slice()),
        (None, None) => Ok(true),
        _ => Ok(false),
    }
}

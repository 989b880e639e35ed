//! A journal from which a node is restored, and to which the node's later events are appended if
//! they must be journalled.
ghost use Rattle.std.specs.Prelude.{◌≡◌, IfOk, OnErr};
ghost use Rattle.ndn_daemon.specs.Journal.{ReplaysJournal, TellsLastRules};

use crate::fault::Fault;
use journal::{JournalFile, Replayed};
use node_core::Node;
use node_ports::Renewal;
use std::alloc::Global;

/// A journal from which a node is restored.
pub trait StoredJournal: JournalFile + Drop {
    /// Returns whether the last whole `rules` line in the journal has exactly the octets of the
    /// rule file and of the key file in `renewal`. Returns `false` if the journal has no such line.
    fn has_last(&mut self, alloc: Global, renewal: &Renewal) -> Result<bool, Fault>
        ensures told { IfOk result (TellsLastRules (Self.synced self.old) renewal.now) }
        ensures same { Self.synced self.new ≡ Self.synced self.old };

    /// Replays the events of the journal on a node. If a crash cut the last line short, that line
    /// is removed from the journal. If the call fails, nothing is removed.
    fn replay(&mut self, alloc: Global, node: &mut Node) -> Result<Replayed, Fault>
        ensures done { IfOk result
            (ReplaysJournal (Self.synced self.old) (Self.synced self.new) node.old node.new) }
        ensures kept { OnErr result (Self.synced self.new ≡ Self.synced self.old) };
}

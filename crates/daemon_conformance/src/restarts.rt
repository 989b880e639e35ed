//! A journal in memory that meets the contract of the trait `StoredJournal`. So the contract can be
//! met. The transcripts in `crates/ndn_node/transcripts/starts.txt` test starts with a journal.
ghost use Rattle.std.specs.Prelude.{Some};

use crate::watched::no_rules;
use journal::{FileFault, JournalFile, Replayed, are_last_rules, replay};
use ndn_daemon::{Fault, StoredJournal};
use node_core::{Node, RunFault};
use node_ports::Renewal;
use std::alloc::Global;

/// A journal in memory. All its octets are synced octets (`synced`), so the clauses of
/// `StoredJournal` about synced octets apply to it.
#[derive(Drop)]
pub struct MemoryJournal<'a> {
    pub octets: &'a mut Vec<u8>,
}

impl<'a> JournalFile for MemoryJournal<'a> {
    ghost synced = { λ journal. Some journal.octets.now.items };

    fn append(&mut self, octets: &[u8]) -> Result<(), FileFault> {
        match self.octets.extend_from_slice(octets) {
            Ok(()) => Ok(()),
            Err(_) => Err(FileFault::Failed),
        }
    }
}

impl<'a> StoredJournal for MemoryJournal<'a> {
    fn has_last(&mut self, alloc: Global, renewal: &Renewal) -> Result<bool, Fault> {
        let mut reader = self.octets.as_slice();
        let (rules, keys) = (renewal.rule_octets(), renewal.key_octets());
        match are_last_rules(alloc, &mut reader, rules, keys) {
            Ok(are) => Ok(are),
            Err(_) => Err(Fault::Script(RunFault::Memory)),
        }
    }

    fn replay(&mut self, alloc: Global, node: &mut Node) -> Result<Replayed, Fault> {
        let mut reader = self.octets.as_slice();
        match replay(alloc, node, &mut reader) {
            Ok(done) => {
                self.octets.truncate(done.whole as usize);
                Ok(done)
            }
            Err(_) => Err(Fault::Script(RunFault::Memory)),
        }
    }
}

/// Returns whether the rules of an empty rule file and an empty key file are the last rules of a
/// journal with this text.
fn has_no_rules(alloc: Global, text: &str) -> Option<bool> {
    let mut octets = Vec::from_slice(alloc, text.as_bytes()).ok()?;
    let mut journal = MemoryJournal {
        octets: &mut octets,
    };
    journal.has_last(alloc, &no_rules(alloc)?).ok()
}

#[test]
fn last_rules_of_a_journal(rt: HostRuntime) {
    assert!(rt; has_no_rules(rt.alloc(), "") == Some(false));
    assert!(rt; has_no_rules(rt.alloc(), "rules 0 - -\nup 1 far 1000000\n") == Some(true));
    assert!(rt; has_no_rules(rt.alloc(), "rules 0 - -\nrules 1000000 3b -\n") == Some(false));
}

//! Ports with a journal.
ghost use Rattle.std.specs.Prelude.{◌≡◌};

use crate::ports::{Arrival, PortFault, Ports};
use crate::serving::Turn;
use forwarder::{Node, Verdict};
use info_rules::Rules;
use journal::{JournalFile, append_event};
use node_core::WrittenEvent;
use std::alloc::Global;

/// Ports with a journal in a file. They return the same arrivals and accept the same packets as the
/// underlying ports. The lines of journalled events are appended to the file.
#[derive(Drop)]
pub struct JournalledPorts<P: Ports + Drop, F: JournalFile + Drop> {
    alloc: Global,
    ports: P,
    file: F,
}

impl<P: Ports + Drop, F: JournalFile + Drop> JournalledPorts<P, F> {
    /// Returns `ports` with a journal in `file`.
    pub fn new(alloc: Global, ports: P, file: F) -> JournalledPorts<P, F>
        ensures ports { result.ports ≡ ports }
        ensures file { result.file ≡ file }
    {
        JournalledPorts { alloc, ports, file }
    }

    /// Returns the underlying ports.
    pub fn ports(&self) -> &P
        ensures { result.now ≡ self.now.ports }
    {
        &self.ports
    }

    /// Returns the underlying ports and the journal's file.
    pub fn into_parts(self) -> (P, F)
        ensures ports { result.0 ≡ self.ports }
        ensures file { result.1 ≡ self.file }
    {
        (self.ports, self.file)
    }

    /// Returns the journal's file.
    pub fn file(&self) -> &F
        ensures { result.now ≡ self.now.file }
    {
        &self.file
    }
}

impl<P: Ports + Drop, F: JournalFile + Drop> Ports for JournalledPorts<P, F> {
    ghost use Rattle.std.specs.Prelude.{true};
    ghost use Rattle.std.specs.Io.KnownBytes.{Appends};
    ghost use Rattle.std.proofs.Common.{refl};
    ghost use Rattle.std.proofs.KnownBytes.{Appends-nil};
    ghost use Rattle.node_ports.specs.Journalled.{of_ports};
    ghost use Rattle.node_ports.specs.Step.{journalled};
    ghost use Rattle.node_ports.specs.Laws.{journalled_counts, journalled_goes_on};

    // The underlying ports did all other steps, and the file has what was journalled.
    ghost does = { λ p steps q. P.does p.ports (of_ports steps) q.ports
        × Appends (F.synced p.file) (F.synced q.file) (journalled steps) };

    ghost has_journal = { λ p. true };

    ghost failures = { λ p. P.failures p.ports };

    ghost rests = { λ p. (P.rests p.ports, Appends-nil (F.synced p.file)) };

    ghost goes_on = { λ p q r a b. journalled_goes_on P.does p.ports q.ports r.ports (F.synced p.file)
        (F.synced q.file) (F.synced r.file) (P.goes_on p.ports q.ports r.ports) a b };

    ghost counts = { λ p q steps h. journalled_counts P.does P.failures P.counts p.ports q.ports steps
        h.0 };

    ghost stays = { λ p q steps h. refl };

    fn next(&mut self, node: &Node, buffer: &mut [u8]) -> Result<Option<Arrival>, PortFault> {
        self.ports.next(node, buffer)
    }

    fn next_soon(&mut self, node: &Node, buffer: &mut [u8]) -> Option<Arrival> {
        self.ports.next_soon(node, buffer)
    }

    fn keeps_journal(&self) -> bool {
        true
    }

    fn commit(&mut self, event: &WrittenEvent<'_>, verdict: &Verdict) -> Result<(), PortFault> {
        match append_event(self.alloc, &mut self.file, event, verdict) {
            Ok(()) => Ok(()),
            Err(_) => Err(PortFault::Failed),
        }
    }

    fn send(&mut self, face: u64, octets: &[u8]) -> Result<(), PortFault> {
        self.ports.send(face, octets)
    }

    fn note(&mut self, turn: &Turn, octets: &[u8], rules: &Rules) {
        self.ports.note(turn, octets, rules)
    }

    fn failures(&self) -> u64 {
        self.ports.failures()
    }
}

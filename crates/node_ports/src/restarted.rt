//! Ports that give some events of their own first.
ghost use Rattle.std.specs.Prelude.{◌≡◌, map};
ghost use Rattle.node_ports.specs.Ports.{plain_arrival};

use crate::memory::{OwnedArrival, put_event};
use crate::ports::{Arrival, PortFault, Ports};
use crate::serving::Turn;
use forwarder::{Node, Verdict};
use info_rules::Rules;
use node_core::WrittenEvent;
use std::collections::VecDeque;

/// Ports that give the events of a restart first, in their order. After these, the arrivals are
/// exactly those of the underlying ports.
#[derive(Drop)]
pub struct RestartedPorts<P: Ports + Drop> {
    ports: P,
    first: VecDeque<OwnedArrival>,
}

impl<P: Ports + Drop> RestartedPorts<P> {
    /// Returns `ports`, with the events `first` before what arrives at `ports`.
    pub fn new(first: Vec<OwnedArrival>, ports: P) -> RestartedPorts<P>
        ensures ports { result.ports ≡ ports }
        ensures first { map plain_arrival result.first.items ≡ map plain_arrival first.items }
    {
        RestartedPorts {
            ports,
            first: VecDeque::from_vec(first),
        }
    }

    /// Returns the underlying ports.
    pub fn ports(&self) -> &P
        ensures { result.now ≡ self.now.ports }
    {
        &self.ports
    }

    /// Returns the underlying ports. Events of the restart that have not yet arrived are dropped.
    pub fn into_ports(self) -> P
        ensures { result ≡ self.ports }
    {
        self.ports
    }
}

impl<P: Ports + Drop> Ports for RestartedPorts<P> {
    ghost use Rattle.std.specs.Prelude.{map};
    ghost use Rattle.std.proofs.Common.{refl};
    ghost use Rattle.node_ports.specs.Ports.{plain_arrival};
    ghost use Rattle.node_ports.specs.Restarted.{AreDoneRestarted};
    ghost use Rattle.node_ports.specs.Laws.{restarted_counts, restarted_goes_on, restarted_stays};

    ghost does = { λ p steps q. AreDoneRestarted P.does p.ports (map plain_arrival p.first.items)
        steps q.ports (map plain_arrival q.first.items) };

    ghost has_journal = { λ p. P.has_journal p.ports };

    ghost failures = { λ p. P.failures p.ports };

    ghost rests = { λ p. (P.rests p.ports, refl) };

    ghost goes_on = { λ p q r a b. restarted_goes_on P.does P.goes_on p.ports q.ports r.ports
        (map plain_arrival p.first.items) (map plain_arrival q.first.items)
        (map plain_arrival r.first.items) a b };

    ghost counts = { λ p q steps. restarted_counts P.does P.failures P.counts p.ports q.ports
        (map plain_arrival p.first.items) (map plain_arrival q.first.items) steps };

    ghost stays = { λ p q steps. restarted_stays P.does P.has_journal P.stays p.ports q.ports
        (map plain_arrival p.first.items) (map plain_arrival q.first.items) steps };

    fn next(&mut self, node: &Node, buffer: &mut [u8]) -> Result<Option<Arrival>, PortFault> {
        match self.first.pop_front() {
            Some(event) => Ok(Some(put_event(event, buffer))),
            None => self.ports.next(node, buffer),
        }
    }

    fn next_soon(&mut self, node: &Node, buffer: &mut [u8]) -> Option<Arrival> {
        match self.first.pop_front() {
            Some(event) => Some(put_event(event, buffer)),
            None => self.ports.next_soon(node, buffer),
        }
    }

    fn keeps_journal(&self) -> bool {
        self.ports.keeps_journal()
    }

    fn commit(&mut self, event: &WrittenEvent<'_>, verdict: &Verdict) -> Result<(), PortFault> {
        self.ports.commit(event, verdict)
    }

    fn send(&mut self, face: u64, octets: &[u8]) -> Result<(), PortFault> {
        self.ports.send(face, octets)
    }

    fn note(&mut self, turn: &Turn, octets: &[u8], rules: &Rules) {
        self.ports.note(turn, octets, rules)
    }

    fn failures(&self) -> u64 {
        self.ports.failures()
    }
}

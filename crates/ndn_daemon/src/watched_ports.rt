//! Ports whose arrivals include new rules and keys.
ghost use Rattle.std.specs.Prelude.{◌≡◌, ◌∷◌, ◌++◌, [], List, None, IfOk, IfSome, length};
ghost use Rattle.node_ports.specs.Ports.{LiesWithin, arrived};
ghost use Rattle.node_ports.specs.Renewal.{RenewalValue};
ghost use Rattle.ndn_daemon.specs.Watched.{IsRenewed};

use crate::fault::Fault;
use crate::logged_ports::HasEndpoints;
use info_rules::Rules;
use node_core::{Event, Node, Verdict, WrittenEvent};
use node_ports::{Arrival, HeldArrival, PortFault, Ports, Renewal, Turn};
use std::net::SocketAddr;

/// The least time, in milliseconds, between two checks of the source of rules.
const LOOK_MILLISECONDS: u64 = 1000;

/// Law: the least time between two checks of a source of rules is 1,000 milliseconds.
pub fn sources_are_checked_as_promised()
    ensures look { LOOK_MILLISECONDS ≡ 1000 }
{}

/// A source of new rules and keys.
pub trait RuleSource: Drop {
    // `renews before made after`: from the state `before`, the source made these new rules and
    // keys, in this order, and is then in the state `after`. Of files, nothing is known.
    ghost renews: { Self → List RenewalValue → Self → Type 0 };

    // The source has these rules and keys now.
    ghost present: { Self → RenewalValue → Type 0 };

    /// Returns new rules and keys, with which the caller replaces the rules and keys in force.
    /// Returns `None` if nothing is new, or if the new rules and keys cannot be read.
    fn renewed(&mut self) -> Option<Renewal>
        ensures made { IfSome result (λ renewal. renews self.old (renewal ∷ []) self.new) }
        ensures none { result ≡ None → renews self.old [] self.new };

    /// Returns the present rules and keys of the source. Only a node with a journal makes this
    /// call, once at its start.
    fn current(&mut self) -> Result<Renewal, Fault>
        ensures current { IfOk result (λ renewal. present self.old renewal) }
        ensures none { renews self.old [] self.new };

    // A source that was not asked made nothing.
    ghost rests: { (s : Self) → renews s [] s };

    ghost goes_on: { (s t u : Self) (a b : List RenewalValue) → renews s a t → renews t b u
        → renews s (a ++ b) u };
}

/// Ports with a source of rules. When something has arrived at the underlying ports, the source is
/// checked, at most once a second. If the source has new rules and keys, these are returned first,
/// as an arrival of their own. What arrived at the underlying ports is then returned in the next
/// turn.
#[derive(Drop)]
pub struct WatchedPorts<P: Ports + Drop, S: RuleSource> {
    ports: P,
    source: S,
    // The time when the source was last checked, or 0 if it has not been checked.
    asked: u64,
    held: HeldArrival,
}

impl<P: Ports + Drop, S: RuleSource> WatchedPorts<P, S> {
    /// Returns these ports with a source of rules that has not been checked.
    pub fn new(ports: P, source: S) -> WatchedPorts<P, S>
        ensures ports { result.ports ≡ ports }
        ensures source { result.source ≡ source }
        ensures held { result.held ≡ None }
    {
        WatchedPorts {
            ports,
            source,
            asked: 0,
            held: HeldArrival::none(),
        }
    }

    /// Returns the underlying ports and the source.
    pub fn into_parts(self) -> (P, S)
        ensures ports { result.0 ≡ self.ports }
        ensures source { result.1 ≡ self.source }
    {
        (self.ports, self.source)
    }

    /// Checks the source, and returns the new rules and keys that the source gives, if any. If the
    /// last check was less than a second away from the time `now`, does nothing and returns `None`.
    fn renewed(&mut self, now: u64) -> Option<Renewal>
        ensures made { IfSome result (λ renewal.
            S.renews self.old.source (renewal ∷ []) self.new.source) }
        ensures none { result ≡ None → S.renews self.old.source [] self.new.source }
        ensures ports { self.new.ports ≡ self.old.ports }
        ensures held { self.new.held ≡ self.old.held }
    {
        if now.abs_diff(self.asked) < LOOK_MILLISECONDS {
            return None;
        }
        self.asked = now;
        self.source.renewed()
    }

    /// If a check of the source gives new rules and keys, returns them and keeps the arrival for
    /// the next turn. Otherwise returns the arrival.
    fn renewed_first(&mut self, arrival: Arrival, buffer: &[u8]) -> Arrival
        requires fits { LiesWithin (length buffer.now) arrival }
        requires none { self.old.held ≡ None }
        ensures fits { LiesWithin (length buffer.now) result }
        ensures ports { self.new.ports ≡ self.old.ports }
        ensures renewed { IsRenewed S.renews self.old.source (arrived arrival buffer.now)
            (arrived result buffer.now) self.new.source self.new.held }
    {
        let now = arrival.moment();
        let Some(renewal) = self.renewed(now) else {
            return arrival;
        };
        self.held.keep(arrival, buffer);
        let rules = renewal;
        Event::NewRules { rules, now }
    }
}

impl<P: Ports + Drop, S: RuleSource> Ports for WatchedPorts<P, S> {
    ghost use Rattle.std.proofs.Common.{refl};
    ghost use Rattle.ndn_daemon.specs.Watched.{AreDoneWatched};
    ghost use Rattle.ndn_daemon.specs.WatchedLaws.{watched_counts, watched_goes_on, watched_stays};

    ghost does = { λ p steps q. AreDoneWatched P.does S.renews p.ports p.source p.held steps q.ports
        q.source q.held };

    ghost has_journal = { λ p. P.has_journal p.ports };

    ghost failures = { λ p. P.failures p.ports };

    ghost rests = { λ p. (P.rests p.ports, S.rests p.source, refl) };

    ghost goes_on = { λ p q r a b. watched_goes_on P.does S.renews P.goes_on S.goes_on p.ports
        q.ports r.ports p.source q.source r.source p.held q.held r.held a b };

    ghost counts = { λ p q steps. watched_counts P.does S.renews P.failures P.counts p.ports q.ports
        p.source q.source p.held q.held steps };

    ghost stays = { λ p q steps. watched_stays P.does S.renews P.has_journal P.stays p.ports q.ports
        p.source q.source p.held q.held steps };

    fn next(&mut self, node: &Node, buffer: &mut [u8]) -> Result<Option<Arrival>, PortFault> {
        if let Some(arrival) = self.held.take(buffer) {
            return Ok(Some(arrival));
        }
        match self.ports.next(node, buffer) {
            Ok(Some(arrival)) => Ok(Some(self.renewed_first(arrival, buffer))),
            Ok(None) => Ok(None),
            Err(fault) => Err(fault),
        }
    }

    fn next_soon(&mut self, node: &Node, buffer: &mut [u8]) -> Option<Arrival> {
        if let Some(arrival) = self.held.take(buffer) {
            return Some(arrival);
        }
        match self.ports.next_soon(node, buffer) {
            Some(arrival) => Some(self.renewed_first(arrival, buffer)),
            None => None,
        }
    }

    fn keeps_journal(&self) -> bool {
        self.ports.keeps_journal()
    }

    fn commit(&mut self, event: &WrittenEvent<'_>, verdict: &Verdict) -> Result<(), PortFault> {
        self.ports.commit(event, verdict)
    }

    fn send(&mut self, face: u64, octets: &[u8]) -> Result<(), PortFault> {
        self.ports.send(face, octets)
    }

    fn note(&mut self, turn: &Turn, octets: &[u8], rules: &Rules) {
        self.ports.note(turn, octets, rules)
    }

    fn failures(&self) -> u64 {
        self.ports.failures()
    }
}

impl<P: Ports + HasEndpoints + Drop, S: RuleSource> HasEndpoints for WatchedPorts<P, S> {
    fn endpoint_of(&self, face: u64) -> Option<SocketAddr> {
        self.ports.endpoint_of(face)
    }

    fn strangers(&self) -> u64 {
        self.ports.strangers()
    }
}

//! Ports with a log of arrivals and their outcomes.
ghost use Rattle.std.specs.Prelude.{◌≡◌, ◌≤◌, ◌∷◌, [], None, Some, IfSome, length};
ghost use Rattle.node_ports.specs.Ports.{LiesWithin, arrived};
ghost use Rattle.node_ports.specs.Step.{Got};
ghost use Rattle.ndn_daemon.specs.EventLog.{so_far};
ghost use Rattle.ndn_daemon.specs.LoggedPorts.{IsLoggedOf, IsOutcomeOf, NotesTurn, face_of, seen_in};

use crate::event_log::{EventLog, LogSink};
use info_rules::Rules;
use journal::JournalFile;
use ndn_log::{Entry, LoggedEvent};
use ndn_tlv::Memory;
use net_ports::NetPorts;
use node_core::{Event, Node, Verdict, WrittenEvent};
use node_ports::{
    Arrival, JournalledPorts, MemoryPorts, Moments, PortFault, Ports, RestartedPorts, Turn,
    UdpPorts,
};
use std::net::SocketAddr;

/// Ports that know the endpoints of their faces.
pub trait HasEndpoints {
    /// Returns the endpoint of a face, or `None` if the face has no endpoint.
    fn endpoint_of(&self, face: u64) -> Option<SocketAddr>;

    /// Returns the number of datagrams that were dropped because their endpoints are not peers.
    fn strangers(&self) -> u64;
}

impl<M: Moments> HasEndpoints for UdpPorts<M> {
    fn endpoint_of(&self, face: u64) -> Option<SocketAddr> {
        UdpPorts::endpoint_of(self, face)
    }

    fn strangers(&self) -> u64 {
        UdpPorts::strangers(self)
    }
}

impl<M: Moments> HasEndpoints for NetPorts<M> {
    fn endpoint_of(&self, face: u64) -> Option<SocketAddr> {
        NetPorts::endpoint_of(self, face)
    }

    fn strangers(&self) -> u64 {
        NetPorts::strangers(self)
    }
}

impl<P: Ports + HasEndpoints + Drop, F: JournalFile + Drop> HasEndpoints for JournalledPorts<P, F> {
    fn endpoint_of(&self, face: u64) -> Option<SocketAddr> {
        self.ports().endpoint_of(face)
    }

    fn strangers(&self) -> u64 {
        self.ports().strangers()
    }
}

impl HasEndpoints for MemoryPorts {
    fn endpoint_of(&self, _face: u64) -> Option<SocketAddr> {
        None
    }

    fn strangers(&self) -> u64 {
        0
    }
}

impl<P: Ports + HasEndpoints + Drop> HasEndpoints for RestartedPorts<P> {
    fn endpoint_of(&self, face: u64) -> Option<SocketAddr> {
        self.ports().endpoint_of(face)
    }

    fn strangers(&self) -> u64 {
        self.ports().strangers()
    }
}

/// An arrival without new rules and keys.
type Seen = Event<usize, ()>;

/// Ports with a log, which return the same arrivals and send the same packets as the underlying
/// ports. Log lines are buffered. If nothing arrives soon, the buffered lines are written before
/// the ports wait. While events arrive, the buffered lines are written when the first line is a
/// second old, or when all lines together have at least 65,536 octets.
#[derive(Drop)]
pub struct LoggedPorts<P: Ports + HasEndpoints + Drop, S: LogSink> {
    ports: P,
    log: EventLog<S>,
    // The time of the node's start. No line has an earlier time.
    start: u64,
    // `seen` holds the last arrival until `note` is called for it. `moment` is the time of the last
    // arrival, or the time of the start before the first arrival.
    seen: Option<Seen>,
    moment: u64,
    // `opened` is the face of the last `FaceUp` arrival, and `endpoint` is the endpoint of that
    // face.
    opened: u64,
    endpoint: Option<SocketAddr>,
}

impl<P: Ports + HasEndpoints + Drop, S: LogSink> LoggedPorts<P, S> {
    /// Returns these ports with this log. `start` is the time of the node's start in milliseconds
    /// since 1970. A line about an earlier arrival has this time.
    pub fn new(ports: P, log: EventLog<S>, start: u64) -> LoggedPorts<P, S>
        ensures ports { result.ports ≡ ports }
        ensures times { (result.start ≡ start) × (result.moment ≡ start) }
    {
        LoggedPorts {
            ports,
            log,
            start,
            seen: None,
            moment: start,
            opened: 0,
            endpoint: None,
        }
    }

    /// Appends lines with the counts to the log, also of lines that were left out, writes all
    /// buffered lines of the log, and returns the underlying ports and the destination of the log.
    pub fn finish(mut self) -> (P, S)
        ensures { result.0 ≡ self.ports }
    {
        self.log.put_left_out(self.moment);
        self.log.put_counts_now(self.moment, self.ports.strangers());
        self.log.write_out();
        (self.ports, self.log.into_sink())
    }

    /// Records an arrival.
    fn see(&mut self, arrival: &Arrival)
        ensures ports { self.new.ports ≡ self.old.ports }
        ensures seen { self.new.seen ≡ Some (seen_in self.old.start arrival.now) }
        ensures times { (self.new.start ≡ self.old.start)
            × (self.old.start ≤ self.new.moment) }
    {
        self.seen = Some(seen_in(arrival, self.start));
        self.moment = arrival.moment().max(self.start);
        if let Event::FaceUp { face, .. } = arrival {
            self.opened = *face;
            self.endpoint = self.ports.endpoint_of(*face);
        }
    }

    /// If lines of the log are buffered, returns the arrival that is available soon. If none is,
    /// the lines are written.
    fn next_or_write_out(&mut self, node: &Node, buffer: &mut [u8]) -> Option<Arrival>
        ensures fits { IfSome result (LiesWithin (length buffer.new)) }
        ensures came { IfSome result (λ arrival. P.does self.old.ports
            (Got (length buffer.new) (arrived arrival buffer.new) ∷ []) self.new.ports) }
        ensures none { result ≡ None → P.does self.old.ports [] self.new.ports }
    {
        if self.log.is_empty() {
            return None;
        }
        if let Some(arrival) = self.ports.next_soon(node, buffer) {
            self.see(&arrival);
            return Some(arrival);
        }
        self.log.write_out();
        None
    }

    /// Returns the endpoint of a face, or `None` if the endpoint is not known.
    fn endpoint_of(&self, face: u64) -> Option<SocketAddr> {
        match self.ports.endpoint_of(face) {
            Some(endpoint) => Some(endpoint),
            None if face == self.opened => self.endpoint,
            None => None,
        }
    }

    /// Logs the outcome of an arrival, if `turn` has an outcome (`outcome_of`). `octets` begins
    /// with the arrival's octets.
    fn put_event(&mut self, seen: Seen, turn: &Turn, octets: &[u8], rules: &Rules)
        ensures ports { self.new.ports ≡ self.old.ports }
        ensures noted { NotesTurn seen turn.now octets.now rules.now self.old.log.shows_all
            self.old.log.text.items self.old.log.limits self.old.log.lost self.new.log.lost
            (so_far (S.given self.old.log.sink) self.old.log.text.items)
            (so_far (S.given self.new.log.sink) self.new.log.text.items) }
    {
        let Some(outcome) = outcome_of(turn) else {
            return;
        };
        let event = logged_event(seen, octets);
        let endpoint = match face_of(&event) {
            Some(face) => self.endpoint_of(face),
            None => None,
        };
        let entry = Entry { endpoint, event };
        self.log
            .note(&entry, &outcome, rules, self.ports.strangers());
    }
}

impl<P: Ports + HasEndpoints + Drop, S: LogSink> Ports for LoggedPorts<P, S> {
    // The steps are exactly those of the underlying ports.
    ghost does = { λ p steps q. P.does p.ports steps q.ports };

    ghost has_journal = { λ p. P.has_journal p.ports };

    ghost failures = { λ p. P.failures p.ports };

    ghost rests = { λ p. P.rests p.ports };

    ghost goes_on = { λ p q r. P.goes_on p.ports q.ports r.ports };

    ghost counts = { λ p q. P.counts p.ports q.ports };

    ghost stays = { λ p q. P.stays p.ports q.ports };

    fn next(&mut self, node: &Node, buffer: &mut [u8]) -> Result<Option<Arrival>, PortFault> {
        if let Some(arrival) = self.next_or_write_out(node, buffer) {
            return Ok(Some(arrival));
        }
        match self.ports.next(node, buffer) {
            Ok(Some(arrival)) => {
                self.see(&arrival);
                Ok(Some(arrival))
            }
            Ok(None) => Ok(None),
            Err(fault) => Err(fault),
        }
    }

    fn next_soon(&mut self, node: &Node, buffer: &mut [u8]) -> Option<Arrival> {
        let arrival = self.ports.next_soon(node, buffer)?;
        self.see(&arrival);
        Some(arrival)
    }

    fn keeps_journal(&self) -> bool {
        self.ports.keeps_journal()
    }

    fn commit(&mut self, event: &WrittenEvent<'_>, verdict: &Verdict) -> Result<(), PortFault> {
        self.ports.commit(event, verdict)
    }

    fn send(&mut self, face: u64, octets: &[u8]) -> Result<(), PortFault> {
        let sent = self.ports.send(face, octets);
        if sent.is_err() {
            let endpoint = self.ports.endpoint_of(face);
            self.log
                .put_failed_send(self.moment, face, endpoint, octets);
        }
        sent
    }

    fn note(&mut self, turn: &Turn, octets: &[u8], rules: &Rules)
        ensures ports { P.does self.old.ports [] self.new.ports }
        // If the turn had an event with an outcome, the event is noted in the log.
        ensures noted { IfSome self.old.seen (λ seen. NotesTurn seen turn.now octets.now rules.now
            self.old.log.shows_all self.old.log.text.items self.old.log.limits self.old.log.lost
            self.new.log.lost (so_far (S.given self.old.log.sink) self.old.log.text.items)
            (so_far (S.given self.new.log.sink) self.new.log.text.items)) }
    {
        if let Some(seen) = self.seen.take() {
            self.put_event(seen, turn, octets, rules);
        }
    }

    fn failures(&self) -> u64 {
        self.ports.failures()
    }
}

/// Returns the arrival as a log shows it, at the time `start` if it arrived before.
fn seen_in(arrival: &Arrival, start: u64) -> Seen
    ensures { result ≡ seen_in start arrival.now }
{
    match arrival {
        Event::Packet { face, now, octets } => Event::Packet {
            face: *face,
            now: (*now).max(start),
            octets: *octets,
        },
        Event::FaceUp { face, scope, now } => Event::FaceUp {
            face: *face,
            scope: *scope,
            now: (*now).max(start),
        },
        Event::FaceDown { face, now } => Event::FaceDown {
            face: *face,
            now: (*now).max(start),
        },
        Event::Tick { now } => Event::Tick {
            now: (*now).max(start),
        },
        Event::NewRules { now, .. } => Event::NewRules {
            rules: (),
            now: (*now).max(start),
        },
    }
}

/// Returns the arrival `seen` with its octets. `buffer` begins with the octets of the arrival.
fn logged_event(seen: Seen, buffer: &[u8]) -> LoggedEvent<'_>
    ensures { IsLoggedOf seen buffer.now result }
{
    match seen {
        Event::Packet { face, now, octets } => Event::Packet {
            face,
            now,
            octets: &buffer[..octets.min(buffer.len())],
        },
        Event::FaceUp { face, scope, now } => Event::FaceUp { face, scope, now },
        Event::FaceDown { face, now } => Event::FaceDown { face, now },
        Event::Tick { now } => Event::Tick { now },
        Event::NewRules { now, .. } => Event::NewRules { rules: (), now },
    }
}

fn face_of(event: &LoggedEvent<'_>) -> Option<u64>
    ensures { result ≡ face_of event.now }
{
    match event {
        Event::Packet { face, .. } | Event::FaceUp { face, .. } | Event::FaceDown { face, .. } => {
            Some(*face)
        }
        Event::Tick { .. } | Event::NewRules { .. } => None,
    }
}

/// Returns the outcome of the event of a turn, or `None` if the ports ended or the event could not
/// be journalled.
fn outcome_of(turn: &Turn) -> Option<Result<Verdict, Memory>>
    ensures { IsOutcomeOf turn.now result }
{
    match turn {
        Turn::Done { verdict, .. } => Some(Ok(*verdict)),
        Turn::Refused => Some(Err(Memory)),
        Turn::Unwritten | Turn::End => None,
    }
}

ghost use Rattle.std.specs.Prelude.{◌≡◌, [], ◌∷◌, ◌++◌, List, ℕ, IfOk, IfErr, IfSome, None, OnErr};
ghost use Rattle.forwarder.specs.Event.{plain};
ghost use Rattle.node_core.specs.Script.LineWriter.{IsEventOf};
ghost use Rattle.node_ports.specs.Ports.{LiesWithin, arrived};
ghost use Rattle.node_ports.specs.Serving.{AreSent, EndsAfter, IsTurn, ServesAll, StopsServing};
ghost use Rattle.node_ports.specs.Step.{FailedNext, Got, PortStep, count_of, step_of};

use crate::ports::{Arrival, FRAME_ROOM, Ports};
use forwarder::{Event, Node, Outbox, RulesAndKeys, Verdict};
use node_core::{Files, WrittenEvent};
use std::alloc::Global;
use thiserror::Error;

/// The result of one turn.
#[derive(Clone, Copy, Debug, PartialEq, Eq)]
pub enum Turn {
    /// An event was answered. `failed` is the number of the event's sends that failed.
    Done { verdict: Verdict, failed: u64 },
    /// Memory ran out for handling an event. The event has no effect.
    Refused,
    /// An event was answered but could not be journalled. None of the event's packets is sent, and
    /// the node must stop.
    Unwritten,
    /// There are no more arrivals.
    End,
}

/// Why a node stopped serving a port before all turns were done.
#[derive(Clone, Copy, Debug, PartialEq, Eq, Error)]
pub enum ServeFault {
    /// After `after` events, the port failed to give the next arrival.
    #[error("the port failed after {after} events")]
    Next { after: u64 },
    /// The event after the first `after` events could not be journalled. None of the event's
    /// packets was sent.
    #[error("the journal cannot be written after {after} events")]
    Journal { after: u64 },
}

/// The result of several turns.
#[derive(Clone, Copy, Debug, PartialEq, Eq)]
pub struct Served {
    /// The number of events, including those for which memory ran out.
    pub events: u64,
    /// The number of events for which memory ran out.
    pub refused: u64,
    /// The number of failed sends, at most the greatest u64.
    pub failed_sends: u64,
    /// Whether the port reached its end in one of the turns.
    pub ended: bool,
}

/// Lets a node handle the arrivals of a port, one in each turn, for `turns` turns, or until the
/// port ends or a fault (`ServeFault`) occurs.
///
/// A failed send is counted and does not prevent other sends. An event for which memory runs out is
/// counted, and has no other effect. If a packet is longer than 9,001 octets, only its first 9,001
/// octets are read, and the node drops the packet as too long. If the port fails to give the next
/// arrival, all earlier events remain handled.
pub fn serve<P: Ports>(
    alloc: Global,
    node: &mut Node,
    ports: &mut P,
    turns: u64,
) -> Result<Served, ServeFault>
    ensures served { IfOk result (λ served. (failed : ℕ) × (steps : List PortStep)
        × P.does ports.old steps ports.new
        × ServesAll (P.has_journal ports.old) node.old node.new served.events served.refused failed
        served.ended steps
        × (served.failed_sends ≡ count_of failed)) }
    ensures ended { IfOk result (λ served. EndsAfter turns served.ended served.events) }
    ensures stopped { IfErr result (λ fault. (steps : List PortStep)
        × P.does ports.old steps ports.new
        × StopsServing (P.has_journal ports.old) node.old node.new turns steps fault) }
{
    let mut outbox = Outbox::new(alloc);
    let mut buffer = [0; FRAME_ROOM];
    let mut served = Served {
        events: 0,
        refused: 0,
        failed_sends: 0,
        ended: false,
    };
    for _ in 0..turns {
        let Ok(turn) = serve_turn_in(node, ports, &mut buffer, &mut outbox) else {
            return Err(ServeFault::Next {
                after: served.events,
            });
        };
        match turn {
            Turn::Done { verdict: _, failed } => {
                served.failed_sends = served.failed_sends.saturating_add(failed);
            }
            Turn::Refused => served.refused += 1,
            Turn::Unwritten => {
                return Err(ServeFault::Journal {
                    after: served.events,
                });
            }
            Turn::End => {
                served.ended = true;
                return Ok(served);
            }
        }
        served.events += 1;
    }
    Ok(served)
}

/// Lets a node handle the next arrival of a port.
///
/// If the result is `Done`, the outbox contains exactly the event's sends, including those that
/// failed. If the result is not `Done`, the outbox is empty. The only fault is `Next { after: 0 }`.
/// If this fault is returned, the node is unchanged.
pub fn serve_turn<P: Ports>(
    node: &mut Node,
    ports: &mut P,
    outbox: &mut Outbox,
) -> Result<Turn, ServeFault>
    ensures turn { IfOk result (λ turn. (steps : List PortStep)
        × P.does ports.old steps ports.new
        × IsTurn (P.has_journal ports.old) node.old node.new outbox.new turn steps) }
    ensures fault { IfErr result (λ fault. fault ≡ ServeFault.Next 0) }
    ensures stopped { OnErr result (P.does ports.old (FailedNext ∷ []) ports.new
        × (node.new ≡ node.old) × (outbox.new ≡ [])) }
{
    serve_turn_in(node, ports, &mut [0; FRAME_ROOM], outbox)
}

/// Does the same as `serve_turn`, but with a buffer that the caller provides, so that many turns
/// can use one buffer. The initial content of the buffer has no effect.
pub fn serve_turn_in<P: Ports>(
    node: &mut Node,
    ports: &mut P,
    buffer: &mut [u8; FRAME_ROOM],
    outbox: &mut Outbox,
) -> Result<Turn, ServeFault>
    ensures turn { IfOk result (λ turn. (steps : List PortStep)
        × P.does ports.old steps ports.new
        × IsTurn (P.has_journal ports.old) node.old node.new outbox.new turn steps) }
    ensures fault { IfErr result (λ fault. fault ≡ ServeFault.Next 0) }
    ensures stopped { OnErr result (P.does ports.old (FailedNext ∷ []) ports.new
        × (node.new ≡ node.old) × (outbox.new ≡ [])) }
{
    outbox.clear();
    let Ok(arrival) = ports.next(node, buffer) else {
        return Err(ServeFault::Next { after: 0 });
    };
    Ok(handle(node, ports, arrival, buffer, outbox))
}

/// Does the same as `serve_turn_in` if `next_soon` returns an arrival. If `next_soon` returns
/// `None`, also returns `None`. When `None` is returned, the node is unchanged, and the outbox is
/// empty.
pub fn serve_turn_soon<P: Ports>(
    node: &mut Node,
    ports: &mut P,
    buffer: &mut [u8; FRAME_ROOM],
    outbox: &mut Outbox,
) -> Option<Turn>
    ensures turn { IfSome result (λ turn. (steps : List PortStep)
        × P.does ports.old steps ports.new
        × IsTurn (P.has_journal ports.old) node.old node.new outbox.new turn steps) }
    ensures none { result ≡ None → P.does ports.old [] ports.new × (node.new ≡ node.old)
        × (outbox.new ≡ []) }
{
    outbox.clear();
    let arrival = ports.next_soon(node, buffer)?;
    Some(handle(node, ports, Some(arrival), buffer, outbox))
}

// Lets a node handle an arrival, and passes the result of the turn to the port's `note`.
fn handle<P: Ports>(
    node: &mut Node,
    ports: &mut P,
    arrival: Option<Arrival>,
    buffer: &[u8; FRAME_ROOM],
    outbox: &mut Outbox,
) -> Turn
    requires fits { IfSome arrival (LiesWithin FRAME_ROOM) }
    requires empty { outbox.old ≡ [] }
    ensures { (steps : List PortStep) × P.does ports.old steps ports.new
        × IsTurn (P.has_journal ports.old) node.old node.new outbox.new result
        (step_of FRAME_ROOM arrival buffer.now ∷ steps) }
{
    let turn = answer(node, ports, arrival, buffer, outbox);
    ports.note(&turn, buffer, node.rules());
    turn
}

// Lets a node handle an arrival, and returns the result of the turn. Does not call `note`.
fn answer<P: Ports>(
    node: &mut Node,
    ports: &mut P,
    arrival: Option<Arrival>,
    buffer: &[u8; FRAME_ROOM],
    outbox: &mut Outbox,
) -> Turn
    requires fits { IfSome arrival (LiesWithin FRAME_ROOM) }
    requires empty { outbox.old ≡ [] }
    ensures { (steps : List PortStep) × P.does ports.old steps ports.new
        × IsTurn (P.has_journal ports.old) node.old node.new outbox.new result
        (step_of FRAME_ROOM arrival buffer.now ∷ steps) }
{
    match arrival {
        Some(arrival) => answer_event(node, ports, arrival, buffer, outbox),
        None => Turn::End,
    }
}

// Lets a node handle an event, and returns the result of the turn. Does not call `note`.
fn answer_event<P: Ports>(
    node: &mut Node,
    ports: &mut P,
    arrival: Arrival,
    buffer: &[u8; FRAME_ROOM],
    outbox: &mut Outbox,
) -> Turn
    requires fits { LiesWithin FRAME_ROOM arrival }
    requires empty { outbox.old ≡ [] }
    ensures { (steps : List PortStep) × P.does ports.old steps ports.new
        × IsTurn (P.has_journal ports.old) node.old node.new outbox.new result
        (Got FRAME_ROOM (arrived arrival buffer.now) ∷ steps) }
{
    match arrival {
        Event::Packet { face, now, octets } => {
            let octets = &buffer[..octets];
            let written = Event::Packet { face, now, octets };
            handle_event(
                node,
                ports,
                Event::Packet { face, now, octets },
                written,
                outbox,
            )
        }
        Event::FaceUp { face, scope, now } => {
            let written = Event::FaceUp { face, scope, now };
            handle_event(
                node,
                ports,
                Event::FaceUp { face, scope, now },
                written,
                outbox,
            )
        }
        Event::FaceDown { face, now } => {
            let written = Event::FaceDown { face, now };
            handle_event(node, ports, Event::FaceDown { face, now }, written, outbox)
        }
        Event::Tick { now } => {
            handle_event(
                node,
                ports,
                Event::Tick { now },
                Event::Tick { now },
                outbox,
            )
        }
        Event::NewRules { rules, now } => {
            let (rules, keys, files) = rules.into_parts();
            let written = Event::NewRules {
                rules: Files {
                    rules: &files.rules,
                    keys: &files.keys,
                },
                now,
            };
            let rules = RulesAndKeys { rules, keys };
            handle_event(node, ports, Event::NewRules { rules, now }, written, outbox)
        }
    }
}

// Lets a node answer an event, and commits the event to the port's journal before the packets of
// the event are sent. `written` is the event as the journal has it.
fn handle_event<P: Ports>(
    node: &mut Node,
    ports: &mut P,
    event: Event<&[u8], RulesAndKeys>,
    written: WrittenEvent<'_>,
    outbox: &mut Outbox,
) -> Turn
    requires written { IsEventOf written (plain event) }
    requires empty { outbox.old ≡ [] }
    ensures { (steps : List PortStep) × P.does ports.old steps ports.new
        × IsTurn (P.has_journal ports.old) node.old node.new outbox.new result
        (Got FRAME_ROOM (plain event.entry) ∷ steps) }
{
    let verdict = match node.step(event, outbox) {
        Ok(verdict) => verdict,
        Err(_) => return Turn::Refused,
    };
    match ports.commit(&written.at(node.now()), &verdict) {
        Ok(()) => {
            let failed = send_all(ports, outbox);
            Turn::Done { verdict, failed }
        }
        Err(_) => {
            outbox.clear();
            Turn::Unwritten
        }
    }
}

// Sends the packets of the outbox, and returns the number of failed sends.
fn send_all<P: Ports>(ports: &mut P, outbox: &Outbox) -> u64
    ensures { (steps : List PortStep) × P.does ports.old steps ports.new
        × AreSent outbox.now result steps }
{
    let mut failed = 0;
    for i in 0..outbox.len() {
        if let Some((face, octets)) = outbox.sent(i) {
            if ports.send(face, octets).is_err() {
                failed += 1;
            }
        }
    }
    failed
}

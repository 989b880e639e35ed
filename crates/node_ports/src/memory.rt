ghost use Rattle.std.specs.Prelude.{◌≡◌, ◌-◌, ◌↔◌, ◌++◌, [], ◌∷◌, length, map, IfOk, IfSome, IsErr, IsTrue, OnErr, OnOk};
ghost use Rattle.node_ports.specs.Memory.{AreDoneInMemory};
ghost use Rattle.node_ports.specs.Ports.{LiesWithin, arrived, cut_to, plain_arrival};
ghost use Rattle.node_ports.specs.Step.{FailedNext, FailedSend, Gave, one_more, step_of};

use crate::ports::{Arrival, PortFault, Ports, put_front};
use crate::renewal::Renewal;
use crate::serving::Turn;
use forwarder::{Event, Node, Outbox, Verdict};
use info_rules::Rules;
use node_core::WrittenEvent;
use std::alloc::Global;
use std::collections::VecDeque;
use std::marker::Model;

/// An arrival that owns its octets.
pub type OwnedArrival = Event<Vec<u8>, Renewal>;

/// Ports in memory. The arrivals are the events of a list, and the ports store the packets that are
/// sent, and which calls of `next` came before each of them.
///
/// `fail_next` makes one later call of `next` fail, and `fail_send` makes one later call of `send`
/// fail. A send also fails if memory runs out.
#[derive(Drop)]
pub struct MemoryPorts {
    arrivals: VecDeque<OwnedArrival>,
    taken: Outbox,
    asked: u64,
    places: Vec<u64>,
    failed: u64,
    next_told: u64,
    send_told: u64,
}

impl Model for MemoryPorts {
    ghost use Rattle.std.specs.Prelude.{map};
    ghost use Rattle.node_ports.specs.Memory.{MemoryState};
    ghost use Rattle.node_ports.specs.Ports.{plain_arrival};

    ghost Value = { MemoryState };

    ghost view = { λ p. record {
      trace = record {
        events = map plain_arrival p.arrivals.items;
        sent = p.taken;
        asked = p.asked;
        places = p.places.items;
        failed = p.failed;
      };
      next_told = p.next_told;
      send_told = p.send_told;
    } };
}

impl MemoryPorts {
    /// Returns ports whose arrivals are `arrivals`. No call is told to fail.
    pub fn new(alloc: Global, arrivals: Vec<OwnedArrival>) -> MemoryPorts
        ensures { result ≡ record {
          trace = record {
            events = map plain_arrival arrivals.items;
            sent = [];
            asked = 0;
            places = [];
            failed = 0;
          };
          next_told = 0;
          send_told = 0;
        } }
    {
        MemoryPorts {
            arrivals: VecDeque::from_vec(arrivals),
            taken: Outbox::new(alloc),
            asked: 0,
            places: Vec::new(alloc),
            failed: 0,
            next_told: 0,
            send_told: 0,
        }
    }

    /// Tells the `k`th later call of `next` to fail. If `k` is 0, no call of `next` is told to
    /// fail.
    pub fn fail_next(&mut self, k: u64)
        ensures { self.new ≡ record self.old { next_told = k } }
    {
        self.next_told = k;
    }

    /// Tells the `k`th later call of `send` to fail. If `k` is 0, no call of `send` is told to
    /// fail.
    pub fn fail_send(&mut self, k: u64)
        ensures { self.new ≡ record self.old { send_told = k } }
    {
        self.send_told = k;
    }

    /// Returns the packets that were sent, without the sends that failed.
    pub fn sent(&self) -> &Outbox
        ensures { result.now ≡ self.now.trace.sent }
    {
        &self.taken
    }

    /// Returns, for each packet that was sent, how many calls of `next` had succeeded before, at
    /// most the greatest u64.
    pub fn places(&self) -> &[u64]
        ensures { result.now ≡ self.now.trace.places }
    {
        &self.places
    }

    // Counts a failed call.
    fn fail(&mut self) -> PortFault
        ensures { self.new ≡ record self.old {
          trace = record self.old.trace { failed = one_more self.old.trace.failed };
        } }
    {
        self.failed = self.failed.saturating_add(1);
        PortFault::Failed
    }
}

impl Ports for MemoryPorts {
    ghost use Rattle.std.specs.Prelude.{false};
    ghost use Rattle.std.proofs.Common.{refl};
    ghost use Rattle.node_ports.specs.Memory.{AreDoneInMemory};
    ghost use Rattle.node_ports.specs.Laws.{memory_counts, memory_goes_on};

    ghost does = { λ p steps q. AreDoneInMemory p.trace steps q.trace };

    ghost has_journal = { λ p. false };

    ghost failures = { λ p. p.trace.failed };

    ghost rests = { λ p. refl };

    ghost goes_on = { λ p q r a b. memory_goes_on p.trace q.trace r.trace a b };

    ghost counts = { λ p q steps. memory_counts p.trace q.trace steps };

    ghost stays = { λ p q steps h. refl };

    fn next(&mut self, _node: &Node, buffer: &mut [u8]) -> Result<Option<Arrival>, PortFault>
        ensures fits { IfOk result
            (λ arrival. IfSome arrival (LiesWithin (length buffer.new))) }
        ensures came { IfOk result (λ arrival. AreDoneInMemory self.old.trace
            (step_of (length buffer.new) arrival buffer.new ∷ []) self.new.trace) }
        ensures failed { OnErr result
            (AreDoneInMemory self.old.trace (FailedNext ∷ []) self.new.trace) }
        // The call fails if and only if it is told to fail.
        ensures told { IsErr result ↔ (self.old.next_told ≡ 1) }
        ensures nearer { self.new.next_told ≡ self.old.next_told - 1 }
        ensures send_told { self.new.send_told ≡ self.old.send_told }
    {
        if is_told(&mut self.next_told) {
            return Err(self.fail());
        }
        self.asked = self.asked.saturating_add(1);
        match self.arrivals.pop_front() {
            Some(event) => Ok(Some(put_event(event, buffer))),
            None => Ok(None),
        }
    }

    fn next_soon(&mut self, _node: &Node, _buffer: &mut [u8]) -> Option<Arrival> {
        None
    }

    fn keeps_journal(&self) -> bool {
        false
    }

    // These ports have no journal.
    fn commit(&mut self, _event: &WrittenEvent<'_>, _verdict: &Verdict) -> Result<(), PortFault> {
        Ok(())
    }

    fn send(&mut self, face: u64, octets: &[u8]) -> Result<(), PortFault>
        ensures gave { OnOk result
            (AreDoneInMemory self.old.trace (Gave (face, octets.now) ∷ []) self.new.trace) }
        ensures failed { OnErr result
            (AreDoneInMemory self.old.trace (FailedSend (face, octets.now) ∷ []) self.new.trace) }
        // The call fails if it is told to fail. Otherwise it fails only if memory runs out.
        ensures told { self.old.send_told ≡ 1 → IsErr result }
        ensures nearer { self.new.send_told ≡ self.old.send_told - 1 }
        ensures next_told { self.new.next_told ≡ self.old.next_told }
    {
        if is_told(&mut self.send_told) || self.places.push(self.asked).is_err() {
            return Err(self.fail());
        }
        if self.taken.push(face, octets).is_err() {
            let _place = self.places.pop();
            return Err(self.fail());
        }
        Ok(())
    }

    fn note(&mut self, _turn: &Turn, _octets: &[u8], _rules: &Rules) {}

    fn failures(&self) -> u64 {
        self.failed
    }
}

// Returns whether `told` is 1, which means that the present call of `next` or `send` is told to
// fail. Decreases `told` by 1, unless `told` is 0.
fn is_told(told: &mut u64) -> bool
    ensures now { IsTrue result ↔ (told.old ≡ 1) }
    ensures nearer { told.new ≡ told.old - 1 }
{
    let now = *told == 1;
    *told = told.saturating_sub(1);
    now
}

// Returns the arrival for an event. Copies the octets of the event's packet, except those that do
// not fit, to the start of the buffer.
pub(crate) fn put_event(event: OwnedArrival, buffer: &mut [u8]) -> Arrival
    ensures fits { LiesWithin (length buffer.new) result }
    ensures event { arrived result buffer.new
        ≡ cut_to (length buffer.new) (plain_arrival event) }
{
    match event {
        Event::Packet { face, now, octets } => Event::Packet {
            face,
            now,
            octets: put_front(octets.as_slice(), buffer),
        },
        Event::FaceUp { face, scope, now } => Event::FaceUp { face, scope, now },
        Event::FaceDown { face, now } => Event::FaceDown { face, now },
        Event::Tick { now } => Event::Tick { now },
        Event::NewRules { rules, now } => Event::NewRules { rules, now },
    }
}

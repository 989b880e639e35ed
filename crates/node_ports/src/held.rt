//! An arrival that is kept for a later turn.
ghost use Rattle.std.specs.Prelude.{◌≡◌, None, Some, length, IfSome};
ghost use Rattle.forwarder.specs.Event.{PlainEvent};
ghost use Rattle.node_ports.specs.Ports.{LiesWithin, arrived, cut_to};

use crate::ports::{Arrival, FRAME_ROOM, put_front};
use forwarder::Event;
use std::marker::Model;

/// At most one arrival, with the octets of its packet.
#[derive(Drop)]
pub struct HeldArrival {
    // If the arrival is a packet, `octets` begins with the octets of the packet.
    arrival: Option<Arrival>,
    octets: [u8; FRAME_ROOM],
}

impl Model for HeldArrival {
    ghost use Rattle.std.specs.Prelude.{Option};
    ghost use Rattle.forwarder.specs.Event.{PlainEvent};
    ghost use Rattle.node_ports.specs.Ports.{FitsHeld, held_event};

    ghost Value = { Option PlainEvent };

    ghost view = { λ h. held_event h.arrival h.octets };

    ghost invariant = { λ h. FitsHeld h.arrival };
}

impl HeldArrival {
    /// Returns a place without an arrival.
    pub fn none() -> HeldArrival
        ensures { result ≡ None }
    {
        HeldArrival {
            arrival: None,
            octets: [0; FRAME_ROOM],
        }
    }

    /// Keeps an arrival in place of the one that was kept before. If the arrival is a packet, its
    /// octets are the first octets of the buffer, and at most 9,001 of them are kept.
    pub fn keep(&mut self, arrival: Arrival, buffer: &[u8])
        requires { LiesWithin (length buffer.now) arrival }
        ensures { self.new ≡ Some (cut_to FRAME_ROOM (arrived arrival buffer.now)) }
    {
        self.arrival = Some(kept(arrival, buffer, &mut self.octets));
    }

    /// Returns the arrival that was kept, if there is one. Copies the octets of a packet to the
    /// start of the buffer. Octets that do not fit are dropped.
    pub fn take(&mut self, buffer: &mut [u8]) -> Option<Arrival>
        ensures fits { IfSome result (LiesWithin (length buffer.new)) }
        ensures taken { IfSome result (λ arrival. (event : PlainEvent)
            × (self.old ≡ Some event)
            × (arrived arrival buffer.new ≡ cut_to (length buffer.new) event)) }
        ensures none { result ≡ None → self.old ≡ None }
        ensures empty { self.new ≡ None }
    {
        match self.arrival.take()? {
            Event::Packet { face, now, octets } => {
                let octets = put_front(&self.octets[..octets], buffer);
                Some(Event::Packet { face, now, octets })
            }
            other => Some(other),
        }
    }
}

// Returns the arrival as it is kept, and copies the octets of a packet.
fn kept(arrival: Arrival, buffer: &[u8], held: &mut [u8; FRAME_ROOM]) -> Arrival
    requires { LiesWithin (length buffer.now) arrival }
    ensures fits { LiesWithin FRAME_ROOM result }
    ensures event { arrived result held.new ≡ cut_to FRAME_ROOM (arrived arrival buffer.now) }
{
    match arrival {
        Event::Packet { face, now, octets } => {
            let octets = put_front(&buffer[..octets], held);
            Event::Packet { face, now, octets }
        }
        other => other,
    }
}

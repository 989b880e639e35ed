ghost use Rattle.std.specs.Prelude.{◌≡◌, ℕ, Bool, List, [], ◌∷◌, ◌++◌, None, true, length, min, take, IfOk, IfSome, OnOk, OnErr};
ghost use Rattle.forwarder.specs.Verdict.{verdict_of};
ghost use Rattle.journal.specs.Appending.{IsFrontOfLine, IsLineAt};
ghost use Rattle.node_core.specs.Script.LineWriter.{event_text};
ghost use Rattle.node_ports.specs.Ports.{LiesWithin, arrived};
ghost use Rattle.node_ports.specs.Step.{FailedNext, FailedSend, FailedWrite, Gave, Got, PortStep, count_after, failures_in, is_committed, line_steps, step_of};

use crate::datagram::ANSWER_SECONDS;
use crate::renewal::Renewal;
use crate::serving::Turn;
use crate::udp::SOON_MILLISECONDS;
use face_table::GIVE_WAY_MILLISECONDS;
use forwarder::{Event, Node, Verdict};
use info_rules::Rules;
use ndn_packets::MAX_FRAME;
use node_core::WrittenEvent;
use thiserror::Error;

/// The greatest number of octets that are read of a packet or datagram: one octet more than the
/// longest packet that a node accepts. A packet that is longer than a node accepts is therefore
/// still too long after it is truncated, and the node drops it.
pub const FRAME_ROOM: usize = MAX_FRAME + 1;

/// Law: `FRAME_ROOM` is 9,001, one more than the length in octets of the longest packet that a node
/// accepts. A client may lose its face after 10 seconds of silence, also if the node has something
/// for the face. `next_soon` waits for a millisecond at a UDP port. An answer to a client is waited
/// for during 4 seconds.
pub fn ports_are_as_promised()
    ensures room { FRAME_ROOM ≡ 9001 }
    ensures gives_way { GIVE_WAY_MILLISECONDS ≡ 10000 }
    ensures soon { SOON_MILLISECONDS ≡ 1 }
    ensures answer { ANSWER_SECONDS ≡ 4 }
{}

/// An event as a port gives it. The octets of a packet are the first ones of the buffer, as many as
/// the event says.
pub type Arrival = Event<usize, Renewal>;

/// A port failed.
#[derive(Clone, Copy, Debug, PartialEq, Eq, Error)]
pub enum PortFault {
    #[error("the port failed")]
    Failed,
}

/// A port returns arrivals and sends packets. A port counts the failed calls of `next` and `send`:
/// each failed call increases the count, unless the count is the greatest u64.
pub trait Ports {
    // `does before steps after`: from the state `before`, the port did these steps, in this order,
    // and is then in the state `after`. For ports in memory, the steps are known, except where
    // among them the failed calls were. For sockets, only the number of failed calls is known.
    ghost does: { Self → List PortStep → Self → Type 0 };

    // Whether the port has a journal.
    ghost has_journal: { Self → Bool };

    // The number of failed calls of `next` and `send`, at most the greatest u64.
    ghost failures: { Self → ℕ };

    /// Returns the next arrival, or `None` if there are no more arrivals. Copies the octets of a
    /// packet to the start of the buffer. A packet longer than the buffer is truncated. `node` is
    /// the node that the arrival is for: a port that closes faces asks it what it has for them.
    fn next(&mut self, node: &Node, buffer: &mut [u8]) -> Result<Option<Arrival>, PortFault>
        ensures fits { IfOk result
            (λ arrival. IfSome arrival (LiesWithin (length buffer.new))) }
        ensures came { IfOk result (λ arrival. does self.old
            (step_of (length buffer.new) arrival buffer.new ∷ []) self.new) }
        ensures failed { OnErr result (does self.old (FailedNext ∷ []) self.new) };

    /// Returns the next arrival, as `next` does, if an arrival is available within some
    /// milliseconds. Returns `None` otherwise. A port that cannot limit its waiting to some
    /// milliseconds may always return `None`.
    fn next_soon(&mut self, node: &Node, buffer: &mut [u8]) -> Option<Arrival>
        ensures fits { IfSome result (LiesWithin (length buffer.new)) }
        ensures came { IfSome result (λ arrival. does self.old
            (Got (length buffer.new) (arrived arrival buffer.new) ∷ []) self.new) }
        ensures none { result ≡ None → does self.old [] self.new };

    /// Returns whether the port has a journal.
    fn keeps_journal(&self) -> bool
        ensures { result ≡ has_journal self.now };

    /// Is called for each answered event with its verdict, before the event's packets are sent. If
    /// the event must be journalled, a port with a journal appends the event's line, and succeeds
    /// only when the line survives a crash. The moment of `event` is the time in the line: the
    /// greatest of the moments of this event and all events answered before.
    fn commit(&mut self, event: &WrittenEvent<'_>, verdict: &Verdict) -> Result<(), PortFault>
        ensures done { OnOk result (does self.old
            (line_steps (is_committed (has_journal self.old) event.now (verdict_of verdict.now))
            (event_text event.now)) self.new) }
        ensures line { OnOk result
            (is_committed (has_journal self.old) event.now (verdict_of verdict.now) ≡ true
            → IsLineAt event.now) }
        ensures failed { OnErr result
            ((is_committed (has_journal self.old) event.now (verdict_of verdict.now) ≡ true)
            × ((front : List ℕ) × IsFrontOfLine event.now front
            × does self.old (FailedWrite front ∷ []) self.new)) };

    /// Sends octets to a face.
    fn send(&mut self, face: u64, octets: &[u8]) -> Result<(), PortFault>
        ensures gave { OnOk result (does self.old (Gave (face, octets.now) ∷ []) self.new) }
        ensures failed { OnErr result
            (does self.old (FailedSend (face, octets.now) ∷ []) self.new) };

    /// Is called with the result `turn` of a turn, after the packets of the turn were sent. If the
    /// arrival of the turn is a packet, `octets` begins with the packet's octets. `rules` are the
    /// rules in force after the turn. A port with a log writes the result to the log, and nothing
    /// else changes.
    fn note(&mut self, turn: &Turn, octets: &[u8], rules: &Rules)
        ensures { does self.old [] self.new };

    /// Returns the number of failed calls of `next` and `send`, at most the greatest u64.
    fn failures(&self) -> u64
        ensures { result ≡ failures self.now };

    // A port that did nothing did no steps.
    ghost rests: { (p : Self) → does p [] p };

    // Steps after steps are one list of steps.
    ghost goes_on: { (p q r : Self) (a b : List PortStep) → does p a q → does q b r
        → does p (a ++ b) r };

    ghost counts: { (p q : Self) (steps : List PortStep) → does p steps q
        → failures q ≡ count_after (failures p) (failures_in steps) };

    ghost stays: { (p q : Self) (steps : List PortStep) → does p steps q
        → has_journal q ≡ has_journal p };
}

// Copies the octets, except those that do not fit, to the start of the buffer. Returns the number
// of copied octets.
pub fn put_front(octets: &[u8], buffer: &mut [u8]) -> usize
    ensures len { result ≡ min (length octets.now) (length buffer.new) }
    ensures front { take result buffer.new ≡ take (length buffer.new) octets.now }
{
    let len = octets.len().min(buffer.len());
    buffer[..len].copy_from_slice(&octets[..len]);
    len
}

//! Events as a log shows them.

ghost use Rattle.std.specs.Prelude.{◌≡◌};
ghost use Rattle.ndn_log.specs.Entry.{is_open_already, is_plain, is_plain_outcome, is_refusal, octets_in, refused_on};

use forwarder::{DropReason, Event, Verdict};
use ndn_tlv::Memory;
use std::net::SocketAddr;

/// An event as a log shows it: without new rules and keys.
pub type LoggedEvent<'a> = Event<&'a [u8], ()>;

/// An event and its face, as a log shows them.
#[derive(Drop)]
pub struct Entry<'a> {
    /// The endpoint of the face, if it is known.
    pub endpoint: Option<SocketAddr>,
    pub event: LoggedEvent<'a>,
}

/// Returns whether the event is plain: it does not bring new rules, and its verdict is `Passed` or
/// `DataAllowed`, or says that the face is open already. A log that does not show all events leaves
/// out plain events.
pub fn is_plain(entry: &Entry<'_>, outcome: &Result<Verdict, Memory>) -> bool
    ensures { result ≡ is_plain entry.now.event outcome.now }
{
    match &entry.event {
        Event::NewRules { .. } => false,
        _ => is_plain_outcome(outcome),
    }
}

fn is_plain_outcome(outcome: &Result<Verdict, Memory>) -> bool
    ensures { result ≡ is_plain_outcome outcome.now }
{
    match outcome {
        Ok(Verdict::Passed) => true,
        Ok(Verdict::DataAllowed { .. }) => true,
        Ok(Verdict::Dropped(reason)) => is_open_already(*reason),
        _ => false,
    }
}

/// Returns whether the reason is that a face is open already. The face of a peer is open already if
/// a restart has left it open.
fn is_open_already(reason: DropReason) -> bool
    ensures { result ≡ is_open_already reason }
{
    matches!(reason, DropReason::FaceOpen)
}

/// Returns the face of a packet that was denied or dropped, or the face that could not open, or
/// `None` for another event.
pub fn refused_on(entry: &Entry<'_>, outcome: &Result<Verdict, Memory>) -> Option<u64>
    ensures { result ≡ refused_on entry.now.event outcome.now }
{
    match &entry.event {
        Event::Packet { face, .. } | Event::FaceUp { face, .. } if is_refusal(outcome) => {
            Some(*face)
        }
        _ => None,
    }
}

fn is_refusal(outcome: &Result<Verdict, Memory>) -> bool
    ensures { result ≡ is_refusal outcome.now }
{
    match outcome {
        Ok(Verdict::Denied(..)) => true,
        Ok(Verdict::NoRule(_)) => true,
        Ok(Verdict::Dropped(reason)) => !is_open_already(*reason),
        _ => false,
    }
}

/// Returns the octets that arrived, or no octets if the event is not a packet.
pub(crate) fn octets_in<'a>(entry: &Entry<'a>) -> &'a [u8]
    ensures { result.now ≡ octets_in entry.now.event }
{
    match &entry.event {
        Event::Packet { octets, .. } => octets,
        _ => &[],
    }
}

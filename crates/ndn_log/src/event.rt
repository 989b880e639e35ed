//! The lines for events.

ghost use Rattle.std.specs.Prelude.{◌≡◌, ◌++◌, drop, vec_len, option_map, IfOk, OnErr, OnOk};
ghost use Rattle.ndn_packets.specs.View.{plain_frame};
ghost use Rattle.forwarder.specs.Event.{moment_of};
ghost use Rattle.ndn_log.specs.Event.{came_words, end_words, event_words, request_words, scope_word, status_in};
ghost use Rattle.ndn_log.specs.Line.{IsLogged, IsOneLine};

use crate::command::put_command;
use crate::entry::{Entry, octets_in};
use crate::line::put_line;
use crate::packet::{frame_in, put_packet};
use crate::verdict::{put_dropped, put_outcome};
use crate::words::{put_face, put_word};
use forwarder::{Event, Scope, Verdict};
use info_rules::Rules;
use ndn_packets::Frame;
use ndn_tlv::Memory;
use std::alloc::Global;

/// Appends the line of an event: the time of the event, what happened, and the verdict, or
/// `out of memory` if `outcome` is an error. For an event on a face, the line also has the face,
/// and the endpoint of the face if known. For an allowed command, the line also has the command and
/// its parameters, and for another Interest, a Data or a Nack the packet's name. For a dropped
/// packet, the line also has the number of octets and at most the first 32 octets. The verdict
/// shows a rule by its id in `rules`, the rules in force. If memory runs out, nothing is appended.
pub fn put_event(
    alloc: Global,
    text: &mut Vec<u8>,
    entry: &Entry<'_>,
    outcome: &Result<Verdict, Memory>,
    rules: &Rules,
) -> Result<(), Memory>
    ensures ok { OnOk result (IsLogged text.old.items text.new.items (moment_of entry.now.event)
        (event_words rules.now entry.now outcome.now)) }
    // The line is safe to show on a terminal, whatever the packet and the rule file contain.
    ensures one_line { OnOk result (IsOneLine (drop (vec_len text.old) text.new.items)) }
    ensures err { OnErr result (text.new.items ≡ text.old.items) }
{
    let words = event_words(alloc, entry, outcome, rules)?;
    put_line(alloc, text, entry.event.moment(), &words)
}

fn event_words(
    alloc: Global,
    entry: &Entry<'_>,
    outcome: &Result<Verdict, Memory>,
    rules: &Rules,
) -> Result<Vec<u8>, Memory>
    ensures { IfOk result (λ words. words.items ≡ event_words rules.now entry.now outcome.now) }
{
    let frame = frame_in(octets_in(entry));
    let mut words = Vec::new(alloc);
    put_came(&mut words, entry, &frame, outcome)?;
    put_word(&mut words, ": ")?;
    put_outcome(&mut words, rules, &frame, outcome)?;
    put_end(alloc, &mut words, entry, outcome)?;
    Ok(words)
}

/// If the event is a dropped packet, appends a comma, the number of octets and at most the first 32
/// octets. Otherwise appends nothing. If memory runs out, some of the text may be appended.
fn put_end(
    alloc: Global,
    text: &mut Vec<u8>,
    entry: &Entry<'_>,
    outcome: &Result<Verdict, Memory>,
) -> Result<(), Memory>
    ensures { OnOk result (text.new.items ≡ text.old.items
        ++ end_words entry.now.event outcome.now) }
{
    match &entry.event {
        Event::Packet { octets, .. } => put_dropped(alloc, text, octets, outcome),
        _ => Ok(()),
    }
}

/// Appends what happened. If octets arrived, `frame` is the frame that they encode, or `None` if
/// they encode none. If memory runs out, some of the text may be appended.
fn put_came(
    text: &mut Vec<u8>,
    entry: &Entry<'_>,
    frame: &Option<Frame<'_>>,
    outcome: &Result<Verdict, Memory>,
) -> Result<(), Memory>
    ensures { OnOk result (text.new.items ≡ text.old.items ++ came_words entry.now.endpoint
        (option_map plain_frame frame.now) entry.now.event outcome.now) }
{
    match &entry.event {
        Event::Packet { face, .. } => {
            put_face(text, *face, entry.endpoint)?;
            put_word(text, " ")?;
            put_request(text, status_in(outcome), frame)
        }
        Event::FaceUp { face, scope, .. } => {
            put_face(text, *face, entry.endpoint)?;
            put_word(text, " opens, ")?;
            put_word(text, scope_word(*scope))
        }
        Event::FaceDown { face, .. } => {
            put_face(text, *face, entry.endpoint)?;
            put_word(text, " closes")
        }
        Event::Tick { .. } => put_word(text, "tick"),
        Event::NewRules { .. } => put_word(text, "rules replaced"),
    }
}

/// Appends an allowed command, if there is a status of the reply to it, and otherwise the kind and
/// the name of the packet. If memory runs out, some of the text may be appended.
fn put_request(
    text: &mut Vec<u8>,
    status: Option<u16>,
    frame: &Option<Frame<'_>>,
) -> Result<(), Memory>
    ensures { OnOk result (text.new.items ≡ text.old.items
        ++ request_words status (option_map plain_frame frame.now)) }
{
    match (status, frame) {
        (Some(status), Some(Frame::Interest(interest))) => {
            put_command(text, status, interest.name)
        }
        _ => put_packet(text, frame),
    }
}

/// Returns the status of the reply to an allowed command, or `None` for another outcome.
fn status_in(outcome: &Result<Verdict, Memory>) -> Option<u16>
    ensures { result ≡ status_in outcome.now }
{
    match outcome {
        Ok(Verdict::Allowed(_, status)) => Some(*status),
        _ => None,
    }
}

fn scope_word(scope: Scope) -> &'static str
    ensures { result.now ≡ scope_word scope }
{
    match scope {
        Scope::Local => "local",
        Scope::Far => "far",
    }
}

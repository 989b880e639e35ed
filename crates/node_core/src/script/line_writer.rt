//! The line of an event.
ghost use Rattle.std.specs.Prelude.{◌≡◌, ◌<◌, length, Err, IfOk, OnOk};
ghost use Rattle.std.specs.String.{string_bytes};
ghost use Rattle.ndn_packets.specs.Writing.{AreOctets};
ghost use Rattle.forwarder.specs.Event.{PlainEvent};
ghost use Rattle.node_core.specs.Script.LineWriter.{HasOctets, IsEndedLine, IsEventOf, event_text};
ghost use Rattle.node_core.specs.Script.Line.{scope_word as scope_word_of};
ghost use Rattle.node_core.specs.Script.Writing.{hex_word as hex_word_of};

use crate::files::Files;
use crate::script::line::LONGEST_LINE;
use forwarder::{Event, Scope};
use std::alloc::{AllocError, Global};
use thiserror::Error;

/// An event as a line has it: with the octets of its packet, or of the files that its rules and
/// keys were read from.
pub type WrittenEvent<'a> = Event<&'a [u8], Files<'a>>;

/// Why no line could be made for an event.
#[derive(Clone, Copy, Debug, PartialEq, Eq, Error)]
pub enum LineFault {
    /// The line would have more than 20,000 octets, not counting its LF.
    #[error("the line of an event would be too long")]
    TooLong,
    #[error("no memory for the line of an event")]
    Memory,
}

/// Returns the line of a script for an event, including the LF.
pub fn event_line(alloc: Global, event: &WrittenEvent<'_>) -> Result<String, LineFault>
    ensures text { IfOk result (λ line. string_bytes line ≡ event_text event.now) }
    ensures line { OnOk result ((plain : PlainEvent) → IsEventOf event.now plain
        → IsEndedLine plain (event_text event.now)) }
    ensures long { result ≡ Err LineFault.TooLong → 20001 < length (event_text event.now) }
{
    let Ok(line) = text_of(alloc, event) else {
        return Err(LineFault::Memory);
    };
    if line.len() > LONGEST_LINE + 1 {
        return Err(LineFault::TooLong);
    }
    Ok(line)
}

/// Returns the line of an event, including the LF, even if the line has more than 20,000 octets.
fn text_of(alloc: Global, event: &WrittenEvent<'_>) -> Result<String, AllocError>
    ensures text { IfOk result (λ line. string_bytes line ≡ event_text event.now) }
    ensures octets { OnOk result (HasOctets event.now) }
{
    match event {
        Event::Packet { face, now, octets } => {
            let (face, now) = (*face, *now);
            let octets = hex_word(alloc, octets)?;
            format!(in alloc; "in {face} {now} {octets}\n")
        }
        Event::FaceUp { face, scope, now } => {
            let (face, now) = (*face, *now);
            let scope = scope_word(*scope);
            format!(in alloc; "up {face} {scope} {now}\n")
        }
        Event::FaceDown { face, now } => {
            let (face, now) = (*face, *now);
            format!(in alloc; "down {face} {now}\n")
        }
        Event::Tick { now } => {
            let now = *now;
            format!(in alloc; "tick {now}\n")
        }
        Event::NewRules { rules, now } => {
            let now = *now;
            let keys = hex_word(alloc, rules.keys)?;
            let rules = hex_word(alloc, rules.rules)?;
            format!(in alloc; "rules {now} {rules} {keys}\n")
        }
    }
}

/// Returns the octets in lower-case hexadecimal, or a dash if there are no octets.
pub fn hex_word(alloc: Global, octets: &[u8]) -> Result<String, AllocError>
    ensures word { IfOk result (λ word. string_bytes word ≡ hex_word_of octets.now) }
    ensures octets { AreOctets octets.now }
{
    if octets.is_empty() {
        return format!(in alloc; "-");
    }
    hex::encode(alloc, octets)
}

fn scope_word(scope: Scope) -> &'static str
    ensures { result.now ≡ scope_word_of scope }
{
    match scope {
        Scope::Local => "local",
        Scope::Far => "far",
    }
}

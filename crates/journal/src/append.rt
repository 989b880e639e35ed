ghost use Rattle.std.specs.Prelude.{◌≡◌, ◌<◌, Err, IfErr, IsOk, OnErr, OnOk, false, length};
ghost use Rattle.forwarder.specs.Verdict.{verdict_of};
ghost use Rattle.node_core.specs.Script.Ending.{AppendsFront};
ghost use Rattle.node_core.specs.Script.LineWriter.{event_text};
ghost use Rattle.journal.specs.Appending.{FailsToJournal, IsLineAt, Journals, is_change_written, is_journalled_written};

use crate::file::JournalFile;
use forwarder::{Event, Verdict};
use node_core::{LineFault, WrittenEvent, event_line};
use std::alloc::Global;
use thiserror::Error;

/// Why an event was not journalled.
#[derive(Clone, Copy, Debug, PartialEq, Eq, Error)]
pub enum AppendFault {
    /// The line of the event could not be made. Nothing was written.
    #[error("{0}")]
    Line(LineFault),
    /// The file failed. A prefix of the line may have been written.
    #[error("the journal cannot be written")]
    File,
}

/// If the event must be journalled, appends the event's line to `file`, and succeeds only when the
/// line survives a crash. `verdict` is the verdict on the event. The moment of `event` is the time
/// in the line: the greatest of the moments of this event and all events answered before.
pub fn append_event<F: JournalFile>(
    alloc: Global,
    file: &mut F,
    event: &WrittenEvent<'_>,
    verdict: &Verdict,
) -> Result<(), AppendFault>
    ensures done { OnOk result (Journals (F.synced file.old) (F.synced file.new) event.now
        (verdict_of verdict.now)) }
    ensures failed { OnErr result (FailsToJournal (F.synced file.old) (F.synced file.new) event.now
        (verdict_of verdict.now)) }
    // If the line could not be made, the file is unchanged.
    ensures unmade { (why : LineFault) → result ≡ Err (AppendFault.Line why)
        → file.new ≡ file.old }
    ensures long { result ≡ Err (AppendFault.Line LineFault.TooLong)
        → 20001 < length (event_text event.now) }
    ensures cut { result ≡ Err AppendFault.File → IsLineAt event.now
        × AppendsFront (F.synced file.old) (F.synced file.new) (event_text event.now) }
    // If the event need not be journalled, the file is unchanged and the call succeeds.
    ensures silent { is_journalled_written event.now (verdict_of verdict.now) ≡ false
        → IsOk result × (file.new ≡ file.old) }
{
    if !is_journalled(event, verdict) {
        return Ok(());
    }
    let line = match event_line(alloc, event) {
        Ok(line) => line,
        Err(fault) => return Err(AppendFault::Line(fault)),
    };
    match file.append(line.as_bytes()) {
        Ok(()) => Ok(()),
        Err(_) => Err(AppendFault::File),
    }
}

/// Returns whether the event is journalled if its verdict is `verdict`.
fn is_journalled(event: &WrittenEvent<'_>, verdict: &Verdict) -> bool
    ensures { result ≡ is_journalled_written event.now (verdict_of verdict.now) }
{
    match verdict {
        Verdict::Passed => is_change(event),
        Verdict::Allowed(..) => true,
        Verdict::DataAllowed { stored, .. } => *stored,
        Verdict::Denied(..) => false,
        Verdict::NoRule(_) => false,
        Verdict::Dropped(_) => false,
    }
}

/// Returns whether the event may change faces or rules.
fn is_change(event: &WrittenEvent<'_>) -> bool
    ensures { result ≡ is_change_written event.now }
{
    match event {
        Event::Packet { .. } | Event::Tick { .. } => false,
        Event::FaceUp { .. } | Event::FaceDown { .. } | Event::NewRules { .. } => true,
    }
}

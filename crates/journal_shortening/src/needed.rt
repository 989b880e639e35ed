ghost use Rattle.std.specs.Prelude.{◌≡◌, ◌++◌, ℕ, List, OnErr, OnOk};
ghost use Rattle.journal_shortening.specs.Needed.{KeepsLines, PutsNeeded, kept_line, tick_text};

use crate::fault::ShortenFault;
use crate::playing::{Desk, survey_lines};
use crate::reach::Reach;
use crate::survey::Survey;
use forwarder::{Event, Node};
use ndn_tlv::Memory;
use node_core::{cut_line, event_line};
use std::alloc::Global;

/// The lines that a shorter journal keeps, and the time in its line `tick`.
#[derive(Debug, Drop)]
pub struct Needed {
    /// One flag for each whole line of the journal: whether the line is needed.
    pub lines: Vec<bool>,
    /// The time of the node after the replay of the journal, in milliseconds since 1970.
    pub moment: u64,
}

/// Replays the whole lines of a journal on a node that has not handled any event, and surveys the
/// lines (`Survey`). Returns which lines, according to the survey, are needed to restore the tables
/// that the whole journal restores, and the node's time after the replay.
///
/// No contract states that the needed lines alone restore these tables. The function
/// `restores_same_tables` compares the tables that two journals restore.
pub fn needed_lines(
    alloc: Global,
    node: &mut Node,
    journal: &[u8],
) -> Result<Needed, ShortenFault> {
    let mut survey = Survey::new(alloc);
    let mut desk = Desk::new(alloc);
    match survey_lines(node, journal, &mut desk, &mut survey) {
        Ok(()) => needed_by(&mut survey, node.now()),
        Err(fault) => Err(fault),
    }
}

/// Returns which lines, according to the survey, are needed to restore the tables as they are at
/// the time `now`, together with this time.
fn needed_by(survey: &mut Survey, now: u64) -> Result<Needed, ShortenFault> {
    survey.links.sort_unstable();
    let mut reach = Reach::new(survey.alloc, survey.count)?;
    survey.mark_roots(now, &mut reach)?;
    reach.close(&survey.links, &survey.floors)?;
    Ok(Needed {
        lines: reach.into_needed(),
        moment: now,
    })
}

/// Appends the needed lines of a journal, in order and each with its LF, and then a line `tick`
/// with the time `needed.moment`. If memory runs out, nothing is appended.
pub fn put_needed(out: &mut Vec<u8>, journal: &[u8], needed: &Needed) -> Result<(), Memory>
    ensures ok { OnOk result (PutsNeeded journal.now needed.now.lines.items needed.now.moment
        out.old.items out.new.items) }
    ensures err { OnErr result (out.new.items ≡ out.old.items) }
{
    let mut text = Vec::new(*out.allocator());
    put_lines(&mut text, journal, &needed.lines)?;
    put_tick(&mut text, needed.moment)?;
    out.extend_from_slice(&text)?;
    Ok(())
}

/// Appends a line `tick` with the time `moment`, and then an LF.
fn put_tick(text: &mut Vec<u8>, moment: u64) -> Result<(), Memory>
    ensures { OnOk result (text.new.items ≡ text.old.items ++ tick_text moment) }
{
    let Ok(tick) = event_line(*text.allocator(), &Event::Tick { now: moment }) else {
        return Err(Memory);
    };
    text.extend_from_slice(tick.as_bytes())?;
    Ok(())
}

/// Appends the needed lines of a journal, each with its LF. The first flag in `needed` belongs to
/// the first line, the second flag to the second line, and so on. If there are fewer flags than
/// lines, the lines without a flag are left out.
fn put_lines(text: &mut Vec<u8>, journal: &[u8], needed: &[bool]) -> Result<(), Memory>
    ensures { OnOk result ((lines : List ℕ) × KeepsLines needed.now journal.now lines
        × (text.new.items ≡ text.old.items ++ lines)) }
{
    let mut rest = journal;
    for is_needed in needed {
        let Some((line, after)) = cut_line(rest) else {
            return Ok(());
        };
        put_line(text, line, *is_needed)?;
        rest = after;
    }
    Ok(())
}

/// If `is_needed` is true, appends the line and an LF. Otherwise appends nothing.
fn put_line(text: &mut Vec<u8>, line: &[u8], is_needed: bool) -> Result<(), Memory>
    ensures { OnOk result (text.new.items ≡ text.old.items ++ kept_line is_needed line.now) }
{
    if !is_needed {
        return Ok(());
    }
    text.extend_from_slice(line)?;
    text.push(b'\n')?;
    Ok(())
}

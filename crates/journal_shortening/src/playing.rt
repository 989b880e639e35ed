use crate::fault::ShortenFault;
use crate::survey::Survey;
use forwarder::{Event, Node, Outbox, OwnedEvent, RulesAndKeys, Verdict, lend};
use node_core::{Line, cut_line, line_of};
use std::alloc::Global;

/// What an event changed in a node.
#[derive(Clone, Copy, Debug)]
pub enum Change {
    /// Nothing but the time.
    Nothing,
    /// This face was opened.
    Up(u64),
    /// This face was closed.
    Down(u64),
    /// Rules and keys were replaced.
    Rules,
    /// A command that arrived on this face was allowed, and was answered with this status.
    Command(u64, u16),
    /// A Data that arrived on this face was stored in the repository.
    Stored(u64),
    /// The event was a packet that a node does not journal: it was neither an allowed command nor
    /// an allowed Data that the repository wanted.
    NotJournalled,
}

/// What an event changed, and the node's time after the event.
#[derive(Clone, Copy, Debug)]
pub struct Seen {
    pub change: Change,
    pub now: u64,
}

/// Buffers for handling the events in the lines of a journal.
#[derive(Drop)]
pub struct Desk {
    alloc: Global,
    octets: Vec<u8>,
    outbox: Outbox,
}

impl Desk {
    pub fn new(alloc: Global) -> Desk {
        Desk {
            alloc,
            octets: Vec::new(alloc),
            outbox: Outbox::new(alloc),
        }
    }
}

/// Returns what an event changes if it takes effect. Returns `Stored` for every packet, because
/// only the verdict tells whether the packet is a command, and with which status the command was
/// answered.
fn change_of(event: &OwnedEvent) -> Change {
    match event {
        Event::Packet { face, .. } => Change::Stored(*face),
        Event::FaceUp { face, .. } => Change::Up(*face),
        Event::FaceDown { face, .. } => Change::Down(*face),
        Event::Tick { .. } => Change::Nothing,
        Event::NewRules { .. } => Change::Rules,
    }
}

/// Returns what an event with this verdict changed. `change` is what the event changes if it takes
/// effect, as `change_of` returns it.
fn change_by(change: Change, verdict: Verdict) -> Change {
    match (change, verdict) {
        (Change::Stored(face), Verdict::Allowed(_, status)) => Change::Command(face, status),
        (Change::Stored(face), Verdict::DataAllowed { stored: true, .. }) => Change::Stored(face),
        (Change::Stored(_), _) => Change::NotJournalled,
        (change, Verdict::Passed) => change,
        _ => Change::Nothing,
    }
}

/// Lets a node handle the events in the whole lines of a journal, and adds to the survey what each
/// line did.
pub fn survey_lines(
    node: &mut Node,
    journal: &[u8],
    desk: &mut Desk,
    survey: &mut Survey,
) -> Result<(), ShortenFault> {
    let mut rest = journal;
    for line in 0..u32::MAX {
        let Some((text, after)) = cut_line(rest) else {
            survey.count = line;
            return Ok(());
        };
        survey_line(node, text, line, desk, survey)?;
        rest = after;
    }
    Err(ShortenFault::TooLong)
}

/// Lets a node handle the event of one line, if the line has one, and adds to the survey what the
/// line did.
fn survey_line(
    node: &mut Node,
    text: &[u8],
    line: u32,
    desk: &mut Desk,
    survey: &mut Survey,
) -> Result<(), ShortenFault> {
    match play(node, text, line, desk)? {
        Some(seen) => survey.note(seen, &desk.octets, line),
        None => Ok(()),
    }
}

/// Lets a node handle the event of a line. Returns what the event changed, or `None` if the line
/// has no event.
fn play(
    node: &mut Node,
    text: &[u8],
    line: u32,
    desk: &mut Desk,
) -> Result<Option<Seen>, ShortenFault> {
    match line_of(desk.alloc, text) {
        Ok(Line::Event(event)) => play_event(node, event, desk),
        Ok(Line::Skipped) => Ok(None),
        Ok(Line::Bad) => Err(ShortenFault::BadLine(u64::from(line) + 1)),
        Err(_) => Err(ShortenFault::Memory),
    }
}

/// Lets a node handle an event, and returns what the event changed. If the event is a packet, its
/// octets are left in the desk.
fn play_event(
    node: &mut Node,
    event: OwnedEvent,
    desk: &mut Desk,
) -> Result<Option<Seen>, ShortenFault> {
    desk.outbox.clear();
    let change = change_of(&event);
    let event = lend(event, &mut desk.octets);
    step(node, event, change, &mut desk.outbox)
}

/// Lets a node handle an event, and returns what the event changed. `change` is what the event
/// changes if it takes effect.
fn step(
    node: &mut Node,
    event: Event<&[u8], RulesAndKeys>,
    change: Change,
    outbox: &mut Outbox,
) -> Result<Option<Seen>, ShortenFault> {
    match node.step(event, outbox) {
        Ok(verdict) => Ok(Some(Seen {
            change: change_by(change, verdict),
            now: node.now(),
        })),
        Err(_) => Err(ShortenFault::Memory),
    }
}

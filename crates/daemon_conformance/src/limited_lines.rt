//! Tests of the limits on the lines of a log.
ghost use Rattle.std.specs.Prelude.{None};

use info_rules::{Kind, Reason, RuleNo, Rules};
use ndn_daemon::{EventLog, LogSink};
use ndn_log::{Entry, LineLimits, LoggedEvent, put_left_out};
use node_core::{DropReason, Event, Scope, Verdict, read_rules};
use std::alloc::Global;

/// The time 2026-11-27T22:10:00.000Z in milliseconds since 1970.
const MOMENT: u64 = 1_795_817_400_000;

/// A destination that keeps the lines of a log.
#[derive(Drop)]
struct Lines {
    octets: Vec<u8>,
}

impl LogSink for Lines {
    ghost given = { λ _. None };

    fn take(&mut self, lines: &[u8]) {
        let _kept = self.octets.extend_from_slice(lines);
    }
}

/// Counts how many of `count` lines of a face are shown.
fn shown(limits: &mut LineLimits, moment: u64, face: u64, count: u64) -> u64 {
    let mut shown = 0u64;
    for _ in 0..count {
        if limits.admit(moment, face) {
            shown = shown.saturating_add(1);
        }
    }
    shown
}

/// Returns whether the lines about what the limits left out are `lines`.
fn tells(alloc: Global, limits: &LineLimits, lines: &str) -> bool {
    let mut text = Vec::new(alloc);
    put_left_out(alloc, &mut text, MOMENT, limits).is_ok() && text.as_slice() == lines.as_bytes()
}

/// Lines about denied and dropped packets: milliseconds after `MOMENT`, a face, the number of
/// lines, and how many of them are shown. Of 12 lines of a face in a second 10 are shown, also if
/// the face comes again after other faces.
const FIRST_LINES: [(u64, u64, u64, u64); 3] = [(0, 5, 9, 9), (999, 6, 1, 1), (0, 5, 3, 1)];

/// The lines that follow. Of 11 faces with 10 lines each, 100 lines are shown. A line of another
/// second is not shown before that second begins.
const LATER_LINES: [(u64, u64, u64, u64); 11] = [
    (0, 7, 10, 10),
    (0, 8, 10, 10),
    (0, 9, 10, 10),
    (0, 10, 10, 10),
    (0, 11, 10, 10),
    (0, 12, 10, 10),
    (0, 13, 10, 10),
    (0, 14, 10, 10),
    (0, 6, 12, 9),
    (0, 64, 1, 0),
    (1000, 99, 1, 0),
];

/// Returns whether of each row's lines as many are shown as the row says.
fn are_shown(limits: &mut LineLimits, rows: &[(u64, u64, u64, u64)]) -> bool {
    for row in rows {
        if shown(limits, MOMENT + row.0.min(1000), row.1, row.2) != row.3 {
            return false;
        }
    }
    true
}

/// Returns the limits after the lines of `FIRST_LINES`, or `None` if these are not shown as they
/// should be.
fn first_limits() -> Option<LineLimits> {
    let mut limits = LineLimits::new();
    limits.begin(MOMENT);
    if are_shown(&mut limits, &FIRST_LINES) {
        Some(limits)
    } else {
        None
    }
}

/// Returns the limits after the lines of `LATER_LINES`, or `None` if these are not shown as they
/// should be.
fn later_limits() -> Option<LineLimits> {
    let mut limits = first_limits()?;
    if are_shown(&mut limits, &LATER_LINES) {
        Some(limits)
    } else {
        None
    }
}

/// Returns the limits after 11 lines of a face in a second before `MOMENT`, or `None` if not
/// exactly 10 of these are shown.
fn limits_before() -> Option<LineLimits> {
    let mut limits = later_limits()?;
    limits.begin(MOMENT - 1);
    if shown(&mut limits, MOMENT - 1, 5, 11) == 10 {
        Some(limits)
    } else {
        None
    }
}

const FACE_FIVE: &str = "2026-11-27T22:10:00.000Z face 5: 2 more lines
";

const ALL_FACES: &str = "2026-11-27T22:10:00.000Z face 5: 2 more lines
2026-11-27T22:10:00.000Z face 6: 3 more lines
2026-11-27T22:10:00.000Z above 100 lines a second: 2 more lines
";

const FACE_FIVE_AGAIN: &str = "2026-11-27T22:10:00.000Z face 5: 1 more line
";

#[test]
fn lines_in_a_second(rt: HostRuntime) {
    let alloc = rt.alloc();
    assert!(rt; first_limits().is_some_and(|limits| tells(alloc, &limits, FACE_FIVE)));
    assert!(rt; later_limits().is_some_and(|limits| tells(alloc, &limits, ALL_FACES)));
    assert!(rt; limits_before().is_some_and(|limits| tells(alloc, &limits, FACE_FIVE_AGAIN)));
}

/// What comes to a log.
#[derive(Clone, Copy)]
enum Comes {
    /// A packet without octets on face 5, with this verdict.
    Packet(Verdict),
    /// A failed send to face 5.
    FailedSend,
    /// Face 5 could not open.
    RefusedFace,
    /// Time passed.
    Tick,
}

/// What comes to a log, in order: milliseconds after `MOMENT`, how many times it comes, and what
/// comes.
const CAME: [(u64, u64, Comes); 8] = [
    (0, 4, Comes::Packet(Verdict::Dropped(DropReason::Idle))),
    (
        0,
        2,
        Comes::Packet(Verdict::Denied(Kind::Data, RuleNo(0), Reason::SigType)),
    ),
    (0, 2, Comes::Packet(Verdict::NoRule(Kind::Data))),
    (0, 3, Comes::FailedSend),
    (0, 12, Comes::Packet(Verdict::Allowed(RuleNo(0), 200))),
    (0, 1, Comes::RefusedFace),
    (1000, 1, Comes::Tick),
    (1000, 1, Comes::FailedSend),
];

/// Returns the event on face 5 or without a face, and its verdict, or `None` for a failed send.
fn event_of(now: u64, comes: Comes) -> Option<(LoggedEvent<'static>, Verdict)> {
    match comes {
        Comes::Packet(verdict) => {
            let packet = Event::Packet {
                face: 5,
                now,
                octets: b"".as_slice(),
            };
            Some((packet, verdict))
        }
        Comes::FailedSend => None,
        Comes::RefusedFace => {
            let up = Event::FaceUp {
                face: 5,
                scope: Scope::Far,
                now,
            };
            Some((up, Verdict::Dropped(DropReason::FacesFull)))
        }
        Comes::Tick => Some((Event::Tick { now }, Verdict::Passed)),
    }
}

/// Returns the event of passing time, as a log shows it.
fn tick(now: u64) -> Entry<'static> {
    Entry {
        endpoint: None,
        event: Event::Tick { now },
    }
}

/// Puts what comes into a log.
fn put(log: &mut EventLog<Lines>, now: u64, comes: Comes, rules: &Rules) {
    match event_of(now, comes) {
        Some((event, verdict)) => {
            let entry = Entry {
                endpoint: None,
                event,
            };
            log.note(&entry, &Ok(verdict), rules, 0);
        }
        None => log.put_failed_send(now, 5, None, b"a"),
    }
}

/// Puts what comes so many times into a log.
fn put_times(log: &mut EventLog<Lines>, now: u64, times: u64, comes: Comes, rules: &Rules) {
    for _ in 0..times {
        put(log, now, comes, rules);
    }
}

/// Returns the lines of a log to which `CAME` comes.
fn logged(alloc: Global, shows_all: bool) -> Option<Vec<u8>> {
    let rules = read_rules(alloc, b"").ok()?;
    let sink = Lines {
        octets: Vec::new(alloc),
    };
    let mut log = EventLog::new(alloc, sink, shows_all);
    for came in &CAME {
        put_times(&mut log, MOMENT + came.0.min(1000), came.1, came.2, &rules);
    }
    log.note(&tick(MOMENT + 1000), &Ok(Verdict::Passed), &rules, 0);
    log.write_out();
    let sink = log.into_sink();
    Some(sink.octets)
}

/// Returns how many times a log has a text.
fn count_of(log: &[u8], text: &[u8]) -> usize {
    log.windows(text.len().max(1))
        .filter(|piece| *piece == text)
        .count()
}

/// The words of lines, how many lines have them in a log with limits, and how many in a log that
/// shows all events: dropped, denied, failed sends, allowed commands, the face that could not open,
/// and the line that tells of what was left out.
const LINES: [(&str, usize, usize); 6] = [
    (" packet: dropped, ", 4, 4),
    (" packet: denied", 4, 4),
    ("send to face 5 failed: ", 3, 4),
    ("allowed by rule ", 12, 12),
    ("face 5 opens, far: dropped, FacesFull", 0, 1),
    ("2026-11-27T22:10:01.000Z face 5: 2 more lines\n", 1, 0),
];

/// Returns whether the log has the lines of `LINES`.
fn has_lines(log: &[u8], shows_all: bool) -> bool {
    for (words, limited, all) in &LINES {
        let wanted = if shows_all { *all } else { *limited };
        if count_of(log, words.as_bytes()) != wanted {
            return false;
        }
    }
    true
}

#[test]
fn limited_lines_of_a_log(rt: HostRuntime) {
    let alloc = rt.alloc();
    assert!(rt; logged(alloc, false).is_some_and(|log| has_lines(log.as_slice(), false)));
    assert!(rt; logged(alloc, true).is_some_and(|log| has_lines(log.as_slice(), true)));
}

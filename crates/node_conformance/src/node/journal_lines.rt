//! Tests of the lines of a journal, of appending lines to a journal, and of replaying a journal.
//! `docs/SCRIPTS.md` has the format of the lines.

use super::journalled::MemoryFile;
use super::on_node;
use info_rules::RuleNo;
use journal::{ReplayFault, Replayed, append_event, are_last_rules, last_rules, replay};
use node_core::{DropReason, Event, Files, Node, Scope, Verdict, WrittenEvent, event_line};
use std::alloc::Global;
use std::io;
use std::io::{BufRead, BufReader, ErrorKind, Read};

/// Returns whether `line` is the line of the event.
fn is_line(alloc: Global, event: &WrittenEvent<'_>, line: &str) -> bool {
    event_line(alloc, event).is_ok_and(|text| text.as_str() == line)
}

/// Returns the event that opens the Local face 1 at the time 1000.
fn opening() -> WrittenEvent<'static> {
    Event::FaceUp {
        face: 1,
        scope: Scope::Local,
        now: 1000,
    }
}

#[test]
fn lines_of_faces(rt: HostRuntime) {
    assert!(rt; is_line(rt.alloc(), &opening(), "up 1 local 1000\n"));
    let closes = Event::FaceDown { face: 7, now: 1000 };
    assert!(rt; is_line(rt.alloc(), &closes, "down 7 1000\n"));
    assert!(rt; is_line(rt.alloc(), &Event::Tick { now: 1000 }, "tick 1000\n"));
}

#[test]
fn lines_of_octets(rt: HostRuntime) {
    let packet = Event::Packet {
        face: 2,
        now: 1000,
        octets: b"\x05\x0b\x07\x03\x08\x01A\x0a\x04\x01\x02\x03\x04".as_slice(),
    };
    assert!(rt;
        is_line(
            rt.alloc(),
            &packet,
            "in 2 1000 050b07030801410a0401020304\n"
        )
    );
    let rules = Event::NewRules {
        rules: Files {
            rules: b"",
            keys: b"/A 6b\n",
        },
        now: 1000,
    };
    assert!(rt; is_line(rt.alloc(), &rules, "rules 1000 - 2f412036620a\n"));
}

/// Returns whether a line can be made for new rules of `len` octets.
fn has_line(alloc: Global, len: usize) -> Option<bool> {
    let rules = vec![in alloc; b';'; len].ok()?;
    let event = Event::NewRules {
        rules: Files {
            rules: &rules,
            keys: b"",
        },
        now: 1000,
    };
    Some(event_line(alloc, &event).is_ok())
}

/// A line of a script has at most 20,000 octets, not counting its LF. The lines of this test
/// consist of `rules 1000 `, the octets of the rules in hexadecimal, and ` -`.
#[test]
fn longest_lines(rt: HostRuntime) {
    assert!(rt; has_line(rt.alloc(), 9_993) == Some(true));
    assert!(rt; has_line(rt.alloc(), 9_994) == Some(false));
}

/// Calls `append_event` for an event with this verdict and an empty file, and returns the file.
fn file_after(alloc: Global, event: &WrittenEvent<'_>, verdict: Verdict) -> Option<MemoryFile> {
    let mut file = MemoryFile {
        octets: Vec::new(alloc),
        left: 1,
    };
    append_event(alloc, &mut file, event, &verdict).ok()?;
    Some(file)
}

/// Returns whether `append_event` writes exactly these octets for an event with this verdict.
fn appends(alloc: Global, event: &WrittenEvent<'_>, verdict: Verdict, octets: &[u8]) -> bool {
    file_after(alloc, event, verdict).is_some_and(|file| file.octets.as_slice() == octets)
}

/// The journal gets a line for the opening of a face, but no line for an opening that the node
/// refuses.
#[test]
fn journal_of_an_opening(rt: HostRuntime) {
    assert!(rt;
        appends(
            rt.alloc(),
            &opening(),
            Verdict::Passed,
            b"up 1 local 1000\n"
        )
    );
    let dropped = Verdict::Dropped(DropReason::FaceOpen);
    assert!(rt; appends(rt.alloc(), &opening(), dropped, b""));
}

/// The journal gets no line for a tick.
#[test]
fn journal_of_a_moment(rt: HostRuntime) {
    assert!(rt; appends(rt.alloc(), &Event::Tick { now: 1000 }, Verdict::Passed, b""));
}

/// The journal gets a line for an allowed Data only if the node stored it.
#[test]
fn journal_of_a_data(rt: HostRuntime) {
    let data = Event::Packet {
        face: 1,
        now: 1000,
        octets: b"\x06\x00".as_slice(),
    };
    let stored = Verdict::DataAllowed {
        rule: RuleNo(0),
        stored: true,
    };
    assert!(rt; appends(rt.alloc(), &data, stored, b"in 1 1000 0600\n"));
    let passed_on = Verdict::DataAllowed {
        rule: RuleNo(0),
        stored: false,
    };
    assert!(rt; appends(rt.alloc(), &data, passed_on, b""));
}

/// Returns whether replaying a text on a node has this result.
fn ends(alloc: Global, node: &mut Node, text: &[u8], end: &Result<Replayed, ReplayFault>) -> bool {
    let mut reader = text;
    replay(alloc, node, &mut reader) == *end
}

/// Returns whether replaying a text on a new node has this result.
fn ends_on_new_node(
    alloc: Global,
    text: &[u8],
    end: &Result<Replayed, ReplayFault>,
) -> Option<bool> {
    on_node(alloc, &|alloc, node| Some(ends(alloc, node, text, end)))
}

const SOME_EVENTS: &[u8] = b"rules 900 - -
up 1 local 1000
up 2 far 1001
in 2 1002 050b07030801410a0401020304
down 2 1003
";

/// Returns the number of whole lines in the text, and the number of octets in these lines.
fn whole_lines(text: &[u8]) -> (usize, usize) {
    let events = text.iter().filter(|octet| **octet == b'\n').count();
    let whole = text
        .iter()
        .rposition(|octet| *octet == b'\n')
        .map_or(0, |at| at + 1);
    (events, whole)
}

/// Returns whether a replay of the text replays exactly the whole lines of the text. The caller
/// gives a text in which each whole line spells an event.
fn replays_whole_lines(alloc: Global, text: &[u8]) -> bool {
    let (events, whole) = whole_lines(text);
    let wanted = Replayed {
        events: events as u64,
        whole: whole as u64,
        cut: text.len().saturating_sub(whole) as u64,
    };
    ends_on_new_node(alloc, text, &Ok(wanted)) == Some(true)
}

/// A crash may cut a journal at any octet. A replay then replays the whole lines before the cut.
#[test]
fn fronts_of_a_journal(rt: HostRuntime) {
    for len in 0..SOME_EVENTS.len() + 1 {
        assert!(rt;
            replays_whole_lines(rt.alloc(), &SOME_EVENTS[..len]),
            "the first {len} octets"
        );
    }
}

/// Returns the number of the open face at index `i`, or `None` if there is no such face.
fn face_at(node: &Node, i: usize) -> Option<u64> {
    let (face, _) = node.open_face(i)?;
    Some(face)
}

/// Returns whether a node has this time, and its first two open faces have these numbers. A number
/// `None` means that there is no such face.
fn has(node: &Node, wanted: &(u64, Option<u64>, Option<u64>)) -> bool {
    (node.now(), face_at(node, 0), face_at(node, 1)) == *wanted
}

/// Returns whether a node has this time and these open faces after a replay of the text.
fn leaves(
    alloc: Global,
    node: &mut Node,
    text: &[u8],
    wanted: &(u64, Option<u64>, Option<u64>),
) -> bool {
    let mut reader = text;
    replay(alloc, node, &mut reader).is_ok() && has(node, wanted)
}

/// Returns whether a new node has this time and these open faces after a replay of the text.
fn leaves_new_node(
    alloc: Global,
    text: &[u8],
    wanted: &(u64, Option<u64>, Option<u64>),
) -> Option<bool> {
    on_node(
        alloc,
        &|alloc, node| Some(leaves(alloc, node, text, wanted)),
    )
}

/// If a crash cuts a line short, the cut line may look like another event. So a replay leaves the
/// cut line out.
#[test]
fn lines_that_were_cut(rt: HostRuntime) {
    let text = b"up 1 local 1000\nup 22 far 1001\ntick 1700\n";
    let all = (1700, Some(1), Some(22));
    assert!(rt; leaves_new_node(rt.alloc(), text, &all) == Some(true));
    let last = (1001, Some(1), Some(22));
    assert!(rt; leaves_new_node(rt.alloc(), &text[..text.len() - 3], &last) == Some(true));
    let first = (1000, Some(1), None);
    let text = b"up 1 local 1000\nup 22 far 1001";
    assert!(rt; leaves_new_node(rt.alloc(), text, &first) == Some(true));
}

#[test]
fn bad_lines_of_a_journal(rt: HostRuntime) {
    let bad = Err(ReplayFault::BadLine(3));
    let text = b"tick 1\n# 2\ntick 03\ntick 4\n";
    assert!(rt; ends_on_new_node(rt.alloc(), text, &bad) == Some(true));
    let cut = Ok(Replayed {
        events: 1,
        whole: 11,
        cut: 7,
    });
    let text = b"tick 1\n# 2\ntick 03";
    assert!(rt; ends_on_new_node(rt.alloc(), text, &cut) == Some(true));
}

/// A reader that gives its octets once and then fails.
#[derive(Drop)]
struct Failing<'a> {
    octets: &'a [u8],
    kind: ErrorKind,
}

impl Read for Failing<'_> {
    fn read(&mut self, buf: &mut [u8]) -> io::Result<usize> {
        if self.octets.is_empty() {
            return Err(io::Error::from(self.kind));
        }
        let count = self.octets.len().min(buf.len());
        let (front, rest) = self.octets.split_at(count);
        buf[..count].copy_from_slice(front);
        self.octets = rest;
        Ok(count)
    }
}

/// Returns whether a replay on a node fails with this fault, and leaves the node at this time.
fn fails_at<R: BufRead>(
    alloc: Global,
    node: &mut Node,
    reader: &mut R,
    now: u64,
    fault: ReplayFault,
) -> bool {
    replay(alloc, node, reader) == Err(fault) && node.now() == now
}

/// Replays a journal from a reader that fails with `kind` after these octets. Returns whether the
/// replay fails with this fault and leaves the node at the time 17.
fn fails_after(
    alloc: Global,
    node: &mut Node,
    octets: &[u8],
    kind: ErrorKind,
    fault: ReplayFault,
) -> Option<bool> {
    let mut reader = BufReader::new(alloc, Failing { octets, kind }).ok()?;
    Some(fails_at(alloc, node, &mut reader, 17, fault))
}

/// Returns whether a replay on a new node fails with this fault if the reader fails with an error
/// of this kind. Before the failure, the reader gives one whole line and a part of a line. Only the
/// whole line may be replayed.
fn fails_with(alloc: Global, kind: ErrorKind, fault: ReplayFault) -> Option<bool> {
    on_node(
        alloc,
        &|alloc, node| fails_after(alloc, node, b"tick 17\ntick 1700", kind, fault),
    )
}

#[test]
fn a_reader_that_fails(rt: HostRuntime) {
    assert!(rt; fails_with(rt.alloc(), ErrorKind::Other, ReplayFault::Read) == Some(true));
    let memory = ReplayFault::Memory;
    assert!(rt; fails_with(rt.alloc(), ErrorKind::OutOfMemory, memory) == Some(true));
}

/// Returns whether the last whole line of new rules in the text gives a rule file with the octets
/// `rules` and a key file with the octets `keys`.
fn are_last(alloc: Global, text: &[u8], rules: &[u8], keys: &[u8]) -> Option<bool> {
    let mut reader = text;
    are_last_rules(alloc, &mut reader, rules, keys).ok()
}

#[test]
fn last_of_two_lines_of_rules(rt: HostRuntime) {
    let text = b"rules 1 - 6b\nrules 2 3b4a -\nup 1 local 3\n";
    assert!(rt; are_last(rt.alloc(), text, b";J", b"") == Some(true));
    assert!(rt; are_last(rt.alloc(), text, b"", b"k") == Some(false));
}

/// The last rules of a journal are the rules in its last whole line of new rules. If a crash cut a
/// line short, the line is ignored.
#[test]
fn rules_that_were_cut(rt: HostRuntime) {
    let text = b"rules 1 - 6b\nrules 2 3b4a -";
    assert!(rt; are_last(rt.alloc(), text, b"", b"k") == Some(true));
    assert!(rt; are_last(rt.alloc(), text, b";J", b"") == Some(false));
}

/// Returns whether the text has no whole line of new rules.
fn has_no_rules(alloc: Global, text: &[u8]) -> bool {
    let mut reader = text;
    matches!(last_rules(alloc, &mut reader), Ok(None))
}

#[test]
fn journals_without_rules(rt: HostRuntime) {
    assert!(rt; has_no_rules(rt.alloc(), b"up 1 local 3\nrules 4 - -"));
    assert!(rt; are_last(rt.alloc(), b"up 1 local 3\n", b"", b"") == Some(false));
}

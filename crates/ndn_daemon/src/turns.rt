//! The turns of a node at its ports: with a journal or without, with a log or without.
ghost use Rattle.std.specs.Prelude.{◌≡◌, ◌≢◌, ◌⊎◌, ◌↔◌, ◌≤◌, ◌+◌, ◌++◌, ◌∷◌, List, [], None, length, map, slice_get, take, vec_len, IsOk, IsTrue, IfErr, IfOk, IfSome, OnErr, OnOk};
ghost use Rattle.std.specs.Vec.{vec_capacity};
ghost use Rattle.std.specs.Io.KnownBytes.{Appends};
ghost use Rattle.journal.specs.declared.replaying.Replayed.{Replayed};
ghost use Rattle.node_ports.specs.Ports.{plain_arrival};
ghost use Rattle.node_ports.specs.Renewal.{RenewalValue};
ghost use Rattle.node_ports.specs.Serving.{IsTurn};
ghost use Rattle.node_ports.specs.Step.{PortStep};
ghost use Rattle.node_core.specs.Script.Ending.{AppendsFront};
ghost use Rattle.ndn_log.specs.Notes.{start_words};
ghost use Rattle.ndn_daemon.specs.EventLog.{Tells};
ghost use Rattle.ndn_daemon.specs.Journal.{ReplaysJournal};
ghost use Rattle.ndn_daemon.specs.Program.{FailsToRestore, RunsAfresh, RunsRestored};
ghost use Rattle.ndn_daemon.specs.Restart.{IsRestart, closing, closings, is_of_peer};
ghost use Rattle.ndn_daemon.specs.Turn.{EndsAs, EndsTurns, ServesTurns, StopsQuietTurns, StopsTurn, StopsTurns, TakesTurns, Writes, turn_text};

use crate::event_log::{EventLog, LogSink, report};
use crate::fault::{Fault, JournalFault};
use crate::logged_ports::{HasEndpoints, LoggedPorts};
use crate::stored_journal::StoredJournal;
use crate::udp_options::{LogLevel, UdpOptions};
use crate::watched_ports::{RuleSource, WatchedPorts};
use info_rules::Rules;
use ndn_log::{Start, put_start};
use node_core::{
    Event, MAX_FACES, Node, Outbox, RunFault, Scope, put_all, put_refused, put_sends, put_verdict,
};
use node_ports::{
    FRAME_ROOM, JournalledPorts, OwnedArrival, Ports, RestartedPorts, ServeFault, Turn, serve,
    serve_turn_in, serve_turn_soon,
};
use std::alloc::{AllocError, Global};
use std::io::Write;

/// If the buffered text has at least this many octets after a turn, the text is written.
const MOST_GATHERED: usize = 65_536;

/// The ports, the source and the log that were handed to a run of a node, and how the run ended.
#[derive(Drop)]
pub struct Ran<P: Ports + Drop, S: RuleSource, L: LogSink> {
    pub ports: P,
    pub source: S,
    /// Where the lines of the log were written.
    pub log: L,
    pub done: Result<(), Fault>,
}

/// Lets a node take the requested turns at its ports. If `source` has new rules and keys when it is
/// checked, they replace the node's rules and keys. The answers are written to `writer`, unless the
/// node is quiet. The log, if the options ask for one, is written to `log`; it begins with the line
/// of the start.
pub fn run<P: Ports + HasEndpoints + Drop, S: RuleSource, L: LogSink, W: Write>(
    alloc: Global,
    node: &mut Node,
    ports: P,
    source: S,
    mut log: L,
    writer: &mut W,
    options: &UdpOptions,
    start: Start,
) -> Ran<P, S, L>
    ensures ran { RunsAfresh P.does S.renews (P.has_journal ports) options.now.quiet
        options.now.turns ports result.ports source result.source node.old node.new
        (W.contents writer.old) (W.contents writer.new) result.done }
    ensures fault { IfErr result.done EndsTurns }
    ensures none { options.now.turns ≡ 0 → IsOk result.done }
{
    report_start(alloc, &mut log, options.log, &start);
    let watched = WatchedPorts::new(ports, source);
    let (watched, log, done) = take_logged(alloc, node, watched, log, writer, options, start);
    let (ports, source) = watched.into_parts();
    Ran {
        ports,
        source,
        log,
        done,
    }
}

/// Replays a journal on a node. Then does the same as `run`, with the events of the restart before
/// what arrives at the ports: unless the last rules and keys in the journal are those of `source`,
/// the node's rules and keys are replaced by those of `source`; and open faces that are no peers'
/// faces close. What must be journalled is appended to the journal. If the node cannot be restored,
/// it takes no turn.
pub fn run_restored<
    P: Ports + HasEndpoints + Drop,
    S: RuleSource,
    J: StoredJournal,
    L: LogSink,
    W: Write,
>(
    alloc: Global,
    node: &mut Node,
    mut journal: J,
    ports: P,
    mut source: S,
    mut log: L,
    writer: &mut W,
    options: &UdpOptions,
    start: Start,
) -> (Ran<P, S, L>, J)
    ensures { ((RunsRestored P.does S.renews S.present options.now.quiet options.now.turns
        (length options.now.peers.items) options.now.local ports result.0.ports source
        result.0.source (J.synced journal) (J.synced result.1) node.old node.new
        (W.contents writer.old) (W.contents writer.new) result.0.done)
        × (options.now.turns ≡ 0 → IsOk result.0.done))
        ⊎ (FailsToRestore S.renews ports result.0.ports source result.0.source (J.synced journal)
        (J.synced result.1) node.old node.new (W.contents writer.old) (W.contents writer.new)
        result.0.done) }
{
    let first = match restart_of(
        alloc,
        node,
        &mut journal,
        &mut source,
        &mut log,
        options,
        start,
    ) {
        Ok(first) => first,
        Err(fault) => {
            let ran = Ran {
                ports,
                source,
                log,
                done: Err(fault),
            };
            return (ran, journal);
        }
    };
    let ports = RestartedPorts::new(first, WatchedPorts::new(ports, source));
    let ports = JournalledPorts::new(alloc, ports, journal);
    let (ports, log, done) = take_logged(alloc, node, ports, log, writer, options, start);
    let (ports, journal) = ports.into_parts();
    let (ports, source) = ports.into_ports().into_parts();
    let ran = Ran {
        ports,
        source,
        log,
        done,
    };
    (ran, journal)
}

/// Replays the events of a journal on a node, and returns the first events after the restart. The
/// log, if the options ask for one, gets the line of the start.
fn restart_of<J: StoredJournal, S: RuleSource, L: LogSink>(
    alloc: Global,
    node: &mut Node,
    journal: &mut J,
    source: &mut S,
    log: &mut L,
    options: &UdpOptions,
    start: Start,
) -> Result<Vec<OwnedArrival>, Fault>
    ensures replayed { IfOk result (λ first. (done : Replayed) × (renewal : RenewalValue)
        × ReplaysJournal (J.synced journal.old) (J.synced journal.new) node.old node.new done
        × S.present source.old renewal
        × IsRestart (J.synced journal.new) renewal (length options.now.peers.items)
        options.now.local node.new (map plain_arrival first.items)) }
    ensures failed { OnErr result ((J.synced journal.new ≡ J.synced journal.old)
        ⊎ ((done : Replayed)
        × ReplaysJournal (J.synced journal.old) (J.synced journal.new) node.old node.new done)) }
    ensures source { S.renews source.old [] source.new }
{
    let renewal = source.current()?;
    let replayed = journal.replay(alloc, node)?;
    report_cut(alloc, log, start.moment, replayed.cut);
    let mut first = Vec::new(alloc);
    let now = node.now();
    if !journal.has_last(alloc, &renewal)? {
        put_first(
            &mut first,
            Event::NewRules {
                rules: renewal,
                now,
            },
        )?;
    }
    put_closings(&mut first, node, options)?;
    let start = Start {
        replayed: Some(replayed.events),
        ..start
    };
    report_start(alloc, log, options.log, &start);
    Ok(first)
}

/// Reports the start of the node, unless the log shows nothing or memory runs out.
fn report_start<L: LogSink>(alloc: Global, log: &mut L, level: LogLevel, start: &Start)
    ensures { Tells (L.given log.old) (L.given log.new) start.now.moment (start_words start.now) }
{
    if level == LogLevel::None {
        return;
    }
    let mut line = Vec::new(alloc);
    if put_start(alloc, &mut line, start).is_ok() {
        log.take(&line);
    }
}

/// Reports that a crash cut the last line of the journal short to `cut` octets, and that this line
/// is removed. Reports nothing if `cut` is 0, or if memory runs out for the report.
fn report_cut<L: LogSink>(alloc: Global, log: &mut L, moment: u64, cut: u64) {
    if cut == 0 {
        return;
    }
    let words = format!(in alloc;
        "journal: the last line was cut short and is taken off: {cut} octets"
    );
    if let Ok(words) = words {
        report(alloc, log, moment, words.as_bytes());
    }
}

/// Appends the closings of the open faces that do not have both the number and the scope of a
/// peer's face, at the time of the node.
fn put_closings(
    first: &mut Vec<OwnedArrival>,
    node: &Node,
    options: &UdpOptions,
) -> Result<(), AllocError>
    ensures { OnOk result (map plain_arrival first.new.items
        ≡ map plain_arrival first.old.items ++ closings (length options.now.peers.items)
        options.now.local node.now.policy.now (take 64 node.now.policy.faces)) }
{
    for i in 0..MAX_FACES {
        put_closing(first, node, i, options)?;
    }
    Ok(())
}

/// Appends the closing of the open face at index `i`, unless it has the number and the scope of a
/// peer's face, or there are `i` or fewer open faces.
fn put_closing(
    first: &mut Vec<OwnedArrival>,
    node: &Node,
    i: usize,
    options: &UdpOptions,
) -> Result<(), AllocError>
    ensures { OnOk result (map plain_arrival first.new.items
        ≡ map plain_arrival first.old.items ++ closing (length options.now.peers.items)
        options.now.local node.now.policy.now (slice_get node.now.policy.faces i)) }
{
    let Some((face, scope)) = node.open_face(i) else {
        return Ok(());
    };
    if is_of_peer(face, scope, options) {
        return Ok(());
    }
    let now = node.now();
    put_first(first, Event::FaceDown { face, now })
}

/// Appends one event.
fn put_first(first: &mut Vec<OwnedArrival>, event: OwnedArrival) -> Result<(), AllocError>
    ensures { OnOk result (first.new.items ≡ first.old.items ++ (event ∷ [])) }
{
    match first.push(event) {
        Ok(()) => Ok(()),
        Err(full) => Err(AllocError::from(full)),
    }
}

/// Returns whether the face has the number and the scope of a peer's face.
fn is_of_peer(face: u64, scope: Scope, options: &UdpOptions) -> bool
    ensures { result
        ≡ is_of_peer (length options.now.peers.items) options.now.local (face, scope) }
{
    let is_local = scope == Scope::Local;
    0 < face && face <= options.peers.len() as u64 && is_local == (face <= options.local)
}

/// Lets a node take the requested turns, with a log if the options ask for one. Returns the ports,
/// the destination of the log, and how the turns ended. No line has a time before the start.
fn take_logged<P: Ports + HasEndpoints + Drop, L: LogSink, W: Write>(
    alloc: Global,
    node: &mut Node,
    mut ports: P,
    log: L,
    writer: &mut W,
    options: &UdpOptions,
    start: Start,
) -> (P, L, Result<(), Fault>)
    ensures ended { (steps : List PortStep) × P.does ports steps result.0
        × EndsAs options.now.quiet (P.has_journal ports) node.old node.new options.now.turns steps
        (W.contents writer.old) (W.contents writer.new) result.2 }
    ensures fault { IfErr result.2 EndsTurns }
    ensures none { options.now.turns ≡ 0 → IsOk result.2 }
{
    if options.log == LogLevel::None {
        let done = take_as_asked(alloc, node, &mut ports, writer, options);
        return (ports, log, done);
    }
    let log = EventLog::new(alloc, log, options.log == LogLevel::All);
    let mut logged = LoggedPorts::new(ports, log, start.moment);
    let done = take_as_asked(alloc, node, &mut logged, writer, options);
    let (ports, log) = logged.finish();
    (ports, log, done)
}

/// Lets a node take the requested turns. A quiet node writes no answers.
fn take_as_asked<P: Ports, W: Write>(
    alloc: Global,
    node: &mut Node,
    ports: &mut P,
    writer: &mut W,
    options: &UdpOptions,
) -> Result<(), Fault>
    ensures ended { (steps : List PortStep) × P.does ports.old steps ports.new
        × EndsAs options.now.quiet (P.has_journal ports.old) node.old node.new options.now.turns
        steps (W.contents writer.old) (W.contents writer.new) result }
    ensures fault { IfErr result EndsTurns }
    ensures none { options.now.turns ≡ 0 → IsOk result }
{
    if options.quiet {
        take_quiet_turns(alloc, node, ports, options.turns)
    } else {
        take_turns(alloc, node, ports, writer, options.turns)
    }
}

/// Lets a node take this number of turns, or fewer if the port ends. Writes no answers.
fn take_quiet_turns<P: Ports>(
    alloc: Global,
    node: &mut Node,
    ports: &mut P,
    turns: u64,
) -> Result<(), Fault>
    ensures done { OnOk result ((steps : List PortStep) × P.does ports.old steps ports.new
        × ServesTurns (P.has_journal ports.old) node.old node.new turns steps) }
    ensures stopped { IfErr result (λ why. (steps : List PortStep)
        × P.does ports.old steps ports.new
        × StopsQuietTurns (P.has_journal ports.old) node.old node.new turns steps why) }
    ensures fault { IfErr result EndsTurns }
    ensures none { turns ≡ 0 → IsOk result }
{
    match serve(alloc, node, ports, turns) {
        Ok(_) => Ok(()),
        Err(ServeFault::Next { .. }) => Err(Fault::Unreceived),
        Err(ServeFault::Journal { .. }) => Err(Fault::Journal(JournalFault::Unwritten)),
    }
}

/// Lets a node take this number of turns, or fewer if the port ends, and writes the text of the
/// turns. The text is buffered. The buffered text is written in three cases: it has at least
/// `MOST_GATHERED` octets, or the node is about to wait for an arrival, or no further turn is
/// taken.
fn take_turns<P: Ports, W: Write>(
    alloc: Global,
    node: &mut Node,
    ports: &mut P,
    writer: &mut W,
    turns: u64,
) -> Result<(), Fault>
    ensures done { OnOk result ((steps : List PortStep) × P.does ports.old steps ports.new
        × TakesTurns (P.has_journal ports.old) node.old node.new turns steps
        (W.contents writer.old) (W.contents writer.new)) }
    ensures stopped { IfErr result (λ why. (steps : List PortStep)
        × P.does ports.old steps ports.new
        × StopsTurns (P.has_journal ports.old) node.old node.new turns steps
        (W.contents writer.old) (W.contents writer.new) why) }
    ensures fault { IfErr result EndsTurns }
    ensures none { turns ≡ 0 → IsOk result }
{
    let mut outbox = Outbox::new(alloc);
    let mut text = Vec::new(alloc);
    let mut buffer = [0; FRAME_ROOM];
    for number in 0..turns {
        let turn = take_turn(node, ports, writer, &mut buffer, &mut outbox, &mut text)?;
        if is_end(&turn) {
            return write_out(writer, &mut text);
        }
        if let Err(fault) = put_turn(&mut text, number + 1, &turn, node.rules(), &outbox) {
            write_out(writer, &mut text)?;
            return Err(fault);
        }
        write_long(writer, &mut text)?;
    }
    write_out(writer, &mut text)
}

/// Lets a node take its next turn. If nothing arrives soon, the buffered text is written before the
/// node waits. If the event of the turn could not be journalled, writes as much of the buffered
/// text as possible, and returns a fault.
fn take_turn<P: Ports, W: Write>(
    node: &mut Node,
    ports: &mut P,
    writer: &mut W,
    buffer: &mut [u8; FRAME_ROOM],
    outbox: &mut Outbox,
    text: &mut Vec<u8>,
) -> Result<Turn, Fault>
    ensures turn { IfOk result (λ turn. (steps : List PortStep)
        × P.does ports.old steps ports.new
        × IsTurn (P.has_journal ports.old) node.old node.new outbox.new turn steps) }
    ensures written { IfOk result (λ turn. turn ≢ Turn.Unwritten) }
    ensures text { IfOk result (λ _. Writes (W.contents writer.old) (W.contents writer.new)
        text.old.items text.new.items) }
    ensures stopped { IfErr result (λ why. (steps : List PortStep)
        × P.does ports.old steps ports.new
        × StopsTurn (P.has_journal ports.old) node.old node.new steps
        (W.contents writer.old) (W.contents writer.new) text.old.items why) }
{
    let turn = next_turn(node, ports, writer, buffer, outbox, text)?;
    if is_unwritten(&turn) {
        let _written = write_out(writer, text);
        return Err(Fault::Journal(JournalFault::Unwritten));
    }
    Ok(turn)
}

/// Lets a node take its next turn. If nothing arrives soon, the buffered text is written before the
/// node waits. If the event of the turn could not be journalled, returns the turn `Unwritten`.
fn next_turn<P: Ports, W: Write>(
    node: &mut Node,
    ports: &mut P,
    writer: &mut W,
    buffer: &mut [u8; FRAME_ROOM],
    outbox: &mut Outbox,
    text: &mut Vec<u8>,
) -> Result<Turn, Fault>
    ensures turn { IfOk result (λ turn. (steps : List PortStep)
        × P.does ports.old steps ports.new
        × IsTurn (P.has_journal ports.old) node.old node.new outbox.new turn steps) }
    ensures text { IfOk result (λ _. Writes (W.contents writer.old) (W.contents writer.new)
        text.old.items text.new.items) }
    ensures stopped { IfErr result (λ why. (steps : List PortStep)
        × P.does ports.old steps ports.new
        × StopsTurn (P.has_journal ports.old) node.old node.new steps
        (W.contents writer.old) (W.contents writer.new) text.old.items why) }
{
    if let Some(turn) = turn_soon(node, ports, buffer, outbox, text.as_slice()) {
        return Ok(turn);
    }
    write_out(writer, text)?;
    match serve_turn_in(node, ports, buffer, outbox) {
        Ok(turn) => Ok(turn),
        Err(_) => Err(Fault::Unreceived),
    }
}

/// If the buffered text `text` is not empty and something arrives soon, lets a node take its next
/// turn, and returns this turn. Otherwise returns `None`.
fn turn_soon<P: Ports>(
    node: &mut Node,
    ports: &mut P,
    buffer: &mut [u8; FRAME_ROOM],
    outbox: &mut Outbox,
    text: &[u8],
) -> Option<Turn>
    ensures turn { IfSome result (λ turn. (steps : List PortStep)
        × P.does ports.old steps ports.new
        × IsTurn (P.has_journal ports.old) node.old node.new outbox.new turn steps) }
    ensures none { result ≡ None → P.does ports.old [] ports.new × (node.new ≡ node.old) }
{
    if text.is_empty() {
        return None;
    }
    serve_turn_soon(node, ports, buffer, outbox)
}

/// Writes the buffered text.
fn write_out<W: Write>(writer: &mut W, text: &mut Vec<u8>) -> Result<(), Fault>
    ensures done { OnOk result
        (Appends (W.contents writer.old) (W.contents writer.new) text.old.items) }
    ensures empty { OnOk result (text.new.items ≡ []) }
    ensures none { text.old.items ≡ [] → IsOk result }
    ensures cut { OnErr result
        (AppendsFront (W.contents writer.old) (W.contents writer.new) text.old.items) }
    ensures fault { IfErr result (λ fault. fault ≡ Fault.Script RunFault.Write) }
{
    if text.is_empty() {
        return Ok(());
    }
    let Ok(()) = put_all(writer, text.as_slice()) else {
        return Err(Fault::Script(RunFault::Write));
    };
    text.clear();
    Ok(())
}

/// Writes the buffered text if it has at least `MOST_GATHERED` octets.
fn write_long<W: Write>(writer: &mut W, text: &mut Vec<u8>) -> Result<(), Fault>
    ensures done { OnOk result (Writes (W.contents writer.old) (W.contents writer.new)
        text.old.items text.new.items) }
    ensures cut { OnErr result
        (AppendsFront (W.contents writer.old) (W.contents writer.new) text.old.items) }
    ensures fault { IfErr result (λ fault. fault ≡ Fault.Script RunFault.Write) }
{
    if text.len() < MOST_GATHERED {
        return Ok(());
    }
    write_out(writer, text)
}

/// Returns whether the event of the turn could not be journalled.
fn is_unwritten(turn: &Turn) -> bool
    ensures { IsTrue result ↔ (turn.now ≡ Turn.Unwritten) }
{
    matches!(turn, Turn::Unwritten)
}

/// Returns whether the turn is `End`, that is, whether the port has no more arrivals.
fn is_end(turn: &Turn) -> bool
    ensures { IsTrue result ↔ (turn.now ≡ Turn.End) }
{
    matches!(turn, Turn::End)
}

/// Appends the text of a turn, in the format of the answers to a script. The turns `End` and
/// `Unwritten` have no text. If memory runs out, nothing is appended.
fn put_turn(
    text: &mut Vec<u8>,
    number: u64,
    turn: &Turn,
    rules: &Rules,
    outbox: &Outbox,
) -> Result<(), Fault>
    ensures ok { OnOk result
        (text.new.items ≡ text.old.items ++ turn_text number rules.now turn.now outbox.now) }
    ensures err { OnErr result (text.new.items ≡ text.old.items) }
    ensures fault { IfErr result (λ fault. fault ≡ Fault.Script RunFault.Memory) }
    // If the text of the turn fits into the unused capacity of `text`, memory does not run out.
    ensures room { vec_len text.old + length (turn_text number rules.now turn.now outbox.now)
        ≤ vec_capacity text.old → IsOk result }
{
    let len = text.len();
    let put = match turn {
        Turn::Done { verdict, .. } => put_verdict(text, number, verdict, rules),
        Turn::Refused => put_refused(text, number),
        Turn::Unwritten | Turn::End => return Ok(()),
    };
    if put.is_err() || put_sends(text, outbox).is_err() {
        text.truncate(len);
        return Err(Fault::Script(RunFault::Memory));
    }
    Ok(())
}

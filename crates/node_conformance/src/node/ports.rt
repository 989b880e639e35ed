use super::{on_node, spelled};
use key_files::KeyBook;
use node_core::{Event, Node, Outbox, Scope, put_refused, put_sends, put_verdict, read_rules};
use node_ports::{
    FileOctets, MemoryPorts, OwnedArrival, Ports, Renewal, ServeFault, Served, Turn, serve,
    serve_turn,
};
use std::alloc::Global;

/// Two faces open, an Interest without a route comes, and a Data with a wrong signature comes
/// twice.
pub const FIRST_PATH: &str = "up 1 local 0
up 2 far 0
in 1 1000 050b07030801410a0401020304
in 2 1050 060f070308014115017816031b01001700
in 2 1060 060f070308014115017816031b01001700
";

/// The answers to `FIRST_PATH`.
const FIRST_ANSWERS: &str = "1 passed
2 passed
3 passed
> 1 6418fd032005fd03210196500d050b07030801410a0401020304
4 denied data Tag any-data
5 denied data Tag any-data
";

/// Returns the word at index `i` of a line, counted from 0, or `""` if the line has no such word.
fn word(line: &str, i: usize) -> &str {
    line.split(' ').nth(i).unwrap_or("")
}

/// Returns the octets that a word gives in hexadecimal. A dash stands for no octets.
fn packet_of(alloc: Global, word: &str) -> Option<Vec<u8>> {
    hex::decode(alloc, if word == "-" { "" } else { word }).ok()
}

/// Returns the word at index `i` of a line as a number, or `None` if this word is not a number.
fn number(line: &str, i: usize) -> Option<u64> {
    word(line, i).parse::<u64>().ok()
}

/// Returns the scope Local for the word `local`, and the scope Far for any other word.
fn scope_of(word: &str) -> Scope {
    if word == "local" {
        Scope::Local
    } else {
        Scope::Far
    }
}

/// Returns the rules and keys in the octets of a rule file and of a key file.
fn renewal_of(alloc: Global, rules: Vec<u8>, keys: Vec<u8>) -> Option<Renewal> {
    let read = read_rules(alloc, &rules).ok()?;
    let book = KeyBook::read_octets(alloc, &keys).ok()?;
    Some(Renewal::new(read, book, FileOctets { rules, keys }))
}

/// Returns the arrival `NewRules` that a line of a script spells.
fn new_rules_arrival(alloc: Global, line: &str, now: u64) -> Option<OwnedArrival> {
    let rules = packet_of(alloc, word(line, 2))?;
    let keys = packet_of(alloc, word(line, 3))?;
    let renewal = renewal_of(alloc, rules, keys)?;
    Some(Event::NewRules {
        rules: renewal,
        now,
    })
}

/// Returns the arrival that a line of a script spells, or `None` if a part of the line cannot be
/// read.
fn arrival_of(alloc: Global, line: &str) -> Option<OwnedArrival> {
    let face = number(line, 1)?;
    match word(line, 0) {
        "up" => Some(Event::FaceUp {
            face,
            scope: scope_of(word(line, 2)),
            now: number(line, 3)?,
        }),
        "down" => Some(Event::FaceDown {
            face,
            now: number(line, 2)?,
        }),
        "tick" => Some(Event::Tick { now: face }),
        "rules" => new_rules_arrival(alloc, line, face),
        _ => Some(Event::Packet {
            face,
            now: number(line, 2)?,
            octets: packet_of(alloc, word(line, 3))?,
        }),
    }
}

/// Appends the arrival that a line of a script spells. Appends nothing for an empty line. Returns
/// `None` if a line that is not empty spells no arrival, or if memory runs out.
fn push_arrival(alloc: Global, arrivals: &mut Vec<OwnedArrival>, line: &str) -> Option<()> {
    if line.is_empty() {
        return Some(());
    }
    arrivals.push(arrival_of(alloc, line)?).ok()
}

/// Returns the arrivals that the lines of a script spell.
fn arrivals_of(alloc: Global, script: &str) -> Option<Vec<OwnedArrival>> {
    let mut arrivals = Vec::new(alloc);
    for line in script.lines() {
        push_arrival(alloc, &mut arrivals, line)?;
    }
    Some(arrivals)
}

/// Returns a port that delivers the events of a script, in which words may stand for packets.
pub fn ports_of(alloc: Global, script: &str) -> Option<MemoryPorts> {
    let script = spelled(alloc, script)?;
    let arrivals = arrivals_of(alloc, script.as_str())?;
    Some(MemoryPorts::new(alloc, arrivals))
}

/// Takes one turn and appends the text that is printed for it. `outbox` receives the packets that
/// the turn sends. Returns false if the turn is not `Done`, or the text cannot be appended.
fn put_turn<P: Ports>(
    node: &mut Node,
    ports: &mut P,
    outbox: &mut Outbox,
    number: u64,
    text: &mut Vec<u8>,
) -> bool {
    let Ok(Turn::Done { verdict, .. }) = serve_turn(node, ports, outbox) else {
        return false;
    };
    put_verdict(text, number, &verdict, node.rules()).is_ok() && put_sends(text, outbox).is_ok()
}

/// Appends the text that is printed for a node's turns at a port. Stops after 999 turns, or at the
/// first turn for which `put_turn` returns false.
fn put_turns<P: Ports>(alloc: Global, node: &mut Node, ports: &mut P, text: &mut Vec<u8>) {
    for number in 1..1000 {
        if !put_turn(node, ports, &mut Outbox::new(alloc), number, text) {
            break;
        }
    }
}

/// Lets a node handle the events of a script, which a port delivers. Returns whether the text that
/// is printed for the node's turns is `wanted`.
fn prints(alloc: Global, node: &mut Node, script: &str, wanted: &str) -> Option<bool> {
    let mut ports = ports_of(alloc, script)?;
    let mut text = Vec::new(alloc);
    put_turns(alloc, node, &mut ports, &mut text);
    Some(text.as_slice() == wanted.as_bytes())
}

/// Serves a node with the events of `FIRST_PATH` for at most `turns` turns, and returns whether the
/// result is `wanted`. `next` is the number of the call of the port's method `next` that fails, and
/// `send` is the number of the call of the port's method `send` that fails. The number 0 means that
/// no call of this method fails.
fn node_serves(
    alloc: Global,
    node: &mut Node,
    turns: u64,
    next: u64,
    send: u64,
    wanted: &Result<Served, ServeFault>,
) -> Option<bool> {
    let mut ports = ports_of(alloc, FIRST_PATH)?;
    ports.fail_next(next);
    ports.fail_send(send);
    Some(serve(alloc, node, &mut ports, turns) == *wanted)
}

/// Returns whether `node_serves` returns true for a new node.
fn serves(
    alloc: Global,
    turns: u64,
    next: u64,
    send: u64,
    wanted: &Result<Served, ServeFault>,
) -> bool {
    let served = on_node(
        alloc,
        &|alloc, node| node_serves(alloc, node, turns, next, send, wanted),
    );
    served == Some(true)
}

/// Returns the result of a call of `serve` in which this many events come and this many sends fail.
/// `ended` is true if the port reaches its end in one of the turns.
fn came(events: u64, failed_sends: u64, ended: bool) -> Result<Served, ServeFault> {
    Ok(Served {
        events,
        refused: 0,
        failed_sends,
        ended,
    })
}

/// Returns the result of a call of `serve` in which `after` events come, and then the port fails to
/// deliver the next arrival.
fn stopped(after: u64) -> Result<Served, ServeFault> {
    Err(ServeFault::Next { after })
}

#[test]
fn served_turns(rt: HostRuntime) {
    assert!(rt; serves(rt.alloc(), 10, 0, 0, &came(5, 0, true)));
    assert!(rt; serves(rt.alloc(), 5, 0, 0, &came(5, 0, false)));
    assert!(rt; serves(rt.alloc(), 3, 0, 0, &came(3, 0, false)));
    assert!(rt; serves(rt.alloc(), 0, 0, 0, &came(0, 0, false)));
}

#[test]
fn served_turns_with_failed_calls(rt: HostRuntime) {
    assert!(rt; serves(rt.alloc(), 10, 0, 1, &came(5, 1, true)));
    assert!(rt; serves(rt.alloc(), 10, 0, 2, &came(5, 0, true)));
    assert!(rt; serves(rt.alloc(), 10, 1, 0, &stopped(0)));
    assert!(rt; serves(rt.alloc(), 10, 2, 0, &stopped(1)));
    assert!(rt; serves(rt.alloc(), 10, 3, 0, &stopped(2)));
    assert!(rt; serves(rt.alloc(), 10, 4, 0, &stopped(3)));
    assert!(rt; serves(rt.alloc(), 10, 5, 0, &stopped(4)));
    assert!(rt; serves(rt.alloc(), 10, 6, 0, &stopped(5)));
    assert!(rt; serves(rt.alloc(), 10, 7, 0, &came(5, 0, true)));
}

/// Returns what `node_goes_on` returns for a new node, or `None` if the node cannot be created.
fn goes_on(alloc: Global, next: u64, before: u64, left: u64) -> Option<bool> {
    on_node(
        alloc,
        &|alloc, node| node_goes_on(alloc, node, next, before, left),
    )
}

/// Returns what `stops_and_ends` returns for a port with the events of `FIRST_PATH`. The call of
/// the port's method `next` with the number `next` fails. The first call has the number 1.
fn node_goes_on(alloc: Global, node: &mut Node, next: u64, before: u64, left: u64) -> Option<bool> {
    let mut ports = ports_of(alloc, FIRST_PATH)?;
    ports.fail_next(next);
    Some(stops_and_ends(alloc, node, &mut ports, before, left))
}

/// Returns whether a first call of `serve` fails after `before` events, a second call serves the
/// remaining `left` events, and the two calls send one packet in total.
fn stops_and_ends(
    alloc: Global,
    node: &mut Node,
    ports: &mut MemoryPorts,
    before: u64,
    left: u64,
) -> bool {
    let stops = serve(alloc, node, ports, 10) == stopped(before);
    let ends = serve(alloc, node, ports, 10) == came(left, 0, true);
    stops && ends && ports.sent().len() == 1
}

#[test]
fn served_turns_after_a_failed_call(rt: HostRuntime) {
    assert!(rt; goes_on(rt.alloc(), 1, 0, 5) == Some(true));
    assert!(rt; goes_on(rt.alloc(), 3, 2, 3) == Some(true));
    assert!(rt; goes_on(rt.alloc(), 6, 5, 0) == Some(true));
}

/// A Data with a wrong signature comes before and after the rules are replaced by no rules.
const NEW_RULES: &str = "up 2 far 0
in 2 1050 060f070308014115017816031b01001700
rules 1060 - -
in 2 1070 060f070308014115017816031b01001700
";

/// The answers to `NEW_RULES`.
const NEW_RULES_ANSWERS: &str = "1 passed
2 denied data Tag any-data
3 passed
4 no-rule data
";

/// Returns whether a new node at a port gives these answers to the events of a script.
fn gives(alloc: Global, script: &str, answers: &str) -> bool {
    let given = on_node(alloc, &|alloc, node| prints(alloc, node, script, answers));
    given == Some(true)
}

#[test]
fn scripts_at_a_port(rt: HostRuntime) {
    assert!(rt; gives(rt.alloc(), FIRST_PATH, FIRST_ANSWERS));
    assert!(rt; gives(rt.alloc(), NEW_RULES, NEW_RULES_ANSWERS));
}

/// If the step for an event runs out of memory, the number of the event and the word `memory` are
/// printed.
#[test]
fn refused_line(rt: HostRuntime) {
    let mut text = Vec::new(rt.alloc());
    assert!(rt; put_refused(&mut text, 7).is_ok());
    assert!(rt; text.as_slice() == b"7 memory\n".as_slice());
}

//! What a table of faces answers to scripts of arrivals.

use face_table::{FaceTable, Holdings, Link, MAX_FACES, Met};
use std::alloc::Global;
use std::net::{Ipv4Addr, SocketAddr, SocketAddrV4};
use test_support::first_misshown;

/// Each row has the number of peers, whose endpoints have the ports 7001, 7002 and so on, and
/// calls, with `; ` before each. A link is `udp 8001`, the UDP endpoint with this port of
/// 192.0.2.1, `tcp 192.0.2.1:80 5`, connection 5 over TCP from this endpoint, or `unix 5`,
/// connection 5 over a Unix socket.
///
/// A link alone: something arrives on it. The text has what the table answers: `face 1` if the link
/// has this face, `opens 2` if this face opens for it, `closes 1` if this face must close first,
/// and `refuses 2` if the link gets this number, but is not stored. `many 56 udp 8001` has
/// something arrive on 56 links in turn, of which this is the first, and each has the number after
/// the last one's; it shows the last answer.
///
/// `hear` and a client's link note that something arrived. `leave` and a link say that its
/// connection has ended, and show `leaves` and its face, or `none` if no client has the link.
/// `at 1000` sets the time in milliseconds, which is 0 at the start, `idle 600000` the idle time,
/// and `spare 8` the places that Far faces of clients leave to others. `to 2` shows the port of the
/// UDP endpoint that has face 2, or `none`. `kind` and a link show whether it is Local or Far.
const SCRIPTS: &str = "
# Peers have the faces 1, 2 and so on; newcomers get the next numbers.
2; udp 7001; udp 7002; udp 8001; udp 8002; udp 8001; udp 7001 -> face 1 face 2 opens 3 opens 4 face 3 face 1
0; udp 7001; unix 5; unix 5; unix 6 -> opens 1 opens 2 face 2 opens 3
64; udp 7001; udp 7064; udp 8001; unix 5 -> face 1 face 64 refuses 65 refuses 65
2; to 0; to 1; to 2; to 3; udp 8001; to 3; unix 5; to 4 -> none 7001 7002 none opens 3 8001 opens 4 none
# A connection is known by its number, and a UDP endpoint by its address and port.
0; tcp 192.0.2.1:8001 5; tcp 192.0.2.1:8001 6; tcp 192.0.2.1:8001 5 -> opens 1 opens 2 face 1
1; tcp 192.0.2.1:7001 7001; udp 7001; udp 8001; tcp 192.0.2.1:8001 8001 -> opens 2 face 1 opens 3 opens 4
# A connection that leaves frees its place, and its number is never used again.
1; unix 5; leave unix 5; leave unix 5; unix 5; udp 8001 -> opens 2 leaves 2 none opens 3 opens 4
0; many 64 unix 1; unix 65; leave unix 9; unix 65; unix 9 -> opens 64 refuses 65 leaves 9 opens 66 refuses 67
2; unix 5; tcp 192.0.2.1:80 6; leave unix 5; unix 7; tcp 192.0.2.1:80 6 -> opens 3 opens 4 leaves 3 opens 5 face 4
2; leave udp 7001; leave unix 7001; udp 7001 -> none none face 1
# While 64 are known, the silent longest gives way after 10 seconds, if an idle time is set and the
# node has something for each face.
0; idle 600000; at 1000; many 64 udp 8001; at 10999; udp 9001; udp 9002 -> opens 64 refuses 65 refuses 65
0; idle 600000; at 1000; many 64 udp 8001; at 11000; udp 9001; udp 9001; udp 8002 -> opens 64 closes 1 opens 65 face 2
0; idle 600000; at 1000; many 64 udp 8001; at 10999; udp 9001; at 11000; udp 9001; udp 9001 -> opens 64 refuses 65 closes 1 opens 66
2; idle 600000; at 1000; many 62 udp 8001; at 5000; udp 8001; hear udp 8002; at 11000; udp 9001; udp 9001 -> opens 64 face 3 closes 5 opens 65
0; at 1000; many 64 udp 8001; at 99999999; udp 9001; udp 8001 -> opens 64 refuses 65 face 1
64; idle 600000; at 99999999; udp 9001; udp 7001 -> refuses 65 face 1
# A Far face for which the node has nothing gives way at once: of several, the one silent longest.
0; idle 600000; at 1000; many 64 udp 8001; empty 5 5; udp 9001; udp 9001; udp 9002 -> opens 64 closes 5 opens 65 refuses 66
0; idle 600000; at 1000; many 64 udp 8001; at 1001; udp 8003; empty 3 6; udp 9001; udp 9001; udp 9002 -> opens 64 face 3 closes 4 opens 65 closes 5
0; idle 600000; at 1000; many 64 udp 8001; empty 64 99; udp 9001; udp 9001; udp 9002; udp 9002; udp 9001 -> opens 64 closes 64 opens 65 closes 65 opens 66 closes 66
0; idle 600000; at 1000; many 64 udp 8001; at 5000; udp 8007; empty 7 7; at 10999; udp 9001 -> opens 64 face 7 closes 7
0; idle 600000; at 1000; many 64 udp 8001; at 5000; udp 8007; empty 7 7; at 11000; udp 9001 -> opens 64 face 7 closes 1
0; idle 600000; at 5000; many 64 udp 8001; at 1000; empty 9 9; udp 9001; udp 9001 -> opens 64 closes 9 opens 65
0; idle 600000; empty 1 999; again 200 udp 8001; udp 8138; udp 8136; udp 8136; udp 8138 -> opens 200 face 138 closes 137 opens 201 face 138
0; idle 600000; empty 1 99; many 63 udp 8001; udp 9001; udp 8001 -> opens 63 opens 64 face 1
0; idle 600000; at 1000; many 63 unix 1; tcp 192.0.2.1:80 64; empty 1 99; udp 9001; udp 9001; unix 65; unix 65; unix 66; unix 1 -> opens 63 opens 64 closes 64 opens 65 closes 65 opens 66 refuses 67 face 1
0; spare 8; idle 600000; at 1000; many 56 udp 8001; empty 7 7; udp 9001; udp 9001; unix 1 -> opens 56 closes 7 opens 57 opens 58
64; idle 600000; empty 1 64; udp 9001; udp 7001 -> refuses 65 face 1
0; at 1000; many 64 udp 8001; empty 1 64; udp 9001; udp 8001 -> opens 64 refuses 65 face 1
# A client that is silent for the idle time closes, whatever arrives, and at most one at a time.
1; idle 600000; at 1000; udp 8001; at 600999; udp 8002; at 601000; udp 7001; udp 7001 -> opens 2 opens 3 closes 2 face 1
0; idle 5000; at 1000; udp 8001; udp 8002; at 6000; udp 8002; udp 8002; udp 8002 -> opens 1 opens 2 closes 1 closes 2 opens 3
1; idle 5000; at 999999; udp 7001; unix 5 -> face 1 opens 2
# A Local connection is never closed for silence, and a Far one is.
0; idle 600000; at 1000; unix 5; tcp 127.0.0.1:80 6; tcp [::1]:80 7; tcp 192.0.2.1:80 8; at 601000; unix 5; unix 5 -> opens 1 opens 2 opens 3 opens 4 closes 4 face 1
0; idle 600000; at 1000; unix 5; tcp 127.0.0.1:80 6; at 99999999; tcp 127.0.0.1:80 6; unix 5; udp 8001 -> opens 1 opens 2 face 2 face 1 opens 3
0; idle 600000; many 64 unix 1; at 99999999; udp 8001; unix 65; unix 64 -> opens 64 refuses 65 refuses 65 face 64
0; idle 600000; at 1000; many 63 unix 1; tcp 192.0.2.1:80 64; at 11000; unix 65; unix 65; unix 1 -> opens 63 opens 64 closes 64 opens 65 face 1
# With 8 spare places, strangers stop at 56 Far faces, and Local connections go on to 64.
0; spare 8; many 56 udp 8001; udp 9001; tcp 192.0.2.1:80 5; many 8 unix 5; unix 13; udp 8056 -> opens 56 refuses 57 refuses 57 opens 65 refuses 66 face 56
2; spare 8; many 56 tcp 192.0.2.1:80 1; tcp 192.0.2.1:80 57; udp 8001; tcp 127.0.0.1:80 57 -> opens 58 refuses 59 refuses 59 opens 60
0; spare 8; many 60 unix 1; many 4 udp 8001; udp 8005; unix 61 -> opens 60 opens 64 refuses 65 refuses 65
10; spare 8; many 54 udp 8001; udp 8055; unix 1 -> opens 64 refuses 65 refuses 65
0; spare 8; idle 600000; at 1000; many 56 udp 8001; at 11000; udp 9001; udp 9001; unix 5 -> opens 56 closes 1 opens 57 opens 58
0; spare 8; idle 600000; at 1000; many 56 udp 8001; many 8 unix 1; at 11000; udp 9001; udp 9001; unix 9; unix 9 -> opens 56 opens 64 closes 1 opens 65 closes 2 opens 66
0; spare 64; udp 8001; tcp 192.0.2.1:80 1; unix 5; tcp 127.0.0.1:80 6 -> refuses 1 refuses 1 opens 2 opens 3
# Over TCP, a connection is Local from a loopback address: 127.0.0.0/8 or ::1.
0; kind tcp 127.0.0.1:80 1; kind tcp 127.255.255.254:80 1; kind tcp [::1]:80 1; kind unix 1 -> Local Local Local Local
0; kind tcp 192.0.2.1:80 1; kind tcp [::ffff:127.0.0.1]:80 1; kind tcp 128.0.0.1:80 1 -> Far Far Far
0; kind tcp 126.255.255.255:80 1; kind tcp [::2]:80 1; kind tcp [::]:80 1; kind udp 8001 -> Far Far Far Far
# Over WebSocket, a connection is Far wherever it comes from.
0; kind websocket 127.0.0.1:80 1; kind websocket [::1]:80 1; kind websocket 192.0.2.1:80 1 -> Far Far Far
";

/// A node that has something for each face, except for those from `first` to `last`.
#[derive(Drop)]
struct Held {
    first: u64,
    last: u64,
}

impl Holdings for Held {
    ghost use Rattle.std.specs.Prelude.{◌↔◌, ◌<◌, ◌⊎◌, IsTrue};

    ghost Answers = { λ node face told.
        IsTrue told ↔ ((face < node.first) ⊎ (node.last < face)) };

    fn holds(&self, face: u64) -> bool {
        face < self.first || self.last < face
    }
}

/// A table, the node that asks it, and the time.
#[derive(Drop)]
struct Scene {
    table: FaceTable,
    node: Held,
    now: u64,
}

/// Appends a word, and a number if there is one, after a space if another word came before.
fn put(text: &mut String, word: &str, number: Option<u64>) -> Option<()> {
    if !text.is_empty() {
        text.push(' ').ok()?;
    }
    text.push_str(word).ok()?;
    match number {
        Some(number) if word.is_empty() => write!(text, "{number}").ok(),
        Some(number) => write!(text, " {number}").ok(),
        None => Some(()),
    }
}

/// Returns the UDP endpoint with this port of 192.0.2.1.
fn endpoint(port: u16) -> SocketAddr {
    SocketAddr::V4(SocketAddrV4::new(Ipv4Addr::new(192, 0, 2, 1), port))
}

/// Returns the link that `rest` after the first word spells. `further` is added to its number.
fn link_of(kind: &str, rest: &str, further: u64) -> Option<Link> {
    let (remote, number) = rest.split_once(' ').unwrap_or(("", rest));
    let number = number.parse::<u64>().ok()?.checked_add(further)?;
    match kind {
        "udp" => Some(Link::Udp(endpoint(u16::try_from(number).ok()?))),
        "tcp" => Some(Link::over_tcp(number, remote.parse().ok()?)),
        "unix" => Some(Link::over_unix(number)),
        "websocket" => Some(Link::over_websocket(number, remote.parse().ok()?)),
        _ => None,
    }
}

/// Returns the link that the words spell.
fn link(words: &str) -> Option<Link> {
    let (kind, rest) = words.split_once(' ')?;
    link_of(kind, rest, 0)
}

/// Has something arrive on so many links in turn, and returns the last answer.
fn meet_many(scene: &mut Scene, count: u64, words: &str) -> Option<Met> {
    let (kind, rest) = words.split_once(' ')?;
    let mut last = None;
    for further in 0..count {
        last = Some(meet(scene, link_of(kind, rest, further)?));
    }
    last
}

/// Has something arrive on so many links in turn, on each again while a face must close first.
fn meet_again(scene: &mut Scene, count: u64, words: &str) -> Option<Met> {
    let (kind, rest) = words.split_once(' ')?;
    let mut last = None;
    for further in 0..count {
        let link = link_of(kind, rest, further)?;
        let mut met = meet(scene, link);
        for _ in 0..MAX_FACES {
            if let Met::Closing(_) = met {
                met = meet(scene, link);
            }
        }
        last = Some(met);
    }
    last
}

/// Has something arrive on a link.
fn meet(scene: &mut Scene, link: Link) -> Met {
    scene.table.meet(link, scene.now, &scene.node)
}

/// Appends an answer of the table.
fn put_met(table: &FaceTable, met: Met, text: &mut String) -> Option<()> {
    match met {
        Met::Face(face) => put(text, "face", Some(face)),
        Met::Opening(face) if table.link_of(face).is_some() => put(text, "opens", Some(face)),
        Met::Opening(face) => put(text, "refuses", Some(face)),
        Met::Closing(face) => put(text, "closes", Some(face)),
    }
}

/// Appends the face of a connection that has ended.
fn put_left(table: &mut FaceTable, link: Link, text: &mut String) -> Option<()> {
    match table.leave(link) {
        Some(face) => put(text, "leaves", Some(face)),
        None => put(text, "none", None),
    }
}

/// Appends the port of the UDP endpoint that has a face.
fn put_port(table: &FaceTable, face: u64, text: &mut String) -> Option<()> {
    match table.endpoint_of(face) {
        Some(endpoint) => put(text, "", Some(u64::from(endpoint.port()))),
        None => put(text, "none", None),
    }
}

/// Reads a count and the first link, and has something arrive on so many links.
fn put_all(scene: &mut Scene, kind: &str, words: &str, text: &mut String) -> Option<()> {
    let (count, first) = words.split_once(' ')?;
    let count = count.parse().ok()?;
    let met = match kind {
        "again" => meet_again(scene, count, first)?,
        _ => meet_many(scene, count, first)?,
    };
    put_met(&scene.table, met, text)
}

/// Makes a call.
fn call(scene: &mut Scene, words: &str, text: &mut String) -> Option<()> {
    let (kind, rest) = words.split_once(' ')?;
    match kind {
        "at" => scene.now = rest.parse().ok()?,
        "idle" => scene.table.close_after(rest.parse().ok()?),
        "spare" => scene.table.leave_spare(rest.parse().ok()?),
        "empty" => {
            let (first, last) = rest.split_once(' ')?;
            scene.node.first = first.parse().ok()?;
            scene.node.last = last.parse().ok()?;
        }
        "hear" => scene.table.hear_client(link(rest)?, scene.now),
        "leave" => put_left(&mut scene.table, link(rest)?, text)?,
        "to" => put_port(&scene.table, rest.parse().ok()?, text)?,
        "kind" if link(rest)?.is_local() => put(text, "Local", None)?,
        "kind" => put(text, "Far", None)?,
        "many" | "again" => put_all(scene, kind, rest, text)?,
        _ => {
            let met = meet_many(scene, 1, words)?;
            put_met(&scene.table, met, text)?;
        }
    }
    Some(())
}

/// Returns the table with so many peers, which have the ports 7001, 7002 and so on.
fn table_of(count: u16) -> Option<FaceTable> {
    let mut peers = [endpoint(0); MAX_FACES];
    for (peer, port) in peers.iter_mut().zip(7001u16..) {
        *peer = endpoint(port);
    }
    Some(FaceTable::new(peers.get(..usize::from(count))?))
}

fn shown(alloc: Global, script: &str) -> Option<String> {
    let (count, calls) = script.split_once("; ")?;
    let mut scene = Scene {
        table: table_of(count.parse().ok()?)?,
        node: Held { first: 1, last: 0 },
        now: 0,
    };
    let mut text = String::new(alloc);
    for words in calls.split("; ") {
        call(&mut scene, words, &mut text)?;
    }
    Some(text)
}

#[test]
fn faces_of_scripts(rt: HostRuntime) {
    let wrong = first_misshown(rt.alloc(), SCRIPTS, shown);
    assert!(rt; wrong.is_none(), "{wrong:?}");
}

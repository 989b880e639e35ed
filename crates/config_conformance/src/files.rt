//! Whole configuration files, and the fault of each kind with its line.

use node_config::{Config, ConfigFaultKind, Scope};
use std::alloc::Global;
use test_support::{first_misshown, typed};

/// Returns what the configuration says, or the line and the kind of its fault. Returns `None` if
/// memory runs out.
fn shown(alloc: Global, octets: &[u8]) -> Option<String> {
    match Config::read(alloc, octets) {
        Ok(config) => shown_config(alloc, &config),
        Err(fault) => format!(in alloc; "{} {}", fault.line, fault.kind.name()).ok(),
    }
}

fn shown_config(alloc: Global, config: &Config) -> Option<String> {
    let listen = &config.listen;
    let mut text = format!(in alloc;
        "{} {:?} {:?} {}",
        listen.udp, listen.tcp, listen.unix, listen.strangers
    )
    .ok()?;
    let files = &config.files;
    let more = format!(in alloc;
        " | {:?} {:?} {:?} {}",
        files.rules, files.keys, files.journal, config.prefix
    )
    .ok()?;
    text.push_str(&more).ok()?;
    let limits = config.limits;
    let more = format!(in alloc;
        " | {} {} {} {:?} {}",
        limits.cache, limits.idle, limits.turns, config.log.level, config.log.answers
    )
    .ok()?;
    text.push_str(&more).ok()?;
    for peer in &config.peers {
        let more = format!(in alloc; " | {} {} {:?}", peer.name, peer.endpoint, peer.scope).ok()?;
        text.push_str(&more).ok()?;
    }
    Some(text)
}

/// Shows the file of a row, in which `␊` stands for an LF.
fn shown_row(alloc: Global, row: &str) -> Option<String> {
    let text = typed(alloc, row)?;
    shown(alloc, text.as_bytes())
}

/// A file with all keys, and peers of both scopes.
const WHOLE: &str = r#"; A node of a laboratory.
listen
{
  udp 192.0.2.1:6363 ; for peers and strangers
  tcp 192.0.2.1:6363
  unix "/run/ndn/node socket"
  strangers yes
}
rules sample.rules
keys sample.keys
journal /var/lib/ndn/node.journal
repository
{
  prefix /lab/repo
}
cache
{
  capacity 65536
}
limits
{
  idle_timeout 300
  turns 1000000
}
log
{
  level events
  answers no
}
peers
{
  operator udp4://127.0.0.1:6401
  {
    scope local
  }
  router-b udp4://192.0.2.7:6363
  archive udp4://192.0.2.8:06363
  {
    scope far
  }
}
"#;

const SHOWN: &str =
    r#"192.0.2.1:6363 Some(192.0.2.1:6363) Some("/run/ndn/node socket") true | Some("sample.rules") Some("sample.keys") Some("/var/lib/ndn/node.journal") /lab/repo | 65536 300 1000000 Events false | operator 127.0.0.1:6401 Local | router-b 192.0.2.7:6363 Far | archive 192.0.2.8:6363 Far"#;

#[test]
fn whole_file(rt: HostRuntime) {
    assert_eq!(rt; shown(rt.alloc(), WHOLE.as_bytes()).as_deref(), Some(SHOWN));
}

/// Files, in which `␊` stands for an LF, and what each says: where the node listens, its files, its
/// limits and its log, and its peers; or the line and the kind of its fault.
const FILES: &str = "
# The least file, and default values.
listen { udp 6363 } -> 127.0.0.1:6363 None None false | None None None /repo | 1024 600 18446744073709551615 None true
log { level all } listen { udp [::1]:6363 } -> 1 Syntax
log { level all }␊listen { udp [::1]:6363 } -> [::1]:6363 None None false | None None None /repo | 1024 600 18446744073709551615 All true
peers␊{␊}␊log␊{␊}␊listen { udp 1 } -> 127.0.0.1:1 None None false | None None None /repo | 1024 600 18446744073709551615 None true
# Faults of the text. Those of a block that is not closed are at the last line.
listen {␊udp 6363 -> 2 Syntax
a␊a b c -> 2 Syntax
a {␊{ -> 2 Syntax
a␊{ b␊{ c␊{ d␊{ e␊{ f␊{ g␊{ h␊{ i␊{␊ -> 10 TooDeep
# Keys of the file: the first that is unknown or given again.
 -> 0 Missing
; nothing -> 0 Missing
listen { udp 6363 }␊udp 6363 -> 2 UnknownKey
listen { udp 6363 }␊Log { } -> 2 UnknownKey
listen { udp 6363 }␊tables␊{␊ cs_max_packets 9␊} -> 2 UnknownKey
listen { udp 6363 }␊rules a␊log { }␊rules b -> 4 KeyTwice
listen { udp 6363 }␊rules a␊rules b␊rules c -> 3 KeyTwice
rules a␊peer { }␊rules b -> 3 KeyTwice
peer { }␊rules a␊rules b -> 1 UnknownKey
listen { udp 6363 }␊listen { udp 6363 } -> 2 KeyTwice
# Blocks and values.
listen -> 1 BadShape
␊listen 6363 -> 2 BadShape
listen 6363 { udp 6363 } -> 1 BadShape
listen { udp 6363 }␊rules { a b } -> 2 BadShape
listen { udp 6363 }␊rules a { } -> 2 BadShape
listen { udp 6363 }␊journal -> 2 BadShape
listen { udp 6363 }␊cache 9 -> 2 BadShape
listen { udp 6363 }␊peers udp4://192.0.2.1:6363 -> 2 BadShape
listen {␊udp { } } -> 2 BadShape
# Keys of blocks.
␊listen { tcp 6363 } -> 2 Missing
listen {␊tcp 6363␊websocket 9696 } -> 3 UnknownKey
listen {␊udp 1␊udp 2 } -> 3 KeyTwice
listen { udp 6363 }␊repository {␊repo /repo } -> 3 UnknownKey
listen { udp 6363 }␊cache {␊capacity 1␊capacity 2 } -> 4 KeyTwice
listen { udp 6363 }␊limits {␊pending 9 } -> 3 UnknownKey
listen { udp 6363 }␊log {␊quiet yes } -> 3 UnknownKey
# Values: endpoints, paths, words, names and numbers.
listen {␊udp 0 } -> 2 BadEndpoint
listen {␊udp 65536 } -> 2 BadEndpoint
listen {␊udp +1 } -> 2 BadEndpoint
listen {␊udp localhost:6363 } -> 2 BadEndpoint
listen {␊udp udp4://127.0.0.1:6363 } -> 2 BadEndpoint
listen {␊udp 192.0.2.1:0 } -> 2 BadEndpoint
listen {␊udp 1␊tcp 192.0.2.1 } -> 3 BadEndpoint
listen {␊udp 1␊unix \"\" } -> 3 BadPath
listen {␊udp 1␊strangers true } -> 3 BadWord
listen { udp 1 }␊keys \"\" -> 2 BadPath
listen { udp 1 }␊repository {␊prefix repo } -> 3 BadPrefix
listen { udp 1 }␊cache {␊capacity 0 } -> 3 BadNumber
listen { udp 1 }␊cache {␊capacity 65537 } -> 3 BadNumber
listen { udp 1 }␊cache {␊capacity +9 } -> 3 BadNumber
listen { udp 1 }␊limits {␊idle_timeout 0 } -> 3 BadNumber
listen { udp 1 }␊limits {␊idle_timeout 4294967296 } -> 3 BadNumber
listen { udp 1 }␊limits {␊turns 18446744073709551616 } -> 3 BadNumber
listen { udp 1 }␊limits {␊turns -1 } -> 3 BadNumber
listen { udp 1 }␊log {␊level ALL } -> 3 BadWord
listen { udp 1 }␊log {␊answers 1 } -> 3 BadWord
# Of several faults: the keys of the file; then the blocks and keys listen, rules, keys, journal,
# repository, cache, limits, log and peers.
log { level ALL }␊listen { udp 0 } -> 2 BadEndpoint
log { level ALL }␊listen { udp 1 }␊rules \"\" -> 3 BadPath
listen {␊udp 0␊tcp 0 } -> 2 BadEndpoint
listen {␊tcp 0␊udp 0 } -> 3 BadEndpoint
listen {␊udp 0␊tpc 0 } -> 3 UnknownKey
";

#[test]
fn files(rt: HostRuntime) {
    assert_eq!(rt; first_misshown(rt.alloc(), FILES, shown_row), None);
}

/// Shows the peers of a node with the endpoint 192.0.2.1:6363, or the line and the kind of the
/// fault. The row has the entries of the block `peers`, the first of them on line 1.
fn shown_peers(alloc: Global, row: &str) -> Option<String> {
    shown_after(alloc, "192.0.2.1:6363", row)
}

/// As `shown_peers`, for a node with the endpoint before the first `|` of the row.
fn shown_elsewhere(alloc: Global, row: &str) -> Option<String> {
    let (own, row) = row.split_once(" | ")?;
    shown_after(alloc, own, row)
}

fn shown_after(alloc: Global, own: &str, row: &str) -> Option<String> {
    let row = format!(in alloc; "peers {{ {row}␊}}␊listen {{ udp {own} }}").ok()?;
    let text = typed(alloc, &row)?;
    match Config::read(alloc, text.as_bytes()) {
        Ok(config) => {
            let mut text = String::new(alloc);
            for peer in &config.peers {
                let scope = if peer.scope == Scope::Local {
                    " local"
                } else {
                    ""
                };
                let more = format!(in alloc; "{} {}{};", peer.name, peer.endpoint, scope).ok()?;
                text.push_str(&more).ok()?;
            }
            Some(text)
        }
        Err(fault) => format!(in alloc; "{} {}", fault.line, fault.kind.name()).ok(),
    }
}

const PEERS: &str = "
a udp4://192.0.2.2:6363 -> a 192.0.2.2:6363;
a udp4://192.0.2.2:6363␊b udp4://192.0.2.1:6364 -> a 192.0.2.2:6363;b 192.0.2.1:6364;
A-b_c.9 udp4://192.0.2.2:6363 { } -> A-b_c.9 192.0.2.2:6363;
a udp4://127.0.0.1:6363 { scope local } -> a 127.0.0.1:6363 local;
# Names.
a/b udp4://192.0.2.2:6363 -> 1 BadPeerName
\"a b\" udp4://192.0.2.2:6363 -> 1 BadPeerName
\"\" udp4://192.0.2.2:6363 -> 1 BadPeerName
aaaaaaaaaabbbbbbbbbbccccccccccddddddddddeeeeeeeeeeffffffffffgggg udp4://192.0.2.2:1 -> aaaaaaaaaabbbbbbbbbbccccccccccddddddddddeeeeeeeeeeffffffffffgggg 192.0.2.2:1;
aaaaaaaaaabbbbbbbbbbccccccccccddddddddddeeeeeeeeeeffffffffffggggg udp4://192.0.2.2:1 -> 1 BadPeerName
a udp4://192.0.2.2:1␊a udp4://192.0.2.2:2 -> 2 NameTwice
# FaceUris.
a -> 1 BadShape
a { } -> 1 BadShape
a 192.0.2.2:6363 -> 1 BadFaceUri
a udp://192.0.2.2:6363 -> 1 BadFaceUri
a UDP4://192.0.2.2:6363 -> 1 BadFaceUri
a tcp4://192.0.2.2:6363 -> 1 BadFaceUri
a udp4://192.0.2.2 -> 1 BadFaceUri
a udp4://192.0.2.2:0 -> 1 BadFaceUri
a udp4://192.0.2.2:65536 -> 1 BadFaceUri
a udp4://192.0.2.2:6363/ -> 1 BadFaceUri
a udp4://[2001:db8::2]:6363 -> 1 BadFaceUri
a udp6://192.0.2.2:6363 -> 1 BadFaceUri
a udp6://2001:db8::2:6363 -> 1 BadFaceUri
a udp6://[fe80::2%2]:6363 -> 1 BadFaceUri
a udp6://[fe80::2%25eth0]:6363 -> 1 BadFaceUri
# The block of a peer.
a udp4://192.0.2.2:6363 {␊cost 9 } -> 2 UnknownKey
a udp4://192.0.2.2:6363 {␊scope far␊scope far } -> 3 KeyTwice
a udp4://192.0.2.2:6363 {␊scope near } -> 2 BadWord
a udp4://192.0.2.2:6363 {␊scope } -> 2 BadShape
# Peers that a node cannot have.
a udp4://192.0.2.2:1␊b udp4://192.0.2.2:01 -> 2 UriTwice
a udp4://192.0.2.1:6363 -> 1 OwnUri
a udp4://0.0.0.0:6363 -> 1 NoAddress
a udp6://[::]:6363 -> 1 NoAddress
a udp6://[2001:db8::2]:6363 -> 1 OtherFamily
a udp4://192.0.2.2:6363 { scope local } -> 1 NotLoopback
a udp4://192.0.2.2:1␊b udp4://127.0.0.1:1 { scope local } -> 2 LocalAfterFar
";

#[test]
fn peers(rt: HostRuntime) {
    assert_eq!(rt; first_misshown(rt.alloc(), PEERS, shown_peers), None);
}

/// Peers of nodes at other endpoints.
const ELSEWHERE: &str = "
[2001:db8::1]:6363 | a udp6://[2001:db8::2]:6363 -> a [2001:db8::2]:6363;
[2001:db8::1]:6363 | a udp6://[2001:db8::1]:6363 -> 1 OwnUri
[2001:db8::1]:6363 | a udp4://192.0.2.2:6363 -> 1 OtherFamily
[::]:6363 | a udp6://[::1]:6363 -> 1 OwnUri
[::]:6363 | a udp6://[::1]:6364 { scope local } -> a [::1]:6364 local;
0.0.0.0:6363 | a udp4://127.9.9.9:6363 -> 1 OwnUri
0.0.0.0:6363 | a udp4://192.0.2.1:6363 -> a 192.0.2.1:6363;
6363 | a udp4://127.0.0.1:6363 -> 1 OwnUri
";

#[test]
fn peers_elsewhere(rt: HostRuntime) {
    assert_eq!(rt;
        first_misshown(rt.alloc(), ELSEWHERE, shown_elsewhere),
        None
    );
}

/// Returns a file with this number of peers, one on each line from the second on.
fn file_of(alloc: Global, count: u16) -> Option<String> {
    let mut text = String::from_str(alloc, "listen { udp 6363 }\npeers {").ok()?;
    for number in 1..=count {
        let peer = format!(in alloc; "\npeer-{number} udp4://192.0.2.1:{number}").ok()?;
        text.push_str(&peer).ok()?;
    }
    text.push_str("\n}").ok()?;
    Some(text)
}

/// Returns the number of peers of a file with `count` peers, or the line of the fault
/// `TooManyPeers`.
fn many_peers(alloc: Global, count: u16) -> Option<Result<usize, u32>> {
    let text = file_of(alloc, count)?;
    match Config::read(alloc, text.as_bytes()) {
        Ok(config) => Some(Ok(config.peers.len())),
        Err(fault) if fault.kind == ConfigFaultKind::TooManyPeers => Some(Err(fault.line)),
        Err(_) => None,
    }
}

#[test]
fn many(rt: HostRuntime) {
    assert_eq!(rt; many_peers(rt.alloc(), 64), Some(Ok(64)));
    assert_eq!(rt; many_peers(rt.alloc(), 65), Some(Err(67)));
}

#[test]
fn octets(rt: HostRuntime) {
    assert_eq!(rt;
        shown(rt.alloc(), b"rules \xff").as_deref(),
        Some("0 Syntax")
    );
    assert_eq!(rt;
        shown(rt.alloc(), &[b'\n'; 65_536]).as_deref(),
        Some("0 Missing")
    );
    assert_eq!(rt;
        shown(rt.alloc(), &[b'\n'; 65_537]).as_deref(),
        Some("0 TooLarge")
    );
}

//! Tests of the exact text of log lines.

use info_rules::{InfoTree, Kind, Reason, RuleNo, Rules};
use ndn_log::{Entry, LoggedEvent, put_closed, put_event, put_failed_send, put_strangers};
use ndn_names::{Name, NameBuf};
use ndn_packets::{InterestWriter, PacketFault};
use node_core::{DropReason, Event, Scope, Verdict};
use std::alloc::Global;
use std::net::{Ipv4Addr, Ipv6Addr, SocketAddr, SocketAddrV4, SocketAddrV6};
use test_support::first_misshown;

/// The time 2026-11-27T22:10:00.123Z in milliseconds since 1970.
const MOMENT: u64 = 1_795_817_400_123;

/// A Nack with reason 150 for the Interest `/a`.
const NACK: &str = "6418fd032005fd03210196500d050b07030801610a0401020304";

/// The Interest `/a`.
const INTEREST: &str = "050b07030801610a0401020304";

/// The Data `/a`, whose KeyLocator is the name `/k`.
const DATA: &str = "06150703080161160a1b01041c05070308016b1702abcd";

/// A command that adds a next hop for `/A` on face 2, signed with the key `/ops/KEY/1`.
const COMMAND: &str =
    "0598075008096c6f63616c686f737408036e66640803666962080b6164642d6e657874686f70080a680807030801416901020220b3efe71974da9dc26e88d0c074c8f0ff34ea85c38b109d9e9c6400b87694f2f20a040102030424002c1a1b01041c0f070d08036f707308034b45590801312804000f42402e20d113cf38056af9bbbec876471f4b51934978ef69345464b05cb762148eaa5dbb";

/// The same command, signed with the key `/ops/KEY/2`.
const OTHER_COMMAND: &str =
    "0598075008096c6f63616c686f737408036e66640803666962080b6164642d6e657874686f70080a6808070308014169010202204a8d9465a2e735321d31517b5a31a7d9c3b600a66d5d873d87b1c022e3ded7a20a040102030424002c1a1b01041c0f070d08036f707308034b45590801322804000f42402e20630e3132041cdba4e014286eea81e3d4466103a9c0894e0ece63edfb7273accf";

/// The same command with a digest in place of a signature, so without a KeyLocator.
const UNSIGNED_COMMAND: &str =
    "0587075008096c6f63616c686f737408036e66640803666962080b6164642d6e657874686f70080a680807030801416901020220748c0b3814b14d7eacaf838db258aefb7331ace602a96734ba7948df122b590c0a040102030424002c091b01002804000f42402e207e0c3114a496784d495cf6d6899ef0e870aa899b6da63962cd30ff4c3f3c89c1";

/// Commands, each with the status of the reply and the words of its line. The name of each command
/// is followed by a digest of its parameters, which are empty.
const COMMANDS: &str = "
/localhost/nfd/fib/add-nexthop/h%0D%07%05%08%03labi%01%02j%01%05 200 -> route add /lab face 2 cost 5
/localhost/nfd/fib/add-nexthop/h%07%07%05%08%03lab 410 -> route add /lab face itself cost 0
/localhost/nfd/fib/remove-nexthop/h%0A%07%05%08%03labi%01%00 200 -> route remove /lab face itself
/localhost/nfd/rib/register/h%17%07%05%08%03labi%01%03o%01Aj%01%07l%01%03m%02%EA%60 200 -> route register /lab face 3 origin 65 cost 7 flags 3 expires 60000
/localhost/nfd/rib/register/h%07%07%05%08%03lab 503 -> route register /lab face itself origin 0 cost 0 flags 1
/localhost/nfd/rib/unregister/h%0D%07%05%08%03labi%01%03o%01A 200 -> route unregister /lab face 3 origin 65
/localhost/nfd/strategy-choice/set/h0%07%05%08%03labk%27%07%25%08%09localhost%08%03nfd%08%08strategy%08%09multicast 200 -> strategy set /lab /localhost/nfd/strategy/multicast
/localhost/nfd/strategy-choice/unset/h%07%07%05%08%03lab 200 -> strategy unset /lab
/localhost/nfd/cs/erase/h%02%07%00 200 -> cache erase /
/localhost/nfd/cs/erase/h%0A%07%05%08%03lab%84%01%09 200 -> cache erase /lab count 9
/repo/insert/%C9%07%07%05%08%03lab 100 -> repo insert /lab lifetime 4000
/a/b/insert/%C9%0D%07%05%08%03lab%21%00%0C%02%EA%60 200 -> repo insert /lab can-be-prefix lifetime 60000
/repo/delete/%C9%09%07%05%08%03lab%21%00 404 -> repo delete /lab can-be-prefix
/repo/check/%C9%07%07%05%08%03lab 200 -> repo check /lab
# A node has not read these commands. The third would be a `delete` of a repository /repo/insert.
/localhost/nfd/cs/erase/h%0A%07%05%08%03labi%01%02 400 -> command /localhost/nfd/cs/erase/h%0A%07%05%08%03labi%01%02/params-sha256=33b67cb5385ceddad93d0ee960679041613bed34b8b4a5e6362fe7539ba2d3ce
/localhost/nfd/fib/update/h%07%07%05%08%03lab 501 -> command /localhost/nfd/fib/update/h%07%07%05%08%03lab/params-sha256=33b67cb5385ceddad93d0ee960679041613bed34b8b4a5e6362fe7539ba2d3ce
/repo/insert/delete/%C9%07%07%05%08%03lab 400 -> command /repo/insert/delete/%C9%07%07%05%08%03lab/params-sha256=33b67cb5385ceddad93d0ee960679041613bed34b8b4a5e6362fe7539ba2d3ce
";

/// An element with a value of 1 octet, and 37 octets after the element.
const BROKEN: &str =
    "0501ffffffffffffffffffffffffffffffffffffffffffffffffffffffffffffffffffffffffffff";

/// Two rules. The id of the first contains letters that are not ASCII, and the second is
/// unverified.
const RULES: &str = "rule
{
  id sonde-\u{e9}t\u{e9}
  for data
  checker
  {
    type customized
    sig-type sha256
  }
}
rule
{
  id transit
  for data
  checker
  {
    type unverified
  }
}
";

/// Returns whether `line` is the log line of a packet that has this verdict. The packet comes from
/// 192.0.2.7:6363 on face 2.
fn is_line(alloc: Global, packet: &str, verdict: Verdict, line: &str) -> bool {
    let Ok(octets) = hex::decode(alloc, packet) else {
        return false;
    };
    is_event_line(
        alloc,
        Event::Packet {
            face: 2,
            now: MOMENT,
            octets: &octets,
        },
        verdict,
        line,
    )
}

/// Returns whether `line` is the log line of an event that has this verdict. The event is on a face
/// at 192.0.2.7:6363.
fn is_event_line(alloc: Global, event: LoggedEvent<'_>, verdict: Verdict, line: &str) -> bool {
    shown(alloc, event, verdict).is_some_and(|text| text.as_slice() == line.as_bytes())
}

/// Returns the log line of an event that has this verdict. The event is on a face at
/// 192.0.2.7:6363.
fn shown(alloc: Global, event: LoggedEvent<'_>, verdict: Verdict) -> Option<Vec<u8>> {
    let rules = rules_of(alloc)?;
    let mut text = Vec::new(alloc);
    put_line(alloc, &mut text, event, verdict, &rules)?;
    Some(text)
}

/// Returns the rules of these tests.
fn rules_of(alloc: Global) -> Option<Rules> {
    let tree = InfoTree::read(alloc, RULES).ok()?;
    Rules::read(alloc, &tree).ok()
}

/// Appends the log line of an event that has this verdict. The event is on a face at
/// 192.0.2.7:6363.
fn put_line(
    alloc: Global,
    text: &mut Vec<u8>,
    event: LoggedEvent<'_>,
    verdict: Verdict,
    rules: &Rules,
) -> Option<()> {
    let entry = Entry {
        endpoint: Some(SocketAddr::V4(SocketAddrV4::new(Ipv4Addr::new(192, 0, 2, 7), 6363))),
        event,
    };
    put_event(alloc, text, &entry, &Ok(verdict), rules).ok()
}

/// Returns what the log line of an allowed command says of the command. `row` has the command's
/// name without the digest of the parameters, and the status of the reply.
fn command_words(alloc: Global, row: &str) -> Option<String> {
    let (name, status) = row.split_once(' ')?;
    let name = NameBuf::from_uri(alloc, name).ok()?;
    let octets = command_of(alloc, name.view())?;
    let event = Event::Packet {
        face: 2,
        now: MOMENT,
        octets: octets.as_slice(),
    };
    let line = shown(
        alloc,
        event,
        Verdict::Allowed(RuleNo(1), status.parse().ok()?),
    )?;
    let line = str::from_utf8(line.as_slice()).ok()?;
    let (_, words) = line.split_once("192.0.2.7:6363 ")?;
    let (words, _) = words.split_once(": allowed by rule transit, status ")?;
    String::from_str(alloc, words).ok()
}

/// Returns whether the line of an allowed command says `key` between the rule and the status.
fn names_key(alloc: Global, packet: &str, key: &str) -> Option<bool> {
    let line = format!(in alloc;
        "2026-11-27T22:10:00.123Z face 2 192.0.2.7:6363 route add /A face 2 cost 0: \
         allowed by rule transit{key}, status 200\n"
    )
    .ok()?;
    Some(is_line(alloc, packet, Verdict::Allowed(RuleNo(1), 200), &line))
}

/// Returns an Interest with this name and empty parameters. It is not signed.
fn command_of(alloc: Global, name: Name<'_>) -> Option<Vec<u8>> {
    let writer = InterestWriter {
        name,
        can_be_prefix: false,
        must_be_fresh: false,
        nonce: [1, 2, 3, 4],
        lifetime: None,
        hop_limit: None,
        parameters: Some(&[]),
        sign: None,
        time: None,
        seq: None,
    };
    let mut octets = Vec::new(alloc);
    writer.write(&mut octets).ok()?;
    Some(octets)
}

/// Returns whether the line of a truncated packet says that the packet may have been longer.
fn says_more(alloc: Global) -> bool {
    let Ok(octets) = vec![in alloc; 5; 9_001] else {
        return false;
    };
    is_event_line(
        alloc,
        Event::Packet {
            face: 2,
            now: MOMENT,
            octets: &octets,
        },
        Verdict::Dropped(DropReason::Malformed(PacketFault::TooLong)),
        "2026-11-27T22:10:00.123Z face 2 192.0.2.7:6363 packet: dropped, Malformed TooLong, \
         9001 octets or more beginning \
         0505050505050505050505050505050505050505050505050505050505050505\n",
    )
}

/// Returns whether the line of an Interest has the first 200 characters of the Interest's name, and
/// ends with `end`. The name has one component of `count` letters `a`, at most 200.
fn cuts_name(alloc: Global, count: u8, end: &str) -> Option<bool> {
    let letters = vec![in alloc; b'a'; count as usize].ok()?;
    let len = count.min(200);
    let mut octets = Vec::new(alloc);
    octets
        .extend_from_slice(&[5, len + 10, 7, len + 2, 8, len])
        .ok()?;
    octets.extend_from_slice(&letters).ok()?;
    octets.extend_from_slice(&[10, 4, 1, 2, 3, 4]).ok()?;
    let event = Event::Packet {
        face: 2,
        now: MOMENT,
        octets: octets.as_slice(),
    };
    let line = shown(alloc, event, Verdict::Passed)?;
    let mut wanted = Vec::from_slice(alloc, NAMED).ok()?;
    wanted
        .extend_from_slice(&vec![in alloc; b'a'; 199].ok()?)
        .ok()?;
    wanted.extend_from_slice(end.as_bytes()).ok()?;
    Some(line.as_slice() == wanted.as_slice())
}

/// The beginning of the line of an Interest, with the first character of its name.
const NAMED: &[u8] = b"2026-11-27T22:10:00.123Z face 2 192.0.2.7:6363 Interest /";

/// Returns four lines of a log. The first line tells that a face closed at the last time that a log
/// shows as a date. The second line tells that two faces closed one millisecond later. The last two
/// lines tell of a failed send, and of a datagram from a stranger.
fn shown_notes(alloc: Global) -> Option<Vec<u8>> {
    let mut text = Vec::new(alloc);
    put_notes(alloc, &mut text)?;
    Some(text)
}

/// Appends the four lines of `shown_notes`.
fn put_notes(alloc: Global, text: &mut Vec<u8>) -> Option<()> {
    put_closed(alloc, text, 253_402_207_200_999, 1).ok()?;
    put_closed(alloc, text, 253_402_207_201_000, 2).ok()?;
    let ip = Ipv6Addr::new(0x2001, 0xdb8, 0, 0, 0, 0, 0, 1);
    let endpoint = Some(SocketAddr::V6(SocketAddrV6::new(ip, 6363, 0, 0)));
    put_failed_send(alloc, text, MOMENT, 3, endpoint, b"\x06\x82").ok()?;
    put_strangers(alloc, text, MOMENT, 1).ok()
}

const NOTES: &str = "9999-12-30T22:00:00.999Z 1 face closed
253402207201000 2 faces closed
2026-11-27T22:10:00.123Z send to face 3 [2001:db8::1]:6363 failed: 2 octets beginning 0682
2026-11-27T22:10:00.123Z 1 datagram of strangers
";

#[test]
fn lines_of_events(rt: HostRuntime) {
    let alloc = rt.alloc();
    assert!(rt;
        is_line(
            alloc,
            NACK,
            Verdict::Passed,
            "2026-11-27T22:10:00.123Z face 2 192.0.2.7:6363 Nack NoRoute /a: passed\n",
        )
    );
    assert!(rt;
        is_line(
            alloc,
            DATA,
            Verdict::Denied(Kind::Data, RuleNo(0), Reason::SigType),
            "2026-11-27T22:10:00.123Z face 2 192.0.2.7:6363 Data /a: \
         denied by rule sonde-%C3%A9t%C3%A9, SigType, key /k\n",
        )
    );
    assert!(rt;
        is_line(
            alloc,
            DATA,
            Verdict::DataAllowed {
                rule: RuleNo(1),
                stored: false,
            },
            "2026-11-27T22:10:00.123Z face 2 192.0.2.7:6363 Data /a: \
         allowed by rule transit, unverified\n",
        )
    );
    assert!(rt;
        is_line(
            alloc,
            BROKEN,
            Verdict::Dropped(DropReason::Malformed(PacketFault::BadField)),
            "2026-11-27T22:10:00.123Z face 2 192.0.2.7:6363 packet: dropped, Malformed BadField, \
         40 octets beginning 0501ffffffffffffffffffffffffffffffffffffffffffffffffffffffffffff\n",
        )
    );
    assert!(rt;
        is_line(
            alloc,
            INTEREST,
            Verdict::Dropped(DropReason::PitFull),
            "2026-11-27T22:10:00.123Z face 2 192.0.2.7:6363 Interest /a: dropped, PitFull, \
         13 octets beginning 050b07030801610a0401020304\n",
        )
    );
    assert!(rt; says_more(alloc));
    assert!(rt;
        is_event_line(
            alloc,
            Event::FaceUp {
                face: 65,
                scope: Scope::Far,
                now: MOMENT,
            },
            Verdict::Dropped(DropReason::FacesFull),
            "2026-11-27T22:10:00.123Z face 65 192.0.2.7:6363 opens, far: dropped, FacesFull\n",
        )
    );
}

#[test]
fn lines_of_notes(rt: HostRuntime) {
    assert!(rt; shown_notes(rt.alloc()).is_some_and(|text| text.as_slice() == NOTES.as_bytes()));
}

#[test]
fn long_names(rt: HostRuntime) {
    assert!(rt; cuts_name(rt.alloc(), 199, ": passed\n") == Some(true));
    assert!(rt; cuts_name(rt.alloc(), 200, "..: passed\n") == Some(true));
}

#[test]
fn lines_of_commands(rt: HostRuntime) {
    let wrong = first_misshown(rt.alloc(), COMMANDS, command_words);
    assert!(rt; wrong.is_none(), "{wrong:?}");
    assert!(rt; names_key(rt.alloc(), COMMAND, ", key /ops/KEY/1") == Some(true));
    assert!(rt; names_key(rt.alloc(), OTHER_COMMAND, ", key /ops/KEY/2") == Some(true));
    assert!(rt; names_key(rt.alloc(), UNSIGNED_COMMAND, "") == Some(true));
}

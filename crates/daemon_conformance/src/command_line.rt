//! Tests of the options in command lines of the program `ndn_node`, and of the messages of faults
//! that no transcript of `crates/ndn_node/transcripts` shows.

use info_rules::{RulesFault, RulesFaultKind};
use key_files::KeyFault;
use ndn_daemon::*;
use std::alloc::Global;
use test_support::first_misshown;

/// Returns the request of a command line as text. Returns `None` if the command line is refused, or
/// if it does not run a node.
fn request_text(alloc: Global, command: &str) -> Option<String> {
    let words: Vec<&str> = command.split(' ').collect(alloc).ok()?;
    text_of(alloc, &request_of(alloc, words.as_slice()).ok()?)
}

/// Returns the options of a node as text. For a node that runs a script: the rule file, the key
/// file, the repository's prefix and the cache's capacity. For a node on a port: `--cache`,
/// `--listen`, `--turns`, `--local`, `--idle`, `--log`, the peers, whether the node accepts
/// strangers, and whether it prints no answers.
fn text_of(alloc: Global, request: &Request) -> Option<String> {
    match request {
        Request::Script(node) => {
            let (rules, keys) = (&node.rules, &node.keys);
            format!(in alloc; "{rules:?} {keys:?} {} {}", node.repo.view(), node.cache).ok()
        }
        Request::Udp(node, udp) => udp_text(alloc, node.cache, udp),
        _ => None,
    }
}

/// Returns the options of a node on a port as text.
fn udp_text(alloc: Global, cache: u32, udp: &UdpOptions) -> Option<String> {
    let (listen, turns, local, idle) = (udp.listen, udp.turns, udp.local, udp.idle);
    let (open, quiet) = (udp.accepts_strangers(), udp.quiet);
    let (log, peers) = (udp.log, &udp.peers);
    format!(in alloc;
        "{cache} {listen} {turns} {local} {idle} {log:?} {peers:?} {open} {quiet}"
    ).ok()
}

const OPTIONS: &str = "
ndn_node script -> None None /repo 1024
ndn_node script --cache 65536 --repo=/a/b --keys k --rules r -> Some(\"r\") Some(\"k\") /a/b 65536
ndn_node udp --listen 6363 --turns 0 -> 1024 127.0.0.1:6363 0 0 600 None [] true false
ndn_node udp 7 --cache 5 --turns 18446744073709551615 8 --listen 065535 --local 2 --idle 09 9 -> 5 127.0.0.1:65535 18446744073709551615 2 9 None [127.0.0.1:7, 127.0.0.1:8, 127.0.0.1:9] true false
ndn_node udp --listen 127.0.0.2:6363 --turns 1 --log --local 1 127.0.0.3:7 192.0.2.1:7 -> 1024 127.0.0.2:6363 1 1 600 Events [127.0.0.3:7, 192.0.2.1:7] true false
ndn_node udp --listen [2001:db8::1]:6363 --turns 1 --log all --local 1 [::1]:7 -> 1024 [2001:db8::1]:6363 1 1 600 All [[::1]:7] false false
ndn_node udp --turns 1 --listen [::1]:6363 -> 1024 [::1]:6363 1 0 600 None [] true false
ndn_node udp --turns 1 --open --listen 0.0.0.0:6363 -> 1024 0.0.0.0:6363 1 0 600 None [] true false
ndn_node udp --turns 1 --listen 0.0.0.0:7 8 192.0.2.1:7 -> 1024 0.0.0.0:7 1 0 600 None [127.0.0.1:8, 192.0.2.1:7] false false
ndn_node udp --listen 1 --quiet --turns 1 7 -> 1024 127.0.0.1:1 1 0 600 None [127.0.0.1:7] true true
ndn_node udp --listen 1 --turns 1 7 -> 1024 127.0.0.1:1 1 0 600 None [127.0.0.1:7] true false
";

/// The values of options, and the values of options that are not given.
#[test]
fn options(rt: HostRuntime) {
    let wrong = first_misshown(rt.alloc(), OPTIONS, request_text);
    assert!(rt; wrong.is_none(), "{wrong:?}");
}

/// Returns whether a fault has this exit status and this text.
fn is_told(alloc: Global, fault: &Fault, wanted: &str) -> bool {
    format!(in alloc; "{} {fault}", fault.exit_status()).is_ok_and(|told| told.as_str() == wanted)
}

/// A port that receives nothing, and memory that runs out for the keys or the rules.
#[test]
fn faults(rt: HostRuntime) {
    let port = "3 error: nothing can be received from the port\n";
    assert!(rt; is_told(rt.alloc(), &Fault::Unreceived, port));
    let memory = "3 error: out of memory\n";
    assert!(rt; is_told(rt.alloc(), &Fault::Keys(KeyFault::Memory), memory));
    let rules = RulesFault {
        line: 0,
        kind: RulesFaultKind::Memory,
    };
    assert!(rt; is_told(rt.alloc(), &Fault::Rules(rules), memory));
}

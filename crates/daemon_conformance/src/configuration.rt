//! The options of nodes that configuration files describe.

use ndn_daemon::*;
use std::alloc::Global;
use test_support::{first_misshown, typed};

/// Returns the options of a node as text, in the order of the fields of `Options` and `UdpOptions`,
/// or the text of the fault. A row has a path and the file at this path, in which `␊` stands for an
/// LF. Returns `None` if memory runs out.
fn options_text(alloc: Global, row: &str) -> Option<String> {
    let (path, row) = row.split_once(" | ")?;
    let text = typed(alloc, row)?;
    let folder = node_config::folder_of(path);
    match read_config_file(alloc, path, text.as_bytes()) {
        Ok(config) => {
            let (node, udp) = options_of(alloc, folder, config).ok()?;
            let text = node_text(alloc, &node)?;
            udp_text(alloc, text.as_str(), &udp)
        }
        Err(fault) => fault_text(alloc, &fault),
    }
}

fn node_text(alloc: Global, node: &Options) -> Option<String> {
    let (rules, keys) = (&node.rules, &node.keys);
    format!(in alloc; "{rules:?} {keys:?} {} {}", node.repo.view(), node.cache).ok()
}

fn udp_text(alloc: Global, node: &str, udp: &UdpOptions) -> Option<String> {
    let (listen, turns, peers, local, idle) = (
        udp.listen, udp.turns, &udp.peers, udp.local, udp.idle,
    );
    let (open, log, journal) = (udp.open, udp.log, &udp.journal);
    let (quiet, tcp, unix) = (udp.quiet, udp.tcp, &udp.unix);
    format!(in alloc;
        "{node} {listen} {turns} {peers:?} {local} {idle} {open} {log:?} {journal:?} {quiet} {tcp:?} {unix:?}"
    ).ok()
}

/// Returns the first line of the fault's text.
fn fault_text(alloc: Global, fault: &Fault) -> Option<String> {
    let text = format!(in alloc; "{} {fault}", fault.exit_status()).ok()?;
    String::from_str(alloc, text.lines().next()?).ok()
}

const CONFIGURED: &str = "
node.conf | listen { udp 6363 } -> None None /repo 1024 127.0.0.1:6363 18446744073709551615 [] 0 600 false None None false None None
/etc/ndn/node.conf | listen { udp 1␊tcp [::1]:2␊unix s␊strangers yes }␊rules a/r␊keys /k␊journal j␊log { level all␊answers no } -> Some(\"/etc/ndn/a/r\") Some(\"/k\") /repo 1024 127.0.0.1:1 18446744073709551615 [] 0 600 true All Some(\"/etc/ndn/j\") true Some([::1]:2) Some(\"/etc/ndn/s\")
a/b.conf | listen { udp 1 }␊rules ../r␊repository { prefix /a/b }␊cache { capacity 5 }␊limits { turns 6␊idle_timeout 7 }␊log { level events } -> Some(\"a/../r\") None /a/b 5 127.0.0.1:1 6 [] 0 7 false Events None false None None
/c | listen { udp 0.0.0.0:1 }␊rules r␊peers { a udp4://127.0.0.1:2 { scope local }␊b udp4://127.0.0.1:3 { scope local }␊c udp4://192.0.2.1:1 } -> Some(\"/r\") None /repo 1024 0.0.0.0:1 18446744073709551615 [127.0.0.1:2, 127.0.0.1:3, 192.0.2.1:1] 2 600 false None None false None None
c |  -> 1 config:0: Missing
c | listen { udp 1 }␊limits { turns x } -> 1 config:2: BadNumber
";

/// Each key of a file sets its option, and paths are taken from the folder of the file.
#[test]
fn configured_options(rt: HostRuntime) {
    let wrong = first_misshown(rt.alloc(), CONFIGURED, options_text);
    assert!(rt; wrong.is_none(), "{wrong:?}");
}

//! Tests of scripts that are cut or fail, of the methods of a node, and of the ports and the
//! journal of a node. `crates/scenarios` tests the node's answers to events.

mod endpoints;
mod full_pending;
mod journal_lines;
mod journalled;
mod nodes;
mod octets;
mod ports;
mod refused_memory;
mod scripts;
mod streams;
mod udp;

use info_rules::{InfoTree, Rules};
use key_files::KeyBook;
use ndn_names::NameBuf;
use node_core::{Node, NodeParts, run_script};
use octets::hexadecimal_of;
use std::alloc::Global;
use std::io::Write;
use test_support::{KEYS, SAMPLE};

/// Returns the sample rules.
fn rules(alloc: Global) -> Option<Rules> {
    let tree = InfoTree::read(alloc, SAMPLE).ok()?;
    Rules::read(alloc, &tree).ok()
}

/// Returns the parts of a node with the sample rules and keys, a repository at `/repo`, and a cache
/// of 1,024 Data.
fn parts(alloc: Global) -> Option<NodeParts> {
    Some(NodeParts {
        rules: rules(alloc)?,
        keys: KeyBook::read(alloc, KEYS).ok()?,
        repo: NameBuf::from_uri(alloc, "/repo").ok()?,
        cache: 1024,
    })
}

/// Returns the output of a script, followed by how the script ended.
fn outcome(alloc: Global, script: &str) -> Option<String> {
    let mut output = Vec::new(alloc);
    let end = run_script(alloc, &mut script.as_bytes(), &mut output, parts(alloc)?);
    write!(output, "{end:?}").ok()?;
    String::from_utf8(output).ok()
}

/// Appends a line of a script, with each word that stands for a packet replaced by the octets of
/// the packet in hexadecimal. Returns `None` if memory runs out.
fn push_spelled_line(text: &mut String, line: &str) -> Option<()> {
    for (before, word) in line.split(' ').enumerate() {
        if before > 0 {
            text.push(' ').ok()?;
        }
        text.push_str(hexadecimal_of(word)).ok()?;
    }
    text.push('\n').ok()
}

/// Returns a script, with each word that stands for a packet replaced by the octets of the packet
/// in hexadecimal.
fn spelled(alloc: Global, script: &str) -> Option<String> {
    let mut text = String::new(alloc);
    for line in script.lines() {
        push_spelled_line(&mut text, line)?;
    }
    Some(text)
}

/// Returns what `play` returns for a new node, or `None` if the node cannot be created.
fn on_node<F: Fn(Global, &mut Node) -> Option<bool>>(alloc: Global, play: &F) -> Option<bool>
    requires { F.IsAlwaysCallable play.now }
{
    let mut node = Node::new(alloc, parts(alloc)?).ok()?;
    play(alloc, &mut node)
}

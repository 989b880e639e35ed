//! Tests that also pass if any single allocation fails, as under `rt try --test --fail-alloc N`.

use super::on_node;
use super::ports::{FIRST_PATH, ports_of};
use super::streams::{Room, end_in};
use node_core::{Node, NodeFault, RunFault};
use node_ports::serve;
use std::alloc::Global;

const SCRIPT: &str = "up 1 local 0
in 1 1000 050b07030801410a0401020304
in 1 1050 060f070308014115017816031b01001700
tick 1100
";

/// The answers to `SCRIPT` if memory does not run out.
const ANSWERS: &str = "1 passed
2 passed
> 1 6418fd032005fd03210196500d050b07030801410a0401020304
3 denied data Tag any-data
4 passed
";

/// The answers to `SCRIPT` if memory runs out for the Interest.
const ANSWERS_TO_DATA: &str = "1 passed
2 memory
3 denied data Tag any-data
4 passed
";

/// The answers to `SCRIPT` if memory runs out for the Data.
const ANSWERS_TO_INTEREST: &str = "1 passed
2 passed
> 1 6418fd032005fd03210196500d050b07030801410a0401020304
3 memory
4 passed
";

/// Returns whether `text` is a prefix of `whole`.
fn is_front(text: &[u8], whole: &str) -> bool {
    whole.as_bytes().starts_with(text)
}

/// Returns whether a text is a prefix of one of the three possible outputs of `SCRIPT`.
fn are_answers(text: &[u8]) -> bool {
    is_front(text, ANSWERS)
        || is_front(text, ANSWERS_TO_DATA)
        || is_front(text, ANSWERS_TO_INTEREST)
}

/// Returns whether `SCRIPT` can end with `end` after the output `text`. Memory may run out. If
/// memory runs out while the node is made, `text` is not checked.
fn is_end(end: Result<(), RunFault>, text: &[u8]) -> bool {
    match end {
        Ok(()) => are_answers(text) && text.ends_with(b"4 passed\n"),
        Err(RunFault::Memory) => are_answers(text),
        Err(fault) => fault == RunFault::Node(NodeFault::Memory),
    }
}

/// Plays `SCRIPT`, and returns what `is_end` returns for the end and the output of `SCRIPT`.
/// Returns `None` if one of the test's own allocations fails.
fn script(alloc: Global) -> Option<bool> {
    let held = Vec::with_capacity(alloc, 1000).ok()?;
    let mut output = Room {
        held,
        size: 1000,
        left: 1000,
    };
    let end = end_in(alloc, SCRIPT, &mut output)?;
    Some(is_end(end, output.held.as_slice()))
}

#[test]
fn script_with_refused_memory(rt: HostRuntime) {
    assert!(rt; script(rt.alloc()) != Some(false));
}

/// Returns whether all five events of `FIRST_PATH` come and the port then ends. The number of
/// refused events plus the number of failed sends must be at most 1. Returns `None` if one of the
/// test's own allocations fails, or `serve` fails.
fn serves(alloc: Global, node: &mut Node) -> Option<bool> {
    let mut ports = ports_of(alloc, FIRST_PATH)?;
    let served = serve(alloc, node, &mut ports, 10).ok()?;
    let lost = served.refused.saturating_add(served.failed_sends);
    Some(served.events == 5 && served.ended && lost < 2)
}

#[test]
fn served_turns_with_refused_memory(rt: HostRuntime) {
    assert!(rt; on_node(rt.alloc(), &serves) != Some(false));
}

//! Tests of a node that has the greatest number of pending Interests.

use super::octets::hexadecimal_of;
use super::outcome;
use std::alloc::Global;
use std::fmt::Write;

/// Appends a script in which 4,096 Interests with different names come from face 1. Two further
/// Interests follow: one from face 1 has a new name, and one from face 3 has the first of the 4,096
/// names. Returns `None` if memory runs out.
fn put_script(script: &mut String) -> Option<()> {
    script
        .push_str("up 1 local 1000000\nup 2 far 1000000\nup 3 far 1000000\nin 1 1000000 ")
        .ok()?;
    writeln!(script, "{}", hexadecimal_of("ROOT_2")).ok()?;
    for number in 0..4_097 {
        writeln!(
            script,
            "in 1 1000000 050c07040802{number:04x}0a04{number:08x}"
        )
        .ok()?;
    }
    writeln!(script, "in 3 1000000 050c0704080200000a0400010000").ok()
}

/// Returns the outcome of the script that `put_script` appends.
fn script_outcome(alloc: Global) -> Option<String> {
    let mut script = String::new(alloc);
    put_script(&mut script)?;
    outcome(alloc, script.as_str())
}

/// Returns whether an outcome ends with the expected answers to the last three Interests.
fn is_outcome(came: &str) -> Option<bool> {
    let last = came.rsplit_once("\n4100 passed\n")?.1;
    let (send, rest) = last.split_once('\n')?;
    Some(
        send == "> 2 050c070408020fff0a0400000fff"
            && rest == "4101 dropped PitFull\n4102 passed\nOk(())",
    )
}

/// A node has 4,096 pending Interests. Returns whether the node drops an Interest with a new name,
/// but not an Interest that comes from another face and has the name of a pending Interest. The
/// Interest from the other face waits for the answer to the pending Interest.
fn is_refused_alone(alloc: Global) -> Option<bool> {
    let came = script_outcome(alloc)?;
    is_outcome(came.as_str())
}

#[test]
fn full_pending_table(rt: HostRuntime) {
    assert!(rt; is_refused_alone(rt.alloc()) == Some(true));
}

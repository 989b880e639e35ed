use super::outcome;
use std::alloc::Global;
use test_support::first_wrong;

/// Each row has a script, then ` -> `, then the script's output, and then how the script ends. A
/// `|` stands for an LF.
const SCRIPTS: &str = "
 -> Ok(())
|# a comment, in 1|| -> Ok(())
up 1 local 0 -> 1 passed|Ok(())
up 1 far 7||#|tick 18446744073709551615| -> 1 passed|2 passed|Ok(())
in 1 0 -|in 1 0 0aFf|in 1 0 00| -> 1 dropped NoFace|2 dropped NoFace|3 dropped NoFace|Ok(())
rules 7 - -|rules 7 3b 3B0a|rules 7 - 2f6b2030310a -> 1 passed|2 passed|3 passed|Ok(())
";

const BAD_LINES: &str = "
in 1 -> Err(BadLine(1))
in 1 0 -> Err(BadLine(1))
in 1 0  -> Err(BadLine(1))
in 1 0 0a0 -> Err(BadLine(1))
in 1 0 0g -> Err(BadLine(1))
in 1 0 - - -> Err(BadLine(1))
up 1 near 0 -> Err(BadLine(1))
up 1 local -> Err(BadLine(1))
up  1 local 0 -> Err(BadLine(1))
up 1 local 00 -> Err(BadLine(1))
down 1 01 -> Err(BadLine(1))
down 1 -> Err(BadLine(1))
tick -> Err(BadLine(1))
tick  -> Err(BadLine(1))
tick 1  -> Err(BadLine(1))
 tick 1 -> Err(BadLine(1))
tick +1 -> Err(BadLine(1))
tick 1\r -> Err(BadLine(1))
tick 18446744073709551616 -> Err(BadLine(1))
Tick 1 -> Err(BadLine(1))
rules -> Err(BadLine(1))
rules 1 - -> Err(BadLine(1))
rules 1 - - - -> Err(BadLine(1))
rules 1  - - -> Err(BadLine(1))
rules 01 - - -> Err(BadLine(1))
rules 1 72756c65 - -> Err(BadLine(1))
rules 1 - 2f6b -> Err(BadLine(1))
rules 1 ff - -> Err(BadLine(1))
rules 1 - ff -> Err(BadLine(1))
rules 1 3 - -> Err(BadLine(1))
rules 1 - 3b0 -> Err(BadLine(1))
rules 1 - -|rules 1 -|tick 1 -> 1 passed|Err(BadLine(2))
\r -> Err(BadLine(1))
tick 1|# 2|in 1|tick 2 -> 1 passed|Err(BadLine(3))
up 1 local 0|up 2 far 0|in 1|tick 7| -> 1 passed|2 passed|Err(BadLine(3))
";

/// Returns a text with the output of a script and how the script ends. In this text, `|` stands for
/// each LF.
fn shown_outcome(alloc: Global, script: &str) -> Option<String> {
    let came = outcome(alloc, script)?;
    came.as_str().replace(alloc, '\n', "|").ok()
}

/// Returns what `shown_outcome` returns for a script in which `|` stands for each LF.
fn played(alloc: Global, script: &str) -> Option<String> {
    let script = script.replace(alloc, '|', "\n").ok()?;
    shown_outcome(alloc, script.as_str())
}

/// Returns whether `played` returns, for the script of a row, the text after the row's arrow.
fn is_played(alloc: Global, row: &str) -> bool {
    let (script, wanted) = row.split_once(" -> ").unwrap_or((row, "no arrow"));
    played(alloc, script).as_deref() == Some(wanted)
}

/// Returns a line of `len` octets followed by `rest`.
fn line_of(alloc: Global, len: usize, rest: &str) -> Option<String> {
    let line = vec![in alloc; b'#'; len].ok()?;
    let mut script = String::from_utf8(line).ok()?;
    script.push_str(rest).ok()?;
    Some(script)
}

/// Returns what `played` returns for a line of `len` octets followed by `rest`.
fn played_line(alloc: Global, len: usize, rest: &str) -> Option<String> {
    let script = line_of(alloc, len, rest)?;
    played(alloc, script.as_str())
}

/// Returns whether `played` returns `wanted` for a line of `len` octets followed by `rest`.
fn line_comes_to(alloc: Global, len: usize, rest: &str, wanted: &str) -> bool {
    played_line(alloc, len, rest).as_deref() == Some(wanted)
}

#[test]
fn script_texts(rt: HostRuntime) {
    assert!(rt; first_wrong(rt.alloc(), SCRIPTS, is_played) == 0);
}

#[test]
fn bad_lines(rt: HostRuntime) {
    assert!(rt; first_wrong(rt.alloc(), BAD_LINES, is_played) == 0);
}

#[test]
fn longest_line(rt: HostRuntime) {
    assert!(rt; line_comes_to(rt.alloc(), 20_000, "", "Ok(())"));
    assert!(rt; line_comes_to(rt.alloc(), 20_000, "|tick 1", "1 passed|Ok(())"));
    assert!(rt; line_comes_to(rt.alloc(), 20_001, "", "Err(BadLine(1))"));
}

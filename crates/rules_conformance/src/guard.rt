//! Tests of the replay guard, which decides whether a signed command is fresh.

mod replay_windows;

use crate::rows::check_rows;
use ndn_names::NameBuf;
use replay_guard::*;
use std::alloc::Global;

/// Reads the key of a signer. The word `digest` stands for a signer without a key.
fn key_in(alloc: Global, text: &str) -> Option<Option<NameBuf>> {
    if text == "digest" {
        return Some(None);
    }
    Some(Some(NameBuf::from_uri(alloc, text).ok()?))
}

fn signer_of(key: &Option<NameBuf>) -> Signer<'_> {
    match key {
        None => Signer::Digest,
        Some(name) => Signer::Key(name.view()),
    }
}

/// Returns the sequence number of a command, or no number for `-`.
fn number_in(text: &str) -> Option<Option<u64>> {
    if text == "-" {
        return Some(None);
    }
    Some(Some(text.parse().ok()?))
}

/// Records the command `SIGNER TIME NUMBER`. For `prepare SIGNER`, prepares the recording of a
/// command of this signer, and records nothing.
fn record(alloc: Global, guard: &mut Guard, command: &str) -> Option<()> {
    let (signer, rest) = command.split_once(' ')?;
    if signer == "prepare" {
        let key = key_in(alloc, rest)?;
        return guard.prepare(signer_of(&key)).ok();
    }
    let (time, number) = rest.split_once(' ')?;
    let (time, number) = (time.parse().ok()?, number_in(number)?);
    let key = key_in(alloc, signer)?;
    guard.record(signer_of(&key), time, number).ok()
}

/// Returns whether a command is fresh. `command` is the command's signer, time and number, and then
/// the present time.
fn is_fresh(alloc: Global, guard: &Guard, command: &str) -> Option<bool> {
    let (signer, rest) = command.split_once(' ')?;
    let (time, rest) = rest.split_once(' ')?;
    let (number, now) = rest.split_once(' ')?;
    let (time, number, now) = (time.parse().ok()?, number_in(number)?, now.parse().ok()?);
    let key = key_in(alloc, signer)?;
    Some(guard.check(signer_of(&key), time, number, now))
}

/// Records the commands before `? `. Then shows `fresh` if the command after `? ` is fresh, and
/// `no` otherwise.
fn freshness(alloc: Global, row: &str) -> Option<String> {
    let (past, command) = row.split_once("? ")?;
    let answer = if is_fresh_after(alloc, past, command)? {
        "fresh"
    } else {
        "no"
    };
    String::from_str(alloc, answer).ok()
}

/// Returns whether a command is fresh after the commands `past` were recorded.
fn is_fresh_after(alloc: Global, past: &str, command: &str) -> Option<bool> {
    let guard = guard_of(alloc, past)?;
    is_fresh(alloc, &guard, command)
}

/// Returns a new guard in which the commands `past` are recorded.
fn guard_of(alloc: Global, past: &str) -> Option<Guard> {
    let mut guard = Guard::new(alloc);
    record_all(alloc, &mut guard, past)?;
    Some(guard)
}

/// Records the commands `past`, which are separated by `, `.
fn record_all(alloc: Global, guard: &mut Guard, past: &str) -> Option<()> {
    for recorded in past.split_terminator(", ") {
        record(alloc, guard, recorded.trim())?;
    }
    Some(())
}

/// Shows `true` if two guards have the same times and numbers, and `false` otherwise. Each guard is
/// given by the commands that it records.
fn sameness(alloc: Global, row: &str) -> Option<String> {
    let (past, other) = row.split_once("; ")?;
    let is_same = are_same(alloc, past, other)?;
    format!(in alloc; "{is_same}").ok()
}

/// Returns whether two guards have the same times and numbers. Each guard is given by the commands
/// that it records.
fn are_same(alloc: Global, past: &str, other: &str) -> Option<bool> {
    let guard = guard_of(alloc, past)?;
    let other = guard_of(alloc, other)?;
    Some(guard.has_same_times(&other))
}

/// `has_same_times` is true exactly if both guards have the same signers, each with the same
/// greatest time and number.
#[test]
fn same_times(rt: HostRuntime) {
    let rows = "
/k 5 5, digest 7 -; digest 7 -, /k 4 5, /k 5 - -> true
/k 5 5; /k 5 5, prepare /l -> true
/k 5 5; /k 6 5 -> false
/k 5 5; /k 5 6 -> false
/k 5 5; /k 5 - -> false
/k 5 5; /l 5 5 -> false
/k 5 5; /k 5 5, /l 5 5 -> false
/k 5 5, /l 5 5; /k 5 5 -> false
";
    check_rows(&rt, rt.alloc(), rows, sameness);
}

/// A preparation does not record a command.
#[test]
fn a_preparation_records_nothing(rt: HostRuntime) {
    let rows = "
prepare /k, ? /k 0 - 0 -> fresh
prepare digest, ? digest 0 - 0 -> fresh
/k 5 5, prepare /k, ? /k 5 6 5 -> no
/k 5 5, prepare /k, ? /k 6 6 5 -> fresh
";
    check_rows(&rt, rt.alloc(), rows, freshness);
}

/// After a preparation for a signer, a command of this signer can be recorded.
#[test]
fn prepared_calls_have_their_effect(rt: HostRuntime) {
    let rows = "
prepare /k, /k 0 0, ? /k 0 1 0 -> no
prepare /k, /k 0 0, ? /k 1 0 0 -> no
prepare /k, /k 0 0, ? /k 1 1 0 -> fresh
prepare /k, /k 0 0, ? /l 0 0 0 -> fresh
prepare digest, digest 0 0, ? digest 0 1 0 -> no
prepare digest, digest 0 0, ? digest 1 1 0 -> fresh
prepare digest, digest 0 0, ? /k 0 0 0 -> fresh
/k 5 5, prepare /k, /k 6 6, ? /k 7 6 5 -> no
/k 5 5, prepare /k, /k 6 6, ? /k 7 7 5 -> fresh
";
    check_rows(&rt, rt.alloc(), rows, freshness);
}

/// After a preparation for one signer, a command of another signer can be recorded. Afterwards, a
/// command of the first signer can be recorded as well.
#[test]
fn calls_of_others_after_a_preparation(rt: HostRuntime) {
    let rows = "
# A call of another signer has its own.
prepare /k, /l 0 0, ? /l 0 1 0 -> no
prepare /k, /l 0 0, ? /k 0 0 0 -> fresh
prepare /k, digest 0 0, ? digest 0 1 0 -> no
prepare /k, digest 0 0, ? /k 0 0 0 -> fresh
prepare digest, /k 0 0, ? digest 0 0 0 -> fresh
# So has the signer's own call after that.
prepare /k, /l 0 0, /k 0 0, ? /k 0 1 0 -> no
prepare /k, /l 0 0, /k 0 0, ? /l 0 1 0 -> no
";
    check_rows(&rt, rt.alloc(), rows, freshness);
}

/// After preparations for two signers, a command of either signer can be recorded. A recording for
/// one signer records nothing for the other signer.
#[test]
fn recordings_after_two_preparations(rt: HostRuntime) {
    let rows = "
prepare /k, prepare /l, /l 0 0, ? /l 0 1 0 -> no
prepare /k, prepare /l, /l 0 0, ? /k 0 0 0 -> fresh
prepare /k, prepare /l, /k 0 0, ? /k 0 1 0 -> no
";
    check_rows(&rt, rt.alloc(), rows, freshness);
}

/// Prepares a recording for a signer, and then records two commands of this signer. Returns whether
/// both commands are recorded and the first command is not fresh after it was recorded. If the
/// preparation fails, returns whether the first command is still fresh.
fn keeps_its_promise(alloc: Global) -> Option<bool> {
    let key = key_in(alloc, "/k")?;
    let mut guard = Guard::new(alloc);
    Some(promise_is_kept(&mut guard, signer_of(&key)))
}

/// Returns the result of `keeps_its_promise` for the new guard `guard` and the signer `signer`.
fn promise_is_kept(guard: &mut Guard, signer: Signer<'_>) -> bool {
    if guard.prepare(signer).is_err() {
        return guard.check(signer, 0, None, 0);
    }
    let recorded = guard.record(signer, 0, None).is_ok();
    recorded && !guard.check(signer, 0, None, 0) && guard.record(signer, 1, None).is_ok()
}

#[test]
fn refused_memory_for_records(rt: HostRuntime) {
    assert!(rt; keeps_its_promise(rt.alloc()) != Some(false));
}

/// Returns whether a recording for a new signer leaves earlier records unchanged, even if the
/// recording runs out of memory. Afterwards, the command of the new signer must be fresh exactly if
/// this command was not recorded. The recording may run out of memory because another signer's
/// recording used up the preparation. Returns `None` if memory runs out before the recording for
/// the new signer.
fn leaves_earlier_records(alloc: Global) -> Option<bool> {
    let first = key_in(alloc, "/k")?;
    let second = key_in(alloc, "/l")?;
    new_guard_leaves_records(alloc, signer_of(&first), signer_of(&second))
}

/// Returns the result of `leaves_earlier_records` for a new guard and these two signers.
fn new_guard_leaves_records(alloc: Global, first: Signer<'_>, second: Signer<'_>) -> Option<bool> {
    let mut guard = Guard::new(alloc);
    leaves_records(&mut guard, first, second)
}

/// Returns the result of `leaves_earlier_records` for the new guard `guard` and these two signers.
fn leaves_records(guard: &mut Guard, first: Signer<'_>, second: Signer<'_>) -> Option<bool> {
    guard.record(Signer::Digest, 5, Some(5)).ok()?;
    guard.prepare(second).ok()?;
    guard.record(first, 5, Some(5)).ok()?;
    let was_recorded = guard.record(second, 5, Some(5)).is_ok();
    Some(
        guard.check(second, 5, Some(5), 5) != was_recorded
            && is_recorded(guard, Signer::Digest)
            && is_recorded(guard, first),
    )
}

/// Returns whether the greatest time and the greatest number recorded for the signer are both 5.
fn is_recorded(guard: &Guard, signer: Signer<'_>) -> bool {
    !guard.check(signer, 5, Some(6), 5)
        && !guard.check(signer, 6, Some(5), 5)
        && guard.check(signer, 6, Some(6), 5)
}

#[test]
fn earlier_records_with_refused_memory(rt: HostRuntime) {
    assert!(rt; leaves_earlier_records(rt.alloc()) != Some(false));
}

//! Tests that show which commands are fresh. Freshness depends on the present time and on the
//! commands that were recorded before.

use super::freshness;
use crate::rows::check_rows;

/// A command is fresh only if its time is at most 120,000 milliseconds before or after the present
/// time.
#[test]
fn at_most_120_seconds_from_the_present(rt: HostRuntime) {
    let rows = "
? digest 880000 - 1000000 -> fresh
? digest 879999 - 1000000 -> no
? /k 1120000 - 1000000 -> fresh
? /k 1120001 - 1000000 -> no
? digest 0 - 120000 -> fresh
? digest 0 - 120001 -> no
? /k 120000 - 0 -> fresh
? /k 120001 - 0 -> no
? /k 18446744073709551615 - 18446744073709431615 -> fresh
? /k 18446744073709551615 - 18446744073709431614 -> no
";
    check_rows(&rt, rt.alloc(), rows, freshness);
}

/// A command is not fresh if a recorded command of its signer has the same time or the same number.
#[test]
fn an_equal_time_or_number_is_not_new(rt: HostRuntime) {
    let rows = "
/k 1000000 5, ? /k 1000000 6 1000000 -> no
/k 1000000 5, ? /k 1000001 5 1000000 -> no
/k 1000000 5, ? /k 1000001 6 1000000 -> fresh
";
    check_rows(&rt, rt.alloc(), rows, freshness);
}

/// A command without a number does not change the recorded number of its signer.
#[test]
fn a_command_without_a_number_forgets_no_number(rt: HostRuntime) {
    let rows = "
/k 1000000 5, ? /k 1000001 - 1000000 -> fresh
/k 1000000 5, /k 1000001 -, ? /k 1000002 5 1000000 -> no
/k 1000000 5, /k 1000001 -, ? /k 1000002 6 1000000 -> fresh
";
    check_rows(&rt, rt.alloc(), rows, freshness);
}

/// A signer's first sequence number is recorded even if earlier commands of the signer had no
/// number. Zero is a sequence number like any other.
#[test]
fn a_number_after_none_counts(rt: HostRuntime) {
    let rows = "
/k 1 -, /k 2 5, ? /k 3 5 3 -> no
/k 1 -, /k 2 5, ? /k 3 6 3 -> fresh
/k 0 0, ? /k 1 0 1 -> no
/k 0 0, ? /k 1 1 1 -> fresh
/k 0 -, ? /k 1 0 1 -> fresh
";
    check_rows(&rt, rt.alloc(), rows, freshness);
}

/// A command's time and number are compared with the greatest time and number recorded for its
/// signer.
#[test]
fn the_greatest_that_was_recorded_counts(rt: HostRuntime) {
    let rows = "
/k 1000001 6, /k 1000000 5, ? /k 1000001 7 1000000 -> no
/k 1000001 6, /k 1000000 5, ? /k 1000002 6 1000000 -> no
/k 1000001 6, /k 1000000 5, ? /k 1000002 7 1000000 -> fresh
";
    check_rows(&rt, rt.alloc(), rows, freshness);
}

/// Each key is a separate signer. All digest signatures belong to one signer.
#[test]
fn each_key_is_a_signer(rt: HostRuntime) {
    let rows = "
# Each key is a signer, and all digests are one.
/k 1000000 5, ? /l 1000000 5 1000000 -> fresh
/k 1000000 5, ? /k/l 1000000 5 1000000 -> fresh
/k 1000000 5, ? digest 1000000 5 1000000 -> fresh
digest 1000000 -, ? digest 1000000 - 1000000 -> no
digest 1000000 -, /k 1000001 -, ? digest 1000001 - 1000000 -> fresh
# The key of the empty name is no digest.
/ 0 0, ? / 0 0 0 -> no
/ 0 0, ? digest 0 0 0 -> fresh
digest 0 0, ? / 0 0 0 -> fresh
";
    check_rows(&rt, rt.alloc(), rows, freshness);
}

/// The rules for freshness also apply to the least and the greatest times and numbers.
#[test]
fn ends_of_time_and_of_numbers(rt: HostRuntime) {
    let rows = "
? /k 0 0 0 -> fresh
? /k 0 - 18446744073709551615 -> no
? /k 18446744073709551615 - 0 -> no
? /k 18446744073709551615 18446744073709551615 18446744073709551615 -> fresh
/k 18446744073709551615 -, ? /k 18446744073709551615 - 18446744073709551615 -> no
/k 0 18446744073709551615, ? /k 1 18446744073709551615 0 -> no
";
    check_rows(&rt, rt.alloc(), rows, freshness);
}

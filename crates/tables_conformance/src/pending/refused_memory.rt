//! Tests of prepared Interests, and of a table to which memory is refused. Each function that
//! `tried` calls returns `None` if memory was refused and the table is unchanged. So with ample
//! memory its result is true, and if one request for memory is refused, its result is not false
//! (`rt try --test --fail-alloc N`).

use super::{Table, key_of};
use ndn_packets::Key;
use std::alloc::Global;

/// Returns `None` if a refused call left everything unchanged, and false otherwise.
fn refused(is_unchanged: bool) -> Option<bool> {
    if is_unchanged { None } else { Some(false) }
}

/// Prepares an Interest under `key`, and records it after an older Interest under `other` has
/// expired. Returns whether the Interest is recorded and sent on.
fn keeps_what_is_prepared(table: &mut Table, key: Key<'_>, other: Key<'_>) -> Option<bool> {
    if table.ask(other, 1, [1; 4], 5).is_some() {
        return refused(table.pit.is_empty());
    }
    if !table.prepare(key, 4) {
        return refused(table.pit.len() == 1 && table.pit.interest_of(other, 1).is_some());
    }
    table.expire(5);
    let is_kept = table.ask(key, 1, [2; 4], 9).is_none();
    Some(is_kept && table.sent(key, 1, 2, [2; 4], 6) && table.pit.len() == 1)
}

/// Returns whether a prepared Interest is recorded with a PIT token of 32 octets.
fn keeps_a_prepared_token(table: &mut Table, key: Key<'_>, _other: Key<'_>) -> Option<bool> {
    if !table.prepare(key, 36) {
        return refused(table.pit.is_empty());
    }
    let is_kept = table.ask_with(key, 1, [2; 4], 9, &[7; 32]).is_none();
    let has_token = table.pit.token_of(key, 1) == Some([7; 32].as_slice());
    Some(is_kept && has_token && table.pit.interest_of(key, 1) == Some([2; 4].as_slice()))
}

/// Returns whether a face's new Interest replaces its older Interest, and leaves the out-record of
/// the older Interest.
fn replaces_the_older_one(table: &mut Table, key: Key<'_>, _other: Key<'_>) -> Option<bool> {
    if table.ask(key, 1, [1; 4], 5).is_some() {
        return refused(table.pit.is_empty());
    }
    let is_sent = table.sent(key, 1, 2, [1; 4], 3);
    let is_refused = table.ask(key, 1, [2; 4], 5).is_some();
    let nonce = if is_refused { [1; 4] } else { [2; 4] };
    let is_kept = table.pit.interest_of(key, 1) == Some(nonce.as_slice());
    let stands = is_kept && table.pit.len() == 1;
    if is_refused || !is_sent {
        return refused(stands);
    }
    Some(stands && table.pit.used(key).get(2) == Some(3))
}

/// Returns what `trial` returns for an empty table and for keys without flags and with these names.
fn tried<F: Fn(&mut Table, Key<'_>, Key<'_>) -> Option<bool>>(
    alloc: Global,
    trial: &F,
    name: &[u8],
    other: &[u8],
) -> Option<bool>
    requires { F.IsAlwaysCallable trial.now }
{
    let (Some(key), Some(other)) = (key_of(name, 0), key_of(other, 0)) else {
        return Some(false);
    };
    let mut table = Table::new(alloc);
    trial(&mut table, key, other)
}

const A: &[u8] = b"\x08\x01A";

const B: &[u8] = b"\x08\x01B";

const AB: &[u8] = b"\x08\x01A\x08\x01B";

const ABC: &[u8] = b"\x08\x01A\x08\x01B\x08\x01C";

#[test]
fn prepared_interests(rt: HostRuntime) {
    assert!(rt; tried(rt.alloc(), &keeps_what_is_prepared, A, B) == Some(true));
    assert!(rt; tried(rt.alloc(), &keeps_what_is_prepared, ABC, AB) == Some(true));
    assert!(rt; tried(rt.alloc(), &keeps_a_prepared_token, A, B) == Some(true));
    assert!(rt; tried(rt.alloc(), &replaces_the_older_one, A, B) == Some(true));
}

#[test]
fn refused_memory_for_interests(rt: HostRuntime) {
    assert!(rt; tried(rt.alloc(), &keeps_what_is_prepared, A, B) != Some(false));
    assert!(rt; tried(rt.alloc(), &keeps_what_is_prepared, ABC, AB) != Some(false));
    assert!(rt; tried(rt.alloc(), &keeps_a_prepared_token, A, B) != Some(false));
    assert!(rt; tried(rt.alloc(), &replaces_the_older_one, A, B) != Some(false));
}

//! Tests of lookups that must find the only fresh Data among many stale Data.

use super::{key_of, put_number, put_packet};
use content_store::*;
use ndn_names::Name;
use std::alloc::Global;
use test_support::data_of;

/// The number of Data in the store.
const COUNT: u32 = 2000;

/// The octets of the name `/n`.
const UNDER: &[u8] = b"\x08\x01n";

/// Puts a Data for each number below `COUNT`: the fresh Data for the number `at`, and a stale Data
/// for each other number. Returns whether all of them are cached.
fn put_all(store: &mut Store, stale: &mut [u8], fresh: &[u8], at: u32) -> bool {
    for step in 0..COUNT {
        // The numbers are not in ascending order.
        let number = step * 7 % COUNT;
        put_number(stale, number);
        let is_kept = if number == at {
            put_packet(store, fresh, 0)
        } else {
            put_packet(store, stale, 0)
        };
        if !is_kept {
            return false;
        }
    }
    true
}

/// Returns whether a lookup with MustBeFresh finds this Data under `/n` at this moment, or no Data
/// if `fresh` is `None`.
fn is_given(store: &mut Store, fresh: Option<&[u8]>, now: u64) -> bool {
    match Name::read(UNDER) {
        Ok(name) => store.find(key_of(name, true), now) == fresh,
        Err(_) => false,
    }
}

/// Erases at most `count` Data under a name, and returns whether `erased` Data are erased.
fn erases(store: &mut Store, octets: &[u8], count: Option<u64>, erased: u64) -> bool {
    match Name::read(octets) {
        Ok(name) => store.erase(name, count) == erased,
        Err(_) => false,
    }
}

/// Returns whether the fresh Data is found until its FreshnessPeriod is over, and is found after
/// 600 other Data were erased. After the fresh Data itself was erased, it must not be found.
fn is_given_while_fresh(store: &mut Store, fresh: &[u8]) -> bool {
    is_given(store, Some(fresh), 9)
        && is_given(store, None, 10)
        && erases(store, UNDER, Some(600), 600)
        && is_given(store, Some(fresh), 9)
        && erases(store, fresh.get(4..13).unwrap_or(UNDER), None, 1)
        && is_given(store, None, 9)
}

/// Returns whether the only fresh Data, whose FreshnessPeriod is 10 ms, is found among Data that
/// are never fresh.
fn is_fresh_found(alloc: Global, at: u32) -> Option<bool> {
    let mut stale = data_of(alloc, "/n/0000", "01", Some(0))?;
    let mut fresh = data_of(alloc, "/n/0000", "02", Some(10))?;
    put_number(&mut fresh, at);
    let mut store = Store::new(alloc, COUNT as usize).ok()?;
    Some(put_all(&mut store, &mut stale, &fresh, at) && is_given_while_fresh(&mut store, &fresh))
}

#[test]
fn fresh_data_among_stale(rt: HostRuntime) {
    assert!(rt; is_fresh_found(rt.alloc(), 600) == Some(true));
    assert!(rt; is_fresh_found(rt.alloc(), 1234) == Some(true));
    assert!(rt; is_fresh_found(rt.alloc(), 1999) == Some(true));
}

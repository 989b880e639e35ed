//! Tests of the content store that no scenario shows: how many comparisons lookups take, stores of
//! many Data, a Data of 8,800 octets, and random calls.

mod fresh_among_stale;
mod random_sequences;

use content_store::*;
use ndn_names::Name;
use ndn_packets::*;
use std::alloc::Global;
use test_support::data_of;

/// Puts a Data into the store, and returns whether the Data is cached. `packet` is the encoding of
/// the Data.
fn put_packet(store: &mut Store, packet: &[u8], arrival: u64) -> bool {
    match read_frame(packet) {
        Ok(Frame::Data(data)) => store.put(&data, arrival),
        _ => false,
    }
}

/// Returns the key of an Interest with this name and both flags, or without flags.
fn key_of(name: Name<'_>, has_flags: bool) -> Key<'_> {
    Key {
        name,
        can_be_prefix: has_flags,
        must_be_fresh: has_flags,
    }
}

/// Replaces the second component of the Data's name by `number` in four octets. The name must be
/// `/n` followed by a component of four octets.
fn put_number(packet: &mut [u8], number: u32) {
    for (octet, digit) in packet.iter_mut().skip(9).zip(number.to_be_bytes()) {
        *octet = digit;
    }
}

/// Looks up the Data that `packet` encodes. Returns whether this Data is cached if `is_held` is
/// set, and whether it is not cached otherwise. The lookup must take at least one and at most
/// `most` comparisons.
fn is_found(store: &mut Store, packet: &[u8], most: u64, is_held: bool) -> bool {
    let Ok(Frame::Data(data)) = read_frame(packet) else {
        return false;
    };
    let mut counted = 0;
    let found = store.find_counted(key_of(data.name, false), 0, &mut counted);
    (found == Some(packet)) == is_held && counted >= 1 && counted <= most
}

/// Puts `capacity + 1` Data into a store. Returns whether each of them is cached, then the first
/// Data is evicted and the last Data is cached, and the store is full.
fn evicts_the_first(store: &mut Store, packet: &mut [u8], capacity: u32, most: u64) -> bool {
    for number in 0..=capacity {
        put_number(packet, number);
        if !put_packet(store, packet, 0) {
            return false;
        }
    }
    let holds_last = is_found(store, packet, most, true);
    put_number(packet, 0);
    holds_last && is_found(store, packet, most, false) && store.len() == capacity as usize
}

/// Returns whether a store with this capacity evicts its first Data when the store gets one Data
/// more than its capacity. Each lookup must take at least one and at most `most` comparisons.
fn is_first_gone(alloc: Global, capacity: u32, most: u64) -> Option<bool> {
    let mut packet = data_of(alloc, "/n/0000", "01", Some(0))?;
    let mut store = Store::new(alloc, capacity as usize).ok()?;
    Some(evicts_the_first(&mut store, &mut packet, capacity, most))
}

#[test]
fn full_caches(rt: HostRuntime) {
    assert!(rt; is_first_gone(rt.alloc(), 1, 1) == Some(true));
    assert!(rt; is_first_gone(rt.alloc(), 2, 2) == Some(true));
    assert!(rt; is_first_gone(rt.alloc(), 3, 2) == Some(true));
    assert!(rt; is_first_gone(rt.alloc(), 8, 4) == Some(true));
    assert!(rt; is_first_gone(rt.alloc(), 1000, 10) == Some(true));
}

/// Puts a Data into the store, and then 1,000 other Data. Returns whether all of them are cached,
/// and the first one is still found.
fn is_found_among_others(store: &mut Store, packet: &[u8], other: &mut [u8]) -> bool {
    if !put_packet(store, packet, 0) {
        return false;
    }
    for number in 0..1000 {
        put_number(other, number);
        if !put_packet(store, other, 0) {
            return false;
        }
    }
    is_found(store, packet, 11, true)
}

/// Returns whether a Data of 8,800 octets, the greatest packet, is found among 1,000 others.
fn is_greatest_found(alloc: Global) -> Option<bool> {
    let packet = data_of(alloc, "/big", "00x8746", None)?;
    let mut other = data_of(alloc, "/n/0000", "01", Some(0))?;
    let mut store = Store::new(alloc, 1001).ok()?;
    let is_found = is_found_among_others(&mut store, &packet, &mut other);
    Some(packet.len() == 8800 && is_found)
}

#[test]
fn greatest_data_among_others(rt: HostRuntime) {
    assert!(rt; is_greatest_found(rt.alloc()) == Some(true));
}

#[test]
fn greatest_cache(rt: HostRuntime) {
    assert!(rt; is_first_gone(rt.alloc(), 65_536, 17) == Some(true));
}

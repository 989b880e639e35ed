//! Random calls on a store. Their results are compared with the results of a plain array, which is
//! searched from end to end. An independent program made the Data.

use super::put_packet;
use content_store::*;
use ndn_names::Name;
use ndn_packets::*;
use std::alloc::Global;
use test_support::{octets, random};

/// Returns the name with this number. The names are in canonical order. The third name comes after
/// the full name of every Data that has the second name, `/A`.
fn name_at(name: usize) -> Option<Name<'static>> {
    let octets: &[u8] = match name {
        0 => b"",
        1 => b"\x08\x01\x41",
        2 =>
            b"\x08\x01\x41\x01\x20\xff\xff\xff\xff\xff\xff\xff\xff\xff\xff\xff\xff\xff\xff\xff\xff\xff\xff\xff\xff\xff\xff\xff\xff\xff\xff\xff\xff\xff\xff\xff\xff",
        3 => b"\x08\x01\x41\x08\x01\x42",
        4 => b"\x08\x01\x41\x08\x01\x43",
        5 => b"\x08\x01\x42",
        _ => b"\x08\x02\x41\x41",
    };
    Name::read(octets).ok()
}

/// Two Data for each name, in the canonical order of their full names. Their FreshnessPeriod is 5.
const DATA: &str = "
0656070014031901051526010000000000000000000000000000000000000000000000000000000000000000000000000016031b0100172087ff3356594001a941f3983c7057b901bbcd8279da61947748d35a9f59afdeab
0656070014031901051526020000000000000000000000000000000000000000000000000000000000000000000000000016031b010017207973b02a00c361156e148ac66fd461cca6d754a4de86288d79b1e17d820ff245
0656070308014114031901051523010000000000000000000000000000000000000000000000000000000000000000000016031b010017209c2c157751b01a946e05aa7746e2dd0e76fa77444edb94ac2dad7d1936b16018
0656070308014114031901051523020000000000000000000000000000000000000000000000000000000000000000000016031b01001720fd25085fb09f1824d2beff1340a8444e803b51a9ba8c5823af7202fa521f4ddb
065607250801410120ffffffffffffffffffffffffffffffffffffffffffffffffffffffffffffffff140319010515010216031b01001720db7e33294178a5e1f9fbce96ab2aa582c41c507277b27968f5881c32d3fb24be
065607250801410120ffffffffffffffffffffffffffffffffffffffffffffffffffffffffffffffff140319010515010116031b01001720c68bc7bf83ea0e18ae67686c804a90ba5f31246c2e16091daeb78dd89559495f
0656070608014108014214031901051520010000000000000000000000000000000000000000000000000000000000000016031b01001720637c742ba104f6786ed4d6c40c5cf15034dd11401594850d6c34474b6e5f1e86
0656070608014108014214031901051520020000000000000000000000000000000000000000000000000000000000000016031b0100172015722e1cf99d1ea8abbdd0afc04095cdf7c8ef1777d2f5d4df9614b8ce1a7e8e
0656070608014108014314031901051520010000000000000000000000000000000000000000000000000000000000000016031b0100172030b9dab511699fa3792fed9959079e41a85b0d4a5198f7198a53b78b51e48b05
0656070608014108014314031901051520020000000000000000000000000000000000000000000000000000000000000016031b010017206b7f142bca5d75729af5573efdcc15622cfdb7606182cf5f7093b744deb48118
0656070308014214031901051523010000000000000000000000000000000000000000000000000000000000000000000016031b0100172017a68a56963d6fbcf795e870cc6900cffcfd640369aa99d3a2af2ee28243c419
0656070308014214031901051523020000000000000000000000000000000000000000000000000000000000000000000016031b010017208f7ca2392d7b62e87abb709e27e56430275576b92a695778dd2fe54db835c129
0656070408024141140319010515220100000000000000000000000000000000000000000000000000000000000000000016031b0100172015e6e0b873cf5dc052ca9f9a6ff2c1b6ff603e456e421a4df10a6aa9cc248279
0656070408024141140319010515220200000000000000000000000000000000000000000000000000000000000000000016031b01001720bc5d0f208110c893d10d34a1b608c0d62f58a63477c141b760a7f4dd8ee78c99
";

const DATA_LEN: usize = 88;

/// A cached Data: the moment of its arrival, and the number of the call that used it last.
#[derive(Clone, Copy)]
struct Held {
    arrival: u64,
    used: u64,
}

/// The cached Data, by their numbers, the number of calls, and the greatest number of cached Data.
#[derive(Clone, Copy)]
struct Plain {
    held: [Option<Held>; 14],
    calls: u64,
    capacity: usize,
}

/// An Interest: the number of its name, its flags and its time.
#[derive(Clone, Copy)]
struct Asked {
    name: usize,
    can_be_prefix: bool,
    must_be_fresh: bool,
    now: u64,
}

/// Returns whether the Data with this number has a full name that begins with this name.
fn is_under(data: usize, name: usize) -> bool {
    let own = data / 2;
    own == name || name == 0 || (name == 1 && own >= 1 && own <= 4)
}

fn can_serve(data: usize, held: Held, asked: Asked) -> bool {
    let answers = data / 2 == asked.name || (asked.can_be_prefix && is_under(data, asked.name));
    answers && (!asked.must_be_fresh || asked.now < held.arrival.saturating_add(5))
}

/// Returns the cached Data with the least full name among those that can answer the Interest
/// `asked`, or `None` if no cached Data can answer this Interest.
fn least(plain: &Plain, asked: Asked) -> Option<usize> {
    for (data, held) in plain.held.iter().enumerate() {
        if let Some(held) = held
            && can_serve(data, *held, asked)
        {
            return Some(data);
        }
    }
    None
}

fn set(plain: &mut Plain, data: usize, held: Option<Held>) {
    if let Some(place) = plain.held.get_mut(data) {
        *place = held;
    }
}

/// Returns the number of cached Data.
fn len(plain: &Plain) -> usize {
    let mut len: usize = 0;
    for held in &plain.held {
        len = len.saturating_add(usize::from(held.is_some()));
    }
    len
}

/// Returns the cached Data that was used the longest time ago.
fn oldest(plain: &Plain) -> usize {
    let mut oldest: usize = 14;
    let mut least = u64::MAX;
    for (data, held) in plain.held.iter().enumerate() {
        if let Some(held) = held
            && held.used < least
        {
            oldest = data;
            least = held.used;
        }
    }
    oldest
}

/// Puts a random Data into the store and into the array. Returns whether the Data is cached in the
/// store. With ample memory, the Data must be cached.
fn put_agrees(store: &mut Store, plain: &mut Plain, data: &[u8], state: &mut u64) -> bool {
    let at = random(state, 14) as usize;
    let arrival = random(state, 20);
    let used = plain.calls;
    set(plain, at, Some(Held { arrival, used }));
    if len(plain) > plain.capacity {
        let oldest = oldest(plain);
        set(plain, oldest, None);
    }
    match data.chunks_exact(DATA_LEN).nth(at) {
        Some(packet) => put_packet(store, packet, arrival),
        None => false,
    }
}

/// Calls `find`, `find_counted` or `serve_at`, chosen at random, and returns the result. Returns
/// `None` if this call and `place_for` disagree on whether there is a Data. Also returns `None` if
/// `find_counted` takes more than 17 comparisons.
fn look_up<'a>(
    store: &'a mut Store,
    key: Key<'_>,
    now: u64,
    state: &mut u64,
) -> Option<Option<&'a [u8]>> {
    let place = store.place_for(key, now);
    let mut steps = 0;
    let found = match random(state, 4) {
        0 => store.find(key, now),
        1 => store.find_counted(key, now, &mut steps),
        2 => store.serve_at(random(state, 6) as usize, key, now),
        _ => store.serve_at(place.unwrap_or(0), key, now),
    };
    (place.is_some() == found.is_some() && steps <= 17).then_some(found)
}

/// Returns whether a random lookup in the store gives the same result as in the array.
fn find_agrees(store: &mut Store, plain: &mut Plain, data: &[u8], state: &mut u64) -> Option<bool> {
    let asked = Asked {
        name: random(state, 7) as usize,
        can_be_prefix: random(state, 2) == 1,
        must_be_fresh: random(state, 2) == 1,
        now: random(state, 25),
    };
    let key = Key {
        name: name_at(asked.name)?,
        can_be_prefix: asked.can_be_prefix,
        must_be_fresh: asked.must_be_fresh,
    };
    let found = look_up(store, key, asked.now, state)?;
    let expected = match least(plain, asked) {
        Some(at) => {
            let used = plain.calls;
            if let Some(Some(held)) = plain.held.get_mut(at) {
                held.used = used;
            }
            data.chunks_exact(DATA_LEN).nth(at)
        }
        None => None,
    };
    Some(found == expected)
}

/// Returns whether an `erase` removes as many Data from the store as from the array.
fn erase_agrees(store: &mut Store, plain: &mut Plain, state: &mut u64) -> Option<bool> {
    let name = random(state, 7) as usize;
    let count = match random(state, 4) {
        3 => None,
        count => Some(count),
    };
    let mut erased: u64 = 0;
    for (data, held) in plain.held.iter_mut().enumerate() {
        if held.is_some() && is_under(data, name) && erased < count.unwrap_or(14) {
            *held = None;
            erased = erased.saturating_add(1);
        }
    }
    Some(store.erase(name_at(name)?, count) == erased)
}

/// Returns whether a random call gives the same result for the store and for the array.
fn call_agrees(store: &mut Store, plain: &mut Plain, data: &[u8], state: &mut u64) -> bool {
    plain.calls = plain.calls.saturating_add(1);
    let agrees = match random(state, 4) {
        0 => erase_agrees(store, plain, state),
        1 => find_agrees(store, plain, data, state),
        _ => Some(put_agrees(store, plain, data, state)),
    };
    agrees == Some(true) && store.len() == len(plain)
}

/// Returns whether eight random calls give the same results for an empty store and for an empty
/// array.
fn calls_agree(store: &mut Store, data: &[u8], state: &mut u64) -> bool {
    let mut plain = Plain {
        held: [None; 14],
        calls: 0,
        capacity: store.capacity(),
    };
    for _ in 0..8 {
        if !call_agrees(store, &mut plain, data, state) {
            return false;
        }
    }
    true
}

/// Returns whether eight random calls give the same results for an empty store with a random
/// capacity and for an empty array.
fn sequence_agrees(alloc: Global, data: &[u8], state: &mut u64) -> bool {
    let capacity = random(state, 4).saturating_add(1) as usize;
    match Store::new(alloc, capacity) {
        Ok(mut store) => calls_agree(&mut store, data, state),
        Err(_) => false,
    }
}

/// Returns whether ten thousand sequences of random calls agree with the array.
fn all_agree(alloc: Global) -> bool {
    let Some(data) = octets(alloc, DATA) else {
        return false;
    };
    let mut state = 0x2545_f491_4f6c_dd1d;
    for _ in 0..10_000 {
        if !sequence_agrees(alloc, &data, &mut state) {
            return false;
        }
    }
    true
}

#[test]
fn random_sequences(rt: HostRuntime) {
    assert!(rt; all_agree(rt.alloc()));
}

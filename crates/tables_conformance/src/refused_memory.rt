//! Tests of prepared routes and strategies, and of tables and caches to which memory is refused.
//! Most functions return `None` if memory was refused and the table is unchanged. So with ample
//! memory their result is true, and if one request for memory is refused, their result is not false
//! (`rt try --test --fail-alloc N`).

use crate::route_table::{Route, RouteTable};
use content_store::Store;
use ndn_names::Name;
use ndn_packets::{Frame, Key, read_frame};
use pit_fib::{StrategyId, StrategyTable};
use std::alloc::Global;

/// Returns `None` if a refused call left everything unchanged, and false otherwise.
fn refused(is_unchanged: bool) -> Option<bool> {
    if is_unchanged { None } else { Some(false) }
}

/// Returns whether the table has only a name whose single next hop is on this face.
fn has_only(routes: &RouteTable, name: Name<'_>, face: u64) -> bool {
    let hops = routes.read().longest(name);
    match hops.get(0) {
        Some(hop) => hop.face == face && hops.len() == 1 && routes.read().len() == 1,
        None => false,
    }
}

/// Prepares a next hop of a name. Returns whether the next hop is added after the only route of the
/// other name has been unregistered.
fn adds_a_hop(routes: &mut RouteTable, name: Name<'_>, other: Name<'_>) -> Option<bool> {
    if routes.register(other, Route::new(2, 0)).is_err() {
        return refused(routes.read().len() == 0);
    }
    if routes.prepare(name).is_err() {
        return refused(has_only(routes, other, 2));
    }
    routes.unregister(other, 2, 0);
    let is_gone = routes.read().len() == 0;
    Some(is_gone && routes.add(name, 3, 0).is_ok() && has_only(routes, name, 3))
}

/// Prepares a route of a name. Returns whether the route is registered after the only route of the
/// other name has expired.
fn registers_a_route(routes: &mut RouteTable, name: Name<'_>, other: Name<'_>) -> Option<bool> {
    let mut route = Route::new(2, 0);
    route.deadline = Some(9);
    if routes.register(other, route).is_err() {
        return refused(routes.read().len() == 0);
    }
    if routes.prepare(name).is_err() {
        return refused(has_only(routes, other, 2));
    }
    let gone = routes.expire(9);
    let is_registered = routes.register(name, Route::new(3, 0)).is_ok();
    Some(gone == 1 && is_registered && has_only(routes, name, 3))
}

/// Registers eight routes of a name, and prepares a ninth. Returns whether the ninth route is
/// registered.
fn registers_a_ninth_route(
    routes: &mut RouteTable,
    name: Name<'_>,
    _other: Name<'_>,
) -> Option<bool> {
    for face in 1..9 {
        if routes.register(name, Route::new(face, 0)).is_err() {
            return refused(routes.read().longest(name).len() as u64 == face - 1);
        }
    }
    if routes.prepare(name).is_err() {
        return refused(routes.read().longest(name).len() == 8);
    }
    let is_registered = routes.register(name, Route::new(9, 0)).is_ok();
    Some(is_registered && routes.read().longest(name).len() == 9)
}

/// Returns whether a route replaces a route with the same name, face and origin.
fn replaces_a_route(routes: &mut RouteTable, name: Name<'_>, _other: Name<'_>) -> Option<bool> {
    let mut route = Route::new(2, 0);
    route.cost = 5;
    if routes.register(name, route).is_err() {
        return refused(routes.read().len() == 0);
    }
    let is_refused = routes.register(name, Route::new(2, 0)).is_err();
    let cost = if is_refused { 5 } else { 0 };
    let has_cost = match routes.read().longest(name).get(0) {
        Some(hop) => hop.cost == cost && has_only(routes, name, 2),
        None => false,
    };
    if is_refused {
        refused(has_cost)
    } else {
        Some(has_cost)
    }
}

const A: &[u8] = b"\x08\x01A";

const B: &[u8] = b"\x08\x01B";

const AB: &[u8] = b"\x08\x01A\x08\x01B";

/// Returns what `trial` returns for an empty table and for these names.
fn tried<F: Fn(&mut RouteTable, Name<'_>, Name<'_>) -> Option<bool>>(
    alloc: Global,
    trial: &F,
    name: &[u8],
    other: &[u8],
) -> Option<bool>
    requires { F.IsAlwaysCallable trial.now }
{
    let (Ok(name), Ok(other)) = (Name::read(name), Name::read(other)) else {
        return Some(false);
    };
    let mut routes = RouteTable::new(alloc);
    trial(&mut routes, name, other)
}

#[test]
fn prepared_routes(rt: HostRuntime) {
    assert!(rt; tried(rt.alloc(), &adds_a_hop, A, B) == Some(true));
    assert!(rt; tried(rt.alloc(), &adds_a_hop, A, A) == Some(true));
    assert!(rt; tried(rt.alloc(), &registers_a_route, A, B) == Some(true));
    assert!(rt; tried(rt.alloc(), &registers_a_route, AB, A) == Some(true));
    assert!(rt; tried(rt.alloc(), &registers_a_ninth_route, A, B) == Some(true));
    assert!(rt; tried(rt.alloc(), &replaces_a_route, A, B) == Some(true));
}

#[test]
fn refused_memory_for_routes(rt: HostRuntime) {
    assert!(rt; tried(rt.alloc(), &adds_a_hop, A, B) != Some(false));
    assert!(rt; tried(rt.alloc(), &adds_a_hop, A, A) != Some(false));
    assert!(rt; tried(rt.alloc(), &registers_a_route, A, B) != Some(false));
    assert!(rt; tried(rt.alloc(), &registers_a_route, AB, A) != Some(false));
    assert!(rt; tried(rt.alloc(), &registers_a_ninth_route, A, B) != Some(false));
    assert!(rt; tried(rt.alloc(), &replaces_a_route, A, B) != Some(false));
}

/// Prepares a strategy of a name. Returns whether the strategy is set after the strategy of the
/// other name has been unset.
fn sets(table: &mut StrategyTable, name: Name<'_>, other: Name<'_>) -> Option<bool> {
    if table.set(other, StrategyId::Multicast).is_err() {
        return refused(table.longest(other) == StrategyId::BestRoute);
    }
    if table.prepare(name).is_err() {
        let is_unchanged = table.longest(name) == StrategyId::BestRoute;
        return refused(is_unchanged && table.longest(other) == StrategyId::Multicast);
    }
    table.unset(other);
    let is_set = table.set(name, StrategyId::Multicast).is_ok();
    let is_unset = table.longest(other) == StrategyId::BestRoute;
    Some(is_set && is_unset && table.longest(name) == StrategyId::Multicast)
}

fn is_set(alloc: Global) -> Option<bool> {
    let (Ok(name), Ok(other)) = (Name::read(A), Name::read(B)) else {
        return Some(false);
    };
    let mut table = StrategyTable::new(alloc);
    sets(&mut table, name, other)
}

#[test]
fn prepared_strategies(rt: HostRuntime) {
    assert!(rt; is_set(rt.alloc()) == Some(true));
}

#[test]
fn refused_memory_for_strategies(rt: HostRuntime) {
    assert!(rt; is_set(rt.alloc()) != Some(false));
}

/// The Data `/%00%00`, with no octets of Content.
const DATA: [u8; 49] =
    *b"\x06\x2f\x07\x04\x08\x02\x00\x00\x15\x00\x16\x03\x1b\x01\x00\x17\x20\xc3\x8d\xe7\xe5\x54\xf8\x78\x1c\xab\xd1\xa5\x0f\xb6\x97\x52\x66\x3e\x00\x43\x68\x6f\x85\x46\x3b\x98\xc4\x3e\xa2\x96\xfa\x3b\x4d";

/// Puts a Data into a cache. Returns whether the Data is cached and found. If memory is refused,
/// the Data must be neither cached nor found.
fn puts(store: &mut Store, packet: &[u8]) -> Option<bool> {
    let Ok(Frame::Data(data)) = read_frame(packet) else {
        return Some(false);
    };
    let is_cached = store.put(&data, 0);
    let key = Key {
        name: data.name,
        can_be_prefix: false,
        must_be_fresh: false,
    };
    let is_found = store.find(key, 0) == Some(packet);
    if is_cached {
        Some(is_found)
    } else {
        refused(!is_found)
    }
}

fn is_cached(alloc: Global) -> Option<bool> {
    match Store::new(alloc, 2) {
        Ok(mut store) => puts(&mut store, &DATA),
        Err(_) => None,
    }
}

#[test]
fn refused_memory_for_caches(rt: HostRuntime) {
    assert!(rt; is_cached(rt.alloc()) != Some(false));
}

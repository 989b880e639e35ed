//! Tests of full tables of routes, and of the lookup of a name of 64 components.

use crate::route_table::{Route, RouteTable};
use ndn_names::Name;
use pit_fib::*;
use std::alloc::Global;

/// Returns the octets of the name with one component, which is `number` in two octets.
fn numbered(number: u16) -> [u8; 4] {
    let [high, low] = number.to_be_bytes();
    [8, 2, high, low]
}

/// Registers a route for a name. Returns whether the table accepts the route.
fn registers(routes: &mut RouteTable, octets: &[u8], route: Route) -> bool {
    match Name::read(octets) {
        Ok(name) => routes.register(name, route).is_ok(),
        Err(_) => false,
    }
}

/// Adds a next hop for a name. Returns whether the table accepts the next hop.
fn adds(routes: &mut RouteTable, octets: &[u8], face: u64, cost: u64) -> bool {
    match Name::read(octets) {
        Ok(name) => routes.add(name, face, cost).is_ok(),
        Err(_) => false,
    }
}

/// Returns whether 256 names take 64 routes each: on two faces, with 32 origins on each face.
fn takes_16384_routes(routes: &mut RouteTable) -> bool {
    for number in 0..256 {
        for one in 0..64 {
            if !registers(routes, &numbered(number), Route::new(one % 2, one / 2)) {
                return false;
            }
        }
    }
    true
}

/// Returns whether a table with 16,384 routes refuses a further one. After face 0 has closed, the
/// table must accept a route that has a deadline. Exactly this route must expire at the deadline,
/// and then no route may have a deadline.
fn takes_a_route_for_those_of_a_face(routes: &mut RouteTable) -> bool {
    let mut route = Route::new(2, 0);
    route.deadline = Some(9);
    let is_refused = !registers(routes, &numbered(0), route);
    routes.close_face(0);
    let is_accepted = registers(routes, &numbered(0), route);
    let gone = routes.expire(9);
    is_refused && is_accepted && gone == 1 && routes.read().due(u64::MAX) == 0
}

fn closes_a_face(alloc: Global) -> bool {
    let mut routes = RouteTable::new(alloc);
    takes_16384_routes(&mut routes) && takes_a_route_for_those_of_a_face(&mut routes)
}

#[test]
fn full_table_whose_face_closes(rt: HostRuntime) {
    assert!(rt; closes_a_face(rt.alloc()));
}

/// Returns whether 4,096 names take a next hop or a route on face 1: names with even numbers a next
/// hop, the others a route.
fn takes_4096_names(routes: &mut RouteTable) -> bool {
    for number in (0..4096).rev() {
        let is_accepted = if number % 2 == 0 {
            adds(routes, &numbered(number), 1, 0)
        } else {
            registers(routes, &numbered(number), Route::new(1, 0))
        };
        if !is_accepted {
            return false;
        }
    }
    routes.read().len() == 4096
}

/// Returns whether a full table accepts a route for a name with a next hop, a next hop for a name
/// with a route, and another cost of a next hop, but no further name.
fn takes_known_names(routes: &mut RouteTable) -> bool {
    registers(routes, &numbered(6), Route::new(1, 0))
        && adds(routes, &numbered(7), 1, 0)
        && adds(routes, &numbered(7), 1, 8)
        && !adds(routes, &numbered(4096), 1, 0)
        && !registers(routes, &numbered(4096), Route::new(1, 0))
}

/// Unregisters the routes of the names 7 and 9, and then removes the next hop of the name 7.
/// Returns whether the table accepts one further name after each of the last two changes alone: the
/// name 7 has a next hop beside its route, and the name 9 has only a route.
fn frees_names(routes: &mut RouteTable) -> bool {
    let (further, seventh, ninth) = (numbered(4096), numbered(7), numbered(9));
    let (Ok(seven), Ok(nine)) = (Name::read(&seventh), Name::read(&ninth)) else {
        return false;
    };
    routes.unregister(seven, 1, 0);
    let is_full = !registers(routes, &further, Route::new(1, 0));
    routes.unregister(nine, 1, 0);
    let is_accepted = registers(routes, &further, Route::new(1, 0));
    let is_full_again = !adds(routes, &ninth, 1, 0);
    routes.remove(seven, 1);
    is_full && is_accepted && is_full_again && adds(routes, &ninth, 1, 0)
}

fn holds_4096_names(alloc: Global) -> bool {
    let mut routes = RouteTable::new(alloc);
    takes_4096_names(&mut routes) && takes_known_names(&mut routes) && frees_names(&mut routes)
}

#[test]
fn full_table_of_next_hops_and_routes(rt: HostRuntime) {
    assert!(rt; holds_4096_names(rt.alloc()));
}

/// The octets of a name of 64 components `A`.
const DEEP: [u8; 192] =
    *b"\x08\x01A\x08\x01A\x08\x01A\x08\x01A\x08\x01A\x08\x01A\x08\x01A\x08\x01A\x08\x01A\x08\x01A\x08\x01A\x08\x01A\x08\x01A\x08\x01A\x08\x01A\x08\x01A\x08\x01A\x08\x01A\x08\x01A\x08\x01A\x08\x01A\x08\x01A\x08\x01A\x08\x01A\x08\x01A\x08\x01A\x08\x01A\x08\x01A\x08\x01A\x08\x01A\x08\x01A\x08\x01A\x08\x01A\x08\x01A\x08\x01A\x08\x01A\x08\x01A\x08\x01A\x08\x01A\x08\x01A\x08\x01A\x08\x01A\x08\x01A\x08\x01A\x08\x01A\x08\x01A\x08\x01A\x08\x01A\x08\x01A\x08\x01A\x08\x01A\x08\x01A\x08\x01A\x08\x01A\x08\x01A\x08\x01A\x08\x01A\x08\x01A\x08\x01A\x08\x01A\x08\x01A\x08\x01A\x08\x01A\x08\x01A";

/// Registers routes for `/`, `/A`, `/A/A` and so on, up to 32 components. The route of the name
/// with N components is on face N, and its cost is 32 - N.
fn registers_33(routes: &mut RouteTable) -> bool {
    for depth in 0..33_u64 {
        let mut route = Route::new(depth, 0);
        route.cost = 32_u64.saturating_sub(depth);
        let octets = DEEP.get(..depth as usize * 3).unwrap_or(b"\x00");
        if !registers(routes, octets, route) {
            return false;
        }
    }
    true
}

/// Returns whether the lookup of a name makes at most 64 searches, and finds 33 next hops, the
/// first on face 32 and the last on face 0.
fn finds_33(routes: &RouteTable, name: Name<'_>) -> bool {
    let mut steps = 0;
    let hops = routes.read().longest_counted(name, &mut steps);
    match (hops.get(0), hops.get(32)) {
        (Some(first), Some(last)) => {
            steps <= 64 && hops.len() == 33 && first.face == 32 && last.face == 0
        }
        _ => false,
    }
}

fn looks_up_64_components(alloc: Global) -> bool {
    let mut routes = RouteTable::new(alloc);
    match Name::read(&DEEP) {
        Ok(name) => registers_33(&mut routes) && finds_33(&routes, name),
        Err(_) => false,
    }
}

#[test]
fn name_of_64_components(rt: HostRuntime) {
    assert!(rt; looks_up_64_components(rt.alloc()));
}

//! Random calls on a table of next hops and registered routes. The answers are compared with the
//! answers of plain arrays of next hops and routes. To find the effective next hops of a name, the
//! arrays are searched separately for each face.

use crate::route_table::{Route, RouteTable};
use ndn_names::{Name, NameBuf};
use pit_fib::*;
use std::alloc::Global;
use test_support::random;

/// Returns the octets of the name with this number. The names are `/`, `/A`, `/A/B`, `/A/B/C`,
/// `/A/B/C/D`, `/A/C`, `/B` and `/AA`, in canonical order. If two of these names are prefixes of
/// the same name, the later of the two is longer.
fn octets_of(name: usize) -> &'static [u8] {
    match name {
        0 => b"",
        1 => b"\x08\x01\x41",
        2 => b"\x08\x01\x41\x08\x01\x42",
        3 => b"\x08\x01\x41\x08\x01\x42\x08\x01\x43",
        4 => b"\x08\x01\x41\x08\x01\x42\x08\x01\x43\x08\x01\x44",
        5 => b"\x08\x01\x41\x08\x01\x43",
        6 => b"\x08\x01\x42",
        _ => b"\x08\x02\x41\x41",
    }
}

fn name_at(name: usize) -> Option<Name<'static>> {
    Name::read(octets_of(name)).ok()
}

/// Returns whether the name numbered `prefix` is a proper prefix of the name numbered `name`.
fn is_above(prefix: usize, name: usize) -> bool {
    let (prefix, name) = (octets_of(prefix), octets_of(name));
    prefix.len() < name.len() && name.starts_with(prefix)
}

/// The faces are 0, 1 and 2.
const FACES: u64 = 3;

fn is_inherited(route: Route) -> bool {
    route.flags % 2 == 1
}

fn captures(route: Route) -> bool {
    route.flags % 4 >= 2
}

fn ends_by(route: Route, now: u64) -> bool {
    match route.deadline {
        Some(deadline) => deadline <= now,
        None => false,
    }
}

/// The next hops of a name, by face, and its routes, by face and origin: the route of face F and
/// origin O has the place 2 F + O.
#[derive(Clone, Copy)]
struct Entry {
    hops: [Option<u64>; 3],
    routes: [Option<Route>; 6],
}

impl Entry {
    /// Returns an entry without next hops and routes.
    fn new() -> Entry {
        Entry {
            hops: [None; 3],
            routes: [None; 6],
        }
    }

    fn set_hop(&mut self, face: u64, cost: Option<u64>) {
        if let Some(place) = self.hops.get_mut(face as usize) {
            *place = cost;
        }
    }

    fn set_route(&mut self, route: Route, new: Option<Route>) {
        let place = route.face.saturating_mul(2).saturating_add(route.origin);
        if let Some(place) = self.routes.get_mut(place as usize) {
            *place = new;
        }
    }

    fn hop_cost(&self, face: u64) -> Option<u64> {
        *self.hops.get(face as usize)?
    }

    fn has_hops(&self) -> bool {
        for hop in &self.hops {
            if hop.is_some() {
                return true;
            }
        }
        false
    }

    fn has_routes(&self) -> bool {
        for route in &self.routes {
            if route.is_some() {
                return true;
            }
        }
        false
    }

    /// Returns whether the name has a next hop or a route.
    fn stands(&self) -> bool {
        self.has_hops() || self.has_routes()
    }

    fn has_capture(&self) -> bool {
        for route in &self.routes {
            if let Some(route) = route
                && captures(*route)
            {
                return true;
            }
        }
        false
    }

    /// Returns the least cost of the routes on a face, or `None` if there are no such routes. If
    /// `inherited_alone` is set, only the child-inherit routes count.
    fn least_cost(&self, face: u64, inherited_alone: bool) -> Option<u64> {
        let mut least: Option<u64> = None;
        for route in &self.routes {
            if let Some(route) = route
                && route.face == face
                && (is_inherited(*route) || !inherited_alone)
            {
                least = Some(route.cost.min(least.unwrap_or(u64::MAX)));
            }
        }
        least
    }

    /// Removes the routes that expire by a moment. Returns the number of removed routes.
    fn expire(&mut self, now: u64) -> u64 {
        let mut gone: u64 = 0;
        for route in self.routes.iter_mut() {
            if let Some(one) = *route
                && ends_by(one, now)
            {
                *route = None;
                gone = gone.saturating_add(1);
            }
        }
        gone
    }
}

/// The entries of the eight names.
type Plain = [Entry; 8];

fn entry_at(plain: &Plain, name: usize) -> Entry {
    match plain.get(name) {
        Some(entry) => *entry,
        None => Entry::new(),
    }
}

/// Removes the next hop and the routes of a name on a face.
fn close(entry: &mut Entry, face: u64) {
    entry.set_hop(face, None);
    for route in entry.routes.iter_mut() {
        if let Some(one) = *route
            && one.face == face
        {
            *route = None;
        }
    }
}

/// Removes the routes that expire by a moment. Returns the number of removed routes.
fn expire(plain: &mut Plain, now: u64) -> u64 {
    let mut gone: u64 = 0;
    for entry in plain.iter_mut() {
        gone = gone.saturating_add(entry.expire(now));
    }
    gone
}

/// Among the proper prefixes of a name, returns the longest one that has a child-inherit route on a
/// face, or `None` if no proper prefix has such a route.
fn nearest(plain: &Plain, name: usize, face: u64) -> Option<usize> {
    let mut nearest = None;
    for (above, entry) in plain.iter().enumerate() {
        if is_above(above, name) && entry.least_cost(face, true).is_some() {
            nearest = Some(above);
        }
    }
    nearest
}

/// Returns whether a proper prefix of `name` that is longer than `above` has a capture route.
fn is_captured(plain: &Plain, name: usize, above: usize) -> bool {
    for (between, entry) in plain.iter().enumerate() {
        if is_above(above, between) && is_above(between, name) && entry.has_capture() {
            return true;
        }
    }
    false
}

/// How often a name inherited a cost, how often a capture route of a proper prefix prevented the
/// inheritance of a cost, and how many routes expired.
#[derive(Clone, Copy)]
struct Seen {
    inherited: u64,
    captured: u64,
    ended: u64,
}

/// Returns the cost that a name inherits for a face from the prefix that `nearest` returns. Returns
/// `None` if there is no such prefix, if the name has no route or has a capture route, or if a name
/// between the prefix and the name has a capture route.
fn inherited_cost(plain: &Plain, seen: &mut Seen, name: usize, face: u64) -> Option<u64> {
    let own = entry_at(plain, name);
    if !own.has_routes() || own.has_capture() {
        return None;
    }
    let above = nearest(plain, name, face)?;
    if is_captured(plain, name, above) {
        seen.captured = seen.captured.saturating_add(1);
        return None;
    }
    seen.inherited = seen.inherited.saturating_add(1);
    entry_at(plain, above).least_cost(face, true)
}

/// Returns the cost of the effective next hop of a name on a face, or `None` if there is no such
/// next hop.
fn cost(plain: &Plain, seen: &mut Seen, name: usize, face: u64) -> Option<u64> {
    let own = entry_at(plain, name);
    if let Some(cost) = own.hop_cost(face) {
        return Some(cost);
    }
    if let Some(cost) = own.least_cost(face, false) {
        return Some(cost);
    }
    inherited_cost(plain, seen, name, face)
}

/// Among the prefixes of a name, returns the longest one that has a next hop or a route, or `None`
/// if there is no such prefix.
fn longest(plain: &Plain, name: usize) -> Option<usize> {
    let mut longest = None;
    for (prefix, entry) in plain.iter().enumerate() {
        if (prefix == name || is_above(prefix, name)) && entry.stands() {
            longest = Some(prefix);
        }
    }
    longest
}

/// Returns the cost of the next hop on this face, or `None` if no next hop is on this face.
fn cost_in(hops: &Hops, face: u64) -> Option<u64> {
    for i in 0..hops.len() {
        if let Some(hop) = hops.get(i)
            && hop.face == face
        {
            return Some(hop.cost);
        }
    }
    None
}

/// Returns whether next hops are ordered by cost, and next hops of the same cost by face.
fn are_in_order(hops: &Hops) -> bool {
    let mut before = None;
    for i in 0..hops.len() {
        let here = match hops.get(i) {
            Some(hop) => Some((hop.cost, hop.face)),
            None => None,
        };
        if here <= before {
            return false;
        }
        before = here;
    }
    true
}

/// Returns whether `hops` are the effective next hops of a name, or are empty if `name` is `None`.
fn hops_agree(plain: &Plain, seen: &mut Seen, name: Option<usize>, hops: &Hops) -> bool {
    let mut len: usize = 0;
    for face in 0..FACES {
        let cost = match name {
            Some(name) => cost(plain, seen, name, face),
            None => None,
        };
        if cost_in(hops, face) != cost {
            return false;
        }
        len = len.saturating_add(usize::from(cost.is_some()));
    }
    hops.len() == len && are_in_order(hops)
}

/// Looks up a name. Returns whether the lookup takes at most 4 searches, and finds the next hops
/// that the arrays give.
fn longest_agrees(routes: &RouteTable, plain: &Plain, seen: &mut Seen, name: usize) -> bool {
    let Some(view) = name_at(name) else {
        return false;
    };
    let mut steps = 0;
    let hops = routes.read().longest_counted(view, &mut steps);
    hops_agree(plain, seen, longest(plain, name), &hops) && steps <= 4
}

/// Returns whether a row has this name, and the effective next hops of the name.
fn row_agrees(row: &(NameBuf, Hops), plain: &Plain, seen: &mut Seen, name: usize) -> bool {
    row.0.view().as_octets() == octets_of(name) && hops_agree(plain, seen, Some(name), &row.1)
}

/// Returns whether `rows` has exactly the names that have an entry in the arrays. The names must be
/// in canonical order, and each row must have the effective next hops of its name.
fn rows_agree(rows: &[(NameBuf, Hops)], plain: &Plain, seen: &mut Seen) -> Option<bool> {
    let mut at: usize = 0;
    for (name, entry) in plain.iter().enumerate() {
        if entry.stands() {
            if !row_agrees(rows.get(at)?, plain, seen, name) {
                return Some(false);
            }
            at = at.saturating_add(1);
        }
    }
    Some(rows.len() == at)
}

/// Returns whether the table's list at a moment, and the number of routes that expire by then,
/// agree with the arrays.
fn list_agrees(
    alloc: Global,
    routes: &RouteTable,
    plain: &Plain,
    seen: &mut Seen,
    now: u64,
) -> bool {
    let mut left = *plain;
    let due = expire(&mut left, now);
    match routes.read().list(alloc, now) {
        Ok(rows) => {
            routes.read().due(now) == due && rows_agree(&rows, &left, seen) == Some(true)
        }
        Err(_) => false,
    }
}

/// Removes the routes that expire by a moment. Returns whether equally many routes are removed from
/// the table and from the arrays.
fn expire_agrees(routes: &mut RouteTable, plain: &mut Plain, seen: &mut Seen, now: u64) -> bool {
    let gone = expire(plain, now);
    seen.ended = seen.ended.saturating_add(gone);
    routes.expire(now) == gone
}

/// Makes the same change in the table and in the arrays. Returns whether the table accepts it: with
/// ample memory, no change is refused.
fn change(
    routes: &mut RouteTable,
    plain: &mut Plain,
    name: usize,
    change: u64,
    route: Route,
) -> Option<bool> {
    let view = name_at(name)?;
    let entry = plain.get_mut(name)?;
    match change {
        0 => {
            routes.remove(view, route.face);
            entry.set_hop(route.face, None);
        }
        1..=6 => {
            routes.unregister(view, route.face, route.origin);
            entry.set_route(route, None);
        }
        7 | 8 => {
            entry.set_hop(route.face, Some(route.cost));
            return Some(routes.add(view, route.face, route.cost).is_ok());
        }
        _ => {
            entry.set_route(route, Some(route));
            return Some(routes.register(view, route).is_ok());
        }
    }
    Some(true)
}

/// Closes a face in the table and in the arrays. Returns whether the table then knows that the face
/// has no routes.
fn close_face(routes: &mut RouteTable, plain: &mut Plain, face: u64) -> bool {
    routes.close_face(face);
    for entry in plain.iter_mut() {
        close(entry, face);
    }
    !routes.read().may_lead_to(face)
}

/// Returns a random route. On average, one route in three has a deadline, which is below 24.
fn random_route(state: &mut u64) -> Route {
    let (face, origin) = (random(state, FACES), random(state, 2));
    let (cost, flags) = (random(state, 4), random(state, 8));
    let ends = random(state, 3) == 0;
    let moment = random(state, 24);
    Route {
        face,
        origin,
        cost,
        flags,
        deadline: if ends { Some(moment) } else { None },
    }
}

/// Returns whether a random call agrees with the arrays, and the next hops of a random name then
/// agree with the arrays as well.
fn call_agrees(
    alloc: Global,
    routes: &mut RouteTable,
    plain: &mut Plain,
    seen: &mut Seen,
    state: &mut u64,
) -> bool {
    let (name, route, now) = (
        random(state, 8) as usize,
        random_route(state),
        random(state, 24),
    );
    let agrees = match random(state, 32) {
        0 | 1 => expire_agrees(routes, plain, seen, now),
        2..=7 => list_agrees(alloc, routes, plain, seen, now),
        8 => close_face(routes, plain, route.face),
        call => change(routes, plain, name, call.saturating_sub(9), route) == Some(true),
    };
    let asked = random(state, 8) as usize;
    agrees && longest_agrees(routes, plain, seen, asked)
}

/// Returns the number of names that have a next hop or a route.
fn names_of(plain: &Plain) -> usize {
    let mut names: usize = 0;
    for entry in plain {
        names = names.saturating_add(usize::from(entry.stands()));
    }
    names
}

/// Returns whether 40 random calls on an empty table and on empty arrays agree, and the effective
/// next hops and the number of names in the table then agree as well.
fn calls_agree(alloc: Global, routes: &mut RouteTable, seen: &mut Seen, state: &mut u64) -> bool {
    let mut plain = [Entry::new(); 8];
    for _ in 0..40 {
        if !call_agrees(alloc, routes, &mut plain, seen, state) {
            return false;
        }
    }
    list_agrees(alloc, routes, &plain, seen, 0) && routes.read().len() == names_of(&plain)
}

fn sequence_agrees(alloc: Global, seen: &mut Seen, state: &mut u64) -> bool {
    let mut routes = RouteTable::new(alloc);
    calls_agree(alloc, &mut routes, seen, state)
}

/// Returns whether 400 sequences agree with the arrays. Over all sequences, each count in `Seen`
/// must be greater than 100.
fn all_agree(alloc: Global) -> bool {
    let mut state = 0x2545_f491_4f6c_dd1d;
    let mut seen = Seen {
        inherited: 0,
        captured: 0,
        ended: 0,
    };
    for _ in 0..400 {
        if !sequence_agrees(alloc, &mut seen, &mut state) {
            return false;
        }
    }
    seen.inherited > 100 && seen.captured > 100 && seen.ended > 100
}

#[test]
fn random_sequences(rt: HostRuntime) {
    assert!(rt; all_agree(rt.alloc()));
}

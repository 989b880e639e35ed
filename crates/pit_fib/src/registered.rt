ghost use Rattle.std.specs.Prelude.{◌≡◌, ◌+◌, ◌<◌, ◌≤◌, ℕ, length, insert, slice_set, slice_index_or, IfOk, IfErr, IsTrue, Some, None, not, ◌==◌, vec_len};
ghost use lib.Dec.{T};
ghost use Rattle.std.specs.FinMap as map;
ghost use Rattle.std.specs.Vec.{vec_capacity};
ghost use Rattle.name_trie.specs.ByName.{revise};
ghost use Rattle.pit_fib.specs.Within.{with_route_within};
ghost use Rattle.pit_fib.specs.Route.{route_cmp, until_due};

use crate::route::{Route, RouteKey};
use std::alloc::Global;
use std::cmp::Ordering;
use std::marker::Model;

/// The registered routes of a name, ordered by face and then by origin.
#[derive(Drop)]
pub struct Registered {
    rows: Vec<(RouteKey, Route)>,
}

impl Model for Registered {
    ghost use lib.Dec.{T};
    ghost use Rattle.std.specs.FinMap as map;
    ghost use Rattle.pit_fib.specs.Route.{Registered as PlainRegistered, registered_code, route_cmp};

    ghost Value = { PlainRegistered };

    ghost coded = { registered_code };

    ghost view = { λ r. map.from_sorted r.rows.items };

    ghost invariant = { λ r. T (map.is_sorted route_cmp r.rows.items) };
}

impl Registered {
    /// Returns an empty collection of routes.
    pub fn new(alloc: Global) -> Registered
        ensures { result ≡ map.empty }
    {
        Registered {
            rows: Vec::new(alloc),
        }
    }

    /// Returns the routes, ordered by face and then by origin.
    pub fn rows(&self) -> &[(RouteKey, Route)]
        ensures rows { result.now ≡ map.entries self.now }
        ensures sorted { T (map.is_sorted route_cmp result.now) }
    {
        &self.rows
    }

    #[tactic(auto, using(crate::proofs::SameNames::same_registered))]
    /// Returns whether `self` and `other` have the same routes.
    pub fn is_same(&self, other: &Registered) -> bool
        ensures { IsTrue result → self.now ≡ other.now }
    {
        are_same(self.rows(), other.rows())
    }

    /// Returns the number of routes.
    pub fn len(&self) -> usize
        ensures { result ≡ map.len self.now }
    {
        self.rows().len()
    }

    /// Returns whether there is a route with this face and origin.
    pub fn contains(&self, key: RouteKey) -> bool
        ensures { result ≡ map.contains_key self.now key }
    {
        place_of(self.rows(), key).is_ok()
    }

    /// Sets the route under `key` to `route`, and returns all routes, stored in the vector `room`.
    /// If `room` lacks capacity for all old routes and one more, returns the old routes unchanged.
    pub fn with(self, key: RouteKey, route: Route, room: Vec<(RouteKey, Route)>) -> Registered
        ensures { result ≡ with_route_within (vec_capacity room) key route self }
    {
        if room.capacity() <= self.rows.len() {
            return self;
        }
        let mut old = self.rows;
        let mut rows = room;
        rows.clear();
        rows.append(&mut old).unwrap_or(());
        put(&mut rows, key, route);
        Registered { rows }
    }

    /// Removes the route with this face and origin.
    pub fn remove(&mut self, key: RouteKey)
        ensures { self.new ≡ map.remove self.old key }
    {
        self.rows
            .retain(|row| row.0.compare(key) != Ordering::Equal);
    }

    /// Removes the routes of a face.
    pub fn remove_face(&mut self, face: u64)
        ensures { self.new ≡ map.retain_keys self.old (λ k. not (k.face == face)) }
    {
        self.rows.retain(|row| row.0.face != face);
    }

    /// Removes the routes that expire by `now`.
    pub fn expire(&mut self, now: u64)
        ensures { self.new ≡ revise (until_due now) self.old }
    {
        self.rows.retain(|row| !row.1.is_due(now));
    }
}

/// Inserts a route into `rows` at its place in the order of the keys, or replaces the route with
/// the same key. `rows` must have capacity for one more route.
fn put(rows: &mut Vec<(RouteKey, Route)>, key: RouteKey, route: Route)
    requires sorted { T (map.is_sorted route_cmp rows.old.items) }
    requires room { vec_len rows.old < vec_capacity rows.old }
    ensures { rows.new.items ≡ map.put route_cmp key route rows.old.items }
{
    match place_of(rows, key) {
        Ok(at) => rows[at] = (key, route),
        Err(at) => rows.insert(at, (key, route)).unwrap_or(()),
    }
}

/// Returns the index of the route with this face and origin, or the index at which to insert it.
fn place_of(rows: &[(RouteKey, Route)], key: RouteKey) -> Result<usize, usize>
    requires { T (map.is_sorted route_cmp rows.now) }
    ensures found { IfOk result (λ at. (at < length rows.now)
        × ((route : Route) → map.put route_cmp key route rows.now
        ≡ slice_set rows.now at (key, route))
        × ((row : RouteKey × Route) → row ≡ slice_index_or rows.now at row
        → map.find route_cmp key rows.now ≡ Some row.1)) }
    ensures absent { IfErr result (λ at. (at ≤ length rows.now)
        × ((route : Route) → map.put route_cmp key route rows.now
        ≡ insert rows.now at (key, route))
        × (map.find route_cmp key rows.now ≡ None)) }
{
    for (at, row) in rows.iter().enumerate() {
        match key.compare(row.0) {
            Ordering::Greater => {}
            Ordering::Equal => return Ok(at),
            Ordering::Less => return Err(at),
        }
    }
    Err(rows.len())
}

/// Returns whether two lists have the same routes in the same order.
fn are_same(rows: &[(RouteKey, Route)], others: &[(RouteKey, Route)]) -> bool
    ensures { IsTrue result → rows.now ≡ others.now }
{
    if rows.len() != others.len() {
        return false;
    }
    for at in 0..rows.len() {
        if !is_same_row(rows[at], others[at]) {
            return false;
        }
    }
    true
}

fn is_same_row(row: (RouteKey, Route), other: (RouteKey, Route)) -> bool
    ensures { IsTrue result → row ≡ other }
{
    row.0.is_same(other.0) && row.1.is_same(other.1)
}

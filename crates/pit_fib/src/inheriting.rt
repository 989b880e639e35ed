ghost use Rattle.std.specs.Prelude.{◌≡◌, true, false};
ghost use Rattle.std.specs.FinMap as map;
ghost use Rattle.pit_fib.specs.Effective.{lesser};
ghost use Rattle.pit_fib.specs.Inheriting.{counts_at, counts_for, has_capture_at, has_route_at, laid_over, least_within};
ghost use Rattle.pit_fib.specs.Within.{set_within};

use crate::by_face::Used;
use crate::fib_entry::Entry;
use crate::route::{Route, RouteKey};
use name_trie::See;

/// The state of a walk along a name, after the last entry that the walk passed (NFD Developer's
/// Guide, "Routing Information Base"). The state has the effective next hops of the last entry that
/// the walk passed, and the costs that the names below this entry inherit.
#[derive(Drop)]
pub struct Inheriting {
    /// If `at` is a moment, routes that expire by that moment do not count.
    pub at: Option<u64>,
    pub inherited: Used,
    pub costs: Used,
}

impl Inheriting {
    /// Returns the state of the walk before the first entry.
    pub fn new(at: Option<u64>) -> Inheriting
        ensures { result ≡ record { at = at; inherited = map.empty; costs = map.empty } }
    {
        Inheriting {
            at,
            inherited: Used::new(),
            costs: Used::new(),
        }
    }

    /// Returns a copy of the state.
    pub fn copied(&self) -> Inheriting
        ensures { result ≡ self.now }
    {
        Inheriting {
            at: self.at,
            inherited: self.inherited.copied(),
            costs: self.costs.copied(),
        }
    }
}

impl See<Entry> for Inheriting {
    ghost use Rattle.pit_fib.specs.Inheriting.{past_entry};

    ghost seen = { past_entry };

    fn see(&mut self, entry: &Entry) {
        if entry.registered.len() == 0 {
            self.costs = entry.hops.copied();
            return;
        }
        let rows = entry.registered.rows();
        let is_open = !has_capture_at(rows, self.at);
        let above = if is_open {
            self.inherited.copied()
        } else {
            Used::new()
        };
        let own = if is_open && has_route_at(rows, self.at) {
            self.inherited.copied()
        } else {
            Used::new()
        };
        self.inherited = laid_over(&least_within(rows, self.at, true), above);
        self.costs = laid_over(
            &entry.hops,
            laid_over(&least_within(rows, self.at, false), own),
        );
    }
}

/// Returns whether a route counts: if `at` is a moment, routes that expire by that moment do not
/// count.
fn counts_at(route: Route, at: Option<u64>) -> bool
    ensures { result ≡ counts_at at route }
{
    match at {
        None => true,
        Some(now) => !route.is_due(now),
    }
}

/// Returns whether some route in `rows` counts. A route counts if it does not expire by `at`. If
/// `at` is `None`, every route counts.
fn has_route_at(rows: &[(RouteKey, Route)], at: Option<u64>) -> bool
    ensures { result ≡ has_route_at at rows.now }
{
    for row in rows {
        if counts_at(row.1, at) {
            return true;
        }
    }
    false
}

/// Returns whether some capture route in `rows` counts. A route counts if it does not expire by
/// `at`. If `at` is `None`, every route counts.
fn has_capture_at(rows: &[(RouteKey, Route)], at: Option<u64>) -> bool
    ensures { result ≡ has_capture_at at rows.now }
{
    for row in rows {
        if counts_at(row.1, at) && row.1.is_capture() {
            return true;
        }
    }
    false
}

/// Returns, for each face, the least cost of the face's routes that count. If `at` is a moment,
/// routes that expire by that moment do not count. If `below` is true, only child-inherit routes
/// count. Leaves out a face that would be the 65th.
fn least_within(rows: &[(RouteKey, Route)], at: Option<u64>, below: bool) -> Used
    ensures { result ≡ least_within at below rows.now }
{
    let mut costs = Used::new();
    for row in rows {
        if counts_at(row.1, at) && (!below || row.1.is_child_inherit()) {
            set_lesser(&mut costs, row.0.face, row.1.cost);
        }
    }
    costs
}

/// Sets the cost of a face to `cost` if the face has a greater cost, or if the face has no cost and
/// fewer than 64 other faces have a cost.
fn set_lesser(costs: &mut Used, face: u64, cost: u64)
    ensures { costs.new ≡ set_within costs.old face (lesser cost (map.get costs.old face)) }
{
    let lesser = match costs.get(face) {
        None => cost,
        Some(other) => cost.min(other),
    };
    costs.insert(face, lesser);
}

/// Returns the costs in `first` and, for faces without a cost in `first`, the costs in `second`.
/// Leaves out a face of `first` that would be the 65th face of the result.
fn laid_over(first: &Used, second: Used) -> Used
    ensures { result ≡ laid_over first.now second }
{
    let mut costs = second;
    for row in first.as_slice() {
        costs.insert(row.0, row.1);
    }
    costs
}

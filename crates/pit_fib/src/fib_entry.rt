ghost use Rattle.std.specs.Prelude.{◌≡◌, IsTrue, is_some, unwrap_or};
ghost use Rattle.std.specs.Vec.{vec_capacity};
ghost use Rattle.pit_fib.specs.Fib.{entry_left_at, no_entry, unless_vacant};
ghost use Rattle.pit_fib.specs.Within.{entry_with_hop_within, entry_with_route_within};

use crate::by_face::Used;
use crate::registered::Registered;
use crate::route::{Route, RouteKey};
use crate::tally::left_of;
use name_trie::{Becomes, Change};
use std::alloc::Global;
use std::marker::Model;

/// The entry of a name in the table of routes: next hops, and registered routes.
#[derive(Drop)]
pub struct Entry {
    pub hops: Used,
    pub registered: Registered,
}

impl Model for Entry {
    ghost use Rattle.pit_fib.specs.Fib.{Entry as PlainEntry, entry_code};

    ghost Value = { PlainEntry };

    ghost coded = { entry_code };

    ghost view = { λ e. record { hops = e.hops; registered = e.registered } };
}

impl Entry {
    /// Returns an entry with neither next hops nor routes.
    fn new(alloc: Global) -> Entry
        ensures { result ≡ no_entry }
    {
        Entry {
            hops: Used::new(),
            registered: Registered::new(alloc),
        }
    }

    /// Returns the entry, or an empty entry if there is no entry.
    fn or_new(alloc: Global, entry: Option<Entry>) -> Entry
        ensures { result ≡ unwrap_or entry no_entry }
    {
        match entry {
            Some(entry) => entry,
            None => Entry::new(alloc),
        }
    }

    /// Returns whether the entry has next hops, or routes that do not expire by `now`.
    pub fn is_left_at(&self, now: u64) -> bool
        ensures { result ≡ is_some (entry_left_at now self.now) }
    {
        self.hops.len() > 0 || left_of(self.registered.rows(), now) > 0
    }

    /// Returns whether both entries have the same next hops and routes.
    pub fn is_same(&self, other: &Entry) -> bool
        ensures { IsTrue result → self.now ≡ other.now }
    {
        self.hops.is_same(&other.hops) && self.registered.is_same(&other.registered)
    }

    /// Returns the entry, or `None` if it has neither next hops nor routes.
    fn unless_vacant(self) -> Option<Entry>
        ensures { result ≡ unless_vacant self }
    {
        if self.hops.len() == 0 && self.registered.len() == 0 {
            None
        } else {
            Some(self)
        }
    }
}

/// A change that adds a next hop on a face, or sets the cost of the next hop on the face. The entry
/// is unchanged if it has no next hop on the face, and has next hops on 64 other faces.
#[derive(Drop)]
pub struct WithHop {
    pub alloc: Global,
    pub face: u64,
    pub cost: u64,
}

impl Becomes<Entry> for WithHop {
    ghost use Rattle.std.specs.Prelude.{unwrap_or};
    ghost use Rattle.pit_fib.specs.Fib.{no_entry};
    ghost use Rattle.pit_fib.specs.Within.{entry_with_hop_within};

    ghost becomes = { λ how old. entry_with_hop_within how.face how.cost (unwrap_or old no_entry) };

    fn apply(self, old: Option<Entry>) -> Entry
        ensures { result
            ≡ entry_with_hop_within self.face self.cost (unwrap_or old no_entry) }
    {
        let mut entry = Entry::or_new(self.alloc, old);
        entry.hops.insert(self.face, self.cost);
        entry
    }
}

/// A change that registers a route. If the vector `room` lacks capacity for the name's old routes
/// and one more route, the entry is unchanged. Otherwise, the route is added, or replaces the older
/// route with the same face and origin, and all routes of the name are then stored in `room`.
#[derive(Drop)]
pub struct WithRoute {
    pub alloc: Global,
    pub key: RouteKey,
    pub route: Route,
    pub room: Vec<(RouteKey, Route)>,
}

impl Becomes<Entry> for WithRoute {
    ghost use Rattle.std.specs.Prelude.{unwrap_or};
    ghost use Rattle.std.specs.Vec.{vec_capacity};
    ghost use Rattle.pit_fib.specs.Fib.{no_entry};
    ghost use Rattle.pit_fib.specs.Within.{entry_with_route_within};

    ghost becomes = { λ how old. entry_with_route_within (vec_capacity how.room)
        how.key how.route (unwrap_or old no_entry) };

    fn apply(self, old: Option<Entry>) -> Entry
        ensures { result ≡ entry_with_route_within (vec_capacity self.room)
            self.key self.route (unwrap_or old no_entry) }
    {
        let entry = Entry::or_new(self.alloc, old);
        Entry {
            hops: entry.hops,
            registered: entry.registered.with(self.key, self.route, self.room),
        }
    }
}

/// A change that removes the next hop on a face.
#[derive(Drop)]
pub struct WithoutHop {
    pub face: u64,
}

impl Change<Entry> for WithoutHop {
    ghost use Rattle.pit_fib.specs.Fib.{entry_without_hop};

    ghost change = { λ how. entry_without_hop how.face };

    fn apply(&self, mut entry: Entry) -> Option<Entry> {
        entry.hops.remove(self.face);
        entry.unless_vacant()
    }
}

/// A change that removes the registered route with the face and the origin in `key`.
#[derive(Drop)]
pub struct WithoutRoute {
    pub key: RouteKey,
}

impl Change<Entry> for WithoutRoute {
    ghost use Rattle.pit_fib.specs.Fib.{entry_without_route};

    ghost change = { λ how. entry_without_route how.key };

    fn apply(&self, mut entry: Entry) -> Option<Entry> {
        entry.registered.remove(self.key);
        entry.unless_vacant()
    }
}

/// A change that removes the next hop and the registered routes of a face.
#[derive(Drop)]
pub struct WithoutFace {
    pub face: u64,
}

impl Change<Entry> for WithoutFace {
    ghost use Rattle.pit_fib.specs.Fib.{entry_without_face};

    ghost change = { λ how. entry_without_face how.face };

    fn apply(&self, mut entry: Entry) -> Option<Entry> {
        entry.hops.remove(self.face);
        entry.registered.remove_face(self.face);
        entry.unless_vacant()
    }
}

/// A change that removes the registered routes that expire by the moment `now`.
#[derive(Drop)]
pub struct WithoutDue {
    pub now: u64,
}

impl Change<Entry> for WithoutDue {
    ghost use Rattle.pit_fib.specs.Fib.{entry_left_at};

    ghost change = { λ how. entry_left_at how.now };

    fn apply(&self, mut entry: Entry) -> Option<Entry> {
        entry.registered.expire(self.now);
        entry.unless_vacant()
    }
}

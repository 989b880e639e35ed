ghost use Rattle.std.specs.Prelude.{◌≡◌, ◌≢◌, false, ◌+◌, ◌-◌, ◌^◌, ◌<◌, ◌≤◌, [], length, vec_len, None, Some, Err, IsSome, IsTrue, IsOk, IfOk, IfErr, OnOk, OnErr, MatchOption};
ghost use Rattle.std.specs.FinMap as map;
ghost use Rattle.std.specs.Vec.{vec_capacity};
ghost use Rattle.ndn_names.specs.View.{components};
ghost use Rattle.name_trie.specs.Shown.{shown_each};
ghost use Rattle.pit_fib.specs.declared.fault.TableFault.TheVariants as faults;
ghost use Rattle.pit_fib.specs.Effective.{effective, listed, longest_hops};
ghost use Rattle.pit_fib.specs.FaceSet.{AtMost64};
ghost use Rattle.pit_fib.specs.Fib.{HasRoomFor, LeadsTo, due_count, is_full_for_route, left_at, registered_at, route_count, route_refusal, with_next_hop, with_route, without_face, without_next_hop, without_route};
ghost use Rattle.pit_fib.specs.Hops.{hops_of};
ghost use Rattle.pit_fib.specs.Limits.{AreShallow, HaveSome, IsTallied};
ghost use Rattle.pit_fib.specs.Refusal.{refusal};
ghost use Rattle.pit_fib.specs.SameEntries.{AreSame, plain_row};

use crate::fault::TableFault;
use crate::fib_entry::{
    Entry, WithHop, WithRoute, WithoutDue, WithoutFace, WithoutHop, WithoutRoute,
};
use crate::hops::{Hops, hops_in_order};
use crate::inheriting::Inheriting;
use crate::led::Led;
use crate::listing::{AsHops, AtName};
use crate::route::{Route, RouteKey};
use crate::tally::{Left, Tally, sooner};
use name_trie::{NameMap, Show};
use ndn_names::{Name, NameBuf};
use ndn_tlv::Memory;
use std::alloc::Global;
use std::marker::Model;
use std::mem;

/// The greatest number of names in a table.
pub const MAX_ENTRIES: usize = 4096;

/// The greatest number of components of a name in a table.
pub const MAX_DEPTH: usize = 32;

/// The greatest number of registered routes in a table.
pub const MAX_ROUTES: usize = 16384;

/// The table of next hops and registered routes by name (NFD Developer's Guide, "Forwarding
/// Information Base", "Routing Information Base"). The table has at most 4,096 names. Each name has
/// at most 32 components, and has next hops or routes. The table has at most 16,384 routes in all,
/// and at most 64 different faces.
#[derive(Drop)]
pub struct Fib {
    alloc: Global,
    entries: NameMap<Entry>,
    // While a call is prepared: memory for the routes of that call's name and for one more route.
    room: Vec<(RouteKey, Route)>,
    // The number of registered routes.
    count: usize,
    // No route expires before this moment, in milliseconds since 1970.
    next_due: u64,
    // The faces that may have next hops or routes.
    led: Led,
}

impl Model for Fib {
    ghost use Rattle.std.specs.Vec.{vec_capacity};
    ghost use Rattle.name_trie.specs.NameTable.{NameTable, name_table_code};
    ghost use Rattle.pit_fib.specs.Fib.{Entry as PlainEntry, entry_code};
    ghost use Rattle.pit_fib.specs.Led.{KnowsLed};
    ghost use Rattle.pit_fib.specs.Limits.{HasRouteRoom, IsTallied, IsWithinFib};

    ghost Value = { NameTable PlainEntry };

    ghost coded = { name_table_code entry_code };

    ghost view = { λ f. f.entries };

    ghost invariant = { λ f. IsWithinFib f.entries.table
        × IsTallied f.entries.table f.count f.next_due
        × HasRouteRoom f.entries (vec_capacity f.room) × KnowsLed f.led f.entries.table };
}

impl Fib {
    /// Returns a table without next hops and routes.
    pub fn new(alloc: Global) -> Fib
        ensures table { result.table ≡ map.empty }
        ensures prepared { result.prepared ≡ None }
    {
        Fib {
            alloc,
            entries: NameMap::new(alloc),
            room: Vec::new(alloc),
            count: 0,
            next_due: u64::MAX,
            led: Led::new(),
        }
    }

    /// Returns whether the face may have next hops or routes. If the result is false, the face has
    /// neither. The result is true if the face was given a next hop or a route since it was last
    /// closed (`close_face`), and if more than 64 faces were.
    pub fn may_lead_to(&self, face: u64) -> bool
        ensures { result ≡ false → LeadsTo self.now.table face → ⊥ }
    {
        self.led.contains(face)
    }

    /// Returns the number of names. The contract clause `exact` gives this number. Each of the
    /// other contract clauses states a property that every table has.
    pub fn len(&self) -> usize
        ensures exact { result ≡ map.len self.now.table }
        ensures bounded { map.len self.now.table ≤ MAX_ENTRIES }
        ensures shallow { AreShallow self.now.table }
        ensures some { HaveSome self.now.table }
        ensures routes { route_count self.now.table ≤ MAX_ROUTES }
        ensures faces { AtMost64 (LeadsTo self.now.table) }
    {
        self.entries.len()
    }

    /// Adds a next hop on a face, or sets the cost of the name's next hop on the face. At most 64
    /// different faces may have next hops or routes, with `face` counted among them.
    ///
    /// On failure, returns the first of the faults that apply, in the order of `TableFault`, and
    /// leaves the table unchanged. Each call ends the preparation, even if the call fails. `Memory`
    /// is never returned for a name that has an entry or is prepared.
    pub fn add(&mut self, name: Name<'_>, face: u64, cost: u64) -> Result<(), TableFault>
        requires { HasRoomFor self.old.table face }
        ensures ok { OnOk result
            (self.new.table ≡ with_next_hop self.old.table (components name.entry) face cost) }
        ensures err { OnErr result (self.new.table ≡ self.old.table) }
        ensures ended { self.new.prepared ≡ None }
        ensures fault { MatchOption (refusal self.old.table (components name.entry))
            (IfErr result (λ fault. fault ≡ faults.Memory)) (λ fault. result ≡ Err fault) }
        ensures known { IsSome (map.get self.old.table (components name.entry))
            → IfErr result (λ fault. fault ≢ faults.Memory) }
        ensures promised { self.old.prepared ≡ Some (components name.entry)
            → IfErr result (λ fault. fault ≢ faults.Memory) }
    {
        if let Some(fault) = self.refusal_of(name) {
            self.forget_prepared();
            return Err(fault);
        }
        let alloc = self.alloc;
        self.entries.put_with(name, WithHop { alloc, face, cost })?;
        self.led.add(face);
        Ok(())
    }

    /// Returns why the table refuses a next hop for the name, or `None` if the table accepts a next
    /// hop for the name.
    pub fn refusal_of(&self, name: Name<'_>) -> Option<TableFault>
        ensures { result ≡ refusal self.now.table (components name.entry) }
    {
        if name.len() > MAX_DEPTH {
            return Some(TableFault::TooDeep);
        }
        if self.entries.len() < MAX_ENTRIES {
            return None;
        }
        if self.entries.get(name).is_some() {
            return None;
        }
        Some(TableFault::TableFull)
    }

    /// Registers a route. If `deadline` is a moment, in milliseconds since 1970, the route expires
    /// at that moment. In `flags`, the bit of value 1 means child-inherit, and the bit of value 2
    /// means capture. The route replaces the name's older route with the same face and origin, if
    /// there is one. At most 64 different faces may have next hops or routes, with `face` counted
    /// among them.
    ///
    /// On failure, returns the first of the faults that apply, in the order of `TableFault`, and
    /// leaves the table unchanged. Each call ends the preparation, even if the call fails. The
    /// table is full for a new name when it has 4,096 names, and for a new route when it has 16,384
    /// routes.
    pub fn register(
        &mut self,
        name: Name<'_>,
        face: u64,
        origin: u64,
        cost: u64,
        flags: u64,
        deadline: Option<u64>,
    ) -> Result<(), TableFault>
        requires { HasRoomFor self.old.table face }
        ensures ok { OnOk result (self.new.table ≡ with_route self.old.table
            (components name.entry) (record { face = face; origin = origin })
            (record { cost = cost; flags = flags; deadline = deadline })) }
        ensures err { OnErr result (self.new.table ≡ self.old.table) }
        ensures ended { self.new.prepared ≡ None }
        ensures fault { MatchOption (route_refusal self.old.table (components name.entry)
            (record { face = face; origin = origin }))
            (IfErr result (λ fault. fault ≡ faults.Memory)) (λ fault. result ≡ Err fault) }
        ensures promised { self.old.prepared ≡ Some (components name.entry)
            → IfErr result (λ fault. fault ≢ faults.Memory) }
    {
        if let Some(fault) = self.route_refusal_of(name, face, origin) {
            self.forget_prepared();
            return Err(fault);
        }
        let route = Route {
            cost,
            flags,
            deadline,
        };
        self.put_route(name, RouteKey { face, origin }, route)?;
        Ok(())
    }

    /// Returns why the table refuses a route with this name, face and origin, or `None` if the
    /// table accepts the route.
    pub fn route_refusal_of(&self, name: Name<'_>, face: u64, origin: u64) -> Option<TableFault>
        ensures { result ≡ route_refusal self.now.table (components name.entry)
            (record { face = face; origin = origin }) }
    {
        if name.len() > MAX_DEPTH {
            return Some(TableFault::TooDeep);
        }
        if self.is_full_for_route(name, RouteKey { face, origin }) {
            return Some(TableFault::TableFull);
        }
        None
    }

    /// Prepares one `add` or one `register` of this name. The prepared call cannot run out of
    /// memory.
    pub fn prepare(&mut self, name: Name<'_>) -> Result<(), Memory>
        ensures table { self.new.table ≡ self.old.table }
        ensures ok { OnOk result (self.new.prepared ≡ Some (components name.entry)) }
        ensures err { OnErr result (self.new.prepared ≡ None) }
    {
        self.entries.forget_prepared();
        let len = self.routes_of(name);
        let room = mem::replace(&mut self.room, Vec::new(self.alloc));
        self.room = enough_room(self.alloc, room, len)?;
        self.entries.prepare(name)
    }

    /// Discards the preparation of a call.
    pub fn forget_prepared(&mut self)
        ensures table { self.new.table ≡ self.old.table }
        ensures prepared { self.new.prepared ≡ None }
    {
        self.entries.forget_prepared();
    }

    /// Removes the next hop on a face, if there is one. An entry is removed when it has neither
    /// next hops nor routes.
    pub fn remove(&mut self, name: Name<'_>, face: u64)
        ensures table { self.new.table
            ≡ without_next_hop self.old.table (components name.entry) face }
        ensures prepared { self.new.prepared ≡ self.old.prepared }
    {
        self.entries.change(name, &WithoutHop { face });
    }

    /// Removes the route with this face and origin, if there is one. An entry is removed when it
    /// has neither next hops nor routes.
    pub fn unregister(&mut self, name: Name<'_>, face: u64, origin: u64)
        ensures table { self.new.table ≡ without_route self.old.table (components name.entry)
            (record { face = face; origin = origin }) }
        ensures prepared { self.new.prepared ≡ self.old.prepared }
    {
        let key = RouteKey { face, origin };
        if self.has_route(name, key) {
            self.count -= 1;
        }
        self.entries.change(name, &WithoutRoute { key });
    }

    /// Removes the next hops and the routes of a face. An entry is removed when it has neither next
    /// hops nor routes.
    pub fn close_face(&mut self, face: u64)
        ensures table { self.new.table ≡ without_face self.old.table face }
        ensures prepared { self.new.prepared ≡ self.old.prepared }
    {
        self.entries.change_all(&WithoutFace { face });
        self.led.remove(face);
        let tally = tally(&self.entries);
        self.count = tally.count;
        self.next_due = tally.next_due;
    }

    /// Removes the routes that expire by `now`, in milliseconds since 1970, and returns how many
    /// routes were removed.
    pub fn expire(&mut self, now: u64) -> u64
        ensures table { self.new.table ≡ left_at now self.old.table }
        ensures prepared { self.new.prepared ≡ self.old.prepared }
        ensures gone { result ≡ due_count now self.old.table }
    {
        if now < self.next_due {
            return 0;
        }
        let before = self.count;
        self.entries.change_all(&WithoutDue { now });
        let tally = tally(&self.entries);
        self.count = tally.count;
        self.next_due = tally.next_due;
        (before - tally.count) as u64
    }

    /// Returns how many routes `expire` would remove at the moment `now`.
    pub fn due(&self, now: u64) -> u64
        ensures { result ≡ due_count now self.now.table }
    {
        if now < self.next_due {
            return 0;
        }
        let mut left = Left { now, count: 0 };
        self.entries.see_all(&mut left);
        (self.count - left.count) as u64
    }

    /// Returns the effective next hops of one prefix of a name: the longest prefix that has an
    /// entry. Returns no next hops if no prefix has an entry. In each next hop `local` is false
    /// until `Hops::mark` sets it.
    pub fn longest(&self, name: Name<'_>) -> Hops
        ensures { result ≡ longest_hops self.now.table (components name.entry) }
    {
        let mut steps = 0;
        self.longest_counted(name, &mut steps)
    }

    /// Returns what `longest` returns, and adds one to `steps` for each search among the children
    /// of a node of the name trie. The contract promises at most one search for each component of
    /// the name.
    pub fn longest_counted(&self, name: Name<'_>, steps: &mut u64) -> Hops
        requires { steps.old + 64 < 2 ^ 64 }
        ensures exact { result ≡ longest_hops self.now.table (components name.entry) }
        ensures counted { steps.old ≤ steps.new }
        ensures cost { steps.new ≤ steps.old + length (components name.entry) }
    {
        let mut way = Inheriting::new(None);
        self.entries.see_along(name, steps, &mut way);
        hops_in_order(way.costs.as_slice())
    }

    /// Returns the names that an `expire` at the moment `now` would leave in the table. The names
    /// are in canonical order. Each name comes with the effective next hops that the name would
    /// have after this `expire`.
    pub fn list(&self, alloc: Global, now: u64) -> Result<Vec<(NameBuf, Hops)>, Memory>
        ensures { IfOk result (λ list. list.items ≡ listed (left_at now self.now.table)) }
    {
        let mut list = Vec::new(alloc);
        for (name, entry) in self.entries.list(alloc)? {
            if entry.is_left_at(now) {
                let hops = self.hops_left_at(name.view(), now);
                list.push((name, hops))?;
            }
        }
        Ok(list)
    }

    #[tactic(auto, using(crate::proofs::SameNames::same_routes))]
    /// Returns whether both tables have the same next hops and routes. The contract covers only the
    /// result `true`.
    pub fn has_same_routes(&self, alloc: Global, other: &Fib) -> Result<bool, Memory>
        ensures { IfOk result (λ same. IsTrue same → self.now.table ≡ other.now.table) }
    {
        let entries = self.entries.list(alloc)?;
        let others = other.entries.list(alloc)?;
        Ok(are_same(&entries, &others))
    }

    /// Shows names to the visitor `show`: the names that an `expire` at the moment `now` would
    /// leave in the table. The names are shown in canonical order. Each name is shown with the
    /// effective next hops that the name would have after this `expire`.
    pub fn show_all<S: Show<Hops> + Drop>(&self, now: u64, show: S) -> Result<S, Memory>
        ensures { IfOk result
            (λ s. s ≡ shown_each S.shown show (listed (left_at now self.now.table))) }
    {
        let mut names = AsHops { show };
        self.entries.show_all(&AtName::new(now), &mut names)?;
        Ok(names.show)
    }
}

impl Fib {
    /// Returns how many routes a name has.
    fn routes_of(&self, name: Name<'_>) -> usize
        ensures exact { result ≡ map.len (registered_at self.now.table (components name.entry)) }
        ensures few { result ≤ MAX_ROUTES }
    {
        match self.entries.get(name) {
            Some(entry) => entry.registered.len(),
            None => 0,
        }
    }

    /// Returns whether a name has a route with this face and origin.
    fn has_route(&self, name: Name<'_>, key: RouteKey) -> bool
        ensures exact { result
            ≡ map.contains_key (registered_at self.now.table (components name.entry)) key }
    {
        match self.entries.get(name) {
            Some(entry) => entry.registered.contains(key),
            None => false,
        }
    }

    /// Returns whether the table is full for a route with this name, face and origin.
    fn is_full_for_route(&self, name: Name<'_>, key: RouteKey) -> bool
        ensures { result ≡ is_full_for_route self.now.table (components name.entry) key }
    {
        (self.entries.len() >= MAX_ENTRIES && self.entries.get(name).is_none())
            || (self.count >= MAX_ROUTES && !self.has_route(name, key))
    }

    /// Registers a route that the limits of the table permit.
    fn put_route(&mut self, name: Name<'_>, key: RouteKey, route: Route) -> Result<(), Memory>
        requires room { HasRoomFor self.old.table key.face }
        requires taken { route_refusal self.old.table (components name) key ≡ None }
        ensures ok { OnOk result
            (self.new.table ≡ with_route self.old.table (components name.entry) key route) }
        ensures err { OnErr result (self.new.table ≡ self.old.table) }
        ensures ended { self.new.prepared ≡ None }
        ensures promised { self.old.prepared ≡ Some (components name.entry) → IsOk result }
    {
        let alloc = self.alloc;
        let len = self.routes_of(name);
        let is_new = !self.has_route(name, key);
        let room = mem::replace(&mut self.room, Vec::new(alloc));
        let Ok(room) = enough_room(alloc, room, len) else {
            self.entries.forget_prepared();
            return Err(Memory);
        };
        let how = WithRoute {
            alloc,
            key,
            route,
            room,
        };
        self.entries.put_with(name, how)?;
        self.led.add(key.face);
        self.count += usize::from(is_new);
        self.next_due = sooner(self.next_due, route.deadline);
        Ok(())
    }

    /// Returns the effective next hops that a name would have without the routes that expire by
    /// `now`. The name must have a next hop, or a route that does not expire by `now`.
    fn hops_left_at(&self, name: Name<'_>, now: u64) -> Hops
        requires { IsSome (map.get (left_at now self.now.table) (components name)) }
        ensures { result
            ≡ hops_of (effective (left_at now self.now.table) (components name.entry)) }
    {
        let mut steps = 0;
        let mut way = Inheriting::new(Some(now));
        self.entries.see_along(name, &mut steps, &mut way);
        hops_in_order(way.costs.as_slice())
    }
}

/// Returns whether two lists have the same names in the same order, each with the same next hops
/// and routes.
fn are_same(entries: &[(NameBuf, &Entry)], others: &[(NameBuf, &Entry)]) -> bool
    ensures { IsTrue result → AreSame entries.now others.now }
{
    if entries.len() != others.len() {
        return false;
    }
    for at in 0..entries.len() {
        if !is_same_row(&entries[at], &others[at]) {
            return false;
        }
    }
    true
}

#[tactic(auto, using(crate::proofs::SameNames::same_row))]
/// Returns whether two names are the same and have the same next hops and routes.
fn is_same_row(row: &(NameBuf, &Entry), other: &(NameBuf, &Entry)) -> bool
    ensures { IsTrue result → plain_row row.now ≡ plain_row other.now }
{
    let is_same_name = row.0 == other.0;
    is_same_name && row.1.is_same(other.1)
}

/// Returns the vector `room` if it has capacity for `len + 1` routes, and otherwise a new vector
/// with this capacity.
fn enough_room(
    alloc: Global,
    room: Vec<(RouteKey, Route)>,
    len: usize,
) -> Result<Vec<(RouteKey, Route)>, Memory>
    requires { len ≤ MAX_ROUTES }
    ensures ok { IfOk result (λ room. len < vec_capacity room) }
    ensures promised { len < vec_capacity room → IsOk result }
{
    if len < room.capacity() {
        return Ok(room);
    }
    Ok(Vec::with_capacity(alloc, len + 1)?)
}

/// Returns the number of all routes, and the earliest deadline of a route. If no route has a
/// deadline, the greatest u64 takes the place of the earliest deadline.
fn tally(entries: &NameMap<Entry>) -> Tally
    requires { route_count entries.now.table ≤ MAX_ROUTES }
    ensures { IsTallied entries.now.table result.count result.next_due }
{
    let mut tally = Tally {
        count: 0,
        next_due: u64::MAX,
    };
    entries.see_all(&mut tally);
    tally
}

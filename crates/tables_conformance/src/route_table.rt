//! Tables of routes. Each face of such a table is below 63 or is the greatest face number.
//! Therefore the table does not exceed its limit of 64 faces.

ghost use Rattle.std.specs.Prelude.{◌≡◌, ◌<◌, ◌-◌, ◌^◌, ◌⊎◌};

use ndn_names::Name;
use ndn_tlv::Memory;
use pit_fib::*;
use std::alloc::Global;
use std::marker::Model;

/// A table of next hops and registered routes. The face of each next hop and of each route is below
/// 63 or is the greatest face number.
#[derive(Drop)]
pub struct RouteTable {
    fib: Fib,
}

impl Model for RouteTable {
    ghost use Rattle.std.specs.Prelude.{ℕ, ◌≡◌, ◌<◌, ◌-◌, ◌^◌, ◌⊎◌};
    ghost use Rattle.name_trie.specs.NameTable.{NameTable, name_table_code};
    ghost use Rattle.pit_fib.specs.Fib.{Entry, LeadsTo, entry_code};

    ghost Value = { NameTable Entry };

    ghost coded = { name_table_code entry_code };

    ghost view = { λ t. t.fib };

    ghost invariant = { λ t. (face : ℕ) → LeadsTo t.fib.table face
        → (face < 63) ⊎ (face ≡ 2 ^ 64 - 1) };
}

/// A route to be registered.
#[derive(Clone, Copy)]
pub struct Route {
    pub face: u64,
    pub origin: u64,
    pub cost: u64,
    pub flags: u64,
    pub deadline: Option<u64>,
}

impl Route {
    /// Returns a child-inherit route with this face and this origin. The cost of the route is 0,
    /// and the route never expires.
    pub fn new(face: u64, origin: u64) -> Route {
        Route {
            face,
            origin,
            cost: 0,
            flags: 1,
            deadline: None,
        }
    }
}

/// Returns `face` if it is below 63, and the greatest face number otherwise.
fn face_in(face: u64) -> u64
    ensures { (result < 63) ⊎ (result ≡ 2 ^ 64 - 1) }
{
    if face < 63 { face } else { u64::MAX }
}

impl RouteTable {
    pub fn new(alloc: Global) -> RouteTable {
        RouteTable {
            fib: Fib::new(alloc),
        }
    }

    pub fn read(&self) -> &Fib {
        &self.fib
    }

    pub fn add(&mut self, name: Name<'_>, face: u64, cost: u64) -> Result<(), TableFault> {
        self.fib.add(name, face_in(face), cost)
    }

    pub fn register(&mut self, name: Name<'_>, route: Route) -> Result<(), TableFault> {
        let Route {
            face,
            origin,
            cost,
            flags,
            deadline,
        } = route;
        self.fib
            .register(name, face_in(face), origin, cost, flags, deadline)
    }

    pub fn prepare(&mut self, name: Name<'_>) -> Result<(), Memory> {
        self.fib.prepare(name)
    }

    pub fn remove(&mut self, name: Name<'_>, face: u64) {
        self.fib.remove(name, face);
    }

    pub fn unregister(&mut self, name: Name<'_>, face: u64, origin: u64) {
        self.fib.unregister(name, face, origin);
    }

    pub fn close_face(&mut self, face: u64) {
        self.fib.close_face(face);
    }

    pub fn expire(&mut self, now: u64) -> u64 {
        self.fib.expire(now)
    }
}

//! Registered routes.

ghost use Rattle.std.specs.Prelude.{◌≡◌, IsTrue};
ghost use Rattle.pit_fib.specs.Route.{is_capture, is_child_inherit, is_due, route_cmp};

use std::cmp::Ordering;

/// The face and the origin of a registered route. A name has at most one route for each pair of a
/// face and an origin (NFD Management, "RIB Management").
#[derive(Clone, Copy, Debug, PartialEq, Eq)]
pub struct RouteKey {
    pub face: u64,
    /// Who registered the route, as a number.
    pub origin: u64,
}

impl RouteKey {
    /// Compares two keys by face, then by origin.
    pub fn compare(self, other: RouteKey) -> Ordering
        ensures { result ≡ route_cmp self other }
    {
        match self.face.cmp(&other.face) {
            Ordering::Equal => self.origin.cmp(&other.origin),
            unequal => unequal,
        }
    }

    /// Returns whether both keys have the same face and origin.
    pub fn is_same(self, other: RouteKey) -> bool
        ensures { IsTrue result → self ≡ other }
    {
        self.face == other.face && self.origin == other.origin
    }
}

/// The parameters of a registered route (NFD Management, "RIB Management").
#[derive(Clone, Copy, Debug, PartialEq, Eq)]
pub struct Route {
    pub cost: u64,
    /// The bit of value 1 makes the route a child-inherit route, and the bit of value 2 makes it a
    /// capture route. Other bits have no effect.
    pub flags: u64,
    /// When the route expires, in milliseconds since 1970, or `None` if it never expires.
    pub deadline: Option<u64>,
}

impl Route {
    /// Returns whether both routes have the same cost, flags and deadline.
    pub fn is_same(self, other: Route) -> bool
        ensures { IsTrue result → self ≡ other }
    {
        self.cost == other.cost && self.flags == other.flags && self.deadline == other.deadline
    }

    /// Returns whether the route is a child-inherit route. The names below the route's name can
    /// inherit such a route.
    pub fn is_child_inherit(self) -> bool
        ensures { result ≡ is_child_inherit self }
    {
        self.flags % 2 == 1
    }

    /// Returns whether the route is a capture route. The name of a capture route inherits nothing,
    /// and the names below this name inherit nothing from the proper prefixes of this name.
    pub fn is_capture(self) -> bool
        ensures { result ≡ is_capture self }
    {
        self.flags / 2 % 2 == 1
    }

    /// Returns whether the route expires by `now`.
    pub fn is_due(self, now: u64) -> bool
        ensures { result ≡ is_due now self }
    {
        match self.deadline {
            None => false,
            Some(deadline) => deadline <= now,
        }
    }
}

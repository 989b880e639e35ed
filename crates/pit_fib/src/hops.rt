ghost use Rattle.std.specs.Prelude.{◌≡◌, [], ◌+◌, ◌<◌, ◌≤◌, length, insert, slice_get, true, false};
ghost use Rattle.pit_fib.specs.Hops.{with_hop, in_order, is_before as is_hop_before, marked};

use crate::array_list::insert_at;
use crate::face_set::{Faces, MAX_FACES};
use std::marker::Model;

/// A next hop (NFD Developer's Guide, "Forwarding Information Base").
#[derive(Clone, Copy, Debug, PartialEq, Eq)]
pub struct Hop {
    pub face: u64,
    pub cost: u64,
    /// Whether the hop is marked as Local (`Hops::mark`). A Local face leads to a program on this
    /// machine.
    pub local: bool,
}

impl Hop {
    /// Returns whether this hop comes before another: hops are ordered by cost, and hops of the
    /// same cost by face.
    pub fn is_before(self, other: Hop) -> bool
        ensures { result ≡ is_hop_before self other }
    {
        self.cost < other.cost || (self.cost == other.cost && self.face < other.face)
    }
}

/// A list of at most 64 next hops, ordered by cost and, if the costs are the same, by face. The
/// hops are stored in an array, so this list never allocates.
#[derive(Drop)]
pub struct Hops {
    places: [Hop; MAX_FACES],
    len: usize,
}

impl Model for Hops {
    ghost use Rattle.std.specs.Prelude.{List, ◌≤◌, take};
    ghost use Rattle.pit_fib.specs.declared.hops.Hop.{Hop};
    ghost use Rattle.pit_fib.specs.declared.face_set.TheConstants.{MAX_FACES};

    ghost Value = { List Hop };

    ghost view = { λ h. take h.len h.places };

    ghost invariant = { λ h. h.len ≤ MAX_FACES };
}

impl Hops {
    /// Returns the empty list of next hops.
    pub(crate) fn new() -> Hops
        ensures { result ≡ [] }
    {
        let none = Hop {
            face: 0,
            cost: 0,
            local: false,
        };
        Hops {
            places: [none; MAX_FACES],
            len: 0,
        }
    }

    /// Inserts a hop at its place in the order of the list.
    pub(crate) fn insert(&mut self, hop: Hop)
        requires { length self.old < MAX_FACES }
        ensures { self.new ≡ with_hop hop self.old }
    {
        let at = place_of(self.as_slice(), hop);
        insert_at(&mut self.places, self.len, at, hop);
        self.len += 1;
    }

    fn as_slice(&self) -> &[Hop]
        ensures value { result.now ≡ self.now }
        ensures small { length result.now ≤ MAX_FACES }
    {
        &self.places[..self.len]
    }

    /// Returns the number of hops.
    pub fn len(&self) -> usize
        ensures exact { result ≡ length self.now }
        ensures small { result ≤ MAX_FACES }
    {
        self.as_slice().len()
    }

    /// Returns the hop at index `i`, counted from 0, or `None` if the list has `i` or fewer hops.
    pub fn get(&self, i: usize) -> Option<Hop>
        ensures { result ≡ slice_get self.now i }
    {
        self.as_slice().get(i).copied()
    }

    /// Marks the hops on the faces in `locals` as Local.
    pub fn mark(&mut self, locals: &Faces)
        ensures { self.new ≡ marked locals.now self.old }
    {
        for hop in &mut self.places[..self.len] {
            let is_local = locals.contains(hop.face);
            hop.local |= is_local;
        }
    }
}

/// Returns the index in `hops` at which to insert `hop`: the index of the first hop that comes
/// after `hop`, or the length of `hops` if no hop comes after `hop`.
fn place_of(hops: &[Hop], hop: Hop) -> usize
    ensures within { result ≤ length hops.now }
    ensures place { with_hop hop hops.now ≡ insert hops.now result hop }
{
    for (at, other) in hops.iter().enumerate() {
        if hop.is_before(*other) {
            return at;
        }
    }
    hops.len()
}

/// Returns the faces in `costs` as next hops, ordered by cost and then by face.
pub fn hops_in_order(costs: &[(u64, u64)]) -> Hops
    requires { length costs.now ≤ MAX_FACES }
    ensures { result ≡ in_order costs.now }
{
    let mut hops = Hops::new();
    for place in costs {
        hops.insert(Hop {
            face: place.0,
            cost: place.1,
            local: false,
        });
    }
    hops
}

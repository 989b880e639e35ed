ghost use Rattle.std.specs.Prelude.{◌≡◌, ◌+◌, ◌<◌, ◌≤◌, true, false, ℕ, Some, length, insert, slice_set, slice_get, slice_index_or, IfOk, IfErr, IsTrue, None, take, filter, not, nat_lt, ◌||◌};
ghost use lib.Dec.{T};
ghost use Rattle.std.specs.Ordering.{nat_cmp, eq_by_cmp};
ghost use Rattle.std.specs.FinMap as map;

use crate::array_list::insert_at;
use crate::face_set::MAX_FACES;
use std::cmp::Ordering;
use std::marker::Model;

/// A map from at most 64 faces to numbers, in rising order of the faces. The numbers are costs, or
/// the moments at which an Interest was last sent to each face, in milliseconds since 1970. The map
/// is an array, so it never allocates.
#[derive(Drop)]
pub struct Used {
    places: [(u64, u64); MAX_FACES],
    len: usize,
}

impl Model for Used {
    ghost use lib.Dec.{T};
    ghost use Rattle.std.specs.Prelude.{◌≡◌, ◌≤◌, length, take};
    ghost use Rattle.std.specs.Ordering.{nat_cmp};
    ghost use Rattle.std.specs.Coded.{coded_ℕ};
    ghost use Rattle.std.specs.FinMap as map;
    ghost use Rattle.pit_fib.specs.Tables.{ByFace};
    ghost use Rattle.pit_fib.specs.declared.face_set.TheConstants.{MAX_FACES};

    ghost Value = { ByFace };

    ghost coded = { map.code coded_ℕ coded_ℕ };

    ghost view = { λ u. map.from_sorted (take u.len u.places) };

    ghost invariant = { λ u. (length u.places ≡ MAX_FACES) × (u.len ≤ MAX_FACES)
        × T (map.is_sorted nat_cmp (take u.len u.places)) };
}

impl Used {
    /// Returns an empty map.
    pub fn new() -> Used
        ensures { result ≡ map.empty }
    {
        Used {
            places: [(0, 0); MAX_FACES],
            len: 0,
        }
    }

    pub(crate) fn as_slice(&self) -> &[(u64, u64)]
        ensures rows { result.now ≡ map.entries self.now }
        ensures sorted { T (map.is_sorted nat_cmp result.now) }
        ensures small { length result.now ≤ MAX_FACES }
    {
        &self.places[..self.len]
    }

    #[tactic(auto, using(crate::proofs::SameNames::same_numbers))]
    /// Returns whether both maps have the same faces with the same numbers.
    pub(crate) fn is_same(&self, other: &Used) -> bool
        ensures { IsTrue result → self.now ≡ other.now }
    {
        are_same(self.as_slice(), other.as_slice())
    }

    /// Returns how many faces have a number.
    pub fn len(&self) -> usize
        ensures exact { result ≡ map.len self.now }
        ensures small { result ≤ MAX_FACES }
    {
        self.as_slice().len()
    }

    /// Returns the number that the map has for a face, or `None` if the map does not have the face.
    pub fn get(&self, face: u64) -> Option<u64>
        ensures { result ≡ map.get self.now face }
    {
        match place_of(self.as_slice(), face) {
            Ok(at) => Some(self.as_slice()[at].1),
            Err(_) => None,
        }
    }

    /// Returns the face at index `i` in rising order of the faces, and the number that the map has
    /// for this face. The first index is 0. Returns `None` if `i` or fewer faces have a number.
    pub fn at(&self, i: usize) -> Option<(u64, u64)>
        ensures { result ≡ slice_get (map.entries self.now) i }
    {
        let place = self.as_slice().get(i)?;
        Some(*place)
    }

    /// Sets the number that the map has for a face. Returns false, and changes nothing, if the map
    /// does not have the face and already has 64 other faces.
    pub fn insert(&mut self, face: u64, number: u64) -> bool
        ensures ok { IsTrue result → self.new ≡ map.insert self.old face number }
        ensures full { result ≡ false → (self.new ≡ self.old) × (map.get self.old face ≡ None)
            × (MAX_FACES ≤ map.len self.old) }
        ensures taken { result
            ≡ (map.contains_key self.old face || nat_lt (map.len self.old) MAX_FACES) }
    {
        match place_of(&self.places[..self.len], face) {
            Ok(at) => self.places[at] = (face, number),
            Err(at) => {
                if self.len == MAX_FACES {
                    return false;
                }
                insert_at(&mut self.places, self.len, at, (face, number));
                self.len += 1;
            }
        }
        true
    }

    /// Removes a face and its number.
    pub(crate) fn remove(&mut self, face: u64)
        ensures { self.new ≡ map.remove self.old face }
    {
        self.len = without_face(&mut self.places, self.len, face);
    }

    /// Returns a copy of the map.
    pub(crate) fn copied(&self) -> Used
        ensures { result ≡ self.now }
    {
        Used {
            places: self.places,
            len: self.len,
        }
    }
}

/// Removes from the first `len` entries those whose face is `face`: the other entries move to the
/// front of `places`, in unchanged order. Returns the number of these other entries.
fn without_face(places: &mut [(u64, u64)], len: usize, face: u64) -> usize
    requires { len ≤ length places.old }
    ensures fewer { result ≤ len }
    ensures kept { take result places.new
        ≡ filter (λ place. not (eq_by_cmp nat_cmp place.0 face)) (take len places.old) }
{
    let mut kept = 0;
    for at in 0..len {
        let place = places[at];
        if place.0 != face {
            places[kept] = place;
            kept += 1;
        }
    }
    kept
}

/// Returns the index of the face's entry, or the index at which to insert it.
pub fn place_of<V>(places: &[(u64, V)], face: u64) -> Result<usize, usize>
    requires { T (map.is_sorted nat_cmp places.now) }
    ensures found { IfOk result (λ at. (at < length places.now)
        × ((value : V) → map.put nat_cmp face value places.now
        ≡ slice_set places.now at (face, value))
        × ((place : ℕ × V) → place ≡ slice_index_or places.now at place
        → map.find nat_cmp face places.now ≡ Some place.1)) }
    ensures absent { IfErr result (λ at. (at ≤ length places.now)
        × ((value : V) → map.put nat_cmp face value places.now
        ≡ insert places.now at (face, value))
        × (map.find nat_cmp face places.now ≡ None)) }
{
    for (at, place) in places.iter().enumerate() {
        match face.cmp(&place.0) {
            Ordering::Greater => {}
            Ordering::Equal => return Ok(at),
            Ordering::Less => return Err(at),
        }
    }
    Err(places.len())
}

/// Returns whether two lists have the same faces with the same numbers, in the same order.
fn are_same(rows: &[(u64, u64)], others: &[(u64, u64)]) -> bool
    ensures { IsTrue result → rows.now ≡ others.now }
{
    if rows.len() != others.len() {
        return false;
    }
    for at in 0..rows.len() {
        if !is_same_row(rows[at], others[at]) {
            return false;
        }
    }
    true
}

fn is_same_row(row: (u64, u64), other: (u64, u64)) -> bool
    ensures { IsTrue result → row ≡ other }
{
    row.0 == other.0 && row.1 == other.1
}

ghost use Rattle.std.specs.Prelude.{◌≡◌, ◌<◌, ◌≤◌, ◌⊎◌, ◌==◌, true, IsSome, IsTrue, length};
ghost use lib.Dec.{T};
ghost use Rattle.std.specs.Option.{option_map};
ghost use Rattle.std.specs.Ordering.{nat_cmp};
ghost use Rattle.std.specs.FinMap as map;
ghost use Rattle.name_trie.specs.ByName.{revise};
ghost use Rattle.pit_fib.specs.Cause.{until_after};
ghost use Rattle.pit_fib.specs.Faced.{has_place, none_in, placed, set_in, with_face_value};
ghost use Rattle.pit_fib.specs.declared.room.TheConstants.{FEW};

use crate::by_face::place_of;
use crate::entry::InRecord;
use crate::face_set::MAX_FACES;
use crate::room::{FEW, Room};
use std::marker::Model;

/// A map from at most 64 faces to values, in rising order of the faces. The map has memory for at
/// least `FEW` values, and may have memory for 64 values.
#[derive(Drop)]
pub struct FaceMap<V> {
    rows: Vec<(u64, V)>,
}

impl<V> Model for FaceMap<V> {
    ghost use lib.Dec.{T};
    ghost use Rattle.std.specs.Prelude.{◌≤◌, vec_len, nat_le};
    ghost use Rattle.std.specs.Vec.{vec_capacity};
    ghost use Rattle.std.specs.Ordering.{nat_cmp};
    ghost use Rattle.std.specs.FinMap as map;
    ghost use Rattle.pit_fib.specs.Faced.{Faced, faced_code};
    ghost use Rattle.pit_fib.specs.declared.face_set.TheConstants.{MAX_FACES};
    ghost use Rattle.pit_fib.specs.declared.room.TheConstants.{FEW};

    ghost Value = { Faced V };

    ghost coded = { faced_code V.code };

    ghost view = { λ m. record {
      values = map.from_sorted m.rows.items;
      is_wide = nat_le MAX_FACES (vec_capacity m.rows);
    } };

    ghost invariant = { λ m. T (map.is_sorted nat_cmp m.rows.items) × (vec_len m.rows ≤ MAX_FACES)
        × (FEW ≤ vec_capacity m.rows) };
}

impl<V: Drop> FaceMap<V> {
    /// Returns a map without values. The map uses the memory `room`.
    pub fn new(room: Room<V>) -> FaceMap<V>
        requires { FEW ≤ room }
        ensures { result ≡ none_in room }
    {
        FaceMap {
            rows: room.into_rows(),
        }
    }

    /// Returns the faces with their values, in rising order of the faces.
    pub fn rows(&self) -> &[(u64, V)]
        ensures rows { result.now ≡ map.entries self.now.values }
        ensures sorted { T (map.is_sorted nat_cmp result.now) }
        ensures small { length result.now ≤ MAX_FACES }
    {
        &self.rows
    }

    pub fn is_empty(&self) -> bool
        ensures { result ≡ (map.len self.now.values == 0) }
    {
        self.rows.is_empty()
    }

    /// Returns the value of a face, or `None` if the face has no value.
    pub fn get(&self, face: u64) -> Option<&V>
        ensures { option_map (λ v. v.now) result ≡ map.get self.now.values face }
    {
        match place_of(&self.rows, face) {
            Ok(at) => Some(&self.rows[at].1),
            Err(_) => None,
        }
    }

    /// Returns whether the map's own memory suffices for one more value. If the map has 64 values,
    /// the result is true, although no place is left.
    pub fn has_place(&self) -> bool
        ensures { result ≡ has_place self.now }
    {
        self.rows.capacity() >= MAX_FACES || self.rows.len() < FEW
    }

    /// Provides memory for one more value. Returns false, and changes nothing, if the map has 64
    /// values, or if the map's own memory does not suffice and `room` lacks capacity for 64 values.
    /// Otherwise returns true, and moves the values into the memory `room` if the map's own memory
    /// does not suffice.
    fn make_place(&mut self, room: Room<V>) -> bool
        ensures { (result, self.new) ≡ placed room self.old }
    {
        if self.rows.len() >= MAX_FACES {
            return false;
        }
        if self.has_place() {
            return true;
        }
        if room.count() < MAX_FACES {
            return false;
        }
        let mut rows = room.into_rows();
        rows.append(&mut self.rows).unwrap_or(());
        self.rows = rows;
        true
    }

    /// Sets the value of a face. There must be memory for this value.
    fn put(&mut self, face: u64, value: V)
        requires { IsSome (map.get self.old.values face)
            ⊎ ((map.len self.old.values < MAX_FACES) × IsTrue (has_place self.old)) }
        ensures { self.new ≡ with_face_value face value self.old }
    {
        match place_of(&self.rows, face) {
            Ok(at) => self.rows[at] = (face, value),
            Err(at) => self.rows.insert(at, (face, value)).unwrap_or(()),
        }
    }

    /// Sets the value of a face. Changes nothing if the face is new and there is no place for its
    /// value: 64 faces have values, or the map's own memory does not suffice and `room` lacks
    /// capacity for 64 values.
    pub fn set(&mut self, face: u64, value: V, room: Room<V>)
        ensures { self.new ≡ set_in room face value self.old }
    {
        if self.get(face).is_some() || self.make_place(room) {
            self.put(face, value);
        }
    }

    /// Replaces the value of a face. The face must have a value.
    pub fn replace(&mut self, face: u64, value: V)
        requires { IsSome (map.get self.old.values face) }
        ensures { self.new ≡ with_face_value face value self.old }
    {
        self.put(face, value);
    }

    /// Removes the value of a face.
    pub fn remove(&mut self, face: u64)
        ensures { self.new ≡ record self.old { values = map.remove self.old.values face } }
    {
        self.rows.retain(|row| row.0 != face);
    }
}

impl FaceMap<InRecord> {
    /// Removes the in-records whose deadline is `now` or earlier.
    pub fn expire(&mut self, now: u64)
        ensures { self.new
            ≡ record self.old { values = revise (until_after now) self.old.values } }
    {
        self.rows.retain(|row| now < row.1.deadline());
    }
}

ghost use Rattle.std.specs.Prelude.{◌≡◌, [], ◌<◌, ◌≤◌, length, insert, slice_get, IfOk, IfErr, IsTrue, true, false};
ghost use Rattle.pit_fib.specs.FaceSet.{IsRising, has_face, with_face, adding};

use crate::array_list::insert_at;
use std::marker::Model;

/// The greatest number of faces in a set or a table.
pub const MAX_FACES: usize = 64;

/// A set of at most 64 faces, in rising order. The faces are stored in an array, so this set never
/// allocates.
#[derive(Drop)]
pub struct Faces {
    places: [u64; MAX_FACES],
    len: usize,
}

impl Model for Faces {
    ghost use Rattle.std.specs.Prelude.{List, ℕ, ◌≤◌, take};
    ghost use Rattle.pit_fib.specs.FaceSet.{IsRising};
    ghost use Rattle.pit_fib.specs.declared.face_set.TheConstants.{MAX_FACES};

    ghost Value = { List ℕ };

    ghost view = { λ f. take f.len f.places };

    ghost invariant = { λ f. (f.len ≤ MAX_FACES) × IsRising (take f.len f.places) };
}

impl Faces {
    /// Returns the empty set of faces.
    pub fn new() -> Faces
        ensures { result ≡ [] }
    {
        Faces {
            places: [0; MAX_FACES],
            len: 0,
        }
    }

    /// Adds a face, unless the set has it already. Returns false, and changes nothing, if the face
    /// is new and the set has 64 faces.
    pub fn insert(&mut self, face: u64) -> bool
        ensures { (result, self.new) ≡ adding face self.old }
    {
        let Err(at) = place_of(&self.places[..self.len], face) else {
            return true;
        };
        if self.len == MAX_FACES {
            return false;
        }
        insert_at(&mut self.places, self.len, at, face);
        self.len += 1;
        true
    }

    /// Returns whether the set has the face.
    pub fn contains(&self, face: u64) -> bool
        ensures { result ≡ has_face face self.now }
    {
        self.places[..self.len].iter().any(|f| *f == face)
    }

    /// Returns the number of faces.
    pub fn len(&self) -> usize
        ensures exact { result ≡ length self.now }
        ensures small { result ≤ MAX_FACES }
        ensures rising { IsRising self.now }
    {
        self.len
    }

    /// Returns the face at index `i` in rising order. The first index is 0. Returns `None` if the
    /// set has `i` or fewer faces.
    pub fn get(&self, i: usize) -> Option<u64>
        ensures { result ≡ slice_get self.now i }
    {
        self.places[..self.len].get(i).copied()
    }

    /// Returns whether both sets have the same faces. The contract covers only the result `true`.
    pub fn is_same(&self, other: &Faces) -> bool
        ensures { IsTrue result → self.now ≡ other.now }
    {
        self.places[..self.len] == other.places[..other.len]
    }
}

/// Returns the index of the face, or the index at which to insert it.
fn place_of(faces: &[u64], face: u64) -> Result<usize, usize>
    requires { IsRising faces.now }
    ensures found { IfOk result (λ at. has_face face faces.now ≡ true) }
    ensures absent { IfErr result (λ at. (at ≤ length faces.now) × (has_face face faces.now ≡ false)
        × (with_face face faces.now ≡ insert faces.now at face)) }
{
    for (at, other) in faces.iter().enumerate() {
        if *other == face {
            return Ok(at);
        }
        if face < *other {
            return Err(at);
        }
    }
    Err(faces.len())
}

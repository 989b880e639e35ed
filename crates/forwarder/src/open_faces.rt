ghost use Rattle.std.specs.Prelude.{◌≡◌, ◌≤◌, ◌<◌, ◌==◌, [], false, length, IsTrue, filter, not, slice_get};
ghost use Rattle.pit_fib.specs.FaceSet.{IsRising};
ghost use Rattle.forwarder.specs.OpenFaces.{find_scope, is_open, numbers, with_face, without_entry};
ghost use Rattle.forwarder.specs.Policy.{is_far_scope, is_local_scope};

use crate::event::Scope;
use pit_fib::{Faces, MAX_FACES};
use std::marker::Model;

/// The open faces, each Local or Far: at most 64, in rising order of their numbers.
#[derive(Drop)]
pub struct OpenFaces {
    /// All open faces.
    all: Faces,
    /// The Local faces.
    local: Faces,
}

impl Model for OpenFaces {
    ghost use Rattle.std.specs.Prelude.{List};
    ghost use Rattle.pit_fib.specs.FaceSet.{IsRising};
    ghost use Rattle.forwarder.specs.OpenFaces.{FaceEntry, entries_of, AreOpen};

    ghost Value = { List FaceEntry };

    ghost view = { λ f. entries_of f.all f.local };

    ghost invariant = { λ f. AreOpen f.all f.local × IsRising f.all };
}

impl OpenFaces {
    /// Returns an empty list of open faces.
    pub fn new() -> OpenFaces
        ensures { result ≡ [] }
    {
        OpenFaces {
            all: Faces::new(),
            local: Faces::new(),
        }
    }

    /// Returns whether the face is open.
    pub fn contains(&self, face: u64) -> bool
        ensures { result ≡ is_open face self.now }
    {
        self.all.contains(face)
    }

    /// Returns the number of open faces. The clauses other than `exact` are true of all lists of
    /// open faces.
    pub fn len(&self) -> usize
        ensures exact { result ≡ length self.now }
        ensures small { result ≤ MAX_FACES }
        ensures rising { IsRising (numbers self.now) }
    {
        self.all.len()
    }

    /// Returns the number of the open face at index `i`, or `None` if `i` or fewer faces are open.
    /// The open faces are in rising order of their numbers.
    pub fn get(&self, i: usize) -> Option<u64>
        ensures { result ≡ slice_get (numbers self.now) i }
    {
        self.all.get(i)
    }

    /// Returns the number and the scope of the open face at index `i`, or `None` if `i` or fewer
    /// faces are open. The open faces are in rising order of their numbers.
    pub fn entry(&self, i: usize) -> Option<(u64, Scope)>
        ensures { result ≡ slice_get self.now i }
    {
        let face = self.all.get(i)?;
        if self.local.contains(face) {
            Some((face, Scope::Local))
        } else {
            Some((face, Scope::Far))
        }
    }

    /// Returns whether the face is open and leads to another machine.
    pub fn is_far(&self, face: u64) -> bool
        ensures { result ≡ is_far_scope (find_scope face self.now) }
    {
        self.all.contains(face) && !self.local.contains(face)
    }

    /// Opens a face, which must not be open yet. Fewer than 64 faces must be open.
    pub fn open(&mut self, face: u64, scope: Scope)
        requires new { is_open face self.old ≡ false }
        requires room { length self.old < MAX_FACES }
        ensures { self.new ≡ with_face face scope self.old }
    {
        self.all.insert(face);
        match scope {
            Scope::Local => {
                self.local.insert(face);
            }
            Scope::Far => {}
        }
    }

    /// Closes a face, if it is open.
    pub fn remove(&mut self, face: u64)
        ensures { self.new ≡ without_entry face self.old }
    {
        let all = without_face(&self.all, face);
        let local = without_face(&self.local, face);
        *self = OpenFaces { all, local };
    }

    /// Returns whether `self` and `other` have the same open faces with the same scopes.
    pub fn is_same(&self, other: &OpenFaces) -> bool
        ensures { IsTrue result → self.now ≡ other.now }
    {
        self.all.is_same(&other.all) && self.local.is_same(&other.local)
    }

    /// Returns the numbers of the open faces.
    pub fn numbers(&self) -> &Faces
        ensures { result.now ≡ numbers self.now }
    {
        &self.all
    }

    /// Returns the numbers of the Local faces.
    pub fn locals(&self) -> &Faces
        ensures { result.now ≡ numbers (filter (λ entry. is_local_scope entry.1) self.now) }
    {
        &self.local
    }
}

/// Returns `faces` without `face`.
pub fn without_face(faces: &Faces, face: u64) -> Faces
    ensures { result ≡ filter (λ f. not (f == face)) faces.now }
{
    let mut rest = Faces::new();
    for i in 0..faces.len() {
        let Some(other) = faces.get(i) else {
            continue;
        };
        if other != face {
            rest.insert(other);
        }
    }
    rest
}

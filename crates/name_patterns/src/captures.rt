//! What the groups of a pattern capture.

use std::marker::Model;

/// The greatest number of groups, including group 0, which is the whole name.
const MAX_GROUPS: usize = 10;

/// The positions in a name at which the groups of a pattern begin and end.
#[derive(Debug, Drop)]
pub struct Captures {
    places: [(usize, usize); MAX_GROUPS],
    count: usize,
}

impl Model for Captures {
    ghost use Rattle.std.specs.Prelude.{ℕ, List, ◌≤◌, take};

    ghost Value = { List (ℕ × ℕ) };

    ghost view = { λ captures. take captures.count captures.places };

    ghost invariant = { λ captures. captures.count ≤ 10 };
}

impl Captures {
    ghost use Rattle.std.specs.Prelude.{◌≡◌, ◌<◌, ◌∷◌, ◌++◌, [], length, slice_get};

    /// Returns captures with group 0 only: the whole name, which has `len` components.
    pub(crate) fn of_name(len: usize) -> Captures
        ensures { result ≡ (0, len) ∷ [] }
    {
        Captures {
            places: [(0, len); MAX_GROUPS],
            count: 1,
        }
    }

    /// Appends the positions at which the next group begins and ends.
    pub(crate) fn push(&mut self, places: (usize, usize))
        requires { length self.old < 10 }
        ensures { self.new ≡ self.old ++ places ∷ [] }
    {
        self.places[self.count] = places;
        self.count += 1;
    }

    /// Returns the positions in the name at which group `i` begins and ends, or `None` if there is
    /// no group `i`. The group captures the components from the first position up to, but not
    /// including, the second position. The first component of a name has position 0. Group 0 is the
    /// whole name. The other groups are numbered from 1.
    pub fn group(&self, i: usize) -> Option<(usize, usize)>
        ensures { result ≡ slice_get self.now i }
    {
        if i < self.count {
            Some(self.places[i])
        } else {
            None
        }
    }
}

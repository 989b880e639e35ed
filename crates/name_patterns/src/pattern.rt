//! Patterns for names.

use crate::atom::Atom;
use crate::captures::Captures;
use crate::search::{Starts, first_split};
use ndn_names::Name;
use std::marker::Model;

/// A pattern for names, with at most 32 written atoms and at most 9 groups.
#[derive(Debug, Drop)]
pub struct Pattern {
    pub(crate) atoms: Vec<Atom>,
    pub(crate) groups: Vec<(usize, usize)>,
}

impl Model for Pattern {
    ghost use Rattle.name_patterns.specs.Pattern.{PlainPattern, IsWithinLimits};

    ghost Value = { PlainPattern };

    ghost use Rattle.std.specs.Prelude.{map};
    ghost use Rattle.name_patterns.specs.Shown.{atom_of};

    ghost view = { λ pattern. record {
      atoms = map atom_of pattern.atoms.items;
      groups = pattern.groups.items;
    } };

    ghost invariant = { λ pattern. IsWithinLimits
        (record { atoms = map atom_of pattern.atoms.items; groups = pattern.groups.items }) };
}

impl Pattern {
    ghost use Rattle.std.specs.Prelude.{◌≡◌, ◌+◌, ◌*◌, ◌<◌, ◌≤◌, ◌^◌, ◌∷◌, ℕ, List, length, map, slice_index, IfSome, IfNone};
    ghost use Rattle.ndn_names.specs.View.{components};
    ghost use Rattle.name_patterns.specs.Match.{HasNoSplit, Match};
    ghost use Rattle.name_patterns.specs.Template.{PlainPart, NeedAtMost, AreThere};

    /// Returns the number of groups, at most 9, not counting group 0, which is the whole name.
    pub fn groups(&self) -> u8
        ensures exact { result ≡ length self.now.groups }
        ensures small { result ≤ 9 }
    {
        self.groups.len() as u8
    }

    /// Returns what the groups capture, or `None` if the pattern does not match the name. From left
    /// to right, each atom matches as many components as a match of the whole name allows. Nothing
    /// is allocated.
    pub fn matches(&self, name: Name<'_>) -> Option<Captures>
        // If captures are returned, the pattern matches the name, and the captures are the
        // positions of the groups in the greatest split.
        ensures found { IfSome result (Match self.now (components name.entry)) }
        // If the result is `None`, the pattern does not match the name.
        ensures none { IfNone result (HasNoSplit self.now.atoms (components name.entry)) }
        // If a template uses only groups of this pattern, the template can be expanded with the
        // returned captures.
        ensures there { IfSome result
            (λ captures. (parts : List PlainPart) → NeedAtMost (length self.now.groups) parts
            → AreThere captures (components name.entry) parts) }
    {
        let mut steps = 0;
        self.matches_counted(name, &mut steps)
    }

    /// Returns what `matches` returns. Adds one to `steps` each time that a component is tested for
    /// an atom. For each atom, including implied atoms, each component is tested at most once.
    pub fn matches_counted(&self, name: Name<'_>, steps: &mut u64) -> Option<Captures>
        requires { steps.old + 1000000 < 2 ^ 64 }
        ensures found { IfSome result (Match self.now (components name.entry)) }
        ensures none { IfNone result (HasNoSplit self.now.atoms (components name.entry)) }
        ensures there { IfSome result
            (λ captures. (parts : List PlainPart) → NeedAtMost (length self.now.groups) parts
            → AreThere captures (components name.entry) parts) }
        ensures counted { steps.old ≤ steps.new }
        ensures cost { steps.new
            ≤ steps.old + length self.now.atoms * length (components name.entry) }
    {
        let (starts, len) = first_split(&self.atoms, name, steps)?;
        Some(self.captures(&starts, len))
    }

    /// Returns the positions of the groups in a name of `len` components. `starts` has the position
    /// before each atom and the position after the last atom.
    fn captures(&self, starts: &Starts, len: usize) -> Captures
        ensures { result ≡ (0, len) ∷ map
            (λ group. (slice_index starts.now group.0, slice_index starts.now group.1))
            self.now.groups }
    {
        let mut captures = Captures::of_name(len);
        for (first, end) in &self.groups {
            captures.push((starts[*first], starts[*end]));
        }
        captures
    }
}

//! Patterns of which only the front has been read.

use crate::atom::{Atom, any_components, read_atom};
use crate::fault::PatternFault;
use crate::pattern::Pattern;
use crate::repeat::{begins_repeat, first_repeat};
use std::alloc::Global;

/// The greatest number of atoms that can be written in a pattern.
const MAX_WRITTEN: usize = 32;

/// The greatest number of groups of a pattern, not counting group 0.
const MAX_GROUPS: usize = 9;

/// A group that is still open: the offset of its opening parenthesis in the pattern, and the number
/// of atoms before the group.
#[derive(Clone, Copy, Debug)]
pub struct OpenGroup {
    pub place: usize,
    pub first: usize,
}

/// The part of a pattern that has been read: its atoms, the number of these atoms that are written
/// in the text, its closed groups, and its open group, if there is one. A closed group is a pair:
/// the number of atoms before its first atom, and the number of atoms before its end.
#[derive(Debug, Drop)]
pub struct Draft {
    pub atoms: Vec<Atom>,
    pub written: usize,
    pub groups: Vec<(usize, usize)>,
    pub open_group: Option<OpenGroup>,
}

impl Draft {
    ghost use Rattle.std.specs.Prelude.{◌≡◌, ◌+◌, ◌<◌, ◌≤◌, ◌^◌, ◌∷◌, ◌++◌, [], Ok, OnOk, IfOk, IfErr, length, MatchResult};
    ghost use Rattle.name_patterns.specs.Faults.{IsFaultOf};
    ghost use Rattle.name_patterns.specs.PatternReading.{PlainDraft, IsDraft, begun, with_atom, with_open, with_closed, with_item, with_implied, whole_of};
    ghost use Rattle.name_patterns.specs.Shown.{draft_of};

    /// Returns a draft without atoms.
    pub fn new(alloc: Global) -> Draft
        ensures { draft_of result ≡ begun }
    {
        Draft {
            atoms: Vec::new(alloc),
            written: 0,
            groups: Vec::new(alloc),
            open_group: None,
        }
    }

    /// Appends the atom that a missing anchor implies.
    pub fn imply(&mut self) -> Result<(), PatternFault>
        ensures ok { OnOk result (draft_of self.new ≡ with_implied (draft_of self.old)) }
        ensures err { IfErr result (λ fault. fault ≡ PatternFault.Memory) }
    {
        self.atoms.push(any_components())?;
        Ok(())
    }

    /// Reads the atom at the front of the text, and appends this atom to the draft. The atom is at
    /// offset `at` of the pattern. Returns the remaining text.
    fn add_atom<'a>(
        &mut self,
        alloc: Global,
        at: usize,
        text: &'a str,
    ) -> Result<&'a str, PatternFault>
        ensures read { let next = with_atom (draft_of self.old) at text.now in
            MatchResult result (λ rest. next ≡ Ok (draft_of self.new, rest.now)) (IsFaultOf next) }
        ensures shorter { IfOk result (λ rest. length rest.now < length text.now) }
    {
        let found = read_atom(alloc, at, text)?;
        if self.written >= MAX_WRITTEN {
            return Err(PatternFault::Syntax(at));
        }
        if found.is_inner {
            return Err(PatternFault::Inner(at));
        }
        self.atoms.push(found.part)?;
        self.written += 1;
        Ok(found.rest)
    }

    /// Opens a group whose opening parenthesis is at offset `at`. `text` is the text after this
    /// parenthesis.
    fn open_group(&mut self, at: usize, text: &str) -> Result<(), PatternFault>
        ensures { let next = with_open (draft_of self.old) at text.now self.old.open_group in
            MatchResult result (λ _. next ≡ Ok (draft_of self.new, text.now)) (IsFaultOf next) }
    {
        if self.open_group.is_some() {
            return Err(PatternFault::Nested(at));
        }
        if self.groups.len() >= MAX_GROUPS {
            return Err(PatternFault::BadGroup(at));
        }
        self.open_group = Some(OpenGroup {
            place: at,
            first: self.atoms.len(),
        });
        Ok(())
    }

    /// Closes the open group, whose closing parenthesis is at offset `at`. `text` is the text after
    /// this parenthesis.
    fn close_group(&mut self, at: usize, text: &str) -> Result<(), PatternFault>
        requires { at + 1 < 2 ^ 64 }
        ensures { let next = with_closed (draft_of self.old) at text.now self.old.open_group in
            MatchResult result (λ _. next ≡ Ok (draft_of self.new, text.now)) (IsFaultOf next) }
    {
        let Some(group) = self.open_group else {
            return Err(PatternFault::Syntax(at));
        };
        if begins_repeat(text) {
            return Err(match first_repeat(text) {
                Some(_) => PatternFault::Nested(at + 1),
                None => PatternFault::Syntax(at + 1),
            });
        }
        self.groups.push((group.first, self.atoms.len()))?;
        self.open_group = None;
        Ok(())
    }

    /// Reads the item at the front of the text, and updates the draft. The item is a parenthesis or
    /// an atom, and is at offset `at` of the pattern. Returns the remaining text.
    pub fn add_item<'a>(
        &mut self,
        alloc: Global,
        at: usize,
        text: &'a str,
    ) -> Result<&'a str, PatternFault>
        requires { at + 1 < 2 ^ 64 }
        ensures read { let next = with_item (draft_of self.old) at text.now in
            MatchResult result (λ rest. next ≡ Ok (draft_of self.new, rest.now)) (IsFaultOf next) }
        ensures shorter { IfOk result (λ rest. length rest.now < length text.now) }
    {
        if let Some(rest) = text.strip_prefix('(') {
            self.open_group(at, rest)?;
            return Ok(rest);
        }
        if let Some(rest) = text.strip_prefix(')') {
            self.close_group(at, rest)?;
            return Ok(rest);
        }
        self.add_atom(alloc, at, text)
    }

    /// Returns the pattern of a draft whose whole text has been read, or a fault if a group is
    /// still open.
    pub fn finish(self) -> Result<Pattern, PatternFault>
        requires { IsDraft 2 (draft_of self) }
        ensures { result ≡ whole_of (draft_of self) self.open_group }
    {
        let Draft {
            atoms,
            written: _,
            groups,
            open_group,
        } = self;
        match open_group {
            Some(group) => Err(PatternFault::Syntax(group.place)),
            None => Ok(Pattern { atoms, groups }),
        }
    }
}

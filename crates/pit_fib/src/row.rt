ghost use Rattle.std.specs.Prelude.{◌≡◌, ◌+◌, ◌<◌, ◌≤◌, ◌^◌, ℕ, None, Some, Option, IfOk, unwrap_or};
ghost use Rattle.std.specs.Option.{option_map};
ghost use Rattle.std.specs.FinMap as map;
ghost use Rattle.pit_fib.specs.Kept.{changed_row, with_answered};
ghost use Rattle.pit_fib.specs.FaceSet.{AtMost64};
ghost use Rattle.pit_fib.specs.Last.{last_in};
ghost use Rattle.pit_fib.specs.RecordTally.{ArePositive, counts, number};

use crate::by_face::Used;
use crate::entry::{Entry, InRecord};
use crate::face_set::Faces;
use crate::flags::Flags;
use crate::slots::{Revision, Slots};
use name_trie::{Change, Timed};
use std::marker::Model;

/// The entries under the keys of one name. The entries are stored apart from the name's node, so
/// that a node without a value is small.
#[derive(Drop)]
pub struct Row {
    slots: Option<Box<Slots>>,
}

impl Model for Row {
    ghost use Rattle.std.specs.Prelude.{unwrap_or};
    ghost use Rattle.std.specs.Option.{option_map};
    ghost use Rattle.std.specs.FinMap as map;
    ghost use Rattle.pit_fib.specs.Flags.{flags_code};
    ghost use Rattle.pit_fib.specs.Kept.{Row as Rows, kept_code};

    ghost Value = { Rows };

    ghost coded = { map.code flags_code kept_code };

    ghost view = { λ r. unwrap_or (option_map (λ s. s.value) r.slots) map.empty };
}

impl Row {
    /// Returns a row without entries and without memory.
    pub fn new() -> Row
        ensures { result ≡ map.empty }
    {
        Row { slots: None }
    }

    /// Returns a row that has these slots.
    pub fn from_slots(slots: Box<Slots>) -> Row
        ensures { result ≡ slots.value }
    {
        Row { slots: Some(slots) }
    }

    /// Returns the slots, if the row has memory for them.
    pub fn into_slots(self) -> Option<Box<Slots>>
        ensures { unwrap_or (option_map (λ s. s.value) result) map.empty ≡ self }
    {
        self.slots
    }

    /// Returns the entry under the key with these flags, or `None` if this key has no entry.
    pub fn get(&self, flags: Flags) -> Option<&Entry>
        ensures { option_map (λ e. e.now) result ≡ map.get self.now flags }
    {
        self.slots.as_ref()?.get(flags)
    }

    /// Returns how many keys of the name have an entry.
    pub fn count(&self) -> usize
        ensures { result ≡ map.len self.now }
    {
        match &self.slots {
            Some(slots) => slots.count(),
            None => 0,
        }
    }

    /// Adds the number of in-records that each face has under the keys of the name.
    pub fn raise(&self, faces: &mut Used)
        requires positive { ArePositive faces.old }
        requires small { (f : ℕ) → number faces.old f + counts (Some f) self.now < 2 ^ 64 }
        requires room { AtMost64 (λ f. 0 < number faces.old f + counts (Some f) self.now) }
        ensures positive { ArePositive faces.new }
        ensures raised { (f : ℕ) → number faces.new f
            ≡ number faces.old f + counts (Some f) self.now }
    {
        if let Some(slots) = &self.slots {
            slots.raise(faces);
        }
    }

    /// Subtracts the number of in-records that each face has under the keys of the name.
    pub fn lower(&self, faces: &mut Used)
        requires positive { ArePositive faces.old }
        requires some { (f : ℕ) → counts (Some f) self.now ≤ number faces.old f }
        ensures positive { ArePositive faces.new }
        ensures lowered { (f : ℕ) → number faces.new f + counts (Some f) self.now
            ≡ number faces.old f }
    {
        if let Some(slots) = &self.slots {
            slots.lower(faces);
        }
    }

    /// Applies the revision `how` to each entry, and returns the row. Returns `None` if no entry is
    /// left.
    pub fn revised<R: Revision>(self, how: &R) -> Option<Row>
        ensures { result ≡ changed_row (R.after how.now) self }
    {
        let mut slots = self.slots?;
        slots.revise(how);
        if slots.count() == 0 {
            return None;
        }
        Some(Row::from_slots(slots))
    }

    /// Adds to `faces` each face that has an in-record under a key of this name, if a Data answers
    /// this key. Once `faces` has 64 faces, no other face is added. If the name is the Data's name
    /// or full name (`is_own`), the Data answers all keys of the name. If the name is a proper
    /// prefix of the Data's name, the Data answers only the keys with CanBePrefix.
    pub fn add_answered(&self, is_own: bool, faces: &mut Faces)
        ensures { faces.new ≡ with_answered is_own faces.old self.now }
    {
        if let Some(slots) = &self.slots {
            slots.add_answered(is_own, faces);
        }
    }

    /// Returns the in-record with the latest deadline among the in-record `last` (if any) and the
    /// face's in-records under keys of this name. Only keys that a Data answers count. Among
    /// in-records with the same deadline, the in-record under the greatest key takes precedence,
    /// and `last` has the lowest precedence. If the name is the Data's name or full name
    /// (`is_own`), the Data answers all keys of the name. If the name is a proper prefix of the
    /// Data's name, the Data answers only the keys with CanBePrefix.
    pub fn last_of<'a>(
        &'a self,
        is_own: bool,
        face: u64,
        last: Option<&'a InRecord>,
    ) -> Option<&'a InRecord>
        ensures { option_map (λ r. r.now) result
            ≡ last_in is_own face (option_map (λ r. r.now) last.entry) self.now }
    {
        match &self.slots {
            Some(slots) => slots.last_of(is_own, face, last),
            None => last,
        }
    }
}

impl Timed for Row {
    ghost use Rattle.std.specs.FinMap as map;
    ghost use Rattle.name_trie.specs.Least.{least};
    ghost use Rattle.pit_fib.specs.Kept.{deadline};

    ghost timer = { λ row. least deadline (map.entries row) };

    fn timer(&self) -> u64 {
        match &self.slots {
            Some(slots) => slots.deadline(),
            None => 0,
        }
    }
}

/// A change of a name's row. The change applies a revision to the entry of each key.
#[derive(Drop)]
pub struct RowRevision<R>(pub R);

impl<R: Revision> Change<Row> for RowRevision<R> {
    ghost use Rattle.pit_fib.specs.Kept.{changed_row};

    ghost change = { λ how. changed_row (R.after how.0) };

    fn apply(&self, row: Row) -> Option<Row> {
        row.revised(&self.0)
    }
}

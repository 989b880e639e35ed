ghost use Rattle.std.specs.Prelude.{◌≡◌, ◌+◌, ◌<◌, ◌≤◌, ◌^◌, ◌==◌, ℕ, Option, Some};
ghost use Rattle.std.specs.Option.{option_map, option_and_then};
ghost use Rattle.std.specs.FinMap as map;
ghost use Rattle.name_trie.specs.Least.{least};
ghost use Rattle.pit_fib.specs.FaceSet.{AtMost64};
ghost use Rattle.pit_fib.specs.Kept.{deadline, row_of, with_answered};
ghost use Rattle.pit_fib.specs.Last.{last_exact, last_in, last_prefix};
ghost use Rattle.pit_fib.specs.RecordTally.{ArePositive, counts, number};

use crate::by_face::Used;
use crate::entry::{
    Entry, InRecord, add_faces, in_record_of, later, lesser, lower_faces, raise_faces,
};
use crate::face_set::Faces;
use crate::flags::Flags;
use std::marker::Model;

/// The entries under the keys of one name. The two flags of a key distinguish the keys, so there
/// are at most four entries.
#[derive(Drop)]
pub struct Slots {
    exact: Option<Entry>,
    exact_fresh: Option<Entry>,
    prefix: Option<Entry>,
    prefix_fresh: Option<Entry>,
}

impl Model for Slots {
    ghost use Rattle.std.specs.FinMap as map;
    ghost use Rattle.pit_fib.specs.Flags.{flags_code};
    ghost use Rattle.pit_fib.specs.Kept.{Row as Rows, by_flags, kept_code, row_of};

    ghost Value = { Rows };

    ghost coded = { map.code flags_code kept_code };

    ghost view = { λ r. row_of (by_flags r.exact r.exact_fresh r.prefix r.prefix_fresh) };
}

/// A change of the entries under the keys of a name.
pub trait Revision {
    ghost use Rattle.pit_fib.specs.declared.flags.Flags.{Flags};
    ghost use Rattle.pit_fib.specs.Kept.{Kept};

    ghost after: { Self → Flags → Kept → Option Kept };

    fn apply(&self, flags: Flags, entry: Entry) -> Option<Entry>
        ensures { result ≡ after self.now flags entry };
}

/// Returns what the revision `how` makes of the entry. Returns `None` if there is no entry, or if
/// the revision removes the entry.
fn revised<R: Revision>(how: &R, flags: Flags, entry: Option<Entry>) -> Option<Entry>
    ensures { result ≡ option_and_then (R.after how.now flags) entry }
{
    how.apply(flags, entry?)
}

impl Slots {
    /// Returns slots without entries.
    pub fn new() -> Slots
        ensures { result ≡ map.empty }
    {
        Slots {
            exact: None,
            exact_fresh: None,
            prefix: None,
            prefix_fresh: None,
        }
    }

    /// Returns the entry under the key with these flags, or `None` if this key has no entry.
    pub fn get(&self, flags: Flags) -> Option<&Entry>
        ensures { option_map (λ e. e.now) result ≡ map.get self.now flags }
    {
        match (flags.can_be_prefix, flags.must_be_fresh) {
            (false, false) => self.exact.as_ref(),
            (false, true) => self.exact_fresh.as_ref(),
            (true, false) => self.prefix.as_ref(),
            (true, true) => self.prefix_fresh.as_ref(),
        }
    }

    /// Removes the entry under the key with these flags, and returns this entry. Returns `None` if
    /// the key has no entry.
    pub fn take(&mut self, flags: Flags) -> Option<Entry>
        ensures value { result ≡ map.get self.old flags }
        ensures left { self.new ≡ map.remove self.old flags }
    {
        match (flags.can_be_prefix, flags.must_be_fresh) {
            (false, false) => self.exact.take(),
            (false, true) => self.exact_fresh.take(),
            (true, false) => self.prefix.take(),
            (true, true) => self.prefix_fresh.take(),
        }
    }

    /// Stores an entry under the key with these flags.
    pub fn set(&mut self, flags: Flags, entry: Entry)
        ensures { self.new ≡ map.insert self.old flags entry }
    {
        match (flags.can_be_prefix, flags.must_be_fresh) {
            (false, false) => self.exact = Some(entry),
            (false, true) => self.exact_fresh = Some(entry),
            (true, false) => self.prefix = Some(entry),
            (true, true) => self.prefix_fresh = Some(entry),
        }
    }

    /// Returns how many keys have an entry.
    pub fn count(&self) -> usize
        ensures { result ≡ map.len self.now }
    {
        usize::from(self.exact.is_some())
            + usize::from(self.exact_fresh.is_some())
            + usize::from(self.prefix.is_some())
            + usize::from(self.prefix_fresh.is_some())
    }

    /// Adds the number of in-records that each face has in the entries.
    pub fn raise(&self, faces: &mut Used)
        requires positive { ArePositive faces.old }
        requires small { (f : ℕ) → number faces.old f + counts (Some f) self.now < 2 ^ 64 }
        requires room { AtMost64 (λ f. 0 < number faces.old f + counts (Some f) self.now) }
        ensures positive { ArePositive faces.new }
        ensures raised { (f : ℕ) → number faces.new f
            ≡ number faces.old f + counts (Some f) self.now }
    {
        raise_faces(&self.exact, faces);
        raise_faces(&self.exact_fresh, faces);
        raise_faces(&self.prefix, faces);
        raise_faces(&self.prefix_fresh, faces);
    }

    /// Subtracts the number of in-records that each face has in the entries.
    pub fn lower(&self, faces: &mut Used)
        requires positive { ArePositive faces.old }
        requires some { (f : ℕ) → counts (Some f) self.now ≤ number faces.old f }
        ensures positive { ArePositive faces.new }
        ensures lowered { (f : ℕ) → number faces.new f + counts (Some f) self.now
            ≡ number faces.old f }
    {
        lower_faces(&self.exact, faces);
        lower_faces(&self.exact_fresh, faces);
        lower_faces(&self.prefix, faces);
        lower_faces(&self.prefix_fresh, faces);
    }

    /// Applies a revision to each entry.
    pub fn revise<R: Revision>(&mut self, how: &R)
        ensures { self.new
            ≡ row_of (λ f. option_and_then (R.after how.now f) (map.get self.old f)) }
    {
        self.exact = revised(how, Flags::new(false, false), self.exact.take());
        self.exact_fresh = revised(how, Flags::new(false, true), self.exact_fresh.take());
        self.prefix = revised(how, Flags::new(true, false), self.prefix.take());
        self.prefix_fresh = revised(how, Flags::new(true, true), self.prefix_fresh.take());
    }

    /// Returns the least of the deadlines that `Entry::deadline` gives for the entries, or 0 if
    /// there are no entries.
    pub fn deadline(&self) -> u64
        ensures { result ≡ least deadline (map.entries self.now) }
    {
        let exact = lesser(deadline_of(&self.exact), deadline_of(&self.exact_fresh));
        let all = lesser(
            lesser(exact, deadline_of(&self.prefix)),
            deadline_of(&self.prefix_fresh),
        );
        all.unwrap_or(0)
    }

    /// Adds to `faces` each face that has an in-record under a key of this name, if a Data answers
    /// this key. Once `faces` has 64 faces, no other face is added. If the name is the Data's name
    /// or full name (`is_own`), the Data answers all keys of the name. If the name is a proper
    /// prefix of the Data's name, the Data answers only the keys with CanBePrefix.
    pub fn add_answered(&self, is_own: bool, faces: &mut Faces)
        ensures { faces.new ≡ with_answered is_own faces.old self.now }
    {
        if is_own {
            add_faces(&self.exact, faces);
            add_faces(&self.exact_fresh, faces);
        }
        add_faces(&self.prefix, faces);
        add_faces(&self.prefix_fresh, faces);
    }

    /// Returns the in-record with the latest deadline among the in-record `last` (if any) and the
    /// face's in-records under the keys without CanBePrefix. Among in-records with the same
    /// deadline, the in-record under the greatest key takes precedence, and `last` has the lowest
    /// precedence.
    fn last_exact<'a>(&'a self, face: u64, last: Option<&'a InRecord>) -> Option<&'a InRecord>
        ensures { option_map (λ r. r.now) result
            ≡ last_exact face (option_map (λ r. r.now) last.entry) self.now }
    {
        let last = later(last, in_record_of(&self.exact, face));
        later(last, in_record_of(&self.exact_fresh, face))
    }

    /// Returns the in-record with the latest deadline among the in-record `last` (if any) and the
    /// face's in-records under the keys with CanBePrefix. Among in-records with the same deadline,
    /// the in-record under the greatest key takes precedence, and `last` has the lowest precedence.
    fn last_prefix<'a>(&'a self, face: u64, last: Option<&'a InRecord>) -> Option<&'a InRecord>
        ensures { option_map (λ r. r.now) result
            ≡ last_prefix face (option_map (λ r. r.now) last.entry) self.now }
    {
        let last = later(last, in_record_of(&self.prefix, face));
        later(last, in_record_of(&self.prefix_fresh, face))
    }

    /// Returns the in-record with the latest deadline among the in-record `last` (if any) and the
    /// face's in-records under keys of this name. Only keys that a Data answers count. Among
    /// in-records with the same deadline, the in-record under the greatest key takes precedence,
    /// and `last` has the lowest precedence. If the name is the Data's name or full name
    /// (`is_own`), the Data answers all keys of the name. If the name is a proper prefix of the
    /// Data's name, the Data answers only the keys with CanBePrefix.
    pub fn last_of<'a>(
        &'a self,
        is_own: bool,
        face: u64,
        last: Option<&'a InRecord>,
    ) -> Option<&'a InRecord>
        ensures { option_map (λ r. r.now) result
            ≡ last_in is_own face (option_map (λ r. r.now) last.entry) self.now }
    {
        if is_own {
            self.last_prefix(face, self.last_exact(face, last))
        } else {
            self.last_prefix(face, last)
        }
    }
}

/// Returns the deadline that `Entry::deadline` gives for an entry, or `None` if there is no entry.
fn deadline_of(entry: &Option<Entry>) -> Option<u64>
    ensures { result ≡ option_map deadline entry.now }
{
    match entry {
        Some(entry) => Some(entry.deadline()),
        None => None,
    }
}

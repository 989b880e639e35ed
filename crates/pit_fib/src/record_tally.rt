//! How many keys have records, and how many in-records each face has.
ghost use lib.Dec.{T};
ghost use Rattle.std.specs.Prelude.{◌≡◌, ◌≤◌, ◌<◌, ◌+◌, ◌^◌, ◌==◌, ℕ, Some, length, if◌then◌else◌};
ghost use Rattle.std.specs.Ordering.{nat_cmp};
ghost use Rattle.std.specs.FinMap as map;
ghost use Rattle.pit_fib.specs.FaceSet.{AtMost64};
ghost use Rattle.pit_fib.specs.RecordTally.{ArePositive, found, number};

use crate::by_face::Used;
use crate::row::Row;
use name_trie::{Tally, TimedMap};
use std::marker::Model;

/// The rows by name, also kept in order of their least deadlines.
pub type Rows = TimedMap<Row, RecordTally>;

/// The number of keys with records, and the number of in-records of each face.
#[derive(Drop)]
pub struct RecordTally {
    keys: usize,
    // The faces with in-records, each with the number of its in-records.
    faces: Used,
}

impl Model for RecordTally {
    ghost use Rattle.pit_fib.specs.RecordTally.{ArePositive, Fits, RecordTally as PlainTally, sum, tally_code};

    ghost Value = { PlainTally };

    ghost coded = { tally_code };

    ghost view = { λ t. record { keys = t.keys; faces = t.faces } };

    ghost invariant = { λ t. ArePositive t.faces
        × Fits (sum (record { keys = t.keys; faces = t.faces })) };
}

impl RecordTally {
    /// Returns the number of keys with records.
    pub fn keys(&self) -> usize
        ensures { result ≡ self.now.keys }
    {
        self.keys
    }

    /// Returns the number of in-records of a face.
    pub fn records_of(&self, face: u64) -> u64
        ensures { result ≡ number self.now.faces face }
    {
        self.faces.get(face).unwrap_or(0)
    }
}

impl Tally<Row> for RecordTally {
    ghost use Rattle.std.specs.Prelude.{Option, ℕ};
    ghost use Rattle.pit_fib.specs.RecordTally.{Fits, counts, sum};
    ghost use Rattle.pit_fib.specs.Laws.{fewer_fit};

    ghost Index = { Option ℕ };

    ghost counts = { counts };

    ghost sum = { sum };

    ghost Fits = { Fits };

    ghost fewer = { fewer_fit };

    fn new() -> RecordTally {
        RecordTally {
            keys: 0,
            faces: Used::new(),
        }
    }

    fn stands(&self) {
        let _tally = self.keys;
    }

    fn raise(&mut self, row: &Row) {
        self.keys += row.count();
        row.raise(&mut self.faces);
    }

    fn lower(&mut self, row: &Row) {
        self.keys -= row.count();
        row.lower(&mut self.faces);
    }
}

/// Adds 1 to the number of a face, which must be less than 2^64 - 1. There must be room for the
/// face.
fn raise_face(faces: &mut Used, face: u64)
    requires positive { ArePositive faces.old }
    requires small { number faces.old face + 1 < 2 ^ 64 }
    requires room { AtMost64 (λ f. 0 < number faces.old f + (if f == face then 1 else 0)) }
    ensures positive { ArePositive faces.new }
    ensures raised { (f : ℕ) → number faces.new f
        ≡ number faces.old f + (if f == face then 1 else 0) }
{
    let number = faces.get(face).unwrap_or(0);
    faces.insert(face, number + 1);
}

/// Subtracts 1 from the number of a face, which must not be 0.
fn lower_face(faces: &mut Used, face: u64)
    requires positive { ArePositive faces.old }
    requires some { 0 < number faces.old face }
    ensures positive { ArePositive faces.new }
    ensures lowered { (f : ℕ) → number faces.new f + (if f == face then 1 else 0)
        ≡ number faces.old f }
{
    let number = faces.get(face).unwrap_or(0);
    if number <= 1 {
        faces.remove(face);
    } else {
        faces.insert(face, number - 1);
    }
}

/// Adds 1 to the number of each face with a row.
pub fn raise_each<V>(rows: &[(u64, V)], faces: &mut Used)
    requires sorted { T (map.is_sorted nat_cmp rows.now) }
    requires positive { ArePositive faces.old }
    requires small { (f : ℕ) → number faces.old f + found rows.now f < 2 ^ 64 }
    requires room { AtMost64 (λ f. 0 < number faces.old f + found rows.now f) }
    ensures positive { ArePositive faces.new }
    ensures raised { (f : ℕ) → number faces.new f ≡ number faces.old f + found rows.now f }
{
    for row in rows {
        raise_face(faces, row.0);
    }
}

/// Subtracts 1 from the number of each face with a row. These numbers must not be 0.
pub fn lower_each<V>(rows: &[(u64, V)], faces: &mut Used)
    requires sorted { T (map.is_sorted nat_cmp rows.now) }
    requires positive { ArePositive faces.old }
    requires some { (f : ℕ) → found rows.now f ≤ number faces.old f }
    ensures positive { ArePositive faces.new }
    ensures lowered { (f : ℕ) → number faces.new f + found rows.now f ≡ number faces.old f }
{
    for row in rows {
        lower_face(faces, row.0);
    }
}

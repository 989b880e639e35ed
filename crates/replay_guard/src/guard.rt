ghost use Rattle.std.specs.Prelude.{◌≡◌, ◌↔◌, ◌<◌, None, Some, length, slice_index_or, slice_set, IsTrue, IsSome, IsOk, IfOk, OnOk, OnErr, MatchOption};
ghost use Rattle.std.specs.FinMap as map;
ghost use Rattle.replay_guard.specs.Freshness.{AreNear};
ghost use Rattle.replay_guard.specs.Guard.{signer_of, signer_cmp, raised, with_recorded, IsFresh, IsPrepared};
ghost use Rattle.replay_guard.specs.Rows.{Row as PlainRow, HasAll, IsFirst};

use crate::row::{Row, is_key, key_of};
use crate::signer::Signer;
use ndn_names::NameBuf;
use ndn_tlv::Memory;
use std::alloc::Global;
use std::marker::Model;

/// The greatest difference, in milliseconds, between the present moment and the time of a fresh
/// command.
const WINDOW: u64 = 120_000;

/// For each signer, the greatest time and the greatest sequence number of its recorded commands.
#[derive(Drop)]
pub struct Guard {
    alloc: Global,
    rows: Vec<Row>,
    // The key of the prepared row, or `None` if no row is prepared. If a row is prepared, `rows`
    // has capacity for this row.
    spare: Option<Option<NameBuf>>,
}

impl Model for Guard {
    ghost use Rattle.std.specs.Prelude.{vec_len};
    ghost use Rattle.std.specs.Vec.{vec_capacity};
    ghost use Rattle.std.specs.FinMap as map;
    ghost use Rattle.replay_guard.specs.Guard.{GuardState, state_code};
    ghost use Rattle.ndn_names.specs.Room.{HasRoom};

    ghost Value = { GuardState };

    ghost coded = { state_code };

    ghost view = { λ g. record { latest = map.from_entries g.rows.items; prepared = g.spare } };

    ghost invariant = { λ g. HasRoom (vec_len g.rows) (vec_capacity g.rows) g.spare };
}

impl Guard {
    /// Returns a guard in which nothing is recorded.
    pub fn new(alloc: Global) -> Guard
        ensures latest { result.latest ≡ map.empty }
        ensures prepared { result.prepared ≡ None }
    {
        Guard {
            alloc,
            rows: Vec::new(alloc),
            spare: None,
        }
    }

    /// Returns whether a signed command is fresh. The command's time `time` and the present moment
    /// `now` are in milliseconds since 1970. `time` must differ from `now` by at most 120,000, and
    /// must be greater than each recorded time of `signer`. If the command has a sequence number
    /// `seq`, this number must be greater than each recorded sequence number of `signer`.
    pub fn check(&self, signer: Signer<'_>, time: u64, seq: Option<u64>, now: u64) -> bool
        ensures { IsTrue result ↔ IsFresh self.now.latest (signer_of signer.entry) time seq now }
    {
        if !are_near(time, now) {
            return false;
        }
        match place_of(&self.rows, signer) {
            Some(at) => self.rows[at].is_before(time, seq),
            None => true,
        }
    }

    /// Returns whether any command of a signer is recorded.
    fn is_recorded(&self, signer: Signer<'_>) -> bool
        ensures { IsTrue result ↔ IsSome (map.get self.now.latest (signer_of signer.entry)) }
    {
        place_of(&self.rows, signer).is_some()
    }

    /// Records a command. Each call of `record` ends a preparation made by `prepare`, even if the
    /// call of `record` fails. `Memory` is returned only for a signer that has no recorded command
    /// and no prepared call. On `Memory`, the recorded commands are unchanged.
    pub fn record(&mut self, signer: Signer<'_>, time: u64, seq: Option<u64>) -> Result<(), Memory>
        ensures ok { OnOk result (self.new.latest ≡ with_recorded self.old.latest
            (record { signer = signer_of signer.entry; time = time; number = seq })) }
        ensures err { OnErr result (self.new.latest ≡ self.old.latest) }
        ensures ended { self.new.prepared ≡ None }
        ensures promised { IsPrepared self.old (signer_of signer.entry) → IsOk result }
    {
        match place_of(&self.rows, signer) {
            Some(at) => {
                self.spare = None;
                raise_at(&mut self.rows, at, time, seq);
                Ok(())
            }
            None => self.add(signer, time, seq),
        }
    }

    /// Adds a row for a signer that has no row.
    fn add(&mut self, signer: Signer<'_>, time: u64, seq: Option<u64>) -> Result<(), Memory>
        requires { map.get self.old.latest (signer_of signer) ≡ None }
        ensures ok { OnOk result (self.new.latest ≡ map.insert self.old.latest
            (signer_of signer.entry) (record { time = time; number = seq })) }
        ensures err { OnErr result (self.new.latest ≡ self.old.latest) }
        ensures ended { self.new.prepared ≡ None }
        ensures promised { self.old.prepared ≡ Some (signer_of signer.entry) → IsOk result }
    {
        let spare = self.spare.take();
        let key = key_in(self.alloc, spare, signer)?;
        self.rows.push(Row::new(key, time, seq))?;
        Ok(())
    }

    /// Prepares one call of `record` for this signer. The prepared call cannot run out of memory.
    /// The next call of `record` or `prepare`, for any signer, ends this preparation, even if the
    /// next call fails. If a command of the signer is already recorded, `prepare` needs no memory
    /// and cannot fail.
    pub fn prepare(&mut self, signer: Signer<'_>) -> Result<(), Memory>
        ensures latest { self.new.latest ≡ self.old.latest }
        ensures ok { OnOk result (IsPrepared self.new (signer_of signer.entry)) }
        ensures known { IsSome (map.get self.old.latest (signer_of signer.entry)) → IsOk result }
        ensures err { OnErr result (self.new.prepared ≡ None) }
    {
        self.spare = None;
        if self.is_recorded(signer) {
            return Ok(());
        }
        self.rows.reserve(1)?;
        let key = key_of(self.alloc, signer)?;
        self.spare = Some(key);
        Ok(())
    }
}

impl Guard {
    /// Returns whether both guards have the same signers, each with the same time and number. The
    /// contract guarantees nothing for the result `false`.
    pub fn has_same_times(&self, other: &Guard) -> bool
        ensures { IsTrue result → self.now.latest ≡ other.now.latest }
    {
        has_all(&self.rows, &other.rows) && has_all(&other.rows, &self.rows)
    }
}

/// Returns whether `rows` has each signer of `others`, with the same time and number.
fn has_all(rows: &[Row], others: &[Row]) -> bool
    ensures { IsTrue result → HasAll rows.now others.now }
{
    for other in others.iter() {
        let Some(at) = place_of(rows, other.signer()) else {
            return false;
        };
        if !rows[at].is_same_time(other) {
            return false;
        }
    }
    true
}

/// Returns whether two moments differ by at most `WINDOW`.
fn are_near(a: u64, b: u64) -> bool
    ensures { IsTrue result ↔ AreNear a b }
{
    a.abs_diff(b) <= WINDOW
}

/// Returns the key of `signer`. If `spare` is this key, `spare` is returned. If not, a new copy of
/// the key is returned.
fn key_in(
    alloc: Global,
    spare: Option<Option<NameBuf>>,
    signer: Signer<'_>,
) -> Result<Option<NameBuf>, Memory>
    ensures ok { IfOk result (λ key. key ≡ signer_of signer.entry) }
    ensures spared { spare ≡ Some (signer_of signer.entry) → IsOk result }
{
    match spare {
        Some(key) if is_key(&key, signer) => Ok(key),
        _ => key_of(alloc, signer),
    }
}

/// Returns the index of a signer's first row, or `None` if the signer has no row.
fn place_of(rows: &[Row], signer: Signer<'_>) -> Option<usize>
    ensures { MatchOption result (map.find signer_cmp (signer_of signer.entry) rows.now ≡ None)
        (IsFirst (signer_of signer.entry) rows.now) }
{
    for (at, row) in rows.iter().enumerate() {
        if row.is_of(signer) {
            return Some(at);
        }
    }
    None
}

/// Records a command in the row at index `at`.
fn raise_at(rows: &mut Vec<Row>, at: usize, time: u64, number: Option<u64>)
    requires { at < length rows.old.items }
    ensures { (row : PlainRow) → row ≡ slice_index_or rows.old.items at row
        → rows.new.items ≡ slice_set rows.old.items at (row.0, raised (Some row.1) time number) }
{
    rows[at].raise(time, number);
}

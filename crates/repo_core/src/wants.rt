ghost use Rattle.std.specs.Prelude.{◌≡◌, ◌⊎◌, ◌↔◌, ◌<◌, IfOk, IsTrue, true};
ghost use lib.Dec.{T};
ghost use Rattle.std.specs.FinMap as map;
ghost use Rattle.sha2.specs.Sha256.{sha256};
ghost use Rattle.ndn_names.specs.View.{components};
ghost use Rattle.repo_core.specs.Room.{HasAt, IsPlace};
ghost use Rattle.repo_core.specs.Wants.{is_wanted, unfilled, want_cmp, wants_after};

use crate::repo::MAX_WANTS;
use crate::row_insertion::insert_row;
use ndn_names::{Name, NameBuf};
use ndn_packets::Data;
use ndn_tlv::Memory;
use std::alloc::Global;
use std::cmp::Ordering;
use std::marker::Model;

/// A want: its name, its CanBePrefix flag, and its deadline in milliseconds since 1970.
type Row = ((NameBuf, bool), u64);

/// The wants (pending inserts) of a repository, by name and CanBePrefix.
#[derive(Drop)]
pub struct Wants {
    // The wants in canonical order of their names. Of two wants with the same name, the want with
    // CanBePrefix `false` comes first. Capacity for `MAX_WANTS` wants is allocated when the
    // collection is created.
    rows: Vec<Row>,
}

impl Model for Wants {
    ghost use lib.Dec.{T};
    ghost use Rattle.std.specs.Prelude.{◌≤◌};
    ghost use Rattle.std.specs.Coded.{coded_ℕ};
    ghost use Rattle.std.specs.Vec.{vec_capacity};
    ghost use Rattle.std.specs.FinMap as map;
    ghost use Rattle.repo_core.specs.Wants.{Wants as WantTable, want_cmp, want_code};
    ghost use Rattle.repo_core.specs.declared.repo.TheConstants.{MAX_WANTS};

    ghost Value = { WantTable };

    ghost coded = { map.code want_code coded_ℕ };

    ghost view = { λ w. map.from_sorted w.rows.items };

    ghost invariant = { λ w. T (map.is_sorted want_cmp w.rows.items)
        × (MAX_WANTS ≤ vec_capacity w.rows) };
}

impl Wants {
    pub fn new(alloc: Global) -> Result<Wants, Memory>
        ensures { IfOk result (λ w. w ≡ map.empty) }
    {
        let rows = Vec::with_capacity(alloc, MAX_WANTS)?;
        Ok(Wants { rows })
    }

    pub fn len(&self) -> usize
        ensures { result ≡ map.len self.now }
    {
        self.rows.len()
    }

    /// Returns whether there is a want with this name and this CanBePrefix flag.
    pub fn contains(&self, name: Name<'_>, can_be_prefix: bool) -> bool
        ensures { result ≡ map.contains_key self.now (components name.entry, can_be_prefix) }
    {
        let at = place_of(&self.rows, name, can_be_prefix);
        has_at(&self.rows, at, name, can_be_prefix)
    }

    /// Sets the deadline of the want with this name and this CanBePrefix flag. If there is no such
    /// want, adds a want. Precondition: there are fewer than 64 wants, or there is already a want
    /// with this name and this CanBePrefix flag.
    pub fn put(&mut self, name: NameBuf, can_be_prefix: bool, deadline: u64)
        requires { (map.contains_key self.old (name, can_be_prefix) ≡ true)
            ⊎ (map.len self.old < MAX_WANTS) }
        ensures { self.new ≡ map.insert self.old (name, can_be_prefix) deadline }
    {
        let at = place_of(&self.rows, name.view(), can_be_prefix);
        if has_at(&self.rows, at, name.view(), can_be_prefix) {
            self.rows[at].1 = deadline;
        } else {
            insert_row(&mut self.rows, at, ((name, can_be_prefix), deadline));
        }
    }

    /// Removes the want with this name and this CanBePrefix flag, if there is such a want.
    pub fn remove(&mut self, name: Name<'_>, can_be_prefix: bool)
        ensures { self.new ≡ map.remove self.old (components name.entry, can_be_prefix) }
    {
        self.rows
            .retain(|row| !order_of(row, name, can_be_prefix).is_eq());
    }

    /// Returns whether the Data answers at least one want.
    pub fn are_filled_by(&self, packet: &Data<'_>) -> bool
        ensures { result
            ≡ is_wanted (components packet.now.name) (sha256 packet.now.whole.now) self.now }
    {
        for row in &self.rows {
            if packet.answers(row.0.0.view(), row.0.1) {
                return true;
            }
        }
        false
    }

    /// Removes all wants that the Data answers.
    pub fn fill(&mut self, packet: &Data<'_>)
        ensures { self.new
            ≡ unfilled (components packet.now.name) (sha256 packet.now.whole.now) self.old }
    {
        self.rows
            .retain(|row| !packet.answers(row.0.0.view(), row.0.1));
    }

    /// Returns whether both collections have the same wants with the same deadlines.
    pub fn is_same(&self, other: &Wants) -> bool
        ensures { IsTrue result → self.now ≡ other.now }
    {
        are_same(&self.rows, &other.rows)
    }

    /// Removes all wants that have expired by `now`.
    pub fn expire(&mut self, now: u64)
        ensures { self.new ≡ wants_after now self.old }
    {
        self.rows.retain(|row| now < row.1);
    }
}

/// Returns whether two lists have the same wants with the same deadlines, in the same order.
fn are_same(rows: &[Row], others: &[Row]) -> bool
    ensures { IsTrue result → rows.now ≡ others.now }
{
    if rows.len() != others.len() {
        return false;
    }
    for at in 0..rows.len() {
        if !is_same_want(&rows[at], &others[at]) {
            return false;
        }
    }
    true
}

#[tactic(auto, using(crate::proofs::SameNames::same_want))]
/// Returns whether two wants have the same name, CanBePrefix and deadline.
fn is_same_want(want: &Row, other: &Row) -> bool
    ensures { IsTrue result → want.now ≡ other.now }
{
    let is_same_name = want.0.0 == other.0.0;
    if !is_same_name || want.0.1 != other.0.1 {
        return false;
    }
    want.1 == other.1
}

/// Compares the key of a want with the key that consists of this name and this CanBePrefix flag.
fn order_of(row: &Row, name: Name<'_>, can_be_prefix: bool) -> Ordering
    ensures { result ≡ want_cmp row.now.0 (components name.entry, can_be_prefix) }
{
    row.0
        .0
        .view()
        .compare(name)
        .then(row.0.1.cmp(&can_be_prefix))
}

/// Returns the index of the first want whose key is not less than the key that consists of this
/// name and this CanBePrefix flag, or the number of wants if there is no such want.
fn place_of(rows: &[Row], name: Name<'_>, can_be_prefix: bool) -> usize
    requires { T (map.is_sorted want_cmp rows.now) }
    ensures { IsPlace want_cmp (components name.entry, can_be_prefix) rows.now result }
{
    rows.partition_point(|row| order_of(row, name, can_be_prefix).is_lt())
}

/// Returns whether there is a want at index `at` that has this name and this CanBePrefix flag.
fn has_at(rows: &[Row], at: usize, name: Name<'_>, can_be_prefix: bool) -> bool
    ensures { IsTrue result ↔ HasAt (components name.entry, can_be_prefix) rows.now at }
{
    if at >= rows.len() {
        return false;
    }
    order_of(&rows[at], name, can_be_prefix).is_eq()
}

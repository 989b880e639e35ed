ghost use Rattle.std.specs.Prelude.{◌≡◌, ◌+◌, ◌-◌, ◌^◌, IfOk, IsTrue, min, max};
ghost use Rattle.forwarder.specs.Policy.{HasSameParts, HasSameTables};
ghost use Rattle.forwarder.specs.State.{IsLater, policy_of, state_of};

use crate::open_faces::OpenFaces;
use info_rules::Rules;
use key_files::KeyBook;
use mgmt_core::Tables;
use ndn_tlv::Memory;
use pit_fib::Pit;
use replay_guard::Guard;
use repo_core::Repo;
use std::alloc::Global;

/// The state of a node between events.
#[derive(Drop)]
pub struct State {
    pub alloc: Global,
    /// The greatest moment of the events that were handled, in milliseconds since 1970.
    pub now: u64,
    /// The version of the lists of routes and strategies.
    pub table_number: u64,
    pub rules: Rules,
    pub keys: KeyBook,
    pub faces: OpenFaces,
    pub pit: Pit,
    /// The tables of routes and strategies, and the cache.
    pub tables: Tables,
    /// For each signer of allowed commands, the greatest SignatureTime and the greatest
    /// SignatureSeqNum of the signer's allowed commands.
    pub guard: Guard,
    pub repo: Repo,
}

impl State {
    /// Sets the time to the greater of `self.now` and `moment`. Removes the in-records, routes and
    /// pending inserts that expire by this time, and the out-records of keys that then have no
    /// in-record. Adds the number of removed routes to the version of the lists of routes and
    /// strategies, up to the greatest u64. What was prepared in the PIT, the tables, the guard and
    /// the repository stays prepared.
    pub fn pass_time(&mut self, moment: u64)
        ensures later { IsLater (state_of self.old) moment (state_of self.new) }
        ensures pit { self.new.pit.prepared ≡ self.old.pit.prepared }
        ensures tables { self.new.tables ≡ record self.old.tables { fib = self.new.tables.fib } }
        ensures fib { self.new.tables.fib.prepared ≡ self.old.tables.fib.prepared }
        ensures guard { self.new.guard ≡ self.old.guard }
        ensures want { self.new.repo.prepared_want ≡ self.old.repo.prepared_want }
        ensures object { self.new.repo.prepared_object ≡ self.old.repo.prepared_object }
    {
        self.now = self.now.max(moment);
        let gone = self.tables.fib.expire(self.now);
        self.table_number = self.table_number.saturating_add(gone);
        self.pit.expire(self.now);
        self.repo.expire(self.now);
    }

    /// Increases the version of the lists of routes and strategies by 1, up to the greatest u64.
    pub fn next_version(&mut self)
        ensures { self.new
            ≡ record self.old { table_number = min (self.old.table_number + 1) (2 ^ 64 - 1) } }
    {
        self.table_number = self.table_number.saturating_add(1);
    }

    /// Returns whether two states agree in the time, the repository's prefix, the open faces, the
    /// routes, the strategies, the replay guard, the stored Data and the pending inserts.
    pub fn has_same_tables(&self, other: &State) -> Result<bool, Memory>
        ensures { IfOk result (λ same. IsTrue same
            → HasSameTables (policy_of self.entry.now) (policy_of other.entry.now)) }
    {
        if !self.has_same_parts(other) {
            return Ok(false);
        }
        let (tables, others) = (&self.tables, &other.tables);
        let are_routes = tables.fib.has_same_routes(self.alloc, &others.fib)?;
        let are_choices = tables
            .strategies
            .has_same_choices(self.alloc, &others.strategies)?;
        Ok(are_routes && are_choices)
    }

    /// Returns whether two states agree in the time, the repository's prefix, the open faces, the
    /// replay guard, the stored Data and the pending inserts.
    fn has_same_parts(&self, other: &State) -> bool
        ensures { IsTrue result
            → HasSameParts (policy_of self.entry.now) (policy_of other.entry.now) }
    {
        self.now == other.now
            && self.repo.has_same_prefix(&other.repo)
            && self.faces.is_same(&other.faces)
            && self.guard.has_same_times(&other.guard)
            && self.repo.holds_same(&other.repo)
    }
}

ghost use Rattle.std.specs.Prelude.{◌≡◌, ◌≢◌, ◌≤◌, Err, None, Some, IsSome, IsTrue, IfErr, IfOk, MatchOption, OnErr, OnOk};
ghost use Rattle.std.specs.FinMap as map;
ghost use Rattle.ndn_names.specs.View.{components};
ghost use Rattle.pit_fib.specs.declared.fault.TableFault.TheVariants as faults;
ghost use Rattle.name_trie.specs.ByName.{longest as longest_in};
ghost use Rattle.name_trie.specs.Shown.{shown_each};
ghost use Rattle.pit_fib.specs.declared.fib.TheConstants.{MAX_ENTRIES};
ghost use Rattle.pit_fib.specs.Limits.{AreShallow};
ghost use Rattle.pit_fib.specs.Refusal.{refusal};
ghost use Rattle.pit_fib.specs.StrategyTable.{only_best_route, without_choice};

use crate::fault::TableFault;
use crate::fib::{MAX_DEPTH, MAX_ENTRIES};
use name_trie::{Carry, NameMap, Show};
use ndn_names::{Name, NameBuf};
use ndn_tlv::Memory;
use std::alloc::Global;
use std::marker::Model;

/// A forwarding strategy (NFD Developer's Guide, "Forwarding Strategy").
#[derive(Clone, Copy, Debug, PartialEq, Eq)]
pub enum StrategyId {
    /// `/localhost/nfd/strategy/best-route`
    BestRoute,
    /// `/localhost/nfd/strategy/multicast`
    Multicast,
}

// On a walk over all names, the state at a name with a strategy is that strategy.
impl Carry<StrategyId> for StrategyId {
    ghost past = { λ before strategy. strategy };

    fn carry(&self, strategy: &StrategyId) -> StrategyId {
        *strategy
    }
}

/// The table of strategies by name (NFD Developer's Guide, "Strategy Choice Table"). The table has
/// at most 4,096 names. Each name has at most 32 components. The name `/` is always in the table.
#[derive(Drop)]
pub struct StrategyTable {
    // The strategy of `/`. It is stored apart from the other strategies, so it never needs an
    // allocation.
    root: StrategyId,
    others: NameMap<StrategyId>,
}

impl Model for StrategyTable {
    ghost use Rattle.std.specs.Prelude.{◌≡◌, None, []};
    ghost use Rattle.std.specs.FinMap as map;
    ghost use Rattle.name_trie.specs.NameTable.{NameTable, name_table_code};
    ghost use Rattle.pit_fib.specs.declared.strategy_table.StrategyId.{StrategyId};
    ghost use Rattle.pit_fib.specs.Limits.{IsWithinLimits};
    ghost use Rattle.pit_fib.specs.StrategyTable.{strategy_code};

    ghost Value = { NameTable StrategyId };

    ghost coded = { name_table_code strategy_code };

    ghost view = { λ s. record {
      table = map.insert s.others.table [] s.root;
      prepared = s.others.prepared;
    } };

    ghost invariant = { λ s. (map.get s.others.table [] ≡ None)
        × IsWithinLimits (map.insert s.others.table [] s.root) };
}

impl StrategyTable {
    /// Returns a table that has only the strategy best-route at `/`.
    pub fn new(alloc: Global) -> StrategyTable
        ensures table { result.table ≡ only_best_route }
        ensures prepared { result.prepared ≡ None }
    {
        StrategyTable {
            root: StrategyId::BestRoute,
            others: NameMap::new(alloc),
        }
    }

    /// Returns the number of names, including `/`. The contract clause `exact` gives this number.
    /// Each of the other contract clauses states a property that every table has.
    pub fn len(&self) -> usize
        ensures exact { result ≡ map.len self.now.table }
        ensures bounded { map.len self.now.table ≤ MAX_ENTRIES }
        ensures shallow { AreShallow self.now.table }
    {
        self.others.len() + 1
    }

    /// Sets the strategy of a name.
    ///
    /// On failure, returns the first of the faults that apply, in the order of `TableFault`, and
    /// leaves the table unchanged. Each call ends the preparation, even if the call fails. `Memory`
    /// is never returned for a name that has a strategy, such as `/`, or is prepared.
    pub fn set(&mut self, name: Name<'_>, strategy: StrategyId) -> Result<(), TableFault>
        ensures ok { OnOk result
            (self.new.table ≡ map.insert self.old.table (components name.entry) strategy) }
        ensures err { OnErr result (self.new.table ≡ self.old.table) }
        ensures ended { self.new.prepared ≡ None }
        ensures fault { MatchOption (refusal self.old.table (components name.entry))
            (IfErr result (λ fault. fault ≡ faults.Memory)) (λ fault. result ≡ Err fault) }
        ensures known { IsSome (map.get self.old.table (components name.entry))
            → IfErr result (λ fault. fault ≢ faults.Memory) }
        ensures promised { self.old.prepared ≡ Some (components name.entry)
            → IfErr result (λ fault. fault ≢ faults.Memory) }
    {
        if let Some(fault) = self.refusal_of(name) {
            self.others.forget_prepared();
            return Err(fault);
        }
        if name.is_empty() {
            self.others.forget_prepared();
            self.root = strategy;
        } else {
            self.others.put(name, strategy)?;
        }
        Ok(())
    }

    /// Returns why the table refuses a strategy for the name, or `None` if the table accepts a
    /// strategy for the name.
    pub fn refusal_of(&self, name: Name<'_>) -> Option<TableFault>
        ensures { result ≡ refusal self.now.table (components name.entry) }
    {
        if name.len() > MAX_DEPTH {
            return Some(TableFault::TooDeep);
        }
        if self.others.len() < MAX_ENTRIES - 1 {
            return None;
        }
        if name.is_empty() {
            return None;
        }
        if self.others.get(name).is_some() {
            return None;
        }
        Some(TableFault::TableFull)
    }

    /// Prepares one `set` of this name. The prepared call cannot run out of memory.
    pub fn prepare(&mut self, name: Name<'_>) -> Result<(), Memory>
        ensures table { self.new.table ≡ self.old.table }
        ensures ok { OnOk result (self.new.prepared ≡ Some (components name.entry)) }
        ensures err { OnErr result (self.new.prepared ≡ None) }
    {
        self.others.prepare(name)
    }

    /// Discards the preparation of a call.
    pub fn forget_prepared(&mut self)
        ensures table { self.new.table ≡ self.old.table }
        ensures prepared { self.new.prepared ≡ None }
    {
        self.others.forget_prepared();
    }

    /// Removes the strategy of a name, if it has one. The strategy of `/` is not removed.
    pub fn unset(&mut self, name: Name<'_>)
        ensures table { self.new.table ≡ without_choice self.old.table (components name.entry) }
        ensures prepared { self.new.prepared ≡ self.old.prepared }
    {
        self.others.remove(name);
    }

    /// Returns the strategy of one prefix of a name: the longest prefix that has a strategy.
    pub fn longest(&self, name: Name<'_>) -> StrategyId
        ensures { Some result ≡ longest_in self.now.table (components name.entry) }
    {
        match self.others.longest(name) {
            Some(strategy) => *strategy,
            None => self.root,
        }
    }

    /// Returns all names in canonical order, each with its strategy.
    pub fn list(&self, alloc: Global) -> Result<Vec<(NameBuf, StrategyId)>, Memory>
        ensures { IfOk result (λ list. list.items ≡ map.entries self.now.table) }
    {
        let mut list = Vec::new(alloc);
        list.push((NameBuf::new(alloc), self.root))?;
        for (name, strategy) in self.others.list(alloc)? {
            list.push((name, *strategy))?;
        }
        Ok(list)
    }

    #[tactic(auto, using(crate::proofs::SameNames::same_choices))]
    /// Returns whether both tables have the same names, each with the same strategy. The contract
    /// covers only the result `true`.
    pub fn has_same_choices(&self, alloc: Global, other: &StrategyTable) -> Result<bool, Memory>
        ensures { IfOk result (λ same. IsTrue same → self.now.table ≡ other.now.table) }
    {
        let choices = self.list(alloc)?;
        let others = other.list(alloc)?;
        Ok(are_same(&choices, &others))
    }

    /// Shows all names to the visitor `show`, in canonical order, each with its strategy. On
    /// failure, some names may have been shown already.
    pub fn show_all<S: Show<StrategyId>>(&self, show: &mut S) -> Result<(), Memory>
        ensures { OnOk result
            (show.new ≡ shown_each S.shown show.old (map.entries self.now.table)) }
    {
        show.show(&[], &self.root)?;
        self.others.show_all(&self.root, show)
    }
}

/// Returns whether two lists have the same names in the same order, each with the same strategy.
fn are_same(choices: &[(NameBuf, StrategyId)], others: &[(NameBuf, StrategyId)]) -> bool
    ensures { IsTrue result → choices.now ≡ others.now }
{
    if choices.len() != others.len() {
        return false;
    }
    for at in 0..choices.len() {
        if !is_same_choice(&choices[at], &others[at]) {
            return false;
        }
    }
    true
}

#[tactic(auto, using(crate::proofs::SameNames::same_choice))]
/// Returns whether two names are the same and have the same strategy.
fn is_same_choice(choice: &(NameBuf, StrategyId), other: &(NameBuf, StrategyId)) -> bool
    ensures { IsTrue result → choice.now ≡ other.now }
{
    let is_same_name = choice.0 == other.0;
    is_same_name && choice.1 == other.1
}

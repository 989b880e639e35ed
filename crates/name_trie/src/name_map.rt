ghost use Rattle.std.specs.Prelude.{ℕ, option_and_then, fold, [], ◌≡◌, ◌<◌, ◌≤◌, ◌+◌, ◌^◌, ◌⊎◌, None, Some, length, map as list_map, IsOk, IfOk, IsSome, OnOk, OnErr};
ghost use Rattle.std.specs.FinMap as map;
ghost use Rattle.std.specs.Option.{option_map};
ghost use Rattle.ndn_names.specs.View.{components};
ghost use Rattle.name_trie.specs.ByName.{longest as longest_in, revise, with_value};
ghost use Rattle.name_trie.specs.Taken.{taken_along};
ghost use Rattle.name_trie.specs.Steps.{TakesSteps};
ghost use Rattle.name_trie.specs.Shown.{known_at, shown_known};

use crate::becomes::Becomes;
use crate::change::Change;
use crate::see::See;
use crate::show::{Carry, Show};
use crate::trie::NameTrie;
use ndn_names::{Name, NameBuf};
use ndn_tlv::Memory;
use std::alloc::Global;
use std::marker::Model;

/// A map from names to values. The names are in canonical order.
#[derive(Drop)]
pub struct NameMap<V> {
    trie: NameTrie<V>,
    // The number of names that have a value.
    len: usize,
}

impl<V> Model for NameMap<V> {
    ghost use Rattle.std.specs.Prelude.{◌≡◌};
    ghost use Rattle.std.specs.FinMap as map;
    ghost use Rattle.name_trie.specs.NameTable.{NameTable, name_table_code};

    ghost Value = { NameTable V };

    ghost coded = { name_table_code V.code };

    ghost view = { λ m. m.trie };

    ghost invariant = { λ m. m.len ≡ map.len m.trie.table };
}

impl<V: Drop> NameMap<V> {
    pub fn new(alloc: Global) -> NameMap<V>
        ensures table { result.table ≡ map.empty }
        ensures prepared { result.prepared ≡ None }
    {
        NameMap {
            trie: NameTrie::new(alloc),
            len: 0,
        }
    }

    pub fn len(&self) -> usize
        ensures { result ≡ map.len self.now.table }
    {
        self.len
    }

    /// Returns the value of a name, or `None` if the name has no value.
    pub fn get(&self, name: Name<'_>) -> Option<&V>
        ensures { option_map (λ v. v.now) result ≡ map.get self.now.table (components name.entry) }
    {
        self.trie.get(name)
    }

    /// Sets the value of a name. Each call of `put`, even a call that fails, ends the preparation
    /// that `prepare` made. Returns `Memory` only for a name that has no value and is not prepared.
    /// If the result is `Memory`, the values are unchanged.
    pub fn put(&mut self, name: Name<'_>, value: V) -> Result<(), Memory>
        requires { IsSome (map.get self.old.table (components name))
            ⊎ (map.len self.old.table + 1 < 2 ^ 64) }
        ensures ok { OnOk result
            (self.new.table ≡ map.insert self.old.table (components name.entry) value) }
        ensures err { OnErr result (self.new.table ≡ self.old.table) }
        ensures ended { self.new.prepared ≡ None }
        ensures known { IsSome (map.get self.old.table (components name.entry)) → IsOk result }
        ensures promised { self.old.prepared ≡ Some (components name.entry) → IsOk result }
    {
        if self.trie.put(name, value)? {
            self.len += 1;
        }
        Ok(())
    }

    /// Prepares one `put` or `put_with` of `name`, so that this `put` or `put_with` cannot run out
    /// of memory.
    pub fn prepare(&mut self, name: Name<'_>) -> Result<(), Memory>
        ensures table { self.new.table ≡ self.old.table }
        ensures ok { OnOk result (self.new.prepared ≡ Some (components name.entry)) }
        ensures err { OnErr result (self.new.prepared ≡ None) }
    {
        self.trie.prepare(name)
    }

    /// Ends the preparation, if a call is prepared.
    pub fn forget_prepared(&mut self)
        ensures table { self.new.table ≡ self.old.table }
        ensures prepared { self.new.prepared ≡ None }
    {
        self.trie.forget_prepared();
    }

    /// Removes the value of a name, if the name has a value.
    pub fn remove(&mut self, name: Name<'_>)
        ensures table { self.new.table ≡ map.remove self.old.table (components name.entry) }
        ensures prepared { self.new.prepared ≡ self.old.prepared }
    {
        if self.trie.remove(name) {
            self.len -= 1;
        }
    }

    /// Returns all names with their values, in canonical order.
    pub fn list(&self, alloc: Global) -> Result<Vec<(NameBuf, &V)>, Memory>
        ensures { IfOk result (λ list. list_map (λ r. (r.0, r.1.now)) list.items
            ≡ map.entries self.now.table) }
    {
        self.trie.list(alloc)
    }

    /// Returns the value of the longest prefix of `name` that has a value, or `None` if no prefix
    /// has a value. `name` counts as a prefix of itself.
    pub fn longest(&self, name: Name<'_>) -> Option<&V>
        ensures { option_map (λ v. v.now) result
            ≡ longest_in self.now.table (components name.entry) }
    {
        self.trie.longest(name)
    }
}

impl<V: Drop> NameMap<V> {
    /// Changes or removes the value of `name`, if this name has a value, as the rule `how` says.
    pub fn change<C: Change<V>>(&mut self, name: Name<'_>, how: &C)
        ensures table { self.new.table ≡ with_value self.old.table (components name.entry)
            (option_and_then (C.change how.now) (map.get self.old.table (components name.entry))) }
        ensures prepared { self.new.prepared ≡ self.old.prepared }
    {
        self.len -= usize::from(self.trie.change(name, how));
    }

    /// Changes or removes each value, as the rule `how` says.
    pub fn change_all<C: Change<V>>(&mut self, how: &C)
        ensures table { self.new.table ≡ revise (C.change how.now) self.old.table }
        ensures prepared { self.new.prepared ≡ self.old.prepared }
    {
        self.len -= self.trie.change_all(how);
    }

    /// Sets the value of `name` to the value that the rule `how` computes from the old value of
    /// `name`, or from `None` if `name` has no value.
    pub fn put_with<B: Becomes<V> + Drop>(&mut self, name: Name<'_>, how: B) -> Result<(), Memory>
        requires { IsSome (map.get self.old.table (components name))
            ⊎ (map.len self.old.table + 1 < 2 ^ 64) }
        ensures ok { OnOk result (self.new.table ≡ map.insert self.old.table
            (components name.entry)
            (B.becomes how (map.get self.old.table (components name.entry)))) }
        ensures err { OnErr result (self.new.table ≡ self.old.table) }
        ensures ended { self.new.prepared ≡ None }
        ensures known { IsSome (map.get self.old.table (components name.entry)) → IsOk result }
        ensures promised { self.old.prepared ≡ Some (components name.entry) → IsOk result }
    {
        if self.trie.put_with(name, how)? {
            self.len += 1;
        }
        Ok(())
    }
}

impl<V: Drop> NameMap<V> {
    /// Passes to the visitor `see` the values of the proper prefixes of `name`, the shortest first,
    /// and then the value of `name`. Adds one to `steps` for each search among the children of a
    /// node.
    pub fn see_along<S: See<V>>(&self, name: Name<'_>, steps: &mut u64, see: &mut S)
        requires { steps.old + 64 < 2 ^ 64 }
        ensures seen { see.new ≡ taken_along S.seen S.seen see.old
            (map.get self.now.table) [] (components name.entry) }
        ensures counted { steps.old ≤ steps.new }
        ensures cost { steps.new ≤ steps.old + length (components name.entry) }
        ensures exact { (n : ℕ) × TakesSteps self.now (components name.entry) n
            × (steps.new ≡ steps.old + n) }
    {
        self.trie.see_along(name, steps, see);
    }

    /// Passes all values to the visitor `see`, in the canonical order of their names.
    pub fn see_all<S: See<V>>(&self, see: &mut S)
        ensures { see.new ≡ fold S.seen see.old (map.values self.now.table) }
    {
        self.trie.see_all(see);
    }

    /// Passes to the visitor `show` all names that have a value, in canonical order. Each name is
    /// passed with the state `before`, updated with the values of the name's proper prefixes, the
    /// shortest first, and then with the name's own value. If the result is `Err`, some of the
    /// names may have been passed.
    pub fn show_all<W: Carry<V> + Drop, S: Show<W>>(
        &self,
        before: &W,
        show: &mut S,
    ) -> Result<(), Memory>
        ensures { OnOk result (show.new ≡ shown_known S.shown
            (known_at W.past before.now (map.get self.now.table)) show.old
            (map.entries self.now.table)) }
    {
        self.trie.show_all(before, show)
    }
}

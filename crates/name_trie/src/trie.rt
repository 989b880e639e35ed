ghost use Rattle.std.specs.Prelude.{◌≡◌, ◌+◌, ◌<◌, ◌≤◌, ◌^◌, ℕ, cond, fold, List, [], None, Some, length, IsSome, IsOk, map as list_map, IfOk, OnOk, OnErr, is_none, is_some, option_and_then};
ghost use Rattle.std.specs.Option.{option_map};
ghost use Rattle.std.specs.Ordering.{eq_by_cmp};
ghost use Rattle.std.specs.FinMap as map;
ghost use Rattle.slab.specs.Slab.{get};
ghost use Rattle.ndn_tlv.specs.Element.{Field};
ghost use Rattle.ndn_names.specs.Order.{name_cmp};
ghost use Rattle.ndn_names.specs.View.{components};
ghost use Rattle.name_trie.specs.ByName.{longest as longest_in, revise, with_value};
ghost use Rattle.name_trie.specs.Trie.{value as value_in, walk, lookup, Sound};
ghost use Rattle.name_trie.specs.Changes.{SameLookups, IsBare, IsTidy};
ghost use Rattle.name_trie.specs.Taken.{taken_along};
ghost use Rattle.name_trie.specs.Steps.{TakesSteps};
ghost use Rattle.name_trie.specs.Shown.{known_at, shown_known};

use crate::becomes::{Becomes, put_at};
use crate::change::{Change, change_all, change_at};
use crate::held::{held_node, release};
use crate::listing::list;
use crate::node::{Node, find, longest, make_path, prune, set_value, value_of};
use crate::see::{See, see_all, see_along};
use crate::show::{Carry, Show, show_all};
use ndn_names::{Name, NameBuf};
use ndn_tlv::Memory;
use slab::Slab;
use std::alloc::Global;
use std::marker::Model;

/// A map from names to values.
#[derive(Drop)]
pub struct NameTrie<V> {
    alloc: Global,
    nodes: Slab<Node<V>>,
    root: Option<usize>,
    // The name for which a call is prepared (the reserved name) and the node of this name (the
    // reserved node). The reserved node is not removed.
    held: Option<(NameBuf, usize)>,
}

impl<V> Model for NameTrie<V> {
    ghost use Rattle.std.specs.Prelude.{option_map};
    ghost use Rattle.slab.specs.Slab.{get};
    ghost use Rattle.name_trie.specs.NameTable.{NameTable, name_table_code};
    ghost use Rattle.name_trie.specs.Trie.{table_of, Sound};
    ghost use Rattle.name_trie.specs.Changes.{IsHeld, IsTidy};

    ghost Value = { NameTable V };

    ghost coded = { name_table_code V.code };

    ghost view = { λ m. record {
      table = table_of (get m.nodes) m.root;
      prepared = option_map (λ p. p.0) m.held;
    } };

    ghost invariant = { λ m. Sound (get m.nodes) m.root × IsHeld (get m.nodes) m.root m.held
        × IsTidy (get m.nodes) (option_map (λ p. p.1) m.held) };
}

/// Sets the value of a name. Returns whether the name had no value before.
fn put_value<V: Drop>(
    alloc: Global,
    nodes: &mut Slab<Node<V>>,
    root: &mut Option<usize>,
    name: Name<'_>,
    value: V,
) -> Result<bool, Memory>
    requires { Sound (get nodes.old) root.old }
    ensures sound { Sound (get nodes.new) root.new }
    ensures added { IfOk result (λ is_new. is_new
        ≡ is_none (lookup (get nodes.old) root.old (components name.entry))) }
    ensures ok { OnOk result ((q : List Field) → lookup (get nodes.new) root.new q
        ≡ cond (eq_by_cmp name_cmp q (components name.entry)) (Some value)
        (lookup (get nodes.old) root.old q)) }
    ensures err { OnErr result (SameLookups (get nodes.old) root.old (get nodes.new) root.new) }
    ensures tidy { (j : ℕ) → IsBare (get nodes.new) j → IsBare (get nodes.old) j }
    ensures known { IsSome (walk (get nodes.old) root.old (components name.entry)) → IsOk result }
{
    let k = make_path(alloc, nodes, root, name)?;
    let is_new = value_of(nodes, k).is_none();
    set_value(nodes, k, Some(value));
    Ok(is_new)
}

/// Sets the value of `name` to the value that the rule `how` computes from the old value of `name`,
/// or from `None` if `name` has no value. Returns whether `name` had no value before.
fn put_value_with<V: Drop, B: Becomes<V> + Drop>(
    alloc: Global,
    nodes: &mut Slab<Node<V>>,
    root: &mut Option<usize>,
    name: Name<'_>,
    how: B,
) -> Result<bool, Memory>
    requires { Sound (get nodes.old) root.old }
    ensures sound { Sound (get nodes.new) root.new }
    ensures added { IfOk result (λ is_new. is_new
        ≡ is_none (lookup (get nodes.old) root.old (components name.entry))) }
    ensures ok { OnOk result ((q : List Field) → lookup (get nodes.new) root.new q
        ≡ cond (eq_by_cmp name_cmp q (components name.entry))
        (Some (B.becomes how (lookup (get nodes.old) root.old (components name.entry))))
        (lookup (get nodes.old) root.old q)) }
    ensures err { OnErr result (SameLookups (get nodes.old) root.old (get nodes.new) root.new) }
    ensures tidy { (j : ℕ) → IsBare (get nodes.new) j → IsBare (get nodes.old) j }
    ensures known { IsSome (walk (get nodes.old) root.old (components name.entry)) → IsOk result }
{
    let k = make_path(alloc, nodes, root, name)?;
    Ok(put_at(nodes, k, how))
}

impl<V: Drop> NameTrie<V> {
    pub fn new(alloc: Global) -> NameTrie<V>
        ensures table { result.table ≡ map.empty }
        ensures prepared { result.prepared ≡ None }
    {
        NameTrie {
            alloc,
            nodes: Slab::new(alloc),
            root: None,
            held: None,
        }
    }

    /// Returns the value of a name, or `None` if the name has no value.
    pub fn get(&self, name: Name<'_>) -> Option<&V>
        ensures { option_map (λ v. v.now) result ≡ map.get self.now.table (components name.entry) }
    {
        let k = find(&self.nodes, self.root, name)?;
        value_of(&self.nodes, k)
    }

    /// Returns all names with their values, in canonical order.
    pub fn list(&self, alloc: Global) -> Result<Vec<(NameBuf, &V)>, Memory>
        ensures { IfOk result (λ list. list_map (λ r. (r.0, r.1.now)) list.items
            ≡ map.entries self.now.table) }
    {
        list(alloc, &self.nodes, self.root)
    }

    /// Returns the value of the longest prefix of `name` that has a value, or `None` if no prefix
    /// has a value. `name` counts as a prefix of itself.
    pub fn longest(&self, name: Name<'_>) -> Option<&V>
        ensures { option_map (λ v. v.now) result
            ≡ longest_in self.now.table (components name.entry) }
    {
        longest(&self.nodes, self.root, name)
    }

    /// Sets the value of a name. Returns whether the name had no value before. Each call of `put`,
    /// even a call that fails, ends the preparation that `prepare` made. Returns `Memory` only for
    /// a name that has no value and is not prepared. If the result is `Memory`, the values are
    /// unchanged.
    pub fn put(&mut self, name: Name<'_>, value: V) -> Result<bool, Memory>
        ensures added { IfOk result (λ is_new. is_new
            ≡ is_none (map.get self.old.table (components name.entry))) }
        ensures ok { OnOk result
            (self.new.table ≡ map.insert self.old.table (components name.entry) value) }
        ensures err { OnErr result (self.new.table ≡ self.old.table) }
        ensures ended { self.new.prepared ≡ None }
        ensures known { IsSome (map.get self.old.table (components name.entry)) → IsOk result }
        ensures promised { self.old.prepared ≡ Some (components name.entry) → IsOk result }
    {
        let held = self.held.take();
        let result = put_value(self.alloc, &mut self.nodes, &mut self.root, name, value);
        release(&mut self.nodes, &mut self.root, held, None);
        result
    }

    /// Prepares one `put` or `put_with` of `name`, so that this `put` or `put_with` cannot run out
    /// of memory.
    pub fn prepare(&mut self, name: Name<'_>) -> Result<(), Memory>
        ensures table { self.new.table ≡ self.old.table }
        ensures ok { OnOk result (self.new.prepared ≡ Some (components name.entry)) }
        ensures err { OnErr result (self.new.prepared ≡ None) }
    {
        self.forget_prepared();
        let key = NameBuf::from_name(self.alloc, name)?;
        let k = make_path(self.alloc, &mut self.nodes, &mut self.root, name)?;
        self.held = Some((key, k));
        Ok(())
    }

    /// Ends the preparation, if a call is prepared.
    pub fn forget_prepared(&mut self)
        ensures table { self.new.table ≡ self.old.table }
        ensures prepared { self.new.prepared ≡ None }
    {
        let held = self.held.take();
        release(&mut self.nodes, &mut self.root, held, None);
    }

    /// Removes the value of a name. Returns whether the name had a value.
    pub fn remove(&mut self, name: Name<'_>) -> bool
        ensures removed { result ≡ is_some (map.get self.old.table (components name.entry)) }
        ensures table { self.new.table ≡ map.remove self.old.table (components name.entry) }
        ensures prepared { self.new.prepared ≡ self.old.prepared }
    {
        if let Some(k) = find(&self.nodes, self.root, name) {
            let kept = held_node(&self.held);
            let had_value = value_of(&self.nodes, k).is_some();
            set_value(&mut self.nodes, k, None);
            prune(&mut self.nodes, &mut self.root, k, kept);
            had_value
        } else {
            false
        }
    }
}

impl<V: Drop> NameTrie<V> {
    /// Changes or removes the value of `name`, if this name has a value, as the rule `how` says.
    /// Returns whether the value was removed.
    pub fn change<C: Change<V>>(&mut self, name: Name<'_>, how: &C) -> bool
        ensures table { self.new.table ≡ with_value self.old.table (components name.entry)
            (option_and_then (C.change how.now) (map.get self.old.table (components name.entry))) }
        ensures prepared { self.new.prepared ≡ self.old.prepared }
        ensures count { map.len self.new.table + cond result 1 0 ≡ map.len self.old.table }
    {
        let Some(k) = find(&self.nodes, self.root, name) else {
            return false;
        };
        let kept = held_node(&self.held);
        let went = change_at(&mut self.nodes, k, how);
        prune(&mut self.nodes, &mut self.root, k, kept);
        went
    }

    /// Changes or removes each value, as the rule `how` says. Returns the number of removed values.
    pub fn change_all<C: Change<V>>(&mut self, how: &C) -> usize
        ensures table { self.new.table ≡ revise (C.change how.now) self.old.table }
        ensures prepared { self.new.prepared ≡ self.old.prepared }
        ensures count { map.len self.new.table + result ≡ map.len self.old.table }
    {
        let kept = held_node(&self.held);
        change_all(&mut self.nodes, &mut self.root, kept, how)
    }

    /// Sets the value of `name` to the value that the rule `how` computes from the old value of
    /// `name`, or from `None` if `name` has no value. Returns whether `name` had no value before.
    pub fn put_with<B: Becomes<V> + Drop>(&mut self, name: Name<'_>, how: B) -> Result<bool, Memory>
        ensures added { IfOk result (λ is_new. is_new
            ≡ is_none (map.get self.old.table (components name.entry))) }
        ensures ok { OnOk result (self.new.table ≡ map.insert self.old.table
            (components name.entry)
            (B.becomes how (map.get self.old.table (components name.entry)))) }
        ensures err { OnErr result (self.new.table ≡ self.old.table) }
        ensures ended { self.new.prepared ≡ None }
        ensures known { IsSome (map.get self.old.table (components name.entry)) → IsOk result }
        ensures promised { self.old.prepared ≡ Some (components name.entry) → IsOk result }
    {
        let held = self.held.take();
        let result = put_value_with(self.alloc, &mut self.nodes, &mut self.root, name, how);
        release(&mut self.nodes, &mut self.root, held, None);
        result
    }
}

impl<V: Drop> NameTrie<V> {
    /// Passes to the visitor `see` the values of the proper prefixes of `name`, the shortest first,
    /// and then the value of `name`. Adds one to `steps` for each search among the children of a
    /// node.
    pub fn see_along<S: See<V>>(&self, name: Name<'_>, steps: &mut u64, see: &mut S)
        requires { steps.old + 64 < 2 ^ 64 }
        ensures seen { see.new ≡ taken_along S.seen S.seen see.old
            (map.get self.now.table) [] (components name.entry) }
        ensures counted { steps.old ≤ steps.new }
        ensures cost { steps.new ≤ steps.old + length (components name.entry) }
        ensures exact { (n : ℕ) × TakesSteps self.now (components name.entry) n
            × (steps.new ≡ steps.old + n) }
    {
        see_along(&self.nodes, self.root, name, steps, see);
    }

    /// Passes all values to the visitor `see`, in the canonical order of their names.
    pub fn see_all<S: See<V>>(&self, see: &mut S)
        ensures { see.new ≡ fold S.seen see.old (map.values self.now.table) }
    {
        see_all(&self.nodes, self.root, see);
    }

    /// Passes to the visitor `show` all names that have a value, in canonical order. Each name is
    /// passed with the state `before`, updated with the values of the name's proper prefixes, the
    /// shortest first, and then with the name's own value.
    pub fn show_all<W: Carry<V> + Drop, S: Show<W>>(
        &self,
        before: &W,
        show: &mut S,
    ) -> Result<(), Memory>
        ensures { OnOk result (show.new ≡ shown_known S.shown
            (known_at W.past before.now (map.get self.now.table)) show.old
            (map.entries self.now.table)) }
    {
        show_all(self.alloc, &self.nodes, self.root, before, show)
    }
}

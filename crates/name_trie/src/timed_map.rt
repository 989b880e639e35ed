ghost use Rattle.std.specs.Prelude.{◌≡◌, ◌<◌, ◌≤◌, ℕ, Bool, List, [], ◌∷◌, ◌++◌, true, false, None, Some, IsSome, IsOk, OnOk, OnErr, option_and_then};
ghost use Rattle.std.specs.Option.{option_map};
ghost use Rattle.std.specs.FinMap as map;
ghost use Rattle.ndn_tlv.specs.Element.{Field};
ghost use Rattle.ndn_names.specs.View.{components, field_of};
ghost use Rattle.name_trie.specs.ByName.{revise, with_value};
ghost use Rattle.name_trie.specs.Flat.{total};
ghost use Rattle.name_trie.specs.Taken.{taken, taken_along, changed_along};
ghost use Rattle.name_trie.specs.Timed.{LeavesFewer};

use crate::becomes::Becomes;
use crate::change::Change;
use crate::held::{held_node, hold, node_held, node_of, place_for, release, release_other};
use crate::look::{Look, look_along};
use crate::node::{Node, child_of, find, has_child_up_to, prune, value_of};
use crate::take::{Take, take_along, take_at};
use crate::tally::Tally;
use crate::timed::{Timed, change_all_timed, change_timed, expire, replace_at};
use ndn_names::{Component, Name, NameBuf};
use ndn_tlv::Memory;
use slab::Slab;
use std::alloc::Global;
use std::marker::Model;
use timers::Timers;

/// A map from names to values with deadlines, and a tally of the values.
#[derive(Drop)]
pub struct TimedMap<V: Timed, S: Tally<V>> {
    alloc: Global,
    nodes: Slab<Node<V>>,
    root: Option<usize>,
    // The reserved name and the node of this name. The name for which a call was last prepared
    // stays reserved until the next `prepare`, or until a `put_with` of another name. The reserved
    // node is not removed. `get`, `change` and `put_with` of the reserved name find this node
    // without a walk.
    held: Option<(NameBuf, usize)>,
    // Whether a call is prepared. Each `put_with`, of any name, ends the preparation.
    is_ready: bool,
    // The timers, one for each value. While a call is prepared, memory is reserved for one more
    // timer.
    timers: Timers,
    // The sums over all values.
    tally: S,
}

impl<V: Timed, S: Tally<V>> Model for TimedMap<V, S> {
    ghost use Rattle.std.specs.Prelude.{option_map, cond, None};
    ghost use Rattle.slab.specs.Slab.{get};
    ghost use Rattle.name_trie.specs.NameTable.{NameTable, name_table_code};
    ghost use Rattle.name_trie.specs.Trie.{table_of, Sound};
    ghost use Rattle.name_trie.specs.Changes.{IsHeld, IsTidy};
    ghost use Rattle.name_trie.specs.Timed.{IsTimed, HasTimerRoom, IsCounted};

    ghost Value = { NameTable V };

    ghost coded = { name_table_code V.code };

    ghost view = { λ m. record {
      table = table_of (get m.nodes) m.root;
      prepared = cond m.is_ready (option_map (λ p. p.0) m.held) None;
    } };

    ghost invariant = { λ m. Sound (get m.nodes) m.root × IsHeld (get m.nodes) m.root m.held
        × IsTidy (get m.nodes) (option_map (λ p. p.1) m.held)
        × IsTimed V.timer (get m.nodes) m.timers.timers
        × HasTimerRoom m.is_ready m.timers
        × IsCounted S.counts (get m.nodes) m.root (S.sum m.tally) };
}

impl<V: Timed + Drop, S: Tally<V>> TimedMap<V, S> {
    pub fn new(alloc: Global) -> TimedMap<V, S>
        ensures table { result.table ≡ map.empty }
        ensures prepared { result.prepared ≡ None }
    {
        TimedMap {
            alloc,
            nodes: Slab::new(alloc),
            root: None,
            held: None,
            is_ready: false,
            timers: Timers::new(alloc),
            tally: S::new(),
        }
    }

    /// Returns the sums over all values.
    pub fn tally(&self) -> &S
        ensures { (i : S.Index) → S.sum result.now i
            ≡ total (S.counts i) (map.entries self.now.table) }
    {
        &self.tally
    }

    /// Returns the value of a name, or `None` if the name has no value.
    pub fn get(&self, name: Name<'_>) -> Option<&V>
        ensures { option_map (λ v. v.now) result ≡ map.get self.now.table (components name.entry) }
    {
        let k = node_of(&self.nodes, self.root, &self.held, name)?;
        value_of(&self.nodes, k)
    }

    /// Returns the value of the name that extends `name` by `component`, or `None` if that name has
    /// no value.
    pub fn get_below(&self, name: Name<'_>, component: Component<'_>) -> Option<&V>
        ensures { option_map (λ v. v.now) result ≡ map.get self.now.table
            (components name.entry ++ field_of component.entry ∷ []) }
    {
        let at = find(&self.nodes, self.root, name)?;
        let k = child_of(&self.nodes, at, component)?;
        value_of(&self.nodes, k)
    }

    /// Returns whether some extension of `name` by one component with a type number of at most
    /// `kind` may have a value. If the result is false, no such extension has a value.
    pub fn has_below(&self, name: Name<'_>, kind: u16) -> bool
        ensures { result ≡ false → (c : Field) → c.0 ≤ kind
            → map.get self.now.table (components name.entry ++ c ∷ []) ≡ None }
    {
        match find(&self.nodes, self.root, name) {
            Some(at) => has_child_up_to(&self.nodes, at, kind),
            None => false,
        }
    }

    /// Lets the visitor `look` look at the values of the proper prefixes of `name`, the shortest
    /// first, and then at the value of `name`, all in one walk.
    pub fn look_along<'a, L: Look<'a, V>>(&'a self, name: Name<'_>, look: &mut L)
        ensures { look.new ≡ taken_along (L.seen true) (L.seen false) look.old
            (map.get self.now.table) [] (components name.entry) }
    {
        look_along(&self.nodes, self.root, name, look);
    }

    /// Sets the value of `name` to the value that the rule `how` computes from the old value of
    /// `name`, or from `None` if `name` has no value. The sums over all values must then fit.
    pub fn put_with<B: Becomes<V> + Drop>(&mut self, name: Name<'_>, how: B) -> Result<(), Memory>
        requires { S.Fits (λ i. total (S.counts i) (map.entries (map.insert self.old.table
            (components name)
            (B.becomes how (map.get self.old.table (components name)))))) }
        ensures ok { OnOk result (self.new.table ≡ map.insert self.old.table
            (components name.entry)
            (B.becomes how (map.get self.old.table (components name.entry)))) }
        ensures err { OnErr result (self.new.table ≡ self.old.table) }
        ensures ended { self.new.prepared ≡ None }
        ensures known { IsSome (map.get self.old.table (components name.entry)) → IsOk result }
        ensures promised { self.old.prepared ≡ Some (components name.entry) → IsOk result }
    {
        let held = self.held.take();
        self.held = release_other(&mut self.nodes, &mut self.root, held, name);
        self.is_ready = false;
        let k = place_for(
            self.alloc,
            &mut self.nodes,
            &mut self.root,
            &mut self.timers,
            &self.held,
            name,
        )?;
        replace_at(&mut self.nodes, &mut self.timers, &mut self.tally, k, how);
        Ok(())
    }

    /// Prepares one `put_with` of `name`, so that this `put_with` cannot run out of memory.
    pub fn prepare(&mut self, name: Name<'_>) -> Result<(), Memory>
        ensures table { self.new.table ≡ self.old.table }
        ensures ok { OnOk result (self.new.prepared ≡ Some (components name.entry)) }
        ensures err { OnErr result (self.new.prepared ≡ None) }
    {
        let old = self.held.take();
        self.is_ready = false;
        let held = hold(
            self.alloc,
            &mut self.nodes,
            &mut self.root,
            &mut self.timers,
            name,
        );
        let kept = node_held(&held);
        release(&mut self.nodes, &mut self.root, old, kept);
        self.held = Some(held?);
        self.is_ready = true;
        Ok(())
    }

    /// Changes or removes every value whose deadline is `now` or earlier, as the rule `how` says.
    /// `how` must keep all other values unchanged, and must not raise what a value counts. Each
    /// value that `how` returns must have a deadline later than `now`.
    pub fn expire<C: Change<V>>(&mut self, now: u64, how: &C)
        requires fewer { LeavesFewer S.counts (C.change how.now) }
        requires idle { (v : V) → now < V.timer v → C.change how.now v ≡ Some v }
        requires later { (v w : V) → C.change how.now v ≡ Some w → now < V.timer w }
        ensures table { self.new.table ≡ revise (C.change how.now) self.old.table }
        ensures prepared { self.new.prepared ≡ self.old.prepared }
    {
        let kept = held_node(&self.held);
        expire(
            &mut self.nodes,
            &mut self.root,
            &mut self.timers,
            &mut self.tally,
            kept,
            now,
            how,
        );
    }

    /// Changes or removes each value, as the rule `how` says. `how` must not raise what a value
    /// counts.
    pub fn change_all<C: Change<V>>(&mut self, how: &C)
        requires { LeavesFewer S.counts (C.change how.now) }
        ensures table { self.new.table ≡ revise (C.change how.now) self.old.table }
        ensures prepared { self.new.prepared ≡ self.old.prepared }
    {
        let kept = held_node(&self.held);
        change_all_timed(
            &mut self.nodes,
            &mut self.root,
            &mut self.timers,
            &mut self.tally,
            kept,
            how,
        );
    }

    /// Changes or removes the value of `name`, if this name has a value, as the rule `how` says.
    /// `how` must not raise what a value counts.
    pub fn change<C: Change<V>>(&mut self, name: Name<'_>, how: &C)
        requires { LeavesFewer S.counts (C.change how.now) }
        ensures table { self.new.table ≡ with_value self.old.table (components name.entry)
            (option_and_then (C.change how.now) (map.get self.old.table (components name.entry))) }
        ensures prepared { self.new.prepared ≡ self.old.prepared }
    {
        let Some(k) = node_of(&self.nodes, self.root, &self.held, name) else {
            return;
        };
        let kept = held_node(&self.held);
        change_timed(&mut self.nodes, &mut self.timers, &mut self.tally, k, how);
        prune(&mut self.nodes, &mut self.root, k, kept);
    }

    /// Lets the visitor `how` change or remove the values of the proper prefixes of `name`, the
    /// shortest first, and then the value of `name`, all in one walk. Returns whether some
    /// extension of `name` by one component with a type number of at most `kind` may have a value.
    /// If the result is false, no such extension has a value. `how` must not raise what a value
    /// counts.
    pub fn take_along<T: Take<V>>(&mut self, name: Name<'_>, kind: u16, how: &mut T) -> bool
        requires { (is_own : Bool) → LeavesFewer S.counts (T.left is_own) }
        ensures changed { (q : List Field) → map.get self.new.table q ≡ option_and_then
            (changed_along (T.left true) (T.left false) q (components name.entry))
            (map.get self.old.table q) }
        ensures taken { how.new ≡ taken_along (T.taken true) (T.taken false) how.old
            (map.get self.old.table) [] (components name.entry) }
        ensures below { result ≡ false → (c : Field) → c.0 ≤ kind
            → map.get self.new.table (components name.entry ++ c ∷ []) ≡ None }
        ensures prepared { self.new.prepared ≡ self.old.prepared }
    {
        let Some(end) = take_along(
            &mut self.nodes,
            self.root,
            &mut self.timers,
            &mut self.tally,
            name,
            how,
        ) else {
            return false;
        };
        let below = end.is_whole && has_child_up_to(&self.nodes, end.at, kind);
        let kept = held_node(&self.held);
        prune(&mut self.nodes, &mut self.root, end.at, kept);
        below
    }

    /// Lets the visitor `how` change or remove the value of the name that extends `name` by
    /// `component`. The visitor is called with `is_own` set to true, and must not raise what a
    /// value counts.
    pub fn take_below<T: Take<V>>(&mut self, name: Name<'_>, component: Component<'_>, how: &mut T)
        requires { LeavesFewer S.counts (T.left true) }
        ensures table { self.new.table ≡ with_value self.old.table
            (components name.entry ++ field_of component.entry ∷ [])
            (option_and_then (T.left true) (map.get self.old.table
            (components name.entry ++ field_of component.entry ∷ []))) }
        ensures taken { how.new ≡ taken (T.taken true) how.old (map.get self.old.table
            (components name.entry ++ field_of component.entry ∷ [])) }
        ensures prepared { self.new.prepared ≡ self.old.prepared }
    {
        let Some(at) = find(&self.nodes, self.root, name) else {
            return;
        };
        let Some(k) = child_of(&self.nodes, at, component) else {
            return;
        };
        let kept = held_node(&self.held);
        take_at(
            &mut self.nodes,
            &mut self.timers,
            &mut self.tally,
            k,
            true,
            how,
        );
        prune(&mut self.nodes, &mut self.root, k, kept);
    }
}

ghost use Rattle.std.specs.Prelude.{◌≡◌, ◌+◌, ◌⊎◌, ℕ, List, Option, None, Some, IsSome, cond, option_and_then, is_some, is_none, ◌&&◌};
ghost use Rattle.std.specs.FinMap as map;
ghost use Rattle.std.specs.Ordering.{eq_by_cmp};
ghost use Rattle.ndn_tlv.specs.Element.{Field};
ghost use Rattle.ndn_names.specs.Order.{name_cmp};
ghost use Rattle.ndn_names.specs.View.{components};
ghost use Rattle.slab.specs.Slab.{get, SameValues};
ghost use Rattle.name_trie.specs.Trie.{value as value_in, walk, lookup, table_of, Sound};
ghost use Rattle.name_trie.specs.Changes.{Sets, Turns, SameLookups, IsBare, IsTidy};

use crate::node::{Node, prune, set_value};
use ndn_names::Name;
use slab::Slab;

/// A rule that changes or removes a value.
pub trait Change<V> {
    ghost change: { Self → V → Option V };

    fn apply(&self, value: V) -> Option<V>
        ensures { result ≡ change self.now value };
}

/// Removes and returns the value of node `k`. Returns `None` if the node has no value.
pub fn take_value<V>(nodes: &mut Slab<Node<V>>, k: usize) -> Option<V>
    ensures old { result ≡ value_in (get nodes.old) k }
    ensures sets { IsSome result → Sets k None (get nodes.old) (get nodes.new) }
    ensures same { result ≡ None → SameValues nodes.old nodes.new }
{
    nodes.get_mut(k)?.value.take()
}

/// Changes or removes the value of node `k`, if the node has a value, as the rule `how` says.
/// Returns whether the value was removed.
pub fn change_at<V: Drop, C: Change<V>>(nodes: &mut Slab<Node<V>>, k: usize, how: &C) -> bool
    ensures turns { Turns k (option_and_then (C.change how.now) (value_in (get nodes.old) k))
        (get nodes.old) (get nodes.new) }
    ensures went { result ≡ (is_some (value_in (get nodes.old) k)
        && is_none (option_and_then (C.change how.now) (value_in (get nodes.old) k))) }
{
    let Some(value) = take_value(nodes, k) else {
        return false;
    };
    let Some(changed) = how.apply(value) else {
        return true;
    };
    set_value(nodes, k, Some(changed));
    false
}

/// Removes each node that has neither a value nor children. Also removes each ancestor that has no
/// value and loses all its children in this way. Never removes the node `kept`.
pub fn prune_all<V: Drop>(nodes: &mut Slab<Node<V>>, root: &mut Option<usize>, kept: Option<usize>)
    requires { Sound (get nodes.old) root.old }
    ensures sound { Sound (get nodes.new) root.new }
    ensures same { SameLookups (get nodes.old) root.old (get nodes.new) root.new }
    ensures kept { (q : List Field) → IsSome kept → walk (get nodes.old) root.old q ≡ kept
        → walk (get nodes.new) root.new q ≡ kept }
    ensures tidy { IsTidy (get nodes.new) kept }
    ensures values { (j : ℕ) → value_in (get nodes.new) j ≡ value_in (get nodes.old) j }
{
    for k in 0..nodes.capacity() {
        prune(nodes, root, k, kept);
    }
}

/// Changes or removes each value, as the rule `how` says. Returns the number of removed values.
pub fn change_all<V: Drop, C: Change<V>>(
    nodes: &mut Slab<Node<V>>,
    root: &mut Option<usize>,
    kept: Option<usize>,
    how: &C,
) -> usize
    requires { Sound (get nodes.old) root.old }
    ensures sound { Sound (get nodes.new) root.new }
    ensures changed { (q : List Field) → lookup (get nodes.new) root.new q
        ≡ option_and_then (C.change how.now) (lookup (get nodes.old) root.old q) }
    ensures kept { (q : List Field) → IsSome kept → walk (get nodes.old) root.old q ≡ kept
        → walk (get nodes.new) root.new q ≡ kept }
    ensures count { map.len (table_of (get nodes.new) root.new) + result
        ≡ map.len (table_of (get nodes.old) root.old) }
    ensures tidy { IsTidy (get nodes.new) kept }
{
    let mut gone = 0;
    for k in 0..nodes.capacity() {
        gone += usize::from(change_at(nodes, k, how));
    }
    prune_all(nodes, root, kept);
    gone
}

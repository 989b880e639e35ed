ghost use Rattle.std.specs.Prelude.{◌≡◌, ◌⊎◌, ◌≤◌, ℕ, Bool, true, false, List, [], Option, None, Some, IsTrue, IfSome, MatchOption};
ghost use Rattle.std.specs.Option.{option_map, option_and_then};
ghost use Rattle.std.specs.FinSet as set;
ghost use Rattle.slab.specs.Slab.{get, SameValues};
ghost use Rattle.ndn_tlv.specs.Element.{Field};
ghost use Rattle.ndn_names.specs.View.{components};
ghost use Rattle.name_trie.specs.Trie.{value as value_in, walk, lookup, Sound};
ghost use Rattle.name_trie.specs.Changes.{Turns, IsBare};
ghost use Rattle.name_trie.specs.Timed.{IsTimed, HasCounts, IsCounted, LeavesFewer, Recounts};
ghost use Rattle.name_trie.specs.Taken.{taken, taken_along, changed_along};

use crate::change::take_value;
use crate::node::{Node, child_of, set_value, value_of};
use crate::tally::{Tally, lower_at, raise_at};
use crate::timed::{Timed, retime, timer_at};
use ndn_names::Name;
use slab::Slab;
use timers::Timers;

/// A visitor that changes or removes the values of a name and of the name's prefixes.
pub trait Take<V> {
    /// The visitor after it has visited a value. The Boolean is `true` for the value of the name
    /// itself.
    ghost taken: { Bool → Self → V → Self };

    /// The value after the visit, or `None` if the visit removes the value. The Boolean is `true`
    /// for the value of the name itself.
    ghost left: { Bool → V → Option V };

    /// Visits a value. `is_own` is true for the value of the name itself, and false for the value
    /// of a proper prefix. Returns the value after the visit, or `None` to remove the value.
    fn take(&mut self, value: V, is_own: bool) -> Option<V>
        ensures taken { self.new ≡ taken is_own self.old value }
        ensures left { result ≡ left is_own value };
}

/// Lets the visitor `how` change or remove the value of node `k`, if the node has a value.
fn take_from<V: Drop, T: Take<V>>(nodes: &mut Slab<Node<V>>, k: usize, is_own: bool, how: &mut T)
    ensures turns { Turns k (option_and_then (T.left is_own) (value_in (get nodes.old) k))
        (get nodes.old) (get nodes.new) }
    ensures taken { how.new ≡ taken (T.taken is_own) how.old (value_in (get nodes.old) k) }
{
    let Some(value) = take_value(nodes, k) else {
        return;
    };
    let Some(left) = how.take(value, is_own) else {
        return;
    };
    set_value(nodes, k, Some(left));
}

/// Lets the visitor `how` change or remove the value of node `k`, if the node has a value. Updates
/// the timer of this node and the tally. `how` must not raise what a value counts.
pub fn take_at<V: Timed + Drop, S: Tally<V>, T: Take<V>>(
    nodes: &mut Slab<Node<V>>,
    timers: &mut Timers,
    tally: &mut S,
    k: usize,
    is_own: bool,
    how: &mut T,
)
    requires timed { IsTimed V.timer (get nodes.old) timers.old.timers }
    requires has { HasCounts S.counts (get nodes.old) k (S.sum tally.old) }
    requires fewer { LeavesFewer S.counts (T.left is_own) }
    ensures turns { Turns k (option_and_then (T.left is_own) (value_in (get nodes.old) k))
        (get nodes.old) (get nodes.new) }
    ensures taken { how.new ≡ taken (T.taken is_own) how.old (value_in (get nodes.old) k) }
    ensures timed { IsTimed V.timer (get nodes.new) timers.new.timers }
    ensures counted { Recounts S.counts (get nodes.old) (get nodes.new) k
        (S.sum tally.old) (S.sum tally.new) }
    ensures few { set.len timers.new.timers ≤ set.len timers.old.timers }
    ensures capacity { timers.old.capacity ≤ timers.new.capacity }
{
    if value_of(nodes, k).is_none() {
        return;
    }
    tally.stands();
    let old = timer_at(nodes, k);
    lower_at(nodes, tally, k);
    take_from(nodes, k, is_own, how);
    raise_at(nodes, tally, k);
    let new = timer_at(nodes, k);
    retime(timers, k, old, new);
}

/// The last node on the walk along a name, and whether this node is the node of the whole name.
#[derive(Clone, Copy)]
pub struct End {
    pub at: usize,
    pub is_whole: bool,
}

/// Lets the visitor `how` change or remove the values of the proper prefixes of `name`, the
/// shortest first, and then the value of `name`. Returns the end of the walk, or `None` if there is
/// no root. No node is removed, even if the node loses its value. `how` must not raise what a value
/// counts.
pub fn take_along<V: Timed + Drop, S: Tally<V>, T: Take<V>>(
    nodes: &mut Slab<Node<V>>,
    root: Option<usize>,
    timers: &mut Timers,
    tally: &mut S,
    name: Name<'_>,
    how: &mut T,
) -> Option<End>
    requires sound { Sound (get nodes.old) root }
    requires timed { IsTimed V.timer (get nodes.old) timers.old.timers }
    requires counted { IsCounted S.counts (get nodes.old) root (S.sum tally.old) }
    requires fewer { (is_own : Bool) → LeavesFewer S.counts (T.left is_own) }
    ensures sound { Sound (get nodes.new) root }
    ensures timed { IsTimed V.timer (get nodes.new) timers.new.timers }
    ensures counted { IsCounted S.counts (get nodes.new) root (S.sum tally.new) }
    ensures changed { (q : List Field) → lookup (get nodes.new) root q ≡ option_and_then
        (changed_along (T.left true) (T.left false) q (components name.entry))
        (lookup (get nodes.old) root q) }
    ensures taken { how.new ≡ taken_along (T.taken true) (T.taken false) how.old
        (lookup (get nodes.old) root) [] (components name.entry) }
    ensures walks { (q : List Field) → walk (get nodes.new) root q ≡ walk (get nodes.old) root q }
    ensures tidy { (j : ℕ) → IsBare (get nodes.new) j
        → IsBare (get nodes.old) j ⊎ (option_map (λ end. end.at) result ≡ Some j) }
    ensures whole { IfSome result (λ end. IsTrue end.is_whole
        → walk (get nodes.new) root (components name.entry) ≡ Some end.at) }
    ensures short { MatchOption result
        (walk (get nodes.new) root (components name.entry) ≡ None)
        (λ end. end.is_whole ≡ false
        → walk (get nodes.new) root (components name.entry) ≡ None) }
    ensures few { set.len timers.new.timers ≤ set.len timers.old.timers }
    ensures capacity { timers.old.capacity ≤ timers.new.capacity }
{
    let mut end = None;
    let mut next = root;
    let mut rest = name.iter();
    while let Some(at) = next {
        let Some(component) = rest.next() else {
            take_at(nodes, timers, tally, at, true, how);
            return Some(End { at, is_whole: true });
        };
        take_at(nodes, timers, tally, at, false, how);
        end = Some(End {
            at,
            is_whole: false,
        });
        next = child_of(nodes, at, component);
    }
    end
}

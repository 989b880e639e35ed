ghost use Rattle.std.specs.Prelude.{◌≡◌, ◌+◌, ◌<◌, ◌≤◌, ℕ, List, None, Some, IsSome, IsOk, OnOk, OnErr, cond, true};
ghost use Rattle.std.specs.Option.{option_map, option_and_then};
ghost use Rattle.std.specs.FinSet as set;
ghost use Rattle.slab.specs.Slab.{get};
ghost use Rattle.ndn_tlv.specs.Element.{Field};
ghost use Rattle.name_trie.specs.Trie.{value as value_in, walk, lookup, table_of, Sound};
ghost use Rattle.name_trie.specs.Changes.{Turns, Sets, SameLookups, IsBare, IsTidy};
ghost use Rattle.name_trie.specs.Timed.{timer_at as timer_in, timer_for, stopped, started, IsTimed, size_at as size_in, HasCounts, Recounts, IsCounted, LeavesFewer};

use crate::becomes::Becomes;
use crate::change::{Change, change_at, prune_all, take_value};
use crate::node::{Node, prune, set_value, value_of};
use crate::tally::{Tally, lower_at, raise_at};
use slab::Slab;
use timers::{Timer, Timers};

/// A value with a deadline.
pub trait Timed {
    ghost timer: { Self → ℕ };

    fn timer(&self) -> u64
        ensures { result ≡ timer self.now };
}

/// Returns the deadline of a node's value, or `None` if the node has no value.
pub fn timer_at<V: Timed>(nodes: &Slab<Node<V>>, k: usize) -> Option<u64>
    ensures { result ≡ timer_in V.timer (get nodes.now) k }
{
    let value = value_of(nodes, k)?;
    Some(value.timer())
}

/// Removes the timer of node `key`. `old` is the deadline of this timer, or `None` if there is no
/// timer.
fn stop(timers: &mut Timers, key: usize, old: Option<u64>)
    ensures timers { timers.new.timers ≡ stopped key old timers.old.timers }
    ensures room { (d : ℕ) → old ≡ Some d
        → set.contains timers.old.timers (timer_for key d) ≡ true
        → set.len timers.new.timers < timers.new.capacity }
    ensures few { set.len timers.new.timers ≤ set.len timers.old.timers }
    ensures capacity { timers.new.capacity ≡ timers.old.capacity }
{
    if let Some(deadline) = old {
        timers.remove(Timer { deadline, key });
    }
}

/// Inserts a timer for node `key` with the deadline `new`, or no timer if `new` is `None`. Memory
/// for this timer must be reserved.
fn start(timers: &mut Timers, key: usize, new: Option<u64>)
    requires { IsSome new → set.len timers.old.timers < timers.old.capacity }
    ensures timers { timers.new.timers ≡ started key new timers.old.timers }
    ensures capacity { timers.old.capacity ≤ timers.new.capacity }
{
    if let Some(deadline) = new {
        timers.insert(Timer { deadline, key }).unwrap_or(());
    }
}

/// Changes the deadline of the timer of node `key` from `old` to `new`. `None` means that there is
/// no timer. If `old` is `None`, `new` must be `None` too.
pub fn retime(timers: &mut Timers, key: usize, old: Option<u64>, new: Option<u64>)
    requires had { IsSome new → IsSome old }
    requires there { (d : ℕ) → old ≡ Some d
        → set.contains timers.old.timers (timer_for key d) ≡ true }
    ensures timers { timers.new.timers ≡ started key new (stopped key old timers.old.timers) }
    ensures few { set.len timers.new.timers ≤ set.len timers.old.timers }
    ensures capacity { timers.old.capacity ≤ timers.new.capacity }
{
    if old == new {
        return;
    }
    stop(timers, key, old);
    start(timers, key, new);
}

/// Changes or removes the value of node `k`, if the node has a value, as the rule `how` says.
/// Updates the timer of this node and the tally. `how` must not raise what a value counts.
pub fn change_timed<V: Timed + Drop, S: Tally<V>, C: Change<V>>(
    nodes: &mut Slab<Node<V>>,
    timers: &mut Timers,
    tally: &mut S,
    k: usize,
    how: &C,
)
    requires timed { IsTimed V.timer (get nodes.old) timers.old.timers }
    requires has { HasCounts S.counts (get nodes.old) k (S.sum tally.old) }
    requires fewer { LeavesFewer S.counts (C.change how.now) }
    ensures turns { Turns k (option_and_then (C.change how.now) (value_in (get nodes.old) k))
        (get nodes.old) (get nodes.new) }
    ensures timed { IsTimed V.timer (get nodes.new) timers.new.timers }
    ensures counted { Recounts S.counts (get nodes.old) (get nodes.new) k
        (S.sum tally.old) (S.sum tally.new) }
    ensures timers { timers.new.timers ≡ started k (timer_in V.timer (get nodes.new) k)
        (stopped k (timer_in V.timer (get nodes.old) k) timers.old.timers) }
    ensures few { set.len timers.new.timers ≤ set.len timers.old.timers }
    ensures capacity { timers.old.capacity ≤ timers.new.capacity }
{
    tally.stands();
    let old = timer_at(nodes, k);
    lower_at(nodes, tally, k);
    change_at(nodes, k, how);
    raise_at(nodes, tally, k);
    let new = timer_at(nodes, k);
    retime(timers, k, old, new);
}

/// Changes or removes every value whose deadline is `now` or earlier, as the rule `how` says. `how`
/// must keep all other values unchanged, and must not raise what a value counts. Each value that
/// `how` returns must have a deadline later than `now`.
pub fn expire<V: Timed + Drop, S: Tally<V>, C: Change<V>>(
    nodes: &mut Slab<Node<V>>,
    root: &mut Option<usize>,
    timers: &mut Timers,
    tally: &mut S,
    kept: Option<usize>,
    now: u64,
    how: &C,
)
    requires sound { Sound (get nodes.old) root.old }
    requires timed { IsTimed V.timer (get nodes.old) timers.old.timers }
    requires counted { IsCounted S.counts (get nodes.old) root.old (S.sum tally.old) }
    requires fewer { LeavesFewer S.counts (C.change how.now) }
    requires tidy { IsTidy (get nodes.old) kept }
    requires idle { (v : V) → now < V.timer v → C.change how.now v ≡ Some v }
    requires later { (v w : V) → C.change how.now v ≡ Some w → now < V.timer w }
    ensures sound { Sound (get nodes.new) root.new }
    ensures timed { IsTimed V.timer (get nodes.new) timers.new.timers }
    ensures counted { IsCounted S.counts (get nodes.new) root.new (S.sum tally.new) }
    ensures tidy { IsTidy (get nodes.new) kept }
    ensures changed { (q : List Field) → lookup (get nodes.new) root.new q
        ≡ option_and_then (C.change how.now) (lookup (get nodes.old) root.old q) }
    ensures kept { (q : List Field) → IsSome kept → walk (get nodes.old) root.old q ≡ kept
        → walk (get nodes.new) root.new q ≡ kept }
    ensures few { set.len timers.new.timers ≤ set.len timers.old.timers }
    ensures capacity { timers.old.capacity ≤ timers.new.capacity }
{
    while let Some(timer) = timers.first_due(now) {
        change_timed(nodes, timers, tally, timer.key, how);
        prune(nodes, root, timer.key, kept);
    }
}

/// Removes and returns the value of node `k`, and removes the timer of this node. Returns `None` if
/// the node has no value.
fn take_timed<V: Timed + Drop>(
    nodes: &mut Slab<Node<V>>,
    timers: &mut Timers,
    k: usize,
) -> Option<V>
    requires { IsTimed V.timer (get nodes.old) timers.old.timers }
    ensures value { result ≡ value_in (get nodes.old) k }
    ensures turns { Turns k None (get nodes.old) (get nodes.new) }
    ensures timed { IsTimed V.timer (get nodes.new) timers.new.timers }
    ensures room { IsSome result → set.len timers.new.timers < timers.new.capacity }
    ensures few { set.len timers.new.timers ≤ set.len timers.old.timers }
    ensures capacity { timers.new.capacity ≡ timers.old.capacity }
{
    let old = timer_at(nodes, k);
    stop(timers, k, old);
    take_value(nodes, k)
}

/// Sets the value of node `k`, which must have no value yet, and inserts the timer of the new
/// value.
fn put_timed<V: Timed + Drop>(nodes: &mut Slab<Node<V>>, timers: &mut Timers, k: usize, value: V)
    requires timed { IsTimed V.timer (get nodes.old) timers.old.timers }
    requires node { IsSome (get nodes.old k) }
    requires empty { value_in (get nodes.old) k ≡ None }
    requires room { set.len timers.old.timers < timers.old.capacity }
    ensures sets { Sets k (Some value) (get nodes.old) (get nodes.new) }
    ensures timed { IsTimed V.timer (get nodes.new) timers.new.timers }
    ensures capacity { timers.old.capacity ≤ timers.new.capacity }
{
    let new = Some(value.timer());
    set_value(nodes, k, Some(value));
    start(timers, k, new);
}

/// Sets the value of node `k` to the value that the rule `how` computes from the old value of the
/// node, or from `None` if the node has no value. Updates the timer of the node and the tally. If
/// the node has no value before the call, memory for one more timer must be reserved. The new sums
/// must fit.
pub fn replace_at<V: Timed + Drop, S: Tally<V>, B: Becomes<V> + Drop>(
    nodes: &mut Slab<Node<V>>,
    timers: &mut Timers,
    tally: &mut S,
    k: usize,
    how: B,
)
    requires timed { IsTimed V.timer (get nodes.old) timers.old.timers }
    requires node { IsSome (get nodes.old k) }
    requires room { value_in (get nodes.old) k ≡ None
        → set.len timers.old.timers < timers.old.capacity }
    requires has { HasCounts S.counts (get nodes.old) k (S.sum tally.old) }
    requires fits { (sums : S.Index → ℕ)
        → ((i : S.Index) → sums i + size_in (S.counts i) (get nodes.old) k
        ≡ S.sum tally.old i + S.counts i (B.becomes how (value_in (get nodes.old) k)))
        → S.Fits sums }
    ensures turns { Turns k (Some (B.becomes how (value_in (get nodes.old) k)))
        (get nodes.old) (get nodes.new) }
    ensures timed { IsTimed V.timer (get nodes.new) timers.new.timers }
    ensures counted { Recounts S.counts (get nodes.old) (get nodes.new) k
        (S.sum tally.old) (S.sum tally.new) }
{
    lower_at(nodes, tally, k);
    let old = take_timed(nodes, timers, k);
    put_timed(nodes, timers, k, how.apply(old));
    raise_at(nodes, tally, k);
}

/// Changes or removes each value, as the rule `how` says. `how` must not raise what a value counts.
pub fn change_all_timed<V: Timed + Drop, S: Tally<V>, C: Change<V>>(
    nodes: &mut Slab<Node<V>>,
    root: &mut Option<usize>,
    timers: &mut Timers,
    tally: &mut S,
    kept: Option<usize>,
    how: &C,
)
    requires sound { Sound (get nodes.old) root.old }
    requires timed { IsTimed V.timer (get nodes.old) timers.old.timers }
    requires counted { IsCounted S.counts (get nodes.old) root.old (S.sum tally.old) }
    requires fewer { LeavesFewer S.counts (C.change how.now) }
    ensures sound { Sound (get nodes.new) root.new }
    ensures timed { IsTimed V.timer (get nodes.new) timers.new.timers }
    ensures counted { IsCounted S.counts (get nodes.new) root.new (S.sum tally.new) }
    ensures tidy { IsTidy (get nodes.new) kept }
    ensures changed { (q : List Field) → lookup (get nodes.new) root.new q
        ≡ option_and_then (C.change how.now) (lookup (get nodes.old) root.old q) }
    ensures kept { (q : List Field) → IsSome kept → walk (get nodes.old) root.old q ≡ kept
        → walk (get nodes.new) root.new q ≡ kept }
    ensures few { set.len timers.new.timers ≤ set.len timers.old.timers }
    ensures capacity { timers.old.capacity ≤ timers.new.capacity }
{
    for k in 0..nodes.capacity() {
        change_timed(nodes, timers, tally, k, how);
    }
    prune_all(nodes, root, kept);
}

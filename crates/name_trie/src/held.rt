ghost use Rattle.std.specs.Prelude.{◌≡◌, ◌≢◌, ◌⊎◌, ◌<◌, ◌≤◌, None, Some, Ok, ℕ, List, IfOk, OnOk, OnErr, IfSome, IsOk, IsSome};
ghost use Rattle.std.specs.Option.{option_map};
ghost use Rattle.std.specs.Result.{IsOkAnd};
ghost use Rattle.std.specs.FinSet as set;
ghost use Rattle.slab.specs.Slab.{get};
ghost use Rattle.ndn_tlv.specs.Element.{Field};
ghost use Rattle.ndn_names.specs.View.{components};
ghost use Rattle.name_trie.specs.Trie.{value as value_in, walk, lookup, Sound};
ghost use Rattle.name_trie.specs.Changes.{SameLookups, IsBare, IsHeld, IsTidy};

use crate::node::{Node, find, make_path, prune, value_of};
use ndn_names::{Name, NameBuf};
use ndn_tlv::Memory;
use slab::Slab;
use std::alloc::Global;
use timers::Timers;

/// If `held` is the reservation of a name, removes the nodes that exist only for this name. Never
/// removes the node `kept`.
pub fn release<V: Drop>(
    nodes: &mut Slab<Node<V>>,
    root: &mut Option<usize>,
    held: Option<(NameBuf, usize)>,
    kept: Option<usize>,
)
    requires { Sound (get nodes.old) root.old }
    ensures sound { Sound (get nodes.new) root.new }
    ensures same { SameLookups (get nodes.old) root.old (get nodes.new) root.new }
    ensures kept { (q : List Field) → IsSome kept → walk (get nodes.old) root.old q ≡ kept
        → walk (get nodes.new) root.new q ≡ kept }
    ensures tidy { (j : ℕ) → IsBare (get nodes.new) j → (kept ≡ Some j)
        ⊎ ((option_map (λ p. p.1) held ≢ Some j) × IsBare (get nodes.old) j) }
    ensures values { (j : ℕ) → value_in (get nodes.new) j ≡ value_in (get nodes.old) j }
{
    if let Some((_, k)) = held {
        prune(nodes, root, k, kept);
    }
}

/// Returns a copy of `name` and the index of the node of `name`. Missing nodes are created, as by
/// `make_path`. Reserves memory for one more timer.
pub fn hold<V: Drop>(
    alloc: Global,
    nodes: &mut Slab<Node<V>>,
    root: &mut Option<usize>,
    timers: &mut Timers,
    name: Name<'_>,
) -> Result<(NameBuf, usize), Memory>
    requires { Sound (get nodes.old) root.old }
    ensures sound { Sound (get nodes.new) root.new }
    ensures same { SameLookups (get nodes.old) root.old (get nodes.new) root.new }
    ensures own { IfOk result (λ p. p.0 ≡ components name.entry) }
    ensures held { IfOk result
        (λ p. walk (get nodes.new) root.new (components name.entry) ≡ Some p.1) }
    ensures values { (j : ℕ) → value_in (get nodes.new) j ≡ value_in (get nodes.old) j }
    ensures tidy { (j : ℕ) → IsBare (get nodes.new) j
        → IsOkAnd result (λ p. p.1 ≡ j) ⊎ IsBare (get nodes.old) j }
    ensures timers { timers.new.timers ≡ timers.old.timers }
    ensures capacity { timers.old.capacity ≤ timers.new.capacity }
    ensures room { IfOk result (λ _. set.len timers.new.timers < timers.new.capacity) }
{
    let key = NameBuf::from_name(alloc, name)?;
    timers.reserve()?;
    let k = make_path(alloc, nodes, root, name)?;
    Ok((key, k))
}

/// Returns the reserved node, or `None` if no name is reserved.
pub fn held_node(held: &Option<(NameBuf, usize)>) -> Option<usize>
    ensures { result ≡ option_map (λ p. p.1) held.now }
{
    match held {
        Some((_, k)) => Some(*k),
        None => None,
    }
}

/// Returns the node in `made`, or `None` if `made` is an error. `made` is a result of `hold`.
pub fn node_held(made: &Result<(NameBuf, usize), Memory>) -> Option<usize>
    ensures ok { IfOk made.now (λ p. result ≡ Some p.1) }
    ensures err { OnErr made.now (result ≡ None) }
{
    match made {
        Ok((_, k)) => Some(*k),
        Err(_) => None,
    }
}

/// Returns the reserved node if `name` is the reserved name, and `None` otherwise.
fn held_for(held: &Option<(NameBuf, usize)>, name: Name<'_>) -> Option<usize>
    ensures yes { IfSome result (λ k. held.now ≡ Some (components name.entry, k)) }
    ensures no { result ≡ None → (k : ℕ) → held.now ≡ Some (components name.entry, k) → ⊥ }
{
    if let Some((key, k)) = held {
        if key.view() == name {
            return Some(*k);
        }
    }
    None
}

/// Returns the same node as `find` for `name`, but makes no walk if `name` is the reserved name.
pub fn node_of<V>(
    nodes: &Slab<Node<V>>,
    root: Option<usize>,
    held: &Option<(NameBuf, usize)>,
    name: Name<'_>,
) -> Option<usize>
    requires { IsHeld (get nodes.now) root held.now }
    ensures { result ≡ walk (get nodes.now) root (components name.entry) }
{
    if let Some(k) = held_for(held, name) {
        return Some(k);
    }
    find(nodes, root, name)
}

/// Ends the reservation `held`, unless this reservation is for `name`. Returns the reservation that
/// remains, if any.
pub fn release_other<V: Drop>(
    nodes: &mut Slab<Node<V>>,
    root: &mut Option<usize>,
    held: Option<(NameBuf, usize)>,
    name: Name<'_>,
) -> Option<(NameBuf, usize)>
    requires sound { Sound (get nodes.old) root.old }
    requires held { IsHeld (get nodes.old) root.old held }
    ensures sound { Sound (get nodes.new) root.new }
    ensures same { SameLookups (get nodes.old) root.old (get nodes.new) root.new }
    ensures held { IsHeld (get nodes.new) root.new result }
    ensures own { IfSome result (λ p. p.0 ≡ components name.entry) }
    ensures kept { (k : ℕ) → held ≡ Some (components name.entry, k) → IsSome result }
    ensures tidy { IsTidy (get nodes.old) (option_map (λ p. p.1) held)
        → IsTidy (get nodes.new) (option_map (λ p. p.1) result) }
    ensures values { (j : ℕ) → value_in (get nodes.new) j ≡ value_in (get nodes.old) j }
{
    if held_for(&held, name).is_some() {
        return held;
    }
    release(nodes, root, held, None);
    None
}

/// Returns the node of `name`. Missing nodes are created, as by `make_path`. If a name is reserved,
/// this name must be `name`, and the reserved node is returned without a walk.
fn path_to<V: Drop>(
    alloc: Global,
    nodes: &mut Slab<Node<V>>,
    root: &mut Option<usize>,
    held: &Option<(NameBuf, usize)>,
    name: Name<'_>,
) -> Result<usize, Memory>
    requires sound { Sound (get nodes.old) root.old }
    requires held { IsHeld (get nodes.old) root.old held.now }
    requires own { IfSome held.now (λ p. p.0 ≡ components name) }
    ensures sound { Sound (get nodes.new) root.new }
    ensures same { SameLookups (get nodes.old) root.old (get nodes.new) root.new }
    ensures ok { IfOk result
        (λ k. walk (get nodes.new) root.new (components name.entry) ≡ Some k) }
    ensures held { IsHeld (get nodes.new) root.new held.now }
    ensures values { (j : ℕ) → value_in (get nodes.new) j ≡ value_in (get nodes.old) j }
    ensures tidy { (j : ℕ) → IsBare (get nodes.new) j → (result ≡ Ok j) ⊎ IsBare (get nodes.old) j }
    ensures known { IsSome (walk (get nodes.old) root.old (components name.entry)) → IsOk result }
{
    match held {
        Some((_, k)) => Ok(*k),
        None => make_path(alloc, nodes, root, name),
    }
}

/// Reserves memory for one more timer, if node `k` has no value.
fn reserve_for<V>(nodes: &Slab<Node<V>>, timers: &mut Timers, k: usize) -> Result<(), Memory>
    ensures timers { timers.new.timers ≡ timers.old.timers }
    ensures capacity { timers.old.capacity ≤ timers.new.capacity }
    ensures ok { OnOk result (value_in (get nodes.now) k ≡ None
        → set.len timers.new.timers < timers.new.capacity) }
    ensures known { IsSome (value_in (get nodes.now) k) → IsOk result }
    ensures promised { set.len timers.old.timers < timers.old.capacity → IsOk result }
{
    if value_of(nodes, k).is_some() {
        return Ok(());
    }
    timers.reserve()?;
    Ok(())
}

/// Returns the node of `name`. Missing nodes are created, as by `make_path`. If the node of `name`
/// has no value, memory for one more timer is reserved. No name other than `name` may be reserved.
pub fn place_for<V: Drop>(
    alloc: Global,
    nodes: &mut Slab<Node<V>>,
    root: &mut Option<usize>,
    timers: &mut Timers,
    held: &Option<(NameBuf, usize)>,
    name: Name<'_>,
) -> Result<usize, Memory>
    requires sound { Sound (get nodes.old) root.old }
    requires held { IsHeld (get nodes.old) root.old held.now }
    requires own { IfSome held.now (λ p. p.0 ≡ components name) }
    ensures sound { Sound (get nodes.new) root.new }
    ensures same { SameLookups (get nodes.old) root.old (get nodes.new) root.new }
    ensures ok { IfOk result
        (λ k. walk (get nodes.new) root.new (components name.entry) ≡ Some k) }
    ensures room { IfOk result (λ k. value_in (get nodes.new) k ≡ None
        → set.len timers.new.timers < timers.new.capacity) }
    ensures held { IsHeld (get nodes.new) root.new held.now }
    ensures values { (j : ℕ) → value_in (get nodes.new) j ≡ value_in (get nodes.old) j }
    ensures tidy { IsTidy (get nodes.old) (option_map (λ p. p.1) held.now)
        → (j : ℕ) → IsBare (get nodes.new) j
        → (result ≡ Ok j) ⊎ (option_map (λ p. p.1) held.now ≡ Some j) }
    ensures timers { timers.new.timers ≡ timers.old.timers }
    ensures known { IsSome (lookup (get nodes.old) root.old (components name.entry))
        → IsOk result }
    ensures promised { IsSome held.now → set.len timers.old.timers < timers.old.capacity
        → IsOk result }
{
    let k = path_to(alloc, nodes, root, held, name)?;
    if let Err(error) = reserve_for(nodes, timers, k) {
        prune(nodes, root, k, held_node(held));
        return Err(error);
    }
    Ok(k)
}

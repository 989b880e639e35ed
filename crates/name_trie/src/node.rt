ghost use Rattle.std.specs.Prelude.{◌≡◌, ◌≢◌, ◌⊎◌, None, Some, Ok, option_copied, IfOk, IsSome, IsOk, OnErr, IfSome, ℕ, List, ◌<◌, ◌≤◌, ◌↔◌, IsTrue, false};
ghost use Rattle.std.specs.Option.{option_map};
ghost use Rattle.std.specs.FinMap as map;
ghost use Rattle.slab.specs.Slab.{get, slab_len, ContainsKey, SameValues};
ghost use Rattle.ndn_tlv.specs.Element.{Field};
ghost use Rattle.ndn_names.specs.View.{components, field_of};
ghost use Rattle.name_trie.specs.Links.{unless};
ghost use Rattle.name_trie.specs.Trie.{child, value, up, walk, lookup, last_on, Sound};
ghost use Rattle.name_trie.specs.Changes.{Joins, Starts, Cuts, IsBare, Sets, Lacks, SameLookups, KeepsWalks, HasRoomBelow};

use crate::children::Children;
use crate::component_buf::{ComponentBuf, Hint};
use ndn_names::{Component, Name};
use ndn_tlv::Memory;
use slab::Slab;
use std::alloc::Global;

/// A node of a trie. A node represents the name whose components lead from the root to this node.
#[derive(Drop)]
pub struct Node<V> {
    /// The index of the parent node.
    pub parent: Option<usize>,
    /// The hint for finding the node among its parent's children.
    pub hint: Hint,
    pub children: Children,
    pub value: Option<V>,
}

/// Returns the child of node `at` for `component`, or `None` if there is no such child.
pub fn child_of<V>(nodes: &Slab<Node<V>>, at: usize, component: Component<'_>) -> Option<usize>
    ensures { result ≡ child (get nodes.now) at (field_of component.entry) }
{
    nodes.get(at)?.children.get(component)
}

/// Returns whether a node has a child whose component has a type number of at most `kind`.
pub fn has_child_up_to<V>(nodes: &Slab<Node<V>>, at: usize, kind: u16) -> bool
    ensures yes { IsTrue result → (c : Field) × (c.0 ≤ kind)
        × IsSome (child (get nodes.now) at c) }
    ensures no { result ≡ false → (c : Field) → c.0 ≤ kind
        → child (get nodes.now) at c ≡ None }
{
    match nodes.get(at) {
        Some(node) => node.children.has_up_to(kind),
        None => false,
    }
}

/// Returns the value of a node, or `None` if the node has no value.
pub fn value_of<V>(nodes: &Slab<Node<V>>, at: usize) -> Option<&V>
    ensures { option_map (λ v. v.now) result ≡ value (get nodes.now) at }
{
    nodes.get(at)?.value.as_ref()
}

/// Returns the node that a name leads to from the root, or `None` if there is no such node.
pub fn find<V>(nodes: &Slab<Node<V>>, root: Option<usize>, name: Name<'_>) -> Option<usize>
    ensures { result ≡ walk (get nodes.now) root (components name.entry) }
{
    let mut at = root;
    let mut rest = name.iter();
    while let Some(component) = rest.next() {
        at = child_of(nodes, at?, component);
    }
    at
}

/// Sets the value of a node, or removes the node's value if `value` is `None`.
pub fn set_value<V: Drop>(nodes: &mut Slab<Node<V>>, at: usize, value: Option<V>)
    requires { IsSome (get nodes.old at) }
    ensures { Sets at value (get nodes.old) (get nodes.new) }
{
    nodes[at].value = value;
}

/// Adds a child of node `at` for `component`. The child has neither a value nor children. Node `at`
/// must not have a child for `component` yet.
pub fn add_child<V: Drop>(
    alloc: Global,
    nodes: &mut Slab<Node<V>>,
    at: usize,
    component: Component<'_>,
) -> Result<usize, Memory>
    requires there { IsSome (get nodes.old at) }
    requires fresh { child (get nodes.old) at (field_of component) ≡ None }
    ensures ok { IfOk result
        (λ k. Joins k at (field_of component.entry) (get nodes.old) (get nodes.new)) }
    ensures err { OnErr result (SameValues nodes.old nodes.new) }
{
    let key = ComponentBuf::from_component(alloc, component)?;
    let k = nodes.insert(Node {
        parent: Some(at),
        hint: key.hint(),
        children: Children::new(),
        value: None,
    })?;
    if nodes[at].children.insert(alloc, key, k).is_err() {
        nodes.remove(k);
        return Err(Memory);
    }
    Ok(k)
}

/// Returns whether a node exists, and has no value and no children.
pub fn is_bare<V>(nodes: &Slab<Node<V>>, k: usize) -> bool
    ensures yes { IsTrue result → IsBare (get nodes.now) k }
    ensures no { IsBare (get nodes.now) k → IsTrue result }
{
    match nodes.get(k) {
        Some(node) => node.value.is_none() && node.children.is_empty(),
        None => false,
    }
}

/// Adds a node that has no parent, no value and no children.
pub fn add_root<V: Drop>(alloc: Global, nodes: &mut Slab<Node<V>>) -> Result<usize, Memory>
    ensures ok { IfOk result (λ k. Starts k (get nodes.old) (get nodes.new)) }
    ensures err { OnErr result (SameValues nodes.old nodes.new) }
{
    let k = nodes.insert(Node {
        parent: None,
        hint: Hint::of_root(),
        children: Children::new(),
        value: None,
    })?;
    Ok(k)
}

/// Removes a node and the link from its parent to the node. Returns the parent, or `None` if the
/// node had no parent.
pub fn cut<V: Drop>(nodes: &mut Slab<Node<V>>, k: usize) -> Option<usize>
    requires there { IsSome (get nodes.old k) }
    requires once { (a : ℕ) (c d : Field) → child (get nodes.old) a c ≡ Some k
        → child (get nodes.old) a d ≡ Some k → c ≡ d }
    ensures cuts { Cuts k result (get nodes.old) (get nodes.new) }
    ensures fewer { slab_len nodes.new < slab_len nodes.old }
{
    let node = nodes.remove(k);
    if let Some(parent) = node.parent {
        if let Some(above) = nodes.get_mut(parent) {
            above.children.forget(k, &node.hint);
        }
    }
    node.parent
}

/// Returns the optional index `key`, or `None` if `key` is `Some(k)`.
fn without(key: Option<usize>, k: usize) -> Option<usize>
    ensures { result ≡ unless k key }
{
    match key {
        Some(j) if j != k => Some(j),
        _ => None,
    }
}

/// Removes the node with the index `from`, then its parent, and so on up to the root. Stops before
/// the node `kept`, and before the first node that has a value or still has children.
pub fn prune<V: Drop>(
    nodes: &mut Slab<Node<V>>,
    root: &mut Option<usize>,
    from: usize,
    kept: Option<usize>,
)
    requires { Sound (get nodes.old) root.old }
    ensures sound { Sound (get nodes.new) root.new }
    ensures same { SameLookups (get nodes.old) root.old (get nodes.new) root.new }
    ensures kept { (q : List Field) → IsSome kept → walk (get nodes.old) root.old q ≡ kept
        → walk (get nodes.new) root.new q ≡ kept }
    ensures tidy { (j : ℕ) → IsBare (get nodes.new) j
        → (kept ≡ Some j) ⊎ ((j ≢ from) × IsBare (get nodes.old) j) }
    ensures fewer { (j : ℕ) → IsSome (get nodes.new j) → IsSome (get nodes.old j) }
    ensures values { (j : ℕ) → value (get nodes.new) j ≡ value (get nodes.old) j }
{
    let mut next = Some(from);
    while let Some(k) = next {
        if kept == Some(k) || !is_bare(nodes, k) {
            return;
        }
        next = cut(nodes, k);
        *root = without(*root, k);
    }
}

/// Returns the root. If there is no root, a root without a value is created.
fn start<V: Drop>(
    alloc: Global,
    nodes: &mut Slab<Node<V>>,
    root: &mut Option<usize>,
) -> Result<usize, Memory>
    requires { Sound (get nodes.old) root.old }
    ensures sound { Sound (get nodes.new) root.new }
    ensures same { SameLookups (get nodes.old) root.old (get nodes.new) root.new }
    ensures ok { IfOk result (λ k. root.new ≡ Some k) }
    ensures values { (j : ℕ) → value (get nodes.new) j ≡ value (get nodes.old) j }
    ensures tidy { (j : ℕ) → IsBare (get nodes.new) j → (result ≡ Ok j) ⊎ IsBare (get nodes.old) j }
    ensures known { IsSome root.old
        → IsOk result × (nodes.new ≡ nodes.old) × (root.new ≡ root.old) }
{
    if let Some(k) = *root {
        return Ok(k);
    }
    let k = add_root(alloc, nodes)?;
    *root = Some(k);
    Ok(k)
}

/// Returns the child of node `at` for `component`. If the node has no such child, a child without a
/// value is created.
fn step<V: Drop>(
    alloc: Global,
    nodes: &mut Slab<Node<V>>,
    root: Option<usize>,
    at: usize,
    component: Component<'_>,
) -> Result<usize, Memory>
    requires sound { Sound (get nodes.old) root }
    requires room { HasRoomBelow (get nodes.old) root at }
    ensures sound { Sound (get nodes.new) root }
    ensures same { SameLookups (get nodes.old) root (get nodes.new) root }
    ensures kept { KeepsWalks (get nodes.old) root (get nodes.new) root }
    ensures ok { IfOk result
        (λ k. child (get nodes.new) at (field_of component.entry) ≡ Some k) }
    ensures values { (j : ℕ) → value (get nodes.new) j ≡ value (get nodes.old) j }
    ensures tidy { (j : ℕ) → IsBare (get nodes.new) j → (result ≡ Ok j) ⊎ IsBare (get nodes.old) j }
    ensures known { IsSome (child (get nodes.old) at (field_of component.entry))
        → IsOk result × (nodes.new ≡ nodes.old) }
{
    if let Some(k) = child_of(nodes, at, component) {
        return Ok(k);
    }
    add_child(alloc, nodes, at, component)
}

/// Returns the node that a name leads to. Missing nodes are created without values. If memory runs
/// out, the created nodes are removed again.
pub fn make_path<V: Drop>(
    alloc: Global,
    nodes: &mut Slab<Node<V>>,
    root: &mut Option<usize>,
    name: Name<'_>,
) -> Result<usize, Memory>
    requires { Sound (get nodes.old) root.old }
    ensures sound { Sound (get nodes.new) root.new }
    ensures same { SameLookups (get nodes.old) root.old (get nodes.new) root.new }
    ensures ok { IfOk result
        (λ k. walk (get nodes.new) root.new (components name.entry) ≡ Some k) }
    ensures values { (j : ℕ) → value (get nodes.new) j ≡ value (get nodes.old) j }
    ensures tidy { (j : ℕ) → IsBare (get nodes.new) j → (result ≡ Ok j) ⊎ IsBare (get nodes.old) j }
    ensures known { IsSome (walk (get nodes.old) root.old (components name.entry)) → IsOk result }
{
    let mut at = start(alloc, nodes, root)?;
    let mut rest = name.iter();
    while let Some(component) = rest.next() {
        match step(alloc, nodes, *root, at, component) {
            Ok(k) => at = k,
            Err(error) => {
                prune(nodes, root, at, None);
                return Err(error);
            }
        }
    }
    Ok(at)
}

/// Returns the value of the longest prefix of `name` that has a value, or `None` if no prefix has a
/// value. `name` counts as a prefix of itself.
pub fn longest<'a, V>(
    nodes: &'a Slab<Node<V>>,
    root: Option<usize>,
    name: Name<'_>,
) -> Option<&'a V>
    ensures { option_map (λ v. v.now) result
        ≡ last_on (get nodes.now) root (components name.entry) None }
{
    let mut best = None;
    let mut next = root;
    let mut rest = name.iter();
    while let Some(k) = next {
        if let Some(value) = value_of(nodes, k) {
            best = Some(value);
        }
        let Some(component) = rest.next() else {
            return best;
        };
        next = child_of(nodes, k, component);
    }
    best
}

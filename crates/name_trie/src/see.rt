ghost use Rattle.std.specs.Prelude.{◌≡◌, ◌+◌, ◌<◌, ◌≤◌, ◌^◌, [], Some, fold, length, map};
ghost use Rattle.slab.specs.Slab.{get};
ghost use Rattle.ndn_names.specs.View.{components};
ghost use Rattle.name_trie.specs.Trie.{value as value_in, lookup, rows, steps as steps_of};
ghost use Rattle.name_trie.specs.Taken.{taken, taken_along};

use crate::node::{Node, child_of, value_of};
use ndn_names::{MAX_COMPONENTS, Name};
use slab::Slab;

/// A visitor that is shown values one after the other.
pub trait See<V> {
    /// The visitor after it has seen a value.
    ghost seen: { Self → V → Self };

    /// Shows the visitor a value.
    fn see(&mut self, value: &V)
        ensures { self.new ≡ seen self.old value.now };
}

/// Passes the value of node `at` to the visitor `see`, if the node has a value.
fn see_at<V, S: See<V>>(nodes: &Slab<Node<V>>, at: usize, see: &mut S)
    ensures { see.new ≡ taken S.seen see.old (value_in (get nodes.now) at) }
{
    if let Some(value) = value_of(nodes, at) {
        see.see(value);
    }
}

/// Passes to the visitor `see` the values of the proper prefixes of `name`, the shortest first, and
/// then the value of `name`. Adds one to `steps` for each search among the children of a node.
pub fn see_along<V, S: See<V>>(
    nodes: &Slab<Node<V>>,
    root: Option<usize>,
    name: Name<'_>,
    steps: &mut u64,
    see: &mut S,
)
    requires { steps.old + 64 < 2 ^ 64 }
    ensures seen { see.new ≡ taken_along S.seen S.seen see.old
        (lookup (get nodes.now) root) [] (components name.entry) }
    ensures counted { steps.old ≤ steps.new }
    ensures cost { steps.new ≤ steps.old + length (components name.entry) }
    ensures exact { steps.new ≡ steps.old + steps_of (get nodes.now) root (components name.entry) }
{
    let mut next = root;
    let mut rest = name.iter();
    while let Some(at) = next {
        see_at(nodes, at, see);
        let Some(component) = rest.next() else {
            return;
        };
        *steps += 1;
        next = child_of(nodes, at, component);
    }
}

/// Passes to the visitor `see` the values of node `at` and of the nodes below this node. `depth` is
/// the number of levels to show, including the level of node `at`.
fn see_below<V, S: See<V>>(nodes: &Slab<Node<V>>, at: usize, depth: usize, see: &mut S)
    ensures { see.new ≡ fold S.seen see.old
        (map (λ r. r.1) (rows (get nodes.now) depth (Some at))) }
{
    if depth == 0 {
        return;
    }
    let Some(node) = nodes.get(at) else {
        return;
    };
    if let Some(value) = &node.value {
        see.see(value);
    }
    for row in node.children.rows() {
        see_below(nodes, row.1, depth - 1, see);
    }
}

/// Passes all values to the visitor `see`, in the canonical order of their names.
pub fn see_all<V, S: See<V>>(nodes: &Slab<Node<V>>, root: Option<usize>, see: &mut S)
    ensures { see.new ≡ fold S.seen see.old (map (λ r. r.1) (rows (get nodes.now) 65 root)) }
{
    if let Some(root) = root {
        see_below(nodes, root, MAX_COMPONENTS + 1, see);
    }
}

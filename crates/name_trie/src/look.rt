ghost use Rattle.std.specs.Prelude.{◌≡◌, Bool, true, false, []};
ghost use Rattle.slab.specs.Slab.{get};
ghost use Rattle.ndn_names.specs.View.{components};
ghost use Rattle.name_trie.specs.Trie.{value as value_in, lookup};
ghost use Rattle.name_trie.specs.Taken.{taken, taken_along};

use crate::node::{Node, child_of, value_of};
use ndn_names::Name;
use slab::Slab;

/// A visitor that looks at the values of a name and of the name's prefixes. The visitor may store
/// references to the values.
pub trait Look<'a, V> {
    /// The visitor after it has looked at a value. The Boolean is `true` for the value of the name
    /// itself.
    ghost seen: { Bool → Self → V → Self };

    /// Looks at a value. `is_own` is true for the value of the name itself, and false for the value
    /// of a proper prefix.
    fn look(&mut self, value: &'a V, is_own: bool)
        ensures { self.new ≡ seen is_own self.old value.now };
}

/// Lets the visitor `look` look at the value of node `at`, if the node has a value.
fn look_at<'a, V, L: Look<'a, V>>(nodes: &'a Slab<Node<V>>, at: usize, is_own: bool, look: &mut L)
    ensures { look.new ≡ taken (L.seen is_own) look.old (value_in (get nodes.now) at) }
{
    if let Some(value) = value_of(nodes, at) {
        look.look(value, is_own);
    }
}

/// Lets the visitor `look` look at the values of the proper prefixes of `name`, the shortest first,
/// and then at the value of `name`.
pub fn look_along<'a, V, L: Look<'a, V>>(
    nodes: &'a Slab<Node<V>>,
    root: Option<usize>,
    name: Name<'_>,
    look: &mut L,
)
    ensures { look.new ≡ taken_along (L.seen true) (L.seen false) look.old
        (lookup (get nodes.now) root) [] (components name.entry) }
{
    let mut next = root;
    let mut rest = name.iter();
    while let Some(at) = next {
        let Some(component) = rest.next() else {
            look_at(nodes, at, true, look);
            return;
        };
        look_at(nodes, at, false, look);
        next = child_of(nodes, at, component);
    }
}

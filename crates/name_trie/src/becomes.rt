ghost use Rattle.std.specs.Prelude.{◌≡◌, Option, Some, IsSome, is_none};
ghost use Rattle.slab.specs.Slab.{get};
ghost use Rattle.name_trie.specs.Trie.{value as value_in};
ghost use Rattle.name_trie.specs.Changes.{Turns};

use crate::change::take_value;
use crate::node::{Node, set_value};
use slab::Slab;

/// A rule that computes the new value of a name from the old value of this name, or from `None` if
/// this name has no value.
pub trait Becomes<V> {
    ghost becomes: { Self → Option V → V };

    fn apply(self, old: Option<V>) -> V
        ensures { result ≡ becomes self old };
}

/// Sets the value of node `k` to the value that the rule `how` computes from the old value of the
/// node, or from `None` if the node has no value. Returns whether the node had no value before.
pub fn put_at<V: Drop, B: Becomes<V> + Drop>(nodes: &mut Slab<Node<V>>, k: usize, how: B) -> bool
    requires { IsSome (get nodes.old k) }
    ensures turns { Turns k (Some (B.becomes how (value_in (get nodes.old) k)))
        (get nodes.old) (get nodes.new) }
    ensures added { result ≡ is_none (value_in (get nodes.old) k) }
{
    let old = take_value(nodes, k);
    let is_new = old.is_none();
    set_value(nodes, k, Some(how.apply(old)));
    is_new
}

ghost use Rattle.std.specs.Prelude.{◌≡◌, ◌+◌, ◌≤◌, ℕ};
ghost use Rattle.slab.specs.Slab.{get};
ghost use Rattle.name_trie.specs.Timed.{size_at};

use crate::node::{Node, value_of};
use slab::Slab;

/// Sums over all values of a map: what the values count for each index.
pub trait Tally<V> {
    ghost Index: { Type 0 };

    /// What a value counts for an index.
    ghost counts: { Index → V → ℕ };

    /// The sum for an index.
    ghost sum: { Self → Index → ℕ };

    /// Whether a tally can have these sums.
    ghost Fits: { (Index → ℕ) → Type 0 };

    /// Returns the tally without values.
    fn new() -> Self
        ensures { (i : Index) → sum result i ≡ 0 };

    /// Law: the sums of a tally are sums that a tally can have.
    fn stands(&self)
        ensures { Fits (sum self.now) };

    /// Adds a value. The new sums must be sums that a tally can have.
    fn raise(&mut self, value: &V)
        requires { Fits (λ i. sum self.old i + counts i value.now) }
        ensures { (i : Index) → sum self.new i ≡ sum self.old i + counts i value.now };

    /// Removes a value, which must have been added.
    fn lower(&mut self, value: &V)
        requires { (i : Index) → counts i value.now ≤ sum self.old i }
        ensures { (i : Index) → sum self.new i + counts i value.now ≡ sum self.old i };

    // Lesser sums fit too.
    ghost fewer: { (a b : Index → ℕ) → ((i : Index) → a i ≤ b i) → Fits b → Fits a };
}

/// Adds the value of node `k`, if the node has a value.
pub fn raise_at<V, S: Tally<V>>(nodes: &Slab<Node<V>>, tally: &mut S, k: usize)
    requires { S.Fits (λ i. S.sum tally.old i + size_at (S.counts i) (get nodes.now) k) }
    ensures { (i : S.Index) → S.sum tally.new i
        ≡ S.sum tally.old i + size_at (S.counts i) (get nodes.now) k }
{
    if let Some(value) = value_of(nodes, k) {
        tally.raise(value);
    }
}

/// Removes the value of node `k`, if the node has a value.
pub fn lower_at<V, S: Tally<V>>(nodes: &Slab<Node<V>>, tally: &mut S, k: usize)
    requires { (i : S.Index) → size_at (S.counts i) (get nodes.now) k ≤ S.sum tally.old i }
    ensures { (i : S.Index) → S.sum tally.new i + size_at (S.counts i) (get nodes.now) k
        ≡ S.sum tally.old i }
{
    if let Some(value) = value_of(nodes, k) {
        tally.lower(value);
    }
}

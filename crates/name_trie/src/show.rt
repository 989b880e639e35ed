ghost use Rattle.std.specs.Prelude.{◌≡◌, ◌++◌, ℕ, List, Some, IfOk, OnOk, unwrap_or};
ghost use Rattle.std.specs.Option.{option_map};
ghost use Rattle.slab.specs.Slab.{get};
ghost use Rattle.ndn_tlv.specs.Element.{element};
ghost use Rattle.ndn_names.specs.View.{field_of};
ghost use Rattle.name_trie.specs.Trie.{lookup, rows};
ghost use Rattle.name_trie.specs.Shown.{known_at, shown_after, shown_if, shown_known};

use crate::node::Node;
use ndn_names::{Component, MAX_COMPONENTS};
use ndn_tlv::{Memory, put_header};
use slab::Slab;
use std::alloc::Global;

/// The state that a walk over a trie has at a name. The walk updates the state with each value on
/// the way from the root to the name.
pub trait Carry<V> {
    /// The state after an update with a value.
    ghost past: { Self → V → Self };

    /// Returns the state after an update with a value.
    fn carry(&self, value: &V) -> Self
        ensures { result ≡ past self.now value.now };
}

/// A visitor that is shown names one after the other, each with a value of type `X`.
pub trait Show<X> {
    /// The visitor after it has been shown a name.
    ghost shown: { Self → List ℕ → X → Self };

    /// Shows the visitor a name and the value `of_name`. The slice `name` contains the octets of
    /// the name.
    fn show(&mut self, name: &[u8], of_name: &X) -> Result<(), Memory>
        ensures { OnOk result (self.new ≡ shown self.old name.now of_name.now) };
}

/// Returns the state `before`, updated with `value`, or `None` if `value` is `None`.
fn past_value<V, W: Carry<V> + Drop>(before: &W, value: &Option<V>) -> Option<W>
    ensures { result ≡ option_map (W.past before.now) value.now }
{
    match value {
        Some(value) => Some(before.carry(value)),
        None => None,
    }
}

/// Passes `name` and the state `past` to the visitor `show`, unless `past` is `None`. Returns the
/// state at the name: `past`, or `before` if `past` is `None`.
fn show_name<'a, W, S: Show<W>>(
    past: &'a Option<W>,
    before: &'a W,
    name: &[u8],
    show: &mut S,
) -> Result<&'a W, Memory>
    ensures here { IfOk result (λ here. here.now ≡ unwrap_or past.now before.now) }
    ensures shown { OnOk result (show.new ≡ shown_if S.shown show.old name.now past.now) }
{
    match past {
        Some(past) => {
            show.show(name, past)?;
            Ok(past)
        }
        None => Ok(before),
    }
}

/// Appends the octets of `component` to `name`. If memory runs out, some of these octets may have
/// been appended.
fn put_component(name: &mut Vec<u8>, component: Component<'_>) -> Result<(), Memory>
    ensures { OnOk result
        (name.new.items ≡ name.old.items ++ element (field_of component.entry)) }
{
    put_header(name, u32::from(component.kind), component.value.len())?;
    name.extend_from_slice(component.value)?;
    Ok(())
}

/// Passes to the visitor `show` the name of each node that has a value, among node `at` and the
/// nodes below node `at`. Each name is passed with the state of the walk at this name. `before` is
/// the state before the walk visits node `at`. `depth` is the number of levels to show, including
/// the level of node `at`. `name` contains the octets of the name of node `at`.
fn show_below<V, W: Carry<V> + Drop, S: Show<W>>(
    nodes: &Slab<Node<V>>,
    at: usize,
    depth: usize,
    before: &W,
    name: &mut Vec<u8>,
    show: &mut S,
) -> Result<(), Memory>
    ensures name { OnOk result (name.new.items ≡ name.old.items) }
    ensures shown { OnOk result (show.new ≡ shown_after S.shown name.old.items
        (known_at W.past before.now (lookup (get nodes.now) (Some at))) show.old
        (rows (get nodes.now) depth (Some at))) }
{
    if depth == 0 {
        return Ok(());
    }
    let Some(node) = nodes.get(at) else {
        return Ok(());
    };
    let past = past_value(before, &node.value);
    let here = show_name(&past, before, name, show)?;
    for row in node.children.rows() {
        let len = name.len();
        put_component(name, row.0.view())?;
        show_below(nodes, row.1, depth - 1, here, name, show)?;
        name.truncate(len);
    }
    Ok(())
}

/// Passes to the visitor `show` all names that have a value, in canonical order. Each name is
/// passed with the state of the walk at this name. The walk begins with the state `before`.
pub fn show_all<V, W: Carry<V> + Drop, S: Show<W>>(
    alloc: Global,
    nodes: &Slab<Node<V>>,
    root: Option<usize>,
    before: &W,
    show: &mut S,
) -> Result<(), Memory>
    ensures { OnOk result (show.new ≡ shown_known S.shown
        (known_at W.past before.now (lookup (get nodes.now) root)) show.old
        (rows (get nodes.now) 65 root)) }
{
    let Some(root) = root else {
        return Ok(());
    };
    let mut name = Vec::new(alloc);
    show_below(nodes, root, MAX_COMPONENTS + 1, before, &mut name, show)
}

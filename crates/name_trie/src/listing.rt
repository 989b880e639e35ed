ghost use Rattle.std.specs.Prelude.{◌≡◌, ◌++◌, [], ◌∷◌, List, map, Some, IfOk, OnOk};
ghost use Rattle.slab.specs.Slab.{get};
ghost use Rattle.ndn_names.specs.View.{field_of};
ghost use Rattle.name_trie.specs.ByName.{with_entry};
ghost use Rattle.name_trie.specs.Trie.{rows, named};

use crate::node::Node;
use ndn_names::{Component, MAX_COMPONENTS, NameBuf};
use ndn_tlv::Memory;
use slab::Slab;
use std::alloc::Global;

/// Returns the name `front`, extended by `component`.
fn extended(alloc: Global, front: &NameBuf, component: Component<'_>) -> Result<NameBuf, Memory>
    ensures { IfOk result (λ name. name ≡ front.now ++ field_of component.entry ∷ []) }
{
    let mut name = front.try_clone(alloc)?;
    if name.append(component.kind, component.value).is_err() {
        return Err(Memory);
    }
    Ok(name)
}

/// Appends a row with the name `front` and the value of `node` to `list`, if the node has a value.
fn list_value<'a, V>(
    alloc: Global,
    node: &'a Node<V>,
    front: &NameBuf,
    list: &mut Vec<(NameBuf, &'a V)>,
) -> Result<(), Memory>
    ensures { OnOk result (map (λ r. (r.0, r.1.now)) list.new.items
        ≡ map (λ r. (r.0, r.1.now)) list.old.items
        ++ with_entry front.now node.now.value []) }
{
    if let Some(value) = &node.value {
        let name = front.try_clone(alloc)?;
        list.push((name, value))?;
    }
    Ok(())
}

/// Appends to `list` one row for node `at` and one for each node below node `at`, but only for
/// nodes that have a value. A row is a name and its value. The name of node `at` is `front`.
/// `depth` is the number of levels to list, including the level of node `at`.
pub fn list_below<'a, V>(
    alloc: Global,
    nodes: &'a Slab<Node<V>>,
    at: usize,
    front: &NameBuf,
    depth: usize,
    list: &mut Vec<(NameBuf, &'a V)>,
) -> Result<(), Memory>
    ensures { OnOk result (map (λ r. (r.0, r.1.now)) list.new.items
        ≡ map (λ r. (r.0, r.1.now)) list.old.items
        ++ named front.now (rows (get nodes.now) depth (Some at))) }
{
    if depth == 0 {
        return Ok(());
    }
    let Some(node) = nodes.get(at) else {
        return Ok(());
    };
    list_value(alloc, node, front, list)?;
    for row in node.children.rows() {
        let name = extended(alloc, front, row.0.view())?;
        list_below(alloc, nodes, row.1, &name, depth - 1, list)?;
    }
    Ok(())
}

/// Returns all names that have a value in a trie, with their values, in canonical order.
pub fn list<'a, V>(
    alloc: Global,
    nodes: &'a Slab<Node<V>>,
    root: Option<usize>,
) -> Result<Vec<(NameBuf, &'a V)>, Memory>
    ensures { IfOk result
        (λ list. map (λ r. (r.0, r.1.now)) list.items ≡ rows (get nodes.now) 65 root) }
{
    let mut list = Vec::new(alloc);
    let Some(root) = root else {
        return Ok(list);
    };
    let front = NameBuf::new(alloc);
    list_below(alloc, nodes, root, &front, MAX_COMPONENTS + 1, &mut list)?;
    Ok(list)
}

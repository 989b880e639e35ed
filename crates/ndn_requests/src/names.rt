//! Names under `/localhost/nfd`: the names of the node's commands and of its lists (NFD Management,
//! "Control Command", "Status Dataset").

ghost use Rattle.std.specs.Prelude.{◌≡◌, ◌++◌, [], ◌∷◌, IfOk, OnOk};
ghost use Rattle.mgmt_core.specs.Commands.{row_of};
ghost use Rattle.ndn_requests.specs.Commands.{node_name, node_path};
ghost use Rattle.ndn_requests.specs.Lists.{list_name};

use mgmt_core::Action;
use ndn_names::NameBuf;
use ndn_names::component_type::GENERIC;
use ndn_tlv::Memory;
use std::alloc::Global;

/// A list that the node publishes.
#[derive(Clone, Copy, Debug, PartialEq, Eq)]
pub enum NodeList {
    /// The list of routes: the FIB with the costs of its next hops.
    Routes,
    /// The list of strategies, by name prefix.
    Strategies,
}

/// Returns the name of the node's command for an action, without parameters.
pub fn action_name(alloc: Global, action: Action) -> Result<NameBuf, Memory>
    ensures { IfOk result (λ name. name ≡ node_name action) }
{
    node_path(alloc, module_of(action), verb_of(action))
}

fn module_of(action: Action) -> &'static str
    ensures { result.now ≡ (row_of action).part }
{
    match action {
        Action::AddNexthop | Action::RemoveNexthop => "fib",
        Action::Register | Action::Unregister => "rib",
        Action::SetStrategy | Action::UnsetStrategy => "strategy-choice",
        Action::EraseCache => "cs",
    }
}

fn verb_of(action: Action) -> &'static str
    ensures { result.now ≡ (row_of action).verb }
{
    match action {
        Action::AddNexthop => "add-nexthop",
        Action::RemoveNexthop => "remove-nexthop",
        Action::Register => "register",
        Action::Unregister => "unregister",
        Action::SetStrategy => "set",
        Action::UnsetStrategy => "unset",
        Action::EraseCache => "erase",
    }
}

/// Returns the name of a list, without a version.
pub fn list_name(alloc: Global, list: NodeList) -> Result<NameBuf, Memory>
    ensures { IfOk result (λ name. name ≡ list_name list) }
{
    match list {
        NodeList::Routes => node_path(alloc, "fib", "list"),
        NodeList::Strategies => node_path(alloc, "strategy-choice", "list"),
    }
}

/// Returns the name `/localhost/nfd/MODULE/WORD`.
fn node_path(alloc: Global, part: &str, word: &str) -> Result<NameBuf, Memory>
    ensures { IfOk result (λ name. name ≡ node_path part.now word.now) }
{
    let mut name = NameBuf::new(alloc);
    put_word(&mut name, "localhost")?;
    put_word(&mut name, "nfd")?;
    put_word(&mut name, part)?;
    put_word(&mut name, word)?;
    Ok(name)
}

fn put_word(name: &mut NameBuf, word: &str) -> Result<(), Memory>
    ensures { OnOk result (name.new ≡ name.old ++ (GENERIC, word.now) ∷ []) }
{
    match name.append(GENERIC, word.as_bytes()) {
        Ok(()) => Ok(()),
        Err(_) => Err(Memory),
    }
}

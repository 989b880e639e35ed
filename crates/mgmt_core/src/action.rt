ghost use Rattle.std.specs.Prelude.{◌≡◌};
ghost use Rattle.mgmt_core.specs.Commands.{row_of, is_named, takes, action_named};

use ndn_packets::command_types::{
    COST, COUNT, EXPIRATION_PERIOD, FACE_ID, FLAGS, ORIGIN, STRATEGY,
};
use ndn_packets::types::NAME;

/// The action of a command (NFD Management, "FIB Management", "RIB Management", "Strategy Choice
/// Management", "Content Store Management").
#[derive(Clone, Copy, Debug, PartialEq, Eq)]
pub enum Action {
    /// `fib/add-nexthop`: gives a name a next hop on a face. If the name already has a next hop on
    /// this face, sets the cost of this next hop.
    AddNexthop,
    /// `fib/remove-nexthop`: removes the next hop that a name has on a face.
    RemoveNexthop,
    /// `rib/register`: registers a route, or replaces the route with the same name, face and
    /// origin.
    Register,
    /// `rib/unregister`: removes the route with a given name, face and origin.
    Unregister,
    /// `strategy-choice/set`: sets the strategy for a name.
    SetStrategy,
    /// `strategy-choice/unset`: removes the strategy choice for a name.
    UnsetStrategy,
    /// `cs/erase`: erases Data from the cache.
    EraseCache,
}

impl Action {
    /// Returns whether this action has this module and this verb.
    fn is_named(self, module: &[u8], verb: &[u8]) -> bool
        ensures { result ≡ is_named «module».now verb.now self }
    {
        match self {
            Action::AddNexthop => {
                module == b"fib".as_slice() && verb == b"add-nexthop".as_slice()
            }
            Action::RemoveNexthop => {
                module == b"fib".as_slice() && verb == b"remove-nexthop".as_slice()
            }
            Action::Register => module == b"rib".as_slice() && verb == b"register".as_slice(),
            Action::Unregister => module == b"rib".as_slice() && verb == b"unregister".as_slice(),
            Action::SetStrategy => {
                module == b"strategy-choice".as_slice() && verb == b"set".as_slice()
            }
            Action::UnsetStrategy => {
                module == b"strategy-choice".as_slice() && verb == b"unset".as_slice()
            }
            Action::EraseCache => module == b"cs".as_slice() && verb == b"erase".as_slice(),
        }
    }

    /// Returns the action with this module and this verb, or `None` if there is none.
    pub(crate) fn named(module: &[u8], verb: &[u8]) -> Option<Action>
        ensures { result ≡ action_named «module».now verb.now }
    {
        if Action::AddNexthop.is_named(module, verb) {
            return Some(Action::AddNexthop);
        }
        if Action::RemoveNexthop.is_named(module, verb) {
            return Some(Action::RemoveNexthop);
        }
        if Action::Register.is_named(module, verb) {
            return Some(Action::Register);
        }
        if Action::Unregister.is_named(module, verb) {
            return Some(Action::Unregister);
        }
        if Action::SetStrategy.is_named(module, verb) {
            return Some(Action::SetStrategy);
        }
        if Action::UnsetStrategy.is_named(module, verb) {
            return Some(Action::UnsetStrategy);
        }
        if Action::EraseCache.is_named(module, verb) {
            return Some(Action::EraseCache);
        }
        None
    }

    /// Returns whether the action has a required or optional field of type `kind`.
    pub(crate) fn takes(self, kind: u32) -> bool
        ensures { result ≡ takes kind (row_of self) }
    {
        match self {
            Action::AddNexthop => kind == NAME || kind == FACE_ID || kind == COST,
            Action::RemoveNexthop => kind == NAME || kind == FACE_ID,
            Action::Register => matches!(
                kind,
                NAME | FACE_ID | ORIGIN | COST | FLAGS | EXPIRATION_PERIOD
            ),
            Action::Unregister => kind == NAME || kind == FACE_ID || kind == ORIGIN,
            Action::SetStrategy => kind == NAME || kind == STRATEGY,
            Action::UnsetStrategy => kind == NAME,
            Action::EraseCache => kind == NAME || kind == COUNT,
        }
    }
}

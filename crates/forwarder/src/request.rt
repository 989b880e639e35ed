ghost use Rattle.std.specs.Prelude.{◌≡◌, List, drop, length};
ghost use Rattle.ndn_tlv.specs.Element.{Field};
ghost use Rattle.ndn_names.specs.Name.{IsNameValue};
ghost use Rattle.ndn_names.specs.View.{components, field_of};
ghost use Rattle.ndn_packets.specs.Answers.{begins_with};
ghost use Rattle.ndn_packets.specs.View.{plain_interest};
ghost use Rattle.forwarder.specs.Policy.{Policy};
ghost use Rattle.forwarder.specs.Request.{has_no_hops as has_no_hops_of, is_local_name as is_local, list_after, list_asked, list_name, list_of_kind, management, named_request, numbered, request_named, shortest_number, versioned as versioned_as};

use ndn_names::component_type::{SEGMENT, VERSION};
use ndn_names::{Component, Name};
use ndn_packets::Interest;
use ndn_tlv::{nni_len, nni_of};
use repo_core::Repo;

/// A kind of list: a list of routes, or a list of strategies.
#[derive(Clone, Copy, Debug, PartialEq, Eq)]
pub(crate) enum ListKind {
    RouteList,
    StrategyList,
}

/// A request for one segment of a list (NFD Management, "Status Dataset").
#[derive(Clone, Copy, Debug, PartialEq, Eq)]
pub(crate) struct ListAsked {
    pub kind: ListKind,
    /// The version of the list, if the request has one.
    pub version: Option<u64>,
    /// The number of the segment, counted from 0.
    pub segment: u64,
}

/// What an Interest asks for, according to its name and its CanBePrefix.
#[derive(Clone, Copy, Debug, PartialEq, Eq)]
pub(crate) enum NamedRequest {
    ForList(ListAsked),
    /// A management command. Every Interest whose name begins with `/localhost/nfd` and that does
    /// not ask for a list is handled as a management command, even if no command has this name. The
    /// only exceptions are Interests that are dropped because of their HopLimit or scope.
    ForTables,
    /// A command to the repository.
    ForRepository,
    ForData,
}

/// Returns whether the name begins with the components that `octets` encode.
fn begins(name: Name<'_>, octets: &[u8]) -> bool
    ensures { (prefix : List Field) → IsNameValue octets.now prefix
        → result ≡ begins_with prefix (components name.entry) }
{
    name.as_octets().starts_with(octets)
}

/// Returns whether the name begins with `/localhost`. Packets with such a name stay on this
/// machine.
pub(crate) fn is_local_name(name: Name<'_>) -> bool
    ensures { result ≡ is_local (components name.entry) }
{
    begins(name, b"\x08\x09localhost")
}

/// Returns whether the name begins with `/localhost/nfd`. The names of lists, and of commands on
/// routes, strategies and the cache, begin with this prefix.
pub(crate) fn is_management(name: Name<'_>) -> bool
    ensures { result ≡ begins_with management (components name.entry) }
{
    begins(name, b"\x08\x09localhost\x08\x03nfd")
}

impl ListKind {
    ghost use Rattle.std.specs.Prelude.{◌≡◌, ◌++◌, ◌∷◌, [], codes};
    ghost use Rattle.ndn_names.specs.Name.{IsNameValue};
    ghost use Rattle.forwarder.specs.Request.{generic, list_name, management};

    /// Returns the value of the third component of the list's name.
    pub fn module(self) -> &'static [u8]
        ensures { list_name self
            ≡ management ++ generic result.now ∷ generic (codes "list") ∷ [] }
    {
        match self {
            ListKind::RouteList => b"fib".as_slice(),
            ListKind::StrategyList => b"strategy-choice".as_slice(),
        }
    }

    /// Returns the encoded components of the list's name.
    fn octets(self) -> &'static [u8]
        ensures { IsNameValue result.now (list_name self) }
    {
        match self {
            ListKind::RouteList => {
                b"\x08\x09localhost\x08\x03nfd\x08\x03fib\x08\x04list".as_slice()
            }
            ListKind::StrategyList => {
                b"\x08\x09localhost\x08\x03nfd\x08\x0fstrategy-choice\x08\x04list".as_slice()
            }
        }
    }
}

/// Returns whether the name begins with the name of the list.
fn is_list_name(kind: ListKind, name: Name<'_>) -> bool
    ensures { result ≡ begins_with (list_name kind) (components name.entry) }
{
    begins(name, kind.octets())
}

/// Returns the number that `value` encodes, or `None` if `value` is not the shortest encoding of a
/// number.
fn shortest_number(value: &[u8]) -> Option<u64>
    ensures { result ≡ shortest_number value.now }
{
    let Ok(number) = nni_of(value) else {
        return None;
    };
    if nni_len(number) != value.len() {
        return None;
    }
    Some(number)
}

/// Returns the number in a component of the type `kind`. Returns `None` if the component has
/// another type, or if the component's value is not the shortest encoding of a number.
fn numbered(kind: u16, component: Component<'_>) -> Option<u64>
    ensures { result ≡ numbered kind (field_of component.entry) }
{
    if component.kind == kind {
        shortest_number(component.value)
    } else {
        None
    }
}

/// Returns the request that the components after a list's name encode. A version followed by a
/// segment number requests this segment of this version. A version alone, or no component at all,
/// requests the first segment, but only if the Interest has CanBePrefix. Returns `None` in all
/// other cases.
fn list_after(kind: ListKind, can_be_prefix: bool, name: Name<'_>) -> Option<ListAsked>
    ensures { result ≡ list_after kind can_be_prefix (drop 4 (components name.entry)) }
{
    let Some(version) = name.component(4) else {
        return if can_be_prefix {
            Some(ListAsked {
                kind,
                version: None,
                segment: 0,
            })
        } else {
            None
        };
    };
    let Some(segment) = name.component(5) else {
        return if can_be_prefix {
            versioned(kind, 0, version)
        } else {
            None
        };
    };
    if name.len() > 6 {
        return None;
    }
    versioned(kind, numbered(SEGMENT, segment)?, version)
}

/// Returns a request for this segment of the list, in the version that the component encodes, or
/// `None` if the component encodes no version.
fn versioned(kind: ListKind, segment: u64, version: Component<'_>) -> Option<ListAsked>
    ensures { result ≡ versioned_as kind segment (numbered VERSION (field_of version.entry)) }
{
    let version = numbered(VERSION, version)?;
    Some(ListAsked {
        kind,
        version: Some(version),
        segment,
    })
}

/// Returns the request of an Interest for a segment of a list of this kind, or `None` if the
/// Interest does not ask for such a list.
fn list_of_kind(kind: ListKind, interest: &Interest<'_>) -> Option<ListAsked>
    ensures { result ≡ list_of_kind kind (plain_interest interest.now) }
{
    if is_list_name(kind, interest.name) {
        list_after(kind, interest.can_be_prefix, interest.name)
    } else {
        None
    }
}

/// Returns the request of an Interest for a segment of a list, or `None` if the Interest does not
/// ask for a list.
pub(crate) fn list_asked(interest: &Interest<'_>) -> Option<ListAsked>
    ensures { result ≡ list_asked (plain_interest interest.now) }
{
    match list_of_kind(ListKind::RouteList, interest) {
        Some(asked) => Some(asked),
        None => list_of_kind(ListKind::StrategyList, interest),
    }
}

/// Returns what an Interest asks for according to its name and its CanBePrefix, given the prefix of
/// the repository.
pub(crate) fn named_request(repo: &Repo, interest: &Interest<'_>) -> NamedRequest
    ensures { (p : Policy) → p.repo ≡ repo.now.start
        → request_named result
        ≡ named_request p (plain_interest interest.now) (list_asked (plain_interest interest.now)) }
{
    if let Some(asked) = list_asked(interest) {
        return NamedRequest::ForList(asked);
    }
    if is_management(interest.name) {
        return NamedRequest::ForTables;
    }
    match repo.verb_of(interest.name) {
        Some(_) => NamedRequest::ForRepository,
        None => NamedRequest::ForData,
    }
}

/// Returns whether the HopLimit of the Interest is 0.
pub(crate) fn has_no_hops(interest: &Interest<'_>) -> bool
    ensures { result ≡ has_no_hops_of interest.now.hop_limit }
{
    interest.hop_limit == Some(0)
}

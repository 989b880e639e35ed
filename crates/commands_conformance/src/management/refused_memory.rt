//! Tests of management commands whose memory was prepared, and of calls to which memory is refused.
//! Each function that the tests call returns `None` if memory was refused and nothing has changed.
//! So with ample memory its result is true, and if any single request for memory is refused, its
//! result is not false (`rt try --test --fail-alloc N`).

use super::effects::{Station, plain_command};
use mgmt_core::{Action, Command, put_response};
use ndn_names::Name;
use ndn_tlv::Memory;
use std::alloc::Global;

/// Returns `None` if a refused call left everything unchanged, and false otherwise.
fn refused(is_unchanged: bool) -> Option<bool> {
    if is_unchanged { None } else { Some(false) }
}

/// The octets of the name `/A`.
const A: &[u8] = b"\x08\x01A";

/// Returns a command with this action that is about `/A` and face 2.
fn about_a(action: Action) -> Option<Command<'static>> {
    let name = Name::read(A).ok()?;
    Some(plain_command(action, name))
}

/// Prepares a command for `/A`, and applies it. Returns whether `/A` then has a next hop. A command
/// that was prepared does not run out of memory.
fn applies_what_is_prepared(_alloc: Global, station: &mut Station, action: Action) -> Option<bool> {
    let command = about_a(action)?;
    if !station.prepare(&command) {
        return refused(station.hops(A) == 0);
    }
    Some(station.hops(A) == 0 && station.apply(&command) == 200 && station.hops(A) == 1)
}

/// Applies a command for `/A` that was not prepared. Returns whether `/A` then has a next hop.
fn applies_or_leaves(_alloc: Global, station: &mut Station, action: Action) -> Option<bool> {
    match station.apply(&about_a(action)?) {
        200 => Some(station.hops(A) == 1),
        0 => refused(station.hops(A) == 0),
        _ => Some(false),
    }
}

/// Returns whether a list has one segment with these octets, or `None` if memory ran out for the
/// list.
fn is_listed(list: Result<Option<(Vec<u8>, u64)>, Memory>, octets: &[u8]) -> Option<bool> {
    match list {
        Ok(Some((segment, last))) => Some(segment.as_slice() == octets && last == 0),
        Ok(None) => Some(false),
        Err(Memory) => None,
    }
}

/// The list of routes, if `/A` has a next hop on face 2.
const ROUTES: &[u8] = b"\x80\x0d\x07\x03\x08\x01A\x81\x06\x69\x01\x02\x6a\x01\x00";

/// The list of the strategies of a new node.
const STRATEGIES: &[u8] =
    b"\x80\x2c\x07\x00\x6b\x28\x07\x26\x08\x09localhost\x08\x03nfd\x08\x08strategy\x08\x0abest-route";

/// Applies a command for `/A` and face 2. Returns whether the list of routes then has its next hop.
fn lists_routes(alloc: Global, station: &mut Station, action: Action) -> Option<bool> {
    match station.apply(&about_a(action)?) {
        200 => is_listed(station.routes(alloc, 0), ROUTES),
        _ => refused(station.hops(A) == 0),
    }
}

/// Applies a command for `/A`. Returns whether the list of strategies is that of a new node.
fn lists_strategies(alloc: Global, station: &mut Station, action: Action) -> Option<bool> {
    match station.apply(&about_a(action)?) {
        200 => is_listed(station.strategies(alloc, 0), STRATEGIES),
        _ => refused(station.hops(A) == 0),
    }
}

/// Returns what `play` returns for a new station and this action.
fn played(
    alloc: Global,
    action: Action,
    play: fn(Global, &mut Station, Action) -> Option<bool>,
) -> Option<bool>
    requires { IsAlwaysCallable play }
{
    let mut station = Station::new(alloc)?;
    play(alloc, &mut station, action)
}

/// The octet 7, without and with a reply after it.
const SEVEN: &[u8] = b"\x07";

const REPLY: &[u8] = b"\x07\x65\x07\x66\x01\xc8\x67\x02OK";

/// Appends a reply to a buffer of one octet. Returns whether the buffer then has this octet and the
/// reply.
fn replies_or_leaves(alloc: Global) -> Option<bool> {
    let mut out = vec![in alloc; 7].ok()?;
    match put_response(&mut out, 200, "OK", &[]) {
        Ok(()) => Some(out.as_slice() == REPLY),
        Err(Memory) => refused(out.as_slice() == SEVEN),
    }
}

const ADD: Action = Action::AddNexthop;

const REGISTER: Action = Action::Register;

#[test]
fn prepared_commands(rt: HostRuntime) {
    assert!(rt; played(rt.alloc(), ADD, applies_what_is_prepared) == Some(true));
    assert!(rt; played(rt.alloc(), REGISTER, applies_what_is_prepared) == Some(true));
    assert!(rt; played(rt.alloc(), ADD, applies_or_leaves) == Some(true));
    assert!(rt; played(rt.alloc(), REGISTER, applies_or_leaves) == Some(true));
    assert!(rt; played(rt.alloc(), ADD, lists_routes) == Some(true));
    assert!(rt; played(rt.alloc(), ADD, lists_strategies) == Some(true));
    assert!(rt; replies_or_leaves(rt.alloc()) == Some(true));
}

#[test]
fn refused_memory_for_commands(rt: HostRuntime) {
    assert!(rt; played(rt.alloc(), ADD, applies_what_is_prepared) != Some(false));
    assert!(rt; played(rt.alloc(), REGISTER, applies_what_is_prepared) != Some(false));
    assert!(rt; played(rt.alloc(), ADD, applies_or_leaves) != Some(false));
    assert!(rt; played(rt.alloc(), REGISTER, applies_or_leaves) != Some(false));
    assert!(rt; played(rt.alloc(), ADD, lists_routes) != Some(false));
    assert!(rt; played(rt.alloc(), ADD, lists_strategies) != Some(false));
    assert!(rt; replies_or_leaves(rt.alloc()) != Some(false));
}

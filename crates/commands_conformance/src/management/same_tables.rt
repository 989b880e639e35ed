//! Tests of comparisons of the tables that commands change: next hops and routes, and strategies.

use super::effects::{BEST_ROUTE, MULTICAST, Station, plain_command};
use mgmt_core::{Action, Command};
use ndn_names::Name;
use std::alloc::Global;

/// The octets of the names `/A`, `/B` and `/C`.
const A: &[u8] = b"\x08\x01A";

const B: &[u8] = b"\x08\x01B";

const C: &[u8] = b"\x08\x01C";

/// Applies commands. Returns whether each of them has status 200.
fn applies_each(station: &mut Station, commands: &[Command<'_>]) -> bool {
    for command in commands {
        if station.apply(command) != 200 {
            return false;
        }
    }
    true
}

/// Returns a station after these commands. Returns `None` if a command is refused or memory runs
/// out.
fn station_after(alloc: Global, commands: &[Command<'_>]) -> Option<Station> {
    let mut station = Station::new(alloc)?;
    if applies_each(&mut station, commands) {
        Some(station)
    } else {
        None
    }
}

/// Returns what `Station::sameness` returns for this station and a station after the commands
/// `others`.
fn sameness_after(
    alloc: Global,
    station: &Station,
    others: &[Command<'_>],
) -> Option<(bool, bool)> {
    let other = station_after(alloc, others)?;
    station.sameness(alloc, &other)
}

/// Returns whether `Station::sameness` returns `expected` for a station after the commands
/// `commands` and a station after the commands `others`.
fn compares(
    alloc: Global,
    commands: &[Command<'_>],
    others: &[Command<'_>],
    expected: (bool, bool),
) -> bool {
    match station_after(alloc, commands) {
        Some(station) => sameness_after(alloc, &station, others) == Some(expected),
        None => false,
    }
}

/// What `Station::sameness` returns if nothing differs, if only next hops or routes differ, and if
/// only strategies differ.
const SAME: (bool, bool) = (true, true);

const OTHER_ROUTES: (bool, bool) = (false, true);

const OTHER_CHOICES: (bool, bool) = (true, false);

/// Returns whether `Station::sameness` returns `expected` for a station after the command `one` and
/// a station after any one of the commands `others`, and also for a station after both commands and
/// a station after `one`.
fn differs_from_each(
    alloc: Global,
    one: Command<'_>,
    others: &[Command<'_>],
    expected: (bool, bool),
) -> bool {
    for other in others {
        if !compares(alloc, &[one], &[*other], expected)
            || !compares(alloc, &[one, *other], &[one], expected)
        {
            return false;
        }
    }
    true
}

/// Returns whether each single difference between two next hops, and between a next hop and a
/// route, is seen.
fn hops_differ(alloc: Global) -> bool {
    let (Ok(a), Ok(b)) = (Name::read(A), Name::read(B)) else {
        return false;
    };
    let hop = plain_command(Action::AddNexthop, a);
    let others = [
        Command { name: b, ..hop },
        Command { face: 9, ..hop },
        Command { cost: 1, ..hop },
        plain_command(Action::Register, a),
    ];
    differs_from_each(alloc, hop, &others, OTHER_ROUTES)
}

/// Returns whether each single difference between two routes is seen.
fn routes_differ(alloc: Global) -> bool {
    let (Ok(a), Ok(b)) = (Name::read(A), Name::read(B)) else {
        return false;
    };
    let route = plain_command(Action::Register, a);
    let others = [
        Command { name: b, ..route },
        Command { face: 9, ..route },
        Command { origin: 1, ..route },
        Command { cost: 1, ..route },
        Command { flags: 3, ..route },
        Command {
            expires: Some(9),
            ..route
        },
    ];
    differs_from_each(alloc, route, &others, OTHER_ROUTES)
}

/// Returns whether tables with the same next hops and routes are the same, whichever commands made
/// them.
fn equal_routes_are_same(alloc: Global) -> bool {
    let (Ok(a), Ok(b)) = (Name::read(A), Name::read(B)) else {
        return false;
    };
    let hop = Command {
        cost: 5,
        ..plain_command(Action::AddNexthop, a)
    };
    let route = Command {
        expires: Some(9),
        ..plain_command(Action::Register, b)
    };
    let others = [
        route,
        Command { cost: 6, ..hop },
        Command { name: b, ..hop },
        hop,
        plain_command(Action::RemoveNexthop, b),
    ];
    compares(alloc, &[hop, route], &others, SAME) && compares(alloc, &[], &[], SAME)
}

#[test]
fn same_routes(rt: HostRuntime) {
    assert!(rt; equal_routes_are_same(rt.alloc()));
    assert!(rt; hops_differ(rt.alloc()));
    assert!(rt; routes_differ(rt.alloc()));
}

/// Returns a command that sets a strategy.
fn sets<'a>(name: Name<'a>, strategy: Name<'a>) -> Command<'a> {
    Command {
        strategy: Some(strategy),
        ..plain_command(Action::SetStrategy, name)
    }
}

/// Returns whether each single difference between two tables of strategies is seen: another
/// strategy of a name, another name, one more name, and another strategy of `/`.
fn choices_differ(alloc: Global) -> bool {
    let (Ok(multicast), Ok(best_route)) = (Name::read(MULTICAST), Name::read(BEST_ROUTE)) else {
        return false;
    };
    let (Ok(root), Ok(a), Ok(b)) = (Name::read(b""), Name::read(A), Name::read(B)) else {
        return false;
    };
    let choice = sets(a, multicast);
    let others = [
        sets(a, best_route),
        sets(b, multicast),
        sets(root, multicast),
    ];
    differs_from_each(alloc, choice, &others, OTHER_CHOICES)
}

/// Returns whether tables with the same strategies are the same, whichever commands made them.
fn equal_choices_are_same(alloc: Global) -> bool {
    let (Ok(multicast), Ok(best_route)) = (Name::read(MULTICAST), Name::read(BEST_ROUTE)) else {
        return false;
    };
    let (Ok(a), Ok(b), Ok(c)) = (Name::read(A), Name::read(B), Name::read(C)) else {
        return false;
    };
    let choices = [sets(a, multicast), sets(b, best_route)];
    let others = [
        sets(b, best_route),
        sets(c, multicast),
        sets(a, best_route),
        sets(a, multicast),
        plain_command(Action::UnsetStrategy, c),
    ];
    compares(alloc, &choices, &others, SAME)
}

#[test]
fn same_strategies(rt: HostRuntime) {
    assert!(rt; equal_choices_are_same(rt.alloc()));
    assert!(rt; choices_differ(rt.alloc()));
}

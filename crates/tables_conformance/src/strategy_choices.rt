//! Tests of a strategy of the tests' own, of strategies at moments at which no node uses them, of
//! sets of 64 faces, and of the strategy of `/`.

ghost use Rattle.std.specs.Prelude.{Contains, take};
ghost use Rattle.std.proofs.lemmas.List.Elements.{All-take, All-contains_itself};

use crate::route_table::RouteTable;
use ndn_names::Name;
use pit_fib::{Faces, Hops, StrategyId, StrategyTable, Used};
use std::alloc::Global;
use strategies::*;

/// A strategy besides best-route and multicast. The strategy sends only to the first eligible next
/// hop, even if that next hop was used recently.
struct First;

impl Strategy for First {
    ghost selection = { λ hops used now. take 1 hops };

    ghost takes_eligible = { λ hops used now.
        All-take (Contains hops) 1 hops (All-contains_itself hops) };

    fn choose(&self, hops: &Hops, _used: &Used, ask: Ask) -> Choice {
        if !any_eligible(hops, ask) {
            return Choice::NoRoute;
        }
        let mut faces = Faces::new();
        for i in (0..hops.len()).rev() {
            if let Some(hop) = eligible_at(hops, i, ask) {
                faces = Faces::new();
                faces.insert(hop.face);
            }
        }
        Choice::Send(faces)
    }
}

/// Adds next hops of `/`: on face 2 with the cost 5, and on face 3 with the cost 0. Returns the
/// next hops of `/`.
fn two_hops(routes: &mut RouteTable) -> Option<Hops> {
    let root = Name::read(b"").ok()?;
    routes.add(root, 2, 5).ok()?;
    routes.add(root, 3, 0).ok()?;
    Some(routes.read().longest(root))
}

/// Returns whether a choice is `NoRoute` for the word `none`, and otherwise sends to the faces 2
/// and 3 exactly if the digits 2 and 3 are in `faces`.
fn is_choice(choice: Choice, faces: &str) -> bool {
    match choice {
        Choice::NoRoute => faces == "none",
        Choice::Send(sent) => {
            sent.contains(2) == faces.contains('2')
                && sent.contains(3) == faces.contains('3')
                && sent.len() == faces.len()
        }
    }
}

/// Returns whether a strategy chooses these faces at the moment `now`, for an Interest of the face
/// `asker`. Face 3 was last used at the moment `used`.
fn chooses<S: Strategy>(
    alloc: Global,
    strategy: &S,
    asker: u64,
    used: u64,
    now: u64,
    faces: &str,
) -> bool {
    let mut routes = RouteTable::new(alloc);
    let mut moments = Used::new();
    moments.insert(3, used);
    let ask = Ask {
        asker: Some(asker),
        localhost: false,
        hop_zero: false,
        now,
    };
    match two_hops(&mut routes) {
        Some(hops) => is_choice(strategy.choose(&hops, &moments, ask), faces),
        None => false,
    }
}

/// Returns whether the strategy `First` finds no route if there is no next hop.
fn finds_no_route(alloc: Global) -> bool {
    let routes = RouteTable::new(alloc);
    let ask = Ask {
        asker: None,
        localhost: false,
        hop_zero: false,
        now: 1000,
    };
    match Name::read(b"") {
        Ok(root) => {
            let hops = routes.read().longest(root);
            is_choice(First.choose(&hops, &Used::new(), ask), "none")
        }
        Err(_) => false,
    }
}

/// These tests define a third strategy, which sends to the first eligible next hop.
#[test]
fn a_third_strategy(rt: HostRuntime) {
    assert!(rt; chooses(rt.alloc(), &First, 9, 1000, 1000, "3"));
    assert!(rt; chooses(rt.alloc(), &First, 3, 1000, 1000, "2"));
    assert!(rt; finds_no_route(rt.alloc()));
}

/// The strategies accept the greatest moments. A last use that is later than the present moment
/// counts as less than 10 milliseconds ago.
#[test]
fn ends_of_moments(rt: HostRuntime) {
    let end = u64::MAX;
    assert!(rt; chooses(rt.alloc(), &BestRoute, 9, end - 9, end, ""));
    assert!(rt; chooses(rt.alloc(), &BestRoute, 9, end - 10, end, "2"));
    assert!(rt; chooses(rt.alloc(), &BestRoute, 9, end, end, ""));
    assert!(rt; chooses(rt.alloc(), &Multicast, 9, 0, end, "23"));
    assert!(rt; chooses(rt.alloc(), &BestRoute, 9, end, 0, ""));
    assert!(rt; chooses(rt.alloc(), &Multicast, 9, end, 0, "2"));
}

/// Returns whether a `Faces` and a `Used` each accept 64 faces, then refuse a further face, but
/// accept a known face again.
fn take_64_faces() -> bool {
    let mut faces = Faces::new();
    let mut used = Used::new();
    for face in 0..64 {
        if !faces.insert(face) || !used.insert(face, 0) {
            return false;
        }
    }
    !faces.insert(64)
        && !used.insert(64, 0)
        && faces.insert(63)
        && used.insert(63, 1)
        && faces.len() == 64
        && used.get(63) == Some(1)
}

#[test]
fn sixty_four_faces(rt: HostRuntime) {
    assert!(rt; take_64_faces());
}

/// Returns whether `/` has this strategy in a table in which `/A`, and before it `/` if `sets_root`
/// is set, got the strategy multicast.
fn is_strategy_of_root(alloc: Global, sets_root: bool, expected: StrategyId) -> bool {
    let (Ok(root), Ok(name)) = (Name::read(b""), Name::read(b"\x08\x01A")) else {
        return false;
    };
    let mut table = StrategyTable::new(alloc);
    let before = table.longest(root);
    let root_is_set = !sets_root || table.set(root, StrategyId::Multicast).is_ok();
    let is_set = root_is_set && table.set(name, StrategyId::Multicast).is_ok();
    is_set && before == StrategyId::BestRoute && table.longest(root) == expected
}

#[test]
fn strategy_of_root(rt: HostRuntime) {
    assert!(rt; is_strategy_of_root(rt.alloc(), false, StrategyId::BestRoute));
    assert!(rt; is_strategy_of_root(rt.alloc(), true, StrategyId::Multicast));
}

//! Tests of full tables of next hops, routes and strategies.

ghost use Rattle.std.specs.Prelude.{◌≡◌};

use content_store::Store;
use mgmt_core::*;
use ndn_names::Name;
use ndn_tlv::Memory;
use pit_fib::{Faces, Fib, StrategyId, StrategyTable};
use std::alloc::Global;
use std::marker::Model;

/// The tables, and the faces that are up. Each face that has a next hop or a route is up.
#[derive(Drop)]
pub struct Station {
    tables: Tables,
    up: Faces,
}

impl Model for Station {
    ghost use Rattle.pit_fib.specs.Fib.{Entry, entry_code};
    ghost use Rattle.pit_fib.specs.NameTable.{NameTable, name_table_code};
    ghost use Rattle.mgmt_core.specs.Tables.{AllAreUp};

    ghost Value = { NameTable Entry };

    ghost coded = { name_table_code entry_code };

    ghost view = { λ s. s.tables.fib };

    ghost invariant = { λ s. AllAreUp s.tables.fib.table s.up };
}

impl Station {
    /// Returns a station that has no routes and no Data. The faces 2 and 9 are up.
    pub fn new(alloc: Global) -> Option<Station> {
        let store = Store::new(alloc, 8).ok()?;
        let mut up = Faces::new();
        up.insert(2);
        up.insert(9);
        Some(Station {
            tables: Tables::new(alloc, Fib::new(alloc), StrategyTable::new(alloc), store),
            up,
        })
    }

    /// Applies a command from face 9. Returns the command's status, or 0 if memory runs out.
    pub fn apply(&mut self, command: &Command<'_>) -> u16 {
        match apply(&mut self.tables, command, 9, &self.up, 1_000_000) {
            Ok(applied) => applied.status,
            Err(_) => 0,
        }
    }

    /// Prepares a command. Returns false if memory runs out.
    pub fn prepare(&mut self, command: &Command<'_>) -> bool {
        self.tables.prepare(command).is_ok()
    }

    /// Returns a segment of the list of routes, and the number of the last segment.
    pub fn routes(&self, alloc: Global, number: u64) -> Result<Option<(Vec<u8>, u64)>, Memory> {
        fib_segment(alloc, &self.tables.fib, 0, number)
    }

    /// Returns a segment of the list of strategies, and the number of the last segment.
    pub fn strategies(&self, alloc: Global, number: u64) -> Result<Option<(Vec<u8>, u64)>, Memory> {
        strategy_segment(alloc, &self.tables.strategies, number)
    }

    /// Returns whether two stations have the same next hops and routes, and whether they have the
    /// same strategies. Returns `None` if memory runs out.
    pub fn sameness(&self, alloc: Global, other: &Station) -> Option<(bool, bool)> {
        let (tables, others) = (&self.tables, &other.tables);
        let are_routes = tables.fib.has_same_routes(alloc, &others.fib).ok()?;
        let are_choices = tables
            .strategies
            .has_same_choices(alloc, &others.strategies)
            .ok()?;
        Some((are_routes, are_choices))
    }

    /// Returns whether the list of routes has 16 segments of 4,096 octets, and the segment with
    /// this number begins with `first` and ends with `last`.
    fn has_segment(&self, alloc: Global, number: u64, first: &[u8], last: &[u8]) -> bool {
        matches!(
            self.routes(alloc, number),
            Ok(Some((text, 15))) if text.len() == 4096
                && text.starts_with(first)
                && text.ends_with(last)
        )
    }

    /// Returns the number of next hops for Interests with this name.
    pub fn hops(&self, octets: &[u8]) -> usize {
        match Name::read(octets) {
            Ok(name) => self.tables.fib.longest(name).len(),
            Err(_) => usize::MAX,
        }
    }

    /// Returns the cost of the first next hop for Interests with this name.
    fn cost(&self, octets: &[u8]) -> Option<u64> {
        let name = Name::read(octets).ok()?;
        let hop = self.tables.fib.longest(name).get(0)?;
        Some(hop.cost)
    }

    /// Returns whether Interests with this name have this strategy.
    fn has_strategy(&self, octets: &[u8], strategy: StrategyId) -> bool {
        match Name::read(octets) {
            Ok(name) => self.tables.strategies.longest(name) == strategy,
            Err(_) => false,
        }
    }

    /// Applies a command about the name in `octets`, and returns its status.
    fn status(
        &mut self,
        action: Action,
        octets: &[u8],
        face: u64,
        origin: u64,
        strategy: Option<Name<'_>>,
    ) -> u16 {
        let Ok(name) = Name::read(octets) else {
            return 0;
        };
        self.apply(&Command {
            face,
            origin,
            strategy,
            ..plain_command(action, name)
        })
    }

    /// Adds a next hop of a name. Returns the status.
    fn add(&mut self, octets: &[u8], face: u64) -> u16 {
        self.status(Action::AddNexthop, octets, face, 0, None)
    }

    /// Adds a next hop of a name on face 2, with this cost. Returns the status.
    fn add_at_cost(&mut self, octets: &[u8], cost: u64) -> u16 {
        match Name::read(octets) {
            Ok(name) => self.apply(&Command {
                cost,
                ..plain_command(Action::AddNexthop, name)
            }),
            Err(_) => 0,
        }
    }

    /// Registers a route of a name. Returns the status.
    fn register(&mut self, octets: &[u8], face: u64, origin: u64) -> u16 {
        self.status(Action::Register, octets, face, origin, None)
    }
}

/// Returns a command about this name and face 2, with the default value of each other field.
pub fn plain_command(action: Action, name: Name<'_>) -> Command<'_> {
    Command {
        action,
        name,
        face: 2,
        origin: 0,
        cost: 0,
        flags: 1,
        expires: None,
        strategy: None,
        count: None,
    }
}

/// Returns the octets of the name with one component, which is `number` in two octets.
fn numbered(number: u16) -> [u8; 4] {
    let [high, low] = number.to_be_bytes();
    [8, 2, high, low]
}

/// A name of 33 components `A`.
const DEEP: &[u8] =
    b"\x08\x01A\x08\x01A\x08\x01A\x08\x01A\x08\x01A\x08\x01A\x08\x01A\x08\x01A\x08\x01A\x08\x01A\x08\x01A\x08\x01A\x08\x01A\x08\x01A\x08\x01A\x08\x01A\x08\x01A\x08\x01A\x08\x01A\x08\x01A\x08\x01A\x08\x01A\x08\x01A\x08\x01A\x08\x01A\x08\x01A\x08\x01A\x08\x01A\x08\x01A\x08\x01A\x08\x01A\x08\x01A\x08\x01A";

/// Returns what `play` returns for a new station, or false if memory runs out.
fn played(alloc: Global, play: fn(Global, &mut Station) -> bool) -> bool
    requires { IsAlwaysCallable play }
{
    match Station::new(alloc) {
        Some(mut station) => play(alloc, &mut station),
        None => false,
    }
}

/// Returns whether 4,096 names take a next hop on face 2. The greatest name comes first.
fn takes_4096_names(station: &mut Station) -> bool {
    for number in (0..4096).rev() {
        if station.add(&numbered(number), 2) != 200 {
            return false;
        }
    }
    true
}

/// Returns whether a full table refuses a new name but accepts another next hop, another cost of a
/// next hop, and a route, for a known name. Even a full table must give status 414 for a name that
/// is too long, and status 410 for a face that is not up.
fn refuses_one_name_more(station: &mut Station) -> bool {
    station.add(DEEP, 7) == 414
        && station.register(DEEP, 7, 0) == 414
        && station.add(&numbered(4096), 7) == 410
        && station.add(&numbered(4096), 2) == 503
        && station.register(&numbered(4096), 2, 0) == 503
        && station.hops(&numbered(4096)) == 0
        && station.add(&numbered(4095), 9) == 200
        && station.hops(&numbered(4095)) == 2
        && station.cost(&numbered(5)) == Some(0)
        && station.add_at_cost(&numbered(5), 7) == 200
        && station.cost(&numbered(5)) == Some(7)
        && station.add_at_cost(&numbered(4096), 7) == 503
        && station.register(&numbered(6), 2, 0) == 200
}

/// Returns whether a full table accepts a new name only after another name has lost its last next
/// hop and its last route, whichever of them goes first.
fn frees_names(station: &mut Station) -> bool {
    station.status(Action::RemoveNexthop, &numbered(6), 2, 0, None) == 200
        && station.register(&numbered(4096), 2, 0) == 503
        && station.status(Action::Unregister, &numbered(6), 2, 0, None) == 200
        && station.register(&numbered(4096), 2, 0) == 200
        && station.add(&numbered(6), 2) == 503
        && station.add(&numbered(4096), 2) == 200
        && station.status(Action::Unregister, &numbered(4096), 2, 0, None) == 200
        && station.add(&numbered(6), 2) == 503
        && station.status(Action::RemoveNexthop, &numbered(4096), 2, 0, None) == 200
        && station.add(&numbered(6), 2) == 200
}

/// The entries of the first and of the last of the 4,096 names in the list of routes.
const FIRST: &[u8] = b"\x80\x0e\x07\x04\x08\x02\x00\x00\x81\x06\x69\x01\x02\x6a\x01\x00";

const LAST: &[u8] = b"\x80\x0e\x07\x04\x08\x02\x0f\xff\x81\x06\x69\x01\x02\x6a\x01\x00";

/// Returns whether the list of 4,096 routes has 16 segments, with the expected first and last
/// routes.
fn lists_4096_names(alloc: Global, station: &Station) -> bool {
    for number in 0..16 {
        if !station.has_segment(alloc, number, b"", b"") {
            return false;
        }
    }
    station.has_segment(alloc, 0, FIRST, b"")
        && station.has_segment(alloc, 15, b"", LAST)
        && matches!(station.routes(alloc, 16), Ok(None))
}

fn names_are_limited(alloc: Global, station: &mut Station) -> bool {
    takes_4096_names(station)
        && lists_4096_names(alloc, station)
        && refuses_one_name_more(station)
        && frees_names(station)
}

/// At most 4,096 names have next hops or routes. The list of 4,096 next hops has 16 octets for each
/// of them.
#[test]
fn names_with_routes_are_limited(rt: HostRuntime) {
    assert!(rt; played(rt.alloc(), names_are_limited));
}

/// Returns whether 256 names take 64 routes each: on two faces, with 32 origins on each face.
fn takes_16384_routes(station: &mut Station) -> bool {
    for number in 0..256 {
        for origin in 0..32 {
            let name = numbered(number);
            if station.register(&name, 2, origin) != 200
                || station.register(&name, 9, origin) != 200
            {
                return false;
            }
        }
    }
    true
}

/// Returns whether a table with 16,384 routes refuses a new route for a known name, for a new name
/// and for a name of 33 components. The table must accept a route that it already has, a next hop
/// of a new name, and another cost of this next hop. After a route is unregistered, it must accept
/// one new route, but no second one. The removal of a next hop leaves no room for a route.
fn routes_are_limited(_alloc: Global, station: &mut Station) -> bool {
    takes_16384_routes(station)
        && station.register(&numbered(7), 2, 32) == 503
        && station.register(&numbered(256), 2, 32) == 503
        && station.register(DEEP, 2, 32) == 414
        && station.register(&numbered(7), 9, 31) == 200
        && station.add(&numbered(256), 2) == 200
        && station.add_at_cost(&numbered(256), 7) == 200
        && station.cost(&numbered(256)) == Some(7)
        && station.status(Action::Unregister, &numbered(7), 2, 0, None) == 200
        && station.register(&numbered(256), 2, 32) == 200
        && station.register(&numbered(257), 2, 32) == 503
        && station.status(Action::RemoveNexthop, &numbered(256), 2, 0, None) == 200
        && station.register(&numbered(257), 2, 32) == 503
}

#[test]
fn sixteen_thousand_routes(rt: HostRuntime) {
    assert!(rt; played(rt.alloc(), routes_are_limited));
}

/// The octets of the names of both strategies, and of the name `/A`.
pub const MULTICAST: &[u8] = b"\x08\x09localhost\x08\x03nfd\x08\x08strategy\x08\x09multicast";

pub const BEST_ROUTE: &[u8] = b"\x08\x09localhost\x08\x03nfd\x08\x08strategy\x08\x0abest-route";

const UNKNOWN: &[u8] = b"\x08\x01A";

/// Sets a strategy for a name. Returns the status.
fn set(station: &mut Station, octets: &[u8], strategy: &[u8]) -> u16 {
    match Name::read(strategy) {
        Ok(strategy) => station.status(Action::SetStrategy, octets, 0, 0, Some(strategy)),
        Err(_) => 0,
    }
}

/// Returns whether 4,095 names besides `/` take a strategy. The greatest name comes first.
fn takes_4096_strategies(station: &mut Station) -> bool {
    for number in (1..4096).rev() {
        if set(station, &numbered(number), MULTICAST) != 200 {
            return false;
        }
    }
    true
}

/// The name `/` has a strategy from the start, so the table is full with 4,095 further names.
/// Returns whether a full table refuses a further name, but replaces the strategy of a known name
/// and of `/`. Even the full table must give status 404 for an unknown strategy, and 414 for a name
/// of 33 components. After a strategy is unset, it must accept a further name.
fn strategies_are_limited(_alloc: Global, station: &mut Station) -> bool {
    takes_4096_strategies(station)
        && set(station, &numbered(4096), UNKNOWN) == 404
        && set(station, DEEP, MULTICAST) == 414
        && set(station, &numbered(4096), MULTICAST) == 503
        && station.has_strategy(&numbered(4096), StrategyId::BestRoute)
        && set(station, &numbered(1), BEST_ROUTE) == 200
        && set(station, b"", MULTICAST) == 200
        && station.has_strategy(&numbered(1), StrategyId::BestRoute)
        && station.has_strategy(b"", StrategyId::Multicast)
        && station.status(Action::UnsetStrategy, &numbered(8), 0, 0, None) == 200
        && set(station, &numbered(4096), MULTICAST) == 200
}

#[test]
fn strategies_are_limited_to_4096(rt: HostRuntime) {
    assert!(rt; played(rt.alloc(), strategies_are_limited));
}

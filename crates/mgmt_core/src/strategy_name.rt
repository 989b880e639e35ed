ghost use Rattle.std.specs.Prelude.{◌≡◌};
ghost use Rattle.ndn_names.specs.View.{components};
ghost use Rattle.mgmt_core.specs.Tables.{strategy_named, is_strategy};
ghost use Rattle.mgmt_core.specs.Writing.{strategy_value};

use crate::command::without_last;
use ndn_names::Name;
use ndn_names::component_type::VERSION;
use pit_fib::StrategyId;

/// The name of the best-route strategy, encoded as a Name element.
const BEST_ROUTE: &[u8; 40] =
    b"\x07\x26\x08\x09localhost\x08\x03nfd\x08\x08strategy\x08\x0abest-route";

const MULTICAST: &[u8; 39] =
    b"\x07\x25\x08\x09localhost\x08\x03nfd\x08\x08strategy\x08\x09multicast";

/// Returns the name of the strategy, encoded as a Name element.
pub fn strategy_value(strategy: StrategyId) -> &'static [u8]
    ensures { result.now ≡ strategy_value strategy }
{
    match strategy {
        StrategyId::BestRoute => BEST_ROUTE,
        StrategyId::Multicast => MULTICAST,
    }
}

/// Returns the strategy with this name, or `None` if there is none. A Version component may follow
/// the strategy's name.
pub fn strategy_named(name: Name<'_>) -> Option<StrategyId>
    ensures { result ≡ strategy_named (components name.entry) }
{
    let name = without_last(name, VERSION);
    if is_name_of(name, StrategyId::BestRoute) {
        return Some(StrategyId::BestRoute);
    }
    if is_name_of(name, StrategyId::Multicast) {
        return Some(StrategyId::Multicast);
    }
    None
}

/// Returns whether `name` is the name of the strategy.
fn is_name_of(name: Name<'_>, strategy: StrategyId) -> bool
    ensures { result ≡ is_strategy (components name.entry) strategy }
{
    let (_, octets) = strategy_value(strategy).split_at(2);
    name.as_octets() == octets
}

ghost use Rattle.std.specs.Prelude.{◌≡◌};
ghost use Rattle.ndn_names.specs.View.{components};
ghost use Rattle.ndn_packets.specs.View.{plain_interest};
ghost use Rattle.forwarder.specs.NextHops.{ask_for, ask_from, choice_for};
ghost use Rattle.forwarder.specs.State.{policy_of};

use crate::request::is_local_name;
use crate::state::State;
use ndn_names::Name;
use ndn_packets::Interest;
use pit_fib::{StrategyId, Used};
use strategies::{Ask, BestRoute, Choice, Multicast, Strategy};

impl State {
    /// Returns the choice of the name's strategy for an Interest of this name (NFD Developer's
    /// Guide, "Strategies"). `used` has, for each face with an out-record of this Interest's PIT
    /// key, the moment at which an Interest of this key was last sent to the face. For the node's
    /// own Interests, `used` is empty.
    pub fn choose(&self, name: Name<'_>, used: &Used, ask: Ask) -> Choice
        ensures { result
            ≡ choice_for (policy_of self.entry.now) (components name.entry) used.now ask }
    {
        let mut hops = self.tables.fib.longest(name);
        hops.mark(self.faces.locals());
        match self.tables.strategies.longest(name) {
            StrategyId::BestRoute => BestRoute.choose(&hops, used, ask),
            StrategyId::Multicast => Multicast.choose(&hops, used, ask),
        }
    }

    /// Returns the input of the strategy for an Interest that came on this face.
    pub fn ask_from(&self, face: u64, interest: &Interest<'_>) -> Ask
        ensures { result ≡ ask_from (policy_of self.entry.now) face (plain_interest interest.now) }
    {
        Ask {
            asker: Some(face),
            localhost: is_local_name(interest.name),
            hop_zero: interest.hop_limit == Some(1),
            now: self.now,
        }
    }

    /// Returns the input of the strategy for an Interest of this name that the node itself makes.
    pub fn ask_for(&self, name: Name<'_>) -> Ask
        ensures { result ≡ ask_for (policy_of self.entry.now) (components name.entry) }
    {
        Ask {
            asker: None,
            localhost: is_local_name(name),
            hop_zero: false,
            now: self.now,
        }
    }
}

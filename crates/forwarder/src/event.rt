ghost use Rattle.std.specs.Prelude.{◌≡◌, List};
ghost use Rattle.key_files.specs.KeyFile.{NamedKey};
ghost use Rattle.info_rules.specs.Rule.{PlainRule};
ghost use Rattle.forwarder.specs.Event.{at, moment_of, plain_by};

use info_rules::Rules;
use key_files::KeyBook;

/// Where a face leads (NFD Developer's Guide, "Face Scope"). A `Local` face leads to a program on
/// this machine. A `Far` face leads to another machine.
#[derive(Clone, Copy, Debug, PartialEq, Eq)]
pub enum Scope {
    Local,
    Far,
}

/// Rules, and the keys that they refer to.
#[derive(Drop)]
pub struct RulesAndKeys {
    pub rules: Rules,
    pub keys: KeyBook,
}

/// An event, which a node handles in one step. Moments are in milliseconds since 1970. An event may
/// have an earlier moment than the event before it.
///
/// An `O` holds the octets of a packet: a slice, a vector, or their number if they are at the start
/// of a buffer. An `R` holds new rules and keys: as they were read, or as the octets of their
/// files.
#[derive(Drop)]
pub enum Event<O: Drop, R: Drop> {
    /// Octets arrived on a face.
    Packet { face: u64, now: u64, octets: O },
    /// A face was opened.
    FaceUp { face: u64, scope: Scope, now: u64 },
    /// A face was closed.
    FaceDown { face: u64, now: u64 },
    /// Time passed.
    Tick { now: u64 },
    /// These rules and keys replace those in force, from the next event on.
    NewRules { rules: R, now: u64 },
}

/// An event that owns its octets.
pub type OwnedEvent = Event<Vec<u8>, RulesAndKeys>;

impl<O: Drop, R: Drop> Event<O, R> {
    /// Returns the moment of the event, in milliseconds since 1970.
    pub fn moment(&self) -> u64
        ensures { result ≡ moment_of self.now }
    {
        match self {
            Event::Packet { now, .. }
            | Event::FaceUp { now, .. }
            | Event::FaceDown { now, .. }
            | Event::Tick { now }
            | Event::NewRules { now, .. } => *now,
        }
    }

    /// Returns the event with its moment replaced by `now`, in milliseconds since 1970.
    pub fn at(self, now: u64) -> Event<O, R>
        ensures { result ≡ at now self }
    {
        match self {
            Event::Packet { face, octets, .. } => Event::Packet { face, now, octets },
            Event::FaceUp { face, scope, .. } => Event::FaceUp { face, scope, now },
            Event::FaceDown { face, .. } => Event::FaceDown { face, now },
            Event::Tick { .. } => Event::Tick { now },
            Event::NewRules { rules, .. } => Event::NewRules { rules, now },
        }
    }
}

/// Returns the event. The octets of a packet are moved to `held`, and the returned event borrows
/// the octets from `held`.
pub fn lend<R: Drop>(event: Event<Vec<u8>, R>, held: &mut Vec<u8>) -> Event<&[u8], R>
    ensures { (rules_of : R → List PlainRule) (keys_of : R → List NamedKey)
        → plain_by (λ o. o.now) rules_of keys_of result
        ≡ plain_by (λ o. o.items) rules_of keys_of event }
{
    match event {
        Event::Packet { face, now, octets } => {
            *held = octets;
            Event::Packet {
                face,
                now,
                octets: held.as_slice(),
            }
        }
        Event::FaceUp { face, scope, now } => Event::FaceUp { face, scope, now },
        Event::FaceDown { face, now } => Event::FaceDown { face, now },
        Event::Tick { now } => Event::Tick { now },
        Event::NewRules { rules, now } => Event::NewRules { rules, now },
    }
}

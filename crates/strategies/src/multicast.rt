ghost use Rattle.std.specs.Prelude.{◌≡◌};
ghost use Rattle.std.specs.FinMap as map;
ghost use Rattle.strategies.specs.Selection.{multicast, was_recent};
ghost use Rattle.strategies.specs.Laws.{multicast_takes};

use crate::eligible::{any_eligible, eligible_at, is_recent};
use crate::strategy::{Ask, Choice, Strategy};
use pit_fib::{Faces, Hops, Used};

/// Chooses `NoRoute` if no hop is eligible. In all other cases, sends to each eligible hop whose
/// face was never used, or was last used at least 10 milliseconds ago.
#[derive(Clone, Copy, Debug)]
pub struct Multicast;

impl Strategy for Multicast {
    ghost selection = { multicast };

    ghost takes_eligible = { multicast_takes };

    fn choose(&self, hops: &Hops, used: &Used, ask: Ask) -> Choice {
        if !any_eligible(hops, ask) {
            return Choice::NoRoute;
        }
        let mut faces = Faces::new();
        for i in (0..hops.len()).rev() {
            if let Some(hop) = eligible_at(hops, i, ask)
                && !was_asked_recently(used, hop.face, ask.now)
            {
                faces.insert(hop.face);
            }
        }
        Choice::Send(faces)
    }
}

/// Returns whether a face was used less than 10 milliseconds ago, or in the future.
fn was_asked_recently(used: &Used, face: u64, now: u64) -> bool
    ensures { result ≡ was_recent now (map.get used.now face) }
{
    match used.get(face) {
        Some(time) => is_recent(now, time),
        None => false,
    }
}

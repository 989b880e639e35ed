ghost use Rattle.std.specs.Prelude.{◌≡◌, ◌+◌, ◌++◌, drop};
ghost use Rattle.std.specs.List.{list_any};
ghost use Rattle.std.specs.Option.{option_to_list};
ghost use Rattle.strategies.specs.Eligible.{is_eligible as may_get, eligible};
ghost use Rattle.strategies.specs.Selection.{is_recent as came_recently};

use crate::strategy::Ask;
use pit_fib::{Hop, Hops};

/// The number of milliseconds for which a face is not used again for a PIT entry, after an Interest
/// of this PIT entry is sent to the face.
const RETRY_AFTER: u64 = 10;

/// Returns whether the Interest may be sent to a hop. An Interest may never be sent back to the
/// face that it came from. An Interest whose name begins with `/localhost`, or whose HopLimit has
/// become 0, may be sent only to Local faces.
pub fn is_eligible(hop: Hop, ask: Ask) -> bool
    ensures { result ≡ may_get ask hop }
{
    let is_asker = match ask.asker {
        Some(asker) => asker == hop.face,
        None => false,
    };
    !is_asker && (hop.local || !(ask.localhost || ask.hop_zero))
}

/// Returns whether some hop is eligible.
pub fn any_eligible(hops: &Hops, ask: Ask) -> bool
    ensures { result ≡ list_any (may_get ask) hops.now }
{
    for i in 0..hops.len() {
        if let Some(hop) = hops.get(i)
            && is_eligible(hop, ask)
        {
            return true;
        }
    }
    false
}

/// Returns the hop at index `i`, counted from 0, if there is such a hop and the hop is eligible.
/// Otherwise returns `None`.
pub fn eligible_at(hops: &Hops, i: usize, ask: Ask) -> Option<Hop>
    ensures { eligible ask (drop i hops.now)
        ≡ option_to_list result ++ eligible ask (drop (i + 1) hops.now) }
{
    match hops.get(i) {
        Some(hop) if is_eligible(hop, ask) => Some(hop),
        _ => None,
    }
}

/// Returns whether the moment `time` is after `now`, or less than 10 milliseconds before `now`.
pub fn is_recent(now: u64, time: u64) -> bool
    ensures { result ≡ came_recently now time }
{
    now.saturating_sub(time) < RETRY_AFTER
}

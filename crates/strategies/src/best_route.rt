ghost use Rattle.std.specs.Prelude.{◌≡◌, filter};
ghost use Rattle.std.specs.List.{list_any};
ghost use Rattle.std.specs.FinMap as map;
ghost use Rattle.pit_fib.specs.Hops.{is_before as is_hop_before};
ghost use Rattle.strategies.specs.Eligible.{eligible};
ghost use Rattle.strategies.specs.Selection.{best_route, lesser as lesser_by, least, is_new as is_hop_new, is_staler as is_hop_staler, is_recent as came_recently};
ghost use Rattle.strategies.specs.Laws.{best_route_takes};

use crate::eligible::{any_eligible, eligible_at, is_recent};
use crate::strategy::{Ask, Choice, Strategy};
use pit_fib::{Faces, Hop, Hops, Used};

/// Chooses `NoRoute` if no hop is eligible. If some hop is eligible, but some face was used less
/// than 10 milliseconds ago or in the future, sends to no hop. In all other cases, sends to one
/// eligible hop. If some eligible hop was never used, this is the least hop, by cost and then by
/// face, of the eligible hops that were never used. If all eligible hops were used, this is the
/// eligible hop that was used longest ago. If several eligible hops were used longest ago, at the
/// same moment, this is the least of these hops, by cost and then by face.
#[derive(Clone, Copy, Debug)]
pub struct BestRoute;

impl Strategy for BestRoute {
    ghost selection = { best_route };

    ghost takes_eligible = { best_route_takes };

    fn choose(&self, hops: &Hops, used: &Used, ask: Ask) -> Choice {
        if !any_eligible(hops, ask) {
            return Choice::NoRoute;
        }
        let mut faces = Faces::new();
        if any_recent(used, ask.now) {
            return Choice::Send(faces);
        }
        let new = least_new(hops, used, ask);
        if let Some(hop) = new.or(stalest(hops, used, ask)) {
            faces.insert(hop.face);
        }
        Choice::Send(faces)
    }
}

/// Returns whether some face was used less than 10 milliseconds ago, or in the future.
fn any_recent(used: &Used, now: u64) -> bool
    ensures { result ≡ list_any (λ e. came_recently now e.1) (map.entries used.now) }
{
    for i in 0..used.len() {
        if let Some((_, time)) = used.at(i)
            && is_recent(now, time)
        {
            return true;
        }
    }
    false
}

/// Returns the least hop, by cost and then by face, of the eligible hops that were never used, or
/// `None` if there is no such hop.
fn least_new(hops: &Hops, used: &Used, ask: Ask) -> Option<Hop>
    ensures { result ≡ least is_hop_before (filter (is_hop_new used.now) (eligible ask hops.now)) }
{
    let mut first: Option<Hop> = None;
    for i in (0..hops.len()).rev() {
        if let Some(hop) = eligible_at(hops, i, ask)
            && is_new(used, hop)
        {
            first = Some(lesser(hop, first));
        }
    }
    first
}

/// Returns the eligible hop that was used longest ago, or `None` if no hop is eligible. A hop that
/// was never used counts as used at the moment 0. If several eligible hops were used longest ago,
/// at the same moment, returns the least of these hops, by cost and then by face.
fn stalest(hops: &Hops, used: &Used, ask: Ask) -> Option<Hop>
    ensures { result ≡ least (is_hop_staler used.now) (eligible ask hops.now) }
{
    let mut first: Option<Hop> = None;
    for i in (0..hops.len()).rev() {
        if let Some(hop) = eligible_at(hops, i, ask) {
            first = Some(staler(used, hop, first));
        }
    }
    first
}

/// Returns whether the face of `hop` was never used.
fn is_new(used: &Used, hop: Hop) -> bool
    ensures { result ≡ is_hop_new used.now hop }
{
    used.get(hop.face).is_none()
}

fn lesser(hop: Hop, first: Option<Hop>) -> Hop
    ensures { result ≡ lesser_by is_hop_before hop first }
{
    match first {
        Some(other) if other.is_before(hop) => other,
        _ => hop,
    }
}

fn staler(used: &Used, hop: Hop, first: Option<Hop>) -> Hop
    ensures { result ≡ lesser_by (is_hop_staler used.now) hop first }
{
    match first {
        Some(other) if is_staler(used, other, hop) => other,
        _ => hop,
    }
}

/// Returns whether hop `a` was used longer ago than hop `b`. If `a` and `b` were used at the same
/// moment, returns whether `a` comes before `b` by cost and then by face. A hop that was never used
/// counts as used at the moment 0.
fn is_staler(used: &Used, a: Hop, b: Hop) -> bool
    ensures { result ≡ is_hop_staler used.now a b }
{
    let s = used.get(a.face).unwrap_or(0);
    let t = used.get(b.face).unwrap_or(0);
    s < t || (s == t && a.is_before(b))
}

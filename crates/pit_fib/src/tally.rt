ghost use Rattle.std.specs.Prelude.{◌≡◌};
ghost use Rattle.pit_fib.specs.Tally.{earliest, left_of, sooner};

use crate::fib_entry::Entry;
use crate::route::{Route, RouteKey};
use name_trie::See;

/// The number of registered routes, and a moment before which none of them expires.
#[derive(Drop)]
pub struct Tally {
    pub count: usize,
    /// The earliest deadline of a route, or the greatest u64 if no route has an earlier deadline.
    pub next_due: u64,
}

impl See<Entry> for Tally {
    ghost use Rattle.pit_fib.specs.Tally.{tallied};

    ghost seen = { tallied };

    fn see(&mut self, entry: &Entry) {
        let rows = entry.registered.rows();
        self.count = self.count.saturating_add(rows.len());
        self.next_due = earliest(rows, self.next_due);
    }
}

/// A visitor that counts the routes that do not expire by the moment `now`.
#[derive(Drop)]
pub struct Left {
    pub now: u64,
    pub count: usize,
}

impl See<Entry> for Left {
    ghost use Rattle.pit_fib.specs.Tally.{left_after};

    ghost seen = { left_after };

    fn see(&mut self, entry: &Entry) {
        let left = left_of(entry.registered.rows(), self.now);
        self.count = self.count.saturating_add(left);
    }
}

/// Returns the earlier of `moment` and the earliest deadline of the routes, or `moment` if no route
/// has a deadline.
fn earliest(rows: &[(RouteKey, Route)], moment: u64) -> u64
    ensures { result ≡ earliest moment rows.now }
{
    let mut least = moment;
    for row in rows {
        least = sooner(least, row.1.deadline);
    }
    least
}

/// Returns the earlier of a moment and a deadline, or the moment if there is no deadline.
pub fn sooner(moment: u64, deadline: Option<u64>) -> u64
    ensures { result ≡ sooner moment deadline }
{
    match deadline {
        None => moment,
        Some(deadline) => moment.min(deadline),
    }
}

/// Returns how many of the routes do not expire by `now`.
pub fn left_of(rows: &[(RouteKey, Route)], now: u64) -> usize
    ensures { result ≡ left_of now rows.now }
{
    let mut left = 0;
    for row in rows {
        if !row.1.is_due(now) {
            left += 1;
        }
    }
    left
}

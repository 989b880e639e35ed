ghost use Rattle.std.specs.Prelude.{◌≡◌};
ghost use Rattle.pit_fib.specs.Listing.{start_at};

use crate::fib_entry::Entry;
use crate::hops::{Hops, hops_in_order};
use crate::inheriting::Inheriting;
use name_trie::{Carry, See, Show};
use ndn_tlv::Memory;

/// The state of a walk over all names when the walk is at one name.
#[derive(Drop)]
pub struct AtName {
    pub now: u64,
    /// Whether the entry of the name still has next hops or routes at the moment `now`.
    pub is_left: bool,
    /// The state of a walk along the name, after the last entry that this walk passed. This entry
    /// may be the entry of the name itself.
    pub way: Inheriting,
}

impl AtName {
    /// Returns the state before the first entry, for the moment `now` in milliseconds since 1970.
    pub fn new(now: u64) -> AtName
        ensures { result ≡ start_at now }
    {
        AtName {
            now,
            is_left: false,
            way: Inheriting::new(Some(now)),
        }
    }
}

impl Carry<Entry> for AtName {
    ghost use Rattle.pit_fib.specs.Listing.{past_at};

    ghost past = { past_at };

    fn carry(&self, entry: &Entry) -> AtName {
        let mut way = self.way.copied();
        way.see(entry);
        AtName {
            now: self.now,
            is_left: entry.is_left_at(self.now),
            way,
        }
    }
}

/// A visitor of a walk over all names. This visitor passes names on to the visitor `show`: each
/// name whose entry still has next hops or routes at the moment of the walk. Each name is shown
/// with its effective next hops.
#[derive(Drop)]
pub struct AsHops<S> {
    pub show: S,
}

impl<S: Show<Hops>> Show<AtName> for AsHops<S> {
    ghost use Rattle.pit_fib.specs.Listing.{hops_shown};

    ghost shown = { hops_shown S.shown };

    fn show(&mut self, name: &[u8], at: &AtName) -> Result<(), Memory> {
        if at.is_left {
            self.show
                .show(name, &hops_in_order(at.way.costs.as_slice()))?;
        }
        Ok(())
    }
}

ghost use Rattle.std.specs.Prelude.{◌≡◌};
ghost use Rattle.std.specs.Ordering.{is_lt};
ghost use Rattle.ndn_names.specs.Order.{name_cmp};
ghost use Rattle.content_store.specs.Store.{full_name_of};
ghost use Rattle.content_store.specs.Sought.{sought_name};

use crate::entry::Entry;
use ndn_names::Name;

/// The name or full name that a binary search looks for.
#[derive(Clone, Copy)]
pub enum Sought<'a> {
    /// A name.
    Named(Name<'a>),
    /// The full name of a Data with this name and these octets.
    Full(Name<'a>, &'a [u8]),
}

/// Returns whether the full name of an entry comes before the name `sought`.
#[inline(always)]
pub fn is_below(entry: &Entry, sought: Sought<'_>) -> bool
    ensures { result ≡ is_lt (name_cmp (full_name_of entry.now) (sought_name sought.entry)) }
{
    match sought {
        Sought::Named(name) => entry.is_below(name),
        Sought::Full(name, octets) => entry.compare_full(name, octets).is_lt(),
    }
}

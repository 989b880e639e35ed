ghost use Rattle.std.specs.Prelude.{◌≡◌, ◌-◌, ◌+◌, ◌<◌, ◌≤◌, ◌^◌, length, insert, slice_index_or, IsSome, IfOk, OnOk, OnErr, Some, None, nat_eq, ℕ, slice_index, IsTrue, false, MatchOption, ◌≢◌, []};
ghost use Rattle.std.specs.List.{remove};
ghost use Rattle.std.specs.Map.{lookup, remove_entry, set_value};
ghost use Rattle.std.specs.declared.cmp.Ordering.TheVariants as names;
ghost use Rattle.slab.specs.Slab.{get};
ghost use Rattle.ndn_names.specs.Order.{name_cmp};
ghost use Rattle.ndn_names.specs.View.{components};
ghost use Rattle.sha2.specs.Sha256.{sha256};
ghost use Rattle.ndn_packets.specs.Answers.{full_name};
ghost use Rattle.ndn_packets.specs.Key.{plain_key};
ghost use Rattle.content_store.specs.Store.{CanServe, full_name_of};
ghost use Rattle.content_store.specs.Rows.{Placed, Rising, IsRows, IsLower, FirstWith, IsValidRows, shown, name_at};
ghost use Rattle.content_store.specs.Blocks.{AreBounds};
ghost use Rattle.content_store.specs.Sought.{sought_name};
ghost use Rattle.content_store.specs.Uses.{Sound, TakesUnder, without_range};

use crate::blocks::{Block, Change, add_row, follow, next_place, remove_row, remove_rows};
use crate::entry::Entry;
use crate::places::Places;
use crate::sought::{Sought, is_below};
use lru::LruCache;
use ndn_names::Name;
use ndn_packets::Key;
use ndn_tlv::Memory;
use slab::Slab;
use std::alloc::Global;
use std::marker::Model;

/// A cached Data, with its serial number in the LRU order.
#[derive(Drop)]
pub struct Row {
    pub entry: Entry,
    pub serial: u64,
}

/// The list of cached Data, in canonical order of their full names.
#[derive(Drop)]
pub struct Rows {
    entries: Slab<Row>,
    order: Places,
    // Blocks of list positions. Each block has a moment `until`: from this moment on, no Data of
    // the block is fresh, so that a search with MustBeFresh can skip the block. These blocks are
    // not the blocks inside `order`.
    blocks: Vec<Block>,
}

impl Model for Rows {
    ghost use Rattle.std.specs.Prelude.{List};
    ghost use Rattle.slab.specs.Slab.{get};
    ghost use Rattle.content_store.specs.Rows.{Placed, shown, IsRows};
    ghost use Rattle.content_store.specs.Blocks.{AreBounds};

    ghost Value = { List Placed };

    ghost view = { λ r. shown (get r.entries) r.order };

    ghost invariant = { λ r. IsRows (get r.entries) r.order
        × AreBounds (shown (get r.entries) r.order) r.blocks.items };
}

/// Returns the position of the first full name that is not less than `sought`, or the length of the
/// list if there is no such full name. Adds one to `steps` for each comparison.
fn lower_bound(entries: &Slab<Row>, order: &Places, sought: Sought<'_>, steps: &mut u64) -> usize
    requires rows { IsRows (get entries.now) order.now }
    requires short { length order.now < 131072 }
    requires room { steps.old ≤ 2 ^ 64 - 1 - 17 }
    ensures lower { IsLower (sought_name sought.entry) (shown (get entries.now) order.now) result }
    ensures counted { steps.old ≤ steps.new }
    ensures few { steps.new ≤ steps.old + 17 }
{
    let mut low = 0;
    let mut high = order.len();
    // The next position to compare is in the blocks from `first` up to, but not including, `last`.
    let mut first = 0;
    let mut last = usize::MAX;
    while low < high {
        let mid = low + (high - low) / 2;
        let (block, place) = order.get_between(first, last, mid);
        *steps += 1;
        if is_below(&entries[place as usize].entry, sought) {
            low = mid + 1;
            first = block;
        } else {
            high = mid;
            last = block.saturating_add(1);
        }
    }
    low
}

/// Returns the position of the first Data that can serve an Interest of this key, or `None` if no
/// Data can serve it. Adds one to `steps` for each comparison of the binary search.
fn first_serving(
    entries: &Slab<Row>,
    order: &Places,
    blocks: &[Block],
    key: Key<'_>,
    now: u64,
    steps: &mut u64,
) -> Option<usize>
    requires rows { IsRows (get entries.now) order.now }
    requires blocks { AreBounds (shown (get entries.now) order.now) blocks.now }
    requires short { length order.now < 131072 }
    requires room { steps.old ≤ 2 ^ 64 - 1 - 17 }
    ensures first { FirstWith (CanServe (plain_key key.entry) now)
        (shown (get entries.now) order.now) result }
    ensures counted { steps.old ≤ steps.new }
    ensures few { steps.new ≤ steps.old + 17 }
{
    let start = lower_bound(entries, order, Sought::Named(key.name), steps);
    first_from(entries, order, blocks, start, key, now)
}

/// Returns the position of the first Data that can serve an Interest of this key, or `None` if no
/// Data can serve it. `start` must be the position of the first row whose full name is not less
/// than the key's name, or the length of the list if there is no such row.
fn first_from(
    entries: &Slab<Row>,
    order: &Places,
    blocks: &[Block],
    start: usize,
    key: Key<'_>,
    now: u64,
) -> Option<usize>
    requires rows { IsRows (get entries.now) order.now }
    requires blocks { AreBounds (shown (get entries.now) order.now) blocks.now }
    requires start { IsLower (components key.name) (shown (get entries.now) order.now) start }
    ensures { FirstWith (CanServe (plain_key key.entry) now)
        (shown (get entries.now) order.now) result }
{
    let mut at = start;
    while at < order.len() {
        let entry = &entries[order.get(at) as usize].entry;
        if !entry.is_near(key) {
            return None;
        }
        if entry.can_serve(key, now) {
            return Some(at);
        }
        at = next_place(blocks, at, key.must_be_fresh, now);
    }
    None
}

/// Returns whether the full name of the row before position `at` is less than `name`. Returns true
/// if there is no row before position `at`.
fn is_above(entries: &Slab<Row>, order: &Places, name: Name<'_>, at: usize) -> bool
    requires rows { IsRows (get entries.now) order.now }
    requires within { at ≤ length order.now }
    ensures { IsTrue result → (k : ℕ) (d : Placed) → k < at
        → name_cmp (name_at (slice_index_or (shown (get entries.now) order.now) k d))
        (components name.entry) ≡ names.Less }
{
    if at == 0 {
        return true;
    }
    entries[order.get(at - 1) as usize].entry.is_below(name)
}

/// Returns whether position `at` is the place of `name` in the list: each full name before position
/// `at` is less than `name`, and no full name from position `at` on is less than `name`. The
/// contract covers only the result `true`.
fn is_lower(entries: &Slab<Row>, order: &Places, name: Name<'_>, at: usize) -> bool
    requires { IsRows (get entries.now) order.now }
    ensures { IsTrue result
        → IsLower (components name.entry) (shown (get entries.now) order.now) at }
{
    if at > order.len() || !is_above(entries, order, name, at) {
        return false;
    }
    if at == order.len() {
        return true;
    }
    !entries[order.get(at) as usize].entry.is_below(name)
}

impl Rows {
    pub fn new(alloc: Global) -> Rows
        ensures { result ≡ [] }
    {
        Rows {
            entries: Slab::new(alloc),
            order: Places::new(alloc),
            blocks: Vec::new(alloc),
        }
    }

    /// Returns the position of the first Data that can serve an Interest of this key, or `None` if
    /// no Data can serve it. Adds one to `steps` for each comparison of the binary search.
    pub fn first_serving(&self, key: Key<'_>, now: u64, steps: &mut u64) -> Option<usize>
        requires short { length self.now < 131072 }
        requires room { steps.old ≤ 2 ^ 64 - 1 - 17 }
        ensures first { FirstWith (CanServe (plain_key key.entry) now) self.now result }
        ensures counted { steps.old ≤ steps.new }
        ensures few { steps.new ≤ steps.old + 17 }
    {
        first_serving(&self.entries, &self.order, &self.blocks, key, now, steps)
    }

    /// If a Data can serve an Interest of this key, returns the position of the first row whose
    /// full name is not less than the key's name. Otherwise returns `None`.
    pub fn start_for(&self, key: Key<'_>, now: u64) -> Option<usize>
        requires { length self.now < 131072 }
        ensures { MatchOption result (FirstWith (CanServe (plain_key key.entry) now) self.now None)
            (λ _. (at : ℕ) × FirstWith (CanServe (plain_key key.entry) now) self.now (Some at)) }
    {
        let start = self.place_for(Sought::Named(key.name));
        match first_from(&self.entries, &self.order, &self.blocks, start, key, now) {
            Some(_) => Some(start),
            None => None,
        }
    }

    /// Returns the position of the first Data that can serve an Interest of this key, or `None` if
    /// no Data can serve it. No binary search is made if `place` is the position of the first row
    /// whose full name is not less than the key's name.
    pub fn first_at(&self, place: usize, key: Key<'_>, now: u64) -> Option<usize>
        requires { length self.now < 131072 }
        ensures { FirstWith (CanServe (plain_key key.entry) now) self.now result }
    {
        let start = if is_lower(&self.entries, &self.order, key.name, place) {
            place
        } else {
            self.place_for(Sought::Named(key.name))
        };
        first_from(&self.entries, &self.order, &self.blocks, start, key, now)
    }

    /// Returns the number of rows. The contract also states that the list of rows is valid
    /// (`IsValidRows`).
    pub fn len(&self) -> usize
        ensures len { result ≡ length self.now }
        ensures valid { IsValidRows self.now }
    {
        self.order.len()
    }

    /// Returns the row at position `at` of the list.
    pub fn row(&self, at: usize) -> &Row
        requires { at < length self.now }
        ensures { (d : Placed) → (slice_index_or self.now at d).1 ≡ result.now }
    {
        &self.entries[self.order.get(at) as usize]
    }

    /// Removes all rows.
    pub fn clear(&mut self)
        ensures { self.new ≡ [] }
    {
        self.order.clear();
        self.entries.clear();
        self.blocks.clear();
    }

    /// Returns the position of the first full name that is not less than `sought`, or the length of
    /// the list if there is no such full name.
    pub fn place_for(&self, sought: Sought<'_>) -> usize
        requires { length self.now < 131072 }
        ensures { IsLower (sought_name sought.entry) self.now result }
    {
        let mut steps = 0;
        lower_bound(&self.entries, &self.order, sought, &mut steps)
    }

    /// Returns whether there is a Data at position `at` whose full name equals the full name of the
    /// Data with the name `name` and the octets `octets`.
    pub fn is_full(&self, at: usize, name: Name<'_>, octets: &[u8]) -> bool
        ensures yes { IsTrue result → (at < length self.now)
            × ((d : Placed) → name_at (slice_index_or self.now at d)
            ≡ full_name (components name.entry) (sha256 octets.now)) }
        ensures no { result ≡ false → (d : Placed) → at < length self.now
            → name_at (slice_index_or self.now at d)
            ≢ full_name (components name.entry) (sha256 octets.now) }
    {
        if at >= self.len() {
            return false;
        }
        self.row(at).entry.compare_full(name, octets).is_eq()
    }

    /// Inserts a row before position `at` of the list, and returns the slab index of the row.
    pub fn insert(&mut self, at: usize, row: Row) -> Result<u32, Memory>
        requires within { at ≤ length self.old }
        requires short { length self.old < 131072 }
        requires fits { (p : ℕ) → Rising (insert self.old at (p, row)) }
        ensures ok { IfOk result (λ p. (lookup (nat_eq p) self.old ≡ None)
            × (self.new ≡ insert self.old at (p, row))) }
        ensures err { OnErr result (self.new ≡ self.old) }
        ensures valid { OnOk result (IsValidRows self.new) }
    {
        let until = row.entry.fresh_until();
        let place = hold(&mut self.entries, row)?;
        match self.order.insert(at, place) {
            Ok(()) => {
                add_row(&self.entries, &self.order, &mut self.blocks, at, until);
                Ok(place)
            }
            Err(_) => {
                self.entries.remove(place as usize);
                Err(Memory)
            }
        }
    }

    /// Sets, for the Data at position `at`, the FreshnessPeriod to `freshness` and the moment of
    /// arrival to `arrival`.
    pub fn renew(&mut self, at: usize, freshness: u64, arrival: u64)
        requires { at < length self.old }
        ensures rows { (d : Placed) → let r = slice_index_or self.old at d in self.new
            ≡ set_value (nat_eq r.0) self.old (record {
              entry = record r.1.entry { freshness = freshness; arrival = arrival };
              serial = r.1.serial;
            }) }
        ensures valid { IsValidRows self.new }
    {
        let place = self.order.get(at);
        let entry = &mut self.entries[place as usize].entry;
        entry.renew(freshness, arrival);
        follow(&mut self.blocks, Change::Renewed(at, entry.fresh_until()));
    }

    /// Removes the row at slab index `place`.
    pub fn forget(&mut self, place: u32)
        requires short { length self.old < 131072 }
        requires there { IsSome (lookup (nat_eq place) self.old) }
        ensures rows { self.new ≡ remove_entry (nat_eq place) self.old }
        ensures valid { IsValidRows self.new }
    {
        let at = index_of(&self.entries, &self.order, place);
        self.order.remove(at);
        let row = self.entries.remove(place as usize);
        let until = row.entry.fresh_until();
        remove_row(&self.entries, &self.order, &mut self.blocks, at, until);
    }

    /// Removes Data whose full names begin with `name`, and removes the serial numbers of these
    /// Data from `used`. Removes at most `most` Data, those with the least full names first.
    /// Returns the number of removed Data.
    pub fn remove_under(&mut self, used: &mut LruCache<u64, u32>, name: Name<'_>, most: u64) -> u64
        requires { length self.old < 131072 }
        ensures { (next : ℕ) → Sound self.old used.old.entries next
            → TakesUnder (components name.entry) most self.old used.old self.new used.new next
            result }
    {
        let start = self.place_for(Sought::Named(name));
        let end = remove_under(&mut self.entries, used, &self.order, start, name, most);
        self.order.cut(start, end);
        remove_rows(&self.entries, &self.order, &mut self.blocks, start, end);
        (end - start) as u64
    }
}

/// Removes, from the slab and from `used`, Data whose full names begin with `name`. Starts at
/// position `start` of the list, and removes at most `most` Data. Returns the position after the
/// last removed Data, or `start` if no Data is removed.
fn remove_under(
    entries: &mut Slab<Row>,
    used: &mut LruCache<u64, u32>,
    order: &Places,
    start: usize,
    name: Name<'_>,
    most: u64,
) -> usize
    requires rows { IsRows (get entries.old) order.now }
    requires start { IsLower (components name) (shown (get entries.old) order.now) start }
    ensures from { start ≤ result }
    ensures within { result ≤ length order.now }
    ensures rows { IsRows (get entries.new) (without_range start result order.now) }
    ensures left { shown (get entries.new) (without_range start result order.now)
        ≡ without_range start result (shown (get entries.old) order.now) }
    ensures taken { (next : ℕ) → Sound (shown (get entries.old) order.now) used.old.entries next
        → TakesUnder (components name.entry) most (shown (get entries.old) order.now) used.old
        (shown (get entries.new) (without_range start result order.now)) used.new next
        (result - start) }
{
    for end in start..order.len() {
        let place = order.get(end) as usize;
        if (end - start) as u64 == most || !entries[place].entry.is_under(name) {
            return end;
        }
        let row = entries.remove(place);
        used.pop(&row.serial);
    }
    order.len()
}

/// Puts a row into the slab, and returns the slab index of the row.
fn hold(entries: &mut Slab<Row>, row: Row) -> Result<u32, Memory>
    ensures vacant { IfOk result (λ p. get entries.old p ≡ None) }
    ensures held { IfOk result (λ p. get entries.new p ≡ Some row) }
    ensures others { IfOk result (λ p. (q : ℕ) → q ≢ p → get entries.new q ≡ get entries.old q) }
    ensures err { OnErr result ((q : ℕ) → get entries.new q ≡ get entries.old q) }
{
    let place = entries.insert(row)?;
    match u32::try_from(place) {
        Ok(short) => Ok(short),
        Err(_) => {
            entries.remove(place);
            Err(Memory)
        }
    }
}

/// Returns the list position of the slab index `place`.
fn index_of(entries: &Slab<Row>, order: &Places, place: u32) -> usize
    requires rows { IsRows (get entries.now) order.now }
    requires short { length order.now < 131072 }
    requires there { IsSome (lookup (nat_eq place) (shown (get entries.now) order.now)) }
    ensures within { result < length order.now }
    ensures found { slice_index order.now result ≡ place }
{
    let mut steps = 0;
    let entry = &entries[place as usize].entry;
    let sought = Sought::Full(entry.name(), entry.octets());
    lower_bound(entries, order, sought, &mut steps)
}

ghost use Rattle.std.specs.Prelude.{◌≡◌, ◌≢◌, ◌↔◌, ◌⊎◌, ◌+◌, ◌-◌, ◌<◌, ◌≤◌, ◌^◌, [], ◌∷◌, ℕ, length, take, insert, slice_index_or, Err, IsTrue, false, IfOk, MatchOption};
ghost use Rattle.std.specs.Option.{option_map};
ghost use Rattle.std.specs.List.{All, Contains};
ghost use Rattle.ndn_names.specs.View.{components};
ghost use Rattle.ndn_packets.specs.Key.{plain_key};
ghost use Rattle.content_store.specs.Store.{CachedData, IsLeast, IsStore, CanServe, GivesData, Finds, Erases, LosesSome, StoreState, cached_at, full_name_of, with_cached, without};
ghost use Rattle.content_store.specs.Rows.{Placed, Rising, name_at};
ghost use Rattle.content_store.specs.Uses.{IsHeld, UsesAt, Sound, PutsNew, Renews, cached_in};
ghost use Rattle.lru.specs.LruCache.{lru_cache};
ghost use Rattle.content_store.specs.declared.fault.StoreFault.TheVariants as faults;

use crate::entry::Entry;
use crate::fault::StoreFault;
use crate::rows::{Row, Rows};
use crate::sought::Sought;
use lru::LruCache;
use ndn_names::Name;
use ndn_packets::{Data, Key};
use std::alloc::Global;
use std::marker::Model;
use std::num::NonZeroUsize;

/// The greatest capacity that a store can have. A capacity is a number of Data.
pub const MAX_CAPACITY: usize = 65_536;

/// Law: the greatest capacity of a store is 65,536 Data.
pub fn store_limits_are_as_promised()
    ensures { MAX_CAPACITY ≡ 65536 }
{}

/// A content store: it caches Data to answer later Interests (NFD Developer's Guide, "Content
/// Store"). The store caches at most `capacity` Data, and no two of these Data have the same full
/// name. When a Data with a new full name is cached and the store is full, the least recently used
/// Data is evicted.
#[derive(Drop)]
pub struct Store {
    alloc: Global,
    capacity: usize,
    rows: Rows,
    // Maps the serial number of each row to the row's slab index. The least recently used row is
    // evicted first.
    used: LruCache<u64, u32>,
    next: u64,
}

impl Model for Store {
    ghost use Rattle.content_store.specs.Store.{StoreState, state_code};
    ghost use Rattle.content_store.specs.Uses.{cached_in, IsHeld};

    ghost Value = { StoreState };

    ghost coded = { state_code };

    ghost view = { λ s. record {
      cached = cached_in s.rows s.used.entries;
      capacity = s.capacity;
    } };

    ghost invariant = { λ s. IsHeld s.rows s.used s.capacity s.next };
}

impl Store {
    ghost use Rattle.std.specs.Borrow.{sem};
    ghost use Rattle.content_store.specs.Lending.{EndsWith};

    /// Creates an empty store for at most `capacity` Data. Returns `BadCapacity` unless `capacity`
    /// is from 1 to 65,536, and `Memory` if memory runs out.
    pub fn new(alloc: Global, capacity: usize) -> Result<Store, StoreFault>
        ensures ok { IfOk result (λ s. s ≡ record { cached = []; capacity = capacity }) }
        ensures store { IfOk result IsStore }
        ensures bad { (result ≡ Err faults.BadCapacity)
            ↔ ((capacity ≡ 0) ⊎ (MAX_CAPACITY < capacity)) }
    {
        if capacity > MAX_CAPACITY {
            return Err(StoreFault::BadCapacity);
        }
        let Some(most) = NonZeroUsize::new(capacity) else {
            return Err(StoreFault::BadCapacity);
        };
        let Ok(used) = LruCache::sparse(alloc, most) else {
            return Err(StoreFault::Memory);
        };
        Ok(Store {
            alloc,
            capacity,
            rows: Rows::new(alloc),
            used,
            next: 0,
        })
    }

    /// Returns the greatest number of Data that the store can cache.
    pub fn capacity(&self) -> usize
        ensures { result ≡ self.now.capacity }
    {
        self.capacity
    }

    /// Returns the number of cached Data.
    pub fn len(&self) -> usize
        ensures exact { result ≡ length self.now.cached }
        ensures store { IsStore self.now }
    {
        self.rows.len()
    }

    /// Returns whether the store is empty.
    pub fn is_empty(&self) -> bool
        ensures { IsTrue result ↔ (self.now.cached ≡ []) }
    {
        self.len() == 0
    }

    /// Caches a Data as the most recently used. The Data arrived at the moment `arrival`, in
    /// milliseconds since 1970. The Data replaces a cached Data with the same full name and the
    /// same octets. If the full name is new and the store is full, the least recently used Data is
    /// evicted. A Data that is already cached with the same octets needs no memory, and is never
    /// refused. Returns false and leaves the store unchanged if memory runs out, or if a cached
    /// Data with the same full name has other octets. After 2^64 - 1 Data with new full names have
    /// been cached since the store was created or last emptied by `put`, the next Data with a new
    /// full name empties the store: this Data is not cached, and the result is false.
    pub fn put(&mut self, packet: &Data<'_>, arrival: u64) -> bool
        ensures ok { IsTrue result
            → self.new ≡ with_cached self.old (cached_at packet.now arrival) }
        ensures refused { result ≡ false → LosesSome self.old.cached self.new.cached }
        ensures unharmed { result ≡ false
            → (self.new ≡ self.old) ⊎ (self.new ≡ record self.old { cached = [] }) }
        ensures same { (c : CachedData) → Contains self.old.cached c
            → full_name_of c ≡ full_name_of (cached_at packet.now arrival)
            → c.octets ≡ packet.now.whole.now → IsTrue result }
        ensures capacity { self.new.capacity ≡ self.old.capacity }
        ensures store { IsStore self.new }
    {
        put_data(
            self.alloc,
            &mut self.rows,
            &mut self.used,
            &mut self.next,
            packet,
            arrival,
        )
    }

    /// Among the cached Data that answer an Interest of this key, finds the one with the least full
    /// name and returns its octets. Returns `None` if no cached Data answers. With MustBeFresh,
    /// only fresh Data count. A Data is fresh if its FreshnessPeriod, which begins at its arrival,
    /// has not ended at `now`. `now` is in milliseconds since 1970. The Data that is found becomes
    /// the most recently used.
    pub fn find(&mut self, key: Key<'_>, now: u64) -> Option<&[u8]>
        ensures found { GivesData (plain_key key.entry) now self.old.cached
            (option_map (λ o. o.now) result) }
        ensures* used { sem 𝓛 (EndsWith self.entry (λ after. IsStore after
            × Finds (plain_key key.entry) now self.old (option_map (λ o. o.now) result) after)) }
    {
        let mut steps = 0;
        let Some(at) = self.rows.first_serving(key, now, &mut steps) else {
            return None;
        };
        promote(&self.rows, &mut self.used, at);
        Some(self.rows.row(at).entry.octets())
    }

    /// Does the same as `find`, and counts the comparisons of the binary search. The binary search
    /// finds the first full name that is not less than the Interest's name. Each comparison of the
    /// search adds one to `steps`. A search makes at most 17 comparisons.
    pub fn find_counted(&mut self, key: Key<'_>, now: u64, steps: &mut u64) -> Option<&[u8]>
        requires { steps.old ≤ 2 ^ 64 - 1 - 17 }
        ensures found { GivesData (plain_key key.entry) now self.old.cached
            (option_map (λ o. o.now) result) }
        ensures counted { steps.old ≤ steps.new }
        ensures few { steps.new ≤ steps.old + 17 }
        ensures* used { sem 𝓛 (EndsWith self.entry (λ after. IsStore after
            × Finds (plain_key key.entry) now self.old (option_map (λ o. o.now) result) after)) }
    {
        let Some(at) = self.rows.first_serving(key, now, steps) else {
            return None;
        };
        promote(&self.rows, &mut self.used, at);
        Some(self.rows.row(at).entry.octets())
    }

    /// If `find` would find a Data for this key at the moment `now`, returns a position to pass to
    /// `serve_at`. Otherwise returns `None`.
    pub fn place_for(&self, key: Key<'_>, now: u64) -> Option<usize>
        ensures { MatchOption result
            (All (λ c. ¬ CanServe (plain_key key.entry) now c) self.now.cached)
            (λ _. (c : CachedData)
            × IsLeast (CanServe (plain_key key.entry) now) self.now.cached c) }
    {
        self.rows.start_for(key, now)
    }

    /// Does the same as `find`. No binary search is made if `place_for` returned `place` for this
    /// key and the store has not changed since that call.
    pub fn serve_at(&mut self, place: usize, key: Key<'_>, now: u64) -> Option<&[u8]>
        ensures found { GivesData (plain_key key.entry) now self.old.cached
            (option_map (λ o. o.now) result) }
        ensures* used { sem 𝓛 (EndsWith self.entry (λ after. IsStore after
            × Finds (plain_key key.entry) now self.old (option_map (λ o. o.now) result) after)) }
    {
        let Some(at) = self.rows.first_at(place, key, now) else {
            return None;
        };
        promote(&self.rows, &mut self.used, at);
        Some(self.rows.row(at).entry.octets())
    }

    /// Removes at most `count` Data whose full names begin with `name`, those with the least full
    /// names first. If `count` is `None`, removes all Data whose full names begin with `name`.
    /// Returns the number of removed Data.
    pub fn erase(&mut self, name: Name<'_>, count: Option<u64>) -> u64
        ensures erased { Erases (components name.entry) count
            self.old.cached self.new.cached result }
        ensures capacity { self.new.capacity ≡ self.old.capacity }
        ensures store { IsStore self.new }
    {
        let most = count.unwrap_or(u64::MAX);
        self.rows.remove_under(&mut self.used, name, most)
    }
}

/// Caches a Data as `Store::put` says. `next` is the serial number for the next Data with a new
/// full name. Only if this number is `u64::MAX`, a Data with a new full name empties the store, and
/// the serial numbers start again at 0.
fn put_data(
    alloc: Global,
    rows: &mut Rows,
    used: &mut LruCache<u64, u32>,
    next: &mut u64,
    packet: &Data<'_>,
    arrival: u64,
) -> bool
    requires { IsHeld rows.old used.old used.old.cap next.old }
    ensures held { IsHeld rows.new used.new used.old.cap next.new }
    ensures ok { IsTrue result → let c = cached_at packet.now arrival in
        cached_in rows.new used.new.entries ≡ take used.old.cap
        (c ∷ without (full_name_of c) (cached_in rows.old used.old.entries)) }
    ensures refused { result ≡ false
        → ((rows.new ≡ rows.old) × (used.new ≡ used.old) × (next.new ≡ next.old))
        ⊎ ((next.old ≡ 2 ^ 64 - 1) × (rows.new ≡ [])
        × (used.new ≡ lru_cache [] used.old.cap) × (next.new ≡ 0)) }
    ensures same { (c : CachedData) → Contains (cached_in rows.old used.old.entries) c
        → full_name_of c ≡ full_name_of (cached_at packet.now arrival)
        → c.octets ≡ packet.now.whole.now → IsTrue result }
    ensures known { (c : CachedData) → Contains (cached_in rows.old used.old.entries) c
        → full_name_of c ≡ full_name_of (cached_at packet.now arrival)
        → next.new ≡ next.old }
    ensures new { IsTrue result
        → All (λ c. full_name_of c ≢ full_name_of (cached_at packet.now arrival))
        (cached_in rows.old used.old.entries) → next.new ≡ next.old + 1 }
{
    let at = rows.place_for(Sought::Full(packet.name, packet.whole));
    if rows.is_full(at, packet.name, packet.whole) {
        return put_same(rows, used, at, packet, arrival);
    }
    let is_last = *next == u64::MAX;
    if is_last {
        rows.clear();
        used.clear();
        *next = 0;
        return false;
    }
    let Ok(entry) = Entry::new(alloc, packet, arrival) else {
        return false;
    };
    let row = Row {
        entry,
        serial: *next,
    };
    if !put_new(rows, used, at, row) {
        return false;
    }
    *next += 1;
    true
}

/// Sets the moment of arrival of the cached Data at position `at` to `arrival`. This Data must have
/// the full name of `packet`. This Data becomes the most recently used, and keeps its serial
/// number. Returns false and changes nothing if the cached octets differ from the octets of
/// `packet`.
fn put_same(
    rows: &mut Rows,
    used: &mut LruCache<u64, u32>,
    at: usize,
    packet: &Data<'_>,
    arrival: u64,
) -> bool
    requires within { at < length rows.old }
    requires named { (d : Placed) → name_at (slice_index_or rows.old at d)
        ≡ full_name_of (cached_at packet.now arrival) }
    ensures ok { IsTrue result
        → Renews rows.old used.old at (cached_at packet.now arrival) rows.new used.new }
    ensures refused { result ≡ false → (rows.new ≡ rows.old) × (used.new ≡ used.old) }
    ensures same { (d : Placed) → (slice_index_or rows.old at d).1.entry.octets
        ≡ packet.now.whole.now → IsTrue result }
{
    let row = rows.row(at);
    if row.entry.octets() != packet.whole {
        return false;
    }
    let serial = row.serial;
    rows.renew(at, packet.freshness, arrival);
    used.promote(&serial);
    true
}

/// Makes the Data at position `at` of the list the most recently used.
fn promote(rows: &Rows, used: &mut LruCache<u64, u32>, at: usize)
    requires { at < length rows.now }
    ensures { UsesAt rows.now used.old at used.new }
{
    used.promote(&rows.row(at).serial);
}

/// Inserts a row before position `at` of the list, and removes the row that is evicted, if any. If
/// memory runs out, returns false and changes nothing.
fn put_new(rows: &mut Rows, used: &mut LruCache<u64, u32>, at: usize, row: Row) -> bool
    requires sound { Sound rows.old used.old.entries row.serial }
    requires short { length rows.old ≤ 65536 }
    requires within { at ≤ length rows.old }
    requires fits { (p : ℕ) → Rising (insert rows.old at (p, row)) }
    ensures ok { IsTrue result → PutsNew rows.old used.old at row rows.new used.new }
    ensures refused { result ≡ false → (rows.new ≡ rows.old) × (used.new ≡ used.old) }
{
    let serial = row.serial;
    let Ok(place) = rows.insert(at, row) else {
        return false;
    };
    match used.push(serial, place) {
        Ok(Some((_, other))) => {
            rows.forget(other);
            true
        }
        Ok(None) => true,
        Err(_) => {
            rows.forget(place);
            false
        }
    }
}

ghost use Rattle.std.specs.Prelude.{◌≡◌, ◌↔◌, false, ◌+◌, ◌-◌, ◌<◌, ◌≤◌, ◌^◌, ℕ, List, IsTrue, insert, length, slice_index_or};
ghost use Rattle.slab.specs.Slab.{get};
ghost use Rattle.content_store.specs.Blocks.{AreBounds, Bounds, Carries, Follows, Keeps, fresh_until};
ghost use Rattle.content_store.specs.Rows.{IsRows, Placed, held_at, shown};
ghost use Rattle.content_store.specs.declared.blocks.Change.TheVariants as changes;

use crate::places::Places;
use crate::rows::Row;
use slab::Slab;

/// If a block has more rows than this number after a row is added to the block, it is split in two,
/// unless memory runs out.
const MAX_BLOCK: usize = 512;

/// A block of the list of rows: the rows at positions from `start` up to, but not including, `end`.
/// From the moment `until` on, no Data of the block is fresh.
#[derive(Clone, Copy)]
pub struct Block {
    pub start: usize,
    pub end: usize,
    pub until: u64,
}

/// A change of the list of rows.
#[derive(Clone, Copy)]
pub enum Change {
    /// A row was inserted before position `.0`. From the moment `.1` on, the row is not fresh.
    Added(usize, u64),
    /// The row at position `.0` was renewed. From the moment `.1` on, the row is not fresh.
    Renewed(usize, u64),
    /// The rows from position `.0` up to, but not including, position `.1` were removed.
    Removed(usize, usize),
}

/// Returns the position that position `at` becomes when the positions from `start` up to, but not
/// including, `end` are removed. A removed position becomes `start`.
fn moved(at: usize, start: usize, end: usize) -> usize
    ensures low { at ≤ start → result ≡ at }
    ensures within { start ≤ at → at ≤ end → result ≡ start }
    ensures high { start ≤ end → end ≤ at → result + (end - start) ≡ at }
{
    if at <= start {
        at
    } else if at <= end {
        start
    } else {
        at - end.saturating_sub(start)
    }
}

impl Block {
    /// Returns whether the block contains the position `at`.
    fn holds(self, at: usize) -> bool
        ensures { IsTrue result ↔ ((self.start ≤ at) × (at < self.end)) }
    {
        self.start <= at && at < self.end
    }

    /// Returns this block, updated for the insertion of a row before position `at`. From the moment
    /// `until` on, the inserted row is not fresh. A row that is inserted at the end of the block
    /// belongs to the block. A row that is inserted at the start of the block belongs to the block
    /// only if the start is 0.
    fn with(self, at: usize, until: u64) -> Block
        ensures { (rows : List Placed) (row : Placed) → at ≤ length rows
            → fresh_until (held_at row) ≤ until → Bounds rows self
            → Bounds (insert rows at row) result }
    {
        if self.end < at {
            return self;
        }
        let end = self.end.saturating_add(1);
        if at <= self.start && self.start > 0 {
            let start = self.start.saturating_add(1);
            return Block { start, end, ..self };
        }
        let until = self.until.max(until);
        Block { end, until, ..self }
    }

    /// Returns this block, updated for the renewal of the row at position `at`. From the moment
    /// `until` on, the renewed row is not fresh.
    fn renewed(self, at: usize, until: u64) -> Block
        ensures { (rows rows' : List Placed) → Follows (changes.Renewed at until) rows rows'
            → Bounds rows self → Bounds rows' result }
    {
        if !self.holds(at) {
            return self;
        }
        let until = self.until.max(until);
        Block { until, ..self }
    }

    /// Returns this block, updated for the removal of the rows from `start` up to, but not
    /// including, `end`.
    fn without(self, start: usize, end: usize) -> Block
        ensures { (rows rows' : List Placed) → Follows (changes.Removed start end) rows rows'
            → Bounds rows self → Bounds rows' result }
    {
        Block {
            start: moved(self.start, start, end),
            end: moved(self.end, start, end),
            until: self.until,
        }
    }

    /// Returns this block, updated for `change`.
    fn after(self, change: Change) -> Block
        ensures { (rows rows' : List Placed) → Follows change rows rows'
            → Bounds rows self → Bounds rows' result }
    {
        match change {
            Change::Added(at, until) => self.with(at, until),
            Change::Renewed(at, until) => self.renewed(at, until),
            Change::Removed(start, end) => self.without(start, end),
        }
    }
}

/// Updates all blocks for `change`.
pub fn follow(blocks: &mut Vec<Block>, change: Change)
    ensures { (rows' : List Placed) → Carries change rows' blocks.old.items blocks.new.items }
{
    for at in 0..blocks.len() {
        blocks[at] = blocks[at].after(change);
    }
}

/// Returns the index of the first block that ends after position `at`, or the number of blocks if
/// no block ends after position `at`.
fn index_at(blocks: &[Block], at: usize) -> usize {
    blocks.partition_point(|block| block.end <= at)
}

/// Returns the position where a search for a row that can serve an Interest continues after
/// position `at`. If `must_be_fresh` is true, the search skips rows that are known not to be fresh
/// at `now`.
pub fn next_place(blocks: &[Block], at: usize, must_be_fresh: bool, now: u64) -> usize
    requires { at + 1 < 2 ^ 64 }
    ensures after { at < result }
    ensures next { must_be_fresh ≡ false → result ≡ at + 1 }
    ensures over { (rows : List Placed) → AreBounds rows blocks.now
        → (k : ℕ) (d : Placed) → at < k → k < result → k < length rows
        → fresh_until (held_at (slice_index_or rows k d)) ≤ now }
{
    if !must_be_fresh {
        return at + 1;
    }
    match blocks.get(index_at(blocks, at)) {
        Some(block) if block.holds(at) && block.until <= now => block.end,
        _ => at + 1,
    }
}

/// Returns a block of the list positions from `start` up to, but not including, `end`. An `end`
/// after the end of the list counts as the end of the list.
fn block_of(entries: &Slab<Row>, order: &Places, start: usize, end: usize) -> Block
    requires { IsRows (get entries.now) order.now }
    ensures { Bounds (shown (get entries.now) order.now) result }
{
    let end = end.min(order.len());
    let mut until = 0;
    for at in start..end {
        until = until.max(entries[order.get(at) as usize].entry.fresh_until());
    }
    Block { start, end, until }
}

/// If there are no blocks, creates one for the whole list, unless memory runs out.
fn begin(entries: &Slab<Row>, order: &Places, blocks: &mut Vec<Block>)
    requires { IsRows (get entries.now) order.now }
    ensures { Keeps (shown (get entries.now) order.now) blocks.old.items blocks.new.items }
{
    if blocks.is_empty() {
        let _ = blocks.push(block_of(entries, order, 0, order.len()));
    }
}

/// Splits the block with index `index` in two if it has more than `MAX_BLOCK` rows, unless memory
/// runs out.
fn halve(entries: &Slab<Row>, order: &Places, blocks: &mut Vec<Block>, index: usize)
    requires { IsRows (get entries.now) order.now }
    ensures { Keeps (shown (get entries.now) order.now) blocks.old.items blocks.new.items }
{
    if index >= blocks.len() {
        return;
    }
    let block = blocks[index];
    let len = block.end.saturating_sub(block.start);
    if len <= MAX_BLOCK {
        return;
    }
    let middle = block.end - len / 2;
    let second = block_of(entries, order, middle, block.end);
    if blocks.insert(index + 1, second).is_ok() {
        blocks[index] = block_of(entries, order, block.start, middle);
    }
}

/// Computes `until` of the block with index `index` again, from the rows of the block. Does nothing
/// if there is no such block.
fn look_again(entries: &Slab<Row>, order: &Places, blocks: &mut Vec<Block>, index: usize)
    requires { IsRows (get entries.now) order.now }
    ensures { Keeps (shown (get entries.now) order.now) blocks.old.items blocks.new.items }
{
    if index >= blocks.len() {
        return;
    }
    let block = blocks[index];
    blocks[index] = block_of(entries, order, block.start, block.end);
}

/// Removes the empty blocks.
fn drop_empty(blocks: &mut Vec<Block>)
    ensures { (rows : List Placed) → Keeps rows blocks.old.items blocks.new.items }
{
    blocks.retain(|block| block.start < block.end);
}

/// Joins the block with index `index` and the next block if they are adjacent and together have at
/// most `MAX_BLOCK / 2` rows.
fn join(blocks: &mut Vec<Block>, index: usize)
    ensures { (rows : List Placed) → Keeps rows blocks.old.items blocks.new.items }
{
    if index >= blocks.len() || index + 1 >= blocks.len() {
        return;
    }
    let first = blocks[index];
    let second = blocks[index + 1];
    let len = second.end.saturating_sub(first.start);
    if first.end != second.start || len > MAX_BLOCK / 2 {
        return;
    }
    blocks.remove(index + 1);
    blocks[index] = Block {
        start: first.start,
        end: second.end,
        until: first.until.max(second.until),
    };
}

/// Updates the blocks for a row that was inserted before position `at`. The inserted row is fresh
/// until `until`.
pub fn add_row(entries: &Slab<Row>, order: &Places, blocks: &mut Vec<Block>, at: usize, until: u64)
    requires { IsRows (get entries.now) order.now }
    ensures { Carries (changes.Added at until) (shown (get entries.now) order.now)
        blocks.old.items blocks.new.items }
{
    follow(blocks, Change::Added(at, until));
    begin(entries, order, blocks);
    let index = index_at(blocks, at);
    halve(entries, order, blocks, index);
}

/// Updates the blocks for the removal of the row at position `at`. The removed row was fresh until
/// `until`.
pub fn remove_row(
    entries: &Slab<Row>,
    order: &Places,
    blocks: &mut Vec<Block>,
    at: usize,
    until: u64,
)
    requires rows { IsRows (get entries.now) order.now }
    requires room { at + 1 < 2 ^ 64 }
    ensures { Carries (changes.Removed at (at + 1)) (shown (get entries.now) order.now)
        blocks.old.items blocks.new.items }
{
    let index = index_at(blocks, at);
    follow(blocks, Change::Removed(at, at + 1));
    if index >= blocks.len() {
        return;
    }
    let block = blocks[index];
    if block.start >= block.end {
        drop_empty(blocks);
        return;
    }
    if block.until == until {
        look_again(entries, order, blocks, index);
    }
    join(blocks, index);
}

/// Updates the blocks for the removal of the rows from `start` up to, but not including, `end`.
pub fn remove_rows(
    entries: &Slab<Row>,
    order: &Places,
    blocks: &mut Vec<Block>,
    start: usize,
    end: usize,
)
    requires { IsRows (get entries.now) order.now }
    ensures { Carries (changes.Removed start end) (shown (get entries.now) order.now)
        blocks.old.items blocks.new.items }
{
    follow(blocks, Change::Removed(start, end));
    drop_empty(blocks);
    let index = index_at(blocks, start);
    look_again(entries, order, blocks, index);
    look_again(entries, order, blocks, index.saturating_sub(1));
}

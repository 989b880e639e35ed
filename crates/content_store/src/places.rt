ghost use Rattle.std.specs.Prelude.{◌≡◌, ◌+◌, ◌-◌, ◌<◌, ◌≤◌, ◌++◌, [], length, insert, slice_index, IfOk, OnErr, OnOk};
ghost use Rattle.std.specs.List.{remove};
ghost use Rattle.content_store.specs.PlaceBlocks.{flat, IsLaid, IsIn};
ghost use Rattle.content_store.specs.Uses.{without_range};

use ndn_tlv::Memory;
use std::alloc::Global;
use std::marker::Model;

/// The greatest number of slab indexes in a block. A block that has this number of slab indexes is
/// split before a slab index is inserted into it.
const MAX_BLOCK: usize = 1024;

/// A block of the list of slab indexes: the slab indexes at consecutive positions of the list, from
/// position `start` on.
#[derive(Drop)]
pub struct Block {
    pub start: usize,
    pub items: Vec<u32>,
}

/// A list of slab indexes. The list is divided into blocks, so that an insertion or a removal does
/// not move all slab indexes at later positions.
#[derive(Drop)]
pub struct Places {
    alloc: Global,
    blocks: Vec<Block>,
}

impl Model for Places {
    ghost use Rattle.std.specs.Prelude.{List, ℕ};
    ghost use Rattle.content_store.specs.PlaceBlocks.{flat, IsLaid};

    ghost Value = { List ℕ };

    ghost view = { λ p. flat p.blocks.items };

    ghost invariant = { λ p. IsLaid p.blocks.items };
}

/// Returns the index of the block that contains position `at` or, if `at` is the end of the list,
/// of a block that ends there. A slab index that is inserted at position `at` goes into this block.
/// `first` and `last` are block indexes that shorten the search. The search leaves out the blocks
/// before `first` if block `first` starts at or before position `at`. The search leaves out the
/// blocks from `last` on if block `last` starts after position `at`.
fn block_at(blocks: &[Block], first: usize, last: usize, at: usize) -> usize
    requires laid { IsLaid blocks.now }
    requires some { 0 < length blocks.now }
    requires within { at ≤ length (flat blocks.now) }
    ensures { IsIn blocks.now at result }
{
    let mut low = 0;
    if first < blocks.len() && blocks[first].start <= at {
        low = first;
    }
    let mut high = blocks.len();
    if low < last && last < high && at < blocks[last].start {
        high = last;
    }
    while high - low > 1 {
        let mid = low + (high - low) / 2;
        if blocks[mid].start <= at {
            low = mid;
        } else {
            high = mid;
        }
    }
    low
}

/// Sets the start position of each block from the lengths of the blocks before it.
fn lay(blocks: &mut Vec<Block>)
    requires { length (flat blocks.old.items) ≤ 131072 }
    ensures same { flat blocks.new.items ≡ flat blocks.old.items }
    ensures laid { IsLaid blocks.new.items }
    ensures len { length blocks.new.items ≡ length blocks.old.items }
{
    let mut start = 0;
    for index in 0..blocks.len() {
        blocks[index].start = start;
        start += blocks[index].items.len();
    }
}

/// Splits the block with index `index` into two halves.
fn split(alloc: Global, blocks: &mut Vec<Block>, index: usize) -> Result<(), Memory>
    requires laid { IsLaid blocks.old.items }
    requires there { index < length blocks.old.items }
    ensures same { flat blocks.new.items ≡ flat blocks.old.items }
    ensures laid { IsLaid blocks.new.items }
    ensures some { 0 < length blocks.new.items }
{
    let half = blocks[index].items.len() / 2;
    let items = Vec::from_slice(alloc, &blocks[index].items[half..])?;
    blocks.insert(index + 1, Block { start: 0, items })?;
    blocks[index].items.truncate(half);
    lay(blocks);
    Ok(())
}

/// If there are no blocks, creates one. Otherwise splits the block whose index `block_at` returns
/// for position `at`, if that block is full.
fn make_room(alloc: Global, blocks: &mut Vec<Block>, at: usize) -> Result<(), Memory>
    requires laid { IsLaid blocks.old.items }
    requires within { at ≤ length (flat blocks.old.items) }
    ensures same { flat blocks.new.items ≡ flat blocks.old.items }
    ensures laid { IsLaid blocks.new.items }
    ensures some { OnOk result (0 < length blocks.new.items) }
{
    if blocks.is_empty() {
        let items = Vec::new(alloc);
        blocks.push(Block { start: 0, items })?;
        return Ok(());
    }
    let index = block_at(blocks, 0, 0, at);
    if blocks[index].items.len() < MAX_BLOCK {
        return Ok(());
    }
    split(alloc, blocks, index)
}

/// Inserts a slab index before position `at` of the list. Fails if memory runs out.
fn put(blocks: &mut Vec<Block>, at: usize, place: u32) -> Result<(), Memory>
    requires laid { IsLaid blocks.old.items }
    requires some { 0 < length blocks.old.items }
    requires within { at ≤ length (flat blocks.old.items) }
    requires short { length (flat blocks.old.items) < 131072 }
    ensures ok { IfOk result (λ _. flat blocks.new.items
        ≡ insert (flat blocks.old.items) at place) }
    ensures err { OnErr result (flat blocks.new.items ≡ flat blocks.old.items) }
    ensures laid { IsLaid blocks.new.items }
{
    let index = block_at(blocks, 0, 0, at);
    let start = blocks[index].start;
    blocks[index].items.insert(at - start, place)?;
    lay(blocks);
    Ok(())
}

/// Returns one vector with the slab indexes `first`, followed by the slab indexes `second`.
fn joined(alloc: Global, first: &[u32], second: &[u32]) -> Result<Vec<u32>, Memory>
    ensures { IfOk result (λ v. v.items ≡ first.now ++ second.now) }
{
    let mut items = Vec::from_slice(alloc, first)?;
    items.extend_from_slice(second)?;
    Ok(items)
}

/// Removes the block with index `index` if it is empty. Otherwise joins this block with the next
/// block if two conditions hold: this block has fewer than `MAX_BLOCK` slab indexes, and the next
/// block's length plus half of this block's length (rounded down) is at most half of `MAX_BLOCK`.
/// Joins nothing if memory runs out.
fn join(alloc: Global, blocks: &mut Vec<Block>, index: usize)
    requires { index < length blocks.old.items }
    ensures { flat blocks.new.items ≡ flat blocks.old.items }
{
    let len = blocks[index].items.len();
    if len == 0 {
        blocks.remove(index);
        return;
    }
    if index + 1 >= blocks.len() {
        return;
    }
    if len >= MAX_BLOCK || blocks[index + 1].items.len() > MAX_BLOCK / 2 - len / 2 {
        return;
    }
    if let Ok(items) = joined(alloc, &blocks[index].items, &blocks[index + 1].items) {
        blocks[index].items = items;
        blocks.remove(index + 1);
    }
}

/// Removes from `items` the items with the indexes from `start` up to, but not including, `end`.
fn cut(items: &mut Vec<u32>, start: usize, end: usize)
    requires ordered { start ≤ end }
    requires within { end ≤ length items.old.items }
    ensures { items.new.items ≡ without_range start end items.old.items }
{
    let left = items.len() - (end - start);
    items[start..].rotate_left(end - start);
    items.truncate(left);
}

/// Removes from a block the slab indexes at the list positions from `start` up to, but not
/// including, `end`.
fn cut_block(block: &mut Block, start: usize, end: usize)
    requires { start ≤ end }
    ensures items { block.new.items.items ≡ without_range (start - block.old.start)
        (end - block.old.start) block.old.items.items }
{
    let len = block.items.len();
    let from = start.saturating_sub(block.start).min(len);
    let to = end.saturating_sub(block.start).min(len);
    cut(&mut block.items, from, to);
}

/// Removes from all blocks the slab indexes at the list positions from `start` up to, but not
/// including, `end`.
fn cut_blocks(blocks: &mut Vec<Block>, start: usize, end: usize)
    requires laid { IsLaid blocks.old.items }
    requires ordered { start ≤ end }
    ensures { flat blocks.new.items ≡ without_range start end (flat blocks.old.items) }
{
    for index in 0..blocks.len() {
        cut_block(&mut blocks[index], start, end);
    }
}

/// Removes the empty blocks.
fn drop_empty(blocks: &mut Vec<Block>)
    ensures { flat blocks.new.items ≡ flat blocks.old.items }
{
    let mut index = blocks.len();
    while index > 0 {
        index -= 1;
        if blocks[index].items.is_empty() {
            blocks.remove(index);
        }
    }
}

impl Places {
    pub fn new(alloc: Global) -> Places
        ensures { result ≡ [] }
    {
        Places {
            alloc,
            blocks: Vec::new(alloc),
        }
    }

    /// Returns the length of the list.
    pub fn len(&self) -> usize
        ensures { result ≡ length self.now }
    {
        match self.blocks.last() {
            Some(block) => block.start + block.items.len(),
            None => 0,
        }
    }

    /// Returns the index of the block that contains position `at` of the list, and the slab index
    /// at this position. `first` and `last` are block indexes that shorten the search. The search
    /// leaves out the blocks before `first` if block `first` starts at or before position `at`. The
    /// search leaves out the blocks from `last` on if block `last` starts after position `at`.
    pub fn get_between(&self, first: usize, last: usize, at: usize) -> (usize, u32)
        requires { at < length self.now }
        ensures { result.1 ≡ slice_index self.now at }
    {
        let index = block_at(&self.blocks, first, last, at);
        let block = &self.blocks[index];
        (index, block.items[at - block.start])
    }

    /// Returns the slab index at position `at` of the list.
    pub fn get(&self, at: usize) -> u32
        requires { at < length self.now }
        ensures { result ≡ slice_index self.now at }
    {
        self.get_between(0, 0, at).1
    }

    /// Inserts a slab index before position `at` of the list.
    pub fn insert(&mut self, at: usize, place: u32) -> Result<(), Memory>
        requires within { at ≤ length self.old }
        requires short { length self.old < 131072 }
        ensures ok { IfOk result (λ _. self.new ≡ insert self.old at place) }
        ensures err { OnErr result (self.new ≡ self.old) }
    {
        make_room(self.alloc, &mut self.blocks, at)?;
        put(&mut self.blocks, at, place)
    }

    /// Removes the slab index at position `at` of the list.
    pub fn remove(&mut self, at: usize)
        requires { at < length self.old }
        ensures { self.new ≡ remove self.old at }
    {
        let index = block_at(&self.blocks, 0, 0, at);
        let start = self.blocks[index].start;
        self.blocks[index].items.remove(at - start);
        join(self.alloc, &mut self.blocks, index);
        lay(&mut self.blocks);
    }

    /// Removes the slab indexes at the positions from `start` up to, but not including, `end`.
    pub fn cut(&mut self, start: usize, end: usize)
        requires ordered { start ≤ end }
        requires within { end ≤ length self.old }
        ensures { self.new ≡ without_range start end self.old }
    {
        cut_blocks(&mut self.blocks, start, end);
        drop_empty(&mut self.blocks);
        lay(&mut self.blocks);
    }

    /// Removes all slab indexes.
    pub fn clear(&mut self)
        ensures { self.new ≡ [] }
    {
        self.blocks.clear();
    }
}

//! Reads `trust-anchor` blocks. Of the keys in such a block, only `type` is checked.

ghost use Rattle.info_rules.specs.AnchorBlock.{anchor_of};

use crate::block_reader::BlockReader;
use crate::found::{Read, beside, needed};
use crate::keys::Keys;
use crate::readers::read_anchor_type;
use crate::table::Block;
use crate::walk::walk;
use std::alloc::Global;

/// A reader of `trust-anchor` blocks, which add nothing to the rules.
pub struct AnchorReader;

impl BlockReader for AnchorReader {
    type Part = ();

    ghost DEPTH = { 1 };

    const DEPTH: usize = 1;

    ghost part_of = { λ _ line keys. anchor_of line keys };

    #[tactic(auto, unfolding(crate::specs::AnchorBlock::anchor_of))]
    fn read(&self, alloc: Global, line: u32, keys: Keys<'_>) -> Read<()> {
        let fault = walk(alloc, Block::Anchor, keys)?;
        Ok(beside(fault, needed(line, read_anchor_type(keys))))
    }
}

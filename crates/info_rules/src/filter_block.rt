//! Reads `filter` blocks.

ghost use Rattle.info_rules.specs.FilterBlock.{filter_of};

use crate::block_reader::BlockReader;
use crate::form::Tested;
use crate::found::{Read, beside, needed};
use crate::keys::Keys;
use crate::name_test::read_asked;
use crate::rule::NameTest;
use crate::table::Block;
use crate::walk::walk;
use std::alloc::Global;

/// A reader of filters.
pub struct FilterReader;

impl BlockReader for FilterReader {
    type Part = NameTest;

    ghost DEPTH = { 2 };

    const DEPTH: usize = 2;

    ghost part_of = { λ _ line keys. filter_of line keys };

    #[tactic(auto, unfolding(crate::specs::FilterBlock::filter_of))]
    fn read(&self, alloc: Global, line: u32, keys: Keys<'_>) -> Read<NameTest> {
        let fault = walk(alloc, Block::Filter, keys)?;
        let asked = read_asked(alloc, Tested::PacketName, line, keys)?;
        Ok(beside(fault, needed(line, asked)))
    }
}

//! Reads `key-locator` blocks.

ghost use Rattle.std.specs.Prelude.{◌≡◌};
ghost use Rattle.info_rules.specs.Found.{shown, then_made, both as spec_both};
ghost use Rattle.info_rules.specs.Shown.{keys_of};
ghost use Rattle.info_rules.specs.LocatorBlock as spec;
ghost use Rattle.info_rules.specs.LocatorBlock.{is_hyper_alone, locator_of};

use crate::block_reader::{BlockReader, read_blocks};
use crate::form::{Form, Tested, first_other};
use crate::found::{Found, Read, beside, both, needed};
use crate::hyper_block::HyperReader;
use crate::keys::Keys;
use crate::name_test::{Asked, read_asked};
use crate::rule::{HyperRelation, LocatorTest};
use crate::table::Block;
use crate::walk::walk;
use std::alloc::Global;

/// Returns whether the block has none of the keys `name`, `relation` and `regex`, which state a
/// requirement of another form than `hyper-relation`.
#[tactic(auto, unfolding(crate::specs::LocatorBlock::is_hyper_alone))]
fn is_hyper_alone(keys: Keys<'_>) -> bool
    ensures { result ≡ is_hyper_alone (keys_of keys.entry) }
{
    first_other(Tested::KeyName, Some(Form::Hyper), keys).is_none()
}

/// Makes the requirement on a key's name from the first hyper-relation, or from the name test
/// `asked` if there is no hyper-relation or the first one is incomplete.
fn made_of(
    line: u32,
    asked: Found<Asked>,
    hypers: Found<Vec<Option<HyperRelation>>>,
) -> Found<LocatorTest>
    ensures { result ≡ then_made (spec.locator_made line)
        (spec_both asked (shown (λ all. all.items) hypers)) }
{
    let (asked, hypers) = both(asked, hypers)?;
    match hypers.into_iter().next() {
        Some(Some(hyper)) => Ok(LocatorTest::Hyper(hyper)),
        _ => needed(line, Ok(asked)).map(LocatorTest::Name),
    }
}

/// A reader of key locators.
pub struct LocatorReader;

impl BlockReader for LocatorReader {
    type Part = LocatorTest;

    ghost DEPTH = { 3 };

    const DEPTH: usize = 3;

    ghost part_of = { λ _ line keys. locator_of line keys };

    #[tactic(auto, unfolding(crate::specs::LocatorBlock::locator_of, crate::specs::HyperBlock::hyper_in))]
    fn read(&self, alloc: Global, line: u32, keys: Keys<'_>) -> Read<LocatorTest> {
        let fault = walk(alloc, Block::Locator, keys)?;
        let asked = read_asked(alloc, Tested::KeyName, line, keys)?;
        let needed = is_hyper_alone(keys);
        let hypers = read_blocks(alloc, &HyperReader { needed }, "hyper-relation", keys)?;
        Ok(beside(fault, made_of(line, asked, hypers)))
    }
}

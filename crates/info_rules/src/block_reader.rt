//! Reads the blocks of all keys with a given word.

ghost use Rattle.std.specs.Prelude.{◌≡◌, ℕ, List, IfOk};
ghost use Rattle.info_rules.specs.Tree.{Block};
ghost use Rattle.info_rules.specs.Found.{Found, each, shown};
ghost use Rattle.info_rules.specs.Keys.{named, block_in};
ghost use Rattle.info_rules.specs.Shown.{key_of, keys_of};

use crate::fault::RulesFaultKind;
use crate::found::{Read, beside, with_one};
use crate::keys::{Key, Keys};
use std::alloc::Global;

/// A reader for the keys of one kind of block.
pub trait BlockReader {
    /// The result of reading a block of this kind.
    type Part: Drop;

    ghost DEPTH: { ℕ };

    /// The depth of the keys in the block: the number of blocks around each of them.
    const DEPTH: usize;

    ghost part_of: { Self → ℕ → List Block → Found Self.Part };

    /// Reads the `keys` of a block. `line` is the line of the key that has the block.
    fn read(&self, alloc: Global, line: u32, keys: Keys<'_>) -> Read<Self::Part>
        ensures { IfOk result (λ found. found ≡ part_of self.now line (keys_of keys.entry)) };
}

/// Reads the block of `key`. If the key has a value or has no block, the key has the fault
/// `BadValue`.
fn read_block<R: BlockReader>(alloc: Global, reader: &R, key: Key<'_>) -> Read<R::Part>
    ensures { IfOk result
        (λ found. found ≡ block_in R.DEPTH (R.part_of reader.now) (key_of key.entry)) }
{
    if !key.own.has_block {
        return Ok(Err(RulesFaultKind::BadValue.at(key.own.line)));
    }
    let part = reader.read(alloc, key.own.line, key.keys(R::DEPTH))?;
    Ok(beside(key.shape_fault(), part))
}

/// Reads the block of each key with the given word.
pub fn read_blocks<R: BlockReader>(
    alloc: Global,
    reader: &R,
    word: &str,
    keys: Keys<'_>,
) -> Read<Vec<R::Part>>
    ensures { IfOk result (λ found. shown (λ all. all.items) found
        ≡ each (block_in R.DEPTH (R.part_of reader.now)) (named word.now (keys_of keys.entry))) }
{
    let mut found = Ok(Vec::new(alloc));
    let mut left = keys;
    while let Some((key, others)) = left.split_first() {
        if key.is(word) {
            found = with_one(found, read_block(alloc, reader, key)?)?;
        }
        left = others;
    }
    Ok(found)
}

//! Reads `checker` blocks.

ghost use Rattle.std.specs.Prelude.{◌≡◌, IfOk};
ghost use Rattle.info_rules.specs.Found.{then_made, both as spec_both};
ghost use Rattle.info_rules.specs.Shown.{keys_of, block_kind_of};
ghost use Rattle.info_rules.specs.CheckerBlock as spec;
ghost use Rattle.info_rules.specs.CheckerBlock.{checker_of, unverified_fault};

use crate::block_reader::{BlockReader, read_blocks};
use crate::fault::{RulesFault, RulesFaultKind};
use crate::found::{Found, Read, beside, both, missing_unless, needed};
use crate::keys::Keys;
use crate::locator_block::LocatorReader;
use crate::readers::read_value;
use crate::rule::{Algorithm, Checker, LocatorTest};
use crate::table::Block;
use crate::value_words::{CheckerType, SignatureType};
use crate::walk::walk;
use std::alloc::Global;

/// The type of a checker, `None` if the block has no type, or the fault to report.
type FoundType = Found<Option<CheckerType>>;

/// The signature type of a checker, `None` if the block has no signature type, or the fault to
/// report.
type FoundSignature = Found<Option<SignatureType>>;

fn is_hierarchical(checker_type: FoundType) -> bool
    ensures { result ≡ spec.is_hierarchical checker_type }
{
    matches!(checker_type, Ok(Some(CheckerType::Hierarchical)))
}

/// Reads the requirement of a checker on the key's name, if the block has one. The requirement of a
/// hierarchical checker is `Hierarchical`, and the block of such a checker has no key locator. For
/// a checker that is not hierarchical, the first `key-locator` states the requirement.
#[tactic(auto, unfolding(crate::specs::LocatorBlock::locator_in))]
fn read_test(alloc: Global, hierarchical: bool, keys: Keys<'_>) -> Read<Option<LocatorTest>>
    ensures { IfOk result (λ found. found ≡ spec.locator_of hierarchical (keys_of keys.entry)) }
{
    if hierarchical {
        return Ok(Ok(Some(LocatorTest::Hierarchical)));
    }
    match read_blocks(alloc, &LocatorReader, "key-locator", keys)? {
        Ok(tests) => Ok(Ok(tests.into_iter().next())),
        Err(fault) => Ok(Err(fault)),
    }
}

/// Returns the kind of the block of a checker. `hierarchical` is true if the checker is
/// hierarchical. The block of a hierarchical checker has no key locator.
fn block_of(hierarchical: bool) -> Block
    ensures { block_kind_of result ≡ spec.block_of hierarchical }
{
    if hierarchical {
        Block::Hierarchical
    } else {
        Block::Customized
    }
}

/// Returns whether the block has a key locator or does not need one.
fn has_locator(keys: Keys<'_>, checker_type: FoundType, signature: FoundSignature) -> bool
    ensures { result ≡ spec.has_locator (keys_of keys.entry) checker_type signature }
{
    !matches!(checker_type, Ok(Some(CheckerType::Customized)))
        || matches!(signature, Ok(Some(SignatureType::Sha256)))
        || keys.has("key-locator")
}

/// Returns the fault `BadValue` at the checker's `type`, if the checker is unverified, and either
/// its rule is for Interests, or its block has a signature type or a key locator.
#[tactic(auto, unfolding(crate::specs::CheckerBlock::unverified_fault))]
fn unverified_fault(for_interests: bool, keys: Keys<'_>) -> Option<RulesFault>
    ensures { result ≡ unverified_fault for_interests (keys_of keys.entry) }
{
    let is_wrong = keys.says("type", "unverified")
        && (for_interests || keys.has("sig-type") || keys.has("key-locator"));
    if !is_wrong {
        return None;
    }
    let key = keys.first_named("type")?;
    Some(RulesFaultKind::BadValue.at(key.own.line))
}

/// Makes a checker from the parts that were read. Without a signature type, the checker requires an
/// HMAC signature, unless it is unverified.
fn made_of(
    line: u32,
    types: Found<(CheckerType, Option<SignatureType>)>,
    test: Found<Option<LocatorTest>>,
) -> Found<Checker>
    ensures { result ≡ then_made (spec.checker_made line) (spec_both types test) }
{
    let ((checker_type, signature), test) = both(types, test)?;
    if matches!(checker_type, CheckerType::Unverified) {
        return Ok(Checker::Unverified);
    }
    match signature {
        Some(SignatureType::Sha256) => Ok(Checker::Sha256),
        Some(SignatureType::RsaSha256) => Ok(Checker::Unsupported),
        Some(SignatureType::EcdsaSha256) => keyed(line, Algorithm::EcdsaSha256, test),
        Some(SignatureType::HmacSha256) | None => keyed(line, Algorithm::HmacSha256, test),
    }
}

/// Makes a checker of signatures by a key. Without a requirement on the key's name, the fault is
/// `Missing`.
fn keyed(line: u32, algorithm: Algorithm, test: Option<LocatorTest>) -> Found<Checker>
    ensures { result ≡ spec.keyed line algorithm test }
{
    let test = needed(line, Ok(test))?;
    Ok(Checker::Keyed(algorithm, test))
}

/// A reader of checkers. `for_interests` is true in a rule for Interests.
#[derive(Drop)]
pub struct CheckerReader {
    pub for_interests: bool,
}

impl BlockReader for CheckerReader {
    type Part = Checker;

    ghost DEPTH = { 2 };

    const DEPTH: usize = 2;

    ghost part_of = { λ reader line keys. checker_of reader.for_interests line keys };

    #[tactic(auto, unfolding(crate::specs::CheckerBlock::checker_of))]
    fn read(&self, alloc: Global, line: u32, keys: Keys<'_>) -> Read<Checker> {
        let checker_type = read_value(alloc, keys, "type", RulesFaultKind::BadValue)?;
        let signature = read_value(alloc, keys, "sig-type", RulesFaultKind::BadValue)?;
        let hierarchical = is_hierarchical(checker_type);
        let fault = walk(alloc, block_of(hierarchical), keys)?;
        let unverified = unverified_fault(self.for_interests, keys);
        let missing = missing_unless(has_locator(keys, checker_type, signature), line);
        let types = both(needed(line, checker_type), signature);
        let checker = made_of(line, types, read_test(alloc, hierarchical, keys)?);
        Ok(beside(fault, beside(unverified, beside(missing, checker))))
    }
}

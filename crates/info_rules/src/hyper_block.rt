//! Reads `hyper-relation` blocks.

ghost use Rattle.std.specs.Prelude.{◌≡◌, IfOk};
ghost use Rattle.std.specs.Option.{option_zip};
ghost use Rattle.info_rules.specs.Found.{shown, then_made};
ghost use Rattle.info_rules.specs.Shown.{keys_of};
ghost use Rattle.info_rules.specs.HyperBlock as spec;
ghost use Rattle.info_rules.specs.HyperBlock.{groups_of, half_in, is_whole, hyper_of};

use crate::block_reader::BlockReader;
use crate::fault::RulesFaultKind;
use crate::found::{Found, Read, beside, both, missing_unless};
use crate::keys::Keys;
use crate::readers::{read_template, read_value};
use crate::rule::{HyperRelation, Relation};
use crate::table::Block;
use crate::walk::walk;
use name_patterns::{Pattern, Template};
use std::alloc::Global;

/// The greatest number of groups in a pattern.
const MAX_GROUPS: u8 = 9;

/// A pattern, and a template that uses only groups of this pattern, if both are present.
type Half = Option<(Pattern, Template)>;

/// Returns the number of groups in the pattern, or the greatest possible number if no pattern was
/// read.
fn groups_of(pattern: &Found<Option<Pattern>>) -> u8
    ensures { result ≡ groups_of pattern.now }
{
    match pattern {
        Ok(Some(pattern)) => pattern.groups(),
        _ => MAX_GROUPS,
    }
}

/// Returns the pair of the two values, `None` if one of them is absent, or the fault in `parts`.
fn zipped<A: Drop, B: Drop>(parts: Found<(Option<A>, Option<B>)>) -> Found<Option<(A, B)>>
    ensures { result ≡ shown (λ parts. option_zip parts.0 parts.1) parts }
{
    let (first, second) = parts?;
    Ok(first.zip(second))
}

/// Reads a pattern from the first key that is `pattern_word`. Reads a template, which may use only
/// groups of this pattern, from the first key that is `template_word`. If there is no fault, but
/// one of these two keys is absent, returns `None`.
#[tactic(auto, unfolding(crate::specs::HyperBlock::half_in))]
fn read_half(alloc: Global, keys: Keys<'_>, pattern_word: &str, template_word: &str) -> Read<Half>
    ensures read { IfOk result
        (λ found. found ≡ half_in pattern_word.now template_word.now (keys_of keys.entry)) }
    // The template uses only groups that the pattern has.
    ensures groups { IfOk result (λ found. IfOk found spec.HasGroups) }
{
    let pattern = read_value(alloc, keys, pattern_word, RulesFaultKind::Pattern)?;
    let template = read_template(alloc, keys, template_word, groups_of(&pattern))?;
    Ok(zipped(both(pattern, template)))
}

/// Returns whether all keys of a hyper-relation are present.
fn is_whole(keys: Keys<'_>) -> bool
    ensures { result ≡ is_whole (keys_of keys.entry) }
{
    keys.has("k-regex")
        && keys.has("k-expand")
        && keys.has("h-relation")
        && keys.has("p-regex")
        && keys.has("p-expand")
}

/// Makes a hyper-relation from its three parts. Returns `None` if one of them is absent.
fn hyper_with(key: Half, relation: Option<Relation>, packet: Half) -> Option<HyperRelation>
    requires key { spec.HasGroups key }
    requires packet { spec.HasGroups packet }
    ensures { result ≡ spec.hyper_with key relation packet }
{
    let ((key, relation), packet) = key.zip(relation).zip(packet)?;
    Some(HyperRelation {
        key_pattern: key.0,
        key_template: key.1,
        relation,
        packet_pattern: packet.0,
        packet_template: packet.1,
    })
}

/// The parts of a hyper-relation: the key's half, the relation and the packet's half. Each may be
/// absent.
type Parts = ((Half, Option<Relation>), Half);

/// Makes a hyper-relation from its parts. Returns `None` if a part is absent, or the fault if
/// `parts` is a fault.
fn made_of(parts: Found<Parts>) -> Found<Option<HyperRelation>>
    requires { IfOk parts spec.HaveGroups }
    ensures { result ≡ then_made spec.hyper_made parts }
{
    let ((key, relation), packet) = parts?;
    Ok(hyper_with(key, relation, packet))
}

/// Reads the hyper-relation that the keys state. Returns `None` if there is no fault, but a part of
/// it is absent.
#[tactic(auto, unfolding(crate::specs::HyperBlock::parts_in))]
fn read_hyper(alloc: Global, keys: Keys<'_>) -> Read<Option<HyperRelation>>
    ensures { IfOk result
        (λ found. found ≡ then_made spec.hyper_made (spec.parts_in (keys_of keys.entry))) }
{
    let key = read_half(alloc, keys, "k-regex", "k-expand")?;
    let relation = read_value(alloc, keys, "h-relation", RulesFaultKind::BadValue)?;
    let packet = read_half(alloc, keys, "p-regex", "p-expand")?;
    Ok(made_of(both(both(key, relation), packet)))
}

/// A reader of hyper-relations. `needed` is true if all five keys must be present.
#[derive(Drop)]
pub struct HyperReader {
    pub needed: bool,
}

impl BlockReader for HyperReader {
    type Part = Option<HyperRelation>;

    ghost DEPTH = { 4 };

    const DEPTH: usize = 4;

    ghost part_of = { λ reader line keys. hyper_of reader.needed line keys };

    #[tactic(auto, unfolding(crate::specs::HyperBlock::hyper_of))]
    fn read(&self, alloc: Global, line: u32, keys: Keys<'_>) -> Read<Option<HyperRelation>> {
        let fault = walk(alloc, Block::Hyper, keys)?;
        let hyper = read_hyper(alloc, keys)?;
        let missing = missing_unless(!self.needed || is_whole(keys), line);
        Ok(beside(fault, beside(missing, hyper)))
    }
}

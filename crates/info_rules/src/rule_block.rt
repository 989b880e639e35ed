//! Reads `rule` blocks.

ghost use Rattle.std.specs.Prelude.{◌≡◌, ◌++◌, None, IfOk};
ghost use Rattle.info_rules.specs.Found.{shown, both as spec_both};
ghost use Rattle.info_rules.specs.Blocks as blocks;
ghost use Rattle.info_rules.specs.Faults.{after};
ghost use Rattle.info_rules.specs.Walk.{walk_faults};
ghost use Rattle.info_rules.specs.Shown.{key_of, keys_of};
ghost use Rattle.info_rules.specs.RuleBlock.{head_in, rule_with, rule_parts, states_unverified, further_faults, rule_of_keys};

use crate::block_reader::{BlockReader, read_blocks};
use crate::checker_block::CheckerReader;
use crate::fault::RulesFaultKind;
use crate::filter_block::FilterReader;
use crate::found::{Found, Read, beside, both, needed};
use crate::keys::{Key, Keys};
use crate::readers::{read_id, read_value};
use crate::report::{Report, note};
use crate::rule::{Checker, Kind, NameTest, Rule};
use crate::table::Block;
use crate::walk::walk;
use ndn_tlv::Memory;
use std::alloc::Global;

/// Makes a rule from the parts that were read.
fn made_of(
    alloc: Global,
    head: Found<(&str, Kind)>,
    filters: Found<Vec<NameTest>>,
    checkers: Found<Vec<Checker>>,
) -> Read<Rule>
    ensures { IfOk result (λ found. found ≡ shown rule_with
        (spec_both (shown (λ head. (head.0.now, head.1)) head.entry)
        (spec_both (shown (λ all. all.items) filters) (shown (λ all. all.items) checkers)))) }
{
    match both(head, both(filters, checkers)) {
        Ok(((id, kind), (filters, checkers))) => Ok(Ok(Rule {
            id: String::from_str(alloc, id)?,
            kind,
            filters,
            checkers,
        })),
        Err(fault) => Ok(Err(fault)),
    }
}

/// Reads the id of a rule, and the kind of packets that the rule applies to, from the keys of the
/// rule's block. `line` is the line of the key `rule` that has the block.
fn read_head<'a>(alloc: Global, line: u32, keys: Keys<'a>) -> Read<(&'a str, Kind)>
    ensures { IfOk result (λ found. shown (λ head. (head.0.now, head.1)) found
        ≡ head_in line (keys_of keys.entry)) }
{
    let kind = read_value(alloc, keys, "for", RulesFaultKind::BadValue)?;
    Ok(both(needed(line, read_id(keys)), needed(line, kind)))
}

/// Reads a rule from the keys of its block, without checking for keys that are unknown or given too
/// many times.
#[tactic(auto, unfolding(crate::specs::RuleBlock::rule_parts, crate::specs::FilterBlock::filter_in, crate::specs::CheckerBlock::checker_in))]
fn read_parts(alloc: Global, line: u32, keys: Keys<'_>) -> Read<Rule>
    ensures { IfOk result
        (λ found. found ≡ shown rule_with (rule_parts line (keys_of keys.entry))) }
{
    let head = read_head(alloc, line, keys)?;
    let filters = read_blocks(alloc, &FilterReader, "filter", keys)?;
    let for_interests = keys.says("for", "interest");
    let checkers = read_blocks(alloc, &CheckerReader { for_interests }, "checker", keys)?;
    made_of(alloc, head, filters, checkers)
}

/// Returns whether the key `checker` states an unverified checker.
#[tactic(auto, unfolding(crate::specs::RuleBlock::states_unverified))]
fn states_unverified(key: Key<'_>) -> bool
    ensures { result ≡ states_unverified (key_of key.entry) }
{
    key.keys(CheckerReader::DEPTH).says("type", "unverified")
}

/// Adds a fault to the report for each checker that is not the first one of its rule, if it or the
/// first one is unverified: an unverified checker must be the only checker of its rule.
#[tactic(auto, using(crate::proofs::Reports::after_append, crate::proofs::Reports::after_none), unfolding(crate::specs::Faults::after, crate::specs::RuleBlock::further_faults))]
fn judge_further(keys: Keys<'_>, report: &mut Report)
    ensures { report.new ≡ after report.old (further_faults (keys_of keys.entry)) }
{
    let Some((first, mut left)) = keys.find("checker") else {
        return;
    };
    let first_unverified = states_unverified(first);
    while let Some((key, others)) = left.split_first() {
        if key.is("checker") && (first_unverified || states_unverified(key)) {
            note(report, RulesFaultKind::BadValue.at(key.own.line));
        }
        left = others;
    }
}

/// Returns the one of these faults that is reported: a key that is unknown or given too many times,
/// or a checker that stands beside an unverified one. Returns `None` if there is no such fault.
#[tactic(auto, using(crate::proofs::Reports::after_append))]
fn judge_rule(alloc: Global, keys: Keys<'_>) -> Result<Report, Memory>
    ensures { IfOk result (λ fault. fault ≡ after None
        (walk_faults blocks.Rule (keys_of keys.entry) ++ further_faults (keys_of keys.entry))) }
{
    let mut report = walk(alloc, Block::Rule, keys)?;
    judge_further(keys, &mut report);
    Ok(report)
}

/// A reader of rules.
pub struct RuleReader;

impl BlockReader for RuleReader {
    type Part = Rule;

    ghost DEPTH = { 1 };

    const DEPTH: usize = 1;

    ghost part_of = { λ _ line keys. rule_of_keys line keys };

    #[tactic(auto, unfolding(crate::specs::RuleBlock::rule_of_keys))]
    fn read(&self, alloc: Global, line: u32, keys: Keys<'_>) -> Read<Rule> {
        let fault = judge_rule(alloc, keys)?;
        let rule = read_parts(alloc, line, keys)?;
        Ok(beside(fault, rule))
    }
}

//! Reads rule files and reports their faults.

ghost use Rattle.std.specs.Prelude.{◌≡◌, ◌⊎◌, ◌↔◌, ◌++◌, List, None, Ok, Err, IfOk, MatchResult};
ghost use Rattle.std.specs.List.{flat_map};
ghost use Rattle.std.specs.Option.{option_map};
ghost use Rattle.info_rules.specs.Shown.{key_of, keys_of};
ghost use Rattle.info_rules.specs.Faults.{after, memory_fault};
ghost use Rattle.info_rules.specs.Found.{shown};
ghost use Rattle.info_rules.specs.Tree.{PlainEntry};
ghost use Rattle.info_rules.specs.Rule.{PlainRule};
ghost use Rattle.info_rules.specs.Meaning.{IsRuleFile};
ghost use Rattle.info_rules.specs.Blocks.{File};
ghost use Rattle.info_rules.specs.Walk.{walk_faults};
ghost use Rattle.info_rules.specs.RuleFile.{id_key, same_id_faults, repeated_faults, id_faults, shared_faults, rules_of_keys, rules_in};

use crate::anchor_block::AnchorReader;
use crate::block_reader::{BlockReader, read_blocks};
use crate::fault::{RulesFault, RulesFaultKind};
use crate::found::{Read, beside};
use crate::keys::{Key, Keys};
use crate::report::{Report, note};
use crate::rule::Rule;
use crate::rule_block::RuleReader;
use crate::rules::Rules;
use crate::table::Block;
use crate::tree::InfoTree;
use crate::walk::walk;
use ndn_tlv::Memory;
use std::alloc::Global;

/// The greatest number of rules in a file.
const MAX_RULES: usize = 256;

/// Returns the first key `id` in the block of `key`. Returns `None` if the block has no key `id`,
/// or if `key` is not a rule.
#[tactic(auto, unfolding(crate::specs::RuleFile::id_key))]
fn id_key(key: Key<'_>) -> Option<Key<'_>>
    ensures { option_map key_of result ≡ id_key (key_of key.entry) }
{
    if key.is("rule") {
        return key.keys(RuleReader::DEPTH).first_named("id");
    }
    None
}

/// Adds a fault to the report if `key` is a rule whose id equals `id`.
#[tactic(auto, using(crate::proofs::Reports::after_none), unfolding(crate::specs::RuleFile::same_id_faults))]
fn judge_same_id(id: &str, key: Key<'_>, report: &mut Report)
    ensures { report.new ≡ after report.old (same_id_faults id.now (key_of key.entry)) }
{
    if let Some(later) = id_key(key)
        && let Some(text) = later.value()
        && text == id
    {
        note(report, RulesFaultKind::TwiceNamed.at(later.own.line));
    }
}

/// For each rule in `later` that has the same id as the rule `key`, adds a fault to the report.
#[tactic(auto, using(crate::proofs::Reports::after_first, crate::proofs::Reports::after_no, crate::proofs::Reports::after_none), unfolding(crate::specs::RuleFile::repeated_faults))]
fn judge_repeated(key: Key<'_>, later: Keys<'_>, report: &mut Report)
    ensures { report.new
        ≡ after report.old (repeated_faults (key_of key.entry) (keys_of later.entry)) }
{
    let Some(id) = id_key(key).and_then(|first| first.value()) else {
        return;
    };
    let mut left = later;
    while let Some((key, others)) = left.split_first() {
        judge_same_id(id, key, report);
        left = others;
    }
}

/// For each pair of rules with the same id, adds the fault of the later rule to the report.
#[tactic(auto, using(crate::proofs::Reports::after_append), unfolding(crate::specs::RuleFile::id_faults, crate::specs::Faults::after))]
fn judge_ids(keys: Keys<'_>, report: &mut Report)
    ensures { report.new ≡ after report.old (id_faults (keys_of keys.entry)) }
{
    let mut left = keys;
    while let Some((key, others)) = left.split_first() {
        judge_repeated(key, others, report);
        left = others;
    }
}

/// Returns the one of these faults that is reported: an unknown key outside all blocks, more than
/// 256 rules, or an id that two rules have. Returns `None` if there is no such fault. Ids are
/// compared only if there are at most 256 rules.
#[tactic(auto, using(crate::proofs::Reports::after_append, crate::proofs::Reports::after_none))]
fn judge_file(alloc: Global, keys: Keys<'_>) -> Result<Report, Memory>
    ensures { IfOk result (λ fault. fault ≡ after None
        (walk_faults File (keys_of keys.entry) ++ shared_faults (keys_of keys.entry))) }
{
    let mut report = walk(alloc, Block::File, keys)?;
    if keys.count("rule") <= MAX_RULES {
        judge_ids(keys, &mut report);
    }
    Ok(report)
}

#[tactic(auto, unfolding(crate::specs::RuleFile::rules_of_keys, crate::specs::RuleBlock::rule_in, crate::specs::AnchorBlock::anchor_in))]
fn read_keys(alloc: Global, keys: Keys<'_>) -> Read<Vec<Rule>>
    ensures { IfOk result
        (λ found. shown (λ all. all.items) found ≡ rules_of_keys (keys_of keys.entry)) }
{
    let fault = judge_file(alloc, keys)?;
    let rules = read_blocks(alloc, &RuleReader, "rule", keys)?;
    let anchors = read_blocks(alloc, &AnchorReader, "trust-anchor", keys)?;
    Ok(beside(fault, beside(anchors.err(), rules)))
}

/// Reads the rules from the entries.
#[tactic(auto, unfolding(crate::specs::RuleFile::rules_in))]
fn read_file(alloc: Global, tree: &InfoTree) -> Result<Rules, RulesFault>
    ensures { MatchResult result (λ rules. rules_in tree.now ≡ Ok rules)
        (λ fault. (rules_in tree.now ≡ Err fault) ⊎ (fault ≡ memory_fault)) }
{
    let entries = &tree.entries;
    let keys = Keys { depth: 0, entries };
    match read_keys(alloc, keys) {
        Ok(Ok(rules)) => Ok(Rules { rules }),
        Ok(Err(fault)) => Err(fault),
        Err(Memory) => Err(RulesFaultKind::Memory.at(0)),
    }
}

impl Rules {
    /// Reads the rules of a file, in the order of the text. A file may have at most 256 rules.
    ///
    /// If the file has faults, returns the fault on the least line. Of several faults on the least
    /// line, returns the one whose kind comes first in `RulesFaultKind`. `Memory` may be returned
    /// for any file.
    pub fn read(alloc: Global, tree: &InfoTree) -> Result<Rules, RulesFault>
        // The returned rules are the meaning of the entries.
        ensures found { IfOk result (IsRuleFile tree.now) }
        // If the meaning of the entries is a list of rules, that list is returned, unless memory
        // runs out.
        ensures only { (rules : List PlainRule) → IsRuleFile tree.now rules
            → MatchResult result (λ read. read ≡ rules) (λ fault. fault ≡ memory_fault) }
        // The returned fault is the one that `rules_in` returns, or `Memory`.
        ensures exact { MatchResult result (λ rules. rules_in tree.now ≡ Ok rules)
            (λ fault. (rules_in tree.now ≡ Err fault) ⊎ (fault ≡ memory_fault)) }
    {
        read_file(alloc, tree)
    }
}

/// Law: entries mean at most one list of rules. `rules_in` returns a list of rules if and only if
/// the entries mean this list.
pub fn rule_files_have_one_reading()
    ensures exact { (entries : List PlainEntry) (rules : List PlainRule)
        → (rules_in entries ≡ Ok rules) ↔ IsRuleFile entries rules }
    ensures one { (entries : List PlainEntry) (a b : List PlainRule) → IsRuleFile entries a
        → IsRuleFile entries b → a ≡ b }
{}

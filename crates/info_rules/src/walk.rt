//! Checks the keys of a block against the table of blocks.

ghost use Rattle.std.specs.Prelude.{◌≡◌, OnOk, IfOk, None, map};
ghost use Rattle.std.specs.List.{flat_map, list_any};
ghost use Rattle.info_rules.specs.Faults.{after};
ghost use Rattle.info_rules.specs.Table.{table};
ghost use Rattle.info_rules.specs.Keys.{is_word, named, others_of};
ghost use Rattle.info_rules.specs.Walk.{unknown_faults, again_kind, again_faults, times_faults, walk_faults};
ghost use Rattle.info_rules.specs.Shown.{key_of, keys_of, form_of, takes_of, block_kind_of};

use crate::fault::RulesFaultKind;
use crate::keys::{Key, Keys};
use crate::report::{Report, note};
use crate::table::{Block, Form, Takes, Times};
use ndn_tlv::Memory;
use std::alloc::Global;

/// The outcome of a check. `Err` means that memory ran out.
type Judged = Result<(), Memory>;

/// Returns whether the word of the key is that of a form in `forms`.
fn is_known(forms: &[Form], key: Key<'_>) -> bool
    ensures { result
        ≡ list_any (λ form. is_word form.0.now (key_of key.entry)) forms.entry.now }
{
    forms.iter().any(|form| key.is(form.0))
}

/// For each key whose word is not that of a form in `forms`, adds a fault to the report.
#[tactic(auto, using(crate::proofs::Reports::after_first, crate::proofs::Reports::after_no), unfolding(crate::specs::Faults::after))]
fn judge_unknown(forms: &[Form], keys: Keys<'_>, report: &mut Report)
    ensures { report.new ≡ after report.old
        (flat_map (unknown_faults (map form_of forms.now)) (keys_of keys.entry)) }
{
    let mut left = keys;
    while let Some((key, others)) = left.split_first() {
        if !is_known(forms, key) {
            note(report, RulesFaultKind::UnknownKey.at(key.own.line));
        }
        left = others;
    }
}

/// Returns the kind of the fault of a repeated key. The kind is `BadValue` if this key must have a
/// value, but has a block or has no valid value. Otherwise the kind is `TwiceNamed`. The value of
/// the first key with the same word is checked when the block is read.
fn again_kind(alloc: Global, takes: Takes, key: Key<'_>) -> Result<RulesFaultKind, Memory>
    ensures { IfOk result (λ kind. kind ≡ again_kind (takes_of takes) (key_of key.entry)) }
{
    let right = match (takes, key.value()) {
        (Takes::Inner, _) => true,
        (Takes::Value(kind), Some(text)) => kind.is_value(alloc, text)?,
        (Takes::Value(_), None) => false,
    };
    if right {
        Ok(RulesFaultKind::TwiceNamed)
    } else {
        Ok(RulesFaultKind::BadValue)
    }
}

/// For each key that has the word of `form`, except the first such key, adds a fault to the report.
#[tactic(auto, using(crate::proofs::Reports::after_append, crate::proofs::Reports::after_none), unfolding(crate::specs::Faults::after))]
fn judge_second(alloc: Global, form: &Form, keys: Keys<'_>, report: &mut Report) -> Judged
    ensures { OnOk result (report.new ≡ after report.old
        (flat_map (again_faults (takes_of form.now.1))
        (others_of (named form.now.0.now (keys_of keys.entry))))) }
{
    let Some((_, mut left)) = keys.find(form.0) else {
        return Ok(());
    };
    while let Some((key, others)) = left.split_first() {
        if key.is(form.0) {
            let kind = again_kind(alloc, form.1, key)?;
            note(report, kind.at(key.own.line));
        }
        left = others;
    }
    Ok(())
}

/// Adds faults to the report if the key of `form` is given too many times.
#[tactic(auto, using(crate::proofs::Reports::after_none), unfolding(crate::specs::Walk::times_faults, crate::specs::Faults::after))]
fn judge_times(alloc: Global, form: &Form, keys: Keys<'_>, report: &mut Report) -> Judged
    ensures { OnOk result
        (report.new ≡ after report.old (times_faults (keys_of keys.entry) (form_of form.now))) }
{
    match form.2 {
        Times::Once => judge_second(alloc, form, keys, report)?,
        Times::UpTo(most) if keys.count(form.0) > most => note(
            report,
            RulesFaultKind::TooLarge.at(0),
        ),
        Times::UpTo(_) | Times::AnyNumber => {}
    }
    Ok(())
}

/// For each form in `forms` whose key is given too many times, adds faults to the report.
#[tactic(auto, using(crate::proofs::Reports::after_first, crate::proofs::Reports::after_no))]
fn judge_all_times(alloc: Global, forms: &[Form], keys: Keys<'_>, report: &mut Report) -> Judged
    ensures { OnOk result (report.new ≡ after report.old
        (flat_map (times_faults (keys_of keys.entry)) (map form_of forms.now))) }
{
    let mut left = forms;
    while let Some((form, others)) = left.split_first() {
        judge_times(alloc, form, keys, report)?;
        left = others;
    }
    Ok(())
}

/// Returns the fault that is reported for those keys of a block that are unknown or are given too
/// many times, or `None` if there are no such keys. In a trust anchor, unknown keys are allowed. A
/// value is checked here only if its key repeats a key that the block allows once. The reader of
/// the block checks the value of the first such key.
#[tactic(auto, using(crate::proofs::Reports::after_append, crate::proofs::Reports::after_none), unfolding(crate::specs::Walk::walk_faults))]
pub fn walk(alloc: Global, block: Block, keys: Keys<'_>) -> Result<Report, Memory>
    ensures { IfOk result
        (λ report. report ≡ after None (walk_faults (block_kind_of block) (keys_of keys.entry))) }
{
    let mut report = None;
    if block.is_closed() {
        judge_unknown(block.forms(), keys, &mut report);
    }
    judge_all_times(alloc, block.forms(), keys, &mut report)?;
    Ok(report)
}

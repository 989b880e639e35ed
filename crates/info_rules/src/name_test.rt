//! Reads the requirement on a name from the block of a filter or of a key locator.

ghost use Rattle.std.specs.Prelude.{◌≡◌, IfOk};
ghost use Rattle.info_rules.specs.Shown.{keys_of, tested_of, name_form_of};
ghost use Rattle.info_rules.specs.Found.{shown};
ghost use Rattle.info_rules.specs.NameTest as spec;

use crate::fault::{RulesFault, RulesFaultKind};
use crate::form::{Form, Tested, first_other};
use crate::found::{Found, Read, beside, both, missing_unless, needed};
use crate::keys::Keys;
use crate::readers::{read_name_word, read_value};
use crate::rule::{NameTest, Relation};
use name_patterns::Pattern;
use ndn_names::NameBuf;
use std::alloc::Global;

/// A name, a relation and a pattern. Each may be absent.
type Names = ((Option<NameBuf>, Option<Relation>), Option<Pattern>);

/// The requirement on a name, if the block has one.
pub type Asked = Option<NameTest>;

/// Returns the fault `BadValue` of the first key that belongs to a form other than `form`. If there
/// is no such key, but a key that `form` needs is absent, returns the fault `Missing`. Otherwise
/// returns `None`.
fn second_fault(tested: Tested, line: u32, keys: Keys<'_>, form: Form) -> Option<RulesFault>
    ensures { result
        ≡ spec.second_fault (tested_of tested) line (keys_of keys.entry) (name_form_of form) }
{
    match (first_other(tested, Some(form), keys), form) {
        (Some((_, second)), _) => Some(RulesFaultKind::BadValue.at(second)),
        (None, Form::Related) => missing_unless(keys.has("name") && keys.has("relation"), line),
        (None, Form::Matching | Form::Hyper) => None,
    }
}

/// Returns the fault of a block if the block does not state its requirement in exactly one form,
/// otherwise `None`. `line` is the line of the key that has the block.
#[tactic(auto, unfolding(crate::specs::NameTest::form_fault))]
fn form_fault(tested: Tested, line: u32, keys: Keys<'_>) -> Option<RulesFault>
    ensures { result ≡ spec.form_fault (tested_of tested) line (keys_of keys.entry) }
{
    match first_other(tested, None, keys) {
        Some((form, _)) => second_fault(tested, line, keys, form),
        None => missing_unless(false, line),
    }
}

/// Makes the requirement on a name. If there is a pattern, it is made from the pattern, otherwise
/// from the name and the relation. Returns `None` if there is no pattern, and the name or the
/// relation is absent.
fn test_of(names: Names) -> Option<NameTest>
    ensures { result ≡ spec.test_of names }
{
    let ((name, relation), pattern) = names;
    match pattern {
        Some(pattern) => Some(NameTest::Matching(pattern)),
        None => Some(NameTest::Related(relation?, name?)),
    }
}

/// Makes the requirement on a name from the parts that were read.
fn asked_of(names: Found<Names>) -> Found<Asked>
    ensures { result ≡ shown spec.test_of names }
{
    Ok(test_of(names?))
}

#[tactic(auto, unfolding(crate::specs::NameTest::names_in))]
fn read_names(alloc: Global, keys: Keys<'_>) -> Read<Names>
    ensures { IfOk result (λ found. found ≡ spec.names_in (keys_of keys.entry)) }
{
    let name = read_value::<NameBuf>(alloc, keys, "name", RulesFaultKind::BadValue)?;
    let relation = read_value::<Relation>(alloc, keys, "relation", RulesFaultKind::BadValue)?;
    let pattern = read_value::<Pattern>(alloc, keys, "regex", RulesFaultKind::Pattern)?;
    Ok(both(both(name, relation), pattern))
}

/// Reads the requirement on a name from the keys of a block. The keys must state the requirement in
/// exactly one form. `line` is the line of the key that has the block.
#[tactic(auto, unfolding(crate::specs::NameTest::asked_in))]
pub fn read_asked(alloc: Global, tested: Tested, line: u32, keys: Keys<'_>) -> Read<Asked>
    ensures { IfOk result
        (λ found. found ≡ spec.asked_in (tested_of tested) line (keys_of keys.entry)) }
{
    let fault = form_fault(tested, line, keys);
    let word = needed(line, read_name_word(keys, "type"));
    let asked = asked_of(read_names(alloc, keys)?);
    Ok(beside(fault, beside(word.err(), asked)))
}

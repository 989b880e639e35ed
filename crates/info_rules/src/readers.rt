//! Reads the values of keys.

ghost use Rattle.std.specs.Prelude.{◌≡◌, IfOk, IfSome, codes};
ghost use Rattle.std.specs.Option.{option_map};
ghost use Rattle.name_patterns.specs.Template.{NeedAtMost};
ghost use Rattle.name_patterns.specs.TemplateReading.{template_in};
ghost use Rattle.info_rules.specs.declared.fault.RulesFaultKind.TheVariants.{BadValue, Pattern as PatternFaultKind};
ghost use Rattle.info_rules.specs.Values.{ok_of, value_in, name_word_in, id_in, anchor_value_in};
ghost use Rattle.info_rules.specs.Found.{shown};
ghost use Rattle.info_rules.specs.Shown.{keys_of};

use crate::fault::RulesFaultKind;
use crate::found::{Found, Read};
use crate::keys::Keys;
use crate::value_words::{Value, is_anchor_type, is_id};
use name_patterns::{PatternFault, Template};
use ndn_tlv::Memory;
use std::alloc::Global;

/// Reads the value of the first key that is `word`. Returns `None` if no key is `word`. If the
/// value is invalid, returns a fault of the kind `kind`. If the key has no value, or has a block,
/// returns the fault `BadValue`.
#[tactic(auto, unfolding(crate::specs::Values::value_in))]
pub fn read_value<V: Value>(
    alloc: Global,
    keys: Keys<'_>,
    word: &str,
    kind: RulesFaultKind,
) -> Read<Option<V>>
    ensures { IfOk result
        (λ found. found ≡ value_in kind V.meant word.now (keys_of keys.entry)) }
{
    let Some(key) = keys.first_named(word) else {
        return Ok(Ok(None));
    };
    let Some(text) = key.value() else {
        return Ok(Err(RulesFaultKind::BadValue.at(key.own.line)));
    };
    match V::of_text(alloc, text)? {
        Some(value) => Ok(Ok(Some(value))),
        None => Ok(Err(kind.at(key.own.line))),
    }
}

/// Reads the template that is the value of the first key that is `word`. Returns `None` if no key
/// is `word`. `groups` is the greatest number that a group used by the template may have.
#[tactic(auto, unfolding(crate::specs::Values::value_in))]
pub fn read_template(
    alloc: Global,
    keys: Keys<'_>,
    word: &str,
    groups: u8,
) -> Read<Option<Template>>
    ensures read { IfOk result
        (λ found. found ≡ value_in PatternFaultKind (λ text. ok_of (template_in groups text))
        word.now (keys_of keys.entry)) }
    // Each group that the template uses has a number of at most `groups`.
    ensures groups { IfOk result
        (λ found. IfOk found (λ template. IfSome template (NeedAtMost groups))) }
{
    let Some(key) = keys.first_named(word) else {
        return Ok(Ok(None));
    };
    let Some(text) = key.value() else {
        return Ok(Err(RulesFaultKind::BadValue.at(key.own.line)));
    };
    match Template::read(alloc, text, groups) {
        Ok(template) => Ok(Ok(Some(template))),
        Err(PatternFault::Memory) => Err(Memory),
        Err(_) => Ok(Err(RulesFaultKind::Pattern.at(key.own.line))),
    }
}

/// Finds the first key that is `word`, and checks that the value of this key is the text "name".
/// Returns `None` if no key is `word`.
#[tactic(auto, unfolding(crate::specs::Values::value_in))]
pub fn read_name_word(keys: Keys<'_>, word: &str) -> Found<Option<()>>
    ensures { result ≡ value_in BadValue name_word_in word.now (keys_of keys.entry) }
{
    let Some(key) = keys.first_named(word) else {
        return Ok(None);
    };
    if key.value() == Some("name") {
        return Ok(Some(()));
    }
    Err(RulesFaultKind::BadValue.at(key.own.line))
}

/// Checks the type of a trust anchor: the value of the first key `type`. Returns `None` if there is
/// no such key. The type `any` has the fault `AnyAnchor`. An unknown type, or a key `type` that has
/// a block or has no value, has the fault `BadValue`.
#[tactic(auto, unfolding(crate::specs::Values::anchor_value_in))]
pub fn read_anchor_type(keys: Keys<'_>) -> Found<Option<()>>
    ensures { result ≡ anchor_value_in (keys_of keys.entry) }
{
    let Some(key) = keys.first_named("type") else {
        return Ok(None);
    };
    match key.value() {
        Some("any") => Err(RulesFaultKind::AnyAnchor.at(key.own.line)),
        Some(text) if is_anchor_type(text) => Ok(Some(())),
        _ => Err(RulesFaultKind::BadValue.at(key.own.line)),
    }
}

/// Reads the value of the first key `id`. Returns `None` if there is no such key.
#[tactic(auto, unfolding(crate::specs::Values::value_in))]
pub fn read_id<'a>(keys: Keys<'a>) -> Found<Option<&'a str>>
    ensures { shown (option_map (λ text. text.now)) result
        ≡ value_in BadValue id_in (codes "id") (keys_of keys.entry) }
{
    let Some(key) = keys.first_named("id") else {
        return Ok(None);
    };
    match key.value() {
        Some(text) if is_id(text) => Ok(Some(text)),
        _ => Err(RulesFaultKind::BadValue.at(key.own.line)),
    }
}

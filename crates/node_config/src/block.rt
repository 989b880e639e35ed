//! The keys of blocks, and what each key must have.

ghost use Rattle.std.specs.Prelude.{◌≡◌, map};
ghost use Rattle.std.specs.List.{list_any};
ghost use Rattle.info_rules.specs.Keys.{is_word};
ghost use Rattle.std.specs.Option.{option_map};
ghost use Rattle.info_rules.specs.Shown.{key_of, keys_of};
ghost use Rattle.node_config.specs.Keys.{block_in, key_fault, known_in, line_in, text_in};
ghost use Rattle.node_config.specs.Reading.{seen_as};

use crate::fault::{ConfigFault, ConfigFaultKind};
use info_rules::{Key, Keys};

/// Returns whether the word of the key is one of `words`.
fn is_known(words: &[&str], key: Key<'_>) -> bool
    ensures { result ≡ list_any (λ word. is_word word.now (key_of key.entry)) words.entry.now }
{
    words.iter().any(|word| key.is(word))
}

/// Returns the fault of a key whose word is none of `words`, or of the first later key with the
/// same word, or `None` if there is no such fault. `others` are the keys after `key`.
#[tactic(auto, using(crate::proofs::KnownKeys::known_shown))]
fn key_fault(words: &[&str], key: Key<'_>, others: Keys<'_>) -> Option<ConfigFault>
    ensures { result ≡ key_fault (map (λ word. word.now) words.now) (key_of key.entry)
        (keys_of others.entry) }
{
    if !is_known(words, key) {
        return Some(ConfigFaultKind::UnknownKey.at(key.own.line));
    }
    match others.first_named(key.own.key.as_str()) {
        Some(again) => Some(ConfigFaultKind::KeyTwice.at(again.own.line)),
        None => None,
    }
}

/// Checks that the word of each key is one of `words`, and that no two keys have the same word.
/// Returns the fault of the first key that is unknown or given again. A key that is given again has
/// its fault at the later line.
#[tactic(auto, using(crate::proofs::KnownKeys::rest_is_sound, crate::proofs::KnownKeys::first_is_faulty, crate::proofs::KnownKeys::none_is_faulty))]
pub fn check_keys(words: &[&str], keys: Keys<'_>) -> Result<(), ConfigFault>
    ensures { result ≡ known_in (map (λ word. word.now) words.now) (keys_of keys.entry) }
{
    let mut left = keys;
    while let Some((key, others)) = left.split_first() {
        if let Some(fault) = key_fault(words, key, others) {
            return Err(fault);
        }
        left = others;
    }
    Ok(())
}

/// Returns the keys in the block of the key `word`, or no keys if there is no such key. `keys` are
/// the keys of the file. A key that has a value, or no block, has the fault `BadShape`.
#[tactic(auto, using(crate::proofs::KnownKeys::no_keys))]
pub fn block_at<'a>(keys: Keys<'a>, word: &str) -> Result<Keys<'a>, ConfigFault>
    ensures { seen_as keys_of result ≡ block_in word.now (keys_of keys.entry) }
{
    let Some(key) = keys.first_named(word) else {
        return Ok(Keys {
            depth: 1,
            entries: &[],
        });
    };
    if key.own.value.is_some() || !key.own.has_block {
        return Err(ConfigFaultKind::BadShape.at(key.own.line));
    }
    Ok(key.keys(1))
}

/// Returns the line of the key `word`, or 0 if there is no such key.
pub fn line_at(keys: Keys<'_>, word: &str) -> u32
    ensures { result ≡ line_in word.now (keys_of keys.entry) }
{
    match keys.first_named(word) {
        Some(key) => key.own.line,
        None => 0,
    }
}

/// Returns the line and the value of the key `word`, or `None` if there is no such key. A key that
/// has no value, or a block, has the fault `BadShape`.
pub fn text_at<'a>(keys: Keys<'a>, word: &str) -> Result<Option<(u32, &'a str)>, ConfigFault>
    ensures { seen_as (option_map (λ text. (text.0, text.1.now))) result
        ≡ text_in word.now (keys_of keys.entry) }
{
    let Some(key) = keys.first_named(word) else {
        return Ok(None);
    };
    match key.value() {
        Some(text) => Ok(Some((key.own.line, text))),
        None => Err(ConfigFaultKind::BadShape.at(key.own.line)),
    }
}

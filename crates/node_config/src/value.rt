//! The values that are read from texts.

ghost use Rattle.std.specs.Prelude.{ℕ, List, MatchOption, string_bytes};
ghost use Rattle.std.specs.Option.{option_map};
ghost use Rattle.ndn_names.specs.ReadsAs.{ReadsAs};
ghost use Rattle.info_rules.specs.Shown.{keys_of};
ghost use Rattle.node_config.specs.declared.fault.ConfigFaultKind.TheVariants.{BadPrefix};
ghost use Rattle.node_config.specs.Reading.{Meets};
ghost use Rattle.node_config.specs.Values.{PathAt, PrefixAt, Spelled, ValueAt, ValueOr};

use crate::block::text_at;
use crate::fault::{ConfigFault, ConfigFaultKind};
use info_rules::Keys;
use ndn_names::{NameBuf, NameFault};
use std::alloc::Global;

/// A value that a text can spell.
pub trait Value: Drop {
    ghost spells: { List ℕ → Self → Type 0 };

    /// Returns the value that the text spells, or `None` if it spells none.
    fn of_text(text: &str) -> Option<Self>
        ensures { MatchOption result ((x : Self) → spells text.now x → ⊥) (spells text.now) };
}

/// Reads the value of the key `word`. Returns `None` if there is no such key. A text that spells no
/// value has a fault of the kind `kind`.
pub fn value_at<V: Value>(
    keys: Keys<'_>,
    word: &str,
    kind: ConfigFaultKind,
) -> Result<Option<V>, ConfigFault>
    ensures { ValueAt V.spells kind word.now (keys_of keys.entry) result }
{
    let Some((line, text)) = text_at(keys, word)? else {
        return Ok(None);
    };
    match V::of_text(text) {
        Some(value) => Ok(Some(value)),
        None => Err(kind.at(line)),
    }
}

/// Reads the value of the key `word`, or returns `default` if there is no such key.
pub fn value_or<V: Value>(
    keys: Keys<'_>,
    word: &str,
    kind: ConfigFaultKind,
    default: V,
) -> Result<V, ConfigFault>
    ensures { ValueOr V.spells kind default word.now (keys_of keys.entry) result }
{
    match value_at(keys, word, kind)? {
        Some(value) => Ok(value),
        None => Ok(default),
    }
}

/// Reads the path that is the value of the key `word`. Returns `None` if there is no such key. An
/// empty path has the fault `BadPath`.
pub fn path_at(alloc: Global, keys: Keys<'_>, word: &str) -> Result<Option<String>, ConfigFault>
    ensures { Meets (PathAt word.now (keys_of keys.entry)) (option_map string_bytes) result }
{
    let Some((line, text)) = text_at(keys, word)? else {
        return Ok(None);
    };
    if text.is_empty() {
        return Err(ConfigFaultKind::BadPath.at(line));
    }
    Ok(Some(String::from_str(alloc, text)?))
}

/// Reads the name that a URI spells. `line` is the line of the URI.
fn name_of(alloc: Global, line: u32, uri: &str) -> Result<NameBuf, ConfigFault>
    ensures { Meets (Spelled ReadsAs BadPrefix (line, uri.now)) (λ name. name) result }
{
    match NameBuf::from_uri(alloc, uri) {
        Ok(name) => Ok(name),
        Err(fault) => match fault {
            NameFault::Memory => Err(ConfigFaultKind::Memory.at(0)),
            _ => Err(ConfigFaultKind::BadPrefix.at(line)),
        },
    }
}

/// Reads the name whose URI is the value of the key `word`, or the name `/repo` if there is no such
/// key. A text that is not the URI of a name has the fault `BadPrefix`.
pub fn prefix_at(alloc: Global, keys: Keys<'_>, word: &str) -> Result<NameBuf, ConfigFault>
    ensures { Meets (PrefixAt word.now (keys_of keys.entry)) (λ name. name) result }
{
    match text_at(keys, word)? {
        Some((line, text)) => name_of(alloc, line, text),
        None => name_of(alloc, 0, "/repo"),
    }
}

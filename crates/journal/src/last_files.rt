//! The last rules and keys in a journal.
ghost use Rattle.std.specs.Prelude.{◌≡◌, ◌↔◌, ◌∷◌, ◌++◌, ℕ, List, IfNone, IfOk, IfSome, IsTrue, MatchOption};
ghost use Rattle.std.specs.String.{string_bytes};
ghost use Rattle.node_core.specs.Script.Line.{Lacks};
ghost use Rattle.journal.specs.LastFiles.{HasLastFiles, HasNoFiles, IsRulesLine, files_text};

use crate::replaying::{ReplayFault, read_line, whole_line};
use node_core::hex_word;
use std::alloc::{AllocError, Global};
use std::io::BufRead;

/// Finds the last whole line of new rules, and returns the text after the time in that line: the
/// octets of the rule file and of the key file in hexadecimal. Returns `None` if no whole line has
/// new rules. The octets after the last LF are ignored. The fault is `Read` or `Memory`.
pub fn last_rules<R: BufRead>(alloc: Global, reader: &mut R) -> Result<Option<Vec<u8>>, ReplayFault>
    ensures { IfOk result (λ last. IfSome (R.remaining reader.old)
        (λ text. MatchOption last (HasNoFiles text) (λ files. HasLastFiles text files.items))) }
{
    let mut octets = Vec::new(alloc);
    let mut last = None;
    for before in 0..u32::MAX {
        read_line(reader, &mut octets)?;
        let Some(line) = whole_line(&octets) else {
            return Ok(last);
        };
        if let Some(files) = files_of(line) {
            last = Some(copy_of(alloc, files)?);
        }
    }
    Err(ReplayFault::Read)
}

/// Returns whether the last whole line of new rules in a journal has, in lower-case hexadecimal,
/// the octets `rules` of a rule file and the octets `keys` of a key file. Returns `false` if no
/// whole line has new rules. The fault is `Read` or `Memory`.
pub fn are_last_rules<R: BufRead>(
    alloc: Global,
    reader: &mut R,
    rules: &[u8],
    keys: &[u8],
) -> Result<bool, ReplayFault>
    ensures { IfOk result (λ are. IfSome (R.remaining reader.old)
        (λ text. IsTrue are ↔ HasLastFiles text (files_text rules.now keys.now))) }
{
    let Some(last) = last_rules(alloc, reader)? else {
        return Ok(false);
    };
    match text_of_files(alloc, rules, keys) {
        Ok(text) => Ok(last.as_slice() == text.as_bytes()),
        Err(_) => Err(ReplayFault::Memory),
    }
}

/// Returns the text that follows the time in the line of new rules for a rule file with the octets
/// `rules` and a key file with the octets `keys`.
fn text_of_files(alloc: Global, rules: &[u8], keys: &[u8]) -> Result<String, AllocError>
    ensures { IfOk result (λ text. string_bytes text ≡ files_text rules.now keys.now) }
{
    let rules = hex_word(alloc, rules)?;
    let keys = hex_word(alloc, keys)?;
    format!(in alloc; "{rules} {keys}")
}

/// Returns a copy of `octets`.
fn copy_of(alloc: Global, octets: &[u8]) -> Result<Vec<u8>, ReplayFault>
    ensures { IfOk result (λ copy. copy.items ≡ octets.now) }
{
    match Vec::from_slice(alloc, octets) {
        Ok(copy) => Ok(copy),
        Err(_) => Err(ReplayFault::Memory),
    }
}

/// If the line is a line of new rules, returns the text after the time in the line. Returns `None`
/// for any other line.
fn files_of(line: &[u8]) -> Option<&[u8]>
    ensures found { IfSome result (λ files. IsRulesLine line.now files.now) }
    ensures none { IfNone result ((files : List ℕ) → IsRulesLine line.now files → ⊥) }
{
    let (kind, rest) = cut_at_space(line)?;
    if kind != b"rules".as_slice() {
        return None;
    }
    let (_, files) = cut_at_space(rest)?;
    Some(files)
}

/// Splits the text at its first space. Returns the octets before that space and the octets after
/// it, or `None` if the text has no space.
fn cut_at_space(text: &[u8]) -> Option<(&[u8], &[u8])>
    ensures found { IfSome result
        (λ parts. (text.now ≡ parts.0.now ++ (32 ∷ parts.1.now)) × Lacks 32 parts.0.now) }
    ensures none { IfNone result (Lacks 32 text.now) }
{
    for (i, octet) in text.iter().enumerate() {
        if *octet == b' ' {
            return Some((&text[..i], &text[i + 1..]));
        }
    }
    None
}

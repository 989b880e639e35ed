//! Removes the escaping backslashes from words.

ghost use Rattle.std.specs.Prelude.{◌≡◌, ◌<◌, ◌≤◌, ◌∷◌, ◌++◌, MatchResult, length, string_bytes};
ghost use Rattle.info_rules.specs.Words as words;
ghost use Rattle.info_rules.specs.Faults.{memory_fault};

use crate::fault::RulesFault;
use std::alloc::Global;

/// Reads one escape. `following` is the text after a backslash. Returns the text that the escape
/// means, and the text after the escape. A backslash that escapes nothing means itself.
#[tactic(auto, using(crate::proofs::Escapes::escape_front, crate::proofs::Escapes::kept_backslash))]
fn first_sign(following: &str) -> (&str, &str)
    ensures read { words.unescaped (92 ∷ following.now)
        ≡ result.0.now ++ words.unescaped result.1.now }
    ensures shorter { length result.1.now ≤ length following.now }
{
    if following.starts_with('\\') || following.starts_with('"') {
        following.split_at(1)
    } else {
        ("\\", following)
    }
}

/// Returns the word, read from left to right, with each `\\` replaced by one backslash and each
/// `\"` by a quote. Fails only if memory runs out.
pub fn unescaped(alloc: Global, word: &str) -> Result<String, RulesFault>
    ensures { MatchResult result (λ text. string_bytes text ≡ words.unescaped word.now)
        (λ fault. fault ≡ memory_fault) }
{
    let mut text = String::new(alloc);
    let mut rest = word;
    while let Some((before, following)) = rest.split_once('\\') {
        let (sign, after) = first_sign(following);
        text.push_str(before)?;
        text.push_str(sign)?;
        rest = after;
    }
    text.push_str(rest)?;
    Ok(text)
}

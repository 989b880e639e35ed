//! The words of scenarios, which stand for octets.
ghost use Rattle.std.specs.Prelude.{◌≡◌, ◌∷◌, ◌++◌, IfSome, IfNone, OnOk};
ghost use Rattle.node_core.specs.Script.Line.{Lacks};
ghost use Rattle.scenarios.specs.Words.{meaning_of as meaning, spelled};

use memchr::memchr;
use ndn_tlv::Memory;

/// A word, and the hexadecimal digits of the octets for which the word stands.
#[derive(Drop)]
pub struct Word {
    pub name: Vec<u8>,
    pub digits: Vec<u8>,
}

/// Splits a line at its first space. Returns the octets before and after that space, or `None` if
/// the line has no space.
pub fn cut_word(line: &[u8]) -> Option<(&[u8], &[u8])>
    ensures found { IfSome result
        (λ parts. (line.now ≡ parts.0.now ++ (32 ∷ parts.1.now)) × Lacks 32 parts.0.now) }
    ensures none { IfNone result (Lacks 32 line.now) }
{
    let at = memchr(b' ', line)?;
    Some((&line[..at], &line[at + 1..]))
}

/// Returns the digits of the first word with this name, or the name itself if no word has this
/// name.
pub fn meaning_of<'a>(words: &'a [Word], name: &'a [u8]) -> &'a [u8]
    ensures { result.now ≡ meaning words.now name.now }
{
    for word in words {
        if word.name.as_slice() == name {
            return word.digits.as_slice();
        }
    }
    name
}

/// Appends a line in which each word that has a meaning is replaced by its digits. If memory runs
/// out, nothing is stated about the text.
pub fn put_spelled(text: &mut Vec<u8>, words: &[Word], line: &[u8]) -> Result<(), Memory>
    ensures { OnOk result (text.new.items ≡ text.old.items ++ spelled words.now line.now) }
{
    let mut rest = line;
    while let Some((name, after)) = cut_word(rest) {
        text.extend_from_slice(meaning_of(words, name))?;
        text.push(b' ')?;
        rest = after;
    }
    text.extend_from_slice(meaning_of(words, rest))?;
    Ok(())
}

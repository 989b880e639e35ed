//! Lines of key files.

ghost use Rattle.std.specs.Prelude.{◌≡◌, ◌≢◌, ◌<◌, ◌⊎◌, Some, [], ◌∷◌, length, MatchResult};
ghost use Rattle.std.specs.Option.{option_map};
ghost use Rattle.key_files.specs.KeyFile.{lines_of, is_skipped};
ghost use Rattle.key_files.specs.KeyReading.{marked, name_of, octets_of, parts_of};
ghost use Rattle.key_files.specs.LineFault.{IsLineFault};

use crate::fault::KeyFault;
use hex::FromHexError;
use ndn_names::{NameBuf, NameFault};
use std::alloc::Global;

/// The greatest length of a key, in octets.
pub(crate) const MAX_KEY_LEN: usize = 256;

/// The word after the name of a public key.
const ECDSA_WORD: &str = "ecdsa-p256";

/// What a key is for.
#[derive(Clone, Copy, Debug, PartialEq, Eq)]
pub(crate) enum Algorithm {
    Hmac,
    Ecdsa,
}

/// Returns the first line, and the text after its LF. If the text has no LF, returns the whole text
/// and an empty text.
pub fn first_line(text: &str) -> (&str, &str)
    requires { text.now ≢ [] }
    ensures lines { (lines_of text.now ≡ result.0.now ∷ lines_of result.1.now)
        ⊎ ((lines_of text.now ≡ result.0.now ∷ []) × (result.1.now ≡ [])) }
    ensures shorter { length result.1.now < length text.now }
{
    match text.split_once('\n') {
        Some(parts) => parts,
        None => (text, ""),
    }
}

/// Returns whether the line is empty or begins with a semicolon.
pub(crate) fn is_skipped(line: &str) -> bool
    ensures { result ≡ is_skipped line.now }
{
    line.is_empty() || line.starts_with(';')
}

/// Returns the algorithm of a key and the URI of its name, which are in the text before the last
/// space of its line.
fn marked(front: &str) -> (Algorithm, &str)
    ensures { (result.0, result.1.now) ≡ marked front.now }
{
    let Some((uri, word)) = front.rsplit_once(' ') else {
        return (Algorithm::Hmac, front);
    };
    if word == ECDSA_WORD {
        (Algorithm::Ecdsa, uri)
    } else {
        (Algorithm::Hmac, front)
    }
}

/// Returns the parts of a key's line: the algorithm, the URI of the name, and the digits. Returns
/// `None` if the line has no space.
pub(crate) fn parts_of(line: &str) -> Option<((Algorithm, &str), &str)>
    ensures { option_map (λ x. ((x.0.0, x.0.1.now), x.1.now)) result ≡ parts_of line.now }
{
    match line.rsplit_once(' ') {
        None => None,
        Some((front, digits)) => Some((marked(front), digits)),
    }
}

/// Returns the name that the URI in line `number` reads as. Returns `BadLine` if the URI reads as
/// no name or as the empty name, and `Memory` if memory runs out.
pub(crate) fn name_of(alloc: Global, number: u64, uri: &str) -> Result<NameBuf, KeyFault>
    ensures { MatchResult result (λ name. name_of uri.now ≡ Some name)
        (IsLineFault number (name_of uri.now)) }
{
    match NameBuf::from_uri(alloc, uri) {
        Err(NameFault::Memory) => Err(KeyFault::Memory),
        Err(_) => Err(KeyFault::BadLine(number)),
        Ok(name) => {
            if name.view().is_empty() {
                return Err(KeyFault::BadLine(number));
            }
            Ok(name)
        }
    }
}

/// Returns the octets that the hexadecimal digits in line `number` encode. Returns `BadLine` if the
/// digits do not encode 1 to 256 octets, and `Memory` if memory runs out.
pub(crate) fn octets_of(alloc: Global, number: u64, digits: &str) -> Result<Vec<u8>, KeyFault>
    ensures { MatchResult result (λ octets. octets_of digits.now ≡ Some octets.items)
        (IsLineFault number (octets_of digits.now)) }
{
    match hex::decode(alloc, digits.as_bytes()) {
        Err(FromHexError::OutOfMemory) => Err(KeyFault::Memory),
        Err(_) => Err(KeyFault::BadLine(number)),
        Ok(octets) => {
            if octets.is_empty() || octets.len() > MAX_KEY_LEN {
                return Err(KeyFault::BadLine(number));
            }
            Ok(octets)
        }
    }
}

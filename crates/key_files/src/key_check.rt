//! Finding the first fault of a key file. Nothing is allocated.

ghost use Rattle.std.specs.Prelude.{◌≡◌, ◌+◌, ◌<◌, ◌≤◌, List, Some, None, Ok, Err, IfOk, MatchResult, is_some, length, take};
ghost use Rattle.ndn_tlv.specs.Element.{Field};
ghost use Rattle.key_files.specs.KeyFile.{NamedKey, lines_of};
ghost use Rattle.key_files.specs.KeyCheck.{line_has_name, lines_have_name, HaveNames, AreReadAfter, IsFaultAfter};
ghost use Rattle.key_files.specs.KeyReading.{is_usable, key_of, keys_in, line_key, after_line, name_of, octets_of};
ghost use Rattle.std.specs.Option.{option_map};

use crate::ecdsa_key::is_public_key;
use crate::fault::KeyFault;
use crate::key_book::MAX_KEYS;
use crate::key_line::{Algorithm, MAX_KEY_LEN, first_line, is_skipped, parts_of};
use ndn_names::{uri_len, uris_are_equal};

/// Returns whether the text is the URI of a nonempty name.
fn is_name(uri: &str) -> bool
    ensures { result ≡ is_some (name_of uri.now) }
{
    match uri_len(uri) {
        Ok(len) => len > 0,
        Err(_) => false,
    }
}

/// Checks the octets of a key in hexadecimal digits. Returns `None` if the text is not 1 to 256
/// octets, and otherwise whether the octets are a key for this algorithm.
fn check_octets(algorithm: Algorithm, digits: &str) -> Option<bool>
    ensures { result ≡ option_map (λ octets. is_usable (key_of algorithm octets))
        (octets_of digits.now) }
{
    let len = digits.len() / 2;
    if len == 0 || len > MAX_KEY_LEN {
        return None;
    }
    let mut octets = [0; MAX_KEY_LEN];
    hex::decode_to_slice(digits.as_bytes(), &mut octets[..len]).ok()?;
    Some(match algorithm {
        Algorithm::Hmac => !is_public_key(&octets[..len]),
        Algorithm::Ecdsa => is_public_key(&octets[..len]),
    })
}

/// Returns the URI in `line`, or the fault of `line`. `line` has number `number`, and is not a
/// skipped line.
fn key_uri(number: u64, line: &str) -> Result<&str, KeyFault>
    ensures { MatchResult result
        (λ uri. (key : NamedKey) × (line_key number line.now ≡ Ok key)
        × (name_of uri.now ≡ Some key.0))
        (λ fault. line_key number line.now ≡ Err fault) }
{
    let Some(((algorithm, uri), digits)) = parts_of(line) else {
        return Err(KeyFault::BadLine(number));
    };
    if !is_name(uri) {
        return Err(KeyFault::BadLine(number));
    }
    match check_octets(algorithm, digits) {
        None => Err(KeyFault::BadLine(number)),
        Some(false) => Err(KeyFault::BadKey(number)),
        Some(true) => Ok(uri),
    }
}

/// Returns whether the line has the name that `uri` reads as: the line is not skipped, and has a URI
/// of this name.
fn has_name(line: &str, uri: &str) -> bool
    ensures { (name : List Field) → name_of uri.now ≡ Some name
        → result ≡ line_has_name name line.now }
{
    if is_skipped(line) {
        return false;
    }
    match parts_of(line) {
        Some(parts) => uris_are_equal(parts.0.1, uri),
        None => false,
    }
}

/// Returns whether `has_name` is true for `uri` and one of the first `lines` lines of `text`.
fn have_name(text: &str, lines: u64, uri: &str) -> bool
    ensures { (name : List Field) → name_of uri.now ≡ Some name
        → result ≡ lines_have_name name (take lines (lines_of text.now)) }
{
    let mut rest = text;
    let mut left = lines;
    while left > 0 {
        if rest.is_empty() {
            return false;
        }
        let (line, after) = first_line(rest);
        if has_name(line, uri) {
            return true;
        }
        rest = after;
        left -= 1;
    }
    false
}

/// Returns the number of keys in the lines of a text up to and including `line`, or the fault of
/// `line`. There are `before` lines before `line`, and these lines have `keys` keys.
fn check_line(text: &str, before: u64, keys: usize, line: &str) -> Result<usize, KeyFault>
    requires short { before < length text.now }
    requires few { keys ≤ 256 }
    ensures keys { (all : List NamedKey) → keys ≡ length all
        → HaveNames (take before (lines_of text.now)) all
        → MatchResult result (AreReadAfter before all line.now) (IsFaultAfter before all line.now) }
    ensures few { IfOk result (λ n. n ≤ 256) }
{
    if is_skipped(line) {
        return Ok(keys);
    }
    let number = before + 1;
    let uri = key_uri(number, line)?;
    if have_name(text, before, uri) {
        return Err(KeyFault::TwiceNamed(number));
    }
    if keys == MAX_KEYS {
        return Err(KeyFault::TooMany);
    }
    Ok(keys + 1)
}

/// Returns the first fault of a key file, if the file has a fault. No name is stored: the name in
/// each line is compared with the names in earlier lines. There are at most 256 earlier names.
pub(crate) fn check_keys(text: &str) -> Result<(), KeyFault>
    ensures { MatchResult result (λ _. (keys : List NamedKey) × (keys_in text.now ≡ Ok keys))
        (λ fault. keys_in text.now ≡ Err fault) }
{
    let mut rest = text;
    let mut before = 0;
    let mut keys = 0;
    while !rest.is_empty() {
        let (line, after) = first_line(rest);
        keys = check_line(text, before, keys, line)?;
        rest = after;
        before += 1;
    }
    Ok(())
}

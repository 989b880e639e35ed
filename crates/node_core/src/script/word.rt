ghost use Rattle.std.specs.Prelude.{◌≡◌, ℕ, ◌*◌, ◌<◌, ◌^◌, List, ◌∷◌, ◌++◌, length, Ok, IfSome, IfNone, IfOk, IsTrue, MatchOption};
ghost use Rattle.hex.specs.Hex.{decode_pairs, hex_digit_value};
ghost use Rattle.std.specs.Fmt.{decimal};
ghost use Rattle.node_core.specs.Script.Line.{Lacks, scope_word, HexSpells};
ghost use Rattle.forwarder.specs.declared.event.Scope.{Scope};

use forwarder::Scope;
use memchr::memchr;
use ndn_tlv::Memory;
use std::alloc::Global;
use std::str;

/// Splits the text at the first octet equal to `at`. Returns the octets before and after that
/// octet, or `None` if no octet equals `at`.
pub fn cut(text: &[u8], at: u8) -> Option<(&[u8], &[u8])>
    ensures found { IfSome result
        (λ parts. (text.now ≡ parts.0.now ++ (at ∷ parts.1.now)) × Lacks at parts.0.now) }
    ensures none { IfNone result (Lacks at text.now) }
{
    for (i, octet) in text.iter().enumerate() {
        if *octet == at {
            return Some((&text[..i], &text[i + 1..]));
        }
    }
    None
}

/// Splits the text at the first LF. Returns the octets before and after that LF, or `None` if the
/// text has no LF. `cut_line` is faster than `cut` for long lines.
pub fn cut_line(text: &[u8]) -> Option<(&[u8], &[u8])>
    ensures found { IfSome result
        (λ parts. (text.now ≡ parts.0.now ++ (10 ∷ parts.1.now)) × Lacks 10 parts.0.now) }
    ensures none { IfNone result (Lacks 10 text.now) }
{
    let at = memchr(b'\n', text)?;
    Some((&text[..at], &text[at + 1..]))
}

/// Splits the text at its first two spaces. Returns the octets before the first space, the octets
/// between the two spaces, and the octets after the second space. Returns `None` if the text has
/// fewer than two spaces.
pub fn three_words(text: &[u8]) -> Option<(&[u8], &[u8], &[u8])>
    ensures found { IfSome result (λ p. (text.now ≡ p.0.now ++ (32 ∷ (p.1.now ++ (32 ∷ p.2.now))))
        × Lacks 32 p.0.now × Lacks 32 p.1.now) }
    ensures none { IfNone result ((a b c : List ℕ) → Lacks 32 a → Lacks 32 b
        → text.now ≡ a ++ (32 ∷ (b ++ (32 ∷ c))) → ⊥) }
{
    let (first, rest) = cut(text, b' ')?;
    let (second, third) = cut(rest, b' ')?;
    Some((first, second, third))
}

/// Reads a decimal number below 2 ^ 64 without leading zeros. Returns `None` for any other word.
pub fn parse_decimal(word: &[u8]) -> Option<u64>
    ensures found { IfSome result (λ n. word.now ≡ decimal n) }
    ensures none { IfNone result ((n : ℕ) → n < 2 ^ 64 → word.now ≡ decimal n → ⊥) }
{
    if word.len() > 1 && word[0] == b'0' {
        return None;
    }
    if !word.is_empty() && word[0] == b'+' {
        return None;
    }
    let Ok(text) = str::from_utf8(word) else {
        return None;
    };
    text.parse::<u64>().ok()
}

/// Returns the scope for the word `local` or `far`, or `None` for any other word.
pub fn scope_of(word: &[u8]) -> Option<Scope>
    ensures found { IfSome result (λ scope. word.now ≡ scope_word scope) }
    ensures none { IfNone result ((scope : Scope) → word.now ≡ scope_word scope → ⊥) }
{
    if word == b"local".as_slice() {
        return Some(Scope::Local);
    }
    (word == b"far".as_slice()).then_some(Scope::Far)
}

/// Reads octets in hexadecimal of either case. The word `-` stands for no octets. Returns `None`
/// if the word is neither `-` nor one or more pairs of hexadecimal digits.
pub fn octets_of(alloc: Global, word: &[u8]) -> Result<Option<Vec<u8>>, Memory>
    ensures found { IfOk result (λ read. IfSome read (λ octets. HexSpells octets.items word.now)) }
    ensures none { IfOk result
        (λ read. IfNone read ((octets : List ℕ) → HexSpells octets word.now → ⊥)) }
{
    if word == b"-".as_slice() {
        return Ok(Some(Vec::new(alloc)));
    }
    if word.is_empty() {
        return Ok(None);
    }
    if word.len() % 2 != 0 {
        return Ok(None);
    }
    let mut octets = vec![in alloc; 0u8; word.len() / 2]?;
    if fill(octets.as_mut_slice(), word) {
        return Ok(Some(octets));
    }
    Ok(None)
}

/// Decodes each pair of hexadecimal digits to one octet of `octets`. Returns whether each octet of
/// `digits` is a hexadecimal digit. If an octet of `digits` is not a hexadecimal digit, the content
/// of `octets` is unspecified. The loop has no early exit: it processes all digits, even after an
/// octet that is not a digit.
fn fill(octets: &mut [u8], digits: &[u8]) -> bool
    requires { length digits.now ≡ 2 * length octets.old }
    ensures found { IsTrue result → decode_pairs 0 digits.now ≡ Ok octets.new }
    ensures none { (spelled : List ℕ) → decode_pairs 0 digits.now ≡ Ok spelled → IsTrue result }
{
    let mut greatest = 0;
    for i in 0..octets.len() {
        let high = value_of(digits[2 * i]);
        let low = value_of(digits[2 * i + 1]);
        greatest = high.max(low).max(greatest);
        octets[i] = high % 16 * 16 + low % 16;
    }
    greatest < 16
}

/// Returns the value of a hexadecimal digit of either case, or 255 if the octet is not a
/// hexadecimal digit.
#[inline(always)]
fn value_of(digit: u8) -> u8
    ensures { MatchOption (hex_digit_value digit) (result ≡ 255)
        (λ value. (result ≡ value) × (value < 16)) }
{
    match digit {
        b'0'..=b'9' => digit - b'0',
        b'a'..=b'f' => digit - b'a' + 10,
        b'A'..=b'F' => digit - b'A' + 10,
        _ => 255,
    }
}

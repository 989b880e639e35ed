//! The first line in which two texts differ.
ghost use Rattle.std.specs.Prelude.{◌≡◌, ◌≢◌, ◌<◌, ◌↔◌, [], ◌++◌, length, IfSome, IsNone};
ghost use Rattle.scenarios.specs.Differ.{Differ, IsFirstLine};

use node_core::cut_line;

/// Splits a text behind its first line. The line has its LF, or is the whole text if the text has
/// no LF.
fn first_line(text: &[u8]) -> (&[u8], &[u8])
    ensures parts { text.now ≡ result.0.now ++ result.1.now }
    ensures line { IsFirstLine result.0.now result.1.now }
    ensures progress { 0 < length text.now → 0 < length result.0.now }
{
    match cut_line(text) {
        Some((line, rest)) => (&text[..line.len() + 1], rest),
        None => (text, &[]),
    }
}

/// Returns the first lines in which two texts differ, each with its LF if it has one. If one text
/// ends before the other, its line is empty. Returns `None` if the texts are equal.
pub fn first_difference<'a>(expected: &'a [u8], found: &'a [u8]) -> Option<(&'a [u8], &'a [u8])>
    ensures equal { IsNone result ↔ (expected.now ≡ found.now) }
    ensures different { IfSome result
        (λ lines. Differ expected.now found.now lines.0.now lines.1.now) }
{
    if expected == found {
        return None;
    }
    let mut left = expected;
    let mut right = found;
    while !left.is_empty() {
        let (line, after) = first_line(left);
        let (other, behind) = first_line(right);
        if line != other {
            return Some((line, other));
        }
        left = after;
        right = behind;
    }
    let (other, _) = first_line(right);
    Some((left, other))
}

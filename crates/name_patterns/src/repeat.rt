//! Repeats: how many components an atom matches.

ghost use Rattle.std.specs.Prelude.{◌≡◌, ◌↔◌, ◌≤◌, IsTrue, IfSome, option_map, length};
ghost use Rattle.name_patterns.specs.Pattern.{once};
ghost use Rattle.name_patterns.specs.PatternReading as read;
ghost use Rattle.name_patterns.specs.Shown.{bounds_of};

/// The greatest number in a repeat, and the greatest number of components in a name.
pub const MAX_COUNT: u8 = 64;

/// The least number of components that an atom matches, and the greatest number, which may be
/// absent.
#[derive(Clone, Copy, Debug)]
pub struct Repeat {
    pub least: u8,
    pub most: Option<u8>,
}

impl Repeat {
    /// Returns whether an atom with this repeat matches exactly one component.
    #[inline(always)]
    pub fn is_once(self) -> bool
        ensures { IsTrue result ↔ (bounds_of self ≡ once) }
    {
        self.least == 1 && matches!(self.most, Some(1))
    }
}

/// Returns the number from 0 to 64 that `text` represents in decimal digits, or `None` for any
/// other text.
fn count_of(text: &str) -> Option<u8>
    ensures { result ≡ read.count_in text.now }
{
    if text.starts_with('+') {
        return None;
    }
    match text.parse::<u8>() {
        Ok(n) if n <= MAX_COUNT => Some(n),
        _ => None,
    }
}

/// Returns the range whose text has `low` before its comma and `high` after it, or `None` if this
/// text is not a range. `low` or `high` may be empty, but not both.
fn range_by_comma(low: &str, high: &str) -> Option<Repeat>
    ensures { option_map bounds_of result ≡ read.range_by_comma low.now high.now }
{
    if high.is_empty() {
        let least = count_of(low)?;
        return Some(Repeat { least, most: None });
    }
    let least = if low.is_empty() { 0 } else { count_of(low)? };
    let most = count_of(high)?;
    if least > most {
        return None;
    }
    Some(Repeat {
        least,
        most: Some(most),
    })
}

/// Returns the range whose text, without the braces, is `text`, or `None` if there is no such
/// range.
fn range_of(text: &str) -> Option<Repeat>
    ensures { option_map bounds_of result ≡ read.range_in text.now }
{
    match text.split_once(',') {
        Some((low, high)) => range_by_comma(low, high),
        None => {
            let n = count_of(text)?;
            Some(Repeat {
                least: n,
                most: Some(n),
            })
        }
    }
}

/// Returns whether the text begins with one of the characters that begin a repeat.
pub fn begins_repeat(text: &str) -> bool
    ensures { result ≡ read.begins_repeat text.now }
{
    match text.as_bytes().first() {
        Some(sign) => b"*+?{".contains(sign),
        None => false,
    }
}

/// Reads a repeat in braces from the text after its opening brace. Returns the repeat and the
/// remaining text, or `None` if the text does not begin with a range and a closing brace.
fn braced_repeat(text: &str) -> Option<(Repeat, &str)>
    ensures read { option_map (λ found. (bounds_of found.0, found.1.now)) result
        ≡ read.braced_in text.now }
    ensures shorter { IfSome result (λ found. length found.1.now ≤ length text.now) }
{
    let (range, rest) = text.split_once('}')?;
    Some((range_of(range)?, rest))
}

/// Returns the repeat at the front of the text, and the remaining text. If there is no repeat,
/// returns the repeat of exactly one component, and the whole text. Returns `None` if the text
/// begins with an opening brace, but not with a range in braces.
pub fn first_repeat(text: &str) -> Option<(Repeat, &str)>
    ensures read { option_map (λ found. (bounds_of found.0, found.1.now)) result
        ≡ read.repeat_in text.now }
    ensures shorter { IfSome result (λ found. length found.1.now ≤ length text.now) }
{
    if let Some(rest) = text.strip_prefix('{') {
        return braced_repeat(rest);
    }
    let (least, most, rest) = if let Some(rest) = text.strip_prefix('*') {
        (0, None, rest)
    } else if let Some(rest) = text.strip_prefix('+') {
        (1, None, rest)
    } else if let Some(rest) = text.strip_prefix('?') {
        (0, Some(1), rest)
    } else {
        (1, Some(1), text)
    };
    Some((Repeat { least, most }, rest))
}

//! Helpers for tests whose cases are written as rows, one on each line of a text. Lines that begin
//! with `#` are comments.

use std::alloc::Global;

/// Reads octets from hexadecimal words, where `0800x64` stands for 64 repetitions of the two octets
/// `0800`. Returns `None` if a word is malformed or memory runs out.
pub fn octets(alloc: Global, text: &str) -> Option<Vec<u8>> {
    let mut octets = Vec::new(alloc);
    for word in text.split_ascii_whitespace() {
        let (digits, times) = word.split_once('x').unwrap_or((word, "1"));
        let part = hex::decode(alloc, digits.as_bytes()).ok()?;
        for _ in 0..times.parse::<u16>().ok()? {
            octets.extend_from_slice(&part).ok()?;
        }
    }
    Some(octets)
}

/// Returns the line number, counted from 1, of the first row for which `is_right` returns false.
/// Returns 0 if there are rows and `is_right` returns true for all of them. A line that is empty or
/// begins with `#` is not a row. For a text without rows, returns 1.
pub fn first_wrong<F: Fn(Global, &str) -> bool>(alloc: Global, rows: &str, is_right: F) -> usize
    requires { F.IsAlwaysCallable is_right }
{
    let mut without_rows = 1;
    for (before, row) in rows.lines().enumerate() {
        if row.is_empty() || row.starts_with('#') {
            continue;
        }
        if !is_right(alloc, row) {
            return before.saturating_add(1);
        }
        without_rows = 0;
    }
    without_rows
}

/// Returns the first wrong row and the text that `show` gives for the row's input. Returns `None`
/// if there are rows and no row is wrong. A row consists of an input, ` -> `, and the text that
/// `show` must give for the input. For a text without rows, returns `no rows` as the wrong row.
pub fn first_misshown<'a>(
    alloc: Global,
    rows: &'a str,
    show: fn(Global, &str) -> Option<String>,
) -> Option<(&'a str, Option<String>)>
    requires { IsAlwaysCallable show }
{
    let mut without_rows = Some(("no rows", None));
    for row in rows.lines() {
        if row.is_empty() || row.starts_with('#') {
            continue;
        }
        let (input, expected) = row.split_once(" -> ").unwrap_or((row, "no arrow"));
        let shown = show(alloc, input);
        if shown.as_deref() != Some(expected) {
            return Some((row, shown));
        }
        without_rows = None;
    }
    without_rows
}

/// Returns a row with its symbols replaced by the characters that they stand for: a tab for `␉`, an
/// LF for `␊`, a VT for `␋`, a CR for `␍`, a unit separator for `␟`, a delete character for `␡`,
/// and a no-break space for `⍽`. Returns `None` if memory runs out.
pub fn typed(alloc: Global, row: &str) -> Option<String> {
    let mut text = String::new(alloc);
    for symbol in row.chars() {
        let sign = match symbol {
            '␉' => '\t',
            '␊' => '\n',
            '␋' => '\u{b}',
            '␍' => '\r',
            '␟' => '\u{1f}',
            '␡' => '\u{7f}',
            '⍽' => '\u{a0}',
            sign => sign,
        };
        text.push(sign).ok()?;
    }
    Some(text)
}

//! Reading tests of components from text.

ghost use Rattle.std.specs.Prelude.{◌≡◌, ◌<◌, ◌≤◌, Some, IfOk, length, map, MatchResult};
ghost use Rattle.name_patterns.specs.Faults.{IsFaultOf, read_at};
ghost use Rattle.name_patterns.specs.PatternReading as read;
ghost use Rattle.name_patterns.specs.Shown.{field_of, test_of};

use crate::component_test::Test;
use crate::fault::PatternFault;
use crate::text::{FrontPart, Text, first_quoted, has_special, read_text};
use std::alloc::Global;

/// Reads the texts of a list, up to its closing bracket.
fn read_texts(
    alloc: Global,
    at: usize,
    text: &str,
) -> Result<FrontPart<'_, Vec<Text>>, PatternFault>
    ensures read { let listed = read.listed_within (length text.now) text.now in
        MatchResult result (λ found. listed ≡ Some (record {
          part = map field_of found.part.items;
          is_inner = found.is_inner;
          rest = found.rest.now;
        }))
        (IsFaultOf (read_at at listed)) }
    ensures shorter { IfOk result (λ found. length found.rest.now ≤ length text.now) }
{
    let mut texts = Vec::new(alloc);
    let mut is_inner = false;
    let mut rest = text;
    while let Some((inner, after)) = first_quoted(rest) {
        texts.push(read_text(alloc, at, inner)?)?;
        is_inner = is_inner || has_special(inner);
        rest = after;
    }
    match rest.strip_prefix(']') {
        Some(rest) => Ok(FrontPart {
            part: texts,
            is_inner,
            rest,
        }),
        None => Err(PatternFault::Syntax(at)),
    }
}

/// Reads the test of a list from the text after its opening bracket.
fn read_list(alloc: Global, at: usize, text: &str) -> Result<FrontPart<'_, Test>, PatternFault>
    ensures read { let listed = read.bracketed_in text.now in
        MatchResult result (λ found. listed ≡ Some (record {
          part = test_of found.part;
          is_inner = found.is_inner;
          rest = found.rest.now;
        }))
        (IsFaultOf (read_at at listed)) }
    ensures shorter { IfOk result (λ found. length found.rest.now ≤ length text.now) }
{
    let (is_negated, texts) = match text.strip_prefix('^') {
        Some(texts) => (true, texts),
        None => (false, text),
    };
    let found = read_texts(alloc, at, texts)?;
    if found.part.is_empty() {
        return Err(PatternFault::Syntax(at));
    }
    let FrontPart {
        part,
        is_inner,
        rest,
    } = found;
    let test = if is_negated {
        Test::none_of(part)
    } else {
        Test::one_of(part)
    };
    Ok(FrontPart {
        part: test,
        is_inner,
        rest,
    })
}

/// Reads a test that is written as one text between `<` and `>`. The text between `<` and `>` may
/// be empty.
fn read_quoted(alloc: Global, at: usize, text: &str) -> Result<FrontPart<'_, Test>, PatternFault>
    ensures read { let quoted = read.quoted_test_in text.now in
        MatchResult result (λ found. quoted ≡ Some (record {
          part = test_of found.part;
          is_inner = found.is_inner;
          rest = found.rest.now;
        }))
        (IsFaultOf (read_at at quoted)) }
    ensures shorter { IfOk result (λ found. length found.rest.now < length text.now) }
{
    let Some((inner, rest)) = first_quoted(text) else {
        return Err(PatternFault::Syntax(at));
    };
    if inner.is_empty() {
        return Ok(FrontPart {
            part: Test::anything(),
            is_inner: false,
            rest,
        });
    }
    let mut texts = Vec::new(alloc);
    texts.push(read_text(alloc, at, inner)?)?;
    Ok(FrontPart {
        part: Test::one_of(texts),
        is_inner: has_special(inner),
        rest,
    })
}

/// Reads the test at the front of the text. The atom that has this test is at offset `at` of the
/// pattern.
pub fn read_test(alloc: Global, at: usize, text: &str) -> Result<FrontPart<'_, Test>, PatternFault>
    ensures read { let test = read.test_in text.now in
        MatchResult result (λ found. test ≡ Some (record {
          part = test_of found.part;
          is_inner = found.is_inner;
          rest = found.rest.now;
        }))
        (IsFaultOf (read_at at test)) }
    ensures shorter { IfOk result (λ found. length found.rest.now < length text.now) }
{
    match text.strip_prefix('[') {
        Some(list) => read_list(alloc, at, list),
        None => read_quoted(alloc, at, text),
    }
}

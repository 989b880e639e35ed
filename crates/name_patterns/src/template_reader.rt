//! Reading templates from text.

ghost use Rattle.std.specs.Prelude.{◌≡◌, ◌↔◌, ◌<◌, ℕ, List, Ok, Err, IfOk, IfSome, length, map, MatchResult, option_map};
ghost use Rattle.name_patterns.specs.Template.{PlainPart, IsTemplate, NeedAtMost};
ghost use Rattle.name_patterns.specs.Faults.{IsFaultOf};
ghost use Rattle.name_patterns.specs.TemplateReading as read;
ghost use Rattle.name_patterns.specs.Shown.{part_of};

use crate::fault::PatternFault;
use crate::template::{Part, Template};
use crate::text::{first_quoted, has_special, read_text};
use std::alloc::Global;

/// Returns the decimal digit at the front of the text, and the remaining text, or `None` if there
/// is no digit at the front.
fn first_digit(text: &str) -> Option<(u8, &str)>
    ensures read { option_map (λ digit. (digit.0, digit.1.now)) result ≡ read.digit_in text.now }
    ensures shorter { IfSome result (λ digit. length digit.1.now < length text.now) }
{
    let digit = *text.as_bytes().first()?;
    if !digit.is_ascii_digit() {
        return None;
    }
    Some((digit - b'0', text.strip_prefix(digit as char)?))
}

/// Reads a group from the text after its backslash: the digit of the group is at the front of this
/// text. The backslash is at offset `at` of the template. Returns the group and the remaining text.
fn read_group(at: usize, text: &str, groups: u8) -> Result<(Part, &str), PatternFault>
    ensures read { let group = read.group_in groups at text.now in
        MatchResult result (λ found. group ≡ Ok (part_of found.0, found.1.now))
        (λ fault. group ≡ Err fault) }
    ensures shorter { IfOk result (λ found. length found.1.now < length text.now) }
{
    let Some((group, rest)) = first_digit(text) else {
        return Err(PatternFault::Syntax(at));
    };
    if group > groups {
        return Err(PatternFault::BadGroup(at));
    }
    Ok((Part::Group(group), rest))
}

/// Reads the component between `<` and `>` at the front of the text. The component is at offset
/// `at` of the template. Returns the component and the remaining text.
fn read_single(alloc: Global, at: usize, text: &str) -> Result<(Part, &str), PatternFault>
    ensures read { let single = read.single_part_in at text.now in
        MatchResult result (λ found. single ≡ Ok (part_of found.0, found.1.now))
        (IsFaultOf single) }
    ensures shorter { IfOk result (λ found. length found.1.now < length text.now) }
{
    let Some((inner, rest)) = first_quoted(text) else {
        return Err(PatternFault::Syntax(at));
    };
    let single = read_text(alloc, at, inner)?;
    if has_special(inner) {
        return Err(PatternFault::Inner(at));
    }
    Ok((Part::Single(single), rest))
}

/// Reads the part at the front of the text. The part is at offset `at` of the template. Returns the
/// part and the remaining text.
fn read_part(alloc: Global, at: usize, text: &str, groups: u8) -> Result<(Part, &str), PatternFault>
    ensures read { let part = read.part_in groups at text.now in
        MatchResult result (λ found. part ≡ Ok (part_of found.0, found.1.now)) (IsFaultOf part) }
    ensures shorter { IfOk result (λ found. length found.1.now < length text.now) }
{
    match text.strip_prefix('\\') {
        Some(rest) => read_group(at, rest, groups),
        None => read_single(alloc, at, text),
    }
}

/// Reads the parts of a template from its text.
fn read_parts(alloc: Global, text: &str, groups: u8) -> Result<Vec<Part>, PatternFault>
    ensures { let parts_in = read.template_in groups text.now in
        MatchResult result (λ parts. parts_in ≡ Ok (map part_of parts.items)) (IsFaultOf parts_in) }
{
    let mut parts = Vec::new(alloc);
    let mut rest = text;
    while !rest.is_empty() {
        let (part, after) = read_part(alloc, text.len() - rest.len(), rest, groups)?;
        parts.push(part)?;
        rest = after;
    }
    Ok(parts)
}

impl Template {
    /// Reads a template for a pattern with `groups` groups. Each part of a template is a group or a
    /// component. A group is written as a backslash and its digit, from `\0` to `\9`, and stands
    /// for the components that it captures. `\0` is the whole name. A component is written as its
    /// URI text between `<` and `>`.
    ///
    /// If the text is not a template, returns the fault of the leftmost faulty part: see
    /// `PatternFault`. `Nested` is never returned. `Memory` may be returned for any text.
    pub fn read(alloc: Global, text: &str, groups: u8) -> Result<Template, PatternFault>
        // The text denotes the returned template.
        ensures found { IfOk result (IsTemplate groups text.now) }
        // If the text denotes a template, this template is returned, unless memory runs out.
        ensures only { (parts : List PlainPart) → IsTemplate groups text.now parts
            → MatchResult result (λ read. read ≡ parts) (λ fault. fault ≡ PatternFault.Memory) }
        // A returned fault is the first fault of the text, or `Memory`.
        ensures exact { MatchResult result (λ parts. read.template_in groups text.now ≡ Ok parts)
            (IsFaultOf (read.template_in groups text.now)) }
        // The returned template uses only groups that the pattern has.
        ensures groups { IfOk result (NeedAtMost groups) }
    {
        let parts = read_parts(alloc, text, groups)?;
        Ok(Template { parts })
    }
}

/// Law: a text denotes at most one template, which `template_in` returns.
pub fn templates_have_one_reading()
    ensures exact { (groups : ℕ) (text : List ℕ) (parts : List PlainPart)
        → (read.template_in groups text ≡ Ok parts) ↔ IsTemplate groups text parts }
{}

//! Texts of components in patterns and templates.

ghost use Rattle.std.specs.Prelude.{◌≡◌, ◌<◌, Some, IfSome, option_map, length, MatchResult};
ghost use Rattle.name_patterns.specs.Grammar.{is_special};
ghost use Rattle.name_patterns.specs.Faults.{IsFaultOf, read_at};
ghost use Rattle.name_patterns.specs.PatternReading as read;
ghost use Rattle.name_patterns.specs.Shown.{field_of};

use crate::fault::PatternFault;
use ndn_names::{Component, NameFault, component_from_uri};
use std::alloc::Global;

/// The special characters. A component's text in a pattern or a template must not contain them.
const SPECIAL: &[u8; 13] = b"\\()[]{}*+?^$|";

/// A component, as read from its text.
#[derive(Debug, Drop)]
pub struct Text {
    pub kind: u16,
    pub value: Vec<u8>,
}

impl Text {
    ghost use Rattle.std.specs.Prelude.{◌≡◌, ◌==◌, ◌&&◌, bytes_eq};

    /// Returns whether `candidate` is this component.
    pub fn is(&self, candidate: Component<'_>) -> bool
        ensures { result ≡ ((self.now.kind == candidate.entry.kind)
            && bytes_eq self.now.value.items candidate.entry.value.now) }
    {
        self.kind == candidate.kind && self.value.as_slice() == candidate.value
    }
}

/// A part that was read at the front of a text, and the remaining text `rest`. `is_inner` tells
/// whether a component's text in this part contains a special character.
#[derive(Debug, Drop)]
pub struct FrontPart<'a, T> {
    pub part: T,
    pub is_inner: bool,
    pub rest: &'a str,
}

/// Returns whether an octet is a special character.
fn is_special(octet: u8) -> bool
    ensures { result ≡ is_special octet }
{
    SPECIAL.contains(&octet)
}

/// Returns whether the text contains a special character.
pub fn has_special(text: &str) -> bool
    ensures { result ≡ read.has_special text.now }
{
    text.as_bytes().iter().any(|octet| is_special(*octet))
}

/// Returns the text between `<` at the front and the first `>`, and the remaining text. Returns
/// `None` if the text does not begin with `<`, or if the text contains no `>`.
pub fn first_quoted(text: &str) -> Option<(&str, &str)>
    ensures read { option_map (λ parts. (parts.0.now, parts.1.now)) result
        ≡ read.quoted_in text.now }
    ensures shorter { IfSome result (λ parts. length parts.1.now < length text.now) }
{
    text.strip_prefix('<')?.split_once('>')
}

/// Reads a component from its text. `at` is the offset, in the pattern or template, of the item or
/// part that contains this text.
pub fn read_text(alloc: Global, at: usize, text: &str) -> Result<Text, PatternFault>
    ensures { let component = read.text_in text.now in
        MatchResult result (λ text. component ≡ Some (field_of text))
        (IsFaultOf (read_at at component)) }
{
    match component_from_uri(alloc, text) {
        Ok((kind, value)) => Ok(Text { kind, value }),
        Err(NameFault::Memory) => Err(PatternFault::Memory),
        Err(_) => Err(PatternFault::Syntax(at)),
    }
}

//! Reading patterns from text.

ghost use Rattle.std.specs.Prelude.{◌≡◌, ◌↔◌, ◌≤◌, ℕ, List, Ok, IfOk, length, MatchResult, false};
ghost use Rattle.name_patterns.specs.Pattern.{PlainPattern};
ghost use Rattle.name_patterns.specs.Grammar.{IsPattern};
ghost use Rattle.name_patterns.specs.Faults.{IsFaultOf};
ghost use Rattle.name_patterns.specs.PatternReading as read;
ghost use Rattle.name_patterns.specs.Shown.{draft_of};

use crate::draft::{Draft, OpenGroup};
use crate::fault::PatternFault;
use crate::pattern::Pattern;
use std::alloc::Global;

/// Returns whether the text contains a closing parenthesis that is not between `<` and `>`. If a
/// `<` has no `>` after it, all text after this `<` counts as between `<` and `>`.
fn is_closed(text: &[u8]) -> bool
    ensures { result ≡ read.is_closed false text.now }
{
    let mut is_inside = false;
    for octet in text {
        if is_inside {
            is_inside = *octet != b'>';
        } else if *octet == b')' {
            return true;
        } else {
            is_inside = *octet == b'<';
        }
    }
    false
}

/// Returns the fault to report when the item at the front of the text has the fault `fault`. If the
/// open group is never closed, its opening parenthesis is the leftmost faulty item.
fn first_fault(open_group: Option<OpenGroup>, text: &str, fault: PatternFault) -> PatternFault
    ensures { result ≡ read.first_fault open_group text.now fault }
{
    match open_group {
        Some(group) if !is_closed(text.as_bytes()) => PatternFault::Syntax(group.place),
        _ => fault,
    }
}

/// Reads the items and the last anchor of a pattern. `items` is the text after the first anchor, or
/// the whole text if the first anchor is missing. `len` is the length of the whole text.
fn read_items(alloc: Global, begun: Draft, len: usize, items: &str) -> Result<Pattern, PatternFault>
    requires limits { read.IsDraft 1 (draft_of begun) }
    requires rest { length items.now ≤ len }
    ensures { let pattern_in = read.items_in len (draft_of begun) items.now in
        MatchResult result (λ pattern. pattern_in ≡ Ok pattern) (IsFaultOf pattern_in) }
{
    let mut draft = begun;
    let mut rest = items;
    while !rest.is_empty() && rest != "$" {
        let open_group = draft.open_group;
        match draft.add_item(alloc, len - rest.len(), rest) {
            Ok(after) => rest = after,
            Err(PatternFault::Memory) => return Err(PatternFault::Memory),
            Err(fault) => return Err(first_fault(open_group, rest, fault)),
        }
    }
    if rest.is_empty() {
        draft.imply()?;
    }
    draft.finish()
}

/// Reads a pattern from its text.
fn read_pattern(alloc: Global, text: &str) -> Result<Pattern, PatternFault>
    ensures { MatchResult result (λ pattern. read.pattern_in text.now ≡ Ok pattern)
        (IsFaultOf (read.pattern_in text.now)) }
{
    let mut draft = Draft::new(alloc);
    if let Some(items) = text.strip_prefix('^') {
        return read_items(alloc, draft, text.len(), items);
    }
    draft.imply()?;
    read_items(alloc, draft, text.len(), text)
}

impl Pattern {
    /// Reads a pattern: `^`, items and `$`. If an anchor is missing, `<>*` is implied in its place.
    /// An item is an atom, or a group: atoms between `(` and `)`. The atom `<>` matches any
    /// component. The URI text of a component, written between `<` and `>`, matches that component.
    /// One or more components, each between `<` and `>`, form a list. A list between `[` and `]`
    /// matches any component in the list. A list between `[^` and `]` matches any component that is
    /// not in the list. An atom may end with a repeat: `*`, `+`, `?`, `{2}`, `{2,}`, `{,4}` or
    /// `{2,4}`, with numbers up to 64. A pattern has at most 32 written atoms and at most 9 groups.
    ///
    /// If the text is not a pattern, returns the fault of the leftmost faulty item: see
    /// `PatternFault`. The faulty item can be an atom with its repeat, a repeat that follows
    /// another repeat or a group, a parenthesis, a misplaced anchor, or other text in the place of
    /// an item. A group that is never closed is faulty at its opening parenthesis. `Memory` may be
    /// returned for any text.
    pub fn read(alloc: Global, text: &str) -> Result<Pattern, PatternFault>
        // The text denotes the returned pattern.
        ensures found { IfOk result (IsPattern text.now) }
        // If the text denotes a pattern, this pattern is returned, unless memory runs out.
        ensures only { (pattern : PlainPattern) → IsPattern text.now pattern
            → MatchResult result (λ read. read ≡ pattern) (λ fault. fault ≡ PatternFault.Memory) }
        // A returned fault is the first fault of the text, or `Memory`.
        ensures exact { MatchResult result (λ pattern. read.pattern_in text.now ≡ Ok pattern)
            (IsFaultOf (read.pattern_in text.now)) }
    {
        read_pattern(alloc, text)
    }
}

/// Law: a text denotes at most one pattern, which `pattern_in` returns.
pub fn patterns_have_one_reading()
    ensures exact { (text : List ℕ) (pattern : PlainPattern) → (read.pattern_in text ≡ Ok pattern)
        ↔ IsPattern text pattern }
    ensures one { (text : List ℕ) (a b : PlainPattern) → IsPattern text a → IsPattern text b
        → a ≡ b }
{}

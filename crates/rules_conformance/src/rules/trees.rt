//! Tests that show which entries a text has, and which faults unreadable texts have.

use crate::rows::assert_right;
use info_rules::{InfoTree, RulesFault, RulesFaultKind};
use std::alloc::Global;
use test_support::{first_wrong, typed};

/// Reads an entry, and returns it in the format of `Debug`. The entry is given as `DEPTH LINE KEY`,
/// followed by `=VALUE` if it has a value, and then by ` {` if it has a block.
fn shown_entry(alloc: Global, entry: &str) -> Option<String> {
    let (depth, rest) = entry.split_once(' ')?;
    let (line, rest) = rest.split_once(' ')?;
    let words = rest.strip_suffix(" {").unwrap_or(rest);
    let has_block = words.len() < rest.len();
    let (key, value) = match words.split_once('=') {
        Some((key, value)) => (key, Some(value)),
        None => (words, None),
    };
    format!(in alloc;
        "Entry {{ depth: {depth}, line: {line}, key: {key:?}, value: {value:?}, has_block: {has_block} }}"
    ).ok()
}

/// Reads a tree, and returns it in the format of `Debug`. The tree is given as its entries,
/// separated by bars, or as the word `nothing`.
fn shown_tree(alloc: Global, entries: &str) -> Option<String> {
    let shown = shown_entries(alloc, entries)?;
    let front = shown.strip_suffix(", ").unwrap_or(shown.as_str());
    format!(in alloc; "InfoTree {{ entries: [{front}] }}").ok()
}

/// Reads the entries of a tree, and returns them in the format of `Debug`. A comma and a space
/// follow each entry.
fn shown_entries(alloc: Global, entries: &str) -> Option<String> {
    let mut shown = String::new(alloc);
    put_entries(alloc, &mut shown, entries)?;
    Some(shown)
}

/// Reads the entries of a tree, and appends them in the format of `Debug`. A comma and a space
/// follow each entry.
fn put_entries(alloc: Global, shown: &mut String, entries: &str) -> Option<()> {
    for entry in entries.split(" | ").filter(|entry| *entry != "nothing") {
        shown.push_str(shown_entry(alloc, entry)?.as_str()).ok()?;
        shown.push_str(", ").ok()?;
    }
    Some(())
}

/// Returns whether a row `TEXT → ENTRIES` is correct.
fn is_spelled_so(alloc: Global, row: &str) -> bool {
    let Some(row) = typed(alloc, row) else {
        return false;
    };
    row.split_once(" → ").is_some_and(|(text, entries)| has_entries(alloc, text, entries)
        == Some(true))
}

/// Returns whether a text has these entries, or `None` if the text cannot be read.
fn has_entries(alloc: Global, text: &str, entries: &str) -> Option<bool> {
    let wanted = shown_tree(alloc, entries)?;
    let shown = debug_of(alloc, text)?;
    Some(shown == wanted)
}

/// Reads a text, and returns its tree in the format of `Debug`. Returns `None` if the text cannot
/// be read.
fn debug_of(alloc: Global, text: &str) -> Option<String> {
    let tree = InfoTree::read(alloc, text).ok()?;
    format!(in alloc; "{tree:?}").ok()
}

/// Returns whether a text has the fault `wanted`. `wanted` is the line and the kind of the fault,
/// as in `3 Syntax`.
fn has_fault(alloc: Global, text: &str, wanted: &str) -> bool {
    let Err(fault) = InfoTree::read(alloc, text) else {
        return false;
    };
    format!(in alloc; "{} {:?}", fault.line, fault.kind).is_ok_and(|fault| fault.as_str() == wanted)
}

/// Returns whether a row `TEXT → LINE KIND` is correct.
fn is_refused_so(alloc: Global, row: &str) -> bool {
    let Some(row) = typed(alloc, row) else {
        return false;
    };
    row.split_once(" → ")
        .is_some_and(|(text, wanted)| has_fault(alloc, text, wanted))
}

const WORDS: &str = r"
 → nothing
␊ → nothing
 ␉␍␊ ␊ → nothing
; → nothing
a → 0 1 a
a␊ → 0 1 a
a b → 0 1 a=b
␉a␉ ␉b ␊ → 0 1 a=b
␊␊a b␊␊c␊ → 0 3 a=b | 0 5 c
# A CR parts words and ends no line.
a␍b → 0 1 a=b
a b␍␊c␍␊ → 0 1 a=b | 0 2 c
# Signs that mean something elsewhere.
a{ }b → 0 1 a{=}b
{} {{ → 0 1 {}={{
[a] <b>='c' → 0 1 [a]=<b>='c'
ä€ 😀 → 0 1 ä€=😀
a⍽b → 0 1 a⍽b
a␋b → 0 1 a␋b
";

#[test]
fn words(rt: HostRuntime) {
    assert_right(&rt, first_wrong(rt.alloc(), WORDS, is_spelled_so));
}

const COMMENTS: &str = r#"
; a b c } { → nothing
; a␊b → 0 2 b
a;b c → 0 1 a
abc;def␊b → 0 1 abc | 0 2 b
a ;b␊;␊;;␊c → 0 1 a | 0 4 c
a b;c␊d;␊e → 0 1 a=b | 0 2 d | 0 3 e
a;"␊{;{␊};}␊ → 0 1 a {
a "b";c␊d → 0 1 a=b | 0 2 d
a ; \␊b → 0 1 a | 0 2 b
"#;

#[test]
fn comments(rt: HostRuntime) {
    assert_right(&rt, first_wrong(rt.alloc(), COMMENTS, is_spelled_so));
}

const QUOTES: &str = r#"
"" → 0 1 
"" "" → 0 1 =
a "b c" → 0 1 a=b c
"a b" c → 0 1 a b=c
a "b;c" ;d → 0 1 a=b;c
a "␉b␍" → 0 1 a=␉b␍
"{" → 0 1 {
"{" "}" → 0 1 {=}
a "{" {␊} → 0 1 a={ {
# The closing quote ends the quoted text.
"a"b → 0 1 a=b
"a""b" → 0 1 a=b
a "b"{␊} → 0 1 a=b {
a {␊b "c"} → 0 1 a { | 1 2 b=c
# A quote inside a word is an ordinary sign.
a"b c" → 0 1 a"b=c"
a b" → 0 1 a=b"
# A quote after a backslash does not close.
"a\"b" → 0 1 a"b
"a\" b" c → 0 1 a" b=c
"\"" → 0 1 "
"a\\"b" → 0 1 a\"b
"#;

const BROKEN_QUOTES: &str = r#"
" → 1 Syntax
␊"a → 2 Syntax
"a␊b" → 1 Syntax
a␊b "c␊ → 2 Syntax
"a\" → 1 Syntax
"a\\" → 1 Syntax
"\"␊b → 1 Syntax
"a"" → 1 Syntax
"#;

#[test]
fn quotes(rt: HostRuntime) {
    assert_right(&rt, first_wrong(rt.alloc(), QUOTES, is_spelled_so));
}

#[test]
fn broken_quotes(rt: HostRuntime) {
    assert_right(&rt, first_wrong(rt.alloc(), BROKEN_QUOTES, is_refused_so));
}

const ESCAPES: &str = r#"
\\ \" → 0 1 \="
\n a\tb → 0 1 \n=a\tb
a\\b\"c → 0 1 a\b"c
\\\\ \\\" → 0 1 \\=\"
\\n \ → 0 1 \n=\
a\ b\\\ → 0 1 a\=b\\
"\\n" "\n" → 0 1 \n=\n
\{ \} → 0 1 \{=\}
\"a b" → 0 1 "a=b"
\ä ä\\ä → 0 1 \ä=ä\ä
"#;

#[test]
fn escapes(rt: HostRuntime) {
    assert_right(&rt, first_wrong(rt.alloc(), ESCAPES, is_spelled_so));
}

const BLOCKS: &str = r"
a {␊}␊ → 0 1 a {
a { } → 0 1 a {
a b { } → 0 1 a=b {
a␊{␊}␊ → 0 1 a {
a b␊␊; c␊ { d␊} → 0 1 a=b { | 1 4 d
a␊b␊{␊}␊c → 0 1 a | 0 2 b { | 0 5 c
a { b c } → 0 1 a { | 1 1 b=c
a { b { c { } } }␊d → 0 1 a { | 1 1 b { | 2 1 c { | 0 2 d
a { b␊{ c d } } → 0 1 a { | 1 1 b { | 2 2 c=d
a {␊b c␊d␊}␊e {␊f {␊}␊}␊ → 0 1 a { | 1 2 b=c | 1 3 d | 0 5 e { | 1 6 f {
a {␊} ;b␊c → 0 1 a { | 0 3 c
";

#[test]
fn blocks(rt: HostRuntime) {
    assert_right(&rt, first_wrong(rt.alloc(), BLOCKS, is_spelled_so));
}

const MISPLACED: &str = r#"
a b c → 1 Syntax
a b "" → 1 Syntax
a␊b c d e␊ → 2 Syntax
a b c␊d e f → 1 Syntax
{ → 1 Syntax
␊ { } → 2 Syntax
} → 1 Syntax
a␊}␊ → 2 Syntax
a b } → 1 Syntax
a { }␊} → 2 Syntax
a { } } → 1 Syntax
a { { } } → 1 Syntax
a { }␊{ } → 2 Syntax
a { } { } → 1 Syntax
# After a block only braces that close stand on its line.
a { } b → 1 Syntax
a {␊} b → 2 Syntax
a {␊b {␊} c␊} → 3 Syntax
a { b { } c } → 1 Syntax
a { } "b" → 1 Syntax
a { b c d } → 1 Syntax
# A block that is not closed is reported where the text ends.
a { → 1 Syntax
a {␊ → 2 Syntax
a {␊b␊␊ → 4 Syntax
a {␊b { }␊ → 3 Syntax
a { ; } → 1 Syntax
a { ; }␊ → 2 Syntax
"#;

#[test]
fn misplaced(rt: HostRuntime) {
    assert_right(&rt, first_wrong(rt.alloc(), MISPLACED, is_refused_so));
}

const EIGHT_DEEP: &str = r"
a { b { c { d { e { f { g { h { i } } } } } } } } → 0 1 a { | 1 1 b { | 2 1 c { | 3 1 d { | 4 1 e { | 5 1 f { | 6 1 g { | 7 1 h { | 8 1 i
";

const NINE_DEEP: &str = r#"
a { b { c { d { e { f { g { h { i { } } } } } } } } } → 1 TooDeep
a { b { c { d { e { f { g { h {␊ i {␊ } } } } } } } } } → 2 TooDeep
a { b { c { d { e { f { g { h {␊ i␊␊{␊ → 4 TooDeep
a { b { c { d { e { f { g { h {␊ i {␊}␊j {␊ → 2 TooDeep
a { b { c { d { e { f { g { h {␊ i { j { } }␊ → 2 TooDeep
# A word on a later line that does not fit is not reported.
a { b { c { d { e { f { g { h {␊ i {␊ j k l → 2 TooDeep
a { b { c { d { e { f { g { h {␊ i {␊ → 2 TooDeep
a { b { c { d { e { f { g { h {␊ i j k {␊ → 2 Syntax
a { b { c { d { e { f { g { h {␊ i { j k l␊ → 2 Syntax
a { b { c { d { e { f { g { h {␊ i { } j␊ → 2 Syntax
a { b { c { d { e { f { g { h {␊ i { "␊ → 2 Syntax
# The text ends on the line of the brace, with blocks that are not closed.
a { b { c { d { e { f { g { h { i { → 1 Syntax
a b c { d { e { f { g { h { i { j { k { l { → 1 Syntax
"#;

#[test]
fn nesting(rt: HostRuntime) {
    assert_right(&rt, first_wrong(rt.alloc(), EIGHT_DEEP, is_spelled_so));
    assert_right(&rt, first_wrong(rt.alloc(), NINE_DEEP, is_refused_so));
}

/// Returns a comment of `len` octets, followed by `end`.
fn long_text(alloc: Global, len: usize, end: &str) -> Option<String> {
    let mut text = String::new(alloc);
    put_comment(&mut text, len)?;
    text.push_str(end).ok()?;
    Some(text)
}

/// Appends a comment of `len` octets.
fn put_comment(text: &mut String, len: usize) -> Option<()> {
    for _ in 0..len {
        text.push(';').ok()?;
    }
    Some(())
}

/// Returns whether a comment of `len` octets, followed by `end`, has no entries.
fn is_empty_with(alloc: Global, len: usize, end: &str) -> Option<bool> {
    let text = long_text(alloc, len, end)?;
    let shown = debug_of(alloc, text.as_str())?;
    Some(shown.as_str() == "InfoTree { entries: [] }")
}

/// Returns whether a comment of `len` octets, followed by `end`, has this fault.
fn has_fault_with(alloc: Global, len: usize, end: &str, wanted: &str) -> bool {
    long_text(alloc, len, end).is_some_and(|text| has_fault(alloc, text.as_str(), wanted))
}

#[test]
fn lengths(rt: HostRuntime) {
    assert!(rt; is_empty_with(rt.alloc(), 65536, "") == Some(true));
    assert!(rt; has_fault_with(rt.alloc(), 65536, "}", "0 TooLarge"));
    assert!(rt; has_fault_with(rt.alloc(), 65534, "\n}", "2 Syntax"));
}

/// Returns whether a text has a syntax fault on line `line`, or no fault if `line` is 0. Also
/// returns true if memory runs out.
fn is_told_or_memory(alloc: Global, text: &str, line: u32) -> bool {
    match InfoTree::read(alloc, text) {
        Ok(_) => line == 0,
        Err(RulesFault { line: told, kind }) => {
            kind == RulesFaultKind::Memory && told == 0
                || kind == RulesFaultKind::Syntax && told == line && line != 0
        }
    }
}

/// If an allocation of memory fails, the fault is `Memory`.
#[test]
fn refused_memory(rt: HostRuntime) {
    assert!(rt; is_told_or_memory(rt.alloc(), "a \"b\\\\c\"\nd {\n  e f\n}\n", 0));
    assert!(rt; is_told_or_memory(rt.alloc(), "a b\nc d e", 2));
    assert!(rt; is_told_or_memory(rt.alloc(), "a {\nb\n", 3));
}

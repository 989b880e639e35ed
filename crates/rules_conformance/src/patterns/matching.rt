//! Tests that show which names a pattern matches and which groups it captures.

use super::reading::is_read_so;
use super::templates::is_made_so;
use crate::rows::assert_right;
use name_patterns::{Captures, Pattern, PatternFault};
use ndn_names::{Name, NameBuf};
use std::alloc::Global;
use test_support::first_wrong;

/// Shows the captured groups, beginning with group 0. Each group is shown as the number of
/// components before its start and the number of components before its end, as in `0-5 0-3 4-5`.
fn shown(alloc: Global, captures: &Captures) -> Option<String> {
    let mut shown = String::new(alloc);
    put_groups(&mut shown, captures)?;
    Some(shown)
}

/// Appends the captured groups, beginning with group 0.
fn put_groups(shown: &mut String, captures: &Captures) -> Option<()> {
    for i in 0..12 {
        if let Some((start, end)) = captures.group(i) {
            let space = if i == 0 { "" } else { " " };
            write!(shown, "{space}{start}-{end}").ok()?;
        }
    }
    Some(())
}

/// Reads the pattern and the name in `PATTERN at NAME`.
fn pattern_and_name(alloc: Global, front: &str) -> Option<(Pattern, NameBuf)> {
    let (pattern, name) = front.split_once(" at ")?;
    let pattern = Pattern::read(alloc, pattern).ok()?;
    Some((pattern, NameBuf::from_uri(alloc, name).ok()?))
}

/// Matches the pattern with the name. Returns whether the match has the groups in `wanted`. If
/// `wanted` is `no match`, returns whether there is no match.
fn has_groups(alloc: Global, pattern: &Pattern, name: Name<'_>, wanted: &str) -> bool {
    match pattern.matches(name) {
        Some(captures) => shown(alloc, &captures).is_some_and(|groups| groups.as_str() == wanted),
        None => wanted == "no match",
    }
}

/// Returns whether a row `PATTERN at NAME → GROUPS` or `PATTERN at NAME → no match` is correct.
fn is_matched_so(alloc: Global, row: &str) -> bool {
    let Some((front, wanted)) = row.split_once(" → ") else {
        return false;
    };
    match pattern_and_name(alloc, front) {
        Some((pattern, name)) => has_groups(alloc, &pattern, name.view(), wanted),
        None => false,
    }
}

/// Matches the pattern with the name twice. The first time, the counter of steps begins at 0. The
/// second time, the counter begins at a large number. Returns whether each match adds `wanted` to
/// the counter.
fn has_steps(pattern: &Pattern, name: Name<'_>, wanted: &str) -> bool {
    let many = u64::MAX - 1_000_000;
    let mut steps = 0;
    let mut more = many;
    let _first = pattern.matches_counted(name, &mut steps);
    let _second = pattern.matches_counted(name, &mut more);
    wanted.parse::<u64>() == Ok(steps) && more.checked_sub(many) == Some(steps)
}

/// Returns whether a row `PATTERN at NAME → STEPS` is correct.
fn is_counted_so(alloc: Global, row: &str) -> bool {
    let Some((front, wanted)) = row.split_once(" → ") else {
        return false;
    };
    match pattern_and_name(alloc, front) {
        Some((pattern, name)) => has_steps(&pattern, name.view(), wanted),
        None => false,
    }
}

const GROUPS: &str = r"
^(<>*)<KEY>(<>*)$ at /a/KEY/b/KEY/c → 0-5 0-3 4-5
^(<>*)<KEY><>$ at /a/KEY/b/KEY/c → 0-5 0-3
";

const GROUPS_READ: &str = r"
^(<>*)<KEY>(<>*)$ → 2 groups
<a*> → Inner(0)
((<a>)) → Nested(1)
(<a>)* → Nested(5)
";

const GROUPS_IN_TEMPLATE: &str = r"
^(<>*)<KEY>(<>*)$ at /a/KEY/b/KEY/c by \1<x> → /a/KEY/b/x
";

#[test]
fn pattern_groups(rt: HostRuntime) {
    assert_right(&rt, first_wrong(rt.alloc(), GROUPS, is_matched_so));
    assert_right(&rt, first_wrong(rt.alloc(), GROUPS_READ, is_read_so));
    assert_right(&rt, first_wrong(rt.alloc(), GROUPS_IN_TEMPLATE, is_made_so));
}

const FORMS: &str = r"
^$ at / → 0-0
^$ at /a → no match
^<a>$ at /a → 0-1
^<a>$ at /a/a → no match
<a>$ at /b/a → 0-2
<a>$ at /a/b → no match
^<a> at /a/b → 0-2
^<a> at /b/a → no match
<a> at /b/a/b → 0-3
<a> at /b/b → no match
^<>$ at /x → 0-1
^<>$ at / → no match
^[<a><b>]$ at /b → 0-1
^[<a><b>]$ at /c → no match
^[<a>]$ at /a → 0-1
^[<a>]$ at /b → no match
^[^<a>]$ at /b → 0-1
^[^<a>]$ at /a → no match
^[^<a><b>]$ at /c → 0-1
^[^<a><b>]$ at /b → no match
^[^<a><b>]$ at / → no match
^<a>*$ at / → 0-0
^<a>*$ at /b → no match
^<a>*$ at /a/a/a → 0-3
^<a>*$ at /a/b/a → no match
^<a>+$ at /a → 0-1
^<a>+$ at / → no match
^<a>?$ at / → 0-0
^<a>?$ at /a/a → no match
^<a>?$ at /a → 0-1
^<a>?$ at /b → no match
^<a>{2}$ at /a/a → 0-2
^<a>{2}$ at /a → no match
^<a>{2}$ at /a/a/a → no match
^<a>{2,}$ at /a/a/a → 0-3
^<a>{2,}$ at /a → no match
^<a>{,2}$ at / → 0-0
^<a>{,2}$ at /a/a/a → no match
^<a>{1,2}$ at /a/a → 0-2
^<a>{1,2}$ at /a/a/a → no match
^<a>{1,2}$ at /a → 0-1
^<a>{1,2}$ at / → no match
^<a>{0}$ at / → 0-0
^<a>{0}$ at /a → no match
^<a>{002,0003}$ at /a/a/a → 0-3
^<a>{002,0003}$ at /a → no match
^[<a><b>]{2}$ at /b/a → 0-2
^[<a><b>]{2}$ at /b/c → no match
^()$ at / → 0-0 0-0
^()$ at /a → no match
^(<a><b>)$ at /a/b → 0-2 0-2
^(<a><b>)$ at /a → no match
# Texts are components: escapes, types and words are read, and a period is a period.
^<%41>$ at /A → 0-1
^<%41>$ at /a → no match
^<8=A>$ at /A → 0-1
^<8=A>$ at /9=A → no match
^<9=A>$ at /9=A → 0-1
^<9=A>$ at /A → no match
^<seg=5>$ at /50=%05 → 0-1
^<seg=5>$ at /seg=6 → no match
^<seg=005>$ at /seg=5 → 0-1
^<seg=005>$ at /5 → no match
^<a.b>$ at /a.b → 0-1
^<a.b>$ at /axb → no match
^<...>$ at /... → 0-1
^<...>$ at /a → no match
^<....>$ at /%2E... → 0-1
^<....>$ at /... → no match
^<a<b>$ at /a%3Cb → 0-1
^<a<b>$ at /a → no match
^<8=b=c>$ at /b%3Dc → 0-1
^<8=b=c>$ at /b → no match
^<sha256digest=0000000000000000000000000000000000000000000000000000000000000000>$ at /1=%00%00%00%00%00%00%00%00%00%00%00%00%00%00%00%00%00%00%00%00%00%00%00%00%00%00%00%00%00%00%00%00 → 0-1
^<sha256digest=0000000000000000000000000000000000000000000000000000000000000000>$ at /2=%00%00%00%00%00%00%00%00%00%00%00%00%00%00%00%00%00%00%00%00%00%00%00%00%00%00%00%00%00%00%00%00 → no match
# Patterns that match every name.
 at / → 0-0
 at /a → 0-1
 at /a/b/c → 0-3
^<>*$ at / → 0-0
^<>*$ at /a → 0-1
^<>*$ at /a/b/c → 0-3
<>{0,64} at / → 0-0
<>{0,64} at /a → 0-1
<>{0,64} at /a/b/c → 0-3
$ at / → 0-0
$ at /a → 0-1
$ at /a/b/c → 0-3
^ at / → 0-0
^ at /a → 0-1
^ at /a/b/c → 0-3
() at / → 0-0 0-0
() at /a → 0-1 1-1
() at /a/b/c → 0-3 3-3
";

#[test]
fn each_form(rt: HostRuntime) {
    assert_right(&rt, first_wrong(rt.alloc(), FORMS, is_matched_so));
}

const GREEDY: &str = r"
(<>*)(<>*) at /a/b/c → 0-3 3-3 3-3
^(<>*)(<>*)$ at /a/b/c → 0-3 0-3 3-3
^(<>?)(<>*)$ at /a/b/c → 0-3 0-1 1-3
^(<>*)(<>+)$ at /a/b/c → 0-3 0-2 2-3
^(<>{,2})(<>{1,2})$ at /a/b/c → 0-3 0-2 2-3
^(<a>*)<>(<>*)$ at /a/a/b → 0-3 0-2 3-3
^(<a>*)<a>(<>*)$ at /a/a/b → 0-3 0-1 2-3
^(<a><>*)(<b>?)$ at /a/b → 0-2 0-2 2-2
^(<a>)()<b>$ at /a/b → 0-2 0-1 1-1
(<a>)(<b>) at /a/b/a/b → 0-4 2-3 3-4
^(<a>)<>*(<b>) at /a/b/a/b/a → 0-5 0-1 3-4
";

/// Each atom, from left to right, matches as many components as a match of the whole pattern
/// allows.
#[test]
fn greedy(rt: HostRuntime) {
    assert_right(&rt, first_wrong(rt.alloc(), GREEDY, is_matched_so));
}

const LONG_NAMES: &str = r"
^<a>{64}$ at /a/a/a/a/a/a/a/a/a/a/a/a/a/a/a/a/a/a/a/a/a/a/a/a/a/a/a/a/a/a/a/a/a/a/a/a/a/a/a/a/a/a/a/a/a/a/a/a/a/a/a/a/a/a/a/a/a/a/a/a/a/a/a/a → 0-64
^<a>{64}$ at / → no match
^<a>{64,}$ at /a/a/a/a/a/a/a/a/a/a/a/a/a/a/a/a/a/a/a/a/a/a/a/a/a/a/a/a/a/a/a/a/a/a/a/a/a/a/a/a/a/a/a/a/a/a/a/a/a/a/a/a/a/a/a/a/a/a/a/a/a/a/a/a → 0-64
^<a>{64,}$ at / → no match
^<a>{,63}$ at /a/a/a/a/a/a/a/a/a/a/a/a/a/a/a/a/a/a/a/a/a/a/a/a/a/a/a/a/a/a/a/a/a/a/a/a/a/a/a/a/a/a/a/a/a/a/a/a/a/a/a/a/a/a/a/a/a/a/a/a/a/a/a/a → no match
^<a>{,63}$ at / → 0-0
^<>*$ at /a/a/a/a/a/a/a/a/a/a/a/a/a/a/a/a/a/a/a/a/a/a/a/a/a/a/a/a/a/a/a/a/a/a/a/a/a/a/a/a/a/a/a/a/a/a/a/a/a/a/a/a/a/a/a/a/a/a/a/a/a/a/a/a → 0-64
^<>*$ at / → 0-0
^<b>*$ at /a/a/a/a/a/a/a/a/a/a/a/a/a/a/a/a/a/a/a/a/a/a/a/a/a/a/a/a/a/a/a/a/a/a/a/a/a/a/a/a/a/a/a/a/a/a/a/a/a/a/a/a/a/a/a/a/a/a/a/a/a/a/a/a → no match
^<b>*$ at / → 0-0
<b> at /a/a/a/a/a/a/a/a/a/a/a/a/a/a/a/a/a/a/a/a/a/a/a/a/a/a/a/a/a/a/a/a/a/a/a/a/a/a/a/a/a/a/a/a/a/a/a/a/a/a/a/a/a/a/a/a/a/a/a/a/a/a/a/a → no match
<b> at / → no match
^[^<a>]{,64}$ at /a/a/a/a/a/a/a/a/a/a/a/a/a/a/a/a/a/a/a/a/a/a/a/a/a/a/a/a/a/a/a/a/a/a/a/a/a/a/a/a/a/a/a/a/a/a/a/a/a/a/a/a/a/a/a/a/a/a/a/a/a/a/a/a → no match
^[^<a>]{,64}$ at / → 0-0
(<>*)(<>*) at /a/a/a/a/a/a/a/a/a/a/a/a/a/a/a/a/a/a/a/a/a/a/a/a/a/a/a/a/a/a/a/a/a/a/a/a/a/a/a/a/a/a/a/a/a/a/a/a/a/a/a/a/a/a/a/a/a/a/a/a/a/a/a/a → 0-64 64-64 64-64
(<>*)(<>*) at / → 0-0 0-0 0-0
";

#[test]
fn long_names(rt: HostRuntime) {
    assert_right(&rt, first_wrong(rt.alloc(), LONG_NAMES, is_matched_so));
}

const MANY_ATOMS: &str = r"
<a><a><a><a><a><a><a><a><a><a><a><a><a><a><a><a><a><a><a><a><a><a><a><a><a><a><a><a><a><a><a><a> at /a/a/a/a/a/a/a/a/a/a/a/a/a/a/a/a/a/a/a/a/a/a/a/a/a/a/a/a/a/a/a/a/a/a → 0-34
(<a>?)(<a>?)(<a>?)(<a>?)(<a>?)(<a>?)(<a>?)(<a>?)(<a>?) at /a/a/a/a/a/a/a/a/a/a/a/a/a/a/a/a/a/a/a/a/a/a/a/a/a/a/a/a/a/a/a/a/a/a → 0-34 34-34 34-34 34-34 34-34 34-34 34-34 34-34 34-34 34-34
^(<a>)(<a>)(<a>)(<a>)(<a>)(<a>)(<a>)(<a>)(<a>)<>*$ at /a/a/a/a/a/a/a/a/a/a/a/a/a/a/a/a/a/a/a/a/a/a/a/a/a/a/a/a/a/a/a/a/a/a → 0-34 0-1 1-2 2-3 3-4 4-5 5-6 6-7 7-8 8-9
# A search with steps back would take too long.
^<>*<>*<>*<>*<>*<>*<>*<>*<>*<>*<>*<>*<>*<>*<>*<>*<>*<>*<>*<>*<>*<>*<>*<>*<>*<>*<>*<>*<>*<>*<>*<z>$ at /a/a/a/a/a/a/a/a/a/a/a/a/a/a/a/a/a/a/a/a/a/a/a/a/a/a/a/a/a/a/a/a/a/a/a/a/a/a/a/a/a/a/a/a/a/a/a/a/a/a/a/a/a/a/a/a/a/a/a/a/a/a/a/a → no match
";

const MANY_GROUPS: &str = r"
(<a>?)(<a>?)(<a>?)(<a>?)(<a>?)(<a>?)(<a>?)(<a>?)(<a>?) → 9 groups
";

/// A pattern may have 32 written atoms, and two implied atoms in addition. A pattern may have 9
/// groups.
#[test]
fn many_atoms(rt: HostRuntime) {
    assert_right(&rt, first_wrong(rt.alloc(), MANY_ATOMS, is_matched_so));
    assert_right(&rt, first_wrong(rt.alloc(), MANY_GROUPS, is_read_so));
}

const STEPS: &str = r"
# 32 atoms are each tested against 34 components; the two implied ones take anything.
<a><a><a><a><a><a><a><a><a><a><a><a><a><a><a><a><a><a><a><a><a><a><a><a><a><a><a><a><a><a><a><a> at /a/a/a/a/a/a/a/a/a/a/a/a/a/a/a/a/a/a/a/a/a/a/a/a/a/a/a/a/a/a/a/a/a/a → 1088
# The last of 32 atoms is tested against 64 components, and none of them is left for it.
^<>*<>*<>*<>*<>*<>*<>*<>*<>*<>*<>*<>*<>*<>*<>*<>*<>*<>*<>*<>*<>*<>*<>*<>*<>*<>*<>*<>*<>*<>*<>*<z>$ at /a/a/a/a/a/a/a/a/a/a/a/a/a/a/a/a/a/a/a/a/a/a/a/a/a/a/a/a/a/a/a/a/a/a/a/a/a/a/a/a/a/a/a/a/a/a/a/a/a/a/a/a/a/a/a/a/a/a/a/a/a/a/a/a → 64
";

/// Each atom is tested against each component at most once.
#[test]
fn bounded_work(rt: HostRuntime) {
    assert_right(&rt, first_wrong(rt.alloc(), STEPS, is_counted_so));
}

const EXAMPLES: &str = r"
^<a>+$ at /a/a → 0-2
^<a>+$ at / → no match
<KEY> at /ops/KEY/1 → 0-3
^[^<a>]$ at /b → 0-1
";

/// Patterns from examples in `docs/RULES.md` match as that page says.
#[test]
fn examples_for_operators(rt: HostRuntime) {
    assert_right(&rt, first_wrong(rt.alloc(), EXAMPLES, is_matched_so));
}

/// A pattern with two groups, every kind of component test, and the repeats `*` and `{1,3}`.
const EACH_PART: &str =
    "(<>*)[<KEY><%41><seg=5>][^<b>]{1,3}(<params-sha256=0000000000000000000000000000000000000000000000000000000000000000>)";

/// Returns whether the pattern `EACH_PART` is read, has two groups, and does not match the empty
/// name. Also returns true if memory runs out.
fn is_read_unless_memory(alloc: Global) -> bool {
    match Pattern::read(alloc, EACH_PART) {
        Ok(pattern) => {
            pattern.groups() == 2
                && Name::read(&[]).is_ok_and(|name| pattern.matches(name).is_none())
        }
        Err(fault) => fault == PatternFault::Memory,
    }
}

#[test]
fn refused_memory(rt: HostRuntime) {
    assert!(rt; is_read_unless_memory(rt.alloc()));
}

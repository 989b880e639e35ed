//! Tests that show which texts are templates, and which names result from expanding templates.

use crate::rows::assert_right;
use name_patterns::{Pattern, PatternFault, Template};
use ndn_names::{Name, NameBuf, NameFault};
use std::alloc::Global;
use test_support::first_wrong;

/// Expands a template with the components that the pattern captures from `name`. Returns the
/// template's fault if the template is not valid. Returns `None` if the pattern does not match, or
/// if `is_too_long` disagrees with the expansion.
fn expanded(
    alloc: Global,
    pattern: &Pattern,
    template: &str,
    name: Name<'_>,
) -> Result<Option<Result<NameBuf, NameFault>>, PatternFault> {
    let template = Template::read(alloc, template, pattern.groups())?;
    match pattern.matches(name) {
        None => Ok(None),
        Some(captures) => {
            let made = template.expand(alloc, &captures, name);
            let is_refused = matches!(made, Err(NameFault::TooManyComponents));
            let is_told = template.is_too_long(&captures) == is_refused;
            Ok(is_told.then_some(made))
        }
    }
}

/// Expands a template. Returns the URI of the resulting name, or the fault if this name would be
/// too long. Returns `None` if the pattern, the name or the template is not valid, if the pattern
/// does not match, or if `is_too_long` disagrees with the expansion.
fn made(alloc: Global, pattern: &str, name: &str, template: &str) -> Option<String> {
    let pattern = Pattern::read(alloc, pattern).ok()?;
    let name = NameBuf::from_uri(alloc, name).ok()?;
    made_at(alloc, &pattern, template, name.view())
}

/// Returns the result of `made`. `pattern` and `name` are the pattern and the name that `made` has
/// read.
fn made_at(alloc: Global, pattern: &Pattern, template: &str, name: Name<'_>) -> Option<String> {
    match expanded(alloc, pattern, template, name).ok()?? {
        Ok(made) => made.to_uri(alloc).ok(),
        Err(fault) => format!(in alloc; "{fault:?}").ok(),
    }
}

/// Returns whether a row `PATTERN at NAME by TEMPLATE → URI` is correct. A row may have a fault
/// instead of the URI.
pub fn is_made_so(alloc: Global, row: &str) -> bool {
    let Some((front, wanted)) = row.split_once(" → ") else {
        return false;
    };
    let Some((front, template)) = front.split_once(" by ") else {
        return false;
    };
    let Some((pattern, name)) = front.split_once(" at ") else {
        return false;
    };
    made(alloc, pattern, name, template).is_some_and(|made| made.as_str() == wanted)
}

/// Returns whether a row `TEMPLATE for GROUPS → FAULT` or `TEMPLATE for GROUPS → a template` is
/// correct. `GROUPS` is the number of groups that the template may use.
fn is_template_so(alloc: Global, row: &str) -> bool {
    let Some((front, wanted)) = row.split_once(" → ") else {
        return false;
    };
    let Some((template, groups)) = front.split_once(" for ") else {
        return false;
    };
    let Ok(groups) = groups.parse::<u8>() else {
        return false;
    };
    match Template::read(alloc, template, groups) {
        Ok(_) => wanted == "a template",
        Err(fault) => format!(in alloc; "{fault:?}").is_ok_and(|fault| fault.as_str() == wanted),
    }
}

const EXPANSIONS: &str = r"
^(<>*)<KEY>(<>*)$ at /a/KEY/b/KEY/c by  → /
^(<>*)<KEY>(<>*)$ at /a/KEY/b/KEY/c by \0 → /a/KEY/b/KEY/c
^(<>*)<KEY>(<>*)$ at /a/KEY/b/KEY/c by \1 → /a/KEY/b
^(<>*)<KEY>(<>*)$ at /a/KEY/b/KEY/c by \2 → /c
^(<>*)<KEY>(<>*)$ at /a/KEY/b/KEY/c by \1<x> → /a/KEY/b/x
^(<>*)<KEY>(<>*)$ at /a/KEY/b/KEY/c by <x>\1 → /x/a/KEY/b
^(<>*)<KEY>(<>*)$ at /a/KEY/b/KEY/c by \2\1\2 → /c/a/KEY/b/c
^(<>*)<KEY>(<>*)$ at /a/KEY/b/KEY/c by <x><seg=5><%41><...><9=z> → /x/seg=5/A/.../9=z
^(<>*)<c>()$ at /a/b/c by \2<x>\2 → /x
";

#[test]
fn expansions(rt: HostRuntime) {
    assert_right(&rt, first_wrong(rt.alloc(), EXPANSIONS, is_made_so));
}

const FAULTS: &str = r"
\0\9 for 9 → a template
\9 for 255 → a template
\0 for 0 → a template
<a<b> for 0 → a template
\1 for 0 → BadGroup(0)
\1\2 for 1 → BadGroup(2)
<x>\9 for 8 → BadGroup(3)
\ for 9 → Syntax(0)
\a for 9 → Syntax(0)
\\1 for 9 → Syntax(0)
\10 for 9 → Syntax(2)
x for 9 → Syntax(0)
<> for 9 → Syntax(0)
<x for 9 → Syntax(0)
\1<.> for 9 → Syntax(2)
<a/b> for 9 → Syntax(0)
<x>* for 9 → Syntax(3)
(\1) for 9 → Syntax(0)
[<x>] for 9 → Syntax(0)
^\1$ for 9 → Syntax(0)
<a*> for 9 → Inner(0)
\1<\2> for 9 → Inner(2)
<%*> for 9 → Syntax(0)
<a*>\7 for 1 → Inner(0)
";

#[test]
fn faults(rt: HostRuntime) {
    assert_right(&rt, first_wrong(rt.alloc(), FAULTS, is_template_so));
}

/// In these rows the pattern is empty, so it matches every name.
const LONG_EXPANSIONS: &str = r"
 at /a/a/a/a/a/a/a/a/a/a/a/a/a/a/a/a/a/a/a/a/a/a/a/a/a/a/a/a/a/a/a/a/a/a/a/a/a/a/a/a/a/a/a/a/a/a/a/a/a/a/a/a/a/a/a/a/a/a/a/a/a/a/a/a by \0 → /a/a/a/a/a/a/a/a/a/a/a/a/a/a/a/a/a/a/a/a/a/a/a/a/a/a/a/a/a/a/a/a/a/a/a/a/a/a/a/a/a/a/a/a/a/a/a/a/a/a/a/a/a/a/a/a/a/a/a/a/a/a/a/a
 at /a/a/a/a/a/a/a/a/a/a/a/a/a/a/a/a/a/a/a/a/a/a/a/a/a/a/a/a/a/a/a/a/a/a/a/a/a/a/a/a/a/a/a/a/a/a/a/a/a/a/a/a/a/a/a/a/a/a/a/a/a/a/a by \0<x> → /a/a/a/a/a/a/a/a/a/a/a/a/a/a/a/a/a/a/a/a/a/a/a/a/a/a/a/a/a/a/a/a/a/a/a/a/a/a/a/a/a/a/a/a/a/a/a/a/a/a/a/a/a/a/a/a/a/a/a/a/a/a/a/x
 at /a/a/a/a/a/a/a/a/a/a/a/a/a/a/a/a/a/a/a/a/a/a/a/a/a/a/a/a/a/a/a/a/a/a/a/a/a/a/a/a/a/a/a/a/a/a/a/a/a/a/a/a/a/a/a/a/a/a/a/a/a/a/a/a by \0<x> → TooManyComponents
 at /a/a/a/a/a/a/a/a/a/a/a/a/a/a/a/a/a/a/a/a/a/a/a/a/a/a/a/a/a/a/a/a/a/a/a/a/a/a/a/a/a/a/a/a/a/a/a/a/a/a/a/a/a/a/a/a/a/a/a/a/a/a/a/a by <x>\0 → TooManyComponents
 at /a/a/a/a/a/a/a/a/a/a/a/a/a/a/a/a/a/a/a/a/a/a/a/a/a/a/a/a/a/a/a/a by \0\0 → /a/a/a/a/a/a/a/a/a/a/a/a/a/a/a/a/a/a/a/a/a/a/a/a/a/a/a/a/a/a/a/a/a/a/a/a/a/a/a/a/a/a/a/a/a/a/a/a/a/a/a/a/a/a/a/a/a/a/a/a/a/a/a/a
 at /a/a/a/a/a/a/a/a/a/a/a/a/a/a/a/a/a/a/a/a/a/a/a/a/a/a/a/a/a/a/a/a/a by \0\0 → TooManyComponents
 at /a/a/a/a/a/a/a/a/a/a/a/a/a/a/a/a/a/a/a/a/a by \0\0\0<x> → /a/a/a/a/a/a/a/a/a/a/a/a/a/a/a/a/a/a/a/a/a/a/a/a/a/a/a/a/a/a/a/a/a/a/a/a/a/a/a/a/a/a/a/a/a/a/a/a/a/a/a/a/a/a/a/a/a/a/a/a/a/a/a/x
 at /a/a/a/a/a/a/a/a/a/a/a/a/a/a/a/a/a/a/a/a/a by \0\0\0<x><x> → TooManyComponents
 at / by \0\0\0 → /
";

#[test]
fn long_expansions(rt: HostRuntime) {
    assert_right(&rt, first_wrong(rt.alloc(), LONG_EXPANSIONS, is_made_so));
}

/// Matches the pattern `<KEY>` with the name /A/KEY, and returns whether a template then expands to
/// a name of five components. Also returns true if memory runs out.
fn is_made_unless_memory(alloc: Global) -> bool {
    let pattern = match Pattern::read(alloc, "<KEY>") {
        Ok(pattern) => pattern,
        Err(fault) => return fault == PatternFault::Memory,
    };
    let Ok(name) = Name::read(&[8, 1, 65, 8, 3, 75, 69, 89]) else {
        return false;
    };
    match expanded(alloc, &pattern, r"<ops>\0<%00><seg=7>", name) {
        Ok(Some(Ok(made))) => made.view().len() == 5,
        Ok(Some(Err(fault))) => fault == NameFault::Memory,
        Ok(None) => false,
        Err(fault) => fault == PatternFault::Memory,
    }
}

#[test]
fn refused_memory(rt: HostRuntime) {
    assert!(rt; is_made_unless_memory(rt.alloc()));
}

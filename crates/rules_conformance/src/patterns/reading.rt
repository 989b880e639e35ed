//! Tests that show which texts are patterns, and which faults other texts have.

use crate::rows::assert_right;
use name_patterns::{Pattern, PatternFault};
use std::alloc::Global;
use test_support::first_wrong;

/// Returns whether a row `TEXT → FAULT` or `TEXT → 2 groups` is correct.
pub fn is_read_so(alloc: Global, row: &str) -> bool {
    row.split_once(" → ").is_some_and(|(text, wanted)| {
        reading_of(alloc, text).is_some_and(|told| told.as_str() == wanted)
    })
}

/// Returns the number of groups in the pattern `text`, as in `2 groups`, or the fault of `text`, as
/// in `Inner(0)`.
fn reading_of(alloc: Global, text: &str) -> Option<String> {
    match Pattern::read(alloc, text) {
        Ok(pattern) => format!(in alloc; "{} groups", pattern.groups()).ok(),
        Err(fault) => format!(in alloc; "{fault:?}").ok(),
    }
}

/// Returns whether `words` are the message of the fault.
fn is_reported_as(alloc: Global, fault: PatternFault, words: &str) -> bool {
    fault
        .to_string(alloc)
        .is_ok_and(|text| text.as_str() == words)
}

const ACCEPTED: &str = r"
 → 0 groups
^ → 0 groups
$ → 0 groups
^$ → 0 groups
^<a>$ → 0 groups
() → 1 groups
(<a>) → 1 groups
(<a><b>)<c>(<d>) → 2 groups
(<a>*<b>) → 1 groups
<> → 0 groups
[<a>] → 0 groups
[<a><b><c>] → 0 groups
[^<a>] → 0 groups
[^<a><b>] → 0 groups
<a>*<a>+<a>? → 0 groups
<a>{0}<a>{64} → 0 groups
<a>{0,}<a>{64,}<a>{,0}<a>{,64} → 0 groups
<a>{0,0}<a>{0,64}<a>{64,64} → 0 groups
<a>{00000000000000000000000000000064} → 0 groups
<a<b> → 0 groups
<<> → 0 groups
<%28> → 0 groups
<-._~> → 0 groups
<é> → 0 groups
<a b> → 0 groups
<8=a><65535=a><seg=1><off=2><v=3><t=4><seq=5> → 0 groups
()()()()()()()()() → 9 groups
";

#[test]
fn accepted(rt: HostRuntime) {
    assert_right(&rt, first_wrong(rt.alloc(), ACCEPTED, is_read_so));
}

const SYNTAX: &str = r"
# No part of a pattern.
a → Syntax(0)
 <a> → Syntax(0)
<a> <b> → Syntax(3)
<a>/<b> → Syntax(3)
<a>|<b> → Syntax(3)
<a>> → Syntax(3)
<a>] → Syntax(3)
<a>} → Syntax(3)
é → Syntax(0)
<é>é → Syntax(4)
) → Syntax(0)
<a>) → Syntax(3)
(<a>)) → Syntax(5)
# Anchors elsewhere.
^^ → Syntax(1)
<a>^ → Syntax(3)
(^<a>) → Syntax(1)
$$ → Syntax(0)
$^ → Syntax(0)
<a>$<b> → Syntax(3)
(<a>$) → Syntax(4)
(<a>)$<b> → Syntax(5)
# Texts that are no component's.
< → Syntax(0)
<a → Syntax(0)
<b><a → Syntax(3)
<%> → Syntax(0)
<%4> → Syntax(0)
<.> → Syntax(0)
<..> → Syntax(0)
<a/b> → Syntax(0)
</> → Syntax(0)
<a=b> → Syntax(0)
<0=a> → Syntax(0)
<08=a> → Syntax(0)
<65536=a> → Syntax(0)
<1=a> → Syntax(0)
<2=...> → Syntax(0)
<seg=x> → Syntax(0)
<sha256digest=00> → Syntax(0)
# Lists.
[] → Syntax(0)
[^] → Syntax(0)
[ → Syntax(0)
[^ → Syntax(0)
[<a> → Syntax(0)
[<a>b] → Syntax(0)
[<>] → Syntax(0)
[<a><>] → Syntax(0)
[^^<a>] → Syntax(0)
[<a>*] → Syntax(0)
[<a><%>] → Syntax(0)
<b>[<a → Syntax(3)
[[<a>]] → Syntax(0)
# Repeats, which belong to their atom.
* → Syntax(0)
^* → Syntax(1)
(*<a>) → Syntax(1)
{2} → Syntax(0)
<a>{} → Syntax(0)
<a>{,} → Syntax(0)
<a>{2 → Syntax(0)
<a>{65} → Syntax(0)
<a>{65,} → Syntax(0)
<a>{,65} → Syntax(0)
<a>{1,65} → Syntax(0)
<a>{18446744073709551617} → Syntax(0)
<a>{3,2} → Syntax(0)
<b><a>{3,2} → Syntax(3)
<b>[<a>]{3,2} → Syntax(3)
<a>{+1} → Syntax(0)
<a>{-1} → Syntax(0)
<a>{1,+2} → Syntax(0)
<a>{ 1} → Syntax(0)
<a>{1 } → Syntax(0)
<a>{1,2,3} → Syntax(0)
<a>{a} → Syntax(0)
# A second repeat stands at itself.
<a>** → Syntax(4)
<a>*+ → Syntax(4)
<a>+{2} → Syntax(4)
<a>{2}* → Syntax(6)
<a>{2}{3,2} → Syntax(6)
# Groups that are never closed.
( → Syntax(0)
(<a> → Syntax(0)
<b>(<a> → Syntax(3)
()(<a> → Syntax(2)
(<a>$ → Syntax(0)
((<a> → Syntax(0)
(<a*> → Syntax(0)
(<a>{3,2} → Syntax(0)
(<a) → Syntax(0)
(<a>)(<b)> → Syntax(5)
# What is closed has its own fault.
(<a>{3,2}) → Syntax(1)
(<a>x) → Syntax(4)
# What follows a group and is no repeat of the grammar.
(<a>){3,2} → Syntax(5)
(<a>){ → Syntax(5)
(<a>){65} → Syntax(5)
";

#[test]
fn syntax(rt: HostRuntime) {
    assert_right(&rt, first_wrong(rt.alloc(), SYNTAX, is_read_so));
}

const INNER: &str = r"
<(> → Inner(0)
<a(b> → Inner(0)
<b><a(> → Inner(3)
[<b><a(>] → Inner(0)
^[^<a(><b>]*$ → Inner(1)
(<b><(>) → Inner(4)
<a(>{2} → Inner(0)
<)> → Inner(0)
<a)b> → Inner(0)
<b><a)> → Inner(3)
[<b><a)>] → Inner(0)
^[^<a)><b>]*$ → Inner(1)
(<b><)>) → Inner(4)
<a)>{2} → Inner(0)
<[> → Inner(0)
<a[b> → Inner(0)
<b><a[> → Inner(3)
[<b><a[>] → Inner(0)
^[^<a[><b>]*$ → Inner(1)
(<b><[>) → Inner(4)
<a[>{2} → Inner(0)
<]> → Inner(0)
<a]b> → Inner(0)
<b><a]> → Inner(3)
[<b><a]>] → Inner(0)
^[^<a]><b>]*$ → Inner(1)
(<b><]>) → Inner(4)
<a]>{2} → Inner(0)
<{> → Inner(0)
<a{b> → Inner(0)
<b><a{> → Inner(3)
[<b><a{>] → Inner(0)
^[^<a{><b>]*$ → Inner(1)
(<b><{>) → Inner(4)
<a{>{2} → Inner(0)
<}> → Inner(0)
<a}b> → Inner(0)
<b><a}> → Inner(3)
[<b><a}>] → Inner(0)
^[^<a}><b>]*$ → Inner(1)
(<b><}>) → Inner(4)
<a}>{2} → Inner(0)
<*> → Inner(0)
<a*b> → Inner(0)
<b><a*> → Inner(3)
[<b><a*>] → Inner(0)
^[^<a*><b>]*$ → Inner(1)
(<b><*>) → Inner(4)
<a*>{2} → Inner(0)
<+> → Inner(0)
<a+b> → Inner(0)
<b><a+> → Inner(3)
[<b><a+>] → Inner(0)
^[^<a+><b>]*$ → Inner(1)
(<b><+>) → Inner(4)
<a+>{2} → Inner(0)
<?> → Inner(0)
<a?b> → Inner(0)
<b><a?> → Inner(3)
[<b><a?>] → Inner(0)
^[^<a?><b>]*$ → Inner(1)
(<b><?>) → Inner(4)
<a?>{2} → Inner(0)
<^> → Inner(0)
<a^b> → Inner(0)
<b><a^> → Inner(3)
[<b><a^>] → Inner(0)
^[^<a^><b>]*$ → Inner(1)
(<b><^>) → Inner(4)
<a^>{2} → Inner(0)
<$> → Inner(0)
<a$b> → Inner(0)
<b><a$> → Inner(3)
[<b><a$>] → Inner(0)
^[^<a$><b>]*$ → Inner(1)
(<b><$>) → Inner(4)
<a$>{2} → Inner(0)
<\> → Inner(0)
<a\b> → Inner(0)
<b><a\> → Inner(3)
[<b><a\>] → Inner(0)
^[^<a\><b>]*$ → Inner(1)
(<b><\>) → Inner(4)
<a\>{2} → Inner(0)
<|> → Inner(0)
<a|b> → Inner(0)
<b><a|> → Inner(3)
[<b><a|>] → Inner(0)
^[^<a|><b>]*$ → Inner(1)
(<b><|>) → Inner(4)
<a|>{2} → Inner(0)
";

/// If the only fault of a pattern is that the text of a component contains one of the signs
/// `( ) [ ] { } * + ? ^ $ \ |`, this fault is reported as `Inner`.
#[test]
fn inner(rt: HostRuntime) {
    assert_right(&rt, first_wrong(rt.alloc(), INNER, is_read_so));
}

const NESTED: &str = r"
((<a>)) → Nested(1)
(()) → Nested(1)
(<a>(<b>)<c>) → Nested(4)
# The first parenthesis closes the open group, and the inner one is not also Syntax.
((<a>) → Nested(1)
<b>(<a>(<b>) → Nested(7)
()* → Nested(2)
(<a>)* → Nested(5)
(<a>)+ → Nested(5)
(<a>)? → Nested(5)
(<a>){2} → Nested(5)
(<a>){2,} → Nested(5)
(<a>){,2} → Nested(5)
(<a>){1,2} → Nested(5)
(<a>)*<b*> → Nested(5)
# Nine groups, and one in the ninth.
()()()()()()()()(()) → Nested(17)
";

#[test]
fn nested(rt: HostRuntime) {
    assert_right(&rt, first_wrong(rt.alloc(), NESTED, is_read_so));
}

const BAD_GROUP: &str = r"
()()()()()()()()()() → BadGroup(18)
()()()()()()()()()(<a> → BadGroup(18)
()()()()()()()()()(<a>)* → BadGroup(18)
()()()()()()()()()(<a*>) → BadGroup(18)
()()()()()()()()()((<a>)) → BadGroup(18)
";

#[test]
fn bad_group(rt: HostRuntime) {
    assert_right(&rt, first_wrong(rt.alloc(), BAD_GROUP, is_read_so));
}

const FIRST_FAULT: &str = r"
<a*>< → Inner(0)
<a*>) → Inner(0)
(<a*>)* → Inner(1)
(<a*>(<b>)) → Inner(1)
(<a)>) → Inner(1)
<%*> → Syntax(0)
<a/*> → Syntax(0)
<seg=*> → Syntax(0)
<a*>{3,2} → Syntax(0)
<a*>* → Inner(0)
<a*>** → Inner(0)
<a* → Syntax(0)
[<a*><%>] → Syntax(0)
[<a*><>] → Syntax(0)
[<a*> → Syntax(0)
[<a*>]{3,2} → Syntax(0)
";

/// If several parts of a pattern are faulty, the fault of the leftmost part is reported. If one
/// part has several faults, `Syntax` is reported rather than `Inner`.
#[test]
fn first_fault(rt: HostRuntime) {
    assert_right(&rt, first_wrong(rt.alloc(), FIRST_FAULT, is_read_so));
}

const THIRTY_THREE_ATOMS: &str = r"
<a><a><a><a><a><a><a><a><a><a><a><a><a><a><a><a><a><a><a><a><a><a><a><a><a><a><a><a><a><a><a><a> → 0 groups
<a><a><a><a><a><a><a><a><a><a><a><a><a><a><a><a><a><a><a><a><a><a><a><a><a><a><a><a><a><a><a><a>$ → 0 groups
<a><a><a><a><a><a><a><a><a><a><a><a><a><a><a><a><a><a><a><a><a><a><a><a><a><a><a><a><a><a><a><a>() → 1 groups
<a><a><a><a><a><a><a><a><a><a><a><a><a><a><a><a><a><a><a><a><a><a><a><a><a><a><a><a><a><a><a><a>()$ → 1 groups
^<a><a><a><a><a><a><a><a><a><a><a><a><a><a><a><a><a><a><a><a><a><a><a><a><a><a><a><a><a><a><a><a> → 0 groups
<a><a><a><a><a><a><a><a><a><a><a><a><a><a><a><a><a><a><a><a><a><a><a><a><a><a><a><a><a><a><a><a><a> → Syntax(96)
<a><a><a><a><a><a><a><a><a><a><a><a><a><a><a><a><a><a><a><a><a><a><a><a><a><a><a><a><a><a><a><a><>*$ → Syntax(96)
<a><a><a><a><a><a><a><a><a><a><a><a><a><a><a><a><a><a><a><a><a><a><a><a><a><a><a><a><a><a><a><a><a*> → Syntax(96)
<a><a><a><a><a><a><a><a><a><a><a><a><a><a><a><a><a><a><a><a><a><a><a><a><a><a><a><a><a><a><a><a>[<b>] → Syntax(96)
<a><a><a><a><a><a><a><a><a><a><a><a><a><a><a><a><a><a><a><a><a><a><a><a><a><a><a><a><a><a><a><a>(<a>) → Syntax(97)
";

/// A pattern may have 32 written atoms. A 33rd written atom is a fault, whatever the atom is.
#[test]
fn thirty_three_atoms(rt: HostRuntime) {
    assert_right(&rt, first_wrong(rt.alloc(), THIRTY_THREE_ATOMS, is_read_so));
}

#[test]
fn messages(rt: HostRuntime) {
    let alloc = rt.alloc();
    assert!(rt;
        is_reported_as(
            alloc,
            PatternFault::Syntax(3),
            "octet 3: not part of a pattern"
        )
    );
    assert!(rt;
        is_reported_as(
            alloc,
            PatternFault::Inner(3),
            "octet 3: a pattern inside a component"
        )
    );
    assert!(rt;
        is_reported_as(
            alloc,
            PatternFault::Nested(3),
            "octet 3: a group that is nested or repeated"
        )
    );
    assert!(rt;
        is_reported_as(
            alloc,
            PatternFault::BadGroup(3),
            "octet 3: a group that does not exist, or one too many"
        )
    );
    assert!(rt; is_reported_as(alloc, PatternFault::Memory, "out of memory"));
}

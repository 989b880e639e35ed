//! Tests of single components.

ghost use Rattle.std.specs.Prelude.{◌≡◌, map};
ghost use Rattle.ndn_names.specs.View.{field_of as component};
ghost use Rattle.name_patterns.specs.Greedy.{is_among};
ghost use Rattle.name_patterns.specs.Shown.{field_of};

use crate::text::Text;
use ndn_names::Component;

/// Which components pass a test.
#[derive(Debug, Drop)]
enum Choice {
    Anything,
    OneOf(Vec<Text>),
    NoneOf(Vec<Text>),
}

/// A test that a component passes or fails.
#[derive(Debug, Drop)]
pub struct Test {
    choice: Choice,
}

impl Test {
    ghost use Rattle.std.specs.Prelude.{◌≡◌, ◌↔◌, ◌+◌, ◌^◌, ◌<◌, IsTrue, map};
    ghost use Rattle.ndn_names.specs.View.{field_of as component};
    ghost use Rattle.name_patterns.specs.Pattern.{PlainTest, Anything, OneOf, NoneOf};
    ghost use Rattle.name_patterns.specs.Greedy.{passes};
    ghost use Rattle.name_patterns.specs.Shown.{field_of, test_of};

    /// Returns the test that every component passes.
    pub fn anything() -> Test
        ensures { test_of result ≡ Anything }
    {
        Test {
            choice: Choice::Anything,
        }
    }

    /// Returns the test that only the components in `texts` pass.
    pub fn one_of(texts: Vec<Text>) -> Test
        ensures { test_of result ≡ OneOf (map field_of texts.items) }
    {
        Test {
            choice: Choice::OneOf(texts),
        }
    }

    /// Returns the test that all components except those in `texts` pass.
    pub fn none_of(texts: Vec<Text>) -> Test
        ensures { test_of result ≡ NoneOf (map field_of texts.items) }
    {
        Test {
            choice: Choice::NoneOf(texts),
        }
    }

    /// Returns whether this is the test `anything`, which every component passes. If the test is
    /// `anything`, no component needs to be tested.
    #[inline(always)]
    pub fn is_anything(&self) -> bool
        ensures { IsTrue result ↔ (test_of self.now ≡ Anything) }
    {
        matches!(&self.choice, Choice::Anything)
    }

    /// Returns whether `candidate` passes this test, and adds one to `tests`. Each test of a
    /// component is a call of this function.
    pub fn passes(&self, candidate: Component<'_>, tests: &mut u64) -> bool
        requires { tests.old + 1 < 2 ^ 64 }
        ensures exact { result ≡ passes (test_of self.now) (component candidate.entry) }
        ensures counted { tests.new ≡ tests.old + 1 }
    {
        *tests += 1;
        match &self.choice {
            Choice::Anything => true,
            Choice::OneOf(texts) => is_among(candidate, texts),
            Choice::NoneOf(texts) => !is_among(candidate, texts),
        }
    }
}

/// Returns whether `candidate` is one of the components in `texts`.
fn is_among(candidate: Component<'_>, texts: &[Text]) -> bool
    ensures { result ≡ is_among (component candidate.entry) (map field_of texts.now) }
{
    for text in texts {
        if text.is(candidate) {
            return true;
        }
    }
    false
}

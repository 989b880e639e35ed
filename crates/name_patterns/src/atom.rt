//! Atoms of patterns.

ghost use Rattle.std.specs.Prelude.{◌≡◌, ◌<◌, Some, IfOk, length, MatchResult};
ghost use Rattle.name_patterns.specs.Pattern.{anything};
ghost use Rattle.name_patterns.specs.Faults.{IsFaultOf, read_at};
ghost use Rattle.name_patterns.specs.PatternReading as read;
ghost use Rattle.name_patterns.specs.Shown.{atom_of};

use crate::component_test::Test;
use crate::fault::PatternFault;
use crate::repeat::{Repeat, first_repeat};
use crate::test_reader::read_test;
use crate::text::FrontPart;
use std::alloc::Global;

/// An atom of a pattern: a test, and how many consecutive components must pass this test.
#[derive(Debug, Drop)]
pub struct Atom {
    pub test: Test,
    pub repeat: Repeat,
}

/// Returns the atom that matches any number of components, whatever these components are.
pub fn any_components() -> Atom
    ensures { atom_of result ≡ anything }
{
    Atom {
        test: Test::anything(),
        repeat: Repeat {
            least: 0,
            most: None,
        },
    }
}

/// Reads the atom at the front of the text. `at` is the offset of the atom in the pattern.
pub fn read_atom(alloc: Global, at: usize, text: &str) -> Result<FrontPart<'_, Atom>, PatternFault>
    ensures read { let atom = read.atom_in text.now in
        MatchResult result (λ found. atom
        ≡ Some (record {
          part = atom_of found.part;
          is_inner = found.is_inner;
          rest = found.rest.now;
        }))
        (IsFaultOf (read_at at atom)) }
    ensures shorter { IfOk result (λ found. length found.rest.now < length text.now) }
{
    let FrontPart {
        part: test,
        is_inner,
        rest,
    } = read_test(alloc, at, text)?;
    let Some((repeat, rest)) = first_repeat(rest) else {
        return Err(PatternFault::Syntax(at));
    };
    Ok(FrontPart {
        part: Atom { test, repeat },
        is_inner,
        rest,
    })
}

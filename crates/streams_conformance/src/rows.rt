//! A helper for tests whose cases are the rows of a text. The first wrong row ends the test.

use std::alloc::Global;
use std::process::Abort;
use test_support::first_misshown;

/// Calls `show` with the input of each row. Fails at the first row where the result is not the
/// expected text. Also fails if there are no rows.
pub fn check_rows(
    rt: &impl Abort,
    alloc: Global,
    rows: &str,
    show: fn(Global, &str) -> Option<String>,
)
    requires { IsAlwaysCallable show }
{
    let wrong = first_misshown(alloc, rows, show);
    assert!(rt; wrong.is_none(), "{wrong:?}");
}

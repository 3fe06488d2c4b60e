//! An assertion that names its row.
use std::fmt::Debug;
use std::process::Abort;

/// A table's name and the number of a row, for messages.
pub(crate) type Place<'a> = (&'a str, u64);

/// Ends the test if the assertion is false for the row, and names what was found and the row.
pub(crate) fn assert_row<R: Debug>(rt: &impl Abort, holds: bool, what: &str, row: &R) {
    assert!(rt; holds, "{what}: {row:?}");
}

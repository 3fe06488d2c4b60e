//! Comparisons whose failures name their row.
ghost use Rattle.std.specs.Prelude.{◌↔◌, IsOk, IsTrue};

use std::fmt::Debug;
use std::test::Fail;

/// Fails if the test is false for the row, and names the row.
pub fn check_row<R: Debug>(row: &R, holds: bool) -> Result<(), Fail>
    ensures { IsOk result ↔ IsTrue holds }
{
    if holds {
        Ok(())
    } else {
        Err(Fail::new(format_args!("not so: {row:?}")))
    }
}

/// Fails if another value was found than wanted, and names the row and both.
pub fn check_found<R: Debug, T: Debug + PartialEq>(
    row: &R,
    found: &T,
    wanted: &T,
) -> Result<(), Fail> {
    if found == wanted {
        return Ok(());
    }
    Err(Fail::new(format_args!("{row:?}: found {found:?}, wanted {wanted:?}")))
}

/// Fails if one of these is false, and says which.
pub fn check_all(what: &str, all: &[bool]) -> Result<(), Fail> {
    for (number, holds) in all.iter().enumerate() {
        check_row(&(what, number), *holds)?;
    }
    Ok(())
}

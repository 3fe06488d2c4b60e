//! Sessions of a store with power cuts between them.
use super::fixtures::{EAST, HERE, import, store_of};
use disk::Torn;
use edits::Command;
use memory_store::{CutSession, run_two_sessions};
use std::alloc::Global;
use std::test::Fail;
use store::{Event, Reply};
use test_tiles::{A, B, check_row};

// The number of calls of opening a store with one tile: a sync, both gates, both roots and the record.
const CALLS_TO_OPEN: u64 = 6;

// More calls than the session makes.
const CALLS_OF_SESSION: u64 = 30;

/// The number of commands done.
pub(crate) fn count_done(replies: &[Reply]) -> u64 {
    let mut done: u64 = 0;
    for reply in replies {
        if matches!(reply, Reply::Done(_)) {
            done = done.saturating_add(1);
        }
    }
    done
}

// The number of commands that a store with one tile answered Done before a cut after this many calls, and the number
// that it has then. The command done before isn't counted.
fn done_and_found(alloc: Global, torn: Torn, calls: u64) -> Result<(u64, u64), Fail> {
    let events = [
        Event::Do(import(alloc, EAST, &B)?),
        Event::Do(Command::Remove { corner: HERE }),
        Event::Count,
    ];
    let mut replies = Vec::new(alloc);
    let disk = store_of(alloc, 2, &[(HERE, A)])?.into_disk();
    let first = CutSession {
        passes: CALLS_TO_OPEN.saturating_add(calls),
        events: &events,
        torn,
    };
    // The second session opens the store and asks nothing.
    let second = CutSession {
        passes: u64::MAX,
        events: &[],
        torn,
    };
    let found = run_two_sessions(alloc, disk, first, second, &mut replies)?;
    Ok((count_done(&replies), found.count().saturating_sub(1)))
}

// Cuts the session after each number of calls. All commands done are found, and at most the one in doubt besides.
fn check_cuts(alloc: Global, torn: Torn) -> Result<(), Fail> {
    for calls in 0..CALLS_OF_SESSION {
        let (done, found) = done_and_found(alloc, torn, calls)?;
        let is_right = done <= found && found <= done.saturating_add(1);
        check_row(&(torn, calls, done, found), is_right)?;
    }
    Ok(())
}

#[test]
fn what_was_answered_done_is_there_after_a_cut(rt: HostRuntime) -> Result<(), Fail> {
    for torn in [Torn::Old, Torn::New, Torn::Fill(0xa7)] {
        check_cuts(rt.alloc(), torn)?;
    }
    Ok(())
}

//! Tests of two sessions of a store, each cut off after a number of calls, possibly inside its opening.
use super::cuts::count_done;
use super::fixtures::{HERE, store_of};
use super::script::command;
use disk::Torn;
use lattice::Refusal;
use memory_store::{CutSession, run_two_sessions};
use std::alloc::Global;
use std::test::Fail;
use store::{Event, Reply};
use test_tiles::{V, check_found, check_row};

/// Commands for a store with the tile V, in a first session and in a second.
struct Row {
    shows: &'static str,
    first: &'static [&'static str],
    second: &'static [&'static str],
}

const ROWS: [Row; 2] = [
    Row {
        shows: "tiles come and go",
        first: &["import N00E001 $B", "remove N00E000"],
        second: &["import N00E000 $A"],
    },
    Row {
        shows: "a void is patched, and has a sink for a while",
        first: &["patch 1 1 1 1 4", "sink 1 1"],
        second: &["unsink 1 1"],
    },
];

// The numbers of calls that pass in a session: none, some of its opening, some of its commands, more than it makes.
const PASSES: [u64; 8] = [0, 3, 6, 8, 10, 13, 17, 40];

// What a cut leaves of an unsynced sector.
const TORN: [Torn; 3] = [Torn::Old, Torn::New, Torn::Fill(0xa7)];

fn events_of(alloc: Global, lines: &[&str]) -> Result<Vec<Event>, Fail> {
    let mut events = Vec::new(alloc);
    for line in lines {
        let event = Event::Do(command(alloc, line)?);
        events.push(event).map_err(|_| "no memory")?;
    }
    Ok(events)
}

// The number of commands in doubt.
fn count_doubted(replies: &[Reply]) -> u64 {
    let mut doubted: u64 = 0;
    for reply in replies {
        if *reply == Reply::Refused(Refusal::Device) {
            doubted = doubted.saturating_add(1);
        }
    }
    doubted
}

// The numbers of commands that the sessions answered Done and in doubt, and the number that the store has then. The
// command done before isn't counted.
fn cut_twice(
    alloc: Global,
    row: &Row,
    torn: Torn,
    (passes, passes_later): (u64, u64),
) -> Result<(u64, u64, u64), Fail> {
    let events = events_of(alloc, row.first)?;
    let first = CutSession {
        passes,
        events: &events,
        torn,
    };
    let later_events = events_of(alloc, row.second)?;
    let second = CutSession {
        passes: passes_later,
        events: &later_events,
        torn,
    };
    let disk = store_of(alloc, 2, &[(HERE, V)])?.into_disk();
    let mut replies = Vec::new(alloc);
    let count = run_two_sessions(alloc, disk, first, second, &mut replies)?.count();
    Ok((
        count_done(&replies),
        count_doubted(&replies),
        count.saturating_sub(1),
    ))
}

// Cuts both sessions off in each way: commands done are found, and at most those in doubt besides. With the most calls
// none fails, and all is done.
fn check_cut_off(alloc: Global, row: &Row) -> Result<(), Fail> {
    let mut all_done = 0;
    for way in 0..192_usize {
        let passes = (PASSES[way / 8 % 8], PASSES[way % 8]);
        let torn = TORN[way / 64 % 3];
        let (done, doubted, found) = cut_twice(alloc, row, torn, passes)?;
        let is_right = done <= found && found <= done.saturating_add(doubted);
        check_row(&(row.shows, torn, passes, done, found), is_right)?;
        all_done = done;
    }
    let asked = row.first.len().saturating_add(row.second.len());
    check_found(&row.shows, &all_done, &(asked as u64))?;
    Ok(())
}

#[test]
fn what_two_sessions_did_is_there_after_both(rt: HostRuntime) -> Result<(), Fail> {
    for row in &ROWS {
        check_cut_off(rt.alloc(), row)?;
    }
    Ok(())
}

//! Tests of calls of a store of either version, each repeated until it is answered. With ample memory none is refused.
//! `tests/scarce_calls` repeats the last two tests with each request for memory refused in turn.
use crate::asserting::assert_row;
use crate::good_images::{EAST, HERE, burn, import, wall};
use crate::stores::{
    Numbers, format, into_disk, is_stale, known, open, reopen, run, seams, upgrade,
};
use disk::{Disk, MemDisk};
use edits::Command;
use lattice::{Height, Point, Refusal};
use std::alloc::Global;
use std::test::Fail;
use store::{Event, Reply, Store};
use test_tiles::{A, V};
use water::Run;

const MIDDLE: Point = Point { y: 1, x: 1 };

const PIT: Point = Point { y: 0, x: 2 };

// Each query, in a store of A at N00E000, and its right answer.
fn questions() -> [Event; 6] {
    [
        Event::Elevation(PIT),
        Event::Fill(MIDDLE),
        Event::Direction(MIDDLE),
        Event::Trace(Point { y: 0, x: 0 }),
        Event::Watershed(PIT),
        Event::Export(HERE),
    ]
}

fn answers(alloc: Global) -> Result<[Reply; 6], Fail> {
    let path = Vec::from_slice(alloc, &[Point { y: 0, x: 0 }, MIDDLE, PIT])?;
    let runs = Vec::from_slice(alloc, &[line(2), line(1), line(0)])?;
    let bytes = Vec::from_slice(alloc, &A)?;
    Ok([
        Reply::Elevation(Height::At(5)),
        Reply::Fill(5),
        Reply::Direction(2),
        Reply::Trace(path),
        Reply::Watershed(runs),
        Reply::Export(bytes),
    ])
}

fn line(y: i32) -> Run {
    Run {
        y,
        first: 0,
        last: 2,
    }
}

// A step, each command and another step, with questions that list what they leave, and their replies.
fn changes(alloc: Global) -> Result<[Event; 12], Fail> {
    let importing = import(alloc, EAST, &V)?;
    let from = Point { y: 1, x: 3 };
    let (to, height) = (from, 4);
    Ok([
        Event::Step,
        Event::Do(Command::Sink { point: MIDDLE }),
        Event::Sinks,
        Event::Do(Command::Unsink { point: MIDDLE }),
        Event::Do(importing),
        Event::Do(Command::Patch { from, to, height }),
        Event::Do(wall(12, MIDDLE)),
        Event::Do(burn(1, PIT)),
        Event::Do(Command::Remove { corner: HERE }),
        Event::Tiles,
        Event::Reopen,
        Event::Step,
    ])
}

fn outcomes(alloc: Global) -> Result<[Reply; 12], Fail> {
    let sinks = Vec::from_slice(alloc, &[MIDDLE])?;
    let tiles = Vec::from_slice(alloc, &[EAST])?;
    Ok([
        Reply::Stepped(Some(HERE)),
        Reply::Done(2),
        Reply::Sinks(sinks),
        Reply::Done(3),
        Reply::Done(4),
        Reply::Done(5),
        Reply::Done(6),
        Reply::Done(7),
        Reply::Done(8),
        Reply::Tiles(tiles),
        Reply::Reopened,
        Reply::Stepped(Some(EAST)),
    ])
}

// Runs the events until they are answered rightly, a second time if memory was refused to the store or its disk.
// Answers whether it was. A refused run adds no reply. Events that change the store run one at a time.
fn ask<D: Disk>(
    alloc: Global,
    store: &mut Store<D>,
    events: &[Event],
    wanted: &[Reply],
) -> Result<bool, Fail> {
    let commits = known(store).commits;
    let mut replies = Vec::new(alloc);
    let is_refused = run(store, events, &mut replies).is_err();
    if replies.as_slice() == wanted {
        return Ok(false);
    }
    if replies.len() != (if is_refused { 0 } else { events.len() }) {
        return Err("replies of a refused run".into());
    }
    if replies.first() == Some(&Reply::Refused(Refusal::Device)) {
        open_again(store)?;
        if known(store).commits != commits {
            return Ok(true);
        }
    } else if !may_be_all(&replies, wanted) {
        return Err("another answer".into());
    }
    replies.clear();
    if run(store, events, &mut replies).is_err() {
        return Err("refused twice".into());
    }
    if replies.as_slice() == wanted {
        Ok(true)
    } else {
        Err("another answer when asked again".into())
    }
}

fn open_again<D: Disk>(store: &mut Store<D>) -> Result<(), Fail> {
    match reopen(store) {
        Ok(()) => Ok(()),
        Err(_) => Err("not reopened".into()),
    }
}

// Whether each reply is the right one, or NoMemory.
fn may_be_all(replies: &[Reply], wanted: &[Reply]) -> bool {
    for (reply, right) in replies.iter().zip(wanted) {
        if reply != right && *reply != Reply::Refused(Refusal::NoMemory) {
            return false;
        }
    }
    true
}

// Opens the disk, a second time if memory was refused. Answers whether it was.
fn opened<D: Disk + Drop>(alloc: Global, disk: D) -> Result<(Store<D>, bool), Fail> {
    match open(alloc, disk) {
        Ok(store) => Ok((store, false)),
        Err((Refusal::NoMemory | Refusal::Device, disk)) => {
            Ok((opened_or(alloc, disk, "not opened when asked again")?, true))
        }
        Err(_) => Err("refused otherwise".into()),
    }
}

fn opened_or<D: Disk + Drop>(
    alloc: Global,
    disk: D,
    reason: &'static str,
) -> Result<Store<D>, Fail> {
    match open(alloc, disk) {
        Ok(store) => Ok(store),
        Err(_) => Err(reason.into()),
    }
}

// Upgrades a store to the second version, a second time if memory was refused to it or to its disk. Answers whether it
// was.
fn upgraded<D: Disk>(store: &mut Store<D>) -> Result<bool, Fail> {
    if known(store).version == 2 {
        return Ok(false);
    }
    match upgrade(store) {
        Ok(()) => return Ok(false),
        Err(Refusal::NoMemory) => {}
        Err(Refusal::Device) => open_again(store)?,
        Err(_) => return Err("an upgrade is refused otherwise".into()),
    }
    if known(store).version == 1 && upgrade(store).is_err() {
        return Err("no upgrade when asked again".into());
    }
    Ok(true)
}

// A store of this version with A at N00E000, on a disk for two tiles in the second version.
fn store_of_a(alloc: Global, version: u32) -> Result<Store<MemDisk>, Fail> {
    with_a(
        alloc,
        opened_or(alloc, formatted_disk(alloc, version)?, NO_ROOM)?,
    )
}

fn with_a<D: Disk + Drop>(alloc: Global, store: Store<D>) -> Result<Store<D>, Fail> {
    let mut store = store;
    let has_imported = imports_a(alloc, &mut store);
    match has_imported {
        Ok(true) => Ok(store),
        Ok(false) => Err(NO_ROOM.into()),
        Err(fail) => Err(fail),
    }
}

/// The message if memory is refused before the first call under test.
const NO_ROOM: &str = "no room to begin";

fn formatted_disk(alloc: Global, version: u32) -> Result<MemDisk, Fail> {
    let mut disk = MemDisk::new(alloc, 34)?;
    if format(&mut disk, version, 3, 2).is_err() {
        return Err(NO_ROOM.into());
    }
    Ok(disk)
}

fn imports_a<D: Disk>(alloc: Global, store: &mut Store<D>) -> Result<bool, Fail> {
    let importing = import(alloc, HERE, &A)?;
    let mut replies = Vec::new(alloc);
    let is_run = run(store, &[Event::Do(importing)], &mut replies).is_ok();
    Ok(is_run && is_imported(&replies))
}

fn is_imported(replies: &[Reply]) -> bool {
    matches!(replies, [Reply::Done(1)])
}

// Runs the events in runs of this length. Answers in how many of them memory was refused.
fn ask_in_runs<D: Disk>(
    alloc: Global,
    store: &mut Store<D>,
    events: &[Event],
    wanted: &[Reply],
    size: usize,
) -> Result<u32, Fail> {
    let size = size.max(1);
    let mut refused: u32 = 0;
    for (run, replies) in events.chunks(size).zip(wanted.chunks(size)) {
        let again = ask(alloc, store, run, replies)?;
        refused = refused.saturating_add(u32::from(again));
    }
    Ok(refused)
}

// Asks the questions one by one and by threes, and for the seams. Answers how often memory was refused.
fn ask_questions<D: Disk>(
    alloc: Global,
    store: &mut Store<D>,
    answers: &[Reply],
) -> Result<u32, Fail> {
    let questions = questions();
    let one_by_one = ask_in_runs(alloc, store, &questions, answers, 1)?;
    let by_threes = ask_in_runs(alloc, store, &questions, answers, 3)?;
    if seams(store) != Ok(0) {
        return Err("other seams".into());
    }
    Ok(one_by_one.saturating_add(by_threes))
}

/// The events that change a store, its replies, and its answers before and after the first event, which is a step.
#[derive(Drop)]
struct Script {
    changes: [Event; 12],
    outcomes: [Reply; 12],
    answers: [Reply; 6],
}

// Takes all memory of the test here, before the first call under test.
fn whole_script(alloc: Global) -> Result<Script, Fail> {
    let answers = answers(alloc)?;
    let changes = changes(alloc)?;
    let outcomes = outcomes(alloc)?;
    Ok(Script {
        changes,
        outcomes,
        answers,
    })
}

// Asks a store everything, the questions before and after a step. Answers how often memory was refused.
fn ask_all<D: Disk>(alloc: Global, store: &mut Store<D>, script: &Script) -> Result<u32, Fail> {
    let (changes, outcomes) = (&script.changes[..], &script.outcomes[..]);
    let stale = ask_questions(alloc, store, &script.answers)?;
    let step = ask_in_runs(alloc, store, &changes[..1], &outcomes[..1], 1)?;
    let fresh = ask_questions(alloc, store, &script.answers)?;
    let changing = ask_in_runs(alloc, store, &changes[1..], &outcomes[1..], 1)?;
    let upgrade = u32::from(upgraded(store)?);
    let asking = stale.saturating_add(fresh);
    let changed = step.saturating_add(changing).saturating_add(upgrade);
    Ok(asking.saturating_add(changed))
}

fn follow_script<D: Disk>(alloc: Global, store: &mut Store<D>) -> Result<u32, Fail> {
    let script = whole_script(alloc)?;
    ask_all(alloc, store, &script)
}

// Asks a store of this version everything, and opens what is left. Answers how often memory was refused.
fn refusals(alloc: Global, version: u32) -> Result<u32, Fail> {
    let mut store = store_of_a(alloc, version)?;
    let asking = follow_script(alloc, &mut store);
    let disk = into_disk(store);
    let asking = asking?;
    let (again, numbers, is_stale) = left_on(alloc, disk)?;
    if numbers.count != 8 || numbers.version != 2 || is_stale {
        return Err("another store".into());
    }
    Ok(asking.saturating_add(u32::from(again)))
}

// Whether memory was refused when the disk was opened, the store's answers about itself, and whether its eastern tile
// is stale.
fn left_on<D: Disk + Drop>(alloc: Global, disk: D) -> Result<(bool, Numbers, bool), Fail> {
    let (store, again) = opened(alloc, disk)?;
    let numbers = known(&store);
    let is_stale = is_stale(&store, EAST);
    let _ = into_disk(store);
    Ok((again, numbers, is_stale))
}

#[test]
fn ample_memory_is_enough(rt: HostRuntime) -> Result<(), Fail> {
    for version in [1, 2] {
        let refused = refusals(rt.alloc(), version)?;
        assert_row(
            &rt,
            refused == 0,
            "refusals by version",
            &(version, refused),
        );
    }
    Ok(())
}

#[test]
fn opening_succeeds_with_ample_memory(rt: HostRuntime) -> Result<(), Fail> {
    for version in [1, 2] {
        let disk = into_disk(store_of_a(rt.alloc(), version)?);
        let (refused, numbers, _) = left_on(rt.alloc(), disk)?;
        let is_right = numbers.count == 1 && numbers.version == version;
        assert_row(
            &rt,
            !refused && is_right,
            "another opening by version",
            &version,
        );
    }
    Ok(())
}

#[test]
fn what_was_refused_is_answered_when_asked_again_by_the_first_version(
    rt: HostRuntime,
) -> Result<(), Fail> {
    let refused = refusals(rt.alloc(), 1)?;
    assert_row(&rt, refused < 2, "more refusals", &refused);
    Ok(())
}

#[test]
fn what_was_refused_is_answered_when_asked_again_by_the_second_version(
    rt: HostRuntime,
) -> Result<(), Fail> {
    let refused = refusals(rt.alloc(), 2)?;
    assert_row(&rt, refused < 2, "more refusals", &refused);
    Ok(())
}

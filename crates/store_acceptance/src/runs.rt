//! Tests of runs of events.
use super::fixtures::{HERE, at, import, opened, store_of};
use disk::{Disk, FaultOnceDisk};
use edits::Command;
use lattice::{Height, Refusal};
use memory_store::store_in_memory;
use std::alloc::Global;
use std::test::Fail;
use store::{Event, Reply, Store};
use test_tiles::{A, check_found};
use water::Run;

// The number of calls of opening a store of the first version with one tile: a sync, both gates, both roots and the
// record.
const CALLS_TO_OPEN: u64 = 6;

const FAILED: Reply = Reply::Refused(Refusal::Failed);

// The row of the tile at this y, as a run.
fn line(y: i32) -> Run {
    Run {
        y,
        first: 0,
        last: 2,
    }
}

fn importing(alloc: Global) -> Result<Event, Fail> {
    Ok(Event::Do(import(alloc, HERE, &A)?))
}

fn removal() -> Event {
    Event::Do(Command::Remove { corner: HERE })
}

// Runs these events on the store, and compares the replies.
fn check_run<D: Disk>(
    alloc: Global,
    store: &mut Store<D>,
    rows: Vec<(Event, Reply)>,
) -> Result<(), Fail> {
    let mut events = Vec::new(alloc);
    let mut expected = Vec::new(alloc);
    for (event, reply) in rows {
        events.push(event).map_err(|_| "no memory")?;
        expected.push(reply).map_err(|_| "no memory")?;
    }
    let mut out = Vec::new(alloc);
    store.run(&events, &mut out)?;
    check_found(&"a run", &out.as_slice(), &expected.as_slice())?;
    Ok(())
}

fn rows_of<const N: usize>(
    alloc: Global,
    rows: [(Event, Reply); N],
) -> Result<Vec<(Event, Reply)>, Fail> {
    Ok(Vec::from_array(alloc, rows).ok().ok_or("no memory")?)
}

// Every event, and the replies of a store with capacity one to them, in order.
fn every_event(alloc: Global) -> Result<Vec<(Event, Reply)>, Fail> {
    let path = vec![in alloc; at(0, 0), at(1, 1), at(0, 2)]?;
    let watershed = vec![in alloc; line(2), line(1), line(0)]?;
    let tiles = vec![in alloc; HERE]?;
    let file = Vec::from_slice(alloc, &A)?;
    let first = importing(alloc)?;
    let again = importing(alloc)?;
    let rows = [
        (Event::Count, Reply::Count(0)),
        (first, Reply::Done(1)),
        (again, Reply::Refused(Refusal::TileThere)),
        (Event::Elevation(at(0, 2)), Reply::Elevation(Height::At(5))),
        (Event::Fill(at(1, 1)), Reply::Fill(5)),
        (Event::Direction(at(1, 1)), Reply::Direction(2)),
        (Event::Trace(at(0, 0)), Reply::Trace(path)),
        (Event::Watershed(at(0, 2)), Reply::Watershed(watershed)),
        (Event::Export(HERE), Reply::Export(file)),
        (Event::Tiles, Reply::Tiles(tiles)),
        (Event::Sinks, Reply::Sinks(Vec::new(alloc))),
        (Event::Step, Reply::Stepped(Some(HERE))),
        (Event::Step, Reply::Stepped(None)),
        (Event::Reopen, Reply::Reopened),
        (Event::Count, Reply::Count(1)),
        (removal(), Reply::Done(2)),
        (Event::Export(HERE), Reply::Refused(Refusal::NoTile)),
        (Event::Fill(at(1, 1)), Reply::Refused(Refusal::Outside)),
        (Event::Count, Reply::Count(2)),
    ];
    rows_of(alloc, rows)
}

#[test]
fn every_event_of_a_run(rt: HostRuntime) -> Result<(), Fail> {
    let rows = every_event(rt.alloc())?;
    let mut store = store_in_memory(rt.alloc(), 22, 3, 1)?;
    check_run(rt.alloc(), &mut store, rows)
}

#[test]
fn replies_go_behind_what_is_there(rt: HostRuntime) -> Result<(), Fail> {
    let events = [importing(rt.alloc())?, Event::Count];
    let mut out = vec![in rt.alloc(); Reply::Reopened]?;
    let mut store = store_in_memory(rt.alloc(), 22, 3, 1)?;
    store.run(&events, &mut out)?;
    store.run(&[], &mut out)?;
    let expected = [Reply::Reopened, Reply::Done(1), Reply::Count(1)];
    check_found(&"a run", &out.as_slice(), &expected.as_slice())?;
    Ok(())
}

// The replies of a store with one tile from a fault on, until it is reopened.
fn after_a_fault(alloc: Global) -> Result<Vec<(Event, Reply)>, Fail> {
    let rows = [
        (Event::Elevation(at(0, 2)), Reply::Refused(Refusal::Device)),
        (Event::Elevation(at(0, 2)), FAILED),
        (Event::Fill(at(1, 1)), FAILED),
        (Event::Direction(at(1, 1)), FAILED),
        (Event::Trace(at(0, 0)), FAILED),
        (Event::Watershed(at(0, 2)), FAILED),
        (Event::Export(HERE), FAILED),
        (Event::Tiles, FAILED),
        (removal(), FAILED),
        (Event::Count, Reply::Count(1)),
        (Event::Reopen, Reply::Reopened),
        (Event::Elevation(at(0, 2)), Reply::Elevation(Height::At(5))),
        (removal(), Reply::Done(2)),
    ];
    rows_of(alloc, rows)
}

#[test]
fn a_fault_in_a_run(rt: HostRuntime) -> Result<(), Fail> {
    let rows = after_a_fault(rt.alloc())?;
    let disk = store_of(rt.alloc(), 1, &[(HERE, A)])?.into_disk();
    let mut store = opened(rt.alloc(), FaultOnceDisk::new(disk, CALLS_TO_OPEN))?;
    check_run(rt.alloc(), &mut store, rows)
}

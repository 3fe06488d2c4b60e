//! Tests of a table and a store side by side.
use crate::session::Session;
use disk::MemDisk;
use lattice::{Refusal, Side};
use memory_store::store_in_memory;
use std::alloc::Global;
use std::test::Fail;
use store::Store;
use table_engine::TableEngine;

/// The sectors of a store with four tiles of any side used here.
const SECTORS: u32 = 58;

/// The refusals of commands.
const REFUSALS: [Refusal; 15] = [
    Refusal::BadLength,
    Refusal::TileThere,
    Refusal::NoTile,
    Refusal::Full,
    Refusal::Outside,
    Refusal::Void,
    Refusal::NothingVoid,
    Refusal::BadHeight,
    Refusal::BadDepth,
    Refusal::BadBox,
    Refusal::Repeated,
    Refusal::TooDeep,
    Refusal::SinkThere,
    Refusal::SinksFull,
    Refusal::NoSink,
];

fn empty_store(alloc: Global, side: Side, capacity: u32) -> Result<Store<MemDisk>, Fail> {
    Ok(store_in_memory(alloc, SECTORS, side.samples(), capacity)?)
}

fn reopened(alloc: Global, store: Store<MemDisk>) -> Result<Store<MemDisk>, Fail> {
    match Store::open(alloc, store.into_disk()) {
        Ok(store) => Ok(store),
        Err(not_opened) => Err(not_opened.refusal.into()),
    }
}

/// Compares the answers of the store while some tiles are fresh and others stale.
fn query_stale(
    session: &mut Session,
    table: &mut TableEngine,
    store: &mut Store<MemDisk>,
) -> Result<(), Fail> {
    session.run(8, table, store)?;
    session.step(1, store)?;
    session.check_points(store)?;
    session.run(4, table, store)?;
    session.check_points(store)
}

/// Compares the answers of the table and of the store after all their tiles are fresh.
fn query_fresh(
    session: &mut Session,
    table: &mut TableEngine,
    store: &mut Store<MemDisk>,
) -> Result<(), Fail> {
    session.step(session.capacity(), table)?;
    session.run(4, table, store)?;
    session.check_points(table)?;
    session.step(session.capacity(), store)?;
    session.check_points(store)
}

/// Compares all queries of a table and of a store that is reopened twice.
fn query_engines(
    alloc: Global,
    side: Side,
    session: &mut Session,
    table: &mut TableEngine,
) -> Result<(), Fail> {
    let mut stale = empty_store(alloc, side, session.capacity())?;
    query_stale(session, table, &mut stale)?;
    let mut fresh = reopened(alloc, stale)?;
    query_fresh(session, table, &mut fresh)?;
    session.check_points(&mut reopened(alloc, fresh)?)
}

/// A session in which all queries are compared: of the store while some tiles are fresh and others stale, also after a
/// reopening; of the table; and of the store with all tiles fresh.
fn query(alloc: Global, seed: u64, side: Side, capacity: u32) -> Result<(), Fail> {
    let mut session = Session::new(alloc, seed, side, capacity)?;
    let mut table = TableEngine::new(alloc, side, capacity);
    query_engines(alloc, side, &mut session, &mut table)
}

fn query_many(alloc: Global, samples: u32, capacity: u32, sessions: u64) -> Result<(), Fail> {
    let side = Side::new(samples).ok_or("no such side")?;
    for seed in 0..sessions {
        query(alloc, seed, side, capacity)?;
    }
    Ok(())
}

#[test]
fn queries_of_one_tile(rt: HostRuntime) -> Result<(), Fail> {
    query_many(rt.alloc(), 3, 1, 40)?;
    query_many(rt.alloc(), 4, 1, 20)?;
    query_many(rt.alloc(), 5, 1, 6)
}

#[test]
fn queries_of_two_tiles(rt: HostRuntime) -> Result<(), Fail> {
    query_many(rt.alloc(), 3, 2, 12)?;
    query_many(rt.alloc(), 4, 2, 4)
}

#[test]
fn queries_of_four_tiles(rt: HostRuntime) -> Result<(), Fail> {
    query_many(rt.alloc(), 3, 4, 4)
}

/// Runs commands on a table and on a store, and compares their contents.
fn edit_both(
    session: &mut Session,
    table: &mut TableEngine,
    store: &mut Store<MemDisk>,
) -> Result<(), Fail> {
    session.run(10, table, store)?;
    session.check_contents(table)?;
    session.check_contents(store)
}

/// Runs commands on both several times, and at the end on the reopened store.
fn edit_engines(
    alloc: Global,
    side: Side,
    session: &mut Session,
    table: &mut TableEngine,
) -> Result<(), Fail> {
    let mut store = empty_store(alloc, side, session.capacity())?;
    for _ in 0..4_u32 {
        edit_both(session, table, &mut store)?;
    }
    session.check_contents(&mut reopened(alloc, store)?)
}

/// A session in which commands and contents are compared. Appends the refusals of commands.
fn edit(seed: u64, side: Side, capacity: u32, refusals: &mut Vec<Refusal>) -> Result<(), Fail> {
    let alloc = *refusals.allocator();
    let mut session = Session::new(alloc, seed, side, capacity)?;
    let mut table = TableEngine::new(alloc, side, capacity);
    edit_engines(alloc, side, &mut session, &mut table)?;
    refusals.extend_from_slice(session.refusals())?;
    Ok(())
}

fn edit_many(samples: u32, capacity: u32, refusals: &mut Vec<Refusal>) -> Result<(), Fail> {
    let side = Side::new(samples).ok_or("no such side")?;
    for seed in 0..50_u64 {
        edit(seed, side, capacity, refusals)?;
    }
    Ok(())
}

#[test]
fn commands_and_their_refusals(rt: HostRuntime) -> Result<(), Fail> {
    let mut refusals = Vec::new(rt.alloc());
    for capacity in 1..5_u32 {
        edit_many(3, capacity, &mut refusals)?;
        edit_many(4, capacity, &mut refusals)?;
    }
    for refusal in REFUSALS {
        let count = refusals.iter().filter(|came| **came == refusal).count();
        assert_ne!(rt; count, 0, "{refusal} never came");
    }
    Ok(())
}

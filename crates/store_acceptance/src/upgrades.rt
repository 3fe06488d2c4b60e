//! Tests of the upgrade of a store of side 3 to the second version.
use super::fixtures::{HERE, at, exports, import, opened, sink, store_of_version_1};
use disk::MemDisk;
use lattice::Refusal;
use std::alloc::Global;
use std::test::Fail;
use store::Store;
use test_tiles::{A, check_found};

// Version, commands and commits after an import, a sink and a step, before the upgrade.
const BEFORE: (u32, u64, u64) = (1, 2, 4);

const AFTER: (u32, u64, u64) = (2, 2, 5);

// A store of the first version with one fresh tile and a sink, on a disk with this many sectors.
fn one_tile(alloc: Global, sectors: u32) -> Result<Store<MemDisk>, Fail> {
    let mut store = store_of_version_1(alloc, sectors, 3, 1)?;
    add_all(alloc, &mut store)?;
    Ok(store)
}

fn add_all(alloc: Global, store: &mut Store<MemDisk>) -> Result<(), Fail> {
    store.apply(&import(alloc, HERE, &A)?)?;
    store.apply(&sink(at(1, 1)))?;
    store.step()?;
    Ok(())
}

// Whether the store has the tile, the sink and the tile's kept planes.
fn has_all(store: &mut Store<MemDisk>) -> Result<bool, Fail> {
    Ok(
        exports(store, HERE, &A)?
            && store.sinks()?.as_slice() == [at(1, 1)].as_slice()
            && !store.stale(HERE)
            && store.fill(at(1, 1)) == Ok(1),
    )
}

fn numbers(store: &Store<MemDisk>) -> (u32, u64, u64) {
    (store.version(), store.count(), store.commits())
}

#[test]
fn an_upgrade_needs_room(rt: HostRuntime) -> Result<(), Fail> {
    let mut store = one_tile(rt.alloc(), 16)?;
    check_found(&"an upgrade", &store.upgrade(), &Err(Refusal::TooSmall))?;
    check_found(&"numbers", &numbers(&store), &BEFORE)?;
    Ok(())
}

#[test]
fn an_upgrade_is_made_once(rt: HostRuntime) -> Result<(), Fail> {
    let mut store = one_tile(rt.alloc(), 22)?;
    check_found(&"an upgrade", &store.upgrade(), &Ok(()))?;
    check_found(&"numbers", &numbers(&store), &AFTER)?;
    check_found(&"a second one", &store.upgrade(), &Err(Refusal::NotOld))?;
    let mut again = opened(rt.alloc(), store.into_disk())?;
    check_found(&"numbers once opened again", &numbers(&again), &AFTER)?;
    assert!(rt; has_all(&mut again)?);
    Ok(())
}

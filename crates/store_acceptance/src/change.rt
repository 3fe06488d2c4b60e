//! Changes that tests stop: a store, and a change of it. A change is written as a line, or as `upgrade`.
use super::fixtures::{empty_store, sectors_for, store_of_version_1};
use super::script::command;
use disk::{Disk, MemDisk};
use lattice::Refusal;
use std::alloc::Global;
use std::test::Fail;
use store::Store;

/// The store's capacity, the changes made before, and the change.
pub(crate) type Row = (u32, &'static [&'static str], &'static str);

pub(crate) const ONE_TILE: [&str; 1] = ["import N00E000 $A"];

pub(crate) const ONE_SINK: [&str; 2] = ["import N00E000 $A", "sink 1 1"];

const ONE_FRESH: [&str; 3] = ["import N00E000 $A", "sink 1 1", "step"];

// The two tiles meet at the meridian of 1° east, which crosses their middle rows.
const TWO_TILES: [&str; 2] = ["import N00E000 $V", "import N00E001 $H"];

const FIRST_FRESH: [&str; 3] = ["import N00E000 $V", "import N00E001 $H", "step"];

const BOTH_FRESH: [&str; 4] = ["import N00E000 $V", "import N00E001 $H", "step", "step"];

/// Changes that stores of either version accept.
pub(crate) const CHANGES: [Row; 19] = [
    (2, &ONE_TILE, "import N00E001 $B"),
    (2, &ONE_TILE, "sink 1 1"),
    (2, &ONE_TILE, "step"),
    (4, &TWO_TILES, "import N01E000 $A"),
    (4, &TWO_TILES, "remove N00E000"),
    (4, &TWO_TILES, "patch 1 1 1 1 4"),
    (4, &TWO_TILES, "burn 2 1 2"),
    (4, &TWO_TILES, "wall 12 1 2"),
    (4, &TWO_TILES, "sink 1 2"),
    (4, &BOTH_FRESH, "import N01E000 $A"),
    (4, &BOTH_FRESH, "remove N00E000"),
    (4, &BOTH_FRESH, "patch 1 1 1 1 4"),
    (4, &BOTH_FRESH, "burn 2 1 2"),
    (4, &BOTH_FRESH, "wall 12 1 2"),
    (4, &BOTH_FRESH, "sink 1 2"),
    (1, &ONE_FRESH, "unsink 1 1"),
    (1, &ONE_SINK, "step"),
    (4, &TWO_TILES, "step"),
    (4, &FIRST_FRESH, "step"),
];

/// Upgrades of stores of the first version.
pub(crate) const UPGRADES: [Row; 6] = [
    (1, &[], "upgrade"),
    (2, &ONE_TILE, "upgrade"),
    (1, &ONE_FRESH, "upgrade"),
    (2, &TWO_TILES, "upgrade"),
    (2, &FIRST_FRESH, "upgrade"),
    (4, &BOTH_FRESH, "upgrade"),
];

/// Makes the change. Answers the refusal, if it is refused.
pub(crate) fn make<D: Disk>(
    alloc: Global,
    store: &mut Store<D>,
    change: &str,
) -> Result<Option<Refusal>, Fail> {
    match change.as_bytes() {
        b"step" => Ok(store.step().err()),
        b"upgrade" => Ok(store.upgrade().err()),
        _ => Ok(store.apply(&command(alloc, change)?).err()),
    }
}

/// The disk of a store of side 3 in this version, after the changes that come before the tested one. It is the smallest
/// for the store, or for its upgrade if the tested change is one.
pub(crate) fn prepared_disk(alloc: Global, version: u32, row: Row) -> Result<MemDisk, Fail> {
    let (capacity, prepared, change) = row;
    let mut store = if version == 1 && change == "upgrade" {
        store_of_version_1(alloc, sectors_for(2, capacity), 3, capacity)?
    } else {
        empty_store(alloc, version, capacity)?
    };
    make_all(alloc, &mut store, prepared)?;
    Ok(store.into_disk())
}

fn make_all(alloc: Global, store: &mut Store<MemDisk>, changes: &[&str]) -> Result<(), Fail> {
    for change in changes {
        if let Some(refusal) = make(alloc, store, change)? {
            return Err(refusal.into());
        }
    }
    Ok(())
}

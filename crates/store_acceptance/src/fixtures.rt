//! Stores of tiles of side 3, and commands on them, for tests.
use disk::{Disk, MemDisk};
use edits::{Bytes, Command};
use lattice::{Corner, Point};
use memory_store::store_in_memory;
use std::alloc::Global;
use std::test::Fail;
use store::Store;

pub(crate) const HERE: Corner = Corner { lat: 0, lon: 0 };

pub(crate) const EAST: Corner = Corner { lat: 0, lon: 1 };

pub(crate) fn at(y: i32, x: i32) -> Point {
    Point { y, x }
}

pub(crate) fn import(alloc: Global, corner: Corner, bytes: &[u8]) -> Result<Command, Fail> {
    let bytes = Bytes::new(Vec::from_slice(alloc, bytes)?);
    Ok(Command::Import { corner, bytes })
}

pub(crate) fn sink(point: Point) -> Command {
    Command::Sink { point }
}

/// An empty store of the first version on a new disk in memory.
pub(crate) fn store_of_version_1(
    alloc: Global,
    sectors: u32,
    side: u32,
    capacity: u32,
) -> Result<Store<MemDisk>, Fail> {
    let mut disk = MemDisk::new(alloc, sectors)?;
    Store::format_1(&mut disk, side, capacity)?;
    opened(alloc, disk)
}

/// The number of sectors of a store in this version with this capacity, for tiles of side 3: two roots and two gates;
/// then a record, a page and, in the second version, an index page, for each of four planes a tile and for two more
/// planes.
pub(crate) fn sectors_for(version: u32, capacity: u32) -> u32 {
    let pages: u32 = if version == 1 { 2 } else { 3 };
    let planes = capacity.saturating_mul(4).saturating_add(2);
    planes.saturating_mul(pages).saturating_add(4)
}

/// An empty store in this version with this capacity, for tiles of side 3, on the smallest disk.
pub(crate) fn empty_store(
    alloc: Global,
    version: u32,
    capacity: u32,
) -> Result<Store<MemDisk>, Fail> {
    let sectors = sectors_for(version, capacity);
    if version == 1 {
        store_of_version_1(alloc, sectors, 3, capacity)
    } else {
        Ok(store_in_memory(alloc, sectors, 3, capacity)?)
    }
}

/// A store of the first version with this capacity and these tiles, on the smallest disk.
pub(crate) fn store_of(
    alloc: Global,
    capacity: u32,
    tiles: &[(Corner, [u8; 18])],
) -> Result<Store<MemDisk>, Fail> {
    let mut store = empty_store(alloc, 1, capacity)?;
    for (corner, bytes) in tiles {
        store.apply(&import(alloc, *corner, bytes)?)?;
    }
    Ok(store)
}

pub(crate) fn opened<D: Disk + Drop>(alloc: Global, disk: D) -> Result<Store<D>, Fail> {
    match Store::open(alloc, disk) {
        Ok(store) => Ok(store),
        Err(not_opened) => Err(not_opened.refusal.into()),
    }
}

pub(crate) fn exports<D: Disk>(
    store: &mut Store<D>,
    corner: Corner,
    bytes: &[u8],
) -> Result<bool, Fail> {
    Ok(store.export(corner)?.as_slice() == bytes)
}

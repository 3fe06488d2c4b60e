//! Tests with tiles of 1201 by 1201 samples, and with one of 3601 by 3601.
use super::fixtures::{EAST, HERE, at, exports, import, opened};
use super::writes::make_counted;
use disk::{Disk, MemDisk};
use lattice::{Corner, Height};
use memory_store::store_in_memory;
use std::alloc::Global;
use std::ops::Range;
use std::test::Fail;
use store::Store;
use test_tiles::check_found;

// The number of sectors of a store with two tiles of 1201 x 1201 samples.
const SECTORS: u32 = 7074;

const FILE_BYTES: u32 = 2_884_802;

// The bytes of a tile; tiles with different shifts differ.
fn tile(alloc: Global, shift: u32) -> Result<Vec<u8>, Fail> {
    let mut bytes = Vec::new(alloc);
    for i in 0..FILE_BYTES {
        bytes.push((i.wrapping_add(shift) % 251) as u8)?;
    }
    Ok(bytes)
}

fn comes_back(
    alloc: Global,
    store: &mut Store<MemDisk>,
    corner: Corner,
    shift: u32,
) -> Result<bool, Fail> {
    Ok(store.export(corner)?.as_slice() == tile(alloc, shift)?.as_slice())
}

fn two_neighbours(alloc: Global) -> Result<MemDisk, Fail> {
    let mut store = store_in_memory(alloc, SECTORS, 1201, 2)?;
    store.apply(&import(alloc, HERE, &tile(alloc, 0)?)?)?;
    store.apply(&import(alloc, EAST, &tile(alloc, 7)?)?)?;
    Ok(store.into_disk())
}

#[test]
fn two_neighbours_come_back_byte_for_byte(rt: HostRuntime) -> Result<(), Fail> {
    let mut store = opened(rt.alloc(), two_neighbours(rt.alloc())?)?;
    let first = comes_back(rt.alloc(), &mut store, HERE, 0)?;
    let second = comes_back(rt.alloc(), &mut store, EAST, 7)?;
    assert!(rt; first && second);
    Ok(())
}

// Imports the tile into the store of this disk. Answers the disk, and the number of writes.
fn import_counted(alloc: Global, disk: MemDisk, bytes: &[u8]) -> Result<(MemDisk, u64), Fail> {
    let before = disk.writes();
    let mut store = opened(alloc, disk)?;
    store.apply(&import(alloc, HERE, bytes)?)?;
    let disk = store.into_disk();
    let writes = disk.writes().saturating_sub(before);
    Ok((disk, writes))
}

// The number of these sectors that begin with the tile's last bytes and have zeros after them.
fn last_pages(
    disk: &mut MemDisk,
    sectors: Range<u32>,
    tile: &[u8],
    used: usize,
) -> Result<u32, Fail> {
    let end = tile.get(tile.len().saturating_sub(used)..).unwrap_or(&[]);
    let mut page = [0; 4096];
    for (byte, given) in page.iter_mut().zip(end) {
        *byte = *given;
    }
    let mut count = 0u32;
    let mut found = [0; 4096];
    for sector in sectors {
        if sector < disk.sectors() {
            disk.read(sector, &mut found)?;
        }
        count = count.saturating_add(u32::from(found == page));
    }
    Ok(count)
}

#[test]
fn a_tile_of_the_first_version_is_written_once(rt: HostRuntime) -> Result<(), Fail> {
    let alloc = rt.alloc();
    let mut disk = MemDisk::new(alloc, 4240)?;
    Store::format_1(&mut disk, 1201, 1)?;
    let bytes = tile(alloc, 0)?;
    let (mut disk, writes) = import_counted(alloc, disk, &bytes)?;
    check_found(&"an import", &writes, &708)?;
    check_found(
        &"last pages",
        &last_pages(&mut disk, 0..4240, &bytes, 1218)?,
        &1,
    )?;
    make_counted(alloc, disk, &[("burn 1 600 600", 5)])?;
    Ok(())
}

// The number of samples along an edge of the largest tiles, and of sectors of a store with one of them.
const LARGEST_SIDE: u32 = 3601;

const LARGEST_SECTORS: u32 = 38_044;

// The index of the sample in the middle.
const PIT: u32 = 1800 * LARGEST_SIDE + 1800;

// The bytes of a tile that falls to the north by 4 a row, each row with heights up to 3 above its lowest, except for a
// pit of this height in the middle.
fn slope(alloc: Global, pit: i16) -> Result<Vec<u8>, Fail> {
    let mut bytes = Vec::new(alloc);
    for i in 0..LARGEST_SIDE * LARGEST_SIDE {
        let row = i / LARGEST_SIDE;
        let height = row.wrapping_mul(4).wrapping_add(i % 4);
        let sample = if i == PIT { pit } else { height as i16 };
        bytes.extend_from_slice(&sample.to_be_bytes())?;
    }
    Ok(bytes)
}

#[test]
fn the_largest_tile_comes_back_is_burnt_and_kept_filled(rt: HostRuntime) -> Result<(), Fail> {
    let alloc = rt.alloc();
    let disk = store_in_memory(alloc, LARGEST_SECTORS, LARGEST_SIDE, 1)?.into_disk();
    let bytes = slope(alloc, 0)?;
    let (mut disk, writes) = import_counted(alloc, disk, &bytes)?;
    check_found(&"an import", &writes, &6342)?;
    check_found(
        &"last pages",
        &last_pages(&mut disk, 6300..6400, &bytes, 2626)?,
        &1,
    )?;
    let mut store = opened(alloc, disk)?;
    // The last sample is on the last page.
    let is_back = exports(&mut store, HERE, &bytes)?
        && store.elevation(at(0, 3600)) == Ok(Height::At(14_400));
    assert!(rt; is_back);
    let rows = [("burn 1 1800 1800", 6), ("step", 12_683)];
    let disk = make_counted(alloc, store.into_disk(), &rows)?;
    assert!(rt; is_burnt_and_filled(alloc, disk)?);
    Ok(())
}

// Whether the kept planes of the burnt tile are there: its pit is filled up to the lowest point of the row above.
fn is_burnt_and_filled(alloc: Global, disk: MemDisk) -> Result<bool, Fail> {
    let bytes = slope(alloc, -1)?;
    let mut store = opened(alloc, disk)?;
    Ok(
        !store.stale(HERE)
            && store.fill(at(1800, 1800)) == Ok(4 * 1799)
            && exports(&mut store, HERE, &bytes)?,
    )
}

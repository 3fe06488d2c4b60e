//! The examples of root comments about a store on a disk, as tests of their results.
use cow_tree::Tree;
use derived::{stale, step};
use disk::Disk;
use image_disk::ImageDisk;
use memory_store::store_in_memory;
use std::alloc::Global;
use std::test::Fail;
use store::{ArrayVec, Bytes, Command, Corner, Format, MemDisk, Point, Refusal, Store, Version};
use test_tiles::A;
use windows::{Each, Level, Question, Window};

// Imports a tile with a pit, asks for its level, and burns in a stream that drains it, with names of `store` alone.
fn levels_of_a_pit(alloc: Global) -> Result<(i16, i16), Refusal> {
    let corner = Corner::new(0, 0).ok_or(Refusal::BadName)?;
    let bytes = Bytes::new(Vec::from_slice(alloc, &A)?);
    let format = Format::new(Version::Two, 3, 4)?;
    let mut disk = MemDisk::new(alloc, format.sectors())?;
    Store::format(&mut disk, 3, 4)?;
    let mut store = Store::open(alloc, disk)?;
    let count = store.apply(&Command::Import { corner, bytes })?;
    let level = store.fill(Point { y: 1, x: 1 })?;
    let mut points = ArrayVec::new();
    points.push(Point { y: 0, x: 2 });
    store.apply(&Command::Burn { depth: 3, points })?;
    store.reopen()?;
    match (count, store.count()) {
        (1, 2) => Ok((level, store.fill(Point { y: 1, x: 1 })?)),
        _ => Err(Refusal::Damaged),
    }
}

#[test]
fn a_store(rt: HostRuntime) -> Result<(), Fail> {
    assert!(rt; levels_of_a_pit(rt.alloc())? == (5, 2));
    Ok(())
}

#[test]
fn a_store_in_memory(rt: HostRuntime) -> Result<(), Fail> {
    let alloc = rt.alloc();
    let mut store = store_in_memory(alloc, 24, 3, 1)?;
    assert!(rt; store.tiles()?.is_empty() && store.step()? == None);
    Ok(())
}

#[test]
fn a_tile_that_is_stepped(rt: HostRuntime) -> Result<(), Fail> {
    let alloc = rt.alloc();
    let corner = Corner::default();
    let mut store = store_in_memory(alloc, 24, 3, 1)?;
    let bytes = Bytes::new(Vec::from_slice(alloc, &A)?);
    store.apply(&Command::Import { corner, bytes })?;
    let mut tree = Tree::open(alloc, store.into_disk())?;
    let stepped = step(alloc, &mut tree, None, None)?;
    let fresh = !stale(&tree, corner);
    assert!(rt; stepped == Some(corner) && fresh);
    Ok(())
}

// The bytes of the disk of a store with a pit.
fn image_of_a_pit(alloc: Global) -> Result<Vec<u8>, Fail> {
    let mut store = store_in_memory(alloc, 24, 3, 1)?;
    let corner = Corner::default();
    let bytes = Bytes::new(Vec::from_slice(alloc, &A)?);
    store.apply(&Command::Import { corner, bytes })?;
    let mut disk = store.into_disk();
    let mut image = Vec::new(alloc);
    let mut sector = [0; 4096];
    for s in 0..disk.sectors() {
        if s < disk.sectors() {
            disk.read(s, &mut sector)?;
            image.extend_from_slice(&sector)?;
        }
    }
    Ok(image)
}

#[test]
fn a_window_of_an_image(rt: HostRuntime) -> Result<(), Fail> {
    let alloc = rt.alloc();
    let image = image_of_a_pit(alloc)?;
    let mut sector = [7; 4096];
    let mut disk = ImageDisk::new(&image);
    assert_eq!(rt; disk.sectors(), 24);
    disk.read(1, &mut sector)?;
    assert!(rt; sector != [7; 4096]);
    let mut engine = Store::open(alloc, disk)?;
    let mut values = [7; 9];
    let window = Window {
        north: 2,
        west: 0,
        rows: 3,
        columns: 3,
    };
    Each(Level, window).ask(&mut engine, &mut values)?;
    assert!(rt; values == [9, 9, 9, 9, 5, 9, 9, 9, 5]);
    Ok(())
}

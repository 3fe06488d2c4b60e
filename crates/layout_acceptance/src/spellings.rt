//! Tests of the bytes of roots, entries, sinks, records and index pages, with spellings worked by hand.
use arrayvec::ArrayVec;
use lattice::{Corner, Point, Refusal, Side};
use page_codec::*;
use std::test::Fail;
use test_tiles::{check_all, check_found};

fn format_1(side: u32, capacity: u32) -> Result<Format, Refusal> {
    Format::new(Version::One, side, capacity)
}

fn page_of(front: &[u8]) -> [u8; PAGE_BYTES] {
    let mut page = [0; PAGE_BYTES];
    for (byte, given) in page.iter_mut().zip(front) {
        *byte = *given;
    }
    page
}

// The first 64 bytes of the root of a new store with side 3 and capacity 1.
const FORMATTED: [u8; 64] = [
    0x4d, 0x4f, 0x53, 0x41, 0x49, 0x43, 0x53, 0x54, 1, 0, 0, 0, 3, 0, 0, 0, 1, 0, 0, 0, 0, 0, 0, 0,
    1, 0, 0, 0, 0, 0, 0, 0, 0, 0, 0, 0, 0, 0, 0, 0, 0, 0, 0, 0, 0, 0, 0, 0, 0, 0, 0, 0, 0, 0, 0, 0,
    0, 0, 0, 0, 0, 0, 0, 0,
];

// The entry of S01W001 with its heights recorded in page 5 and no kept planes.
const STALE: [u8; ENTRY_BYTES] = [0xff, 0xff, 0xff, 0xff, 5, 0, 0, 0, 0, 0, 0, 0, 0, 0, 0, 0];

// The root of commit 2, after 1 command: side 3, capacity 1, and N00E000 with its heights recorded in page 5.
const ONE_TILE: [u8; 80] = [
    0x4d, 0x4f, 0x53, 0x41, 0x49, 0x43, 0x53, 0x54, 1, 0, 0, 0, 3, 0, 0, 0, 1, 0, 0, 0, 1, 0, 0, 0,
    2, 0, 0, 0, 0, 0, 0, 0, 1, 0, 0, 0, 0, 0, 0, 0, 0, 0, 0, 0, 0, 0, 0, 0, 0, 0, 0, 0, 0, 0, 0, 0,
    0, 0, 0, 0, 0, 0, 0, 0, 0, 0, 0, 0, 5, 0, 0, 0, 0, 0, 0, 0, 0, 0, 0, 0,
];

#[test]
fn a_new_store(rt: HostRuntime) -> Result<(), Fail> {
    let root = Root::empty(Format::first(Side::new(3).ok_or("no side")?, 1));
    let read = Root::read(&page_of(&FORMATTED))?;
    let all = [
        root.write() == page_of(&FORMATTED),
        read.format() == format_1(3, 1)?,
        read.number() == 1,
        read.count() == 0,
        read.sinks().is_empty(),
        read.entries().is_empty(),
    ];
    check_all("a new store", &all)?;
    Ok(())
}

#[test]
fn a_stale_tile(rt: HostRuntime) -> Result<(), Fail> {
    let corner = Corner::new(-1, -1).ok_or("no corner")?;
    let entry = Entry {
        corner,
        heights: 5,
        kept: None,
    };
    assert!(rt; entry.write() == STALE && Entry::read(&STALE) == Ok(entry));
    Ok(())
}

#[test]
fn a_tile_with_kept_planes(rt: HostRuntime) -> Result<(), Fail> {
    let corner = Corner::new(89, -180).ok_or("no corner")?;
    let kept = Kept {
        levels: 6,
        labels: 0x0102_0304,
    };
    let entry = Entry {
        corner,
        heights: 5,
        kept: Some(kept),
    };
    let bytes = [89, 0, 0x4c, 0xff, 5, 0, 0, 0, 6, 0, 0, 0, 4, 3, 2, 1];
    assert!(rt; entry.write() == bytes && Entry::read(&bytes) == Ok(entry));
    Ok(())
}

#[test]
fn the_next_root(rt: HostRuntime) -> Result<(), Fail> {
    let corner = Corner::new(0, 0).ok_or("no corner")?;
    let entry = Entry {
        corner,
        heights: 5,
        kept: None,
    };
    let mut entries = ArrayVec::new();
    entries.push(entry);
    let root = Root::empty(Format::first(Side::new(3).ok_or("no side")?, 1)).next(1, entries);
    let read = Root::read(&page_of(&ONE_TILE))?;
    let all = [
        root.write() == page_of(&ONE_TILE),
        read.number() == 2,
        read.count() == 1,
        read.entries() == [entry].as_slice(),
    ];
    check_all("the next root", &all)?;
    Ok(())
}

// The greatest commit number, 2^64 - 1.
#[test]
fn a_worn_root(rt: HostRuntime) -> Result<(), Fail> {
    let mut page = page_of(&ONE_TILE);
    for byte in &mut page[24..32] {
        *byte = 0xff;
    }
    let root = Root::read(&page)?;
    assert!(rt; root.number() == u64::MAX && root.count() == 1 && root.write() == page);
    Ok(())
}

#[test]
fn records(rt: HostRuntime) -> Result<(), Fail> {
    let page = page_of(&[7, 0, 0, 0, 4, 3, 2, 1]);
    let mut behind = page;
    behind[4095] = 1;
    let record = Record::read(&page, 2).ok().ok_or("not read")?;
    let longer = Record::read(&page, 1024).ok().ok_or("not read")?;
    let all = [
        record.pages.as_slice() == [7, 0x0102_0304].as_slice(),
        record.write() == page,
        Record::read(&page, 1).err() == Some(Damaged::Rule),
        longer.pages.len() == 1024,
        Record::read(&behind, 2).err() == Some(Damaged::Rule),
    ];
    check_all("a record", &all)?;
    Ok(())
}

#[test]
fn index_pages(rt: HostRuntime) -> Result<(), Fail> {
    let page = page_of(&[7, 0, 0, 0, 4, 3, 2, 1]);
    let mut behind = page;
    behind[8] = 1;
    let index = IndexPage::read(&page, 2)?;
    let all = [
        index.pages.as_slice() == [7, 0x0102_0304].as_slice(),
        index.write() == page,
        IndexPage::read(&behind, 2).err() == Some(Damaged::Rule),
    ];
    check_all("an index page", &all)?;
    Ok(())
}

// The new store above with two sinks, at y = -1, x = 258 and at y = 1, x = 1, after one command.
fn two_sinks() -> [u8; PAGE_BYTES] {
    let mut page = page_of(&FORMATTED);
    page[24] = 2;
    page[32] = 1;
    page[40] = 2;
    let sinks = [0xff, 0xff, 0xff, 0xff, 2, 1, 0, 0, 1, 0, 0, 0, 1, 0, 0, 0];
    for (byte, given) in page.iter_mut().skip(3904).zip(&sinks) {
        *byte = *given;
    }
    page
}

#[test]
fn sinks(rt: HostRuntime) -> Result<(), Fail> {
    let first = Point { y: -1, x: 258 };
    let second = Point { y: 1, x: 1 };
    let root = Root::read(&two_sinks())?;
    assert!(rt; root.sinks() == [first, second].as_slice() && root.write() == two_sinks());
    Ok(())
}

#[test]
fn formats(rt: HostRuntime) -> Result<(), Fail> {
    for (version, side, capacity, refusal) in [
        (Version::One, 2, 0, Some(Refusal::BadSide)),
        (Version::One, 1202, 1, Some(Refusal::BadSide)),
        (Version::One, 1201, 241, Some(Refusal::BadCapacity)),
        (Version::One, 1201, 240, None),
        (Version::Two, 3602, 1, Some(Refusal::BadSide)),
        (Version::Two, 3601, 0, Some(Refusal::BadCapacity)),
        (Version::Two, 1202, 1, None),
    ] {
        let made = Format::new(version, side, capacity);
        check_found(&(version, side, capacity), &made.err(), &refusal)?;
    }
    Ok(())
}

// Version, side, capacity, index pages and pages of a plane, sectors of a store.
const SIZES: [(Version, u32, u32, u32, u32, u32); 10] = [
    (Version::One, 3, 1, 0, 1, 16),
    (Version::One, 3, 2, 0, 1, 24),
    (Version::One, 3, 240, 0, 1, 1928),
    (Version::One, 1201, 1, 0, 705, 4240),
    (Version::One, 1201, 240, 0, 705, 679_176),
    (Version::Two, 3, 1, 1, 1, 22),
    (Version::Two, 3, 2, 1, 1, 34),
    (Version::Two, 1201, 1, 1, 705, 4246),
    (Version::Two, 3601, 1, 7, 6332, 38_044),
    (Version::Two, 3601, 240, 7, 6332, 6_099_084),
];

#[test]
fn sizes(rt: HostRuntime) -> Result<(), Fail> {
    for (version, side, capacity, index, data, sectors) in SIZES {
        let format = Format::new(version, side, capacity)?;
        let found = (format.index_pages(), format.data_pages(), format.sectors());
        check_found(&(version, side, capacity), &found, &(index, data, sectors))?;
    }
    Ok(())
}

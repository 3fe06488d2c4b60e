//! Images with one change, row by row.
use crate::asserting::{Place, assert_row};
use crate::checking::check;
use crate::good_images::{
    Good, ONE_TILE, ONE_TILE_BY_VERSION_2, TWO_TILES, WITH_KEPT_PLANES, WITH_SINKS, image_of,
};
use crate::image::{Change, Image};
use crate::opening::{expected_opening, reached};
use crate::version_2_rows::{INDEX_PAGES, NUMBERS_BY_VERSION_2, PAGES_BY_VERSION_2};
use lattice::Refusal;
use std::alloc::Global;
use std::process::Abort;
use std::test::Fail;

pub(crate) const GATE_A: u32 = 0;

pub(crate) const ROOT_A: u32 = 1;

const GATE_B: u32 = 2;

pub(crate) const ROOT_B: u32 = 3;

/// A sector, an index in it, the bytes written there, and the refusal of the image, if it is refused.
pub(crate) type Row = (u32, usize, &'static [u8], Option<Refusal>);

/// What the rows change, a good image, and the rows.
type Table = (&'static str, Good, &'static [Row]);

pub(crate) const OPENS: Option<Refusal> = None;

const NO_STORE: Option<Refusal> = Some(Refusal::NotAStore);

const VERSION: Option<Refusal> = Some(Refusal::Version);

pub(crate) const DAMAGED: Option<Refusal> = Some(Refusal::Damaged);

pub(crate) const SMALL: Option<Refusal> = Some(Refusal::TooSmall);

const TABLES: [Table; 11] = [
    ("gates", ONE_TILE, &GATES),
    ("gate A closed", GATE_A_CLOSED, &BESIDE_A_CLOSED_GATE),
    ("numbers of a root", ONE_TILE, &NUMBERS_OF_A_ROOT),
    ("an entry", ONE_TILE, &AN_ENTRY),
    ("a record and its page", ONE_TILE, &A_RECORD_AND_ITS_PAGE),
    ("two entries", TWO_TILES, &TWO_ENTRIES),
    ("a root without sinks", ONE_TILE, &NO_SINKS),
    ("sinks of a root", WITH_SINKS, &SINKS_OF_A_ROOT),
    (
        "records of kept planes",
        WITH_KEPT_PLANES,
        &RECORDS_OF_KEPT_PLANES,
    ),
    (
        "numbers of a root by the second version",
        ONE_TILE_BY_VERSION_2,
        &NUMBERS_BY_VERSION_2,
    ),
    ("index pages", ONE_TILE_BY_VERSION_2, &INDEX_PAGES),
];

const GATES: [Row; 6] = [
    (GATE_A, 0, &[0], OPENS),
    (GATE_A, 0, &[0xa6], OPENS),
    (GATE_A, 1, &[0xff], OPENS),
    (GATE_B, 0, &[0], OPENS),
    (GATE_B, 4095, &[0xff], OPENS),
    (GATE_B, 0, &[0xa7, 0xa7], OPENS),
];

const GATE_A_CLOSED: Good = Good {
    changes: &[Change {
        sector: GATE_A,
        at: 0,
        bytes: &[0],
    }],
    ..ONE_TILE
};

const BESIDE_A_CLOSED_GATE: [Row; 2] = [(GATE_B, 0, &[0], NO_STORE), (ROOT_A, 0, b"?", OPENS)];

const NUMBERS_OF_A_ROOT: [Row; 27] = [
    (ROOT_A, 0, b"m", NO_STORE),
    (ROOT_B, 7, b"t", NO_STORE),
    (ROOT_B, 8, &[9], VERSION),
    (ROOT_B, 8, &[0], VERSION),
    (ROOT_B, 11, &[1], VERSION),
    // Sides of 2, 1202, 45, 46 and 1201.
    (ROOT_B, 12, &[2], DAMAGED),
    (ROOT_B, 12, &[0xb2, 4], DAMAGED),
    (ROOT_B, 12, &[45], OPENS),
    (ROOT_B, 12, &[46], SMALL),
    (ROOT_B, 12, &[0xb1, 4], SMALL),
    // Capacities.
    (ROOT_B, 16, &[0], DAMAGED),
    (ROOT_B, 16, &[241], DAMAGED),
    (ROOT_B, 16, &[2], SMALL),
    (ROOT_B, 16, &[240], SMALL),
    // The number of tiles.
    (ROOT_B, 20, &[0], DAMAGED),
    (ROOT_B, 20, &[2], DAMAGED),
    // Commit numbers: root A has 1, too.
    (ROOT_B, 24, &[0], DAMAGED),
    (ROOT_B, 24, &[1], DAMAGED),
    (ROOT_A, 24, &[2], DAMAGED),
    (ROOT_A, 24, &[3], OPENS),
    (ROOT_B, 24, &[0xff; 8], OPENS),
    // Counts of commands.
    (ROOT_B, 32, &[2], DAMAGED),
    (ROOT_B, 39, &[1], DAMAGED),
    (ROOT_B, 32, &[0], OPENS),
    // Bytes that have to be zero.
    (ROOT_B, 44, &[1], DAMAGED),
    (ROOT_B, 63, &[1], DAMAGED),
    (ROOT_B, 4095, &[1], DAMAGED),
];

const AN_ENTRY: [Row; 17] = [
    // Latitudes 90, -91, 89 and -90; longitudes 180, -181, 179 and -180.
    (ROOT_B, 64, &[90], DAMAGED),
    (ROOT_B, 64, &[0xa5, 0xff], DAMAGED),
    (ROOT_B, 64, &[89], OPENS),
    (ROOT_B, 64, &[0xa6, 0xff], OPENS),
    (ROOT_B, 66, &[180], DAMAGED),
    (ROOT_B, 66, &[0x4b, 0xff], DAMAGED),
    (ROOT_B, 66, &[179], OPENS),
    (ROOT_B, 66, &[0x4c, 0xff], OPENS),
    // The record of heights.
    (ROOT_B, 68, &[0], DAMAGED),
    (ROOT_B, 68, &[3], DAMAGED),
    (ROOT_B, 68, &[16], DAMAGED),
    (ROOT_B, 68, &[0xff; 4], DAMAGED),
    // The record of levels without one of labels, and the other way round.
    (ROOT_B, 72, &[12], DAMAGED),
    (ROOT_B, 76, &[12], DAMAGED),
    // Bytes after the entries.
    (ROOT_B, 80, &[1], DAMAGED),
    (ROOT_B, 3903, &[1], DAMAGED),
    (ROOT_B, 3904, &[1], DAMAGED),
];

// The sectors of the record of the first tile's heights, and of the page that it lists. `PAGES` has the others.

const RECORD: u32 = 5;

pub(crate) const PAGE: u32 = 4;

const A_RECORD_AND_ITS_PAGE: [Row; 10] = [
    (RECORD, 0, &[RECORD as u8, 0, 0, 0], DAMAGED),
    (RECORD, 0, &[0], DAMAGED),
    (RECORD, 0, &[3], DAMAGED),
    (RECORD, 0, &[16], DAMAGED),
    (RECORD, 3, &[0x80], DAMAGED),
    (RECORD, 0, &[15], OPENS),
    (RECORD, 4, &[1], DAMAGED),
    (RECORD, 4095, &[1], DAMAGED),
    // Any bytes are heights, and the bytes after them aren't read.
    (PAGE, 0, &[0x80; 18], OPENS),
    (PAGE, 18, &[0xff; 4078], OPENS),
];

// The record of the second tile's heights.
const OTHER_RECORD: u32 = 7;

const TWO_ENTRIES: [Row; 6] = [
    // Corners that are equal, that fall, and that rise.
    (ROOT_A, 82, &[0], DAMAGED),
    (ROOT_A, 66, &[2], DAMAGED),
    (ROOT_A, 82, &[2], OPENS),
    // Both tiles with one record or one page, and a record that is the other's page.
    (ROOT_A, 84, &[RECORD as u8, 0, 0, 0], DAMAGED),
    (OTHER_RECORD, 0, &[PAGE as u8, 0, 0, 0], DAMAGED),
    (OTHER_RECORD, 0, &[RECORD as u8, 0, 0, 0], DAMAGED),
];

const NO_SINKS: [Row; 2] = [(ROOT_B, 40, &[1], OPENS), (ROOT_B, 40, &[17], DAMAGED)];

const SINKS_OF_A_ROOT: [Row; 9] = [
    // One sink too few, one too many, and two that are equal or fall.
    (ROOT_B, 40, &[1], DAMAGED),
    (ROOT_B, 40, &[3], DAMAGED),
    (ROOT_B, 3912, &[1, 0, 0, 0, 1, 0, 0, 0], DAMAGED),
    (ROOT_B, 3904, &[8], DAMAGED),
    // The ends of the world: y up to 180 and x down to -360.
    (ROOT_B, 3912, &[180], OPENS),
    (ROOT_B, 3912, &[181], DAMAGED),
    (ROOT_B, 3916, &[0x98, 0xfe], OPENS),
    (ROOT_B, 3916, &[0x97, 0xfe], DAMAGED),
    (ROOT_B, 3920, &[1], DAMAGED),
];

const RECORDS_OF_KEPT_PLANES: [Row; 11] = [
    // The records of levels and of labels.
    (ROOT_B, 72, &[RECORD as u8, 0, 0, 0], DAMAGED),
    (ROOT_B, 72, &[PAGE as u8, 0, 0, 0], DAMAGED),
    (ROOT_B, 72, &[3], DAMAGED),
    (ROOT_B, 76, &[12], DAMAGED),
    (ROOT_B, 76, &[16], DAMAGED),
    // The pages that these records list.
    (12, 0, &[12], DAMAGED),
    (12, 0, &[15], DAMAGED),
    (12, 4, &[1], DAMAGED),
    (14, 0, &[PAGE as u8, 0, 0, 0], DAMAGED),
    (14, 4095, &[1], DAMAGED),
    (15, 18, &[0xff], OPENS),
];

/// A good image, and the pages that its root reaches: for each tile the record of heights and the page that it lists,
/// and the same for kept levels and labels. In the second version index pages are in between.
type Pages = (&'static str, Good, &'static [u32]);

const PAGES: [Pages; 4] = [
    ("of one tile", ONE_TILE, &[RECORD, PAGE]),
    ("of two tiles", TWO_TILES, &[RECORD, PAGE, OTHER_RECORD, 6]),
    (
        "of kept planes",
        WITH_KEPT_PLANES,
        &[RECORD, PAGE, 12, 13, 14, 15],
    ),
    (
        "by the second version",
        ONE_TILE_BY_VERSION_2,
        &PAGES_BY_VERSION_2,
    ),
];

// Changes the image, and checks what an opening then finds.
fn check_row(
    rt: &impl Abort,
    alloc: Global,
    image: &Image,
    row: Row,
    place: Place,
) -> Result<(), Fail> {
    let (sector, at, bytes, refusal) = row;
    let changed = image.with(&[Change { sector, at, bytes }])?;
    let answer = check(rt, alloc, &changed, place)?;
    assert_row(rt, answer == refusal, "how it opens", &(place, row, answer));
    Ok(())
}

fn check_rows(
    rt: &impl Abort,
    alloc: Global,
    name: &str,
    image: &Image,
    rows: &[Row],
) -> Result<(), Fail> {
    for (row, number) in rows.iter().zip(0..) {
        check_row(rt, alloc, image, *row, (name, number))?;
    }
    Ok(())
}

#[test]
fn one_change(rt: HostRuntime) -> Result<(), Fail> {
    let alloc = rt.alloc();
    for (name, good, rows) in TABLES {
        check_rows(&rt, alloc, name, &image_of(alloc, good)?, rows)?;
    }
    Ok(())
}

#[test]
fn disks_of_few_sectors(rt: HostRuntime) -> Result<(), Fail> {
    for sectors in 0..17 {
        let mut image = image_of(rt.alloc(), ONE_TILE)?;
        image.sectors.truncate(sectors);
        let expected = match sectors {
            0..4 => NO_STORE,
            4..16 => SMALL,
            _ => OPENS,
        };
        let place = ("sectors", sectors as u64);
        let answer = check(&rt, rt.alloc(), &image, place)?;
        assert_row(&rt, answer == expected, "how it opens", &(place, answer));
    }
    Ok(())
}

fn has_pages(alloc: Global, image: &Image, pages: &[u32]) -> Result<bool, Fail> {
    let root = expected_opening(alloc, &image.sectors)?;
    Ok(reached(alloc, &image.sectors, &root)?.as_slice() == pages)
}

// The rows say where pages are.
#[test]
fn pages_are_there(rt: HostRuntime) -> Result<(), Fail> {
    let alloc = rt.alloc();
    for (name, good, pages) in PAGES {
        let has_pages = has_pages(alloc, &image_of(alloc, good)?, pages)?;
        assert_row(&rt, has_pages, "other pages", &name);
    }
    Ok(())
}

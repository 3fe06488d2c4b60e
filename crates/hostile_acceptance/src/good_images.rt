//! Images of good stores of side 3, which tests change.
use crate::image::{Change, Image};
use crate::opening::expected_opening;
use crate::served::served_by_store;
use crate::stores::{empty_store, into_disk};
use arrayvec::ArrayVec;
use disk::Disk;
use edits::{Bytes, Command};
use lattice::{Corner, Point};
use std::alloc::Global;
use std::test::Fail;
use store::Store;
use test_tiles::lines_of;

pub(crate) const HERE: Corner = Corner { lat: 0, lon: 0 };

pub(crate) const EAST: Corner = Corner { lat: 0, lon: 1 };

/// The levels of A alone, low byte first, and the labels: 9 9 9 / 9 5 9 / 9 9 5 and 0 1 2 / 3 7 4 / 5 6 7.
const LEVELS: [u8; 18] = [9, 0, 9, 0, 9, 0, 9, 0, 5, 0, 9, 0, 9, 0, 9, 0, 5, 0];

const LABELS: [u8; 18] = [0, 0, 1, 0, 2, 0, 3, 0, 7, 0, 4, 0, 5, 0, 6, 0, 7, 0];

/// A good image: the version and the side of an empty store, its capacity, the lines that change it, and the changes of
/// its disk after them.
#[derive(Clone, Copy)]
pub(crate) struct Good {
    pub(crate) version: u32,
    pub(crate) side: u32,
    pub(crate) capacity: u32,
    pub(crate) lines: &'static [&'static str],
    pub(crate) changes: &'static [Change<'static>],
}

/// A at N00E000 in a store of one tile: 16 sectors, and root B is current, at commit 2.
pub(crate) const ONE_TILE: Good = Good {
    version: 1,
    side: 3,
    capacity: 1,
    lines: &["import N00E000 $A"],
    changes: &[],
};

/// A, and B to the east of it, in a store of two tiles: 24 sectors, and root A is current, at commit 3.
pub(crate) const TWO_TILES: Good = Good {
    version: 1,
    side: 3,
    capacity: 2,
    lines: &["import N00E000 $A", "import N00E001 $B"],
    changes: &[],
};

/// Three tiles around a corner after a wall and a removal, one of them with a void.
pub(crate) const EDITED: Good = Good {
    version: 1,
    side: 3,
    capacity: 4,
    lines: &[
        "import N00E000 $A",
        "import N00E001 $B",
        "import S01E000 $V",
        "import S01W001 $B",
        "wall 12 0 1",
        "remove N00E001",
    ],
    changes: &[],
};

/// The same in the second version, with the planes of the first tile kept.
pub(crate) const EDITED_BY_VERSION_2: Good = Good {
    version: 2,
    side: 3,
    capacity: 4,
    lines: &[
        "import N00E000 $A",
        "import N00E001 $B",
        "import S01E000 $V",
        "import S01W001 $B",
        "wall 12 0 1",
        "remove N00E001",
        "step",
    ],
    changes: &[],
};

/// A at N00E000 with its planes kept, in a store of one tile in the second version: 22 sectors. Root A is current, at
/// commit 3.
pub(crate) const ONE_TILE_BY_VERSION_2: Good = Good {
    version: 2,
    side: 3,
    capacity: 1,
    lines: &["import N00E000 $A", "step"],
    changes: &[],
};

/// As `ONE_TILE`, with the middle of A and a point outside declared sinks.
pub(crate) const WITH_SINKS: Good = Good {
    version: 1,
    side: 3,
    capacity: 1,
    lines: &["import N00E000 $A"],
    changes: &[
        Change {
            sector: 3,
            at: 40,
            bytes: &[2],
        },
        Change {
            sector: 3,
            at: 3904,
            bytes: &[1, 0, 0, 0, 1, 0, 0, 0, 7, 0, 0, 0, 0xff, 0xff, 0xff, 0xff],
        },
    ],
};

/// As `ONE_TILE`, with the levels of A kept from page 12 on, and its labels from page 14 on.
pub(crate) const WITH_KEPT_PLANES: Good = Good {
    version: 1,
    side: 3,
    capacity: 1,
    lines: &["import N00E000 $A"],
    changes: &[
        Change {
            sector: 3,
            at: 72,
            bytes: &[12, 0, 0, 0, 14],
        },
        Change {
            sector: 12,
            at: 0,
            bytes: &[13],
        },
        Change {
            sector: 13,
            at: 0,
            bytes: &LEVELS,
        },
        Change {
            sector: 14,
            at: 0,
            bytes: &[15],
        },
        Change {
            sector: 15,
            at: 0,
            bytes: &LABELS,
        },
    ],
};

pub(crate) fn image_of(alloc: Global, good: Good) -> Result<Image, Fail> {
    let mut store = empty_store(alloc, good.version, good.side, good.capacity)?;
    let are_done = do_all(alloc, &mut store, good.lines);
    let mut disk = into_disk(store);
    if are_done? {
        Image::of(alloc, &mut disk)?.with(good.changes)
    } else {
        Err("a line is refused".into())
    }
}

// Whether the command of each line is done.
fn do_all<D: Disk>(alloc: Global, store: &mut Store<D>, lines: &[&str]) -> Result<bool, Fail> {
    for line in lines {
        if !is_done(alloc, store, line)? {
            return Ok(false);
        }
    }
    Ok(true)
}

fn is_done<D: Disk>(alloc: Global, store: &mut Store<D>, line: &str) -> Result<bool, Fail> {
    let input = lines_of(alloc, &[line])?;
    let output = served_by_store(alloc, store, &input, 4096)?;
    Ok(output.starts_with(b"OK"))
}

pub(crate) fn import(alloc: Global, corner: Corner, bytes: &[u8]) -> Result<Command, Fail> {
    let bytes = Bytes::new(Vec::from_slice(alloc, bytes)?);
    Ok(Command::Import { corner, bytes })
}

pub(crate) fn wall(height: i32, point: Point) -> Command {
    let points = only(point);
    Command::Wall { height, points }
}

pub(crate) fn burn(depth: i32, point: Point) -> Command {
    let points = only(point);
    Command::Burn { depth, points }
}

fn only(point: Point) -> ArrayVec<Point, 64> {
    let mut points = ArrayVec::new();
    let _ = points.try_push(point);
    points
}

/// The pages of the records of a tile: of heights, levels and labels.
pub(crate) fn records_of_tile(
    alloc: Global,
    image: &Image,
    number: usize,
) -> Result<[u32; 3], Fail> {
    let root = expected_opening(alloc, &image.sectors)?;
    Ok(root.entries.get(number).ok_or("no tile")?.records)
}

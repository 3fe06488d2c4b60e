//! Tests of the levels that two tiles of side 3 give each other along their rims, worked by hand.
use arrayvec::ArrayVec;
use border_graph::{RimPoint, Summary, join};
use lattice::{Corner, Side, VOID};
use std::alloc::Global;
use std::test::Fail;
use test_tiles::check_found;
use tile_flood::{Block, Flood, Labelled, spills};

// The rim numbers of a tile of side 3, by index; the centre has none.
const RIM: [usize; 8] = [0, 1, 2, 3, 5, 6, 7, 8];

fn labelled(alloc: Global, heights: &[i16]) -> Option<Labelled> {
    let side = Side::new(3)?;
    let heights = Vec::from_slice(alloc, heights).ok()?;
    let block = Block::new(side, heights, ArrayVec::new())?;
    Flood::run(alloc, &block).ok()
}

// The rim points of a tile, all outlets except this one.
fn rim(alloc: Global, heights: &[i16], labels: &[u16], inner: usize) -> Option<Vec<RimPoint>> {
    let mut rim = Vec::new(alloc);
    for (number, index) in RIM.iter().enumerate() {
        let point = RimPoint {
            height: *heights.get(*index)?,
            label: *labels.get(*index)?,
            outlet: number != inner,
        };
        rim.push(point).ok()?;
    }
    Some(rim)
}

fn summary(alloc: Global, corner: Corner, heights: &[i16], inner: usize) -> Option<Summary> {
    let labelled = labelled(alloc, heights)?;
    let rim = rim(alloc, heights, labelled.labels(), inner)?;
    let found = spills(alloc, &labelled).ok()?;
    Some(Summary::new(corner, rim, found))
}

fn pair(alloc: Global, west: &[i16], east: &[i16]) -> Option<Vec<Summary>> {
    let mut summaries = Vec::new(alloc);
    let western = Corner { lat: 0, lon: 0 };
    summaries.push(summary(alloc, western, west, 4)?).ok()?;
    let eastern = Corner { lat: 0, lon: 1 };
    summaries.push(summary(alloc, eastern, east, 3)?).ok()?;
    Some(summaries)
}

/// What the row shows, the heights of a tile and of one to the east of it, and the levels along their rims.
struct Row<'a> {
    shows: &'a str,
    west: &'a [i16],
    east: &'a [i16],
    west_rim: &'a [i16],
    east_rim: &'a [i16],
}

const ROWS: [Row; 2] = [
    Row {
        shows: "a valley drains through its neighbour",
        west: &[9, 9, 9, 9, 1, 1, 9, 9, 9],
        east: &[9, 9, 9, 1, 1, 3, 9, 9, 9],
        west_rim: &[9, 9, 9, 9, 3, 9, 9, 9],
        east_rim: &[9, 9, 9, 3, 3, 9, 9, 9],
    },
    Row {
        shows: "a seam drains over an inner outlet",
        west: &[9, 9, 9, VOID, 5, 3, 9, 9, 9],
        east: &[9, 9, 9, 3, 9, 9, 9, 9, 9],
        west_rim: &[9, 9, 9, VOID, 5, 9, 9, 9],
        east_rim: &[9, 9, 9, 5, 9, 9, 9, 9],
    },
];

fn check(row: &Row, levels: &[Vec<i16>]) -> Result<(), Fail> {
    let [west, east] = levels else {
        return check_found(&row.shows, &levels.len(), &2);
    };
    check_found(&row.shows, &west.as_slice(), &row.west_rim)?;
    check_found(&row.shows, &east.as_slice(), &row.east_rim)
}

#[test]
fn tiles_raise_each_other_along_their_rims(rt: HostRuntime) -> Result<(), Fail> {
    let alloc = rt.alloc();
    for row in ROWS.iter() {
        let summaries = pair(alloc, row.west, row.east).ok_or("no memory")?;
        let levels = join(alloc, &summaries)?;
        check(row, &levels)?;
    }
    Ok(())
}

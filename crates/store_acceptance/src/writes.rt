//! Tests of the number of writes of changes, in either version.
use super::change::{ONE_SINK, ONE_TILE, make, prepared_disk};
use super::fixtures::opened;
use disk::MemDisk;
use lattice::Refusal;
use std::alloc::Global;
use std::test::Fail;
use test_tiles::check_found;

// Four tiles around a point.
const AROUND: [&str; 4] = [
    "import N00E000 $E",
    "import N00E001 $E",
    "import N01E000 $E",
    "import N01E001 $E",
];

/// The changes made before, a change, its refusal if it is refused, and its number of writes in the first version and
/// in the second.
struct Row {
    before: &'static [&'static str],
    change: &'static str,
    refusal: Option<Refusal>,
    writes: [u64; 2],
}

const ROWS: [Row; 7] = [
    // Each tile has the point.
    Row {
        before: &AROUND,
        change: "burn 1 2 2",
        refusal: None,
        writes: [11, 15],
    },
    // A second point of the first tile is on a page that is written anyway.
    Row {
        before: &AROUND,
        change: "burn 1 1 1 2 2",
        refusal: None,
        writes: [11, 15],
    },
    Row {
        before: &ONE_TILE,
        change: "sink 1 1",
        refusal: None,
        writes: [3, 3],
    },
    Row {
        before: &ONE_SINK,
        change: "sink 1 1",
        refusal: Some(Refusal::SinkThere),
        writes: [0, 0],
    },
    Row {
        before: &ONE_SINK,
        change: "unsink 1 1",
        refusal: None,
        writes: [3, 3],
    },
    Row {
        before: &ONE_TILE,
        change: "unsink 1 1",
        refusal: Some(Refusal::NoSink),
        writes: [0, 0],
    },
    // Two planes with their index pages, a root and two gates.
    Row {
        before: &ONE_TILE,
        change: "step",
        refusal: None,
        writes: [7, 9],
    },
];

// Makes the change on the reopened store of this disk. Answers the disk, the refusal if it is refused, and the number
// of writes.
fn counted(
    alloc: Global,
    disk: MemDisk,
    change: &str,
) -> Result<(MemDisk, Option<Refusal>, u64), Fail> {
    let before = disk.writes();
    let mut store = opened(alloc, disk)?;
    let refused = make(alloc, &mut store, change)?;
    let disk = store.into_disk();
    let writes = disk.writes().saturating_sub(before);
    Ok((disk, refused, writes))
}

fn check_rows(alloc: Global, version: u32) -> Result<(), Fail> {
    for row in ROWS.iter() {
        let [first, second] = row.writes;
        let wanted = if version == 1 { first } else { second };
        let disk = prepared_disk(alloc, version, (4, row.before, row.change))?;
        let (_, refusal, writes) = counted(alloc, disk, row.change)?;
        let asked = (version, row.before, row.change);
        check_found(&asked, &refusal, &row.refusal)?;
        check_found(&asked, &writes, &wanted)?;
    }
    Ok(())
}

#[test]
fn writes_by_either_version(rt: HostRuntime) -> Result<(), Fail> {
    check_rows(rt.alloc(), 1)?;
    check_rows(rt.alloc(), 2)
}

/// Makes the changes one after another, each with its number of writes. Answers the disk.
pub(crate) fn make_counted(
    alloc: Global,
    disk: MemDisk,
    rows: &[(&str, u64)],
) -> Result<MemDisk, Fail> {
    let mut disk = disk;
    for (change, wanted) in rows {
        let (left, refusal, writes) = counted(alloc, disk, change)?;
        check_found(change, &refusal, &None)?;
        check_found(change, &writes, wanted)?;
        disk = left;
    }
    Ok(disk)
}

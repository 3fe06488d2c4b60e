//! Tests of what a store of tiles of side 3 answers to calls without a line: sizes, counts of calls, seams.
//! `acceptance` has the rows of lines.
use super::fixtures::opened;
use super::script::{Session, check_sessions, command};
use disk::{CountedDisk, MemDisk};
use lattice::Refusal;
use std::alloc::Global;
use std::test::Fail;
use store::Store;
use test_tiles::{check_found, check_row};

// Whether the disk has a store of the second version, with tiles of this side.
fn is_second(alloc: Global, disk: MemDisk, side: u32) -> Result<bool, Fail> {
    let store = opened(alloc, disk)?;
    Ok(store.version() == 2 && store.side() == side)
}

#[test]
fn sizes_that_format_takes(rt: HostRuntime) -> Result<(), Fail> {
    let table = [
        (21, 3, 1, Err(Refusal::TooSmall)),
        (22, 3, 1, Ok(())),
        (22, 2, 1, Err(Refusal::BadSide)),
        (22, 3602, 0, Err(Refusal::BadSide)),
        (22, 3, 0, Err(Refusal::BadCapacity)),
        (22, 3, 241, Err(Refusal::BadCapacity)),
        (33, 3, 2, Err(Refusal::TooSmall)),
        (34, 3, 2, Ok(())),
        (4245, 1201, 1, Err(Refusal::TooSmall)),
        (4246, 1201, 1, Ok(())),
        (38_043, 3601, 1, Err(Refusal::TooSmall)),
        (38_044, 3601, 1, Ok(())),
        (38_044, 3601, 240, Err(Refusal::TooSmall)),
    ];
    for (sectors, side, capacity, answer) in table {
        let mut disk = MemDisk::new(rt.alloc(), sectors)?;
        let found = Store::format(&mut disk, side, capacity);
        let size = (sectors, side, capacity);
        check_found(&size, &found, &answer)?;
        let is_right = answer.is_err() || is_second(rt.alloc(), disk, side)?;
        check_row(&size, is_right)?;
    }
    Ok(())
}

#[test]
fn sizes_that_the_first_version_takes(rt: HostRuntime) -> Result<(), Fail> {
    let table = [
        (15, 3, 1, Err(Refusal::TooSmall)),
        (16, 3, 1, Ok(())),
        (16, 2, 1, Err(Refusal::BadSide)),
        (16, 1202, 0, Err(Refusal::BadSide)),
        (16, 3, 0, Err(Refusal::BadCapacity)),
        (16, 3, 241, Err(Refusal::BadCapacity)),
        (679_175, 1201, 240, Err(Refusal::TooSmall)),
        (679_176, 1201, 240, Ok(())),
    ];
    for (sectors, side, capacity, answer) in table {
        let mut disk = MemDisk::new(rt.alloc(), sectors)?;
        let found = Store::format_1(&mut disk, side, capacity);
        let writes = if answer.is_ok() { 4 } else { 0 };
        let size = (sectors, side, capacity);
        check_found(&size, &found, &answer)?;
        check_found(&size, &disk.writes(), &writes)?;
    }
    Ok(())
}

// The commit number before a command, the answer, and the commit number after it.
type Commits = (u64, Result<u64, Refusal>, u64);

// Opens the store and applies the command. Answers the disk, the commit numbers, and the numbers of writes and syncs.
fn counted(
    alloc: Global,
    disk: MemDisk,
    line: &str,
) -> Result<(MemDisk, Commits, (u64, u64)), Fail> {
    let command = command(alloc, line)?;
    let mut store = opened(alloc, CountedDisk::new(disk))?;
    let before = store.commits();
    let answer = store.apply(&command);
    let commits = (before, answer, store.commits());
    let counted = store.into_disk();
    let tally = counted.faults();
    let calls = (tally.writes, tally.syncs);
    Ok((counted.into_inner(), commits, calls))
}

#[test]
fn writes_and_syncs_of_commands(rt: HostRuntime) -> Result<(), Fail> {
    let alloc = rt.alloc();
    let mut disk = MemDisk::new(alloc, 24)?;
    assert!(rt; Store::format_1(&mut disk, 3, 2) == Ok(()));
    // An opening makes one sync. The first import writes a page, a record, a root and a gate; later ones close the gate
    // first. After each answer are the commit numbers, and the numbers of writes and syncs.
    let steps = [
        ("import N00E000 $A", Ok(1), 2, 4, 3),
        ("import N00E001 $B", Ok(2), 3, 5, 4),
        ("import N05E005 $A", Err(Refusal::Full), 3, 0, 1),
        ("remove N00E000", Ok(3), 4, 3, 4),
        ("import N05E005 $A", Ok(4), 5, 5, 4),
    ];
    let mut before = 1;
    for (line, answer, commits, writes, syncs) in steps {
        let (left, found, calls) = counted(alloc, disk, line)?;
        check_found(&line, &found, &(before, answer, commits))?;
        check_found(&line, &calls, &(writes, syncs))?;
        disk = left;
        before = commits;
    }
    Ok(())
}

const SEAMS: [Session; 3] = [
    Session {
        shows: "tiles disagree at a seam",
        capacity: 4,
        before: &["import N00E000 $G", "import N00E001 $H"],
        said: &[("seams", "OK 1")],
    },
    Session {
        shows: "a burn makes tiles agree at a seam",
        capacity: 4,
        before: &["import N00E000 $G", "import N00E001 $H", "burn 1 1 2"],
        said: &[("seams", "OK 0")],
    },
    Session {
        shows: "a wall makes tiles agree at a seam",
        capacity: 4,
        before: &["import N00E000 $G", "import N00E001 $H", "wall 3 1 2"],
        said: &[("seams", "OK 0")],
    },
];

#[test]
fn edits_make_tiles_agree_at_a_seam(rt: HostRuntime) -> Result<(), Fail> {
    check_sessions(&rt, rt.alloc(), &SEAMS)
}

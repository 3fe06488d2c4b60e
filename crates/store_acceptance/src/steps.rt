//! Tests of steps, and of the tiles that commands make stale.
use super::change::{Row, prepared_disk};
use super::fixtures::opened;
use super::script::{Session, are_answered, check_sessions};
use super::stops::{MANY_CALLS, STOPS, make_with, stopped};
use disk::MemDisk;
use lattice::Refusal;
use std::alloc::Global;
use std::test::Fail;
use test_tiles::Said;

const STEPS: [Session; 3] = [
    Session {
        shows: "a tile beside another makes that stale",
        capacity: 4,
        before: &["import N00E000 $G", "step", "import N00E001 $H"],
        said: &[("stale", "OK 2 N00E000 N00E001")],
    },
    Session {
        shows: "steps leave no tile stale, and each is a commit",
        capacity: 4,
        before: &[
            "import N00E000 $G",
            "step",
            "import N00E001 $H",
            "step",
            "step",
        ],
        said: &[("stale", "OK 0"), ("commits", "OK 6")],
    },
    Session {
        shows: "a wall that raises nothing leaves the same tiles stale",
        capacity: 4,
        before: &[
            "import N00E000 $B",
            "import N00E001 $D",
            "import N00E002 $D",
            "import N00E003 $C",
            "step",
            "step",
            "step",
            "step",
        ],
        said: &[
            ("wall 1 1 8", "OK 5"),
            ("stale", "OK 2 N00E002 N00E003"),
            ("elev 1 8", "OK 3"),
            ("fill 1 1", "OK 3"),
        ],
    },
];

#[test]
fn which_tiles_are_stale(rt: HostRuntime) -> Result<(), Fail> {
    check_sessions(&rt, rt.alloc(), &STEPS)
}

// A valley through four tiles with a wall across it far in the east, and a command that raises the wall.
const RAISED: Row = (
    4,
    &[
        "import N00E000 $B",
        "import N00E001 $D",
        "import N00E002 $D",
        "import N00E003 $C",
        "step",
        "step",
        "step",
        "step",
        "wall 5 1 8",
    ],
    "wall 9 1 8",
);

// The answers about the wall before and after it is raised. Only tiles near it are stale.
const AS_IT_WAS: [Said; 3] = [
    ("count", "OK 5"),
    ("stale", "OK 2 N00E002 N00E003"),
    ("fill 1 1", "OK 5"),
];

const ONCE_RAISED: [Said; 3] = [
    ("count", "OK 6"),
    ("stale", "OK 2 N00E002 N00E003"),
    ("fill 1 1", "OK 9"),
];

// Whether the wall is raised, which it must be if the change was complete, or unchanged.
fn is_left(alloc: Global, disk: MemDisk, through: bool) -> Result<bool, Fail> {
    let mut store = opened(alloc, disk)?;
    let said = if through || store.count() == 6 {
        &ONCE_RAISED
    } else {
        &AS_IT_WAS
    };
    are_answered(alloc, &mut store, said)
}

// Stops the change after this many calls, in each way. Answers whether it was complete by then.
fn stop_after(alloc: Global, version: u32, calls: u64) -> Result<bool, Fail> {
    let (_, _, change) = RAISED;
    let mut through = false;
    for stop in STOPS {
        let disk = prepared_disk(alloc, version, RAISED)?;
        let (disk, refused) = make_with(alloc, disk, calls, change)?;
        through = refused.is_none();
        let is_right = through || refused == Some(Refusal::Device);
        if !is_right || !is_left(alloc, stopped(disk, stop)?, through)? {
            return Err(("another store", refused, version, calls, stop).into());
        }
    }
    Ok(through)
}

// Stops the change after each call, until it is complete. Answers whether it ever is.
fn stop_after_each(alloc: Global, version: u32) -> Result<bool, Fail> {
    for calls in 0..MANY_CALLS {
        if stop_after(alloc, version, calls)? {
            return Ok(true);
        }
    }
    Ok(false)
}

#[test]
fn a_stop_inside_a_wall_leaves_far_tiles_fresh(rt: HostRuntime) -> Result<(), Fail> {
    assert!(rt; stop_after_each(rt.alloc(), 1)?);
    assert!(rt; stop_after_each(rt.alloc(), 2)?);
    Ok(())
}

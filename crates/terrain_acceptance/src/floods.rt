//! Tests of levels, labels and spills of one block, worked by hand, row by row from the north.
use arrayvec::ArrayVec;
use labelling::{NO_LABEL, OUT, Spill};
use lattice::{Refusal, Side, VOID};
use std::alloc::Global;
use std::test::Fail;
use test_tiles::{A_SAMPLES, check_found, check_row};
use tile_flood::{Block, Flood, Labelled, raise, spills};

fn block(alloc: Global, side: u32, heights: &[i16], sinks: &[u32]) -> Result<Block, Refusal> {
    let side = Side::new(side).ok_or(Refusal::BadSide)?;
    let heights = Vec::from_slice(alloc, heights)?;
    let mut declared = ArrayVec::new();
    for sink in sinks {
        let _ = declared.try_push(*sink);
    }
    Block::new(side, heights, declared).ok_or(Refusal::BadLength)
}

#[test]
fn a_block_is_whole(rt: HostRuntime) -> Result<(), Fail> {
    assert!(rt; block(rt.alloc(), 3, &[1; 8], &[]).err() == Some(Refusal::BadLength));
    let whole = block(rt.alloc(), 3, &[1; 9], &[])?;
    assert!(rt; whole.side().samples() == 3);
    assert!(rt; whole.heights() == &[1i16; 9][..]);
    Ok(())
}

/// What the row shows, a block, the levels of its flood, and the labels of some of its points.
struct FloodRow<'a> {
    shows: &'a str,
    side: u32,
    heights: &'a [i16],
    sinks: &'a [u32],
    levels: &'a [i16],
    labels: &'a [(usize, u16)],
}

const FLOODS: [FloodRow; 4] = [
    FloodRow {
        shows: "a pit drains over the lowest rim point",
        side: 3,
        heights: &A_SAMPLES,
        sinks: &[],
        levels: &[9, 9, 9, 9, 5, 9, 9, 9, 5],
        labels: &[(4, 7), (8, 7)],
    },
    FloodRow {
        shows: "water leaves at a sink",
        side: 3,
        heights: &A_SAMPLES,
        sinks: &[4],
        levels: &A_SAMPLES,
        labels: &[(4, OUT), (8, 7)],
    },
    FloodRow {
        shows: "water leaves beside a void",
        side: 5,
        heights: &[
            9, 9, 9, 9, 9, 9, 5, VOID, 9, 9, 9, 9, 9, 3, 9, 9, 9, 1, 9, 9, 9, 9, 9, 9, 9,
        ],
        sinks: &[],
        levels: &[
            9, 9, 9, 9, 9, 9, 5, VOID, 9, 9, 9, 9, 9, 3, 9, 9, 9, 3, 9, 9, 9, 9, 9, 9, 9,
        ],
        labels: &[(6, OUT), (7, NO_LABEL), (13, OUT), (17, OUT)],
    },
    FloodRow {
        shows: "voids have no label",
        side: 3,
        heights: &[VOID; 9],
        sinks: &[],
        levels: &[VOID; 9],
        labels: &[
            (0, NO_LABEL),
            (1, NO_LABEL),
            (2, NO_LABEL),
            (3, NO_LABEL),
            (4, NO_LABEL),
            (5, NO_LABEL),
            (6, NO_LABEL),
            (7, NO_LABEL),
            (8, NO_LABEL),
        ],
    },
];

fn flooded(alloc: Global, side: u32, heights: &[i16], sinks: &[u32]) -> Result<Labelled, Refusal> {
    let whole = block(alloc, side, heights, sinks)?;
    Flood::run(alloc, &whole)
}

#[test]
fn blocks_flood_so(rt: HostRuntime) -> Result<(), Fail> {
    for row in FLOODS.iter() {
        let found = flooded(rt.alloc(), row.side, row.heights, row.sinks)?;
        check_found(&row.shows, &found.side().samples(), &row.side)?;
        check_found(&row.shows, &found.levels(), &row.levels)?;
        check_labels(row, found.labels())?;
    }
    Ok(())
}

fn check_labels(row: &FloodRow, labels: &[u16]) -> Result<(), Fail> {
    check_found(&row.shows, &labels.len(), &row.levels.len())?;
    for (point, label) in row.labels {
        check_found(&(row.shows, *point), &labels.get(*point), &Some(label))?;
    }
    Ok(())
}

// Heights with one lowest rim point, its index, and its number, which is also its label.
const RIM: [([i16; 9], usize, u16); 8] = [
    ([1, 9, 9, 9, 9, 9, 9, 9, 9], 0, 0),
    ([9, 1, 9, 9, 9, 9, 9, 9, 9], 1, 1),
    ([9, 9, 1, 9, 9, 9, 9, 9, 9], 2, 2),
    ([9, 9, 9, 1, 9, 9, 9, 9, 9], 3, 3),
    ([9, 9, 9, 9, 9, 1, 9, 9, 9], 5, 4),
    ([9, 9, 9, 9, 9, 9, 1, 9, 9], 6, 5),
    ([9, 9, 9, 9, 9, 9, 9, 1, 9], 7, 6),
    ([9, 9, 9, 9, 9, 9, 9, 9, 1], 8, 7),
];

// The levels are the heights, since no point is in a pit.
#[test]
fn rim_points_have_these_numbers(rt: HostRuntime) -> Result<(), Fail> {
    for row in RIM.iter() {
        let (heights, lowest, number) = row;
        let found = flooded(rt.alloc(), 3, heights, &[])?;
        check_found(row, &found.levels(), &heights.as_slice())?;
        check_found(row, &found.labels().get(*lowest), &Some(number))?;
    }
    Ok(())
}

fn labelled(alloc: Global, levels: &[i16], labels: &[u16]) -> Result<Labelled, Refusal> {
    let side = Side::new(3).ok_or(Refusal::BadSide)?;
    let levels = Vec::from_slice(alloc, levels)?;
    let labels = Vec::from_slice(alloc, labels)?;
    Labelled::new(side, levels, labels).ok_or(Refusal::BadLength)
}

#[test]
fn a_labelling_is_whole(rt: HostRuntime) {
    assert!(rt; labelled(rt.alloc(), &[1; 9], &[0; 9]).is_ok());
    assert!(rt; labelled(rt.alloc(), &[1; 9], &[0; 10]).err() == Some(Refusal::BadLength));
}

// A pit that drains over rim point 7, and its rim.
const PIT: [i16; 9] = [9, 9, 9, 9, 5, 9, 9, 9, 5];

const PIT_LABELS: [u16; 9] = [0, 0, 0, 0, 7, 0, 0, 0, 7];

// A void, an inner outlet next to it, and a lower rim point.
const GAP: [i16; 9] = [9, 9, 9, VOID, 5, 3, 9, 9, 9];

const GAP_LABELS: [u16; 9] = [0, 0, 0, NO_LABEL, OUT, 4, 0, 0, 0];

const GAP_RIM: [i16; 8] = [9, 9, 9, VOID, 5, 9, 9, 9];

/// Levels and labels, and the spills between two labels, in any order. Labels meet at the greater level, and `OUT` is a
/// label, too.
struct SpillsRow<'a> {
    levels: &'a [i16],
    labels: &'a [u16],
    spills: &'a [(u16, u16, i16)],
}

const SPILLS: [SpillsRow; 2] = [
    SpillsRow {
        levels: &PIT,
        labels: &PIT_LABELS,
        spills: &[(0, 7, 9)],
    },
    SpillsRow {
        levels: &GAP,
        labels: &GAP_LABELS,
        spills: &[(0, 4, 9), (0, OUT, 9), (4, OUT, 5)],
    },
];

fn are_spills(found: &[Spill], wanted: &[(u16, u16, i16)]) -> bool {
    for (a, b, level) in wanted {
        let spill = Spill {
            a: *a,
            b: *b,
            level: *level,
        };
        if !found.contains(&spill) {
            return false;
        }
    }
    found.len() == wanted.len()
}

#[test]
fn labels_meet_at_the_greater_level(rt: HostRuntime) -> Result<(), Fail> {
    for row in SPILLS.iter() {
        let found = spills(rt.alloc(), &labelled(rt.alloc(), row.levels, row.labels)?)?;
        check_row(
            &(row.spills, found.as_slice()),
            are_spills(&found, row.spills),
        )?;
    }
    Ok(())
}

// The filled levels of a labelling over a rim.
fn raised(alloc: Global, levels: &[i16], labels: &[u16], rim: &[i16]) -> Result<Vec<i16>, Refusal> {
    let labelled = labelled(alloc, levels, labels)?;
    raise(alloc, &labelled, rim)
}

/// What the row shows, a labelling, the levels of its rim, and its filled levels.
struct RaiseRow<'a> {
    shows: &'a str,
    levels: &'a [i16],
    labels: &'a [u16],
    rim: &'a [i16],
    filled: &'a [i16],
}

const RAISED: [RaiseRow; 3] = [
    RaiseRow {
        shows: "a rim at its own levels raises nothing",
        levels: &PIT,
        labels: &PIT_LABELS,
        rim: &[9, 9, 9, 9, 9, 9, 9, 5],
        filled: &PIT,
    },
    RaiseRow {
        shows: "a valley rises with its way out",
        levels: &[9, 9, 9, 9, 1, 1, 9, 9, 9],
        labels: &[0, 0, 0, 0, 4, 4, 0, 0, 0],
        rim: &[9, 9, 9, 9, 3, 9, 9, 9],
        filled: &[9, 9, 9, 9, 3, 3, 9, 9, 9],
    },
    RaiseRow {
        shows: "an inner outlet stays at its level",
        levels: &GAP,
        labels: &GAP_LABELS,
        rim: &GAP_RIM,
        filled: &[9, 9, 9, VOID, 5, 5, 9, 9, 9],
    },
];

#[test]
fn a_block_is_raised_by_its_rim(rt: HostRuntime) -> Result<(), Fail> {
    for row in RAISED.iter() {
        let filled = raised(rt.alloc(), row.levels, row.labels, row.rim)?;
        check_found(&row.shows, &filled.as_slice(), &row.filled)?;
    }
    Ok(())
}

/// What is wrong with a labelling and the levels of its rim.
struct DamageRow<'a> {
    shows: &'a str,
    levels: &'a [i16],
    labels: &'a [u16],
    rim: &'a [i16],
}

const DAMAGED: [DamageRow; 8] = [
    DamageRow {
        shows: "a label that no rim point has",
        levels: &GAP,
        labels: &[0, 0, 0, NO_LABEL, 8, 4, 0, 0, 0],
        rim: &GAP_RIM,
    },
    DamageRow {
        shows: "the label of a void",
        levels: &GAP,
        labels: &[0, 0, 0, NO_LABEL, 3, 4, 0, 0, 0],
        rim: &GAP_RIM,
    },
    DamageRow {
        shows: "ground without a label",
        levels: &GAP,
        labels: &[0, 0, 0, NO_LABEL, NO_LABEL, 4, 0, 0, 0],
        rim: &GAP_RIM,
    },
    DamageRow {
        shows: "a void in the middle with a label",
        levels: &[9, 9, 9, VOID, VOID, 3, 9, 9, 9],
        labels: &[0, 0, 0, NO_LABEL, 0, 4, 0, 0, 0],
        rim: &GAP_RIM,
    },
    DamageRow {
        shows: "a void in the middle that is an outlet",
        levels: &[9, 9, 9, VOID, VOID, 3, 9, 9, 9],
        labels: &GAP_LABELS,
        rim: &GAP_RIM,
    },
    DamageRow {
        shows: "ground on the rim without a label",
        levels: &[9, 9, 9, 9, 5, 3, 9, 9, 9],
        labels: &GAP_LABELS,
        rim: &GAP_RIM,
    },
    DamageRow {
        shows: "a void on the rim with a label",
        levels: &GAP,
        labels: &[0, 0, 0, 0, OUT, 4, 0, 0, 0],
        rim: &GAP_RIM,
    },
    DamageRow {
        shows: "a rim that is too short",
        levels: &GAP,
        labels: &GAP_LABELS,
        rim: &[9, 9, 9, VOID, 5, 9, 9],
    },
];

#[test]
fn damaged_labellings_are_found(rt: HostRuntime) -> Result<(), Fail> {
    for row in DAMAGED.iter() {
        let refused = raised(rt.alloc(), row.levels, row.labels, row.rim).err();
        check_found(&row.shows, &refused, &Some(Refusal::Damaged))?;
    }
    Ok(())
}

//! Tests of the answers of stores of changed images.
use crate::asserting::assert_row;
use crate::good_images::{
    EAST, Good, HERE, ONE_TILE, WITH_KEPT_PLANES, WITH_SINKS, image_of, records_of_tile, wall,
};
use crate::image::{Change, Image};
use crate::image_rows::{PAGE, ROOT_A, ROOT_B};
use crate::stores::{has_replies, into_disk, is_stale, known, opened, replies_on, upgrade};
use disk::{Disk, MemDisk};
use edits::Command;
use lattice::{Corner, Height, Point, Refusal};
use std::alloc::Global;
use std::test::Fail;
use store::{Event, Reply, Store};
use water::Run;

const MIDDLE: Point = Point { y: 1, x: 1 };

// The greatest commit number.
const WORN: [Change<'static>; 1] = [Change {
    sector: ROOT_B,
    at: 24,
    bytes: &[0xff; 8],
}];

// A disk with the image and that commit number, and this many more sectors of zeros.
fn worn_disk(alloc: Global, good: Good, sectors: u32) -> Result<MemDisk, Fail> {
    let worn = image_of(alloc, good)?.with(&WORN)?;
    worn.longer(sectors)?.disk(alloc)
}

// Whether a store with room for an upgrade refuses every change.
fn refuses_changes<D: Disk>(alloc: Global, store: &mut Store<D>) -> Result<bool, Fail> {
    if upgrade(store) != Err(Refusal::Worn) {
        return Ok(false);
    }
    let events = [
        Event::Do(Command::Remove { corner: EAST }),
        Event::Do(Command::Remove { corner: HERE }),
        Event::Do(wall(12, MIDDLE)),
        Event::Do(Command::Sink { point: MIDDLE }),
        Event::Do(Command::Unsink { point: MIDDLE }),
        Event::Step,
        Event::Count,
        Event::Sinks,
        Event::Elevation(MIDDLE),
        Event::Fill(MIDDLE),
    ];
    let expected = [
        Reply::Refused(Refusal::NoTile),
        Reply::Refused(Refusal::Worn),
        Reply::Refused(Refusal::Worn),
        Reply::Refused(Refusal::Worn),
        Reply::Refused(Refusal::NoSink),
        Reply::Refused(Refusal::Worn),
        Reply::Count(1),
        Reply::Sinks(Vec::new(alloc)),
        Reply::Elevation(Height::At(1)),
        Reply::Fill(5),
    ];
    has_replies(alloc, store, &events, &expected)
}

// Whether the store refuses every change, writes nothing and leaves the tile stale.
fn stays_stale(alloc: Global, disk: MemDisk) -> Result<bool, Fail> {
    let writes = disk.writes();
    let mut store = opened(alloc, disk)?;
    let refuses = refuses_changes(alloc, &mut store);
    let numbers = known(&store);
    let is_stale = is_stale(&store, HERE);
    let writes_none = into_disk(store).writes() == writes;
    let stays = numbers.version == 1 && numbers.commits == u64::MAX && is_stale;
    Ok(refuses? && stays && writes_none)
}

// Whether a step without a stale tile answers none, writes nothing and leaves the tile fresh.
fn stays_fresh(alloc: Global, disk: MemDisk) -> Result<bool, Fail> {
    let writes = disk.writes();
    let mut store = opened(alloc, disk)?;
    let steps = has_replies(alloc, &mut store, &[Event::Step], &[Reply::Stepped(None)]);
    let commits = known(&store).commits;
    let is_stale = is_stale(&store, HERE);
    let writes_none = into_disk(store).writes() == writes;
    Ok(steps? && commits == u64::MAX && !is_stale && writes_none)
}

#[test]
fn a_commit_number_that_cannot_rise(rt: HostRuntime) -> Result<(), Fail> {
    let alloc = rt.alloc();
    let stale = stays_stale(alloc, worn_disk(alloc, ONE_TILE, 6)?)?;
    assert_row(&rt, stale, "another answer", &"stale");
    let fresh = stays_fresh(alloc, worn_disk(alloc, WITH_KEPT_PLANES, 0)?)?;
    assert_row(&rt, fresh, "another answer", &"fresh");
    Ok(())
}

// The replies of a store of the image to these events.
fn replies_of(alloc: Global, image: &Image, events: &[Event]) -> Result<Vec<Reply>, Fail> {
    let (replies, ..) = replies_on(alloc, image.disk(alloc)?, events)?;
    Ok(replies)
}

// Whether a store of the image gives these replies.
fn is_replied(
    alloc: Global,
    image: &Image,
    events: &[Event],
    expected: &[Reply],
) -> Result<bool, Fail> {
    Ok(replies_of(alloc, image, events)?.as_slice() == expected)
}

fn questions() -> [Event; 5] {
    [
        Event::Elevation(MIDDLE),
        Event::Fill(MIDDLE),
        Event::Direction(MIDDLE),
        Event::Trace(MIDDLE),
        Event::Watershed(MIDDLE),
    ]
}

// A row of A at this y, as a run.
fn line(y: i32) -> Run {
    Run {
        y,
        first: 0,
        last: 2,
    }
}

// The answers about A with a sink in its middle.
fn answers_by_a_sink(alloc: Global) -> Result<[Reply; 5], Fail> {
    let path = Vec::from_slice(alloc, &[MIDDLE])?;
    let runs = Vec::from_slice(alloc, &[line(2), line(1), line(0)])?;
    Ok([
        Reply::Elevation(Height::At(1)),
        Reply::Fill(1),
        Reply::Direction(0),
        Reply::Trace(path),
        Reply::Watershed(runs),
    ])
}

fn has_answers_by_a_sink(alloc: Global, image: &Image) -> Result<bool, Fail> {
    let expected = answers_by_a_sink(alloc)?;
    is_replied(alloc, image, &questions(), &expected)
}

// If the kept planes of A are right, they change no answer.
fn has_answers_of(alloc: Global, kept: &Image, plain: &Image) -> Result<bool, Fail> {
    let expected = replies_of(alloc, plain, &questions())?;
    is_replied(alloc, kept, &questions(), &expected)
}

#[test]
fn a_sink_takes_water_and_kept_planes_change_no_answer(rt: HostRuntime) -> Result<(), Fail> {
    let alloc = rt.alloc();
    let by_a_sink = has_answers_by_a_sink(alloc, &image_of(alloc, WITH_SINKS)?)?;
    assert_row(&rt, by_a_sink, "another answer", &"a sink");
    let kept = image_of(alloc, WITH_KEPT_PLANES)?;
    let is_same = has_answers_of(alloc, &kept, &image_of(alloc, ONE_TILE)?)?;
    assert_row(&rt, is_same, "another answer", &"kept planes");
    Ok(())
}

// The kept level of the middle is lower than all around it, as for an outlet. By its height the middle isn't one.
const LOW_MIDDLE: [Change<'static>; 2] = [
    Change {
        sector: 13,
        at: 8,
        bytes: &[0, 0],
    },
    Change {
        sector: 15,
        at: 8,
        bytes: &[0xff, 0xff],
    },
];

fn finds_no_way(alloc: Global, image: &Image) -> Result<bool, Fail> {
    let events = [
        Event::Elevation(MIDDLE),
        Event::Direction(MIDDLE),
        Event::Elevation(MIDDLE),
    ];
    let expected = [
        Reply::Elevation(Height::At(1)),
        Reply::Refused(Refusal::Damaged),
        Reply::Elevation(Height::At(1)),
    ];
    is_replied(alloc, image, &events, &expected)
}

#[test]
fn a_flat_without_a_way_is_found(rt: HostRuntime) -> Result<(), Fail> {
    let alloc = rt.alloc();
    let image = image_of(alloc, WITH_KEPT_PLANES)?.with(&LOW_MIDDLE)?;
    let is_found = finds_no_way(alloc, &image)?;
    assert_row(&rt, is_found, "another answer", &"a low middle");
    Ok(())
}

// An index, the level and the label kept there, and the level of the middle that a store then answers; none if it
// answers Damaged. The middle has index 4, and the rim point that its label names has index 8.
type Mark = (usize, [u8; 2], [u8; 2], Option<i16>);

const NO_LEVEL: [u8; 2] = [0, 0x80];

const NO_LABEL: [u8; 2] = [0xfe, 0xff];

const MARKS: [Mark; 9] = [
    // A label that is no rim number; a void's label with a level; a void's level with a label; both, on ground.
    (4, [5, 0], [8, 0], None),
    (4, [5, 0], NO_LABEL, None),
    (4, NO_LEVEL, [7, 0], None),
    (4, NO_LEVEL, NO_LABEL, None),
    // A rim point whose kept planes make it void: one that another point's label names, and one that only its own label
    // names.
    (8, NO_LEVEL, NO_LABEL, None),
    (0, NO_LEVEL, NO_LABEL, None),
    // Rim points with another level than their height.
    (8, [6, 0], [7, 0], None),
    (0, [8, 0], [0, 0], None),
    // A possible level inside is accepted without a flood, which shows that the kept planes are read.
    (4, [7, 0], [7, 0], Some(7)),
];

// The image with these marks in its kept planes.
fn marked(image: &Image, mark: Mark) -> Result<Image, Fail> {
    let (index, level, label, _) = mark;
    let at = index.wrapping_mul(2);
    image.with(&[
        Change {
            sector: 13,
            at,
            bytes: &level,
        },
        Change {
            sector: 15,
            at,
            bytes: &label,
        },
    ])
}

fn filled(answer: Option<i16>) -> Reply {
    match answer {
        Some(level) => Reply::Fill(level),
        None => Reply::Refused(Refusal::Damaged),
    }
}

// Whether a store of the image gives this level of the middle. On any answer the store still works: its heights are
// read, and after a wall has made the tile stale it is flooded.
fn fills(alloc: Global, image: &Image, answer: Option<i16>) -> Result<bool, Fail> {
    let events = [
        Event::Elevation(MIDDLE),
        Event::Fill(MIDDLE),
        Event::Elevation(MIDDLE),
        Event::Do(wall(12, MIDDLE)),
        Event::Fill(MIDDLE),
    ];
    let expected = [
        Reply::Elevation(Height::At(1)),
        filled(answer),
        Reply::Elevation(Height::At(1)),
        Reply::Done(2),
        Reply::Fill(12),
    ];
    is_replied(alloc, image, &events, &expected)
}

#[test]
fn wrong_marks_are_found(rt: HostRuntime) -> Result<(), Fail> {
    let alloc = rt.alloc();
    let image = image_of(alloc, WITH_KEPT_PLANES)?;
    for mark in MARKS.iter() {
        let is_found = is_found(alloc, &marked(&image, *mark)?, *mark)?;
        assert_row(&rt, is_found, "another answer", mark);
    }
    Ok(())
}

// Whether the store finds the mark if the level is none, by questions about that point and about others.
fn is_found(alloc: Global, marked: &Image, mark: Mark) -> Result<bool, Fail> {
    let (.., answer) = mark;
    let fills = fills(alloc, marked, answer)?;
    Ok(fills && is_found_around(alloc, marked)? != answer.is_some())
}

// Whether a store of the image answers Damaged to each question that follows water from the point or to it, and still
// reads its heights.
fn is_found_from(alloc: Global, image: &Image, point: Point) -> Result<bool, Fail> {
    let events = [
        Event::Direction(point),
        Event::Elevation(MIDDLE),
        Event::Trace(point),
        Event::Watershed(point),
        Event::Elevation(MIDDLE),
    ];
    let expected = [
        Reply::Refused(Refusal::Damaged),
        Reply::Elevation(Height::At(1)),
        Reply::Refused(Refusal::Damaged),
        Reply::Refused(Refusal::Damaged),
        Reply::Elevation(Height::At(1)),
    ];
    is_replied(alloc, image, &events, &expected)
}

// The middle, and two points beside it, with the indices 0 and 8.
const AROUND: [Point; 3] = [MIDDLE, Point { y: 2, x: 0 }, Point { y: 0, x: 2 }];

fn is_found_around(alloc: Global, image: &Image) -> Result<bool, Fail> {
    for point in &AROUND {
        if !is_found_from(alloc, image, *point)? {
            return Ok(false);
        }
    }
    Ok(true)
}

// An index of a rim point's height and the bytes written there: the point then has no height, or another one than its
// kept level.
const RIM_HEIGHTS: [(usize, [u8; 2]); 3] = [(0, [0x80, 0]), (0, [0, 8]), (16, [0, 6])];

fn is_height_seen(alloc: Global, image: &Image, height: (usize, [u8; 2])) -> Result<bool, Fail> {
    let (at, bytes) = height;
    let changed = image.with(&[Change {
        sector: PAGE,
        at,
        bytes: &bytes,
    }])?;
    fills(alloc, &changed, None)
}

#[test]
fn heights_of_the_rim_are_seen(rt: HostRuntime) -> Result<(), Fail> {
    let alloc = rt.alloc();
    let image = image_of(alloc, WITH_KEPT_PLANES)?;
    for height in RIM_HEIGHTS.iter() {
        let is_seen = is_height_seen(alloc, &image, *height)?;
        assert_row(&rt, is_seen, "another answer", height);
    }
    Ok(())
}

// The kept planes of the tile U: 9 9 9 9 / 9 void 5 9 / 9 5 5 9 / 9 9 9 5 and 0 1 2 3 / 4 void 11 5 / 6 11 11 7 / 8 9
// 10 11.
const BOWL_LEVELS: [u8; 32] = [
    9, 0, 9, 0, 9, 0, 9, 0, 9, 0, 0, 0x80, 5, 0, 9, 0, 9, 0, 5, 0, 5, 0, 9, 0, 9, 0, 9, 0, 9, 0, 5,
    0,
];

const BOWL_LABELS: [u8; 32] = [
    0, 0, 1, 0, 2, 0, 3, 0, 4, 0, 0xfe, 0xff, 11, 0, 5, 0, 6, 0, 11, 0, 11, 0, 7, 0, 8, 0, 9, 0,
    10, 0, 11, 0,
];

// A store of that tile after a step, except for the marks of a void.
const VOID_IN_A_BOWL: Good = Good {
    version: 1,
    side: 4,
    capacity: 1,
    lines: &["import N00E000 $U"],
    changes: &[
        Change {
            sector: ROOT_B,
            at: 72,
            bytes: &[12, 0, 0, 0, 14],
        },
        Change {
            sector: 12,
            at: 0,
            bytes: &[13],
        },
        Change {
            sector: 13,
            at: 0,
            bytes: &BOWL_LEVELS,
        },
        Change {
            sector: 14,
            at: 0,
            bytes: &[15],
        },
        Change {
            sector: 15,
            at: 0,
            bytes: &BOWL_LABELS,
        },
    ],
};

const INNER: Point = Point { y: 1, x: 2 };

// A question that reaches the marked point finds the mark, also if the levels around are cached; others are answered.
fn finds_the_mark(alloc: Global, image: &Image) -> Result<bool, Fail> {
    let events = [
        Event::Fill(INNER),
        Event::Fill(Point { y: 2, x: 3 }),
        Event::Direction(Point { y: 0, x: 3 }),
        Event::Direction(INNER),
        Event::Direction(INNER),
        Event::Elevation(INNER),
    ];
    let expected = [
        Reply::Fill(5),
        Reply::Fill(9),
        Reply::Direction(0),
        Reply::Refused(Refusal::Damaged),
        Reply::Refused(Refusal::Damaged),
        Reply::Elevation(Height::At(1)),
    ];
    is_replied(alloc, image, &events, &expected)
}

#[test]
fn a_mark_of_a_void_is_found_among_inner_points(rt: HostRuntime) -> Result<(), Fail> {
    let alloc = rt.alloc();
    let is_found = finds_the_mark(alloc, &image_of(alloc, VOID_IN_A_BOWL)?)?;
    assert_row(&rt, is_found, "another answer", &"a bowl");
    Ok(())
}

// The state of a tile with kept planes: the number of commands done, whether it is stale, and the pages of the records
// of its levels and labels.
type Left = (u64, bool, [u32; 2]);

// Whether the store, whose tile is fresh, does the command as the one with this number, and whether the tile is stale
// then.
fn makes_stale<D: Disk>(
    alloc: Global,
    store: &mut Store<D>,
    command: Command,
    corner: Corner,
    left: Left,
) -> Result<bool, Fail> {
    let (count, stale, _) = left;
    let was_stale = is_stale(store, corner);
    let is_done = has_replies(alloc, store, &[Event::Do(command)], &[Reply::Done(count)]);
    let is_stale = is_stale(store, corner);
    Ok(is_done? && !was_stale && is_stale == stale)
}

// Whether the command leaves this state of the kept planes of the tile with this corner and number on the disk.
fn is_left(
    alloc: Global,
    disk: MemDisk,
    command: Command,
    tile: (Corner, usize),
    left: Left,
) -> Result<bool, Fail> {
    let (corner, number) = tile;
    let (.., records) = left;
    let mut store = opened(alloc, disk)?;
    let makes_stale = makes_stale(alloc, &mut store, command, corner, left);
    let mut disk = into_disk(store);
    Ok(makes_stale? && has_records(alloc, &mut disk, number, records)?)
}

fn has_records<D: Disk>(
    alloc: Global,
    disk: &mut D,
    number: usize,
    records: [u32; 2],
) -> Result<bool, Fail> {
    let left = Image::of(alloc, disk)?;
    let [_, levels, labels] = records_of_tile(alloc, &left, number)?;
    Ok([levels, labels] == records)
}

// There is no tile to the east.
fn is_east_stale(alloc: Global, disk: MemDisk) -> Result<bool, Fail> {
    let store = opened(alloc, disk)?;
    Ok(is_stale(&store, EAST))
}

#[test]
fn a_command_drops_kept_planes(rt: HostRuntime) -> Result<(), Fail> {
    let alloc = rt.alloc();
    let image = image_of(alloc, WITH_KEPT_PLANES)?;
    let dropped = (2, true, [0, 0]);
    let by_wall = is_left(
        alloc,
        image.disk(alloc)?,
        wall(12, MIDDLE),
        (HERE, 0),
        dropped,
    )?;
    assert_row(&rt, by_wall, "other planes", &"by a wall");
    let sink = Command::Sink { point: MIDDLE };
    let by_sink = is_left(alloc, image.disk(alloc)?, sink, (HERE, 0), dropped)?;
    assert_row(&rt, by_sink, "other planes", &"by a sink");
    let is_stale = is_east_stale(alloc, image.disk(alloc)?)?;
    assert_row(&rt, !is_stale, "a stale tile", &"east");
    Ok(())
}

const FAR: Corner = Corner { lat: 0, lon: 2 };

// Levels from page 20 on and labels from page 22 on, for the second of two tiles.
const KEPT_OF_THE_SECOND: [Change<'static>; 3] = [
    Change {
        sector: ROOT_A,
        at: 88,
        bytes: &[20, 0, 0, 0, 22],
    },
    Change {
        sector: 20,
        at: 0,
        bytes: &[21],
    },
    Change {
        sector: 22,
        at: 0,
        bytes: &[23],
    },
];

// A second tile with kept planes, its corner, and its state after the first tile is edited in its middle.
type Neighbour = (&'static str, Good, Corner, Left);

const NEIGHBOURS: [Neighbour; 2] = [
    ("beside", BESIDE, EAST, (3, true, [0, 0])),
    ("farther off", FARTHER_OFF, FAR, (3, false, [20, 22])),
];

const BESIDE: Good = Good {
    version: 1,
    side: 3,
    capacity: 2,
    lines: &["import N00E000 $A", "import N00E001 $A"],
    changes: &KEPT_OF_THE_SECOND,
};

const FARTHER_OFF: Good = Good {
    version: 1,
    side: 3,
    capacity: 2,
    lines: &["import N00E000 $A", "import N00E002 $A"],
    changes: &KEPT_OF_THE_SECOND,
};

#[test]
fn planes_of_neighbours_are_dropped(rt: HostRuntime) -> Result<(), Fail> {
    let alloc = rt.alloc();
    for (name, good, corner, left) in NEIGHBOURS {
        let disk = image_of(alloc, good)?.disk(alloc)?;
        let is_left = is_left(alloc, disk, wall(12, MIDDLE), (corner, 1), left)?;
        assert_row(&rt, is_left, "other planes", &name);
    }
    Ok(())
}

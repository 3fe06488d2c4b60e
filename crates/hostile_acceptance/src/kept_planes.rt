//! Tests of kept planes that no flood wrote: each question of each point is answered or refused with an allowed number,
//! and no flow path has a point twice.
use crate::asserting::assert_row;
use crate::good_images::{Good, image_of};
use crate::image::{Image, Sector};
use crate::opening::{expected_opening, listed};
use crate::stores::{into_disk, opened, run};
use disk::Disk;
use lattice::{Point, Refusal};
use seeded_random::Random;
use std::alloc::Global;
use std::process::Abort;
use std::test::Fail;
use store::{Event, Reply, Store};

/// Mosaics of one to four tiles whose planes are all kept, and the seeds of their changes.
const MOSAICS: [(&str, &[&str], u64); 4] = [
    ("a pit", &["import N00E000 $A", "step"], 1),
    (
        "a flat beside a valley",
        &["import N00E000 $F", "import N00E001 $B", "step", "step"],
        2,
    ),
    (
        "three flats around a corner",
        &[
            "import N00E000 $E",
            "import N00E001 $E",
            "import N01E000 $E",
            "step",
            "step",
            "step",
        ],
        3,
    ),
    (
        "four tiles, one with a void",
        &[
            "import N00E000 $A",
            "import N00E001 $V",
            "import N01E000 $E",
            "import N01E001 $B",
            "step",
            "step",
            "step",
            "step",
        ],
        4,
    ),
];

/// The number of changed images for each mosaic.
const TRIES: u64 = 25;

/// The number of values of a plane.
const VALUES: usize = 9;

/// How planes are changed: one value in so many at random, each value to that of the point before it, or each plane to
/// the one before it.
#[derive(Clone, Copy, Debug)]
enum Kind {
    Values(u32),
    Shifted,
    Swapped,
}

const KINDS: [Kind; 5] = [
    Kind::Values(12),
    Kind::Values(2),
    Kind::Values(1),
    Kind::Shifted,
    Kind::Swapped,
];

/// Refusals of a question: for its point, or because of kept planes.
const OF_QUESTIONS: [Refusal; 3] = [Refusal::Outside, Refusal::Void, Refusal::Damaged];

// The pages of the kept levels and labels.
fn pages_of(alloc: Global, image: &Image) -> Result<Vec<u32>, Fail> {
    let root = expected_opening(alloc, &image.sectors)?;
    let mut pages = Vec::new(alloc);
    for entry in &root.entries {
        let [_, levels, labels] = entry.records;
        pages.extend_from_slice(&listed(alloc, &image.sectors, &root, levels)?)?;
        pages.extend_from_slice(&listed(alloc, &image.sectors, &root, labels)?)?;
    }
    Ok(pages)
}

// The image with changed planes.
fn changed(random: &mut Random, image: &Image, pages: &[u32], kind: Kind) -> Result<Image, Fail> {
    let mut sectors = image.sectors.clone()?;
    let mut before = page(&image.sectors, pages.last())?;
    for number in pages {
        let old = page(&image.sectors, Some(number))?;
        if let Some(plane) = sectors.get_mut(*number as usize) {
            change(random, plane, kind, &before);
        }
        before = old;
    }
    Ok(Image { sectors })
}

fn page(sectors: &[Sector], number: Option<&u32>) -> Result<Sector, Fail> {
    let number = *number.ok_or("no plane is kept")?;
    Ok(*sectors.get(number as usize).ok_or("no page")?)
}

fn change(random: &mut Random, plane: &mut Sector, kind: Kind, before: &Sector) {
    let old = *plane;
    match kind {
        Kind::Values(share) => change_values(random, plane, share),
        Kind::Shifted => plane[2..2 * VALUES].copy_from_slice(&old[..2 * VALUES - 2]),
        Kind::Swapped => *plane = *before,
    }
}

fn change_values(random: &mut Random, plane: &mut Sector, share: u32) {
    for i in 0..VALUES {
        if share <= 1 || random.next_below(share) == 0 {
            plane[2 * i] = random.next_below(12) as u8;
            plane[2 * i + 1] = random.one_of(&[0, 0, 0, 0, 0, 0, 1, 0x7f, 0x80, 0xff]);
        }
    }
}

// The store's replies to each question of each point, and of points around the mosaic.
fn ask_all<D: Disk>(alloc: Global, store: &mut Store<D>) -> Result<Vec<Reply>, Fail> {
    let mut replies = Vec::new(alloc);
    for y in -1..6 {
        for x in -1..6 {
            run(store, &questions(Point { y, x }), &mut replies)?;
        }
    }
    Ok(replies)
}

fn questions(point: Point) -> [Event; 4] {
    [
        Event::Fill(point),
        Event::Direction(point),
        Event::Trace(point),
        Event::Watershed(point),
    ]
}

fn is_answer(reply: &Reply) -> bool {
    match reply {
        Reply::Trace(path) => has_none_twice(path),
        Reply::Refused(refusal) => OF_QUESTIONS.contains(refusal),
        _ => true,
    }
}

fn has_none_twice(path: &[Point]) -> bool {
    for k in 0..path.len() {
        if path[..k].contains(&path[k]) {
            return false;
        }
    }
    true
}

fn replies_of(alloc: Global, image: &Image) -> Result<Vec<Reply>, Fail> {
    let mut store = opened(alloc, image.disk(alloc)?)?;
    let replies = ask_all(alloc, &mut store);
    let _ = into_disk(store);
    replies
}

fn try_many(
    rt: &impl Abort,
    alloc: Global,
    name: &str,
    image: &Image,
    seed: u64,
) -> Result<(), Fail> {
    let mut random = Random::new(seed);
    let pages = pages_of(alloc, image)?;
    for number in 0..TRIES {
        let kind = random.one_of(&KINDS);
        let hostile = changed(&mut random, image, &pages, kind)?;
        for reply in &replies_of(alloc, &hostile)? {
            assert_row(rt, is_answer(reply), "kept planes", &(name, kind, number));
        }
    }
    Ok(())
}

#[test]
fn planes_that_no_flood_wrote(rt: HostRuntime) -> Result<(), Fail> {
    let alloc = rt.alloc();
    for (name, lines, seed) in MOSAICS {
        let good = Good {
            version: 1,
            side: 3,
            capacity: 4,
            lines,
            changes: &[],
        };
        try_many(&rt, alloc, name, &image_of(alloc, good)?, seed)?;
    }
    Ok(())
}

//! Opens images, and compares the result with a plain reading of their bytes.
use crate::asserting::{Place, assert_row};
use crate::good_images::{EAST, HERE, burn, import, wall};
use crate::image::Image;
use crate::opening::{Root, bytes_of_tile, expected_opening, listed};
use crate::stores::{
    Numbers, has_replies, into_disk, known, open, opened, reopen, replies, replies_on, run, seams,
    upgrade,
};
use disk::{Disk, MemDisk};
use edits::Command;
use lattice::{Corner, Point, Refusal};
use std::alloc::Global;
use std::process::Abort;
use std::test::Fail;
use store::{Event, Reply, Store};
use test_tiles::A;

/// Opens the image. It is refused with the right number; or the store has the right contents, answers twice the same,
/// and writes nothing before a change. Then a removal and all other changes are answered rightly. Answers the refusal.
pub(crate) fn check(
    rt: &impl Abort,
    alloc: Global,
    image: &Image,
    place: Place,
) -> Result<Option<Refusal>, Fail> {
    let expected = expected_opening(alloc, &image.sectors);
    let disk = image.disk(alloc)?;
    let writes = disk.writes();
    match (open(alloc, disk), expected) {
        (Ok(store), Ok(root)) => {
            let later = check_opened(rt, alloc, store, image, &root, place)?;
            assert_row(rt, later == writes, "written image", &place);
            Ok(None)
        }
        (Err((refusal, disk)), Err(expected)) => {
            assert_row(rt, refusal == expected, "refused image", &place);
            assert_row(rt, disk.writes() == writes, "written image", &place);
            Ok(Some(refusal))
        }
        (Ok(_), Err(_)) => Err("an image opens".into()),
        (Err((refusal, _)), Ok(_)) => Err(refusal.into()),
    }
}

// Answers the number of writes after all calls that change nothing.
fn check_opened(
    rt: &impl Abort,
    alloc: Global,
    store: Store<MemDisk>,
    image: &Image,
    root: &Root,
    place: Place,
) -> Result<u64, Fail> {
    let (contents, answers, disk) = asked(alloc, store, image, root)?;
    assert_row(rt, contents, "contents of image", &place);
    assert_row(rt, answers, "answers of image", &place);
    let writes = disk.writes();
    let removes = removes_a_tile(alloc, disk, root)?;
    assert_row(rt, removes, "a removal from image", &place);
    let changes = has_changes(alloc, image, root)?;
    assert_row(rt, changes, "changes of image", &place);
    Ok(writes)
}

// Whether the store has the contents of the image and answers twice the same; and its disk.
fn asked<D: Disk + Drop>(
    alloc: Global,
    store: Store<D>,
    image: &Image,
    root: &Root,
) -> Result<(bool, bool, D), Fail> {
    let mut store = store;
    let found = contents_and_answers(alloc, &mut store, image, root);
    let disk = into_disk(store);
    let (contents, answers) = found?;
    Ok((contents, answers, disk))
}

fn contents_and_answers<D: Disk>(
    alloc: Global,
    store: &mut Store<D>,
    image: &Image,
    root: &Root,
) -> Result<(bool, bool), Fail> {
    let contents = has_contents(alloc, store, image, root)?;
    let answers = answers_again(alloc, store, root)?;
    Ok((contents, answers))
}

// Whether the store has the image's contents.
fn has_contents<D: Disk>(
    alloc: Global,
    store: &mut Store<D>,
    image: &Image,
    root: &Root,
) -> Result<bool, Fail> {
    let has_numbers = known(store)
        == Numbers {
            version: root.version,
            side: root.side,
            capacity: root.capacity,
            count: root.count,
            commits: root.commits,
        };
    Ok(has_numbers && has_lists(alloc, store, root)? && has_tiles(alloc, store, image, root)?)
}

fn has_lists<D: Disk>(alloc: Global, store: &mut Store<D>, root: &Root) -> Result<bool, Fail> {
    let corners = corners_of(alloc, root)?;
    let sinks = root.sinks.clone()?;
    let expected = [Reply::Tiles(corners), Reply::Sinks(sinks)];
    has_replies(alloc, store, &[Event::Tiles, Event::Sinks], &expected)
}

fn corners_of(alloc: Global, root: &Root) -> Result<Vec<Corner>, Fail> {
    let mut corners = Vec::new(alloc);
    for entry in &root.entries {
        corners.push(entry.corner)?;
    }
    Ok(corners)
}

fn has_tiles<D: Disk>(
    alloc: Global,
    store: &mut Store<D>,
    image: &Image,
    root: &Root,
) -> Result<bool, Fail> {
    for entry in &root.entries {
        let [heights, ..] = entry.records;
        let file = file_of(alloc, image, root, heights)?;
        if !exports(alloc, store, entry.corner, file)? {
            return Ok(false);
        }
    }
    Ok(true)
}

fn exports<D: Disk>(
    alloc: Global,
    store: &mut Store<D>,
    corner: Corner,
    file: Vec<u8>,
) -> Result<bool, Fail> {
    let events = [Event::Export(corner)];
    has_replies(alloc, store, &events, &[Reply::Export(file)])
}

// The bytes of a plane: its pages joined, without the unused end of the last.
fn file_of(alloc: Global, image: &Image, root: &Root, record: u32) -> Result<Vec<u8>, Fail> {
    let mut bytes = Vec::new(alloc);
    for page in &listed(alloc, &image.sectors, root, record)? {
        let sector = image.sectors.get(*page as usize).ok_or("no page")?;
        bytes.extend_from_slice(sector)?;
    }
    bytes.truncate(bytes_of_tile(root) as usize);
    Ok(bytes)
}

// Whether each query has the same answer again, also after a reopening, and is refused only for its point.
fn answers_again<D: Disk>(alloc: Global, store: &mut Store<D>, root: &Root) -> Result<bool, Fail> {
    let first = answers(alloc, store, root)?;
    let before = seams(store);
    reopen(store)?;
    let second = answers(alloc, store, root)?;
    Ok(
        first.as_slice() == second.as_slice()
            && seams(store) == before
            && are_answers(&first, keeps_planes(root)),
    )
}

fn keeps_planes(root: &Root) -> bool {
    for entry in &root.entries {
        let [_, levels, _] = entry.records;
        if levels != 0 {
            return true;
        }
    }
    false
}

fn are_answers(replies: &[Reply], keeps_planes: bool) -> bool {
    for reply in replies {
        if !is_answer(reply, keeps_planes) {
            return false;
        }
    }
    true
}

// The refusals for the point or the tile of a question.
const OF_QUESTIONS: [Refusal; 3] = [Refusal::Outside, Refusal::Void, Refusal::NoTile];

// Kept bytes may be no labelling: then, and only then, Damaged is an answer of an open store.
fn is_answer(reply: &Reply, keeps_planes: bool) -> bool {
    match reply {
        Reply::Refused(refusal) => {
            OF_QUESTIONS.contains(refusal) || (keeps_planes && *refusal == Refusal::Damaged)
        }
        _ => true,
    }
}

// The store's contents, and its answers about the first tiles and a point in each, and about an absent tile and a point
// outside.
fn answers<D: Disk>(alloc: Global, store: &mut Store<D>, root: &Root) -> Result<Vec<Reply>, Fail> {
    let mut replies = Vec::new(alloc);
    run(
        store,
        &[Event::Tiles, Event::Sinks, Event::Count],
        &mut replies,
    )?;
    for entry in root.entries.iter().take(2) {
        let point = inside(root, entry.corner);
        run(store, &questions(entry.corner, point), &mut replies)?;
    }
    let nowhere = Corner { lat: -50, lon: 50 };
    let outside = Point { y: -99, x: 99 };
    run(store, &questions(nowhere, outside), &mut replies)?;
    Ok(replies)
}

fn questions(corner: Corner, point: Point) -> [Event; 6] {
    [
        Event::Export(corner),
        Event::Elevation(point),
        Event::Fill(point),
        Event::Direction(point),
        Event::Trace(point),
        Event::Watershed(point),
    ]
}

// A point inside the tile.
fn inside(root: &Root, corner: Corner) -> Point {
    let edge = i32::try_from(root.side).unwrap_or(1).wrapping_sub(1);
    let south = i32::from(corner.lat).wrapping_mul(edge);
    let west = i32::from(corner.lon).wrapping_mul(edge);
    Point {
        y: south.wrapping_add(1),
        x: west.wrapping_add(1),
    }
}

// The first tile's corner, or another one.
fn first_corner(root: &Root) -> Corner {
    match root.entries.first() {
        Some(entry) => entry.corner,
        None => HERE,
    }
}

// The root on a store's disk.
fn root_left<D: Disk + Drop>(alloc: Global, disk: D) -> Result<Root, Fail> {
    let mut disk = disk;
    let left = Image::of(alloc, &mut disk)?;
    Ok(expected_opening(alloc, &left.sectors)?)
}

// The expected reply to a removal of the first tile.
fn removal_expected(root: &Root) -> Reply {
    if root.entries.is_empty() {
        Reply::Refused(Refusal::NoTile)
    } else if root.commits == u64::MAX {
        Reply::Refused(Refusal::Worn)
    } else {
        Reply::Done(root.count.wrapping_add(1))
    }
}

// Whether a tile is removed, and the image then lacks it.
fn removes_a_tile<D: Disk + Drop>(alloc: Global, disk: D, root: &Root) -> Result<bool, Fail> {
    let (replies, left) = removed(alloc, disk, first_corner(root))?;
    Ok(is_answered(&replies, root) && is_removed(&left, root))
}

fn removed<D: Disk + Drop>(
    alloc: Global,
    disk: D,
    corner: Corner,
) -> Result<(Vec<Reply>, Root), Fail> {
    changed(alloc, disk, &[Event::Do(Command::Remove { corner })])
}

fn is_answered(replies: &[Reply], root: &Root) -> bool {
    replies == [removal_expected(root)].as_slice()
}

// Whether the root left on the disk lacks the tile, if one could be removed.
fn is_removed(left: &Root, root: &Root) -> bool {
    let can_be = !root.entries.is_empty() && root.commits != u64::MAX;
    let removed = u64::from(can_be);
    let tiles = (left.entries.len() as u64).wrapping_add(removed);
    left.count == root.count.wrapping_add(removed)
        && left.commits == root.commits.wrapping_add(removed)
        && tiles == root.entries.len() as u64
        && left.sinks.as_slice() == root.sinks.as_slice()
}

// The replies of a store on the disk, and the root that it leaves.
fn changed<D: Disk + Drop>(
    alloc: Global,
    disk: D,
    events: &[Event],
) -> Result<(Vec<Reply>, Root), Fail> {
    let (replies, _, disk) = replies_on(alloc, disk, events)?;
    let left = root_left(alloc, disk)?;
    Ok((replies, left))
}

// A step, each command and a step once more.
fn changes(alloc: Global, corner: Corner, point: Point) -> Result<[Event; 9], Fail> {
    let importing = import(alloc, EAST, &A)?;
    let (from, to) = (point, point);
    Ok([
        Event::Step,
        Event::Do(importing),
        Event::Do(Command::Sink { point }),
        Event::Do(Command::Patch {
            from,
            to,
            height: 4,
        }),
        Event::Do(wall(12, point)),
        Event::Do(burn(1, point)),
        Event::Do(Command::Unsink { point }),
        Event::Step,
        Event::Do(Command::Remove { corner }),
    ])
}

// Whether each of these changes is made or refused, and an upgrade if there is room, and the image then has those that
// were made.
fn has_changes(alloc: Global, image: &Image, root: &Root) -> Result<bool, Fail> {
    let disk = image.longer(48)?.disk(alloc)?;
    let (made, disk) = make_changes(alloc, disk, root)?;
    let left = root_left(alloc, disk)?;
    let commits = made
        .commands
        .wrapping_add(made.steps)
        .wrapping_add(made.upgrades);
    Ok(
        !made.has_faults
            && left.count == root.count.wrapping_add(made.commands)
            && left.commits == root.commits.wrapping_add(commits),
    )
}

fn make_changes<D: Disk + Drop>(alloc: Global, disk: D, root: &Root) -> Result<(Made, D), Fail> {
    let mut store = opened(alloc, disk)?;
    let made = make_all(alloc, &mut store, root);
    let disk = into_disk(store);
    Ok((made?, disk))
}

fn make_all<D: Disk>(alloc: Global, store: &mut Store<D>, root: &Root) -> Result<Made, Fail> {
    let corner = first_corner(root);
    let events = changes(alloc, corner, inside(root, corner))?;
    let replies = replies(alloc, store, &events)?;
    let mut made = made_by(&replies);
    made.upgrades = u64::from(upgrade(store).is_ok());
    Ok(made)
}

// The refusals for a disk that fails or memory that is refused.
const FAULTS: [Refusal; 3] = [Refusal::Device, Refusal::Failed, Refusal::NoMemory];

// The numbers of commands, steps and upgrades done, and whether some reply is a refusal of the disk or of memory.
#[derive(Clone, Copy)]
struct Made {
    commands: u64,
    steps: u64,
    upgrades: u64,
    has_faults: bool,
}

fn made_by(replies: &[Reply]) -> Made {
    let mut made = Made {
        commands: 0,
        steps: 0,
        upgrades: 0,
        has_faults: false,
    };
    for reply in replies {
        match reply {
            Reply::Done(_) => made.commands = made.commands.wrapping_add(1),
            Reply::Stepped(Some(_)) => made.steps = made.steps.wrapping_add(1),
            Reply::Refused(refusal) => made.has_faults |= FAULTS.contains(refusal),
            _ => {}
        }
    }
    made
}

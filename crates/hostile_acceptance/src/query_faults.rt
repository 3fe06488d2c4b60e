//! Tests with a fault at each call of each query and of the opening before it, in stores of either version, with stale
//! and with fresh tiles.
use crate::asserting::assert_row;
use crate::good_images::{EAST, Good, HERE, image_of};
use crate::image::Image;
use crate::stores::{
    Numbers, into_disk, is_stale, known, open, opened, reopen, replies, seams, upgrade,
};
use disk::{Disk, FaultOnceDisk, MemDisk};
use edits::Command;
use lattice::{Height, Point, Refusal};
use std::alloc::Global;
use std::process::Abort;
use std::test::Fail;
use store::{Event, Reply, Store};
use test_tiles::B;
use water::Run;

/// More calls of the disk than an opening and a query make.
const MANY_CALLS: u64 = 120;

const STALE: [&str; 2] = ["import N00E000 $A", "import N00E001 $B"];

const ONE_FRESH: [&str; 3] = ["import N00E000 $A", "import N00E001 $B", "step"];

const BOTH_FRESH: [&str; 4] = ["import N00E000 $A", "import N00E001 $B", "step", "step"];

/// Stores of two tiles, their versions, and the lines that change them.
const STORES: [(&str, u32, &[&str]); 6] = [
    ("stale, by the first version", 1, &STALE),
    ("one fresh, by the first version", 1, &ONE_FRESH),
    ("both fresh, by the first version", 1, &BOTH_FRESH),
    ("stale, by the second version", 2, &STALE),
    ("one fresh, by the second version", 2, &ONE_FRESH),
    ("both fresh, by the second version", 2, &BOTH_FRESH),
];

/// The point where the two tiles meet in the south: 5 in one tile, 9 in the other.
const BETWEEN: Point = Point { y: 0, x: 2 };

fn at(y: i32, x: i32) -> Point {
    Point { y, x }
}

fn line(y: i32, first: i32, last: i32) -> Run {
    Run { y, first, last }
}

// The questions to a store. The count of seams has the next number after these.
fn questions() -> [Event; 6] {
    [
        Event::Elevation(BETWEEN),
        Event::Fill(at(1, 1)),
        Event::Direction(BETWEEN),
        Event::Trace(at(0, 0)),
        Event::Watershed(BETWEEN),
        Event::Export(EAST),
    ]
}

// The mosaic is 9 9 9 9 9 / 9 1 9 1 1 / 9 9 5 9 9. Water leaves it at the east end of its middle row.
fn answers(alloc: Global) -> Result<[Reply; 7], Fail> {
    let path = [at(0, 0), at(1, 1), BETWEEN, at(1, 3), at(1, 4)];
    let runs = [line(2, 0, 1), line(1, 0, 1), line(0, 0, 2)];
    let path = Vec::from_slice(alloc, &path)?;
    let runs = Vec::from_slice(alloc, &runs)?;
    let bytes = Vec::from_slice(alloc, &B)?;
    Ok([
        Reply::Elevation(Height::At(5)),
        Reply::Fill(5),
        Reply::Direction(128),
        Reply::Trace(path),
        Reply::Watershed(runs),
        Reply::Export(bytes),
        Reply::Count(1),
    ])
}

// The store's reply to the question with this number.
fn reply<D: Disk>(alloc: Global, store: &mut Store<D>, number: usize) -> Result<Reply, Fail> {
    match questions().chunks(1).nth(number) {
        Some(question) => only_reply(alloc, store, question),
        None => Ok(seams_of(store)),
    }
}

fn only_reply<D: Disk>(
    alloc: Global,
    store: &mut Store<D>,
    question: &[Event],
) -> Result<Reply, Fail> {
    let mut replies = replies(alloc, store, question)?;
    match replies.pop() {
        Some(reply) => Ok(reply),
        None => Err("no reply".into()),
    }
}

fn seams_of<D: Disk>(store: &mut Store<D>) -> Reply {
    match seams(store) {
        Ok(count) => Reply::Count(count),
        Err(refusal) => Reply::Refused(refusal),
    }
}

// A store's answers about itself and its two tiles, without its disk.
fn told<D: Disk>(store: &Store<D>) -> (Numbers, bool, bool) {
    (known(store), is_stale(store, HERE), is_stale(store, EAST))
}

// Whether each call that can refuse is refused with Failed.
fn refuses_all<D: Disk>(alloc: Global, store: &mut Store<D>) -> Result<bool, Fail> {
    let questions = are_refused(alloc, store, &questions())?;
    let others = refuses_others(alloc, store)?;
    Ok(
        questions
            && others
            && seams(store) == Err(Refusal::Failed)
            && upgrade(store) == Err(Refusal::Failed),
    )
}

fn refuses_others<D: Disk>(alloc: Global, store: &mut Store<D>) -> Result<bool, Fail> {
    let others = [
        Event::Do(Command::Remove { corner: HERE }),
        Event::Step,
        Event::Tiles,
        Event::Sinks,
    ];
    are_refused(alloc, store, &others)
}

fn are_refused<D: Disk>(
    alloc: Global,
    store: &mut Store<D>,
    events: &[Event],
) -> Result<bool, Fail> {
    Ok(are_failed(&replies(alloc, store, events)?))
}

fn are_failed(replies: &[Reply]) -> bool {
    for reply in replies {
        if *reply != Reply::Refused(Refusal::Failed) {
            return false;
        }
    }
    true
}

// Opens the disk, a second time if a fault refuses that. Answers whether one did.
fn opened_twice<D: Disk + Drop>(alloc: Global, disk: D) -> Result<(Store<D>, bool), Fail> {
    match open(alloc, disk) {
        Ok(store) => Ok((store, false)),
        Err((Refusal::Device, disk)) => Ok((opened(alloc, disk)?, true)),
        Err(_) => Err("refused otherwise".into()),
    }
}

// Makes this call of the opening or of the query fail. Answers whether it was one of the query; none if there is no
// such call.
fn fault_at<D: Disk + Drop>(
    alloc: Global,
    disk: D,
    number: usize,
    answer: &Reply,
) -> Result<Option<bool>, Fail> {
    let (mut store, in_opening) = opened_twice(alloc, disk)?;
    let in_query = fault_in_query(alloc, &mut store, number, answer);
    let _ = into_disk(store);
    match in_query? {
        true if in_opening => Err("two faults".into()),
        true => Ok(Some(true)),
        false => Ok(in_opening.then_some(false)),
    }
}

// Whether a call of the query fails. Then every call is refused, and nothing is forgotten, until the store is reopened.
fn fault_in_query<D: Disk>(
    alloc: Global,
    store: &mut Store<D>,
    number: usize,
    answer: &Reply,
) -> Result<bool, Fail> {
    let before = told(store);
    let first = reply(alloc, store, number)?;
    if first == *answer {
        return Ok(false);
    }
    let is_failed = first == Reply::Refused(Refusal::Device) && refuses_all(alloc, store)?;
    if !is_failed || told(store) != before {
        return Err(("not failed", number, first).into());
    }
    reopen(store)?;
    let again = reply(alloc, store, number)?;
    if told(store) == before && again == *answer {
        Ok(true)
    } else {
        Err(("another answer once it is open again", number, again).into())
    }
}

// Makes each call of an opening and a query fail in turn. Answers how many of them were the query's.
fn fault_at_each(alloc: Global, image: &Image, number: usize, answer: &Reply) -> Result<u64, Fail> {
    let mut faults: u64 = 0;
    for call in 0..MANY_CALLS {
        let disk = FaultOnceDisk::new(image.disk(alloc)?, call);
        match fault_at(alloc, disk, number, answer)? {
            Some(in_query) => faults = faults.saturating_add(u64::from(in_query)),
            None => return Ok(faults),
        }
    }
    Err("a query that isn't through".into())
}

fn fault_in_each_query(
    rt: &impl Abort,
    alloc: Global,
    name: &str,
    image: &Image,
    answers: &[Reply],
) -> Result<(), Fail> {
    for (answer, number) in answers.iter().zip(0..answers.len()) {
        let faults = fault_at_each(alloc, image, number, answer)?;
        let place = (name, number as u64);
        assert_row(rt, 0 < faults, "no call to fail in query", &place);
    }
    Ok(())
}

fn fault_in_each_store(rt: &impl Abort, alloc: Global, answers: &[Reply]) -> Result<(), Fail> {
    for (name, version, lines) in STORES {
        let image = two_tiles(alloc, version, lines)?;
        fault_in_each_query(rt, alloc, name, &image, answers)?;
    }
    Ok(())
}

// The image of a store of two tiles, after these lines.
fn two_tiles(alloc: Global, version: u32, lines: &'static [&'static str]) -> Result<Image, Fail> {
    let good = Good {
        version,
        side: 3,
        capacity: 2,
        lines,
        changes: &[],
    };
    image_of(alloc, good)
}

#[test]
fn a_fault_at_each_call_of_each_query(rt: HostRuntime) -> Result<(), Fail> {
    let answers = answers(rt.alloc())?;
    fault_in_each_store(&rt, rt.alloc(), &answers)
}

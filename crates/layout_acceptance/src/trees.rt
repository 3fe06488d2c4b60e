//! Tests of trees with two tiles: what is read back after commits, and what a stop after each call leaves.
ghost use Rattle.std.specs.Prelude.{◌≡◌, map, OnOk, IfOk};
ghost use Rattle.disk.specs.MemDisk.{sectors_of};
ghost use Rattle.cow_tree.specs.Trees.{corners_of, root_of};

use catalogue::Samples;
use cow_tree::{Plane, Tree};
use disk::{Disk, FaultOnceDisk, FuseDisk, MemDisk, Torn};
use lattice::{Corner, Refusal, Side};
use page_codec::Format;
use std::alloc::Global;
use std::test::Fail;
use test_tiles::{A as FIRST, A_SAMPLES as FIRST_SAMPLES, B as SECOND, check_all, check_row};

// Room for two tiles of side 3; each plane takes one page.
const SECTORS: u32 = 24;

// The samples of the second tile.
const SECOND_SAMPLES: [i16; 9] = [9, 9, 9, 9, 1, 1, 9, 9, 9];

fn corner(lon: i16) -> Result<Corner, Fail> {
    Ok(Corner::new(0, lon).ok_or("no corner")?)
}

fn formatted(alloc: Global) -> Result<MemDisk, Fail>
    ensures { IfOk result (λ disk. sectors_of disk ≡ SECTORS) }
{
    let mut disk = MemDisk::new(alloc, SECTORS)?;
    let side = Side::new(3).ok_or("no side")?;
    Tree::format(&mut disk, Format::first(side, 2)).map_err(|_| "not formatted")?;
    Ok(disk)
}

fn opened<D: Disk + Drop>(alloc: Global, disk: D) -> Result<Tree<D>, Fail>
    ensures { IfOk result (λ tree. corners_of tree ≡ map (λ e. e.corner) (root_of tree).entries) }
{
    let tree = Tree::open(alloc, disk).map_err(|_| "not opened")?;
    Ok(tree)
}

// Adds a tile in a separate commit.
fn add_tile<D: Disk>(tree: &mut Tree<D>, corner: Corner, bytes: &[u8]) -> Result<(), Refusal>
    requires { corners_of tree.old ≡ map (λ e. e.corner) (root_of tree.old).entries }
    ensures { OnOk result (corners_of tree.new ≡ map (λ e. e.corner) (root_of tree.new).entries) }
{
    let root = tree.current();
    let side = root.side().samples() as usize;
    let has_room = root.entries().len() < root.capacity() as usize;
    let number = root.number();
    let count = root.count().wrapping_add(1);
    if !has_room || number == u64::MAX || number < count || bytes.len() != 2 * side * side {
        return Err(Refusal::Full);
    }
    if tree.has_failed() || tree.present(corner) {
        return Err(Refusal::TileThere);
    }
    tree.stage_plane(corner, Plane::Heights, bytes)?;
    tree.commit(count)?;
    Ok(())
}

// Opens the disk and adds two tiles, up to the first refused call.
fn add_two<D: Disk + Drop>(
    alloc: Global,
    disk: D,
    first: Corner,
    second: Corner,
) -> (D, Result<(), Refusal>) {
    let mut tree = match Tree::open(alloc, disk) {
        Ok(tree) => tree,
        Err(not_opened) => return (not_opened.disk, Err(not_opened.refusal)),
    };
    if let Err(refusal) = add_tile(&mut tree, first, &FIRST) {
        return (tree.into_disk(), Err(refusal));
    }
    let answer = add_tile(&mut tree, second, &SECOND);
    (tree.into_disk(), answer)
}

// The samples of a tile of side 3.
fn samples_at<D: Disk>(tree: &mut Tree<D>, c: Corner) -> Result<[i16; 9], Refusal> {
    let mut samples = [0; 9];
    if tree.current().side().samples() != 3 || !tree.present(c) {
        return Err(Refusal::NoTile);
    }
    tree.read_samples(c, 0, &mut samples)?;
    Ok(samples)
}

// A store of side 3 with the two tiles.
fn two_tiles(alloc: Global) -> Result<MemDisk, Fail> {
    let (disk, _) = add_two(alloc, formatted(alloc)?, corner(6)?, corner(-7)?);
    Ok(disk)
}

// Opens the disk and adds a tile.
fn with_tile(
    alloc: Global,
    disk: MemDisk,
    c: Corner,
    bytes: &[u8],
) -> Result<(MemDisk, Result<(), Refusal>), Fail> {
    let mut tree = opened(alloc, disk)?;
    let answer = add_tile(&mut tree, c, bytes);
    Ok((tree.into_disk(), answer))
}

#[test]
fn two_tiles_are_read_back(rt: HostRuntime) -> Result<(), Fail> {
    let (first, second, third) = (corner(6)?, corner(-7)?, corner(0)?);
    let (disk, added) = with_tile(rt.alloc(), formatted(rt.alloc())?, first, &FIRST)?;
    assert!(rt; added == Ok(()) && disk.writes() == 8);
    let (disk, added) = with_tile(rt.alloc(), disk, second, &SECOND)?;
    assert!(rt; added == Ok(()) && disk.writes() == 13);
    let mut tree = opened(rt.alloc(), disk)?;
    let all = [
        add_tile(&mut tree, third, &FIRST) == Err(Refusal::Full),
        samples_at(&mut tree, first) == Ok(FIRST_SAMPLES),
        samples_at(&mut tree, second) == Ok(SECOND_SAMPLES),
    ];
    check_all("two tiles", &all)?;
    Ok(())
}

// Whether a stop left the tree before the two tiles, between them or after them; after them if they were acknowledged.
fn is_left(
    alloc: Global,
    disk: MemDisk,
    first: Corner,
    second: Corner,
    answer: Result<(), Refusal>,
) -> Result<bool, Fail> {
    let mut tree = opened(alloc, disk)?;
    let number = tree.current().number();
    let has_first = number >= 2;
    let has_second = number >= 3;
    let is_listed = tree.current().count() + 1 == number
        && tree.present(first) == has_first
        && tree.present(second) == has_second;
    let is_read = (!has_first || samples_at(&mut tree, first) == Ok(FIRST_SAMPLES))
        && (!has_second || samples_at(&mut tree, second) == Ok(SECOND_SAMPLES));
    Ok(is_listed && is_read && (number == 3 || answer == Err(Refusal::Device)))
}

// Whether a stop after this many calls leaves an allowed tree, and whether both tiles were acknowledged before.
fn stopped_after(alloc: Global, calls: u64, torn: Torn) -> Result<(bool, bool), Fail> {
    let (first, second) = (corner(6)?, corner(-7)?);
    let fuse = FuseDisk::new(formatted(alloc)?, calls);
    let (fuse, answer) = add_two(alloc, fuse, first, second);
    let mut disk = fuse.into_inner();
    disk.stop(torn)?;
    Ok((is_left(alloc, disk, first, second, answer)?, answer.is_ok()))
}

// Stops in each way after this many calls. Answers whether both tiles were acknowledged before.
fn check_stops(alloc: Global, calls: u64) -> Result<bool, Fail> {
    let mut is_done = false;
    for torn in [Torn::Old, Torn::New, Torn::Fill(0), Torn::Fill(0xa7)] {
        let (is_right, is_whole) = stopped_after(alloc, calls, torn)?;
        check_row(&("calls before a stop", calls), is_right)?;
        is_done = is_whole;
    }
    Ok(is_done)
}

#[test]
fn a_stop_after_each_call(rt: HostRuntime) -> Result<(), Fail> {
    let mut is_done = false;
    for calls in 0..40 {
        is_done = check_stops(rt.alloc(), calls)?;
    }
    assert!(rt; is_done);
    Ok(())
}

// Whether a fault in this call of the opening or of adding a tile is answered as one, and the tile is there whole or
// not at all.
fn is_told(alloc: Global, call: u64) -> Result<bool, Fail> {
    let first = corner(6)?;
    let mut tree = match Tree::open(alloc, FaultOnceDisk::new(formatted(alloc)?, call)) {
        Ok(tree) => tree,
        Err(refused) => return Ok(refused.refusal == Refusal::Device),
    };
    let is_fault = add_tile(&mut tree, first, &FIRST) == Err(Refusal::Device);
    if !tree.has_failed() {
        return Ok(!is_fault);
    }
    let is_reopened = tree.reopen() == Ok(());
    let is_there = tree.current().number() == 2;
    Ok(is_fault && is_reopened && tree.present(first) == is_there)
}

#[test]
fn a_fault_at_each_call(rt: HostRuntime) -> Result<(), Fail> {
    for call in 0..40 {
        check_row(&("a fault at call", call), is_told(rt.alloc(), call)?)?;
    }
    Ok(())
}

// Stages the first page of the corner's heights, after its memory was reserved.
fn patch<D: Disk>(tree: &mut Tree<D>, c: Corner, page: &[u8; 4096]) -> Result<(), Refusal> {
    if tree.has_failed() {
        return Err(Refusal::Failed);
    }
    if !tree.present(c) {
        return Err(Refusal::NoTile);
    }
    // This call shows the prover that a plane has a page.
    let _side = tree.current().side().samples();
    tree.prepare(c)?;
    tree.stage(c, Plane::Heights, 0, page)
}

#[test]
fn a_patch_is_given_up(rt: HostRuntime) -> Result<(), Fail> {
    let (first, second) = (corner(6)?, corner(7)?);
    let mut tree = opened(rt.alloc(), formatted(rt.alloc())?)?;
    let staged = [
        add_tile(&mut tree, first, &FIRST) == Ok(()),
        patch(&mut tree, second, &[0; 4096]) == Err(Refusal::NoTile),
        patch(&mut tree, first, &[0; 4096]) == Ok(()),
        samples_at(&mut tree, first) == Ok([0; 9]),
    ];
    check_all("a patch", &staged)?;
    tree.abandon();
    assert!(rt; samples_at(&mut tree, first) == Ok(FIRST_SAMPLES));
    Ok(())
}

// Opens the disk and upgrades its store.
fn upgrade(alloc: Global, disk: MemDisk) -> Result<(MemDisk, Result<(), Refusal>), Fail> {
    let mut tree = opened(alloc, disk)?;
    if tree.has_failed() {
        return Err("it failed")?;
    }
    tree.abandon();
    let answer = tree.upgrade();
    Ok((tree.into_disk(), answer))
}

#[test]
fn no_room_to_upgrade_two_tiles(rt: HostRuntime) -> Result<(), Fail> {
    let (disk, answer) = upgrade(rt.alloc(), two_tiles(rt.alloc())?)?;
    assert!(rt; answer == Err(Refusal::TooSmall) && disk.writes() == 13);
    Ok(())
}

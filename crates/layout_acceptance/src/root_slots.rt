//! Tests of slots and gates: the root of a disk after each commit, stop and fault, and for hostile bytes.
ghost use Rattle.std.specs.Prelude.{◌≡◌, ◌≤◌, ◌<◌, IfOk, OnOk, false};
ghost use Rattle.disk.specs.MemDisk.{sectors_of};
ghost use Rattle.roots.specs.Roots.{has_failed, disk_of};

use disk::{Disk, FuseDisk, MemDisk, Torn};
use lattice::{Refusal, Side};
use page_codec::{Format, Root};
use roots::Roots;
use std::alloc::Global;
use std::test::Fail;
use test_tiles::{check_all, check_found};

// The first 32 bytes of root A after formatting with side 3 and capacity 1; the others are zero.
const FORMATTED: [u8; 32] = [
    0x4d, 0x4f, 0x53, 0x41, 0x49, 0x43, 0x53, 0x54, 1, 0, 0, 0, 3, 0, 0, 0, 1, 0, 0, 0, 0, 0, 0, 0,
    1, 0, 0, 0, 0, 0, 0, 0,
];

// The index of the lowest byte of a root's commit number.
const NUMBER_AT: usize = 24;

fn page_of(front: &[u8]) -> [u8; 4096] {
    let mut page = [0; 4096];
    for (byte, given) in page.iter_mut().zip(front) {
        *byte = *given;
    }
    page
}

fn first_root() -> Result<Root, Fail> {
    let side = Side::new(3).ok_or("no side")?;
    Ok(Root::empty(Format::first(side, 1)))
}

// Commits a root without tiles.
fn commit_next<D: Disk>(roots: &mut Roots<D>) -> Result<(), Refusal>
    requires { has_failed roots.old ≡ false }
    ensures size { D.size (disk_of roots.new) ≡ D.size (disk_of roots.old) }
    ensures not_failed { OnOk result (has_failed roots.new ≡ false) }
{
    let mut bytes = roots.current().write();
    bytes[NUMBER_AT] = bytes[NUMBER_AT].wrapping_add(1);
    let next = Root::read(&bytes).map_err(|_| Refusal::Damaged)?;
    let number = roots.current().number();
    if number == u64::MAX || next.number() != number + 1 {
        return Err(Refusal::Worn);
    }
    roots.commit(&next)
}

// Formats, opens and makes two commits, up to the first refusal.
fn two_commits<D: Disk + Drop>(disk: D, root: &Root) -> (D, Result<(), Refusal>)
    requires { 4 ≤ D.size disk }
{
    let mut disk = disk;
    if let Err(refusal) = Roots::format(&mut disk, root) {
        return (disk, Err(refusal));
    }
    let mut roots = match Roots::open(disk) {
        Ok(roots) => roots,
        Err(not_opened) => return (not_opened.disk, Err(not_opened.refusal)),
    };
    if let Err(refusal) = commit_next(&mut roots) {
        return (roots.into_disk(), Err(refusal));
    }
    let second = commit_next(&mut roots);
    (roots.into_disk(), second)
}

// A disk formatted and committed to once, so that both gates are open.
fn committed_once(alloc: Global) -> Result<MemDisk, Fail>
    ensures { IfOk result (λ disk. sectors_of disk ≡ 16) }
{
    let mut disk = MemDisk::new(alloc, 16)?;
    Roots::format(&mut disk, &first_root()?).map_err(|_| "not formatted")?;
    let mut roots = Roots::open(disk).map_err(|_| "not opened")?;
    commit_next(&mut roots).map_err(|_| "not committed")?;
    Ok(roots.into_disk())
}

// The bytes of this one of the first four sectors.
fn sector_of(disk: &mut MemDisk, s: u32) -> Result<[u8; 4096], Fail> {
    let mut bytes = [9; 4096];
    if s < disk.sectors() {
        disk.read(s, &mut bytes)?;
    }
    Ok(bytes)
}

// The commit number and the count that opening finds.
fn numbers_of(disk: MemDisk) -> Result<(u64, u64), Fail> {
    let roots = Roots::open(disk).map_err(|_| "not opened")?;
    Ok((roots.current().number(), roots.current().count()))
}

#[test]
fn a_formatted_disk(rt: HostRuntime) -> Result<(), Fail> {
    let root = first_root()?;
    let mut disk = MemDisk::new(rt.alloc(), 16)?;
    let all = [
        Roots::format(&mut disk, &root) == Ok(()),
        disk.writes() == 4 && disk.sectors() == 16,
        sector_of(&mut disk, 1)? == page_of(&FORMATTED),
        sector_of(&mut disk, 0)? == page_of(&[0xa7]),
        sector_of(&mut disk, 2)? == page_of(&[]),
    ];
    check_all("a formatted disk", &all)?;
    disk.stop(Torn::Fill(0xa7))?;
    assert!(rt; numbers_of(disk)? == (1, 0));
    Ok(())
}

// Whether both commits were made before a stop after this many calls, and the commit number that opening then finds.
fn stopped_after(alloc: Global, calls: u64, torn: Torn, root: &Root) -> Result<(bool, u64), Fail> {
    let fuse = FuseDisk::new(MemDisk::new(alloc, 16)?, calls);
    let (fuse, answer) = two_commits(fuse, root);
    let mut disk = fuse.into_inner();
    disk.stop(torn)?;
    let (found, _) = numbers_of(disk)?;
    Ok((answer.is_ok(), found))
}

// Compares the commit numbers that opening finds after a stop that leaves old bytes, new ones, zeros, or open gates.
fn check_stops(alloc: Global, root: &Root, calls: u64, numbers: &[u64]) -> Result<(), Fail> {
    let kinds = [Torn::Old, Torn::New, Torn::Fill(0), Torn::Fill(0xa7)];
    for (torn, number) in kinds.iter().zip(numbers.iter()) {
        let stopped = stopped_after(alloc, calls, *torn, root)?;
        check_found(&(calls, *number), &stopped, &(calls > 20, *number))?;
    }
    Ok(())
}

#[test]
fn a_stop_after_each_call(rt: HostRuntime) -> Result<(), Fail> {
    // Formatting makes 7 calls, opening 4, the first commit 4, and the second 6.
    let table = [
        (7, [1, 1, 1, 1]),
        (8, [1, 1, 1, 1]),
        (9, [1, 1, 1, 1]),
        (10, [1, 1, 1, 1]),
        (11, [1, 1, 1, 1]),
        (12, [1, 1, 1, 1]),
        (13, [1, 1, 1, 1]),
        (14, [1, 2, 1, 2]),
        (15, [2, 2, 2, 2]),
        (16, [2, 2, 2, 2]),
        (17, [2, 2, 2, 2]),
        (18, [2, 2, 2, 2]),
        (19, [2, 2, 2, 2]),
        (20, [2, 3, 2, 3]),
        (21, [3, 3, 3, 3]),
        (22, [3, 3, 3, 3]),
    ];
    let root = first_root()?;
    for (calls, numbers) in table {
        check_stops(rt.alloc(), &root, calls, &numbers)?;
    }
    Ok(())
}

#[test]
fn a_fault_is_answered_device(rt: HostRuntime) -> Result<(), Fail> {
    let root = first_root()?;
    for calls in 0..21 {
        let fuse = FuseDisk::new(MemDisk::new(rt.alloc(), 16)?, calls);
        let (_, answer) = two_commits(fuse, &root);
        check_found(&("calls", calls), &answer, &Err(Refusal::Device))?;
    }
    Ok(())
}

// Commits with this page.
fn commit_page<D: Disk>(roots: &mut Roots<D>, p: u32, page: &[u8; 4096]) -> Result<(), Refusal>
    requires not_failed { has_failed roots.old ≡ false }
    requires page { 4 ≤ p }
    requires in_range { p < D.size (disk_of roots.old) }
    ensures size { D.size (disk_of roots.new) ≡ D.size (disk_of roots.old) }
    ensures not_failed { OnOk result (has_failed roots.new ≡ false) }
{
    roots.begin()?;
    roots.write(p, page)?;
    commit_next(roots)
}

// Reads a page after the disk was reopened.
fn reopened_page<D: Disk>(roots: &mut Roots<D>, p: u32) -> Result<[u8; 4096], Refusal>
    requires { p < D.size (disk_of roots.old) }
{
    let mut page = [0; 4096];
    roots.reopen()?;
    roots.read(p, &mut page)?;
    Ok(page)
}

// The contract shows the prover that the opened disk has 16 sectors.
fn opened(disk: MemDisk) -> Result<Roots<MemDisk>, Fail>
    requires { sectors_of disk ≡ 16 }
    ensures size { IfOk result (λ roots. sectors_of (disk_of roots) ≡ 16) }
    ensures not_failed { IfOk result (λ roots. has_failed roots ≡ false) }
{
    let roots = Roots::open(disk).map_err(|_| "not opened")?;
    Ok(roots)
}

#[test]
fn a_page_lasts_from_its_commit_on(rt: HostRuntime) -> Result<(), Fail> {
    let mut roots = opened(committed_once(rt.alloc())?)?;
    assert!(rt; commit_page(&mut roots, 5, &[6; 4096]) == Ok(()));
    let mut disk = roots.into_disk();
    disk.stop(Torn::Fill(9))?;
    let mut roots = opened(disk)?;
    assert!(rt; roots.current().number() == 3 && reopened_page(&mut roots, 5) == Ok([6; 4096]));
    Ok(())
}

//! The examples of root comments of crates about bytes, as tests of their results.
ghost use Rattle.std.specs.Prelude.{◌≡◌, ◌+◌, IfOk};
ghost use Rattle.roots.specs.Roots.{root_of};

use arrayvec::ArrayVec;
use disk::{Disk, MemDisk};
use lattice::{Corner, Refusal};
use page_alloc::Pages;
use page_codec::{Format, Root, Version};
use page_map::PageMap;
use roots::Roots;
use std::test::Fail;

#[test]
fn a_sector_is_settled(rt: HostRuntime) -> Result<(), Fail> {
    let alloc = rt.alloc();
    let mut disk = MemDisk::new(alloc, 16)?;
    disk.write(4, &[7; 4096])?;
    disk.sync()?;
    let mut sector = [0; 4096];
    disk.read(4, &mut sector)?;
    assert!(rt; sector == [7; 4096]);
    Ok(())
}

#[test]
fn a_page_is_taken(rt: HostRuntime) -> Result<(), Fail> {
    let alloc = rt.alloc();
    let mut pages = Pages::new(alloc, 16).ok_or(Refusal::NoMemory)?;
    let was_free = pages.mark(4);
    assert!(rt; was_free);
    assert!(rt; !pages.mark(4));
    pages.give(4);
    let page = pages.take().ok_or(Refusal::Full)?;
    assert!(rt; page >= 4 && pages.free() == 11);
    Ok(())
}

#[test]
fn a_root_is_read_back(rt: HostRuntime) -> Result<(), Fail> {
    let format = Format::new(Version::Two, 3, 1)?;
    let sectors = format.sectors();
    let root = Root::empty(format);
    let bytes = root.write();
    let same = Root::read(&bytes)?;
    assert!(rt; sectors == 22 && same.format() == format && same.number() == 1);
    Ok(())
}

// The root of a next commit: the current root once more.
fn next_root<D: Disk>(roots: &Roots<D>) -> Result<Root, Refusal>
    ensures { IfOk result (λ root. root.number ≡ (root_of roots.now).number + 1) }
{
    let current = roots.current();
    let number = current.number();
    if number == u64::MAX || number <= current.count() {
        return Err(Refusal::Worn);
    }
    Ok(current.next(current.count(), ArrayVec::new()))
}

#[test]
fn a_root_is_committed(rt: HostRuntime) -> Result<(), Fail> {
    let alloc = rt.alloc();
    let bytes = [7; 4096];
    let page = 4;
    let mut disk = MemDisk::new(alloc, 16)?;
    Roots::format(&mut disk, &Root::empty(Format::new(Version::One, 3, 1)?))?;
    let mut roots = Roots::open(disk)?;
    roots.begin()?;
    roots.write(page, &bytes)?;
    let root = next_root(&roots)?;
    roots.commit(&root)?;
    assert!(rt; roots.current().number() == 2);
    Ok(())
}

#[test]
fn a_page_of_a_tile(rt: HostRuntime) -> Result<(), Fail> {
    let alloc = rt.alloc();
    let corner = Corner::default();
    let format = Format::new(Version::One, 3, 1)?;
    let mut page_map = PageMap::new(alloc, 16, format)?;
    page_map.tile_for_writing(corner)?;
    let page = page_map.page_for_writing(corner, 0)?;
    page_map.commit();
    assert!(rt; page >= 4 && page_map.is_present(corner));
    Ok(())
}

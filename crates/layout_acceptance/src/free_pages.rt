//! Tests of free pages, on disks of a few sectors and on the largest.
use page_alloc::{FIRST_PAGE, Pages};
use std::test::Fail;
use test_tiles::check_row;

// The least disk of a store: 16 sectors, 4 of them for the roots and their gates.
#[test]
fn sixteen_sectors_have_twelve_pages(rt: HostRuntime) -> Result<(), Fail> {
    let mut pages = Pages::new(rt.alloc(), 16).ok_or("no memory")?;
    assert!(rt; FIRST_PAGE == 4 && pages.total() == 16 && pages.free() == 12);
    let mut taken = [false; 16];
    for _ in 0..12 {
        let page = pages.take().ok_or("no page")? as usize;
        assert!(rt; page < 16);
        assert!(rt; !taken[page]);
        taken[page] = true;
    }
    let all = [
        false, false, false, false, true, true, true, true, true, true, true, true, true, true,
        true, true,
    ];
    assert!(rt; taken == all);
    assert!(rt; pages.take() == None);
    assert!(rt; pages.free() == 0);
    Ok(())
}

#[test]
fn a_page_is_marked_once_and_given_back(rt: HostRuntime) -> Result<(), Fail> {
    let mut pages = Pages::new(rt.alloc(), 24).ok_or("no memory")?;
    for outside in [0, 3, 24, 25, 4096, u32::MAX] {
        check_row(&("marked", outside), !pages.mark(outside))?;
    }
    assert!(rt; pages.free() == 20);
    let marked = pages.mark(23);
    assert!(rt; marked);
    assert!(rt; !pages.mark(23));
    assert!(rt; pages.free() == 19);
    pages.give(23);
    assert!(rt; pages.free() == 20);
    assert!(rt; pages.mark(23));
    Ok(())
}

#[test]
fn disks_without_a_page(rt: HostRuntime) -> Result<(), Fail> {
    for total in 0..5 {
        let mut pages = Pages::new(rt.alloc(), total).ok_or("no memory")?;
        let is_full = pages.free() == 0 && pages.take() == None;
        check_row(&("sectors", total), is_full)?;
    }
    Ok(())
}

#[test]
fn every_page_of_the_largest_disk_is_taken(rt: HostRuntime) -> Result<(), Fail> {
    let mut pages = Pages::new(rt.alloc(), 6_099_084).ok_or("no memory")?;
    let mut sum = 0u64;
    for _ in 0..6_099_080 {
        let page = pages.take().ok_or("no page")?;
        sum = sum.wrapping_add(u64::from(page));
    }
    // The sum of the numbers from 4 to 6,099,083.
    assert!(rt; sum == 18_599_409_769_980);
    assert!(rt; pages.take() == None);
    Ok(())
}

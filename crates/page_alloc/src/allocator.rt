//! The free pages of one disk.
ghost use Rattle.std.specs.Prelude.{◌≡◌, ℕ, ◌+◌, ◌-◌, ◌/◌, ◌<◌, ◌↔◌, true, false, length, IsTrue, IsSome, IfSome, IfNone};
ghost use Rattle.std.specs.Bool.{OnTrue, OnFalse};
ghost use Rattle.std.specs.FinSet as set;
ghost use Rattle.page_alloc.specs.Bits.{has_bit};
ghost use Rattle.page_alloc.specs.Pages.{IsPage, IsFree, with_page, without_page};

use crate::bits;
use std::alloc::Global;
use std::marker::Model;

/// The number of the first page: the sectors before it have the two roots and their gates.
pub const FIRST_PAGE: u32 = 4;

/// The free pages of a disk, whose pages are its sectors from `FIRST_PAGE` on.
///
/// One bit for each sector; only `new` and `copy` allocate.
#[derive(Drop)]
pub struct Pages {
    total: u32,
    free_count: u32,
    // Bit p is set where page p is free.
    words: Vec<u64>,
    // The word from which the last page was taken.
    cursor: usize,
}

impl Model for Pages {
    ghost use Rattle.page_alloc.specs.Pages.{PageSet, page_set_code};
    ghost use Rattle.page_alloc.specs.Layout.{pages_below, IsSound};

    ghost Value = { PageSet };

    ghost coded = { page_set_code };

    ghost view = { λ a. record { total = a.total; free = pages_below a.total a.words.items } };

    ghost invariant = { λ a. IsSound a.total a.words.items a.free_count };
}

impl Pages {
    /// All pages of a disk of `total` sectors, all free. None if memory is refused.
    pub fn new(alloc: Global, total: u32) -> Option<Pages>
        ensures total { IfSome result (λ pages. pages.total ≡ total) }
        ensures all_free { IfSome result (λ pages. (page : ℕ)
            → IsFree pages page ↔ IsPage total page) }
        ensures count { IfSome result (λ pages. set.len pages.free ≡ total - FIRST_PAGE) }
    {
        let words = free_words(alloc, total)?;
        Some(Pages {
            total,
            free_count: total.saturating_sub(FIRST_PAGE),
            words,
            cursor: 0,
        })
    }

    /// A copy. None if memory is refused.
    pub fn copy(&self, alloc: Global) -> Option<Pages>
        ensures { IfSome result (λ pages. pages ≡ self.now) }
    {
        let words = Vec::from_slice(alloc, &self.words).ok()?;
        Some(Pages {
            total: self.total,
            free_count: self.free_count,
            words,
            cursor: self.cursor,
        })
    }

    /// The number of the disk's sectors.
    pub fn total(&self) -> u32
        ensures { result ≡ self.now.total }
    {
        self.total
    }

    /// The number of free pages.
    pub fn free(&self) -> u32
        ensures count { result ≡ set.len self.now.free }
        ensures pages { (page : ℕ) → IsFree self.now page → IsPage self.now.total page }
    {
        self.free_count
    }

    /// Makes `page` not free, and answers whether it was free. A page in use, or a number that is no page of this disk,
    /// gives false.
    pub fn mark(&mut self, page: u32) -> bool
        ensures answer { IsTrue result ↔ IsFree self.old page }
        ensures in_range { OnTrue result (IsPage self.old.total page) }
        ensures marked { OnTrue result (self.new ≡ without_page self.old page) }
        ensures unchanged { OnFalse result (self.new ≡ self.old) }
    {
        if !self.is_free(page) {
            return false;
        }
        self.remove(page);
        true
    }

    /// Takes a free page. None if there is none.
    pub fn take(&mut self) -> Option<u32>
        ensures found { IsSome result ↔ (0 < set.len self.old.free) }
        ensures was_free { IfSome result (λ page. IsFree self.old page) }
        ensures in_range { IfSome result (λ page. IsPage self.old.total page) }
        ensures taken { IfSome result (λ page. self.new ≡ without_page self.old page) }
        ensures unchanged { IfNone result (self.new ≡ self.old) }
    {
        let page = self.next_free()?;
        // The next search starts here, so that it skips the words already searched.
        self.cursor = page as usize / 64;
        self.remove(page);
        Some(page)
    }

    /// Frees a page in use.
    pub fn give(&mut self, page: u32)
        requires in_range { IsPage self.old.total page }
        requires in_use { ¬ IsFree self.old page }
        ensures { self.new ≡ with_page self.old page }
    {
        bits::set(&mut self.words, page as usize);
        self.free_count += 1;
    }

    fn is_free(&self, page: u32) -> bool
        ensures answer { IsTrue result ↔ IsFree self.now page }
        ensures in_range { OnTrue result (IsPage self.now.total page) }
    {
        page < self.total && bits::is_set(&self.words, page as usize)
    }

    fn next_free(&self) -> Option<u32>
        ensures found { IsSome result ↔ (0 < set.len self.now.free) }
        ensures is_free { IfSome result (λ page. IsFree self.now page) }
        ensures in_range { IfSome result (λ page. IsPage self.now.total page) }
    {
        if self.free_count == 0 {
            return None;
        }
        let page = bits::next_set(&self.words, self.cursor)?;
        Some(page as u32)
    }

    fn remove(&mut self, page: u32)
        requires { IsFree self.old page }
        ensures { self.new ≡ without_page self.old page }
    {
        bits::clear(&mut self.words, page as usize);
        self.free_count -= 1;
    }
}

// The words of a disk of `total` sectors whose pages are all free. None where there is no memory for them.
fn free_words(alloc: Global, total: u32) -> Option<Vec<u64>>
    ensures covers { IfSome result (λ words. length words.items ≡ (total + 63) / 64) }
    ensures pages { IfSome result (λ words. (page : ℕ) → IsPage total page
        → has_bit words.items page ≡ true) }
    ensures others { IfSome result (λ words. (page : ℕ) → ¬ IsPage total page
        → has_bit words.items page ≡ false) }
{
    let mut words = vec![in alloc; u64::MAX; total.div_ceil(64) as usize].ok()?;
    clear_others(&mut words, total);
    Some(words)
}

// Clears all bits but those of the pages of a disk of `total` sectors.
fn clear_others(words: &mut [u64], total: u32)
    requires { length words.old ≡ (total + 63) / 64 }
    ensures pages { (page : ℕ) → IsPage total page
        → has_bit words.new page ≡ has_bit words.old page }
    ensures others { (page : ℕ) → ¬ IsPage total page → has_bit words.new page ≡ false }
{
    let end = 64 * words.len();
    bits::clear_range(words, 0, end.min(FIRST_PAGE as usize));
    bits::clear_range(words, total as usize, end);
}

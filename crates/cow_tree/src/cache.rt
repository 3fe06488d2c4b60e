//! A cache of pages that were read from a disk.
ghost use Rattle.std.specs.Prelude.{◌≡◌, ◌≤◌, ◌+◌, ◌⊎◌, ℕ, List, [], length, true, slice_range, IfOk, IfErr};
ghost use Rattle.lattice.specs.declared.refusal.Refusal.TheVariants.{NoMemory};
ghost use Rattle.cow_tree.specs.Caches.{entries_of, IsHeld};

use lattice::Refusal;
use lru::LruCache;
use page_codec::PAGE_BYTES;
use std::alloc::Global;
use std::num::NonZeroUsize;

// The cache's capacity in pages.
const MOST_PAGES: usize = 64;

/// At most 64 pages by their numbers. A further page evicts the least recently used one.
#[derive(Drop)]
pub(crate) struct PageCache {
    alloc: Global,
    // The cache moves an entry when its order changes. So each page is a `Vec` of its own, and only that is moved.
    pages: LruCache<u32, Vec<u8>>,
}

impl PageCache {
    /// An empty cache. Refused with NoMemory.
    pub(crate) fn new(alloc: Global) -> Result<PageCache, Refusal>
        ensures none { IfOk result (λ cache. entries_of cache ≡ []) }
        ensures refused { IfErr result (λ refusal. refusal ≡ NoMemory) }
    {
        let most = NonZeroUsize::MIN.saturating_add(MOST_PAGES - 1);
        match LruCache::new(alloc, most) {
            Ok(pages) => Ok(PageCache { alloc, pages }),
            Err(_) => Err(Refusal::NoMemory),
        }
    }

    /// Whether the page is cached. If so, its bytes from `from` on are copied, as many as fit.
    pub(crate) fn find(&mut self, number: u32, from: usize, into: &mut [u8]) -> bool
        requires { from + length into.old ≤ 4096 }
        ensures kept { (page : ℕ) (bytes : List ℕ) → IsHeld self.new page bytes
            → IsHeld self.old page bytes }
        ensures found { result ≡ true
            → (bytes : List ℕ) × (IsHeld self.old number bytes
            × ((length bytes ≡ 4096)
            × (slice_range bytes from (from + length into.old) ≡ into.new))) }
        ensures length { length into.new ≡ length into.old }
    {
        self.pages.promote(&number);
        let Some(page) = self.pages.peek(&number) else {
            return false;
        };
        if page.len() != PAGE_BYTES {
            return false;
        }
        into.copy_from_slice(&page[from..from + into.len()]);
        true
    }

    /// Caches the page with these bytes, if memory suffices.
    pub(crate) fn keep(&mut self, number: u32, bytes: &[u8; PAGE_BYTES])
        ensures { (page : ℕ) (held : List ℕ) → IsHeld self.new page held
            → IsHeld self.old page held ⊎ ((page ≡ number) × (held ≡ bytes.now)) }
    {
        let Ok(page) = Vec::from_slice(self.alloc, bytes) else {
            return;
        };
        let _ = self.pages.put(number, page);
    }

    /// Evicts the page.
    pub(crate) fn forget(&mut self, number: u32)
        ensures kept { (page : ℕ) (bytes : List ℕ) → IsHeld self.new page bytes
            → IsHeld self.old page bytes }
        ensures gone { (bytes : List ℕ) → ¬ IsHeld self.new number bytes }
    {
        // This call shows the prover that no page is cached twice.
        let _count = self.pages.len();
        self.pages.pop(&number);
    }

    /// Evicts all pages.
    pub(crate) fn clear(&mut self)
        ensures { entries_of self.new ≡ [] }
    {
        self.pages.clear();
    }
}

//! The free pages of a disk, in memory proportional to its store's size.
ghost use Rattle.std.specs.Prelude.{◌≡◌, ◌≤◌, ◌<◌, ◌+◌, ◌⊎◌, ℕ, [], ◌∷◌, IfOk, IfErr, OnOk};
ghost use Rattle.std.specs.FinSet as set;
ghost use Rattle.lattice.specs.declared.refusal.Refusal.TheVariants.{Damaged, NoMemory};
ghost use Rattle.page_map.specs.FreePages.{AreGiven, AreInUse, AreTaken, free_times, page_times};

use lattice::Refusal;
use page_alloc::Pages;
use std::alloc::Global;
use std::collections::BTreeSet;
use std::marker::Model;

/// The free pages of a disk. Pages are taken only from its window, the sectors below a limit. A file may be far longer
/// than its store needs, and the store's pages may be anywhere in it.
#[derive(Drop)]
pub(crate) struct FreePages {
    sectors: u32,
    near: Pages,
    // The pages in use after the window.
    far: BTreeSet<u32>,
}

impl Model for FreePages {
    ghost use Rattle.std.specs.Prelude.{◌≤◌};
    ghost use Rattle.page_map.specs.FreePages.{FreePages, free_pages_code};

    ghost Value = { FreePages };

    ghost coded = { free_pages_code };

    ghost view = { λ f. record { range = record { sectors = f.sectors; window = f.near.total }; free = f.near.free; far = f.far } };

    ghost invariant = { λ f. (4 ≤ f.near.total) × (f.near.total ≤ f.sectors) };
}

impl FreePages {
    /// All pages of a disk with this many sectors and this window, all free. Refused with NoMemory.
    pub(crate) fn new(alloc: Global, sectors: u32, window: u32) -> Result<FreePages, Refusal>
        requires low { 4 ≤ window }
        requires within { window ≤ sectors }
        ensures range { IfOk result (λ free. free.range ≡ record { sectors = sectors; window = window }) }
        ensures all_free { IfOk result (λ free. (p : ℕ)
            → free_times free p ≡ page_times free.range p) }
        ensures refused { IfErr result (λ refusal. refusal ≡ NoMemory) }
    {
        let near = Pages::new(alloc, window).ok_or(Refusal::NoMemory)?;
        Ok(FreePages {
            sectors,
            near,
            far: BTreeSet::new(alloc),
        })
    }

    /// A copy. Refused with NoMemory.
    pub(crate) fn copy(&self, alloc: Global) -> Result<FreePages, Refusal>
        ensures copied { IfOk result (λ free. free ≡ self.now) }
        ensures refused { IfErr result (λ refusal. refusal ≡ NoMemory) }
    {
        let near = self.near.copy(alloc).ok_or(Refusal::NoMemory)?;
        let far = self.far.clone()?;
        Ok(FreePages {
            sectors: self.sectors,
            near,
            far,
        })
    }

    /// The number of the disk's sectors.
    pub(crate) fn sectors(&self) -> u32
        ensures { result ≡ self.now.range.sectors }
    {
        self.sectors
    }

    /// Makes a free page not free. Refused with Damaged if the page isn't free, because it is in use or isn't a page of
    /// this disk; and with NoMemory.
    pub(crate) fn mark(&mut self, page: u32) -> Result<(), Refusal>
        ensures marked { OnOk result (AreTaken (page ∷ []) self.old self.new) }
        ensures refused { IfErr result (λ refusal. (refusal ≡ NoMemory)
            ⊎ ((refusal ≡ Damaged) × (free_times self.old page ≡ 0))) }
    {
        if page < self.near.total() {
            return if self.near.mark(page) {
                Ok(())
            } else {
                Err(Refusal::Damaged)
            };
        }
        if page >= self.sectors {
            return Err(Refusal::Damaged);
        }
        match self.far.insert(page) {
            Ok(true) => Ok(()),
            Ok(false) => Err(Refusal::Damaged),
            Err(_) => Err(Refusal::NoMemory),
        }
    }

    /// Takes a free page of the window.
    pub(crate) fn take(&mut self) -> u32
        requires { 0 < set.len self.old.free }
        ensures taken { AreTaken (result ∷ []) self.old self.new }
        ensures left { set.len self.new.free + 1 ≡ set.len self.old.free }
    {
        self.near.take().unwrap()
    }

    /// Frees a page in use.
    pub(crate) fn give(&mut self, page: u32)
        requires { AreInUse (page ∷ []) self.old }
        ensures { AreGiven (page ∷ []) self.old self.new }
    {
        if page < self.near.total() {
            self.near.give(page);
        } else {
            self.far.remove(&page);
        }
    }
}

//! A store on a disk in memory.
ghost use Rattle.std.specs.Prelude.{◌≡◌, ◌≤◌, ◌<◌, ◌⊎◌, ◌↔◌, Err, IfOk, IfErr};
ghost use Rattle.disk.specs.MemDisk.{sectors_of};
ghost use Rattle.lattice.specs.Limits.{largest_side, most_tiles};
ghost use Rattle.lattice.specs.declared.refusal.Refusal.TheVariants.{BadCapacity, BadSide, Device, NoMemory, TooSmall};
ghost use Rattle.page_codec.specs.Sizes.{sectors_asked};
ghost use Rattle.engine.specs.State.{fresh, working};
ghost use Rattle.store.specs.Formatted.{format_2};
ghost use Rattle.store.specs.Stores.{disk_of, side_of, capacity_of, IsAt};

use disk::{Disk, MemDisk};
use lattice::Refusal;
use page_codec::{Format, Version};
use std::alloc::Global;
use store::Store;

/// A new store on a new disk in memory with this many sectors, formatted and opened. Such a disk is honest, so it keeps
/// all promises for an honest disk. Refused with BadSide, BadCapacity or TooSmall exactly where these apply, in this
/// order. Otherwise refused only if memory is: the store's (NoMemory) or the disk's (Device).
pub fn store_in_memory(
    alloc: Global,
    sectors: u32,
    side: u32,
    capacity: u32,
) -> Result<Store<MemDisk>, Refusal>
    ensures fresh { IfOk result (λ store. IsAt ⟦<MemDisk as Disk>⟧ store (working (fresh side))) }
    ensures side { IfOk result (λ store. side_of store ≡ side) }
    ensures capacity { IfOk result (λ store. capacity_of store ≡ capacity) }
    ensures sectors { IfOk result (λ store. sectors_of (disk_of store) ≡ sectors) }
    ensures bad_side { (result ≡ Err BadSide) ↔ ((side < 3) ⊎ (largest_side < side)) }
    ensures bad_capacity { (result ≡ Err BadCapacity)
        ↔ ((3 ≤ side) × (side ≤ largest_side) × ((capacity < 1) ⊎ (most_tiles < capacity))) }
    ensures too_small { (result ≡ Err TooSmall)
        ↔ ((3 ≤ side) × (side ≤ largest_side) × (1 ≤ capacity) × (capacity ≤ most_tiles)
        × (sectors < sectors_asked (format_2 side capacity))) }

    // If sizes and room suffice, it is refused only if memory is, the store's or the disk's.
    ensures sure { 3 ≤ side → side ≤ largest_side → 1 ≤ capacity → capacity ≤ most_tiles
        → sectors_asked (format_2 side capacity) ≤ sectors
        → IfErr result (λ r. (r ≡ Device) ⊎ (r ≡ NoMemory)) }
{
    let wanted = Format::new(Version::Two, side, capacity)?;
    if sectors < wanted.sectors() {
        return Err(Refusal::TooSmall);
    }
    let Ok(mut disk) = MemDisk::new(alloc, sectors) else {
        return Err(Refusal::NoMemory);
    };
    Store::format(&mut disk, side, capacity)?;
    match Store::open(alloc, disk) {
        Ok(store) => Ok(store),
        Err(not_opened) => Err(not_opened.refusal),
    }
}

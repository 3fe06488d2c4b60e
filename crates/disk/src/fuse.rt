//! Faults from one call on.
ghost use Rattle.std.specs.Prelude.{◌≡◌, ◌-◌};
ghost use Rattle.disk.specs.Disk.{saturated};
ghost use Rattle.disk.specs.Faults.{is_blown};

use crate::faulty::CallKind;
use crate::{Disk, Faults, FaultyDisk};

/// The number of calls that still pass. Each later one fails.
#[derive(Drop)]
pub struct Fuse {
    pub left: u64,
}

impl Faults for Fuse {
    ghost is_due = { λ fuse call. is_blown fuse.left };

    ghost later = { λ fuse call. record { left = fuse.left - 1 } };

    fn falls_on(&mut self, _call: CallKind) -> bool {
        let is_blown = self.left == 0;
        self.left = self.left.saturating_sub(1);
        is_blown
    }
}

/// A disk that passes a number of calls on and then fails each one.
pub type FuseDisk<D> = FaultyDisk<D, Fuse>;

impl<D: Disk> FaultyDisk<D, Fuse> {
    ghost use Rattle.disk.specs.Faulty.{inner_of, faults_of, all_failures, all_writes};

    /// Passes `calls` calls on to this disk.
    pub fn new(disk: D, calls: u64) -> FuseDisk<D>
        ensures inner { inner_of result ≡ disk }
        ensures calls { (faults_of result).left ≡ calls }
        ensures failures { all_failures D.Disk result ≡ saturated (D.failures disk) }
        ensures writes { all_writes D.Disk result ≡ saturated (D.writes disk) }
    {
        FaultyDisk::over(disk, Fuse { left: calls })
    }
}

//! A count of writes and syncs.
ghost use Rattle.std.specs.Prelude.{◌≡◌, false};
ghost use Rattle.disk.specs.Disk.{saturated};
ghost use Rattle.disk.specs.Faults.{tallied};

use crate::faulty::CallKind;
use crate::{Disk, Faults, FaultyDisk};

/// The number of writes and syncs asked for. No call fails.
#[derive(Drop)]
pub struct Tally {
    pub writes: u64,
    pub syncs: u64,
}

impl Faults for Tally {
    ghost is_due = { λ tally call. false };

    ghost later = { tallied };

    fn falls_on(&mut self, call: CallKind) -> bool {
        match call {
            CallKind::Read => {}
            CallKind::Write => self.writes = self.writes.saturating_add(1),
            CallKind::Sync => self.syncs = self.syncs.saturating_add(1),
        }
        false
    }
}

/// A disk that passes all calls on, and counts writes and syncs.
pub type CountedDisk<D> = FaultyDisk<D, Tally>;

impl<D: Disk> FaultyDisk<D, Tally> {
    ghost use Rattle.disk.specs.Faulty.{inner_of, faults_of, all_failures, all_writes};

    /// Wraps this disk, with counts of zero.
    pub fn new(disk: D) -> CountedDisk<D>
        ensures inner { inner_of result ≡ disk }
        ensures writes_tallied { (faults_of result).writes ≡ 0 }
        ensures syncs_tallied { (faults_of result).syncs ≡ 0 }
        ensures failures { all_failures D.Disk result ≡ saturated (D.failures disk) }
        ensures writes { all_writes D.Disk result ≡ saturated (D.writes disk) }
    {
        FaultyDisk::over(
            disk,
            Tally {
                writes: 0,
                syncs: 0,
            },
        )
    }
}

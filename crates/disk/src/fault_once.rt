//! One call that fails.
ghost use Rattle.std.specs.Prelude.{◌≡◌, Some};
ghost use Rattle.disk.specs.Disk.{saturated};
ghost use Rattle.disk.specs.Faults.{is_due, one_call_on};

use crate::faulty::CallKind;
use crate::{Disk, Faults, FaultyDisk};

/// The number of calls before the one that fails; none after that call.
#[derive(Drop)]
pub struct OneFault {
    pub ahead: Option<u64>,
}

impl Faults for OneFault {
    ghost is_due = { λ fault call. is_due fault.ahead };

    ghost later = { λ fault call. record { ahead = one_call_on fault.ahead } };

    fn falls_on(&mut self, _call: CallKind) -> bool {
        let is_due = self.ahead == Some(0);
        self.ahead = self.ahead.and_then(|calls| calls.checked_sub(1));
        is_due
    }
}

/// A disk that fails one call and passes all others on.
pub type FaultOnceDisk<D> = FaultyDisk<D, OneFault>;

impl<D: Disk> FaultyDisk<D, OneFault> {
    ghost use Rattle.disk.specs.Faulty.{inner_of, faults_of, all_failures, all_writes};

    /// A disk that fails the call with this number alone, counted from 0.
    pub fn new(disk: D, call: u64) -> FaultOnceDisk<D>
        ensures inner { inner_of result ≡ disk }
        ensures calls { (faults_of result).ahead ≡ Some call }
        ensures failures { all_failures D.Disk result ≡ saturated (D.failures disk) }
        ensures writes { all_writes D.Disk result ≡ saturated (D.writes disk) }
    {
        FaultyDisk::over(disk, OneFault { ahead: Some(call) })
    }
}

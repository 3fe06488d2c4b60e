//! A disk whose calls fail now and then.
ghost use Rattle.std.specs.Prelude.{◌≡◌, ◌<◌, Bool, true, false, OnOk, IsErr, is_ok};
ghost use Rattle.disk.specs.Disk.{SameBut, TornAt, NoneNew, Only, saturated, counted, CountsFault, Elapses, Nothing};
ghost use Rattle.disk.specs.declared.faulty.CallKind.{CallKind};
ghost use Rattle.disk.specs.declared.faulty.CallKind.TheVariants.{Read, Write, Sync};

use crate::{Disk, Fault};

/// The kinds of calls of a disk.
#[derive(Clone, Copy)]
pub enum CallKind {
    Read,
    Write,
    Sync,
}

/// Which calls of a disk fail.
pub trait Faults: Drop {
    /// Whether the next call fails, if it is a call of this kind.
    ghost is_due: { Self → CallKind → Bool };

    /// The state of the faults after one call.
    ghost later: { Self → CallKind → Self };

    /// Counts one call, and answers whether it fails.
    fn falls_on(&mut self, call: CallKind) -> bool
        ensures due { result ≡ is_due self.old call }
        ensures later { self.new ≡ later self.old call };
}

/// A disk some of whose calls fail. Tests use it for what a fault leaves and for what still works after it.
///
/// A failed call does nothing to the wrapped disk; all others are passed on. The disk is honest if the wrapped disk is.
#[derive(Drop)]
pub struct FaultyDisk<D: Disk, F: Faults> {
    inner: D,
    faults: F,
    refused: u64,
    refused_writes: u64,
}

impl<D: Disk, F: Faults> FaultyDisk<D, F> {
    ghost use Rattle.disk.specs.Faulty.{inner_of, faults_of, all_failures, all_writes};

    /// Wraps this disk; `faults` decides which calls fail.
    pub fn over(disk: D, faults: F) -> FaultyDisk<D, F>
        ensures inner { inner_of result ≡ disk }
        ensures faults { faults_of result ≡ faults }
        ensures failures { all_failures D.Disk result ≡ saturated (D.failures disk) }
        ensures writes { all_writes D.Disk result ≡ saturated (D.writes disk) }
    {
        FaultyDisk {
            inner: disk,
            faults,
            refused: 0,
            refused_writes: 0,
        }
    }

    /// Which calls will fail, and the counts of the calls so far.
    pub fn faults(&self) -> &F
        ensures { result.now ≡ faults_of self.now }
    {
        &self.faults
    }

    /// The wrapped disk.
    pub fn into_inner(self) -> D
        ensures { result ≡ inner_of self }
    {
        let FaultyDisk { inner, .. } = self;
        inner
    }

    // Counts this call, and answers whether it is to fail.
    fn is_refused(&mut self, call: CallKind) -> bool
        ensures due { result ≡ F.is_due (faults_of self.old) call }
        ensures later { faults_of self.new ≡ F.later (faults_of self.old) call }
        ensures inner { inner_of self.new ≡ inner_of self.old }
        ensures refused { result ≡ true
            → all_failures D.Disk self.new ≡ counted (all_failures D.Disk self.old) }
        ensures passed { result ≡ false → self.new.refused ≡ self.old.refused }
        ensures refused_writes { self.new.refused_writes ≡ self.old.refused_writes }
    {
        let is_refused = self.faults.falls_on(call);
        if is_refused {
            self.refused = self.refused.saturating_add(1);
        }
        is_refused
    }
}

impl<D: Disk, F: Faults> Disk for FaultyDisk<D, F> {
    ghost use Rattle.disk.specs.Faulty.{inner_of, faults_of, all_failures, all_writes};

    ghost honest = { λ disk. D.Disk.honest disk.inner };

    ghost size = { λ disk. D.Disk.size disk.inner };

    ghost seen = { λ disk. D.Disk.seen disk.inner };

    ghost may = { λ disk. D.Disk.may disk.inner };

    ghost moment = { λ disk. D.Disk.moment disk.inner };

    ghost since = { λ disk. D.Disk.since disk.inner };

    ghost failures = { all_failures D.Disk };

    ghost writes = { all_writes D.Disk };

    ghost has_read = { λ old s ok bytes new. F.Faults.is_due (faults_of old) Read ≡ false
        → D.Disk.has_read (inner_of old) s ok bytes (inner_of new) };

    ghost seen_may = { λ disk. D.Disk.seen_may disk.inner };

    ghost counts_now = { λ disk. D.Disk.counts_now disk.inner };

    ghost only_now = { λ disk. D.Disk.only_now disk.inner };

    fn sectors(&self) -> u32 {
        self.inner.sectors()
    }

    fn read(&mut self, s: u32, into: &mut [u8; 4096]) -> Result<(), Fault>
        requires { s < D.size (inner_of self.old) }
        ensures size { D.size (inner_of self.new) ≡ D.size (inner_of self.old) }
        ensures failures { CountsFault (all_failures D.Disk self.old) (all_failures D.Disk self.new) result }
        ensures writes { all_writes D.Disk self.new ≡ all_writes D.Disk self.old }
        ensures honest { D.honest (inner_of self.new) → D.honest (inner_of self.old) }
        ensures read { D.honest (inner_of self.new)
            → OnOk result (into.new ≡ D.seen (inner_of self.old) s) }
        ensures seen { D.honest (inner_of self.new)
            → D.seen (inner_of self.new) ≡ D.seen (inner_of self.old) }
        ensures may { D.honest (inner_of self.new)
            → NoneNew (D.may (inner_of self.old)) (D.may (inner_of self.new)) }
        ensures time { D.honest (inner_of self.new)
            → Elapses (D.moment (inner_of self.old)) (D.moment (inner_of self.new))
            (D.since (inner_of self.old)) (D.since (inner_of self.new)) Nothing }

        // A call that isn't due to fail has the wrapped disk's answer. One that is due does nothing there.
        ensures later { faults_of self.new ≡ F.later (faults_of self.old) Read }
        ensures passed { F.is_due (faults_of self.old) Read ≡ false
            → CountsFault (D.failures (inner_of self.old)) (D.failures (inner_of self.new)) result }
        ensures passed_writes { D.writes (inner_of self.new) ≡ D.writes (inner_of self.old) }
        ensures has_read { F.is_due (faults_of self.old) Read ≡ false
            → D.has_read (inner_of self.old) s (is_ok result) into.new (inner_of self.new) }
        ensures fault { F.is_due (faults_of self.old) Read ≡ true → IsErr result }
        ensures untouched { F.is_due (faults_of self.old) Read ≡ true
            → inner_of self.new ≡ inner_of self.old }
    {
        if self.is_refused(CallKind::Read) {
            return Err(Fault);
        }
        self.inner.read(s, into)
    }

    fn write(&mut self, s: u32, from: &[u8; 4096]) -> Result<(), Fault>
        requires { s < D.size (inner_of self.old) }
        ensures size { D.size (inner_of self.new) ≡ D.size (inner_of self.old) }
        ensures failures { CountsFault (all_failures D.Disk self.old) (all_failures D.Disk self.new) result }
        ensures writes { all_writes D.Disk self.new ≡ counted (all_writes D.Disk self.old) }
        ensures honest { D.honest (inner_of self.new) → D.honest (inner_of self.old) }
        ensures written { D.honest (inner_of self.new)
            → OnOk result (D.seen (inner_of self.new) s ≡ from.now) }
        ensures others { D.honest (inner_of self.new)
            → SameBut s (D.seen (inner_of self.old)) (D.seen (inner_of self.new)) }
        ensures may { D.honest (inner_of self.new)
            → NoneNew (TornAt s (D.may (inner_of self.old))) (D.may (inner_of self.new)) }
        ensures time { D.honest (inner_of self.new)
            → Elapses (D.moment (inner_of self.old)) (D.moment (inner_of self.new)) (D.since (inner_of self.old)) (D.since (inner_of self.new)) (TornAt s (D.may (inner_of self.old))) }

        // A call that isn't due to fail has the wrapped disk's answer. One that is due does nothing there.
        ensures later { faults_of self.new ≡ F.later (faults_of self.old) Write }
        ensures passed { F.is_due (faults_of self.old) Write ≡ false
            → CountsFault (D.failures (inner_of self.old)) (D.failures (inner_of self.new)) result }
        ensures passed_writes { F.is_due (faults_of self.old) Write ≡ false
            → D.writes (inner_of self.new) ≡ counted (D.writes (inner_of self.old)) }
        ensures fault { F.is_due (faults_of self.old) Write ≡ true → IsErr result }
        ensures untouched { F.is_due (faults_of self.old) Write ≡ true
            → inner_of self.new ≡ inner_of self.old }
    {
        if self.is_refused(CallKind::Write) {
            self.refused_writes = self.refused_writes.saturating_add(1);
            return Err(Fault);
        }
        self.inner.write(s, from)
    }

    fn sync(&mut self) -> Result<(), Fault>
        ensures size { D.size (inner_of self.new) ≡ D.size (inner_of self.old) }
        ensures failures { CountsFault (all_failures D.Disk self.old) (all_failures D.Disk self.new) result }
        ensures writes { all_writes D.Disk self.new ≡ all_writes D.Disk self.old }
        ensures honest { D.honest (inner_of self.new) → D.honest (inner_of self.old) }
        ensures durable { D.honest (inner_of self.new)
            → OnOk result (Only (D.seen (inner_of self.old)) (D.may (inner_of self.new))) }
        ensures may { D.honest (inner_of self.new)
            → NoneNew (D.may (inner_of self.old)) (D.may (inner_of self.new)) }
        ensures time { D.honest (inner_of self.new)
            → Elapses (D.moment (inner_of self.old)) (D.moment (inner_of self.new))
            (D.since (inner_of self.old)) (D.since (inner_of self.new)) Nothing }

        // A call that isn't due to fail has the wrapped disk's answer. One that is due does nothing there.
        ensures later { faults_of self.new ≡ F.later (faults_of self.old) Sync }
        ensures passed { F.is_due (faults_of self.old) Sync ≡ false
            → CountsFault (D.failures (inner_of self.old)) (D.failures (inner_of self.new)) result }
        ensures passed_writes { D.writes (inner_of self.new) ≡ D.writes (inner_of self.old) }
        ensures fault { F.is_due (faults_of self.old) Sync ≡ true → IsErr result }
        ensures untouched { F.is_due (faults_of self.old) Sync ≡ true
            → inner_of self.new ≡ inner_of self.old }
    {
        if self.is_refused(CallKind::Sync) {
            return Err(Fault);
        }
        self.inner.sync()
    }
}

//! A disk in memory, which keeps a record of each call that changed it.
//!
//! The record has the bytes of each write, and a sector names its write. So a write copies its bytes once, and a sync copies
//! none.
ghost use Rattle.std.specs.Prelude.{◌≡◌, ◌<◌, ℕ, length, true, IfOk, OnOk, OnErr, IsOk, false};
ghost use Rattle.disk.specs.Disk.{SameBut, TornAt, NoneNew, Only, counted, CountsFault, Elapses, Nothing};
ghost use Rattle.disk.specs.Memory.{MayLeave, LeftSince, replay, at_first, left_by, after_write, after_sync, after_stop_at, after_stop};
ghost use Rattle.disk.specs.Record.{IsReplay, bytes_of, is_recorded, seen_left, now_left, only_left};

use crate::sector::{Content, Sector, settle_each};
use crate::{Disk, Fault, Torn};
use std::alloc::{AllocError, Global};

#[derive(Drop)]
enum Call {
    Wrote(u32, [u8; 4096]),
    Synced,
    StoppedAt(u32, Torn),
    Stopped(Torn),
}

/// A disk in memory, for tests: always honest, and zero at first.
///
/// A write or a sync without memory for its record is a fault, and changes only the counts. Reads never fail.
/// `specs/Memory.antt` defines its state: what reads give, what the last sync left, and which sectors were written
/// since.
#[derive(Drop)]
pub struct MemDisk {
    sectors: Vec<Sector>,
    calls: Vec<Call>,
    synced: usize,
    failures: u64,
    writes: u64,
    count: u32,
    ghost sized: { length sectors.items ≡ count },
    ghost replays: { IsReplay sectors.items synced calls.items },
}

impl MemDisk {
    ghost use Rattle.disk.specs.MemDisk.{state_of, calls_of, sectors_of, moment_of, since_of, failures_of, writes_of};

    /// A disk of zeros, all settled.
    pub fn new(alloc: Global, sectors: u32) -> Result<MemDisk, AllocError>
        ensures sectors { IfOk result (λ disk. sectors_of disk ≡ sectors) }
        ensures state { IfOk result (λ disk. state_of disk ≡ at_first) }
        ensures failures { IfOk result (λ disk. failures_of disk ≡ 0) }
        ensures writes { IfOk result (λ disk. writes_of disk ≡ 0) }
    {
        let zeros = Sector::settled_with(Content::Filled(0));
        Ok(MemDisk {
            sectors: vec![in alloc; zeros; sectors as usize]?,
            calls: Vec::new(alloc),
            synced: 0,
            failures: 0,
            writes: 0,
            count: sectors,
        })
    }

    // `content` names only calls that are writes.
    #[tactic(auto, unfolding(crate::specs::Memory::filled))]
    fn copy_content(&self, content: Content, into: &mut [u8; 4096])
        requires { is_recorded self.now.calls.items content ≡ true }
        ensures { into.new ≡ bytes_of self.now.calls.items content }
    {
        match content {
            Content::Filled(byte) => *into = [byte; 4096],
            Content::Written(call) => match &self.calls[call] {
                Call::Wrote(_, bytes) => *into = *bytes,
                _ => unreachable!(),
            },
        }
    }

    /// Settles one sector as a stop does: an unsettled sector becomes what `torn` says, a settled one stays. If memory
    /// is refused, the disk stays unchanged.
    pub fn stop_at(&mut self, s: u32, torn: Torn) -> Result<(), AllocError>
        requires { s < sectors_of self.old }
        ensures sectors { sectors_of self.new ≡ sectors_of self.old }
        ensures failures { failures_of self.new ≡ failures_of self.old }
        ensures writes { writes_of self.new ≡ writes_of self.old }
        ensures left { OnOk result ((state_of self.new).seen s
            ≡ left_by torn (state_of self.old) s) }
        ensures settled { OnOk result ((state_of self.new).unsettled s ≡ false) }
        ensures others { SameBut s (state_of self.old).seen (state_of self.new).seen }
        ensures state { OnOk result (state_of self.new ≡ after_stop_at s torn (state_of self.old)) }
        ensures may { NoneNew (MayLeave (state_of self.old)) (MayLeave (state_of self.new)) }
        ensures time { Elapses (moment_of self.old) (moment_of self.new) (since_of self.old) (since_of self.new) Nothing }
        ensures refused { OnErr result (calls_of self.new ≡ calls_of self.old) }
    {
        self.calls.push(Call::StoppedAt(s, torn))?;
        let was = self.sectors[s as usize];
        let left = was.left_content(torn, self.synced);
        self.sectors[s as usize] = Sector::settled_with(left);
        Ok(())
    }

    /// Settles all unsettled sectors, each as `torn` says. If memory is refused, the disk stays unchanged.
    pub fn stop(&mut self, torn: Torn) -> Result<(), AllocError>
        ensures sectors { sectors_of self.new ≡ sectors_of self.old }
        ensures failures { failures_of self.new ≡ failures_of self.old }
        ensures writes { writes_of self.new ≡ writes_of self.old }
        ensures left { OnOk result ((state_of self.new).seen ≡ left_by torn (state_of self.old)) }
        ensures settled { OnOk result (Only (state_of self.new).seen (MayLeave (state_of self.new))) }
        ensures stays { OnOk result ((k : ℕ) → (state_of self.old).unsettled k ≡ false
            → (state_of self.new).seen k ≡ (state_of self.old).seen k) }
        ensures state { OnOk result (state_of self.new ≡ after_stop torn (state_of self.old)) }
        ensures may { NoneNew (MayLeave (state_of self.old)) (MayLeave (state_of self.new)) }
        ensures time { Elapses (moment_of self.old) (moment_of self.new) (since_of self.old) (since_of self.new) Nothing }
        ensures refused { OnErr result (calls_of self.new ≡ calls_of self.old) }
    {
        self.calls.push(Call::Stopped(torn))?;
        settle_each(&mut self.sectors, torn, self.synced);
        Ok(())
    }

    /// The number of writes asked for.
    pub fn writes(&self) -> u64
        ensures { result ≡ writes_of self.now }
    {
        self.writes
    }
}

impl Disk for MemDisk {
    ghost use Rattle.disk.specs.MemDisk.{state_of, calls_of, sectors_of, moment_of, since_of, failures_of, writes_of};

    ghost honest = { λ disk. Unit {0} };

    ghost size = { λ disk. disk.count };

    ghost seen = { λ disk. (replay at_first disk.calls.items).seen };

    ghost may = { λ disk. MayLeave (replay at_first disk.calls.items) };

    ghost moment = { λ disk. length disk.calls.items };

    ghost since = { λ disk. LeftSince disk.calls.items };

    ghost failures = { λ disk. disk.failures };

    ghost writes = { λ disk. disk.writes };

    ghost has_read = { λ old s ok bytes new. Unit {0} };

    ghost seen_may = { λ disk honest. seen_left disk.calls.items };

    ghost counts_now = { λ disk t c honest le now. now_left disk.calls.items t c le now };

    ghost only_now = { λ disk c honest left. only_left disk.calls.items c left };

    fn sectors(&self) -> u32 {
        self.count
    }

    fn read(&mut self, s: u32, into: &mut [u8; 4096]) -> Result<(), Fault>
        requires { s < sectors_of self.old }
        ensures size { sectors_of self.new ≡ sectors_of self.old }
        ensures failures { CountsFault (failures_of self.old) (failures_of self.new) result }
        ensures writes { writes_of self.new ≡ writes_of self.old }
        ensures read { OnOk result (into.new ≡ (state_of self.old).seen s) }
        ensures seen { (state_of self.new).seen ≡ (state_of self.old).seen }
        ensures may { NoneNew (MayLeave (state_of self.old)) (MayLeave (state_of self.new)) }
        ensures time { Elapses (moment_of self.old) (moment_of self.new) (since_of self.old) (since_of self.new) Nothing }
        ensures ok { IsOk result }
        ensures calls { calls_of self.new ≡ calls_of self.old }
    {
        self.copy_content(self.sectors[s as usize].seen, into);
        Ok(())
    }

    fn write(&mut self, s: u32, from: &[u8; 4096]) -> Result<(), Fault>
        requires { s < sectors_of self.old }
        ensures size { sectors_of self.new ≡ sectors_of self.old }
        ensures failures { CountsFault (failures_of self.old) (failures_of self.new) result }
        ensures writes { writes_of self.new ≡ counted (writes_of self.old) }
        ensures written { OnOk result ((state_of self.new).seen s ≡ from.now) }
        ensures others { SameBut s (state_of self.old).seen (state_of self.new).seen }
        ensures may { NoneNew (TornAt s (MayLeave (state_of self.old))) (MayLeave (state_of self.new)) }
        ensures time { Elapses (moment_of self.old) (moment_of self.new) (since_of self.old) (since_of self.new) (TornAt s (MayLeave (state_of self.old))) }
        ensures state { OnOk result (state_of self.new ≡ after_write s from.now (state_of self.old)) }
        ensures refused { OnErr result (calls_of self.new ≡ calls_of self.old) }
    {
        self.writes = self.writes.saturating_add(1);
        let call = self.calls.len();
        if self.calls.push(Call::Wrote(s, *from)).is_err() {
            self.failures = self.failures.saturating_add(1);
            return Err(Fault);
        }
        let was = self.sectors[s as usize];
        self.sectors[s as usize] = Sector {
            seen: Content::Written(call),
            settled: was.settled_content(self.synced),
            written: self.calls.len(),
        };
        Ok(())
    }

    fn sync(&mut self) -> Result<(), Fault>
        ensures size { sectors_of self.new ≡ sectors_of self.old }
        ensures failures { CountsFault (failures_of self.old) (failures_of self.new) result }
        ensures writes { writes_of self.new ≡ writes_of self.old }
        ensures durable { OnOk result (Only (state_of self.old).seen (MayLeave (state_of self.new))) }
        ensures may { NoneNew (MayLeave (state_of self.old)) (MayLeave (state_of self.new)) }
        ensures time { Elapses (moment_of self.old) (moment_of self.new) (since_of self.old) (since_of self.new) Nothing }
        ensures state { OnOk result (state_of self.new ≡ after_sync (state_of self.old)) }
        ensures refused { OnErr result (calls_of self.new ≡ calls_of self.old) }
    {
        if self.calls.push(Call::Synced).is_err() {
            self.failures = self.failures.saturating_add(1);
            return Err(Fault);
        }
        self.synced = self.calls.len();
        Ok(())
    }
}

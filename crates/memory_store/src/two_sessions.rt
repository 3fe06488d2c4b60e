//! Two sessions of a store, each ended by a power cut.
ghost use Rattle.std.specs.Prelude.{◌≡◌, ◌++◌, ◌⊎◌, ℕ, List, IfOk, IfErr};
ghost use Rattle.engine.specs.State.{Contents};
ghost use Rattle.engine.specs.declared.event.Reply.{Reply};
ghost use Rattle.disk.specs.declared.memory.MemDisk.{MemDisk};
ghost use Rattle.lattice.specs.declared.refusal.Refusal.TheVariants.{Device, NoMemory};
ghost use Rattle.memory_store.specs.TwoSessions.{AsksEvents, FindsAccepted, HoldsOnly, IsCut, WasCutOff};
ghost use Rattle.store.specs.Sessions.{IsSession, Session, first_disk, last_disk};

use disk::{Disk, FuseDisk, MemDisk, Torn};
use engine::{Event, Reply};
use lattice::Refusal;
use std::alloc::Global;
use store::{Store, open_session, run_in_session};

/// The events of a session, and how the power is cut at its end.
#[derive(Clone, Copy)]
pub struct CutSession<'a> {
    /// The number of disk calls before the cut, those of the opening included. Each later call fails.
    pub passes: u64,
    pub events: &'a [Event],
    /// What the cut leaves of an unsynced sector.
    pub torn: Torn,
}

/// Runs two sessions on a disk with a store, and cuts the power after each, possibly in the middle of a command or of
/// an opening. Then opens what is left. The answers are appended to `out`.
///
/// Each of the three openings that succeeds finds the mosaic after the commands accepted before it, each of them whole:
/// every one answered Done, and of those answered Device at most the first after each opening. A session whose opening
/// meets a fault has no answers. Refused only if memory is, or if the last opening meets a fault.
pub fn run_two_sessions(
    alloc: Global,
    disk: MemDisk,
    first: CutSession<'_>,
    second: CutSession<'_>,
    out: &mut Vec<Reply>,
) -> Result<Store<FuseDisk<MemDisk>>, Refusal>
    // Each session was asked its events and cut off; then what was left was opened. Each of the three openings finds
    // what [`store::sessions_compose`] says.
    ensures accepted { IfOk result (λ opened. (early late : List Reply) × (between after : MemDisk)
        × (out.new.items ≡ out.old.items ++ early ++ late)
        × (one : WasCutOff ⟦<FuseDisk<MemDisk> as Disk>⟧ disk first.entry.passes first.entry.events.now first.entry.torn early between)
        × (other : WasCutOff ⟦<FuseDisk<MemDisk> as Disk>⟧ between second.entry.passes second.entry.events.now second.entry.torn late after)
        × FindsAccepted ⟦<FuseDisk<MemDisk> as Disk>⟧ disk after one.session other.session opened) }

    // The refusal is Device or NoMemory.
    ensures sure { (side capacity : ℕ) (was : Contents) → HoldsOnly disk side capacity was
        → IfErr result (λ r. (r ≡ Device) ⊎ (r ≡ NoMemory)) }
{
    let between = run_cut_session(alloc, disk, first, out)?;
    let after = run_cut_session(alloc, between, second, out)?;
    match open_session(alloc, FuseDisk::new(after, u64::MAX)) {
        Ok(opened) => Ok(opened),
        Err(not_opened) => Err(not_opened.refusal),
    }
}

// One session, and the power cut at its end.
fn run_cut_session(
    alloc: Global,
    disk: MemDisk,
    plan: CutSession<'_>,
    out: &mut Vec<Reply>,
) -> Result<MemDisk, Refusal>
    ensures cut_off { IfOk result (λ left. (answers : List Reply)
        × (out.new.items ≡ out.old.items ++ answers)
        × WasCutOff ⟦<FuseDisk<MemDisk> as Disk>⟧ disk plan.entry.passes plan.entry.events.now plan.entry.torn answers left) }
    ensures refused { IfErr result (λ r. r ≡ NoMemory) }
{
    let CutSession {
        passes,
        events,
        torn,
    } = plan;
    let disk = run_session(alloc, FuseDisk::new(disk, passes), events, out)?;
    cut(disk.into_inner(), torn)
}

// One session: the disk is opened, if possible, and the events are answered. Refused memory refuses the whole session,
// so a session without answers is one whose opening met a fault.
fn run_session(
    alloc: Global,
    disk: FuseDisk<MemDisk>,
    events: &[Event],
    out: &mut Vec<Reply>,
) -> Result<FuseDisk<MemDisk>, Refusal>
    ensures session { IfOk result (λ left. (answers : List Reply)
        × (out.new.items ≡ out.old.items ++ answers)
        × ((session : Session ⟦<FuseDisk<MemDisk> as Disk>⟧)
        × IsSession ⟦<FuseDisk<MemDisk> as Disk>⟧ session
        × (first_disk ⟦<FuseDisk<MemDisk> as Disk>⟧ session ≡ disk)
        × (last_disk ⟦<FuseDisk<MemDisk> as Disk>⟧ session ≡ left)
        × AsksEvents ⟦<FuseDisk<MemDisk> as Disk>⟧ session events.now answers)) }
    ensures refused { IfErr result (λ r. r ≡ NoMemory) }
{
    match open_session(alloc, disk) {
        Ok(opened) => {
            let mut store = opened;
            run_in_session(&mut store, events, out)?;
            Ok(store.into_disk())
        }
        Err(not_opened) => match not_opened.refusal {
            Refusal::NoMemory => Err(Refusal::NoMemory),
            _ => Ok(not_opened.disk),
        },
    }
}

// The disk after a power cut, which leaves each unsettled sector as `torn` says. Refused with NoMemory.
fn cut(disk: MemDisk, torn: Torn) -> Result<MemDisk, Refusal>
    ensures cut { IfOk result (IsCut torn disk) }
    ensures refused { IfErr result (λ r. r ≡ NoMemory) }
{
    let mut disk = disk;
    match disk.stop(torn) {
        Ok(()) => Ok(disk),
        Err(_) => Err(Refusal::NoMemory),
    }
}

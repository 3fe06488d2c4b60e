//! How a root is written.
ghost use Rattle.std.specs.Prelude.{◌≡◌, ◌≢◌, ◌≤◌, ◌+◌, ℕ, true, false, OnOk};
ghost use Rattle.disk.specs.Disk.{Only};
ghost use Rattle.disk.specs.Stops.{LeavesOnly, HasCause};
ghost use Rattle.roots.specs.declared.slot.Slot.TheVariants.{A};
ghost use Rattle.roots.specs.Slots.{is_open, gate, root_sector, IsSpelledBy, IsAt, SamePages};
ghost use Rattle.roots.specs.Found.{Filling};

use crate::slot::{Slot, closed_gate, open_gate};
use disk::{Disk, Fault, write_through};
use page_codec::{PAGE_BYTES, Root};

// A root's one spelling.
pub(crate) fn spelling(root: &Root) -> [u8; PAGE_BYTES]
    ensures { IsSpelledBy root.now result }
{
    // This call shows the prover that the root keeps its rules.
    let _entries = root.entries();
    root.write()
}

/// Settles a root in a slot whose gate is closed, and then opens the gate.
pub(crate) fn fill_slot<D: Disk>(disk: &mut D, slot: Slot, root: &Root) -> Result<(), Fault>
    requires { 4 ≤ D.size disk.old }
    ensures size { D.size disk.new ≡ D.size disk.old }
    ensures cause { HasCause (D.failures disk.old) (D.failures disk.new) result }
    ensures writes { D.writes disk.new ≤ D.writes disk.old + 2 }
    ensures honest { D.honest disk.new → D.honest disk.old }
    ensures durable { D.honest disk.new → OnOk result (Only (D.seen disk.new) (D.may disk.new)) }
    ensures root { D.honest disk.new
        → OnOk result (IsSpelledBy root.now (D.seen disk.new (root_sector slot))) }
    ensures opened { D.honest disk.new
        → OnOk result (is_open (D.seen disk.new (gate slot)) ≡ true) }
    ensures others { D.honest disk.new → OnOk result ((k : ℕ) → k ≢ gate slot → k ≢ root_sector slot
        → D.seen disk.old k ≡ D.seen disk.new k) }
    ensures any_moment { D.honest disk.new
        → LeavesOnly D.Disk disk.old disk.new (Filling slot root.now (D.may disk.old) (D.seen disk.old)) }
{
    write_through(disk, slot.root_sector(), &spelling(root))?;
    write_through(disk, slot.gate(), &open_gate())
}

/// Closes both gates, and then fills slot A.
pub(crate) fn write_only<D: Disk>(disk: &mut D, root: &Root) -> Result<(), Fault>
    requires { 4 ≤ D.size disk.old }
    ensures size { D.size disk.new ≡ D.size disk.old }
    ensures cause { HasCause (D.failures disk.old) (D.failures disk.new) result }
    ensures writes { D.writes disk.new ≤ D.writes disk.old + 4 }
    ensures honest { D.honest disk.new → D.honest disk.old }
    ensures formatted { D.honest disk.new → OnOk result (IsAt A false root.now (D.seen disk.new)) }
    ensures pages { D.honest disk.new
        → OnOk result (SamePages (D.seen disk.old) (D.seen disk.new)) }
    ensures durable { D.honest disk.new → OnOk result (Only (D.seen disk.new) (D.may disk.new)) }
{
    disk.write(Slot::A.gate(), &closed_gate())?;
    disk.write(Slot::B.gate(), &closed_gate())?;
    disk.sync()?;
    fill_slot(disk, Slot::A, root)
}

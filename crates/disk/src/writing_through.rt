//! A write followed by a sync.
ghost use Rattle.std.specs.Prelude.{◌≡◌, ◌<◌, OnOk};
ghost use Rattle.disk.specs.Disk.{SameBut, TornAt, Only, counted};
ghost use Rattle.disk.specs.Stops.{LeavesOnly, HasCause};

use crate::{Disk, Fault};

/// Writes a sector and syncs. After Ok all writes are settled, including this one. Until then a stop may leave any
/// bytes in the sector.
pub fn write_through<D: Disk>(disk: &mut D, s: u32, bytes: &[u8; 4096]) -> Result<(), Fault>
    requires { s < D.size disk.old }
    ensures size { D.size disk.new ≡ D.size disk.old }
    ensures cause { HasCause (D.failures disk.old) (D.failures disk.new) result }
    ensures writes { D.writes disk.new ≡ counted (D.writes disk.old) }
    ensures honest { D.honest disk.new → D.honest disk.old }
    ensures durable { D.honest disk.new → OnOk result (Only (D.seen disk.new) (D.may disk.new)) }
    ensures written { D.honest disk.new → OnOk result (D.seen disk.new s ≡ bytes.now) }
    ensures others { D.honest disk.new
        → OnOk result (SameBut s (D.seen disk.old) (D.seen disk.new)) }
    ensures any_moment { D.honest disk.new
        → LeavesOnly D.Disk disk.old disk.new (TornAt s (D.may disk.old)) }
{
    disk.write(s, bytes)?;
    disk.sync()
}

//! The commit that ends a command.
ghost use Rattle.std.specs.Prelude.{◌≡◌, ◌≤◌, ◌<◌, ◌+◌, ◌^◌, false, OnOk, OnErr, if◌then◌else◌};
ghost use Rattle.cow_tree.specs.Trees.{disk_of, root_of, has_failed, has_begun, records_due};
ghost use Rattle.stored_mosaic.specs.Staging.{EndsCommand};
ghost use Rattle.cow_tree.specs.Clean.{IsClean};

use cow_tree::Tree;
use disk::Disk;
use lattice::Refusal;

/// Commits what was staged for a command, and answers the number of accepted commands, this one included. If staging
/// was refused, drops what was staged.
pub fn commit_staged<D: Disk>(
    tree: &mut Tree<D>,
    staged: Result<(), Refusal>,
) -> Result<u64, Refusal>
    requires works { OnOk staged (has_failed tree.old ≡ false) }
    requires number { OnOk staged ((root_of tree.old).number + 1 < 2 ^ 64) }
    ensures command { EndsCommand D.Disk tree.old tree.new staged result }
    ensures honest { D.honest (disk_of tree.new) → D.honest (disk_of tree.old) }
    ensures last_known { OnErr result (root_of tree.new ≡ root_of tree.old) }
    ensures clean { has_failed tree.new ≡ false → IsClean tree.new }
    ensures writes { OnOk staged (D.writes (disk_of tree.new) ≤ D.writes (disk_of tree.old)
        + records_due tree.old + (if has_begun tree.old then 2 else 3)) }
    ensures unwritten { OnErr staged (D.writes (disk_of tree.new) ≡ D.writes (disk_of tree.old)) }
{
    if let Err(refusal) = staged {
        tree.abandon();
        return Err(refusal);
    }
    let count = tree.current().count() + 1;
    tree.commit(count)?;
    Ok(count)
}

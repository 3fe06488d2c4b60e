//! Steps: each keeps the levels and labels of one stale tile.
ghost use Rattle.std.specs.Prelude.{◌≡◌, ◌≤◌, ◌+◌, ◌*◌, ◌⊎◌, false, true, [], Err, Contains, IfOk, IfErr, OnOk, IsErrOf, IfSome, IfNone, Some, MatchOption, vec_len, if◌then◌else◌};
ghost use Rattle.disk.specs.Disk.{HasRisen};
ghost use Rattle.lattice.specs.declared.refusal.Refusal.TheVariants.{Device, NoMemory, Failed};
ghost use Rattle.page_codec.specs.Sizes.{plane_pages_of};
ghost use Rattle.page_codec.specs.Roots.{format_of};
ghost use Rattle.tile_flood.specs.Kept.{AreKeptOf};
ghost use Rattle.tile_labellings.specs.Labellings.{IsFlooded};
ghost use Rattle.cow_tree.specs.Clean.{IsClean};
ghost use Rattle.cow_tree.specs.Kept.{with_kept};
ghost use Rattle.cow_tree.specs.Reading.{mosaic_of, HasOnlyRead, IsReadable};
ghost use Rattle.cow_tree.specs.Stored.{KeptPlanes as KeptPages, Stored};
ghost use Rattle.cow_tree.specs.Trees.{disk_of, root_of, page_map_of, has_failed, has_begun, corners_of, sinks_of, records_due, staged_in, IsAt};
ghost use Rattle.cow_tree.specs.Uncommitted.{CommitsNothing};
ghost use Rattle.derived.specs.Kept.{stale_among, stale_in, AreRight};
ghost use Rattle.derived.specs.Steps.{HasStepped};

use cow_tree::Tree;
use disk::Disk;
use lattice::{Corner, Refusal, Side, bytes_in_range};
use page_codec::Entry;
use std::alloc::Global;
use tile_flood::Labelled;
use tile_labellings::{KeptPlanes, kept_planes, planes_of};

/// Stores levels and labels of a stale tile and names that tile, or answers none if no tile is stale. If a labelling of
/// this tile is given, with `at` as its corner, it is used; otherwise the tile is flooded. A step is a commit that
/// leaves the count of commands unchanged. What was staged before is dropped.
///
/// Refusals: Failed; Worn if the commit number can't grow; Device; NoMemory, before the first write.
pub fn step<D: Disk>(
    alloc: Global,
    tree: &mut Tree<D>,
    at: Option<Corner>,
    labelled: Option<&Labelled>,
) -> Result<Option<Corner>, Refusal>
    ensures stepped { has_failed tree.old ≡ false
        → HasStepped D.Disk (λ m. IfSome at (λ c. IfSome labelled.entry (λ l. IsFlooded m c l.now))) tree.old tree.new result }

    ensures clean { has_failed tree.new ≡ false → IsClean tree.new }

    // On any disk, a step writes at most two planes with their index pages, a root and two gates.
    ensures writes { D.writes (disk_of tree.new) ≤ D.writes (disk_of tree.old)
        + (2 * plane_pages_of (format_of (root_of tree.old)) + 3) }

    // A tree that has failed makes no call of the disk, and stays failed.
    ensures failed { has_failed tree.old ≡ true → (result ≡ Err Failed) × (tree.new ≡ tree.old) }
{
    if tree.has_failed() {
        return Err(Refusal::Failed);
    }
    tree.abandon();
    let root = tree.current();
    let Some(corner) = first_stale(root.entries()) else {
        return Ok(None);
    };
    if root.number() == u64::MAX {
        return Err(Refusal::Worn);
    }
    let found = labelling_of(at, labelled, root.side(), corner);
    stage_planes(alloc, tree, corner, found)?;
    let count = tree.current().count();
    tree.commit(count)?;
    Ok(Some(corner))
}

// The labelling, if it is of this corner's tile and has this side.
fn labelling_of<'a>(
    at: Option<Corner>,
    labelled: Option<&'a Labelled>,
    side: Side,
    corner: Corner,
) -> Option<&'a Labelled>
    ensures some { IfSome result (λ l. (at ≡ Some corner) × (labelled.entry ≡ Some l)
        × (l.now.side ≡ side)) }
    ensures none { IfNone result (at ≡ Some corner
        → IfSome labelled.entry (λ l. l.now.side ≡ side → ⊥)) }
{
    let labelled = labelled?;
    if at == Some(corner) && labelled.side() == side {
        Some(labelled)
    } else {
        None
    }
}

// The first tile without kept planes.
pub(crate) fn first_stale(entries: &[Entry]) -> Option<Corner>
    ensures { MatchOption result (stale_among entries.now ≡ []) (Contains (stale_among entries.now)) }
{
    for entry in entries {
        if entry.kept.is_none() {
            return Some(entry.corner);
        }
    }
    None
}

// Stages levels and labels of this stale tile, where nothing is staged: from the labelling, or from a flood.
fn stage_planes<D: Disk>(
    alloc: Global,
    tree: &mut Tree<D>,
    corner: Corner,
    labelled: Option<&Labelled>,
) -> Result<(), Refusal>
    requires works { has_failed tree.old ≡ false }
    requires clean { IsClean tree.old }
    requires stale { Contains (stale_in (root_of tree.old)) corner }
    requires side { IfSome labelled (λ l. l.now.side ≡ (root_of tree.old).side) }
    ensures uncommitted { CommitsNothing D.Disk tree.old tree.new result }
    ensures refused { IfErr result (λ r. (r ≡ Device) ⊎ (r ≡ NoMemory)) }
    ensures no_memory { IsErrOf result NoMemory
        → (has_failed tree.new ≡ false) × (page_map_of tree.new ≡ page_map_of tree.old)
        × (D.writes (disk_of tree.new) ≡ D.writes (disk_of tree.old)) }
    ensures sinks { sinks_of tree.new ≡ sinks_of tree.old }
    ensures writes { D.writes (disk_of tree.new) ≤ D.writes (disk_of tree.old)
        + (2 * plane_pages_of (format_of (root_of tree.old)) + 1) }

    // At most this many writes, including those of the commit.
    ensures few { OnOk result (D.writes (disk_of tree.new) + records_due tree.new + (if has_begun tree.new then 2 else 3)
        ≤ D.writes (disk_of tree.old) + (2 * plane_pages_of (format_of (root_of tree.old)) + 3)) }
    ensures staged { D.honest (disk_of tree.new) → (s : Stored) → IsAt D.Disk tree.old s
        → IsReadable D.Disk tree.old
        → IfSome labelled.entry (λ l. IsFlooded (mosaic_of D.Disk tree.old) corner l.now)
        → OnOk result ((kept : KeptPages) × AreRight (mosaic_of D.Disk tree.old) corner kept
        × (staged_in D.Disk tree.new ≡ with_kept corner kept (staged_in D.Disk tree.old))) }
{
    let planes = tile_planes(alloc, tree, corner, labelled)?;
    bytes_in_range(&planes.levels);
    bytes_in_range(&planes.labels);
    tree.stage_kept(corner, &planes.levels, &planes.labels)
}

// The levels and labels of the corner's tile: from the labelling, or from a flood. Samples are read, and nothing is
// staged.
fn tile_planes<D: Disk>(
    alloc: Global,
    tree: &mut Tree<D>,
    corner: Corner,
    labelled: Option<&Labelled>,
) -> Result<KeptPlanes, Refusal>
    requires works { has_failed tree.old ≡ false }
    requires present { Contains (corners_of tree.old) corner }
    requires side { IfSome labelled (λ l. l.now.side ≡ (root_of tree.old).side) }
    ensures reads { HasOnlyRead D.Disk tree.old tree.new }
    ensures device { IsErrOf result Device
        → HasRisen (D.failures (disk_of tree.old)) (D.failures (disk_of tree.new)) }
    ensures failed { IsErrOf result Device → has_failed tree.new ≡ true }
    ensures works { OnOk result (has_failed tree.new ≡ false) }
    ensures refusal { IfErr result (λ r. (r ≡ Device)
        ⊎ ((r ≡ NoMemory) × (has_failed tree.new ≡ false))) }
    ensures levels { IfOk result (λ planes. vec_len planes.levels ≡ 2 * ((root_of tree.old).side * (root_of tree.old).side)) }
    ensures labels { IfOk result (λ planes. vec_len planes.labels ≡ 2 * ((root_of tree.old).side * (root_of tree.old).side)) }
    ensures right { IsReadable D.Disk tree.new
        → IfSome labelled.entry (λ l. IsFlooded (mosaic_of D.Disk tree.old) corner l.now)
        → IfOk result (λ planes. AreKeptOf (mosaic_of D.Disk tree.old) corner planes.levels.items planes.labels.items) }
{
    match labelled {
        Some(labelled) => planes_of(alloc, labelled),
        None => kept_planes(alloc, tree, corner),
    }
}

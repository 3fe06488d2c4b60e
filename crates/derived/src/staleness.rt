//! Which tiles are stale: the present ones without kept levels and labels.
ghost use Rattle.std.specs.Prelude.{◌≡◌, ◌&&◌, [], false, length, Contains, MatchOption};
ghost use Rattle.std.specs.List.{list_any};
ghost use Rattle.std.specs.Option.{is_none};
ghost use Rattle.lattice.specs.Corners.{same_corner};
ghost use Rattle.catalogue.specs.Tiles.{is_listed};
ghost use Rattle.cow_tree.specs.Stored.{Stored, corners_of_stored};
ghost use Rattle.cow_tree.specs.Trees.{disk_of, root_of, IsAt};
ghost use Rattle.derived.specs.Kept.{stale_among, stale_in, KeepsRight, IsFresh};

use crate::stepping::first_stale;
use cow_tree::Tree;
use disk::Disk;
use lattice::Corner;
use page_codec::Entry;

/// Whether the corner has a tile without kept levels and labels, as last known.
pub fn stale<D: Disk>(tree: &Tree<D>, corner: Corner) -> bool
    ensures value { result ≡ is_listed corner (stale_in (root_of tree.now)) }

    // A present tile that isn't stale has a valid kept labelling.
    ensures kept { D.honest (disk_of tree.now) → (s : Stored) → IsAt D.Disk tree.now s
        → KeepsRight s → Contains (corners_of_stored s.tiles) corner → result ≡ false
        → IsFresh s corner }
{
    is_stale(tree.current().entries(), corner)
}

/// The tile whose levels and labels the next step stores, as last known; none if no tile is stale.
pub fn next_stale<D: Disk>(tree: &Tree<D>) -> Option<Corner>
    ensures { MatchOption result (stale_in (root_of tree.now) ≡ []) (Contains (stale_in (root_of tree.now))) }
{
    first_stale(tree.current().entries())
}

/// The number of stale tiles, as last known.
pub fn stale_count<D: Disk>(tree: &Tree<D>) -> usize
    ensures { result ≡ length (stale_in (root_of tree.now)) }
{
    count_stale(tree.current().entries())
}

// The number of tiles without kept planes.
fn count_stale(entries: &[Entry]) -> usize
    ensures { result ≡ length (stale_among entries.now) }
{
    let mut count = 0;
    for entry in entries {
        if entry.kept.is_none() {
            count += 1;
        }
    }
    count
}

// Whether the corner has an entry without kept planes.
fn is_stale(entries: &[Entry], corner: Corner) -> bool
    ensures { result ≡ list_any (λ e. same_corner e.corner corner && is_none e.kept) entries.now }
{
    entries
        .iter()
        .any(|entry| entry.corner == corner && entry.kept.is_none())
}

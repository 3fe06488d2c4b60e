//! Writes the pages of planes.
ghost use Rattle.std.specs.Prelude.{◌≡◌, ◌≤◌, ◌<◌, ℕ, ◌++◌, All, Some, false, length, map, take, drop, OnOk};
ghost use Rattle.page_codec.specs.Numbers.{padded};
ghost use Rattle.page_codec.specs.Sizes.{pages_of};
ghost use Rattle.page_map.specs.Locations.{times};
ghost use Rattle.cow_tree.specs.Kept.{planes_of_bytes};
ghost use Rattle.cow_tree.specs.Layout.{kept_in};
ghost use Rattle.cow_tree.specs.Stored.{pages_of_bytes};
ghost use Rattle.roots.specs.Roots.{disk_of, has_failed};
ghost use Rattle.cow_tree.specs.OverRoots.{WritesPages};

use disk::Disk;
use lattice::Refusal;
use page_codec::PAGE_BYTES;
use page_map::PagedPlane;
use roots::Roots;

// A page that begins with these bytes, padded with zeros.
#[tactic(auto, unfolding(page_codec::specs::Numbers::zeros))]
fn page_of(bytes: &[u8]) -> [u8; PAGE_BYTES]
    requires { length bytes.now ≤ 4096 }
    ensures { result ≡ padded 4096 bytes.now }
{
    let mut page = [0; PAGE_BYTES];
    page[..bytes.len()].copy_from_slice(bytes);
    page
}

// The bytes of the first page, and the remaining bytes.
fn split_page(bytes: &[u8]) -> (&[u8], &[u8])
    ensures front { result.0.now ≡ take 4096 bytes.now }
    ensures behind { result.1.now ≡ drop 4096 bytes.now }
    ensures page { length result.0.now ≤ 4096 }
{
    bytes.split_at(bytes.len().min(PAGE_BYTES))
}

/// Writes the bytes of a plane to its pages, which are all distinct. The last page is padded with zeros.
pub(crate) fn write_plane<D: Disk>(
    roots: &mut Roots<D>,
    pages: &[u32],
    bytes: &[u8],
) -> Result<(), Refusal>
    requires not_failed { has_failed roots.old ≡ false }
    requires low { All (λ p. 4 ≤ p) pages.now }
    requires high { All (λ p. p < D.size (disk_of roots.old)) pages.now }
    requires distinct { (p : ℕ) → times p pages.now ≤ 1 }
    ensures writes { WritesPages D.Disk pages.now roots.old roots.new result }
    ensures written { D.honest (disk_of roots.new)
        → OnOk result (map (D.seen (disk_of roots.new)) pages.now
        ≡ pages_of_bytes (length pages.now) bytes.now) }
{
    let mut rest = bytes;
    for page in pages {
        let (front, behind) = split_page(rest);
        roots.write(*page, &page_of(front))?;
        rest = behind;
    }
    Ok(())
}

/// Writes the bytes of levels and of labels to their pages, which are all distinct.
pub(crate) fn write_kept<D: Disk>(
    roots: &mut Roots<D>,
    levels_at: &PagedPlane,
    labels_at: &PagedPlane,
    levels: &[u8],
    labels: &[u8],
) -> Result<(), Refusal>
    requires not_failed { has_failed roots.old ≡ false }
    requires low { All (λ p. 4 ≤ p) (levels_at.now.pages ++ labels_at.now.pages) }
    requires high { All (λ p. p < D.size (disk_of roots.old)) (levels_at.now.pages ++ labels_at.now.pages) }
    requires distinct { (p : ℕ) → times p (levels_at.now.pages ++ labels_at.now.pages) ≤ 1 }
    ensures writes { WritesPages D.Disk (levels_at.now.pages ++ labels_at.now.pages) roots.old roots.new result }
    ensures written { D.honest (disk_of roots.new) → (n : ℕ)
        → length levels_at.now.pages ≡ pages_of n → length labels_at.now.pages ≡ pages_of n
        → OnOk result (kept_in (D.seen (disk_of roots.new)) (Some (record { levels = levels_at.now; labels = labels_at.now }))
        ≡ Some (planes_of_bytes n levels.now labels.now)) }
{
    write_plane(roots, levels_at.pages(), levels)?;
    write_plane(roots, labels_at.pages(), labels)
}

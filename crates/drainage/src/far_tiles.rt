//! Tiles that lie far from all others: no water passes between them.
ghost use Rattle.std.specs.Prelude.{◌≡◌, Some, Contains, IfSome};
ghost use Rattle.catalogue.specs.Tiles.{is_listed};
ghost use Rattle.drainage.specs.FarTiles.{are_far, is_far_from, is_far_in, is_with};

use lattice::{Corner, push};

/// Whether the corners are listed, and each other one lies more than two degrees from this one: then neither tile has a point of
/// the other, or of the two rows around it.
pub(crate) fn is_far(listed: &Option<Vec<Corner>>, corner: Corner) -> bool
    ensures { result ≡ is_far_in listed.now corner }
{
    match listed {
        Some(corners) => is_far_from(corners, corner),
        None => false,
    }
}

// Whether each other of these corners lies more than two degrees from this one.
fn is_far_from(corners: &[Corner], corner: Corner) -> bool
    ensures { result ≡ is_far_from corners.now corner }
{
    corners
        .iter()
        .all(|other| *other == corner || are_far(*other, corner))
}

// Whether the corners are more than two degrees of latitude or of longitude apart.
fn are_far(a: Corner, b: Corner) -> bool
    ensures { result ≡ are_far a b }
{
    a.lat.abs_diff(b.lat) > 2 || a.lon.abs_diff(b.lon) > 2
}

/// The list with this corner; None where there is no list, or no memory.
pub(crate) fn with_corner(listed: Option<Vec<Corner>>, corner: Corner) -> Option<Vec<Corner>>
    ensures among { is_with listed corner result }
    ensures same { IfSome listed (λ before. Contains before.items corner → result ≡ Some before) }
{
    let Some(mut corners) = listed else {
        return None;
    };
    if is_listed(&corners, corner) {
        return Some(corners);
    }
    match push(&mut corners, corner) {
        Ok(()) => Some(corners),
        Err(_) => None,
    }
}

// Whether the corner is among these.
fn is_listed(corners: &[Corner], corner: Corner) -> bool
    ensures { result ≡ is_listed corner corners.now }
{
    corners.contains(&corner)
}

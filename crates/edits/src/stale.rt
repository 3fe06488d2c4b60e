//! Which tiles an edit makes stale.
ghost use Rattle.std.specs.Prelude.{◌≡◌, ◌&&◌};
ghost use Rattle.std.specs.List.{list_any};
ghost use Rattle.lattice.specs.Lattice.{holds};
ghost use Rattle.catalogue.specs.Tables.{AreCorners};
ghost use Rattle.edits.specs.Edits.{goes_stale_by, holds_any};
ghost use Rattle.edits.specs.Touched.{are_neighbours};

use crate::neighbours::are_neighbours;
use crate::{Edit, NewHeight};
use catalogue::Samples;
use lattice::{Corner, Point, holders};

/// Whether the edit makes the corner's tile stale: it changes that tile or a neighbour, or a sink in one of these. No
/// sample is read.
pub fn leaves_stale<S: Samples>(samples: &S, edit: &Edit, corner: Corner) -> bool
    ensures { result ≡ goes_stale_by (S.side_of samples.now) (S.corners samples.now) edit.now corner }
{
    // This call shows the prover that the corners are those of tiles.
    let _is_present = samples.present(corner);
    match edit {
        Edit::Add { corner: own, .. } => are_neighbours(*own, corner),
        Edit::Drop { corner: own } => are_neighbours(*own, corner),
        Edit::Heights { heights } => is_one_near(samples, heights.as_slice(), corner),
        Edit::Voids { tiles, .. } => is_near_any(tiles.as_slice(), corner),
        Edit::Sink { point, .. } => is_held_near(samples, *point, corner),
        Edit::Unsink { point, .. } => is_held_near(samples, *point, corner),
    }
}

// Whether the corner is one of these, or a neighbour of one.
fn is_near_any(tiles: &[Corner], corner: Corner) -> bool
    ensures { result ≡ list_any (λ c. are_neighbours c corner) tiles.now }
{
    tiles.iter().any(|own| are_neighbours(*own, corner))
}

// Whether the corner's tile or a neighbour is present and has one of the points.
fn is_one_near<S: Samples>(samples: &S, heights: &[NewHeight], corner: Corner) -> bool
    requires { AreCorners (S.corners samples.now) }
    ensures { result ≡ list_any (λ c. holds_any (S.side_of samples.now) heights.now c && are_neighbours c corner) (S.corners samples.now) }
{
    for height in heights {
        if is_held_near(samples, height.point, corner) {
            return true;
        }
    }
    false
}

// Whether the corner's tile or a neighbour is present and has the point.
fn is_held_near<S: Samples>(samples: &S, point: Point, corner: Corner) -> bool
    requires { AreCorners (S.corners samples.now) }
    ensures { result ≡ list_any (λ c. holds (S.side_of samples.now) c point && are_neighbours c corner) (S.corners samples.now) }
{
    let side = samples.side();
    // This call shows the prover what a side is.
    let _edge = side.edge();
    let corners = holders(side, point);
    for holder in corners.as_slice() {
        if are_neighbours(*holder, corner) && samples.present(*holder) {
            return true;
        }
    }
    false
}

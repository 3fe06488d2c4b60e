//! The places of a point's samples.
ghost use Rattle.std.specs.Prelude.{IfSome, IfNone, Contains};
ghost use Rattle.lattice.specs.Lattice.{Holds, IsIndexOf};
ghost use Rattle.edits.specs.Places.{ArePlaces};

use arrayvec::ArrayVec;
use catalogue::Samples;
use lattice::{Corner, Point, holders, index_in};

/// A sample's place: a corner, and an index in its tile.
#[derive(Clone, Copy, Default)]
pub(crate) struct Place {
    pub corner: Corner,
    pub index: u32,
}

/// The places of the point's samples in the present tiles.
pub(crate) fn places_of<S: Samples>(samples: &S, point: Point) -> ArrayVec<Place, 4>
    ensures { ArePlaces (S.side_of samples.now) (S.corners samples.now) point result.items }
{
    let mut places = ArrayVec::new();
    let corners = holders(samples.side(), point);
    for corner in corners.as_slice() {
        if let Some(index) = index_among(samples, *corner, point) {
            places.push(Place {
                corner: *corner,
                index,
            });
        }
    }
    places
}

// The point's index in the corner's tile, if the tile is present and has the point.
fn index_among<S: Samples>(samples: &S, corner: Corner, point: Point) -> Option<u32>
    ensures held { IfSome result (λ e. Contains (S.corners samples.now) corner
        × IsIndexOf (S.side_of samples.now) corner point e) }
    ensures none { IfNone result (Contains (S.corners samples.now) corner
        → Holds (S.side_of samples.now) corner point → ⊥) }
{
    if !samples.present(corner) {
        return None;
    }
    index_in(samples.side(), corner, point)
}

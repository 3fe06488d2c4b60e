//! Whether the point of a query is ground.
ghost use Rattle.std.specs.Prelude.{◌≡◌, ◌↔◌, IsTrue, IsOk, IfErr, IfSome, IfNone, IsErrOf, Contains};
ghost use Rattle.lattice.specs.Height.{height_of};
ghost use Rattle.lattice.specs.Ground.{is_ground};
ghost use Rattle.lattice.specs.Lattice.{Holds};
ghost use Rattle.lattice.specs.declared.height.Height.TheVariants as height_is;
ghost use Rattle.lattice.specs.declared.refusal.Refusal.TheVariants.{Outside, Void};
ghost use Rattle.catalogue.specs.Asked.{Asked};
ghost use Rattle.levels.specs.Asking.{IsHeldByNone, may_refuse};

use catalogue::{Samples, height};
use lattice::{Corner, Height, Point, Refusal, holders};

/// Refuses a point that isn't ground, as queries about water do. It reads only this point.
pub fn check_ground<S: Samples>(samples: &mut S, point: Point) -> Result<(), Refusal>
    ensures on_ground { S.is_honest samples.new → IsOk result
        → IsTrue (is_ground (S.mosaic samples.old) point) }
    ensures outside { IsErrOf result Outside
        ↔ IsHeldByNone (S.side_of samples.old) (S.corners samples.old) point }
    ensures void { S.is_honest samples.new → IsErrOf result Void
        → height_of (S.mosaic samples.old) point ≡ height_is.Void }
    ensures causes { IfErr result (λ r. IsTrue (may_refuse r)) }
    ensures asked { Asked S.Samples samples.old samples.new result }
{
    if !is_held(samples, point) {
        return Err(Refusal::Outside);
    }
    match height(samples, point)? {
        Height::Void => Err(Refusal::Void),
        Height::Outside | Height::At(_) => Ok(()),
    }
}

// Whether some present tile holds the point.
fn is_held<S: Samples>(samples: &S, point: Point) -> bool
    ensures held { IsTrue result
        → IsHeldByNone (S.side_of samples.now) (S.corners samples.now) point → ⊥ }
    ensures none { (IsTrue result → ⊥)
        → IsHeldByNone (S.side_of samples.now) (S.corners samples.now) point }
{
    match present_holder(samples, point) {
        Some(_) => true,
        None => false,
    }
}

/// The first of the present tiles that hold the point.
pub fn present_holder<S: Samples>(samples: &S, point: Point) -> Option<Corner>
    ensures none { IfNone result (IsHeldByNone (S.side_of samples.now) (S.corners samples.now) point) }
    ensures some { IfSome result (λ corner. Contains (S.corners samples.now) corner
        × Holds (S.side_of samples.now) corner point) }
{
    let corners = holders(samples.side(), point);
    for corner in corners.as_slice() {
        if samples.present(*corner) {
            return Some(*corner);
        }
    }
    None
}

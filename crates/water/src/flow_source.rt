//! Sources of flows, which say where points drain.
ghost use Rattle.std.specs.Prelude.{◌≡◌, ℤ, IfOk, IfErr, IfSome, OnOk};
ghost use Rattle.lattice.specs.declared.point.Point.{Point};
ghost use Rattle.lattice.specs.declared.refusal.Refusal.{Refusal};
ghost use Rattle.lattice.specs.declared.refusal.Refusal.TheVariants.{NoMemory};
ghost use Rattle.lattice.specs.Ground.{terrain};
ghost use Rattle.lattice.specs.Mosaic.{Mosaic, IsMosaic};
ghost use Rattle.water.specs.Donors.{AreToldBy, DrainsBack};
ghost use Rattle.water.specs.FlowSource.{IsToldOf};

use crate::flow::Flow;
use lattice::{Point, Refusal};
use std::alloc::Global;

/// A source of flows: of all tiles, or of tiles that are prepared when a search reaches them.
pub trait FlowSource {
    /// The flows are those of the mosaic with these filled levels. No call makes this true if it wasn't.
    ghost tells: { Self → Mosaic → (Point → ℤ) → Type 0 };

    /// Each call requires this, and ensures it if it succeeds.
    ghost is_ready: { Self → Type 0 };

    /// Calls led from the old state to the new one, whether they succeeded or not.
    ghost follows: { Self → Self → Type 0 };

    /// Successful calls led from the old state to the new one.
    ghost keeps: { Self → Self → Type 0 };

    /// Calls that led from the old state to the new one may have ended with this refusal.
    ghost refuses: { Self → Self → Refusal → Type 0 };

    /// Where the point drains; NoGround if it isn't ground.
    fn flow(&mut self, alloc: Global, point: Point) -> Result<Flow, Refusal>
        requires { is_ready self.old }
        ensures flow { IfOk result (λ flow. (m : Mosaic) (level : Point → ℤ)
            → tells self.new m level → IsToldOf (terrain m) level point flow) }
        ensures ready { OnOk result (is_ready self.new) }
        ensures follows { follows self.old self.new }
        ensures keeps { OnOk result (keeps self.old self.new) }
        ensures refusal { IfErr result (refuses self.old self.new) };

    /// For each direction, in order, whether the neighbour there drains straight to this point. None if that isn't known
    /// without reading more tiles; the caller then asks for each flow.
    fn donors_around(&self, point: Point) -> Option<[bool; 8]>
        requires { is_ready self.now }
        ensures { IfSome result (λ donors. (m : Mosaic) (level : Point → ℤ) → tells self.now m level
            → AreToldBy (DrainsBack (terrain m) level point) donors 8) };

    /// The flows are those of a mosaic.
    ghost is_mosaic: { (a : Self) (m : Mosaic) (level : Point → ℤ) → tells a m level → IsMosaic m };

    /// Flows that are right after calls were right before them.
    ghost told_before: { (a b : Self) (m : Mosaic) (level : Point → ℤ) → follows a b
        → tells b m level → tells a m level };

    /// No call at all satisfies `follows`.
    ghost follows_itself: { (a : Self) → is_ready a → follows a a };

    /// No call at all satisfies `keeps`.
    ghost keeps_itself: { (a : Self) → keeps a a };

    /// Two series of calls in a row satisfy `follows`.
    ghost follows_on: { (a b c : Self) → follows a b → follows b c → follows a c };

    /// Two series of successful calls in a row satisfy `keeps`.
    ghost keeps_on: { (a b c : Self) → keeps a b → keeps b c → keeps a c };

    /// If the last of several calls may be refused so, all of them together may be.
    ghost refuses_on: { (a b c : Self) (r : Refusal) → keeps a b → refuses b c r → refuses a c r };

    /// Memory may be lacking after any calls.
    ghost runs_out: { (a b : Self) → keeps a b → refuses a b NoMemory };
}

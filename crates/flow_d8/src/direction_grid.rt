//! A source of flows for watersheds, from the directions of all points.
ghost use Rattle.std.specs.Prelude.{◌≡◌, ℤ};
ghost use Rattle.std.proofs.Common.{refl, sym, subst, ◌∙◌};
ghost use Rattle.lattice.specs.Ground.{terrain};
ghost use Rattle.lattice.specs.Mosaic.{Mosaic, IsMosaic};
ghost use Rattle.lattice.specs.declared.point.Point.{Point};
ghost use Rattle.lattice.specs.declared.refusal.Refusal.TheVariants.{NoMemory};
ghost use Rattle.flow_d8.specs.Directions.{AreDirectionsOf};
ghost use Rattle.water.specs.FlowSource.{IsToldOf};

use crate::directions::Directions;
use lattice::{Point, Refusal};
use std::alloc::Global;
use water::{Flow, FlowSource};

/// The directions of all points, as a source of flows.
#[derive(Drop)]
pub struct DirectionGrid<'a> {
    pub directions: &'a Directions,
}

impl<'a> FlowSource for DirectionGrid<'a> {
    ghost tells = { λ held m level. IsMosaic m × AreDirectionsOf m level held.directions.now };

    ghost is_ready = { λ _. Unit {0} };

    ghost follows = { λ old new. new.directions.now ≡ old.directions.now };

    ghost keeps = { λ old new. new.directions.now ≡ old.directions.now };

    ghost refuses = { λ _ _ r. r ≡ NoMemory };

    fn flow(&mut self, _alloc: Global, point: Point) -> Result<Flow, Refusal> {
        Ok(flow_of(self.directions, point))
    }

    fn donors_around(&self, _point: Point) -> Option<[bool; 8]> {
        None
    }

    ghost is_mosaic = { λ a m level told. told.0 };

    ghost told_before = { λ a b m level same told. (told.0, subst (AreDirectionsOf m level) same told.1) };

    ghost follows_itself = { λ a ready. refl };

    ghost keeps_itself = { λ a. refl };

    ghost follows_on = { λ a b c first then. then ∙ first };

    ghost keeps_on = { λ a b c first then. then ∙ first };

    ghost refuses_on = { λ a b c r kept refused. refused };

    ghost runs_out = { λ a b kept. refl };
}

// The flow of the point, from the directions of all points.
fn flow_of(directions: &Directions, point: Point) -> Flow
    ensures { (m : Mosaic) (level : Point → ℤ) → AreDirectionsOf m level directions.now
        → IsToldOf (terrain m) level point result }
{
    directions.flow(point)
}

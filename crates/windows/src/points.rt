//! Questions about one point.
ghost use Rattle.std.specs.Prelude.{None};
ghost use Rattle.lattice.specs.Ground.{terrain};
ghost use Rattle.lattice.specs.Terrain.{IsFilledLevel};
ghost use Rattle.water.specs.Questions.{IsAnswered, DrainsBy};
ghost use Rattle.windows.specs.Results.{OfPoint};

use crate::question::Question;
use engine::Engine;
use lattice::{Point, Refusal};

/// The filled level of a point, in metres.
#[derive(Clone, Copy)]
pub struct Fill(pub Point);

/// The code of a point's direction; 0 if water leaves the mosaic there.
#[derive(Clone, Copy)]
pub struct Direction(pub Point);

impl Question for Fill {
    type Answer = i16;

    type Element = u8;

    ghost refused_first = { λ q len. None };

    ghost count = { λ q. 1 };

    ghost says = { λ q m into result. OfPoint m q.0 (IsFilledLevel (terrain m) q.0) result };

    fn ask<E: Engine>(&self, engine: &mut E, _into: &mut [u8]) -> Result<i16, Refusal> {
        engine.fill(self.0)
    }
}

impl Question for Direction {
    type Answer = u8;

    type Element = u8;

    ghost refused_first = { λ q len. None };

    ghost count = { λ q. 1 };

    ghost says = { λ q m into result. OfPoint m q.0 (λ code. IsAnswered m q.0 (λ level. DrainsBy (terrain m) level q.0 code)) result };

    fn ask<E: Engine>(&self, engine: &mut E, _into: &mut [u8]) -> Result<u8, Refusal> {
        engine.direction(self.0)
    }
}

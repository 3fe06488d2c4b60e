//! Questions about each point of a window.
ghost use Rattle.std.specs.Prelude.{◌≡◌, ◌<◌, ◌*◌, suc, None, length};
ghost use Rattle.lattice.specs.Ground.{metres};
ghost use Rattle.lattice.specs.Height.{height_of};
ghost use Rattle.lattice.specs.Mosaic.{Mosaic};
ghost use Rattle.lattice.specs.declared.point.Point.{Point};
ghost use Rattle.water.specs.TileLevels.{IsLevelOrVoid};
ghost use Rattle.water.specs.Questions.{IsCodeOrNone};
ghost use Rattle.windows.specs.Results.{OfAny};
ghost use Rattle.windows.specs.Telling.{Tells, refusal_of};
ghost use Rattle.windows.specs.Windows.{AreTo, AreOfAll, refused_at_once};

use crate::Window;
use crate::question::Question;
use engine::Engine;
use lattice::{Height, Point, Refusal, VOID};

/// The code of a point that isn't ground.
const NO_GROUND: u8 = 255;

/// A value for a point.
pub trait PointValue {
    type Value: Copy;

    /// The value is the point's on the mosaic.
    ghost is: { Mosaic → Point → Self.Value → Type 0 };

    /// The point's value, by one question.
    fn at<E: Engine>(engine: &mut E, point: Point) -> Result<Self::Value, Refusal>
        ensures { Tells E.Engine engine.old engine.new 1 (refusal_of result) (λ m. OfAny (is m point) result) };
}

/// The filled level, in metres; -32768 if the point isn't ground.
#[derive(Clone, Copy)]
pub struct Level;

/// The code of the direction; 0 if water leaves the mosaic, 255 if the point isn't ground.
#[derive(Clone, Copy)]
pub struct Course;

/// The height, in metres; -32768 if the point has none.
#[derive(Clone, Copy)]
pub struct Elevation;

impl PointValue for Level {
    type Value = i16;

    ghost is = { IsLevelOrVoid };

    fn at<E: Engine>(engine: &mut E, point: Point) -> Result<i16, Refusal> {
        match engine.fill(point) {
            Ok(level) => Ok(level),
            Err(Refusal::Outside) | Err(Refusal::Void) => Ok(VOID),
            Err(refusal) => Err(refusal),
        }
    }
}

impl PointValue for Course {
    type Value = u8;

    ghost is = { IsCodeOrNone };

    fn at<E: Engine>(engine: &mut E, point: Point) -> Result<u8, Refusal> {
        match engine.direction(point) {
            Ok(code) => Ok(code),
            Err(Refusal::Outside) | Err(Refusal::Void) => Ok(NO_GROUND),
            Err(refusal) => Err(refusal),
        }
    }
}

impl PointValue for Elevation {
    type Value = i16;

    ghost is = { λ m p h. h ≡ metres (height_of m p) };

    fn at<E: Engine>(engine: &mut E, point: Point) -> Result<i16, Refusal> {
        match engine.elevation(point)? {
            Height::At(height) => Ok(height),
            Height::Outside | Height::Void => Ok(VOID),
        }
    }
}

/// The values of a window's points, row by row from the north-west. Refused before anything is asked: with BadLength
/// unless the slice has rows * columns elements, then with BadBox if coordinates don't fit 32 bits. Otherwise refused
/// as the engine refuses.
#[derive(Clone, Copy)]
pub struct Each<V>(pub V, pub Window);

impl<V: PointValue> Question for Each<V> {
    type Answer = ();

    type Element = V::Value;

    ghost refused_first = { λ q len. refused_at_once q.1 len };

    ghost count = { λ q. q.1.rows * q.1.columns };

    ghost says = { λ q m into result. OfAny (λ _. AreOfAll q.1 (V.is m) into) result };

    fn ask<E: Engine>(&self, engine: &mut E, into: &mut [V::Value]) -> Result<(), Refusal> {
        self.1.check(into.len())?;
        for k in 0..into.len() {
            put::<V, E>(engine, self.1, k, into)?;
        }
        Ok(())
    }
}

// Writes the value of the point with this number.
fn put<V: PointValue, E: Engine>(
    engine: &mut E,
    window: Window,
    k: usize,
    into: &mut [V::Value],
) -> Result<(), Refusal>
    requires inside { k < length into.old }
    requires askable { refused_at_once window (length into.old) ≡ None }
    ensures whole { length into.new ≡ length into.old }
    ensures tells { Tells E.Engine engine.old engine.new 1 (refusal_of result) (λ m. OfAny (λ _. AreTo window (V.is m) k into.old
        → AreTo window (V.is m) (suc k) into.new) result) }
{
    into[k] = V::at(engine, window.point(k, into.len()))?;
    Ok(())
}

//! Questions about all samples of a tile.
ghost use Rattle.std.specs.Prelude.{◌≡◌, ◌≢◌, List, MatchResult, Result, length};
ghost use Rattle.lattice.specs.Corners.{Corner};
ghost use Rattle.lattice.specs.Mosaic.{Mosaic};
ghost use Rattle.lattice.specs.declared.refusal.Refusal.TheVariants.{BadLength};
ghost use Rattle.water.specs.TileLevels.{AreTileLevels};
ghost use Rattle.water.specs.Questions.{AreTileCounts, AreTileDirections};
ghost use Rattle.windows.specs.Results.{OfTile, OfCopy, refused_corner};
ghost use Rattle.windows.specs.Telling.{Tells, refusal_of};

use crate::question::Question;
use crate::values::{Course, Level};
use engine::Engine;
use lattice::{Corner, Refusal};

/// A value for each of a tile's samples.
pub trait TileValues {
    type Value: Copy;

    /// These are the values of the samples of the corner's tile, row by row from the north, west first.
    ghost are: { Mosaic → Corner → List Self.Value → Type 0 };

    /// The tile's values, by one question. Refused with NoTile if the tile isn't present.
    fn of<E: Engine>(engine: &mut E, corner: Corner) -> Result<Vec<Self::Value>, Refusal>
        ensures { Tells E.Engine engine.old engine.new 1 (refusal_of result) (λ m. OfTile m corner (are m corner) result) };
}

/// The number of points that drain through a sample's point, itself included; 0 if it isn't ground.
#[derive(Clone, Copy)]
pub struct Upstream;

impl TileValues for Level {
    type Value = i16;

    ghost are = { AreTileLevels };

    fn of<E: Engine>(engine: &mut E, corner: Corner) -> Result<Vec<i16>, Refusal> {
        engine.levels(corner)
    }
}

impl TileValues for Course {
    type Value = u8;

    ghost are = { AreTileDirections };

    fn of<E: Engine>(engine: &mut E, corner: Corner) -> Result<Vec<u8>, Refusal> {
        engine.directions(corner)
    }
}

impl TileValues for Upstream {
    type Value = u32;

    ghost are = { AreTileCounts };

    fn of<E: Engine>(engine: &mut E, corner: Corner) -> Result<Vec<u32>, Refusal> {
        engine.upstream(corner)
    }
}

/// The values of all samples of the tile whose south-west sample is at this latitude and longitude, in degrees, row by
/// row from the north. Refused with BadName if no corner is there, NoTile, or BadLength unless the slice has side *
/// side elements.
#[derive(Clone, Copy)]
pub struct Tile<V>(pub V, pub i16, pub i16);

impl<V: TileValues> Question for Tile<V> {
    type Answer = ();

    type Element = V::Value;

    ghost refused_first = { λ q len. refused_corner (record { lat = q.1; lon = q.2 }) };

    ghost count = { λ q. 1 };

    ghost says = { λ q m into result. OfCopy m (record { lat = q.1; lon = q.2 }) (V.are m (record { lat = q.1; lon = q.2 })) into result };

    fn ask<E: Engine>(&self, engine: &mut E, into: &mut [V::Value]) -> Result<(), Refusal> {
        let Some(corner) = Corner::new(self.1, self.2) else {
            return Err(Refusal::BadName);
        };
        let values = V::of(engine, corner)?;
        copy(values.as_slice(), into)
    }
}

// Copies the values, if the slice has their length.
fn copy<T: Copy>(values: &[T], into: &mut [T]) -> Result<(), Refusal>
    ensures { MatchResult result (λ _. into.new ≡ values.now) (λ r. (r ≡ BadLength)
        × (length values.now ≢ length into.new)) }
{
    if values.len() != into.len() {
        return Err(Refusal::BadLength);
    }
    into.copy_from_slice(values);
    Ok(())
}

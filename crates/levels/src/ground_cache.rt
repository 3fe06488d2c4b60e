//! Cache of ground points around a tile, so that each is read once.
ghost use Rattle.std.specs.Prelude.{◌≡◌, ◌⊎◌, ℕ, None, IsTrue, IfOk, IfErr, slice_index_or};
ghost use Rattle.lattice.specs.Lattice.{Holds};
ghost use Rattle.lattice.specs.declared.refusal.Refusal.TheVariants.{NoMemory};
ghost use Rattle.levels.specs.GroundCache.{IsRemembered};
ghost use Rattle.lattice.specs.Corners.{Corner};
ghost use Rattle.lattice.specs.declared.point.Point.{Point};

use lattice::{Corner, Point, Refusal, Side, index_in};
use std::alloc::Global;
use std::marker::Model;

// The number of cached points. A walk along the rim asks for a point around the tile from three points in a row on one edge.
// Where it follows two edges by turns, these are every other point.
const PLACES: usize = 64;

/// A ground point around the tile, and a present tile that holds it.
#[derive(Clone, Copy)]
pub(crate) struct GroundPoint {
    pub point: Point,
    pub(crate) tile: Corner,
}

/// Ground points around the tile that were read recently.
#[derive(Drop)]
pub(crate) struct GroundCache {
    seen: Vec<Option<GroundPoint>>,
}

impl Model for GroundCache {
    ghost use Rattle.std.specs.Prelude.{List, Option};
    ghost use Rattle.levels.specs.declared.ground_cache.GroundPoint.{GroundPoint};

    ghost Value = { List (Option GroundPoint) };

    ghost view = { λ r. r.seen.items };
}

impl GroundCache {
    /// An empty cache. The only refusal is NoMemory.
    pub fn new(alloc: Global) -> Result<GroundCache, Refusal>
        ensures none { IfOk result (λ r. (k : ℕ) → slice_index_or r k None ≡ None) }
        ensures refusal { IfErr result (λ r. r ≡ NoMemory) }
    {
        let seen = vec![in alloc; None; PLACES]?;
        Ok(GroundCache { seen })
    }

    /// Whether the ground point `to` is cached with a present tile that also has `point`.
    pub(crate) fn holds(&self, side: Side, point: Point, to: Point) -> bool
        ensures { IsTrue result
            → (tile : Corner) × (IsRemembered self.now to tile × Holds side tile point) }
    {
        let place = place_of(to);
        if place >= self.seen.len() {
            return false;
        }
        let Some(seen) = self.seen[place] else {
            return false;
        };
        seen.point == to && index_in(side, seen.tile, point).is_some()
    }

    /// Caches the ground point with this tile.
    pub(crate) fn remember(&mut self, point: Point, tile: Corner)
        ensures { (p : Point) (c : Corner) → IsRemembered self.new p c
            → ((p ≡ point) × (c ≡ tile)) ⊎ IsRemembered self.old p c }
    {
        let place = place_of(point);
        if place < self.seen.len() {
            self.seen[place] = Some(GroundPoint { point, tile });
        }
    }
}

// The slot of the point in the cache; successive points along an edge have different slots.
fn place_of(point: Point) -> usize {
    let sum = point.y.wrapping_add(point.x);
    sum.cast_unsigned() as usize % PLACES
}

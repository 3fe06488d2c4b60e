//! The levels at a point and around it, if they are cached.
ghost use Rattle.std.specs.Prelude.{◌≡◌, ◌<◌, Some, IfSome, length};
ghost use Rattle.flow_d8.specs.LevelsAround.{IsNear};
ghost use Rattle.lattice.specs.Mosaic.{Mosaic, IsMosaic};
ghost use Rattle.lattice.specs.Steps.{step};
ghost use Rattle.border_graph.specs.Others.{corner_at};
ghost use Rattle.tile_labellings.specs.Labellings.{IsFlooded};
ghost use Rattle.levels.specs.Holding.{IsRight};
ghost use Rattle.drainage.specs.Nearby.{IsKnownLevel};
ghost use Rattle.levels.specs.TileCaches.{known_of};

use border_graph::node_at;
use flow_d8::Near;
use labelling::{NO_LABEL, OUT};
use lattice::{Corner, DIRECTIONS, Dir, Point, index_in, neighbour};
use levels::{TileCache, label_in};
use tile_flood::Labelled;

/// The filled levels of a ground point and of the points around it, if they are cached. All these points have to lie in one
/// tile whose labelling is cached and marks none of them as a void. The levels of the rim points that their labels name have
/// to be cached too. Nearly every point of a tile that was queried before is such a point.
pub(crate) fn near(tile_cache: &TileCache, point: Point) -> Option<Near>
    ensures { (m : Mosaic) → IsMosaic m → IsRight m (known_of tile_cache.now)
        → IfSome result (IsNear m point) }
{
    let side = tile_cache.rim_graph.side;
    let t = tile_cache
        .labellings
        .holder(side, &tile_cache.rim_graph.corners, point)?;
    let corner = tile_cache.rim_graph.corner(t)?;
    let labelled = tile_cache.labellings.labelling(t)?;
    let height = level_in_tile(tile_cache, t, corner, labelled, point)?;
    let mut around = [None; 8];
    for i in 0..8 {
        let to = neighbour(point, DIRECTIONS[i])?;
        let level = level_in_tile(tile_cache, t, corner, labelled, to)?;
        around[i] = Some(level);
    }
    Some(Near { height, around })
}

// The point's filled level by the labelling of the tile with number t and this corner. None if the tile doesn't have the
// point, or if the level of the rim point that its label names isn't cached. Also None for a point that is marked as a void,
// since its height would have to be read.
fn level_in_tile(
    tile_cache: &TileCache,
    t: usize,
    corner: Corner,
    labelled: &Labelled,
    point: Point,
) -> Option<i16>
    requires place { t < length tile_cache.now.rim_graph.corners.items }
    requires corner { corner_at tile_cache.now.rim_graph.corners.items t ≡ corner }
    requires held { (m : Mosaic) → IsRight m (known_of tile_cache.now)
        → IsFlooded m corner labelled.now }
    ensures { IfSome result (λ level. IsKnownLevel (known_of tile_cache.now) t point (Some level)) }
{
    let side = tile_cache.rim_graph.side;
    let index = index_in(side, corner, point)?;
    let (level, label) = label_in(labelled, index)?;
    if label == NO_LABEL {
        return None;
    }
    if label == OUT {
        return Some(level);
    }
    let node = node_at(side, t, u32::from(label))?;
    let over = tile_cache.levels.level(node)?;
    Some(level.max(over))
}

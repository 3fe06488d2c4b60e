//! Drops the cached results that an edit of a mosaic may make wrong.
ghost use Rattle.std.specs.Prelude.{◌≡◌, ◌↔◌, ◌<ℤ◌, ◌≤ℤ◌, All, IfSome, IsFalse};
ghost use Rattle.lattice.specs.Ground.{metres};
ghost use Rattle.lattice.specs.Height.{height_of};
ghost use Rattle.lattice.specs.Mosaic.{Mosaic, IsMosaic};
ghost use Rattle.catalogue.specs.Tiles.{with_sinks};
ghost use Rattle.edits.specs.Edits.{AreEarlier, TellsHeights, edit_made, with_heights};
ghost use Rattle.edits.specs.Sinks.{with_point, without_point};
ghost use Rattle.drainage.specs.Between.{IsHeldOf};
ghost use Rattle.drainage.specs.Beyond.{AreFlowsKept, AreLevelsKept, IsKeptBeyondEdit, IsKeptBeyondHeights, IsKeptUnchanged, IsLeftBySink};
ghost use Rattle.levels.specs.Spared.{IsUnchanged, one_lower};

use crate::drainage_cache::DrainageCache;
use edits::{Edit, NewHeight};
use lattice::Point;

/// Drops the cached results that the edit may make wrong. Where heights are set, the labellings of the tiles that have them are
/// mended when they are asked for. The graphs of the tiles that have a changed point or one beside it are dropped, and so are the
/// levels of rim points that may change. Where a tile comes or goes, all levels are dropped, and all directions, or only its own
/// if every other tile lies far away. The rest is right for the mosaic before the edit and, if its old heights are those that
/// the edit names, after it too.
pub fn invalidate_edit(held: &mut DrainageCache, edit: &Edit)
    ensures still { (m : Mosaic) → IsMosaic m → IsHeldOf m held.old → IsHeldOf m held.new }
    ensures changed { (m : Mosaic) → IsMosaic m → TellsHeights m edit.now → IsHeldOf m held.old
        → IsHeldOf (edit_made edit.now m) held.new }

    // Results for a tile that the edit doesn't reach stay, and so do levels of rim points that new heights can't change, and
    // directions near such levels. All results stay where each point gets the height that it has. Directions of other tiles stay
    // where a tile comes or goes far from all others. All directions stay where a sink comes or goes at a point whose cached
    // direction leads down.
    ensures kept { IsKeptBeyondEdit edit.now held.old held.new }
{
    match edit {
        Edit::Add { corner, .. } => held.invalidate_tile(*corner),
        Edit::Drop { corner } => held.invalidate_tile(*corner),
        Edit::Heights { heights } => invalidate_heights(held, heights.as_slice()),
        Edit::Voids { from, to, .. } => held.invalidate_between(*from, *to, None),
        Edit::Sink { point, metres } => invalidate_near_sink(
            held,
            *point,
            Some(i32::from(*metres)),
        ),
        Edit::Unsink { point, metres } => invalidate_near_sink(held, *point, one_lower(*metres)),
    }
}

// Records the points whose heights change.
fn invalidate_heights(held: &mut DrainageCache, heights: &[NewHeight])
    ensures still { (m : Mosaic) → IsMosaic m → IsHeldOf m held.old → IsHeldOf m held.new }
    ensures changed { (m : Mosaic) → IsMosaic m → AreEarlier heights.now m → IsHeldOf m held.old
        → IsHeldOf (with_heights heights.now m) held.new }
    ensures kept { IsKeptBeyondHeights heights.now held.old held.new }
    ensures levels { AreLevelsKept heights.now held.old held.new }
    ensures flows { AreFlowsKept heights.now held.old held.new }
    ensures unchanged { IsKeptUnchanged heights.now held.old held.new }
{
    if is_any_changed(heights) {
        held.retain_spared_levels(heights);
    }
    for height in heights {
        if height.was != height.metres {
            held.note_changed(height);
        }
    }
}

// Whether some point's new height differs from its old one.
fn is_any_changed(heights: &[NewHeight]) -> bool
    ensures { IsFalse result ↔ All IsUnchanged heights.now }
{
    for one in heights {
        if one.was != one.metres {
            return true;
        }
    }
    false
}

// Drops what a sink that comes or goes at the point may make wrong. Where the point drains to a lower level, water goes on as it
// would without the sink, and no level changes. Elsewhere water that leaves through the sink crosses its ground, so levels below
// its ground don't change. When the sink comes, a level equal to its ground doesn't change either.
fn invalidate_near_sink(held: &mut DrainageCache, point: Point, most: Option<i32>)
    ensures still { (m : Mosaic) → IsMosaic m → IsHeldOf m held.old → IsHeldOf m held.new }
    ensures declared { (m : Mosaic) → IsMosaic m
        → IfSome most (λ level. level ≤ℤ metres (height_of m point)) → IsHeldOf m held.old
        → IsHeldOf (with_sinks (with_point point m.sinks) m) held.new }
    ensures taken_back { (m : Mosaic) → IsMosaic m
        → IfSome most (λ level. level <ℤ metres (height_of m point)) → IsHeldOf m held.old
        → IsHeldOf (with_sinks (without_point point m.sinks) m) held.new }
    ensures kept { IsLeftBySink point most held.old held.new }
{
    if held.drains_down(point) {
        held.invalidate_reached(point);
        return;
    }
    held.invalidate_between(point, point, most);
}

// The greatest level below the height; None for None.
fn one_lower(metres: Option<i16>) -> Option<i32>
    ensures { result ≡ one_lower metres }
{
    let metres = metres?;
    Some(i32::from(metres) - 1)
}

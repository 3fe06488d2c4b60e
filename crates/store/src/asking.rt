//! Questions about water: a store asks its tree, with its cache.
//!
//! Each is asked over any premise (see `Premise` in tree_labellings.rt). `Store` asks at `Brand`, with the premise that its cache
//! is right.
ghost use Rattle.std.specs.Prelude.{◌≡◌, ◌≢◌, false, IsTrue, IfOk, IfErr, Contains};
ghost use Rattle.std.specs.List.{AllPairs};
ghost use Rattle.engine.specs.Engines.{items_in};
ghost use Rattle.water.specs.TileLevels.{AreTileLevels};
ghost use Rattle.water.specs.Questions.{AreTileCounts, AreTileDirections};
ghost use Rattle.engine.specs.Outcomes.{Fills, Directs, TellsTile, Traces, Sheds};
ghost use Rattle.engine.specs.Told.{may_refuse};
ghost use Rattle.engine.specs.declared.event.Event.TheVariants as ask;
ghost use Rattle.cow_tree.specs.Reading.{mosaic_of};
ghost use Rattle.cow_tree.specs.Trees.{has_failed, corners_of};
ghost use Rattle.drainage.specs.Between.{IsHeldOf};
ghost use Rattle.store.specs.Water.{IsAskedOf};

use cow_tree::Tree;
use disk::Disk;
use drainage::DrainageCache;
use lattice::{Corner, Point, Refusal};
use std::alloc::Global;
use std::marker::PhantomData;
use stored_mosaic::{Premise, TreeSource};
use water::Run;

// The filled level of a point.
pub(crate) fn ask_fill<D: Disk, P: Premise>(
    alloc: Global,
    tree: &mut Tree<D>,
    held: &mut DrainageCache,
    point: Point,
) -> Result<i16, Refusal>
    requires works { has_failed tree.old ≡ false }
    requires right { P.holds → IsHeldOf (mosaic_of D.Disk tree.old) held.old }
    ensures causes { IfErr result (λ r. IsTrue (may_refuse (ask.Fill point) r)) }
    ensures asked { IsAskedOf D.Disk P.holds tree.old tree.new held.old held.new result (λ s r t. Fills s point r t) }
{
    let mut source = TreeSource::<D, P> {
        tree,
        premise: PhantomData,
    };
    drainage::fill(alloc, &mut source, held, point)
}

// The code of a point's direction.
pub(crate) fn ask_direction<D: Disk, P: Premise>(
    alloc: Global,
    tree: &mut Tree<D>,
    held: &mut DrainageCache,
    point: Point,
) -> Result<u8, Refusal>
    requires works { has_failed tree.old ≡ false }
    requires right { P.holds → IsHeldOf (mosaic_of D.Disk tree.old) held.old }
    ensures causes { IfErr result (λ r. IsTrue (may_refuse (ask.Direction point) r)) }
    ensures asked { IsAskedOf D.Disk P.holds tree.old tree.new held.old held.new result (λ s r t. Directs s point r t) }
{
    let mut source = TreeSource::<D, P> {
        tree,
        premise: PhantomData,
    };
    drainage::direction(alloc, &mut source, held, point)
}

// The flow path of a point.
pub(crate) fn ask_trace<D: Disk, P: Premise>(
    alloc: Global,
    tree: &mut Tree<D>,
    held: &mut DrainageCache,
    point: Point,
) -> Result<Vec<Point>, Refusal>
    requires works { has_failed tree.old ≡ false }
    requires right { P.holds → IsHeldOf (mosaic_of D.Disk tree.old) held.old }
    ensures causes { IfErr result (λ r. IsTrue (may_refuse (ask.Trace point) r)) }
    ensures once { IfOk result (λ path. AllPairs (λ p q. p ≢ q) path.items) }
    ensures asked { IsAskedOf D.Disk P.holds tree.old tree.new held.old held.new result (λ s r t. Traces s point (items_in r) t) }
{
    let mut source = TreeSource::<D, P> {
        tree,
        premise: PhantomData,
    };
    drainage::trace(alloc, &mut source, held, point)
}

// The watershed of a point.
pub(crate) fn ask_watershed<D: Disk, P: Premise>(
    alloc: Global,
    tree: &mut Tree<D>,
    held: &mut DrainageCache,
    point: Point,
) -> Result<Vec<Run>, Refusal>
    requires works { has_failed tree.old ≡ false }
    requires right { P.holds → IsHeldOf (mosaic_of D.Disk tree.old) held.old }
    ensures causes { IfErr result (λ r. IsTrue (may_refuse (ask.Watershed point) r)) }
    ensures asked { IsAskedOf D.Disk P.holds tree.old tree.new held.old held.new result (λ s r t. Sheds s point (items_in r) t) }
{
    let mut source = TreeSource::<D, P> {
        tree,
        premise: PhantomData,
    };
    drainage::watershed(alloc, &mut source, held, point)
}

// The filled levels of all samples of the corner's tile.
pub(crate) fn ask_levels<D: Disk, P: Premise>(
    alloc: Global,
    tree: &mut Tree<D>,
    held: &mut DrainageCache,
    corner: Corner,
) -> Result<Vec<i16>, Refusal>
    requires works { has_failed tree.old ≡ false }
    requires present { Contains (corners_of tree.old) corner }
    requires right { P.holds → IsHeldOf (mosaic_of D.Disk tree.old) held.old }
    ensures causes { IfErr result (λ r. IsTrue (may_refuse (ask.Levels corner) r)) }
    ensures asked { IsAskedOf D.Disk P.holds tree.old tree.new held.old held.new result (λ s r t. TellsTile AreTileLevels s corner (items_in r) t) }
{
    let mut source = TreeSource::<D, P> {
        tree,
        premise: PhantomData,
    };
    drainage::levels(alloc, &mut source, held, corner)
}

// The codes of the directions of all samples of the corner's tile.
pub(crate) fn ask_directions<D: Disk, P: Premise>(
    alloc: Global,
    tree: &mut Tree<D>,
    held: &mut DrainageCache,
    corner: Corner,
) -> Result<Vec<u8>, Refusal>
    requires works { has_failed tree.old ≡ false }
    requires present { Contains (corners_of tree.old) corner }
    requires right { P.holds → IsHeldOf (mosaic_of D.Disk tree.old) held.old }
    ensures causes { IfErr result (λ r. IsTrue (may_refuse (ask.Directions corner) r)) }
    ensures asked { IsAskedOf D.Disk P.holds tree.old tree.new held.old held.new result (λ s r t. TellsTile AreTileDirections s corner (items_in r) t) }
{
    let mut source = TreeSource::<D, P> {
        tree,
        premise: PhantomData,
    };
    drainage::directions(alloc, &mut source, held, corner)
}

// The number of points that drain through each sample of the corner's tile.
pub(crate) fn ask_upstream<D: Disk, P: Premise>(
    alloc: Global,
    tree: &mut Tree<D>,
    held: &mut DrainageCache,
    corner: Corner,
) -> Result<Vec<u32>, Refusal>
    requires works { has_failed tree.old ≡ false }
    requires present { Contains (corners_of tree.old) corner }
    requires right { P.holds → IsHeldOf (mosaic_of D.Disk tree.old) held.old }
    ensures causes { IfErr result (λ r. IsTrue (may_refuse (ask.Upstream corner) r)) }
    ensures asked { IsAskedOf D.Disk P.holds tree.old tree.new held.old held.new result (λ s r t. TellsTile AreTileCounts s corner (items_in r) t) }
{
    let mut source = TreeSource::<D, P> {
        tree,
        premise: PhantomData,
    };
    drainage::upstream(alloc, &mut source, held, corner)
}

//! Queries about all samples of a tile at once.
ghost use Rattle.std.specs.Prelude.{◌≡◌, ◌≤◌, ◌*◌, IsTrue, IfOk, IfErr, OnOk, Contains, length};
ghost use Rattle.lattice.specs.Mosaic.{Mosaic, IsMosaic};
ghost use Rattle.lattice.specs.declared.refusal.Refusal.TheVariants.{NoMemory};
ghost use Rattle.catalogue.specs.Asked.{Asked};
ghost use Rattle.catalogue.specs.Endings.{ends_any};
ghost use Rattle.water.specs.TileLevels.{AreTileLevels};
ghost use Rattle.water.specs.Questions.{AreCodesTo, AreTileCounts, AreTileDirections};
ghost use Rattle.drainage.specs.Between.{IsHeldFor, IsHeldOf};
ghost use Rattle.drainage.specs.WholeTiles.{code_told};

use crate::drainage_cache::DrainageCache;
use crate::flow_direction::code;
use crate::prepared_flows::{PreparedFlows, flow_anywhere};
use lattice::{Corner, Refusal, Side, point_at, push};
use levels::tile_levels;
use std::alloc::Global;
use tile_labellings::Labellings;
use water::Flow;
use watershed::upstream_counts;

// The code of a sample whose point isn't ground.
const NO_GROUND: u8 = 255;

/// The filled levels of all samples of the corner's tile, which is present, in metres. They are listed row by row from the
/// north, west first; void where a sample's point isn't ground. Each is its point's level on the whole mosaic, as
/// [`crate::fill`] answers it. Cached results are used, and new ones are cached.
///
/// Refusals are NoMemory, those of reading samples or a labelling, and Damaged if the data read can't belong to a mosaic.
pub fn levels<S: Labellings>(
    alloc: Global,
    samples: &mut S,
    held: &mut DrainageCache,
    corner: Corner,
) -> Result<Vec<i16>, Refusal>
    requires held { IsHeldFor S.Samples samples.old held.old }
    requires present { Contains (S.corners samples.old) corner }
    ensures levels { S.is_honest samples.new
        → IfOk result (λ levels. AreTileLevels (S.mosaic samples.old) corner levels.items) }
    ensures causes { IfErr result (λ r. IsTrue (ends_any r)) }
    ensures asked { Asked S.Samples samples.old samples.new result }
    ensures held { IsHeldFor S.Samples samples.new held.new }
{
    let mut tile_cache = held.take(alloc, samples)?;
    let levels = tile_levels(alloc, samples, &mut tile_cache, corner);
    held.put(tile_cache);
    levels
}

/// The direction codes of all samples of the corner's tile, row by row from the north, west first, as [`crate::direction`]
/// answers them; 255 where a sample's point isn't ground. Cached results are used, and new ones are cached. The tile is
/// prepared once, and each of its flats is resolved once.
///
/// Refusals are those of `levels`.
pub fn directions<S: Labellings>(
    alloc: Global,
    samples: &mut S,
    held: &mut DrainageCache,
    corner: Corner,
) -> Result<Vec<u8>, Refusal>
    requires held { IsHeldFor S.Samples samples.old held.old }
    ensures directions { S.is_honest samples.new
        → IfOk result (λ codes. AreTileDirections (S.mosaic samples.old) corner codes.items) }
    ensures causes { IfErr result (λ r. IsTrue (ends_any r)) }
    ensures asked { Asked S.Samples samples.old samples.new result }
    ensures held { IsHeldFor S.Samples samples.new held.new }
{
    let side = samples.side();
    let mut codes = Vec::with_capacity(alloc, side.area() as usize)?;
    'tile: while codes.len() < side.area() as usize {
        let point = point_at(side, corner, codes.len() as u32);
        let flow = flow_anywhere(alloc, samples, held, point)?;
        push(&mut codes, code_told(flow))?;
        push_cached_codes(held, side, corner, &mut codes)?;
    }
    Ok(codes)
}

// Appends the codes of the tile's next samples, up to the first whose direction isn't cached.
fn push_cached_codes(
    held: &DrainageCache,
    side: Side,
    corner: Corner,
    codes: &mut Vec<u8>,
) -> Result<(), Refusal>
    requires { length codes.old.items ≤ side * side }
    ensures codes { OnOk result ((m : Mosaic) → IsMosaic m → side ≡ m.side → IsHeldOf m held.now
        → AreCodesTo m corner (length codes.old.items) codes.old.items
        → AreCodesTo m corner (length codes.new.items) codes.new.items) }
    ensures longer { length codes.old.items ≤ length codes.new.items }
    ensures whole { length codes.new.items ≤ side * side }
    ensures refusal { IfErr result (λ r. r ≡ NoMemory) }
{
    for index in codes.len() as u32..side.area() {
        let flow = held.sample_flow(corner, index);
        if !flow.tells_all() {
            return Ok(());
        }
        push(codes, code_told(flow))?;
    }
    Ok(())
}

/// For each sample of the corner's tile, the number of ground points whose flow path contains its point, the point itself
/// included. It is the number of points that [`crate::watershed`] answers; 0 where a sample's point isn't ground. Numbers are
/// listed row by row from the north, west first.
///
/// Each point upstream of the tile is visited once, in whichever tile it lies. Cached directions are used, and new ones are
/// cached.
///
/// Refusals are those of `levels`, and Damaged if flows form a cycle.
pub fn upstream<S: Labellings>(
    alloc: Global,
    samples: &mut S,
    held: &mut DrainageCache,
    corner: Corner,
) -> Result<Vec<u32>, Refusal>
    requires held { IsHeldFor S.Samples samples.old held.old }
    ensures counts { S.is_honest samples.new
        → IfOk result (λ counts. AreTileCounts (S.mosaic samples.old) corner counts.items) }
    ensures causes { IfErr result (λ r. IsTrue (ends_any r)) }
    ensures asked { Asked S.Samples samples.old samples.new result }
    ensures held { IsHeldFor S.Samples samples.new held.new }
{
    let side = samples.side();
    let mut flows = PreparedFlows { samples, held };
    match upstream_counts(alloc, &mut flows, side, corner)? {
        Some(counts) => Ok(counts),
        None => Err(Refusal::Damaged),
    }
}

// The direction code of a sample with this flow.
fn code_told(flow: Flow) -> u8
    ensures { result ≡ code_told flow }
{
    match flow {
        Flow::NoGround => NO_GROUND,
        _ => code(flow.direction()),
    }
}

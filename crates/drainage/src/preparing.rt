//! Computes the flows of a tile's samples from the filled levels in the tile and around it.
ghost use Rattle.std.specs.Prelude.{◌≡◌, ℕ, ◌+◌, ◌*◌, ◌<◌, ◌≤◌, IsTrue, IfOk, IfErr, OnOk, Contains, length};
ghost use Rattle.lattice.specs.Mosaic.{is_present};
ghost use Rattle.lattice.specs.declared.refusal.Refusal.TheVariants.{NoMemory};
ghost use Rattle.catalogue.specs.Asked.{Asked};
ghost use Rattle.catalogue.specs.Endings.{ends_any};
ghost use Rattle.border_graph.specs.Others.{corner_at};
ghost use Rattle.flow_d8.specs.Padded.{ArePadded, AreSides};
ghost use Rattle.flow_d8.specs.FlowGrids.{AreKnown, AreTileFlows};
ghost use Rattle.flow_cache.specs.LevelRanges.{AreRangesOf, AreKnownAll};
ghost use Rattle.drainage.specs.Between.{IsHeldFor};
ghost use Rattle.levels.specs.Holding.{IsRight};
ghost use Rattle.drainage.specs.Padded.{IsTileCopied, IsStrip, strip_of, AreFilledTo, IsFilledAround};
ghost use Rattle.levels.specs.TileCaches.{known_of};

use crate::drainage_cache::DrainageCache;
use crate::whole_tiles::levels;
use catalogue::Samples;
use flow_cache::level_ranges;
use flow_d8::{FlowByte, Sides, padded_point};
use lattice::{Corner, Refusal, Side, VOID};
use levels::{TileCache, level_of};
use std::alloc::Global;
use tile_labellings::Labellings;
use water::LevelRange;

/// What is computed about a tile: the flows of its samples and the ranges of its levels.
#[derive(Drop)]
pub(crate) struct Prepared {
    /// The flows of its samples. For points inside flats they say whether an exit of the flat is adjacent, and the first step
    /// to one.
    pub(crate) flows: Vec<FlowByte>,
    /// The ranges of the levels, by blocks.
    pub(crate) ranges: Vec<Option<LevelRange>>,
}

/// Prepares the corner's tile, which is present. The levels found are cached.
///
/// Refusals are those of a level query.
pub(crate) fn prepare<S: Labellings>(
    alloc: Global,
    samples: &mut S,
    held: &mut DrainageCache,
    corner: Corner,
) -> Result<Prepared, Refusal>
    requires held { IsHeldFor S.Samples samples.old held.old }
    requires present { Contains (S.corners samples.old) corner }
    ensures flows { S.is_honest samples.new
        → IfOk result (λ prepared. AreTileFlows (S.mosaic samples.old) corner prepared.flows.items) }
    ensures whole { IfOk result (λ prepared. length prepared.flows.items
        ≡ S.side_of samples.old * S.side_of samples.old) }
    ensures known { IfOk result (λ prepared. AreKnown prepared.flows.items) }
    ensures covers { IfOk result (λ prepared. AreKnownAll (S.side_of samples.old) prepared.ranges.items) }
    ensures ranges { S.is_honest samples.new
        → IfOk result (λ prepared. AreRangesOf (S.side_of samples.old) (S.mosaic samples.old) corner prepared.ranges.items) }
    ensures held { IsHeldFor S.Samples samples.new held.new }
    ensures causes { IfErr result (λ r. IsTrue (ends_any r)) }
    ensures asked { Asked S.Samples samples.old samples.new result }
{
    let levels = padded_at(alloc, samples, held, corner)?;
    let flows = tile_flows(alloc, samples, corner, &levels)?;
    let ranges = level_ranges(alloc, samples.side(), &levels)?;
    Ok(Prepared { flows, ranges })
}

// The flows of the tile, from the levels in it and around it. The only refusal is NoMemory.
fn tile_flows<S: Samples>(
    alloc: Global,
    samples: &S,
    corner: Corner,
    levels: &[i16],
) -> Result<Vec<FlowByte>, Refusal>
    requires levels { length levels.now ≡ (S.side_of samples.now + 4) * (S.side_of samples.now + 4) }
    ensures flows { S.is_honest samples.now → Contains (S.corners samples.now) corner
        → ArePadded (S.mosaic samples.now) corner levels.now
        → IfOk result (λ flows. AreTileFlows (S.mosaic samples.now) corner flows.items) }
    ensures whole { IfOk result (λ flows. length flows.items ≡ S.side_of samples.now * S.side_of samples.now) }
    ensures known { IfOk result (λ flows. AreKnown flows.items) }
    ensures refusal { IfErr result (λ r. r ≡ NoMemory) }
{
    let sides = sides_of(samples, corner);
    let flows = flow_d8::prepare(
        alloc,
        samples.side(),
        corner,
        levels,
        &sides,
        samples.sinks(),
    )?;
    Ok(flows)
}

// Whether the tiles across the edges of the corner's tile are present.
fn sides_of<S: Samples>(samples: &S, corner: Corner) -> Sides
    ensures { S.is_honest samples.now → AreSides (S.mosaic samples.now) corner result }
{
    Sides {
        north: is_present_at(samples, corner.lat + 1, corner.lon),
        east: is_present_at(samples, corner.lat, corner.lon + 1),
        south: is_present_at(samples, corner.lat - 1, corner.lon),
        west: is_present_at(samples, corner.lat, corner.lon - 1),
    }
}

fn is_present_at<S: Samples>(samples: &S, lat: i16, lon: i16) -> bool
    ensures { S.is_honest samples.now
        → result ≡ is_present (S.mosaic samples.now) (record { lat = lat; lon = lon }) }
{
    match Corner::new(lat, lon) {
        Some(corner) => samples.present(corner),
        None => false,
    }
}

// The filled levels of the corner's tile, which is present, and of two rows and columns around it; void where a point isn't
// ground. The levels found are cached.
fn padded_at<S: Labellings>(
    alloc: Global,
    samples: &mut S,
    held: &mut DrainageCache,
    corner: Corner,
) -> Result<Vec<i16>, Refusal>
    requires held { IsHeldFor S.Samples samples.old held.old }
    requires present { Contains (S.corners samples.old) corner }
    ensures levels { S.is_honest samples.new
        → IfOk result (λ levels. ArePadded (S.mosaic samples.old) corner levels.items) }
    ensures whole { IfOk result (λ levels. length levels.items ≡ (S.side_of samples.old + 4) * (S.side_of samples.old + 4)) }
    ensures held { IsHeldFor S.Samples samples.new held.new }
    ensures causes { IfErr result (λ r. IsTrue (ends_any r)) }
    ensures asked { Asked S.Samples samples.old samples.new result }
{
    let tile = levels(alloc, samples, held, corner)?;
    let side = samples.side();
    if tile.len() != side.area() as usize {
        return Err(Refusal::Damaged);
    }
    let width = side.samples() as usize + 4;
    let mut padded = vec![in alloc; VOID; width * width]?;
    copy_tile(side, &tile, &mut padded);
    let mut tile_cache = held.take(alloc, samples)?;
    let filled = fill_around(alloc, samples, &mut tile_cache, corner, &mut padded);
    held.put(tile_cache);
    filled?;
    Ok(padded)
}

// Copies the tile's levels into the middle of the square around it.
fn copy_tile(side: Side, tile: &[i16], levels: &mut [i16])
    requires tile { length tile.now ≡ side * side }
    requires levels { length levels.old ≡ (side + 4) * (side + 4) }
    ensures { IsTileCopied side side tile.now levels.old levels.new }
{
    let n = side.samples() as usize;
    for row in 0..n {
        copy_row(side, tile, row, levels);
    }
}

fn copy_row(side: Side, tile: &[i16], row: usize, levels: &mut [i16])
    requires tile { length tile.now ≡ side * side }
    requires levels { length levels.old ≡ (side + 4) * (side + 4) }
    requires row { row < side }
    requires before { IsTileCopied row side tile.now levels.old levels.old }
    ensures { IsTileCopied (row + 1) side tile.now levels.old levels.new }
{
    let n = side.samples() as usize;
    let to = (row + 2) * (n + 4) + 2;
    let from = row * n;
    for column in 0..n {
        levels[to + column] = tile[from + column];
    }
}

/// A rectangle of rows and columns in the square around a tile.
#[derive(Clone, Copy)]
pub(crate) struct Strip {
    pub(crate) row: usize,
    pub(crate) column: usize,
    pub(crate) rows: usize,
    pub(crate) columns: usize,
}

// Sets the levels of the two rows and columns around the tile.
fn fill_around<S: Labellings>(
    alloc: Global,
    samples: &mut S,
    tile_cache: &mut TileCache,
    corner: Corner,
    levels: &mut [i16],
) -> Result<(), Refusal>
    requires right { S.is_honest samples.old
        → IsRight (S.mosaic samples.old) (known_of tile_cache.old) }
    requires levels { length levels.old ≡ (S.side_of samples.old + 4) * (S.side_of samples.old + 4) }
    ensures filled { S.is_honest samples.new
        → OnOk result (IsFilledAround (S.mosaic samples.old) corner levels.old levels.new) }
    ensures whole { length levels.new ≡ length levels.old }
    ensures right { S.is_honest samples.new
        → IsRight (S.mosaic samples.new) (known_of tile_cache.new) }
    ensures causes { IfErr result (λ r. IsTrue (ends_any r)) }
    ensures asked { Asked S.Samples samples.old samples.new result }
{
    let side = samples.side();
    for number in 0..4 {
        let strip = strip_at(side, number);
        for at in 0..strip.rows * strip.columns {
            let row = strip.row + at / strip.columns;
            let column = strip.column + at % strip.columns;
            let point = padded_point(side, corner, row, column);
            let level = level_of(alloc, samples, tile_cache, point)?;
            levels[padded_place(side, row, column)] = level;
        }
    }
    Ok(())
}

// The strip with this number: two rows north of the tile, two south, two columns west, two east.
fn strip_at(side: Side, number: usize) -> Strip
    ensures value { result ≡ strip_of side number }
    ensures fits { IsStrip side result }
{
    let n = side.samples() as usize;
    match number {
        0 => Strip {
            row: 0,
            column: 0,
            rows: 2,
            columns: n + 4,
        },
        1 => Strip {
            row: n + 2,
            column: 0,
            rows: 2,
            columns: n + 4,
        },
        2 => Strip {
            row: 2,
            column: 0,
            rows: n,
            columns: 2,
        },
        _ => Strip {
            row: 2,
            column: n + 2,
            rows: n,
            columns: 2,
        },
    }
}

// The index of this row and column in the square around the tile.
fn padded_place(side: Side, row: usize, column: usize) -> usize
    requires row { row < side + 4 }
    requires column { column < side + 4 }
    ensures value { result ≡ row * (side + 4) + column }
    ensures below { result < (side + 4) * (side + 4) }
{
    let width = side.samples() as usize + 4;
    row * width + column
}

//! Computes the flows of a tile's samples from the filled levels of the tile and of the points around it. It leaves open the
//! directions of points inside flats without an adjacent exit.
ghost use Rattle.std.specs.Prelude.{◌≡◌, ◌↔◌, ◌⊎◌, ℕ, ◌+◌, ◌*◌, ◌<◌, ◌≤◌, false, Bool, IsTrue, IfOk, MatchOption, ℤ, pos, negsuc, ◌+ℤ◌, ◌-ℤ◌, ◌≤ℤ◌, length, slice_index_or, if◌then◌else◌};
ghost use Rattle.lattice.specs.Mosaic.{Mosaic, IsMosaic, void};
ghost use Rattle.lattice.specs.Terrain.{Terrain};
ghost use Rattle.lattice.specs.declared.point.Point.{Point};
ghost use Rattle.lattice.specs.declared.direction.Dir.{Dir};
ghost use Rattle.lattice.specs.declared.direction.Dir.TheVariants.{North, East, South, West};
ghost use Rattle.flow_d8.specs.Places.{place_by, IsInner};
ghost use Rattle.water.specs.declared.flow.Flow.TheVariants.{Unknown, Outlet, Flat, Beside};
ghost use Rattle.flow_d8.specs.FlowGrids.{AreKnown, AreTileFlows};
ghost use Rattle.flow_d8.specs.Padded.{IsPaddedTile, padded_point as point_in};
ghost use Rattle.flow_d8.specs.Preparing.{flow_in, IsLocal, IsPlain, IsEnd, IsPlaceFlow, IsSinkPlace, IsDrainedAt, AreDrained, AreSunkFlows, IsEndBeside, IsFirstEndBeside, IsEnded, AreEnded, place_in, leads_over, IsFlowWithout, IsClosedAt, along_of, IsClosedFlow, IsClosing};

use crate::flow_byte::FlowByte;
use crate::local_flow::local_flow_at;
use crate::tiles::place;
use lattice::{Corner, DIRECTIONS, Dir, Point, Side, VOID, point_at};
use std::alloc::{AllocError, Global};
use water::Flow;

/// For each edge of a tile, whether the tile across it is present.
#[derive(Clone, Copy, Debug, PartialEq, Eq)]
pub struct Sides {
    pub north: bool,
    pub east: bool,
    pub south: bool,
    pub west: bool,
}

// The levels of a tile and of two rows and columns around it, and which tiles across its edges are present.
#[derive(Drop)]
struct Padded<'a> {
    side: Side,
    levels: &'a [i16],
    sides: &'a Sides,
    ghost whole: { length levels.now ≡ (side + 4) * (side + 4) },
}

/// The flows of the tile's samples, from four things: the filled levels of the tile, those of two rows and columns around it,
/// its sides, and the declared sinks. A level is void where a point isn't ground. For points inside flats the flows show
/// whether an exit is adjacent, and the first step to one.
pub fn prepare(
    alloc: Global,
    side: Side,
    corner: Corner,
    levels: &[i16],
    sides: &Sides,
    sinks: &[Point],
) -> Result<Vec<FlowByte>, AllocError>
    requires { length levels.now ≡ (side + 4) * (side + 4) }
    ensures whole { IfOk result (λ flows. length flows.items ≡ side * side) }
    ensures known { IfOk result (λ flows. AreKnown flows.items) }
    ensures flows { IfOk result (λ flows. (m : Mosaic) → IsMosaic m → m.side ≡ side
        → IsPaddedTile m corner levels.now sides.now sinks.now
        → AreTileFlows m corner flows.items) }
{
    let tile = Padded {
        side,
        levels,
        sides,
    };
    let mut around = vec![in alloc; FlowByte::of(Flow::Unknown); levels.len()]?;
    tell_around(&tile, corner, sinks, &mut around);
    let mut flows = told_samples(alloc, &tile, &around)?;
    close_sides(&tile, &mut flows);
    Ok(flows)
}

// Sets the flows of the tile's places and of the places adjacent to the tile.
fn tell_around(tile: &Padded, corner: Corner, sinks: &[Point], flows: &mut [FlowByte])
    requires { length flows.old ≡ length tile.now.levels.now }
    ensures whole { length flows.new ≡ length flows.old }
    ensures told { AreSunkFlows tile.now.side corner tile.now.levels.now sinks.now flows.new }
{
    tell_places(tile, flows);
    drain_sinks(tile.side, corner, sinks, flows);
}

fn tell_places(tile: &Padded, flows: &mut [FlowByte])
    requires { length flows.old ≡ length tile.now.levels.now }
    ensures whole { length flows.new ≡ length flows.old }
    ensures told { (k : ℕ) → IsInner (tile.now.side + 4) (length tile.now.levels.now) k
        → IsPlaceFlow tile.now.levels.now (tile.now.side + 4) k (flow_in flows.new k) }
{
    let levels = tile.levels;
    let width = width(tile.side);
    for k in width + 1..levels.len() - (width + 1) {
        flows[k] = FlowByte::of(local_flow_at(levels, width, k));
    }
}

// Makes outlets of the sinks among the places inside flats.
fn drain_sinks(side: Side, corner: Corner, sinks: &[Point], flows: &mut [FlowByte])
    requires { length flows.old ≡ (side + 4) * (side + 4) }
    ensures { AreDrained side corner sinks.now flows.old flows.new }
{
    for i in 0..sinks.len() {
        drain(side, corner, sinks[i], flows);
    }
}

fn drain(side: Side, corner: Corner, sink: Point, flows: &mut [FlowByte])
    requires { length flows.old ≡ (side + 4) * (side + 4) }
    ensures { IsDrainedAt side corner sink flows.old flows.new }
{
    let Some(place) = place_of(side, corner, sink) else {
        return;
    };
    if is_flat(flows, place) {
        flows[place] = FlowByte::of(Flow::Outlet);
    }
}

#[inline(always)]
fn is_flat(flows: &[FlowByte], k: usize) -> bool
    requires { k < length flows.now }
    ensures { IsTrue result ↔ (flow_in flows.now k ≡ Flat) }
{
    flows[k].is_flat()
}

// The place of the point in the square around the tile; None outside it.
fn place_of(side: Side, corner: Corner, point: Point) -> Option<usize>
    ensures { MatchOption result ((k : ℕ) → IsSinkPlace side corner point k → ⊥) (λ k. IsSinkPlace side corner point k
        × ((j : ℕ) → IsSinkPlace side corner point j → j ≡ k)) }
{
    // This call shows the prover that the side is from 3 to 3601 samples.
    let _small = side.samples();
    let first = point_at(side, corner, 0);
    let row = inner_place(side, place_along(point.y, first.y))?;
    let column = inner_place(side, place_along(first.x, point.x))?;
    Some(row * width(side) + column)
}

// The distance from the one coordinate to the other, counted from two places earlier.
fn place_along(from: i32, to: i32) -> i64
    ensures { result ≡ (to -ℤ from) +ℤ pos 2 }
{
    i64::from(to) - i64::from(from) + 2
}

// The row or column with this number; None for the first, the last, and numbers outside the square.
fn inner_place(side: Side, place: i64) -> Option<usize>
    ensures { MatchOption result ((k : ℕ) → 1 ≤ k → k < side + 3 → place ≡ pos k → ⊥) (λ k. (1 ≤ k)
        × (k < side + 3) × (place ≡ pos k)) }
{
    if place < 1 {
        return None;
    }
    if place >= i64::from(side.samples()) + 3 {
        return None;
    }
    Some(place as usize)
}

/// The point in this row and column of the square around the tile.
pub fn padded_point(side: Side, corner: Corner, row: usize, column: usize) -> Point
    requires row { row < side + 4 }
    requires column { column < side + 4 }
    ensures { result ≡ point_in side corner row column }
{
    let _small = side.samples();
    let first = point_at(side, corner, 0);
    let y = moved(first.y, 2 - row as i64);
    let x = moved(first.x, column as i64 - 2);
    Point { y, x }
}

// The value increased by `by`.
fn moved(value: i32, by: i64) -> i32
    requires low { negsuc 1000000 ≤ℤ value }
    requires high { value ≤ℤ pos 1000000 }
    requires by_low { negsuc 10000 ≤ℤ by }
    requires by_high { by ≤ℤ pos 10000 }
    ensures { result ≡ value +ℤ by }
{
    (i64::from(value) + by) as i32
}

// The width of the square around the tile.
fn width(side: Side) -> usize
    ensures value { result ≡ side + 4 }
    ensures low { 7 ≤ result }
    ensures high { result ≤ 3605 }
{
    side.samples() as usize + 4
}

// The flows of the tile's samples, from the flows of the square's places.
fn told_samples(
    alloc: Global,
    tile: &Padded,
    around: &[FlowByte],
) -> Result<Vec<FlowByte>, AllocError>
    requires { length around.now ≡ length tile.now.levels.now }
    ensures whole { IfOk result (λ flows. length flows.items ≡ tile.now.side * tile.now.side) }
    ensures ended { IfOk result (λ flows. AreEnded tile.now.side tile.now.levels.now around.now (tile.now.side * tile.now.side) flows.items) }
{
    let mut flows = Vec::with_capacity(alloc, tile.side.area() as usize)?;
    for row in 0..tile.side.samples() as usize {
        tell_row(tile, around, row, &mut flows)?;
    }
    Ok(flows)
}

fn tell_row(
    tile: &Padded,
    around: &[FlowByte],
    row: usize,
    flows: &mut Vec<FlowByte>,
) -> Result<(), AllocError>
    requires around { length around.now ≡ length tile.now.levels.now }
    requires row { row < tile.now.side }
    requires before { length flows.old.items ≡ row * tile.now.side }
    requires ended { AreEnded tile.now.side tile.now.levels.now around.now (row * tile.now.side) flows.old.items }
    ensures whole { IfOk result (λ done. length flows.new.items ≡ (row + 1) * tile.now.side) }
    ensures ended { IfOk result (λ done. AreEnded tile.now.side tile.now.levels.now around.now ((row + 1) * tile.now.side) flows.new.items) }
{
    let levels = tile.levels;
    let n = tile.side.samples() as usize;
    let width = width(tile.side);
    let first = (row + 2) * width + 2;
    for column in 0..n {
        let flow = ended_flow(levels, around, width, first + column);
        flows.push(FlowByte::of(flow))?;
    }
    Ok(())
}

// The flow of a place. For a place inside a flat it says whether an exit is adjacent.
#[inline(always)]
fn ended_flow(levels: &[i16], around: &[FlowByte], width: usize, k: usize) -> Flow
    requires inner { IsInner width (length levels.now) k }
    requires around { length around.now ≡ length levels.now }
    ensures { IsEnded levels.now around.now width k result }
{
    if is_flat(around, k) {
        flat_flow(levels, around, width, k)
    } else {
        around[k].flow()
    }
}

fn flat_flow(levels: &[i16], around: &[FlowByte], width: usize, k: usize) -> Flow
    requires inner { IsInner width (length levels.now) k }
    requires around { length around.now ≡ length levels.now }
    ensures { ((result ≡ Flat) × ((d : Dir) → IsEndBeside levels.now around.now width k d → ⊥))
        ⊎ ((d : Dir) × ((result ≡ Beside d) × IsFirstEndBeside levels.now around.now width k d)) }
{
    if are_flat_around(around, width, k) {
        return Flow::Flat;
    }
    for i in 0..8 {
        if leads_to_end(
            levels,
            around,
            k,
            place(width, k, DIRECTIONS[i], levels.len()),
        ) {
            return Flow::Beside(DIRECTIONS[i]);
        }
    }
    Flow::Flat
}

// Whether each place around this one lies in a flat.
#[inline(always)]
fn are_flat_around(flows: &[FlowByte], width: usize, k: usize) -> bool
    requires { IsInner width (length flows.now) k }
    ensures { IsTrue result → (d : Dir) → flow_in flows.now (place_by width k d) ≡ Flat }
{
    is_flat(flows, k - 1)
        && is_flat(flows, k + 1)
        && is_flat(flows, k - width - 1)
        && is_flat(flows, k - width)
        && is_flat(flows, k - width + 1)
        && is_flat(flows, k + width - 1)
        && is_flat(flows, k + width)
        && is_flat(flows, k + width + 1)
}

#[inline(always)]
fn leads_to_end(levels: &[i16], around: &[FlowByte], k: usize, to: usize) -> bool
    requires k { k < length levels.now }
    requires to { to < length levels.now }
    requires around { length around.now ≡ length levels.now }
    ensures { IsTrue result
        ↔ ((slice_index_or levels.now to void ≡ slice_index_or levels.now k void)
        × IsEnd (flow_in around.now to)) }
{
    if is_flat(around, to) {
        return false;
    }
    is_end(around[to].flow()) && levels[to] == levels[k]
}

fn is_end(flow: Flow) -> bool
    ensures { IsTrue result ↔ IsEnd flow }
{
    match flow {
        Flow::Outlet | Flow::To(_) => true,
        Flow::Unknown | Flow::NoGround | Flow::Beside(_) | Flow::Flat | Flow::FlatTo(_) => false,
    }
}

// Sets the flows of samples on edges with no present tile across, without the levels beyond the edge. A point there may lie
// next to a sample without being adjacent to it, in the tile across a corner.
fn close_sides(tile: &Padded, flows: &mut [FlowByte])
    requires { length flows.old ≡ tile.now.side * tile.now.side }
    ensures closing { IsClosing tile.now.side tile.now.levels.now tile.now.sides.now flows.old flows.new }
    ensures told { (d : Dir) (r s : ℕ) → IsClosedAt tile.now.side tile.now.sides.now d r s
        → IsClosedFlow tile.now.side tile.now.levels.now tile.now.sides.now (r * tile.now.side + s) (flow_in flows.new (r * tile.now.side + s)) }
{
    let n = tile.side.samples() as usize;
    for i in 1..n - 1 {
        close_along(tile, i, flows);
    }
}

// Sets the flows of the four samples at position i along the edges, as `close_sides` says.
fn close_along(tile: &Padded, i: usize, flows: &mut [FlowByte])
    requires flows { length flows.old ≡ tile.now.side * tile.now.side }
    requires some { 0 < i }
    requires inside { i + 1 < tile.now.side }
    ensures closing { IsClosing tile.now.side tile.now.levels.now tile.now.sides.now flows.old flows.new }
    ensures told { (d : Dir) (r s : ℕ) → IsClosedAt tile.now.side tile.now.sides.now d r s
        → along_of d r s ≡ i
        → IsClosedFlow tile.now.side tile.now.levels.now tile.now.sides.now (r * tile.now.side + s) (flow_in flows.new (r * tile.now.side + s)) }
{
    let last = tile.side.samples() as usize - 1;
    close_unless(tile.sides.north, tile, Dir::North, (0, i), flows);
    close_unless(tile.sides.east, tile, Dir::East, (i, last), flows);
    close_unless(tile.sides.south, tile, Dir::South, (last, i), flows);
    close_unless(tile.sides.west, tile, Dir::West, (i, 0), flows);
}

// Sets the flow of the sample in this row and column of this edge, unless a tile is present across the edge.
fn close_unless(is_open: bool, tile: &Padded, over: Dir, at: (usize, usize), flows: &mut [FlowByte])
    requires flows { length flows.old ≡ tile.now.side * tile.now.side }
    requires row { at.0 < tile.now.side }
    requires column { at.1 < tile.now.side }
    requires closed { is_open ≡ false → IsClosedAt tile.now.side tile.now.sides.now over at.0 at.1 }
    ensures closing { IsClosing tile.now.side tile.now.levels.now tile.now.sides.now flows.old flows.new }
    ensures told { is_open ≡ false
        → IsClosedFlow tile.now.side tile.now.levels.now tile.now.sides.now (at.0 * tile.now.side + at.1) (flow_in flows.new (at.0 * tile.now.side + at.1)) }
{
    if is_open {
        return;
    }
    let (row, column) = at;
    let n = tile.side.samples() as usize;
    let width = width(tile.side);
    let flow = flow_without(tile.levels, width, over, (row + 2) * width + (column + 2));
    flows[row * n + column] = FlowByte::of(flow);
}

// The flow of a place, from the levels around it that aren't beyond the edge.
fn flow_without(levels: &[i16], width: usize, over: Dir, k: usize) -> Flow
    requires { IsInner width (length levels.now) k }
    ensures { IsFlowWithout levels.now width over k result }
{
    local_flow_at(&levels_without(levels, width, over, k), 3, 4)
}

// The nine levels at the place and around it, in three rows; void beyond the edge.
fn levels_without(levels: &[i16], width: usize, over: Dir, k: usize) -> [i16; 9]
    requires { IsInner width (length levels.now) k }
    ensures whole { length result ≡ 9 }
    ensures here { slice_index_or result 4 void ≡ slice_index_or levels.now k void }
    ensures around { (d : Dir)
        → slice_index_or result (place_by 3 4 d) void
        ≡ (if leads_over over d then void else slice_index_or levels.now (place_by width k d) void) }
{
    [
        level_without(levels, width, over, k, Dir::NorthWest),
        level_without(levels, width, over, k, Dir::North),
        level_without(levels, width, over, k, Dir::NorthEast),
        level_without(levels, width, over, k, Dir::West),
        levels[k],
        level_without(levels, width, over, k, Dir::East),
        level_without(levels, width, over, k, Dir::SouthWest),
        level_without(levels, width, over, k, Dir::South),
        level_without(levels, width, over, k, Dir::SouthEast),
    ]
}

fn level_without(levels: &[i16], width: usize, over: Dir, k: usize, direction: Dir) -> i16
    requires { IsInner width (length levels.now) k }
    ensures { result ≡ (if leads_over over direction then void else slice_index_or levels.now (place_by width k direction) void) }
{
    if is_over(over, direction) {
        VOID
    } else {
        levels[place(width, k, direction, levels.len())]
    }
}

fn is_over(over: Dir, direction: Dir) -> bool
    ensures { result ≡ leads_over over direction }
{
    match over {
        Dir::North => matches!(direction, Dir::NorthWest | Dir::North | Dir::NorthEast),
        Dir::East => matches!(direction, Dir::NorthEast | Dir::East | Dir::SouthEast),
        Dir::South => matches!(direction, Dir::SouthEast | Dir::South | Dir::SouthWest),
        Dir::West => matches!(direction, Dir::SouthWest | Dir::West | Dir::NorthWest),
        _ => false,
    }
}

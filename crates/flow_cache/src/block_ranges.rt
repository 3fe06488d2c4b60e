//! For each block of a tile, the range of its levels. It shows which levels a change of a height can't move.
ghost use Rattle.std.specs.Prelude.{◌≡◌, ◌↔◌, ℕ, ◌+◌, ◌*◌, ◌^◌, ◌<◌, ◌≤◌, IsTrue, IsFalse, IfOk, None, length, slice_index_or, slice_set};
ghost use Rattle.lattice.specs.Mosaic.{void};
ghost use Rattle.flow_cache.specs.LevelRanges.{block_of, range_at, with_level, spared_of, AreRangesTo, AreRanges, AreSpared, IsAffected, IsByRow};

use lattice::{Side, VOID};
use std::alloc::{AllocError, Global};
use water::LevelRange;

// The number of rows of a block, and of columns.
const BLOCK: usize = 32;

// The stride from one row of blocks to the next, for tiles of every side.
pub(crate) const BLOCKS_IN_ROW: usize = 128;

/// For each block, the range of its filled levels. Blocks divide the square of the tile and of two rows and columns around
/// it. A level is void where its point isn't ground.
pub fn level_ranges(
    alloc: Global,
    side: Side,
    levels: &[i16],
) -> Result<Vec<Option<LevelRange>>, AllocError>
    requires { length levels.now ≡ (side + 4) * (side + 4) }
    ensures { IfOk result (λ ranges. AreRanges (side + 4) levels.now ranges.items) }
{
    let width = side.samples() as usize + 4;
    let none = LevelRange {
        least: i16::MAX,
        greatest: i16::MIN,
    };
    let mut ranges = vec![in alloc; Some(none); block(width, 0) + BLOCKS_IN_ROW]?;
    for row in 0..width {
        widen_row(levels, width, row, &mut ranges);
    }
    Ok(ranges)
}

// Widens the ranges of the row's blocks so that they contain the row's levels.
fn widen_row(levels: &[i16], width: usize, row: usize, ranges: &mut [Option<LevelRange>])
    requires levels { length levels.now ≡ width * width }
    requires width { width ≤ 3605 }
    requires row { row < width }
    requires whole { length ranges.old ≡ block_of width 0 + 128 }
    requires before { AreRangesTo width (row * width) levels.now ranges.old }
    ensures whole { length ranges.new ≡ length ranges.old }
    ensures ranges { AreRangesTo width ((row + 1) * width) levels.now ranges.new }
{
    for column in 0..width {
        widen(
            ranges,
            block(row, column),
            level_at(levels, row * width + column),
        );
    }
}

#[inline(always)]
fn level_at(levels: &[i16], k: usize) -> i16
    requires { k < length levels.now }
    ensures { result ≡ slice_index_or levels.now k void }
{
    levels[k]
}

// Widens the block's range so that it contains the level.
#[inline(always)]
fn widen(ranges: &mut [Option<LevelRange>], block: usize, level: i16)
    requires { block < length ranges.old }
    ensures { ranges.new ≡ slice_set ranges.old block (with_level (range_at ranges.old block) level) }
{
    ranges[block] = with_level(ranges[block], level);
}

#[inline(always)]
fn with_level(range: Option<LevelRange>, level: i16) -> Option<LevelRange>
    ensures { result ≡ with_level range level }
{
    let range = range?;
    if level == VOID {
        return Some(range);
    }
    Some(LevelRange {
        least: range.least.min(level),
        greatest: range.greatest.max(level),
    })
}

/// Sets to None each range in which some level may change when a ground point's height goes from `was` to `is`. Allocates
/// nothing.
pub(crate) fn retain_spared(ranges: &mut [Option<LevelRange>], was: i16, is: i16)
    ensures { AreSpared was is ranges.old ranges.new }
{
    for block in 0..ranges.len() {
        ranges[block] = spared(ranges[block], was, is);
    }
}

fn spared(range: Option<LevelRange>, was: i16, is: i16) -> Option<LevelRange>
    ensures { result ≡ spared_of was is range }
{
    let range = range?;
    if range.is_spared(was, is) {
        Some(range)
    } else {
        None
    }
}

/// Whether the range is known, and a level in it may change when a ground point's height goes from `was` to `is`.
pub(crate) fn is_affected(range: Option<LevelRange>, was: i16, is: i16) -> bool
    ensures { IsTrue result ↔ IsAffected was is range }
{
    match range {
        Some(range) => !range.is_spared(was, is),
        None => false,
    }
}

/// Whether one of the ranges is affected by that change of a height.
pub(crate) fn has_affected(ranges: &[Option<LevelRange>], was: i16, is: i16) -> bool
    ensures { IsFalse result → (b : ℕ) → IsAffected was is (range_at ranges.now b) → ⊥ }
{
    for block in 0..ranges.len() {
        if is_affected(ranges[block], was, is) {
            return true;
        }
    }
    false
}

/// The tile's sample rows that lie in this row of blocks or next to it: the first, and the one after the last. The same holds
/// for columns.
pub(crate) fn samples_by(side: Side, at: usize) -> (usize, usize)
    requires { at ≤ 2 ^ 57 }
    ensures order { result.0 ≤ result.1 }
    ensures small { result.1 ≤ side }
    ensures all { (r : ℕ) → r < side → (result.0 ≤ r × r < result.1) ↔ IsByRow r at }
{
    let past = (at * BLOCK + BLOCK - 1).min(side.samples() as usize);
    (((at * BLOCK).saturating_sub(3)).min(past), past)
}

// The block that contains this row and column of the square around the tile.
#[inline(always)]
fn block(row: usize, column: usize) -> usize
    requires row { row ≤ 3605 }
    requires column { column ≤ 3605 }
    ensures { result ≡ block_of row column }
{
    row / BLOCK * BLOCKS_IN_ROW + column / BLOCK
}

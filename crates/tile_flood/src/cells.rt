//! The state of a flood's points in one array. All that is read and written for a point is in one cell.
ghost use Rattle.std.specs.Prelude.{◌≡◌, ◌≢◌, ◌+◌, ◌<◌, ℕ, ℤ, List, IfOk, OnOk, length, slice_set, slice_index, slice_index_or};
ghost use Rattle.lattice.specs.Mosaic.{void};
ghost use Rattle.labelling.specs.Labelling.{NO_LABEL as no_label};
ghost use Rattle.tile_flood.specs.Waiting.{waiting, IsJoined};
ghost use Rattle.tile_flood.specs.Cells.{OPEN as open_label, levels_of, labels_of, AreCells};

use crate::queue::Queue;
use crate::values::{at, has_level};
use labelling::NO_LABEL;
use lattice::VOID;
use std::alloc::{AllocError, Global};

// The label of a ground point that hasn't got one yet.
const OPEN: u16 = 0xFFFD;

/// The label and the level of a point. A ground point without a label is open, and its cell has its height in place of the
/// level.
#[derive(Clone, Copy)]
pub(crate) struct Cell {
    pub(crate) level: i16,
    pub(crate) label: u16,
}

/// A point that was taken from a queue, with the level and the label that it passes on to its neighbours.
#[derive(Clone, Copy)]
pub(crate) struct PoppedCell {
    pub(crate) point: usize,
    pub(crate) level: i16,
    pub(crate) label: u16,
}

// The cell of a void, and of a point whose level and label were removed.
pub(crate) const VOID_CELL: Cell = Cell {
    level: VOID,
    label: NO_LABEL,
};

// The cells of a block with these heights; no point has a label yet.
pub(crate) fn unlabelled(alloc: Global, heights: &[i16]) -> Result<Vec<Cell>, AllocError>
    ensures cells { IfOk result (λ cells. AreCells heights.now cells.items) }
    ensures no_level { IfOk result (λ cells. (e : ℕ)
        → slice_index_or (levels_of cells.items) e void ≡ void) }
    ensures no_label { IfOk result (λ cells. (e : ℕ) → e < length heights.now
        → slice_index (labels_of cells.items) e ≡ no_label) }
{
    let mut cells = vec![in alloc; VOID_CELL; heights.len()]?;
    for e in 0..heights.len() {
        cells[e] = fresh_cell(heights, e);
    }
    Ok(cells)
}

// The levels of the points; void without a label.
pub(crate) fn levels_in(alloc: Global, cells: &[Cell]) -> Result<Vec<i16>, AllocError>
    ensures { IfOk result (λ levels. levels.items ≡ levels_of cells.now) }
{
    let mut levels = vec![in alloc; VOID; cells.len()]?;
    for e in 0..cells.len() {
        levels[e] = level_in(cell_at(cells, e));
    }
    Ok(levels)
}

// The labels of the points.
pub(crate) fn labels_in(alloc: Global, cells: &[Cell]) -> Result<Vec<u16>, AllocError>
    ensures { IfOk result (λ labels. labels.items ≡ labels_of cells.now) }
{
    let mut labels = vec![in alloc; NO_LABEL; cells.len()]?;
    for e in 0..cells.len() {
        labels[e] = label_in(cell_at(cells, e));
    }
    Ok(labels)
}

// Sets the point's level and label, and puts the point into the queue.
#[inline(always)]
pub(crate) fn mark(
    cells: &mut [Cell],
    queue: &mut Queue,
    e: usize,
    level: i16,
    label: u16,
) -> Result<(), AllocError>
    requires small { e < 4294967296 }
    requires inside { e < length cells.old }
    requires labelled { (label ≢ no_label) × (label ≢ open_label) }
    ensures levels { OnOk result (levels_of cells.new ≡ slice_set (levels_of cells.old) e level) }
    ensures labels { OnOk result (labels_of cells.new ≡ slice_set (labels_of cells.old) e label) }
    ensures cells { OnOk result ((heights : List ℤ) → AreCells heights cells.old
        → AreCells heights cells.new) }
    ensures joined { OnOk result (IsJoined queue.old queue.new level e) }
    ensures count { OnOk result (waiting queue.new ≡ waiting queue.old + 1) }
{
    queue.push(level, e as u32)?;
    cells[e] = Cell { level, label };
    Ok(())
}

ghost use Rattle.std.specs.Prelude.{nat_eq, false, IsTrue};
ghost use Rattle.labelling.specs.Blocks.{is_marked};
ghost use Rattle.tile_flood.specs.Cells.{level_of, label_of};

// The cell of point e.
#[inline(always)]
pub(crate) fn cell_at(cells: &[Cell], e: usize) -> Cell
    requires { e < length cells.now }
    ensures { (d : Cell) → result ≡ slice_index_or cells.now e d }
{
    cells[e]
}

// Whether the cell is that of a ground point without a label.
#[inline(always)]
pub(crate) fn is_open(cell: Cell) -> bool
    ensures { result ≡ nat_eq cell.label open_label }
{
    cell.label == OPEN
}

// The cell of point e before a flood.
fn fresh_cell(heights: &[i16], e: usize) -> Cell
    requires { e < length heights.now }
    ensures level { result.level ≡ slice_index_or heights.now e void }
    ensures ground { IsTrue (is_marked heights.now e) → result.label ≡ open_label }
    ensures gap { is_marked heights.now e ≡ false → result.label ≡ no_label }
{
    let level = at(heights, e);
    if has_level(heights, e) {
        Cell { level, label: OPEN }
    } else {
        Cell {
            level,
            label: NO_LABEL,
        }
    }
}

// The label of the point.
fn label_in(cell: Cell) -> u16
    ensures { result ≡ label_of cell }
{
    if cell.label == OPEN {
        NO_LABEL
    } else {
        cell.label
    }
}

// The level of the point; void without a label.
fn level_in(cell: Cell) -> i16
    ensures { result ≡ level_of cell }
{
    if cell.label == OPEN { VOID } else { cell.level }
}

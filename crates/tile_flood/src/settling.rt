//! Labelled points spread to their neighbours, the lowest level first.
ghost use Rattle.std.specs.Prelude.{◌≡◌, ◌<◌, ◌≤◌, [], ◌*◌, ◌+◌, ◌/◌, ℕ, OnOk, IsTrue, List, length, slice_index};
ghost use Rattle.lattice.specs.Block.{is_solid, is_linked};
ghost use Rattle.labelling.specs.Labelling.{IsLabelling};
ghost use Rattle.tile_flood.specs.Carried.{AreCarried};
ghost use Rattle.tile_flood.specs.Views.{viewed_block};
ghost use Rattle.tile_flood.specs.Waiting.{waiting};
ghost use Rattle.tile_flood.specs.Cells.{IsMark, levels_of, labels_of, AreCells};
ghost use Rattle.labelling.specs.Blocks.{is_marked};
ghost use Rattle.tile_flood.specs.Flooding.{unmarked, AreMarkedStill, IsNear};
ghost use Rattle.tile_flood.specs.Spreading.{IsFlooding, IsSpreading};
ghost use Rattle.tile_flood.specs.declared.filling.FilledSpan.{FilledSpan};
ghost use Rattle.tile_flood.specs.Spans.{InSpans, one_point};

use crate::cells::{Cell, PoppedCell, cell_at, is_open, mark};
use crate::filling::{FilledSpan, fill, is_low};
use crate::queue::Queue;
use crate::values::higher;
use crate::views::BlockView;
use std::alloc::{AllocError, Global};

// Lets each waiting point spread, until none waits.
pub(crate) fn settle(
    alloc: Global,
    block: &BlockView,
    cells: &mut [Cell],
    queue: &mut Queue,
) -> Result<(), AllocError>
    requires cells { AreCells block.now.heights.now cells.old }
    requires state { IsFlooding (viewed_block block.now) (levels_of cells.old) (labels_of cells.old) queue.old }
    ensures { OnOk result (IsLabelling (viewed_block block.now) (levels_of cells.new) (labels_of cells.new)
        × AreCarried (viewed_block block.now) (levels_of cells.new) (labels_of cells.new)) }
{
    let mut spans: Vec<FilledSpan> = Vec::new(alloc);
    while let Some(entry) = queue.pop() {
        let point = entry.point as usize;
        let popped = PoppedCell {
            point,
            level: entry.level,
            label: cell_at(cells, point).label,
        };
        spread(block, cells, queue, &mut spans, popped)?;
    }
    Ok(())
}

// Marks all neighbours of the popped point.
fn spread(
    block: &BlockView,
    cells: &mut [Cell],
    queue: &mut Queue,
    spans: &mut Vec<FilledSpan>,
    popped: PoppedCell,
) -> Result<(), AllocError>
    requires cells { AreCells block.now.heights.now cells.old }
    requires state { IsSpreading (viewed_block block.now) (levels_of cells.old) (labels_of cells.old) queue.old (InSpans (one_point popped.point)) popped.level popped.label }
    requires mark { IsMark popped.level popped.label }
    requires none { spans.old.items ≡ [] }
    ensures none { OnOk result (spans.new.items ≡ []) }
    ensures cells { OnOk result (AreCells block.now.heights.now cells.new) }
    ensures state { OnOk result (IsFlooding (viewed_block block.now) (levels_of cells.new) (labels_of cells.new) queue.new) }
    ensures count { OnOk result (unmarked (levels_of cells.new) + waiting queue.new
        ≤ unmarked (levels_of cells.old) + waiting queue.old) }
{
    if is_low(cells, popped.point + 1, popped.level)
        || popped.point > 0 && is_low(cells, popped.point - 1, popped.level)
    {
        return fill(block, cells, queue, spans, popped);
    }
    visit_row(block, cells, queue, popped, 0)?;
    visit_row(block, cells, queue, popped, 1)?;
    visit_row(block, cells, queue, popped, 2)?;
    Ok(())
}

// Marks the neighbours of the popped point in the row above (i = 0), its own row (1) or the row below (2). It visits three
// points, from the column to the west on. Each lies next to the popped point, or on the rim, whose ground points are all
// marked; so columns needn't be distinguished. If the block doesn't have all three, none is left to mark.
#[inline(always)]
fn visit_row(
    block: &BlockView,
    cells: &mut [Cell],
    queue: &mut Queue,
    popped: PoppedCell,
    i: usize,
) -> Result<(), AllocError>
    requires cells { AreCells block.now.heights.now cells.old }
    requires state { IsSpreading (viewed_block block.now) (levels_of cells.old) (labels_of cells.old) queue.old (InSpans (one_point popped.point)) popped.level popped.label }
    requires mark { IsMark popped.level popped.label }
    requires i { i < 3 }
    ensures cells { OnOk result (AreCells block.now.heights.now cells.new) }
    ensures state { OnOk result (IsSpreading (viewed_block block.now) (levels_of cells.new) (labels_of cells.new) queue.new (InSpans (one_point popped.point)) popped.level popped.label) }
    ensures still { OnOk result (AreMarkedStill (levels_of cells.old) (levels_of cells.new)) }
    ensures count { OnOk result (unmarked (levels_of cells.new) + waiting queue.new
        ≡ unmarked (levels_of cells.old) + waiting queue.old) }
    ensures marked { OnOk result ((z : ℕ)
        → IsTrue (is_linked (viewed_block block.now) popped.point z)
        → z / block.now.n + 1 ≡ popped.point / block.now.n + i
        → IsTrue (is_marked (levels_of cells.new) z)) }
{
    let from = popped.point + i * block.n;
    if from <= block.n || from >= cells.len() + block.n - 1 {
        return Ok(());
    }
    let west = from - block.n - 1;
    visit(block, cells, queue, popped, west)?;
    visit(block, cells, queue, popped, west + 1)?;
    visit(block, cells, queue, popped, west + 2)?;
    Ok(())
}

// If point e is open, sets its label to the popped point's. Its level becomes the greater of its height and the popped
// point's level. The point then waits.
#[inline(always)]
pub(crate) fn visit(
    block: &BlockView,
    cells: &mut [Cell],
    queue: &mut Queue,
    popped: PoppedCell,
    e: usize,
) -> Result<(), AllocError>
    requires cells { AreCells block.now.heights.now cells.old }
    requires mark { IsMark popped.level popped.label }
    requires e { e < block.now.n * block.now.n }
    ensures cells { OnOk result (AreCells block.now.heights.now cells.new) }
    ensures still { OnOk result (AreMarkedStill (levels_of cells.old) (levels_of cells.new)) }
    ensures count { OnOk result (unmarked (levels_of cells.new) + waiting queue.new
        ≡ unmarked (levels_of cells.old) + waiting queue.old) }
    ensures fewer { OnOk result (unmarked (levels_of cells.new) ≤ unmarked (levels_of cells.old)) }
    ensures state { OnOk result ((spans : List FilledSpan) (c : ℕ) → InSpans spans c → IsNear block.now.n c e
        → IsSpreading (viewed_block block.now) (levels_of cells.old) (labels_of cells.old) queue.old (InSpans spans) popped.level popped.label
        → IsSpreading (viewed_block block.now) (levels_of cells.new) (labels_of cells.new) queue.new (InSpans spans) popped.level popped.label
        × (IsTrue (is_solid (viewed_block block.now) e) → IsTrue (is_marked (levels_of cells.new) e))) }
{
    let cell = cell_at(cells, e);
    if is_open(cell) {
        mark(
            cells,
            queue,
            e,
            higher(cell.level, popped.level),
            popped.label,
        )?;
    }
    Ok(())
}

//! Fills a plain span by span. A span is successive points of a row that are open and no higher than the popped point.
ghost use Rattle.std.specs.Prelude.{◌≡◌, ◌≢◌, ℕ, ◌+◌, ◌-◌, ◌*◌, ◌/◌, ◌<◌, ◌≤◌, ◌≤ℤ◌, ◌⊎◌, List, [], ◌∷◌, OnOk, IsTrue, length, slice_index_or};
ghost use Rattle.lattice.specs.Block.{is_linked};
ghost use Rattle.labelling.specs.Blocks.{is_marked};
ghost use Rattle.tile_flood.specs.Views.{viewed_block};
ghost use Rattle.tile_flood.specs.declared.filling.FilledSpan.{FilledSpan};
ghost use Rattle.tile_flood.specs.Waiting.{Queue, waiting};
ghost use Rattle.tile_flood.specs.Cells.{OPEN as open_label, IsMark, levels_of, labels_of, AreCells};
ghost use Rattle.tile_flood.specs.Flooding.{unmarked, AreMarkedStill, IsNear};
ghost use Rattle.tile_flood.specs.Spreading.{IsFlooding, IsSpreading};
ghost use Rattle.tile_flood.specs.Spans.{InSpan, InSpans, one_point};

use crate::cells::{Cell, PoppedCell, cell_at, is_open};
use crate::queue::Queue;
use crate::settling::visit;
use crate::views::BlockView;
use std::alloc::AllocError;

/// Successive points of a row that are marked at the popped point's level. The span waits to spread.
#[derive(Clone, Copy)]
pub(crate) struct FilledSpan {
    pub(crate) first: usize,
    // The number of points after the first.
    pub(crate) after: usize,
}

// Whether the point is open and no higher than the level.
#[inline(always)]
pub(crate) fn is_low(cells: &[Cell], e: usize, level: i16) -> bool
    ensures inside { IsTrue result → e < length cells.now }
    ensures open { IsTrue result → (d : Cell) → (slice_index_or cells.now e d).label ≡ open_label }
    ensures low { IsTrue result → (d : Cell) → (slice_index_or cells.now e d).level ≤ℤ level }
{
    if e >= cells.len() {
        return false;
    }
    let cell = cell_at(cells, e);
    is_open(cell) && cell.level <= level
}

// Marks all points that the popped point reaches over open points no higher than itself, and the points next to them.
pub(crate) fn fill(
    block: &BlockView,
    cells: &mut [Cell],
    queue: &mut Queue,
    spans: &mut Vec<FilledSpan>,
    popped: PoppedCell,
) -> Result<(), AllocError>
    requires cells { AreCells block.now.heights.now cells.old }
    requires state { IsSpreading (viewed_block block.now) (levels_of cells.old) (labels_of cells.old) queue.old (InSpans (one_point popped.point)) popped.level popped.label }
    requires mark { IsMark popped.level popped.label }
    requires none { spans.old.items ≡ [] }
    ensures none { OnOk result (spans.new.items ≡ []) }
    ensures cells { OnOk result (AreCells block.now.heights.now cells.new) }
    ensures state { OnOk result (IsFlooding (viewed_block block.now) (levels_of cells.new) (labels_of cells.new) queue.new) }
    ensures count { OnOk result (unmarked (levels_of cells.new) + waiting queue.new
        ≤ unmarked (levels_of cells.old) + waiting queue.old) }
{
    spans.push(FilledSpan {
        first: popped.point,
        after: 0,
    })?;
    while let Some(span) = spans.pop() {
        spread_span(block, cells, queue, spans, popped, span)?;
    }
    Ok(())
}

// Extends the span to both sides, and marks all points next to it.
fn spread_span(
    block: &BlockView,
    cells: &mut [Cell],
    queue: &mut Queue,
    spans: &mut Vec<FilledSpan>,
    popped: PoppedCell,
    span: FilledSpan,
) -> Result<(), AllocError>
    requires cells { AreCells block.now.heights.now cells.old }
    requires state { IsSpreading (viewed_block block.now) (levels_of cells.old) (labels_of cells.old) queue.old (InSpans (span ∷ spans.old.items)) popped.level popped.label }
    requires mark { IsMark popped.level popped.label }
    ensures cells { OnOk result (AreCells block.now.heights.now cells.new) }
    ensures state { OnOk result (IsSpreading (viewed_block block.now) (levels_of cells.new) (labels_of cells.new) queue.new (InSpans spans.new.items) popped.level popped.label) }
    ensures count { OnOk result (unmarked (levels_of cells.new) + waiting queue.new
        ≤ unmarked (levels_of cells.old) + waiting queue.old) }
    ensures left { OnOk result (unmarked (levels_of cells.new) + length spans.new.items
        ≤ unmarked (levels_of cells.old) + length spans.old.items) }
{
    let first = take_west(block, cells, popped, span.first);
    let end = take_east(
        block,
        cells,
        popped,
        span.first + span.after + 1,
        cells.len(),
    );
    let grown = FilledSpan {
        first,
        after: end - first - 1,
    };
    fill_row(block, cells, queue, spans, popped, grown, 0)?;
    fill_row(block, cells, queue, spans, popped, grown, 1)?;
    fill_row(block, cells, queue, spans, popped, grown, 2)?;
    Ok(())
}

// Marks the open points next to the span in the row above (i = 0), its own row (1) or the row below (2). Points no higher
// than the popped point become waiting spans; the others go into the queue. The row is searched from one west of the span to
// one east of it. All these points lie next to the span, or on the rim, whose ground points are all marked.
fn fill_row(
    block: &BlockView,
    cells: &mut [Cell],
    queue: &mut Queue,
    spans: &mut Vec<FilledSpan>,
    popped: PoppedCell,
    span: FilledSpan,
    i: usize,
) -> Result<(), AllocError>
    requires cells { AreCells block.now.heights.now cells.old }
    requires state { IsSpreading (viewed_block block.now) (levels_of cells.old) (labels_of cells.old) queue.old (InSpans (span ∷ spans.old.items)) popped.level popped.label }
    requires mark { IsMark popped.level popped.label }
    requires i { i < 3 }
    ensures cells { OnOk result (AreCells block.now.heights.now cells.new) }
    ensures state { OnOk result (IsSpreading (viewed_block block.now) (levels_of cells.new) (labels_of cells.new) queue.new (InSpans (span ∷ spans.new.items)) popped.level popped.label) }
    ensures still { OnOk result (AreMarkedStill (levels_of cells.old) (levels_of cells.new)) }
    ensures count { OnOk result (unmarked (levels_of cells.new) + waiting queue.new
        ≤ unmarked (levels_of cells.old) + waiting queue.old) }
    ensures left { OnOk result (unmarked (levels_of cells.new) + length spans.new.items
        ≤ unmarked (levels_of cells.old) + length spans.old.items) }
    ensures marked { OnOk result ((c z : ℕ) → InSpan span c
        → IsTrue (is_linked (viewed_block block.now) c z)
        → z / block.now.n + 1 ≡ c / block.now.n + i
        → IsTrue (is_marked (levels_of cells.new) z)) }
{
    let first = span.first + i * block.n;
    let end = (first + span.after + 2)
        .saturating_sub(block.n)
        .min(cells.len());
    let mut e = first.saturating_sub(block.n + 1);
    while e < end {
        let past = take_east(block, cells, popped, e, end);
        if past > e {
            spans.push(FilledSpan {
                first: e,
                after: past - e - 1,
            })?;
            e = past;
        } else {
            visit(block, cells, queue, popped, e)?;
            e += 1;
        }
    }
    Ok(())
}

// Marks points from this one eastwards. Stops at the end, or at the first point that isn't open or is higher than the popped
// point. Returns the first point that isn't marked.
#[inline(always)]
fn take_east(
    block: &BlockView,
    cells: &mut [Cell],
    popped: PoppedCell,
    from: usize,
    end: usize,
) -> usize
    requires cells { AreCells block.now.heights.now cells.old }
    requires mark { IsMark popped.level popped.label }
    ensures cells { AreCells block.now.heights.now cells.new }
    ensures from { from ≤ result }
    ensures still { AreMarkedStill (levels_of cells.old) (levels_of cells.new) }
    ensures count { unmarked (levels_of cells.new) + result ≡ unmarked (levels_of cells.old) + from }
    ensures state { (queue : Queue) (spans : List FilledSpan) (c : ℕ) → InSpans spans c → IsNear block.now.n c from
        → IsSpreading (viewed_block block.now) (levels_of cells.old) (labels_of cells.old) queue (InSpans spans) popped.level popped.label
        → IsSpreading (viewed_block block.now) (levels_of cells.new) (labels_of cells.new) queue (λ e. ((from ≤ e) × (e < result)) ⊎ InSpans spans e) popped.level popped.label }
{
    let mut east = from;
    while east < end && is_low(cells, east, popped.level) {
        cells[east] = Cell {
            level: popped.level,
            label: popped.label,
        };
        east += 1;
    }
    east
}

// Marks the points west of this one, and stops at the first that isn't open or is higher than the popped point. Returns the
// last marked point.
#[inline(always)]
fn take_west(block: &BlockView, cells: &mut [Cell], popped: PoppedCell, from: usize) -> usize
    requires cells { AreCells block.now.heights.now cells.old }
    requires mark { IsMark popped.level popped.label }
    ensures cells { AreCells block.now.heights.now cells.new }
    ensures from { result ≤ from }
    ensures still { AreMarkedStill (levels_of cells.old) (levels_of cells.new) }
    ensures count { unmarked (levels_of cells.new) + from ≡ unmarked (levels_of cells.old) + result }
    ensures state { (queue : Queue) (spans : List FilledSpan) → InSpans spans from
        → IsSpreading (viewed_block block.now) (levels_of cells.old) (labels_of cells.old) queue (InSpans spans) popped.level popped.label
        → IsSpreading (viewed_block block.now) (levels_of cells.new) (labels_of cells.new) queue (λ e. ((result ≤ e) × (e < from)) ⊎ InSpans spans e) popped.level popped.label }
{
    let mut west = from;
    while west > 0 && is_low(cells, west - 1, popped.level) {
        west -= 1;
        cells[west] = Cell {
            level: popped.level,
            label: popped.label,
        };
    }
    west
}

//! Starts a flood at the outlets of a block.
ghost use Rattle.std.specs.Prelude.{◌≡◌, ◌<◌, ◌≤◌, ◌*◌, ◌+◌, OnOk, IsTrue, length};
ghost use Rattle.tile_flood.specs.Views.{viewed_block};
ghost use Rattle.tile_flood.specs.Cells.{levels_of, labels_of, AreCells};
ghost use Rattle.tile_flood.specs.Flooding.{IsFullSpan, IsPlainSpan};
ghost use Rattle.tile_flood.specs.Spreading.{IsSeeding, IsFlooding};

use crate::cells::{Cell, mark};
use crate::outlets::{is_ground, own_label};
use crate::queue::Queue;
use crate::values::at;
use crate::views::BlockView;
use std::alloc::AllocError;

// The number of columns that are tested together; most such spans have no outlet.
const SPAN: usize = 64;

/// A part of a row: the columns from `from` up to, but without, `to`.
#[derive(Clone, Copy)]
pub(crate) struct Span {
    pub(crate) row: usize,
    pub(crate) from: usize,
    pub(crate) to: usize,
}

// Marks the outlets, each at its own height and with its own label.
pub(crate) fn seed(
    block: &BlockView,
    cells: &mut [Cell],
    queue: &mut Queue,
) -> Result<(), AllocError>
    requires cells { AreCells block.now.heights.now cells.old }
    requires state { IsSeeding (viewed_block block.now) (levels_of cells.old) (labels_of cells.old) queue.old 0 }
    ensures cells { OnOk result (AreCells block.now.heights.now cells.new) }
    ensures state { OnOk result (IsFlooding (viewed_block block.now) (levels_of cells.new) (labels_of cells.new) queue.new) }
{
    for i in 0..block.n {
        seed_row(block, cells, queue, i)?;
    }
    Ok(())
}

// Marks the outlets of a row.
fn seed_row(
    block: &BlockView,
    cells: &mut [Cell],
    queue: &mut Queue,
    i: usize,
) -> Result<(), AllocError>
    requires i { i < block.now.n }
    requires cells { AreCells block.now.heights.now cells.old }
    requires state { IsSeeding (viewed_block block.now) (levels_of cells.old) (labels_of cells.old) queue.old (i * block.now.n) }
    ensures cells { OnOk result (AreCells block.now.heights.now cells.new) }
    ensures state { OnOk result (IsSeeding (viewed_block block.now) (levels_of cells.new) (labels_of cells.new) queue.new ((i + 1) * block.now.n)) }
{
    seed_at(block, cells, queue, i, 0)?;
    let mut from = 1;
    while from < block.n - 1 {
        let to = (from + SPAN).min(block.n - 1);
        let span = Span { row: i, from, to };
        if !is_plain(block, span) {
            seed_span(block, cells, queue, span)?;
        }
        from = to;
    }
    seed_at(block, cells, queue, i, block.n - 1)?;
    Ok(())
}

// Marks the outlets of a span.
fn seed_span(
    block: &BlockView,
    cells: &mut [Cell],
    queue: &mut Queue,
    span: Span,
) -> Result<(), AllocError>
    requires row { span.row < block.now.n }
    requires columns { (span.from ≤ span.to) × (span.to < block.now.n) }
    requires cells { AreCells block.now.heights.now cells.old }
    requires state { IsSeeding (viewed_block block.now) (levels_of cells.old) (labels_of cells.old) queue.old (span.row * block.now.n + span.from) }
    ensures cells { OnOk result (AreCells block.now.heights.now cells.new) }
    ensures state { OnOk result (IsSeeding (viewed_block block.now) (levels_of cells.new) (labels_of cells.new) queue.new (span.row * block.now.n + span.to)) }
{
    for j in span.from..span.to {
        seed_at(block, cells, queue, span.row, j)?;
    }
    Ok(())
}

// Marks the point in row i and column j, if it is an outlet.
fn seed_at(
    block: &BlockView,
    cells: &mut [Cell],
    queue: &mut Queue,
    i: usize,
    j: usize,
) -> Result<(), AllocError>
    requires cell { (i < block.now.n) × (j < block.now.n) }
    requires cells { AreCells block.now.heights.now cells.old }
    requires state { IsSeeding (viewed_block block.now) (levels_of cells.old) (labels_of cells.old) queue.old (i * block.now.n + j) }
    ensures cells { OnOk result (AreCells block.now.heights.now cells.new) }
    ensures state { OnOk result (IsSeeding (viewed_block block.now) (levels_of cells.new) (labels_of cells.new) queue.new (i * block.now.n + (j + 1))) }
{
    let Some(label) = own_label(block, i, j) else {
        return Ok(());
    };
    let e = i * block.n + j;
    mark(cells, queue, e, at(block.heights, e), label)?;
    Ok(())
}

// Whether the span surely has no outlet: no void lies in it or next to it, and the block has no sinks.
pub(crate) fn is_plain(block: &BlockView, span: Span) -> bool
    requires row { span.row < block.now.n }
    requires columns { (0 < span.from) × ((span.from ≤ span.to) × (span.to < block.now.n)) }
    ensures { IsTrue result → IsPlainSpan (viewed_block block.now) span.row span.from span.to }
{
    let i = span.row;
    if !block.sinks.is_empty() || i == 0 || i + 1 == block.n {
        return false;
    }
    let west = span.from - 1;
    let east = span.to + 1;
    is_full(block, i - 1, west, east)
        && is_full(block, i, west, east)
        && is_full(block, i + 1, west, east)
}

// Whether all points of row i in these columns are ground.
fn is_full(block: &BlockView, i: usize, from: usize, to: usize) -> bool
    requires i { i < block.now.n }
    requires columns { to ≤ block.now.n }
    ensures { IsTrue result → IsFullSpan block.now.n block.now.heights.now i from to }
{
    let mut full = true;
    for j in from..to {
        full = full & is_ground(block, i * block.n + j);
    }
    full
}

//! Searches a flat for points in tiles that aren't loaded.
ghost use Rattle.std.specs.Prelude.{◌≡◌, [], IfOk, IfSome, slice_index_or};
ghost use Rattle.flow_d8.specs.Flows.{IsOfFlat};
ghost use Rattle.water.specs.declared.flow.Flow.TheVariants.{Unknown};
ghost use Rattle.flow_d8.specs.Resolution.{IsMissing};

use crate::collecting::{free_row, is_free, one_run, point_beside};
use crate::marks::{MEMBER, Marks, SampleRun};
use crate::tile_flows::TileFlows;
use lattice::{DIRECTIONS, Point};
use std::alloc::{AllocError, Global};

/// A search over a flat, which remembers the samples that it has searched. It can resume in tiles that are loaded later.
/// After a tile is removed the search can't be used any more.
#[derive(Drop)]
pub struct FlatSearch {
    // Which samples have been searched.
    marks: Marks,
    // The samples to search next.
    waiting: Vec<u32>,
}

impl FlatSearch {
    /// A search that hasn't begun. Allocates nothing.
    pub fn new(alloc: Global) -> FlatSearch
        ensures gone_over { result.marks ≡ [] }
        ensures waiting { result.waiting.items ≡ [] }
    {
        FlatSearch {
            marks: Marks::new(alloc),
            waiting: Vec::new(alloc),
        }
    }
}

/// Searches the flat, row by row, from the point and from where the search stopped before. Returns a point of unknown flow
/// that the flat reaches.
pub(crate) fn search_flat(
    known: &TileFlows,
    search: &mut FlatSearch,
    from: Point,
) -> Result<Option<Point>, AllocError>
    ensures met { IfOk result (λ met. IfSome met (IsMissing known.now.tiles.now known.now.flows.now)) }
{
    search.marks.resize(known.flows.len())?;
    note(known, search, known.tiles.number(from))?;
    for _ in 0..u64::MAX {
        let Some(k) = search.waiting.pop() else {
            return Ok(None);
        };
        if let Some(met) = search_row(known, search, k as usize)? {
            return Ok(Some(met));
        }
    }
    Ok(None)
}

// Searches this sample. If it lies deep in its tile, the adjoining deep samples of its row are searched with it.
fn search_row(
    known: &TileFlows,
    search: &mut FlatSearch,
    k: usize,
) -> Result<Option<Point>, AllocError>
    ensures met { IfOk result (λ met. IfSome met (IsMissing known.now.tiles.now known.now.flows.now)) }
{
    if !is_free(known.flows, &search.marks, k) {
        return Ok(None);
    }
    if !known.tiles.is_deep(k) {
        return look_across(known, search, k);
    }
    let run = free_row(known, &search.marks, k);
    let side = known.tiles.side().samples() as usize;
    let from = (run.first as usize).saturating_sub(1);
    let to = run.last as usize + 2;
    go_over(&mut search.marks, run);
    // The row listed last is searched first. So most tiles are loaded next to the ones loaded just before.
    note_row(known, search, from, to)?;
    note_row(
        known,
        search,
        from.saturating_add(side),
        to.saturating_add(side),
    )?;
    note_row(
        known,
        search,
        from.saturating_sub(side),
        to.saturating_sub(side),
    )?;
    Ok(None)
}

fn go_over(marks: &mut Marks, run: SampleRun) {
    for k in run.first as usize..run.last as usize + 1 {
        marks.set(k, MEMBER);
    }
}

// Lists the flat's samples around this one. If a neighbour has an unknown flow, it is returned, and this sample will be
// searched again.
fn look_across(
    known: &TileFlows,
    search: &mut FlatSearch,
    at: usize,
) -> Result<Option<Point>, AllocError>
    requires flat { IsOfFlat (slice_index_or known.now.flows.now at Unknown) }
    ensures met { IfOk result (λ met. IfSome met (IsMissing known.now.tiles.now known.now.flows.now)) }
{
    for i in 0..8 {
        let to = known.tiles.beside(at, DIRECTIONS[i]);
        if to >= known.flows.len() {
            note(known, search, at)?;
            return Ok(Some(point_beside(known.tiles, at, DIRECTIONS[i])));
        }
        note(known, search, to)?;
    }
    go_over(&mut search.marks, one_run(known.tiles, at));
    Ok(None)
}

// Lists the first sample of each row of free samples.
fn note_row(
    known: &TileFlows,
    search: &mut FlatSearch,
    from: usize,
    to: usize,
) -> Result<(), AllocError> {
    let mut was_free = false;
    for k in from..to {
        let free = is_free(known.flows, &search.marks, k);
        if free && !was_free {
            note(known, search, k)?;
        }
        was_free = free;
    }
    Ok(())
}

fn note(known: &TileFlows, search: &mut FlatSearch, k: usize) -> Result<(), AllocError> {
    if is_free(known.flows, &search.marks, k) {
        search.waiting.push(known.tiles.short(k))?;
    }
    Ok(())
}

//! A least spanning forest of passes.
ghost use Rattle.std.specs.Prelude.{◌<◌, IfOk, length};
ghost use Rattle.border_graph.specs.Passes.{SpanAll, AreInside};
ghost use Rattle.border_graph.specs.Forest.{IsRisingBy};

use crate::pass::Pass;
use crate::union_find::{singletons, union};
use std::alloc::{AllocError, Global};

/// A least spanning forest of the passes between `count` places. It has fewer passes than places. Between any two places the
/// least level at which water passes is the same over the forest. A pass is kept if it joins two parts that lower passes
/// don't join (after Kruskal 1956).
pub(crate) fn spanning_forest(
    alloc: Global,
    count: usize,
    passes: Vec<Pass>,
) -> Result<Vec<Pass>, AllocError>
    requires inside { AreInside count passes.items }
    ensures span { IfOk result (λ kept. SpanAll passes.items kept.items) }
    ensures fewer { IfOk result (λ kept. 0 < count → length kept.items < count) }
{
    let mut sorted = passes;
    sorted.sort()?;
    let kept = keep(alloc, count, &sorted)?;
    Ok(kept)
}

// The sorted passes that join two separate parts.
fn keep(alloc: Global, count: usize, sorted: &[Pass]) -> Result<Vec<Pass>, AllocError>
    requires inside { AreInside count sorted.now }
    requires rising { IsRisingBy sorted.now }
    ensures span { IfOk result (λ kept. SpanAll sorted.now kept.items) }
    ensures fewer { IfOk result (λ kept. 0 < count → length kept.items < count) }
{
    let mut places = singletons(alloc, count)?;
    let parent: &mut [usize] = &mut places;
    let mut kept = Vec::new(alloc);
    for k in 0..sorted.len() {
        let pass = sorted[k];
        if union(parent, pass.a as usize, pass.b as usize) {
            kept.push(pass)?;
        }
    }
    Ok(kept)
}

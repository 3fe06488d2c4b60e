//! Reduces a summary to fewer spills.
ghost use Rattle.std.specs.Prelude.{◌≡◌, ◌<◌, ◌≤◌, ◌+◌, IfOk, IfErr, IfSome, IfNone, OnOk, length, map};
ghost use Rattle.lattice.specs.declared.refusal.Refusal.TheVariants.{NoMemory};
ghost use Rattle.lattice.specs.Mosaic.{Mosaic};
ghost use Rattle.border_graph.specs.Joining.{IsSummaryOf, Summarizes};
ghost use Rattle.border_graph.specs.Reduced.{ArePassesOf, IsPassListed, IsLabelOf, label_of, spill_of};

use crate::forest::spanning_forest;
use crate::pass::Pass;
use crate::summary::Summary;
use labelling::{OUT, Spill};
use lattice::Refusal;
use std::alloc::{AllocError, Global};

/// The summary with at most as many spills as the tile has rim points. They are a least spanning forest of the spills. Over
/// them water gets from each label to the others, and out, as low as over all spills. The only refusal is NoMemory.
pub fn reduced(alloc: Global, summary: Summary) -> Result<Summary, Refusal>
    ensures corner { IfOk result (λ less. less.corner ≡ summary.corner) }
    ensures right { (m : Mosaic) → IsSummaryOf m summary → IfOk result (Summarizes m) }
    ensures few { IfOk result (λ less. length summary.rim < 65535
        → length less.spills ≤ length summary.rim) }
    ensures refusal { IfErr result (λ r. r ≡ NoMemory) }
{
    let count = summary.rim().len();
    if count >= OUT as usize {
        return Ok(summary);
    }
    let size = count as u16;
    let passes = passes_of(alloc, size, summary.spills())?;
    let kept = spanning_forest(alloc, count + 1, passes)?;
    let spills = spills_of(alloc, size, &kept)?;
    Ok(summary.with_spills(spills))
}

// The spills as passes. Spills with a label that a tile with this many rim points can't have are left out.
fn passes_of(alloc: Global, size: u16, spills: &[Spill]) -> Result<Vec<Pass>, AllocError>
    requires { size < 65535 }
    ensures { IfOk result (λ passes. ArePassesOf size spills.now (length spills.now) passes.items) }
{
    let mut passes = Vec::new(alloc);
    for spill in spills {
        add_pass(size, *spill, &mut passes)?;
    }
    Ok(passes)
}

// Lists the spill as a pass, if both its labels are labels of the tile.
fn add_pass(size: u16, spill: Spill, passes: &mut Vec<Pass>) -> Result<(), AllocError>
    requires { size < 65535 }
    ensures { OnOk result (IsPassListed size spill passes.old.items passes.new.items) }
{
    let Some(a) = place_of(size, spill.a) else {
        return Ok(());
    };
    let Some(b) = place_of(size, spill.b) else {
        return Ok(());
    };
    passes.push(Pass {
        level: spill.level,
        a,
        b,
    })?;
    Ok(())
}

// The place of the label: a rim number itself, and for OUT the number after the last rim number.
fn place_of(size: u16, label: u16) -> Option<u16>
    requires { size < 65535 }
    ensures some { IfSome result (λ place. (place < size + 1) × (label_of size place ≡ label)) }
    ensures none { IfNone result (IsLabelOf size label → ⊥) }
{
    if label == OUT {
        return Some(size);
    }
    if label < size { Some(label) } else { None }
}

// The passes, converted back to spills.
fn spills_of(alloc: Global, size: u16, passes: &[Pass]) -> Result<Vec<Spill>, AllocError>
    ensures { IfOk result (λ spills. spills.items ≡ map (spill_of size) passes.now) }
{
    let mut spills = Vec::with_capacity(alloc, passes.len())?;
    for pass in passes {
        spills.push(spill_of(size, *pass))?;
    }
    Ok(spills)
}

fn spill_of(size: u16, pass: Pass) -> Spill
    ensures { result ≡ spill_of size pass }
{
    Spill {
        a: label_of(size, pass.a),
        b: label_of(size, pass.b),
        level: pass.level,
    }
}

fn label_of(size: u16, place: u16) -> u16
    ensures { result ≡ label_of size place }
{
    if place == size { OUT } else { place }
}

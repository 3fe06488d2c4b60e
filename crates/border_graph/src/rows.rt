//! The spills of a tile in both directions, by the labels from which they lead.
ghost use Rattle.std.specs.Prelude.{◌≡◌, ◌<◌, ◌*◌, ◌-◌, ◌↔◌, [], ◌∷◌, Contains, IfOk, OnOk, IfSome, IfNone};
ghost use Rattle.std.specs.List.Sorted.{IsNonDecreasingBy};
ghost use Rattle.labelling.specs.declared.spill.Spill.{Spill as SpillOf};
ghost use Rattle.border_graph.specs.Joining.{IsThere, rim_point};
ghost use Rattle.border_graph.specs.Rows.{turned, AreTurned, AreLabelsTurned};

use crate::summary::{RimPoint, Summary};
use labelling::Spill;
use lattice::{Side, VOID};
use std::alloc::{AllocError, Global};

/// The spills that lead from this label. The list has to be in the order of first labels.
pub(crate) fn row(spills: &[Spill], label: u16) -> &[Spill]
    requires { IsNonDecreasingBy (λ (s : SpillOf). s.a) spills.now }
    ensures { (s : SpillOf) → Contains result.now s ↔ (Contains spills.now s × (s.a ≡ label)) }
{
    let from = spills.partition_point(|spill| spill.a < label);
    let to = spills.partition_point(|spill| spill.a <= label);
    &spills[from..to]
}

/// The tile's spills with their labels exchanged, and links from each label to the ground rim points that have it, at their
/// heights. All are in the order of their first labels.
pub(crate) fn turned_spills(
    alloc: Global,
    side: Side,
    summary: &Summary,
) -> Result<Vec<Spill>, AllocError>
    ensures turned { IfOk result (λ back. AreTurned side summary.now back.items) }
    ensures in_order { IfOk result (λ back. IsNonDecreasingBy (λ (s : SpillOf). s.a) back.items) }
{
    let spills = summary.spills();
    let mut back = Vec::with_capacity(alloc, spills.len())?;
    for spill in spills {
        back.push(turned(*spill))?;
    }
    turn_labels(side, summary, &mut back)?;
    back.sort_by_key(|spill| spill.a)?;
    Ok(back)
}

// For each ground rim point whose label is another point's number, lists the link from its label to it.
fn turn_labels(side: Side, summary: &Summary, back: &mut Vec<Spill>) -> Result<(), AllocError>
    ensures { OnOk result (AreLabelsTurned side summary.now (4 * (side - 1)) back.old.items back.new.items) }
{
    for number in 0..side.rim() {
        let Some(point) = ground_rim_point(side, summary, number) else {
            continue;
        };
        if u32::from(point.label) != number {
            back.push(Spill {
                a: point.label,
                b: number as u16,
                level: point.height,
            })?;
        }
    }
    Ok(())
}

fn turned(spill: Spill) -> Spill
    ensures { result ≡ turned spill }
{
    Spill {
        a: spill.b,
        b: spill.a,
        level: spill.level,
    }
}

/// Rim point k of a tile of this side; None unless it is ground.
pub(crate) fn ground_rim_point(side: Side, summary: &Summary, k: u32) -> Option<RimPoint>
    ensures none { IfNone result (IsThere side (summary.now ∷ []) 0 k → ⊥) }
    ensures some { IfSome result (λ point. IsThere side (summary.now ∷ []) 0 k
        × (rim_point summary.now k ≡ point)) }
{
    if k >= side.rim() {
        return None;
    }
    let point = *summary.rim().get(k as usize)?;
    if point.height == VOID {
        None
    } else {
        Some(point)
    }
}

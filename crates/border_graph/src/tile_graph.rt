//! The edges inside one tile.
ghost use Rattle.std.specs.Prelude.{◌≡◌, ◌+◌, ◌-◌, ◌*◌, ◌^◌, ◌<◌, [], ◌∷◌, IfOk, IfErr, OnOk, IsTrue, IsFalse, length};
ghost use Rattle.lattice.specs.declared.refusal.Refusal.TheVariants.{NoMemory};
ghost use Rattle.labelling.specs.Labelling.{OUT as OUT_LABEL};
ghost use Rattle.border_graph.specs.Joining.{IsThere, rim_point};
ghost use Rattle.border_graph.specs.Reordered.{IsReordered};
ghost use Rattle.border_graph.specs.TileGraph.{out_at, across, AreListed, AreEdgesOut, AreEdgesAcross};

use crate::Edge;
use crate::rows::{ground_rim_point, row, turned_spills};
use crate::summary::{RimPoint, Summary};
use labelling::{OUT, Spill};
use lattice::{Refusal, Side, VOID};
use std::alloc::{AllocError, Global};
use std::marker::Model;

/// A tile's summary, with the edges between its rim points and from them to the outlet node. Edges from one label are
/// adjacent in memory. Beside the summary it takes at most six bytes for each spill and for each rim point that isn't its own
/// label.
#[derive(Drop)]
pub struct TileGraph {
    side: Side,
    summary: Summary,
    back: Vec<Spill>,
}

impl Model for TileGraph {
    ghost use Rattle.border_graph.specs.TileGraph.{TileGraph, AreTileRows};

    ghost Value = { TileGraph };

    ghost view = { λ t. record { side = t.side; summary = t.summary } };

    ghost invariant = { λ t. AreTileRows t.side t.summary t.back.items };
}

impl TileGraph {
    /// The graph of the tile with this summary, whose spills it sorts. The only refusal is NoMemory.
    pub fn new(alloc: Global, side: Side, summary: Summary) -> Result<TileGraph, Refusal>
        ensures side { IfOk result (λ graph. graph.side ≡ side) }
        ensures summary { IfOk result (λ graph. IsReordered summary graph.summary) }
        ensures refusal { IfErr result (λ r. r ≡ NoMemory) }
    {
        // Reading the side shows the prover that it is in range.
        let _edge = side.edge();
        let summary = summary.in_order()?;
        let back = turned_spills(alloc, side, &summary)?;
        Ok(TileGraph {
            side,
            summary,
            back,
        })
    }

    /// The side of the graph's tile.
    pub fn side(&self) -> Side
        ensures { result ≡ self.now.side }
    {
        self.side
    }

    /// The number of rim points and spills of the graph.
    pub fn size(&self) -> usize
        ensures { result ≡ length self.now.summary.rim + length self.now.summary.spills }
    {
        self.summary.rim().len() + self.summary.spills().len()
    }

    /// The height of rim point k, in metres; -32768 for a void.
    pub fn height(&self, k: u32) -> i16
        ensures { result ≡ (rim_point self.now.summary k).height }
    {
        match self.summary.rim().get(k as usize) {
            Some(point) => point.height,
            None => VOID,
        }
    }

    /// Lists the edges from rim point k to the outlet node.
    pub fn edges_out(&self, k: u32, into: &mut Vec<Edge>) -> Result<(), AllocError>
        requires { k < 4 * (self.now.side - 1) }
        ensures { OnOk result (AreEdgesOut self.now.side self.now.summary k into.old.items into.new.items) }
    {
        let Some(point) = ground_rim_point(self.side, &self.summary, k) else {
            return Ok(());
        };
        let own = Spill {
            a: k as u16,
            b: exit_of(point),
            level: point.height,
        };
        push_out(&[own], into)?;
        push_out(row(self.summary.spills(), k as u16), into)?;
        Ok(())
    }

    /// Lists the edges from rim point k to the other rim points of its tile, whose nodes are numbered from `first + 1` on.
    pub fn edges_across(&self, first: u32, k: u32, into: &mut Vec<Edge>) -> Result<(), AllocError>
        requires number { k < 4 * (self.now.side - 1) }
        requires room { first + 4 * (self.now.side - 1) < 2 ^ 32 }
        ensures { OnOk result (AreEdgesAcross self.now.side self.now.summary k first into.old.items into.new.items) }
    {
        let Some(point) = ground_rim_point(self.side, &self.summary, k) else {
            return Ok(());
        };
        let label = Spill {
            a: k as u16,
            b: point.label,
            level: point.height,
        };
        push_across(self.side, &self.summary, first, &[label], into)?;
        let spills = row(self.summary.spills(), k as u16);
        push_across(self.side, &self.summary, first, spills, into)?;
        let back = row(&self.back, k as u16);
        push_across(self.side, &self.summary, first, back, into)?;
        Ok(())
    }
}

// OUT for an outlet of the mosaic, else the point's label.
fn exit_of(point: RimPoint) -> u16
    ensures outlet { IsTrue point.outlet → result ≡ OUT_LABEL }
    ensures label { IsFalse point.outlet → result ≡ point.label }
{
    if point.outlet { OUT } else { point.label }
}

// Lists an edge to the outlet node for each spill of the row to OUT.
fn push_out(row: &[Spill], into: &mut Vec<Edge>) -> Result<(), AllocError>
    ensures { OnOk result (AreListed (λ s. s.b ≡ OUT_LABEL) out_at row.now (length row.now) into.old.items into.new.items) }
{
    for spill in row {
        if spill.b == OUT {
            into.push(out_at(*spill))?;
        }
    }
    Ok(())
}

// The edge to the outlet node at the level of the spill.
fn out_at(spill: Spill) -> Edge
    ensures { result ≡ out_at spill }
{
    Edge {
        level: spill.level,
        to: 0,
    }
}

// Lists an edge for each spill of the row that leads to a ground rim point.
fn push_across(
    side: Side,
    summary: &Summary,
    first: u32,
    row: &[Spill],
    into: &mut Vec<Edge>,
) -> Result<(), AllocError>
    requires { first + 4 * (side - 1) < 2 ^ 32 }
    ensures { OnOk result (AreListed (λ s. IsThere side (summary.now ∷ []) 0 s.b) (across first) row.now (length row.now) into.old.items into.new.items) }
{
    for spill in row {
        if ground_rim_point(side, summary, u32::from(spill.b)).is_some() {
            into.push(across(first, *spill))?;
        }
    }
    Ok(())
}

// The edge to the rim point that the spill leads to.
fn across(first: u32, spill: Spill) -> Edge
    requires { first + (1 + spill.b) < 2 ^ 32 }
    ensures { result ≡ across first spill }
{
    Edge {
        level: spill.level,
        to: first + (1 + u32::from(spill.b)),
    }
}

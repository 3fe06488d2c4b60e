//! The graph of all tiles of a mosaic, and the levels of its rim points.
ghost use Rattle.std.specs.Prelude.{◌≡◌, ◌-◌, ◌*◌, ◌<◌, ◌⊎◌, IfOk, IfErr, IfSome, OnOk, Contains, ℕ, length};
ghost use Rattle.lattice.specs.declared.refusal.Refusal.TheVariants.{NoMemory, Damaged};
ghost use Rattle.border_graph.specs.Joining.{summary_at};
ghost use Rattle.border_graph.specs.Reordered.{IsReordered};
ghost use Rattle.border_graph.specs.MosaicGraph.{AreReordered, IsFound, LeadsNowhereFrom, IsLevelAt, IsCutOff};

use crate::bottleneck::lowest_pass;
use crate::edge_source::{Edge, EdgeSource};
use crate::seams::{list_edges, node_at, rim_point_at};
use crate::summary::Summary;
use crate::tile_graph::TileGraph;
use lattice::{Corner, Refusal, Side, VOID, push};
use std::alloc::Global;
use std::marker::Model;

/// The graphs of all tiles, and the known levels of nodes; -32768 for the others.
#[derive(Drop)]
pub(crate) struct MosaicGraph {
    side: Side,
    corners: Vec<Corner>,
    graphs: Vec<TileGraph>,
    levels: Vec<i16>,
}

impl Model for MosaicGraph {
    ghost use Rattle.border_graph.specs.MosaicGraph.{MosaicGraph, graph_of, IsWhole};

    ghost Value = { MosaicGraph };

    ghost view = { λ g. graph_of g.side g.graphs.items };

    ghost invariant = { λ g. IsWhole g.side g.corners.items g.graphs.items g.levels.items };
}

impl MosaicGraph {
    /// The graph of the tiles with these summaries. The only refusal is NoMemory, also if there are more rim points than node
    /// numbers.
    pub(crate) fn new(
        alloc: Global,
        side: Side,
        summaries: &[Summary],
    ) -> Result<MosaicGraph, Refusal>
        ensures side { IfOk result (λ g. g.side ≡ side) }
        ensures summaries { IfOk result (λ g. AreReordered summaries.now g.summaries) }
        ensures refusal { IfErr result (λ r. r ≡ NoMemory) }
    {
        let Some(nodes) = node_at(side, summaries.len(), 0) else {
            return Err(Refusal::NoMemory);
        };
        let mut corners = Vec::new(alloc);
        let mut graphs = Vec::new(alloc);
        for t in 0..summaries.len() {
            let summary = summary_at(summaries, t);
            push(&mut corners, summary.corner())?;
            let graph = graph_of(alloc, side, summary)?;
            push(&mut graphs, graph)?;
        }
        let levels = vec![in alloc; i16::MIN; nodes as usize]?;
        Ok(MosaicGraph {
            side,
            corners,
            graphs,
            levels,
        })
    }

    /// The side of all tiles.
    pub(crate) fn side(&self) -> Side
        ensures { result ≡ self.now.side }
    {
        self.side
    }

    /// The level of rim point k of tile t, in metres; -32768 for a void.
    ///
    /// Damaged if no path leads from it to an outlet. The other refusal is NoMemory.
    pub(crate) fn rim_level(&mut self, alloc: Global, t: usize, k: u32) -> Result<i16, Refusal>
        requires place { t < length self.old.summaries }
        requires number { k < 4 * (self.old.side - 1) }
        ensures same { OnOk result (self.new ≡ self.old) }
        ensures level { IfOk result (IsLevelAt self.old t k) }
        ensures refusal { IfErr result (λ r. (r ≡ NoMemory) ⊎ ((r ≡ Damaged) × IsCutOff self.old)) }
    {
        let height = self.graphs[t].height(k);
        if height == VOID {
            return Ok(VOID);
        }
        let Some(node) = node_at(self.side, t, k) else {
            return Err(Refusal::NoMemory);
        };
        let level = self.find(alloc, node)?;
        Ok(level.max(height))
    }

    // The level of the node. One search finds the levels of all nodes of its basin.
    fn find(&mut self, alloc: Global, node: u32) -> Result<i16, Refusal>
        requires some { 0 < node }
        ensures same { OnOk result (self.new ≡ self.old) }
        ensures level { IfOk result (IsFound self.old node) }
        ensures refusal { IfErr result (λ r. (r ≡ NoMemory)
            ⊎ ((r ≡ Damaged) × LeadsNowhereFrom self.old node)) }
    {
        if let Some(level) = self.level(node) {
            return Ok(level);
        }
        let mut alike = Vec::new(alloc);
        let Some(level) = lowest_pass(alloc, self, &mut (), node, &mut alike)? else {
            return Err(Refusal::Damaged);
        };
        self.know(node, level);
        self.know_all(&alike, level);
        Ok(level)
    }

    // The level of the node, if it is known.
    fn level(&self, node: u32) -> Option<i16>
        ensures { IfSome result (IsFound self.now node) }
    {
        let level = *self.levels.get(node as usize)?;
        if level == VOID { None } else { Some(level) }
    }

    // Stores the level of the node.
    fn know(&mut self, node: u32, level: i16)
        requires { IsFound self.old node level }
        ensures { self.new ≡ self.old }
    {
        let place = node as usize;
        if place < self.levels.len() {
            self.levels[place] = level;
        }
    }

    // Stores the level of the nodes.
    fn know_all(&mut self, nodes: &[u32], level: i16)
        requires { (x : ℕ) → Contains nodes.now x → IsFound self.old x level }
        ensures { self.new ≡ self.old }
    {
        for node in nodes {
            self.know(*node, level);
        }
    }
}

fn summary_at(summaries: &[Summary], t: usize) -> &Summary
    requires { t < length summaries.now }
    ensures { result.now ≡ summary_at summaries.now t }
{
    &summaries[t]
}

// The graph of the tile with this summary.
fn graph_of(alloc: Global, side: Side, summary: &Summary) -> Result<TileGraph, Refusal>
    ensures side { IfOk result (λ graph. graph.side ≡ side) }
    ensures summary { IfOk result (λ graph. IsReordered summary.now graph.summary) }
    ensures refusal { IfErr result (λ r. r ≡ NoMemory) }
{
    let rim = Vec::from_slice(alloc, summary.rim())?;
    let spills = Vec::from_slice(alloc, summary.spills())?;
    let graph = TileGraph::new(alloc, side, Summary::new(summary.corner(), rim, spills))?;
    Ok(graph)
}

impl EdgeSource<()> for MosaicGraph {
    ghost use Rattle.std.specs.Prelude.{◌≡◌};
    ghost use Rattle.std.proofs.Common.{refl, ◌∙◌};
    ghost use Rattle.lattice.specs.declared.refusal.Refusal.TheVariants.{NoMemory};
    ghost use Rattle.border_graph.specs.MosaicGraph.{IsGraphOf};

    ghost fits = { λ s n summaries. IsGraphOf n summaries s };

    ghost keeps = { λ s a s' b. s' ≡ s };

    ghost asked = { λ s t. ⊥ };

    ghost refuses = { λ s a s' b r. r ≡ NoMemory };

    ghost keeps_itself = { λ s a. refl };

    ghost keeps_on = { λ s s' s'' a b c one two. two ∙ one };

    ghost refuses_on = { λ s s' s'' a b c r kept refused. refused };

    ghost runs_out = { λ s s' a b kept. refl };

    fn edges_from(
        &mut self,
        alloc: Global,
        source: &mut (),
        node: u32,
        into: &mut Vec<Edge>,
    ) -> Result<Option<i16>, Refusal> {
        if let Some(level) = self.level(node) {
            return Ok(Some(level));
        }
        let (t, k) = rim_point_at(self.side, node);
        if t >= self.graphs.len() {
            return Ok(None);
        }
        list_edges(self.side, &self.corners, &self.graphs[t], t, k, into)?;
        Ok(None)
    }
}

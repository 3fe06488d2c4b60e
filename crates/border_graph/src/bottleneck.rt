//! The lowest pass from a node to an outlet: a bottleneck (minimax) search, lowest crest first.
ghost use Rattle.std.specs.Prelude.{◌≡◌, ℕ, ℤ, ◌<◌, ◌⊎◌, List, [], ◌∷◌, ◌++◌, Contains, IfOk, IfErr, OnOk, IfSome, IfNone, IsTrue, IsFalse, length, ◌≤ℤ◌, ◌<ℤ◌, ◌↔◌};
ghost use Rattle.border_graph.specs.Links.{IsJoinedLevel, IsWayBelow};
ghost use Rattle.border_graph.specs.Summaries.{Summary};
ghost use Rattle.border_graph.specs.Joining.{AreOfMosaic};
ghost use Rattle.border_graph.specs.Edges.{AreAllEdges, AreEdges, IsTileReached};
ghost use Rattle.border_graph.specs.Placed.{IsPlacedLink, IsOfTile};
ghost use Rattle.border_graph.specs.Crests.{LeadsOut, IsLeastCrest};
ghost use Rattle.border_graph.specs.declared.edge_source.Edge.{Edge as EdgeOf};
ghost use Rattle.border_graph.specs.Frontier.{IsNext, NoneLeft};
ghost use Rattle.border_graph.specs.Bottleneck.{IsEnd, AreRaised, IsSettledBy, HasLevel, raised};
ghost use Rattle.border_graph.specs.declared.bottleneck.Settled.{Settled as SettledOf};

use crate::frontier::{Entry, Frontier};
use crate::visited::Visited;
use crate::{Edge, EdgeSource};
use lattice::Refusal;
use std::alloc::{AllocError, Global};

/// The least crest, in metres, of all paths from a node to the outlet node, over the whole graph, if that is the graph of a
/// mosaic. None only if no path leads there, whatever the graph is. The contract says both about paths edge by edge, and
/// about lists of nodes as in the joining of all tiles.
///
/// If it returns a level, it has read only tiles with a rim point that the start reaches at no more than that level. `alike`
/// then lists nodes with the same level. These are the nodes settled below that level: each of them and the start reach one
/// another below it, so they share their lowest pass. Nodes settled at that level are listed too if no edge from them is
/// lower.
///
/// Refusals are those of the graph's calls, and NoMemory if the graph may refuse so.
pub fn lowest_pass<S, G: EdgeSource<S>>(
    alloc: Global,
    graph: &mut G,
    source: &mut S,
    start: u32,
    alike: &mut Vec<u32>,
) -> Result<Option<i16>, Refusal>
    requires start { 0 < start }
    requires empty { alike.old.items ≡ [] }
    ensures level { (n : ℕ) (summaries : List Summary) → G.fits graph.new n summaries
        → AreOfMosaic n summaries
        → IfOk result (λ found. IfSome found (IsLeastCrest (IsPlacedLink n summaries) start)) }
    ensures joined { (n : ℕ) (summaries : List Summary) → G.fits graph.new n summaries
        → AreOfMosaic n summaries
        → IfOk result (λ found. IfSome found (IsJoinedLevel (IsPlacedLink n summaries) 0 start)) }
    ensures alike { (n : ℕ) (summaries : List Summary) → G.fits graph.new n summaries
        → AreOfMosaic n summaries
        → IfOk result (λ found. IfSome found (λ level. (x : ℕ) → Contains alike.new.items x
        → (0 < x) × IsJoinedLevel (IsPlacedLink n summaries) 0 x level)) }
    ensures none { (n : ℕ) (summaries : List Summary) → G.fits graph.new n summaries
        → IfOk result (λ found. IfNone found ((rest : List EdgeOf)
        → LeadsOut (IsPlacedLink n summaries) start rest → ⊥)) }
    ensures not_joined { (n : ℕ) (summaries : List Summary) → G.fits graph.new n summaries
        → IfOk result (λ found. IfNone found ((level : ℤ) (rest : List ℕ)
        → IsWayBelow (IsPlacedLink n summaries) 0 level start rest → ⊥)) }
    ensures asked { (n : ℕ) (summaries : List Summary) → G.fits graph.new n summaries
        → AreOfMosaic n summaries
        → IfOk result (λ found. IfSome found (λ level. (t : ℕ) → G.asked graph.new t
        → G.asked graph.old t ⊎ IsTileReached n (IsPlacedLink n summaries) start level t)) }
    ensures refusal { IfErr result (G.refuses graph.old source.old graph.new source.new) }
    ensures fits { (n : ℕ) (summaries : List Summary) → G.fits graph.new n summaries
        → G.fits graph.old n summaries }
    ensures keeps { OnOk result (G.keeps graph.old source.old graph.new source.new) }
{
    let mut visited = Visited::new(alloc);
    let mut frontier = Frontier::new(alloc);
    let mut settled = Vec::new(alloc);
    frontier.push(Entry {
        crest: i16::MIN,
        level: i16::MIN,
        node: start,
    })?;
    'rise: while let Some(entry) = pop_unvisited(&mut frontier, &mut visited)? {
        let mut edges = Vec::new(alloc);
        if let Some(level) = expand(alloc, graph, source, entry, &mut edges)? {
            list_alike(&settled, level, alike)?;
            return Ok(Some(level));
        }
        push_all(entry, &edges, &visited, &mut frontier)?;
        settle(&mut settled, entry, &edges)?;
    }
    Ok(None)
}

// A node that the search settled, the greatest level on the path to it, in metres, and whether no edge from the node is
// lower.
#[derive(Clone, Copy)]
pub(crate) struct Settled {
    node: u32,
    crest: i16,
    has_no_lower: bool,
}

// Settles the entry's node, which has these edges.
fn settle(settled: &mut Vec<Settled>, entry: Entry, edges: &[Edge]) -> Result<(), AllocError>
    ensures { OnOk result ((one : SettledOf)
        × ((settled.new.items ≡ settled.old.items ++ one ∷ [])
        × IsSettledBy entry edges.now one)) }
{
    settled.push(Settled {
        node: entry.node,
        crest: entry.crest,
        has_no_lower: has_no_lower(edges, entry.crest),
    })?;
    Ok(())
}

// Whether no edge has a level below the crest.
fn has_no_lower(edges: &[Edge], crest: i16) -> bool
    ensures yes { IsTrue result → (edge : EdgeOf) → Contains edges.now edge → crest ≤ℤ edge.level }
    ensures no { IsFalse result
        → (edge : EdgeOf) × (Contains edges.now edge × (edge.level <ℤ crest)) }
{
    for edge in edges {
        if edge.level < crest {
            return false;
        }
    }
    true
}

// Lists the settled nodes that have the same level as the start.
fn list_alike(settled: &[Settled], level: i16, into: &mut Vec<u32>) -> Result<(), AllocError>
    ensures only { OnOk result ((x : ℕ) → Contains into.new.items x
        → Contains into.old.items x
        ⊎ ((one : SettledOf)
        × (Contains settled.now one × ((one.node ≡ x) × HasLevel one level)))) }
    ensures all { OnOk result ((one : SettledOf) → Contains settled.now one → HasLevel one level
        → Contains into.new.items one.node) }
{
    for one in settled {
        if has_level(*one, level) {
            into.push(one.node)?;
        }
    }
    Ok(())
}

// Whether the node was settled below the level, or at the level without a lower edge from it.
fn has_level(settled: Settled, level: i16) -> bool
    ensures { IsTrue result ↔ HasLevel settled level }
{
    settled.crest < level || settled.crest == level && settled.has_no_lower
}

// Removes entries from the frontier, the lowest first, until one's node isn't visited; visits that node.
fn pop_unvisited(
    frontier: &mut Frontier,
    visited: &mut Visited,
) -> Result<Option<Entry>, AllocError>
    ensures next { IfOk result (λ found. IfSome found (IsNext frontier.old visited.old frontier.new visited.new)) }
    ensures none { IfOk result (λ found. IfNone found (NoneLeft frontier.old visited.old)) }
{
    while let Some(entry) = frontier.pop() {
        if visited.insert(entry.node)? {
            return Ok(Some(entry));
        }
    }
    Ok(None)
}

// Lists the edges from the entry's node. If the node is the outlet node or its level is known, returns the least crest of the
// paths through it instead.
fn expand<S, G: EdgeSource<S>>(
    alloc: Global,
    graph: &mut G,
    source: &mut S,
    entry: Entry,
    edges: &mut Vec<Edge>,
) -> Result<Option<i16>, Refusal>
    requires empty { edges.old.items ≡ [] }
    ensures ends { (n : ℕ) (summaries : List Summary) → G.fits graph.new n summaries
        → AreOfMosaic n summaries
        → IfOk result (λ found. IfSome found (IsEnd (IsPlacedLink n summaries) entry)) }
    ensures inner { IfOk result (λ found. IfNone found (0 < entry.node)) }
    ensures exactly { (n : ℕ) (summaries : List Summary) → G.fits graph.new n summaries
        → AreOfMosaic n summaries
        → IfOk result (λ found. IfNone found (AreEdges (IsPlacedLink n summaries) entry.node edges.new.items)) }
    ensures listed { (n : ℕ) (summaries : List Summary) → G.fits graph.new n summaries
        → IfOk result (λ found. IfNone found (AreAllEdges (IsPlacedLink n summaries) entry.node edges.new.items)) }
    ensures asked { (n : ℕ) (summaries : List Summary) → G.fits graph.new n summaries → (t : ℕ)
        → G.asked graph.new t → G.asked graph.old t ⊎ IsOfTile n t entry.node }
    ensures refusal { IfErr result (G.refuses graph.old source.old graph.new source.new) }
    ensures fits { (n : ℕ) (summaries : List Summary) → G.fits graph.new n summaries
        → G.fits graph.old n summaries }
    ensures keeps { OnOk result (G.keeps graph.old source.old graph.new source.new) }
{
    if entry.node == 0 {
        return Ok(Some(entry.crest));
    }
    if let Some(level) = graph.edges_from(alloc, source, entry.node, edges)? {
        return Ok(Some(entry.crest.max(level)));
    }
    Ok(None)
}

// For each edge from the entry's node, adds the node at its end to the frontier, unless that is visited.
fn push_all(
    entry: Entry,
    found: &[Edge],
    visited: &Visited,
    frontier: &mut Frontier,
) -> Result<(), AllocError>
    ensures { OnOk result (AreRaised found.now (length found.now) entry visited.now frontier.old frontier.new) }
{
    for edge in found {
        if !visited.contains(edge.to) {
            frontier.push(raised(entry, *edge))?;
        }
    }
    Ok(())
}

// The entry at the end of an edge from the entry's node.
fn raised(entry: Entry, edge: Edge) -> Entry
    ensures { result ≡ raised entry edge }
{
    Entry {
        crest: entry.crest.max(edge.level),
        level: edge.level,
        node: edge.to,
    }
}

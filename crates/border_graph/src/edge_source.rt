//! A graph that is read node by node.
ghost use Rattle.std.specs.Prelude.{◌≡◌, ◌<◌, ◌⊎◌, ℕ, List, [], IfOk, IfErr, IfNone, OnOk, MatchOption};
ghost use Rattle.lattice.specs.declared.refusal.Refusal.{Refusal};
ghost use Rattle.lattice.specs.declared.refusal.Refusal.TheVariants.{NoMemory};
ghost use Rattle.border_graph.specs.Links.{IsJoinedLevel};
ghost use Rattle.border_graph.specs.Summaries.{Summary};
ghost use Rattle.border_graph.specs.Joining.{AreOfMosaic};
ghost use Rattle.border_graph.specs.Edges.{AreAllEdges, AreEdges};
ghost use Rattle.border_graph.specs.Placed.{IsPlacedLink, IsOfTile};

use lattice::Refusal;
use std::alloc::Global;

/// An edge from a node: the node at its end, and its level, in metres.
#[derive(Clone, Copy, Debug, PartialEq, Eq)]
pub struct Edge {
    pub level: i16,
    pub to: u32,
}

/// The links between the rim points of all tiles, read node by node. Node 0 is the outlet node: an edge to it says that a
/// node is an outlet, and at which level. The other nodes are the rim points, numbered from 1, tile by tile and by rim
/// number.
///
/// A tile has many valid labellings, so its summary isn't determined before it is made. The contracts therefore speak about
/// each list of summaries of all tiles that agrees with the summaries made so far.
///
/// Each call borrows the source of the links, such as samples on a disk.
pub trait EdgeSource<S> {
    /// The summaries of all tiles, of this side, agree with those made so far.
    ghost fits: { Self → ℕ → List Summary → Type 0 };

    /// The new state and source may result from the old ones by successful calls alone.
    ghost keeps: { Self → S → Self → S → Type 0 };

    /// The tile with this number has been read.
    ghost asked: { Self → ℕ → Type 0 };

    /// Calls that led from the old state and source to the new ones may have ended with this refusal.
    ghost refuses: { Self → S → Self → S → Refusal → Type 0 };

    /// Adds all edges from the node to the empty list, and no others if the summaries are a mosaic's; returns None. If the
    /// node's least level over the whole graph is already known, returns that level, and the list has no meaning.
    fn edges_from(
        &mut self,
        alloc: Global,
        source: &mut S,
        node: u32,
        into: &mut Vec<Edge>,
    ) -> Result<Option<i16>, Refusal>
        requires node { 0 < node }
        requires empty { into.old.items ≡ [] }
        ensures all { (n : ℕ) (summaries : List Summary) → fits self.new n summaries
            → IfOk result (λ known. IfNone known (AreAllEdges (IsPlacedLink n summaries) node into.new.items)) }
        ensures answer { (n : ℕ) (summaries : List Summary) → fits self.new n summaries
            → AreOfMosaic n summaries
            → IfOk result (λ known. MatchOption known (AreEdges (IsPlacedLink n summaries) node into.new.items) (IsJoinedLevel (IsPlacedLink n summaries) 0 node)) }
        ensures refusal { IfErr result (refuses self.old source.old self.new source.new) }
        ensures asked { (n : ℕ) (summaries : List Summary) → fits self.new n summaries → (t : ℕ)
            → asked self.new t → asked self.old t ⊎ IsOfTile n t node }

        // Summaries that agree after the call agreed before it.
        ensures fits { (n : ℕ) (summaries : List Summary) → fits self.new n summaries
            → fits self.old n summaries }
        ensures keeps { OnOk result (keeps self.old source.old self.new source.new) };

    /// No call at all satisfies `keeps`.
    ghost keeps_itself: { (s : Self) (a : S) → keeps s a s a };

    /// Two series of calls in a row satisfy `keeps`.
    ghost keeps_on: { (s s' s'' : Self) (a b c : S) → keeps s a s' b → keeps s' b s'' c
        → keeps s a s'' c };

    /// If the last of several calls may be refused so, all of them together may be.
    ghost refuses_on: { (s s' s'' : Self) (a b c : S) (r : Refusal) → keeps s a s' b
        → refuses s' b s'' c r → refuses s a s'' c r };

    /// Memory may be lacking after any calls.
    ghost runs_out: { (s s' : Self) (a b : S) → keeps s a s' b → refuses s a s' b NoMemory };
}

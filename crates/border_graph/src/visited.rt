//! The nodes that a search has visited.
ghost use Rattle.std.specs.Prelude.{◌≡◌, ℕ, ◌==◌, IfOk, OnOk, not, cond, false};
ghost use Rattle.border_graph.specs.Frontier.{is_among};

use std::alloc::{AllocError, Global};
use std::collections::HashSet;
use std::marker::Model;

/// The visited nodes of a search.
#[derive(Drop)]
pub(crate) struct Visited {
    nodes: HashSet<u32>,
}

impl Model for Visited {
    ghost use Rattle.std.specs.Prelude.{List, ℕ};

    ghost Value = { List ℕ };

    ghost view = { λ t. t.nodes.keys };
}

impl Visited {
    /// A set without visited nodes.
    pub(crate) fn new(alloc: Global) -> Visited
        ensures { (x : ℕ) → is_among result x ≡ false }
    {
        Visited {
            nodes: HashSet::new(alloc),
        }
    }

    /// Visits the node. Returns whether it wasn't visited before.
    pub(crate) fn insert(&mut self, node: u32) -> Result<bool, AllocError>
        ensures fresh { IfOk result (λ fresh. fresh ≡ not (is_among self.old node)) }
        ensures visited { OnOk result ((x : ℕ)
            → is_among self.new x ≡ cond (node == x) (not false) (is_among self.old x)) }
    {
        let fresh = self.nodes.insert(node)?;
        Ok(fresh)
    }

    /// Whether the node is visited.
    pub(crate) fn contains(&self, node: u32) -> bool
        ensures { result ≡ is_among self.now node }
    {
        self.nodes.contains(&node)
    }
}

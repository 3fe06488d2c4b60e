//! The levels and labels of a block.
ghost use Rattle.std.specs.Prelude.{◌≡◌, ◌*◌, ℕ, ℤ, [], length, SomeIff};
ghost use Rattle.tile_flood.specs.Waiting.{Waits};

use crate::flood::Flood;
use crate::queue::Queue;
use crate::views::LabelledView;
use lattice::Side;
use std::alloc::Global;
use std::marker::Model;

/// A level and a label for each point of a block, row by row from the north-west corner. Levels are in metres; -32768 at void
/// points. A label is the number of a rim point, `OUT`, or `NO_LABEL`. Rim points are numbered in row order from the
/// north-west.
#[derive(Drop)]
pub struct Labelled {
    side: Side,
    levels: Vec<i16>,
    labels: Vec<u16>,
}

impl Model for Labelled {
    ghost use Rattle.std.specs.Prelude.{◌≡◌, ◌*◌, length};
    ghost use Rattle.labelling.specs.Blocks.{LabelledGround};

    ghost Value = { LabelledGround };

    ghost view = { λ l. record { side = l.side; levels = l.levels.items; labels = l.labels.items } };

    ghost invariant = { λ l. (length l.levels.items ≡ l.side * l.side)
        × (length l.labels.items ≡ l.side * l.side) };
}

impl Labelled {
    /// A labelling with these levels and labels. None unless both are as many as the points of a tile with this side.
    /// Allocates nothing.
    pub fn new(side: Side, levels: Vec<i16>, labels: Vec<u16>) -> Option<Labelled>
        ensures { SomeIff result ((length levels.items ≡ side * side) × (length labels.items ≡ side * side)) (record { side = side; levels = levels.items; labels = labels.items }) }
    {
        let area = side.area() as usize;
        if levels.len() == area && labels.len() == area {
            Some(Labelled {
                side,
                levels,
                labels,
            })
        } else {
            None
        }
    }

    pub(crate) fn of_flood(side: Side, levels: Vec<i16>, labels: Vec<u16>) -> Labelled
        requires levels { length levels.items ≡ side * side }
        requires labels { length labels.items ≡ side * side }
        ensures { result ≡ record { side = side; levels = levels.items; labels = labels.items } }
    {
        Labelled {
            side,
            levels,
            labels,
        }
    }

    // A flood in which no point waits, and none is suspect or affected. Most points will wait at about this level.
    pub(crate) fn into_flood(self, alloc: Global, level: i16) -> Flood
        ensures levels { result.levels.items ≡ self.levels }
        ensures labels { result.labels.items ≡ self.labels }
        ensures nobody { (l : ℤ) (e : ℕ) → Waits result.queue l e → ⊥ }
        ensures no_suspect { (l : ℤ) (e : ℕ) → Waits result.suspects l e → ⊥ }
        ensures affected { result.affected.items ≡ [] }
    {
        Flood {
            levels: self.levels,
            labels: self.labels,
            queue: Queue::new(alloc, level),
            suspects: Queue::new(alloc, level),
            affected: Vec::new(alloc),
        }
    }

    pub(crate) fn view(&self) -> LabelledView<'_>
        ensures { self.now ≡ record { side = result.n; levels = result.levels.now; labels = result.labels.now } }
    {
        LabelledView {
            n: self.side.samples() as usize,
            levels: &self.levels,
            labels: &self.labels,
        }
    }

    /// The side of the labelling's tile.
    pub fn side(&self) -> Side
        ensures { result ≡ self.now.side }
    {
        self.side
    }

    /// The levels; -32768 at void points.
    pub fn levels(&self) -> &[i16]
        ensures value { result.now ≡ self.now.levels }
        ensures whole { length self.now.levels ≡ self.now.side * self.now.side }
    {
        &self.levels
    }

    /// The labels of the points, row by row from the north-west corner.
    pub fn labels(&self) -> &[u16]
        ensures value { result.now ≡ self.now.labels }
        ensures whole { length self.now.labels ≡ self.now.side * self.now.side }
    {
        &self.labels
    }
}

//! A tile's summary for the tiles around it.
ghost use Rattle.std.specs.Prelude.{◌≡◌, IfOk};

use labelling::Spill;
use lattice::Corner;
use std::alloc::AllocError;
use std::marker::Model;

/// A rim point of a block: its height in metres (-32768 for a void), its label, and whether it is an outlet of the mosaic.
#[derive(Clone, Copy, Debug, PartialEq, Eq)]
pub struct RimPoint {
    pub height: i16,
    pub label: u16,
    pub outlet: bool,
}

/// A tile's corner, the points of its rim by rim number, and the spills between its labels.
#[derive(Drop)]
pub struct Summary {
    corner: Corner,
    rim: Vec<RimPoint>,
    spills: Vec<Spill>,
}

impl Model for Summary {
    ghost use Rattle.border_graph.specs.Summaries.{Summary};

    ghost Value = { Summary };

    ghost view = { λ s. record { corner = s.corner; rim = s.rim.items; spills = s.spills.items } };
}

impl Summary {
    ghost use Rattle.std.specs.List.Sorted.{IsNonDecreasingBy};
    ghost use Rattle.labelling.specs.declared.spill.Spill.{Spill as SpillOf};
    ghost use Rattle.border_graph.specs.Reordered.{IsReordered};

    /// The summary of the tile at this corner, with these rim points, by rim number, and these spills between its labels.
    pub fn new(corner: Corner, rim: Vec<RimPoint>, spills: Vec<Spill>) -> Summary
        ensures { result ≡ record { corner = corner; rim = rim.items; spills = spills.items } }
    {
        Summary {
            corner,
            rim,
            spills,
        }
    }

    // The summary with these spills in place of its own.
    pub(crate) fn with_spills(self, spills: Vec<Spill>) -> Summary
        ensures { result ≡ record self { spills = spills.items } }
    {
        Summary {
            corner: self.corner,
            rim: self.rim,
            spills,
        }
    }

    // The summary with its spills in the order of their first labels.
    pub(crate) fn in_order(self) -> Result<Summary, AllocError>
        ensures same { IfOk result (IsReordered self) }
        ensures in_order { IfOk result (λ summary. IsNonDecreasingBy (λ (s : SpillOf). s.a) summary.spills) }
    {
        let mut spills = self.spills;
        spills.sort_by_key(|spill| spill.a)?;
        Ok(Summary {
            corner: self.corner,
            rim: self.rim,
            spills,
        })
    }

    /// The corner of the summary's tile.
    pub fn corner(&self) -> Corner
        ensures { result ≡ self.now.corner }
    {
        self.corner
    }

    /// The points of the tile's rim, by rim number.
    pub fn rim(&self) -> &[RimPoint]
        ensures { result.now ≡ self.now.rim }
    {
        &self.rim
    }

    /// The spills between the tile's labels.
    pub fn spills(&self) -> &[Spill]
        ensures { result.now ≡ self.now.spills }
    {
        &self.spills
    }
}

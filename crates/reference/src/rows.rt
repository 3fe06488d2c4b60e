//! Worked rows that the definitions compute. Each function does nothing: its contract has the rows.
ghost use Rattle.reference.specs.Rows.{ImportRows, SeamRows, EditRows, VoidRows, PatchRows, RefusalRows, DepthRows, AdjacencyRows, SinkRows, StepRows, RimRows};

/// The mosaic after imports and removals, and when they are refused.
pub fn import_rows()
    ensures { ImportRows }
{}

/// Where two tiles disagree on their seam, the first one decides until it is removed.
pub fn seam_rows()
    ensures { SeamRows }
{}

/// A burn and a wall on a seam change both tiles.
pub fn edit_rows()
    ensures { EditRows }
{}

/// A point is void only if each tile that holds it has a void there.
pub fn void_rows()
    ensures { VoidRows }
{}

/// When a patch is refused, and the mosaic after it.
pub fn patch_rows()
    ensures { PatchRows }
{}

/// Which test refuses a burn or a wall.
pub fn refusal_rows()
    ensures { RefusalRows }
{}

/// How deep a burn may go.
pub fn depth_rows()
    ensures { DepthRows }
{}

/// Tiles that meet at one point: which points are adjacent, and where water leaves.
pub fn adjacency_rows()
    ensures { AdjacencyRows }
{}

/// Where a declared sink is an outlet. It stays when its tile is removed and imported again. How a sink is declared and
/// removed.
pub fn sink_rows()
    ensures { SinkRows }
{}

/// Which drop is steeper, and the order of the eight steps.
pub fn step_rows()
    ensures { StepRows }
{}

/// The numbers of the rim points.
pub fn rim_rows()
    ensures { RimRows }
{}

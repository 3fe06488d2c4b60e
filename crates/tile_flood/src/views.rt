//! Blocks and labellings in the form in which this crate's functions read them.
ghost use Rattle.labelling.specs.Blocks.{AreHeights};
ghost use Rattle.tile_flood.specs.Restoring.{AreMarks};

/// A block's side, heights and sinks.
#[derive(Drop)]
pub(crate) struct BlockView<'a> {
    pub(crate) n: usize,
    pub(crate) heights: &'a [i16],
    pub(crate) sinks: &'a [u32],
    ghost whole: { AreHeights n heights.now },
}

/// A labelling's side, levels and labels.
#[derive(Drop)]
pub(crate) struct LabelledView<'a> {
    pub(crate) n: usize,
    pub(crate) levels: &'a [i16],
    pub(crate) labels: &'a [u16],
    ghost whole: { AreMarks n levels.now labels.now },
}

/// A block, and what may be a labelling of it.
#[derive(Drop)]
pub(crate) struct Planes<'a> {
    pub(crate) block: BlockView<'a>,
    pub(crate) levels: &'a [i16],
    pub(crate) labels: &'a [u16],
    ghost marks: { AreMarks block.n levels.now labels.now },
}

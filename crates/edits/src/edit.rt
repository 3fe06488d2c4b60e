//! The effect of a command on tiles, points and sinks.
ghost use Rattle.std.specs.Prelude.{◌≡◌, ◌≢◌, ◌||◌, Ok, Err, IsTrue, IfOk, IfErr};
ghost use Rattle.lattice.specs.Corners.{Corner};
ghost use Rattle.lattice.specs.declared.refusal.Refusal.TheVariants.{NoMemory};
ghost use Rattle.catalogue.specs.Readers.{OnlyReads, reads_of};
ghost use Rattle.edits.specs.Edits.{FitsIn, HasRoom, IsEditOf, FindsVoids, TellsHeights, edit_made, goes_stale_by};
ghost use Rattle.edits.specs.Effect.{effect};
ghost use Rattle.edits.specs.Plans.{is_own, may_end};
ghost use Rattle.edits.specs.Touched.{goes_stale};

use crate::Command;
use crate::heights::{lowered, raised};
use crate::sinks::{new_sink_height, old_sink_height};
use crate::tiles::{can_import, can_remove};
use crate::void_tiles::tiles_to_patch;
use arrayvec::ArrayVec;
use catalogue::Samples;
use lattice::{Corner, Point, Refusal};

/// A point with its old and its new height, in metres.
#[derive(Clone, Copy, Default)]
pub struct NewHeight {
    pub point: Point,
    pub was: i16,
    pub metres: i16,
}

/// The effect of an accepted command on a mosaic.
#[derive(Drop)]
pub enum Edit<'a> {
    /// A tile is added, with these bytes of its HGT file.
    Add {
        corner: Corner,
        bytes: &'a [u8],
    },
    /// The corner's tile is removed.
    Drop {
        corner: Corner,
    },
    /// Each point gets its new height, in every present tile with the point.
    Heights {
        heights: ArrayVec<NewHeight, 64>,
    },
    /// Each void point of the box, corners included, gets the height, in every present tile with the point. These are
    /// the tiles with such points.
    Voids {
        from: Point,
        to: Point,
        height: i16,
        tiles: ArrayVec<Corner, 16>,
    },
    /// The point, of this height, is declared a sink.
    Sink {
        point: Point,
        metres: i16,
    },
    /// The point, of this height if it has one, is no longer a sink.
    Unsink {
        point: Point,
        metres: Option<i16>,
    },
}

/// The effect of the command on the mosaic, where at most `capacity` tiles may be present; or the first of its refusals
/// that applies. The samples are only read, and no memory is taken.
pub fn edit_of<'a, S: Samples>(
    samples: &mut S,
    capacity: u32,
    command: &'a Command,
) -> Result<Edit<'a>, Refusal>
    ensures made { S.is_honest samples.new
        → IfOk result (λ edit. effect capacity (S.mosaic samples.old) command.now
        ≡ Ok (edit_made edit (S.mosaic samples.old))) }

    // A refusal of the command's tests is the one that the effect gives.
    ensures refused { S.is_honest samples.new
        → IfErr result (λ r. IsTrue (is_own command.now r)
        → effect capacity (S.mosaic samples.old) command.now ≡ Err r) }

    // Any other refusal is that of a read.
    ensures causes { IfErr result (λ r. IsTrue (may_end command.now r)) }
    ensures memory { IfErr result (λ r. r ≢ NoMemory) }
    ensures form { IfOk result (IsEditOf command.now) }
    ensures fits { IfOk result (FitsIn (S.side_of samples.old) (S.corners samples.old) (S.sinks_of samples.old)) }

    ensures room { IfOk result (HasRoom capacity (S.corners samples.old)) }

    // A patch names the tiles with a void point in the box.
    ensures voids { S.is_honest samples.new → IfOk result (FindsVoids (S.mosaic samples.old)) }

    // The edit names the present heights of a burn's or a wall's points and of a sink.
    ensures heights { S.is_honest samples.new → IfOk result (TellsHeights (S.mosaic samples.old)) }
    ensures stale { S.is_honest samples.new
        → IfOk result (λ edit. (p : Corner)
        → goes_stale_by (S.side_of samples.old) (S.corners samples.old) edit p
        ≡ goes_stale (S.mosaic samples.old) command.now p) }
    ensures reads { OnlyReads S.Samples samples.old samples.new (reads_of result) }
{
    match command {
        &Command::Import { corner, ref bytes } => {
            let bytes = bytes.as_slice();
            can_import(samples, capacity, corner, bytes)?;
            Ok(Edit::Add { corner, bytes })
        }
        &Command::Remove { corner } => {
            can_remove(samples, corner)?;
            Ok(Edit::Drop { corner })
        }
        &Command::Patch { from, to, height } => {
            let tiles = tiles_to_patch(samples, from, to, height)?;
            Ok(Edit::Voids {
                from,
                to,
                height: height as i16,
                tiles,
            })
        }
        &Command::Burn { depth, ref points } => {
            let heights = lowered(samples, depth, points)?;
            Ok(Edit::Heights { heights })
        }
        &Command::Wall { height, ref points } => {
            let heights = raised(samples, height, points)?;
            Ok(Edit::Heights { heights })
        }
        &Command::Sink { point } => {
            let metres = new_sink_height(samples, point)?;
            Ok(Edit::Sink { point, metres })
        }
        &Command::Unsink { point } => {
            let metres = old_sink_height(samples, point)?;
            Ok(Edit::Unsink { point, metres })
        }
    }
}

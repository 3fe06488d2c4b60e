//! Lists a command's changes.
ghost use Rattle.std.specs.Prelude.{◌≡◌, All, IsTrue, Ok, Err, IfOk, IfErr, vec_len};
ghost use Rattle.catalogue.specs.Readers.{OnlyReads, reads_of};
ghost use Rattle.edits.specs.Changes.{CanBeMade, all_changed};
ghost use Rattle.edits.specs.Effect.{effect};
ghost use Rattle.edits.specs.Plans.{IsFew, SetsOnce, is_own, may_end};

use crate::listing::changes_of;
use crate::{Change, Command, edit_of};
use catalogue::Samples;
use lattice::Refusal;
use std::alloc::Global;

/// The changes that carry out the command, in order, where at most `capacity` tiles may be present; or the first of its
/// refusals that applies. The samples are only read.
///
/// A burn or a wall makes at most four changes a point, a patch any number, each other command one.
pub fn plan<S: Samples>(
    alloc: Global,
    samples: &mut S,
    capacity: u32,
    command: &Command,
) -> Result<Vec<Change>, Refusal>
    ensures changes { S.is_honest samples.new
        → IfOk result (λ changes. effect capacity (S.mosaic samples.old) command.now
        ≡ Ok (all_changed changes.items (S.mosaic samples.old))) }

    // Each listed sample is one that the command sets, and no sample is listed twice.
    ensures once { S.is_honest samples.new
        → IfOk result (λ changes. SetsOnce (S.mosaic samples.old) command.now changes.items) }

    // A refusal of the command's tests is the one that the effect gives.
    ensures refused { S.is_honest samples.new
        → IfErr result (λ r. IsTrue (is_own command.now r)
        → effect capacity (S.mosaic samples.old) command.now ≡ Err r) }

    // Any other refusal is a read's, or NoMemory.
    ensures causes { IfErr result (λ r. IsTrue (may_end command.now r)) }
    ensures fits { IfOk result (λ changes. All (CanBeMade (S.side_of samples.old) (S.corners samples.old) (S.sinks_of samples.old)) changes.items) }
    ensures few { IfOk result (λ changes. IsFew command.now (vec_len changes)) }
    ensures reads { OnlyReads S.Samples samples.old samples.new (reads_of result) }
{
    let edit = edit_of(samples, capacity, command)?;
    changes_of(alloc, samples, &edit)
}

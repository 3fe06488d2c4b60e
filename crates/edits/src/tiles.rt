//! Tests of the commands on whole tiles.
ghost use Rattle.std.specs.Prelude.{◌≡◌, ◌<◌, ◌*◌, ℕ, Contains, IsTrue, Ok, Err, IfErr, OnOk, length};
ghost use Rattle.lattice.specs.Corners.{Corner};
ghost use Rattle.lattice.specs.Mosaic.{Mosaic};
ghost use Rattle.hgt.specs.Bytes.{samples_in};
ghost use Rattle.catalogue.specs.Tiles.{added, corners_of, without};
ghost use Rattle.edits.specs.Effect.{effect};
ghost use Rattle.edits.specs.Plans.{is_own};
ghost use Rattle.edits.specs.declared.command.Command.TheVariants.{Import, Remove};

use crate::room::is_full;
use catalogue::Samples;
use lattice::{Corner, Refusal};

/// Whether an import is accepted, where at most `capacity` tiles may be present. Its tests in order: BadLength,
/// TileThere, Full. No sample is read.
pub fn can_import<S: Samples>(
    samples: &S,
    capacity: u32,
    corner: Corner,
    bytes: &[u8],
) -> Result<(), Refusal>
    ensures whole { OnOk result (length bytes.now ≡ 2 * (S.side_of samples.now * S.side_of samples.now)) }
    ensures absent { OnOk result (¬ Contains (S.corners samples.now) corner) }
    ensures room { OnOk result (length (S.corners samples.now) < capacity) }

    // The clause is true for any mosaic with this side and these tiles.
    ensures accepted { (m : Mosaic) → m.side ≡ S.side_of samples.now
        → corners_of m ≡ S.corners samples.now
        → OnOk result (effect capacity m (Import corner bytes.now)
        ≡ Ok (added (record { corner = corner; samples = samples_in bytes.now }) m)) }
    ensures refused { (m : Mosaic) → m.side ≡ S.side_of samples.now
        → corners_of m ≡ S.corners samples.now
        → IfErr result (λ r. effect capacity m (Import corner bytes.now) ≡ Err r) }
    ensures causes { IfErr result (λ r. IsTrue (is_own (Import corner bytes.now) r)) }
{
    if bytes.len() != samples.side().file_bytes() as usize {
        return Err(Refusal::BadLength);
    }
    if samples.present(corner) {
        return Err(Refusal::TileThere);
    }
    if is_full(samples, capacity) {
        return Err(Refusal::Full);
    }
    Ok(())
}

/// Whether a removal is accepted; the refusal is NoTile. No sample is read.
pub fn can_remove<S: Samples>(samples: &S, corner: Corner) -> Result<(), Refusal>
    ensures present { OnOk result (Contains (S.corners samples.now) corner) }
    ensures accepted { (capacity : ℕ) (m : Mosaic) → corners_of m ≡ S.corners samples.now
        → OnOk result (effect capacity m (Remove corner) ≡ Ok (without corner m)) }
    ensures refused { (capacity : ℕ) (m : Mosaic) → corners_of m ≡ S.corners samples.now
        → IfErr result (λ r. effect capacity m (Remove corner) ≡ Err r) }
    ensures causes { IfErr result (λ r. IsTrue (is_own (Remove corner) r)) }
{
    if !samples.present(corner) {
        return Err(Refusal::NoTile);
    }
    Ok(())
}

//! The bytes of a tile's levels and labels, as they are stored.
ghost use Rattle.std.specs.Prelude.{◌≡◌, ◌*◌, ◌⊎◌, IfOk, IfErr, Contains, vec_len};
ghost use Rattle.lattice.specs.declared.refusal.Refusal.TheVariants.{NoMemory};
ghost use Rattle.catalogue.specs.Readers.{OnlyReads, reads_of};
ghost use Rattle.catalogue.specs.Reading.{MayRefuse};
ghost use Rattle.tile_flood.specs.Kept.{AreKeptOf, labels_in, levels_in};

use crate::bytes::{label_bytes, level_bytes};
use crate::labellings::flooded;
use catalogue::Samples;
use lattice::{Corner, Refusal};
use std::alloc::Global;
use tile_flood::Labelled;

/// The levels and labels of a tile as bytes: two a point, the least significant first.
#[derive(Drop)]
pub struct KeptPlanes {
    pub levels: Vec<u8>,
    pub labels: Vec<u8>,
}

/// Floods the block of the corner's tile, and returns its levels and labels as bytes. It reads the tile's samples, and on its
/// rim those of its neighbours. Refusals are NoMemory and those of reading samples.
pub fn kept_planes<S: Samples>(
    alloc: Global,
    samples: &mut S,
    corner: Corner,
) -> Result<KeptPlanes, Refusal>
    requires { Contains (S.corners samples.old) corner }
    ensures kept { S.is_honest samples.new
        → IfOk result (λ planes. AreKeptOf (S.mosaic samples.old) corner planes.levels.items planes.labels.items) }

    // Whatever was read, both have two bytes a point.
    ensures levels { IfOk result (λ planes. vec_len planes.levels ≡ 2 * (S.side_of samples.old * S.side_of samples.old)) }
    ensures labels { IfOk result (λ planes. vec_len planes.labels ≡ 2 * (S.side_of samples.old * S.side_of samples.old)) }
    ensures refusal { IfErr result (λ r. (r ≡ NoMemory)
        ⊎ MayRefuse (S.failures samples.old) (S.failures samples.new) r) }
    ensures reads { OnlyReads S.Samples samples.old samples.new (reads_of result) }
{
    let flooded = flooded(alloc, samples, corner, None)?;
    let planes = planes_of(alloc, flooded.labelled())?;
    Ok(planes)
}

/// The levels and labels of the labelling as bytes. The only refusal is NoMemory.
pub fn planes_of(alloc: Global, labelled: &Labelled) -> Result<KeptPlanes, Refusal>
    ensures levels { IfOk result (λ planes. levels_in planes.levels.items ≡ labelled.now.levels) }
    ensures labels { IfOk result (λ planes. labels_in planes.labels.items ≡ labelled.now.labels) }
    ensures levels_len { IfOk result (λ planes. vec_len planes.levels ≡ 2 * (labelled.now.side * labelled.now.side)) }
    ensures labels_len { IfOk result (λ planes. vec_len planes.labels ≡ 2 * (labelled.now.side * labelled.now.side)) }
    ensures refusal { IfErr result (λ r. r ≡ NoMemory) }
{
    let levels = level_bytes(alloc, labelled.levels())?;
    let labels = label_bytes(alloc, labelled.labels())?;
    Ok(KeptPlanes { levels, labels })
}

//! The present tiles in their order.
ghost use Rattle.std.specs.Prelude.{◌≡◌, IsTrue, IfOk, IfErr, if◌then◌else◌, length};
ghost use Rattle.std.specs.List.{AllAdjacentBelow};
ghost use Rattle.lattice.specs.Corners.{is_corner};
ghost use Rattle.lattice.specs.Lattice.{IsBefore};
ghost use Rattle.lattice.specs.declared.refusal.Refusal.TheVariants.{NoMemory};
ghost use Rattle.catalogue.specs.Tiles.{corners_of, is_listed};
ghost use Rattle.catalogue.specs.Tables.{AreCorners};

use crate::Samples;
use lattice::{Corner, Refusal};

/// The corners of the present tiles, in order. NoMemory is the only refusal.
pub fn tiles<S: Samples>(samples: &S) -> Result<Vec<Corner>, Refusal>
    ensures corners { S.is_honest samples.now
        → IfOk result (λ found. found.items ≡ corners_of (S.mosaic samples.now)) }

    // The same is true on any disk.
    ensures known { IfOk result (λ found. found.items ≡ S.corners samples.now) }
    ensures in_order { IfOk result (λ found. AllAdjacentBelow IsBefore found.items (length found.items)) }
    ensures refusal { IfErr result (λ r. r ≡ NoMemory) }
{
    samples.present_corners()
}

// The corner at this latitude and longitude, if its tile is present.
pub(crate) fn present_at<S: Samples>(samples: &S, lat: i16, lon: i16) -> Option<Corner>
    ensures answer { AreCorners (S.corners samples.now)
        → result ≡ (if is_listed (record { lat = lat; lon = lon }) (S.corners samples.now) then Some (record { lat = lat; lon = lon }) else None) }
    ensures in_order { IsTrue (is_corner (record { lat = lat; lon = lon }))
        → AllAdjacentBelow IsBefore (S.corners samples.now) (length (S.corners samples.now)) }
    ensures whole_degrees { IsTrue (is_corner (record { lat = lat; lon = lon }))
        → AreCorners (S.corners samples.now) }
{
    let corner = Corner::new(lat, lon)?;
    if samples.present(corner) {
        Some(corner)
    } else {
        None
    }
}

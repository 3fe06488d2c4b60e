//! The name of a tile.
ghost use Rattle.std.specs.Prelude.{IsTrue, SomeIff};

use std::marker::Model;

/// The corner of a tile: the latitude and longitude of its south-west sample, in whole degrees, north and east positive.
/// Latitudes run from -90 to 89 and longitudes from -180 to 179. Corners are ordered by latitude, then longitude: the
/// order of tiles, everywhere (SRTM documentation).
#[derive(Clone, Copy, Debug, Default, PartialEq, Eq, PartialOrd, Ord)]
pub struct Corner {
    pub lat: i16,
    pub lon: i16,
}

impl Model for Corner {
    ghost use Rattle.lattice.specs.Corners.{Corner, is_corner};
    ghost use Rattle.std.specs.Prelude.{IsTrue};

    ghost Value = { Corner };

    ghost view = { λ c. record { lat = c.lat; lon = c.lon } };

    ghost invariant = { λ c. IsTrue (is_corner (record { lat = c.lat; lon = c.lon })) };

    ghost inverse = { λ p. record { lat = p.lat; lon = p.lon } };
}

impl Corner {
    ghost use Rattle.lattice.specs.Corners.{Corner, is_corner};

    /// The corner at this latitude and longitude, if there is one.
    pub fn new(lat: i16, lon: i16) -> Option<Corner>
        ensures { SomeIff result (IsTrue (is_corner (record { lat = lat; lon = lon }))) (record { lat = lat; lon = lon }) }
    {
        Corner::at(i64::from(lat), i64::from(lon))
    }

    // The corner at these degrees, which may be far outside the range.
    pub(crate) fn at(lat: i64, lon: i64) -> Option<Corner>
        ensures { SomeIff result (IsTrue (is_corner (record { lat = lat; lon = lon }))) (record { lat = lat; lon = lon }) }
    {
        if -90 <= lat && lat <= 89 && -180 <= lon && lon <= 179 {
            Some(Corner {
                lat: lat as i16,
                lon: lon as i16,
            })
        } else {
            None
        }
    }
}

//! The ranges of number types, as facts that a proof can cite. The functions do nothing at run time.
ghost use Rattle.std.specs.Prelude.{◌<◌, All, IsTrue};
ghost use Rattle.lattice.specs.Corners.{is_corner};
ghost use Rattle.lattice.specs.Mosaic.{IsSample};

use crate::corner::Corner;

/// Each byte is below 256.
pub fn bytes_in_range(bytes: &[u8])
    ensures { All (λ b. b < 256) bytes.now }
{}

/// Each label is below 65,536.
pub fn labels_in_range(labels: &[u16])
    ensures { All (λ n. n < 65536) labels.now }
{}

/// Each sample is a number of 16 bits.
pub fn samples_in_range(samples: &[i16])
    ensures { All IsSample samples.now }
{
    // For the prover alone: reading a sample shows that it is a 16-bit number. The compiler drops the loop.
    for sample in samples {
        let _sample = *sample;
    }
}

/// The corner is within the grid of tiles.
pub fn corner_in_range(c: Corner)
    ensures { IsTrue (is_corner c) }
{
    // Reading this field shows the prover that this is a corner.
    let _lat = c.lat;
}

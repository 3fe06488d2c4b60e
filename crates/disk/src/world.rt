//! What contracts suppose about the contents of a file.
ghost use Rattle.std.specs.Prelude.{ℕ, []};
ghost use Rattle.disk.specs.Disk.{Image};

use std::marker::Brand;

/// The images that reads of one file give over time.
///
/// No code can see these images. A function over `W: World` is proved for any of them. A caller at [`Brand`] picks
/// those that its contract names.
pub trait World {
    /// The image that reads give after this many calls. After none it is the file's contents at the opening.
    ghost image: { ℕ → Image };
}

impl World for Brand {
    ghost image = { λ n k. [] };
}

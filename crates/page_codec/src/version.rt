//! The versions of the layout.
ghost use Rattle.std.specs.Prelude.{◌≡◌, ◌≢◌, IfSome, IfNone};
ghost use Rattle.page_codec.specs.declared.version.Version.{Version};
ghost use Rattle.page_codec.specs.Formats.{number_of, largest_side_of, IsKnown};

use lattice::LARGEST_SIDE;

/// The version of a store's layout. In the second a plane's record lists index pages, and these list its pages; so
/// tiles may be larger.
#[derive(Clone, Copy, Debug, PartialEq, Eq)]
pub enum Version {
    One,
    Two,
}

impl Version {
    /// The version with this number, if it is known.
    pub fn of(number: u32) -> Option<Version>
        ensures known { IfSome result IsKnown }
        ensures found { IfSome result (λ version. number ≡ number_of version) }
        ensures none { IfNone result ((version : Version) → IsKnown version
            → number ≢ number_of version) }
    {
        match number {
            1 => Some(Version::One),
            2 => Some(Version::Two),
            _ => None,
        }
    }

    /// The number of the version in a root.
    pub fn number(self) -> u32
        ensures { result ≡ number_of self }
    {
        match self {
            Version::One => 1,
            Version::Two => 2,
        }
    }

    /// The largest side of a tile, in samples.
    pub fn largest_side(self) -> u32
        ensures { result ≡ largest_side_of self }
    {
        match self {
            Version::One => 1201,
            Version::Two => LARGEST_SIDE,
        }
    }
}

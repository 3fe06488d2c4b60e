//! The numbers of a root.
ghost use Rattle.std.specs.Prelude.{◌≡◌, ◌+◌, ◌≤◌, ◌++◌, length, SomeIff};
ghost use Rattle.page_codec.specs.Formats.{IsKnown};
ghost use Rattle.page_codec.specs.Roots.{AreNumbers};
ghost use Rattle.page_codec.specs.Headers.{number_bytes};

use crate::numbers::{split_u32, split_u64};
use crate::{Format, Version};
use lattice::MOST_SINKS;

/// The numbers of a root, which its bytes have after the version.
#[derive(Clone, Copy)]
pub(crate) struct Header {
    pub(crate) side: u32,
    pub(crate) capacity: u32,
    pub(crate) tiles: u32,
    pub(crate) number: u64,
    pub(crate) count: u64,
    pub(crate) sinks: u32,
}

/// The length of a header's numbers in bytes.
pub(crate) const HEADER_BYTES: usize = 32;

impl Header {
    /// The numbers at the front, and the bytes after them.
    #[tactic(auto, unfolding(crate::specs::Headers::number_bytes))]
    pub(crate) fn split(bytes: &[u8]) -> (Header, &[u8])
        requires { HEADER_BYTES ≤ length bytes.now }
        ensures parts { bytes.now ≡ number_bytes result.0.side result.0.capacity result.0.tiles result.0.number result.0.count result.0.sinks ++ result.1.now }
        ensures rest { length result.1.now + HEADER_BYTES ≡ length bytes.now }
    {
        let (side, rest) = split_u32(bytes);
        let (capacity, rest) = split_u32(rest);
        let (tiles, rest) = split_u32(rest);
        let (number, rest) = split_u64(rest);
        let (count, rest) = split_u64(rest);
        let (sinks, rest) = split_u32(rest);
        let header = Header {
            side,
            capacity,
            tiles,
            number,
            count,
            sinks,
        };
        (header, rest)
    }

    /// The format, if the numbers keep the rules of a root of this version.
    pub(crate) fn format(&self, version: Version) -> Option<Format>
        requires { IsKnown version }
        ensures { SomeIff result (AreNumbers (record { version = version; side = self.now.side; capacity = self.now.capacity }) self.now.tiles self.now.number self.now.count self.now.sinks) (record { version = version; side = self.now.side; capacity = self.now.capacity }) }
    {
        let format = Format::new(version, self.side, self.capacity).ok()?;
        let is_valid = self.tiles <= self.capacity
            && self.count < self.number
            && self.sinks <= MOST_SINKS as u32;
        if is_valid { Some(format) } else { None }
    }
}

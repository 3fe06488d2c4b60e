//! The format of a store.
ghost use Rattle.std.specs.Prelude.{◌≡◌, ◌≤◌, ◌<◌, IfOk, IsOk, IsErrOf, ◌↔◌};
ghost use Rattle.lattice.specs.declared.refusal.Refusal.TheVariants.{BadSide, BadCapacity};
ghost use Rattle.page_codec.specs.Formats.{Format, IsFormat, format_1, largest_side_of, upgraded};
ghost use Rattle.page_codec.specs.Sizes.{pages_of, index_pages_of, listed_in, AreLeastPages, sectors_asked};

use crate::size::pages_in_plane;
use crate::{FIXED_SECTORS, MAX_CAPACITY, RECORD_PAGES, Version};
use lattice::{Refusal, Side};
use std::marker::Model;

/// The part of a store that only an upgrade changes: the version of its layout, the side of its tiles, and its
/// capacity, 1 to 240 tiles.
#[derive(Clone, Copy, Debug, PartialEq, Eq)]
pub struct Format {
    version: Version,
    side: Side,
    capacity: u32,
}

impl Model for Format {
    ghost use Rattle.page_codec.specs.Formats.{Format, IsFormat};

    ghost Value = { Format };

    ghost view = { λ f. record { version = f.version; side = f.side; capacity = f.capacity } };

    ghost invariant = { λ f. IsFormat (record { version = f.version; side = f.side; capacity = f.capacity }) };

    ghost inverse = { λ f. record { version = f.version; side = f.side; capacity = f.capacity } };
}

impl Format {
    /// The format of this version, side (in samples) and capacity (in tiles).
    ///
    /// Refused as BadSide if the side is less than 3, or greater than 1201 in the first version and 3601 in the second.
    /// Otherwise refused as BadCapacity if the capacity isn't allowed.
    pub fn new(version: Version, side: u32, capacity: u32) -> Result<Format, Refusal>
        ensures made { IfOk result (λ format. format ≡ record { version = version; side = side; capacity = capacity }) }
        ensures good { IsOk result
            ↔ IsFormat (record { version = version; side = side; capacity = capacity }) }
        ensures bad_side { IsErrOf result BadSide
            ↔ ¬ ((3 ≤ side) × (side ≤ largest_side_of version)) }
        ensures bad_capacity { IsErrOf result BadCapacity
            ↔ ((3 ≤ side) × (side ≤ largest_side_of version)
            × ¬ ((1 ≤ capacity) × (capacity ≤ MAX_CAPACITY))) }
    {
        let side = Side::new(side)
            .filter(|side| side.samples() <= version.largest_side())
            .ok_or(Refusal::BadSide)?;
        if capacity < 1 || MAX_CAPACITY < capacity {
            return Err(Refusal::BadCapacity);
        }
        Ok(Format {
            version,
            side,
            capacity,
        })
    }

    /// The format with this side and capacity in the first version.
    pub fn first(side: Side, capacity: u32) -> Format
        requires side { side ≤ 1201 }
        requires capacity_low { 1 ≤ capacity }
        requires capacity_high { capacity ≤ MAX_CAPACITY }
        ensures { result ≡ format_1 side capacity }
    {
        Format {
            version: Version::One,
            side,
            capacity,
        }
    }

    /// The same store in the second version.
    pub fn upgraded(self) -> Format
        ensures { result ≡ upgraded self }
    {
        Format {
            version: Version::Two,
            ..self
        }
    }

    /// The version of the layout.
    pub fn version(self) -> Version
        ensures { result ≡ self.version }
    {
        self.version
    }

    /// The side of each tile.
    pub fn side(self) -> Side
        ensures value { result ≡ self.side }
        ensures rules { IsFormat self }
    {
        self.side
    }

    /// The capacity of the store, in tiles.
    pub fn capacity(self) -> u32
        ensures value { result ≡ self.capacity }
        ensures rules { IsFormat self }
    {
        self.capacity
    }

    /// The number of pages of a tile's plane, at two bytes a point.
    pub fn data_pages(self) -> u32
        ensures value { result ≡ pages_of self.side }
        ensures least { AreLeastPages self.side result }
    {
        pages_in_plane(self.side)
    }

    /// The number of index pages of a plane.
    pub fn index_pages(self) -> u32
        ensures { result ≡ index_pages_of self }
    {
        match self.version {
            Version::One => 0,
            Version::Two => self.data_pages().div_ceil(RECORD_PAGES as u32),
        }
    }

    /// The number of page numbers in a record.
    pub fn listed(self) -> u32
        ensures value { result ≡ listed_in self }
        ensures room { result ≤ RECORD_PAGES }
    {
        match self.version {
            Version::One => self.data_pages(),
            Version::Two => self.index_pages(),
        }
    }

    /// The number of sectors that the store needs. With these there is always a free page: the two roots reach the
    /// planes of two mosaics, and a change writes at most one plane a tile, or two planes.
    pub fn sectors(self) -> u32
        ensures { result ≡ sectors_asked self }
    {
        FIXED_SECTORS + (4 * self.capacity + 2) * (1 + self.index_pages() + self.data_pages())
    }
}

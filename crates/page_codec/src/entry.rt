//! A tile's entry in a root.
ghost use Rattle.std.specs.Prelude.{◌≡◌, length, Ok, IfOk, IfErr, IfSome, IfNone};
ghost use Rattle.page_codec.specs.declared.damaged.Damaged.TheVariants.{Rule};

use crate::numbers::{split_i16, split_u32};
use crate::writer::Writer;
use crate::{Damaged, ENTRY_BYTES};
use lattice::Corner;
use std::marker::Model;

/// The pages of the records of a tile's levels and labels. Neither is 0 in an entry.
#[derive(Clone, Copy, Debug, PartialEq, Eq)]
pub struct Kept {
    pub levels: u32,
    pub labels: u32,
}

/// Where a tile's planes are: the pages of their records, never 0. A tile that keeps no levels and labels is stale.
#[derive(Clone, Copy, Debug, PartialEq, Eq)]
pub struct Entry {
    pub corner: Corner,
    pub heights: u32,
    pub kept: Option<Kept>,
}

impl Model for Entry {
    ghost use Rattle.page_codec.specs.Entries.{EntryValue, IsEntry};

    ghost Value = { EntryValue };

    ghost view = { λ e. record { corner = e.corner; heights = e.heights; kept = e.kept } };

    ghost invariant = { λ e. IsEntry (record { corner = e.corner; heights = e.heights; kept = e.kept }) };

    ghost inverse = { λ e. record { corner = e.corner; heights = e.heights; kept = e.kept } };
}

// The value in the unused elements of a list of entries.
impl Default for Entry {
    fn default() -> Entry {
        Entry {
            corner: Corner::default(),
            heights: 1,
            kept: None,
        }
    }
}

impl Entry {
    ghost use Rattle.page_codec.specs.Entries.{EntryValue, IsEntry, entry_bytes};

    /// The entry that these bytes spell.
    pub fn read(bytes: &[u8; ENTRY_BYTES]) -> Result<Entry, Damaged>
        ensures found { IfOk result (λ entry. IsEntry entry × (bytes.now ≡ entry_bytes entry)) }
        ensures only { (entry : EntryValue) → IsEntry entry → bytes.now ≡ entry_bytes entry
            → result ≡ Ok entry }
        ensures rule { IfErr result (λ damaged. damaged ≡ Rule) }
    {
        Entry::parse(bytes).ok_or(Damaged::Rule)
    }

    /// The entry that these bytes spell, from a slice.
    pub(crate) fn parse(bytes: &[u8]) -> Option<Entry>
        requires { length bytes.now ≡ ENTRY_BYTES }
        ensures found { IfSome result (λ entry. IsEntry entry × (bytes.now ≡ entry_bytes entry)) }
        ensures none { IfNone result ((entry : EntryValue) → IsEntry entry
            → bytes.now ≡ entry_bytes entry → ⊥) }
    {
        Fields::read(bytes).entry()
    }

    /// The only spelling of the entry.
    pub fn write(&self) -> [u8; ENTRY_BYTES]
        ensures { result ≡ entry_bytes self.now }
    {
        let kept = self.kept.unwrap_or(Kept {
            levels: NONE,
            labels: NONE,
        });
        Fields {
            lat: self.corner.lat,
            lon: self.corner.lon,
            heights: self.heights,
            levels: kept.levels,
            labels: kept.labels,
        }
        .write()
    }
}

// The page number that means none.
const NONE: u32 = 0;

// An entry's numbers as its bytes have them.
#[derive(Clone, Copy)]
struct Fields {
    lat: i16,
    lon: i16,
    heights: u32,
    levels: u32,
    labels: u32,
}

impl Fields {
    ghost use Rattle.page_codec.specs.Entries.{field_bytes, EntryValue, IsEntry};
    ghost use Rattle.page_codec.specs.Fields.{AreFieldsOf};

    #[tactic(auto, unfolding(crate::specs::Entries::field_bytes))]
    fn read(bytes: &[u8]) -> Fields
        requires { length bytes.now ≡ ENTRY_BYTES }
        ensures { bytes.now ≡ field_bytes result.lat result.lon result.heights result.levels result.labels }
    {
        let (lat, rest) = split_i16(bytes);
        let (lon, rest) = split_i16(rest);
        let (heights, rest) = split_u32(rest);
        let (levels, rest) = split_u32(rest);
        let (labels, _) = split_u32(rest);
        Fields {
            lat,
            lon,
            heights,
            levels,
            labels,
        }
    }

    #[tactic(auto, unfolding(crate::specs::Entries::field_bytes))]
    fn write(self) -> [u8; ENTRY_BYTES]
        ensures { result ≡ field_bytes self.lat self.lon self.heights self.levels self.labels }
    {
        let mut writer = Writer::new();
        writer.put_i16(self.lat);
        writer.put_i16(self.lon);
        writer.put_u32(self.heights);
        writer.put_u32(self.levels);
        writer.put_u32(self.labels);
        writer.finish()
    }

    // The entry with these fields, if there is one.
    fn entry(self) -> Option<Entry>
        ensures found { IfSome result (λ entry. IsEntry entry × AreFieldsOf self entry) }
        ensures none { IfNone result ((entry : EntryValue) → IsEntry entry → AreFieldsOf self entry
            → ⊥) }
    {
        let corner = Corner::new(self.lat, self.lon)?;
        if self.heights == NONE {
            return None;
        }
        let kept = match (self.levels, self.labels) {
            (NONE, NONE) => None,
            (NONE, _) | (_, NONE) => return None,
            (levels, labels) => Some(Kept { levels, labels }),
        };
        Some(Entry {
            corner,
            heights: self.heights,
            kept,
        })
    }
}

//! The product's refusals.
ghost use Rattle.std.specs.Prelude.{◌≡◌};

use std::alloc::AllocError;
use std::error::Error;
use std::fmt;

/// The complete list of refusals, with the number and the word of each in replies.
#[derive(Clone, Copy, Debug, PartialEq, Eq)]
pub enum Refusal {
    /// The line isn't in the grammar.
    BadLine,
    /// No tile or file has this name.
    BadName,
    /// The bytes aren't two for each sample of a tile, or the input ended within them.
    BadLength,
    /// The tile is present.
    TileThere,
    /// The tile isn't present.
    NoTile,
    /// The store has no room for another tile.
    Full,
    /// No present tile has the point.
    Outside,
    /// The point's height is void.
    Void,
    /// No point of the box is void.
    NothingVoid,
    /// A height outside -32767 to 32767.
    BadHeight,
    /// A depth outside 1 to 32767.
    BadDepth,
    /// A box whose corners are out of order, or with more points than a side in a direction.
    BadBox,
    /// A point named twice.
    Repeated,
    /// A height would fall below -32767.
    TooDeep,
    /// The point is declared a sink.
    SinkThere,
    /// No further sink can be declared.
    SinksFull,
    /// The point isn't declared a sink.
    NoSink,
    /// The disk failed in this call.
    Device,
    /// Memory was refused in this call.
    NoMemory,
    /// The disk refused an earlier call, and no opening has succeeded since.
    Failed,
    /// The image isn't a store's.
    Damaged,
    /// The commit number can't grow.
    Worn,
    /// No gate is open, or a root lacks its magic.
    NotAStore,
    /// A root has an unknown version.
    Version,
    /// A side that the format doesn't allow.
    BadSide,
    /// A capacity outside 1 to 240.
    BadCapacity,
    /// Too few sectors for the side and the capacity.
    TooSmall,
    /// The store has the later format already.
    NotOld,
}

impl Refusal {
    ghost use Rattle.lattice.specs.Refusals.{number_of, word_of};

    /// The number of the refusal in replies.
    pub fn number(self) -> u8
        ensures { result ≡ number_of self }
    {
        match self {
            Refusal::BadLine => 1,
            Refusal::BadName => 2,
            Refusal::BadLength => 3,
            Refusal::TileThere => 4,
            Refusal::NoTile => 5,
            Refusal::Full => 6,
            Refusal::Outside => 7,
            Refusal::Void => 8,
            Refusal::NothingVoid => 9,
            Refusal::BadHeight => 10,
            Refusal::BadDepth => 11,
            Refusal::BadBox => 12,
            Refusal::Repeated => 13,
            Refusal::TooDeep => 14,
            Refusal::SinkThere => 15,
            Refusal::SinksFull => 16,
            Refusal::NoSink => 17,
            Refusal::Device => 20,
            Refusal::NoMemory => 21,
            Refusal::Failed => 22,
            Refusal::Damaged => 23,
            Refusal::Worn => 24,
            Refusal::NotAStore => 30,
            Refusal::Version => 31,
            Refusal::BadSide => 32,
            Refusal::BadCapacity => 33,
            Refusal::TooSmall => 34,
            Refusal::NotOld => 35,
        }
    }

    /// The word of the refusal in replies.
    pub fn word(self) -> &'static str
        ensures { result.now ≡ word_of self }
    {
        match self {
            Refusal::BadLine => "BadLine",
            Refusal::BadName => "BadName",
            Refusal::BadLength => "BadLength",
            Refusal::TileThere => "TileThere",
            Refusal::NoTile => "NoTile",
            Refusal::Full => "Full",
            Refusal::Outside => "Outside",
            Refusal::Void => "Void",
            Refusal::NothingVoid => "NothingVoid",
            Refusal::BadHeight => "BadHeight",
            Refusal::BadDepth => "BadDepth",
            Refusal::BadBox => "BadBox",
            Refusal::Repeated => "Repeated",
            Refusal::TooDeep => "TooDeep",
            Refusal::SinkThere => "SinkThere",
            Refusal::SinksFull => "SinksFull",
            Refusal::NoSink => "NoSink",
            Refusal::Device => "Device",
            Refusal::NoMemory => "NoMemory",
            Refusal::Failed => "Failed",
            Refusal::Damaged => "Damaged",
            Refusal::Worn => "Worn",
            Refusal::NotAStore => "NotAStore",
            Refusal::Version => "Version",
            Refusal::BadSide => "BadSide",
            Refusal::BadCapacity => "BadCapacity",
            Refusal::TooSmall => "TooSmall",
            Refusal::NotOld => "NotOld",
        }
    }
}

impl fmt::Display for Refusal {
    ghost use Rattle.std.specs.Prelude.{Some};
    ghost use Rattle.lattice.specs.Refusals.{word_of};

    ghost output = { λ r. Some (word_of r) };

    fn fmt<W: fmt::Write>(&self, f: &mut fmt::Formatter<W>) -> fmt::Result {
        f.write_str(self.word())
    }
}

impl Error for Refusal {}

impl From<AllocError> for Refusal {
    ghost use Rattle.std.specs.Prelude.{◌≡◌};
    ghost use Rattle.lattice.specs.declared.refusal.Refusal.TheVariants.{NoMemory};

    ghost from_gives = { λ _ r. r ≡ NoMemory };

    fn from(_: AllocError) -> Refusal {
        Refusal::NoMemory
    }
}

//! The files that the program asks for, by path.
ghost use Rattle.std.specs.Prelude.{◌≡◌, IfOk, OnErr, OnOk};
ghost use Rattle.server.specs.Places.{Access, Closes, HasGrown, HasNotGrown, Makes, Opens, Reads, given_of};

use disk::{Disk, Fault};

/// A disk that can be lengthened.
pub trait Lengthen: Disk {
    /// Appends sectors of zeros until the disk has this many. Its contents stay.
    fn lengthen(&mut self, sectors: u32) -> Result<(), Fault>
        ensures grown { OnOk result (HasGrown Self.Disk sectors self.old self.new) }
        ensures as_before { OnErr result (HasNotGrown Self.Disk self.old self.new) };
}

/// Why a file wasn't made.
#[derive(Clone, Copy, Debug, PartialEq, Eq)]
pub enum MakeFault {
    /// Something is at the path already.
    Exists,
    /// The file can't be made.
    Closed,
}

/// Why the bytes of a tile's file aren't there.
#[derive(Clone, Copy, Debug, PartialEq, Eq)]
pub enum TileFault {
    /// The file can't be opened, or a read of it failed.
    Unreadable,
    /// There is no memory for its bytes.
    NoMemory,
}

/// A set of files by path.
///
/// One relation says what each access asked for and gave, and only these calls show it. So code over any places shows
/// which paths it asked for, for what and in which order, and that it asked for no others.
pub trait Places {
    /// A store's file, open as a disk.
    type File: Disk + Lengthen + Drop;

    /// An access asked for and gave this, and left these places.
    ghost accessed: { Self → Access Self.File → Self → Type 0 };

    /// Makes a file of this many sectors at a path where nothing is.
    fn make(&mut self, path: &str, sectors: u32) -> Result<Self::File, MakeFault>
        ensures accessed { accessed self.old (Makes path.now sectors result) self.new }
        ensures size { IfOk result (λ disk. Self.File.size disk ≡ sectors) };

    /// Opens a store's file.
    fn open(&mut self, path: &str) -> Option<Self::File>
        ensures { accessed self.old (Opens path.now result) self.new };

    /// Closes a store's file.
    fn close(&mut self, disk: Self::File)
        ensures { accessed self.old (Closes disk) self.new };

    /// At most the first `most` bytes of a tile's file.
    fn read(&mut self, path: &str, most: u32) -> Result<Vec<u8>, TileFault>
        ensures { accessed self.old (Reads path.now most (given_of result)) self.new };
}

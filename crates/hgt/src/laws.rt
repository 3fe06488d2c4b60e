//! Laws of all samples, bytes and names.
ghost use Rattle.hgt.specs.HgtLaws.{SamplesAreDetermined, BytesAreDetermined, SamplesHaveBytes, SamplesReadBack, BytesWriteBack};
ghost use Rattle.hgt.specs.NameLaws.{NamesAreOfOne, FileNamesAreOfOne, CornersHaveNames};

/// Bytes are the HGT bytes of at most one list of samples.
pub fn samples_are_determined()
    ensures { SamplesAreDetermined }
{}

/// Samples have at most one list of HGT bytes.
pub fn bytes_are_determined()
    ensures { BytesAreDetermined }
{}

/// Samples of a whole tile have HGT bytes.
pub fn samples_have_bytes()
    ensures { SamplesHaveBytes }
{}

/// Samples written as bytes read back.
pub fn samples_read_back()
    ensures { SamplesReadBack }
{}

/// Bytes read as samples write back.
pub fn bytes_write_back()
    ensures { BytesWriteBack }
{}

/// A text is the name of at most one corner.
pub fn names_are_of_one()
    ensures { NamesAreOfOne }
{}

/// A path names the tile of at most one corner.
pub fn file_names_are_of_one()
    ensures { FileNamesAreOfOne }
{}

/// The printed name of a corner is a name of the corner.
pub fn corners_have_names()
    ensures { CornersHaveNames }
{}

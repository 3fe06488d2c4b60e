//! HGT files of elevation tiles (SRTM documentation): their names, and the samples in their bytes.
//!
//! The layers above rest on this: samples and bytes determine each other, and a name is read exactly if there is such a
//! corner.
//!
//! ```
//! let corner = name_of(b"n37w105")?;                     // latitude 37, longitude -105; else BadName
//! let name = name_text(corner);                          // "N37W105"
//! let samples = samples(alloc, &bytes, side)?;           // BadLength unless there are two bytes a sample
//! ```
#![tactic(auto)]

mod bytes;
mod laws;
mod name;
mod side;

pub use bytes::{bytes_of, put_sample, read_samples, sample, samples, write_samples};
pub use laws::{
    bytes_are_determined, bytes_write_back, corners_have_names, file_names_are_of_one,
    names_are_of_one, samples_are_determined, samples_have_bytes, samples_read_back,
};
pub use name::{file_name, name_of, name_text};
pub use side::side_ok;

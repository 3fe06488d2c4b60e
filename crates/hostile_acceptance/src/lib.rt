//! Tests only, of hostile input: images of a disk that no store wrote, and lines that no client should send. The
//! expected result for an image is read from its bytes by the rules of the layout.
//!
//! A row of images has a sector, an index in it, the bytes written there, and the result of an opening:
//!
//! ```
//! (ROOT_A, 12, &[0xb2, 4], SMALL),                       // a larger side
//! ```
#![tactic(auto)]

#[cfg(test)]
mod answers;
#[cfg(test)]
mod asserting;
#[cfg(test)]
mod checking;
#[cfg(test)]
mod good_images;
#[cfg(test)]
mod image;
#[cfg(test)]
mod image_rows;
#[cfg(test)]
mod kept_planes;
#[cfg(test)]
mod line_rows;
#[cfg(test)]
mod mutations;
#[cfg(test)]
mod opening;
#[cfg(test)]
mod query_faults;
#[cfg(test)]
mod refused_growths;
#[cfg(test)]
mod served;
#[cfg(test)]
mod stopped_sessions;
#[cfg(test)]
mod stores;
#[cfg(test)]
mod version_2_rows;

//! Tests only, of the crates about terrain: points and tiles, heights, floods, directions, watersheds, and the plain
//! programs. The rows of `acceptance` test what lines can ask.
//!
//! A row says what it shows, what is asked, and the answer:
//!
//! ```
//! ("a void disagrees with a height", [(N00E000, K), (N00E001, H)], 1),
//! ```
#![tactic(auto)]

#[cfg(test)]
mod examples;
#[cfg(test)]
mod floods;
#[cfg(test)]
mod flow;
#[cfg(test)]
mod heights;
#[cfg(test)]
mod joins;
#[cfg(test)]
mod plain_programs;
#[cfg(test)]
mod plans;
#[cfg(test)]
mod points;
#[cfg(test)]
mod runs;
#[cfg(test)]
mod tile_files;
#[cfg(test)]
mod written;

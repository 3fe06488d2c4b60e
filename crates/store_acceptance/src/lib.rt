//! Tests only, of a store on disks in memory: its answers row by row, whole runs, stops and faults at each call, and
//! tiles of real size.
//!
//! A row of a stopped change has the store's capacity, the changes made before, and the change:
//!
//! ```
//! (2, &ONE_TILE, "import N00E001 $B"),                   // a second tile beside the first
//! ```
#![tactic(auto)]

#[cfg(test)]
mod change;
#[cfg(test)]
mod cuts;
#[cfg(test)]
mod examples;
#[cfg(test)]
mod fixtures;
#[cfg(test)]
mod real_tiles;
#[cfg(test)]
mod rows;
#[cfg(test)]
mod runs;
#[cfg(test)]
mod script;
#[cfg(test)]
mod standing;
#[cfg(test)]
mod steps;
#[cfg(test)]
mod stops;
#[cfg(test)]
mod two_sessions;
#[cfg(test)]
mod upgrades;
#[cfg(test)]
mod writes;

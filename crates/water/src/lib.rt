//! What an answer about water means: filled levels of a tile, the direction of a point, its flow path, its watershed as runs
//! of samples, and how many points drain through it. This crate has no algorithm.
//!
//! The layers above rely on this: each ground point of a mosaic has exactly one direction and one flow path. A set of points
//! has one list of runs. A point has one count, that of its watershed's runs.
#![tactic(auto)]

mod drainage_laws;
mod flow;
mod flow_source;
mod laws;
mod level_range;
mod part_laws;
mod run;

pub use drainage_laws::{
    directions_are_unique, flat_distances_are_unique, flow_paths_are_unique,
    watersheds_follow_flow_paths,
};
pub use flow::{Flow, back};
pub use flow_source::FlowSource;
pub use laws::{counts_are_of_watersheds, counts_are_unique, runs_are_unique};
pub use level_range::LevelRange;
pub use part_laws::{
    counts_follow_exits, flat_distances_follow_a_ring, flow_paths_follow_exits,
    levels_follow_a_ring, levels_follow_outlines,
};
pub use run::Run;

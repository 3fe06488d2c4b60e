//! The cache of flows: for samples of tiles, where their points drain.
//!
//! The layer above relies on this: a cached flow is right for the mosaic for which its tile was prepared. It stays right after
//! each height change that the layer reports. Such a change invalidates the blocks of 32 rows and columns in which a level may
//! change. It also invalidates the flows of samples in these blocks or next to them.
#![tactic(auto)]

mod block_ranges;
mod flow_cache;

pub use block_ranges::level_ranges;
pub use flow_cache::{FlowCache, MOST_FLOW_BYTES};

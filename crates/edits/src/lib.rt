//! Commands that change a mosaic, and their effects.
//!
//! The layer above rests on this: `edit_of` answers the effect of a command, or its refusal; `leaves_stale` says which
//! tiles the edit makes stale; `apply_edit` applies it to a table, whole or not at all. `plan` lists its changes.
//!
//! ```
//! let command = Command::Remove { corner };
//! let edit = edit_of(&mut table, 240, &command)?;        // NoTile where there is none
//! apply_edit(alloc, &edit, &mut table)?;
//! ```
#![tactic(auto)]

mod applying;
mod boxes;
mod change;
mod command;
mod edit;
mod heights;
mod laws;
mod listing;
mod neighbours;
mod places;
mod planning;
mod point_edit;
mod room;
mod sinks;
mod stale;
mod steps;
mod tiles;
mod void_tiles;

pub use applying::apply_edit;
pub use arrayvec::ArrayVec;
pub use change::{Change, TileSamples};
pub use command::{Bytes, Command};
pub use edit::{Edit, NewHeight, edit_of};
pub use laws::{
    boxes_have_void_points, commands_make_mosaics, fresh_blocks_stay, sinks_make_mosaics,
    stale_tiles_are_present, untouched_tiles_stay,
};
pub use neighbours::are_neighbours;
pub use planning::plan;
pub use sinks::{with_point, without_point};
pub use stale::leaves_stale;
pub use tiles::{can_import, can_remove};

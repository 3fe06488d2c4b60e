//! The program on files: its words, its subcommands, and how it ends.
//!
//! The layer above rests on this: `carry_out` opens, reads and makes only what the words ask for, does it to the store
//! on the disk, and writes and answers accordingly (`specs/Program.antt`). [`Arguments::parse`] answers what the words
//! ask for, and refuses them exactly if they ask for nothing.
//!
//! It also exports the parts that serve any engine (`serve`, `Engine`, `TableEngine`) and those that report a program's
//! result (`end_command` and others).
//!
//! ```
//! let mut places = FilePlaces::<Brand>::new(Files::new(&rt));
//! let status = program(rt.alloc(), &mut places, &words, &mut reader, &mut writer);
//! ```
#![tactic(auto)]

mod arguments;
mod commands;
mod disks;
mod exit;
mod file_runs;
mod files;
mod places;
mod reporting;

pub use arguments::{ArgumentFault, Arguments, has_option};
pub use commands::{Exit, carry_out, no_room, program, program_in, tell_fault};
pub use disks::{
    check_store, grow_and_upgrade, import_tile, make_store, serve_store, upgrade_store,
};
pub use engine::Engine;
pub use exit::{REFUSED, end_command, end_fault, end_session, refuse};
pub use file_runs::runs_compose;
pub use files::{FilePlaces, words};
pub use lines::Language;
pub use places::{Lengthen, MakeFault, Places, TileFault};
pub use serving::{CheckedWriter, Output, OutputFault, ServeFault, serve, serve_lines};
pub use table_engine::TableEngine;

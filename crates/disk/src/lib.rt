//! Disks of sectors of 4096 bytes, and what a stop (a power cut) may leave on them.
//!
//! The layers above are generic over [`Disk`]. For an honest disk its contract says what reads give, and which images a
//! stop may leave, now or at any moment since an earlier one. For every disk it counts failed calls and writes.
//! `specs/Stops.antt` has the definitions for runs of calls; `specs/FileCalls.antt` says what an honest file answers.
//!
//! ```
//! let mut disk = MemDisk::new(alloc, 16)?;
//! disk.write(4, &[7; 4096])?;                            // a stop now may leave any bytes in sector 4
//! disk.sync()?;                                          // from here on it leaves these
//! ```
#![tactic(auto)]

mod disk;
mod fault_once;
mod faulty;
mod file;
mod file_laws;
mod files;
mod fuse;
mod limit;
mod memory;
mod note;
mod sector;
mod sector_file;
mod snapshot;
mod tally;
mod torn;
mod transcript;
mod unsynced;
mod world;
mod writing_through;

pub use disk::{Disk, Fault};
pub use fault_once::{FaultOnceDisk, OneFault};
pub use faulty::{CallKind, Faults, FaultyDisk};
pub use file::FileDisk;
pub use file_laws::{
    disks_have_honest_records, false_reads_show, lost_writes_show, runs_have_honest_records,
};
pub use files::Files;
pub use fuse::{Fuse, FuseDisk};
pub use memory::MemDisk;
pub use snapshot::SnapshotFile;
pub use tally::{CountedDisk, Tally};
pub use torn::Torn;
pub use world::World;
pub use writing_through::write_through;

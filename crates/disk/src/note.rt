//! A note beside a file: it names a sector that may not have reached the drive.
use std::alloc::Global;
use std::fs::Metadata;
use std::io::{self, ErrorKind};
use std::os::unix::fs::MetadataExt;
use std::time::UNIX_EPOCH;

// This many letters of the boot id identify a start of the system. The link stays short enough to take no block.
const BOOT_LETTERS: usize = 18;

/// The file's real path, without links, and the paths of what may lie beside it.
#[derive(Drop)]
pub(crate) struct Names {
    pub(crate) file: String,
    pub(crate) note: String,
    pub(crate) log: String,
}

impl Names {
    pub(crate) fn beside(alloc: Global, path: &str) -> Option<Names> {
        Some(Names {
            file: String::from_str(alloc, path).ok()?,
            note: format!(in alloc; "{path}-unsynced").ok()?,
            log: format!(in alloc; "{path}-wal").ok()?,
        })
    }
}

/// Names the sector of a file that was written first since its last good sync, for the next opening.
///
/// A process may be killed inside a sync that fails. The system then calls the sector written, and only the note shows
/// that the drive may not have it. The note is a link `PATH-unsynced` that leads nowhere: its target names the sector,
/// the file and this start of the system. One call makes it, and it takes no block of the drive. It need not survive a
/// power cut, after which reads give what the drive has. A note that survives is of an earlier start, and doesn't
/// count.
///
/// The note names the file by its inode and, if the file system has it, its time of birth. A file that replaces it may
/// get the same inode.
#[derive(Drop)]
pub(crate) struct Note {
    // Identifies this file and this start of the system.
    seal: Option<String>,
    found: Found,
}

// What is at the note's path, as last known.
#[derive(Clone, Copy, PartialEq, Eq)]
enum Found {
    Nothing,
    OfThisFile,
    OfAnother,
}

impl Note {
    pub(crate) fn of_file(alloc: Global, file: &Metadata, boot: Option<String>) -> Note {
        Note {
            seal: seal_of(alloc, file, boot),
            found: Found::Nothing,
        }
    }

    /// The target of the link that names a sector.
    pub(crate) fn target(&self, alloc: Global, s: u32) -> Option<String> {
        let seal = self.seal.as_ref()?;
        format!(in alloc; "{s} {seal}").ok()
    }

    /// Records that the link was made.
    pub(crate) fn was_set(&mut self) {
        self.found = Found::OfThisFile;
    }

    /// The sector that a link with this target names. A note of another file or an earlier start names none; any other
    /// target isn't a note.
    pub(crate) fn read(&mut self, target: &str) -> Option<u32> {
        let (s, seal) = target.split_once(' ')?;
        let s = s.parse::<u32>().ok()?;
        if self.seal.as_ref()?.as_str() == seal {
            self.found = Found::OfThisFile;
            return Some(s);
        }
        self.found = Found::OfAnother;
        None
    }

    pub(crate) fn is_there(&self) -> bool {
        self.found != Found::Nothing
    }

    /// The result of removing the note. A note of another file or an earlier start may stay; that is no error.
    pub(crate) fn was_removed(&mut self, answer: io::Result<()>) -> io::Result<()> {
        match answer {
            Err(error) if error.kind() != ErrorKind::NotFound => match self.found {
                Found::OfAnother => Ok(()),
                _ => Err(error),
            },
            _ => {
                self.found = Found::Nothing;
                Ok(())
            }
        }
    }
}

fn seal_of(alloc: Global, file: &Metadata, boot: Option<String>) -> Option<String> {
    let boot = boot?;
    let boot = boot.as_str().get(..BOOT_LETTERS)?;
    format!(in alloc; "{} {:x} {boot}", file.ino(), made_at(file)).ok()
}

// When a file was made, in nanoseconds since 1970; 0 if unknown.
fn made_at(file: &Metadata) -> u128 {
    let Ok(made) = file.created() else {
        return 0;
    };
    match made.duration_since(UNIX_EPOCH) {
        Ok(since) => since.as_nanos(),
        Err(_) => 0,
    }
}

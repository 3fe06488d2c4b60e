//! How large the system lets files grow.
use std::io::{self, ErrorKind};

/// How large a file this process may write, in bytes (`ulimit -f`).
///
/// The system ends a process that needs more by a signal, which std can't turn off. So such a call is refused here. If
/// the limit can't be read, there is none.
#[derive(Clone, Copy)]
pub(crate) struct FileLimit {
    bytes: u64,
}

impl FileLimit {
    /// The limit in the system's table of this process's limits.
    pub(crate) fn in_table(limits: Option<String>) -> FileLimit {
        FileLimit {
            bytes: told_limit(limits).unwrap_or(u64::MAX),
        }
    }

    /// Refuses a call that needs more bytes than the limit.
    pub(crate) fn ask(self, bytes: u64) -> io::Result<()> {
        if bytes <= self.bytes {
            Ok(())
        } else {
            Err(io::Error::from(ErrorKind::FileTooLarge))
        }
    }
}

// The line has a name of three words, and then the limit; "unlimited" is no number.
fn told_limit(limits: Option<String>) -> Option<u64> {
    let limits = limits?;
    let line = limits
        .as_str()
        .lines()
        .find(|line| line.starts_with("Max file size"))?;
    line.split_whitespace().nth(3)?.parse().ok()
}

//! A writer that counts bytes and calls.
use std::io::{self, Write};

/// Accepts all bytes, and counts bytes and calls.
#[derive(Drop)]
pub(crate) struct Counting {
    pub(crate) bytes: usize,
    pub(crate) writes: u32,
}

impl Counting {
    pub(crate) fn new() -> Counting {
        Counting {
            bytes: 0,
            writes: 0,
        }
    }
}

impl Write for Counting {
    fn write(&mut self, buf: &[u8]) -> io::Result<usize> {
        self.bytes = self.bytes.saturating_add(buf.len());
        self.writes = self.writes.saturating_add(1);
        Ok(buf.len())
    }

    fn flush(&mut self) -> io::Result<()> {
        Ok(())
    }
}

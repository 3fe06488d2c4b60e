//! Makes any writer an output.
ghost use Rattle.std.specs.Prelude.{◌≡◌, false};
ghost use Rattle.catalogue.specs.Reading.{HasRisen};

use crate::output::{Output, OutputFault};
use std::io::Write;

/// A writer with its number of failed calls, and whether all written bytes were flushed.
#[derive(Drop)]
pub struct CheckedWriter<W> {
    writer: W,
    failures: u64,
    is_flushed: bool,
}

impl<W> CheckedWriter<W> {
    /// A writer without a failed call.
    pub fn new(writer: W) -> CheckedWriter<W>
        ensures { result ≡ record { writer = writer; failures = 0; is_flushed = false } }
    {
        CheckedWriter {
            writer,
            failures: 0,
            is_flushed: false,
        }
    }

    /// The writer, with all bytes written to it.
    pub fn into_inner(self) -> W
        ensures { result ≡ self.writer }
    {
        self.writer
    }

    /// Counts a failed call.
    fn note_failure(&mut self) -> OutputFault
        ensures writer { self.new.writer ≡ self.old.writer }
        ensures noted { HasRisen self.old.failures self.new.failures }
    {
        self.failures = self.failures.saturating_add(1);
        OutputFault
    }
}

impl<W: Write> Output for CheckedWriter<W> {
    ghost stream = { λ checked. record { contents = W.contents checked.writer; failures = checked.failures; is_flushed = checked.is_flushed } };

    fn has_failed(&self) -> bool {
        self.failures > 0
    }

    fn write(&mut self, bytes: &[u8]) -> Result<usize, OutputFault> {
        self.is_flushed = false;
        match self.writer.write(bytes) {
            Ok(count) if count > 0 => Ok(count),
            _ => Err(self.note_failure()),
        }
    }

    fn flush(&mut self) -> Result<(), OutputFault> {
        if self.writer.flush().is_err() {
            return Err(self.note_failure());
        }
        self.is_flushed = true;
        Ok(())
    }
}

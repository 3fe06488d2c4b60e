//! Where replies are written.
ghost use Rattle.std.specs.Prelude.{◌<◌, ◌↔◌, IsTrue, length};
ghost use Rattle.serving.specs.Outputs.{Flushes, HasFailed, Puts, Stream, Writes};
ghost use Rattle.serving.specs.Writing.{WritesAll};

use lines::{Rest, Text};

/// A write failed or took no byte, or a flush failed.
#[derive(Clone, Copy, Debug, PartialEq, Eq)]
pub struct OutputFault;

/// A writer that records whether a call of it has failed.
///
/// Only the calls `write` and `flush` change that record. So if a contract says that a call has failed, a call was made
/// and failed. If it says that all bytes were flushed, a flush was made since the last write.
pub trait Output {
    /// The bytes written, the number of failed calls, and whether all bytes were flushed.
    ghost stream: { Self → Stream };

    /// Whether any write or flush so far has failed.
    fn has_failed(&self) -> bool
        ensures { IsTrue result ↔ HasFailed (stream self.now) };

    /// Writes a prefix of these bytes by one call, and answers its length: at least one.
    fn write(&mut self, bytes: &[u8]) -> Result<usize, OutputFault>
        requires { 0 < length bytes.now }
        ensures { Writes (stream self.old) (stream self.new) result bytes.now };

    /// Flushes the written bytes, by one call.
    fn flush(&mut self) -> Result<(), OutputFault>
        ensures { Flushes (stream self.old) (stream self.new) result };

    /// Writes a text and then flushes. Each is tried once.
    final fn put(&mut self, text: &[u8])
    where
        Self: Sized,
        ensures { Puts (stream self.old) (stream self.new) text.now }
    {
        let _ = write_all(self, text);
        let _ = self.flush();
    }

    /// Writes a reply as [`Output::put`] writes a text.
    final fn put_reply(&mut self, reply: &Text)
    where
        Self: Sized,
        ensures { Puts (stream self.old) (stream self.new) reply.now }
    {
        let _ = write_reply(self, reply);
        let _ = self.flush();
    }
}

/// Writes all the bytes. After a fault a prefix of them was written.
fn write_all<O: Output>(output: &mut O, bytes: &[u8]) -> Result<(), OutputFault>
    ensures { WritesAll (O.stream output.old) (O.stream output.new) result bytes.now }
{
    let mut at = 0;
    while at < bytes.len() {
        at += output.write(&bytes[at..])?;
    }
    Ok(())
}

/// Writes a reply. The head and the text of a list are written in parts, the bytes of a tile by a separate call.
fn write_reply<O: Output>(output: &mut O, reply: &Text) -> Result<(), OutputFault>
    ensures { WritesAll (O.stream output.old) (O.stream output.new) result reply.now }
{
    let (rest, bytes) = reply.parts();
    write_rest(output, rest)?;
    write_all(output, bytes)
}

/// Writes the rest of a text, each part once it is made.
fn write_rest<O: Output>(output: &mut O, mut rest: Rest<'_>) -> Result<(), OutputFault>
    ensures { WritesAll (O.stream output.old) (O.stream output.new) result rest.entry }
{
    while !rest.is_made() {
        let part = rest.next_part();
        write_all(output, part.as_slice())?;
    }
    Ok(())
}

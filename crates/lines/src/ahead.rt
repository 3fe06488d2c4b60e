//! A buffer of bytes read ahead, with the only function that reads.
ghost use Rattle.std.specs.Prelude.{◌≡◌, ◌+◌, ◌-◌, ◌<◌, ◌≤◌, [], drop, length, OnOk, OnErr, take};
ghost use Rattle.std.specs.Io.KnownBytes.{IsAtEnd};
ghost use Rattle.lines.specs.Ahead.{Lookahead, lookahead_code, bytes_of, is_usable, Taken, weight};

use std::alloc::Global;
use std::io::Read;
use std::marker::Model;

/// The number of bytes that a read asks for.
const CHUNK: usize = 65_536;

/// The number of bytes that a read asks for if memory for a chunk was refused.
const SPARE: usize = 512;

/// A read failed, or the limit of reads was reached.
#[derive(Clone, Copy, Debug, PartialEq, Eq)]
pub struct ReadFault;

/// The memory that reads fill: on the heap, or a small array if memory was refused.
#[derive(Drop)]
enum Room {
    Heap(Vec<u8>),
    Inline([u8; SPARE]),
}

/// A chunk on the heap: a large local would cost time in each call.
fn chunk_of_room(alloc: Global) -> Room
    ensures { is_usable (length (bytes_of result)) }
{
    let mut bytes = Vec::new(alloc);
    match bytes.resize(CHUNK, 0) {
        Ok(()) => Room::Heap(bytes),
        Err(_) => Room::Inline([0; SPARE]),
    }
}

/// Bytes read and not yet taken, and the number of reads that may still be made.
#[derive(Drop)]
pub struct Ahead {
    room: Room,
    start: usize,
    end: usize,
    reads: u64,
}

impl Model for Ahead {
    ghost Value = { Lookahead };

    ghost coded = { lookahead_code };

    ghost view = { λ a. record { bytes = drop a.start (take a.end (bytes_of a.room)); given = a.end; reads = a.reads } };

    ghost invariant = { λ a. (a.start ≤ a.end) × (a.end ≤ length (bytes_of a.room))
        × is_usable (length (bytes_of a.room)) };
}

impl Ahead {
    /// An empty buffer; 2^64 - 1 reads may be made.
    pub fn new(alloc: Global) -> Ahead
        ensures bytes { result.bytes ≡ [] }
        ensures given { result.given ≡ 0 }
        ensures reads { result.reads ≡ 18446744073709551615 }
    {
        Ahead {
            room: chunk_of_room(alloc),
            start: 0,
            end: 0,
            reads: u64::MAX,
        }
    }

    /// The buffered bytes.
    pub(crate) fn bytes(&self) -> &[u8]
        ensures value { result.now ≡ self.now.bytes }
        ensures chunk { length result.now ≤ CHUNK }
        ensures given { length result.now ≤ self.now.given }
    {
        match &self.room {
            Room::Heap(bytes) => &bytes[self.start..self.end],
            Room::Inline(bytes) => &bytes[self.start..self.end],
        }
    }

    /// Takes the first bytes from the buffer.
    pub(crate) fn take(&mut self, count: usize)
        requires { count ≤ length self.old.bytes }
        ensures bytes { self.new.bytes ≡ drop count self.old.bytes }
        ensures given { self.new.given ≡ self.old.given }
        ensures spent { weight self.new + count ≡ weight self.old }
    {
        self.start += count;
    }

    /// Reads once into an empty buffer. The buffer is empty afterwards only at the end of the input. No other function
    /// reads.
    fn fill<R: Read>(&mut self, reader: &mut R) -> Result<(), ReadFault>
        requires { self.old.bytes ≡ [] }
        ensures taken { Taken self.old (R.remaining reader.old) self.new (R.remaining reader.new) [] }
        ensures end { OnOk result (self.new.bytes ≡ [] → IsAtEnd (R.remaining reader.new)) }
        ensures given { self.new.given ≡ length self.new.bytes }
        ensures one_less { self.new.reads ≡ self.old.reads - 1 }
        ensures spent { OnOk result (weight self.new < weight self.old) }
        ensures err { OnErr result (self.new.bytes ≡ []) }
    {
        self.start = 0;
        self.end = 0;
        if self.reads == 0 {
            return Err(ReadFault);
        }
        self.reads -= 1;
        let read = match &mut self.room {
            Room::Heap(bytes) => reader.read(bytes.as_mut_slice()),
            Room::Inline(bytes) => reader.read(bytes),
        };
        match read {
            Ok(count) => {
                self.end = count;
                Ok(())
            }
            Err(_) => Err(ReadFault),
        }
    }

    /// Reads once if the buffer is empty. It is empty afterwards only at the end of the input.
    pub(crate) fn make_ready<R: Read>(&mut self, reader: &mut R) -> Result<(), ReadFault>
        ensures taken { Taken self.old (R.remaining reader.old) self.new (R.remaining reader.new) [] }
        ensures end { OnOk result (self.new.bytes ≡ [] → IsAtEnd (R.remaining reader.new)) }
        ensures kept { OnOk result (weight self.new ≤ weight self.old) }
        ensures spent { OnOk result (self.new.bytes ≡ [] → weight self.new < weight self.old) }
        ensures err { OnErr result (self.new.bytes ≡ []) }
        ensures given { length self.new.bytes ≤ self.new.given }
    {
        if self.bytes().is_empty() {
            self.fill(reader)?;
        }
        Ok(())
    }
}

//! Takes lines and payloads out of the buffer of bytes read ahead.
//!
//! One fact runs through this module: the bytes taken, the bytes in the buffer and the reader's remaining bytes make up
//! the reader's input. A read gives any number of bytes, so a line or a payload may end anywhere in a read.
ghost use Rattle.std.specs.Prelude.{◌≡◌, ◌+◌, ◌-◌, ◌<◌, ◌≤◌, ℕ, List, [], ◌++◌, drop, length, OnOk, OnErr, IfOk, IfSome, Ok, Option, Some, None, MatchOption, take, vec_len, vec_capacity, if◌then◌else◌, IsTrue, ◌↔◌};
ghost use Rattle.std.specs.Io.KnownBytes.{IsAtEnd};
ghost use Rattle.lines.specs.Ahead.{IsRest, Taken, weight};
ghost use Rattle.lines.specs.Lines.{IsLine, kept, line_code, line_feed, Reaches};

use crate::ahead::{Ahead, ReadFault};
use crate::bytes::place_of;
use arrayvec::ArrayVec;
use std::io::Read;
use std::marker::Model;

/// The longest line, without its LF.
const LONGEST_LINE: usize = 2048;

/// Whether a line has its LF and a payload all its bytes, or the end of the input cut it short.
#[derive(Clone, Copy, Debug, PartialEq, Eq)]
pub enum Extent {
    Whole,
    Cut,
}

/// The bytes of a line so far, or that it is too long.
#[derive(Drop)]
pub struct Line {
    bytes: ArrayVec<u8, LONGEST_LINE>,
    is_long: bool,
}

impl Model for Line {
    ghost Value = { Option (List ℕ) };

    ghost coded = { line_code };

    ghost view = { λ l. if l.is_long then None else Some l.bytes.items };
}

impl Line {
    /// An empty line.
    pub fn new() -> Line
        ensures { result ≡ Some [] }
    {
        Line {
            bytes: ArrayVec::new(),
            is_long: false,
        }
    }

    /// The line's bytes without its LF, unless there are more than 2048.
    pub fn bytes(&self) -> Option<&[u8]>
        ensures value { MatchOption result (self.now ≡ None) (λ bytes. self.now ≡ Some bytes.now) }
        ensures short { IfSome result (λ bytes. length bytes.now ≤ LONGEST_LINE) }
    {
        if self.is_long {
            None
        } else {
            Some(self.bytes.as_slice())
        }
    }

    /// Whether the line has no byte.
    pub fn is_empty(&self) -> bool
        ensures { (text : List ℕ) → self.now ≡ kept text → IsTrue result ↔ (text ≡ []) }
    {
        !self.is_long && self.bytes.is_empty()
    }

    /// Empties the line.
    fn clear(&mut self)
        ensures { self.new ≡ kept [] }
    {
        self.is_long = false;
        self.bytes.clear();
    }

    /// Appends these bytes to the line.
    fn extend(&mut self, more: &[u8])
        ensures { (text : List ℕ) → self.old ≡ kept text → self.new ≡ kept (text ++ more.now) }
    {
        if self.bytes.try_extend_from_slice(more).is_err() {
            self.is_long = true;
        }
    }
}

/// Reads a line. An empty cut line means that there was none. After a fault a part of the line was taken and the buffer
/// is empty. After the line's LF no further read is made: the buffer then has the rest of the read that gave the LF.
pub fn read_line<R: Read>(
    ahead: &mut Ahead,
    reader: &mut R,
    line: &mut Line,
) -> Result<Extent, ReadFault>
    ensures ok { IfOk result (λ extent. (text : List ℕ) × IsLine text × (line.new ≡ kept text)
        × Taken ahead.old (R.remaining reader.old) ahead.new (R.remaining reader.new) (text ++ line_feed extent)) }
    ensures cut { result ≡ Ok Extent.Cut
        → (ahead.new.bytes ≡ []) × IsAtEnd (R.remaining reader.new) }
    ensures rest { result ≡ Ok Extent.Whole → IsRest ahead.new }
    ensures spent { OnOk result (weight ahead.new < weight ahead.old) }
    ensures err { OnErr result ((text : List ℕ) × IsLine text
        × Taken ahead.old (R.remaining reader.old) ahead.new (R.remaining reader.new) text) }
    ensures none_ahead { OnErr result (ahead.new.bytes ≡ []) }
{
    line.clear();
    loop {
        ahead.make_ready(reader)?;
        let bytes = ahead.bytes();
        if bytes.is_empty() {
            return Ok(Extent::Cut);
        }
        match place_of(b'\n', bytes) {
            Some(end) => {
                line.extend(&bytes[..end]);
                ahead.take(end + 1);
                return Ok(Extent::Whole);
            }
            None => {
                line.extend(bytes);
                let count = bytes.len();
                ahead.take(count);
            }
        }
    }
}

/// Reads a payload of this length into the vector, which has room for it. After a fault a part of it was taken and the
/// buffer is empty. After its last byte no further read is made.
pub fn read_payload<R: Read>(
    ahead: &mut Ahead,
    reader: &mut R,
    len: usize,
    payload: &mut Vec<u8>,
) -> Result<Extent, ReadFault>
    requires empty { vec_len payload.old ≡ 0 }
    requires room { len ≤ vec_capacity payload.old }
    ensures ok { IfOk result (λ extent. Reaches extent (vec_len payload.new) len
        × Taken ahead.old (R.remaining reader.old) ahead.new (R.remaining reader.new) payload.new.items) }
    ensures cut { result ≡ Ok Extent.Cut
        → (ahead.new.bytes ≡ []) × IsAtEnd (R.remaining reader.new) }
    ensures rest { result ≡ Ok Extent.Whole → 0 < len → IsRest ahead.new }
    ensures spent { OnOk result (weight ahead.new ≤ weight ahead.old) }
    ensures err { OnErr result ((vec_len payload.new < len)
        × Taken ahead.old (R.remaining reader.old) ahead.new (R.remaining reader.new) payload.new.items) }
    ensures none_ahead { OnErr result (ahead.new.bytes ≡ []) }
{
    while payload.len() < len {
        ahead.make_ready(reader)?;
        let bytes = ahead.bytes();
        if bytes.is_empty() {
            return Ok(Extent::Cut);
        }
        let count = bytes.len().min(len - payload.len());
        let _ = payload.extend_from_slice(&bytes[..count]);
        ahead.take(count);
    }
    Ok(Extent::Whole)
}

/// Reads a payload of this length and discards it. After a fault a part of it was taken and the buffer is empty. After
/// its last byte no further read is made.
pub fn skip_payload<R: Read>(
    ahead: &mut Ahead,
    reader: &mut R,
    len: usize,
) -> Result<Extent, ReadFault>
    ensures ok { IfOk result (λ extent. (bytes : List ℕ) × Reaches extent (length bytes) len
        × Taken ahead.old (R.remaining reader.old) ahead.new (R.remaining reader.new) bytes) }
    ensures cut { result ≡ Ok Extent.Cut
        → (ahead.new.bytes ≡ []) × IsAtEnd (R.remaining reader.new) }
    ensures rest { result ≡ Ok Extent.Whole → 0 < len → IsRest ahead.new }
    ensures spent { OnOk result (weight ahead.new ≤ weight ahead.old) }
    ensures err { OnErr result ((bytes : List ℕ) × (length bytes < len)
        × Taken ahead.old (R.remaining reader.old) ahead.new (R.remaining reader.new) bytes) }
    ensures none_ahead { OnErr result (ahead.new.bytes ≡ []) }
{
    let mut missing = len;
    while missing > 0 {
        ahead.make_ready(reader)?;
        let bytes = ahead.bytes();
        if bytes.is_empty() {
            return Ok(Extent::Cut);
        }
        let count = bytes.len().min(missing);
        ahead.take(count);
        missing -= count;
    }
    Ok(Extent::Whole)
}

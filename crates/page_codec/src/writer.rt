//! Writes bytes from the front on.
ghost use Rattle.std.specs.Prelude.{◌≡◌, ◌+◌, ◌≤◌, [], ◌++◌, length};
ghost use Rattle.page_codec.specs.Numbers.{i16_bytes, i32_bytes, u32_bytes, u64_bytes, padded};

use byteorder::{ByteOrder, LittleEndian};
use std::marker::Model;

/// `N` bytes: those at the front are written, the others are still zero.
#[derive(Drop)]
pub(crate) struct Writer<const N: usize> {
    bytes: [u8; N],
    end: usize,
}

impl<const N: usize> Model for Writer<N> {
    ghost use Rattle.std.specs.Prelude.{◌≡◌, ◌≤◌, ℕ, List, take};
    ghost use Rattle.page_codec.specs.Numbers.{padded};

    ghost Value = { List ℕ };

    ghost view = { λ w. take w.end w.bytes };

    ghost invariant = { λ w. (w.end ≤ N) × (w.bytes ≡ padded N (take w.end w.bytes)) };
}

impl<const N: usize> Writer<N> {
    /// `N` zeros, before any write.
    pub(crate) fn new() -> Self
        ensures bytes { result ≡ [] }
        ensures len { length result ≡ 0 }
    {
        Writer {
            bytes: [0; N],
            end: 0,
        }
    }

    pub(crate) fn put(&mut self, field: &[u8])
        requires { length self.old + length field.now ≤ N }
        ensures bytes { self.new ≡ self.old ++ field.now }
        ensures len { length self.new ≡ length self.old + length field.now }
    {
        let next = self.end + field.len();
        let bytes = &mut self.bytes[..];
        bytes[self.end..next].copy_from_slice(field);
        self.end = next;
    }

    #[tactic(auto, unfolding(crate::specs::Numbers::i16_bytes))]
    pub(crate) fn put_i16(&mut self, number: i16)
        requires { length self.old + 2 ≤ N }
        ensures bytes { self.new ≡ self.old ++ i16_bytes number }
        ensures len { length self.new ≡ length self.old + 2 }
    {
        let mut field = [0; 2];
        LittleEndian::write_i16(&mut field, number);
        self.put(&field);
    }

    #[tactic(auto, unfolding(crate::specs::Numbers::i32_bytes))]
    pub(crate) fn put_i32(&mut self, number: i32)
        requires { length self.old + 4 ≤ N }
        ensures bytes { self.new ≡ self.old ++ i32_bytes number }
        ensures len { length self.new ≡ length self.old + 4 }
    {
        let mut field = [0; 4];
        LittleEndian::write_i32(&mut field, number);
        self.put(&field);
    }

    #[tactic(auto, unfolding(crate::specs::Numbers::u32_bytes))]
    pub(crate) fn put_u32(&mut self, number: u32)
        requires { length self.old + 4 ≤ N }
        ensures bytes { self.new ≡ self.old ++ u32_bytes number }
        ensures len { length self.new ≡ length self.old + 4 }
    {
        let mut field = [0; 4];
        LittleEndian::write_u32(&mut field, number);
        self.put(&field);
    }

    #[tactic(auto, unfolding(crate::specs::Numbers::u64_bytes))]
    pub(crate) fn put_u64(&mut self, number: u64)
        requires { length self.old + 8 ≤ N }
        ensures bytes { self.new ≡ self.old ++ u64_bytes number }
        ensures len { length self.new ≡ length self.old + 8 }
    {
        let mut field = [0; 8];
        LittleEndian::write_u64(&mut field, number);
        self.put(&field);
    }

    /// The written bytes, padded with zeros.
    pub(crate) fn finish(self) -> [u8; N]
        ensures { result ≡ padded N self.entry }
    {
        self.bytes
    }
}

//! Numbers at the front of bytes, the least significant byte first.
ghost use Rattle.std.specs.Prelude.{◌≡◌, ◌+◌, ◌≤◌, ◌++◌, length};
ghost use Rattle.page_codec.specs.Numbers.{i16_bytes, i32_bytes, u32_bytes, u64_bytes, is_all_zero};

use byteorder::{ByteOrder, LittleEndian};

/// The number at the front, and the bytes after it.
#[tactic(auto, unfolding(crate::specs::Numbers::i16_bytes))]
pub(crate) fn split_i16(bytes: &[u8]) -> (i16, &[u8])
    requires { 2 ≤ length bytes.now }
    ensures parts { bytes.now ≡ i16_bytes result.0 ++ result.1.now }
    ensures rest { length result.1.now + 2 ≡ length bytes.now }
{
    (LittleEndian::read_i16(bytes), &bytes[2..])
}

/// The number at the front, and the bytes after it.
#[tactic(auto, unfolding(crate::specs::Numbers::i32_bytes))]
pub(crate) fn split_i32(bytes: &[u8]) -> (i32, &[u8])
    requires { 4 ≤ length bytes.now }
    ensures parts { bytes.now ≡ i32_bytes result.0 ++ result.1.now }
    ensures rest { length result.1.now + 4 ≡ length bytes.now }
{
    (LittleEndian::read_i32(bytes), &bytes[4..])
}

/// The number at the front, and the bytes after it.
#[tactic(auto, unfolding(crate::specs::Numbers::u32_bytes))]
pub(crate) fn split_u32(bytes: &[u8]) -> (u32, &[u8])
    requires { 4 ≤ length bytes.now }
    ensures parts { bytes.now ≡ u32_bytes result.0 ++ result.1.now }
    ensures rest { length result.1.now + 4 ≡ length bytes.now }
{
    (LittleEndian::read_u32(bytes), &bytes[4..])
}

/// The number at the front, and the bytes after it.
#[tactic(auto, unfolding(crate::specs::Numbers::u64_bytes))]
pub(crate) fn split_u64(bytes: &[u8]) -> (u64, &[u8])
    requires { 8 ≤ length bytes.now }
    ensures parts { bytes.now ≡ u64_bytes result.0 ++ result.1.now }
    ensures rest { length result.1.now + 8 ≡ length bytes.now }
{
    (LittleEndian::read_u64(bytes), &bytes[8..])
}

/// Whether all bytes are zero.
pub(crate) fn is_zero(bytes: &[u8]) -> bool
    ensures { result ≡ is_all_zero bytes.now }
{
    bytes.iter().all(|byte| *byte == 0)
}

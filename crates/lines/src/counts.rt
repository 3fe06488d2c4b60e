//! Counts as bytes.
ghost use Rattle.std.specs.Prelude.{◌≡◌, ◌*◌, IfOk, length};
ghost use Rattle.lines.specs.Replies.{count_bytes};

use byteorder::{BigEndian, ByteOrder};
use std::alloc::{AllocError, Global};

/// Each count as four bytes, big-endian.
pub fn count_bytes(alloc: Global, counts: &[u32]) -> Result<Vec<u8>, AllocError>
    ensures { IfOk result (λ bytes. bytes.items ≡ count_bytes counts.now) }
{
    let mut bytes = vec![in alloc; 0; 4 * counts.len()]?;
    write_counts(counts, &mut bytes);
    Ok(bytes)
}

fn write_counts(counts: &[u32], bytes: &mut [u8])
    requires { length bytes.old ≡ 4 * length counts.now }
    ensures { bytes.new ≡ count_bytes counts.now }
{
    BigEndian::write_u32_into(counts, bytes);
}

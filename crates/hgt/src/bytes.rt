//! Samples and their bytes.
ghost use Rattle.std.specs.Prelude.{◌≡◌, ◌≢◌, ◌↔◌, ◌+◌, ◌*◌, ◌<◌, ◌⊎◌, ℤ, IfOk, IfErr, length, slice_index, slice_index_or, slice_set};
ghost use Rattle.hgt.specs.Bytes.{AreHgtBytes, sample_of, samples_in, hgt_bytes, high_byte, low_byte};

use byteorder::{BigEndian, ByteOrder};
use lattice::{Refusal, Side};
use std::alloc::{AllocError, Global};

/// Sample `i` of HGT bytes, in metres; -32768 is a void.
pub fn sample(bytes: &[u8], i: usize) -> i16
    requires { 2 * i + 1 < length bytes.now }
    ensures value { result ≡ sample_of (slice_index bytes.now (2 * i)) (slice_index bytes.now (2 * i + 1)) }
    ensures listed { (d : ℤ) → slice_index_or (samples_in bytes.now) i d ≡ result }
{
    BigEndian::read_i16(&bytes[2 * i..])
}

/// Writes sample `i` of HGT bytes.
pub fn put_sample(bytes: &mut [u8], i: usize, sample: i16)
    requires { 2 * i + 1 < length bytes.old }
    ensures bytes { bytes.new ≡ slice_set (slice_set bytes.old (2 * i) (high_byte sample)) (2 * i + 1) (low_byte sample) }
    ensures samples { samples_in bytes.new ≡ slice_set (samples_in bytes.old) i sample }
{
    let [high, low] = sample.cast_unsigned().to_be_bytes();
    bytes[2 * i] = high;
    bytes[2 * i + 1] = low;
}

/// The samples of a tile of this side from its HGT bytes: rows from north to south, in a row from west to east. Bytes
/// of a length other than two for each sample are `BadLength`. `NoMemory` is the only other refusal.
pub fn samples(alloc: Global, bytes: &[u8], side: Side) -> Result<Vec<i16>, Refusal>
    ensures value { IfOk result (λ samples. samples.items ≡ samples_in bytes.now) }
    ensures hgt { IfOk result (λ samples. AreHgtBytes side bytes.now samples.items) }
    ensures bad_length { (result ≡ Err Refusal.BadLength) ↔ (length bytes.now ≢ 2 * (side * side)) }
    ensures err { IfErr result (λ r. (r ≡ Refusal.BadLength) ⊎ (r ≡ Refusal.NoMemory)) }
{
    if bytes.len() != side.file_bytes() as usize {
        return Err(Refusal::BadLength);
    }
    let mut samples = vec![in alloc; 0; side.area() as usize]?;
    read_samples(bytes, &mut samples);
    Ok(samples)
}

/// The HGT bytes of the samples.
pub fn bytes_of(alloc: Global, samples: &[i16]) -> Result<Vec<u8>, AllocError>
    ensures { IfOk result (λ bytes. bytes.items ≡ hgt_bytes samples.now) }
{
    let mut bytes = vec![in alloc; 0; 2 * samples.len()]?;
    write_samples(samples, &mut bytes);
    Ok(bytes)
}

/// Fills `samples` from the HGT bytes.
pub fn read_samples(bytes: &[u8], samples: &mut [i16])
    requires { length bytes.now ≡ 2 * length samples.old }
    ensures { samples.new ≡ samples_in bytes.now }
{
    BigEndian::read_i16_into(bytes, samples);
}

/// Fills `bytes` with the HGT bytes of the samples.
pub fn write_samples(samples: &[i16], bytes: &mut [u8])
    requires { length bytes.old ≡ 2 * length samples.now }
    ensures { bytes.new ≡ hgt_bytes samples.now }
{
    BigEndian::write_i16_into(samples, bytes);
}

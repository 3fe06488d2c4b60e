//! Converts levels and labels to bytes and back.
ghost use Rattle.std.specs.Prelude.{◌≡◌, ◌*◌, ◌<◌, ◌∷◌, [], ℕ, IfOk, length, vec_len};
ghost use Rattle.tile_flood.specs.Kept.{labels_in, levels_in};

use byteorder::{ByteOrder, LittleEndian};
use lattice::{labels_in_range, samples_in_range};
use std::alloc::{AllocError, Global};

/// The bytes that store these levels.
pub(crate) fn level_bytes(alloc: Global, levels: &[i16]) -> Result<Vec<u8>, AllocError>
    ensures levels { IfOk result (λ bytes. levels_in bytes.items ≡ levels.now) }
    ensures len { IfOk result (λ bytes. vec_len bytes ≡ 2 * length levels.now) }
{
    let mut bytes = vec![in alloc; 0; 2 * levels.len()]?;
    write_levels(levels, &mut bytes);
    Ok(bytes)
}

/// The bytes that store these labels.
pub(crate) fn label_bytes(alloc: Global, labels: &[u16]) -> Result<Vec<u8>, AllocError>
    ensures labels { IfOk result (λ bytes. labels_in bytes.items ≡ labels.now) }
    ensures len { IfOk result (λ bytes. vec_len bytes ≡ 2 * length labels.now) }
{
    let mut bytes = vec![in alloc; 0; 2 * labels.len()]?;
    write_labels(labels, &mut bytes);
    Ok(bytes)
}

/// The levels that these bytes store.
pub(crate) fn levels_from(alloc: Global, bytes: &[u8]) -> Result<Vec<i16>, AllocError>
    requires { (n : ℕ) × (length bytes.now ≡ 2 * n) }
    ensures { IfOk result (λ levels. levels.items ≡ levels_in bytes.now) }
{
    let mut levels = vec![in alloc; 0; bytes.len() / 2]?;
    fill_levels(bytes, &mut levels);
    Ok(levels)
}

/// The labels that these bytes store.
pub(crate) fn labels_from(alloc: Global, bytes: &[u8]) -> Result<Vec<u16>, AllocError>
    requires { (n : ℕ) × (length bytes.now ≡ 2 * n) }
    ensures { IfOk result (λ labels. labels.items ≡ labels_in bytes.now) }
{
    let mut labels = vec![in alloc; 0; bytes.len() / 2]?;
    fill_labels(bytes, &mut labels);
    Ok(labels)
}

/// The level that these two bytes store.
pub(crate) fn level_from(bytes: &[u8; 2]) -> i16
    ensures { levels_in bytes.now ≡ result ∷ [] }
{
    let mut levels = [0];
    fill_levels(bytes, &mut levels);
    levels[0]
}

/// The label that these two bytes store.
pub(crate) fn label_from(bytes: &[u8; 2]) -> u16
    ensures { labels_in bytes.now ≡ result ∷ [] }
{
    let mut labels = [0];
    fill_labels(bytes, &mut labels);
    labels[0]
}

fn write_levels(levels: &[i16], bytes: &mut [u8])
    requires { length bytes.old ≡ 2 * length levels.now }
    ensures { levels_in bytes.new ≡ levels.now }
{
    samples_in_range(levels);
    LittleEndian::write_i16_into(levels, bytes);
}

fn write_labels(labels: &[u16], bytes: &mut [u8])
    requires { length bytes.old ≡ 2 * length labels.now }
    ensures { labels_in bytes.new ≡ labels.now }
{
    labels_in_range(labels);
    LittleEndian::write_u16_into(labels, bytes);
}

fn fill_levels(bytes: &[u8], levels: &mut [i16])
    requires { length bytes.now ≡ 2 * length levels.old }
    ensures { levels.new ≡ levels_in bytes.now }
{
    LittleEndian::read_i16_into(bytes, levels);
}

fn fill_labels(bytes: &[u8], labels: &mut [u16])
    requires { length bytes.now ≡ 2 * length labels.old }
    ensures { labels.new ≡ labels_in bytes.now }
{
    LittleEndian::read_u16_into(bytes, labels);
}

//! Tiles for tests: the bytes of their HGT files, two for each sample, big-endian, rows from the north; texts in which
//! `$` and a letter mean a tile; and comparisons that name their row. No contract is about them.
//!
//! ```
//! let item = expand(alloc, "import N00E000 $A")?;        // "import N00E000 18", an LF, and 9 9 9 / 9 1 9 / 9 9 5
//! let (line, payload) = split_payload(&item);
//! ```
#![tactic(auto)]

mod comparing;

pub use comparing::{check_all, check_found, check_row};
use std::alloc::{AllocError, Global};

/// A pit that drains to the south-eastern corner: 9 9 9 / 9 1 9 / 9 9 5.
pub const A: [u8; 18] = [0, 9, 0, 9, 0, 9, 0, 9, 0, 1, 0, 9, 0, 9, 0, 9, 0, 5];

/// The samples of A.
pub const A_SAMPLES: [i16; 9] = [9, 9, 9, 9, 1, 9, 9, 9, 5];

/// A valley that opens to the east: 9 9 9 / 9 1 1 / 9 9 9.
pub const B: [u8; 18] = [0, 9, 0, 9, 0, 9, 0, 9, 0, 1, 0, 1, 0, 9, 0, 9, 0, 9];

/// A valley that opens to the west, and ends higher: 9 9 9 / 1 1 3 / 9 9 9.
pub const C: [u8; 18] = [0, 9, 0, 9, 0, 9, 0, 1, 0, 1, 0, 3, 0, 9, 0, 9, 0, 9];

/// A valley from edge to edge: 9 9 9 / 1 1 1 / 9 9 9.
pub const D: [u8; 18] = [0, 9, 0, 9, 0, 9, 0, 1, 0, 1, 0, 1, 0, 9, 0, 9, 0, 9];

/// A notch in the eastern edge: 9 9 9 / 9 9 7 / 9 9 9.
pub const G: [u8; 18] = [0, 9, 0, 9, 0, 9, 0, 9, 0, 9, 0, 7, 0, 9, 0, 9, 0, 9];

/// A notch in the western edge: 9 9 9 / 8 9 9 / 9 9 9. If G is to the west of H, they disagree there.
pub const H: [u8; 18] = [0, 9, 0, 9, 0, 9, 0, 8, 0, 9, 0, 9, 0, 9, 0, 9, 0, 9];

/// A void on the eastern edge: 9 9 9 / 9 9 void / 9 9 9.
pub const K: [u8; 18] = [0, 9, 0, 9, 0, 9, 0, 9, 0, 9, 128, 0, 0, 9, 0, 9, 0, 9];

/// A void in the middle: 9 9 9 / 9 void 9 / 9 9 9.
pub const V: [u8; 18] = [0, 9, 0, 9, 0, 9, 0, 9, 128, 0, 0, 9, 0, 9, 0, 9, 0, 9];

/// V after it was patched with 4: 9 9 9 / 9 4 9 / 9 9 9.
pub const P: [u8; 18] = [0, 9, 0, 9, 0, 9, 0, 9, 0, 4, 0, 9, 0, 9, 0, 9, 0, 9];

/// A middle below the sea: 9 9 9 / 9 -1 9 / 9 9 9.
pub const M: [u8; 18] = [0, 9, 0, 9, 0, 9, 0, 9, 255, 255, 0, 9, 0, 9, 0, 9, 0, 9];

/// A middle at the height of the sea: 9 9 9 / 9 0 9 / 9 9 9.
pub const Z: [u8; 18] = [0, 9, 0, 9, 0, 9, 0, 9, 0, 0, 0, 9, 0, 9, 0, 9, 0, 9];

/// Flat: 5 5 5 / 5 5 5 / 5 5 5.
pub const F: [u8; 18] = [0, 5, 0, 5, 0, 5, 0, 5, 0, 5, 0, 5, 0, 5, 0, 5, 0, 5];

/// Flat, and higher: 9 9 9 / 9 9 9 / 9 9 9.
pub const E: [u8; 18] = [0, 9, 0, 9, 0, 9, 0, 9, 0, 9, 0, 9, 0, 9, 0, 9, 0, 9];

/// Flat, and lower: 1 1 1 / 1 1 1 / 1 1 1.
pub const O: [u8; 18] = [0, 1, 0, 1, 0, 1, 0, 1, 0, 1, 0, 1, 0, 1, 0, 1, 0, 1];

/// A middle that drains to the east: a drop of 10 along a diagonal is less steep than one of 8: 20 20 20 / 20 10 2 / 20 20 0.
pub const S: [u8; 18] = [0, 20, 0, 20, 0, 20, 0, 20, 0, 10, 0, 2, 0, 20, 0, 20, 0, 0];

/// A middle that drains to the south-east: a drop of 10 along a diagonal is steeper than one of 7: 20 20 20 / 20 10 3 / 20 20 0.
pub const T: [u8; 18] = [0, 20, 0, 20, 0, 20, 0, 20, 0, 10, 0, 3, 0, 20, 0, 20, 0, 0];

/// A void on the western edge, and an outlet next to it: 9 9 9 / void 5 3 / 9 9 9.
pub const L: [u8; 18] = [0, 9, 0, 9, 0, 9, 128, 0, 0, 5, 0, 3, 0, 9, 0, 9, 0, 9];

/// A notch as deep as the eastern edge of L: 9 9 9 / 3 9 9 / 9 9 9.
pub const R: [u8; 18] = [0, 9, 0, 9, 0, 9, 0, 3, 0, 9, 0, 9, 0, 9, 0, 9, 0, 9];

/// Voids in a corner, in the middle and on the eastern edge: void 9 9 / 9 void void / 9 9 9.
pub const I: [u8; 18] = [128, 0, 0, 9, 0, 9, 0, 9, 128, 0, 128, 0, 0, 9, 0, 9, 0, 9];

/// A void on the western edge: 9 9 9 / void 9 9 / 9 9 9.
pub const J: [u8; 18] = [0, 9, 0, 9, 0, 9, 128, 0, 0, 9, 0, 9, 0, 9, 0, 9, 0, 9];

/// I after its two southern rows were patched with 5: void 9 9 / 9 5 5 / 9 9 9.
pub const X: [u8; 18] = [128, 0, 0, 9, 0, 9, 0, 9, 0, 5, 0, 5, 0, 9, 0, 9, 0, 9];

/// J after it was patched with 5: 9 9 9 / 5 9 9 / 9 9 9.
pub const Y: [u8; 18] = [0, 9, 0, 9, 0, 9, 0, 5, 0, 9, 0, 9, 0, 9, 0, 9, 0, 9];

/// Of side 4: a bowl that drains to the south-eastern corner: 9 9 9 9 / 9 1 1 9 / 9 1 1 9 / 9 9 9 5.
pub const U: [u8; 32] = [
    0, 9, 0, 9, 0, 9, 0, 9, 0, 9, 0, 1, 0, 1, 0, 9, 0, 9, 0, 1, 0, 1, 0, 9, 0, 9, 0, 9, 0, 9, 0, 5,
];

/// Of side 5: outlets next to a void: 9 9 9 9 9 / 9 5 void 9 9 / 9 9 9 3 9 / 9 9 1 9 9 / 9 9 9 9 9.
pub const W: [u8; 50] = [
    0, 9, 0, 9, 0, 9, 0, 9, 0, 9, 0, 9, 0, 5, 128, 0, 0, 9, 0, 9, 0, 9, 0, 9, 0, 9, 0, 3, 0, 9, 0,
    9, 0, 9, 0, 1, 0, 9, 0, 9, 0, 9, 0, 9, 0, 9, 0, 9, 0, 9,
];

/// Of side 5, flat: 9 9 9 9 9 / 9 9 9 9 9 / 9 9 9 9 9 / 9 9 9 9 9 / 9 9 9 9 9.
pub const N: [u8; 50] = [
    0, 9, 0, 9, 0, 9, 0, 9, 0, 9, 0, 9, 0, 9, 0, 9, 0, 9, 0, 9, 0, 9, 0, 9, 0, 9, 0, 9, 0, 9, 0, 9,
    0, 9, 0, 9, 0, 9, 0, 9, 0, 9, 0, 9, 0, 9, 0, 9, 0, 9,
];

/// All tiles with their letters.
const TILES: [(u8, &[u8]); 25] = [
    (b'A', &A),
    (b'B', &B),
    (b'C', &C),
    (b'D', &D),
    (b'G', &G),
    (b'H', &H),
    (b'K', &K),
    (b'V', &V),
    (b'P', &P),
    (b'M', &M),
    (b'Z', &Z),
    (b'F', &F),
    (b'E', &E),
    (b'O', &O),
    (b'S', &S),
    (b'T', &T),
    (b'L', &L),
    (b'R', &R),
    (b'I', &I),
    (b'J', &J),
    (b'X', &X),
    (b'Y', &Y),
    (b'U', &U),
    (b'W', &W),
    (b'N', &N),
];

/// The tile with this letter; no bytes if there is none.
fn tile_of(letter: u8) -> &'static [u8] {
    for (name, bytes) in TILES {
        if name == letter {
            return bytes;
        }
    }
    &[]
}

/// The bytes that the text means. A tile is written as its length, an LF and its bytes, as after the words of an import
/// or the `OK` of an export.
pub fn expand(alloc: Global, text: &str) -> Result<Vec<u8>, AllocError> {
    let mut bytes = Vec::new(alloc);
    let mut is_tile = false;
    for byte in text.as_bytes() {
        if is_tile {
            push_file(&mut bytes, *byte)?;
        } else if *byte != b'$' {
            bytes.push(*byte)?;
        }
        is_tile = !is_tile && *byte == b'$';
    }
    Ok(bytes)
}

fn push_file(bytes: &mut Vec<u8>, letter: u8) -> Result<(), AllocError> {
    let tile = tile_of(letter);
    let length: &[u8] = match tile.len() {
        32 => b"32\n",
        50 => b"50\n",
        _ => b"18\n",
    };
    bytes.extend_from_slice(length)?;
    bytes.extend_from_slice(tile)
}

/// Appends the bytes that a line or a reply means. A text without `$` ends with an LF.
pub fn push_line(bytes: &mut Vec<u8>, text: &str) -> Result<(), AllocError> {
    bytes.extend_from_slice(&expand(*bytes.allocator(), text)?)?;
    if !text.contains('$') {
        bytes.push(b'\n')?;
    }
    Ok(())
}

/// The bytes that some lines mean, one after another.
pub fn lines_of(alloc: Global, texts: &[&str]) -> Result<Vec<u8>, AllocError> {
    let mut bytes = Vec::new(alloc);
    for text in texts {
        push_line(&mut bytes, text)?;
    }
    Ok(bytes)
}

/// A line and its reply.
pub type Said<'a> = (&'a str, &'a str);

/// The bytes of the lines.
pub fn input_of(alloc: Global, said: &[Said]) -> Result<Vec<u8>, AllocError> {
    let mut bytes = Vec::new(alloc);
    for (line, _) in said {
        push_line(&mut bytes, line)?;
    }
    Ok(bytes)
}

/// The bytes of the replies.
pub fn output_of(alloc: Global, said: &[Said]) -> Result<Vec<u8>, AllocError> {
    let mut bytes = Vec::new(alloc);
    for (_, reply) in said {
        push_line(&mut bytes, reply)?;
    }
    Ok(bytes)
}

/// A line, and the payload after its LF.
pub fn split_payload(item: &[u8]) -> (&[u8], &[u8]) {
    let end = item
        .iter()
        .position(|byte| *byte == b'\n')
        .unwrap_or(item.len());
    let line = item.get(..end).unwrap_or(item);
    let payload = item.get(end.saturating_add(1)..).unwrap_or(&[]);
    (line, payload)
}

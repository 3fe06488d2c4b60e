//! Tests of lines that are read in pieces and with other bytes in them, by a mosaic in memory and a store. Lines that
//! no client should send, and inputs cut anywhere, are in tests/sessions and tests/test_rows.py.
use crate::asserting::{Place, assert_row};
use crate::served::{served_by_store, served_by_table};
use crate::stores::{empty_store, into_disk};
use seeded_random::Random;
use std::alloc::{AllocError, Global};
use std::process::Abort;
use std::str::from_utf8;
use std::test::Fail;
use test_tiles::expand;

/// The replies of a mosaic with four tiles of side 3, and of a store with as many.
fn both(alloc: Global, bytes: &[u8], size: usize) -> Result<(Vec<u8>, Vec<u8>), Fail> {
    let store = served_by_new_store(alloc, bytes, size)?;
    let table = served_by_table(alloc, bytes, size)?;
    Ok((table, store))
}

fn served_by_new_store(alloc: Global, bytes: &[u8], size: usize) -> Result<Vec<u8>, Fail> {
    let mut store = empty_store(alloc, 2, 3, 4)?;
    let output = served_by_store(alloc, &mut store, bytes, size);
    let _ = into_disk(store);
    output
}

fn text_of(bytes: &[u8]) -> &str {
    from_utf8(bytes).unwrap_or("bytes that are no text")
}

// Both give these replies to the bytes in pieces of this size.
fn check(
    rt: &impl Abort,
    alloc: Global,
    input: &[u8],
    size: usize,
    wanted: &[u8],
    place: Place,
) -> Result<(), Fail> {
    let (table, store) = both(alloc, input, size)?;
    let by_table = table.as_slice() == wanted;
    assert_row(
        rt,
        by_table,
        "the mosaic in memory",
        &(place, text_of(&table)),
    );
    let by_store = store.as_slice() == wanted;
    assert_row(rt, by_store, "the store", &(place, text_of(&store)));
    Ok(())
}

// The line, repeated.
fn repeated(alloc: Global, line: &[u8], times: u32) -> Result<Vec<u8>, Fail> {
    let mut lines = Vec::new(alloc);
    for _ in 0..times {
        lines.extend_from_slice(line)?;
    }
    Ok(lines)
}

#[test]
fn a_hundred_thousand_reads(rt: HostRuntime) -> Result<(), Fail> {
    let input = repeated(rt.alloc(), b"count\n", 17_000)?;
    let wanted = repeated(rt.alloc(), b"OK 0\n", 17_000)?;
    check(
        &rt,
        rt.alloc(),
        &input,
        1,
        &wanted,
        ("reads of one byte", 0),
    )
}

const REPLIES: &[u8] = b"OK 1\nOK 5\nERR 7 Outside\nERR 1 BadLine\nERR 4 TileThere\nOK 1\n";

fn session(alloc: Global) -> Result<Vec<u8>, AllocError> {
    let text = "import N00E000 $Aelev 0 2\nelev 5 5\nhello\nimport N00E000 $Acount";
    expand(alloc, text)
}

#[test]
fn a_session_in_pieces_of_any_size(rt: HostRuntime) -> Result<(), Fail> {
    let input = session(rt.alloc())?;
    for size in 1..input.len() {
        check(
            &rt,
            rt.alloc(),
            &input,
            size,
            REPLIES,
            ("in pieces of", size as u64),
        )?;
    }
    Ok(())
}

/// Bytes that lines have, and others.
const BYTES: [u8; 16] = [
    b'\n', b'\r', b' ', b'\t', 0, b'0', b'1', b'2', b'8', b'9', b'-', b'e', b'N', b'i', 0x7f, 0xff,
];

// The session with up to four bytes replaced.
fn mutated(alloc: Global, random: &mut Random) -> Result<Vec<u8>, Fail> {
    let mut input = session(alloc)?;
    for _ in 0..1 + random.next_below(4) {
        let at = random.next_below(101) as usize;
        if let Some(byte) = input.get_mut(at) {
            *byte = random.one_of(&BYTES);
        }
    }
    Ok(input)
}

#[test]
fn sessions_with_other_bytes(rt: HostRuntime) -> Result<(), Fail> {
    let mut random = Random::new(6);
    for number in 0..2_000_u64 {
        let input = mutated(rt.alloc(), &mut random)?;
        let (table, store) = both(rt.alloc(), &input, 4096)?;
        let is_right = table.as_slice() == store.as_slice() && table.ends_with(b"\n");
        assert_row(
            &rt,
            is_right,
            "another answer to session",
            &(number, text_of(&input)),
        );
    }
    Ok(())
}

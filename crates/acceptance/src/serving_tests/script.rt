//! The engines that sessions are served on, and comparisons of their replies.
use disk::{Disk, MemDisk};
use engine::Engine;
use lattice::Side;
use memory_store::store_in_memory;
use serving::{CheckedWriter, serve};
use std::alloc::Global;
use std::fmt::Debug;
use std::process::Abort;
use std::str::from_utf8;
use std::test::Fail;
use store::Store;
use table_engine::TableEngine;
use test_tiles::{Said, lines_of};

/// What the engine replies to these bytes.
pub(crate) fn replies<E: Engine>(
    alloc: Global,
    engine: &mut E,
    input: &[u8],
) -> Result<Vec<u8>, Fail> {
    let mut reader = input;
    let mut output = CheckedWriter::new(Vec::new(alloc));
    serve(alloc, &mut reader, &mut output, engine)?;
    Ok(output.into_inner())
}

/// A mosaic in memory with tiles of this side and this capacity.
pub(crate) fn table(alloc: Global, samples: u32, capacity: u32) -> Result<TableEngine, Fail> {
    let side = Side::new(samples).ok_or("no side")?;
    Ok(TableEngine::new(alloc, side, capacity))
}

/// A store with tiles of a side up to 45 and this capacity.
pub(crate) fn store(alloc: Global, samples: u32, capacity: u32) -> Result<Store<MemDisk>, Fail> {
    let sectors = capacity.saturating_mul(12).saturating_add(10);
    Ok(store_in_memory(alloc, sectors, samples, capacity)?)
}

/// Such a store in the first version.
pub(crate) fn store_of_version_1(
    alloc: Global,
    samples: u32,
    capacity: u32,
) -> Result<Store<MemDisk>, Fail> {
    let sectors = capacity.saturating_mul(8).saturating_add(8);
    let mut disk = MemDisk::new(alloc, sectors)?;
    Store::format_1(&mut disk, samples, capacity)?;
    opened(alloc, disk)
}

pub(crate) fn opened<D: Disk + Drop>(alloc: Global, disk: D) -> Result<Store<D>, Fail> {
    match Store::open(alloc, disk) {
        Ok(store) => Ok(store),
        Err(not_opened) => Err(not_opened.refusal.into()),
    }
}

// The bytes after the wanted ones. None if other bytes are there.
fn after<'a>(found: &'a [u8], wanted: &[u8]) -> Option<&'a [u8]> {
    if found.starts_with(wanted) {
        found.get(wanted.len()..)
    } else {
        None
    }
}

/// Ends the test at the first line with another reply, and names the row, the line and the reply found.
pub(crate) fn check_replies<R: Debug>(
    rt: &impl Abort,
    alloc: Global,
    row: &R,
    found: &[u8],
    said: &[Said],
) -> Result<(), Fail> {
    let mut rest = found;
    for said in said {
        rest = check_reply(rt, alloc, row, rest, *said)?;
    }
    let text = text_of(rest);
    assert!(rt; rest.is_empty(), "{row:?}: found more: {text}");
    Ok(())
}

// The bytes found after the reply to this line.
fn check_reply<'a, R: Debug>(
    rt: &impl Abort,
    alloc: Global,
    row: &R,
    found: &'a [u8],
    (line, reply): Said,
) -> Result<&'a [u8], Fail> {
    let wanted = lines_of(alloc, &[reply])?;
    let Some(rest) = after(found, &wanted) else {
        let text = text_of(found);
        assert!(rt; false, "{row:?}: {line}: found {text}");
        return Ok(found);
    };
    Ok(rest)
}

fn text_of(bytes: &[u8]) -> &str {
    from_utf8(bytes).unwrap_or("bytes that are no text")
}

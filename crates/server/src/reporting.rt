//! The report on a store.
ghost use Rattle.std.specs.Prelude.{◌≡◌, ◌++◌, false, Err, IfErr, IfOk, OnOk, codes, decimal, flat_map, if◌then◌else◌};
ghost use Rattle.lattice.specs.declared.refusal.Refusal.TheVariants.{NoMemory};
ghost use Rattle.engine.specs.Engines.{items_in};
ghost use Rattle.engine.specs.State.{State};
ghost use Rattle.derived.specs.Kept.{stale_in};
ghost use Rattle.store.specs.Stores.{disk_of, root_of, has_failed, IsAt};
ghost use Rattle.server.specs.Report.{IsReport, IsReportText, report_text, tile_line};

use disk::Disk;
use hgt::name_text;
use itoa::Buffer;
use lattice::{Corner, Refusal};
use std::alloc::{AllocError, Global};
use store::Store;

/// The report on a store whose seams disagree at this many points, as lines: accepted commands and commits, its tiles
/// in order, each fresh or stale, and the seams. Refused as the count of seams was, or with NoMemory.
pub(crate) fn report<D: Disk>(
    alloc: Global,
    store: &Store<D>,
    seams: Result<u64, Refusal>,
) -> Result<Vec<u8>, Refusal>
    requires works { OnOk seams (has_failed store.now ≡ false) }
    ensures refused { IfErr seams (λ r. items_in result ≡ Err r) }
    ensures memory { OnOk seams (IfErr (items_in result) (λ r. r ≡ NoMemory)) }
    ensures lines { IfOk (items_in result) IsReportText }
    ensures report { D.honest (disk_of store.now) → (s : State) → IsAt D.Disk store.now s
        → IfOk seams (λ count. IfOk (items_in result) (IsReport s.contents count)) }
{
    let seams = seams?;
    let corners = store.tiles()?;
    let text = lines(alloc, store, corners.as_slice(), seams)?;
    Ok(text)
}

/// The lines of a report, from what the store has in memory.
fn lines<D: Disk>(
    alloc: Global,
    store: &Store<D>,
    corners: &[Corner],
    seams: u64,
) -> Result<Vec<u8>, AllocError>
    ensures { IfOk result (λ text. text.items ≡ report_text (root_of store.now).count (root_of store.now).number (stale_in (root_of store.now)) corners.now seams) }
{
    let mut text = Vec::new(alloc);
    extend_number(&mut text, b"count ", store.count(), b" ")?;
    extend_number(&mut text, b"commits ", store.commits(), b"\n")?;
    extend_tiles(&mut text, store, corners)?;
    extend_number(&mut text, b"seams ", seams, b"\n")?;
    Ok(text)
}

/// Appends a line for each tile.
fn extend_tiles<D: Disk>(
    text: &mut Vec<u8>,
    store: &Store<D>,
    corners: &[Corner],
) -> Result<(), AllocError>
    ensures { OnOk result (text.new.items ≡ text.old.items
        ++ flat_map (tile_line (stale_in (root_of store.now))) corners.now) }
{
    for corner in corners {
        text.extend_from_slice(name_text(*corner).as_bytes())?;
        text.extend_from_slice(end_of_line(store.stale(*corner)))?;
    }
    Ok(())
}

/// The end of a tile's line, after its name.
fn end_of_line(stale: bool) -> &'static [u8]
    ensures { result.now ≡ (if stale then codes " stale\n" else codes " fresh\n") }
{
    if stale { b" stale\n" } else { b" fresh\n" }
}

/// Appends a number between two words.
fn extend_number(
    text: &mut Vec<u8>,
    before: &[u8],
    number: u64,
    after: &[u8],
) -> Result<(), AllocError>
    ensures { OnOk result (text.new.items ≡ text.old.items ++ before.now ++ decimal number
        ++ after.now) }
{
    let mut buffer = Buffer::new();
    text.extend_from_slice(before)?;
    text.extend_from_slice(buffer.format(number).as_bytes())?;
    text.extend_from_slice(after)
}

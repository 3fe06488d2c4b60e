//! The expected result of opening an image, read from the image's bytes by the rules of the layout.
use crate::image::Sector;
use lattice::{Corner, Point, Refusal};
use std::alloc::Global;

/// The fields of a root.
#[derive(Drop)]
pub(crate) struct Root {
    pub(crate) version: u32,
    pub(crate) side: u32,
    pub(crate) capacity: u32,
    pub(crate) commits: u64,
    pub(crate) count: u64,
    pub(crate) entries: Vec<Entry>,
    pub(crate) sinks: Vec<Point>,
}

/// A tile's corner, and the pages of its records of heights, levels and labels; 0 for none.
#[derive(Clone, Copy)]
pub(crate) struct Entry {
    pub(crate) corner: Corner,
    pub(crate) records: [u32; 3],
}

/// The current root of an image, or the refusal.
pub(crate) fn expected_opening(alloc: Global, image: &[Sector]) -> Result<Root, Refusal> {
    let (Some(gate_a), Some(root_a), Some(gate_b), Some(root_b)) = (
        image.first(),
        image.get(1),
        image.get(2),
        image.get(3),
    ) else {
        return Err(Refusal::NotAStore);
    };
    let first = behind(alloc, gate_a, root_a)?;
    let second = behind(alloc, gate_b, root_b)?;
    let root = match (first, second) {
        (None, None) => return Err(Refusal::NotAStore),
        (Some(root), None) | (None, Some(root)) => root,
        (Some(a), Some(b)) if a.commits < b.commits => b,
        (Some(a), Some(b)) if b.commits < a.commits => a,
        _ => return Err(Refusal::Damaged),
    };
    if (image.len() as u64) < sectors_asked(&root) {
        return Err(Refusal::TooSmall);
    }
    check_pages(alloc, image, &root)?;
    Ok(root)
}

// The root behind a gate, if the gate is open.
fn behind(alloc: Global, gate: &Sector, root: &Sector) -> Result<Option<Root>, Refusal> {
    if gate[0] != 0xa7 {
        return Ok(None);
    }
    Ok(Some(root_of(alloc, root)?))
}

fn root_of(alloc: Global, bytes: &Sector) -> Result<Root, Refusal> {
    if !bytes.starts_with(b"MOSAICST") {
        return Err(Refusal::NotAStore);
    }
    let version = u32_at(bytes, 8);
    if !(1..=2).contains(&version) {
        return Err(Refusal::Version);
    }
    let root = Root {
        version,
        side: u32_at(bytes, 12),
        capacity: u32_at(bytes, 16),
        commits: u64_at(bytes, 24),
        count: u64_at(bytes, 32),
        entries: entries_of(alloc, &bytes[64..3904], u32_at(bytes, 20))?,
        sinks: sinks_of(alloc, &bytes[3904..], u32_at(bytes, 40))?,
    };
    if is_zero(&bytes[44..64]) && has_good_numbers(&root) && has_good_lists(&root) {
        Ok(root)
    } else {
        Err(Refusal::Damaged)
    }
}

fn has_good_numbers(root: &Root) -> bool {
    let largest = if root.version == 1 { 1201 } else { 3601 };
    (3..=largest).contains(&root.side)
        && (1..=240).contains(&root.capacity)
        && root.entries.len() as u64 <= u64::from(root.capacity)
        && root.count < root.commits
        && root.sinks.len() <= 16
}

fn has_good_lists(root: &Root) -> bool {
    are_entries(&root.entries) && are_sinks(root.side, &root.sinks)
}

// Whether each entry is valid, and their corners rise.
fn are_entries(entries: &[Entry]) -> bool {
    let mut before: Option<Corner> = None;
    for entry in entries {
        let rises = match before {
            Some(corner) => corner < entry.corner,
            None => true,
        };
        if !rises || !is_entry(entry) {
            return false;
        }
        before = Some(entry.corner);
    }
    true
}

// Whether a tile may have each sink, and the sinks rise.
fn are_sinks(side: u32, sinks: &[Point]) -> bool {
    let mut before: Option<Point> = None;
    for sink in sinks {
        let rises = match before {
            Some(point) => point < *sink,
            None => true,
        };
        if !rises || !is_held(side, *sink) {
            return false;
        }
        before = Some(*sink);
    }
    true
}

// The record of heights is given, and the records of levels and labels both or neither.
fn is_entry(entry: &Entry) -> bool {
    let [heights, levels, labels] = entry.records;
    heights != 0 && (levels == 0) == (labels == 0)
}

// Whether the tile of some corner has the point: the tiles cover all latitudes and longitudes.
fn is_held(side: u32, point: Point) -> bool {
    let edge = i64::from(side).saturating_sub(1);
    let (y, x) = (i64::from(point.y), i64::from(point.x));
    y.saturating_abs() <= edge.saturating_mul(90) && x.saturating_abs() <= edge.saturating_mul(180)
}

// This many entries of 16 bytes, followed by zeros.
fn entries_of(alloc: Global, bytes: &[u8], count: u32) -> Result<Vec<Entry>, Refusal> {
    let mut entries = Vec::new(alloc);
    for (entry, i) in bytes.chunks_exact(16).zip(0..240_u32) {
        if i < count {
            let corner = Corner::new(i16_at(entry, 0), i16_at(entry, 2)).ok_or(Refusal::Damaged)?;
            let records = [u32_at(entry, 4), u32_at(entry, 8), u32_at(entry, 12)];
            add(&mut entries, Entry { corner, records })?;
        } else if !is_zero(entry) {
            return Err(Refusal::Damaged);
        }
    }
    if entries.len() as u64 == u64::from(count) {
        Ok(entries)
    } else {
        Err(Refusal::Damaged)
    }
}

// This many sinks of 8 bytes, followed by zeros.
fn sinks_of(alloc: Global, bytes: &[u8], count: u32) -> Result<Vec<Point>, Refusal> {
    let mut sinks = Vec::new(alloc);
    for (sink, i) in bytes.chunks_exact(8).zip(0..24_u32) {
        if i < count {
            let y = i32_at(sink, 0);
            let x = i32_at(sink, 4);
            add(&mut sinks, Point { y, x })?;
        } else if !is_zero(sink) {
            return Err(Refusal::Damaged);
        }
    }
    if sinks.len() as u64 == u64::from(count) {
        Ok(sinks)
    } else {
        Err(Refusal::Damaged)
    }
}

fn sectors_asked(root: &Root) -> u64 {
    let planes = u64::from(root.capacity).saturating_mul(4).saturating_add(2);
    planes
        .saturating_mul(
            pages_of(root)
                .saturating_add(index_pages_of(root))
                .saturating_add(1),
        )
        .saturating_add(4)
}

// The number of pages of a plane, at two bytes a sample.
fn pages_of(root: &Root) -> u64 {
    bytes_of_tile(root).div_ceil(4096)
}

// The number of index pages of a plane: none in the first version.
fn index_pages_of(root: &Root) -> u64 {
    if root.version == 1 {
        0
    } else {
        pages_of(root).div_ceil(1024)
    }
}

pub(crate) fn bytes_of_tile(root: &Root) -> u64 {
    let side = u64::from(root.side);
    side.saturating_mul(side).saturating_mul(2)
}

// All pages that the root reaches are on the disk, after the roots, and none is reached twice.
fn check_pages(alloc: Global, image: &[Sector], root: &Root) -> Result<(), Refusal> {
    let mut reached = reached(alloc, image, root)?;
    reached.sort_unstable();
    if are_pages(image, &reached) {
        Ok(())
    } else {
        Err(Refusal::Damaged)
    }
}

/// The pages that the root reaches: for each record of each tile the record, its index pages and its pages.
pub(crate) fn reached(alloc: Global, image: &[Sector], root: &Root) -> Result<Vec<u32>, Refusal> {
    let mut reached = Vec::new(alloc);
    for entry in &root.entries {
        add_reached(alloc, image, root, &entry.records, &mut reached)?;
    }
    Ok(reached)
}

// Adds the pages that these records of a tile reach; 0 means no record.
fn add_reached(
    alloc: Global,
    image: &[Sector],
    root: &Root,
    records: &[u32],
    reached: &mut Vec<u32>,
) -> Result<(), Refusal> {
    for record in records {
        if *record != 0 {
            add(reached, *record)?;
            reached.extend_from_slice(&behind_record(alloc, image, root, *record)?)?;
        }
    }
    Ok(())
}

// Whether each number is a page, and the numbers rise.
fn are_pages(image: &[Sector], numbers: &[u32]) -> bool {
    let mut before = 0;
    for number in numbers {
        if *number <= before || page_at(image, *number).is_none() {
            return false;
        }
        before = *number;
    }
    true
}

fn page_at(image: &[Sector], page: u32) -> Option<&Sector> {
    if page < 4 {
        return None;
    }
    image.get(page as usize)
}

/// The pages of a plane, from its record.
pub(crate) fn listed(
    alloc: Global,
    image: &[Sector],
    root: &Root,
    record: u32,
) -> Result<Vec<u32>, Refusal> {
    let mut pages = Vec::new(alloc);
    for (page, i) in behind_record(alloc, image, root, record)?
        .iter()
        .zip(0_u64..)
    {
        if index_pages_of(root) <= i {
            add(&mut pages, *page)?;
        }
    }
    Ok(pages)
}

// The pages that a record reaches: in the second version index pages, and then the pages that these list.
fn behind_record(
    alloc: Global,
    image: &[Sector],
    root: &Root,
    record: u32,
) -> Result<Vec<u32>, Refusal> {
    if root.version == 1 {
        return numbers_in(alloc, image, record, pages_of(root));
    }
    let index = numbers_in(alloc, image, record, index_pages_of(root))?;
    let mut reached = Vec::new(alloc);
    reached.extend_from_slice(&index)?;
    let mut left = pages_of(root);
    for page in &index {
        reached.extend_from_slice(&numbers_in(alloc, image, *page, left.min(1024))?)?;
        left = left.saturating_sub(1024);
    }
    Ok(reached)
}

// This many numbers of a record or an index page, followed by zeros.
fn numbers_in(alloc: Global, image: &[Sector], page: u32, count: u64) -> Result<Vec<u32>, Refusal> {
    let bytes = page_at(image, page).ok_or(Refusal::Damaged)?;
    let mut numbers = Vec::new(alloc);
    for (number, i) in bytes.chunks_exact(4).zip(0..1024_u64) {
        if i < count {
            add(&mut numbers, u32_at(number, 0))?;
        } else if !is_zero(number) {
            return Err(Refusal::Damaged);
        }
    }
    Ok(numbers)
}

fn add<T: Copy>(list: &mut Vec<T>, item: T) -> Result<(), Refusal> {
    match list.push(item) {
        Ok(()) => Ok(()),
        Err(_) => Err(Refusal::NoMemory),
    }
}

fn is_zero(bytes: &[u8]) -> bool {
    for byte in bytes {
        if *byte != 0 {
            return false;
        }
    }
    true
}

// Numbers in bytes, lowest byte first; 0 if there are too few.

fn i16_at(bytes: &[u8], at: usize) -> i16 {
    match bytes.get(at..) {
        Some([a, b, ..]) => i16::from_le_bytes([*a, *b]),
        _ => 0,
    }
}

fn u32_at(bytes: &[u8], at: usize) -> u32 {
    match bytes.get(at..) {
        Some([a, b, c, d, ..]) => u32::from_le_bytes([*a, *b, *c, *d]),
        _ => 0,
    }
}

fn i32_at(bytes: &[u8], at: usize) -> i32 {
    i32::from_le_bytes(u32_at(bytes, at).to_le_bytes())
}

fn u64_at(bytes: &[u8], at: usize) -> u64 {
    u64::from(u32_at(bytes, at)) | u64::from(u32_at(bytes, at.saturating_add(4))) << 32
}

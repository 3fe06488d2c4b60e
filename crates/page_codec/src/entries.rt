//! The entries of a root.
ghost use Rattle.std.specs.Prelude.{◌≡◌, ◌≤◌, ◌↔◌, List, length, All, IsTrue, IfSome, IfNone};
ghost use Rattle.std.specs.List.{flat_map};
ghost use Rattle.lattice.specs.Corners.{is_before};
ghost use Rattle.page_codec.specs.Numbers.{padded};
ghost use Rattle.page_codec.specs.Entries.{EntryValue, IsEntry, entry_bytes};
ghost use Rattle.page_codec.specs.Roots.{EntryIsBefore, AreInOrder};
ghost use Rattle.page_codec.specs.Headers.{Follows};

use crate::numbers::is_zero;
use crate::writer::Writer;
use crate::{ENTRY_BYTES, Entry, ROOT_ENTRIES};
use arrayvec::ArrayVec;
use lattice::{Corner, is_before};

/// The number of bytes for entries.
pub(crate) const ENTRIES_BYTES: usize = ENTRY_BYTES * ROOT_ENTRIES;

/// The entries that these bytes spell, one after another and padded with zeros, if they are in order.
pub(crate) fn read_entries(bytes: &[u8], tiles: u32) -> Option<ArrayVec<Entry, ROOT_ENTRIES>>
    requires tiles { tiles ≤ ROOT_ENTRIES }
    requires bytes { length bytes.now ≡ ENTRIES_BYTES }
    ensures len { IfSome result (λ found. length found.items ≡ tiles) }
    ensures each { IfSome result (λ found. All IsEntry found.items) }
    ensures in_order { IfSome result (λ found. AreInOrder found.items) }
    ensures spelled { IfSome result (λ found. bytes.now ≡ padded ENTRIES_BYTES (flat_map entry_bytes found.items)) }
    ensures none { IfNone result ((entries : List EntryValue) → length entries ≡ tiles
        → All IsEntry entries → AreInOrder entries
        → bytes.now ≡ padded ENTRIES_BYTES (flat_map entry_bytes entries) → ⊥) }
{
    let mut entries = ArrayVec::new();
    let mut rest = bytes;
    for _ in 0..tiles {
        let (front, behind) = rest.split_at(ENTRY_BYTES);
        let entry = next_entry(front, entries.as_slice())?;
        entries.push(entry);
        rest = behind;
    }
    if is_zero(rest) { Some(entries) } else { None }
}

// The entry that these bytes spell, if it may follow the others.
fn next_entry(bytes: &[u8], entries: &[Entry]) -> Option<Entry>
    requires { length bytes.now ≡ ENTRY_BYTES }
    ensures entry { IfSome result IsEntry }
    ensures follows { IfSome result (λ found. Follows EntryIsBefore entries.now found) }
    ensures spelled { IfSome result (λ found. bytes.now ≡ entry_bytes found) }
    ensures none { IfNone result ((entry : EntryValue) → IsEntry entry
        → Follows EntryIsBefore entries.now entry → bytes.now ≡ entry_bytes entry → ⊥) }
{
    let entry = Entry::parse(bytes)?;
    if !follows(entries, &entry) {
        return None;
    }
    Some(entry)
}

// Whether this entry may come next.
fn follows(entries: &[Entry], entry: &Entry) -> bool
    ensures { IsTrue result ↔ Follows EntryIsBefore entries.now entry.now }
{
    match entries.last() {
        Some(last) => is_before(last.corner, entry.corner),
        None => true,
    }
}

/// The entries one after another, padded with zeros.
pub(crate) fn write_entries(entries: &[Entry]) -> [u8; ENTRIES_BYTES]
    requires { length entries.now ≤ ROOT_ENTRIES }
    ensures { result ≡ padded ENTRIES_BYTES (flat_map entry_bytes entries.now) }
{
    let mut writer = Writer::new();
    for entry in entries {
        writer.put(&entry.write());
    }
    writer.finish()
}

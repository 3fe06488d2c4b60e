//! The record of a plane, and its index pages.
ghost use Rattle.std.specs.Prelude.{◌≡◌, ℕ, ◌+◌, ◌*◌, ◌≤◌, ◌++◌, List, length, IfOk, IfErr, IsOkAnd};
ghost use Rattle.std.specs.List.{flat_map};
ghost use Rattle.page_codec.specs.declared.damaged.Damaged.TheVariants.{Rule};
ghost use Rattle.page_codec.specs.Numbers.{u32_bytes};
ghost use Rattle.page_codec.specs.Records.{IsRecord, record_bytes};

use crate::numbers::{is_zero, split_u32};
use crate::writer::Writer;
use crate::{Damaged, PAGE_BYTES, RECORD_PAGES};
use arrayvec::ArrayVec;

/// The page numbers in a plane's record, in order: its pages or, in the second version, its index pages.
#[derive(Debug, Drop)]
pub struct Record {
    pub pages: ArrayVec<u32, RECORD_PAGES>,
}

/// The page numbers in an index page: pages of a plane, in order. All index pages of a plane but the last are full.
#[derive(Debug, Drop)]
pub struct IndexPage {
    pub pages: ArrayVec<u32, RECORD_PAGES>,
}

impl Record {
    /// The record with this many page numbers that these bytes spell. The number isn't in the bytes: it follows from
    /// the store's format.
    pub fn read(bytes: &[u8; PAGE_BYTES], count: u32) -> Result<Record, Damaged>
        requires { count ≤ RECORD_PAGES }
        ensures found { IfOk result (λ read. IsRecord count read.pages.items
            × (bytes.now ≡ record_bytes read.pages.items)) }
        ensures only { (pages : List ℕ) → IsRecord count pages → bytes.now ≡ record_bytes pages
            → IsOkAnd result (λ read. read.pages.items ≡ pages) }
        ensures rule { IfErr result (λ damaged. damaged ≡ Rule) }
    {
        Ok(Record {
            pages: read_pages(bytes, count)?,
        })
    }

    /// The only spelling of the record.
    pub fn write(&self) -> [u8; PAGE_BYTES]
        ensures { result ≡ record_bytes self.now.pages.items }
    {
        write_pages(self.pages.as_slice())
    }
}

impl IndexPage {
    /// The index page with this many page numbers that these bytes spell. The number isn't in the bytes.
    pub fn read(bytes: &[u8; PAGE_BYTES], count: u32) -> Result<IndexPage, Damaged>
        requires { count ≤ RECORD_PAGES }
        ensures found { IfOk result (λ read. IsRecord count read.pages.items
            × (bytes.now ≡ record_bytes read.pages.items)) }
        ensures only { (pages : List ℕ) → IsRecord count pages → bytes.now ≡ record_bytes pages
            → IsOkAnd result (λ read. read.pages.items ≡ pages) }
        ensures rule { IfErr result (λ damaged. damaged ≡ Rule) }
    {
        Ok(IndexPage {
            pages: read_pages(bytes, count)?,
        })
    }

    /// The only spelling of the index page.
    pub fn write(&self) -> [u8; PAGE_BYTES]
        ensures { result ≡ record_bytes self.now.pages.items }
    {
        write_pages(self.pages.as_slice())
    }
}

// Page numbers, padded with zeros.
fn read_pages(bytes: &[u8; PAGE_BYTES], count: u32) -> Result<ArrayVec<u32, RECORD_PAGES>, Damaged>
    requires { count ≤ RECORD_PAGES }
    ensures found { IfOk result (λ pages. IsRecord count pages.items
        × (bytes.now ≡ record_bytes pages.items)) }
    ensures only { (pages : List ℕ) → IsRecord count pages → bytes.now ≡ record_bytes pages
        → IsOkAnd result (λ read. read.items ≡ pages) }
    ensures rule { IfErr result (λ damaged. damaged ≡ Rule) }
{
    let (pages, rest) = split_pages(bytes, count);
    if !is_zero(rest) {
        return Err(Damaged::Rule);
    }
    Ok(pages)
}

// A page with these numbers, padded with zeros.
fn write_pages(pages: &[u32]) -> [u8; PAGE_BYTES]
    requires { length pages.now ≤ RECORD_PAGES }
    ensures { result ≡ record_bytes pages.now }
{
    let mut writer = Writer::new();
    for page in pages {
        writer.put_u32(*page);
    }
    writer.finish()
}

// The numbers at the front, and the bytes after them.
fn split_pages(bytes: &[u8], count: u32) -> (ArrayVec<u32, RECORD_PAGES>, &[u8])
    requires pages { count ≤ RECORD_PAGES }
    requires bytes { 4 * count ≤ length bytes.now }
    ensures parts { bytes.now ≡ flat_map u32_bytes result.0.items ++ result.1.now }
    ensures pages { IsRecord count result.0.items }
    ensures rest { length result.1.now + 4 * count ≡ length bytes.now }
{
    let mut pages = ArrayVec::new();
    let mut rest = bytes;
    for _ in 0..count {
        let (page, behind) = split_u32(rest);
        pages.push(page);
        rest = behind;
    }
    (pages, rest)
}

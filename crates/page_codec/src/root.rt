//! The root of a store.
ghost use Rattle.std.specs.Prelude.{◌≡◌, ◌≢◌, ◌+◌, ◌<◌, ◌≤◌, ◌^◌, ◌↔◌, ◌++◌, length, take, All, IfOk, IfErr, IfSome, IfNone, IsErrOf, Ok};
ghost use Rattle.page_codec.specs.declared.damaged.Damaged.TheVariants as reason;
ghost use Rattle.page_codec.specs.declared.version.Version.{Version};
ghost use Rattle.page_codec.specs.declared.version.Version.TheVariants.{Two};
ghost use Rattle.page_codec.specs.Numbers.{u32_bytes};
ghost use Rattle.page_codec.specs.Formats.{IsKnown, largest_side_of, number_of};
ghost use Rattle.page_codec.specs.Entries.{IsEntry};
ghost use Rattle.lattice.specs.Mosaic.{AreSinks};
ghost use Rattle.page_codec.specs.Roots.{RootValue, AreInOrder, IsRoot, empty_root, format_of, magic, header_bytes, root_bytes, HasMagic, HasKnownVersion};
ghost use Rattle.page_codec.specs.Headers.{body_bytes};

use crate::entries::{ENTRIES_BYTES, read_entries, write_entries};
use crate::header::Header;
use crate::numbers::{is_zero, split_u32};
use crate::sinks::{read_sinks, write_sinks};
use crate::writer::Writer;
use crate::{Damaged, Entry, Format, MAX_CAPACITY, PAGE_BYTES, ROOT_ENTRIES, Version};
use arrayvec::ArrayVec;
use lattice::{MOST_SINKS, Point, Side};
use std::marker::Model;

/// The first bytes of a root.
const ROOT_MAGIC: [u8; 8] = *b"MOSAICST";

/// The number of reserved bytes after the numbers.
const FREE_BYTES: usize = 20;

/// The number of bytes after the magic and the version, which take 8 and 4.
const BODY_BYTES: usize = PAGE_BYTES - 12;

/// The contents of a store at one commit: its format, the commit number, the number of accepted commands, its sinks,
/// and where the planes of its tiles are.
#[derive(Debug, Drop)]
pub struct Root {
    format: Format,
    number: u64,
    count: u64,
    sinks: ArrayVec<Point, MOST_SINKS>,
    entries: ArrayVec<Entry, ROOT_ENTRIES>,
}

impl Model for Root {
    ghost use Rattle.page_codec.specs.Roots.{RootValue, IsRoot};

    ghost Value = { RootValue };

    ghost view = { λ r. record { version = r.format.version; side = r.format.side; capacity = r.format.capacity; number = r.number; count = r.count; sinks = r.sinks.items; entries = r.entries.items } };

    ghost invariant = { λ r. IsRoot (record { version = r.format.version; side = r.format.side; capacity = r.format.capacity; number = r.number; count = r.count; sinks = r.sinks.items; entries = r.entries.items }) };
}

impl Root {
    /// The root of a store of this format with no tiles and no sinks: its first commit, before any command.
    pub fn empty(format: Format) -> Root
        requires { IsKnown format.version }
        ensures { result ≡ empty_root format }
    {
        // This call shows the prover that the format keeps its rules.
        let _side = format.side();
        Root {
            format,
            number: 1,
            count: 0,
            sinks: ArrayVec::new(),
            entries: ArrayVec::new(),
        }
    }

    /// The root of the next commit, with this count of commands and these entries, in the order of tiles.
    pub fn next(&self, count: u64, entries: ArrayVec<Entry, ROOT_ENTRIES>) -> Root
        requires number { self.now.number + 1 < 2 ^ 64 }
        requires count { count ≤ self.now.number }
        requires room { length entries.items ≤ self.now.capacity }
        requires each { All IsEntry entries.items }
        requires in_order { AreInOrder entries.items }
        ensures { result ≡ record (self.now) { number = self.now.number + 1; count = count; entries = entries.items } }
    {
        let root = self.copy();
        Root {
            number: root.number + 1,
            count,
            entries,
            ..root
        }
    }

    /// The root of the next commit in the second version, with the same count of commands and these entries, in the
    /// order of tiles.
    pub fn upgraded(&self, entries: ArrayVec<Entry, ROOT_ENTRIES>) -> Root
        requires number { self.now.number + 1 < 2 ^ 64 }
        requires room { length entries.items ≤ self.now.capacity }
        requires each { All IsEntry entries.items }
        requires in_order { AreInOrder entries.items }
        ensures { result ≡ record (self.now) { version = Two; number = self.now.number + 1; entries = entries.items } }
    {
        let root = self.next(self.count(), entries);
        Root {
            format: root.format.upgraded(),
            ..root
        }
    }

    /// The same root with these sinks, in their order, instead of the old ones.
    pub fn with_sinks(&self, sinks: &[Point]) -> Root
        requires { AreSinks self.now.side sinks.now }
        ensures { result ≡ record (self.now) { sinks = sinks.now } }
    {
        let root = self.copy();
        let Ok(sinks) = ArrayVec::try_from(sinks) else {
            unreachable!()
        };
        Root { sinks, ..root }
    }

    /// A copy of the root.
    pub fn copy(&self) -> Root
        ensures { result ≡ self.now }
    {
        let (Ok(sinks), Ok(entries)) = (
            ArrayVec::try_from(self.sinks.as_slice()),
            ArrayVec::try_from(self.entries.as_slice()),
        ) else {
            unreachable!()
        };
        Root {
            sinks,
            entries,
            ..*self
        }
    }

    /// The version, side and capacity of the store.
    pub fn format(&self) -> Format
        ensures { result ≡ format_of self.now }
    {
        self.format
    }

    /// The side of each tile.
    pub fn side(&self) -> Side
        ensures value { result ≡ self.now.side }
        ensures high { result ≤ largest_side_of self.now.version }
    {
        self.format.side()
    }

    /// The capacity of the store, in tiles.
    pub fn capacity(&self) -> u32
        ensures value { result ≡ self.now.capacity }
        ensures low { 1 ≤ result }
        ensures high { result ≤ MAX_CAPACITY }
    {
        self.format.capacity()
    }

    /// The commit number.
    pub fn number(&self) -> u64
        ensures { result ≡ self.now.number }
    {
        self.number
    }

    /// The number of accepted commands.
    pub fn count(&self) -> u64
        ensures value { result ≡ self.now.count }
        ensures before { result < self.now.number }
    {
        self.count
    }

    /// The sinks, in their order.
    pub fn sinks(&self) -> &[Point]
        ensures value { result.now ≡ self.now.sinks }
        ensures rules { IsRoot self.now }
    {
        self.sinks.as_slice()
    }

    /// The entries of the tiles, in the order of tiles.
    pub fn entries(&self) -> &[Entry]
        ensures value { result.now ≡ self.now.entries }
        ensures rules { IsRoot self.now }
    {
        self.entries.as_slice()
    }

    /// The root that these bytes spell.
    pub fn read(bytes: &[u8; PAGE_BYTES]) -> Result<Root, Damaged>
        ensures found { IfOk result (λ root. IsRoot root × (bytes.now ≡ root_bytes root)) }
        ensures only { (root : RootValue) → IsRoot root → bytes.now ≡ root_bytes root
            → result ≡ Ok root }
        ensures magic { IsErrOf result reason.Magic ↔ ¬ HasMagic bytes.now }
        ensures version { IsErrOf result reason.Version
            ↔ (HasMagic bytes.now × ¬ HasKnownVersion bytes.now) }
        ensures rule { IsErrOf result reason.Rule
            ↔ (HasMagic bytes.now × HasKnownVersion bytes.now
            × ((root : RootValue) → IsRoot root → bytes.now ≢ root_bytes root)) }
    {
        let rest = behind_magic(bytes)?;
        let (version, body) = behind_version(rest)?;
        Root::parse(version, body).ok_or(Damaged::Rule)
    }

    // The root of this version that these bytes after the version spell.
    fn parse(version: Version, body: &[u8]) -> Option<Root>
        requires known { IsKnown version }
        requires body { length body.now ≡ BODY_BYTES }
        ensures found { IfSome result (λ root. IsRoot root × (root.version ≡ version)
            × (body.now ≡ body_bytes root)) }
        ensures none { IfNone result ((root : RootValue) → IsRoot root → root.version ≡ version
            → body.now ≡ body_bytes root → ⊥) }
    {
        let (header, rest) = Header::split(body);
        let (free, rest) = rest.split_at(FREE_BYTES);
        if !is_zero(free) {
            return None;
        }
        let format = header.format(version)?;
        let (entries, sinks) = rest.split_at(ENTRIES_BYTES);
        let entries = read_entries(entries, header.tiles)?;
        let sinks = read_sinks(sinks, format.side(), header.sinks)?;
        Some(Root {
            format,
            number: header.number,
            count: header.count,
            sinks,
            entries,
        })
    }

    /// The only spelling of the root.
    pub fn write(&self) -> [u8; PAGE_BYTES]
        ensures { result ≡ root_bytes self.now }
    {
        let mut writer = self.write_header();
        writer.put(&write_entries(self.entries.as_slice()));
        writer.put(&write_sinks(self.sinks.as_slice()));
        writer.finish()
    }

    #[tactic(auto, unfolding(crate::specs::Roots::header_bytes, crate::specs::Roots::magic, crate::specs::Numbers::zeros))]
    fn write_header(&self) -> Writer<PAGE_BYTES>
        ensures bytes { result ≡ header_bytes (format_of self.now) (length self.now.entries) self.now.number self.now.count (length self.now.sinks) }
        ensures len { length result ≡ 64 }
        ensures rules { IsRoot self.now }
    {
        let mut writer = Writer::new();
        writer.put(&ROOT_MAGIC);
        writer.put_u32(self.format.version().number());
        writer.put_u32(self.format.side().samples());
        writer.put_u32(self.format.capacity());
        writer.put_u32(self.entries.len() as u32);
        writer.put_u64(self.number);
        writer.put_u64(self.count);
        writer.put_u32(self.sinks.len() as u32);
        writer.put(&[0; FREE_BYTES]);
        writer
    }
}

// The bytes after the magic.
#[tactic(auto, unfolding(crate::specs::Roots::magic))]
fn behind_magic(bytes: &[u8]) -> Result<&[u8], Damaged>
    requires { length bytes.now ≡ PAGE_BYTES }
    ensures found { IfOk result (λ rest. bytes.now ≡ magic ++ rest.now) }
    ensures len { IfOk result (λ rest. length rest.now + 8 ≡ length bytes.now) }
    ensures none { IfErr result (λ damaged. (damaged ≡ reason.Magic) × (¬ HasMagic bytes.now)) }
{
    let (front, rest) = bytes.split_at(ROOT_MAGIC.len());
    if front == ROOT_MAGIC.as_slice() {
        Ok(rest)
    } else {
        Err(Damaged::Magic)
    }
}

// The version, and the bytes after it.
fn behind_version(rest: &[u8]) -> Result<(Version, &[u8]), Damaged>
    requires { 4 ≤ length rest.now }
    ensures known { IfOk result (λ found. IsKnown found.0) }
    ensures found { IfOk result (λ found. rest.now ≡ u32_bytes (number_of found.0) ++ found.1.now) }
    ensures len { IfOk result (λ found. length found.1.now + 4 ≡ length rest.now) }
    ensures none { IfErr result (λ damaged. (damaged ≡ reason.Version)
        × ((version : Version) → IsKnown version
        → take 4 rest.now ≢ u32_bytes (number_of version))) }
{
    let (number, body) = split_u32(rest);
    let Some(version) = Version::of(number) else {
        return Err(Damaged::Version);
    };
    Ok((version, body))
}

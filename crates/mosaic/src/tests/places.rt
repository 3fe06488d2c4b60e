//! Tests of the program on places in memory: which files it asks for, what it writes, and what it writes if a call of a
//! disk fails.
ghost use Rattle.std.specs.Prelude.{◌≡◌, ◌≤◌, [], IfOk};
ghost use Rattle.disk.specs.Disk.{CountsFault, counted};

use super::{lossy, owned};
use disk::{Disk, Fault};
use server::{CheckedWriter, Exit, Language, Lengthen, MakeFault, Places, TileFault, carry_out};
use std::alloc::{AllocError, Global};
use std::test::Fail;
use store::Store;
use test_tiles::{A, check_found};

/// Sectors in memory, one of whose calls fails, by its number from 0. Its contract promises nothing about their bytes.
#[derive(Drop)]
struct PlainDisk {
    sectors: Vec<[u8; 4096]>,
    count: u32,
    calls: u64,
    fault: u64,
    failures: u64,
    writes: u64,
}

impl PlainDisk {
    /// This many sectors of zeros. No call fails.
    fn zeros(alloc: Global, count: u32) -> Result<PlainDisk, AllocError>
        ensures { IfOk result (λ disk. disk.count ≡ count) }
    {
        Ok(PlainDisk {
            sectors: vec![in alloc; [0; 4096]; count as usize]?,
            count,
            calls: 0,
            fault: u64::MAX,
            failures: 0,
            writes: 0,
        })
    }

    /// Makes this call fail, and no other.
    fn fail_at(&mut self, fault: u64)
        ensures { self.new.count ≡ self.old.count }
    {
        self.calls = 0;
        self.fault = fault;
    }

    /// Counts a failure.
    fn count_failure(&mut self) -> Fault
        ensures count { self.new.count ≡ self.old.count }
        ensures writes { self.new.writes ≡ self.old.writes }
        ensures failures { self.new.failures ≡ counted self.old.failures }
        ensures later { self.old.failures ≤ self.new.failures }
    {
        self.failures = self.failures.saturating_add(1);
        Fault
    }

    /// Counts one call, and fails it if it is the one to fail.
    fn call(&mut self) -> Result<(), Fault>
        ensures count { self.new.count ≡ self.old.count }
        ensures writes { self.new.writes ≡ self.old.writes }
        ensures failures { CountsFault self.old.failures self.new.failures result }
    {
        let call = self.calls;
        self.calls = call.saturating_add(1);
        if call == self.fault {
            return Err(self.count_failure());
        }
        Ok(())
    }
}

impl Disk for PlainDisk {
    ghost honest = { λ disk. ⊥ };

    ghost size = { λ disk. disk.count };

    ghost seen = { λ disk s. [] };

    ghost may = { λ disk image. ⊥ };

    ghost moment = { λ disk. 0 };

    ghost since = { λ disk t image. ⊥ };

    ghost failures = { λ disk. disk.failures };

    ghost writes = { λ disk. disk.writes };

    ghost has_read = { λ old s ok bytes new. Unit {0} };

    ghost seen_may = { λ disk honest. absurd honest };

    ghost counts_now = { λ disk t image honest le may. absurd honest };

    ghost only_now = { λ disk image honest since. absurd honest };

    fn sectors(&self) -> u32 {
        self.count
    }

    fn read(&mut self, s: u32, into: &mut [u8; 4096]) -> Result<(), Fault> {
        self.call()?;
        if let Some(sector) = self.sectors.get(s as usize) {
            *into = *sector;
        }
        Ok(())
    }

    fn write(&mut self, s: u32, from: &[u8; 4096]) -> Result<(), Fault> {
        self.writes = self.writes.saturating_add(1);
        self.call()?;
        if let Some(sector) = self.sectors.get_mut(s as usize) {
            *sector = *from;
        }
        Ok(())
    }

    fn sync(&mut self) -> Result<(), Fault> {
        self.call()
    }
}

impl Lengthen for PlainDisk {
    fn lengthen(&mut self, sectors: u32) -> Result<(), Fault> {
        self.call()?;
        if sectors <= self.count {
            return Ok(());
        }
        if self.sectors.resize(sectors as usize, [0; 4096]).is_err() {
            return Err(self.count_failure());
        }
        self.count = sectors;
        Ok(())
    }
}

/// One store's file and one tile's, in memory, with a line for each access so far.
#[derive(Drop)]
struct MemoryPlaces<'a> {
    alloc: Global,
    path: &'a str,
    store: Option<PlainDisk>,
    tile: &'a str,
    bytes: &'a [u8],
    // The number of the call that fails on a new file.
    fault: u64,
    accesses: Vec<u8>,
}

impl MemoryPlaces<'_> {
    /// Records an access. If memory is refused, the record lacks it, and the test fails.
    fn note(&mut self, access: &[u8], path: &str) {
        let _ = self.accesses.extend_from_slice(access);
        let _ = self.accesses.extend_from_slice(path.as_bytes());
        let _ = self.accesses.push(b'\n');
    }
}

impl Places for MemoryPlaces<'_> {
    type File = PlainDisk;

    ghost accessed = { λ old access new. Unit {0} };

    fn make(&mut self, path: &str, sectors: u32) -> Result<PlainDisk, MakeFault> {
        self.note(b"make ", path);
        if path == self.path && self.store.is_some() {
            return Err(MakeFault::Exists);
        }
        let mut disk = PlainDisk::zeros(self.alloc, sectors).map_err(|_| MakeFault::Closed)?;
        disk.fail_at(self.fault);
        Ok(disk)
    }

    fn open(&mut self, path: &str) -> Option<PlainDisk> {
        self.note(b"open ", path);
        if path == self.path {
            self.store.take()
        } else {
            None
        }
    }

    fn close(&mut self, disk: PlainDisk) {
        self.store = Some(disk);
    }

    fn read(&mut self, path: &str, most: u32) -> Result<Vec<u8>, TileFault> {
        self.note(b"read ", path);
        if path != self.tile {
            return Err(TileFault::Unreadable);
        }
        let count = self.bytes.len().min(most as usize);
        Vec::from_slice(self.alloc, &self.bytes[..count]).map_err(|_| TileFault::NoMemory)
    }
}

/// No call of the disk fails.
const NONE: u64 = u64::MAX;

/// A run of the program on the store after the runs before it, with this failing call of its disk.
struct Row {
    words: &'static [&'static str],
    input: &'static [u8],
    fault: u64,
    status: u8,
    written: &'static [u8],
    accesses: &'static [u8],
}

/// No input, no fault, and a refusal after the store was opened.
const REFUSED: Row = Row {
    words: &[],
    input: b"",
    fault: NONE,
    status: 1,
    written: b"",
    accesses: b"open m\n",
};

const ROWS: [Row; 15] = [
    Row {
        words: &["serve", "m"],
        input: b"count\n",
        written: b"mosaic: cannot open m\n",
        ..REFUSED
    },
    Row {
        words: &["format", "m", "2", "1"],
        written: b"ERR 32 BadSide\n",
        accesses: b"",
        ..REFUSED
    },
    Row {
        words: &["format", "m", "3", "1"],
        status: 0,
        written: b"OK 0\n",
        accesses: b"make m\n",
        ..REFUSED
    },
    Row {
        words: &["format", "m", "3", "1"],
        written: b"mosaic: exists m\n",
        accesses: b"make m\n",
        ..REFUSED
    },
    Row {
        words: &["import", "m", "A.hgt"],
        written: b"ERR 2 BadName\n",
        accesses: b"",
        ..REFUSED
    },
    Row {
        words: &["import", "x", "N00E000.hgt"],
        written: b"mosaic: cannot open x\n",
        accesses: b"open x\n",
        ..REFUSED
    },
    Row {
        words: &["import", "m", "N00E001.hgt"],
        written: b"mosaic: cannot read N00E001.hgt\n",
        accesses: b"open m\nread N00E001.hgt\n",
        ..REFUSED
    },
    Row {
        words: &["import", "m", "N00E000.hgt"],
        status: 0,
        written: b"OK 1\n",
        accesses: b"open m\nread N00E000.hgt\n",
        ..REFUSED
    },
    Row {
        words: &["serve", "m"],
        input: b"elev 0 2\ncount\n",
        status: 0,
        written: b"OK 5\nOK 1\n",
        ..REFUSED
    },
    Row {
        words: &["serve", "m"],
        input: b"count\n",
        fault: 0,
        written: b"ERR 20 Device\n",
        ..REFUSED
    },
    Row {
        words: &["check", "m"],
        fault: 1,
        written: b"ERR 20 Device\n",
        ..REFUSED
    },
    Row {
        words: &["check", "m"],
        status: 0,
        written: b"count 1 commits 2\nN00E000 stale\nseams 0\n",
        ..REFUSED
    },
    Row {
        words: &["upgrade", "m"],
        written: b"ERR 35 NotOld\n",
        ..REFUSED
    },
    Row {
        words: &["table", "3", "1"],
        input: b"count\n",
        status: 0,
        written: b"OK 0\n",
        accesses: b"",
        ..REFUSED
    },
    Row {
        words: &["serve", "m", "m"],
        input: b"count\n",
        status: 2,
        written: b"mosaic: bad arguments\n",
        accesses: b"",
        ..REFUSED
    },
];

/// Places without a store, and with one tile.
fn one_tile(alloc: Global) -> MemoryPlaces<'static> {
    MemoryPlaces {
        alloc,
        path: "m",
        store: None,
        tile: "N00E000.hgt",
        bytes: &A,
        fault: NONE,
        accesses: Vec::new(alloc),
    }
}

/// What the program answers and writes on these places. The disk that it returns is at its path again.
fn run_on(
    alloc: Global,
    places: &mut MemoryPlaces<'_>,
    words: &[&str],
    input: &[u8],
) -> Result<(u8, Vec<u8>), AllocError> {
    let words = owned(alloc, words)?;
    let mut reader = input;
    let mut writer = CheckedWriter::new(Vec::new(alloc));
    places.accesses.clear();
    let Exit { status, disk } = carry_out(
        alloc,
        Language::Plain,
        places,
        &words,
        &mut reader,
        &mut writer,
    );
    let left = places.store.take();
    places.store = disk.or(left);
    Ok((status, writer.into_inner()))
}

#[test]
fn subcommands_in_memory(rt: HostRuntime) -> Result<(), Fail> {
    let alloc = rt.alloc();
    let mut places = one_tile(alloc);
    for row in &ROWS {
        if let Some(disk) = &mut places.store {
            disk.fail_at(row.fault);
        }
        let (status, output) = run_on(alloc, &mut places, row.words, row.input)?;
        let written = lossy(alloc, &output);
        let wanted = lossy(alloc, row.written);
        check_found(&row.words, &(status, written), &(row.status, wanted))?;
        check_found(&row.words, &places.accesses.as_slice(), &row.accesses)?;
    }
    Ok(())
}

/// A run with a disk that fails: its words, the version of the existing store, and what it writes if no call fails.
type FaultRow = (&'static [&'static str], Option<u32>, &'static [u8]);

const FAULTS: [FaultRow; 3] = [
    (&["format", "m", "3", "1"], None, b"OK 0\n"),
    (&["import", "m", "N00E000.hgt"], Some(2), b"OK 1\n"),
    (&["upgrade", "m"], Some(1), b"OK 0\n"),
];

/// An empty store of this version, with room for one tile.
fn empty_store(alloc: Global, version: u32) -> Result<PlainDisk, Fail> {
    let mut disk = PlainDisk::zeros(alloc, if version == 1 { 16 } else { 22 })?;
    let is_made = if version == 1 {
        Store::format_1(&mut disk, 3, 1)
    } else {
        Store::format(&mut disk, 3, 1)
    };
    is_made.map_err(|_| "not formatted")?;
    Ok(disk)
}

/// If this call of the disk fails the program writes Device, and otherwise `OK`.
fn check_fault(alloc: Global, row: FaultRow, fault: u64) -> Result<(), Fail> {
    let (words, version, done) = row;
    let mut places = one_tile(alloc);
    places.fault = fault;
    if let Some(version) = version {
        let mut disk = empty_store(alloc, version)?;
        disk.fail_at(fault);
        places.store = Some(disk);
    }
    let (status, output) = run_on(alloc, &mut places, words, b"")?;
    let failures = places.store.as_ref().map_or(0, |disk| disk.failures);
    let wanted = if failures == 0 {
        (0, lossy(alloc, done))
    } else {
        (1, lossy(alloc, b"ERR 20 Device\n"))
    };
    check_found(&(words, fault), &(status, lossy(alloc, &output)), &wanted)
}

/// Each call of the disk fails in turn; every run here makes fewer calls than the limit.
fn check_faults(alloc: Global, row: FaultRow) -> Result<(), Fail> {
    for fault in 0..60 {
        check_fault(alloc, row, fault)?;
    }
    Ok(())
}

#[test]
fn faults_of_a_disk(rt: HostRuntime) -> Result<(), Fail> {
    for row in FAULTS {
        check_faults(rt.alloc(), row)?;
    }
    Ok(())
}

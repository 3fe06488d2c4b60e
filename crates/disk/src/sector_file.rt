//! A file by its sectors: which calls a write, a sync and a failed sync make.
//!
//! After a failed sync, some systems call bytes written that the drive never took, and the next sync answers Ok without
//! a write. So the system is asked to drop its cache of the file. If it can't be asked, the next sync asks again, and
//! fails in any case, since reads of unsettled sectors may give other bytes from then on. Last, if one sector alone was
//! written since the last good sync (a gate is), it is written again as the system reads it. The next sync of any
//! process then has to put it on the drive. The sector is unsettled until then.
//!
//! A process may be killed in such a sync. So while a write isn't synced, a note beside the file names the first
//! written sector, and the next opening writes that sector again.
ghost use Rattle.std.specs.Prelude.{◌≡◌, ◌/◌, length, [], IfOk, is_ok, min, true, false};
ghost use Rattle.disk.specs.Doubts.{doubted_of};
ghost use Rattle.disk.specs.FileCalls.{aside, makes, opens, closes};
ghost use Rattle.disk.specs.FileSteps.{reached, recorded, unsynced_of, writing, WritesAgain, Syncs, Lengthens, IsMaking, Heals, IsOpened, noted_within};

use crate::files::{Files, RecordedFile, SECTOR_BYTES};
use crate::transcript::Transcript;
use crate::unsynced::Unsynced;
use std::io;

// The system's error number for a call that the drive failed.
const EIO: i32 = 5;

#[derive(Drop)]
pub(crate) struct SectorFile {
    calls: RecordedFile,
    // The record of the calls that made or opened the file.
    opening: Transcript,
    unsynced: Unsynced,
    ghost told: { unsynced ≡ unsynced_of (recorded calls) },
}

impl SectorFile {
    ghost use Rattle.std.specs.Prelude.{◌∷◌};
    ghost use Rattle.disk.specs.FileCalls.{read};
    ghost use Rattle.disk.specs.FileDisk.{calls_in, opening_in};

    /// Makes a file of this many sectors of zeros. It is synced, so that the image of the first reads is settled. The
    /// note of an earlier file is removed.
    pub(crate) fn make(files: &mut Files, path: &str, sectors: u32) -> io::Result<SectorFile>
        ensures reached { reached files.new ≡ aside (makes path.now) ∷ reached files.old }
        ensures calls { IfOk result (λ made. calls_in made ≡ []) }
        ensures opening { IfOk result (λ made. IsMaking sectors (opening_in made)) }
    {
        let mut file = RecordedFile::make(files, path)?;
        file.lock()?;
        file.sync_folder(path)?;
        let _ = file.read_note();
        file.resize(sectors)?;
        file.sync_all()?;
        file.clear_note()?;
        Ok(SectorFile::begun(file))
    }

    /// Opens an existing file, and counts its whole sectors. The sector that a note beside it names was never settled,
    /// so writing it again adds no image that a stop may leave.
    pub(crate) fn open(files: &mut Files, path: &str) -> io::Result<(SectorFile, u32)>
        ensures reached { reached files.new ≡ aside (opens path.now) ∷ reached files.old }
        ensures calls { IfOk result (λ opened. calls_in opened.0 ≡ []) }
        ensures opening { IfOk result (λ opened. IsOpened opened.1 (opening_in opened.0)) }
    {
        let mut file = RecordedFile::open(files, path)?;
        file.lock()?;
        let bytes = file.measure()?;
        let sectors = whole_sectors(bytes);
        let found = file.read_note();
        match within(found, sectors) {
            Some(s) => heal(&mut file, s)?,
            None => file.sync_all()?,
        }
        file.clear_note()?;
        Ok((SectorFile::begun(file), sectors))
    }

    pub(crate) fn close(self, files: &mut Files)
        ensures { reached files.new ≡ aside (closes (length (calls_in self))) ∷ reached files.old }
    {
        self.calls.close(files);
    }

    fn begun(file: RecordedFile) -> SectorFile
        requires { doubted_of (recorded file) ≡ false }
        ensures calls { calls_in result ≡ [] }
        ensures opening { opening_in result ≡ recorded file }
    {
        let mut calls = file;
        let opening = calls.begin_anew();
        SectorFile {
            calls,
            opening,
            unsynced: Unsynced::Clean,
        }
    }

    pub(crate) fn read(&mut self, s: u32, into: &mut [u8; 4096]) -> io::Result<()>
        ensures { calls_in self.new ≡ read s (is_ok result) into.new ∷ calls_in self.old }
    {
        self.calls.read_sector(s, into)
    }

    pub(crate) fn write(&mut self, s: u32, from: &[u8; 4096]) -> io::Result<()>
        ensures { calls_in self.new ≡ writing s (is_ok result) from.now (calls_in self.old) }
    {
        if self.unsynced.is_clean() {
            self.calls.set_note(s);
        }
        self.unsynced = self.unsynced.with(s);
        self.calls.write_sector(s, from)
    }

    pub(crate) fn sync(&mut self) -> io::Result<()>
        ensures told { Syncs (calls_in self.old) (calls_in self.new) (is_ok result) }
        ensures heeded { doubted_of (calls_in self.old) ≡ true → is_ok result ≡ false }
    {
        let answer = self.calls.sync();
        if answer.is_ok() {
            self.unsynced = Unsynced::Clean;
            return answer;
        }
        let _ = self.calls.forget();
        if let Unsynced::Lone(s) = self.unsynced {
            let _ = write_again(&mut self.calls, s);
        }
        answer
    }

    /// Cuts the file to its whole sectors, then makes it longer by sectors of zeros.
    pub(crate) fn lengthen(&mut self, from: u32, to: u32) -> io::Result<()>
        ensures { Lengthens from to (calls_in self.old) (calls_in self.new) (is_ok result) }
    {
        self.calls.resize(from)?;
        self.calls.resize(to)?;
        self.calls.sync_length()
    }
}

/// Puts the noted sector on the drive, and has the system drop its cache of the file. If the system can't be asked, the
/// file is opened all the same, unless the drive failed a call.
fn heal(file: &mut RecordedFile, s: u32) -> io::Result<()>
    ensures { IfOk result (λ _. Heals s (recorded file.old) (recorded file.new)) }
{
    write_again(file, s)?;
    file.sync_all()?;
    match file.forget() {
        Err(error) if is_fault(&error) => Err(error),
        _ => Ok(()),
    }
}

fn is_fault(error: &io::Error) -> bool {
    error.raw_os_error() == Some(EIO)
}

/// Reads a sector and writes it again.
fn write_again(file: &mut RecordedFile, s: u32) -> io::Result<()>
    ensures { WritesAgain s (recorded file.old) (recorded file.new) (is_ok result) }
{
    let mut sector = [0; 4096];
    match file.read_sector(s, &mut sector) {
        Ok(()) => file.write_sector(s, &sector),
        Err(error) => Err(error),
    }
}

/// The whole sectors of a file of so many bytes.
pub(crate) fn whole_sectors(bytes: u64) -> u32
    ensures { result ≡ min (bytes / 4096) 4294967295 }
{
    u32::try_from(bytes / SECTOR_BYTES).unwrap_or(u32::MAX)
}

/// The noted sector, if the file has it.
fn within(found: Option<u32>, sectors: u32) -> Option<u32>
    ensures { result ≡ noted_within sectors found }
{
    match found {
        Some(s) if s < sectors => Some(s),
        _ => None,
    }
}

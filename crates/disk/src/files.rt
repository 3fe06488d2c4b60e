//! The files of the system, and each call on one.
//!
//! No other module has the system's handles. Each method makes the call that its name says, and records the call with
//! its answer. A reader has to see that it makes no other call. All else is proved from the record.
ghost use Rattle.std.specs.Prelude.{◌≡◌, ◌*◌, [], ◌∷◌, length, take, is_ok, IfOk, IfSome, true, false};
ghost use Rattle.disk.specs.Doubts.{doubted_of};
ghost use Rattle.disk.specs.FileCalls.{read, written, synced, forgotten, aside, makes, opens, opens_to_read, closes, made, opened, locked, folder_synced, note_read, resized, length_synced, noted, cleared};

use crate::limit::FileLimit;
use crate::note::{Names, Note};
use crate::transcript::{FileCall, Transcript};
use sqlite_std_file::{OpenError, Unknown};
use std::alloc::Global;
use std::fs::{self, File, Metadata, OpenOptions};
use std::io::{self, ErrorKind, Read};
use std::mem;
use std::os::unix::fs::{FileExt, MetadataExt, symlink};
use std::path::Path;

pub(crate) const SECTOR_BYTES: u64 = 4096;

// The system's boot id differs at each start.
const BOOT: &str = "/proc/sys/kernel/random/boot_id";

const LIMITS: &str = "/proc/self/limits";

/// The files of the system by their paths, with a record of the files asked for.
#[derive(Drop)]
pub struct Files {
    rt: HostRuntime,
    transcript: Transcript,
}

impl Files {
    ghost use Rattle.disk.specs.FileSteps.{answered, reached, reading};

    /// All files that this runtime can open.
    pub fn new(rt: &HostRuntime) -> Files {
        Files {
            rt: *rt,
            transcript: Transcript::new(),
        }
    }

    /// At most the first `most` bytes of a regular file. The kind of the file is tested before it is opened: opening a
    /// pipe waits for a writer, and opening a device may act on it. It is tested again afterwards, since another file
    /// may be at the path by then.
    pub fn read(&mut self, path: &str, most: u32) -> io::Result<Vec<u8>>
        ensures { reached self.new ≡ aside (reading path.now most result) ∷ reached self.old }
    {
        match read_regular(&self.rt, path, most) {
            Ok(bytes) => {
                self.note_reach(&FileCall::Reads(path, most, bytes.as_slice()));
                Ok(bytes)
            }
            Err(error) => {
                self.note_reach(&FileCall::ReadsNothing(path, most));
                Err(error)
            }
        }
    }

    fn note_reach(&mut self, call: &FileCall<'_>)
        ensures { reached self.new ≡ answered call.now ∷ reached self.old }
    {
        self.transcript = self.transcript.and(call);
    }
}

/// An open file that keeps a record of its calls.
#[derive(Drop)]
pub(crate) struct RecordedFile {
    rt: HostRuntime,
    file: File,
    // The file's path and the paths beside it, if they could be found.
    names: Option<Names>,
    note: Note,
    limit: FileLimit,
    // A sync has failed, and the system hasn't dropped its cache of the file since.
    doubted: bool,
    transcript: Transcript,
    ghost heeds: { doubted ≡ doubted_of transcript.calls },
}

impl RecordedFile {
    ghost use Rattle.disk.specs.FileSteps.{answered, reached, recorded, Measures};

    // Makes the file, if nothing is at the path.
    pub(crate) fn make(files: &mut Files, path: &str) -> io::Result<RecordedFile>
        ensures reached { reached files.new ≡ aside (makes path.now) ∷ reached files.old }
        ensures noted { IfOk result (λ file. recorded file ≡ aside made ∷ []) }
    {
        files.note_reach(&FileCall::Makes(path));
        let file = OpenOptions::new()
            .read(true)
            .write(true)
            .create_new(true)
            .open(&files.rt, path)?;
        RecordedFile::begun(&files.rt, path, file, &FileCall::Made)
    }

    // Opens the regular file at the path. Its kind is tested before: opening a device may act on it.
    pub(crate) fn open(files: &mut Files, path: &str) -> io::Result<RecordedFile>
        ensures reached { reached files.new ≡ aside (opens path.now) ∷ reached files.old }
        ensures noted { IfOk result (λ file. recorded file ≡ aside opened ∷ []) }
    {
        files.note_reach(&FileCall::Opens(path));
        ask_regular(&fs::metadata(&files.rt, path)?)?;
        let file = OpenOptions::new()
            .read(true)
            .write(true)
            .open(&files.rt, path)?;
        ask_regular(&file.metadata()?)?;
        RecordedFile::begun(&files.rt, path, file, &FileCall::Opened)
    }

    // Opens the regular file at the path for reads alone. It may be one that this user may not write.
    pub(crate) fn open_to_read(files: &mut Files, path: &str) -> io::Result<RecordedFile>
        ensures reached { reached files.new ≡ aside (opens_to_read path.now) ∷ reached files.old }
        ensures noted { IfOk result (λ file. recorded file ≡ aside opened ∷ []) }
    {
        files.note_reach(&FileCall::OpensToRead(path));
        let file = open_regular(&files.rt, path)?;
        RecordedFile::begun(&files.rt, path, file, &FileCall::Opened)
    }

    // Where a standard stream is closed the file was opened under its number, and what is written to the stream would be
    // written to the file. A clone has a number from 3 on, and is the same open file.
    fn begun(
        rt: &HostRuntime,
        path: &str,
        file: File,
        call: &FileCall<'_>,
    ) -> io::Result<RecordedFile>
        requires { doubted_of (answered call.now ∷ []) ≡ false }
        ensures { IfOk result (λ file. recorded file ≡ answered call.now ∷ []) }
    {
        let file = file.try_clone()?;
        let boot = fs::read_to_string(rt, BOOT).ok();
        let limits = fs::read_to_string(rt, LIMITS).ok();
        let path = fs::canonicalize(rt, path).ok();
        Ok(RecordedFile {
            rt: *rt,
            names: path.and_then(|path| Names::beside(rt.alloc(), path.as_str())),
            note: Note::of_file(rt.alloc(), &file.metadata()?, boot),
            limit: FileLimit::in_table(limits),
            file,
            doubted: false,
            transcript: Transcript::new().and(call),
        })
    }

    // Closes the file.
    pub(crate) fn close(self, files: &mut Files)
        ensures { reached files.new ≡ aside (closes (length (recorded self))) ∷ reached files.old }
    {
        files.note_reach(&FileCall::Closes(&self.transcript));
    }

    // Returns the record so far and begins a new one, with no doubt about the file.
    pub(crate) fn begin_anew(&mut self) -> Transcript
        requires { doubted_of (recorded self.old) ≡ false }
        ensures past { result.calls ≡ recorded self.old }
        ensures anew { recorded self.new ≡ [] }
    {
        mem::replace(&mut self.transcript, Transcript::new())
    }

    // Locks the file until it is closed.
    pub(crate) fn lock(&mut self) -> io::Result<()>
        ensures { recorded self.new ≡ aside (locked (is_ok result)) ∷ recorded self.old }
    {
        let answer = self.file.try_lock().map_err(io::Error::from);
        self.note_call(&FileCall::Locked(answer.is_ok()));
        answer
    }

    // How many bytes the file has.
    pub(crate) fn measure(&mut self) -> io::Result<u64>
        ensures { Measures result (recorded self.old) (recorded self.new) }
    {
        match self.file.metadata() {
            Ok(found) => {
                let bytes = found.len();
                self.note_call(&FileCall::Measured(true, bytes));
                Ok(bytes)
            }
            Err(error) => {
                self.note_call(&FileCall::Measured(false, 0));
                Err(error)
            }
        }
    }

    // Syncs the file's folder, so that a new name in it survives a stop.
    pub(crate) fn sync_folder(&mut self, path: &str) -> io::Result<()>
        ensures { recorded self.new ≡ aside (folder_synced (is_ok result)) ∷ recorded self.old }
    {
        let answer = File::open(&self.rt, folder_of(path)).and_then(|folder| folder.sync_all());
        self.note_call(&FileCall::FolderSynced(answer.is_ok()));
        answer
    }

    // Reads the note beside the file. Answers the sector that it names, if the note is of this file and of this start
    // of the system.
    pub(crate) fn read_note(&mut self) -> Option<u32>
        ensures { recorded self.new ≡ aside (note_read result) ∷ recorded self.old }
    {
        let link = match &self.names {
            Some(names) => fs::read_link(&self.rt, names.note.as_str()).ok(),
            None => None,
        };
        let found = link.and_then(|link| self.note.read(link.as_str()));
        self.note_call(&FileCall::NoteRead(found));
        found
    }

    // Makes the note for a sector that is about to be written, if the system allows it.
    pub(crate) fn set_note(&mut self, s: u32)
        ensures { recorded self.new ≡ aside (noted s) ∷ recorded self.old }
    {
        if let (Some(names), Some(target)) = (&self.names, self.note.target(self.rt.alloc(), s)) {
            if symlink(&self.rt, target.as_str(), names.note.as_str()).is_ok() {
                self.note.was_set();
            }
        }
        self.note_call(&FileCall::Noted(s));
    }

    // Removes the note. The answer is an error if a note of this file stays.
    pub(crate) fn clear_note(&mut self) -> io::Result<()>
        ensures { recorded self.new ≡ aside (cleared (is_ok result)) ∷ recorded self.old }
    {
        let answer = match &self.names {
            Some(names) if self.note.is_there() => {
                let removed = fs::remove_file(&self.rt, names.note.as_str());
                self.note.was_removed(removed)
            }
            _ => Ok(()),
        };
        self.note_call(&FileCall::Cleared(answer.is_ok()));
        answer
    }

    pub(crate) fn read_sector(&mut self, s: u32, into: &mut [u8; 4096]) -> io::Result<()>
        ensures { recorded self.new ≡ read s (is_ok result) into.new ∷ recorded self.old }
    {
        let answer = self.file.read_exact_at(into, offset_of(s));
        self.note_call(&FileCall::Read(s, answer.is_ok(), into));
        answer
    }

    pub(crate) fn write_sector(&mut self, s: u32, from: &[u8; 4096]) -> io::Result<()>
        ensures { recorded self.new ≡ written s (is_ok result) from.now ∷ recorded self.old }
    {
        let answer = match self.limit.ask(offset_of(s) + SECTOR_BYTES) {
            Ok(()) => self.file.write_all_at(from, offset_of(s)),
            refused => refused,
        };
        self.note_call(&FileCall::Written(s, answer.is_ok(), from));
        answer
    }

    // Syncs what was written, and then removes the note. The sync counts as failed if the note stays.
    pub(crate) fn sync(&mut self) -> io::Result<()>
        ensures noted { recorded self.new ≡ synced (is_ok result) ∷ aside (cleared (is_ok result)) ∷ recorded self.old }
        ensures heeded { doubted_of (recorded self.old) ≡ true → is_ok result ≡ false }
    {
        let answer = match self.heed_doubt(self.file.sync_data()) {
            Ok(()) => self.clear_note(),
            failed => {
                self.note_call(&FileCall::Cleared(false));
                failed
            }
        };
        self.note_call(&FileCall::Synced(answer.is_ok()));
        answer
    }

    // Syncs the file with its metadata, the length included.
    pub(crate) fn sync_all(&mut self) -> io::Result<()>
        ensures noted { recorded self.new ≡ synced (is_ok result) ∷ recorded self.old }
        ensures heeded { doubted_of (recorded self.old) ≡ true → is_ok result ≡ false }
    {
        let answer = self.heed_doubt(self.file.sync_all());
        self.note_call(&FileCall::Synced(answer.is_ok()));
        answer
    }

    // Syncs the file after a change of its length alone.
    pub(crate) fn sync_length(&mut self) -> io::Result<()>
        ensures { recorded self.new ≡ aside (length_synced (is_ok result)) ∷ recorded self.old }
    {
        let answer = self.file.sync_all();
        self.note_call(&FileCall::LengthSynced(answer.is_ok()));
        answer
    }

    // Sets the file's length to this many sectors.
    pub(crate) fn resize(&mut self, sectors: u32) -> io::Result<()>
        ensures { recorded self.new ≡ aside (resized sectors (is_ok result)) ∷ recorded self.old }
    {
        let answer = match self.limit.ask(offset_of(sectors)) {
            Ok(()) => self.file.set_len(offset_of(sectors)),
            refused => refused,
        };
        self.note_call(&FileCall::Resized(sectors, answer.is_ok()));
        answer
    }

    // Has the system drop its cache of the file, so that the next read of each sector shows what the drive has. The
    // file is synced first. The answer is an error if the system can't be asked: the file has a second name, its folder
    // takes no new file, or another file is at its path by now.
    pub(crate) fn forget(&mut self) -> io::Result<()>
        ensures { recorded self.new ≡ forgotten (is_ok result) ∷ recorded self.old }
    {
        let answer = self.open_as_database();
        self.note_call(&FileCall::Forgotten(answer.is_ok()));
        answer
    }

    // std has no call for this (`posix_fadvise`). The toolchain's file layer of SQLite makes it for each database that
    // it opens with a log beside it. So an empty file `PATH-wal` is made and removed at once; one that an earlier
    // process left is removed, too. Anything else of that name stays: a regular file is opened as the log, and
    // otherwise the system can't be asked.
    fn open_as_database(&self) -> io::Result<()> {
        let Some(names) = &self.names else {
            return Err(io::Error::from(ErrorKind::NotFound));
        };
        let path = names.file.as_str();
        if !is_same(
            &self.file.metadata()?,
            &fs::symlink_metadata(&self.rt, path)?,
        ) {
            return Err(io::Error::from(ErrorKind::NotFound));
        }
        self.remove_if_empty(names.log.as_str());
        let opened = sqlite_std_file::open(&self.rt, path, Unknown);
        self.remove_if_empty(names.log.as_str());
        match opened {
            Ok(_) => Ok(()),
            Err(OpenError::Io(error)) => Err(error),
            Err(_) => Err(io::Error::from(ErrorKind::Unsupported)),
        }
    }

    fn remove_if_empty(&self, log: &str) {
        if let Ok(there) = fs::symlink_metadata(&self.rt, log) {
            if there.is_file() && there.len() == 0 {
                let _ = fs::remove_file(&self.rt, log);
            }
        }
    }

    // After a failed sync each further sync counts as failed, until the system has dropped its cache of the file.
    fn heed_doubt(&self, answer: io::Result<()>) -> io::Result<()>
        ensures { doubted_of (recorded self.now) ≡ true → is_ok result ≡ false }
    {
        if self.doubted {
            return answer.and(Err(io::Error::from(ErrorKind::Other)));
        }
        answer
    }

    fn note_call(&mut self, call: &FileCall<'_>)
        ensures { recorded self.new ≡ answered call.now ∷ recorded self.old }
    {
        self.doubted = call.leaves_doubt(self.doubted);
        self.transcript = self.transcript.and(call);
    }
}

fn read_regular(rt: &HostRuntime, path: &str, most: u32) -> io::Result<Vec<u8>> {
    read_at_most(rt.alloc(), open_regular(rt, path)?, most)
}

fn open_regular(rt: &HostRuntime, path: &str) -> io::Result<File> {
    ask_regular(&fs::metadata(rt, path)?)?;
    let file = File::open(rt, path)?;
    ask_regular(&file.metadata()?)?;
    Ok(file)
}

// The bytes of a reader, at most the first `most`.
fn read_at_most<R: Read + Drop>(alloc: Global, reader: R, most: u32) -> io::Result<Vec<u8>>
    ensures { IfOk result (λ bytes. IfSome (R.remaining reader) (λ all. bytes.items ≡ take most all)) }
{
    let mut bytes = Vec::with_capacity(alloc, most as usize)?;
    reader.take(u64::from(most)).read_to_end(&mut bytes)?;
    Ok(bytes)
}

fn ask_regular(found: &Metadata) -> io::Result<()> {
    if found.is_file() {
        Ok(())
    } else {
        Err(io::Error::from(ErrorKind::InvalidInput))
    }
}

fn is_same(a: &Metadata, b: &Metadata) -> bool {
    a.dev() == b.dev() && a.ino() == b.ino()
}

fn folder_of(path: &str) -> Path<'_> {
    match Path::new(path).parent() {
        Some(folder) if !folder.as_str().is_empty() => folder,
        _ => Path::new("."),
    }
}

fn offset_of(s: u32) -> u64
    ensures { result ≡ s * 4096 }
{
    u64::from(s) * SECTOR_BYTES
}

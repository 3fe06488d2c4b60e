//! A disk over a file.
ghost use Rattle.std.specs.Prelude.{◌≡◌, ◌<◌, ◌≤◌, [], ◌∷◌, is_ok, IfOk, OnOk, OnErr, max, true, false};
ghost use Rattle.disk.specs.Disk.{SameBut, TornAt, NoneNew, Only, counted, CountsFault, Elapses, Nothing};
ghost use Rattle.disk.specs.FileCalls.{read, aside, makes, opens, closes};
ghost use Rattle.disk.specs.FileMembers.{seen_left, now_left, only_left};
ghost use Rattle.disk.specs.Doubts.{doubted_of};
ghost use Rattle.disk.specs.FileSteps.{reached, recorded, writing, Syncs, HasLengthened, IsMaking, IsOpened};

use crate::files::Files;
use crate::sector_file::SectorFile;
use crate::{Disk, Fault, World};
use std::io;
use std::marker::PhantomData;

/// A file as a disk: its bytes, cut into sectors.
///
/// A call on the file that fails or is cut short is a fault. No contract sees a file's bytes. So this disk has a ghost
/// record of its calls with their answers, and `W` names the images that reads give. The disk is honest if each
/// recorded answer is right for these images; that a real file is honest is assumed.
///
/// The file is locked while the disk lives, so that no other `FileDisk` opens it. The lock is advisory: a program that
/// doesn't ask for it isn't kept away.
#[derive(Drop)]
pub struct FileDisk<W> {
    file: SectorFile,
    count: u32,
    failures: u64,
    writes: u64,
    world: PhantomData<W>,
}

impl<W: World> FileDisk<W> {
    ghost use Rattle.disk.specs.FileDisk.{calls_in, opening_in, calls_of, opening_of, moment_of, sectors_of, failures_of, writes_of};

    /// Makes a file of this many sectors of zeros, all of them settled.
    ///
    /// A path that exists already is refused as `ErrorKind::AlreadyExists`. If a later call fails, the partly made file
    /// stays.
    pub fn create(files: &mut Files, path: &str, sectors: u32) -> io::Result<FileDisk<W>>
        // One file was asked for, once.
        ensures reached { reached files.new ≡ aside (makes path.now) ∷ reached files.old }
        ensures calls { IfOk result (λ disk. calls_of disk ≡ []) }

        // The file was made this long and synced, and nothing was written to it.
        ensures opening { IfOk result (λ disk. IsMaking sectors (opening_of disk)) }
        ensures sectors { IfOk result (λ disk. sectors_of disk ≡ sectors) }
        ensures failures { IfOk result (λ disk. failures_of disk ≡ 0) }
        ensures writes { IfOk result (λ disk. writes_of disk ≡ 0) }
    {
        let file = SectorFile::make(files, path, sectors)?;
        Ok(FileDisk::over(file, sectors))
    }

    /// Opens a regular file, and syncs it. Its sectors are its length divided by 4096, rounded down, at most 4,294,967,295; the
    /// bytes after the last of them are neither read nor written. Anything but a regular file is refused as
    /// `ErrorKind::InvalidInput`, a file that is open as a disk already as `ErrorKind::WouldBlock`.
    ///
    /// After a sync that failed, in whatever process, some systems call sectors written that the drive never took. So a link
    /// `PATH-unsynced` exists while a write isn't synced. An opening that finds one writes the sector that it names again, as it
    /// is read, syncs, and has the system drop its cache of the file. For that an empty file `PATH-wal` lies beside it for a
    /// moment.
    pub fn open(files: &mut Files, path: &str) -> io::Result<FileDisk<W>>
        // One file was asked for, once.
        ensures reached { reached files.new ≡ aside (opens path.now) ∷ reached files.old }
        ensures calls { IfOk result (λ disk. calls_of disk ≡ []) }

        // At most one sector was written, with the bytes that it had.
        ensures opening { IfOk result (λ disk. IsOpened (sectors_of disk) (opening_of disk)) }
        ensures failures { IfOk result (λ disk. failures_of disk ≡ 0) }
        ensures writes { IfOk result (λ disk. writes_of disk ≡ 0) }
    {
        let (file, sectors) = SectorFile::open(files, path)?;
        Ok(FileDisk::over(file, sectors))
    }

    /// Appends sectors of zeros until the file has this many, and syncs it. A disk that has as many stays unchanged.
    /// New sectors replace bytes after the last whole sector. The file stays open and locked throughout.
    ///
    /// A call on the file that fails is a fault. Then the disk has the sectors that it had, and the file may be longer.
    pub fn lengthen(&mut self, sectors: u32) -> Result<(), Fault>
        ensures calls { HasLengthened (sectors_of self.old) sectors (calls_of self.old) (calls_of self.new) (is_ok result) }
        ensures sectors { OnOk result (sectors_of self.new ≡ max (sectors_of self.old) sectors) }
        ensures as_before { OnErr result (sectors_of self.new ≡ sectors_of self.old) }
        ensures failures { CountsFault (failures_of self.old) (failures_of self.new) result }
        ensures writes { writes_of self.new ≡ writes_of self.old }
    {
        if sectors <= self.count {
            return Ok(());
        }
        let answer = self.file.lengthen(self.count, sectors);
        self.tally(answer)?;
        self.count = sectors;
        Ok(())
    }

    /// Closes the file. `files` takes the record of the calls made on it.
    pub fn close(self, files: &mut Files)
        ensures { reached files.new ≡ aside (closes (moment_of self)) ∷ reached files.old }
    {
        self.file.close(files);
    }

    fn over(file: SectorFile, sectors: u32) -> FileDisk<W>
        ensures calls { calls_of result ≡ calls_in file }
        ensures opening { opening_of result ≡ opening_in file }
        ensures sectors { sectors_of result ≡ sectors }
        ensures failures { failures_of result ≡ 0 }
        ensures writes { writes_of result ≡ 0 }
    {
        FileDisk {
            file,
            count: sectors,
            failures: 0,
            writes: 0,
            world: PhantomData,
        }
    }

    // Counts a call that failed.
    fn tally(&mut self, answer: io::Result<()>) -> Result<(), Fault>
        ensures calls { calls_of self.new ≡ calls_of self.old }
        ensures sectors { sectors_of self.new ≡ sectors_of self.old }
        ensures writes { writes_of self.new ≡ writes_of self.old }
        ensures failures { CountsFault (failures_of self.old) (failures_of self.new) result }
        ensures same { is_ok result ≡ is_ok answer }
    {
        if answer.is_err() {
            self.failures = self.failures.saturating_add(1);
            return Err(Fault);
        }
        Ok(())
    }
}

impl<W: World> Disk for FileDisk<W> {
    ghost use Rattle.disk.specs.FileDisk.{calls_of, moment_of, sectors_of, failures_of, writes_of, IsHonestFor, seen_for, LeftFor, LeftSinceFor};

    ghost honest = { IsHonestFor W.World.image };

    ghost size = { sectors_of };

    ghost seen = { seen_for W.World.image };

    ghost may = { LeftFor W.World.image };

    ghost moment = { moment_of };

    ghost since = { LeftSinceFor W.World.image };

    ghost failures = { failures_of };

    ghost writes = { writes_of };

    ghost has_read = { λ old s ok bytes new. calls_of new ≡ read s ok bytes ∷ calls_of old };

    ghost seen_may = { λ disk. seen_left W.World.image (calls_of disk) };

    ghost counts_now = { λ disk t c honest. now_left W.World.image (calls_of disk) t c };

    ghost only_now = { λ disk c honest. only_left W.World.image (calls_of disk) c };

    fn sectors(&self) -> u32 {
        self.count
    }

    fn read(&mut self, s: u32, into: &mut [u8; 4096]) -> Result<(), Fault>
        requires { s < sectors_of self.old }
        ensures size { sectors_of self.new ≡ sectors_of self.old }
        ensures failures { CountsFault (failures_of self.old) (failures_of self.new) result }
        ensures writes { writes_of self.new ≡ writes_of self.old }
        ensures honest { IsHonestFor W.image self.new → IsHonestFor W.image self.old }
        ensures read { IsHonestFor W.image self.new
            → OnOk result (into.new ≡ seen_for W.image self.old s) }
        ensures seen { IsHonestFor W.image self.new
            → seen_for W.image self.new ≡ seen_for W.image self.old }
        ensures may { IsHonestFor W.image self.new
            → NoneNew (LeftFor W.image self.old) (LeftFor W.image self.new) }
        ensures time { IsHonestFor W.image self.new
            → Elapses (moment_of self.old) (moment_of self.new)
            (LeftSinceFor W.image self.old) (LeftSinceFor W.image self.new) Nothing }

        // The record gains this call with its answer, and no other.
        ensures recorded { calls_of self.new ≡ read s (is_ok result) into.new ∷ calls_of self.old }
    {
        let answer = self.file.read(s, into);
        self.tally(answer)
    }

    fn write(&mut self, s: u32, from: &[u8; 4096]) -> Result<(), Fault>
        requires { s < sectors_of self.old }
        ensures size { sectors_of self.new ≡ sectors_of self.old }
        ensures failures { CountsFault (failures_of self.old) (failures_of self.new) result }
        ensures writes { writes_of self.new ≡ counted (writes_of self.old) }
        ensures honest { IsHonestFor W.image self.new → IsHonestFor W.image self.old }
        ensures written { IsHonestFor W.image self.new
            → OnOk result (seen_for W.image self.new s ≡ from.now) }
        ensures others { IsHonestFor W.image self.new
            → SameBut s (seen_for W.image self.old) (seen_for W.image self.new) }
        ensures may { IsHonestFor W.image self.new
            → NoneNew (TornAt s (LeftFor W.image self.old)) (LeftFor W.image self.new) }
        ensures time { IsHonestFor W.image self.new
            → Elapses (moment_of self.old) (moment_of self.new) (LeftSinceFor W.image self.old) (LeftSinceFor W.image self.new) (TornAt s (LeftFor W.image self.old)) }

        // The record gains only this call with its answer, after the call that makes the sector's note.
        ensures recorded { calls_of self.new ≡ writing s (is_ok result) from.now (calls_of self.old) }
    {
        self.writes = self.writes.saturating_add(1);
        let answer = self.file.write(s, from);
        self.tally(answer)
    }

    fn sync(&mut self) -> Result<(), Fault>
        ensures size { sectors_of self.new ≡ sectors_of self.old }
        ensures failures { CountsFault (failures_of self.old) (failures_of self.new) result }
        ensures writes { writes_of self.new ≡ writes_of self.old }
        ensures honest { IsHonestFor W.image self.new → IsHonestFor W.image self.old }
        ensures durable { IsHonestFor W.image self.new
            → OnOk result (Only (seen_for W.image self.old) (LeftFor W.image self.new)) }
        ensures may { IsHonestFor W.image self.new
            → NoneNew (LeftFor W.image self.old) (LeftFor W.image self.new) }
        ensures time { IsHonestFor W.image self.new
            → Elapses (moment_of self.old) (moment_of self.new)
            (LeftSinceFor W.image self.old) (LeftSinceFor W.image self.new) Nothing }

        // The record gains this call, and the calls that follow a failure.
        ensures recorded { Syncs (calls_of self.old) (calls_of self.new) (is_ok result) }

        // After a failed sync every sync fails until the system has dropped its cache of the file.
        ensures heeded { doubted_of (calls_of self.old) ≡ true → is_ok result ≡ false }
    {
        let answer = self.file.sync();
        self.tally(answer)
    }
}

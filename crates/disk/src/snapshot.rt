//! A file as a disk that is only read, while another program may write it.
ghost use Rattle.std.specs.Prelude.{◌≡◌, ◌≤◌, [], ◌∷◌, is_ok, IfOk};
ghost use Rattle.disk.specs.FileCalls.{read, aside, opens_to_read};
ghost use Rattle.disk.specs.FileSteps.{reached};
ghost use Rattle.disk.specs.Snapshots.{AgreeWith, reads_of};

use crate::files::{Files, RecordedFile};
use crate::sector_file::whole_sectors;
use crate::{Disk, Fault, World};
use std::io;
use std::marker::PhantomData;

/// A file as a disk for reads alone: no lock is taken, no note is heeded, and nothing is written or synced. A write is a fault.
///
/// `W` stands for the image that its reads are to give, number 0 of its images. It is honest where all reads so far agree with
/// that one. Beside a writer that is known only once the root that was read is confirmed (`roots`, `readers_see_one_image`).
#[derive(Drop)]
pub struct SnapshotFile<W> {
    file: RecordedFile,
    count: u32,
    failures: u64,
    writes: u64,
    world: PhantomData<W>,
}

impl<W: World> SnapshotFile<W> {
    /// Opens a regular file. Its sectors are those that it has now.
    pub fn open(files: &mut Files, path: &str) -> io::Result<SnapshotFile<W>>
        ensures reached { reached files.new ≡ aside (opens_to_read path.now) ∷ reached files.old }
        ensures reads { IfOk result (λ disk. reads_of disk ≡ []) }
    {
        let mut file = RecordedFile::open_to_read(files, path)?;
        let bytes = file.measure()?;
        let _ = file.begin_anew();
        Ok(SnapshotFile {
            file,
            count: whole_sectors(bytes),
            failures: 0,
            writes: 0,
            world: PhantomData,
        })
    }
}

impl<W: World> Disk for SnapshotFile<W> {
    ghost honest = { λ disk. AgreeWith (W.World.image 0) (reads_of disk) };

    ghost size = { λ disk. disk.count };

    ghost seen = { λ disk. W.World.image 0 };

    ghost may = { λ disk image. image ≡ W.World.image 0 };

    ghost moment = { λ disk. 0 };

    ghost since = { λ disk t image. (t ≤ 0) × (image ≡ W.World.image 0) };

    ghost failures = { λ disk. disk.failures };

    ghost writes = { λ disk. disk.writes };

    ghost has_read = { λ old s ok bytes new. reads_of new ≡ read s ok bytes ∷ reads_of old };

    ghost seen_may = { λ disk honest i. W.World.image 0 };

    ghost counts_now = { λ disk t image honest earlier left. (earlier, left) };

    ghost only_now = { λ disk image honest left. left.1 };

    fn sectors(&self) -> u32 {
        self.count
    }

    fn read(&mut self, s: u32, into: &mut [u8; 4096]) -> Result<(), Fault> {
        match self.file.read_sector(s, into) {
            Ok(()) => Ok(()),
            Err(_) => {
                self.failures = self.failures.saturating_add(1);
                Err(Fault)
            }
        }
    }

    fn write(&mut self, _s: u32, _from: &[u8; 4096]) -> Result<(), Fault> {
        self.writes = self.writes.saturating_add(1);
        self.failures = self.failures.saturating_add(1);
        Err(Fault)
    }

    fn sync(&mut self) -> Result<(), Fault> {
        Ok(())
    }
}

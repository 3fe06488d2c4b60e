//! The bytes of a store's image in memory, as a disk that is only read.
//!
//! It always keeps the contract of an honest disk: reads give the bytes that it was made from. A write is a fault.
//! Opening a store and asking questions write nothing, so they work as on any disk.
//!
//! ```
//! let mut disk = ImageDisk::new(&image);                 // whole sectors of 4096 bytes; the rest isn't seen
//! disk.read(1, &mut sector)?;                            // the second sector's bytes
//! ```
#![tactic(auto)]

ghost use Rattle.std.specs.Prelude.{◌≡◌, ◌≤◌, ⊤};
ghost use Rattle.disk.specs.Disk.{SameBut, TornAt, NoneNew, Only, counted, CountsFault, Elapses, Nothing};
ghost use Rattle.image_disk.specs.Images.{sectors_in, image_in};

#[cfg(test)]
mod tests;

use disk::{Disk, Fault};

/// The size of a sector in bytes.
const SECTOR_BYTES: usize = 4096;

/// Bytes, cut into sectors. A part of a sector at the end is ignored.
#[derive(Drop)]
pub struct ImageDisk<'a> {
    bytes: &'a [u8],
    failures: u64,
    writes: u64,
    // Only writes fail.
    ghost faults: { failures ≡ writes },
}

impl<'a> ImageDisk<'a> {
    ghost use Rattle.image_disk.specs.ImageDisks.{bytes_of, failures_of};

    /// A disk with these bytes, before any call.
    pub fn new(bytes: &'a [u8]) -> ImageDisk<'a>
        ensures bytes { bytes_of result ≡ bytes.now }
        ensures failures { failures_of result ≡ 0 }
    {
        ImageDisk {
            bytes,
            failures: 0,
            writes: 0,
        }
    }
}

impl<'a> Disk for ImageDisk<'a> {
    ghost use Rattle.image_disk.specs.ImageDisks.{bytes_of};

    ghost honest = { λ disk. ⊤ };

    ghost size = { λ disk. sectors_in (bytes_of disk) };

    ghost seen = { λ disk. image_in (bytes_of disk) };

    ghost may = { λ disk image. image ≡ image_in (bytes_of disk) };

    ghost moment = { λ disk. 0 };

    ghost since = { λ disk t image. (t ≤ 0) × (image ≡ image_in (bytes_of disk)) };

    ghost failures = { λ disk. disk.failures };

    ghost writes = { λ disk. disk.writes };

    ghost has_read = { λ old s ok bytes new. ⊤ };

    ghost seen_may = { λ disk honest i. image_in (bytes_of disk) };

    ghost counts_now = { λ disk t image honest earlier left. (earlier, left) };

    ghost only_now = { λ disk image honest left. left.1 };

    fn sectors(&self) -> u32 {
        u32::try_from(self.bytes.len() / SECTOR_BYTES).unwrap_or(u32::MAX)
    }

    fn read(&mut self, s: u32, into: &mut [u8; 4096]) -> Result<(), Fault> {
        let from = s as usize * SECTOR_BYTES;
        into.copy_from_slice(&self.bytes[from..from + SECTOR_BYTES]);
        Ok(())
    }

    fn write(&mut self, _s: u32, _from: &[u8; 4096]) -> Result<(), Fault> {
        self.writes = self.writes.saturating_add(1);
        self.failures = self.failures.saturating_add(1);
        Err(Fault)
    }

    fn sync(&mut self) -> Result<(), Fault> {
        Ok(())
    }
}

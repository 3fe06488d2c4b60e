//! Images of a disk, which tests change and write to another disk.
use disk::{Disk, MemDisk};
use std::alloc::Global;
use std::test::Fail;

pub(crate) type Sector = [u8; 4096];

/// What reads of a disk give, sector by sector.
#[derive(Drop)]
pub(crate) struct Image {
    pub(crate) sectors: Vec<Sector>,
}

/// Bytes from an index of a sector on.
#[derive(Clone, Copy)]
pub(crate) struct Change<'a> {
    pub(crate) sector: u32,
    pub(crate) at: usize,
    pub(crate) bytes: &'a [u8],
}

impl Image {
    /// The image that reads of the disk give.
    pub(crate) fn of<D: Disk>(alloc: Global, disk: &mut D) -> Result<Image, Fail> {
        let mut sectors = Vec::new(alloc);
        for s in 0..disk.sectors() {
            let mut bytes = [0; 4096];
            if s < disk.sectors() {
                disk.read(s, &mut bytes)?;
            }
            sectors.push(bytes)?;
        }
        Ok(Image { sectors })
    }

    /// A disk with the image, all settled.
    pub(crate) fn disk(&self, alloc: Global) -> Result<MemDisk, Fail> {
        let mut disk = MemDisk::new(alloc, u32::try_from(self.sectors.len()).unwrap_or(0))?;
        for (bytes, s) in self.sectors.iter().zip(0..u32::MAX) {
            if s < disk.sectors() {
                disk.write(s, bytes)?;
            }
        }
        disk.sync()?;
        Ok(disk)
    }

    /// The same image with this many more sectors of zeros.
    pub(crate) fn longer(&self, sectors: u32) -> Result<Image, Fail> {
        let mut longer = self.sectors.clone()?;
        for _ in 0..sectors {
            longer.push([0; 4096])?;
        }
        Ok(Image { sectors: longer })
    }

    /// The same image with those changes that are within it.
    pub(crate) fn with(&self, changes: &[Change]) -> Result<Image, Fail> {
        let mut sectors = self.sectors.clone()?;
        for change in changes {
            if let Some(sector) = sectors.get_mut(change.sector as usize) {
                put(sector, change);
            }
        }
        Ok(Image { sectors })
    }
}

fn put(sector: &mut Sector, change: &Change) {
    for (byte, given) in sector.iter_mut().skip(change.at).zip(change.bytes) {
        *byte = *given;
    }
}

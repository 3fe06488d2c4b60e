//! The contents of a sector of a disk in memory, by the record of calls.
ghost use Rattle.std.specs.Prelude.{◌≡◌, map};
ghost use Rattle.disk.specs.Record.{left_content, settled_content, settled_with};

use crate::Torn;

// A sector's contents: one byte throughout, or the bytes of a write, named by its place in the record.
#[derive(Clone, Copy)]
pub(crate) enum Content {
    Filled(u8),
    Written(usize),
}

// `written` is the number of calls up to the newest write; 0 if a stop has settled the sector since. The sector is
// unsettled if no sync came after that write. Only then does `settled` have a meaning.
#[derive(Clone, Copy)]
pub(crate) struct Sector {
    pub(crate) seen: Content,
    pub(crate) settled: Content,
    pub(crate) written: usize,
}

impl Sector {
    pub(crate) fn settled_with(content: Content) -> Sector
        ensures { result ≡ settled_with content }
    {
        Sector {
            seen: content,
            settled: content,
            written: 0,
        }
    }

    pub(crate) fn settled_content(self, synced: usize) -> Content
        ensures { result ≡ settled_content synced self }
    {
        if synced < self.written {
            self.settled
        } else {
            self.seen
        }
    }

    pub(crate) fn left_content(self, torn: Torn, synced: usize) -> Content
        ensures { result ≡ left_content torn synced self }
    {
        if synced < self.written {
            match torn {
                Torn::Old => self.settled,
                Torn::New => self.seen,
                Torn::Fill(byte) => Content::Filled(byte),
            }
        } else {
            self.seen
        }
    }
}

// Applies a stop to every sector.
pub(crate) fn settle_each(sectors: &mut [Sector], torn: Torn, synced: usize)
    ensures { sectors.new ≡ map (λ sector. settled_with (left_content torn synced sector)) sectors.old }
{
    for sector in sectors.iter_mut() {
        *sector = Sector::settled_with(sector.left_content(torn, synced));
    }
}

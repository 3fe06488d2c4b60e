//! Which sectors of a file were written since its last good sync.
ghost use Rattle.std.specs.Prelude.{◌≡◌, ◌↔◌, IsTrue};
ghost use Rattle.disk.specs.Unsynced.{with_written};

/// Which sectors were written since the last sync that answered Ok.
#[derive(Clone, Copy)]
pub(crate) enum Unsynced {
    Clean,
    Lone(u32),
    Many,
}

impl Unsynced {
    /// The unsynced sectors after this sector is written, too.
    pub(crate) fn with(self, s: u32) -> Unsynced
        ensures { result ≡ with_written self s }
    {
        match self {
            Unsynced::Clean => Unsynced::Lone(s),
            Unsynced::Lone(only) if only == s => self,
            _ => Unsynced::Many,
        }
    }

    pub(crate) fn is_clean(self) -> bool
        ensures { IsTrue result ↔ (self ≡ Unsynced.Clean) }
    {
        matches!(self, Unsynced::Clean)
    }
}

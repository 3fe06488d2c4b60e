//! The kinds of a stop.

/// What a stop leaves of a sector that was written and not synced since.
#[derive(Clone, Copy, Debug, PartialEq, Eq)]
pub enum Torn {
    /// What the last sync left.
    Old,
    /// What was written.
    New,
    /// One byte, repeated.
    Fill(u8),
}

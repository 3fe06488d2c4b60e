//! The two slots, each a root behind a gate.
ghost use Rattle.std.specs.Prelude.{◌≡◌, true, false};
ghost use Rattle.roots.specs.Slots.{is_open, closed_gate, open_gate, gate, root_sector, other};

use page_codec::PAGE_BYTES;

// Slot A has sectors 0 and 1, slot B sectors 2 and 3.
#[derive(Clone, Copy, Debug, PartialEq, Eq)]
pub(crate) enum Slot {
    A,
    B,
}

impl Slot {
    pub(crate) fn gate(self) -> u32
        ensures { result ≡ gate self }
    {
        match self {
            Slot::A => 0,
            Slot::B => 2,
        }
    }

    pub(crate) fn root_sector(self) -> u32
        ensures { result ≡ root_sector self }
    {
        match self {
            Slot::A => 1,
            Slot::B => 3,
        }
    }

    pub(crate) fn other(self) -> Slot
        ensures { result ≡ other self }
    {
        match self {
            Slot::A => Slot::B,
            Slot::B => Slot::A,
        }
    }
}

// The first byte of an open gate. A closed gate begins with another byte.
const OPEN: u8 = 0xa7;

#[tactic(auto, unfolding(crate::specs::Slots::is_open, page_codec::specs::Numbers::zeros))]
pub(crate) fn closed_gate() -> [u8; PAGE_BYTES]
    ensures shut { is_open result ≡ false }
    ensures whole { result ≡ closed_gate }
{
    [0; PAGE_BYTES]
}

#[tactic(auto, unfolding(crate::specs::Slots::is_open, page_codec::specs::Numbers::zeros))]
pub(crate) fn open_gate() -> [u8; PAGE_BYTES]
    ensures opened { is_open result ≡ true }
    ensures whole { result ≡ open_gate }
{
    let mut gate = [0; PAGE_BYTES];
    gate[0] = OPEN;
    gate
}

#[tactic(auto, unfolding(crate::specs::Slots::is_open))]
pub(crate) fn is_open_gate(bytes: &[u8; PAGE_BYTES]) -> bool
    ensures { result ≡ is_open bytes.now }
{
    bytes[0] == OPEN
}

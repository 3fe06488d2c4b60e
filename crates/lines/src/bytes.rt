//! Searches bytes for a byte.
ghost use Rattle.std.specs.Prelude.{◌≡◌, ◌<◌, MatchOption, All, ◌≢◌, length, slice_index, take};

/// The index of the first such byte.
pub fn place_of(byte: u8, bytes: &[u8]) -> Option<usize>
    ensures { MatchOption result (All (λ b. b ≢ byte) bytes.now) (λ i. (i < length bytes.now)
        × (slice_index bytes.now i ≡ byte) × All (λ b. b ≢ byte) (take i bytes.now)) }
{
    bytes.iter().position(|&b| b == byte)
}

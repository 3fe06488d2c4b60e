//! A set of small numbers as words of 64 bits: number `n` is in the set if bit `n % 64` of word `n / 64` is set.
ghost use Rattle.std.specs.Prelude.{◌≡◌, ◌≢◌, ℕ, ◌*◌, ◌/◌, ◌^◌, ◌<◌, ◌≤◌, not, ◌&&◌, ◌||◌, false, nat_eq, length, slice_index, IsTrue, IfSome, IfNone};
ghost use Rattle.page_alloc.specs.Bits.{has_bit};

const WORD_BITS: usize = 64;

/// Whether bit `bit` is set.
pub(crate) fn is_set(words: &[u64], bit: usize) -> bool
    requires { bit / 64 < length words.now }
    ensures { result ≡ has_bit words.now bit }
{
    (words[bit / WORD_BITS] >> (bit % WORD_BITS)) & 1 == 1
}

/// Sets bit `bit`, and leaves all others.
pub(crate) fn set(words: &mut [u64], bit: usize)
    requires { bit / 64 < length words.old }
    ensures { (other : ℕ)
        → has_bit words.new other ≡ (nat_eq other bit || has_bit words.old other) }
{
    words[bit / WORD_BITS] |= 1 << (bit % WORD_BITS);
}

/// Clears bit `bit`, and leaves all others.
pub(crate) fn clear(words: &mut [u64], bit: usize)
    requires { bit / 64 < length words.old }
    ensures { (other : ℕ)
        → has_bit words.new other ≡ (not (nat_eq other bit) && has_bit words.old other) }
{
    words[bit / WORD_BITS] &= !(1 << (bit % WORD_BITS));
}

/// Clears the bits from `from` to before `to`, and leaves every other.
pub(crate) fn clear_range(words: &mut [u64], from: usize, to: usize)
    requires order { from ≤ to }
    requires within { to ≤ 64 * length words.old }
    ensures cleared { (bit : ℕ) → from ≤ bit → bit < to → has_bit words.new bit ≡ false }
    ensures below { (bit : ℕ) → bit < from → has_bit words.new bit ≡ has_bit words.old bit }
    ensures above { (bit : ℕ) → to ≤ bit → has_bit words.new bit ≡ has_bit words.old bit }
{
    for bit in from..to {
        clear(words, bit);
    }
}

/// A bit that is set: the first from word `from` on, or past the last word the first of all.
pub(crate) fn next_set(words: &[u64], from: usize) -> Option<usize>
    requires { 64 * length words.now < 2 ^ 64 }
    ensures found { IfSome result (λ bit. IsTrue (has_bit words.now bit)) }
    ensures none { IfNone result ((bit : ℕ) → has_bit words.now bit ≡ false) }
{
    let word = match next_word(words, from) {
        Some(word) => word,
        None => next_word(words, 0)?,
    };
    Some(WORD_BITS * word + words[word].trailing_zeros() as usize)
}

/// The first word from `from` on with a set bit.
fn next_word(words: &[u64], from: usize) -> Option<usize>
    ensures in_range { IfSome result (λ word. word < length words.now) }
    ensures found { IfSome result (λ word. slice_index words.now word ≢ 0) }
    ensures none { IfNone result ((word : ℕ) → from ≤ word → word < length words.now
        → slice_index words.now word ≡ 0) }
{
    (from..words.len()).find(|word| words[*word] != 0)
}

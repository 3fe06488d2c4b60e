//! Numbers in lines.
ghost use Rattle.std.specs.Prelude.{◌<◌, ℕ, ℤ, List, length, MatchOption, IfSome};
ghost use Rattle.lines.specs.Grammar.{IsNat, IsInt, AreInts};

use crate::words::Words;
use arrayvec::ArrayVec;

/// The most numbers of a command: one, and two for each of 64 points.
pub const MOST_NUMBERS: usize = 129;

/// The number that a NAT spells.
pub fn natural(word: &[u8]) -> Option<u32>
    ensures value { MatchOption result ((n : ℕ) → IsNat word.now n → ⊥) (λ n. IsNat word.now n) }
    ensures small { IfSome result (λ n. n < 1000000000) }
{
    if word.is_empty() || word.len() > 9 {
        return None;
    }
    let mut value: u32 = 0;
    for &digit in word {
        if !digit.is_ascii_digit() {
            return None;
        }
        value = 10 * value + u32::from(digit - b'0');
    }
    Some(value)
}

/// The number that an INT spells.
pub(crate) fn integer(word: &[u8]) -> Option<i32>
    ensures { MatchOption result ((z : ℤ) → IsInt word.now z → ⊥) (λ z. IsInt word.now z) }
{
    match word {
        [b'-', digits @ ..] => {
            let magnitude = natural(digits)?;
            Some(-(magnitude as i32))
        }
        digits => {
            let value = natural(digits)?;
            Some(value as i32)
        }
    }
}

/// The words as numbers, if each is an INT and there are at most as many as a command takes.
pub(crate) fn integers(mut words: Words<'_>) -> Option<ArrayVec<i32, MOST_NUMBERS>>
    ensures { MatchOption result ((zs : List ℤ) → AreInts words.entry zs → MOST_NUMBERS < length zs) (λ v. AreInts words.entry v.items) }
{
    let mut numbers = ArrayVec::new();
    while let Some(word) = words.next() {
        if numbers.is_full() {
            return None;
        }
        numbers.push(integer(word)?);
    }
    Some(numbers)
}

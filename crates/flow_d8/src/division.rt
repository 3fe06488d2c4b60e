//! Divides many numbers by the same divisor. A multiplication guesses the quotient; only a wrong guess costs a division.
ghost use Rattle.std.specs.Prelude.{◌≡◌, ◌/◌, ◌%◌, ◌<◌};

/// A quotient and its remainder.
#[derive(Clone, Copy)]
pub(crate) struct Division {
    pub(crate) quotient: usize,
    pub(crate) remainder: usize,
}

/// A reciprocal that `divide` uses to guess quotients.
pub(crate) fn reciprocal(divisor: u32) -> usize
    requires { 0 < divisor }
{
    (1usize << 40) / divisor as usize + 1
}

/// Divides the number by the divisor. The result is right for any reciprocal.
#[inline(always)]
pub(crate) fn divide(number: usize, divisor: u32, reciprocal: usize) -> Division
    requires { 0 < divisor }
    ensures quotient { result.quotient ≡ number / divisor }
    ensures remainder { result.remainder ≡ number % divisor }
{
    let divisor = divisor as usize;
    let guess = number.wrapping_mul(reciprocal) >> 40;
    let product = guess * divisor;
    if product <= number && number - product < divisor {
        return Division {
            quotient: guess,
            remainder: number - product,
        };
    }
    Division {
        quotient: number / divisor,
        remainder: number % divisor,
    }
}

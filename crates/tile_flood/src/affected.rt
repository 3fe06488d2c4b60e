//! Points whose level or label a mending changed.
ghost use Rattle.std.specs.Prelude.{◌≡◌, ◌*◌, ◌<◌, ℕ, IfSome, IfNone};
ghost use Rattle.lattice.specs.Limits.{IsSide};
ghost use Rattle.tile_flood.specs.Affected.{IsInWindow};

// A changed point, and the label that it had before.
#[derive(Clone, Copy)]
pub(crate) struct Affected {
    pub(crate) point: u32,
    pub(crate) label: u16,
}

// The d-th point of the window of 3 x 3 points around e, row by row; None outside the block.
pub(crate) fn window_point(n: usize, e: usize, d: usize) -> Option<usize>
    requires side { IsSide n }
    requires small { n * n < 4294967296 }
    requires e { e < n * n }
    requires d { d < 9 }
    ensures inside { IfSome result (λ z. z < n * n) }
    ensures some { IfSome result (λ z. IsInWindow n e d z) }
    ensures none { IfNone result ((z : ℕ) → z < n * n → IsInWindow n e d z → ⊥) }
{
    let i = e / n + d / 3;
    let j = e % n + d % 3;
    if i == 0 || i > n || j == 0 || j > n {
        return None;
    }
    Some((i - 1) * n + (j - 1))
}

//! The outlets of a block: ground points of its rim, ground points next to voids, and sinks.
ghost use Rattle.std.specs.Prelude.{nat_eq, ◌≡◌, false, ◌+◌, ◌*◌, ◌<◌, IfSome, IfNone, IsTrue, length};
ghost use Rattle.std.specs.List.{list_all, list_any};
ghost use Rattle.lattice.specs.Limits.{IsSide};
ghost use Rattle.lattice.specs.Block.{is_solid, is_exit, is_rim, rim_number, around};
ghost use Rattle.tile_flood.specs.Views.{viewed_block};
ghost use Rattle.tile_flood.specs.Flooding.{IsOwnLabel};

use crate::views::BlockView;
use labelling::OUT;
use lattice::VOID;

// The label that a flood starts with at row i and column j; None if no outlet is there.
pub(crate) fn own_label(block: &BlockView, i: usize, j: usize) -> Option<u16>
    requires cell { (i < block.now.n) × (j < block.now.n) }
    ensures none { IfNone result (is_exit (viewed_block block.now) (i * block.now.n + j) ≡ false) }
    ensures outlet { IfSome result (λ _. IsTrue (is_exit (viewed_block block.now) (i * block.now.n + j))) }
    ensures label { IfSome result (λ label. IsOwnLabel (viewed_block block.now) (i * block.now.n + j) label) }
{
    let e = i * block.n + j;
    if !is_ground(block, e) {
        return None;
    }
    if is_on_rim(block.n, i, j) {
        return Some(number_of(block.n, i, j));
    }
    if is_enclosed(block, e) && !is_sink(block.sinks, e) {
        None
    } else {
        Some(OUT)
    }
}

pub(crate) fn is_ground(block: &BlockView, e: usize) -> bool
    requires e { e < block.now.n * block.now.n }
    ensures { result ≡ is_solid (viewed_block block.now) e }
{
    block.heights[e] != VOID
}

fn is_on_rim(n: usize, i: usize, j: usize) -> bool
    requires side { IsSide n }
    requires cell { (i < n) × (j < n) }
    ensures { result ≡ is_rim n (i * n + j) }
{
    i == 0 || i + 1 == n || j == 0 || j + 1 == n
}

// The number of the rim point in row i and column j. Rim points are numbered row by row from the north-west.
fn number_of(n: usize, i: usize, j: usize) -> u16
    requires side { IsSide n }
    requires cell { (i < n) × (j < n) }
    ensures { result ≡ rim_number n (i * n + j) }
{
    let number = if i == 0 {
        j
    } else if i + 1 == n {
        n + 2 * (n - 2) + j
    } else {
        n + 2 * (i - 1) + if j == 0 { 0 } else { 1 }
    };
    number as u16
}

#[tactic(auto, using(crate::proofs::PlainRows::inner_reach))]
fn is_enclosed(block: &BlockView, e: usize) -> bool
    requires e { e < block.now.n * block.now.n }
    requires inner { is_rim block.now.n e ≡ false }
    ensures { result ≡ list_all (is_solid (viewed_block block.now)) (around block.now.n e) }
{
    is_ground(block, e - block.n - 1)
        && is_ground(block, e - block.n)
        && is_ground(block, e - block.n + 1)
        && is_ground(block, e - 1)
        && is_ground(block, e + 1)
        && is_ground(block, e + block.n - 1)
        && is_ground(block, e + block.n)
        && is_ground(block, e + block.n + 1)
}

fn is_sink(sinks: &[u32], e: usize) -> bool
    ensures { result ≡ list_any (λ s. nat_eq s e) sinks.now }
{
    sinks.iter().any(|sink| *sink as usize == e)
}

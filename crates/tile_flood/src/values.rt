//! Reads values at the points of a block.
ghost use Rattle.std.specs.Prelude.{◌≡◌, ◌<◌, length, slice_index, slice_index_or};
ghost use Rattle.std.specs.Int.{int_max};
ghost use Rattle.lattice.specs.Mosaic.{void};
ghost use Rattle.labelling.specs.Blocks.{is_marked};

use lattice::VOID;

// The value at point e.
pub(crate) fn at(values: &[i16], e: usize) -> i16
    requires { e < length values.now }
    ensures { result ≡ slice_index_or values.now e void }
{
    values[e]
}

// The label at point e.
pub(crate) fn label_at(labels: &[u16], e: usize) -> u16
    requires { e < length labels.now }
    ensures { result ≡ slice_index labels.now e }
{
    labels[e]
}

pub(crate) fn higher(a: i16, b: i16) -> i16
    ensures { result ≡ int_max a b }
{
    a.max(b)
}

pub(crate) fn has_level(levels: &[i16], e: usize) -> bool
    requires { e < length levels.now }
    ensures { result ≡ is_marked levels.now e }
{
    levels[e] != VOID
}

// The greater of the values at points e and f.
pub(crate) fn higher_of(values: &[i16], e: usize, f: usize) -> i16
    requires e { e < length values.now }
    requires f { f < length values.now }
    ensures { result ≡ int_max (slice_index_or values.now e void) (slice_index_or values.now f void) }
{
    values[e].max(values[f])
}

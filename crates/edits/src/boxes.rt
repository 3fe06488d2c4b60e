//! Boxes of points, point by point.
ghost use Rattle.std.specs.Prelude.{◌≡◌, true, false, ◌&&◌, ◌*◌, ◌<◌, ◌≤ℤ◌, ◌<ℤ◌, ◌+ℤ◌, ◌-ℤ◌, ◌^◌, int_le, int_lt, pos, IfSome, IfNone};

use lattice::{Point, Side};

/// The points of a box, row by row northwards.
#[derive(Clone, Copy)]
pub(crate) struct BoxPoints {
    from: Point,
    rows: u32,
    columns: u32,
    ghost north: { (from.y +ℤ pos rows) ≤ℤ pos (2 ^ 31) },
    ghost east: { (from.x +ℤ pos columns) ≤ℤ pos (2 ^ 31) },
    ghost some: { 0 < columns },
}

impl BoxPoints {
    ghost use Rattle.edits.specs.Boxes.{ArePointsOf, box_point};
    ghost use Rattle.edits.specs.Effect.{is_box};

    /// The points of the box, if its corners are in order and it has at most a side's points in each direction.
    pub(crate) fn new(side: Side, from: Point, to: Point) -> Option<BoxPoints>
        ensures none { IfNone result (is_box side from to ≡ false) }
        ensures some { IfSome result (λ points. (is_box side from to ≡ true)
            × ArePointsOf from to points) }
    {
        let rows = span(side, from.y, to.y)?;
        let columns = span(side, from.x, to.x)?;
        Some(BoxPoints {
            from,
            rows,
            columns,
        })
    }

    /// The number of points.
    pub(crate) fn len(&self) -> u64
        ensures { result ≡ self.now.rows * self.now.columns }
    {
        u64::from(self.rows) * u64::from(self.columns)
    }

    /// The point with this number.
    pub(crate) fn point(&self, k: u64) -> Point
        requires { k < self.now.rows * self.now.columns }
        ensures { result ≡ box_point self.now.from self.now.columns k }
    {
        let columns = u64::from(self.columns);
        Point {
            y: along(self.from.y, k / columns),
            x: along(self.from.x, k % columns),
        }
    }
}

// The value this many steps further.
fn along(first: i32, steps: u64) -> i32
    requires { (first +ℤ pos steps) <ℤ pos (2 ^ 31) }
    ensures { result ≡ first +ℤ pos steps }
{
    (i64::from(first) + steps as i64) as i32
}

// The number of samples from the first to the last, ends included, if they are in order and the number is at most a
// side.
fn span(side: Side, first: i32, last: i32) -> Option<u32>
    ensures none { IfNone result ((int_le first last && int_lt (last -ℤ first) (pos side))
        ≡ false) }
    ensures some { IfSome result (λ k. ((int_le first last && int_lt (last -ℤ first) (pos side))
        ≡ true)
        × (last +ℤ pos 1 ≡ first +ℤ pos k) × (0 < k)) }
{
    let apart = i64::from(last) - i64::from(first);
    if apart < 0 || i64::from(side.samples()) <= apart {
        return None;
    }
    Some(apart as u32 + 1)
}

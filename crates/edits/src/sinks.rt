//! The list of declared sinks after one is added or removed.
ghost use Rattle.std.specs.Prelude.{◌≡◌, ◌≢◌, ◌||◌, ◌<◌, ◌≤◌, IsTrue, IfOk, IfErr, IfSome, OnOk, Ok, Err, length};
ghost use Rattle.std.specs.List.{list_any};
ghost use Rattle.lattice.specs.Ground.{same_point};
ghost use Rattle.lattice.specs.Height.{height_of};
ghost use Rattle.lattice.specs.Mosaic.{AreSinks};
ghost use Rattle.lattice.specs.declared.height.Height.TheVariants.{At};
ghost use Rattle.lattice.specs.declared.refusal.Refusal.TheVariants.{NoMemory};
ghost use Rattle.catalogue.specs.Endings.{ends_any};
ghost use Rattle.catalogue.specs.Readers.{OnlyReads, reads_of};
ghost use Rattle.catalogue.specs.Tiles.{with_sinks};
ghost use Rattle.edits.specs.Plans.{is_own, may_end};
ghost use Rattle.edits.specs.declared.command.Command.TheVariants.{Unsink};
ghost use Rattle.edits.specs.Sinks.{with_point, without_point, sunk, unsunk, refuses_sink};

use crate::heights::ground;
use arrayvec::ArrayVec;
use catalogue::{Samples, height};
use lattice::{Height, MOST_SINKS, Point, Refusal, is_held};

/// The height in metres of a point that may be declared a sink: it has to be ground and no sink yet, and one more sink
/// has to be allowed. The samples are only read.
pub(crate) fn new_sink_height<S: Samples>(samples: &mut S, point: Point) -> Result<i16, Refusal>
    ensures made { S.is_honest samples.new
        → OnOk result (sunk (S.mosaic samples.old) point
        ≡ Ok (with_sinks (with_point point (S.mosaic samples.old).sinks) (S.mosaic samples.old))) }
    ensures height { S.is_honest samples.new
        → IfOk result (λ metres. height_of (S.mosaic samples.old) point ≡ At metres) }
    ensures refused { S.is_honest samples.new
        → IfErr result (λ r. IsTrue (refuses_sink r) → sunk (S.mosaic samples.old) point ≡ Err r) }
    ensures fits { OnOk result (AreSinks (S.side_of samples.old) (with_point point (S.sinks_of samples.old))) }

    // Any other refusal is that of a read.
    ensures causes { IfErr result (λ r. IsTrue (refuses_sink r || ends_any r)) }
    ensures memory { IfErr result (λ r. r ≢ NoMemory) }
    ensures reads { OnlyReads S.Samples samples.old samples.new (reads_of result) }
{
    if !is_held(samples.side(), point) {
        return Err(Refusal::Outside);
    }
    let metres = ground(samples, point)?;
    let sinks = samples.sinks();
    if is_among(sinks, point) {
        return Err(Refusal::SinkThere);
    }
    if sinks.len() >= MOST_SINKS {
        return Err(Refusal::SinksFull);
    }
    Ok(metres)
}

/// The height in metres of a sink, if it has one. The point has to be a sink, and may be anywhere. The samples are only
/// read.
pub(crate) fn old_sink_height<S: Samples>(
    samples: &mut S,
    point: Point,
) -> Result<Option<i16>, Refusal>
    ensures made { S.is_honest samples.new
        → OnOk result (unsunk (S.mosaic samples.old) point
        ≡ Ok (with_sinks (without_point point (S.mosaic samples.old).sinks) (S.mosaic samples.old))) }
    ensures height { S.is_honest samples.new
        → IfOk result (λ found. IfSome found (λ metres. height_of (S.mosaic samples.old) point
        ≡ At metres)) }
    ensures refused { S.is_honest samples.new
        → IfErr result (λ r. IsTrue (is_own (Unsink point) r)
        → unsunk (S.mosaic samples.old) point ≡ Err r) }
    ensures causes { IfErr result (λ r. IsTrue (may_end (Unsink point) r)) }
    ensures memory { IfErr result (λ r. r ≢ NoMemory) }
    ensures reads { OnlyReads S.Samples samples.old samples.new (reads_of result) }
{
    if !is_among(samples.sinks(), point) {
        return Err(Refusal::NoSink);
    }
    let found = height(samples, point)?;
    Ok(metres(found))
}

// The height in metres, if there is one.
fn metres(height: Height) -> Option<i16>
    ensures { IfSome result (λ metres. height ≡ At metres) }
{
    match height {
        Height::At(metres) => Some(metres),
        _ => None,
    }
}

fn is_among(points: &[Point], point: Point) -> bool
    ensures { result ≡ list_any (λ s. same_point s point) points.now }
{
    points.iter().any(|other| *other == point)
}

/// The points with one more, in order.
pub fn with_point(points: &[Point], point: Point) -> ArrayVec<Point, MOST_SINKS>
    requires { length points.now < MOST_SINKS }
    ensures { result.items ≡ with_point point points.now }
{
    let mut with = ArrayVec::new();
    let mut is_in = false;
    for other in points {
        if !is_in && point < *other {
            with.push(point);
            is_in = true;
        }
        with.push(*other);
    }
    if !is_in {
        with.push(point);
    }
    with
}

/// The points without this one.
pub fn without_point(points: &[Point], point: Point) -> ArrayVec<Point, MOST_SINKS>
    requires { length points.now ≤ MOST_SINKS }
    ensures { result.items ≡ without_point point points.now }
{
    let mut without = ArrayVec::new();
    for other in points {
        if *other != point {
            without.push(*other);
        }
    }
    without
}

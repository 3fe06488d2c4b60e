//! The sinks of a root.
ghost use Rattle.std.specs.Prelude.{◌≡◌, ◌+◌, ◌≤◌, ◌↔◌, ◌++◌, List, length, IsTrue, IfSome, IfNone};
ghost use Rattle.std.specs.List.{flat_map};
ghost use Rattle.lattice.specs.declared.point.Point.{Point};
ghost use Rattle.page_codec.specs.Numbers.{padded};
ghost use Rattle.lattice.specs.Limits.{IsSide};
ghost use Rattle.lattice.specs.Mosaic.{AreSinks, IsHeld};
ghost use Rattle.lattice.specs.Points.{is_point_before};
ghost use Rattle.page_codec.specs.Sinks.{SinkIsBefore, sink_bytes};
ghost use Rattle.page_codec.specs.Headers.{Follows};

use crate::numbers::{is_zero, split_i32};
use crate::writer::Writer;
use arrayvec::ArrayVec;
use lattice::{MOST_SINKS, Point, Side, is_held, is_point_before};

// The length of a sink in bytes.
const SINK_BYTES: usize = 8;

/// The number of bytes for sinks, up to the end of the root.
pub(crate) const SINKS_BYTES: usize = 192;

/// The sinks that these bytes spell, one after another and padded with zeros, if they are in order.
pub(crate) fn read_sinks(
    bytes: &[u8],
    side: Side,
    count: u32,
) -> Option<ArrayVec<Point, MOST_SINKS>>
    requires side { IsSide side }
    requires count { count ≤ MOST_SINKS }
    requires bytes { length bytes.now ≡ SINKS_BYTES }
    ensures len { IfSome result (λ found. length found.items ≡ count) }
    ensures sinks { IfSome result (λ found. AreSinks side found.items) }
    ensures spelled { IfSome result (λ found. bytes.now ≡ padded SINKS_BYTES (flat_map sink_bytes found.items)) }
    ensures none { IfNone result ((sinks : List Point) → length sinks ≡ count → AreSinks side sinks
        → bytes.now ≡ padded SINKS_BYTES (flat_map sink_bytes sinks) → ⊥) }
{
    let mut sinks = ArrayVec::new();
    let mut rest = bytes;
    for _ in 0..count {
        let (front, behind) = rest.split_at(SINK_BYTES);
        let sink = next_sink(front, side, sinks.as_slice())?;
        sinks.push(sink);
        rest = behind;
    }
    if is_zero(rest) { Some(sinks) } else { None }
}

// The sink that these bytes spell, if it may follow the others.
fn next_sink(bytes: &[u8], side: Side, sinks: &[Point]) -> Option<Point>
    requires side { IsSide side }
    requires bytes { length bytes.now ≡ SINK_BYTES }
    ensures held { IfSome result (IsHeld side) }
    ensures follows { IfSome result (λ found. Follows SinkIsBefore sinks.now found) }
    ensures spelled { IfSome result (λ found. bytes.now ≡ sink_bytes found) }
    ensures none { IfNone result ((sink : Point) → IsHeld side sink
        → Follows SinkIsBefore sinks.now sink → bytes.now ≡ sink_bytes sink → ⊥) }
{
    let sink = read_point(bytes);
    if !may_follow(side, sinks, sink) {
        return None;
    }
    Some(sink)
}

fn may_follow(side: Side, sinks: &[Point], sink: Point) -> bool
    ensures { IsTrue result ↔ (IsHeld side sink × Follows SinkIsBefore sinks.now sink) }
{
    is_held(side, sink) && follows(sinks, sink)
}

#[tactic(auto, unfolding(crate::specs::Sinks::sink_bytes))]
fn read_point(bytes: &[u8]) -> Point
    requires { length bytes.now ≡ SINK_BYTES }
    ensures { bytes.now ≡ sink_bytes result }
{
    let (y, rest) = split_i32(bytes);
    let (x, _) = split_i32(rest);
    Point { y, x }
}

// Whether this point is after the others.
fn follows(sinks: &[Point], sink: Point) -> bool
    ensures { IsTrue result ↔ Follows SinkIsBefore sinks.now sink }
{
    match sinks.last() {
        Some(last) => is_point_before(*last, sink),
        None => true,
    }
}

/// The sinks one after another, padded with zeros.
pub(crate) fn write_sinks(sinks: &[Point]) -> [u8; SINKS_BYTES]
    requires { length sinks.now ≤ MOST_SINKS }
    ensures { result ≡ padded SINKS_BYTES (flat_map sink_bytes sinks.now) }
{
    let mut writer = Writer::new();
    for sink in sinks {
        put_sink(&mut writer, *sink);
    }
    writer.finish()
}

#[tactic(auto, unfolding(crate::specs::Sinks::sink_bytes))]
fn put_sink(writer: &mut Writer<SINKS_BYTES>, sink: Point)
    requires { length writer.old + SINK_BYTES ≤ SINKS_BYTES }
    ensures bytes { writer.new ≡ writer.old ++ sink_bytes sink }
    ensures len { length writer.new ≡ length writer.old + SINK_BYTES }
{
    writer.put_i32(sink.y);
    writer.put_i32(sink.x);
}

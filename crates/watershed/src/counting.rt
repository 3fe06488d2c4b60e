//! Counts how many points drain through each sample of a tile. A tour goes up the flow paths and counts on its way back.
ghost use Rattle.std.specs.Prelude.{◌≡◌, ◌⊎◌, ◌*◌, ◌+◌, ◌<◌, ◌≤◌, ◌↔◌, ℕ, ℤ, false, IsTrue, IsFalse, None, Ok, IfOk, IfErr, IfSome, OnOk, length, slice_index_or};
ghost use Rattle.lattice.specs.Corners.{Corner};
ghost use Rattle.lattice.specs.Ground.{is_ground, terrain};
ghost use Rattle.lattice.specs.Lattice.{point_of};
ghost use Rattle.lattice.specs.Mosaic.{Mosaic};
ghost use Rattle.lattice.specs.declared.point.Point.{Point};
ghost use Rattle.lattice.specs.declared.refusal.Refusal.TheVariants.{NoMemory};
ghost use Rattle.water.specs.Drainage.{AreFilledLevels};
ghost use Rattle.water.specs.Counts.{AreUpstreamCounts};
ghost use Rattle.watershed.specs.Counting.{AreCounted, AreStillCounted, IsCounted, IsNext, IsTour};

use crate::donors::donors;
use crate::search::is_no_ground;
use crate::tile_counts::TileCounts;
use lattice::{Corner, DIRECTIONS, Point, Refusal, Side, neighbour, point_at, push};
use std::alloc::Global;
use water::FlowSource;

/// For each sample of the corner's tile, the number of ground points with its point on their flow path, the point included;
/// that is the size of its watershed. 0 if the point isn't ground. Counts are listed row by row from the north, west first.
/// None if flows form a cycle.
///
/// Each point upstream of the tile is visited once. It takes 4 bytes a sample, and 24 a point of the longest flow path.
/// Refusals are NoMemory and those of reading a flow.
pub fn upstream_counts<F: FlowSource>(
    alloc: Global,
    flows: &mut F,
    side: Side,
    corner: Corner,
) -> Result<Option<Vec<u32>>, Refusal>
    requires { F.is_ready flows.old }
    ensures counts { IfOk result (λ found. IfSome found (λ counts. (m : Mosaic) (level : Point → ℤ)
        → F.tells flows.new m level → AreFilledLevels (terrain m) level
        → AreUpstreamCounts (terrain m) level side corner counts.items)) }

    // A mosaic's flows form no cycle.
    ensures round { result ≡ Ok None → (m : Mosaic) (level : Point → ℤ)
        → F.tells flows.new m level → AreFilledLevels (terrain m) level → ⊥ }
    ensures ready { OnOk result (F.is_ready flows.new) }
    ensures follows { F.follows flows.old flows.new }
    ensures keeps { OnOk result (F.keeps flows.old flows.new) }
    ensures refusal { IfErr result (F.refuses flows.old flows.new) }
{
    let area = side.area();
    let mut counts = TileCounts {
        side,
        corner,
        counts: vec![in alloc; 0; area as usize]?,
    };
    for index in 0..area {
        if !count_sample(alloc, flows, &mut counts, index)? {
            return Ok(None);
        }
    }
    Ok(Some(counts.counts))
}

// Counts the points that drain through the sample's point, unless the sample has its count. False if flows form a cycle.
fn count_sample<F: FlowSource>(
    alloc: Global,
    flows: &mut F,
    counts: &mut TileCounts,
    index: u32,
) -> Result<bool, Refusal>
    requires ready { F.is_ready flows.old }
    requires index { index < counts.old.side * counts.old.side }
    ensures counted { OnOk result ((m : Mosaic) (level : Point → ℤ) → F.tells flows.new m level
        → AreFilledLevels (terrain m) level → AreCounted (terrain m) level counts.old
        → AreStillCounted (terrain m) level counts.old counts.new) }
    ensures tile { (counts.new.side ≡ counts.old.side) × (counts.new.corner ≡ counts.old.corner) }
    ensures round { result ≡ Ok false → (m : Mosaic) (level : Point → ℤ)
        → F.tells flows.new m level → AreFilledLevels (terrain m) level
        → AreCounted (terrain m) level counts.old → ⊥ }
    ensures known { OnOk result ((m : Mosaic) (level : Point → ℤ) → F.tells flows.new m level
        → AreFilledLevels (terrain m) level → AreCounted (terrain m) level counts.old
        → IsTrue (is_ground m (point_of counts.old.side counts.old.corner index))
        → slice_index_or counts.new.counts.items index 0 ≡ 0 → ⊥) }
    ensures ready { OnOk result (F.is_ready flows.new) }
    ensures follows { F.follows flows.old flows.new }
    ensures keeps { OnOk result (F.keeps flows.old flows.new) }
    ensures refusal { IfErr result (F.refuses flows.old flows.new) }
{
    if counts.counts[index as usize] > 0 {
        return Ok(true);
    }
    let point = point_at(counts.side, counts.corner, index);
    let flow = flows.flow(alloc, point)?;
    if is_no_ground(flow) {
        return Ok(true);
    }
    let Some(count) = count_from(alloc, flows, counts, point)? else {
        return Ok(false);
    };
    counts.counts[index as usize] = count;
    Ok(true)
}

/// A point whose donors are being counted, one direction after another.
#[derive(Clone, Copy)]
struct Branch {
    point: Point,
    donors: [bool; 8], // which points beside it drain straight to it, in the order of the directions
    looked: u8, // in so many directions
    count: u32, // the point, and what drains through these donors
}

impl Branch {
    fn of(point: Point, donors: [bool; 8]) -> Branch
        ensures { result ≡ record { point = point; donors = donors; looked = 0; count = 1 } }
    {
        Branch {
            point,
            donors,
            looked: 0,
            count: 1,
        }
    }

    // The branch with its count increased by `count`.
    fn with(self, count: u32) -> Result<Branch, Refusal>
        ensures counted { IfOk result (λ branch. branch ≡ record self { count = self.count + count }) }
        ensures refusal { IfErr result (λ r. r ≡ NoMemory) }
    {
        match self.count.checked_add(count) {
            Some(count) => Ok(Branch { count, ..self }),
            None => Err(Refusal::NoMemory),
        }
    }
}

// Detects a path that returns to one of its points (Brent 1980). It remembers the path's last point whenever the path has
// doubled its length, and when the path has left the remembered point.
#[derive(Drop)]
struct CycleCheck {
    point: Point,
    depth: usize,
}

impl CycleCheck {
    // Whether the path is at the remembered point again, and longer than it was there.
    fn finds(&mut self, point: Point, depth: usize) -> bool
        ensures found { IsTrue result ↔ ((point ≡ self.old.point) × (self.old.depth < depth)) }
        ensures kept { ((self.new.point ≡ self.old.point) × (self.new.depth ≡ self.old.depth))
            ⊎ ((self.new.point ≡ point) × (self.new.depth ≡ depth)) }
        ensures left { depth ≤ self.old.depth → (self.new.point ≡ point) × (self.new.depth ≡ depth) }
        ensures grown { 2 * self.old.depth ≤ depth
            → (self.new.point ≡ point) × (self.new.depth ≡ depth) }
    {
        let found = point == self.point && depth > self.depth;
        if depth <= self.depth || depth / 2 >= self.depth {
            self.point = point;
            self.depth = depth;
        }
        found
    }
}

// Counts what drains through the ground point, and through each sample above it; None where water goes round. Each point drains
// to only one, so none is met twice. Where the flows are wrong it ends all the same: a circle is found, and there are at most two
// steps for each point that can be counted.
fn count_from<F: FlowSource>(
    alloc: Global,
    flows: &mut F,
    counts: &mut TileCounts,
    first: Point,
) -> Result<Option<u32>, Refusal>
    requires ready { F.is_ready flows.old }
    ensures count { IfOk result (λ found. IfSome found (λ count. (m : Mosaic) (level : Point → ℤ)
        → F.tells flows.new m level → AreFilledLevels (terrain m) level → AreCounted (terrain m) level counts.old
        → IsTrue (is_ground m first)
        → IsCounted (terrain m) level first count)) }

    // A mosaic's flows form no cycle.
    ensures round { result ≡ Ok None → (m : Mosaic) (level : Point → ℤ)
        → F.tells flows.new m level → AreFilledLevels (terrain m) level
        → AreCounted (terrain m) level counts.old → IsTrue (is_ground m first)
        → ⊥ }
    ensures counted { OnOk result ((m : Mosaic) (level : Point → ℤ) → F.tells flows.new m level
        → AreFilledLevels (terrain m) level → AreCounted (terrain m) level counts.old
        → IsTrue (is_ground m first)
        → AreStillCounted (terrain m) level counts.old counts.new) }
    ensures tile { (counts.new.side ≡ counts.old.side) × (counts.new.corner ≡ counts.old.corner) }
    ensures ready { OnOk result (F.is_ready flows.new) }
    ensures follows { F.follows flows.old flows.new }
    ensures keeps { OnOk result (F.keeps flows.old flows.new) }
    ensures refusal { IfErr result (F.refuses flows.old flows.new) }
{
    let donors = donors(alloc, flows, first)?;
    let mut at = Branch::of(first, donors);
    let mut waiting = Vec::new(alloc);
    let mut check = CycleCheck {
        point: first,
        depth: 0,
    };
    let mut left = u32::MAX as usize * 2;
    'tour: while left > 0 {
        left -= 1;
        at.looked = next_donor(&at.donors, at.looked);
        if at.looked < 8 {
            at = enter(alloc, flows, counts, at, &mut waiting)?;
            if check.finds(at.point, waiting.len()) {
                return Ok(None);
            }
            continue;
        }
        let Some(below) = waiting.pop() else {
            return Ok(Some(at.count));
        };
        counts.set(at.point, at.count);
        at = below.with(at.count)?;
    }
    Err(Refusal::NoMemory)
}

// The first direction, from this one on, with a donor; 8 if there is none.
#[inline(always)]
fn next_donor(donors: &[bool; 8], from: u8) -> u8
    ensures { IsNext donors.now from result }
{
    let mut next = from;
    while next < 8 && !donors[next as usize] {
        next += 1;
    }
    next
}

// Adds the count of the donor in the next direction, if that has its count. Otherwise the tour continues from the donor, and
// the point waits.
fn enter<F: FlowSource>(
    alloc: Global,
    flows: &mut F,
    counts: &TileCounts,
    at: Branch,
    waiting: &mut Vec<Branch>,
) -> Result<Branch, Refusal>
    requires ready { F.is_ready flows.old }
    requires looked { at.looked < 8 }
    requires donor { IsTrue (slice_index_or at.donors at.looked false) }
    ensures tour { IfOk result (λ next. (m : Mosaic) (level : Point → ℤ) → F.tells flows.new m level
        → AreFilledLevels (terrain m) level → AreCounted (terrain m) level counts.now
        → (first : Point) → IsTour (terrain m) level first at waiting.old.items
        → IsTour (terrain m) level first next waiting.new.items) }
    ensures ready { OnOk result (F.is_ready flows.new) }
    ensures follows { F.follows flows.old flows.new }
    ensures keeps { OnOk result (F.keeps flows.old flows.new) }
    ensures refusal { IfErr result (F.refuses flows.old flows.new) }
{
    let next = Branch {
        looked: at.looked + 1,
        ..at
    };
    let Some(donor) = neighbour(at.point, DIRECTIONS[at.looked as usize]) else {
        return Ok(next);
    };
    let count = counts.at(donor);
    if count > 0 {
        return next.with(count);
    }
    let donors = donors(alloc, flows, donor)?;
    push(waiting, next)?;
    Ok(Branch::of(donor, donors))
}

//! The samples of several tiles in one array, tile after tile.
ghost use Rattle.std.specs.Prelude.{◌≡◌, ◌≢◌, ◌<◌, ◌≤◌, ◌*◌, ◌%◌, ◌↔◌, ◌++◌, [], ◌∷◌, true, ℕ, SomeIff, IfSome, OnOk, OnErr, ◌+◌, IsTrue, MatchOption, length, slice_index_or};
ghost use Rattle.lattice.specs.Corners.{is_corner, same_corner};
ghost use Rattle.lattice.specs.Lattice.{Holds, IsIndexOf};
ghost use Rattle.std.specs.List.{AllAdjacentBelow, list_any};
ghost use Rattle.lattice.specs.Lattice.{IsBefore};
ghost use Rattle.flow_d8.specs.Places.{IsInner, place_by};
ghost use Rattle.flow_d8.specs.Strides.{IsStride};
ghost use Rattle.flow_d8.specs.Filled.{most_samples, number_of, is_deep};
ghost use Rattle.flow_d8.specs.Tiles.{AreTiles, count_of, place_of, by_of, IsInTile, IsSampleOf, IsFirst, no_corner};

use crate::division::{divide, reciprocal};
use lattice::{Corner, Dir, Point, Side, index_in, is_before, neighbour, point_at};
use std::alloc::{AllocError, Global};
use std::marker::Model;

/// So many samples have numbers of four bytes.
pub(crate) const MOST_SAMPLES: usize = u32::MAX as usize;

/// Tiles whose samples stand in one array, tile after tile, in any order.
#[derive(Drop)]
pub(crate) struct Tiles {
    side: Side,
    corners: Vec<Corner>,
    // Reciprocals of the number of samples of a row and of a tile, to divide by these numbers.
    per_row: usize,
    per_tile: usize,
}

impl Model for Tiles {
    ghost use Rattle.flow_d8.specs.Tiles.{Tiles, AreTiles};

    ghost Value = { Tiles };

    ghost view = { λ t. record { side = t.side; corners = t.corners.items } };

    ghost invariant = { λ t. AreTiles (record { side = t.side; corners = t.corners.items }) };
}

impl Tiles {
    /// The tiles at these corners, in the order of tiles. None where they are in another, or have 2^32 samples or more.
    pub(crate) fn new(side: Side, corners: Vec<Corner>) -> Option<Tiles>
        ensures { SomeIff result ((length corners.items * (side * side) ≤ most_samples) × AllAdjacentBelow IsBefore corners.items (length corners.items)) (record { side = side; corners = corners.items }) }
    {
        // This call shows the prover that the side is from 3 to 3601 samples.
        let _low = side.samples();
        see_corners(&corners);
        if corners.len() as u128 * side.area() as u128 <= MOST_SAMPLES as u128
            && are_rising(&corners)
        {
            Some(Tiles {
                side,
                corners,
                per_row: reciprocal(side.samples()),
                per_tile: reciprocal(side.area()),
            })
        } else {
            None
        }
    }

    /// No tiles. Allocates nothing.
    pub(crate) fn none(alloc: Global, side: Side) -> Tiles
        ensures { result ≡ record { side = side; corners = [] } }
    {
        let _low = side.samples();
        Tiles {
            side,
            corners: Vec::new(alloc),
            per_row: reciprocal(side.samples()),
            per_tile: reciprocal(side.area()),
        }
    }

    /// Adds the corner's tile at the end.
    pub(crate) fn push(&mut self, corner: Corner) -> Result<(), AllocError>
        requires few { (length self.old.corners + 1) * (self.old.side * self.old.side) ≤ most_samples }
        requires other { (i : ℕ) → i < length self.old.corners
            → slice_index_or self.old.corners i no_corner ≡ corner → ⊥ }
        ensures side { self.new.side ≡ self.old.side }
        ensures pushed { OnOk result (self.new.corners ≡ self.old.corners ++ corner ∷ []) }
        ensures failed { OnErr result (self.new ≡ self.old) }
    {
        // This call shows the prover that this is a corner of the grid of tiles.
        let _latitude = latitude(corner);
        self.corners.push(corner)?;
        Ok(())
    }

    /// Removes the tile in this slot, and moves the last tile to its place.
    pub(crate) fn swap_remove(&mut self, slot: usize)
        requires { slot < length self.old.corners }
        ensures side { self.new.side ≡ self.old.side }
        ensures count { length self.new.corners + 1 ≡ length self.old.corners }
        ensures moved { slot < length self.new.corners
            → slice_index_or self.new.corners slot no_corner
            ≡ slice_index_or self.old.corners (length self.new.corners) no_corner }
        ensures kept { (i : ℕ) → i ≢ slot → i < length self.new.corners
            → slice_index_or self.new.corners i no_corner
            ≡ slice_index_or self.old.corners i no_corner }
    {
        let _given_up = self.corners.swap_remove(slot);
    }

    pub(crate) fn side(&self) -> Side
        ensures value { result ≡ self.now.side }
        ensures valid { AreTiles self.now }
    {
        self.side
    }

    fn corners(&self) -> &[Corner]
        ensures { result.now ≡ self.now.corners }
    {
        &self.corners
    }

    /// The number of samples of all tiles.
    pub(crate) fn count(&self) -> usize
        ensures { result ≡ count_of self.now }
    {
        count(self.side(), self.corners())
    }

    /// The point of sample k.
    pub(crate) fn point(&self, k: usize) -> Point
        requires { k < count_of self.now }
        ensures { result ≡ place_of self.now k }
    {
        sample_point(self.side(), self.corners(), k)
    }

    /// The number of tiles.
    pub(crate) fn tiles(&self) -> usize
        ensures value { result ≡ length self.now.corners }
        ensures valid { AreTiles self.now }
    {
        // This call shows the prover that these are valid tiles (`AreTiles`).
        let _valid = self.side();
        self.corners.len()
    }

    /// The sample of the point in this tile; None if the tile doesn't have the point.
    pub(crate) fn sample_in(&self, tile: usize, point: Point) -> Option<usize>
        requires { tile < length self.now.corners }
        ensures { MatchOption result ((e : ℕ) → IsInTile self.now tile e → IsSampleOf self.now point e → ⊥) (λ k. IsSampleOf self.now point k
            × ((e : ℕ) → IsInTile self.now tile e → IsSampleOf self.now point e → e ≡ k)) }
    {
        sample_of(self.side(), self.corners(), tile, point)
    }

    /// The corner of the tile in this slot.
    pub(crate) fn corner(&self, tile: usize) -> Corner
        requires { tile < length self.now.corners }
        ensures { result ≡ slice_index_or self.now.corners tile no_corner }
    {
        self.corners()[tile]
    }

    /// Whether the corner's tile is in the list.
    pub(crate) fn has(&self, corner: Corner) -> bool
        ensures { result ≡ list_any (λ c. same_corner c corner) self.now.corners }
    {
        has_corner(self.corners(), corner)
    }

    /// The first sample of the point; a number beyond the last sample if no tile has the point.
    pub(crate) fn number(&self, point: Point) -> usize
        ensures value { result ≡ number_of self.now.side self.now.corners point }
        ensures first { result < count_of self.now → IsFirst self.now result }
    {
        number(self.side(), self.corners(), point)
    }

    /// The sample's number in four bytes.
    #[inline(always)]
    pub(crate) fn short(&self, k: usize) -> u32
        requires { k < count_of self.now }
        ensures { result ≡ k }
    {
        let _valid = self.side();
        k as u32
    }

    /// Whether the sample lies at least two samples from the edges of its tile.
    #[inline(always)]
    pub(crate) fn is_deep(&self, k: usize) -> bool
        ensures { result ≡ is_deep self.now.side (k % (self.now.side * self.now.side)) }
    {
        let side = self.side();
        let n = side.samples() as usize;
        let index = divide(k, side.area(), self.per_tile).remainder;
        let place = divide(index, side.samples(), self.per_row);
        2 <= place.quotient
            && place.quotient + 3 <= n
            && 2 <= place.remainder
            && place.remainder + 3 <= n
    }

    /// The first and the last deep sample of the row of a deep sample; None for another sample.
    pub(crate) fn deep_row(&self, k: usize) -> Option<(usize, usize)>
        requires { k < count_of self.now }
        ensures { IfSome result (λ row. (row.0 ≤ k) × (k ≤ row.1)
            × ((j : ℕ) → row.0 ≤ j → j ≤ row.1
            → is_deep self.now.side (j % (self.now.side * self.now.side)) ≡ true)) }
    {
        let side = self.side();
        let n = side.samples() as usize;
        if !self.is_deep(k) {
            return None;
        }
        let index = divide(k, side.area(), self.per_tile).remainder;
        let column = divide(index, side.samples(), self.per_row).remainder;
        Some((k - (column - 2), k + (n - 3 - column)))
    }

    /// The first sample of the point one step away; a number beyond the last sample if no tile has the point. If `deep` says
    /// that the sample lies deep in its tile, the stride gives the number.
    #[inline(always)]
    pub(crate) fn step(&self, k: usize, direction: Dir, stride: Stride, deep: bool) -> usize
        requires k { k < count_of self.now }
        requires stride { IsStride self.now.side direction stride }
        requires deep { IsTrue deep
            → is_deep self.now.side (k % (self.now.side * self.now.side)) ≡ true }
        ensures value { result ≡ by_of self.now k direction }
        ensures first { result < count_of self.now → IsFirst self.now result }
    {
        if deep {
            let _valid = self.side();
            return k + stride.ahead - stride.behind;
        }
        self.beside(k, direction)
    }

    /// The first sample of the point one step away; a number beyond the last sample if no tile has the point.
    pub(crate) fn beside(&self, k: usize, direction: Dir) -> usize
        requires { k < count_of self.now }
        ensures value { result ≡ by_of self.now k direction }
        ensures first { result < count_of self.now → IsFirst self.now result }
    {
        let _valid = self.side();
        match neighbour(self.point(k), direction) {
            Some(to) => self.number(to),
            None => self.count(),
        }
    }
}

fn count(side: Side, corners: &[Corner]) -> usize
    requires { length corners.now * (side * side) ≤ most_samples }
    ensures { result ≡ length corners.now * (side * side) }
{
    corners.len() * side.area() as usize
}

fn sample_point(side: Side, corners: &[Corner], k: usize) -> Point
    requires { k < length corners.now * (side * side) }
    ensures { result ≡ place_of (record { side = side; corners = corners.now }) k }
{
    let area = side.area() as usize;
    point_at(side, corners[k / area], (k % area) as u32)
}

fn number(side: Side, corners: &[Corner], point: Point) -> usize
    requires { length corners.now * (side * side) ≤ most_samples }
    ensures { result ≡ number_of side corners.now point }
{
    let area = side.area() as usize;
    for i in 0..corners.len() {
        if let Some(index) = index_in(side, corners[i], point) {
            return i * area + index as usize;
        }
    }
    corners.len() * area
}

fn sample_of(side: Side, corners: &[Corner], tile: usize, point: Point) -> Option<usize>
    requires few { length corners.now * (side * side) ≤ most_samples }
    requires tile { tile < length corners.now }
    ensures corner { IsTrue (is_corner (slice_index_or corners.now tile no_corner)) }
    ensures sample { MatchOption result (Holds side (slice_index_or corners.now tile no_corner) point → ⊥) (λ k. (e : ℕ)
        × (IsIndexOf side (slice_index_or corners.now tile no_corner) point e
        × (k ≡ tile * (side * side) + e))) }
{
    let area = side.area() as usize;
    let corner = corners[tile];
    let _latitude = latitude(corner);
    match index_in(side, corner, point) {
        Some(index) => Some(tile * area + index as usize),
        None => None,
    }
}

fn has_corner(corners: &[Corner], corner: Corner) -> bool
    ensures { result ≡ list_any (λ c. same_corner c corner) corners.now }
{
    corners.contains(&corner)
}

fn latitude(corner: Corner) -> i16
    ensures { IsTrue (is_corner corner) }
{
    corner.lat
}

/// How far a step in one direction leads over samples deep in a tile.
#[derive(Clone, Copy)]
pub(crate) struct Stride {
    ahead: usize,
    behind: usize,
}

impl Stride {
    /// The stride of a step in this direction.
    #[inline(always)]
    pub(crate) fn new(side: Side, direction: Dir) -> Stride
        ensures { IsStride side direction result }
    {
        let n = side.samples() as usize;
        let (ahead, behind) = match direction {
            Dir::East => (1, 0),
            Dir::SouthEast => (n + 1, 0),
            Dir::South => (n, 0),
            Dir::SouthWest => (n, 1),
            Dir::West => (0, 1),
            Dir::NorthWest => (0, n + 1),
            Dir::North => (0, n),
            Dir::NorthEast => (1, n),
        };
        Stride { ahead, behind }
    }
}

/// The place one step away from place k, in rows of this width.
#[inline(always)]
pub(crate) fn place(width: usize, k: usize, direction: Dir, count: usize) -> usize
    requires { IsInner width count k }
    ensures { result ≡ place_by width k direction }
{
    match direction {
        Dir::East => k + 1,
        Dir::SouthEast => k + width + 1,
        Dir::South => k + width,
        Dir::SouthWest => k + width - 1,
        Dir::West => k - 1,
        Dir::NorthWest => k - width - 1,
        Dir::North => k - width,
        Dir::NorthEast => k - width + 1,
    }
}

fn are_rising(corners: &[Corner]) -> bool
    ensures { IsTrue result ↔ AllAdjacentBelow IsBefore corners.now (length corners.now) }
{
    for i in 1..corners.len() {
        if !is_before(corners[i - 1], corners[i]) {
            return false;
        }
    }
    true
}

fn see_corners(corners: &[Corner])
    ensures { (i : ℕ) → i < length corners.now
        → IsTrue (is_corner (slice_index_or corners.now i no_corner)) }
{
    for i in 0..corners.len() {
        let _latitude = latitude(corners[i]);
    }
}

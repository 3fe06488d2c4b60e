//! The points that a search has found: a bit for each, in segments of rows.
ghost use Rattle.std.specs.Prelude.{◌≡◌, ◌≢◌, ◌↔◌, ◌⊎◌, ◌<◌, ◌≤◌, ◌+◌, ◌*◌, ◌/◌, ◌%◌, ◌^◌, ℕ, Some, IsTrue, IsFalse, IfOk, IfSome, OnOk, length, slice_index_or};
ghost use Rattle.std.specs.Int.{bit_at};
ghost use Rattle.lattice.specs.declared.point.Point.{Point};
ghost use Rattle.watershed.specs.Marks.{IsRank, IsMarked, IsIndexed, IsInSegment, IsInWord, place_of, word_of};
ghost use Rattle.water.specs.Runs.{AreRuns, Cover};

use crate::runs::add_point;
use lattice::Point;
use std::alloc::{AllocError, Global};
use std::collections::BTreeMap;
use water::Run;

// The number of points of a row.
const ROW: u64 = 4_294_967_296;

// The number of points of a segment, which has 64 words of 64 bits.
const SEGMENT: u64 = 4096;

const WORDS: usize = 64;

// The number of segments whose place is remembered.
const HINTS: usize = 8192;

/// The points that are marked.
#[derive(Drop)]
pub struct Marks {
    // For each segment with a mark, its place in `numbers`.
    places: BTreeMap<u64, usize>,
    // The numbers of the segments, by place, and the bits of their points.
    numbers: Vec<u64>,
    words: Vec<u64>,
    // The places at which segments were found last. The segment's number in `numbers` shows whether a place is still right.
    hints: Vec<usize>,
}

impl Marks {
    /// No point is marked. Allocates nothing.
    pub fn new(alloc: Global) -> Marks
        ensures none { (p : Point) → IsMarked result p → ⊥ }
        ensures indexed { IsIndexed result }
    {
        Marks {
            places: BTreeMap::new(alloc),
            numbers: Vec::new(alloc),
            words: Vec::new(alloc),
            hints: Vec::new(alloc),
        }
    }

    /// Marks the point. Returns true if it wasn't marked before.
    pub fn mark(&mut self, point: Point) -> Result<bool, AllocError>
        requires { IsIndexed self.old }
        ensures again { IfOk result (λ fresh. IsFalse fresh → IsMarked self.old point) }
        ensures fresh { IfOk result (λ fresh. IsTrue fresh → IsMarked self.old point → ⊥) }
        ensures marked { OnOk result ((p : Point)
            → IsMarked self.new p ↔ (IsMarked self.old p ⊎ (p ≡ point))) }
        ensures indexed { OnOk result (IsIndexed self.new) }
    {
        let rank = rank(point);
        let place = self.place(rank / SEGMENT)?;
        // This call shows the prover that the number of words fits a usize, and so does the index of each.
        let _whole = self.words.len();
        let word = place * WORDS + (rank / 64 % 64) as usize;
        Ok(set_bit(&mut self.words, word, (rank % 64) as u32))
    }

    // The place of the segment with this number. The segment is added if it is missing.
    fn place(&mut self, number: u64) -> Result<usize, AllocError>
        requires indexed { IsIndexed self.old }
        requires number { number < 2 ^ 52 }
        ensures there { IfOk result (λ place. place_of self.new number ≡ Some place) }
        ensures same { OnOk result ((n : ℕ) → word_of self.new n ≡ word_of self.old n) }
        ensures indexed { OnOk result (IsIndexed self.new) }
    {
        let hint = hint_of(number);
        if let Some(place) = self.hinted(hint, number) {
            return Ok(place);
        }
        let place = self.listed(number)?;
        note(&mut self.hints, hint, place)?;
        Ok(place)
    }

    // The place of the segment with this number, if it is remembered.
    fn hinted(&self, hint: usize, number: u64) -> Option<usize>
        ensures { IfSome result (λ place. (place < length self.now.numbers.items)
            × (slice_index_or self.now.numbers.items place 0 ≡ number)) }
    {
        let place = *self.hints.get(hint)?;
        let found = *self.numbers.get(place)?;
        if found == number { Some(place) } else { None }
    }

    // The place of the segment with this number, from the map. The segment is added if it is missing.
    fn listed(&mut self, number: u64) -> Result<usize, AllocError>
        requires indexed { IsIndexed self.old }
        requires number { number < 2 ^ 52 }
        ensures there { IfOk result (λ place. place_of self.new number ≡ Some place) }
        ensures same { OnOk result ((n : ℕ) → word_of self.new n ≡ word_of self.old n) }
        ensures indexed { OnOk result (IsIndexed self.new) }
    {
        if let Some(place) = self.places.get(&number) {
            return Ok(*place);
        }
        let place = self.numbers.len();
        self.words.extend_from_slice(&[0; WORDS])?;
        self.numbers.push(number)?;
        self.places.insert(number, place)?;
        Ok(place)
    }

    /// The maximal runs of the marked points, north first, then west first.
    pub(crate) fn runs(&self, alloc: Global) -> Result<Vec<Run>, AllocError>
        requires { IsIndexed self.now }
        ensures { IfOk result (λ runs. AreRuns (IsMarked self.now) runs.items) }
    {
        let mut runs = Vec::new(alloc);
        // This call shows the prover that the keys of the map are in order.
        let _ordered = self.places.len();
        for (number, place) in &self.places {
            add_segment(&mut runs, &self.words, *number, *place)?;
        }
        Ok(runs)
    }
}

// Adds the marked points of the segment with this number, which is at this place.
fn add_segment(
    runs: &mut Vec<Run>,
    words: &[u64],
    number: u64,
    place: usize,
) -> Result<(), AllocError>
    requires number { number < 2 ^ 52 }
    requires place { place * 64 + 64 ≤ length words.now }
    requires runs { AreRuns (Cover runs.old.items) runs.old.items }
    requires past { (q : Point) → Cover runs.old.items q
        → (n : ℕ) × (IsRank q n × (n < number * 4096)) }
    ensures { OnOk result (AreRuns (λ q. Cover runs.old.items q ⊎ IsInSegment words.now number place 4096 q) runs.new.items) }
{
    for i in 0..WORDS {
        let bits = word_at(words, place * WORDS + i);
        add_word(runs, bits, number * SEGMENT + i as u64 * 64)?;
    }
    Ok(())
}

// Adds the points whose bits are set in a word. Its lowest bit belongs to the point with the rank `first`.
fn add_word(runs: &mut Vec<Run>, bits: u64, first: u64) -> Result<(), AllocError>
    requires small { first + 64 ≤ 2 ^ 64 }
    requires runs { AreRuns (Cover runs.old.items) runs.old.items }
    requires past { (q : Point) → Cover runs.old.items q → (n : ℕ) × (IsRank q n × (n < first)) }
    ensures { OnOk result (AreRuns (λ q. Cover runs.old.items q ⊎ IsInWord bits first 64 q) runs.new.items) }
{
    // In a river's watershed most words of a row's segments are empty.
    if bits == 0 {
        return Ok(());
    }
    for bit in 0..64 {
        add_bit(runs, bits, bit as u32, first + bit)?;
    }
    Ok(())
}

// Adds the point with this rank, if its bit is set.
fn add_bit(runs: &mut Vec<Run>, bits: u64, bit: u32, rank: u64) -> Result<(), AllocError>
    requires bit { bit < 64 }
    requires runs { AreRuns (Cover runs.old.items) runs.old.items }
    requires past { (q : Point) → Cover runs.old.items q → (n : ℕ) × (IsRank q n × (n < rank)) }
    ensures { OnOk result (AreRuns (λ q. Cover runs.old.items q ⊎ ((bit_at bits bit ≡ 1) × IsRank q rank)) runs.new.items) }
{
    if !has_bit(bits, bit) {
        return Ok(());
    }
    add_point(runs, point_at(rank))?;
    Ok(())
}

// The number of points before this one, north first, then west first.
fn rank(point: Point) -> u64
    ensures { IsRank point result }
{
    let row = (i64::from(i32::MAX) - i64::from(point.y)) as u64;
    let column = (i64::from(point.x) - i64::from(i32::MIN)) as u64;
    row * ROW + column
}

// The point with this rank.
fn point_at(rank: u64) -> Point
    ensures { IsRank result rank }
{
    let row = (rank / ROW) as i64;
    let column = (rank % ROW) as i64;
    Point {
        y: (i64::from(i32::MAX) - row) as i32,
        x: (column + i64::from(i32::MIN)) as i32,
    }
}

// The index of the segment's hint. Two segments of each of 4,096 successive rows have different hints.
fn hint_of(number: u64) -> usize {
    (number / (ROW / SEGMENT) % 4096 * 2 + number % 2) as usize
}

// Remembers the place of a segment.
fn note(hints: &mut Vec<usize>, hint: usize, place: usize) -> Result<(), AllocError> {
    if hints.is_empty() {
        hints.resize(HINTS, place)?;
    }
    if hint < hints.len() {
        hints[hint] = place;
    }
    Ok(())
}

fn word_at(words: &[u64], k: usize) -> u64
    requires { k < length words.now }
    ensures { result ≡ slice_index_or words.now k 0 }
{
    words[k]
}

// Sets this bit of a word. Returns whether it wasn't set before.
fn set_bit(words: &mut Vec<u64>, k: usize, bit: u32) -> bool
    requires k { k < length words.old.items }
    requires bit { bit < 64 }
    ensures again { IsFalse result ↔ (bit_at (slice_index_or words.old.items k 0) bit ≡ 1) }
    ensures set { bit_at (slice_index_or words.new.items k 0) bit ≡ 1 }
    ensures others { (i : ℕ) → i ≢ bit
        → bit_at (slice_index_or words.new.items k 0) i
        ≡ bit_at (slice_index_or words.old.items k 0) i }
    ensures apart { (j : ℕ) → j ≢ k
        → slice_index_or words.new.items j 0 ≡ slice_index_or words.old.items j 0 }
    ensures whole { length words.new.items ≡ length words.old.items }
{
    let bits = words[k];
    words[k] = with_bit(bits, bit);
    !has_bit(bits, bit)
}

fn with_bit(bits: u64, bit: u32) -> u64
    requires { bit < 64 }
    ensures set { bit_at result bit ≡ 1 }
    ensures others { (i : ℕ) → i ≢ bit → bit_at result i ≡ bit_at bits i }
{
    bits | (1 << bit)
}

fn has_bit(bits: u64, bit: u32) -> bool
    requires { bit < 64 }
    ensures { IsTrue result ↔ (bit_at bits bit ≡ 1) }
{
    bits & (1 << bit) != 0
}

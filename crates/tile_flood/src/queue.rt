//! The queue of waiting points, the lowest level first.
ghost use Rattle.std.specs.Prelude.{◌≡◌, ℕ, ℤ, ◌+◌, IfOk, OnOk, IfSome, IfNone, MatchOption};
ghost use Rattle.tile_flood.specs.Waiting.{Waits, HasBucket, waiting, IsJoined, IsTaken, IsExtended};

use std::alloc::{AllocError, Global};
use std::marker::Model;

// The number of 16-bit levels.
const LEVELS: usize = 65536;

/// A point that waits, and its level.
#[derive(Clone, Copy)]
pub(crate) struct QueueEntry {
    pub(crate) level: i16,
    pub(crate) point: u32,
}

/// The waiting points, in a bucket for each level of a range. The range is extended when a point waits at another level.
#[derive(Drop)]
pub(crate) struct Queue {
    alloc: Global,
    // The level of the first bucket.
    least: i16,
    buckets: Vec<Vec<u32>>,
    // No bucket before this one has a point.
    lowest: usize,
}

impl Model for Queue {
    ghost use Rattle.std.specs.Prelude.{ℕ, pos, ◌+ℤ◌, ◌≤ℤ◌, map, length};
    ghost use Rattle.tile_flood.specs.Waiting.{Queue, AreEmptyBelow};

    ghost Value = { Queue };

    ghost view = { λ q. record { least = q.least; buckets = map (λ b. b.items) q.buckets.items } };

    ghost invariant = { λ q. ((q.least +ℤ pos (length q.buckets.items)) ≤ℤ pos 32768)
        × AreEmptyBelow (map (λ b. b.items) q.buckets.items) q.lowest };
}

impl Queue {
    /// An empty queue without buckets; the first push makes buckets around this level. It is meant for few points, when a
    /// bucket for each level would cost more than it saves.
    pub(crate) fn new(alloc: Global, least: i16) -> Queue
        ensures { (level : ℤ) (e : ℕ) → Waits result level e → ⊥ }
    {
        Queue {
            alloc,
            least,
            buckets: Vec::new(alloc),
            lowest: 0,
        }
    }

    /// An empty queue with a bucket for each level, for a whole block.
    pub(crate) fn full(alloc: Global) -> Result<Queue, AllocError>
        ensures { IfOk result (λ queue. (level : ℤ) (e : ℕ) → Waits queue level e → ⊥) }
    {
        let buckets = empty_buckets(alloc, LEVELS)?;
        Ok(Queue {
            alloc,
            least: i16::MIN,
            buckets,
            lowest: 0,
        })
    }

    /// Adds the point at this level.
    pub(crate) fn push(&mut self, level: i16, point: u32) -> Result<(), AllocError>
        ensures joined { OnOk result (IsJoined self.old self.new level point) }
        ensures count { OnOk result (waiting self.new ≡ waiting self.old + 1) }
    {
        self.reach(level)?;
        self.put(level, point)?;
        Ok(())
    }

    // Makes the level's bucket, if there is none.
    fn reach(&mut self, level: i16) -> Result<(), AllocError>
        ensures bucket { OnOk result (HasBucket self.new level) }
        ensures extended { OnOk result (IsExtended self.old self.new) }
    {
        if is_in_range(self.least, self.buckets.len(), level) {
            return Ok(());
        }
        self.extend(level)
    }

    // Extends the range of buckets to this level, and by as many further buckets as there are already, within the 16-bit
    // levels.
    #[cold]
    fn extend(&mut self, level: i16) -> Result<(), AllocError>
        ensures bucket { OnOk result (HasBucket self.new level) }
        ensures extended { OnOk result (IsExtended self.old self.new) }
    {
        let count = self.buckets.len();
        let below = count_below(self.least, level, count);
        let above = count_above(self.least, level, count);
        let mut buckets = empty_buckets(self.alloc, below)?;
        let mut rest = empty_buckets(self.alloc, above)?;
        buckets.append(&mut self.buckets)?;
        buckets.append(&mut rest)?;
        self.least = level_below(self.least, below);
        self.buckets = buckets;
        self.lowest = 0;
        Ok(())
    }

    // Adds the point to the level's bucket.
    fn put(&mut self, level: i16, point: u32) -> Result<(), AllocError>
        requires { HasBucket self.old level }
        ensures joined { OnOk result (IsJoined self.old self.new level point) }
        ensures count { OnOk result (waiting self.new ≡ waiting self.old + 1) }
    {
        let number = number_of(self.least, level);
        self.lowest = self.lowest.min(number);
        self.buckets[number].push(point)?;
        Ok(())
    }

    /// Whether all waiting points are above this level.
    pub(crate) fn is_above(&self, level: i16) -> bool
        ensures { IsTrue result → (l : ℤ) (e : ℕ) → Waits self.now l e → level <ℤ l }
    {
        match first_in_use(&self.buckets, self.lowest) {
            Some(lowest) => level < level_of(self.least, lowest),
            None => true,
        }
    }

    /// The lowest level at which a point waits; None if none waits.
    pub(crate) fn lowest_level(&mut self) -> Option<i16>
        ensures found { MatchOption result ((level : ℤ) (e : ℕ) → Waits self.old level e → ⊥) (λ level. (e : ℕ)
            × Waits self.old level e) }
        ensures same { self.new ≡ self.old }
    {
        let Some(lowest) = first_in_use(&self.buckets, self.lowest) else {
            // The next search skips these buckets.
            self.lowest = self.buckets.len();
            return None;
        };
        self.lowest = lowest;
        Some(level_of(self.least, lowest))
    }

    /// Removes a waiting point of the lowest level and returns it.
    pub(crate) fn pop(&mut self) -> Option<QueueEntry>
        ensures taken { MatchOption result ((level : ℤ) (e : ℕ) → Waits self.old level e → ⊥) (λ entry. IsTaken self.old self.new entry.level entry.point) }
        ensures count { IfSome result (λ _. waiting self.old ≡ waiting self.new + 1) }
        ensures same { IfNone result (self.new ≡ self.old) }
    {
        let lowest = first_in_use(&self.buckets, self.lowest)?;
        self.lowest = lowest;
        let point = self.buckets[lowest].pop()?;
        Some(QueueEntry {
            level: level_of(self.least, lowest),
            point,
        })
    }
}

ghost use Rattle.std.specs.Prelude.{◌<◌, ◌≤◌, ◌≤ℤ◌, [], IsTrue, map, length, pos, ◌+ℤ◌, ◌-ℤ◌, ◌<ℤ◌};
ghost use Rattle.lattice.specs.Mosaic.{void};
ghost use Rattle.tile_flood.specs.Waiting.{bucket, AreEmpty};

// The first bucket from `from` on that isn't empty.
fn first_in_use(buckets: &[Vec<u32>], from: usize) -> Option<usize>
    ensures none { IfNone result ((b : ℕ) → from ≤ b
        → bucket (map (λ v. v.items) buckets.now) b ≡ []) }
    ensures in_range { IfSome result (λ k. k < length buckets.now) }
    ensures in_use { IfSome result (λ k. 0 < length (bucket (map (λ v. v.items) buckets.now) k)) }
    ensures first { IfSome result (λ k. (b : ℕ) → from ≤ b → b < k
        → bucket (map (λ v. v.items) buckets.now) b ≡ []) }
{
    for number in from..buckets.len() {
        if !buckets[number].is_empty() {
            return Some(number);
        }
    }
    None
}

// A list of `count` empty buckets.
fn empty_buckets(alloc: Global, count: usize) -> Result<Vec<Vec<u32>>, AllocError>
    ensures count { IfOk result (λ buckets. length buckets.items ≡ count) }
    ensures empty { IfOk result (λ buckets. AreEmpty (map (λ v. v.items) buckets.items)) }
{
    let mut buckets = Vec::with_capacity(alloc, count)?;
    for _ in 0..count {
        buckets.push(Vec::new(alloc))?;
    }
    Ok(buckets)
}

// Whether the level is one of `count` levels from `least` on.
fn is_in_range(least: i16, count: usize, level: i16) -> bool
    ensures { IsTrue result → (least ≤ℤ level) × (level <ℤ (least +ℤ pos count)) }
{
    let number = i32::from(level) - i32::from(least);
    number >= 0 && (number as usize) < count
}

// The number of levels to add below `least`, if this level is lower: enough to reach it, and as many more as there are.
fn count_below(least: i16, level: i16, count: usize) -> usize
    requires { (least +ℤ pos count) ≤ℤ pos 32768 }
    ensures few { void ≤ℤ (least -ℤ pos result) }
    ensures reached { (least -ℤ pos result) ≤ℤ level }
{
    if level >= least {
        return 0;
    }
    let wanted = number_of(level, least) + count;
    wanted.min(number_of(i16::MIN, least))
}

// The number of levels to add above the last one, if this level is higher: enough to reach it, and as many more as there are.
fn count_above(least: i16, level: i16, count: usize) -> usize
    requires { (least +ℤ pos count) ≤ℤ pos 32768 }
    ensures few { ((least +ℤ pos count) +ℤ pos result) ≤ℤ pos 32768 }
    ensures reached { least ≤ℤ level → level <ℤ ((least +ℤ pos count) +ℤ pos result) }
{
    if level < least {
        return 0;
    }
    let number = number_of(least, level);
    if number < count {
        return 0;
    }
    let most = 65536 - (number_of(i16::MIN, least) + count);
    most.min(number + 1)
}

// The level that is `below` levels lower than `least`.
fn level_below(least: i16, below: usize) -> i16
    requires { void ≤ℤ (least -ℤ pos below) }
    ensures { result ≡ least -ℤ pos below }
{
    (i32::from(least) - below as i32) as i16
}

// The number of the level's bucket.
fn number_of(least: i16, level: i16) -> usize
    requires { least ≤ℤ level }
    ensures { level ≡ least +ℤ pos result }
{
    (i32::from(level) - i32::from(least)) as usize
}

// The level of the bucket with this number.
fn level_of(least: i16, number: usize) -> i16
    requires { (least +ℤ pos number) <ℤ pos 32768 }
    ensures { result ≡ least +ℤ pos number }
{
    (i32::from(least) + number as i32) as i16
}

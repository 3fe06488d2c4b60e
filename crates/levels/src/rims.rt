//! The cached levels of rim points.
ghost use Rattle.std.specs.Prelude.{◌≡◌, ◌==◌, ◌⊎◌, ◌↔◌, ◌<◌, ◌≤◌, [], ℕ, ℤ, length, slice_set, Some, None, Contains, cond, IsTrue, IsFalse, IfSome, OnOk, IfErr};
ghost use Rattle.lattice.specs.Mosaic.{IsSample};
ghost use Rattle.lattice.specs.declared.refusal.Refusal.TheVariants.{NoMemory};
ghost use Rattle.water.specs.Ranges.{IsIn};
ghost use Rattle.levels.specs.Holding.{level_of};
ghost use Rattle.levels.specs.Spared.{IsNoHigher, LiesApart, IsSpared, IsSparedBy, AreSparing};

use edits::NewHeight;
use lattice::{Refusal, VOID};
use std::alloc::Global;
use std::marker::Model;
use water::LevelRange;

/// The cached filled levels of rim points, by the numbers of their nodes, up to the greatest number that has one.
#[derive(Drop)]
pub struct RimLevels {
    levels: Vec<Option<i16>>,
}

impl Model for RimLevels {
    ghost use Rattle.std.specs.Prelude.{List, Option, ℤ};

    ghost Value = { List (Option ℤ) };

    ghost view = { λ r. r.levels.items };
}

impl RimLevels {
    /// An empty cache.
    pub fn new(alloc: Global) -> RimLevels
        ensures none { (x : ℕ) → level_of result x ≡ None }
        ensures empty { result ≡ [] }
    {
        RimLevels {
            levels: Vec::new(alloc),
        }
    }

    /// The cached level of the node, if there is one.
    pub fn level(&self, node: u32) -> Option<i16>
        ensures { result ≡ level_of self.now node }
    {
        match self.levels.get(node as usize) {
            Some(level) => *level,
            None => None,
        }
    }

    /// Drops the levels higher than `most`, in metres; all levels if `most` is None. Allocates nothing.
    pub(crate) fn invalidate_above(&mut self, most: Option<i32>)
        ensures levels { (x : ℕ) (level : ℤ)
            → level_of self.new x ≡ Some level
            ↔ ((level_of self.old x ≡ Some level) × IsNoHigher most level) }
        ensures whole { length self.new ≡ length self.old }
    {
        for x in 0..self.levels.len() {
            if is_above(most, self.at(x)) {
                self.invalidate_at(x);
            }
        }
    }

    /// Drops the levels that may change when ground points get new heights one after another. One pass does it. Allocates
    /// nothing.
    pub(crate) fn invalidate_reached(&mut self, heights: &[NewHeight])
        ensures levels { (x : ℕ) (level : ℤ)
            → level_of self.new x ≡ Some level
            ↔ ((level_of self.old x ≡ Some level) × AreSparing heights.now level) }
        ensures whole { length self.new ≡ length self.old }
    {
        let range = reached_range(heights);
        for x in 0..self.levels.len() {
            if may_change(heights, range, self.at(x)) {
                self.invalidate_at(x);
            }
        }
    }

    // The cached level of node x, if there is one.
    fn at(&self, x: usize) -> Option<i16>
        requires { x < length self.now }
        ensures { result ≡ level_of self.now x }
    {
        self.levels[x]
    }

    // Drops the level of node x.
    fn invalidate_at(&mut self, x: usize)
        requires { x < length self.old }
        ensures { self.new ≡ slice_set self.old x None }
    {
        self.levels[x] = None;
    }

    /// Caches the level of one of so many nodes. NoMemory is the only refusal, also for a node that isn't one of them.
    pub(crate) fn know(&mut self, nodes: usize, node: u32, level: i16) -> Result<(), Refusal>
        ensures known { OnOk result ((x : ℕ)
            → level_of self.new x ≡ cond (node == x) (Some level) (level_of self.old x)) }
        ensures few { (most : ℕ) → nodes ≤ most → length self.old ≤ most → length self.new ≤ most }
        ensures refusal { IfErr result (λ r. (r ≡ NoMemory) × (self.new ≡ self.old)) }
    {
        let place = node as usize;
        if place >= nodes {
            return Err(Refusal::NoMemory);
        }
        if place >= self.levels.len() && self.levels.resize(place + 1, None).is_err() {
            return Err(Refusal::NoMemory);
        }
        self.levels[place] = Some(level);
        Ok(())
    }

    /// Caches the level of these of so many nodes, or of some of them where it is refused. NoMemory is the only refusal.
    pub(crate) fn know_all(
        &mut self,
        nodes: usize,
        alike: &[u32],
        level: i16,
    ) -> Result<(), Refusal>
        ensures known { OnOk result ((x : ℕ) → Contains alike.now x
            → level_of self.new x ≡ Some level) }
        ensures only { (x : ℕ) (found : ℤ) → level_of self.new x ≡ Some found
            → (level_of self.old x ≡ Some found) ⊎ (Contains alike.now x × (found ≡ level)) }
        ensures few { (most : ℕ) → nodes ≤ most → length self.old ≤ most → length self.new ≤ most }
        ensures refusal { IfErr result (λ r. r ≡ NoMemory) }
    {
        for node in alike {
            self.know(nodes, *node, level)?;
        }
        Ok(())
    }
}

// Whether there is a level that is above `most`, or any level if `most` is None.
fn is_above(most: Option<i32>, level: Option<i16>) -> bool
    ensures yes { IsTrue result → IfSome level (λ l. IsNoHigher most l → ⊥) }
    ensures no { IsFalse result → IfSome level (IsNoHigher most) }
{
    let Some(level) = level else {
        return false;
    };
    let Some(most) = most else {
        return true;
    };
    most < i32::from(level)
}

// The range from the least to the greatest of all old and new heights of points that change. No level outside it may change.
fn reached_range(heights: &[NewHeight]) -> LevelRange
    ensures { (level : ℤ) → IsSample level → (IsIn (Some result) level → ⊥)
        → AreSparing heights.now level }
{
    let mut range = LevelRange {
        least: i16::MAX,
        greatest: i16::MIN,
    };
    for height in heights {
        if height.was != height.metres {
            range = wider(range, height.was, height.metres);
        }
    }
    range
}

// The range, widened by the levels that may change when a ground point's height goes from `was` to `is`.
fn wider(range: LevelRange, was: i16, is: i16) -> LevelRange
    ensures before { (level : ℤ) → IsSample level → IsIn (Some range) level
        → IsIn (Some result) level }
    ensures more { (level : ℤ) → IsSample level → (IsIn (Some result) level → ⊥)
        → IsSpared was is level }
{
    if is == VOID {
        return LevelRange {
            least: i16::MIN,
            greatest: i16::MAX,
        };
    }
    LevelRange {
        least: range.least.min(was).min(is),
        greatest: range.greatest.max(was).max(is),
    }
}

// Whether the level, if there is one, may change when the points get their heights. These change no level outside the range.
fn may_change(heights: &[NewHeight], range: LevelRange, level: Option<i16>) -> bool
    requires { (level : ℤ) → IsSample level → (IsIn (Some range) level → ⊥)
        → AreSparing heights.now level }
    ensures yes { IsTrue result → IfSome level (λ l. AreSparing heights.now l → ⊥) }
    ensures no { IsFalse result → IfSome level (AreSparing heights.now) }
{
    let Some(level) = level else {
        return false;
    };
    range.least <= level && level <= range.greatest && is_reached(heights, level)
}

// Whether the level may change when the points get their heights.
fn is_reached(heights: &[NewHeight], level: i16) -> bool
    ensures { IsFalse result ↔ AreSparing heights.now level }
{
    for height in heights {
        if !is_spared(level, height) {
            return true;
        }
    }
    false
}

// Whether the point's new height is its old one, or one that can't change the level.
fn is_spared(level: i16, height: &NewHeight) -> bool
    ensures { IsTrue result ↔ IsSparedBy level height.now }
{
    height.was == height.metres
        || height.metres != VOID && lies_apart(level, height.was, height.metres)
}

// Whether the level is below both heights, or above both.
fn lies_apart(level: i16, was: i16, is: i16) -> bool
    ensures { IsTrue result ↔ LiesApart was is level }
{
    level < was && level < is || was < level && is < level
}

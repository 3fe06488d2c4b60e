//! Where water passes between points with different labels.
ghost use Rattle.std.specs.Prelude.{◌≡◌, [], ℕ, ◌+◌, ◌-◌, ◌*◌, ◌<◌, ◌↔◌, All, IfOk, IfErr, OnOk, IfSome, IfNone, IsTrue, int_lt, length, slice_index, slice_index_or, ◌≤◌};
ghost use Rattle.lattice.specs.Block.{Block};
ghost use Rattle.lattice.specs.Limits.{IsSide};
ghost use Rattle.lattice.specs.Mosaic.{IsSample};
ghost use Rattle.lattice.specs.declared.refusal.Refusal.TheVariants.{NoMemory};
ghost use Rattle.labelling.specs.Labelling.{IsLabelling};
ghost use Rattle.labelling.specs.declared.spill.Spill.{Spill as SpillOf};

use crate::bands::{spill_bands, spills_of};
use crate::labelled::Labelled;
use crate::values::{has_level, higher_of};
use crate::views::LabelledView;
use labelling::Spill;
use lattice::Refusal;
use std::alloc::{AllocError, Global};

// The number of pairs of labels for which the last listed passage is remembered.
const PLACES: usize = 4096;

// The number of pairs of points that are compared together.
const STRIP: usize = 16;

/// For each two labels of the block that meet, the level at which water passes between them; each pair is listed once. `OUT`
/// is a label too. The only refusal is NoMemory. For labels that aren't a valid labelling these are the spills between the
/// points that have a level.
pub fn spills(alloc: Global, labelled: &Labelled) -> Result<Vec<Spill>, Refusal>
    ensures spills { (b : Block) → All IsSample b.heights → b.side ≡ labelled.now.side
        → IsLabelling b labelled.now.levels labelled.now.labels
        → IfOk result (λ spills. AreSpills labelled.now.side b.heights labelled.now.levels labelled.now.labels spills.items) }
    ensures of_any { IfOk result (λ spills. AreSpills labelled.now.side labelled.now.levels labelled.now.levels labelled.now.labels spills.items) }
    ensures refusal { IfErr result (λ refusal. refusal ≡ NoMemory) }
{
    let bands = spill_bands(alloc, labelled)?;
    Ok(spills_of(alloc, &bands)?)
}

ghost use Rattle.labelling.specs.Spills.{AreSpills, HaveSameLabels};
ghost use Rattle.labelling.specs.Passing.{IsPassage, IsNoPassage, AreBeside, AreGathered, ArePassages, IsListed, IsInOrder, AreFirsts};
ghost use Rattle.tile_flood.specs.Bands.{ArePlaces, AreFoundFrom};

// Adds the passages from the points of a row to later points.
pub(crate) fn gather_row(
    labelled: &LabelledView,
    i: usize,
    passages: &mut Passages,
) -> Result<(), AllocError>
    requires row { i < labelled.now.n }
    requires passages { ArePassages labelled.now.n labelled.now.levels.now labelled.now.labels.now passages.old.found.items }
    ensures passages { OnOk result (ArePassages labelled.now.n labelled.now.levels.now labelled.now.labels.now passages.new.found.items) }
    ensures places { OnOk result ((from to : ℕ) → from ≤ i * labelled.now.n → (i + 1) * labelled.now.n ≤ to
        → ArePlaces labelled.now.n labelled.now.levels.now labelled.now.labels.now from to passages.old.found.items
        → ArePlaces labelled.now.n labelled.now.levels.now labelled.now.labels.now from to passages.new.found.items) }
    ensures upto { OnOk result ((from : ℕ)
        → AreFoundFrom labelled.now.n labelled.now.levels.now labelled.now.labels.now from (i * labelled.now.n) passages.old.found.items
        → AreFoundFrom labelled.now.n labelled.now.levels.now labelled.now.labels.now from ((i + 1) * labelled.now.n) passages.new.found.items) }
{
    let n = labelled.n;
    let west = i * n;
    gather(labelled, west, west + 1, n - 1, passages)?;
    if i + 1 == n {
        return Ok(());
    }
    gather(labelled, west, west + n, n, passages)?;
    gather(labelled, west, west + n + 1, n - 1, passages)?;
    gather(labelled, west + 1, west + n, n - 1, passages)?;
    Ok(())
}

// Adds the passages between the points from e on and those from f on.
fn gather(
    labelled: &LabelledView,
    e: usize,
    f: usize,
    count: usize,
    passages: &mut Passages,
) -> Result<(), AllocError>
    requires beside { AreBeside labelled.now.n e f count }
    requires passages { ArePassages labelled.now.n labelled.now.levels.now labelled.now.labels.now passages.old.found.items }
    ensures gathered { OnOk result (AreGathered labelled.now.n labelled.now.levels.now labelled.now.labels.now passages.old.found.items passages.new.found.items e f count) }
    ensures places { OnOk result ((from to : ℕ) → from ≤ e → e + count ≤ to
        → ArePlaces labelled.now.n labelled.now.levels.now labelled.now.labels.now from to passages.old.found.items
        → ArePlaces labelled.now.n labelled.now.levels.now labelled.now.labels.now from to passages.new.found.items) }
{
    let mut from = 0;
    'strips: while from < count {
        let width = STRIP.min(count - from);
        // Most neighbours have the same label.
        if !are_alike(labelled.labels, e + from, f + from, width) {
            for k in from..from + width {
                if let Some(passage) = passage(labelled.levels, labelled.labels, e + k, f + k) {
                    passages.list(passage)?;
                }
            }
        }
        from += width;
    }
    Ok(())
}

// Whether the points from e on have the labels of those from f on. All of the strip is compared, since a processor compares
// several points at once.
fn are_alike(labels: &[u16], e: usize, f: usize, width: usize) -> bool
    requires e { e + width ≤ length labels.now }
    requires f { f + width ≤ length labels.now }
    requires width { width ≤ STRIP }
    ensures { IsTrue result → (k : ℕ) → k < width
        → slice_index labels.now (e + k) ≡ slice_index labels.now (f + k) }
{
    if width < STRIP {
        return false;
    }
    let mut alike = true;
    for k in 0..STRIP {
        alike &= labels[e + k] == labels[f + k];
    }
    alike
}

ghost use Rattle.tile_flood.specs.declared.passing.TheConstants.{PLACES};

// The passages found, and for pairs of labels the position of the last listed passage.
#[derive(Drop)]
pub(crate) struct Passages {
    pub(crate) found: Vec<Spill>,
    places: Vec<usize>,
    ghost remembered: { length places.items ≡ PLACES },
}

impl Passages {
    // An empty list of passages.
    pub(crate) fn new(alloc: Global) -> Result<Passages, AllocError>
        ensures { IfOk result (λ passages. passages.found.items ≡ []) }
    {
        Ok(Passages {
            found: Vec::new(alloc),
            places: vec![in alloc; 0; PLACES]?,
        })
    }

    // Lists the passage. If one between the same labels was listed recently, that one is lowered instead, so few pairs are
    // listed twice.
    fn list(&mut self, passage: Spill) -> Result<(), AllocError>
        ensures { OnOk result (IsListed self.old.found.items self.new.found.items passage) }
    {
        let remembered = (61 * passage.a as usize + passage.b as usize) % PLACES;
        let place = self.places[remembered];
        if place < self.found.len() && have_same_labels(self.found[place], passage) {
            lower(&mut self.found, place, passage);
            return Ok(());
        }
        self.places[remembered] = self.found.len();
        self.found.push(passage)?;
        Ok(())
    }
}

// Replaces the passage at this position, which is between the same labels, unless the new one is higher.
fn lower(found: &mut [Spill], place: usize, passage: Spill)
    requires inside { place < length found.old }
    requires same { (d : SpillOf) → HaveSameLabels (slice_index_or found.old place d) passage }
    ensures { IsListed found.old found.new passage }
{
    if is_lower(passage, found[place]) {
        found[place] = passage;
    }
}

fn is_lower(one: Spill, other: Spill) -> bool
    ensures { result ≡ int_lt one.level other.level }
{
    one.level < other.level
}

// The passage between these two points: their labels and the level at which water passes. None if water doesn't pass, or the
// labels are equal.
fn passage(levels: &[i16], labels: &[u16], e: usize, f: usize) -> Option<Spill>
    requires e { (e < length levels.now) × (e < length labels.now) }
    requires f { (f < length levels.now) × (f < length labels.now) }
    ensures none { IfNone result (IsNoPassage levels.now labels.now e f) }
    ensures some { IfSome result (λ passage. IsPassage levels.now labels.now e f passage) }
{
    if labels[e] == labels[f] || !has_level(levels, e) || !has_level(levels, f) {
        return None;
    }
    Some(Spill {
        a: labels[e].min(labels[f]),
        b: labels[e].max(labels[f]),
        level: higher_of(levels, e, f),
    })
}

// The first passage of each run with the same two labels, which is the lowest of the run.
pub(crate) fn first_of_each(alloc: Global, sorted: &[Spill]) -> Result<Vec<Spill>, AllocError>
    requires { IsInOrder sorted.now }
    ensures { IfOk result (λ firsts. AreFirsts sorted.now firsts.items) }
{
    let mut firsts = Vec::new(alloc);
    for k in 0..sorted.len() {
        if k == 0 || !have_same_labels(sorted[k - 1], sorted[k]) {
            firsts.push(sorted[k])?;
        }
    }
    Ok(firsts)
}

fn have_same_labels(one: Spill, other: Spill) -> bool
    ensures { IsTrue result ↔ HaveSameLabels one other }
{
    one.a == other.a && one.b == other.b
}

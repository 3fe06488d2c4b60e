//! The cached labellings of tiles.
ghost use Rattle.std.specs.Prelude.{◌≡◌, ◌≢◌, ◌<◌, ◌≤◌, ◌↔◌, ℕ, true, false, not, IfOk, IfErr, IfSome, IfNone, IsTrue, All, Contains, filter, count_by, length, slice_index_or, vec_len, vec_capacity};
ghost use Rattle.lattice.specs.Corners.{Corner};
ghost use Rattle.lattice.specs.Lattice.{IsIndexOf, holds};
ghost use Rattle.lattice.specs.Mosaic.{Mosaic};
ghost use Rattle.lattice.specs.declared.refusal.Refusal.TheVariants.{NoMemory};
ghost use Rattle.border_graph.specs.Others.{corner_at};
ghost use Rattle.tile_labellings.specs.Labellings.{IsFlooded};
ghost use Rattle.tile_labellings.specs.Spots.{IsLabelledAt};
ghost use Rattle.tile_labellings.specs.TileLabellings.{labelled_of, can_note, IsBelow, IsCurrent, IsSetFrom, IsTileLabelling};
ghost use Rattle.tile_labellings.specs.declared.tile_labelling.TileLabelling.{TileLabelling};
ghost use Rattle.levels.specs.Holding.{IsHeldAt, IsEntered};
ghost use Rattle.levels.specs.Invalidating.{IsNoted, IsHeldStill, IsStillAt};
ghost use Rattle.levels.specs.Reaching.{DifferAt, is_reached};
ghost use Rattle.levels.specs.Room.{most_labellings, most_blocks, HasSide, has_block};

use crate::affected_tiles::is_reached;
use crate::filling::label_in;
use edits::NewHeight;
use lattice::{Corner, Point, Refusal, Side, index_in};
use std::alloc::Global;
use tile_flood::Labelled;
use tile_labellings::TileLabelling;

// The most bytes of labellings that are cached, four a point.
const MOST_BYTES: usize = 230 << 20;

// The most bytes of flooded blocks that are cached with them, two a point.
const MOST_BLOCK_BYTES: usize = 50 << 20;

// So many points of a tile are read singly before its labelling is cached. Together they cost as much as reading it whole.
const MOST_ALONE: u16 = 256;

/// The cached labelling of the tile with number `place`.
#[derive(Drop)]
pub(crate) struct HeldLabelling {
    place: usize,
    labelling: TileLabelling,
}

impl HeldLabelling {
    // Records that the point may have this height. False if the labelling can't record it, and so has to be dropped.
    fn note_changed(&mut self, side: Side, corners: &[Corner], height: &NewHeight) -> bool
        ensures { IsNoted side corners.now height.now self.old result self.new }
    {
        let Some(corner) = corners.get(self.place) else {
            return false;
        };
        match index_held(side, *corner, height.point) {
            Some(index) => self
                .labelling
                .note_changed(index, height.was, height.metres),
            None => true,
        }
    }

    // Whether this is tile t's labelling, and no level in the tile changes when the point with this index gets this height.
    fn is_below(&self, t: usize, index: u32, height: &NewHeight) -> bool
        ensures { IsTrue result
            ↔ ((self.now.place ≡ t)
            × IsBelow self.now.labelling index height.now.was height.now.metres) }
    {
        self.place == t && self.labelling.is_below(index, height.was, height.metres)
    }
}

/// Labellings of tiles with one side. Without room for another one, the least recently used labelling is evicted.
#[derive(Drop)]
pub struct LabellingCache {
    side: Side,
    // Labellings by last use, the most recent one first.
    held: Vec<HeldLabelling>,
    // For each tile, the number of points read singly since the count was last reset.
    alone: Vec<u16>,
    ghost few: { length held.items ≤ most_labellings side },
    ghost few_blocks: { count_by has_block held.items ≤ most_blocks side },
    ghost sides: { All (HasSide side) held.items },
}

impl LabellingCache {
    /// An empty cache for `count` tiles. The only refusal is NoMemory.
    pub fn new(alloc: Global, side: Side, count: usize) -> Result<LabellingCache, Refusal>
        ensures none { IfOk result (λ cache. (t : ℕ) (l : TileLabelling)
            → IsHeldAt cache.held.items t l → ⊥) }
        ensures entered { IfOk result (λ cache. (m : Mosaic) (c : Corner) (t : ℕ)
            → IsEntered m c cache.held.items t) }
        ensures side { IfOk result (λ cache. cache.side ≡ side) }
        ensures refusal { IfErr result (λ r. r ≡ NoMemory) }
    {
        let alone = vec![in alloc; 0; count]?;
        Ok(LabellingCache {
            side,
            held: Vec::new(alloc),
            alone,
        })
    }

    /// The number of the tile that was used last; 0 if none was.
    pub(crate) fn last(&self) -> usize {
        match self.held.first() {
            Some(held) => held.place,
            None => 0,
        }
    }

    /// The level and the label of the point with this index in tile t. None unless the tile's labelling is cached and no height
    /// in the tile may have changed since.
    pub(crate) fn label_at(&mut self, t: usize, index: u32) -> Option<(i16, u16)>
        ensures same { All (Contains self.old.held.items) self.new.held.items }
        ensures side { self.new.side ≡ self.old.side }
        ensures some { IfSome result (λ label_at. (m : Mosaic) (c : Corner)
            → IsEntered m c self.old.held.items t
            → IsLabelledAt m c index label_at.0 label_at.1) }
    {
        self.use_again(t);
        let labelled = self.labelling(t)?;
        label_in(labelled, index)
    }

    /// Counts a read of one point of tile t, whose labelling isn't cached. True if the point shall be read singly, false once
    /// the labelling is worth caching.
    pub(crate) fn reads_alone(&mut self, t: usize) -> bool
        ensures same { self.new.held.items ≡ self.old.held.items }
        ensures side { self.new.side ≡ self.old.side }
    {
        if t >= self.alone.len() {
            return false;
        }
        if self.alone[t] >= MOST_ALONE {
            self.alone[t] = 0;
            return false;
        }
        self.alone[t] += 1;
        true
    }

    /// The labelling of tile t, if it is cached and no height may have changed since.
    pub fn labelling(&self, t: usize) -> Option<&Labelled>
        ensures some { IfSome result (λ labelled. (l : TileLabelling)
            × IsHeldAt self.now.held.items t l × IsCurrent l × (labelled.now ≡ labelled_of l)) }
        ensures none { IfNone result ((l : TileLabelling) → IsHeldAt self.now.held.items t l
            → IsCurrent l → ⊥) }
        ensures flooded { IfSome result (λ labelled. (m : Mosaic) (c : Corner)
            → IsEntered m c self.now.held.items t → IsFlooded m c labelled.now) }
    {
        for held in &self.held {
            if held.place == t && held.labelling.is_current() {
                return Some(held.labelling.labelled());
            }
        }
        None
    }

    /// The number of a tile that has the point and a cached labelling. The most recently used tiles are tried first.
    pub fn holder(&self, side: Side, corners: &[Corner], point: Point) -> Option<usize> {
        for held in &self.held {
            if is_in(side, corners, held.place, point) {
                return Some(held.place);
            }
        }
        None
    }

    /// Removes the labelling of tile t from the cache and returns it; None if it isn't cached.
    pub fn take(&mut self, t: usize) -> Option<TileLabelling>
        ensures some { IfSome result (IsHeldAt self.old.held.items t) }
        ensures none { IfNone result ((l : TileLabelling) → IsHeldAt self.old.held.items t l → ⊥) }
        ensures left { (m : Mosaic) (c : Corner) (u : ℕ) → IsEntered m c self.old.held.items u
            → IsEntered m c self.new.held.items u }
        ensures side { self.new.side ≡ self.old.side }
    {
        let at = place_of(&self.held, t)?;
        let held = self.held.remove(at);
        Some(held.labelling)
    }

    /// Caches the labelling of tile t, if it has the cache's side and memory suffices.
    pub(crate) fn hold(&mut self, t: usize, labelling: TileLabelling)
        ensures entered { (m : Mosaic) (c : Corner) (u : ℕ)
            → (u ≡ t → IsTileLabelling m c labelling) → IsEntered m c self.old.held.items u
            → IsEntered m c self.new.held.items u }
        ensures held { (labelled_of labelling).side ≡ self.old.side
            → vec_len self.old.held < vec_capacity self.old.held
            → IsHeldAt self.new.held.items t labelling }
        ensures side { self.new.side ≡ self.old.side }
    {
        if labelling.labelled().side() != self.side {
            return;
        }
        self.make_room();
        let _ = self.held.insert(
            0,
            HeldLabelling {
                place: t,
                labelling,
            },
        );
    }

    // Evicts labellings and blocks until one more tile fits.
    fn make_room(&mut self)
        ensures entered { (m : Mosaic) (c : Corner) (u : ℕ) → IsEntered m c self.old.held.items u
            → IsEntered m c self.new.held.items u }
        ensures room { length self.new.held.items < most_labellings self.new.side }
        ensures block { count_by has_block self.new.held.items < most_blocks self.new.side }
        ensures side { self.new.side ≡ self.old.side }
        ensures fewer { vec_len self.new.held ≤ vec_len self.old.held }
        ensures capacity { vec_capacity self.old.held ≤ vec_capacity self.new.held }
    {
        self.held.truncate(most_labellings(self.side) - 1);
        if let Some(at) = oldest_block(&self.held, most_blocks(self.side)) {
            give_up_block(&mut self.held, at);
        }
    }

    /// Drops the labellings of the tiles that a change in the box from `from` to `to` reaches. Allocates nothing.
    pub fn invalidate_between(&mut self, side: Side, corners: &[Corner], from: Point, to: Point)
        ensures left { (t : ℕ) (l : TileLabelling)
            → IsHeldAt self.new.held.items t l
            ↔ (IsHeldAt self.old.held.items t l × (is_reached side corners.now from to t ≡ false)) }
        ensures side { self.new.side ≡ self.old.side }
    {
        retain_unreached(&mut self.held, side, corners, from, to);
    }

    /// Records in the labelling of each tile that has the point that it may have this height; the labelling is mended on its
    /// next use. A labelling that can't record it is dropped. A stored labelling that stays right is unchanged.
    pub fn note_changed(&mut self, side: Side, corners: &[Corner], height: &NewHeight)
        ensures noted { (m new : Mosaic) (t : ℕ) → DifferAt m new height.now.point
            → IsSetFrom m new height.now.point height.now.was height.now.metres → m.side ≡ side
            → IsEntered m (corner_at corners.now t) self.old.held.items t
            → IsEntered new (corner_at corners.now t) self.new.held.items t }
        ensures kept { (t : ℕ) → t < length corners.now
            → holds side (corner_at corners.now t) height.now.point ≡ false → (l : TileLabelling)
            → IsHeldAt self.new.held.items t l ↔ IsHeldAt self.old.held.items t l }
        ensures mended { (t : ℕ) → t < length corners.now → (l : TileLabelling)
            → IsHeldAt self.old.held.items t l → can_note l ≡ true
            → IsHeldStill self.new.held.items t l }
        ensures side { self.new.side ≡ self.old.side }
    {
        retain_noted(&mut self.held, side, corners, height);
    }

    /// Whether a cached labelling of tile t shows that no level in it changes when the point gets this height. That is so if
    /// the point lay below its level and doesn't rise above it.
    pub(crate) fn is_still(&self, side: Side, t: usize, corner: Corner, height: &NewHeight) -> bool
        ensures yes { IsTrue result → IsStillAt side self.now.held.items height.now t corner }
        ensures no { IsStillAt side self.now.held.items height.now t corner → IsTrue result }
    {
        let Some(index) = index_held(side, corner, height.point) else {
            return false;
        };
        for held in &self.held {
            if held.is_below(t, index, height) {
                return true;
            }
        }
        false
    }

    // Makes tile t the most recently used one, if it is cached.
    fn use_again(&mut self, t: usize)
        ensures only { All (Contains self.old.held.items) self.new.held.items }
        ensures all { All (Contains self.new.held.items) self.old.held.items }
        ensures side { self.new.side ≡ self.old.side }
    {
        if let Some(at) = place_of(&self.held, t) {
            move_first(&mut self.held, at);
        }
    }
}

// Moves the labelling with this index to the front.
fn move_first(held: &mut Vec<HeldLabelling>, at: usize)
    requires { at < length held.old.items }
    ensures only { All (Contains held.old.items) held.new.items }
    ensures all { All (Contains held.new.items) held.old.items }
    ensures count { length held.new.items ≡ length held.old.items }
    ensures blocks { count_by has_block held.new.items ≡ count_by has_block held.old.items }
{
    if at == 0 {
        return;
    }
    let one = held.remove(at);
    // Can't fail: the removal left room for one element.
    let _ = held.insert(0, one);
}

// Drops the flooded block of the labelling with this index, which can't be mended afterwards.
fn give_up_block(held: &mut Vec<HeldLabelling>, at: usize)
    requires { at < length held.old.items }
    ensures entered { (m : Mosaic) (c : Corner) (u : ℕ) → IsEntered m c held.old.items u
        → IsEntered m c held.new.items u }
    ensures sides { (n : ℕ) → All (HasSide n) held.old.items → All (HasSide n) held.new.items }
    ensures count { length held.new.items ≤ length held.old.items }
    ensures capacity { vec_capacity held.old ≤ vec_capacity held.new }
    ensures blocks { (d : HeldLabelling) → has_block (slice_index_or held.old.items at d) ≡ true
        → count_by has_block held.new.items < count_by has_block held.old.items }
{
    let one = held.remove(at);
    if let Some(labelling) = one.labelling.without_block() {
        // Can't fail: the removal left room for one element.
        let _ = held.insert(
            at,
            HeldLabelling {
                place: one.place,
                labelling,
            },
        );
    }
}

// If no more blocks fit, the index of the least recently used labelling with a block; otherwise None.
fn oldest_block(held: &[HeldLabelling], room: usize) -> Option<usize>
    requires { 0 < room }
    ensures some { IfSome result (λ at. (at < length held.now)
        × ((d : HeldLabelling) → has_block (slice_index_or held.now at d) ≡ true)) }
    ensures none { IfNone result (count_by has_block held.now < room) }
{
    let mut count = 0;
    for (at, one) in held.iter().enumerate() {
        if one.labelling.is_flooded() {
            count += 1;
            if count == room {
                return Some(at);
            }
        }
    }
    None
}

// Keeps the labellings of the tiles that a change in the box doesn't reach.
fn retain_unreached(
    held: &mut Vec<HeldLabelling>,
    side: Side,
    corners: &[Corner],
    from: Point,
    to: Point,
)
    ensures { held.new.items ≡ filter (λ one. not (is_reached side corners.now from to one.place)) held.old.items }
{
    held.retain(|one| !is_reached(side, corners, from, to, one.place));
}

// Records in the labellings of tiles that have the point that it may have this height. Drops the labellings that can't record
// it.
fn retain_noted(held: &mut Vec<HeldLabelling>, side: Side, corners: &[Corner], height: &NewHeight)
    ensures noted { (m new : Mosaic) (t : ℕ) → DifferAt m new height.now.point
        → IsSetFrom m new height.now.point height.now.was height.now.metres → m.side ≡ side
        → IsEntered m (corner_at corners.now t) held.old.items t
        → IsEntered new (corner_at corners.now t) held.new.items t }
    ensures kept { (t : ℕ) → t < length corners.now
        → holds side (corner_at corners.now t) height.now.point ≡ false → (l : TileLabelling)
        → IsHeldAt held.new.items t l ↔ IsHeldAt held.old.items t l }
    ensures mended { (t : ℕ) → t < length corners.now → (l : TileLabelling)
        → IsHeldAt held.old.items t l → can_note l ≡ true → IsHeldStill held.new.items t l }
    ensures sides { (n : ℕ) → All (HasSide n) held.old.items → All (HasSide n) held.new.items }
    ensures count { length held.new.items ≤ length held.old.items }
    ensures blocks { count_by has_block held.new.items ≤ count_by has_block held.old.items }
{
    held.retain_mut(|one| one.note_changed(side, corners, height));
}

// The index of the point in the corner's tile; None if the tile doesn't have the point.
fn index_held(side: Side, corner: Corner, point: Point) -> Option<u32>
    ensures some { IfSome result (λ e. IsIndexOf side corner point e
        × (holds side corner point ≡ true)) }
    ensures none { IfNone result (holds side corner point ≡ false) }
{
    // These calls give the prover the invariants of the side's and the corner's fields.
    let _edge = side.edge();
    let _lat = corner.lat;
    index_in(side, corner, point)
}

// Whether tile t has the point.
fn is_in(side: Side, corners: &[Corner], t: usize, point: Point) -> bool {
    match corners.get(t) {
        Some(corner) => index_in(side, *corner, point).is_some(),
        None => false,
    }
}

// The number of labellings of tiles with this side that fit.
fn most_labellings(side: Side) -> usize
    ensures value { result ≡ most_labellings side }
    ensures some { 0 < result }
{
    let bytes = 4 * side.area() as usize;
    MOST_BYTES / bytes
}

// The number of those labellings that can have a block too.
fn most_blocks(side: Side) -> usize
    ensures value { result ≡ most_blocks side }
    ensures some { 0 < result }
{
    let bytes = 2 * side.area() as usize;
    MOST_BLOCK_BYTES / bytes
}

// The index of tile t's labelling in the list.
fn place_of(held: &[HeldLabelling], t: usize) -> Option<usize>
    ensures some { IfSome result (λ at. (at < length held.now)
        × ((d : HeldLabelling) → (slice_index_or held.now at d).place ≡ t)) }
    ensures none { IfNone result (All (λ one. one.place ≢ t) held.now) }
{
    for (at, one) in held.iter().enumerate() {
        if one.place == t {
            return Some(at);
        }
    }
    None
}

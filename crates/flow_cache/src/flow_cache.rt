//! Where the points of tiles drain, cached between two questions.
ghost use Rattle.std.specs.Prelude.{◌≡◌, ◌≢◌, ◌≤◌, ◌<◌, ◌↔◌, ◌+◌, ◌*◌, ◌%◌, ◌++◌, [], ◌∷◌, ℕ, ℤ, false, IsTrue, IfOk, IfSome, IfNone, OnOk, OnErr, length, slice_index_or};
ghost use Rattle.lattice.specs.Lattice.{Holds, holds, point_of};
ghost use Rattle.lattice.specs.Mosaic.{Mosaic};
ghost use Rattle.lattice.specs.Terrain.{Terrain};
ghost use Rattle.lattice.specs.declared.point.Point.{Point};
ghost use Rattle.water.specs.Drainage.{CrossesFlat};
ghost use Rattle.flow_d8.specs.Flows.{AreFlows};
ghost use Rattle.water.specs.Flows.{Drains};
ghost use Rattle.flow_d8.specs.FlowGrids.{AreKnown, AreFlowsIn, AreFilledIn, IsCut, KeepsKnown, flow_of, IsAtHand};
ghost use Rattle.flow_d8.specs.Tiles.{place_of, no_corner, IsInTile, OnGround};
ghost use Rattle.flow_d8.specs.Rounds.{Tells};
ghost use Rattle.water.specs.declared.flow.Flow.TheVariants.{Unknown};
ghost use Rattle.flow_cache.specs.LevelRanges.{range_at, AreKnownAll, AreSpared, AreSparedAround, IsAffected};
ghost use Rattle.flow_cache.specs.Slots.{slot_ranges, AreCovered, IsCovered};

use crate::block_ranges::{BLOCKS_IN_ROW, has_affected, is_affected, retain_spared, samples_by};
use flow_d8::{FlowByte, FlowGrid};
use lattice::{Corner, Point, Side};
use std::alloc::{AllocError, Global};
use water::{Flow, LevelRange};

/// The most bytes of flows that are cached. Each sample has one byte.
pub const MOST_FLOW_BYTES: usize = 139 << 20;

/// What the cache stores about a tile beside its flows.
#[derive(Drop)]
pub(crate) struct Slot {
    /// The time of the tile's last use; a greater number is later.
    used: u64,
    /// For each block of the tile and of the two rows and columns around it, the range of its levels. A range is None once a
    /// height change may have moved a level of the block.
    ranges: Vec<Option<LevelRange>>,
}

/// The flows of cached tiles. A sample's flow may be known only while the ranges of its block and of adjacent points' blocks
/// are known.
#[derive(Drop)]
pub struct FlowCache {
    pub grid: FlowGrid,
    slots: Vec<Slot>,
    clock: u64,
    // The most recently used slot.
    pub last: usize,
    ghost same: { length slots.items ≡ length grid.tiles.corners },
    ghost covered: { AreCovered grid.tiles grid.flows.items slots.items },
}

impl FlowCache {
    ghost use Rattle.flow_cache.specs.FlowCaches.{AreInvalidatedBy, IsCacheOf, IsFlowIn, IsKnownIn, IsKnownOf, IsSparedFrom};

    /// An empty cache. Allocates nothing.
    pub fn new(alloc: Global, side: Side) -> FlowCache
        ensures { (m : Mosaic) → side ≡ m.side → IsCacheOf m result }
    {
        FlowCache {
            grid: FlowGrid::new(alloc, side),
            slots: Vec::new(alloc),
            clock: 0,
            last: 0,
        }
    }

    /// The cached flow of the point, from any cached tile that has it; Unknown if none has.
    pub fn flow(&mut self, point: Point) -> Flow
        ensures grid { self.new.grid ≡ self.old.grid }
        ensures ranges { (i : ℕ)
            → slot_ranges self.new.slots.items i ≡ slot_ranges self.old.slots.items i }
        ensures flow { (m : Mosaic) → IsCacheOf m self.old → IsFlowIn m point result }
        ensures found { IsKnownOf self.old.grid point → result ≡ Unknown → ⊥ }
    {
        if let Some(flow) = self.flow_in(self.last, point) {
            return flow;
        }
        for slot in 0..self.slots.len() {
            if let Some(flow) = self.flow_in(slot, point) {
                self.touch(slot);
                return flow;
            }
        }
        Flow::Unknown
    }

    /// The cached flow of the sample with this index in the corner's tile; Unknown if another tile was used last.
    pub fn sample_flow(&self, corner: Corner, index: u32) -> Flow
        ensures { (m : Mosaic) → IsCacheOf m self.now
            → IsFlowIn m (point_of m.side corner index) result }
    {
        let area = self.grid.side().area();
        if self.last >= self.grid.count() || index >= area {
            return Flow::Unknown;
        }
        if self.grid.corner(self.last) != corner {
            return Flow::Unknown;
        }
        self.grid
            .sample_flow(self.last * area as usize + index as usize)
    }

    // The cached flow of the point in the tile of this slot, if there is one.
    fn flow_in(&self, slot: usize, point: Point) -> Option<Flow>
        ensures flow { IfSome result (λ flow. (m : Mosaic) → IsCacheOf m self.now
            → IsFlowIn m point flow) }
        ensures known { IfSome result (λ flow. flow ≡ Unknown → ⊥) }
        ensures none { slot < length self.now.grid.tiles.corners
            → IfNone result (IsKnownIn self.now.grid point slot → ⊥) }
    {
        let number = self.grid.sample_in(slot, point)?;
        match self.grid.sample_flow(number) {
            Flow::Unknown => None,
            flow => Some(flow),
        }
    }

    // Marks the slot's tile as the most recently used one.
    fn touch(&mut self, slot: usize)
        requires { slot < length self.old.slots.items }
        ensures grid { self.new.grid ≡ self.old.grid }
        ensures ranges { (i : ℕ)
            → slot_ranges self.new.slots.items i ≡ slot_ranges self.old.slots.items i }
    {
        self.clock = self.clock.saturating_add(1);
        self.slots[slot].used = self.clock;
        self.last = slot;
    }

    /// Caches the corner's tile with its flows, and with the ranges of levels in it and around it.
    pub fn push(
        &mut self,
        corner: Corner,
        flows: &[FlowByte],
        ranges: Vec<Option<LevelRange>>,
    ) -> Result<(), AllocError>
        requires other { (i : ℕ) → i < length self.old.grid.tiles.corners
            → slice_index_or self.old.grid.tiles.corners i no_corner ≡ corner → ⊥ }
        requires whole { length flows.now ≡ self.old.grid.tiles.side * self.old.grid.tiles.side }
        requires covers { AreKnownAll self.old.grid.tiles.side ranges.items }
        ensures side { self.new.grid.tiles.side ≡ self.old.grid.tiles.side }
        ensures corners { OnOk result (self.new.grid.tiles.corners ≡ self.old.grid.tiles.corners
            ++ corner ∷ []) }
        ensures items { OnOk result (self.new.grid.flows.items ≡ self.old.grid.flows.items
            ++ flows.now) }
        ensures kept { KeepsKnown self.old.grid.tiles self.old.grid.flows.items self.new.grid.tiles self.new.grid.flows.items }
        ensures here { OnOk result (AreKnown flows.now → (p : Point)
            → Holds self.old.grid.tiles.side corner p → (IsAtHand self.old.grid.tiles p → ⊥)
            → flow_of self.new.grid.tiles self.new.grid.flows.items p ≡ Unknown → ⊥) }
        ensures flows { OnOk result ((t : Terrain Point) (level : Point → ℤ)
            → AreFlowsIn t level self.old.grid.tiles.side corner flows.now
            → AreFlows t level (place_of self.old.grid.tiles) self.old.grid.flows.items
            → AreFlows t level (place_of self.new.grid.tiles) self.new.grid.flows.items) }
        ensures slots { OnOk result ((slot_ranges self.new.slots.items (length self.old.grid.tiles.corners)
            ≡ ranges.items)
            × ((i : ℕ) → i < length self.old.grid.tiles.corners
            → slot_ranges self.new.slots.items i ≡ slot_ranges self.old.slots.items i)) }
        ensures failed { OnErr result ((self.new.grid.tiles ≡ self.old.grid.tiles)
            × (self.new.grid.flows.items ≡ self.old.grid.flows.items)
            × (self.new.slots.items ≡ self.old.slots.items)) }
    {
        self.clock = self.clock.saturating_add(1);
        let slot = Slot {
            used: self.clock,
            ranges,
        };
        self.slots.push(slot)?;
        match self.grid.push(corner, flows) {
            Ok(()) => Ok(()),
            Err(refused) => {
                let _ = self.slots.pop();
                Err(refused)
            }
        }
    }

    /// Sets the unknown flows of the slot's tile to these flows, and replaces its ranges.
    pub fn fill(&mut self, slot: usize, flows: &[FlowByte], ranges: Vec<Option<LevelRange>>)
        requires slot { slot < length self.old.grid.tiles.corners }
        requires whole { length flows.now ≡ self.old.grid.tiles.side * self.old.grid.tiles.side }
        requires covers { AreKnownAll self.old.grid.tiles.side ranges.items }
        ensures tiles { self.new.grid.tiles ≡ self.old.grid.tiles }
        ensures flows { AreFilledIn (slot * (self.old.grid.tiles.side * self.old.grid.tiles.side)) (self.old.grid.tiles.side * self.old.grid.tiles.side) flows.now self.old.grid.flows.items self.new.grid.flows.items }
        ensures here { slot_ranges self.new.slots.items slot ≡ ranges.items }
        ensures others { (i : ℕ) → i ≢ slot
            → slot_ranges self.new.slots.items i ≡ slot_ranges self.old.slots.items i }
    {
        let first = slot * self.grid.side().area() as usize;
        self.grid.fill(first, flows);
        self.clock = self.clock.saturating_add(1);
        self.slots[slot] = Slot {
            used: self.clock,
            ranges,
        };
    }

    /// Resolves the flat that the point lies on, as `FlowGrid` does.
    pub fn resolve(&mut self, point: Point) -> Result<Option<Point>, AllocError>
        ensures tiles { self.new.grid.tiles ≡ self.old.grid.tiles }
        ensures slots { self.new.slots.items ≡ self.old.slots.items }
        ensures flows { OnGround self.old.grid.tiles self.old.grid.flows.items (λ t level. AreFlows t level (place_of self.new.grid.tiles) self.new.grid.flows.items) }
        ensures tells { Tells self.old.grid.flows.items self.new.grid.flows.items }
        ensures met { IfOk result (λ met. IfSome met (λ p. (flow_of self.old.grid.tiles self.old.grid.flows.items p
            ≡ Unknown)
            × OnGround self.old.grid.tiles self.old.grid.flows.items (λ t level. IsTrue (t.is_ground p)))) }
        ensures drains { IfOk result (λ met. IfNone met ((flow_of self.old.grid.tiles self.old.grid.flows.items point
            ≡ Unknown → ⊥)
            → OnGround self.old.grid.tiles self.old.grid.flows.items (λ t level. IsTrue (t.is_ground point)
            → (j : ℕ) → CrossesFlat t level point j
            → Drains (flow_of self.new.grid.tiles self.new.grid.flows.items point)))) }
    {
        self.grid.resolve(point)
    }

    /// Drops what may change when a ground point's height goes from `was` to `is`, in metres: ranges, and flows of samples in
    /// their blocks or next to them. Allocates nothing.
    pub fn retain_spared(&mut self, was: i16, is: i16)
        ensures { IsSparedFrom was is self.old self.new }
    {
        for slot in 0..self.slots.len() {
            self.retain_spared_in(slot, was, is);
        }
    }

    // Does what `retain_spared` does, for the tile in this slot.
    fn retain_spared_in(&mut self, slot: usize, was: i16, is: i16)
        requires { slot < length self.old.grid.tiles.corners }
        ensures tiles { self.new.grid.tiles ≡ self.old.grid.tiles }
        ensures whole { length self.new.slots.items ≡ length self.old.slots.items }
        ensures here { AreSpared was is (slot_ranges self.old.slots.items slot) (slot_ranges self.new.slots.items slot) }
        ensures others { (i : ℕ) → i ≢ slot
            → slot_ranges self.new.slots.items i ≡ slot_ranges self.old.slots.items i }
        ensures kept { (k : ℕ) → IsCovered self.new.grid.tiles self.new.slots.items k
            → slice_index_or self.new.grid.flows.items k Unknown
            ≡ slice_index_or self.old.grid.flows.items k Unknown }
    {
        if !has_affected(&self.slots[slot].ranges, was, is) {
            return;
        }
        self.invalidate_affected(slot, was, is);
        retain_spared(&mut self.slots[slot].ranges, was, is);
    }

    // Sets to Unknown the flows of the slot's tile near each block in which a level may change.
    fn invalidate_affected(&mut self, slot: usize, was: i16, is: i16)
        requires { slot < length self.old.grid.tiles.corners }
        ensures tiles { self.new.grid.tiles ≡ self.old.grid.tiles }
        ensures slots { self.new.slots.items ≡ self.old.slots.items }
        ensures kept { (k : ℕ) → (IsInTile self.old.grid.tiles slot k
            → AreSparedAround was is (slot_ranges self.old.slots.items slot) self.old.grid.tiles.side (k % (self.old.grid.tiles.side * self.old.grid.tiles.side)))
            → slice_index_or self.new.grid.flows.items k Unknown
            ≡ slice_index_or self.old.grid.flows.items k Unknown }
        ensures gone { (k : ℕ) → IsInTile self.old.grid.tiles slot k
            → (slice_index_or self.new.grid.flows.items k Unknown ≡ Unknown → ⊥)
            → AreSparedAround was is (slot_ranges self.old.slots.items slot) self.old.grid.tiles.side (k % (self.old.grid.tiles.side * self.old.grid.tiles.side)) }
    {
        // This call shows the prover that these are valid tiles (`AreTiles`).
        let _valid = self.grid.count();
        for block in 0..self.slots[slot].ranges.len() {
            if self.is_affected(slot, block, was, is) {
                self.invalidate_block(slot, block);
            }
        }
    }

    // Whether a level in this block of the slot's tile may change when a height goes from `was` to `is`.
    fn is_affected(&self, slot: usize, block: usize, was: i16, is: i16) -> bool
        requires slot { slot < length self.now.slots.items }
        requires block { block < length (slot_ranges self.now.slots.items slot) }
        ensures { IsTrue result
            ↔ IsAffected was is (range_at (slot_ranges self.now.slots.items slot) block) }
    {
        is_affected(self.slots[slot].ranges[block], was, is)
    }

    // Sets to Unknown the flows of the slot's samples that lie in this block or next to it.
    fn invalidate_block(&mut self, slot: usize, block: usize)
        requires { slot < length self.old.grid.tiles.corners }
        ensures tiles { self.new.grid.tiles ≡ self.old.grid.tiles }
        ensures slots { self.new.slots.items ≡ self.old.slots.items }
        ensures flows { AreInvalidatedBy slot block self.old.grid.tiles.side self.old.grid.tiles.side self.old.grid.flows.items self.new.grid.flows.items }
    {
        let side = self.grid.side();
        let n = side.samples() as usize;
        let first = slot * side.area() as usize;
        let rows = samples_by(side, block / BLOCKS_IN_ROW);
        let columns = samples_by(side, block % BLOCKS_IN_ROW);
        for row in rows.0..rows.1 {
            self.grid
                .invalidate(first + row * n + columns.0, columns.1 - columns.0);
        }
    }

    /// Evicts the least recently used tiles until at most `most` bytes are cached.
    pub fn keep(&mut self, most: usize)
        ensures flows { (m : Mosaic) → IsCacheOf m self.old → IsCacheOf m self.new }
        ensures few { length self.new.grid.flows.items ≤ most }
        ensures kept { length self.old.grid.flows.items ≤ most → self.new ≡ self.old }
    {
        'tiles: while self.grid.samples() > most {
            self.give_up_oldest();
        }
    }

    /// Evicts the corner's tile, if it is cached. What is known of points that this tile doesn't have stays known.
    pub fn evict_tile(&mut self, corner: Corner)
        ensures side { self.new.grid.tiles.side ≡ self.old.grid.tiles.side }
        ensures gone { (i : ℕ) → i < length self.new.grid.tiles.corners
            → slice_index_or self.new.grid.tiles.corners i no_corner ≡ corner → ⊥ }
        ensures flows { (m : Mosaic) → IsCacheOf m self.old → IsCacheOf m self.new }
        ensures few { length self.new.grid.flows.items ≤ length self.old.grid.flows.items }
        ensures kept { (p : Point) → holds self.old.grid.tiles.side corner p ≡ false
            → IsKnownOf self.old.grid p → IsKnownOf self.new.grid p }
    {
        // This call shows the prover that these are valid tiles (`AreTiles`).
        let _valid = self.grid.count();
        let Some(slot) = self.slot_of(corner) else {
            return;
        };
        self.evict(slot);
    }

    // The slot of the corner's tile, if it is cached.
    fn slot_of(&self, corner: Corner) -> Option<usize>
        ensures some { IfSome result (λ slot. (slot < length self.now.grid.tiles.corners)
            × (slice_index_or self.now.grid.tiles.corners slot no_corner ≡ corner)) }
        ensures none { IfNone result ((i : ℕ) → i < length self.now.grid.tiles.corners
            → slice_index_or self.now.grid.tiles.corners i no_corner ≡ corner → ⊥) }
    {
        for slot in 0..self.slots.len() {
            if self.grid.corner(slot) == corner {
                return Some(slot);
            }
        }
        None
    }

    // Evicts the tile in this slot; the last one takes its place.
    fn evict(&mut self, slot: usize)
        requires { slot < length self.old.grid.tiles.corners }
        ensures side { self.new.grid.tiles.side ≡ self.old.grid.tiles.side }
        ensures count { length self.new.grid.tiles.corners + 1
            ≡ length self.old.grid.tiles.corners }
        ensures moved { slot < length self.new.grid.tiles.corners
            → slice_index_or self.new.grid.tiles.corners slot no_corner
            ≡ slice_index_or self.old.grid.tiles.corners (length self.new.grid.tiles.corners) no_corner }
        ensures kept { (i : ℕ) → i ≢ slot → i < length self.new.grid.tiles.corners
            → slice_index_or self.new.grid.tiles.corners i no_corner
            ≡ slice_index_or self.old.grid.tiles.corners i no_corner }
        ensures items { IsCut (self.old.grid.tiles.side * self.old.grid.tiles.side) (length self.new.grid.tiles.corners) slot self.old.grid.flows.items self.new.grid.flows.items }
        ensures flows { (m : Mosaic) → IsCacheOf m self.old → IsCacheOf m self.new }
    {
        self.grid.swap_remove(slot);
        remove_slot(&mut self.slots, slot);
        self.last = 0;
    }

    // Evicts the least recently used tile.
    fn give_up_oldest(&mut self)
        requires { 0 < length self.old.grid.tiles.corners }
        ensures side { self.new.grid.tiles.side ≡ self.old.grid.tiles.side }
        ensures count { length self.new.grid.tiles.corners + 1
            ≡ length self.old.grid.tiles.corners }
        ensures flows { (m : Mosaic) → IsCacheOf m self.old → IsCacheOf m self.new }
    {
        let slot = self.oldest();
        self.evict(slot);
    }

    // The slot of the least recently used tile.
    fn oldest(&self) -> usize
        requires { 0 < length self.now.grid.tiles.corners }
        ensures { result < length self.now.grid.tiles.corners }
    {
        let mut oldest = 0;
        for slot in 0..self.slots.len() {
            if self.slots[slot].used < self.slots[oldest].used {
                oldest = slot;
            }
        }
        oldest
    }
}

// Removes this slot, and moves the last slot to its place.
fn remove_slot(slots: &mut Vec<Slot>, slot: usize)
    requires { slot < length slots.old.items }
    ensures count { length slots.new.items + 1 ≡ length slots.old.items }
    ensures moved { slot < length slots.new.items
        → slot_ranges slots.new.items slot ≡ slot_ranges slots.old.items (length slots.new.items) }
    ensures kept { (i : ℕ) → i ≢ slot → i < length slots.new.items
        → slot_ranges slots.new.items i ≡ slot_ranges slots.old.items i }
{
    let _ = slots.swap_remove(slot);
}

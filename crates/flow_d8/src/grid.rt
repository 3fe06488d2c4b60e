//! Loaded tiles, with the flows of their samples.
ghost use Rattle.std.specs.Prelude.{◌≡◌, ◌≢◌, ◌<◌, ◌≤◌, ◌*◌, ◌+◌, ◌↔◌, ◌++◌, [], ◌∷◌, ℕ, ℤ, IsTrue, IsFalse, IfOk, IfSome, IfNone, OnOk, OnErr, length, slice_index_or, slice_set};
ghost use Rattle.lattice.specs.Lattice.{Holds};
ghost use Rattle.lattice.specs.Ground.{terrain};
ghost use Rattle.lattice.specs.Mosaic.{Mosaic};
ghost use Rattle.lattice.specs.Terrain.{Terrain};
ghost use Rattle.lattice.specs.declared.point.Point.{Point};
ghost use Rattle.water.specs.Drainage.{CrossesFlat};
ghost use Rattle.flow_d8.specs.Filled.{most_samples, number_of};
ghost use Rattle.water.specs.declared.flow.Flow.TheVariants.{Unknown, NoGround};
ghost use Rattle.flow_d8.specs.Flows.{IsOfFlat, IsFlow, AreFlows};
ghost use Rattle.water.specs.Flows.{IsTellingAll, Drains};
ghost use Rattle.flow_d8.specs.Rounds.{Tells};
ghost use Rattle.flow_d8.specs.Tiles.{AreTiles, count_of, place_of, by_of, no_corner, IsInTile, IsSampleOf, OnGround};
ghost use Rattle.flow_d8.specs.FlowGrids.{AreKnown, AreFlowsIn, AreMoved, IsCut, AreTold, AreCrossed, StayFlows, KeepsKnown, AreInvalidated, AreFilledIn, flow_of, IsAtHand, IsResolvedAround};
ghost use Rattle.water.specs.Donors.{AreToldBy, DrainsBack};

use crate::donors::donors_around;
use crate::flat_search::{FlatSearch, search_flat};
use crate::flow::{flow_at, is_unknown};
use crate::flow_byte::FlowByte;
use crate::marks::FreeMarks;
use crate::resolving::{Resolution, resolve};
use crate::tile_flows::TileFlows;
use crate::tiles::{MOST_SAMPLES, Tiles};
use lattice::{Corner, Dir, Point, Side};
use std::alloc::{AllocError, Global};
use water::Flow;

/// Loaded tiles, each in a slot, and the flow of each of their samples. A flow may be unknown.
#[derive(Drop)]
pub struct FlowGrid {
    tiles: Tiles,
    // The flows, slot after slot.
    flows: Vec<FlowByte>,
    marks: FreeMarks,
    ghost whole: { length flows.items ≡ count_of tiles },
    ghost few: { length flows.items ≤ most_samples },
}

impl FlowGrid {
    /// A grid without tiles. Allocates nothing.
    pub fn new(alloc: Global, side: Side) -> FlowGrid
        ensures side { result.tiles.side ≡ side }
        ensures none { result.tiles.corners ≡ [] }
    {
        FlowGrid {
            tiles: Tiles::none(alloc, side),
            flows: Vec::new(alloc),
            marks: FreeMarks::new(alloc),
        }
    }

    /// The side of the grid's tiles.
    pub fn side(&self) -> Side
        ensures { result ≡ self.now.tiles.side }
    {
        self.tiles.side()
    }

    /// The number of loaded tiles.
    pub fn count(&self) -> usize
        ensures value { result ≡ length self.now.tiles.corners }
        ensures valid { AreTiles self.now.tiles }
    {
        self.tiles.tiles()
    }

    /// The flow of the point; Unknown if no loaded tile has it.
    pub fn flow(&self, point: Point) -> Flow
        ensures value { result ≡ flow_of self.now.tiles self.now.flows.items point }
        ensures says { (t : Terrain Point) (level : Point → ℤ)
            → AreFlows t level (place_of self.now.tiles) self.now.flows.items
            → IsFlow t level point result }
    {
        // This call shows the prover that these are valid tiles (`AreTiles`).
        let _valid = self.tiles.tiles();
        let number = self.tiles.number(point);
        if number < self.flows.len() {
            flow_at(&self.flows, number)
        } else {
            Flow::Unknown
        }
    }

    /// The flow of the sample; NoGround beyond the last sample.
    pub fn sample_flow(&self, k: usize) -> Flow
        ensures { result ≡ slice_index_or self.now.flows.items k NoGround }
    {
        if k < self.flows.len() {
            flow_at(&self.flows, k)
        } else {
            Flow::NoGround
        }
    }

    /// The first sample of the point; a number beyond the last sample if no loaded tile has the point.
    pub(crate) fn number(&self, point: Point) -> usize
        ensures { result ≡ number_of self.now.tiles.side self.now.tiles.corners point }
    {
        self.tiles.number(point)
    }

    /// The first sample of the point one step away; a number beyond the last sample if no loaded tile has the point.
    pub(crate) fn beside(&self, k: usize, direction: Dir) -> usize
        requires { k < length self.now.flows.items }
        ensures { result ≡ by_of self.now.tiles k direction }
    {
        self.tiles.beside(k, direction)
    }

    /// The number of samples of the loaded tiles.
    pub fn samples(&self) -> usize
        ensures { result ≡ length self.now.flows.items }
    {
        self.flows.len()
    }

    /// The allocator of the grid's memory.
    pub(crate) fn allocator(&self) -> Global {
        *self.flows.allocator()
    }

    /// The slot of the first loaded tile that has the point; None if no loaded tile has it.
    pub fn slot(&self, point: Point) -> Option<usize>
        ensures some { IfSome result (λ slot. (slot < length self.now.tiles.corners)
            × IsInTile self.now.tiles slot (number_of self.now.tiles.side self.now.tiles.corners point)) }
        ensures none { IfNone result (IsAtHand self.now.tiles point → ⊥) }
    {
        // This call shows the prover that these are valid tiles (`AreTiles`).
        let _valid = self.tiles.tiles();
        let number = self.tiles.number(point);
        if number >= self.flows.len() {
            return None;
        }
        Some(number / self.tiles.side().area() as usize)
    }

    /// The corner of the tile in this slot.
    pub fn corner(&self, slot: usize) -> Corner
        requires { slot < length self.now.tiles.corners }
        ensures { result ≡ slice_index_or self.now.tiles.corners slot no_corner }
    {
        self.tiles.corner(slot)
    }

    /// The sample of the point in this slot's tile, if there is such a tile and it has the point.
    pub fn sample_in(&self, slot: usize, point: Point) -> Option<usize>
        ensures some { IfSome result (λ k. IsSampleOf self.now.tiles point k
            × ((e : ℕ) → IsInTile self.now.tiles slot e → IsSampleOf self.now.tiles point e
            → e ≡ k)) }
        ensures none { slot < length self.now.tiles.corners
            → IfNone result ((k : ℕ) → IsInTile self.now.tiles slot k
            → IsSampleOf self.now.tiles point k → ⊥) }
    {
        if slot >= self.tiles.tiles() {
            return None;
        }
        self.tiles.sample_in(slot, point)
    }

    /// For each direction, in order, whether the point there drains straight to this one. None only where the tile of this slot
    /// hasn't the point, has it less than two samples from an edge, or has an unresolved flow beside it.
    pub fn donors_around(&self, slot: usize, point: Point) -> Option<[bool; 8]>
        ensures right { IfSome result (λ donors. (m : Mosaic) (level : Point → ℤ)
            → AreFlows (terrain m) level (place_of self.now.tiles) self.now.flows.items
            → AreToldBy (DrainsBack (terrain m) level point) donors 8) }
        ensures none { IfNone result (IsResolvedAround self.now.tiles self.now.flows.items slot point
            → ⊥) }
    {
        let number = self.sample_in(slot, point)?;
        donors_around(&self.tiles, &self.flows, number)
    }

    /// Resolves the flat of the point. None if it is resolved, or if the point lies on no flat. Otherwise a point of unknown
    /// flow that the flat reaches.
    pub fn resolve(&mut self, point: Point) -> Result<Option<Point>, AllocError>
        ensures tiles { self.new.tiles ≡ self.old.tiles }
        ensures flows { OnGround self.old.tiles self.old.flows.items (λ t level. AreFlows t level (place_of self.new.tiles) self.new.flows.items) }
        ensures met { IfOk result (λ met. IfSome met (λ p. (flow_of self.old.tiles self.old.flows.items p
            ≡ Unknown)
            × OnGround self.old.tiles self.old.flows.items (λ t level. IsTrue (t.is_ground p)))) }
        ensures drains { IfOk result (λ met. IfNone met ((flow_of self.old.tiles self.old.flows.items point
            ≡ Unknown → ⊥)
            → OnGround self.old.tiles self.old.flows.items (λ t level. IsTrue (t.is_ground point)
            → (j : ℕ) → CrossesFlat t level point j
            → Drains (flow_of self.new.tiles self.new.flows.items point)))) }
        ensures samples { IfOk result (λ met. IfNone met ((k : ℕ)
            → IsSampleOf self.old.tiles point k
            → (slice_index_or self.old.flows.items k Unknown ≡ Unknown → ⊥)
            → (flow_of self.old.tiles self.old.flows.items point ≡ Unknown → ⊥)
            → OnGround self.old.tiles self.old.flows.items (λ t level. IsTrue (t.is_ground point)
            → (j : ℕ) → CrossesFlat t level point j
            → Drains (slice_index_or self.new.flows.items k Unknown)))) }
        ensures tells { Tells self.old.flows.items self.new.flows.items }
    {
        resolve_known(&mut self.flows, &self.tiles, &mut self.marks, point)
    }

    /// Goes on with a search over a flat, also from this point, to a point of unknown flow that the flat reaches. It passes over
    /// samples of unknown flow in loaded tiles. So None shows nothing; only `resolve` shows that there is no such point.
    pub fn search(&self, search: &mut FlatSearch, from: Point) -> Result<Option<Point>, AllocError>
        ensures met { IfOk result (λ met. IfSome met (λ p. (flow_of self.now.tiles self.now.flows.items p
            ≡ Unknown)
            × OnGround self.now.tiles self.now.flows.items (λ t level. IsTrue (t.is_ground p)))) }
    {
        search_known(&self.flows, &self.tiles, search, from)
    }

    /// Resolves each flat, and so the flow of each sample. False if some flat can't be resolved. In that case no terrain has
    /// all its points in this grid.
    pub(crate) fn resolve_all(&mut self) -> Result<bool, AllocError>
        requires known { AreKnown self.old.flows.items }
        ensures tiles { self.new.tiles ≡ self.old.tiles }
        ensures flows { OnGround self.old.tiles self.old.flows.items (λ t level. AreFlows t level (place_of self.new.tiles) self.new.flows.items) }
        ensures told { IfOk result (λ done. IsTrue done → AreTold self.new.flows.items) }
        ensures failed { IfOk result (λ done. IsFalse done
            → OnGround self.old.tiles self.old.flows.items (λ t level. AreCrossed self.old.tiles t level
            → ⊥)) }
    {
        for k in 0..self.flows.len() {
            if !self.resolve_at(k)? {
                return Ok(false);
            }
        }
        Ok(true)
    }

    // Resolves the flat of the sample's point, unless the sample's flow is resolved. Returns whether it is resolved
    // afterwards.
    fn resolve_at(&mut self, k: usize) -> Result<bool, AllocError>
        requires inside { k < length self.old.flows.items }
        requires known { AreKnown self.old.flows.items }
        ensures tiles { self.new.tiles ≡ self.old.tiles }
        ensures flows { OnGround self.old.tiles self.old.flows.items (λ t level. AreFlows t level (place_of self.new.tiles) self.new.flows.items) }
        ensures tells { Tells self.old.flows.items self.new.flows.items }
        ensures told { IfOk result (λ told. IsTrue told
            → IsTellingAll (slice_index_or self.new.flows.items k Unknown)) }
        ensures failed { IfOk result (λ told. IsFalse told
            → OnGround self.old.tiles self.old.flows.items (λ t level. AreCrossed self.old.tiles t level
            → ⊥)) }
    {
        // This call shows the prover that these are valid tiles (`AreTiles`).
        let _valid = self.tiles.tiles();
        if self.tells_all_at(k) {
            return Ok(true);
        }
        let point = self.tiles.point(k);
        match self.resolve(point)? {
            Some(_) => Ok(false),
            None => Ok(self.tells_all_at(k)),
        }
    }

    fn tells_all_at(&self, k: usize) -> bool
        requires { k < length self.now.flows.items }
        ensures { IsTrue result ↔ IsTellingAll (slice_index_or self.now.flows.items k Unknown) }
    {
        flow_at(&self.flows, k).tells_all()
    }

    /// Adds the corner's tile, in the last slot, with the flows of its samples. Changes nothing where there is no memory for it, or
    /// where all tiles would have 2^32 samples or more.
    pub fn push(&mut self, corner: Corner, flows: &[FlowByte]) -> Result<(), AllocError>
        requires other { (i : ℕ) → i < length self.old.tiles.corners
            → slice_index_or self.old.tiles.corners i no_corner ≡ corner → ⊥ }
        requires whole { length flows.now ≡ self.old.tiles.side * self.old.tiles.side }
        ensures side { self.new.tiles.side ≡ self.old.tiles.side }
        ensures corners { OnOk result (self.new.tiles.corners ≡ self.old.tiles.corners
            ++ corner ∷ []) }
        ensures items { OnOk result (self.new.flows.items ≡ self.old.flows.items ++ flows.now) }
        ensures kept { KeepsKnown self.old.tiles self.old.flows.items self.new.tiles self.new.flows.items }
        ensures here { OnOk result (AreKnown flows.now → (p : Point)
            → Holds self.old.tiles.side corner p → (IsAtHand self.old.tiles p → ⊥)
            → flow_of self.new.tiles self.new.flows.items p ≡ Unknown → ⊥) }
        ensures flows { OnOk result ((t : Terrain Point) (level : Point → ℤ)
            → AreFlowsIn t level self.old.tiles.side corner flows.now
            → AreFlows t level (place_of self.old.tiles) self.old.flows.items
            → AreFlows t level (place_of self.new.tiles) self.new.flows.items) }
        ensures failed { OnErr result ((self.new.tiles ≡ self.old.tiles)
            × (self.new.flows.items ≡ self.old.flows.items)) }
    {
        let _valid = self.tiles.tiles();
        let count = self.flows.len();
        if flows.len() > MOST_SAMPLES - count {
            return Err(AllocError);
        }
        self.flows.extend_from_slice(flows)?;
        match self.tiles.push(corner) {
            Ok(()) => Ok(()),
            Err(refused) => {
                self.flows.truncate(count);
                Err(refused)
            }
        }
    }

    /// Sets the flows of `count` samples, from `first` on, to Unknown.
    pub fn invalidate(&mut self, first: usize, count: usize)
        requires { first + count ≤ length self.old.flows.items }
        ensures tiles { self.new.tiles ≡ self.old.tiles }
        ensures flows { AreInvalidated first count self.old.flows.items self.new.flows.items }
    {
        invalidate(&mut self.flows, first, count);
    }

    /// Sets the unknown flows among the samples from `first` on to these flows.
    pub fn fill(&mut self, first: usize, flows: &[FlowByte])
        requires { first + length flows.now ≤ length self.old.flows.items }
        ensures tiles { self.new.tiles ≡ self.old.tiles }
        ensures flows { AreFilledIn first (length flows.now) flows.now self.old.flows.items self.new.flows.items }
    {
        fill(&mut self.flows, first, flows);
    }

    /// Removes the tile in this slot, and moves the last tile to its place.
    pub fn swap_remove(&mut self, slot: usize)
        requires { slot < length self.old.tiles.corners }
        ensures side { self.new.tiles.side ≡ self.old.tiles.side }
        ensures count { length self.new.tiles.corners + 1 ≡ length self.old.tiles.corners }
        ensures moved { slot < length self.new.tiles.corners
            → slice_index_or self.new.tiles.corners slot no_corner
            ≡ slice_index_or self.old.tiles.corners (length self.new.tiles.corners) no_corner }
        ensures kept { (i : ℕ) → i ≢ slot → i < length self.new.tiles.corners
            → slice_index_or self.new.tiles.corners i no_corner
            ≡ slice_index_or self.old.tiles.corners i no_corner }
        ensures flows { StayFlows self.old.tiles self.old.flows.items self.new.tiles self.new.flows.items }
        ensures items { IsCut (self.old.tiles.side * self.old.tiles.side) (length self.new.tiles.corners) slot self.old.flows.items self.new.flows.items }
    {
        let area = self.tiles.side().area() as usize;
        let last = self.tiles.tiles() - 1;
        cut(&mut self.flows, area, last, slot);
        self.tiles.swap_remove(slot);
    }
}

// Resolves the flat of the point, as `FlowGrid::resolve` does.
fn resolve_known(
    flows: &mut [FlowByte],
    tiles: &Tiles,
    marks: &mut FreeMarks,
    point: Point,
) -> Result<Option<Point>, AllocError>
    requires whole { length flows.old ≡ count_of tiles.now }
    ensures whole { length flows.new ≡ length flows.old }
    ensures flows { OnGround tiles.now flows.old (λ t level. AreFlows t level (place_of tiles.now) flows.new) }
    ensures met { IfOk result (λ met. IfSome met (λ p. (flow_of tiles.now flows.old p ≡ Unknown)
        × OnGround tiles.now flows.old (λ t level. IsTrue (t.is_ground p)))) }
    ensures drains { IfOk result (λ met. IfNone met ((flow_of tiles.now flows.old point ≡ Unknown
        → ⊥)
        → OnGround tiles.now flows.old (λ t level. IsTrue (t.is_ground point) → (j : ℕ)
        → CrossesFlat t level point j → Drains (flow_of tiles.now flows.new point)))) }
    ensures samples { IfOk result (λ met. IfNone met ((k : ℕ) → IsSampleOf tiles.now point k
        → (slice_index_or flows.old k Unknown ≡ Unknown → ⊥)
        → (flow_of tiles.now flows.old point ≡ Unknown → ⊥)
        → OnGround tiles.now flows.old (λ t level. IsTrue (t.is_ground point) → (j : ℕ)
        → CrossesFlat t level point j → Drains (slice_index_or flows.new k Unknown)))) }
    ensures tells { Tells flows.old flows.new }
{
    let _valid = tiles.tiles();
    match resolve(flows, tiles, marks, point)? {
        Resolution::Meets(met) => Ok(Some(met)),
        Resolution::Resolved | Resolution::NotFlat => Ok(None),
    }
}

// Resumes the search, and returns a point of unknown flow.
fn search_known(
    flows: &[FlowByte],
    tiles: &Tiles,
    search: &mut FlatSearch,
    from: Point,
) -> Result<Option<Point>, AllocError>
    requires whole { length flows.now ≡ count_of tiles.now }
    ensures met { IfOk result (λ met. IfSome met (λ p. (flow_of tiles.now flows.now p ≡ Unknown)
        × OnGround tiles.now flows.now (λ t level. IsTrue (t.is_ground p)))) }
{
    let _valid = tiles.tiles();
    match search_flat(&TileFlows { tiles, flows }, search, from)? {
        Some(met) => Ok(Some(met)),
        None => Ok(None),
    }
}

// Sets the flows of `count` samples, from `first` on, to Unknown.
fn invalidate(flows: &mut [FlowByte], first: usize, count: usize)
    requires { first + count ≤ length flows.old }
    ensures { AreInvalidated first count flows.old flows.new }
{
    for i in 0..count {
        set_flow(flows, first + i, Flow::Unknown);
    }
}

// Sets the unknown flows among the samples from `first` on to these flows.
fn fill(flows: &mut [FlowByte], first: usize, tile: &[FlowByte])
    requires { first + length tile.now ≤ length flows.old }
    ensures { AreFilledIn first (length tile.now) tile.now flows.old flows.new }
{
    for i in 0..tile.len() {
        fill_at(flows, first + i, flow_at(tile, i));
    }
}

#[inline(always)]
fn fill_at(flows: &mut [FlowByte], k: usize, flow: Flow)
    requires { k < length flows.old }
    ensures unknown { slice_index_or flows.old k Unknown ≡ Unknown
        → flows.new ≡ slice_set flows.old k flow }
    ensures known { (slice_index_or flows.old k Unknown ≡ Unknown → ⊥) → flows.new ≡ flows.old }
{
    if is_unknown(flows, k) {
        set_flow(flows, k, flow);
    }
}

#[inline(always)]
fn set_flow(flows: &mut [FlowByte], k: usize, flow: Flow)
    requires { k < length flows.old }
    ensures { flows.new ≡ slice_set flows.old k flow }
{
    flows[k] = FlowByte::of(flow);
}

// Removes the flows of this slot, and moves those of the last slot to their place. Each slot has `area` flows.
fn cut(flows: &mut Vec<FlowByte>, area: usize, last: usize, slot: usize)
    requires some { 0 < area }
    requires whole { length flows.old.items ≡ last * area + area }
    requires slot { slot ≤ last }
    ensures { IsCut area last slot flows.old.items flows.new.items }
{
    move_tile(flows, area, last, slot);
    flows.truncate(last * area);
}

// Sets the flows of slot `to` to those of slot `from`. Each slot has `area` flows.
fn move_tile(flows: &mut [FlowByte], area: usize, from: usize, to: usize)
    requires some { 0 < area }
    requires from { from * area + area ≤ length flows.old }
    requires to { to * area + area ≤ length flows.old }
    ensures { AreMoved area from to flows.old flows.new }
{
    if from != to {
        copy_tile(flows, area, from, to);
    }
}

// Copies the flows of slot `from` to slot `to`, which is another one.
fn copy_tile(flows: &mut [FlowByte], area: usize, from: usize, to: usize)
    requires some { 0 < area }
    requires apart { from ≢ to }
    requires from { from * area + area ≤ length flows.old }
    requires to { to * area + area ≤ length flows.old }
    ensures { AreMoved area from to flows.old flows.new }
{
    for i in 0..area {
        let flow = flow_at(flows, from * area + i);
        set_flow(flows, to * area + i, flow);
    }
}

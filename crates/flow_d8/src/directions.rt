//! The directions of all points of a mosaic.
ghost use Rattle.std.specs.Prelude.{◌≡◌, ◌≢◌, ◌⊎◌, ◌↔◌, ◌<◌, ◌≤◌, ◌++◌, ℕ, ℤ, [], ◌∷◌, Some, None, IsTrue, IsFalse, OnOk, IfOk, IfErr, IfSome, IfNone, MatchOption, length, slice_index_or};
ghost use Rattle.std.specs.List.{AllPairs};
ghost use Rattle.lattice.specs.Ground.{is_ground, terrain};
ghost use Rattle.lattice.specs.Mosaic.{Mosaic, IsMosaic};
ghost use Rattle.lattice.specs.Stepping.{fits_point};
ghost use Rattle.lattice.specs.Steps.{step};
ghost use Rattle.lattice.specs.declared.direction.Dir.{Dir};
ghost use Rattle.lattice.specs.declared.point.Point.{Point};
ghost use Rattle.lattice.specs.declared.refusal.Refusal.TheVariants.{NoMemory, Damaged};
ghost use Rattle.water.specs.Drainage.{IsDirection};
ghost use Rattle.water.specs.FlowPath.{IsFlowPath};
ghost use Rattle.flow_d8.specs.Filled.{most_samples};
ghost use Rattle.flow_d8.specs.Directions.{AreDirectionsOf, AreOfNoMosaic, AreWhole, LeadsTo, direction_in, distance_in, flow_at, flow_in, number_in, walk};
ghost use Rattle.water.specs.Flows.{IsTellingAll, direction_of};
ghost use Rattle.flow_d8.specs.FlowGrids.{AreTold};
ghost use Rattle.flow_d8.specs.Tiles.{count_of, by_of};
ghost use Rattle.water.specs.declared.flow.Flow.TheVariants.{Unknown, NoGround};

use crate::grid::FlowGrid;
use lattice::{Dir, Point, Refusal, neighbour};
use std::alloc::{AllocError, Global};
use std::marker::Model;
use water::Flow;

/// For each ground point of a mosaic its direction, and the distance to the exit of its flat.
#[derive(Drop)]
pub struct Directions {
    // The flow of each of its samples is resolved.
    grid: FlowGrid,
}

impl Model for Directions {
    ghost use Rattle.flow_d8.specs.Directions.{Directions, AreWhole};

    ghost Value = { Directions };

    ghost view = { λ d. record { tiles = d.grid.tiles; drains = d.grid.flows.items } };

    ghost invariant = { λ d. AreWhole (record { tiles = d.grid.tiles; drains = d.grid.flows.items }) };
}

impl Directions {
    pub(crate) fn new(grid: FlowGrid) -> Directions
        requires { AreTold grid.flows.items }
        ensures value { result ≡ record { tiles = grid.tiles; drains = grid.flows.items } }
        ensures whole { AreWhole (record { tiles = grid.tiles; drains = grid.flows.items }) }
    {
        // This call shows the prover that the grid's tiles are valid (`AreTiles`).
        let _valid = grid.count();
        Directions { grid }
    }

    /// The direction of the point. None if the point drains off the mosaic or isn't ground.
    pub fn direction(&self, point: Point) -> Option<Dir>
        ensures { result ≡ direction_in self.now point }
    {
        self.flow(point).direction()
    }

    /// The least number of steps over points of the point's level to one that drains downhill or off the mosaic. None if the
    /// point isn't ground.
    pub fn flat_distance(&self, point: Point) -> Option<u32>
        ensures { result ≡ distance_in self.now point }
    {
        self.steps_across(self.number(point))
    }

    /// Where the point drains: Outlet, To, Beside or FlatTo; NoGround if it isn't ground.
    pub fn flow(&self, point: Point) -> Flow
        ensures value { result ≡ flow_in self.now point }
        ensures all { IsTellingAll result }
        ensures on_ground { (m : Mosaic) (level : Point → ℤ) → AreDirectionsOf m level self.now
            → IsTrue (is_ground m point)
            → IsDirection (terrain m) level point (direction_of result) }
        ensures elsewhere { (m : Mosaic) (level : Point → ℤ) → AreDirectionsOf m level self.now
            → (result ≡ NoGround) ↔ IsFalse (is_ground m point) }
        ensures whole { AreWhole self.now }
    {
        self.flow_at(self.number(point))
    }

    /// The point's flow path: the point, the one that it drains to, and so on, up to one that drains off the mosaic. Empty if
    /// the point isn't ground. In any case it has no point twice.
    ///
    /// Refusals are NoMemory, and Damaged if no mosaic has these directions.
    pub fn trace(&self, point: Point) -> Result<Vec<Point>, Refusal>
        ensures path { IfOk result (λ path. (m : Mosaic) (level : Point → ℤ) → IsMosaic m
            → AreDirectionsOf m level self.now → IsTrue (is_ground m point)
            → IsFlowPath (terrain m) level point path.items) }
        ensures elsewhere { IfOk result (λ path. (m : Mosaic) (level : Point → ℤ)
            → AreDirectionsOf m level self.now → IsFalse (is_ground m point)
            → path.items ≡ []) }
        ensures once { IfOk result (λ path. AllPairs (λ p q. p ≢ q) path.items) }
        ensures refusal { IfErr result (λ r. (r ≡ NoMemory)
            ⊎ ((r ≡ Damaged) × AreOfNoMosaic self.now)) }
    {
        let alloc = self.allocator();
        if !self.is_told(point) {
            return Ok(Vec::new(alloc));
        }
        self.follow(alloc, point)
    }

    // The flow path of the point.
    fn follow(&self, alloc: Global, point: Point) -> Result<Vec<Point>, Refusal>
        requires { flow_in self.now point ≡ NoGround → ⊥ }
        ensures path { IfOk result (λ path. (m : Mosaic) (level : Point → ℤ) → IsMosaic m
            → AreDirectionsOf m level self.now → IsTrue (is_ground m point)
            → IsFlowPath (terrain m) level point path.items) }
        ensures once { IfOk result (λ path. AllPairs (λ p q. p ≢ q) path.items) }
        ensures refusal { IfErr result (λ r. (r ≡ NoMemory)
            ⊎ ((r ≡ Damaged) × AreOfNoMosaic self.now)) }
    {
        let most = self.count();
        let mut path = Vec::new(alloc);
        add(&mut path, point, most)?;
        let mut last = point;
        'steps: while let Some(to) = self.next(last) {
            add(&mut path, to, most)?;
            last = to;
        }
        Ok(path)
    }

    // The point that this point drains to.
    fn next(&self, point: Point) -> Option<Point>
        ensures to { IfSome result (LeadsTo self.now point) }
        ensures off { IfNone result ((d : Dir) → direction_in self.now point ≡ Some d
            → IsTrue (fits_point (step d point)) → ⊥) }
    {
        let direction = self.direction(point)?;
        neighbour(point, direction)
    }

    fn is_told(&self, point: Point) -> bool
        ensures told { IsTrue result ↔ (flow_in self.now point ≡ NoGround → ⊥) }
        ensures whole { AreWhole self.now }
    {
        !matches!(self.flow(point), Flow::NoGround)
    }

    // The number of steps from the sample across its flat.
    fn steps_across(&self, number: usize) -> Option<u32>
        ensures { result ≡ walk self.now (count_of self.now.tiles) number }
    {
        let mut at = number;
        for steps in 0..self.count() {
            match self.flow_at(at) {
                Flow::Outlet => return Some(steps as u32),
                Flow::To(_) => return Some(steps as u32),
                Flow::Beside(_) => return Some(steps as u32 + 1),
                Flow::FlatTo(direction) => at = self.beside(at, direction),
                Flow::Unknown => return None,
                Flow::NoGround => return None,
                Flow::Flat => return None,
            }
        }
        None
    }

    // The flow of the sample; NoGround beyond the last sample.
    fn flow_at(&self, number: usize) -> Flow
        ensures value { result ≡ flow_at self.now number }
        ensures valid { AreWhole self.now }
    {
        self.grid.sample_flow(number)
    }

    // The first sample of the point; a number beyond the last sample if no tile has the point.
    fn number(&self, point: Point) -> usize
        ensures { result ≡ number_in self.now point }
    {
        self.grid.number(point)
    }

    // The first sample of the point one step away.
    fn beside(&self, number: usize, direction: Dir) -> usize
        requires { number < length self.now.drains }
        ensures { result ≡ by_of self.now.tiles number direction }
    {
        self.grid.beside(number, direction)
    }

    // The number of samples of all tiles.
    fn count(&self) -> usize
        ensures value { result ≡ count_of self.now.tiles }
        ensures small { count_of self.now.tiles ≤ most_samples }
        ensures valid { AreWhole self.now }
    {
        self.grid.samples()
    }

    fn allocator(&self) -> Global {
        self.grid.allocator()
    }
}

// Adds the point at the end of the path. Damaged if the path already has `most` points.
fn add(path: &mut Vec<Point>, point: Point, most: usize) -> Result<(), Refusal>
    ensures path { OnOk result (path.new.items ≡ path.old.items ++ point ∷ []) }
    ensures short { OnOk result (length path.new.items ≤ most) }
    ensures refusal { IfErr result (λ r. (r ≡ NoMemory)
        ⊎ ((r ≡ Damaged) × (most ≤ length path.old.items))) }
{
    if path.len() >= most {
        return Err(Refusal::Damaged);
    }
    lengthen(path, point)?;
    Ok(())
}

fn lengthen(path: &mut Vec<Point>, point: Point) -> Result<(), AllocError>
    ensures { OnOk result (path.new.items ≡ path.old.items ++ point ∷ []) }
{
    path.push(point)?;
    Ok(())
}

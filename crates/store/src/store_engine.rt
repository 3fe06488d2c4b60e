//! A store on a disk, as an engine.
//!
//! So `serve` over a store keeps its promises through power cuts. Take an image that a stop may have left at any moment
//! since the reply to an item, inside a call of the disk or between two. It stores the contents after that item or a
//! later one, or those of the commit then in doubt. What the next opening does with such an image is the contract of
//! `Store`.
ghost use Rattle.std.specs.Prelude.{◌≡◌, []};

use crate::store::Store;
use disk::Disk;
use edits::Command;
use engine::{Engine, Info};
use lattice::{Corner, Height, Point, Refusal, Side};
use water::Run;

impl<D: Disk> Engine for Store<D> {
    ghost use Rattle.engine.specs.Engines.{IsCall};
    ghost use Rattle.store.specs.Stores.{disk_of, side_of, capacity_of, root_of, has_failed, IsAt};
    ghost use Rattle.store.specs.StoreState.{LeavesStates, members};
    ghost use Rattle.stored_mosaic.specs.Ended.{known_by};
    ghost use Rattle.store.specs.StoreRuns.{nothing_done, one_by_one, among_more};

    ghost called = { IsCall (members D.Disk) };

    ghost is_honest = { λ e. D.honest (disk_of e) };

    ghost is_at = { λ e s. IsAt D.Disk e s };

    // Each image that a stop leaves on the disk stores the contents of one of the states, or those of its commit in
    // doubt.
    ghost leaves_only = { λ first last states. LeavesStates D.Disk first last states };

    ghost side_of = { λ e. side_of e };

    ghost capacity_of = { λ e. capacity_of e };

    ghost has_failed = { λ e. has_failed e };

    ghost failures = { λ e. D.failures (disk_of e) };

    ghost writes = { λ e. D.writes (disk_of e) };

    ghost sectors = { λ e. D.size (disk_of e) };

    ghost known = { λ e. known_by (root_of e) };

    ghost is_call = { λ old new event answer call. call };

    ghost stays = { λ e s honest at. nothing_done e s [] (λ image. D.only_now (disk_of e) image) honest at };

    ghost in_turn = { λ first mid last states more before after. one_by_one first mid last states more before after };

    ghost weaker = { λ first last states more among before. among_more first last states more among before };

    ghost same_side = { λ e s at. at.in_state.side_is };

    fn side(&self) -> Side {
        self.tree.current().side()
    }

    fn apply(&mut self, command: &Command) -> Result<u64, Refusal> {
        Store::apply(self, command)
    }

    fn elevation(&mut self, point: Point) -> Result<Height, Refusal> {
        Store::elevation(self, point)
    }

    fn fill(&mut self, point: Point) -> Result<i16, Refusal> {
        Store::fill(self, point)
    }

    fn direction(&mut self, point: Point) -> Result<u8, Refusal> {
        Store::direction(self, point)
    }

    fn trace(&mut self, point: Point) -> Result<Vec<Point>, Refusal> {
        Store::trace(self, point)
    }

    fn watershed(&mut self, point: Point) -> Result<Vec<Run>, Refusal> {
        Store::watershed(self, point)
    }

    fn export(&mut self, corner: Corner) -> Result<Vec<u8>, Refusal> {
        Store::export(self, corner)
    }

    fn levels(&mut self, corner: Corner) -> Result<Vec<i16>, Refusal> {
        Store::levels(self, corner)
    }

    fn directions(&mut self, corner: Corner) -> Result<Vec<u8>, Refusal> {
        Store::directions(self, corner)
    }

    fn upstream(&mut self, corner: Corner) -> Result<Vec<u32>, Refusal> {
        Store::upstream(self, corner)
    }

    fn tiles(&self) -> Result<Vec<Corner>, Refusal> {
        Store::tiles(self)
    }

    fn sinks(&self) -> Result<Vec<Point>, Refusal> {
        Store::sinks(self)
    }

    fn step(&mut self) -> Result<Option<Corner>, Refusal> {
        Store::step(self)
    }

    fn count(&self) -> u64 {
        Store::count(self)
    }

    fn info(&self) -> Result<Info, Refusal> {
        Store::info(self)
    }

    fn reopen(&mut self) -> Result<(), Refusal> {
        Store::reopen(self)
    }
}

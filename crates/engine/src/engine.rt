//! The trait of a store that serves lines.
ghost use Rattle.std.specs.Prelude.{◌≡◌, ℕ, List, [], ◌∷◌, ◌++◌, Contains, Bool};
ghost use Rattle.engine.specs.Engines.{IsCall, answered};
ghost use Rattle.engine.specs.State.{State};
ghost use Rattle.engine.specs.Told.{Known};
ghost use Rattle.engine.specs.declared.event.Event.{Event};
ghost use Rattle.engine.specs.declared.event.Event.TheVariants as ask;
ghost use Rattle.engine.specs.declared.event.Reply.{Reply};
ghost use Rattle.engine.specs.declared.event.Reply.TheVariants as reply;

use crate::{Event, Info, Reply};
use edits::Command;
use lattice::{Corner, Height, Point, Refusal, Side};
use water::Run;

/// A store, as sessions and lines use it.
///
/// One relation says what a call may do, and only the calls show it; the laws say what follows from it. An answer's
/// meaning is about the states that a store may be in: for each state before a call there is one after it. For a store
/// on a disk that is promised only if the disk was honest.
pub trait Engine {
    /// The first engine was asked this event, gave this answer, and became the second.
    ghost called: { Self → Event → Reply → Self → Type 0 };

    /// The disk was honest in all calls so far. No call makes a dishonest disk honest, so a law that assumes honesty
    /// after a call is about an engine that was honest before it, too.
    ghost is_honest: { Self → Type 0 };

    /// The engine is in this state.
    ghost is_at: { Self → State → Type 0 };

    /// A stop (a power cut) at any moment from the first engine to the second leaves the contents of one of these
    /// states, or those of its commit in doubt. The moment may be inside a call.
    ghost leaves_only: { Self → Self → List State → Type 0 };

    /// The side of the engine's tiles.
    ghost side_of: { Self → ℕ };

    /// The engine's capacity in tiles.
    ghost capacity_of: { Self → ℕ };

    /// A call failed on the engine's disk, and no opening has succeeded since.
    ghost has_failed: { Self → Bool };

    /// The number of failed calls of the disk, at most the largest 64-bit number.
    ghost failures: { Self → ℕ };

    /// The number of the disk's writes.
    ghost writes: { Self → ℕ };

    /// The number of the disk's sectors, if there is a disk.
    ghost sectors: { Self → ℕ };

    /// What the engine has in memory: the version of its format, and its counts of accepted commands and of commits.
    ghost known: { Self → Known };

    /// The side of the engine's tiles.
    fn side(&self) -> Side
        ensures { result ≡ side_of self.now };

    /// Does a command, and answers the number of accepted commands, this one included.
    fn apply(&mut self, command: &Command) -> Result<u64, Refusal>
        ensures { called self.old (ask.Do command.now) (answered reply.Done result) self.new };

    /// The height of a point.
    fn elevation(&mut self, point: Point) -> Result<Height, Refusal>
        ensures { called self.old (ask.Elevation point) (answered reply.Elevation result) self.new };

    /// The filled level of a point, in metres.
    fn fill(&mut self, point: Point) -> Result<i16, Refusal>
        ensures { called self.old (ask.Fill point) (answered reply.Fill result) self.new };

    /// The code of a point's direction; 0 if water leaves the mosaic there.
    fn direction(&mut self, point: Point) -> Result<u8, Refusal>
        ensures { called self.old (ask.Direction point) (answered reply.Direction result) self.new };

    /// The flow path of a point.
    fn trace(&mut self, point: Point) -> Result<Vec<Point>, Refusal>
        ensures { called self.old (ask.Trace point) (answered reply.Trace result) self.new };

    /// The watershed of a point, as runs.
    fn watershed(&mut self, point: Point) -> Result<Vec<Run>, Refusal>
        ensures { called self.old (ask.Watershed point) (answered reply.Watershed result) self.new };

    /// The samples of a tile as HGT bytes.
    fn export(&mut self, corner: Corner) -> Result<Vec<u8>, Refusal>
        ensures { called self.old (ask.Export corner) (answered reply.Export result) self.new };

    /// The filled levels of all samples of a tile, in metres; void where there is no ground.
    fn levels(&mut self, corner: Corner) -> Result<Vec<i16>, Refusal>
        ensures { called self.old (ask.Levels corner) (answered reply.Levels result) self.new };

    /// The codes of the directions of all samples of a tile; 255 where there is no ground.
    fn directions(&mut self, corner: Corner) -> Result<Vec<u8>, Refusal>
        ensures { called self.old (ask.Directions corner) (answered reply.Directions result) self.new };

    /// The number of points that drain through each sample of a tile, itself included; 0 where there is no ground.
    fn upstream(&mut self, corner: Corner) -> Result<Vec<u32>, Refusal>
        ensures { called self.old (ask.Upstream corner) (answered reply.Upstream result) self.new };

    /// The corners of the present tiles, in order, from memory.
    fn tiles(&self) -> Result<Vec<Corner>, Refusal>
        ensures { called self.now ask.Tiles (answered reply.Tiles result) self.now };

    /// The declared sinks, in the order of points, from memory.
    fn sinks(&self) -> Result<Vec<Point>, Refusal>
        ensures { called self.now ask.Sinks (answered reply.Sinks result) self.now };

    /// Stores the planes of one stale tile and names it, or answers none if no tile is stale.
    fn step(&mut self) -> Result<Option<Corner>, Refusal>
        ensures { called self.old ask.Step (answered reply.Stepped result) self.new };

    /// The number of accepted commands, as last known.
    fn count(&self) -> u64
        ensures { called self.now ask.Count (reply.Count result) self.now };

    /// The store's sizes and counts.
    fn info(&self) -> Result<Info, Refusal>
        ensures { called self.now ask.Info (answered reply.Info result) self.now };

    /// Opens the disk again, which ends a failure. The memory then has what the disk has.
    fn reopen(&mut self) -> Result<(), Refusal>
        ensures { called self.old ask.Reopen (answered (λ u. reply.Reopened) result) self.new };

    /// Makes the call that the event asks for, and returns its result as a reply.
    fn answer(&mut self, event: &Event) -> Reply
        ensures { called self.old event.now result self.new }
    {
        match event {
            Event::Do(command) => self.apply(command).map_or_else(Reply::Refused, Reply::Done),
            Event::Elevation(point) => self
                .elevation(*point)
                .map_or_else(Reply::Refused, Reply::Elevation),
            Event::Fill(point) => self.fill(*point).map_or_else(Reply::Refused, Reply::Fill),
            Event::Direction(point) => self
                .direction(*point)
                .map_or_else(Reply::Refused, Reply::Direction),
            Event::Trace(point) => self.trace(*point).map_or_else(Reply::Refused, Reply::Trace),
            Event::Watershed(point) => self
                .watershed(*point)
                .map_or_else(Reply::Refused, Reply::Watershed),
            Event::Export(corner) => self
                .export(*corner)
                .map_or_else(Reply::Refused, Reply::Export),
            Event::Levels(corner) => self
                .levels(*corner)
                .map_or_else(Reply::Refused, Reply::Levels),
            Event::Directions(corner) => self
                .directions(*corner)
                .map_or_else(Reply::Refused, Reply::Directions),
            Event::Upstream(corner) => self
                .upstream(*corner)
                .map_or_else(Reply::Refused, Reply::Upstream),
            Event::Tiles => self.tiles().map_or_else(Reply::Refused, Reply::Tiles),
            Event::Sinks => self.sinks().map_or_else(Reply::Refused, Reply::Sinks),
            Event::Step => self.step().map_or_else(Reply::Refused, Reply::Stepped),
            Event::Count => Reply::Count(self.count()),
            Event::Info => self.info().map_or_else(Reply::Refused, Reply::Info),
            Event::Reopen => self
                .reopen()
                .map_or_else(Reply::Refused, |()| Reply::Reopened),
        }
    }

    /// The relation of a call. On any disk it is about failures, writes and counts; on an honest disk also about the
    /// answer, the state after it, and what a stop leaves.
    ghost is_call: { (old new : Self) (event : Event) (answer : Reply) → called old event answer new
        → IsCall (record {
          is_honest = is_honest;
          is_at = is_at;
          leaves_only = leaves_only;
          side_of = side_of;
          capacity_of = capacity_of;
          has_failed = has_failed;
          failures = failures;
          writes = writes;
          sectors = sectors;
          known = known;
        }) old event answer new };

    /// Without a call, a stop leaves what the engine's state allows.
    ghost stays: { (e : Self) (s : State) → is_honest e → is_at e s → leaves_only e e (s ∷ []) };

    /// One run followed by another.
    ghost in_turn: { (first mid last : Self) (states more : List State)
        → leaves_only first mid states → leaves_only mid last more
        → leaves_only first last (states ++ more) };

    /// If a stop leaves one of some states, it leaves one of any longer list with these states.
    ghost weaker: { (first last : Self) (states more : List State)
        → ((s : State) → Contains states s → Contains more s) → leaves_only first last states
        → leaves_only first last more };

    /// A state's tiles have the engine's side.
    ghost same_side: { (e : Self) (s : State) → is_at e s → s.contents.mosaic.side ≡ side_of e };
}

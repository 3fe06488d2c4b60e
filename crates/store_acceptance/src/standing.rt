//! The expected state of a store of side 3 after changes, from the plain programs.
use super::fixtures::at;
use super::script::command;
use disk::Disk;
use engine::{Event, Reply};
use lattice::{Height, Point, Refusal, Side};
use reference::{Levels, Plain};
use std::alloc::Global;
use std::test::Fail;
use store::Store;

// Points of the tiles at N00E000, N00E001 and N01E000: each middle, one where two tiles meet, one where all meet, and a
// corner of the first; and a point outside.
const POINTS: [(i32, i32); 7] = [(1, 1), (1, 3), (3, 1), (1, 2), (2, 2), (0, 0), (5, 5)];

// The point where the first two tiles meet, whose flow path is followed.
const FOLLOWED: (i32, i32) = (1, 2);

/// A mosaic that the plain programs change, and the other numbers of a store.
#[derive(Drop)]
pub(crate) struct Model {
    alloc: Global,
    capacity: u32,
    mosaic: Plain,
    version: u32,
    count: u64,
    commits: u64,
    // The number of fresh tiles, which are the first ones in order.
    fresh: usize,
}

impl Model {
    /// A store of this version just after formatting.
    pub(crate) fn new(alloc: Global, version: u32, capacity: u32) -> Result<Model, Fail> {
        let side = Side::new(3).ok_or("no side")?;
        Ok(Model {
            alloc,
            capacity,
            mosaic: Plain::new(alloc, side),
            version,
            count: 0,
            commits: 1,
            fresh: 0,
        })
    }

    /// Makes the change. All tiles are neighbours of each other, so each command makes all of them stale.
    pub(crate) fn make(&mut self, change: &str) -> Result<(), Fail> {
        self.commits = self.commits.saturating_add(1);
        match change.as_bytes() {
            b"step" => self.fresh = self.fresh.saturating_add(1),
            b"upgrade" => self.version = 2,
            _ => {
                let command = command(self.alloc, change)?;
                self.mosaic = reference::effect(self.alloc, self.capacity, &self.mosaic, &command)?;
                self.count = self.count.saturating_add(1);
                self.fresh = 0;
            }
        }
        Ok(())
    }

    /// The expected state now.
    pub(crate) fn standing(&self) -> Result<Standing, Fail> {
        let mut standing = Standing {
            version: self.version,
            count: self.count,
            commits: self.commits,
            fresh: self.fresh,
            events: Vec::new(self.alloc),
            replies: Vec::new(self.alloc),
        };
        standing.add_contents(self.alloc, &self.mosaic)?;
        standing.add_points(self.alloc, &self.mosaic)?;
        Ok(standing)
    }
}

/// What a store answers about itself, its questions and its replies.
#[derive(Drop)]
pub(crate) struct Standing {
    version: u32,
    count: u64,
    pub(crate) commits: u64,
    fresh: usize,
    events: Vec<Event>,
    replies: Vec<Reply>,
}

impl Standing {
    /// Whether a store is in this state.
    pub(crate) fn is_of<D: Disk>(&self, alloc: Global, store: &mut Store<D>) -> Result<bool, Fail> {
        if store.version() != self.version
            || store.count() != self.count
            || store.commits() != self.commits
        {
            return Ok(false);
        }
        let tiles = store.tiles()?;
        for (place, corner) in tiles.iter().enumerate() {
            if store.stale(*corner) == (place < self.fresh) {
                return Ok(false);
            }
        }
        let mut replies = Vec::new(alloc);
        store.run(&self.events, &mut replies)?;
        Ok(replies.as_slice() == self.replies.as_slice())
    }

    fn add(&mut self, event: Event, reply: Reply) -> Result<(), Fail> {
        self.events.push(event).map_err(|_| "no memory")?;
        self.replies.push(reply).map_err(|_| "no memory")?;
        Ok(())
    }

    fn add_contents(&mut self, alloc: Global, mosaic: &Plain) -> Result<(), Fail> {
        let sinks = Vec::from_slice(alloc, mosaic.sinks())?;
        self.add(Event::Sinks, Reply::Sinks(sinks))?;
        let mut corners = Vec::new(alloc);
        for tile in mosaic.tiles() {
            corners.push(tile.corner())?;
            let file = hgt::bytes_of(alloc, tile.samples())?;
            self.add(Event::Export(tile.corner()), Reply::Export(file))?;
        }
        self.add(Event::Tiles, Reply::Tiles(corners))
    }

    fn add_points(&mut self, alloc: Global, mosaic: &Plain) -> Result<(), Fail> {
        let levels = reference::filled_levels(alloc, mosaic)?;
        self.add_water(alloc, mosaic, &levels, at(FOLLOWED.0, FOLLOWED.1))?;
        for (y, x) in POINTS {
            let point = at(y, x);
            let height = reference::height(mosaic, point);
            let level = match levels.get(point) {
                Some(level) => Reply::Fill(level),
                None => Reply::Refused(refusal_of(height)),
            };
            self.add(Event::Elevation(point), Reply::Elevation(height))?;
            self.add(Event::Fill(point), level)?;
        }
        Ok(())
    }

    fn add_water(
        &mut self,
        alloc: Global,
        mosaic: &Plain,
        levels: &Levels,
        point: Point,
    ) -> Result<(), Fail> {
        if !reference::is_ground(mosaic, point) {
            let refusal = refusal_of(reference::height(mosaic, point));
            self.add(Event::Direction(point), Reply::Refused(refusal))?;
            self.add(Event::Trace(point), Reply::Refused(refusal))?;
            return self.add(Event::Watershed(point), Reply::Refused(refusal));
        }
        let code = match reference::direction(alloc, mosaic, levels, point)? {
            Some(direction) => direction.code(),
            None => 0,
        };
        self.add(Event::Direction(point), Reply::Direction(code))?;
        let path = reference::flow_path(alloc, mosaic, levels, point)?;
        self.add(Event::Trace(point), Reply::Trace(path))?;
        let runs = reference::watershed(alloc, mosaic, levels, point)?;
        self.add(Event::Watershed(point), Reply::Watershed(runs))
    }
}

// The refusal of questions about water at a point of this height, which isn't ground.
fn refusal_of(height: Height) -> Refusal {
    match height {
        Height::Outside => Refusal::Outside,
        _ => Refusal::Void,
    }
}

//! A random session: a mosaic by the definitions, with which engines are compared.
use crate::answers::{defined, served};
use crate::commands::Commands;
use crate::region::{MIDDLES, corners_around, points_around};
use edits::Command;
use engine::Engine;
use lattice::{Corner, Point, Refusal, Side};
use reference::Plain;
use seeded_random::Random;
use std::alloc::{AllocError, Global};
use std::fmt::Debug;
use std::test::Fail;
use test_tiles::check_found;

/// A mosaic that the plain programs change, and the random commands that change it.
#[derive(Drop)]
pub(crate) struct Session {
    alloc: Global,
    seed: u64,
    capacity: u32,
    corners: Vec<Corner>,
    points: Vec<Point>,
    commands: Commands,
    mosaic: Plain,
    count: u64,
    step: u64,
    refusals: Vec<Refusal>,
}

impl Session {
    /// A session that begins without tiles, for this side and capacity.
    pub(crate) fn new(
        alloc: Global,
        seed: u64,
        side: Side,
        capacity: u32,
    ) -> Result<Session, AllocError> {
        let mut random = Random::new(seed);
        let middle = random.one_of(&MIDDLES);
        Ok(Session {
            alloc,
            seed,
            capacity,
            corners: corners_around(alloc, middle)?,
            points: points_around(alloc, side, middle)?,
            commands: Commands::new(random, side, middle),
            mosaic: Plain::new(alloc, side),
            count: 0,
            step: 0,
            refusals: Vec::new(alloc),
        })
    }

    /// Does this many random commands, each on both engines, too.
    pub(crate) fn run<E: Engine, F: Engine>(
        &mut self,
        commands: u32,
        engine: &mut E,
        other: &mut F,
    ) -> Result<(), Fail> {
        for _ in 0..commands {
            let command = self.commands.next(self.alloc, &self.mosaic)?;
            let expected = self.apply(&command);
            self.step = self.step.saturating_add(1);
            self.check_found(&"a command", &engine.apply(&command), &expected)?;
            let found = other.apply(&command);
            self.check_found(&"a command of the other", &found, &expected)?;
            if let Err(refusal) = expected {
                self.refusals.push(refusal)?;
            }
        }
        Ok(())
    }

    // Fails if the value found isn't the wanted one, and names both and the number of commands done.
    fn check_found<R: Debug, T: Debug + PartialEq>(
        &self,
        what: &R,
        found: &T,
        wanted: &T,
    ) -> Result<(), Fail> {
        let Session { seed, step, .. } = *self;
        check_found(&("seed", seed, "step", step, what), found, wanted)
    }

    /// Makes this many steps of the engine, or as many as there are stale tiles.
    pub(crate) fn step<E: Engine>(&self, steps: u32, engine: &mut E) -> Result<(), Fail> {
        for _ in 0..steps {
            self.check_found(&"a step", &engine.step().is_ok(), &true)?;
        }
        Ok(())
    }

    /// The capacity in tiles.
    pub(crate) fn capacity(&self) -> u32 {
        self.capacity
    }

    /// The refusals of commands so far.
    pub(crate) fn refusals(&self) -> &[Refusal] {
        &self.refusals
    }

    fn apply(&mut self, command: &Command) -> Result<u64, Refusal> {
        self.mosaic = reference::effect(self.alloc, self.capacity, &self.mosaic, command)?;
        self.count = self.count.saturating_add(1);
        Ok(self.count)
    }

    /// Compares the engine's contents: its count, its tiles, their files, its sinks and the elevation of each point.
    pub(crate) fn check_contents<E: Engine>(&self, engine: &mut E) -> Result<(), Fail> {
        self.check_found(&"the count", &engine.count(), &self.count)?;
        let has_tiles = self.has_tiles(&engine.tiles()?);
        self.check_found(&"the tiles", &has_tiles, &true)?;
        let sinks = engine.sinks()?;
        self.check_found(&"the sinks", &sinks.as_slice(), &self.mosaic.sinks())?;
        self.check_files(engine)?;
        self.check_elevations(engine)
    }

    fn check_files<E: Engine>(&self, engine: &mut E) -> Result<(), Fail> {
        for corner in &self.corners {
            let wanted = self.file(*corner)?;
            self.check_found(corner, &engine.export(*corner), &wanted)?;
        }
        Ok(())
    }

    fn check_elevations<E: Engine>(&self, engine: &mut E) -> Result<(), Fail> {
        for point in &self.points {
            let height = reference::height(&self.mosaic, *point);
            self.check_found(point, &engine.elevation(*point), &Ok(height))?;
        }
        Ok(())
    }

    /// Compares the engine's answers to each query of each point.
    pub(crate) fn check_points<E: Engine>(&self, engine: &mut E) -> Result<(), Fail> {
        let levels = reference::filled_levels(self.alloc, &self.mosaic)?;
        for point in &self.points {
            let answers = defined(self.alloc, &self.mosaic, &levels, *point)?;
            self.check_found(point, &served(engine, *point), &answers)?;
        }
        Ok(())
    }

    fn has_tiles(&self, found: &[Corner]) -> bool {
        let tiles = self.mosaic.tiles();
        for (corner, tile) in found.iter().zip(tiles) {
            if *corner != tile.corner() {
                return false;
            }
        }
        found.len() == tiles.len()
    }

    // The bytes exported for the corner, or the refusal.
    fn file(&self, corner: Corner) -> Result<Result<Vec<u8>, Refusal>, AllocError> {
        match self.mosaic.samples_of(corner) {
            Some(samples) => Ok(Ok(hgt::bytes_of(self.alloc, samples)?)),
            None => Ok(Err(Refusal::NoTile)),
        }
    }
}

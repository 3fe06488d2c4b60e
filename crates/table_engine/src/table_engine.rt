//! A mosaic in memory, as an engine.
ghost use Rattle.std.specs.Prelude.{◌≡◌, ◌≤◌, [], ◌∷◌, ◌++◌, filter, length, not, IfErr, IfOk, OnOk, OnErr, MatchOption, Contains};
ghost use Rattle.lattice.specs.declared.refusal.Refusal.TheVariants.{NoMemory};
ghost use Rattle.catalogue.specs.Tiles.{corners_of};
ghost use Rattle.edits.specs.Edits.{goes_stale_by};
ghost use Rattle.engine.specs.State.{fresh};
ghost use Rattle.table_engine.specs.TableState.{stale_among};

use catalogue::{Samples, Table, height};
use drainage::{DrainageCache, invalidate_edit};
use edits::{Command, Edit, apply_edit, commands_make_mosaics, edit_of, leaves_stale};
use engine::{Engine, Info};
use lattice::{Corner, Height, Point, Refusal, Side, push};
use std::alloc::Global;
use std::marker::Model;
use water::Run;

/// A mosaic in memory. It may refuse with NoMemory, and never fails. It keeps no planes: a step names a tile, which is
/// fresh until a command makes it stale.
#[derive(Drop)]
pub struct TableEngine {
    alloc: Global,
    table: Table,
    capacity: u32,
    count: u64,
    number: u64,
    fresh: Vec<Corner>,
    // Cached results about the mosaic's water.
    held: DrainageCache,
}

impl Model for TableEngine {
    ghost use Rattle.table_engine.specs.TableState.{TableState, held_of, IsKept};

    ghost Value = { TableState };

    ghost view = { λ e. held_of e.capacity e.table e.fresh.items e.count e.number };

    ghost invariant = { λ e. IsKept e.capacity e.table e.held e.count e.number };
}

impl TableEngine {
    /// An empty mosaic of tiles of this side, which takes so many of them.
    pub fn new(alloc: Global, side: Side, capacity: u32) -> TableEngine
        ensures empty { result.contents ≡ fresh side }
        ensures capacity { result.capacity ≡ capacity }
    {
        TableEngine {
            alloc,
            table: Table::new(alloc, side),
            capacity,
            count: 0,
            number: 1,
            fresh: Vec::new(alloc),
            held: DrainageCache::new(),
        }
    }
}

impl Engine for TableEngine {
    ghost use Rattle.std.proofs.Common.{ap};
    ghost use Rattle.engine.specs.Engines.{IsCall};
    ghost use Rattle.engine.specs.State.{State};
    ghost use Rattle.table_engine.specs.TableState.{table};

    ghost called = { IsCall table };

    ghost is_honest = { table.is_honest };

    ghost is_at = { table.is_at };

    ghost leaves_only = { table.leaves_only };

    ghost side_of = { table.side_of };

    ghost capacity_of = { table.capacity_of };

    ghost has_failed = { table.has_failed };

    ghost failures = { table.failures };

    ghost writes = { table.writes };

    ghost sectors = { table.sectors };

    ghost known = { table.known };

    ghost is_call = { λ old new event answer call. call };

    ghost stays = { λ e s honest at. tt };

    ghost in_turn = { λ first mid last states more before after. tt };

    ghost weaker = { λ first last states more among before. tt };

    ghost same_side = { λ e s at. ap (λ (t : State). t.contents.mosaic.side) at };

    fn side(&self) -> Side {
        self.table.side()
    }

    fn apply(&mut self, command: &Command) -> Result<u64, Refusal> {
        let edit = edit_of(&mut self.table, self.capacity, command)?;
        if self.number == u64::MAX {
            return Err(Refusal::Worn);
        }
        let fresh = still_fresh(self.alloc, &self.table, &edit, &self.fresh)?;
        invalidate_edit(&mut self.held, &edit);
        apply_edit(self.alloc, &edit, &mut self.table)?;
        // This law keeps the number of tiles within the capacity.
        commands_make_mosaics();
        self.fresh = fresh;
        self.count += 1;
        self.number += 1;
        Ok(self.count)
    }

    fn elevation(&mut self, point: Point) -> Result<Height, Refusal> {
        height(&mut self.table, point)
    }

    fn fill(&mut self, point: Point) -> Result<i16, Refusal> {
        drainage::fill(self.alloc, &mut self.table, &mut self.held, point)
    }

    fn direction(&mut self, point: Point) -> Result<u8, Refusal> {
        drainage::direction(self.alloc, &mut self.table, &mut self.held, point)
    }

    fn trace(&mut self, point: Point) -> Result<Vec<Point>, Refusal> {
        drainage::trace(self.alloc, &mut self.table, &mut self.held, point)
    }

    fn watershed(&mut self, point: Point) -> Result<Vec<Run>, Refusal> {
        drainage::watershed(self.alloc, &mut self.table, &mut self.held, point)
    }

    fn export(&mut self, corner: Corner) -> Result<Vec<u8>, Refusal> {
        match self.table.samples(corner) {
            Some(samples) => Ok(hgt::bytes_of(self.alloc, samples)?),
            None => Err(Refusal::NoTile),
        }
    }

    fn levels(&mut self, corner: Corner) -> Result<Vec<i16>, Refusal> {
        if !self.table.present(corner) {
            return Err(Refusal::NoTile);
        }
        drainage::levels(self.alloc, &mut self.table, &mut self.held, corner)
    }

    fn directions(&mut self, corner: Corner) -> Result<Vec<u8>, Refusal> {
        if !self.table.present(corner) {
            return Err(Refusal::NoTile);
        }
        drainage::directions(self.alloc, &mut self.table, &mut self.held, corner)
    }

    fn upstream(&mut self, corner: Corner) -> Result<Vec<u32>, Refusal> {
        if !self.table.present(corner) {
            return Err(Refusal::NoTile);
        }
        drainage::upstream(self.alloc, &mut self.table, &mut self.held, corner)
    }

    fn tiles(&self) -> Result<Vec<Corner>, Refusal> {
        self.table.corners()
    }

    fn sinks(&self) -> Result<Vec<Point>, Refusal> {
        Ok(Vec::from_slice(self.alloc, self.table.sinks())?)
    }

    fn step(&mut self) -> Result<Option<Corner>, Refusal> {
        let corners = self.table.corners()?;
        let Some(corner) = first_stale(&corners, &self.fresh) else {
            return Ok(None);
        };
        if self.number == u64::MAX {
            return Err(Refusal::Worn);
        }
        push(&mut self.fresh, corner)?;
        self.number += 1;
        Ok(Some(corner))
    }

    fn count(&self) -> u64 {
        self.count
    }

    fn info(&self) -> Result<Info, Refusal> {
        let corners = self.table.corners()?;
        let stale = count_stale(&corners, &self.fresh);
        Ok(Info {
            side: self.table.side().samples(),
            capacity: self.capacity,
            // The contents are those of a store of the second version.
            version: 2,
            count: self.count,
            commits: self.number,
            fresh: corners.len().saturating_sub(stale) as u64,
            stale: stale as u64,
        })
    }

    // The engine has no disk, and stays unchanged.
    fn reopen(&mut self) -> Result<(), Refusal> {
        Ok(())
    }
}

// The corners of those fresh tiles that the edit of this table doesn't make stale.
fn still_fresh(
    alloc: Global,
    table: &Table,
    edit: &Edit,
    corners: &[Corner],
) -> Result<Vec<Corner>, Refusal>
    ensures corners { IfOk result (λ fresh. fresh.items ≡ filter (λ p. not (goes_stale_by table.now.side (corners_of table.now) edit.now p)) corners.now) }
    ensures refusal { IfErr result (λ r. r ≡ NoMemory) }
{
    let mut fresh = Vec::new(alloc);
    for corner in corners {
        if !leaves_stale(table, edit, *corner) {
            push(&mut fresh, *corner)?;
        }
    }
    Ok(fresh)
}

// The number of corners that aren't fresh.
fn count_stale(corners: &[Corner], fresh: &[Corner]) -> usize
    ensures { result ≡ length (stale_among corners.now fresh.now) }
{
    let mut count = 0;
    for corner in corners {
        if !fresh.contains(corner) {
            count += 1;
        }
    }
    count
}

// The first corner that isn't fresh.
fn first_stale(corners: &[Corner], fresh: &[Corner]) -> Option<Corner>
    ensures { MatchOption result (stale_among corners.now fresh.now ≡ []) (Contains (stale_among corners.now fresh.now)) }
{
    for corner in corners {
        if !fresh.contains(corner) {
            return Some(*corner);
        }
    }
    None
}

//! A mosaic in memory.
ghost use Rattle.std.specs.Prelude.{◌≡◌, ◌<◌, ◌*◌, ◌↔◌, IsTrue, IsFalse, IfErr, IfOk, OnOk, OnErr, option_map, vec_len, length, Contains};

use crate::Samples;
use arrayvec::ArrayVec;
use lattice::{Corner, MOST_SINKS, Point, Refusal, Side, corner_in_range, samples_in_range};
use std::alloc::Global;
use std::collections::BTreeMap;
use std::marker::Model;

/// A mosaic in memory. Reading from it is never refused.
#[derive(Drop)]
pub struct Table {
    alloc: Global,
    side: Side,
    tiles: BTreeMap<Corner, Vec<i16>>,
    sinks: ArrayVec<Point, MOST_SINKS>,
}

impl Model for Table {
    ghost use Rattle.lattice.specs.Mosaic.{Mosaic, IsMosaic};

    ghost Value = { Mosaic };

    ghost use Rattle.catalogue.specs.Entries.{tiles_in};

    ghost view = { λ t. record { side = t.side; tiles = tiles_in t.tiles.entries; sinks = t.sinks.items } };

    ghost invariant = { λ t. IsMosaic (record { side = t.side; tiles = tiles_in t.tiles.entries; sinks = t.sinks.items }) };
}

impl Table {
    ghost use Rattle.lattice.specs.Mosaic.{Mosaic, IsMosaic, AreSinks, is_present, samples_of, empty_mosaic};
    ghost use Rattle.lattice.specs.declared.refusal.Refusal.TheVariants.{NoMemory};
    ghost use Rattle.catalogue.specs.Tiles.{added, without, with_sinks, corners_of};
    ghost use Rattle.catalogue.specs.Tables.{with_sample};

    /// A table for tiles of this side, without any.
    pub fn new(alloc: Global, side: Side) -> Table
        ensures empty { result ≡ empty_mosaic side }
        ensures valid { IsMosaic result }
    {
        Table {
            alloc,
            side,
            tiles: BTreeMap::new(alloc),
            sinks: ArrayVec::new(),
        }
    }

    /// Declares these points as the only sinks.
    pub fn declare(&mut self, sinks: &[Point])
        requires { AreSinks self.old.side sinks.now }
        ensures declared { self.new ≡ with_sinks sinks.now self.old }
        ensures valid { IsMosaic self.new }
    {
        let mut declared = ArrayVec::new();
        if declared.try_extend_from_slice(sinks).is_ok() {
            self.sinks = declared;
        }
    }

    /// Adds a tile with its samples in metres, row by row from the north, west first.
    pub fn add(&mut self, corner: Corner, samples: Vec<i16>) -> Result<(), Refusal>
        requires absent { IsFalse (is_present self.old corner) }
        requires whole { vec_len samples ≡ self.old.side * self.old.side }
        ensures added { OnOk result (self.new ≡ added (record { corner = corner; samples = samples.items }) self.old) }
        ensures refusal { IfErr result (λ r. r ≡ NoMemory) }
        ensures unchanged { OnErr result (self.new ≡ self.old) }
        ensures valid { IsMosaic self.new }
    {
        corner_in_range(corner);
        samples_in_range(&samples);
        match self.tiles.insert(corner, samples) {
            Ok(_) => Ok(()),
            Err(_) => Err(Refusal::NoMemory),
        }
    }

    /// Removes the corner's tile, and returns its samples if it was present.
    pub fn remove(&mut self, corner: Corner) -> Option<Vec<i16>>
        ensures samples { option_map (λ v. v.items) result ≡ samples_of self.old corner }
        ensures without { self.new ≡ without corner self.old }
        ensures valid { IsMosaic self.new }
    {
        self.tiles.remove(&corner)
    }

    /// Puts a sample at the index of the corner's tile.
    pub fn set(&mut self, corner: Corner, index: u32, sample: i16)
        requires present { IsTrue (is_present self.old corner) }
        requires index { index < self.old.side * self.old.side }
        ensures changed { self.new ≡ with_sample corner index sample self.old }
        ensures valid { IsMosaic self.new }
    {
        if let Some(samples) = self.tiles.get_mut(&corner) {
            samples[index as usize] = sample;
        }
    }

    /// The samples of the corner's tile, if it is present: row by row from the north, west first.
    pub fn samples(&self, corner: Corner) -> Option<&[i16]>
        ensures samples { option_map (λ s. s.now) result ≡ samples_of self.now corner }
        ensures valid { IsMosaic self.now }
    {
        let samples = self.tiles.get(&corner)?;
        Some(samples.as_slice())
    }

    /// The corners of the present tiles, in order.
    pub fn corners(&self) -> Result<Vec<Corner>, Refusal>
        ensures corners { IfOk result (λ v. v.items ≡ corners_of self.now) }
        ensures refusal { IfErr result (λ r. r ≡ NoMemory) }
        ensures valid { IsMosaic self.now }
    {
        Ok(self.tiles.keys().copied().collect(self.alloc)?)
    }
}

impl Samples for Table {
    ghost use Rattle.std.specs.Prelude.{◌≡◌, refl};
    ghost use Rattle.std.proofs.Common.{◌∙◌};
    ghost use Rattle.std.specs.List.{AllAdjacentBelow};
    ghost use Rattle.lattice.specs.Lattice.{IsBefore};
    ghost use Rattle.lattice.specs.Mosaic.{IsMosaic, is_present};
    ghost use Rattle.catalogue.specs.Tiles.{corners_of};
    ghost use Rattle.catalogue.specs.Tables.{AreCorners};

    ghost side_of = { λ table. table.side };

    ghost corners = { corners_of };

    ghost sinks_of = { λ table. table.sinks };

    ghost mosaic = { λ table. table };

    ghost is_honest = { IsMosaic };

    ghost keeps = { λ old new. new ≡ old };

    ghost failures = { λ _. 0 };

    ghost is_ready = { IsMosaic };

    ghost never_refuses = { IsMosaic };

    ghost is_mosaic = { λ _ valid. valid };

    ghost same_side = { λ _ _. refl };

    ghost same_corners = { λ _ _. refl };

    ghost same_sinks = { λ _ _. refl };

    ghost keeps_itself = { λ _. refl };

    ghost keeps_on = { λ _ _ _ first second. second ∙ first };

    ghost sure_is_honest = { λ _ valid. valid };

    fn side(&self) -> Side {
        self.side
    }

    fn present(&self, c: Corner) -> bool
        ensures answer { IsTrue result ↔ Contains (corners_of self.now) c }
        ensures in_order { AllAdjacentBelow IsBefore (corners_of self.now) (length (corners_of self.now)) }
        ensures whole_degrees { AreCorners (corners_of self.now) }
        ensures tile { result ≡ is_present self.now c }
        ensures valid { IsMosaic self.now }
    {
        self.tiles.contains_key(&c)
    }

    fn count(&self) -> usize {
        self.tiles.len()
    }

    fn present_corners(&self) -> Result<Vec<Corner>, Refusal> {
        self.corners()
    }

    fn sinks(&self) -> &[Point] {
        self.sinks.as_slice()
    }

    fn sample(&mut self, c: Corner, i: u32) -> Result<i16, Refusal> {
        let samples = &self.tiles[&c];
        Ok(samples[i as usize])
    }

    fn read_samples(&mut self, c: Corner, first: u32, into: &mut [i16]) -> Result<(), Refusal> {
        let samples = &self.tiles[&c];
        let first = first as usize;
        into.copy_from_slice(&samples[first..first + into.len()]);
        Ok(())
    }
}

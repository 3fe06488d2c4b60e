//! Applies an edit to a table in memory.
ghost use Rattle.std.specs.Prelude.{◌≡◌, IsTrue, IsOk, IfErr, OnOk, OnErr};
ghost use Rattle.lattice.specs.Mosaic.{IsMosaic};
ghost use Rattle.lattice.specs.declared.refusal.Refusal.TheVariants.{NoMemory};
ghost use Rattle.catalogue.specs.Tiles.{corners_of};
ghost use Rattle.edits.specs.Edits.{AddsNone, FitsIn, edit_made, with_height, with_heights};
ghost use Rattle.edits.specs.Effect.{is_box, is_void_at, patched};

use crate::boxes::BoxPoints;
use crate::places::places_of;
use crate::sinks::{with_point, without_point};
use crate::{Edit, NewHeight};
use catalogue::{Samples, Table, height};
use lattice::{Corner, Height, Point, Refusal};
use std::alloc::Global;

/// Applies an edit that `edit_of` answered for the table in its present state. Memory for an added tile may be refused:
/// then the answer is `NoMemory`, and the table is unchanged. No other edit takes memory.
pub fn apply_edit(alloc: Global, edit: &Edit, table: &mut Table) -> Result<(), Refusal>
    requires { FitsIn table.old.side (corners_of table.old) table.old.sinks edit.now }
    ensures made { OnOk result (table.new ≡ edit_made edit.now table.old) }
    ensures refusal { IfErr result (λ r. r ≡ NoMemory) }
    ensures unchanged { OnErr result (table.new ≡ table.old) }
    ensures sure { AddsNone edit.now → IsOk result }
    ensures valid { IsMosaic table.new }
{
    // This call shows the prover that a table is a mosaic.
    let _is_present = table.present(Corner::default());
    match edit {
        Edit::Add { corner, bytes } => {
            let samples = hgt::samples(alloc, *bytes, table.side())?;
            return table.add(*corner, samples);
        }
        Edit::Drop { corner } => {
            let _ = table.remove(*corner);
        }
        Edit::Heights { heights } => set_heights(table, heights.as_slice()),
        Edit::Voids {
            from,
            to,
            height,
            ..
        } => fill_voids(table, *from, *to, *height),
        Edit::Sink { point, .. } => {
            let sinks = with_point(table.sinks(), *point);
            table.declare(&sinks);
        }
        Edit::Unsink { point, .. } => {
            let sinks = without_point(table.sinks(), *point);
            table.declare(&sinks);
        }
    }
    Ok(())
}

// Gives each point its new height.
fn set_heights(table: &mut Table, heights: &[NewHeight])
    requires { IsMosaic table.old }
    ensures set { table.new ≡ with_heights heights.now table.old }
    ensures valid { IsMosaic table.new }
{
    for height in heights {
        set_at(table, height.point, height.metres);
    }
}

// Puts the sample at the point, in every present tile with the point.
fn set_at(table: &mut Table, point: Point, sample: i16)
    requires { IsMosaic table.old }
    ensures set { table.new ≡ with_height point sample table.old }
    ensures valid { IsMosaic table.new }
{
    for place in places_of(table, point).as_slice() {
        table.set(place.corner, place.index, sample);
    }
}

// Puts the sample at the void points of the box. A point that was set isn't read again.
fn fill_voids(table: &mut Table, from: Point, to: Point, sample: i16)
    requires valid { IsMosaic table.old }
    requires size { IsTrue (is_box table.old.side from to) }
    ensures filled { table.new ≡ patched from to sample table.old }
    ensures valid { IsMosaic table.new }
{
    let Some(points) = BoxPoints::new(table.side(), from, to) else {
        return;
    };
    for k in 0..points.len() {
        let point = points.point(k);
        if is_void(table, point) {
            set_at(table, point, sample);
        }
    }
}

fn is_void(table: &mut Table, point: Point) -> bool
    requires { IsMosaic table.old }
    ensures void { result ≡ is_void_at table.old point }
    ensures same { table.new ≡ table.old }
{
    matches!(height(table, point), Ok(Height::Void))
}

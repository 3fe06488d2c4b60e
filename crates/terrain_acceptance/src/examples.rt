//! The examples of root comments of crates about terrain, as tests of their results.
use arrayvec::ArrayVec;
use catalogue::{Samples, Table, height};
use edits::{Bytes, Command, apply_edit, edit_of};
use flow_d8::{DirectionGrid, Filled};
use hgt::{name_of, name_text, samples};
use lattice::{Corner, Height, Point, Refusal, Side, holders, index_in};
use levels::{TileCache, level_in};
use reference::{Plain, effect, filled_levels};
use std::alloc::Global;
use std::test::Fail;
use test_tiles::{A, A_SAMPLES};
use tile_flood::{Block, Flood, spills};
use tile_labellings::{kept_planes, labelled_from};
use watershed::watershed_over;

const CENTRE: Point = Point { y: 1, x: 1 };

fn side() -> Result<Side, Fail> {
    Ok(Side::new(3).ok_or("no side")?)
}

#[test]
fn corners_of_a_point(rt: HostRuntime) -> Result<(), Fail> {
    let side = Side::new(3).ok_or(Refusal::BadSide)?;
    let point = Point { y: 1, x: 2 };
    let mut wanted = Some(5);
    for corner in holders(side, point) {
        let index = index_in(side, corner, point);
        assert!(rt; index == wanted);
        wanted = Some(3);
    }
    Ok(())
}

#[test]
fn a_file_of_a_tile(rt: HostRuntime) -> Result<(), Fail> {
    let alloc = rt.alloc();
    let side = side()?;
    let bytes = A;
    let corner = name_of(b"n37w105")?;
    let name = name_text(corner);
    let samples = samples(alloc, &bytes, side)?;
    assert!(rt; name.as_str() == "N37W105");
    assert!(rt; samples.as_slice() == A_SAMPLES.as_slice());
    Ok(())
}

#[test]
fn a_table_of_a_tile(rt: HostRuntime) -> Result<(), Fail> {
    let alloc = rt.alloc();
    let side = side()?;
    let corner = Corner::default();
    let point = CENTRE;
    let samples = samples(alloc, &A, side)?;
    let mut table = Table::new(alloc, side);
    table.add(corner, samples)?;
    let height = height(&mut table, point)?;
    assert!(rt; height == Height::At(1));

    let planes = kept_planes(alloc, &mut table, corner)?;
    let labelled = labelled_from(alloc, side, &planes.levels, &planes.labels)?;
    assert!(rt; labelled.levels() == [9i16, 9, 9, 9, 5, 9, 9, 9, 5].as_slice());

    let command = Command::Remove { corner };
    let edit = edit_of(&mut table, 240, &command)?;
    apply_edit(alloc, &edit, &mut table)?;
    assert!(rt; !table.present(corner));
    Ok(())
}

#[test]
fn how_high_water_stands(rt: HostRuntime) -> Result<(), Fail> {
    let alloc = rt.alloc();
    let side = side()?;
    let point = CENTRE;
    let mut table = Table::new(alloc, side);
    table.add(Corner::default(), samples(alloc, &A, side)?)?;
    let mut tiles = TileCache::new(alloc, &table)?;
    let level = level_in(alloc, &mut table, &mut tiles, point)?;
    assert!(rt; level == Some(5));
    Ok(())
}

#[test]
fn levels_of_a_block(rt: HostRuntime) -> Result<(), Fail> {
    let alloc = rt.alloc();
    let side = side()?;
    let heights = samples(alloc, &A, side)?;
    let sinks = ArrayVec::new();
    let block = Block::new(side, heights, sinks).ok_or(Refusal::BadLength)?;
    let labelled = Flood::run(alloc, &block)?;
    let spills = spills(alloc, &labelled)?;
    assert!(rt; labelled.levels() == [9i16, 9, 9, 9, 5, 9, 9, 9, 5].as_slice());
    assert!(rt; !spills.is_empty());
    Ok(())
}

#[test]
fn directions_of_levels(rt: HostRuntime) -> Result<(), Fail> {
    let alloc = rt.alloc();
    let side = side()?;
    let corners = vec![in alloc; Corner::default()]?;
    let levels = Vec::from_slice(alloc, &[9, 9, 9, 9, 5, 9, 9, 9, 5])?;
    let sinks = Vec::new(alloc);
    let point = CENTRE;
    let filled = Filled::new(side, corners, levels, sinks).ok_or(Refusal::BadLength)?;
    let directions = filled.directions()?;
    let path = directions.trace(point)?;
    assert!(rt; path.as_slice() == [CENTRE, Point { y: 0, x: 2 }].as_slice());

    let mut flows = DirectionGrid {
        directions: &directions,
    };
    let runs = watershed_over(alloc, &mut flows, point)?;
    assert!(rt; runs.len() == 3);
    Ok(())
}

#[test]
fn levels_of_a_plain_mosaic(rt: HostRuntime) -> Result<(), Fail> {
    let alloc = rt.alloc();
    let side = side()?;
    let point = CENTRE;
    let command = Command::Import {
        corner: Corner::default(),
        bytes: Bytes::new(Vec::from_slice(alloc, &A)?),
    };
    let mosaic = effect(alloc, 4, &Plain::new(alloc, side), &command)?;
    let levels = filled_levels(alloc, &mosaic)?;
    let level = levels.get(point);
    assert!(rt; level == Some(5));
    Ok(())
}

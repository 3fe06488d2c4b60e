//! Tests of the number of changes of commands.
use crate::written::at;
use arrayvec::ArrayVec;
use catalogue::Table;
use edits::{Bytes, Command, apply_edit, edit_of, plan};
use lattice::{Corner, Point, Side};
use std::alloc::{AllocError, Global};
use std::test::Fail;
use test_tiles::{A, V, check_found};

const WEST: Corner = Corner { lat: 0, lon: 0 };

const EAST: Corner = Corner { lat: 0, lon: 1 };

fn import(alloc: Global, corner: Corner, bytes: &[u8]) -> Result<Command, AllocError> {
    let bytes = Bytes::new(Vec::from_slice(alloc, bytes)?);
    Ok(Command::Import { corner, bytes })
}

fn burn(depth: i32, point: Point) -> Command {
    let mut points = ArrayVec::new();
    let _ = points.try_push(point);
    Command::Burn { depth, points }
}

fn wall(height: i32, first: Point, second: Point) -> Command {
    let mut points = ArrayVec::new();
    let _ = points.try_push(first);
    let _ = points.try_push(second);
    Command::Wall { height, points }
}

fn patch(from: Point, to: Point, height: i32) -> Command {
    Command::Patch { from, to, height }
}

#[test]
fn changes_of_commands(rt: HostRuntime) -> Result<(), Fail> {
    let alloc = rt.alloc();
    let side = Side::new(3).ok_or("no side")?;
    let mut table = Table::new(alloc, side);
    let rows = [
        ("an import", import(alloc, WEST, &V)?, 1),
        ("an import beside a tile", import(alloc, EAST, &A)?, 1),
        ("a burn inside a tile", burn(1, at(0, 0)), 1),
        ("a burn on a seam", burn(1, at(1, 2)), 2),
        ("a patch", patch(at(0, 0), at(2, 2), 5), 1),
        ("a wall on a seam", wall(20, at(1, 2), at(2, 2)), 4),
        ("a removal", Command::Remove { corner: EAST }, 1),
    ];
    for (shows, command, count) in rows.iter() {
        let changes = plan(alloc, &mut table, 4, command)?;
        check_found(shows, &changes.len(), count)?;
        let edit = edit_of(&mut table, 4, command)?;
        apply_edit(alloc, &edit, &mut table)?;
    }
    Ok(())
}

//! The examples of root comments about a mosaic in memory and its lines, as tests of their results.
use catalogue::{Samples, Table};
use drainage::{DrainageCache, fill, trace};
use hgt::samples;
use lines::{Language, format_reply, request_of};
use seeded_random::Random;
use serving::{CheckedWriter, serve};
use std::alloc::Global;
use std::test::Fail;
use table_engine::{
    ArrayVec, Bytes, Command, Corner, Engine, Event, Point, Refusal, Reply, Side, TableEngine,
};
use test_tiles::{A, expand, split_payload};

const CENTRE: Point = Point { y: 1, x: 1 };

// Imports a tile with a pit, asks for its level, and burns in a stream that drains it.
fn levels_of_a_pit(alloc: Global) -> Result<(i16, i16, Reply), Refusal> {
    let side = Side::new(3).ok_or(Refusal::BadSide)?;
    let corner = Corner::new(0, 0).ok_or(Refusal::BadName)?;
    let bytes = Bytes::new(Vec::from_slice(alloc, &A)?);
    let mut engine = TableEngine::new(alloc, side, 4);
    let count = engine.apply(&Command::Import { corner, bytes })?;
    let level = engine.fill(Point { y: 1, x: 1 })?;
    let mut points = ArrayVec::new();
    points.push(Point { y: 0, x: 2 });
    engine.apply(&Command::Burn { depth: 3, points })?;
    let point = CENTRE;
    let reply = engine.answer(&Event::Fill(point));
    match count {
        1 => Ok((level, engine.fill(point)?, reply)),
        _ => Err(Refusal::Damaged),
    }
}

#[test]
fn a_mosaic_in_memory(rt: HostRuntime) -> Result<(), Fail> {
    assert!(rt; levels_of_a_pit(rt.alloc())? == (5, 2, Reply::Fill(2)));
    Ok(())
}

#[test]
fn a_line_and_its_reply(rt: HostRuntime) -> Result<(), Fail> {
    let alloc = rt.alloc();
    let reply = Reply::Fill(5);
    let request = request_of(Language::Plain, b"fill 1 1");
    let text = format_reply(alloc, reply);
    let (mut rest, bytes) = text.parts();
    let part = rest.next_part();
    assert!(rt;
        request.is_some()
            && part.as_slice() == b"OK 5\n".as_slice()
            && bytes.is_empty()
            && rest.is_made()
    );
    Ok(())
}

#[test]
fn a_session(rt: HostRuntime) -> Result<(), Fail> {
    let alloc = rt.alloc();
    let mut reader: &[u8] = b"count\nquit\n";
    let writer = Vec::new(alloc);
    let mut engine = TableEngine::new(alloc, Side::new(3).ok_or("no side")?, 4);
    let mut output = CheckedWriter::new(writer);
    serve(alloc, &mut reader, &mut output, &mut engine)?;
    assert!(rt; output.into_inner().as_slice() == b"OK 0\nOK\n".as_slice());
    Ok(())
}

#[test]
fn where_water_stands_and_goes(rt: HostRuntime) -> Result<(), Fail> {
    let alloc = rt.alloc();
    let side = Side::new(3).ok_or("no side")?;
    let point = CENTRE;
    let mut table = Table::new(alloc, side);
    table.add(Corner::default(), samples(alloc, &A, side)?)?;
    let mut held = DrainageCache::new();
    let level = fill(alloc, &mut table, &mut held, point)?;
    let path = trace(alloc, &mut table, &mut held, point)?;
    assert!(rt; level == 5 && path.len() == 2);
    Ok(())
}

#[test]
fn numbers_and_tiles_of_tests(rt: HostRuntime) -> Result<(), Fail> {
    let alloc = rt.alloc();
    let mut random = Random::new(1);
    let height = random.next_below(100);
    let item = expand(alloc, "import N00E000 $A")?;
    let (line, payload) = split_payload(&item);
    assert!(rt; height < 100 && line == b"import N00E000 18".as_slice() && payload == A.as_slice());
    Ok(())
}

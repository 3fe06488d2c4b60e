//! Tests of the program's replies about all samples of a tile, and of the files that it makes.
use crate::run;
use disk::{Files, SnapshotFile};
use engine::Engine;
use lattice::{Refusal, VOID, point_at};
use memory_store::store_in_memory;
use server::{CheckedWriter, FilePlaces, Language, TableEngine, program, serve_lines};
use std::alloc::{AllocError, Global};
use std::fs;
use std::marker::Brand;
use std::process::Abort;
use std::test::Fail;
use test_tiles::{V, check_row, lines_of};
use water::Run;

fn owned(alloc: Global, words: &[&str]) -> Result<Vec<String>, AllocError> {
    let mut list = Vec::new(alloc);
    for word in words {
        list.push(String::from_str(alloc, word)?)?;
    }
    Ok(list)
}

/// Whether the program with these words and this input ends with this status and these lines.
fn ends(
    rt: &HostRuntime,
    words: &[&str],
    input: &[&str],
    status: u8,
    wanted: &[&str],
) -> Result<bool, Fail> {
    let words = owned(rt.alloc(), words)?;
    let input = lines_of(rt.alloc(), input)?;
    let mut reader = input.as_slice();
    let mut writer = CheckedWriter::new(Vec::new(rt.alloc()));
    let mut places = FilePlaces::<Brand>::new(Files::new(rt));
    let found = run::<SnapshotFile<Brand>, _, _, _>(
        rt,
        &mut places,
        &words,
        &mut reader,
        &mut writer,
    );
    let written = lines_of(rt.alloc(), wanted)?;
    Ok(found == status && writer.into_inner() == written)
}

// A `$` at the end of a text: no LF ends it. In a lone tile of side 3 each point but the middle is an outlet. Tile A is
// 9 9 9 / 9 1 9 / 9 9 5: its middle is filled to 5. Tile H is 9 9 9 / 8 9 9 / 9 9 9: all points next to the notch drain
// to it.
#[test]
fn tiles_by_lines(rt: HostRuntime) -> Result<(), Fail> {
    let lines = [
        "levels N00E000",
        "import N00E000 $A",
        "levels n00e000",
        "import N45E045 $H",
        "directions N45E045",
        "upstream N45E045",
        "levels N0",
        "directions S45E045",
        "levels",
        "directions  N00E000",
        "count",
        "info",
    ];
    let wanted = [
        "ERR 5 NoTile",
        "OK 1",
        "OK 18\n\0\x09\0\x09\0\x09\0\x09\0\x05\0\x09\0\x09\0\x09\0\x05$",
        "OK 2",
        "OK 9\n\x04\x08\0\0\x10\0\x40\x20\0$",
        "OK 36\n\0\0\0\x01\0\0\0\x01\0\0\0\x01\0\0\0\x06\0\0\0\x01\0\0\0\x01\0\0\0\x01\0\0\0\x01\0\0\0\x01$",
        "ERR 2 BadName",
        "ERR 5 NoTile",
        "ERR 1 BadLine",
        "ERR 1 BadLine",
        "OK 2",
        "OK side 3 capacity 4 version 2 count 2 commits 3 fresh 0 stale 2",
    ];
    assert!(rt; ends(&rt, &["table", "3", "4"], &lines, 0, &wanted)?);
    Ok(())
}

#[test]
fn mosaic_has_no_such_words(rt: HostRuntime) -> Result<(), Fail> {
    let words = owned(rt.alloc(), &["table", "3", "4"])?;
    let mut reader: &[u8] = b"levels N00E000\ndirections x\ninfo\ncount\n";
    let mut writer = CheckedWriter::new(Vec::new(rt.alloc()));
    let mut places = FilePlaces::<Brand>::new(Files::new(&rt));
    let _ = program(rt.alloc(), &mut places, &words, &mut reader, &mut writer);
    let wanted: &[u8] = b"ERR 1 BadLine\nERR 1 BadLine\nERR 1 BadLine\nOK 0\n";
    assert_eq!(rt; writer.into_inner().as_slice(), wanted);
    Ok(())
}

fn points_in(runs: &[Run]) -> u32 {
    let mut count = 0u32;
    for run in runs {
        count = count.saturating_add(run.last.abs_diff(run.first).saturating_add(1));
    }
    count
}

/// Whether the engine's answers for each tile agree with those for its points.
fn tells_points<E: Engine>(engine: &mut E) -> Result<bool, Refusal> {
    let side = engine.side();
    let mut holds = true;
    for corner in engine.tiles()? {
        let levels = engine.levels(corner)?;
        let codes = engine.directions(corner)?;
        let counts = engine.upstream(corner)?;
        for index in 0..side.area() {
            let point = point_at(side, corner, index);
            let level = engine.fill(point).unwrap_or(VOID);
            let code = engine.direction(point).unwrap_or(255);
            let count = engine.watershed(point).map_or(0, |runs| points_in(&runs));
            let at = index as usize;
            holds = holds && levels.get(at) == Some(&level) && codes.get(at) == Some(&code);
            holds = holds && counts.get(at) == Some(&count);
        }
    }
    Ok(holds)
}

/// Imports tiles that share edges, with voids, flats and a sink, and compares the answers.
fn check_points<E: Engine>(rt: &impl Abort, alloc: Global, engine: &mut E) -> Result<(), Fail> {
    let lines = [
        "import N00E000 $L",
        "import N00E001 $D",
        "import S01E000 $I",
        "import S01E001 $F",
        "sink 0 2",
    ];
    let input = lines_of(alloc, &lines)?;
    let mut reader = input.as_slice();
    let mut writer = CheckedWriter::new(Vec::new(alloc));
    serve_lines(alloc, Language::Tiles, &mut reader, &mut writer, engine)?;
    assert_eq!(rt; engine.count(), 5);
    assert!(rt; tells_points(engine)?);
    Ok(())
}

#[test]
fn samples_as_their_points(rt: HostRuntime) -> Result<(), Fail> {
    let alloc = rt.alloc();
    let mut store = store_in_memory(alloc, 60, 3, 4)?;
    let mut table = TableEngine::new(alloc, Engine::side(&store), 4);
    check_points(&rt, alloc, &mut store)?;
    check_points(&rt, alloc, &mut table)
}

/// The path of the store's file in the rows.
const STORE: &str = "mosaic_tiles_test";

/// The files that the rows make: of levels, directions and upstream counts, and the store's.
const FILES: [&str; 4] = ["./N00E000.hgt", "./N00E000.dir", "./N00E000.acc", STORE];

/// A run of the program after the runs before it: its words, its input as lines, its exit status and one line.
struct Row {
    words: &'static [&'static str],
    input: &'static [&'static str],
    status: u8,
    written: &'static str,
}

/// A run without input whose words aren't accepted.
const BAD_WORDS: Row = Row {
    words: &[],
    input: &[],
    status: 2,
    written: "mosaic: bad arguments",
};

// A store with a tile, a file of each layer, and then what is refused.
const ROWS: [Row; 14] = [
    Row {
        words: &["format", STORE, "3", "2"],
        status: 0,
        written: "OK 0",
        ..BAD_WORDS
    },
    Row {
        words: &["serve", STORE],
        input: &["import N00E000 $V"],
        status: 0,
        written: "OK 1",
    },
    Row {
        words: &["write", STORE, "levels", "all", "."],
        status: 0,
        written: "OK 1",
        ..BAD_WORDS
    },
    Row {
        words: &["write", STORE, "directions", "n00e000", "."],
        status: 0,
        written: "OK 1",
        ..BAD_WORDS
    },
    Row {
        words: &["write", STORE, "upstream", "all", "."],
        status: 0,
        written: "OK 1",
        ..BAD_WORDS
    },
    Row {
        words: &["write", STORE, "levels", "all", "."],
        status: 1,
        written: "mosaic: cannot open ./N00E000.hgt",
        ..BAD_WORDS
    },
    Row {
        words: &["write", STORE, "directions", "N01E000", "."],
        status: 1,
        written: "ERR 5 NoTile",
        ..BAD_WORDS
    },
    Row {
        words: &["write", STORE, "heights", "all", "."],
        ..BAD_WORDS
    },
    Row {
        words: &["write", STORE, "levels", "all", "-"],
        ..BAD_WORDS
    },
    Row {
        words: &["write", STORE, "levels", "."],
        ..BAD_WORDS
    },
    Row {
        words: &["read", STORE],
        input: &[
            "tiles",
            "step",
            "import N00E001 $V",
            "levels N0",
            "quit",
            "count",
        ],
        status: 0,
        written: "OK 1\nOK 1 N00E000\nERR 1 BadLine\nERR 1 BadLine\nERR 2 BadName\nOK",
    },
    Row {
        words: &["read", "no\nstore"],
        status: 1,
        written: "mosaic: cannot open no?store",
        ..BAD_WORDS
    },
    Row {
        words: &["read", STORE, "more"],
        ..BAD_WORDS
    },
    Row {
        words: &["write", "no\nstore", "levels", "all", "."],
        status: 1,
        written: "mosaic: cannot open no?store",
        ..BAD_WORDS
    },
];

/// Removes those of these files that exist.
fn clear_files(rt: &HostRuntime) {
    for file in FILES {
        let _ = fs::remove_file(rt, file);
    }
}

/// Runs the rows one after another.
fn check_rows(rt: &HostRuntime) -> Result<(), Fail> {
    for row in &ROWS {
        let holds = ends(rt, row.words, row.input, row.status, &[row.written])?;
        check_row(&row.words, holds)?;
    }
    Ok(())
}

#[test]
fn files_of_tiles(rt: HostRuntime) -> Result<(), Fail> {
    clear_files(&rt);
    check_rows(&rt)?;
    let [levels, directions, upstream, _] = FILES;
    assert_eq!(rt; fs::read(&rt, levels)?.as_slice(), V.as_slice());
    let codes: &[u8] = &[0, 0, 0, 0, 255, 0, 0, 0, 0];
    assert_eq!(rt; fs::read(&rt, directions)?.as_slice(), codes);
    assert_eq!(rt; fs::read(&rt, upstream)?.len(), 36);
    clear_files(&rt);
    Ok(())
}

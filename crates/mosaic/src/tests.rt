//! Tests of the program's words, and of its work on files of stores.
mod lengths;
mod outputs;
mod places;
mod sessions;

use disk::{FileDisk, Files};
use server::{CheckedWriter, FilePlaces, program};
use sessions::serves;
use std::alloc::{AllocError, Global};
use std::fs;
use std::marker::Brand;
use std::process::Abort;
use std::test::Fail;
use store::Store;
use test_tiles::{A, G, H};

fn run(rt: &HostRuntime, words: &[&str], input: &[u8]) -> (u8, Vec<u8>) {
    match owned(rt.alloc(), words) {
        Ok(words) => run_words(rt, &words, input),
        Err(_) => (u8::MAX, Vec::new(rt.alloc())),
    }
}

fn owned(alloc: Global, words: &[&str]) -> Result<Vec<String>, AllocError> {
    let mut list = Vec::new(alloc);
    for word in words {
        list.push(String::from_str(alloc, word)?)?;
    }
    Ok(list)
}

fn run_words(rt: &HostRuntime, words: &[String], input: &[u8]) -> (u8, Vec<u8>) {
    let mut reader = input;
    let mut writer = CheckedWriter::new(Vec::new(rt.alloc()));
    let mut places = FilePlaces::<Brand>::new(Files::new(rt));
    let status = program(rt.alloc(), &mut places, words, &mut reader, &mut writer);
    (status, writer.into_inner())
}

/// Whether the program ends with this status and output for these words. If it doesn't, standard error says how it
/// ended.
fn ends(rt: &HostRuntime, words: &[&str], input: &[u8], status: u8, wanted: &[u8]) -> bool {
    let (ended, output) = run(rt, words, input);
    let holds = ended == status && output.as_slice() == wanted;
    if !holds {
        let text = lossy(rt.alloc(), &output);
        let _ = eprintln!(rt; "{words:?} ended with status {ended} and wrote {text:?}");
    }
    holds
}

/// The first bytes as text, enough to show the answer; none if memory is refused.
fn lossy(alloc: Global, bytes: &[u8]) -> String {
    let count = bytes.len().min(400);
    String::from_utf8_lossy(alloc, &bytes[..count]).unwrap_or(String::new(alloc))
}

/// Ends the test if one of these is false, and says which.
fn assert_all(rt: &impl Abort, all: &[bool], what: &str) {
    for (row, holds) in all.iter().enumerate() {
        assert!(rt; *holds, "{what}, {row}");
    }
}

/// A path, after what was there is removed.
fn cleared<'a>(rt: &HostRuntime, path: &'a str) -> &'a str {
    let _ = fs::remove_file(rt, path);
    path
}

#[test]
fn a_store_on_a_file(rt: HostRuntime) -> Result<(), Fail> {
    let m = cleared(&rt, "server_test_m");
    let tile = "N00E000.hgt";
    fs::write(&rt, tile, &A)?;
    assert!(rt; ends(&rt, &["format", m, "3", "2"], b"", 0, b"OK 0\n"));
    assert_eq!(rt; fs::metadata(&rt, m)?.len(), 139_264);
    let report = b"count 1 commits 2\nN00E000 stale\nseams 0\n";
    let exists = b"mosaic: exists server_test_m\n";
    let all = [
        ends(&rt, &["import", m, tile], b"", 0, b"OK 1\n"),
        ends(&rt, &["import", m, tile], b"", 1, b"ERR 4 TileThere\n"),
        ends(&rt, &["check", m], b"", 0, report),
        ends(&rt, &["format", m, "3", "2"], b"", 1, exists),
        ends(&rt, &["serve", m], b"elev 0 2\ncount\n", 0, b"OK 5\nOK 1\n"),
    ];
    assert_all(&rt, &all, "a store on a file");
    fs::remove_file(&rt, m)?;
    fs::remove_file(&rt, tile)?;
    Ok(())
}

// Rows for a side that is too small and for a bad name are in `places`, which shows that no file is asked for then.
#[test]
fn stores_that_are_not_made(rt: HostRuntime) {
    let x = cleared(&rt, "server_test_x");
    let bad_side = b"ERR 32 BadSide\n";
    let bad_capacity = b"ERR 33 BadCapacity\n";
    let all = [
        ends(&rt, &["format", x, "3602", "1"], b"", 1, bad_side),
        ends(&rt, &["format", x, "3", "241"], b"", 1, bad_capacity),
        fs::metadata(&rt, x).is_err(),
    ];
    assert_all(&rt, &all, "stores that are not made");
}

/// Two tiles, imported from separate files by separate openings, meet at a seam.
#[test]
fn seams_of_a_file(rt: HostRuntime) -> Result<(), Fail> {
    let m = cleared(&rt, "server_test_seams");
    let west = "n00e000.srtm.HGT";
    let east = "N00E001.hgt";
    fs::write(&rt, west, &G)?;
    fs::write(&rt, east, &H)?;
    let all = [
        ends(&rt, &["format", m, "3", "4"], b"", 0, b"OK 0\n"),
        ends(&rt, &["check", m], b"", 0, b"count 0 commits 1\nseams 0\n"),
        ends(&rt, &["import", m, west], b"", 0, b"OK 1\n"),
        ends(&rt, &["import", m, east], b"", 0, b"OK 2\n"),
    ];
    assert_all(&rt, &all, "tiles with a seam");
    let report = b"count 2 commits 3\nN00E000 stale\nN00E001 stale\nseams 1\n";
    let all = [
        serves(&rt, m, &[("elev 1 2", "OK 7")]),
        ends(&rt, &["check", m], b"", 0, report),
        serves(&rt, m, &[("remove N00E000", "OK 3"), ("elev 1 2", "OK 8")]),
    ];
    assert_all(&rt, &all, "seams of a file");
    fs::remove_file(&rt, m)?;
    fs::remove_file(&rt, west)?;
    fs::remove_file(&rt, east)?;
    Ok(())
}

/// Each word works only on the files at its paths.
#[test]
fn files_at_their_paths(rt: HostRuntime) -> Result<(), Fail> {
    let first = cleared(&rt, "server_test_first");
    let second = cleared(&rt, "server_test_second");
    let (west, east) = ("N00E000.first.hgt", "N00E000.second.hgt");
    fs::write(&rt, west, &G)?;
    fs::write(&rt, east, &H)?;
    let empty = b"count 0 commits 1\nseams 0\n";
    let all = [
        ends(&rt, &["format", first, "3", "1"], b"", 0, b"OK 0\n"),
        fs::metadata(&rt, second).is_err(),
        ends(&rt, &["format", second, "3", "1"], b"", 0, b"OK 0\n"),
        ends(&rt, &["import", first, west], b"", 0, b"OK 1\n"),
        ends(&rt, &["check", second], b"", 0, empty),
        ends(&rt, &["import", second, east], b"", 0, b"OK 1\n"),
    ];
    assert_all(&rt, &all, "two stores are made");
    let said = [("export N00E000", "OK $H"), ("remove N00E000", "OK 2")];
    let kept = b"count 1 commits 2\nN00E000 stale\nseams 0\n";
    let all = [
        serves(&rt, second, &said),
        ends(&rt, &["check", first], b"", 0, kept),
        ends(
            &rt,
            &["check", second],
            b"",
            0,
            b"count 2 commits 3\nseams 0\n",
        ),
    ];
    assert_all(&rt, &all, "files at their paths");
    assert!(rt; serves(&rt, first, &[("export N00E000", "OK $G")]));
    for path in [first, second, west, east] {
        fs::remove_file(&rt, path)?;
    }
    Ok(())
}

#[test]
fn a_path_with_no_file(rt: HostRuntime) -> Result<(), Fail> {
    let m = cleared(&rt, "server_test_none");
    let tile = "S01W001.hgt";
    fs::write(&rt, tile, &A)?;
    let missing = b"mosaic: cannot open server_test_none\n";
    let below = "server_test_none/m";
    let folder = b"mosaic: cannot open server_test_none/m\n";
    let all = [
        ends(&rt, &["serve", m], b"count\n", 1, missing),
        ends(&rt, &["check", m], b"", 1, missing),
        ends(&rt, &["import", m, tile], b"", 1, missing),
        ends(&rt, &["format", below, "3", "1"], b"", 1, folder),
    ];
    assert_all(&rt, &all, "a path with no file");
    fs::remove_file(&rt, tile)?;
    Ok(())
}

#[test]
fn a_file_that_is_no_store(rt: HostRuntime) -> Result<(), Fail> {
    let m = "server_test_no_store";
    fs::File::create(&rt, m)?.set_len(65_536)?;
    let refused = b"ERR 30 NotAStore\n";
    let all = [
        ends(&rt, &["serve", m], b"count\n", 1, refused),
        ends(&rt, &["check", m], b"", 1, refused),
        ends(&rt, &["import", m, "N05E005.hgt"], b"", 1, refused),
    ];
    assert_all(&rt, &all, "a file that is no store");
    fs::remove_file(&rt, m)?;
    Ok(())
}

#[test]
fn a_tile_of_another_length(rt: HostRuntime) -> Result<(), Fail> {
    let m = cleared(&rt, "server_test_length");
    let tile = "S02W002.hgt";
    let unread = b"mosaic: cannot read N05E005.hgt\n";
    let all = [
        ends(&rt, &["format", m, "3", "1"], b"", 0, b"OK 0\n"),
        ends(&rt, &["import", m, "N05E005.hgt"], b"", 1, unread),
    ];
    assert_all(&rt, &all, "a tile with no file");
    fs::write(&rt, tile, &A[..17])?;
    let is_short = ends(&rt, &["import", m, tile], b"", 1, b"ERR 3 BadLength\n");
    fs::File::create(&rt, tile)?.set_len(1_000_000)?;
    let is_long = ends(&rt, &["import", m, tile], b"", 1, b"ERR 3 BadLength\n");
    assert_all(&rt, &[is_short, is_long], "a tile of another length");
    fs::remove_file(&rt, m)?;
    fs::remove_file(&rt, tile)?;
    Ok(())
}

#[test]
fn a_file_that_is_open_elsewhere(rt: HostRuntime) -> Result<(), Fail> {
    let mut files = Files::new(&rt);
    let m = cleared(&rt, "server_test_locked");
    assert!(rt; ends(&rt, &["format", m, "3", "1"], b"", 0, b"OK 0\n"));
    let held = FileDisk::<Brand>::open(&mut files, m)?;
    let refused = b"mosaic: cannot open server_test_locked\n";
    for words in [
        ["serve", m].as_slice(),
        &["check", m],
        &["upgrade", m],
        &["import", m, "N00E000.hgt"],
    ] {
        assert!(rt; ends(&rt, words, b"count\n", 1, refused));
    }
    drop(held);
    assert!(rt; ends(&rt, &["check", m], b"", 0, b"count 0 commits 1\nseams 0\n"));
    fs::remove_file(&rt, m)?;
    Ok(())
}

#[test]
fn a_real_tile_comes_back(rt: HostRuntime) -> Result<(), Fail> {
    let m = cleared(&rt, "server_test_real");
    let tile = "N01E002.hgt";
    let mut bytes = Vec::new(rt.alloc());
    for i in 0..2_884_802_u32 {
        bytes.push((i % 251) as u8)?;
    }
    let mut wanted = Vec::new(rt.alloc());
    wanted.extend_from_slice(b"OK 2884802\n")?;
    wanted.extend_from_slice(&bytes)?;
    fs::write(&rt, tile, &bytes)?;
    let all = [
        ends(&rt, &["format", m, "1201", "1"], b"", 0, b"OK 0\n"),
        ends(&rt, &["import", m, tile], b"", 0, b"OK 1\n"),
        ends(&rt, &["serve", m], b"export N01E002\n", 0, &wanted),
    ];
    assert_all(&rt, &all, "a real tile comes back");
    fs::remove_file(&rt, m)?;
    fs::remove_file(&rt, tile)?;
    Ok(())
}

// The replies of `table`, and the answers to words that aren't accepted.
#[test]
fn programs(rt: HostRuntime) {
    let all = [
        ends(&rt, &["table", "3", "1"], b"count\n", 0, b"OK 0\n"),
        ends(&rt, &["table", "2", "0"], b"", 1, b"ERR 32 BadSide\n"),
        ends(&rt, &["table", "3602", "1"], b"", 1, b"ERR 32 BadSide\n"),
        ends(
            &rt,
            &["table", "1201", "241"],
            b"",
            1,
            b"ERR 33 BadCapacity\n",
        ),
    ];
    assert_all(&rt, &all, "programs");
    for words in [
        ["table", "3"].as_slice(),
        &["help"],
        &[],
        &["table", "-h"],
        &["serve"],
        &["import", "m"],
        &["import", "m", "--all"],
        &["format", "m", "3"],
        &["format", "m", "3", "x"],
        &["check", "m", "m"],
    ] {
        assert!(rt; ends(&rt, words, b"", 2, b"mosaic: bad arguments\n"));
    }
}

#[test]
fn what_is_no_regular_file(rt: HostRuntime) {
    for (path, line) in [
        (".", b"mosaic: cannot open .\n".as_slice()),
        ("/dev/null", b"mosaic: cannot open /dev/null\n"),
    ] {
        let all = [
            ends(&rt, &["serve", path], b"count\n", 1, line),
            ends(&rt, &["check", path], b"", 1, line),
            ends(&rt, &["upgrade", path], b"", 1, line),
            ends(&rt, &["import", path, "N00E000.hgt"], b"", 1, line),
        ];
        assert_all(&rt, &all, path);
    }
}

#[test]
fn a_file_is_upgraded(rt: HostRuntime) -> Result<(), Fail> {
    let mut files = Files::new(&rt);
    let m = cleared(&rt, "server_test_upgraded");
    let tile = "N00E000.upgraded.hgt";
    fs::write(&rt, tile, &A)?;
    let mut disk = FileDisk::<Brand>::create(&mut files, m, 16)?;
    Store::format_1(&mut disk, 3, 1).map_err(|_| "not formatted")?;
    drop(disk);
    let all = [
        ends(&rt, &["import", m, tile], b"", 0, b"OK 1\n"),
        ends(&rt, &["upgrade", m], b"", 0, b"OK 1\n"),
    ];
    assert_all(&rt, &all, "an upgrade");
    assert_eq!(rt; fs::metadata(&rt, m)?.len(), 90_112);
    let report = b"count 1 commits 3\nN00E000 stale\nseams 0\n";
    let all = [
        ends(&rt, &["check", m], b"", 0, report),
        ends(&rt, &["upgrade", m], b"", 1, b"ERR 35 NotOld\n"),
    ];
    assert_all(&rt, &all, "what was upgraded");
    fs::remove_file(&rt, m)?;
    fs::remove_file(&rt, tile)?;
    Ok(())
}

//! Tests of sessions on files of stores: lines and their replies. In their texts `$` and a letter mean a tile.
use super::{assert_all, cleared, ends};
use std::fs;
use std::test::Fail;
use test_tiles::{Said, input_of, output_of};

/// Whether `serve` on a store's file gives these replies.
pub(super) fn serves(rt: &HostRuntime, path: &str, said: &[Said]) -> bool {
    match (input_of(rt.alloc(), said), output_of(rt.alloc(), said)) {
        (Ok(input), Ok(output)) => ends(rt, &["serve", path], &input, 0, &output),
        _ => false,
    }
}

// The lines only make the store. `check` then opens the file again and reports on it.
#[test]
fn what_check_tells(rt: HostRuntime) -> Result<(), Fail> {
    let m = cleared(&rt, "server_test_check");
    let stepped = [
        ("import N00E000 $G", "OK 1"),
        ("step", "OK N00E000"),
        ("step", "OK none"),
        ("import N00E001 $H", "OK 2"),
        ("step", "OK N00E000"),
        ("step", "OK N00E001"),
        ("step", "OK none"),
    ];
    let both_fresh = b"count 2 commits 6\nN00E000 fresh\nN00E001 fresh\nseams 1\n";
    let walled = [
        ("import N00E002 $D", "OK 3"),
        ("import N00E003 $C", "OK 4"),
        ("step", "OK N00E001"),
        ("step", "OK N00E002"),
        ("step", "OK N00E003"),
        ("wall 5 1 8", "OK 5"),
    ];
    let two_stale =
        b"count 5 commits 12\nN00E000 fresh\nN00E001 fresh\nN00E002 stale\nN00E003 stale\nseams 2\n";
    let all = [
        ends(&rt, &["format", m, "3", "4"], b"", 0, b"OK 0\n"),
        serves(&rt, m, &stepped),
        ends(&rt, &["check", m], b"", 0, both_fresh),
        serves(&rt, m, &walled),
        ends(&rt, &["check", m], b"", 0, two_stale),
    ];
    assert_all(&rt, &all, "what check tells");
    fs::remove_file(&rt, m)?;
    Ok(())
}

#[test]
fn a_sink_outlasts_its_tile_and_the_program(rt: HostRuntime) -> Result<(), Fail> {
    let m = cleared(&rt, "server_test_sink");
    let before = [
        ("import N00E000 $A", "OK 1"),
        ("sink 1 1", "OK 2"),
        ("remove N00E000", "OK 3"),
    ];
    let after = [
        ("sinks", "OK 1\n1 1"),
        ("import N00E000 $A", "OK 4"),
        ("fill 1 1", "OK 1"),
    ];
    let all = [
        ends(&rt, &["format", m, "3", "4"], b"", 0, b"OK 0\n"),
        serves(&rt, m, &before),
        serves(&rt, m, &after),
    ];
    assert_all(&rt, &all, "a sink outlasts its tile and the program");
    fs::remove_file(&rt, m)?;
    Ok(())
}

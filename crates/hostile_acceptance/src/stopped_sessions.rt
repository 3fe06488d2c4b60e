//! Tests of sessions of lines on a disk that fails: from one call on, with a stop then and stops in the following
//! openings; or in one call alone.
use crate::asserting::assert_row;
use crate::served::served_by_store;
use crate::stores::{empty_store, into_disk, known, open, opened};
use disk::{Disk, FaultOnceDisk, FuseDisk, MemDisk, Torn};
use lattice::Refusal;
use std::alloc::{AllocError, Global};
use std::str::from_utf8;
use std::test::Fail;
use store::Store;
use test_tiles::{lines_of, push_line};

/// More calls of the disk than a session makes.
const MANY_CALLS: u64 = 80;

/// What a stop leaves of unsettled gates, and of other unsettled sectors.
const STOPS: [(Torn, Torn); 6] = [
    (Torn::Old, Torn::Old),
    (Torn::New, Torn::New),
    (Torn::Fill(0), Torn::Fill(0)),
    (Torn::Fill(0xa7), Torn::Fill(0xa7)),
    (Torn::Fill(0), Torn::Old),
    (Torn::Fill(0xa7), Torn::Old),
];

/// Lines to a store of two tiles, each with its reply and the number of commands answered `OK` by then, and the replies
/// to `QUESTIONS` after each number of commands.
#[derive(Clone, Copy)]
struct Session {
    shows: &'static str,
    said: &'static [(&'static str, &'static str, u64)],
    left: &'static [[&'static str; 5]],
}

const QUESTIONS: [&str; 5] = [
    "tiles",
    "sinks",
    "elev 1 2",
    "export N00E000",
    "export N00E001",
];

const EMPTY: [&str; 5] = [
    "OK 0",
    "OK 0",
    "ERR 7 Outside",
    "ERR 5 NoTile",
    "ERR 5 NoTile",
];

const WITH_WEST: [&str; 5] = ["OK 1 N00E000", "OK 0", "OK 7", "OK $G", "ERR 5 NoTile"];

const WITH_BOTH: [&str; 5] = ["OK 2 N00E000 N00E001", "OK 0", "OK 7", "OK $G", "OK $H"];

const WITH_SINK: [&str; 5] = [
    "OK 2 N00E000 N00E001",
    "OK 1\n1 1",
    "OK 7",
    "OK $G",
    "OK $H",
];

const WITH_EAST: [&str; 5] = ["OK 1 N00E001", "OK 0", "OK 8", "ERR 5 NoTile", "OK $H"];

const SEAMS: Session = Session {
    shows: "each tile's bytes, and the height where they meet, which is then the other one's",
    said: &[
        ("import N00E000 $G", "OK 1", 1),
        ("import N00E001 $H", "OK 2", 2),
        ("elev 1 2", "OK 7", 2),
        ("export N00E000", "OK $G", 2),
        ("export N00E001", "OK $H", 2),
        ("remove N00E000", "OK 3", 3),
        ("elev 1 2", "OK 8", 3),
    ],
    left: &[EMPTY, WITH_WEST, WITH_BOTH, WITH_EAST],
};

const SINKS: Session = Session {
    shows: "a sink comes and goes, and planes are kept",
    said: &[
        ("import N00E000 $G", "OK 1", 1),
        ("import N00E001 $H", "OK 2", 2),
        ("elev 1 2", "OK 7", 2),
        ("sink 1 1", "OK 3", 3),
        ("step", "OK N00E000", 3),
        ("unsink 1 1", "OK 4", 4),
        ("remove N00E000", "OK 5", 5),
        ("tiles", "OK 1 N00E001", 5),
    ],
    left: &[EMPTY, WITH_WEST, WITH_BOTH, WITH_SINK, WITH_BOTH, WITH_EAST],
};

/// Versions, sessions, and the numbers of their commands.
const ROWS: [(u32, Session, u64); 4] = [(1, SEAMS, 3), (2, SEAMS, 3), (1, SINKS, 5), (2, SINKS, 5)];

/// The replies from a fault on.
const FAILED: &[u8] = b"ERR 20 Device\nERR 22 Failed\nERR 22 Failed\nERR 22 Failed\nERR 22 Failed\n\
ERR 22 Failed\nERR 22 Failed\nERR 22 Failed\n";

fn input_of(alloc: Global, session: &Session) -> Result<Vec<u8>, AllocError> {
    let mut input = Vec::new(alloc);
    for (line, ..) in session.said {
        push_line(&mut input, line)?;
    }
    Ok(input)
}

// The number of commands answered `OK`, if the replies are right up to a fault.
fn told_in(alloc: Global, session: &Session, output: &[u8]) -> Result<u64, Fail> {
    let mut rest = output;
    let mut told = 0;
    for (_, reply, count) in session.said {
        let reply = lines_of(alloc, &[*reply])?;
        if rest.starts_with(&reply) {
            rest = rest.get(reply.len()..).unwrap_or(&[]);
            told = *count;
        }
    }
    if FAILED.starts_with(rest) {
        Ok(told)
    } else {
        let text = from_utf8(rest).unwrap_or("bytes that are no text");
        Err((session.shows, "another reply", text).into())
    }
}

// Serves the lines: the disk afterwards, and the number of commands answered `OK`.
fn serve_on<D: Disk + Drop>(alloc: Global, disk: D, session: &Session) -> Result<(D, u64), Fail> {
    match open(alloc, disk) {
        Ok(store) => {
            let mut store = store;
            let told = told_by(alloc, &mut store, session);
            let disk = into_disk(store);
            Ok((disk, told?))
        }
        Err((_, disk)) => Ok((disk, 0)),
    }
}

// The number of commands that the store answered `OK` in the session.
fn told_by<D: Disk>(alloc: Global, store: &mut Store<D>, session: &Session) -> Result<u64, Fail> {
    let output = served_by_store(alloc, store, &input_of(alloc, session)?, 4096)?;
    told_in(alloc, session, &output)
}

// The number of commands that an opening finds, if they are those answered `OK`, or one more, each whole.
fn commands_found<D: Disk + Drop>(
    alloc: Global,
    disk: D,
    session: &Session,
    told: u64,
) -> Result<(D, u64), Fail> {
    let questions = lines_of(alloc, &QUESTIONS)?;
    let mut store = opened(alloc, disk)?;
    let done = known(&store).count;
    let output = served_by_store(alloc, &mut store, &questions, 4096);
    let disk = into_disk(store);
    let is_told = told == done || told.saturating_add(1) == done;
    if is_left(alloc, session, done, &output?)? && is_told {
        Ok((disk, done))
    } else {
        Err((session.shows, "told and found", told, done).into())
    }
}

// Whether the questions have the right answers after this many commands.
fn is_left(alloc: Global, session: &Session, done: u64, output: &[u8]) -> Result<bool, AllocError> {
    match session.left.get(done as usize) {
        Some(left) => Ok(lines_of(alloc, left)?.as_slice() == output),
        None => Ok(false),
    }
}

// The disk of an empty store of two tiles.
fn empty_disk(alloc: Global, version: u32) -> Result<MemDisk, Fail> {
    Ok(into_disk(empty_store(alloc, version, 3, 2)?))
}

fn stopped(disk: MemDisk, stop: (Torn, Torn)) -> Result<MemDisk, Fail> {
    let mut disk = disk;
    let (gates, others) = stop;
    stop_at(&mut disk, 0, gates)?;
    stop_at(&mut disk, 2, gates)?;
    disk.stop(others)?;
    Ok(disk)
}

fn stop_at(disk: &mut MemDisk, gate: u32, torn: Torn) -> Result<(), AllocError> {
    if gate < disk.sectors() {
        disk.stop_at(gate, torn)
    } else {
        Ok(())
    }
}

// Opens the disk repeatedly, each time up to a stop one call later, until it is open.
fn stopped_in_openings(alloc: Global, disk: MemDisk, stop: (Torn, Torn)) -> Result<MemDisk, Fail> {
    let mut disk = disk;
    for calls in 0..MANY_CALLS {
        match open(alloc, FuseDisk::new(disk, calls)) {
            Ok(store) => return stopped(into_disk(store).into_inner(), stop),
            Err((Refusal::Device, left)) => disk = stopped(left.into_inner(), stop)?,
            Err(_) => return Err("an opening is refused otherwise".into()),
        }
    }
    Err("no opening has calls enough".into())
}

// Makes a stop of this kind after each call. Answers how many commands are answered `OK` if no call fails.
fn stop_after_each_call(
    alloc: Global,
    version: u32,
    session: &Session,
    stop: (Torn, Torn),
) -> Result<u64, Fail> {
    let mut told = 0;
    for calls in 0..MANY_CALLS {
        let fuse = FuseDisk::new(empty_disk(alloc, version)?, calls);
        let (disk, by_then) = serve_on(alloc, fuse, session)?;
        told = by_then;
        let disk = stopped(disk.into_inner(), stop)?;
        let (disk, done) = commands_found(alloc, disk, session, told)?;
        let disk = stopped_in_openings(alloc, disk, stop)?;
        let (_, again) = commands_found(alloc, disk, session, told)?;
        if again != done {
            let found = (done, again);
            return Err(
                (
                    session.shows,
                    version,
                    calls,
                    stop,
                    "found before and after an opening",
                    found,
                )
                    .into(),
            );
        }
    }
    Ok(told)
}

// Makes stops of each kind. Answers whether all commands are answered `OK` whenever no call fails.
fn stop_in_each_way(
    alloc: Global,
    version: u32,
    session: &Session,
    commands: u64,
) -> Result<bool, Fail> {
    let mut are_through = true;
    for stop in STOPS {
        are_through &= stop_after_each_call(alloc, version, session, stop)? == commands;
    }
    Ok(are_through)
}

// Makes a fault in each call. Answers how many commands are answered `OK` if no call fails.
fn fault_in_each_call(alloc: Global, version: u32, session: &Session) -> Result<u64, Fail> {
    let mut told = 0;
    for call in 0..MANY_CALLS {
        let faulty = FaultOnceDisk::new(empty_disk(alloc, version)?, call);
        let (disk, by_then) = serve_on(alloc, faulty, session)?;
        told = by_then;
        commands_found(alloc, disk.into_inner(), session, told)?;
    }
    Ok(told)
}

#[test]
fn what_was_told_is_there_after_a_stop(rt: HostRuntime) -> Result<(), Fail> {
    for (version, session, commands) in ROWS.iter() {
        let are_through = stop_in_each_way(rt.alloc(), *version, session, *commands)?;
        let row = (*version, session.shows);
        assert_row(&rt, are_through, "a session that isn't through", &row);
    }
    Ok(())
}

#[test]
fn what_was_told_is_there_after_a_fault(rt: HostRuntime) -> Result<(), Fail> {
    for (version, session, commands) in ROWS.iter() {
        let told = fault_in_each_call(rt.alloc(), *version, session)?;
        let row = (*version, session.shows, told);
        assert_row(&rt, told == *commands, "a session that isn't through", &row);
    }
    Ok(())
}

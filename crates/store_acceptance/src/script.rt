//! Scripts: texts, and a store's answer to each, one after another. A text is a line of the line language, or one of
//! three words without a line: `seams`, `commits`, and `stale`, which lists the stale tiles as `tiles` lists all. In a
//! text `$` and a letter mean a tile.
use super::fixtures::empty_store;
use disk::{Disk, MemDisk};
use edits::{Bytes, Command};
use engine::{Event, Reply};
use hgt::name_of;
use lattice::Corner;
use lines::{Language, Request, format_reply, request_of};
use serving::{CheckedWriter, Output, serve};
use std::alloc::Global;
use std::process::Abort;
use std::str::from_utf8;
use std::test::Fail;
use store::Store;
use test_tiles::{Said, check_row, expand, lines_of, split_payload};

/// What a session of tiles of side 3 shows, the store's capacity, the lines done first, and its texts with their
/// answers. `acceptance` compares the replies to the lines done first.
pub(crate) struct Session<'a> {
    pub(crate) shows: &'a str,
    pub(crate) capacity: u32,
    pub(crate) before: &'a [&'a str],
    pub(crate) said: &'a [Said<'a>],
}

/// Runs each session on a new store of either version, and compares the answers.
pub(crate) fn check_sessions(
    rt: &impl Abort,
    alloc: Global,
    sessions: &[Session],
) -> Result<(), Fail> {
    for session in sessions {
        check_session(rt, alloc, 1, session)?;
        check_session(rt, alloc, 2, session)?;
    }
    Ok(())
}

fn check_session(
    rt: &impl Abort,
    alloc: Global,
    version: u32,
    session: &Session,
) -> Result<(), Fail> {
    let shows = session.shows;
    let mut store = prepared_store(alloc, version, session)?;
    for (text, wanted) in session.said {
        let answer = answer(alloc, &mut store, text)?;
        let is_right = answer == lines_of(alloc, &[*wanted])?;
        let found = from_utf8(&answer).unwrap_or("bytes that are no text");
        assert!(rt;
            is_right,
            "{shows}, version {version}: {text}: found {found}"
        );
    }
    Ok(())
}

// A new store of this version, after the lines done first.
fn prepared_store(alloc: Global, version: u32, session: &Session) -> Result<Store<MemDisk>, Fail> {
    let mut store = empty_store(alloc, version, session.capacity)?;
    for line in session.before {
        let reply = served(alloc, &mut store, line)?;
        check_row(&(session.shows, version, *line), reply.starts_with(b"OK"))?;
    }
    Ok(store)
}

/// Whether the store gives these answers to the texts, one after another.
pub(crate) fn are_answered<D: Disk>(
    alloc: Global,
    store: &mut Store<D>,
    said: &[Said],
) -> Result<bool, Fail> {
    for (text, wanted) in said {
        if answer(alloc, store, text)? != lines_of(alloc, &[*wanted])? {
            return Ok(false);
        }
    }
    Ok(true)
}

// The store's answer, in the form of a reply.
fn answer<D: Disk>(alloc: Global, store: &mut Store<D>, text: &str) -> Result<Vec<u8>, Fail> {
    let reply = match text.as_bytes() {
        b"seams" => Reply::Count(store.seams()?),
        b"commits" => Reply::Count(store.commits()),
        b"stale" => Reply::Tiles(stale_tiles(alloc, store)?),
        _ => return served(alloc, store, text),
    };
    let mut output = CheckedWriter::new(Vec::new(alloc));
    output.put_reply(&format_reply(alloc, reply));
    match output.has_failed() {
        true => Err("no memory".into()),
        false => Ok(output.into_inner()),
    }
}

fn served<D: Disk>(alloc: Global, store: &mut Store<D>, line: &str) -> Result<Vec<u8>, Fail> {
    let input = lines_of(alloc, &[line])?;
    let mut reader = input.as_slice();
    let mut output = CheckedWriter::new(Vec::new(alloc));
    serve(alloc, &mut reader, &mut output, store)?;
    Ok(output.into_inner())
}

fn stale_tiles<D: Disk>(alloc: Global, store: &mut Store<D>) -> Result<Vec<Corner>, Fail> {
    let mut stale = Vec::new(alloc);
    for corner in &store.tiles()? {
        if store.stale(*corner) {
            stale.push(*corner)?;
        }
    }
    Ok(stale)
}

/// The command that a line asks for.
pub(crate) fn command(alloc: Global, line: &str) -> Result<Command, Fail> {
    let item = expand(alloc, line)?;
    let (line, payload) = split_payload(&item);
    if line.len() > 2048 {
        return Err("no command".into());
    }
    match request_of(Language::Plain, line) {
        Some(Request::Ask(Event::Do(command))) => Ok(command),
        Some(Request::Import { name, .. }) => {
            let corner = name_of(name)?;
            let bytes = Bytes::new(Vec::from_slice(alloc, payload)?);
            Ok(Command::Import { corner, bytes })
        }
        _ => Err("no command".into()),
    }
}

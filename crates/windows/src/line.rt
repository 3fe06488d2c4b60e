//! Questions by lines.
ghost use Rattle.std.specs.Prelude.{◌≡◌, ◌+◌, ◌≤◌, ◌++◌, min, length, take, MatchResult};
ghost use Rattle.windows.specs.Lines.{AsksOnly, IsNoQuestion, IsPut, IsReplied};

use engine::{Engine, Event};
use lattice::Refusal;
use lines::{Language, Request, Rest, Text, format_reply, only_question, request_of};
use std::alloc::Global;

/// Asks the question of a line without its LF, and writes the bytes of its reply to the slice, as a session does.
/// Answers their number. If that is more than the slice has, its contents aren't a reply.
///
/// A line that isn't a question is refused before anything is asked: with BadLine for a command, a step, or a line
/// outside the language; with BadName for a word that names no tile.
pub fn ask<E: Engine>(
    alloc: Global,
    engine: &mut E,
    line: &[u8],
    into: &mut [u8],
) -> Result<usize, Refusal>
    ensures { MatchResult result (λ count. IsReplied E.Engine engine.old engine.new line.now into.new count) (λ r. IsNoQuestion line.now r
        × (engine.new ≡ engine.old)) }
{
    let event = question_of(line)?;
    let text = format_reply(alloc, engine.answer(&event));
    Ok(put(&text, into))
}

// The event that the line asks for.
fn question_of(line: &[u8]) -> Result<Event, Refusal>
    ensures { MatchResult result (AsksOnly line.now) (IsNoQuestion line.now) }
{
    if line.len() > MOST_BYTES {
        return Err(Refusal::BadLine);
    }
    match request_of(Language::Tiles, line) {
        Some(Request::Ask(event)) => only_question(event),
        Some(Request::BadName) => Err(Refusal::BadName),
        Some(Request::Import { .. }) => Err(Refusal::BadLine),
        Some(Request::Quit) => Err(Refusal::BadLine),
        None => Err(Refusal::BadLine),
    }
}

/// The length of the longest line, in bytes.
const MOST_BYTES: usize = 2048;

// Puts the bytes of the text.
fn put(text: &Text, into: &mut [u8]) -> usize
    ensures { IsPut text.now into.new result }
{
    let (rest, bytes) = text.parts();
    let at = put_rest(rest, into);
    put_bytes(bytes, at, into)
}

// Writes the rest of a text, each part once it is made.
fn put_rest(mut rest: Rest<'_>, into: &mut [u8]) -> usize
    ensures { IsPut rest.entry into.new result }
{
    let mut at = 0;
    while !rest.is_made() {
        let part = rest.next_part();
        at = put_bytes(part.as_slice(), at, into);
    }
    at
}

// Writes bytes at an index of the slice, if there is room.
fn put_bytes(bytes: &[u8], at: usize, into: &mut [u8]) -> usize
    ensures counted { result ≡ min (at + length bytes.now) 18446744073709551615 }
    ensures put { at + length bytes.now ≤ length into.old
        → take (at + length bytes.now) into.new ≡ take at into.old ++ bytes.now }
{
    let to = at.saturating_add(bytes.len());
    if to <= into.len() {
        into[at..to].copy_from_slice(bytes);
    }
    to
}

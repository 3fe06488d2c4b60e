//! The text of an answer.
ghost use Rattle.std.specs.Prelude.{◌≡◌, MatchResult};
ghost use Rattle.engine.specs.declared.event.Reply.TheVariants as answers;
ghost use Rattle.lines.specs.Replies.{refusal_text};
ghost use Rattle.lines.specs.Telling.{Tells, bytes_text, text_of};

use crate::counts::count_bytes;
use crate::text::Text;
use engine::Reply;
use hgt::bytes_of;
use lattice::{Corner, Height, Refusal};
use std::alloc::{AllocError, Global};

/// The text of this reply. Those of levels and of upstream counts take memory for their bytes: if it is refused, the
/// text is `ERR 21 NoMemory`.
pub fn format_reply(alloc: Global, reply: Reply) -> Text
    ensures { Tells reply result }
{
    match reply {
        Reply::Done(count) | Reply::Count(count) => Text::number(count),
        Reply::Elevation(height) => tell_height(height),
        Reply::Fill(level) => Text::number(level),
        Reply::Direction(code) => Text::number(code),
        Reply::Trace(points) | Reply::Sinks(points) => Text::path(points),
        Reply::Watershed(runs) => Text::runs(runs),
        Reply::Export(bytes) | Reply::Directions(bytes) => Text::bytes(bytes),
        Reply::Levels(levels) => tell_bytes(bytes_of(alloc, levels.as_slice())),
        Reply::Upstream(counts) => tell_bytes(count_bytes(alloc, counts.as_slice())),
        Reply::Tiles(corners) => Text::names(corners),
        Reply::Stepped(tile) => tell_step(tile),
        Reply::Info(info) => Text::info(&info),
        Reply::Reopened => Text::done(),
        Reply::Refused(refusal) => Text::refused(refusal),
    }
}

/// The reply with the bytes of a whole tile, or NoMemory.
fn tell_bytes(bytes: Result<Vec<u8>, AllocError>) -> Text
    ensures { MatchResult bytes (λ made. result ≡ bytes_text made.items) (λ _. result ≡ refusal_text Refusal.NoMemory) }
{
    match bytes {
        Ok(bytes) => Text::bytes(bytes),
        Err(_) => Text::refused(Refusal::NoMemory),
    }
}

/// The reply with a point's height; a point outside the mosaic is a refusal.
fn tell_height(height: Height) -> Text
    ensures { result ≡ text_of (answers.Elevation height) }
{
    match height {
        Height::Outside => Text::refused(Refusal::Outside),
        Height::Void => Text::void(),
        Height::At(metres) => Text::number(metres),
    }
}

/// The reply to a step: the name of its tile, or `none`.
fn tell_step(tile: Option<Corner>) -> Text
    ensures { result ≡ text_of (answers.Stepped tile) }
{
    match tile {
        Some(corner) => Text::name(corner),
        None => Text::none(),
    }
}

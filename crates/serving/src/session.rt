//! Serves items, one after another: each is read, answered, and its reply written.
ghost use Rattle.std.specs.Prelude.{◌≡◌, ◌<◌, List, [], Ok, Err, OnOk};
ghost use Rattle.engine.specs.Runs.{last_of};
ghost use Rattle.lines.specs.Ahead.{IsRest, to_come, weight};
ghost use Rattle.lines.specs.declared.language.Language.TheVariants.{Plain};
ghost use Rattle.serving.specs.Moments.{GoesInTurn, at_first};
ghost use Rattle.serving.specs.Outputs.{HasLeft, TellsFailure};
ghost use Rattle.serving.specs.Promises.{Answers, Serves};
ghost use Rattle.serving.specs.Served.{Outcome, ReadsNoFurther};
ghost use Rattle.serving.specs.Session.{EndsReading, Steps};

use crate::answering::Responder;
use crate::output::Output;
use crate::reading::{is_last, is_over, read_item};
use engine::Engine;
use lines::{Ahead, Language, Line, read_line};
use std::alloc::Global;
use std::io::Read;
use thiserror::Error;

/// Which side of the session failed.
#[derive(Clone, Copy, Debug, PartialEq, Eq, Error)]
pub enum ServeFault {
    /// A read failed, or 2^64 - 1 reads were made.
    #[error("input fault")]
    Input,
    /// A write failed or took no byte, or a flush failed.
    #[error("output fault")]
    Output,
}

/// Whether the session goes on.
#[derive(Clone, Copy, Debug, PartialEq, Eq)]
enum Next {
    More,
    End,
}

/// Reads an item, has it answered and writes the reply. No read is made once the item's end has come.
fn step<R: Read, O: Output, A: Responder>(
    alloc: Global,
    language: Language,
    ahead: &mut Ahead,
    line: &mut Line,
    reader: &mut R,
    writer: &mut O,
    responder: &mut A,
) -> Result<Next, ServeFault>
    ensures calls { (after : List A)
        × ((last_of responder.old after ≡ responder.new)
        × Steps language A.responded (to_come ahead.old (R.remaining reader.old)) (to_come ahead.new (R.remaining reader.new)) (O.stream writer.old).contents (O.stream writer.new).contents responder.old after result) }
    ensures output { TellsFailure (O.stream writer.old) (O.stream writer.new) result }
    ensures left { OnOk result (HasLeft (O.stream writer.old) (O.stream writer.new)) }
    ensures end { result ≡ Ok Next.End
        → EndsReading language (to_come ahead.old (R.remaining reader.old)) ahead.new.bytes (R.remaining reader.new) }
    ensures rest { result ≡ Ok Next.More → IsRest ahead.new }
    ensures spent { result ≡ Ok Next.More → weight ahead.new < weight ahead.old }
    ensures none_ahead { result ≡ Err ServeFault.Input → ahead.new.bytes ≡ [] }
{
    let payload_len = responder.payload_len();
    let Ok(fed) = read_line(ahead, reader, line) else {
        return Err(ServeFault::Input);
    };
    if is_over(fed, line) {
        return Ok(Next::End);
    }
    let Ok(item) = read_item(alloc, language, payload_len, fed, line, ahead, reader) else {
        return Err(ServeFault::Input);
    };
    let next = if is_last(&item) {
        Next::End
    } else {
        Next::More
    };
    let reply = responder.respond(alloc, item);
    writer.put_reply(&reply);
    if writer.has_failed() {
        return Err(ServeFault::Output);
    }
    Ok(next)
}

/// Answers the reader's items, one after another, up to the end of its bytes or `quit`. Nothing is read after the line
/// `quit`.
///
/// It doesn't matter how the reader cuts the bytes. A fault leaves the accepted commands accepted. After `Input` the
/// replies to all items read whole are written; after `Output` a prefix of the replies.
///
/// Each item that is an event is one call of the engine, and its reply is that call's answer. A power cut at any moment
/// since the reply to an item leaves the contents after that item or a later one, or those of the commit then in doubt:
/// what was acknowledged stays.
///
/// On any disk, honest or not, `OK` and a number is written for a command only if the engine answered so. A fault of
/// the disk is written as `ERR 20 Device`. After it each event but `count` gets `ERR 22 Failed`.
///
/// The result is `Output` exactly if a write or a flush of the output has failed. Otherwise each reply is flushed
/// before the next item is read, and all are at the end. After an item's end no further read is made: the buffer then
/// has the rest of the read that gave its end.
pub fn serve<R: Read, O: Output, E: Engine>(
    alloc: Global,
    reader: &mut R,
    writer: &mut O,
    engine: &mut E,
) -> Result<(), ServeFault>
    ensures calls { (engines : List E)
        × ((last_of engine.old engines ≡ engine.new)
        × Serves E.Engine Plain (R.remaining reader.old) (R.remaining reader.new) (O.stream writer.old).contents (O.stream writer.new).contents engine.old engines result) }
    ensures end { OnOk result (ReadsNoFurther Plain (R.remaining reader.old) (R.remaining reader.new)) }
    ensures turns { GoesInTurn (Answers E.Engine) Plain R.remaining O.stream (at_first reader.old writer.old engine.old) reader.new writer.new engine.new result }
    ensures output { TellsFailure (O.stream writer.old) (O.stream writer.new) result }
    ensures left { OnOk result (HasLeft (O.stream writer.old) (O.stream writer.new)) }
{
    serve_lines(alloc, Language::Plain, reader, writer, engine)
}

/// Answers items of this language, as [`serve`] does those of the plain one.
pub fn serve_lines<R: Read, O: Output, E: Engine>(
    alloc: Global,
    language: Language,
    reader: &mut R,
    writer: &mut O,
    engine: &mut E,
) -> Result<(), ServeFault>
    ensures calls { (engines : List E)
        × ((last_of engine.old engines ≡ engine.new)
        × Serves E.Engine language (R.remaining reader.old) (R.remaining reader.new) (O.stream writer.old).contents (O.stream writer.new).contents engine.old engines result) }
    ensures end { OnOk result (ReadsNoFurther language (R.remaining reader.old) (R.remaining reader.new)) }
    ensures turns { GoesInTurn (Answers E.Engine) language R.remaining O.stream (at_first reader.old writer.old engine.old) reader.new writer.new engine.new result }
    ensures output { TellsFailure (O.stream writer.old) (O.stream writer.new) result }
    ensures left { OnOk result (HasLeft (O.stream writer.old) (O.stream writer.new)) }
{
    serve_items(alloc, language, reader, writer, engine)
}

/// Has the items that the reader gives answered, one after another, as [`serve`] does.
pub fn serve_items<R: Read, O: Output, A: Responder>(
    alloc: Global,
    language: Language,
    reader: &mut R,
    writer: &mut O,
    responder: &mut A,
) -> Result<(), ServeFault>
    ensures calls { (after : List A)
        × ((last_of responder.old after ≡ responder.new)
        × Outcome language A.responded (R.remaining reader.old) (R.remaining reader.new) (O.stream writer.old).contents (O.stream writer.new).contents responder.old after result) }
    ensures end { OnOk result (ReadsNoFurther language (R.remaining reader.old) (R.remaining reader.new)) }
    ensures turns { GoesInTurn A.responded language R.remaining O.stream (at_first reader.old writer.old responder.old) reader.new writer.new responder.new result }
    ensures output { TellsFailure (O.stream writer.old) (O.stream writer.new) result }
    ensures left { OnOk result (HasLeft (O.stream writer.old) (O.stream writer.new)) }
{
    let mut ahead = Ahead::new(alloc);
    let mut line = Line::new();
    'items: loop {
        match step(
            alloc, language, &mut ahead, &mut line, reader, writer, responder,
        ) {
            Ok(Next::More) => {}
            Ok(Next::End) => return Ok(()),
            Err(fault) => return Err(fault),
        }
    }
}

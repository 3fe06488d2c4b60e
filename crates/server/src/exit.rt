//! How the program ends: its last line, and its exit status.
ghost use Rattle.std.specs.Prelude.{◌≡◌, ◌++◌, ℕ, Err, IfOk, List, string_bytes};
ghost use Rattle.engine.specs.Engines.{items_in};
ghost use Rattle.lines.specs.Replies.{line_of};
ghost use Rattle.server.specs.Endings.{EndsAnswering, EndsReplying, EndsSession, IsShown, Tells, TellsRefusal, count_line, fault_line};
ghost use Rattle.serving.specs.Outputs.{HasFailed, Puts, Stream};

use lattice::Refusal;
use lines::Text;
use serving::{Output, ServeFault};
use std::alloc::{AllocError, Global};

/// The exit status if all was done.
const DONE: u8 = 0;

/// The exit status after a refusal or the failure of a stream.
pub const REFUSED: u8 = 1;

/// The exit status for words that the program doesn't accept.
pub const BAD_WORDS: u8 = 2;

/// Ends a session, and answers the exit status.
pub fn end_session<O: Output>(writer: &mut O, served: Result<(), ServeFault>) -> u8
    ensures { (served ≡ Err ServeFault.Output → HasFailed (O.stream writer.old))
        → EndsSession served (O.stream writer.old) (O.stream writer.new) result }
{
    match served {
        Ok(()) => reply_text(writer, b""),
        Err(fault) => end_fault(writer, fault),
    }
}

/// Writes that a store was made, or why it wasn't, and answers the exit status.
pub(crate) fn end_format<O: Output>(writer: &mut O, answer: Result<(), Refusal>) -> u8
    ensures { EndsAnswering (λ _. count_line 0) answer (O.stream writer.old) (O.stream writer.new) result }
{
    match answer {
        Ok(()) => reply(writer, Text::number(0_u64)),
        Err(refusal) => refuse(writer, refusal),
    }
}

/// Writes the number of accepted commands, or a refusal, and answers the exit status.
pub fn end_command<O: Output>(writer: &mut O, answer: Result<u64, Refusal>) -> u8
    ensures { EndsAnswering count_line answer (O.stream writer.old) (O.stream writer.new) result }
{
    match answer {
        Ok(count) => reply(writer, Text::number(count)),
        Err(refusal) => refuse(writer, refusal),
    }
}

/// Writes a report or the refusal, and answers the exit status.
pub(crate) fn end_report<O: Output>(writer: &mut O, answer: Result<Vec<u8>, Refusal>) -> u8
    ensures { EndsAnswering (λ text. text) (items_in answer) (O.stream writer.old) (O.stream writer.new) result }
{
    match answer {
        Ok(text) => reply_text(writer, text.as_slice()),
        Err(refusal) => refuse(writer, refusal),
    }
}

/// Writes a reply, and answers the exit status.
pub(crate) fn reply<O: Output>(writer: &mut O, reply: Text) -> u8
    ensures { EndsReplying reply (O.stream writer.old) (O.stream writer.new) result }
{
    writer.put_reply(&reply);
    end_writing(writer)
}

/// Writes a reply of any number of lines, and answers the exit status.
pub(crate) fn reply_text<O: Output>(writer: &mut O, text: &[u8]) -> u8
    ensures { EndsReplying text.now (O.stream writer.old) (O.stream writer.new) result }
{
    writer.put(text);
    end_writing(writer)
}

/// Reports a write that failed, and answers the exit status.
fn end_writing<O: Output>(writer: &mut O) -> u8
    ensures { (was : Stream) (text : List ℕ) → Puts was (O.stream writer.old) text
        → EndsReplying text was (O.stream writer.new) result }
{
    if writer.has_failed() {
        return end_fault(writer, ServeFault::Output);
    }
    DONE
}

/// The line that names the stream that failed.
fn fault_line(fault: ServeFault) -> &'static [u8]
    ensures { result.now ≡ fault_line fault }
{
    match fault {
        ServeFault::Input => b"mosaic: input fault\n",
        ServeFault::Output => b"mosaic: output fault\n",
    }
}

/// Writes a refusal, and answers the exit status.
pub fn refuse<O: Output>(writer: &mut O, refusal: Refusal) -> u8
    ensures { TellsRefusal refusal (O.stream writer.old) (O.stream writer.new) result }
{
    writer.put_reply(&Text::refused(refusal));
    REFUSED
}

/// Writes which stream failed, and answers the exit status.
pub fn end_fault<O: Output>(writer: &mut O, fault: ServeFault) -> u8
    ensures status { result ≡ 1 }
    ensures line { Puts (O.stream writer.old) (O.stream writer.new) (fault_line fault) }
{
    end_with(writer, fault_line(fault), REFUSED)
}

/// Writes the program's last line.
pub(crate) fn end_with<O: Output>(writer: &mut O, line: &[u8], status: u8) -> u8
    ensures status { result ≡ status }
    ensures line { Puts (O.stream writer.old) (O.stream writer.new) line.now }
{
    writer.put(line);
    status
}

/// Writes a one-line message about a path, and answers the exit status.
pub(crate) fn write_message<O: Output>(
    alloc: Global,
    writer: &mut O,
    words: &[u8],
    path: &str,
) -> u8
    ensures { Tells words.now path.now (O.stream writer.old) (O.stream writer.new) result }
{
    match line_about(alloc, words, path) {
        Ok(line) => end_with(writer, line.as_slice(), REFUSED),
        Err(_) => refuse(writer, Refusal::NoMemory),
    }
}

fn line_about(alloc: Global, words: &[u8], path: &str) -> Result<Vec<u8>, AllocError>
    ensures { IfOk result (λ line. (about : List ℕ) × (IsShown path.now about
        × (line.items ≡ line_of (words.now ++ about)))) }
{
    let about = shown(alloc, path)?;
    let mut line = Vec::from_slice(alloc, words)?;
    line.extend_from_slice(about.as_bytes())?;
    line.push(b'\n')?;
    Ok(line)
}

/// The path without control characters: it may have a line end in it, or a terminal's command.
fn shown(alloc: Global, path: &str) -> Result<String, AllocError>
    ensures { IfOk result (λ text. IsShown path.now (string_bytes text)) }
{
    path.chars()
        .map(|char| if char.is_control() { '?' } else { char })
        .collect(alloc)
}

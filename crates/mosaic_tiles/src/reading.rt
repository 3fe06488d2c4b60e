//! Sessions of questions about a store that another program may be writing.
ghost use Rattle.std.specs.Prelude.{◌≡◌, ℕ, List, MatchOption, map, string_bytes};
ghost use Rattle.mosaic_tiles.specs.Reading.{AsksToRead};
ghost use Rattle.mosaic_tiles.specs.ReadSessions.{ReadsStore};

use crate::store_reader::{OpenToRead, StoreReader, answer_text};
use engine::Event;
use lines::Language;
use server::{
    MakeFault, Output, REFUSED, ServeFault, end_fault, end_session, has_option, tell_fault,
};
use serving::serve_items;
use std::io::Read;

/// Answers questions about the store of a file that another program may be writing, and answers the exit status. First it
/// writes how many commands were accepted.
pub fn read_store<D: OpenToRead, R: Read, O: Output>(
    rt: &HostRuntime,
    path: &str,
    reader: &mut R,
    writer: &mut O,
) -> u8
    ensures { ReadsStore D.Disk path.now (R.remaining reader.old) (R.remaining reader.new) (O.stream writer.old) (O.stream writer.new) result }
{
    let mut store = StoreReader::<D>::new(rt, path);
    if !store.is_there() {
        return tell_fault(rt.alloc(), path, MakeFault::Closed, writer);
    }
    let first = store.ask(&Event::Count);
    let opened = first.is_ok();
    writer.put_reply(&answer_text(rt.alloc(), first));
    if writer.has_failed() {
        return end_fault(writer, ServeFault::Output);
    }
    if !opened {
        return REFUSED;
    }
    let served = serve_items(rt.alloc(), Language::Tiles, reader, writer, &mut store);
    end_session(writer, served)
}

/// The path that the words after the program's own name ask to read questions for, if they ask for that.
pub fn reading_in(words: &[String]) -> Option<&str>
    ensures { let asks = AsksToRead (map string_bytes words.now) in
        MatchOption result ((path : List ℕ) → asks path → ⊥) (λ path. asks path.now) }
{
    if has_option(words) {
        return None;
    }
    match words {
        [read, path] if read.as_str() == "read" => Some(path.as_str()),
        _ => None,
    }
}

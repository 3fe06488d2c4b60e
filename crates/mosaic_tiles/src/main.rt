//! The program `mosaic-tiles`: it does what `mosaic` does, over lines that ask about all samples of a tile too, writes such tiles as
//! files, and answers questions about a store that another program may be writing.
#![tactic(auto)]

ghost use Rattle.std.specs.Prelude.{◌≡◌, map, string_bytes};
ghost use Rattle.lines.specs.declared.language.Language.TheVariants.{Tiles};
ghost use Rattle.server.specs.Places.{Accessing};
ghost use Rattle.server.specs.Program.{Runs};
ghost use Rattle.mosaic_tiles.specs.Program.{DoesAsked, ReadsOrRuns};
ghost use Rattle.mosaic_tiles.specs.ReadSessions.{ReadsStore};

mod layers;
mod reading;
mod store_reader;
#[cfg(test)]
mod tests;
mod writing;

use crate::layers::writing_in;
use crate::reading::{read_store, reading_in};
use crate::store_reader::OpenToRead;
use crate::writing::write_tiles;
use disk::{Files, SnapshotFile};
use server::{CheckedWriter, FilePlaces, Language, Output, Places, program_in};
use std::io::Read;
use std::marker::Brand;
use std::process::ExitCode;
use std::{env, io};

fn main(rt: HostRuntime) -> ExitCode {
    let mut reader = rt.reader();
    let mut writer = CheckedWriter::new(io::writer(&rt));
    let mut places = FilePlaces::<Brand>::new(Files::new(&rt));
    let status = match server::words(rt.alloc(), env::args(&rt)) {
        Ok(words) => run::<SnapshotFile<Brand>, _, _, _>(
            &rt,
            &mut places,
            &words,
            &mut reader,
            &mut writer,
        ),
        Err(_) => server::no_room(&mut writer),
    };
    ExitCode::from(status)
}

/// Does what the words after the program's own name ask for, and answers the exit status.
fn run<D: OpenToRead, P: Places, R: Read, O: Output>(
    rt: &HostRuntime,
    places: &mut P,
    words: &[String],
    reader: &mut R,
    writer: &mut O,
) -> u8
    ensures { DoesAsked (map string_bytes words.now) ((places.new ≡ places.old) × (R.remaining reader.new ≡ R.remaining reader.old)) (O.stream writer.old) (O.stream writer.new) result
        (ReadsOrRuns (map string_bytes words.now) (places.new ≡ places.old) (λ path. ReadsStore D.Disk path (R.remaining reader.old) (R.remaining reader.new) (O.stream writer.old) (O.stream writer.new) result)
        (Accessing P.accessed places.old places.new (λ accesses. Runs P.File.Disk Tiles (map string_bytes words.now) accesses (R.remaining reader.old) (R.remaining reader.new) (O.stream writer.old) (O.stream writer.new) result))) }
{
    match writing_in(words) {
        Some(asked) => write_tiles(rt, &asked, writer),
        None => read_or_run::<D, P, R, O>(rt, places, words, reader, writer),
    }
}

/// Reads questions for a store, where the words ask for that; else does what `mosaic` does.
fn read_or_run<D: OpenToRead, P: Places, R: Read, O: Output>(
    rt: &HostRuntime,
    places: &mut P,
    words: &[String],
    reader: &mut R,
    writer: &mut O,
) -> u8
    ensures { ReadsOrRuns (map string_bytes words.now) (places.new ≡ places.old) (λ path. ReadsStore D.Disk path (R.remaining reader.old) (R.remaining reader.new) (O.stream writer.old) (O.stream writer.new) result)
        (Accessing P.accessed places.old places.new (λ accesses. Runs P.File.Disk Tiles (map string_bytes words.now) accesses (R.remaining reader.old) (R.remaining reader.new) (O.stream writer.old) (O.stream writer.new) result)) }
{
    match reading_in(words) {
        Some(path) => read_store::<D, R, O>(rt, path, reader, writer),
        None => program_in(rt.alloc(), Language::Tiles, places, words, reader, writer),
    }
}

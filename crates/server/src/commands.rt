//! The program `mosaic`.
ghost use Rattle.std.specs.Prelude.{◌≡◌, IfErr, IfOk, List, map};
ghost use Rattle.lines.specs.declared.language.Language.TheVariants.{Plain};
ghost use Rattle.store.specs.Formatted.{format_2};
ghost use Rattle.store.specs.Sessions.{Session};
ghost use Rattle.server.specs.Endings.{TellsRefusal};
ghost use Rattle.server.specs.Places.{Accessing};
ghost use Rattle.server.specs.Program.{CarriesOut, Runs, RunsAs, RunsFormat, RunsImport, RunsTable, TellsFault};
ghost use Rattle.server.specs.Sizes.{IsRefusedFor, IsTaken};

use crate::disks::{check_store, grow_and_upgrade, import_tile, make_store, serve_store};
use crate::exit::{BAD_WORDS, end_session, end_with, refuse, write_message};
use crate::places::{MakeFault, Places};
use crate::{ArgumentFault, Arguments};
use hgt::file_name;
use lattice::{MOST_TILES, Refusal, Side};
use lines::Language;
use page_codec::{Format, Version};
use serving::{Output, serve_lines};
use std::alloc::Global;
use std::convert::AsStr;
use std::io::Read;
use table_engine::TableEngine;

/// The result of running the program.
#[derive(Drop)]
pub struct Exit<D> {
    /// The exit status.
    pub status: u8,
    /// The disk that was made or opened, if it is still open.
    pub disk: Option<D>,
}

/// Does what the words after the program's name ask for, and answers the exit status.
///
/// `format PATH SIDE CAPACITY` makes a store's file of the least size. `import PATH FILE` imports one HGT file into it.
/// `serve PATH` serves lines on it. `check PATH` reports on it. `upgrade PATH` upgrades it to the second version.
/// `table SIDE CAPACITY` serves lines on an empty mosaic in memory. With status 1 one line says what was refused, or
/// which file or stream failed. Status 2 goes with the line `mosaic: bad arguments`. The status is 0 exactly if all was
/// done and no write or flush has failed.
///
/// It works on the files of these places, which the caller picks. It calls [`carry_out`], and last has the places close
/// the disk that this returns.
pub fn program<P: Places, S: AsStr, R: Read, O: Output>(
    alloc: Global,
    places: &mut P,
    words: &[S],
    reader: &mut R,
    writer: &mut O,
) -> u8
    ensures { Accessing P.accessed places.old places.new (λ accesses. Runs P.File.Disk Plain (map S.text words.now) accesses (R.remaining reader.old) (R.remaining reader.new) (O.stream writer.old) (O.stream writer.new) result) }
{
    program_in(alloc, Language::Plain, places, words, reader, writer)
}

/// Does what the words ask for, as [`program`] does, with lines of this language.
pub fn program_in<P: Places, S: AsStr, R: Read, O: Output>(
    alloc: Global,
    language: Language,
    places: &mut P,
    words: &[S],
    reader: &mut R,
    writer: &mut O,
) -> u8
    ensures { Accessing P.accessed places.old places.new (λ accesses. Runs P.File.Disk language (map S.text words.now) accesses (R.remaining reader.old) (R.remaining reader.new) (O.stream writer.old) (O.stream writer.new) result) }
{
    let Exit { status, disk } = carry_out(alloc, language, places, words, reader, writer);
    if let Some(disk) = disk {
        places.close(disk);
    }
    status
}

/// Does what the words ask for, as [`program`] does, with lines of this language and the files of these places. Returns
/// the disk that it worked on.
///
/// It asks for the files that the words name, in this order, each at most once, and for no others. The contract is
/// about the disk that the store's path gave, which is returned, and the bytes that the tile's path gave. There is no
/// disk if the words ask for none, or if none could be made or opened; then a line says so.
pub fn carry_out<P: Places, S: AsStr, R: Read, O: Output>(
    alloc: Global,
    language: Language,
    places: &mut P,
    words: &[S],
    reader: &mut R,
    writer: &mut O,
) -> Exit<P::File>
    ensures { Accessing P.accessed places.old places.new (λ accesses. (sessions : List (Session P.File.Disk))
        × CarriesOut P.File.Disk language (map S.text words.now) accesses (R.remaining reader.old) (R.remaining reader.new) (O.stream writer.old) (O.stream writer.new) result.disk sessions result.status) }
{
    match Arguments::parse(alloc, words) {
        Ok(arguments) => run(alloc, language, places, arguments, reader, writer),
        Err(ArgumentFault::Bad) => Exit {
            status: end_with(writer, b"mosaic: bad arguments\n", BAD_WORDS),
            disk: None,
        },
        Err(ArgumentFault::NoMemory) => Exit {
            status: no_room(writer),
            disk: None,
        },
    }
}

/// Runs the subcommand.
fn run<P: Places, R: Read, O: Output>(
    alloc: Global,
    language: Language,
    places: &mut P,
    arguments: Arguments<'_>,
    reader: &mut R,
    writer: &mut O,
) -> Exit<P::File>
    ensures { Accessing P.accessed places.old places.new (λ accesses. (sessions : List (Session P.File.Disk))
        × RunsAs P.File.Disk language arguments.entry accesses (R.remaining reader.old) (R.remaining reader.new) (O.stream writer.old) (O.stream writer.new) result.disk sessions result.status) }
{
    match arguments {
        Arguments::Format {
            path,
            side,
            capacity,
        } => format(alloc, places, path, side, capacity, writer),
        Arguments::Import { path, tile } => import(alloc, places, path, tile, writer),
        Arguments::Serve { path } => match places.open(path) {
            Some(disk) => exit_on(serve_store(alloc, language, disk, reader, writer)),
            None => not_opened(alloc, path, writer),
        },
        Arguments::Table { side, capacity } => Exit {
            status: table(alloc, language, side, capacity, reader, writer),
            disk: None,
        },
        Arguments::Check { path } => match places.open(path) {
            Some(disk) => exit_on(check_store(alloc, disk, writer)),
            None => not_opened(alloc, path, writer),
        },
        // The file stays open and locked while it is lengthened and upgraded.
        Arguments::Upgrade { path } => match places.open(path) {
            Some(disk) => exit_on(grow_and_upgrade(alloc, disk, writer)),
            None => not_opened(alloc, path, writer),
        },
    }
}

/// Makes the file of a store without tiles.
fn format<P: Places, O: Output>(
    alloc: Global,
    places: &mut P,
    path: &str,
    side: u32,
    capacity: u32,
    writer: &mut O,
) -> Exit<P::File>
    ensures { Accessing P.accessed places.old places.new (λ accesses. RunsFormat P.File.Disk path.now side capacity accesses (O.stream writer.old) (O.stream writer.new) result.disk result.status) }
{
    let format = match format_of(side, capacity) {
        Ok(format) => format,
        Err(refusal) => {
            return Exit {
                status: refuse(writer, refusal),
                disk: None,
            };
        }
    };
    match places.make(path, format.sectors()) {
        Ok(disk) => exit_on(make_store(disk, side, capacity, writer)),
        Err(fault) => Exit {
            status: tell_fault(alloc, path, fault, writer),
            disk: None,
        },
    }
}

/// The format of a new store.
fn format_of(side: u32, capacity: u32) -> Result<Format, Refusal>
    ensures taken { IfOk result (λ format. IsTaken side capacity
        × (format ≡ format_2 side capacity)) }
    ensures refused { IfErr result (IsRefusedFor side capacity) }
{
    Format::new(Version::Two, side, capacity)
}

/// Imports a tile's file into the store in a file. The name of the tile's file is tested first.
fn import<P: Places, O: Output>(
    alloc: Global,
    places: &mut P,
    path: &str,
    tile: &str,
    writer: &mut O,
) -> Exit<P::File>
    ensures { Accessing P.accessed places.old places.new (λ accesses. (sessions : List (Session P.File.Disk))
        × RunsImport P.File.Disk path.now tile.now accesses (O.stream writer.old) (O.stream writer.new) result.disk sessions result.status) }
{
    let Ok(corner) = file_name(tile.as_bytes()) else {
        return Exit {
            status: refuse(writer, Refusal::BadName),
            disk: None,
        };
    };
    match places.open(path) {
        Some(disk) => exit_on(import_tile(alloc, places, disk, corner, tile, writer)),
        None => not_opened(alloc, path, writer),
    }
}

/// The exit status and the disk of work on a disk.
fn exit_on<D>(work: (D, u8)) -> Exit<D>
    ensures status { result.status ≡ work.1 }
    ensures disk { result.disk ≡ Some work.0 }
{
    let (disk, status) = work;
    Exit {
        status,
        disk: Some(disk),
    }
}

/// Writes that the store's file can't be opened.
fn not_opened<D, O: Output>(alloc: Global, path: &str, writer: &mut O) -> Exit<D>
    ensures none { result.disk ≡ None }
    ensures told { TellsFault path.now MakeFault.Closed (O.stream writer.old) (O.stream writer.new) result.status }
{
    Exit {
        status: tell_fault(alloc, path, MakeFault::Closed, writer),
        disk: None,
    }
}

/// Writes why there is no store's file at the path, and answers the exit status.
pub fn tell_fault<O: Output>(alloc: Global, path: &str, fault: MakeFault, writer: &mut O) -> u8
    ensures { TellsFault path.now fault (O.stream writer.old) (O.stream writer.new) result }
{
    match fault {
        MakeFault::Exists => write_message(alloc, writer, b"mosaic: exists ", path),
        MakeFault::Closed => write_message(alloc, writer, b"mosaic: cannot open ", path),
    }
}

/// Writes the line `ERR 21 NoMemory`, and answers the exit status: for a program without memory for its words.
pub fn no_room<O: Output>(writer: &mut O) -> u8
    ensures { TellsRefusal Refusal.NoMemory (O.stream writer.old) (O.stream writer.new) result }
{
    refuse(writer, Refusal::NoMemory)
}

/// Serves lines on an empty mosaic in memory, if this side and capacity are allowed.
fn table<R: Read, O: Output>(
    alloc: Global,
    language: Language,
    side: u32,
    capacity: u32,
    reader: &mut R,
    writer: &mut O,
) -> u8
    ensures { RunsTable language side capacity (R.remaining reader.old) (R.remaining reader.new) (O.stream writer.old) (O.stream writer.new) result }
{
    let Some(side) = Side::new(side) else {
        return refuse(writer, Refusal::BadSide);
    };
    if capacity < 1 || capacity > MOST_TILES {
        return refuse(writer, Refusal::BadCapacity);
    }
    let mut engine = TableEngine::new(alloc, side, capacity);
    let served = serve_lines(alloc, language, reader, writer, &mut engine);
    end_session(writer, served)
}

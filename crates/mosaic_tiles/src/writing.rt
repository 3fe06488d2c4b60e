//! Writes levels, directions and upstream counts of tiles as files.
ghost use Rattle.std.specs.Prelude.{ℕ, Result, IfOk, map, string_bytes};
ghost use Rattle.mosaic_tiles.specs.Endings.{EndsWriting};
ghost use Rattle.mosaic_tiles.specs.Layers.{IsCountAsked};

use crate::layers::{Layer, Writing, corners_of, layer_bytes};
use disk::{FileDisk, Files};
use hgt::name_text;
use lattice::{Corner, Refusal};
use server::{MakeFault, Output, ServeFault, end_command, end_fault, refuse, tell_fault};
use std::alloc::Global;
use std::fs::{self, File};
use std::io::Write;
use std::marker::Brand;
use store::Store;

/// Why not all files were written.
#[derive(Drop)]
pub enum Fault {
    Refused(Refusal),
    /// The file at this path can't be opened or made.
    Path(String),
    /// A file wasn't written whole, and was removed.
    Output,
}

impl From<Refusal> for Fault {
    fn from(refusal: Refusal) -> Fault {
        Fault::Refused(refusal)
    }
}

/// Writes the files asked for, and answers the exit status. It prints the number of files, and on standard error the
/// name of each file once it is done. It overwrites no file.
pub fn write_tiles<O: Output>(rt: &HostRuntime, asked: &Writing<'_>, writer: &mut O) -> u8
    ensures { (written : Result ℕ Fault)
        × (IfOk written (IsCountAsked (map string_bytes asked.now.names.now))
        × EndsWriting written (O.stream writer.old) (O.stream writer.new) result) }
{
    let written = write_all(rt, asked);
    end_writing(rt.alloc(), written, writer)
}

/// Prints the number of files or why not all were written, and answers the exit status.
fn end_writing<O: Output>(alloc: Global, written: Result<u64, Fault>, writer: &mut O) -> u8
    ensures { EndsWriting written (O.stream writer.old) (O.stream writer.new) result }
{
    match written {
        Ok(count) => end_command(writer, Ok(count)),
        Err(Fault::Refused(refusal)) => refuse(writer, refusal),
        Err(Fault::Path(path)) => tell_fault(alloc, path.as_str(), MakeFault::Closed, writer),
        Err(Fault::Output) => end_fault(writer, ServeFault::Output),
    }
}

/// Makes the files, and answers their number.
fn write_all(rt: &HostRuntime, asked: &Writing<'_>) -> Result<u64, Fault>
    ensures { IfOk result (IsCountAsked (map string_bytes asked.now.names.now)) }
{
    let Ok(disk) = FileDisk::<Brand>::open(&mut Files::new(rt), asked.path) else {
        return Err(named(rt, asked.path));
    };
    let mut store = match Store::open(rt.alloc(), disk) {
        Ok(store) => store,
        Err(refused) => return Err(Fault::Refused(refused.refusal)),
    };
    let corners = corners_of(rt.alloc(), &store, asked.names)?;
    let count = corners.len();
    for i in 0..count {
        write_tile(rt, &mut store, asked, corners[i])?;
        let _ = eprintln!(rt; "{} {} of {count}", name_text(corners[i]), i + 1);
    }
    Ok(count as u64)
}

/// Makes one file.
fn write_tile(
    rt: &HostRuntime,
    store: &mut Store<FileDisk<Brand>>,
    asked: &Writing<'_>,
    corner: Corner,
) -> Result<(), Fault> {
    let bytes = layer_bytes(rt.alloc(), store, asked.layer, corner)?;
    let ending = match asked.layer {
        Layer::Levels => "hgt",
        Layer::Directions => "dir",
        Layer::Upstream => "acc",
    };
    let path = format!(in rt.alloc(); "{}/{}.{ending}", asked.folder, name_text(corner));
    match path {
        Ok(path) => make_file(rt, path, &bytes),
        Err(_) => Err(Fault::Refused(Refusal::NoMemory)),
    }
}

/// Makes a file with these bytes at a path where nothing is.
fn make_file(rt: &HostRuntime, path: String, bytes: &[u8]) -> Result<(), Fault> {
    let Ok(mut file) = File::create_new(rt, path.as_str()) else {
        return Err(Fault::Path(path));
    };
    if file.write_all(bytes).is_err() {
        let _ = fs::remove_file(rt, path.as_str());
        return Err(Fault::Output);
    }
    Ok(())
}

fn named(rt: &HostRuntime, path: &str) -> Fault {
    match String::from_str(rt.alloc(), path) {
        Ok(path) => Fault::Path(path),
        Err(_) => Fault::Refused(Refusal::NoMemory),
    }
}

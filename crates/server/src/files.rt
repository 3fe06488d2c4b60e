//! The system's files as places.
//!
//! No contract sees a file's bytes. So contracts speak of any images that its reads may give. Where each answer in the record of
//! the file's calls is right for them, the file was an honest disk, and all that is proved of a store on such a disk is true of
//! it.
ghost use Rattle.std.specs.Prelude.{◌≡◌, ◌≢◌, [], IfErr, IfOk, IsErr, drop};
ghost use Rattle.std.specs.IoError.{error_kind};
ghost use Rattle.std.specs.Vec.Iter.{into_iter_items};
ghost use Rattle.std.specs.declared.io.ErrorKind.TheVariants.{InvalidData};
ghost use Rattle.server.specs.Files.{IsReached};

use crate::places::{Lengthen, MakeFault, Places, TileFault};
use disk::{Disk, Fault, FileDisk, Files, World};
use std::alloc::{AllocError, Global};
use std::env::Args;
use std::io::{self, ErrorKind};
use std::marker::PhantomData;

impl<V: World> Lengthen for FileDisk<V> {
    fn lengthen(&mut self, sectors: u32) -> Result<(), Fault> {
        FileDisk::lengthen(self, sectors)
    }
}

/// The system's files by their paths. Reads of a store's file give the images of `V`.
#[derive(Drop)]
pub struct FilePlaces<V> {
    files: Files,
    world: PhantomData<V>,
}

impl<V: World> FilePlaces<V> {
    /// All files of the system.
    pub fn new(files: Files) -> FilePlaces<V> {
        FilePlaces {
            files,
            world: PhantomData,
        }
    }
}

impl<V: World> Places for FilePlaces<V> {
    type File = FileDisk<V>;

    ghost accessed = { λ old access new. IsReached old.files access new.files };

    fn make(&mut self, path: &str, sectors: u32) -> Result<FileDisk<V>, MakeFault> {
        match FileDisk::create(&mut self.files, path, sectors) {
            Ok(disk) => Ok(disk),
            Err(error) if error.kind() == ErrorKind::AlreadyExists => Err(MakeFault::Exists),
            Err(_) => Err(MakeFault::Closed),
        }
    }

    fn open(&mut self, path: &str) -> Option<FileDisk<V>> {
        FileDisk::open(&mut self.files, path).ok()
    }

    fn close(&mut self, disk: FileDisk<V>) {
        disk.close(&mut self.files);
    }

    fn read(&mut self, path: &str, most: u32) -> Result<Vec<u8>, TileFault> {
        match self.files.read(path, most) {
            Ok(bytes) => Ok(bytes),
            Err(error) if error.kind() == ErrorKind::OutOfMemory => Err(TileFault::NoMemory),
            Err(_) => Err(TileFault::Unreadable),
        }
    }
}

/// The words after the program's own name, of those that the system gives. Words that aren't UTF-8 ask for nothing, as no
/// words do.
pub fn words(alloc: Global, given: io::Result<Args>) -> io::Result<Vec<String>>
    ensures given { IfOk given (λ args. IfOk result (λ words. words.items ≡ drop 1 (into_iter_items args))) }
    ensures none { IfErr given (λ _. IfOk result (λ words. words.items ≡ [])) }
    ensures refused { IfErr given (λ error. error_kind error ≢ InvalidData → IsErr result) }
{
    match given {
        Ok(args) => Ok(after_name(alloc, args)?),
        Err(error) if error.kind() == ErrorKind::InvalidData => Ok(Vec::new(alloc)),
        Err(error) => Err(error),
    }
}

// All of them but the first.
fn after_name(alloc: Global, args: Args) -> Result<Vec<String>, AllocError>
    ensures { IfOk result (λ words. words.items ≡ drop 1 (into_iter_items args)) }
{
    args.skip(1).collect(alloc)
}

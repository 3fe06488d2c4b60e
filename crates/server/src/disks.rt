//! The subcommands on a store's disk, for any disk.
//!
//! Each, except making a store, has one session or two: an opening and the calls after it. Its contract names the
//! sessions, and what is written about the calls' answers.
ghost use Rattle.std.specs.Prelude.{◌≡◌, List, IfOk};
ghost use Rattle.store.specs.Sessions.{Session, IsMade, Upgraded};
ghost use Rattle.store.specs.Stores.{root_of};
ghost use Rattle.server.specs.OnDisks.{ChecksStore, GrowsAndUpgrades, ImportsTile, MakesStore, ServesLines, UpgradesStore, done_of};
ghost use Rattle.server.specs.Places.{Accessing};

use crate::exit::{end_command, end_format, end_report, end_session, refuse, write_message};
use crate::places::{Lengthen, Places, TileFault};
use crate::reporting::report;
use disk::Disk;
use edits::{Bytes, Command};
use engine::Engine;
use lattice::{Corner, Refusal};
use lines::Language;
use serving::{Output, serve_lines};
use std::alloc::Global;
use std::io::Read;
use store::{Store, open_session, upgrade_in_session};

/// Makes a disk a store without tiles. Returns the disk and the exit status.
pub fn make_store<D: Disk, O: Output>(disk: D, side: u32, capacity: u32, writer: &mut O) -> (D, u8)
    ensures { MakesStore D.Disk side capacity disk result.0 (O.stream writer.old) (O.stream writer.new) result.1 }
{
    let mut disk = disk;
    let formatted = Store::format(&mut disk, side, capacity);
    (disk, end_format(writer, formatted))
}

/// Imports the HGT bytes that these places have at `tile` into the store on a disk. Once the store is open, the places
/// are asked for the bytes of a tile and one more. Returns the disk and the exit status.
pub fn import_tile<P: Places, O: Output>(
    alloc: Global,
    places: &mut P,
    disk: P::File,
    corner: Corner,
    tile: &str,
    writer: &mut O,
) -> (P::File, u8)
    ensures { Accessing P.accessed places.old places.new (λ accesses. (sessions : List (Session P.File.Disk))
        × ImportsTile P.File.Disk corner tile.now accesses disk result.0 sessions (O.stream writer.old) (O.stream writer.new) result.1) }
{
    let mut store = match open_session(alloc, disk) {
        Ok(store) => store,
        Err(refused) => return (refused.disk, refuse(writer, refused.refusal)),
    };
    let bytes = match places.read(tile, Engine::side(&store).file_bytes() + 1) {
        Ok(bytes) => Bytes::new(bytes),
        Err(TileFault::Unreadable) => {
            let status = write_message(alloc, writer, b"mosaic: cannot read ", tile);
            return (store.into_disk(), status);
        }
        Err(TileFault::NoMemory) => {
            let status = refuse(writer, Refusal::NoMemory);
            return (store.into_disk(), status);
        }
    };
    let applied = Engine::apply(&mut store, &Command::Import { corner, bytes });
    (store.into_disk(), end_command(writer, applied))
}

/// Serves lines of this language on the store on a disk. Returns the disk and the exit status.
///
/// Answered commands survive a stop (a power cut). A stop since the reply to an item leaves the contents after that
/// item or a later one, or those of the commit then in doubt.
pub fn serve_store<D: Disk, R: Read, O: Output>(
    alloc: Global,
    language: Language,
    disk: D,
    reader: &mut R,
    writer: &mut O,
) -> (D, u8)
    ensures { (sessions : List (Session D.Disk))
        × ServesLines D.Disk language disk result.0 sessions (R.remaining reader.old) (R.remaining reader.new) (O.stream writer.old) (O.stream writer.new) result.1 }
{
    let mut store = match open_session(alloc, disk) {
        Ok(store) => store,
        Err(refused) => return (refused.disk, refuse(writer, refused.refusal)),
    };
    let served = serve_lines(alloc, language, reader, writer, &mut store);
    (store.into_disk(), end_session(writer, served))
}

/// Lengthens a disk to the sectors that the second version needs, and upgrades its store to that version. Returns the
/// disk and the exit status.
pub fn grow_and_upgrade<D: Disk + Lengthen, O: Output>(
    alloc: Global,
    disk: D,
    writer: &mut O,
) -> (D, u8)
    ensures { (sessions : List (Session D.Disk))
        × GrowsAndUpgrades D.Disk disk result.0 sessions (O.stream writer.old) (O.stream writer.new) result.1 }
{
    let store = match open_session(alloc, disk) {
        Ok(store) => store,
        Err(refused) => return (refused.disk, refuse(writer, refused.refusal)),
    };
    let sectors = store.sectors_to_upgrade();
    let mut disk = store.into_disk();
    if disk.lengthen(sectors).is_err() {
        return (disk, refuse(writer, Refusal::Device));
    }
    upgrade_store(alloc, disk, writer)
}

/// Upgrades the store on a disk to the second version. Returns the disk and the exit status.
pub fn upgrade_store<D: Disk, O: Output>(alloc: Global, disk: D, writer: &mut O) -> (D, u8)
    ensures { (sessions : List (Session D.Disk))
        × UpgradesStore D.Disk disk result.0 sessions (O.stream writer.old) (O.stream writer.new) result.1 }
{
    let mut store = match open_session(alloc, disk) {
        Ok(store) => store,
        Err(refused) => return (refused.disk, refuse(writer, refused.refusal)),
    };
    let upgraded = upgrade_counted(&mut store);
    (store.into_disk(), end_command(writer, upgraded))
}

// Upgrades a store, and answers the number of its accepted commands.
fn upgrade_counted<D: Disk>(store: &mut Store<D>) -> Result<u64, Refusal>
    ensures upgraded { IsMade D.Disk store.old (Upgraded (done_of result)) store.new }
    ensures count { IfOk result (λ k. k ≡ (root_of store.new).count) }
{
    upgrade_in_session(store)?;
    Ok(store.count())
}

/// Reports on the store on a disk: the numbers of accepted commands and of commits, its tiles in order, and the number
/// of points at which seams disagree. Returns the disk and the exit status.
pub fn check_store<D: Disk, O: Output>(alloc: Global, disk: D, writer: &mut O) -> (D, u8)
    ensures { (sessions : List (Session D.Disk))
        × ChecksStore D.Disk disk result.0 sessions (O.stream writer.old) (O.stream writer.new) result.1 }
{
    let mut store = match open_session(alloc, disk) {
        Ok(store) => store,
        Err(refused) => return (refused.disk, refuse(writer, refused.refusal)),
    };
    let seams = store.seams();
    let reported = report(alloc, &store, seams);
    (store.into_disk(), end_report(writer, reported))
}

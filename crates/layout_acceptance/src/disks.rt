//! Tests of disks in memory, with faults and over a file, call by call.
ghost use Rattle.std.specs.Prelude.{◌≡◌, ◌<◌, ◌≤◌, IfOk};
ghost use Rattle.disk.specs.MemDisk.{sectors_of};

use disk::{Disk, Fault, FaultOnceDisk, FileDisk, Files, FuseDisk, MemDisk, Torn, write_through};
use std::alloc::Global;
use std::fs;
use std::io::{self, ErrorKind};
use std::marker::Brand;
use std::test::Fail;
use test_tiles::{check_all, check_found, check_row};

// Three sectors: the first settled, the second written since the sync, the third written for the first time.
fn half_written(alloc: Global) -> Result<MemDisk, Fail>
    ensures { IfOk result (λ disk. sectors_of disk ≡ 3) }
{
    let mut disk = MemDisk::new(alloc, 3)?;
    disk.write(0, &[5; 4096])?;
    disk.write(1, &[1; 4096])?;
    disk.sync()?;
    disk.write(1, &[2; 4096])?;
    disk.write(2, &[3; 4096])?;
    Ok(disk)
}

// Whether the first sectors read as these bytes, each repeated.
fn read_as<D: Disk>(disk: &mut D, bytes: &[u8]) -> Result<bool, Fault> {
    let mut into = [0; 4096];
    for (byte, s) in bytes.iter().zip(0..u32::MAX) {
        if disk.sectors() <= s {
            return Ok(false);
        }
        disk.read(s, &mut into)?;
        if into != [*byte; 4096] {
            return Ok(false);
        }
    }
    Ok(true)
}

// Whether a stop leaves one sector, and then all, with these bytes, and a second stop finds them settled.
fn stops_as(alloc: Global, torn: Torn, second: u8, third: u8) -> Result<bool, Fail> {
    let mut disk = half_written(alloc)?;
    let mut is_right = read_as(&mut disk, &[5, 2, 3])?;
    let mut disk = half_written(alloc)?;
    disk.stop_at(1, torn)?;
    is_right = is_right && read_as(&mut disk, &[5, second, 3])?;
    disk.stop(torn)?;
    is_right = is_right && read_as(&mut disk, &[5, second, third])?;
    disk.stop(Torn::Fill(9))?;
    is_right = is_right && read_as(&mut disk, &[5, second, third])?;
    Ok(is_right && disk.writes() == 4)
}

#[test]
fn a_stop_leaves_what_its_kind_says(rt: HostRuntime) -> Result<(), Fail> {
    let all = [
        stops_as(rt.alloc(), Torn::Old, 1, 0)?,
        stops_as(rt.alloc(), Torn::New, 2, 3)?,
        stops_as(rt.alloc(), Torn::Fill(0xa7), 0xa7, 0xa7)?,
    ];
    check_all("a stop", &all)?;
    Ok(())
}

#[test]
fn a_settled_sector_outlasts_a_stop(rt: HostRuntime) -> Result<(), Fail> {
    let mut disk = MemDisk::new(rt.alloc(), 2)?;
    write_through(&mut disk, 1, &[6; 4096])?;
    assert!(rt; disk.sectors() == 2);
    disk.stop(Torn::Fill(0xff))?;
    assert!(rt; read_as(&mut disk, &[0, 6])?);
    Ok(())
}

// A write, a sync, a write and a read, and which of them answered Ok.
fn four_calls<D: Disk>(disk: &mut D) -> [bool; 4]
    requires { 2 ≤ D.size disk.old }
{
    let first = disk.write(0, &[1; 4096]).is_ok();
    let synced = disk.sync().is_ok();
    let second = disk.write(1, &[2; 4096]).is_ok();
    let read = disk.read(1, &mut [0; 4096]).is_ok();
    [first, synced, second, read]
}

// Whether the disk has these bytes in its two sectors after this many writes.
fn holds(disk: MemDisk, writes: u64, first: u8, second: u8) -> Result<bool, Fault> {
    let mut disk = disk;
    Ok(read_as(&mut disk, &[first, second])? && disk.sectors() == 2 && disk.writes() == writes)
}

#[test]
fn a_fuse_fails_from_its_call_on(rt: HostRuntime) -> Result<(), Fail> {
    let table = [
        (0, [false, false, false, false], 0, 0, 0),
        (1, [true, false, false, false], 1, 1, 0),
        (2, [true, true, false, false], 1, 1, 0),
        (3, [true, true, true, false], 2, 1, 2),
        (4, [true, true, true, true], 2, 1, 2),
        (9, [true, true, true, true], 2, 1, 2),
    ];
    for (calls, passed, writes, first, second) in table {
        let mut fuse = FuseDisk::new(MemDisk::new(rt.alloc(), 2)?, calls);
        let is_told = four_calls(&mut fuse) == passed;
        let is_behind = holds(fuse.into_inner(), writes, first, second)?;
        check_row(&("a fuse, calls", calls), is_told && is_behind)?;
    }
    Ok(())
}

#[test]
fn a_fault_once_fails_its_call_alone(rt: HostRuntime) -> Result<(), Fail> {
    let table = [
        (0, [false, true, true, true], 1, 0, 2),
        (1, [true, false, true, true], 2, 1, 2),
        (2, [true, true, false, true], 1, 1, 0),
        (3, [true, true, true, false], 2, 1, 2),
        (4, [true, true, true, true], 2, 1, 2),
    ];
    for (call, passed, writes, first, second) in table {
        let mut faulty = FaultOnceDisk::new(MemDisk::new(rt.alloc(), 2)?, call);
        let is_told = four_calls(&mut faulty) == passed;
        let is_behind = holds(faulty.into_inner(), writes, first, second)?;
        check_row(&("a faulty disk, call", call), is_told && is_behind)?;
    }
    Ok(())
}

// A sector whose ends differ from one another and from the rest.
fn marked() -> [u8; 4096] {
    let mut bytes = [9; 4096];
    bytes[0] = 1;
    bytes[4095] = 2;
    bytes
}

// Settles the second sector with the marked bytes.
fn write_second<D: Disk>(disk: &mut D) -> Result<(), Fault> {
    if 1 < disk.sectors() {
        write_through(disk, 1, &marked())?;
    }
    Ok(())
}

fn read_sector<D: Disk>(disk: &mut D, s: u32) -> Result<[u8; 4096], Fault> {
    let mut into = [9; 4096];
    if s < disk.sectors() {
        disk.read(s, &mut into)?;
    }
    Ok(into)
}

// Whether these are three sectors: zeros, the marked bytes and zeros.
fn has_marked_second(bytes: &[u8]) -> bool {
    bytes.len() == 12_288
        && bytes.get(..4096) == Some([0; 4096].as_slice())
        && bytes.get(4096..8192) == Some(marked().as_slice())
        && bytes.get(8192..) == Some([0; 4096].as_slice())
}

#[test]
fn a_file_keeps_what_was_written(rt: HostRuntime) -> Result<(), Fail> {
    let mut files = Files::new(&rt);
    let path = "disk_test_kept";
    let _ = fs::remove_file(&rt, path);
    let mut disk = FileDisk::<Brand>::create(&mut files, path, 3)?;
    assert!(rt; disk.sectors() == 3 && read_sector(&mut disk, 1)? == [0; 4096]);
    write_second(&mut disk)?;
    drop(disk);

    let is_there = has_marked_second(&fs::read(&rt, path)?);
    assert!(rt; is_there, "what the file holds");

    let mut again = FileDisk::<Brand>::open(&mut files, path)?;
    let all = [
        again.sectors() == 3,
        read_sector(&mut again, 0)? == [0; 4096],
        read_sector(&mut again, 1)? == marked(),
        read_sector(&mut again, 2)? == [0; 4096],
    ];
    check_all("what is read of the file", &all)?;
    fs::write(&rt, path, [5; 12_288].as_slice())?;
    assert!(rt; read_as(&mut again, &[5, 5, 5])?, "what the file holds now");
    fs::remove_file(&rt, path)?;
    Ok(())
}

#[test]
fn a_file_is_cut_into_whole_sectors(rt: HostRuntime) -> Result<(), Fail> {
    let mut files = Files::new(&rt);
    let path = "disk_test_cut";
    for (bytes, sectors) in [(0, 0), (4095, 0), (4096, 1), (12_287, 2), (12_288, 3)] {
        fs::File::create(&rt, path)?.set_len(bytes)?;
        let disk = FileDisk::<Brand>::open(&mut files, path)?;
        check_found(&("bytes", bytes), &disk.sectors(), &sectors)?;
    }
    fs::remove_file(&rt, path)?;
    Ok(())
}

#[test]
fn a_short_file_is_a_fault(rt: HostRuntime) -> Result<(), Fail> {
    let mut files = Files::new(&rt);
    let path = "disk_test_short";
    let _ = fs::remove_file(&rt, path);
    let mut disk = FileDisk::<Brand>::create(&mut files, path, 2)?;
    fs::write(&rt, path, [5; 4097].as_slice())?;
    assert!(rt; read_as(&mut disk, &[5])?);
    assert!(rt; read_sector(&mut disk, 1) == Err(Fault));
    if 1 < disk.sectors() {
        disk.write(1, &marked())?;
    }
    assert!(rt; read_sector(&mut disk, 1)? == marked());
    fs::remove_file(&rt, path)?;
    Ok(())
}

fn kind_of<T: Drop>(answer: io::Result<T>) -> Option<ErrorKind> {
    match answer {
        Ok(_) => None,
        Err(error) => Some(error.kind()),
    }
}

#[test]
fn a_file_is_made_once_and_opened_where_it_is(rt: HostRuntime) -> Result<(), Fail> {
    let mut files = Files::new(&rt);
    let path = "disk_test_once";
    let _ = fs::remove_file(&rt, path);
    let missing = kind_of(FileDisk::<Brand>::open(&mut files, path));
    assert!(rt; missing == Some(ErrorKind::NotFound));
    fs::write(&rt, path, [5; 4097].as_slice())?;
    let there = kind_of(FileDisk::<Brand>::create(&mut files, path, 7));
    assert!(rt; there == Some(ErrorKind::AlreadyExists));
    assert!(rt; fs::metadata(&rt, path)?.len() == 4097);
    let nowhere = kind_of(FileDisk::<Brand>::create(&mut files, "disk_test_no_folder/m", 7));
    assert!(rt; nowhere == Some(ErrorKind::NotFound));
    fs::remove_file(&rt, path)?;
    Ok(())
}

#[test]
fn a_file_is_one_disk_at_a_time(rt: HostRuntime) -> Result<(), Fail> {
    let mut files = Files::new(&rt);
    let path = "disk_test_lock";
    let _ = fs::remove_file(&rt, path);
    let made = FileDisk::<Brand>::create(&mut files, path, 2)?;
    let second = kind_of(FileDisk::<Brand>::open(&mut files, path));
    assert!(rt; second == Some(ErrorKind::WouldBlock));
    drop(made);
    let opened = FileDisk::<Brand>::open(&mut files, path)?;
    assert!(rt; opened.sectors() == 2);
    let third = kind_of(FileDisk::<Brand>::open(&mut files, path));
    assert!(rt; third == Some(ErrorKind::WouldBlock));
    drop(opened);
    fs::remove_file(&rt, path)?;
    Ok(())
}

#[test]
fn a_file_grows_by_sectors_of_zeros(rt: HostRuntime) -> Result<(), Fail> {
    let mut files = Files::new(&rt);
    let path = "disk_test_grow";
    fs::write(&rt, path, [5; 4097].as_slice())?;
    let mut disk = FileDisk::<Brand>::open(&mut files, path)?;
    disk.lengthen(3)?;
    assert_eq!(rt; disk.sectors(), 3);
    drop(disk);
    let bytes = fs::read(&rt, path)?;
    let all = [
        bytes.len() == 12_288,
        bytes.get(..4096) == Some([5; 4096].as_slice()),
        bytes.get(4096..) == Some([0; 8192].as_slice()),
    ];
    check_all("a file that grew", &all)?;
    fs::write(&rt, path, [5; 8195].as_slice())?;
    FileDisk::<Brand>::open(&mut files, path)?.lengthen(2)?;
    assert!(rt; fs::metadata(&rt, path)?.len() == 8195);
    let missing = kind_of(FileDisk::<Brand>::open(&mut files, "disk_test_none"));
    assert!(rt; missing == Some(ErrorKind::NotFound));
    fs::remove_file(&rt, path)?;
    Ok(())
}

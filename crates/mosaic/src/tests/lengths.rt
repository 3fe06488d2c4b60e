//! Tests of what no contract sees of a file: its length, and where a sector is in it.
use super::{assert_all, cleared, ends};
use disk::{Disk, FileDisk, Files};
use std::fs;
use std::marker::Brand;
use std::test::Fail;
use store::Store;

/// Whether a sector of the disk can be filled with this byte.
fn fills(disk: &mut FileDisk<Brand>, sector: u32, byte: u8) -> bool {
    sector < disk.sectors() && disk.write(sector, &[byte; 4096]).is_ok()
}

/// Whether reads of the sector give these bytes.
fn gives(disk: &mut FileDisk<Brand>, sector: u32, bytes: &[u8]) -> bool {
    let mut into = [0; 4096];
    sector < disk.sectors() && disk.read(sector, &mut into).is_ok() && into.as_slice() == bytes
}

/// The bytes from one index to before another; none if there are fewer.
fn part(bytes: &[u8], first: usize, end: usize) -> &[u8] {
    match bytes.get(first..end) {
        Some(part) => part,
        None => &[],
    }
}

/// In a sparse file of 6 GiB, sectors 4 GiB apart are different ones.
#[test]
fn sectors_beyond_4_gib(rt: HostRuntime) -> Result<(), Fail> {
    let mut files = Files::new(&rt);
    let m = cleared(&rt, "server_test_far");
    fs::File::create(&rt, m)?.set_len(6_442_450_944)?;
    let mut disk = FileDisk::<Brand>::open(&mut files, m)?;
    assert_eq!(rt; disk.sectors(), 1_572_864);
    let written = [
        fills(&mut disk, 5, 1),
        fills(&mut disk, 1_048_581, 2),
        fills(&mut disk, 1_572_863, 3),
        disk.sync().is_ok(),
    ];
    assert_all(&rt, &written, "sectors are written");
    drop(disk);
    assert_eq!(rt; fs::metadata(&rt, m)?.len(), 6_442_450_944);
    let mut disk = FileDisk::<Brand>::open(&mut files, m)?;
    let read = [
        gives(&mut disk, 5, &[1; 4096]),
        gives(&mut disk, 6, &[0; 4096]),
        gives(&mut disk, 1_048_581, &[2; 4096]),
        gives(&mut disk, 1_572_863, &[3; 4096]),
    ];
    assert_all(&rt, &read, "sectors beyond 4 GiB");
    drop(disk);
    fs::remove_file(&rt, m)?;
    Ok(())
}

/// A new file has as many sectors as were asked for, and each is where its number says.
#[test]
fn sectors_of_a_format(rt: HostRuntime) -> Result<(), Fail> {
    let mut files = Files::new(&rt);
    let m = cleared(&rt, "server_test_sectors");
    assert!(rt; ends(&rt, &["format", m, "3", "1"], b"", 0, b"OK 0\n"));
    let bytes = fs::read(&rt, m)?;
    assert_eq!(rt; bytes.len(), 90_112);
    let mut disk = FileDisk::<Brand>::open(&mut files, m)?;
    assert_eq!(rt; disk.sectors(), 22);
    let all = [
        gives(&mut disk, 0, part(&bytes, 0, 4096)),
        gives(&mut disk, 1, part(&bytes, 4096, 8192)),
        gives(&mut disk, 3, part(&bytes, 12_288, 16_384)),
        fills(&mut disk, 3, 7),
        disk.sync().is_ok(),
        !gives(&mut disk, 22, &[0; 4096]),
    ];
    assert_all(&rt, &all, "sectors of a format");
    drop(disk);
    let changed = fs::read(&rt, m)?;
    let all = [
        changed.len() == 90_112,
        part(&changed, 0, 12_288) == part(&bytes, 0, 12_288),
        part(&changed, 12_288, 16_384) == [7; 4096].as_slice(),
        part(&changed, 16_384, 90_112) == part(&bytes, 16_384, 90_112),
    ];
    assert_all(&rt, &all, "the third sector");
    fs::remove_file(&rt, m)?;
    Ok(())
}

/// A file is made with the length asked for. An upgrade lengthens it, and keeps its sectors.
#[test]
fn lengths_of_files(rt: HostRuntime) -> Result<(), Fail> {
    let mut files = Files::new(&rt);
    let m = cleared(&rt, "server_test_lengths");
    drop(FileDisk::<Brand>::create(&mut files, m, 16)?);
    assert_eq!(rt; fs::metadata(&rt, m)?.len(), 65_536);
    let mut disk = FileDisk::<Brand>::open(&mut files, m)?;
    assert_eq!(rt; disk.sectors(), 16);
    Store::format_1(&mut disk, 3, 1).map_err(|_| "not formatted")?;
    assert!(rt; fills(&mut disk, 15, 9));
    drop(disk);
    assert_eq!(rt; fs::metadata(&rt, m)?.len(), 65_536);
    assert!(rt; ends(&rt, &["upgrade", m], b"", 0, b"OK 0\n"));
    assert_eq!(rt; fs::metadata(&rt, m)?.len(), 90_112);
    let mut disk = FileDisk::<Brand>::open(&mut files, m)?;
    let all = [
        gives(&mut disk, 15, &[9; 4096]),
        gives(&mut disk, 21, &[0; 4096]),
    ];
    assert_all(&rt, &all, "sectors of a file that was made longer");
    drop(disk);
    fs::remove_file(&rt, m)?;
    Ok(())
}

//! Tests of what is read from bytes.
use crate::ImageDisk;
use disk::{Disk, Fault};
use std::alloc::Global;
use std::test::Fail;

// Two whole sectors, of ones and of twos, and ten more bytes.
fn image(alloc: Global) -> Result<Vec<u8>, Fail> {
    let mut bytes = vec![in alloc; 1u8; 4096]?;
    bytes.extend_from_slice(&[2; 4096])?;
    bytes.extend_from_slice(&[3; 10])?;
    Ok(bytes)
}

#[test]
fn whole_sectors_are_read(rt: HostRuntime) -> Result<(), Fail> {
    let bytes = image(rt.alloc())?;
    let mut disk = ImageDisk::new(&bytes);
    assert_eq!(rt; disk.sectors(), 2);
    let mut sector = [0; 4096];
    assert!(rt; disk.read(1, &mut sector) == Ok(()));
    assert!(rt; sector == [2; 4096]);
    assert!(rt; disk.read(0, &mut sector) == Ok(()));
    assert!(rt; sector == [1; 4096]);
    assert_eq!(rt; ImageDisk::new(&[7; 4095]).sectors(), 0);
    Ok(())
}

#[test]
fn a_write_is_a_fault(rt: HostRuntime) -> Result<(), Fail> {
    let bytes = image(rt.alloc())?;
    let mut disk = ImageDisk::new(&bytes);
    assert_eq!(rt; disk.sectors(), 2);
    let mut sector = [9; 4096];
    assert!(rt; disk.write(0, &sector) == Err(Fault));
    assert!(rt; disk.sync() == Ok(()));
    assert!(rt; disk.read(0, &mut sector) == Ok(()));
    assert!(rt; sector == [1; 4096]);
    Ok(())
}

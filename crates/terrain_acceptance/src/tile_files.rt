//! Tests of samples as bytes, sides, and the names of tiles and files.
use hgt::*;
use lattice::{Corner, Refusal, Side, VOID};
use std::test::Fail;
use test_tiles::{A, A_SAMPLES, check_found};

#[test]
fn reads_and_writes_samples(rt: HostRuntime) -> Result<(), Fail> {
    let side = Side::new(3).ok_or("no side")?;
    let read = samples(rt.alloc(), &A, side)?;
    assert!(rt; read.as_slice() == A_SAMPLES.as_slice());
    let written = bytes_of(rt.alloc(), &A_SAMPLES)?;
    assert!(rt; written.as_slice() == A.as_slice());
    Ok(())
}

// None of these is a tile of side 3.
const BAD_LENGTHS: [&[u8]; 4] = [
    &[],
    &[0, 9, 0, 9, 0, 9, 0, 9, 0],
    &[0, 9, 0, 9, 0, 9, 0, 9, 0, 1, 0, 9, 0, 9, 0, 9],
    &[0, 9, 0, 9, 0, 9, 0, 9, 0, 1, 0, 9, 0, 9, 0, 9, 0],
];

#[test]
fn refuses_other_lengths(rt: HostRuntime) -> Result<(), Fail> {
    let side = Side::new(3).expect(&rt, "3 is a side");
    for bytes in BAD_LENGTHS.iter() {
        let refused = samples(rt.alloc(), bytes, side).err();
        check_found(bytes, &refused, &Some(Refusal::BadLength))?;
    }
    Ok(())
}

// The answers, also if an allocation is refused, as `rt try --test --fail-alloc N` does.
#[test]
fn answers_without_memory(rt: HostRuntime) {
    let side = Side::new(3).expect(&rt, "3 is a side");
    match samples(rt.alloc(), &A, side) {
        Ok(read) => assert!(rt; read.as_slice() == A_SAMPLES.as_slice()),
        Err(refusal) => assert!(rt; refusal == Refusal::NoMemory),
    }
    match bytes_of(rt.alloc(), &A_SAMPLES) {
        Ok(written) => assert!(rt; written.as_slice() == A.as_slice()),
        Err(refused) => assert!(rt; Refusal::from(refused) == Refusal::NoMemory),
    }
}

#[test]
fn knows_voids_and_signs(rt: HostRuntime) -> Result<(), Fail> {
    let bytes = [0x80, 0x00, 0xff, 0xff, 0x00, 0x09];
    check_found(&"void", &sample(&bytes, 0), &VOID)?;
    check_found(&"below the sea", &sample(&bytes, 1), &-1)?;
    check_found(&"above it", &sample(&bytes, 2), &9)?;
    let mut written = [0; 6];
    put_sample(&mut written, 0, VOID);
    put_sample(&mut written, 1, -1);
    put_sample(&mut written, 2, 9);
    assert!(rt; written == bytes);
    let mut read = [0; 3];
    read_samples(&bytes, &mut read);
    assert!(rt; read == [VOID, -1, 9]);
    let mut again = [0; 6];
    write_samples(&read, &mut again);
    assert!(rt; again == bytes);
    Ok(())
}

const SIDES: [(u32, bool); 6] = [
    (0, false),
    (2, false),
    (3, true),
    (1201, true),
    (3601, true),
    (3602, false),
];

#[test]
fn takes_sides(rt: HostRuntime) -> Result<(), Fail> {
    for (side, is_side) in SIDES.iter() {
        check_found(side, &side_ok(*side), is_side)?;
    }
    Ok(())
}

// A name, and the latitude and longitude of the corner that it names.
const NAMES: [(&str, i16, i16); 7] = [
    ("N00E000", 0, 0),
    ("s00w000", 0, 0),
    ("N37W105", 37, -105),
    ("n37w105", 37, -105),
    ("S01W001", -1, -1),
    ("S90W180", -90, -180),
    ("N89E179", 89, 179),
];

const BAD_NAMES: [&str; 11] = [
    "", "N37W10", "N37W1055", "S91E000", "N90E000", "N00E180", "N00W181", "X00E000", "N0AE000",
    "N00N000", "+37W105",
];

#[test]
fn reads_names(rt: HostRuntime) -> Result<(), Fail> {
    for (name, lat, lon) in NAMES.iter() {
        let corner = Corner {
            lat: *lat,
            lon: *lon,
        };
        check_found(name, &name_of(name.as_bytes()), &Ok(corner))?;
    }
    Ok(())
}

#[test]
fn refuses_other_names(rt: HostRuntime) -> Result<(), Fail> {
    for name in BAD_NAMES.iter() {
        let found = name_of(name.as_bytes());
        check_found(name, &found, &Err(Refusal::BadName))?;
    }
    Ok(())
}

const PATHS: [&str; 4] = [
    "N37W105.hgt",
    "n37w105.SRTMGL1.HGT",
    "tiles/S01E000.hgt/N37W105.hGt",
    "/N37W105.hgt",
];

const BAD_PATHS: [&str; 8] = [
    "",
    "N37W105",
    "N37W105.tif",
    "N37W105hgt",
    "N37W105.hgt/",
    "N37W105.hgt.zip",
    "N37W1.a.hgt",
    "S91E000.hgt",
];

#[test]
fn reads_file_names(rt: HostRuntime) -> Result<(), Fail> {
    let corner = Corner { lat: 37, lon: -105 };
    for path in PATHS.iter() {
        check_found(path, &file_name(path.as_bytes()), &Ok(corner))?;
    }
    Ok(())
}

#[test]
fn refuses_other_file_names(rt: HostRuntime) -> Result<(), Fail> {
    for path in BAD_PATHS.iter() {
        let found = file_name(path.as_bytes());
        check_found(path, &found, &Err(Refusal::BadName))?;
    }
    Ok(())
}

const PRINTED: [(i16, i16, &str); 5] = [
    (0, 0, "N00E000"),
    (37, -105, "N37W105"),
    (-1, -1, "S01W001"),
    (-90, 7, "S90E007"),
    (5, 179, "N05E179"),
];

#[test]
fn prints_names(rt: HostRuntime) -> Result<(), Fail> {
    for (lat, lon, name) in PRINTED.iter() {
        let corner = Corner {
            lat: *lat,
            lon: *lon,
        };
        check_found(&corner, &name_text(corner).as_str(), name)?;
    }
    Ok(())
}

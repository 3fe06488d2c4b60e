//! Tests of good images with random changes: each is refused with its right number, or opens.
use crate::asserting::assert_row;
use crate::checking::check;
use crate::good_images::{
    EDITED, EDITED_BY_VERSION_2, Good, ONE_TILE, ONE_TILE_BY_VERSION_2, TWO_TILES,
    WITH_KEPT_PLANES, WITH_SINKS, image_of,
};
use crate::image::{Change, Image};
use lattice::Refusal;
use seeded_random::Random;
use std::alloc::Global;
use std::process::Abort;
use std::test::Fail;

/// The good images, and the seeds of their changes.
const IMAGES: [(&str, Good, u64); 7] = [
    ("of one tile", ONE_TILE, 1),
    ("of two tiles", TWO_TILES, 2),
    ("of edited tiles", EDITED, 3),
    ("with sinks", WITH_SINKS, 4),
    ("with kept planes", WITH_KEPT_PLANES, 5),
    (
        "of one tile by the second version",
        ONE_TILE_BY_VERSION_2,
        6,
    ),
    (
        "of edited tiles by the second version",
        EDITED_BY_VERSION_2,
        7,
    ),
];

/// Each kind of result occurs: opened, and these refusals.
const KINDS: [Option<Refusal>; 5] = [
    None,
    Some(Refusal::NotAStore),
    Some(Refusal::Version),
    Some(Refusal::Damaged),
    Some(Refusal::TooSmall),
];

/// The number of changed images for each good one.
const TRIES: u64 = 450;

/// Where the fields of roots and records begin, and where some of them end.
const PLACES: [usize; 30] = [
    0, 1, 7, 8, 11, 12, 16, 20, 24, 31, 32, 40, 43, 44, 63, 64, 65, 66, 68, 72, 76, 80, 84, 96,
    100, 3903, 3904, 3908, 3912, 4095,
];

/// Numbers at the limits of what is allowed.
const NUMBERS: [u32; 27] = [
    0,
    1,
    2,
    3,
    4,
    5,
    6,
    7,
    9,
    12,
    14,
    15,
    16,
    17,
    22,
    0xa7,
    240,
    241,
    1201,
    1202,
    3601,
    3602,
    65_446,
    0x7fff_ffff,
    0x8000_0000,
    0xffff_fffe,
    0xffff_ffff,
];

// Changes a number in the gates, the roots or the first pages.
fn change_number(random: &mut Random, image: &Image) -> Result<Image, Fail> {
    let number = random.one_of(&NUMBERS).to_le_bytes();
    let count = 1 + random.next_below(4) as usize;
    image.with(&[Change {
        sector: random.next_below(6),
        at: random.one_of(&PLACES),
        bytes: &number[..count],
    }])
}

// Changes a byte anywhere.
fn change_byte(random: &mut Random, image: &Image) -> Result<Image, Fail> {
    let sectors = u32::try_from(image.sectors.len()).unwrap_or(1).max(1);
    let byte = random.next_below(256) as u8;
    image.with(&[Change {
        sector: random.next_below(sectors),
        at: random.next_below(4096) as usize,
        bytes: &[byte],
    }])
}

// Copies one sector over another.
fn copy_sector(random: &mut Random, image: &Image) -> Result<Image, Fail> {
    let from = random.next_below(8) as usize;
    let bytes = image.sectors.get(from).ok_or("no sector")?;
    image.with(&[Change {
        sector: random.next_below(8),
        at: 0,
        bytes,
    }])
}

// Cuts the disk too small for any store.
fn cut_short(random: &mut Random, image: &Image) -> Result<Image, Fail> {
    let mut sectors = image.sectors.clone()?;
    sectors.truncate(8 + random.next_below(8) as usize);
    Ok(Image { sectors })
}

fn change(random: &mut Random, image: &Image) -> Result<Image, Fail> {
    match random.next_below(16) {
        0 | 1 => copy_sector(random, image),
        2 | 3 => change_byte(random, image),
        4 => cut_short(random, image),
        _ => change_number(random, image),
    }
}

// The image with one to three changes.
fn mutated(random: &mut Random, image: &Image) -> Result<Image, Fail> {
    let mut image = change(random, image)?;
    for _ in 0..random.next_below(3) {
        image = change(random, &image)?;
    }
    Ok(image)
}

// Tries many changed images.
fn try_many(
    rt: &impl Abort,
    alloc: Global,
    name: &str,
    image: &Image,
    seed: u64,
) -> Result<(), Fail> {
    let mut random = Random::new(seed);
    let mut came = Vec::new(alloc);
    for number in 0..TRIES {
        let image = mutated(&mut random, image)?;
        came.push(check(rt, alloc, &image, (name, number))?)?;
    }
    check_kinds(rt, name, &came);
    Ok(())
}

fn check_kinds(rt: &impl Abort, name: &str, came: &[Option<Refusal>]) {
    for kind in KINDS.iter() {
        let has_come = came.contains(kind);
        assert_row(
            rt,
            has_come,
            "a kind of answer that never came",
            &(name, kind),
        );
    }
}

#[test]
fn changes_that_look_random(rt: HostRuntime) -> Result<(), Fail> {
    let alloc = rt.alloc();
    for (name, good, seed) in IMAGES {
        try_many(&rt, alloc, name, &image_of(alloc, good)?, seed)?;
    }
    Ok(())
}

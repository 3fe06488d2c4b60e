//! Rows of images of a store of the second version.
use crate::image_rows::{DAMAGED, OPENS, ROOT_A, Row, SMALL};

pub(crate) const NUMBERS_BY_VERSION_2: [Row; 6] = [
    // Sides of 1202, 3601 and 3602.
    (ROOT_A, 12, &[0xb2, 4], SMALL),
    (ROOT_A, 12, &[0x11, 0x0e], SMALL),
    (ROOT_A, 12, &[0x12, 0x0e], DAMAGED),
    // A capacity of two tiles.
    (ROOT_A, 16, &[2], SMALL),
    // In the first version index pages are data pages, and a side of 1202 isn't allowed.
    (ROOT_A, 8, &[1], OPENS),
    (ROOT_A, 8, &[1, 0, 0, 0, 0xb2, 4], DAMAGED),
];

// The pages of the tile: the records of its heights, levels and labels; the index pages that these list; and pages that
// the first two index pages list.

const RECORD: u32 = 6;

const LEVELS: u32 = 9;

const LABELS: u32 = 12;

const INDEX: u32 = 4;

const INDEX_OF_LEVELS: u32 = 7;

const INDEX_OF_LABELS: u32 = 10;

const PAGE: u32 = 5;

const PAGE_OF_LEVELS: u32 = 8;

/// All pages that the root reaches.
pub(crate) const PAGES_BY_VERSION_2: [u32; 9] = [
    RECORD,
    INDEX,
    PAGE,
    LEVELS,
    INDEX_OF_LEVELS,
    PAGE_OF_LEVELS,
    LABELS,
    INDEX_OF_LABELS,
    11,
];

pub(crate) const INDEX_PAGES: [Row; 18] = [
    // Bytes after the number of an index page, and after that of a record.
    (INDEX, 4, &[1], DAMAGED),
    (INDEX, 4095, &[1], DAMAGED),
    (INDEX_OF_LABELS, 4, &[1], DAMAGED),
    (RECORD, 4, &[1], DAMAGED),
    // An index page that lists itself, its record, a gate, a root, and the number of sectors.
    (INDEX, 0, &[INDEX as u8, 0, 0, 0], DAMAGED),
    (INDEX, 0, &[RECORD as u8, 0, 0, 0], DAMAGED),
    (INDEX, 0, &[0], DAMAGED),
    (INDEX, 0, &[3], DAMAGED),
    (INDEX, 0, &[22], DAMAGED),
    // A record that lists itself, its data page, a root, and the number of sectors.
    (RECORD, 0, &[RECORD as u8, 0, 0, 0], DAMAGED),
    (RECORD, 0, &[PAGE as u8, 0, 0, 0], DAMAGED),
    (RECORD, 0, &[3], DAMAGED),
    (RECORD, 0, &[22], DAMAGED),
    // One index page for levels and labels, one for heights and levels, and one data page for two planes.
    (LABELS, 0, &[INDEX_OF_LEVELS as u8, 0, 0, 0], DAMAGED),
    (LEVELS, 0, &[INDEX as u8, 0, 0, 0], DAMAGED),
    (
        INDEX_OF_LABELS,
        0,
        &[PAGE_OF_LEVELS as u8, 0, 0, 0],
        DAMAGED,
    ),
    (INDEX_OF_LABELS, 0, &[PAGE as u8, 0, 0, 0], DAMAGED),
    // Any bytes are heights.
    (PAGE, 0, &[0x80; 18], OPENS),
];
